// The verdict on a volume and the rescue's cut, from the lists and stores of its two partitions.
ghost use Rattle.std.specs.Prelude.{◌≡◌};
ghost use Rattle.label.specs.Steps.{fields_in};
ghost use Rattle.volume.specs.Volume.{given_by};
ghost use Rattle.volume.specs.Answers.{Rescues};
ghost use Rattle.volume.specs.AnswerSteps.{Judges};
ghost use Rattle.volume.specs.Readers.{given_to, CutsIn, Cuts};

use crate::filled::Filled;
use crate::filling::{ELEMENTS, Partition, Tables};
use crate::judge::Break;
use crate::search::{FoundCut, Search};
use crate::sound::Reader;
use crate::{chains, judge, search};
use constructs::{CONSTRUCTS, NUMBERS};
use index_values::Partitions;
use label::LabelFields;
use refusals::Refusal;

// The cut of a volume whose tables are filled.
fn cut_by(filled: Filled) -> Option<FoundCut>
    ensures { CutsIn filled.entry result }
{
    let mut generations = [0u64; CONSTRUCTS];
    let k = chains::chain(&filled.reader, &filled.data, &mut generations);
    let mut beginnings = [0u32; ELEMENTS];
    search::put_beginnings(&filled.data, k, &mut beginnings);
    let search = Search {
        filled,
        generations: &generations,
        beginnings: &beginnings,
    };
    search.first_cut()
}

// The cut of the volume that is read so, of two lists that are well formed.
fn rescue_with(reader: Reader, index: Partition, data: Partition) -> Option<FoundCut>
    ensures { Cuts reader.entry index.entry «data».entry result }
{
    let size = reader.volume.block_size;
    let mut constructs = [0u32; NUMBERS];
    let mut reach = [0u32; ELEMENTS];
    let index = Tables::fill(index, size, &mut constructs, &mut reach);
    let mut data_constructs = [0u32; NUMBERS];
    let mut data_reach = [0u32; ELEMENTS];
    let data = Tables::fill(data, size, &mut data_constructs, &mut data_reach);
    cut_by(Filled {
        reader,
        index,
        data,
    })
}

// What the indexes are read with, by the index side's label.
fn reader_of(index_store: &[u8], label: LabelFields) -> Reader<'_>
    ensures { given_to result ≡ given_by (fields_in index_store.now label) }
{
    Reader {
        uuid: slices::part(index_store, label.uuid.from, label.uuid.len),
        volume: Partitions {
            index_letter: label.index_letter,
            data_letter: label.data_letter,
            block_size: label.block_size,
        },
    }
}

// The cut that keeps most index constructs in the index partition and leaves a consistent volume.
pub fn find_cut(
    index_list: &[u8],
    index_store: &[u8],
    data_list: &[u8],
    data_store: &[u8],
) -> Result<FoundCut, Refusal>
    ensures { Rescues index_list.now index_store.now data_list.now data_store.now result }
{
    let label = labels::check(index_list, index_store, data_list, data_store)?;
    let index = Partition {
        list: index_list,
        store: index_store,
    };
    let data = Partition {
        list: data_list,
        store: data_store,
    };
    rescue_with(reader_of(index_store, label), index, data).ok_or(Refusal::NoCut)
}

// The first break of the volume, none where it is consistent.
pub fn find_break(
    index_list: &[u8],
    index_store: &[u8],
    data_list: &[u8],
    data_store: &[u8],
) -> Result<Option<Break>, Refusal>
    ensures { Judges index_list.now index_store.now data_list.now data_store.now result }
{
    let label = labels::check(index_list, index_store, data_list, data_store)?;
    let index = Partition {
        list: index_list,
        store: index_store,
    };
    let data = Partition {
        list: data_list,
        store: data_store,
    };
    Ok(judge::judge(reader_of(index_store, label), index, data))
}
