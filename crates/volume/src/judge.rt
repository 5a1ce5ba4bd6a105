// The five breaks, in their order.
ghost use Rattle.std.specs.Prelude.{◌≡◌};
ghost use Rattle.volume.specs.Steps.{break_told};
ghost use Rattle.volume.specs.Readers.{JudgesLastIn, JudgesIn, Breaks};

use crate::chains;
use crate::filled::{Filled, Misfit};
use crate::filling::{ELEMENTS, Partition, Tables};
use crate::sound::Reader;
use constructs::{CONSTRUCTS, NUMBERS};
use quantities::Generation;

// What breaks a volume first.
#[derive(Clone, Copy, PartialEq, Eq, Debug)]
pub enum Break {
    // The index partition does not end with a whole index.
    IndexEnd,
    // The data partition does not.
    DataEnd,
    // A construct of the data partition, by its number, whose index is not sound or does not follow the one before.
    Chain(u64),
    // The last construct of the index partition, by its number, whose index is not sound or does not follow the data partition's last.
    Apart(u64),
    // A file of the last index, by its number, does not lie on the tape.
    Lost(u64),
}

impl Break {
    // Which of the five it is.
    pub fn which(&self) -> u64
        ensures { result ≡ (break_told self.now).which }
    {
        match self {
            Break::IndexEnd => 1,
            Break::DataEnd => 2,
            Break::Chain(_) => 3,
            Break::Apart(_) => 4,
            Break::Lost(_) => 5,
        }
    }

    // The number that goes with it, 0 where none does.
    pub fn number(&self) -> u64
        ensures { result ≡ (break_told self.now).number }
    {
        match *self {
            Break::IndexEnd | Break::DataEnd => 0,
            Break::Chain(n) | Break::Apart(n) | Break::Lost(n) => n,
        }
    }
}

// Breaks 4 and 5, of the last constructs of both partitions, of which the data partition's has an index of that generation.
fn judge_last(filled: &Filled, generation: Generation) -> Option<Break>
    ensures { JudgesLastIn filled.now generation.0 result }
{
    let k = filled.index.last();
    let here = filled.index.construct(k);
    let there = filled.data.construct(filled.data.last());
    let letter = filled.reader.volume.index_letter;
    let Some(brief) = filled.reader.brief_at(filled.index.store, letter, here) else {
        return Some(Break::Apart(k as u64));
    };
    match filled.misfit(here, brief, there, generation)? {
        Misfit::Apart => Some(Break::Apart(k as u64)),
        Misfit::Lost(file) => Some(Break::Lost(file)),
    }
}

// Breaks 3, 4 and 5, of partitions that both end with a construct.
fn judge_indexes(filled: &Filled) -> Option<Break>
    ensures { JudgesIn filled.now result }
{
    let mut generations = [0u64; CONSTRUCTS];
    let k = chains::chain(&filled.reader, &filled.data, &mut generations);
    if k < filled.data.count {
        return Some(Break::Chain(k as u64));
    }
    judge_last(
        filled,
        Generation(tables::item(&generations, filled.data.last(), 0)),
    )
}

// The first break of the volume that is read so, of two lists that are well formed.
pub fn judge(reader: Reader, index: Partition, data: Partition) -> Option<Break>
    ensures { Breaks reader.entry index.entry «data».entry result }
{
    let size = reader.volume.block_size;
    let mut constructs = [0u32; NUMBERS];
    let mut reach = [0u32; ELEMENTS];
    let index = Tables::fill(index, size, &mut constructs, &mut reach);
    if !index.ends() {
        return Some(Break::IndexEnd);
    }
    let mut data_constructs = [0u32; NUMBERS];
    let mut data_reach = [0u32; ELEMENTS];
    let data = Tables::fill(data, size, &mut data_constructs, &mut data_reach);
    if !data.ends() {
        return Some(Break::DataEnd);
    }
    judge_indexes(&Filled {
        reader,
        index,
        data,
    })
}
