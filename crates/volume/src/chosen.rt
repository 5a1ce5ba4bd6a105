// The index of a partition by its construct's number.
ghost use Rattle.index_values.specs.Steps.{given};
ghost use Rattle.volume.specs.Chosen.{chosen_in};
ghost use Rattle.volume.specs.ChosenSteps.{Chooses, ReadsPlace};

use crate::sound;
use constructs::{Bounds, NUMBERS};
use index::Header;
use index_values::Partitions;
use refusals::Refusal;

// An index that was asked for by its construct's number: where the construct lies, and its header, whose places are those of the text.
#[derive(Clone, Copy)]
pub struct FoundIndex {
    pub place: Bounds,
    pub header: Header,
}

// The index whose text lies at a place of the store.
fn read_place(
    store: &[u8],
    uuid: &[u8],
    volume: Partitions,
    letter: u8,
    place: Bounds,
) -> Result<FoundIndex, Refusal>
    ensures { ReadsPlace (given uuid.now volume) letter store.now place result }
{
    if place.from == place.to {
        return Err(Refusal::Unreadable);
    }
    let text = sound::text_at(store, place);
    let header = index::read_index(text, uuid, volume, letter, place.first)?;
    Ok(FoundIndex { place, header })
}

// The index of construct k of the partition with that letter.
pub fn read_construct(
    list: &[u8],
    store: &[u8],
    uuid: &[u8],
    volume: Partitions,
    letter: u8,
    k: u64,
) -> Result<FoundIndex, Refusal>
    ensures { Chooses store.now (chosen_in (given uuid.now volume) letter k list.now store.now) result }
{
    if !index::is_caller_right(uuid, volume, letter) {
        return Err(Refusal::Caller);
    }
    let mut table = [0u32; NUMBERS];
    let n = constructs::scan(list, store, volume.block_size as usize, &mut table)?;
    if n as u64 <= k {
        return Err(Refusal::Missing);
    }
    let place = constructs::construct(&table, k as usize);
    read_place(store, uuid, volume, letter, place)
}
