// An index of the volume, read for the verdict.
ghost use Rattle.std.specs.Prelude.{◌≡◌, Some};
ghost use Rattle.index.specs.Index.{index_of};
ghost use Rattle.volume.specs.Volume.{soundly};
ghost use Rattle.volume.specs.Steps.{link_of, link_in, brief_link, joined, bounds_text};
ghost use Rattle.volume.specs.Readers.{given_to};

use constructs::Bounds;
use index::Location;
use index_values::Partitions;
use quantities::{BlockNumber, Generation};

// What a volume's indexes are read with, as its labels give it: its UUID, its letters and its block size.
#[derive(Clone, Copy)]
pub struct Reader<'a> {
    pub uuid: &'a [u8],
    pub volume: Partitions,
}

// What a sound index says of the chain: its generation, and its back pointer if it has one.
#[derive(Clone, Copy)]
pub struct Brief {
    pub generation: Generation,
    pub back: Option<Location>,
}

impl Brief {
    // Whether the index points at a construct of the partition with that letter and has no lower generation than its index.
    pub fn joins(&self, letter: u8, first: BlockNumber, generation: Generation) -> bool
        ensures { result ≡ joined (Some (link_in self.now)) letter first.0 generation.0 }
    {
        self.back
            .is_some_and(|place| place.letter == letter && place.block.0 == first.0)
            && generation.0 <= self.generation.0
    }
}

impl Reader<'_> {
    // The index at a partition letter and the number of its first block, if it is sound.
    pub fn brief(&self, text: &[u8], letter: u8, block: BlockNumber) -> Option<Brief>
        ensures { brief_link result ≡ link_of (soundly (index_of (given_to self.now) letter block.0 text.now)) }
    {
        let header = index::read_index(text, self.uuid, self.volume, letter, block).ok()?;
        Some(Brief {
            generation: header.generation,
            back: header.back,
        })
    }

    // That of the construct at a place of the store, in the partition with that letter.
    pub fn brief_at(&self, store: &[u8], letter: u8, place: Bounds) -> Option<Brief>
        ensures { brief_link result ≡ link_of (soundly (index_of (given_to self.now) letter place.first.0
            (bounds_text store.now place))) }
    {
        self.brief(text_at(store, place), letter, place.first)
    }
}

// The text of a construct that lies at a place of the store.
pub fn text_at(store: &[u8], place: Bounds) -> &[u8]
    ensures { result.now ≡ bounds_text store.now place }
{
    slices::part(store, place.from, place.to.saturating_sub(place.from))
}
