// A volume whose tables are filled: whether an index construct fits behind the data partition's.
ghost use Rattle.volume.specs.Readers.{FitsIn};

use crate::filling::Tables;
use crate::lost::Kept;
use crate::sound;
use crate::sound::{Brief, Reader};
use constructs::Bounds;
use quantities::Generation;

// What its indexes are read with, and the tables of both partitions.
#[derive(Clone, Copy)]
pub struct Filled<'a> {
    pub reader: Reader<'a>,
    pub index: Tables<'a>,
    pub data: Tables<'a>,
}

// Why an index construct does not fit: it does not follow the construct of the data partition, or a file's extents are lost. Both are
// reasons: an Option of the file would have the first be none.
#[derive(Clone, Copy, PartialEq, Eq, Debug)]
pub enum Misfit {
    Apart,
    Lost(u64),
}

impl Filled<'_> {
    // Whether an index at here that says so follows the data partition's construct at there, which has an index of that generation, and its
    // extents all lie on what is kept up to both; if not, why.
    pub fn misfit(
        &self,
        here: Bounds,
        brief: Brief,
        there: Bounds,
        generation: Generation,
    ) -> Option<Misfit>
        ensures { FitsIn self.now here brief there generation.0 result }
    {
        let volume = self.reader.volume;
        if !brief.joins(volume.data_letter, there.first, generation) {
            return Some(Misfit::Apart);
        }
        let kept = Kept {
            volume,
            index_reach: self.index.reach,
            index_count: here.end,
            data_reach: self.data.reach,
            data_count: there.end,
        };
        kept.first_lost(sound::text_at(self.index.store, here))
            .map(Misfit::Lost)
    }
}
