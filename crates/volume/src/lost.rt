// Whether the extents of an index lie on what is kept.
ghost use Rattle.std.specs.Prelude.{◌≡◌};
ghost use Rattle.slices.specs.Slices.{every};
ghost use Rattle.elements.specs.Reading.{children_at};
ghost use Rattle.index_values.specs.Tests.{extent_rows};
ghost use Rattle.index_files.specs.RowSteps.{row_is};
ghost use Rattle.volume.specs.Readers.{lies_on, LosesOn};

use crate::filling::Tables;
use constructs::Bounds;
use index_files::{EachFile, EachRow, Row};
use index_values::Partitions;

// What is kept of a volume: so many elements of each partition, and how far data blocks reach from each of them on.
#[derive(Clone, Copy)]
pub struct Kept<'a> {
    pub volume: Partitions,
    pub index_reach: &'a [u32],
    pub index_count: usize,
    pub data_reach: &'a [u32],
    pub data_count: usize,
}

impl Kept<'_> {
    // Whether an extent lies there.
    fn has_row(&self, row: Row) -> bool
        ensures { result ≡ lies_on self.now (row_is row) }
    {
        let (reach, count) = if row.letter == u64::from(self.volume.index_letter) {
            (self.index_reach, self.index_count)
        } else if row.letter == u64::from(self.volume.data_letter) {
            (self.data_reach, self.data_count)
        } else {
            return false;
        };
        constructs::reach::lies(
            reach,
            self.volume.block_size,
            count as u64,
            row.startblock,
            row.byteoffset,
            row.bytecount,
        )
    }

    // Whether the extents of the file at n do.
    fn has_file(&self, text: &[u8], n: usize) -> bool
        ensures { result ≡ every (lies_on self.now) (extent_rows (children_at text.now n)) }
    {
        EachRow::new(text, n).all(|row| self.has_row(row))
    }

    // The number of the first file of the index with that text whose extents do not.
    pub fn first_lost(&self, text: &[u8]) -> Option<u64>
        ensures { LosesOn text.now self.now result }
    {
        let k = EachFile::new(text).position(|n| !self.has_file(text, n))?;
        Some(k as u64)
    }
}
