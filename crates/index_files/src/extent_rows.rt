// The rows of a file, one after the other.
ghost use Rattle.std.specs.Prelude.{◌≡◌, ◌-◌, length};
ghost use Rattle.std.specs.Iterator.{YieldsFirstBy, at_most};
ghost use Rattle.elements.specs.Reading.{forest_at, children_at};
ghost use Rattle.extents.specs.Rows.{five};
ghost use Rattle.index_values.specs.Tests.{row_of, extent_rows};
ghost use Rattle.index_files.specs.RowSteps.{row_is, RowsFrom, RowAhead};
ghost use Rattle.index_files.specs.EachRow.{rows_left};

use index_names::Sort;
use quantities::{BlockNumber, ByteCount};

// An extent: its partition's letter (ASCII), its first block, where in that block it begins, how many bytes it has, and where in the
// file.
#[derive(Clone, Copy)]
pub struct Row {
    pub letter: u64,
    pub startblock: BlockNumber,
    pub byteoffset: ByteCount,
    pub bytecount: ByteCount,
    pub fileoffset: ByteCount,
}

impl Row {
    // The five numbers that it is.
    pub(crate) fn numbers(self) -> [u64; 5]
        ensures { result ≡ five (row_is self) }
    {
        [
            self.letter,
            self.startblock.0,
            self.byteoffset.0,
            self.bytecount.0,
            self.fileoffset.0,
        ]
    }
}

// A row, and where the rows go on behind it.
#[derive(Clone, Copy)]
pub struct NextRow {
    pub row: Row,
    pub next: usize,
}

// Where the rows of the file whose tag is at n begin.
pub fn first_row(text: &[u8], n: usize) -> usize
    ensures { RowsFrom text.now n result }
{
    index_values::row_in(text, elements::first_child(text, n), b"extentinfo")
}

// The row of the extent whose elements are the row at at.
fn row_from(text: &[u8], at: usize) -> Row
    ensures { row_is result ≡ row_of (forest_at text.now at) }
{
    let places = index_rows::read_row(text, at, Sort::Extent).places;
    Row {
        letter: u64::from(index_values::letter_said(index_rows::text_at(text, places[1]))),
        startblock: BlockNumber(index_values::number_placed(text, places[2])),
        byteoffset: ByteCount(index_values::number_placed(text, places[3])),
        bytecount: ByteCount(index_values::number_placed(text, places[4])),
        fileoffset: ByteCount(index_values::number_placed(text, places[0])),
    }
}

// The next of the rows at at.
pub fn next_row(text: &[u8], at: usize) -> Option<NextRow>
    ensures { RowAhead text.now at result }
{
    let child = elements::next_child(text, at)?;
    Some(NextRow {
        row: row_from(text, elements::first_child(text, child.at)),
        next: child.next,
    })
}

// The rows of a file, one after the other.
#[derive(Clone, Drop)]
pub struct EachRow<'a> {
    text: &'a [u8],
    at: usize,
}

impl<'a> EachRow<'a> {
    // Those of the file whose tag is at n.
    pub fn new(text: &'a [u8], n: usize) -> EachRow<'a>
        ensures { rows_left result ≡ extent_rows (children_at text.now n) }
    {
        EachRow {
            text,
            at: first_row(text, n),
        }
    }

    // How many there are.
    pub(crate) fn len(&self) -> u64
        ensures { result ≡ length (rows_left self.now) }
    {
        // From tag to tag: count would read the numbers of each row.
        let mut at = self.at;
        let mut n: u64 = 0;
        while let Some(child) = elements::next_child(self.text, at) {
            n += 1;
            at = child.next;
        }
        n
    }
}

impl<'a> Iterator for EachRow<'a> {
    type Item = Row;

    ghost next_gives = { YieldsFirstBy row_is rows_left };

    ghost remaining = { λ s. at_most (length s.text.now - s.at) };

    fn next(&mut self) -> Option<Row> {
        let found = next_row(self.text, self.at)?;
        self.at = found.next;
        Some(found.row)
    }
}
