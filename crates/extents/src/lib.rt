// Extents: rows of five numbers, when they are lawful, and where a byte of a file is.
#![tactic(auto)]

ghost use Rattle.std.specs.Prelude.{◌≡◌, true, ◌^◌, ◌+◌, ◌*◌, ◌/◌, ◌%◌, ◌<◌, ◌≤◌, leb, length};
ghost use Rattle.std.specs.Iterator.{YieldsFirst, item_count};
ghost use Rattle.slices.specs.Slices.{every};
ghost use Rattle.extents.specs.Rows.{rows_of};
ghost use Rattle.extents.specs.Steps.{row_from};
ghost use Rattle.extents.specs.Lawful as lawfulness;
ghost use Rattle.extents.specs.Map.{lettered, byte_in_row, byte_at, byte_map};

use quantities::{BlockNumber, ByteCount};
use refusals::Refusal;

// Where a byte is stored: the partition's letter, the block's number, and where in the block.
#[derive(Clone, Copy, PartialEq, Eq, Debug)]
pub struct Stored {
    pub letter: u8,
    pub block: BlockNumber,
    pub byte: ByteCount,
}

// A byte counted from the start of a first block: how many blocks past it, and where in its own block.
#[derive(Clone, Copy)]
struct Distance {
    blocks: u64,
    byte: u64,
}

// The byte that is ahead bytes past offset, in blocks of a size; offset + ahead may pass 64 bits.
fn spot(offset: u64, ahead: u64, size: u64) -> Distance
    requires { offset < size }
    ensures { (result.blocks ≡ (offset + ahead) / size) × (result.byte ≡ (offset + ahead) % size) }
{
    let blocks = ahead / size;
    let byte = ahead % size;
    if offset < size - byte {
        return Distance {
            blocks,
            byte: offset + byte,
        };
    }
    Distance {
        blocks: blocks + 1,
        byte: offset - (size - byte),
    }
}

// Whether start + count is at most limit.
fn ends_by(start: u64, count: u64, limit: u64) -> bool
    ensures { result ≡ leb (start + count) limit }
{
    start <= limit && count <= limit - start
}

// A row: which bytes of a file stand where on a partition.
#[derive(Clone, Copy, PartialEq, Eq, Debug)]
pub struct Row {
    pub letter: u64,
    pub startblock: u64,
    pub byteoffset: u64,
    pub bytecount: u64,
    pub fileoffset: u64,
}

impl Row {
    // Whether the row is lawful by itself.
    #[tactic(auto, using(std::proofs::lemmas::Bool::Decides::nat_tests), unfolding(crate::specs::Lawful::row_lawful))]
    fn is_lawful(&self, file_length: ByteCount, block_size: u64) -> bool
        ensures { result ≡ lawfulness.row_lawful file_length.0 block_size self.now }
    {
        self.bytecount != 0
            && self.byteoffset < block_size
            && ends_by(self.fileoffset, self.bytecount, file_length.0)
            && ends_by(
                self.startblock,
                spot(self.byteoffset, self.bytecount - 1, block_size).blocks,
                u64::MAX,
            )
    }

    // Whether two rows share no file position.
    fn is_clear_of(&self, other: &Row) -> bool
        ensures { result ≡ lawfulness.clear self.now other.now }
    {
        ends_by(self.fileoffset, self.bytecount, other.fileoffset)
            || ends_by(other.fileoffset, other.bytecount, self.fileoffset)
    }

    // Whether a file position is in the row.
    fn holds(&self, position: ByteCount) -> bool
        ensures { result ≡ lawfulness.in_row position.0 self.now }
    {
        self.fileoffset <= position.0 && position.0 - self.fileoffset < self.bytecount
    }

    // Where the byte at a position of the row is.
    fn stored(&self, position: ByteCount, block_size: u64) -> Stored
        requires { (self.now.letter < 256)
            × (self.now.byteoffset < block_size)
            × (self.now.fileoffset ≤ position.0)
            × ((byte_in_row block_size position.0 self.now).block.0 < 2 ^ 64) }
        ensures { result ≡ byte_in_row block_size position.0 self.now }
    {
        let past = spot(self.byteoffset, position.0 - self.fileoffset, block_size);
        Stored {
            letter: self.letter as u8,
            block: BlockNumber(self.startblock + past.blocks),
            byte: ByteCount(past.byte),
        }
    }
}

// The rows of numbers in fives, one after the other; fewer than five are no row.
#[derive(Drop)]
struct EachRow<'a>(&'a [u64]);

impl<'a> Iterator for EachRow<'a> {
    type Item = Row;

    ghost next_gives = { YieldsFirst (λ s. rows_of s.0.now) };

    ghost remaining = { item_count (λ s. rows_of s.0.now) };

    fn next(&mut self) -> Option<Row> {
        match *self.0 {
            [
                letter,
                startblock,
                byteoffset,
                bytecount,
                fileoffset,
                ref rest @ ..,
            ] => {
                self.0 = rest;
                Some(Row {
                    letter,
                    startblock,
                    byteoffset,
                    bytecount,
                    fileoffset,
                })
            }
            _ => None,
        }
    }
}

// Row k of numbers.
fn row_at(rows: &[u64], k: usize) -> Row
    requires { (k + 1) * 5 ≤ length rows.now }
    ensures { result ≡ row_from rows.now (k * 5) }
{
    let at = k * 5;
    Row {
        letter: rows[at],
        startblock: rows[at + 1],
        byteoffset: rows[at + 2],
        bytecount: rows[at + 3],
        fileoffset: rows[at + 4],
    }
}

// Whether each row is lawful by itself.
fn each_lawful(rows: &[u64], file_length: ByteCount, block_size: u64) -> bool
    ensures { result ≡ lawfulness.each_lawful file_length.0 block_size (rows_of rows.now) }
{
    EachRow(rows).all(|row| row.is_lawful(file_length, block_size))
}

// Whether a row shares no file position with rows.
fn is_clear_of(row: &Row, rows: &[u64]) -> bool
    ensures { result ≡ every (lawfulness.clear row.now) (rows_of rows.now) }
{
    EachRow(rows).all(|other| row.is_clear_of(&other))
}

// Whether no two rows share a file position. From the last row on, low is at most the first position of each row passed: a row that ends
// by it is clear of them all, so rows in rising order take one walk. A loop, since `all` has no place for what goes from row to row.
fn apart(rows: &[u64]) -> bool
    ensures { result ≡ lawfulness.apart (rows_of rows.now) }
{
    let mut low = u64::MAX;
    for k in (0..rows.len() / 5).rev() {
        let row = row_at(rows, k);
        if ends_by(row.fileoffset, row.bytecount, low) {
            low = row.fileoffset;
        } else {
            if !is_clear_of(&row, &rows[(k + 1) * 5..]) {
                return false;
            }
            low = low.min(row.fileoffset);
        }
    }
    true
}

// Whether the rows of a file are lawful for its length and a block size.
#[tactic(auto, using(std::proofs::lemmas::Bool::Decides::nat_tests), unfolding(crate::specs::Lawful::lawful))]
pub fn lawful(rows: &[u64], file_length: ByteCount, block_size: u64) -> bool
    ensures { result ≡ lawfulness.lawful file_length.0 block_size (rows_of rows.now) }
{
    each_lawful(rows, file_length, block_size) && apart(rows)
}

// Whether each row's letter is one.
fn each_lettered(rows: &[u64]) -> bool
    ensures { result ≡ lettered (rows_of rows.now) }
{
    EachRow(rows).all(|row| quantities::is_letter(row.letter))
}

// Where the byte at a position is, by lawful rows; none where it is a zero byte that is not stored.
fn find(
    rows: &[u64],
    file_length: ByteCount,
    block_size: u64,
    position: ByteCount,
) -> Option<Stored>
    requires { (lettered (rows_of rows.now) ≡ true) × (lawfulness.each_lawful file_length.0 block_size (rows_of rows.now) ≡ true) }
    ensures { result ≡ byte_at block_size position.0 (rows_of rows.now) }
{
    let row = EachRow(rows).find(|row| row.holds(position))?;
    Some(row.stored(position, block_size))
}

// Where the byte at a position of a file is, by its rows, its length and the block size; none where it is a zero byte that is not stored.
#[tactic(auto, using(std::proofs::lemmas::Bool::Decides::nat_tests, crate::proofs::Rows::rows_count), unfolding(crate::specs::Map::byte_map))]
pub fn byte_at(
    rows: &[u64],
    file_length: ByteCount,
    block_size: u64,
    position: ByteCount,
) -> Result<Option<Stored>, Refusal>
    ensures { result ≡ byte_map rows.now file_length.0 block_size position.0 }
{
    if !quantities::is_block_size(block_size) || !each_lettered(rows) || rows.len() % 5 != 0 {
        return Err(Refusal::Caller);
    }
    if 1024 < rows.len() / 5 {
        return Err(Refusal::TooMany);
    }
    if !lawful(rows, file_length, block_size) {
        return Err(Refusal::Extents);
    }
    if file_length.0 <= position.0 {
        return Err(Refusal::Missing);
    }
    Ok(find(rows, file_length, block_size, position))
}
