// A file asked for by its number, and its rows.
ghost use Rattle.index_values.specs.Steps.{given};
ghost use Rattle.index_files.specs.EachRow.{rows_left};
ghost use Rattle.index_files.specs.AskedSteps.{FindsFile, HeadOf};
ghost use Rattle.index_files.specs.Steps.{LocatesFile, ReadsNumbered, PutsRows, PutsFileRows};

use crate::extent_rows::EachRow;
use crate::files::EachFile;
use crate::filling;
use elements::Span;
use index_values::Partitions;
use quantities::{BlockNumber, ByteCount};
use refusals::Refusal;

// What a file says: its length, where its name stands in the text, as spelled, and how many rows it has.
#[derive(Clone, Copy)]
pub struct FileHead {
    pub length: ByteCount,
    pub name: Span,
    pub rows: u64,
}

// The k-th file of a text.
fn find(text: &[u8], k: u64) -> Result<usize, Refusal>
    ensures { FindsFile text.now k result }
{
    EachFile::new(text).nth(k as usize).ok_or(Refusal::Missing)
}

// The k-th file of an index, once its text is read.
fn locate(
    text: &[u8],
    uuid: &[u8],
    volume: Partitions,
    letter: u8,
    block: BlockNumber,
    k: u64,
) -> Result<usize, Refusal>
    ensures { LocatesFile text.now (given uuid.now volume) letter block k result }
{
    index::read_index(text, uuid, volume, letter, block)?;
    find(text, k)
}

// What the file whose tag is at n says.
pub(crate) fn head_at(text: &[u8], n: usize) -> FileHead
    ensures { HeadOf text.now n result }
{
    let at = elements::first_child(text, n);
    FileHead {
        length: ByteCount(index_values::number_named(text, at, b"length")),
        name: index_values::span_in(text, at, b"name"),
        rows: EachRow::new(text, n).len(),
    }
}

// The k-th file of an index's text; the other parameters are those of reading it.
pub fn file(
    text: &[u8],
    uuid: &[u8],
    volume: Partitions,
    letter: u8,
    block: BlockNumber,
    k: u64,
) -> Result<FileHead, Refusal>
    ensures { ReadsNumbered text.now (given uuid.now volume) letter block k result }
{
    let n = locate(text, uuid, volume, letter, block, k)?;
    Ok(head_at(text, n))
}

// The rows that are left, into the front of out if it has room for all of them.
fn put_rows(rows: EachRow, out: &mut [u64]) -> Result<u64, Refusal>
    ensures { PutsRows (rows_left rows.entry) out.old out.new result }
{
    let n = rows.len();
    if ((out.len() / 5) as u64) < n {
        return Err(Refusal::Short);
    }
    filling::write_rows(rows, out);
    Ok(n)
}

// The rows of the k-th file of an index's text, five numbers each, into the front of out; the other parameters are those of reading it.
pub fn rows(
    text: &[u8],
    uuid: &[u8],
    volume: Partitions,
    letter: u8,
    block: BlockNumber,
    k: u64,
    out: &mut [u64],
) -> Result<u64, Refusal>
    ensures { PutsFileRows text.now (given uuid.now volume) letter block out.old out.new k result }
{
    let n = locate(text, uuid, volume, letter, block, k)?;
    put_rows(EachRow::new(text, n), out)
}
