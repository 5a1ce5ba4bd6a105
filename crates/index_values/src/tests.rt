// What each element is tested for by itself.
ghost use Rattle.std.specs.Prelude.{◌≡◌, ◌||◌, ◌+◌, ◌*◌, ◌≤◌, length, take, eqb};
ghost use Rattle.extents.specs.Rows as numbers;
ghost use Rattle.extents.specs.Rows.{five};
ghost use Rattle.extents.specs.Lawful as extents;
ghost use Rattle.std.proofs.lemmas.List.Edits.{sets};
ghost use Rattle.values.specs.Values as values;
ghost use Rattle.elements.specs.Reading.{forest_at};
ghost use Rattle.elements.specs.TagSteps.{Behind};
ghost use Rattle.children.specs.Children.{text_of_first};
ghost use Rattle.children.specs.RowSteps.{seat};
ghost use Rattle.index_values.specs.Elements.{text_in};
ghost use Rattle.index_values.specs.Entries.{number_or_zero};
ghost use Rattle.index_values.specs.Tests.{is_some, valued, own, letter_or_zero, row_of, rows_in};
ghost use Rattle.index_values.specs.Steps.{RowsRead, TestsExtents, given};

use crate::rows;
use elements::Next;
use index_names::Sort;
use quantities::ByteCount;

// The label's letters, and the block size.
#[derive(Clone, Copy, PartialEq, Eq, Debug)]
pub struct Partitions {
    pub index_letter: u8,
    pub data_letter: u8,
    pub block_size: u64,
}

// The letter that a text says, 0 where it says none.
pub fn letter_said(raw: &[u8]) -> u8
    ensures { result ≡ letter_or_zero raw.now }
{
    values::read_letter(raw).unwrap_or(0)
}

// Whether the text of an element of a sort is a lawful value.
#[tactic(auto, unfolding(crate::specs::Tests::valued))]
pub fn is_valued(sort: Sort, raw: &[u8]) -> bool
    ensures { result ≡ valued sort raw.now }
{
    match sort {
        Sort::Time => values::is_time(raw),
        Sort::Number => values::read_number(raw).is_some(),
        Sort::Boolean => values::read_boolean(raw).is_some(),
        Sort::Name => values::is_name(raw),
        Sort::Uid => 2 <= rows::number_said(raw),
        Sort::Letter => values::read_letter(raw).is_some(),
        Sort::Creator => values::is_creator(raw),
        Sort::Uuid => values::is_uuid(raw),
        Sort::Generation => 1 <= rows::number_said(raw),
        Sort::RootName => values::is_root_name(raw),
        Sort::RootUid => rows::number_said(raw) == 1,
        _ => true,
    }
}

// Whether a letter is one of the volume's.
fn is_own_letter(b: u8, volume: Partitions) -> bool
    ensures { result ≡ (eqb b volume.index_letter || eqb b volume.data_letter) }
{
    b == volume.index_letter || b == volume.data_letter
}

// Whether what the text of an element of a sort names is the volume's.
#[tactic(auto, unfolding(crate::specs::Tests::own))]
pub fn is_own(uuid: &[u8], volume: Partitions, sort: Sort, raw: &[u8]) -> bool
    ensures { result ≡ own (given uuid.now volume) sort raw.now }
{
    match sort {
        Sort::Letter => is_own_letter(letter_said(raw), volume),
        Sort::Uuid => values::same_uuid(raw, uuid),
        _ => true,
    }
}

// The number that the first element of a name says, in the row at at.
pub fn number_named(text: &[u8], at: usize, name: &[u8]) -> u64
    ensures { result ≡ number_or_zero (text_in name.now (forest_at text.now at)) }
{
    rows::number_said(rows::text_in(text, at, name))
}

// The number that the element at a place says, 0 for the place 0.
pub fn number_placed(text: &[u8], n: usize) -> u64
    ensures { result ≡ number_or_zero (text_of_first (seat text.now n)) }
{
    rows::number_said(index_rows::text_at(text, n))
}

// The five numbers of the extent whose row is at from, into out from at on; and where reading goes on behind it.
fn put_row(text: &[u8], from: usize, out: &mut [u64], at: usize) -> usize
    requires { at + 5 ≤ length out.old }
    ensures { (out.new ≡ sets out.old at (five (row_of (forest_at text.now from)))) × Behind text.now from result }
{
    let row = index_rows::read_row(text, from, Sort::Extent);
    let places = row.places;
    let letter = letter_said(index_rows::text_at(text, places[1]));
    tables::put(out, at, u64::from(letter));
    tables::put(out, at + 1, number_placed(text, places[2]));
    tables::put(out, at + 2, number_placed(text, places[3]));
    tables::put(out, at + 3, number_placed(text, places[4]));
    tables::put(out, at + 4, number_placed(text, places[0]));
    row.at
}

// The rows of the extents in the row at at, into out; 1,025 where there are more than 1,024.
fn read_rows(text: &[u8], at: usize, out: &mut [u64]) -> usize
    requires { 5120 ≤ length out.old }
    ensures { RowsRead (rows_in (forest_at text.now at)) out.new result }
{
    let mut i = at;
    let mut n: usize = 0;
    // A loop, since each row read says where the next one is looked for.
    loop {
        match elements::next_start(text, i) {
            Next::End | Next::Close(_) => return n,
            Next::Opens(h) => {
                if n == 1024 {
                    return 1025;
                }
                if h.empty {
                    put_row(text, text.len(), out, n * 5);
                    n += 1;
                    i = h.at;
                } else {
                    i = put_row(text, h.at, out, n * 5);
                    n += 1;
                }
            }
        }
    }
}

// Whether a file has few extents, and lawful ones; and how many rows were taken of it, none of a file with too many. The walk joins each flag with those
// of other files, so they stay flags and not a Result.
#[derive(Clone, Copy, PartialEq, Eq, Debug)]
pub struct Judged {
    pub few: bool,
    pub lawful: bool,
    pub count: usize,
}

// Whether the first rows of a table, so many, are lawful.
fn are_lawful(table: &[u64], count: usize, file_length: ByteCount, size: u64) -> bool
    requires { count * 5 ≤ length table.now }
    ensures { result ≡ extents.lawful file_length.0 size (numbers.rows_of (take (count * 5) table.now)) }
{
    extents::lawful(&table[..count * 5], file_length, size)
}

// The extents of an element of a sort whose children have those places, if it is a file; their rows go into the front of out.
pub fn judge(
    text: &[u8],
    places: &[usize; 16],
    out: &mut [u64; 5120],
    sort: Sort,
    volume: Partitions,
) -> Judged
    ensures { TestsExtents text.now places.now sort volume out.new result }
{
    let Sort::File = sort else {
        return Judged {
            few: true,
            lawful: true,
            count: 0,
        };
    };
    let count = read_rows(text, index_rows::row_at(text, places[9]), out);
    if 1024 < count {
        return Judged {
            few: false,
            lawful: false,
            count: 0,
        };
    }
    let length = ByteCount(number_placed(text, places[8]));
    let good = are_lawful(out, count, length, volume.block_size);
    Judged {
        few: true,
        lawful: good,
        count,
    }
}
