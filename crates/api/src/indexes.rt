// Indexes: an index's text read, its files, and their rows.
ghost use Rattle.std.specs.Prelude.{◌≡◌};
ghost use Rattle.index.specs.Steps.{back_of};
ghost use Rattle.api.specs.Indexes.{back_numbers, ReadsIndexOut, ReadsFileOut, FillsRows, ReadsWholeOut, ReadsConstructOut};
ghost use Rattle.api.specs.Steps.{header_numbers, construct_numbers, head_numbers};

use crate::outputs;
use index::{Header, Location};
use index_files::FileHead;
use index_values::Partitions;
use quantities::BlockNumber;
use volume::FoundIndex;

// Whether there is a back pointer, its letter and its block; zeros where there is none.
fn in_back_numbers(back: Option<Location>) -> [u64; 3]
    ensures { result ≡ back_numbers (back_of back) }
{
    match back {
        None => [0; 3],
        Some(place) => [1, u64::from(place.letter), place.block.0],
    }
}

// The last number is the place of the front.
fn in_numbers(h: Header) -> [u64; 15]
    ensures { result ≡ header_numbers h }
{
    let [back, back_letter, back_block] = in_back_numbers(h.back);
    [
        h.release,
        h.generation.0,
        h.time.from as u64,
        h.time.len as u64,
        u64::from(h.location.letter),
        h.location.block.0,
        back,
        back_letter,
        back_block,
        u64::from(h.allow),
        h.highest,
        h.directories,
        h.files,
        h.rows,
        0,
    ]
}

// Reads an index's text, of the volume with that UUID, those letters and that block size, at a partition letter and the number of its first
// block.
#[unsafe(no_mangle)]
pub extern "C" fn klapouzen_read_index(
    text: &[u8],
    uuid: &[u8],
    index_letter: u8,
    data_letter: u8,
    block_size: u64,
    letter: u8,
    block: u64,
    out: &mut [u64; 15],
) -> u64
    ensures { ReadsIndexOut uuid.now index_letter data_letter block_size text.now letter block
        result out.new }
{
    let volume = Partitions {
        index_letter,
        data_letter,
        block_size,
    };
    let header = index::read_index(text, uuid, volume, letter, BlockNumber(block));
    outputs::tell(header, in_numbers, outputs::with_front, out)
}

// The last number is the place of the front.
fn in_head(file: FileHead) -> [u64; 5]
    ensures { result ≡ head_numbers file }
{
    [
        file.length.0,
        file.name.from as u64,
        file.name.len as u64,
        file.rows,
        0,
    ]
}

// A file of an index's text, by its number; the other parameters are those of reading it.
#[unsafe(no_mangle)]
pub extern "C" fn klapouzen_read_file(
    text: &[u8],
    uuid: &[u8],
    index_letter: u8,
    data_letter: u8,
    block_size: u64,
    letter: u8,
    block: u64,
    file: u64,
    out: &mut [u64; 5],
) -> u64
    ensures { ReadsFileOut uuid.now index_letter data_letter block_size text.now letter block file
        result out.new }
{
    let volume = Partitions {
        index_letter,
        data_letter,
        block_size,
    };
    let head = index_files::file(text, uuid, volume, letter, BlockNumber(block), file);
    outputs::tell(head, in_head, outputs::with_front, out)
}

// The rows of a file of an index's text, five numbers each, into the front of rows.
#[unsafe(no_mangle)]
pub extern "C" fn klapouzen_read_rows(
    text: &[u8],
    uuid: &[u8],
    index_letter: u8,
    data_letter: u8,
    block_size: u64,
    letter: u8,
    block: u64,
    file: u64,
    rows: &mut [u64],
    count: &mut u64,
    place: &mut u64,
) -> u64
    ensures { FillsRows uuid.now index_letter data_letter block_size text.now letter block file
        rows.old rows.new result count.new place.new }
{
    let volume = Partitions {
        index_letter,
        data_letter,
        block_size,
    };
    let filled = index_files::rows(text, uuid, volume, letter, BlockNumber(block), file, rows);
    *place = outputs::front_of(&filled);
    outputs::tell_number(filled, count)
}

// All of an index's text: its header, nine numbers of each entry into the front of entries, and five of each row into the front of rows.
#[unsafe(no_mangle)]
pub extern "C" fn klapouzen_read_whole(
    text: &[u8],
    uuid: &[u8],
    index_letter: u8,
    data_letter: u8,
    block_size: u64,
    letter: u8,
    block: u64,
    entries: &mut [u64],
    rows: &mut [u64],
    out: &mut [u64; 15],
) -> u64
    ensures { ReadsWholeOut uuid.now index_letter data_letter block_size text.now letter block
        entries.old entries.new rows.old rows.new result out.new }
{
    let volume = Partitions {
        index_letter,
        data_letter,
        block_size,
    };
    let header = index_files::read_whole(
        text,
        uuid,
        volume,
        letter,
        BlockNumber(block),
        entries,
        rows,
    );
    outputs::tell(header, in_numbers, outputs::with_front, out)
}

// A construct's place in a store, and its header.
fn in_place(found: FoundIndex) -> [u64; 19]
    ensures { result ≡ construct_numbers found.place found.header }
{
    let place = found.place;
    let mut numbers = [0; 19];
    numbers[0] = place.first.0;
    numbers[1] = place.end as u64;
    numbers[2] = place.from as u64;
    numbers[3] = place.to.saturating_sub(place.from) as u64;
    numbers[4..].copy_from_slice(&in_numbers(found.header));
    numbers
}

// The index of a construct by its number on the partition with that letter; the other parameters are those of reading its text.
#[unsafe(no_mangle)]
pub extern "C" fn klapouzen_index(
    list: &[u8],
    store: &[u8],
    uuid: &[u8],
    index_letter: u8,
    data_letter: u8,
    block_size: u64,
    letter: u8,
    number: u64,
    out: &mut [u64; 19],
) -> u64
    ensures { ReadsConstructOut uuid.now index_letter data_letter block_size list.now store.now
        letter number result out.new }
{
    let letters = Partitions {
        index_letter,
        data_letter,
        block_size,
    };
    let found = volume::read_construct(list, store, uuid, letters, letter, number);
    outputs::tell(found, in_place, outputs::with_front, out)
}
