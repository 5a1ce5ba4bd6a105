// Cases of reading an index, of its files and of their rows, and of the index of a construct, read from files beside the program.
#![tactic(auto)]

ghost use Rattle.std.specs.Prelude.{◌≡◌, ◌≤◌, length};
ghost use Rattle.case_files.specs.Counts.{IsPrefixLen};

use constructs::Bounds;
use elements::Span;
use index::{Header, Location};
use index_files::FileHead;
use index_values::Partitions;
use quantities::BlockNumber;
use refusals::Refusal;
use std::fs::File;
use std::io;
use volume::FoundIndex;

// A byte more than an index's text may have.
const TEXT_ROOM: usize = 1048577;

// Room for that: a function, since an array of this length written out where it is used is past what the check computes.
fn text_room() -> [u8; TEXT_ROOM]
    ensures { 1048577 ≡ length result }
{
    [0u8; TEXT_ROOM]
}

// The front of an index with a root, and its end: all values are empty, since 4,096 files with lawful values don't fit in an index's text.
const BEGIN: &[u8] =
    b"<?xml version=\"1.0\" encoding=\"UTF-8\"?><ltfsindex version=\"2.0.1\"><creator/>\
    <volumeuuid/><generationnumber/><updatetime/><location><partition/><startblock/></location>\
    <allowpolicyupdate/><highestfileuid/><directory>\
    <fileuid/><name/><creationtime/><changetime/><modifytime/><accesstime/><backuptime/><readonly/><contents>";

const FILE: &[u8] = b"<file><fileuid/><name/><length/><creationtime/><changetime/>\
    <modifytime/><accesstime/><backuptime/><readonly/></file>";

const END: &[u8] = b"</contents></directory></ltfsindex>";

fn byte(file: &mut File) -> u8 {
    (case_files::number(file) % 256) as u8
}

// The numbers of a list, at the front of out, where it has room for them.
fn numbers(file: &mut File, out: &mut [u64]) -> usize
    ensures { IsPrefixLen result out.new }
{
    let n = case_files::number(file) as usize;
    if out.len() < n {
        return 0;
    }
    for number in &mut out[..n] {
        *number = case_files::number(file);
    }
    n
}

// The label's letters, and the block size.
fn partitions(file: &mut File) -> Partitions {
    let index_letter = byte(file);
    let data_letter = byte(file);
    let block_size = case_files::number(file);
    Partitions {
        index_letter,
        data_letter,
        block_size,
    }
}

// The numbers expected of a header.
fn numbers_as(file: &mut File, h: Header) -> bool {
    let mut expected = [0u64; 11];
    let n = numbers(file, &mut expected);
    let back = h.back.unwrap_or(Location {
        letter: 0,
        block: BlockNumber(0),
    });
    let found: &[u64] = &[
        h.release,
        h.generation.0,
        u64::from(h.location.letter),
        h.location.block.0,
        u64::from(h.back.is_some()),
        u64::from(back.letter),
        back.block.0,
        u64::from(h.allow),
        h.highest,
        h.directories,
        h.files,
    ];
    found == &expected[..n]
}

// The update time expected of a header, in its text.
fn time_as(file: &mut File, text: &[u8], h: Header) -> bool {
    let mut expected = [0u8; 64];
    let n = case_files::bytes(file, &mut expected);
    elements::part(text, h.time) == &expected[..n]
}

fn header_as(file: &mut File, text: &[u8], h: Header) -> bool {
    numbers_as(file, h) && time_as(file, text, h)
}

// Whether the bytes at a place of the text, as spelled, mean those expected.
fn means(text: &[u8], place: Span, expected: &[u8]) -> bool {
    let Some(raw) = text.get(place.from..place.from.saturating_add(place.len)) else {
        return false;
    };
    let mut meant = [0u8; 2048];
    let decoded = texts::decode(raw, &mut meant, 0);
    decoded.is_ok_and(|n| meant.get(..n) == Some(expected))
}

// An index: its text, what its label says, and where it stands.
#[derive(Clone, Copy)]
struct Index<'a> {
    text: &'a [u8],
    uuid: &'a [u8],
    volume: Partitions,
    location: Location,
}

impl<'a> Index<'a> {
    fn read(self) -> Result<Header, Refusal> {
        let Location { letter, block } = self.location;
        index::read_index(self.text, self.uuid, self.volume, letter, block)
    }

    fn file(self, k: u64) -> Result<FileHead, Refusal> {
        let Location { letter, block } = self.location;
        index_files::file(self.text, self.uuid, self.volume, letter, block, k)
    }

    fn rows(self, k: u64, out: &mut [u64]) -> Result<u64, Refusal> {
        let Location { letter, block } = self.location;
        index_files::rows(self.text, self.uuid, self.volume, letter, block, k, out)
    }

    // The refusal expected; then the header and the files expected.
    fn is_as(self, file: &mut File) -> bool {
        let refusal = case_files::number(file);
        let read = match self.read() {
            Err(r) => u64::from(r) == refusal,
            Ok(h) => refusal == 0 && header_as(file, self.text, h),
        };
        read && self.files_as(file)
    }

    fn files_as(self, file: &mut File) -> bool {
        let files = case_files::number(file);
        (0..files).all(|_| self.file_as(file))
    }

    // A file's number; the refusal, its length, its name and the number of its rows expected; then its rows in two lent buffers.
    fn file_as(self, file: &mut File) -> bool {
        let k = case_files::number(file);
        let refusal = case_files::number(file);
        let bytes = case_files::number(file);
        let mut name = [0u8; 2048];
        let n = case_files::bytes(file, &mut name);
        let count = case_files::number(file);
        let head = match self.file(k) {
            Err(r) => u64::from(r) == refusal,
            Ok(h) => {
                refusal == 0
                    && h.length.0 == bytes
                    && h.rows == count
                    && means(self.text, h.name, &name[..n])
            }
        };
        head && self.rows_as(file, k) && self.rows_as(file, k)
    }

    // A file's number and the refusal and the length expected; then its rows in a lent buffer.
    fn file_rows_as(self, file: &mut File) -> bool {
        let k = case_files::number(file);
        let refusal = case_files::number(file);
        let bytes = case_files::number(file);
        let head = match self.file(k) {
            Err(r) => u64::from(r) == refusal,
            // A buffer too short refuses the rows alone, and the case then says no length.
            Ok(h) => refusal == u64::from(Refusal::Short) || h.length.0 == bytes,
        };
        head && self.rows_as(file, k)
    }

    // A lent buffer; the refusal, the number of rows and the whole buffer expected of a file's rows.
    fn rows_as(self, file: &mut File, k: u64) -> bool {
        let mut out = [0u64; 5200];
        let n = numbers(file, &mut out);
        let refusal = case_files::number(file);
        let count = case_files::number(file);
        let mut expected = [0u64; 5200];
        let e = numbers(file, &mut expected);
        let read = match self.rows(k, &mut out[..n]) {
            Err(r) => u64::from(r) == refusal,
            Ok(rows) => refusal == 0 && rows == count,
        };
        read && &out[..n] == &expected[..e]
    }
}

// What a case asks of an index.
#[derive(Clone, Copy)]
enum Asked {
    Index,
    Rows,
}

// A text, the label's UUID, letters and block size, a place; then what is expected.
fn text_case(asked: Asked, file: &mut File) -> bool {
    let mut text = text_room();
    let n = case_files::bytes(file, &mut text);
    let mut uuid = [0u8; 64];
    let u = case_files::bytes(file, &mut uuid);
    let volume = partitions(file);
    let letter = byte(file);
    let block = BlockNumber(case_files::number(file));
    let index = Index {
        text: &text[..n],
        uuid: &uuid[..u],
        volume,
        location: Location { letter, block },
    };
    match asked {
        Asked::Index => index.is_as(file),
        Asked::Rows => index.file_rows_as(file),
    }
}

// The text of a construct in the store.
fn text_at(store: &[u8], place: Bounds) -> &[u8] {
    store.get(place.from..place.to).unwrap_or(&[])
}

// Where a construct lies: its first block and its closing mark; then its header.
fn construct_as(file: &mut File, store: &[u8], found: FoundIndex) -> bool {
    let first = case_files::number(file);
    let mark = case_files::number(file) as usize;
    found.place.first.0 == first
        && found.place.end == mark.wrapping_add(1)
        && header_as(file, text_at(store, found.place), found.header)
}

// A partition, the label's UUID, letters and block size, the partition's letter, a construct's number; then what is expected.
fn construct_case(file: &mut File) -> bool {
    let mut list = [0u8; 4096];
    let l = case_files::bytes(file, &mut list);
    let mut store = [0u8; 65536];
    let s = case_files::bytes(file, &mut store);
    let mut uuid = [0u8; 64];
    let u = case_files::bytes(file, &mut uuid);
    let volume = partitions(file);
    let letter = byte(file);
    let k = case_files::number(file);
    let refusal = case_files::number(file);
    match volume::read_construct(&list[..l], &store[..s], &uuid[..u], volume, letter, k) {
        Err(r) => u64::from(r) == refusal,
        Ok(found) => refusal == 0 && construct_as(file, &store[..s], found),
    }
}

// Whether the text is refused so as an index that stands at block 6 of partition a.
fn is_refused(text: &[u8], refusal: Refusal) -> bool {
    let index = Index {
        text,
        uuid: b"30a91a08-daae-48d1-ae75-69804e61d2ea",
        volume: Partitions {
            index_letter: b'a',
            data_letter: b'b',
            block_size: 4096,
        },
        location: Location {
            letter: b'a',
            block: BlockNumber(6),
        },
    };
    index.read().is_err_and(|r| r == refusal)
}

// Writes w from at on, if there is room, and answers the place behind it.
fn add(out: &mut [u8], at: usize, w: &[u8]) -> usize {
    slices::put(out, at, w).unwrap_or(at)
}

// Writes an index with a root and so many files, and answers its length.
fn put_index(out: &mut [u8], files: u64) -> usize {
    let mut end = add(out, 0, BEGIN);
    for _ in 0..files {
        end = add(out, end, FILE);
    }
    add(out, end, END)
}

// The refusal of an index with a root and so many files.
fn entries(rt: &HostRuntime, files: u64, refusal: Refusal) -> u64
    ensures { result ≤ 1 }
{
    let mut text = text_room();
    let n = put_index(&mut text, files);
    case_files::shown_good(rt, is_refused(slices::part(&text, 0, n), refusal), files)
}

fn main(rt: HostRuntime) -> io::Result<()> {
    case_files::run(&rt, "index", |file| text_case(Asked::Index, file))?;
    case_files::run(&rt, "rows", |file| text_case(Asked::Rows, file))?;
    case_files::run(&rt, "own", |file| text_case(Asked::Index, file))?;
    case_files::run(&rt, "uuid", |file| text_case(Asked::Index, file))?;
    case_files::run(&rt, "spellings", |file| text_case(Asked::Index, file))?;
    case_files::run(&rt, "numbers", |file| text_case(Asked::Index, file))?;
    case_files::run(
        &rt,
        "number_spellings",
        |file| text_case(Asked::Index, file),
    )?;
    case_files::run(&rt, "constructs", construct_case)?;
    case_files::run(&rt, "construct_kinds", construct_case)?;
    case_files::run(&rt, "construct_unreadable", construct_case)?;
    let good = entries(&rt, 3999, Refusal::Value)
        + entries(&rt, 4095, Refusal::Value)
        + entries(&rt, 4096, Refusal::TooMany);
    case_files::report(&rt, "entries", good, 3)?;
    // A text too long is refused before its bytes are looked at.
    let text = text_room();
    let good = case_files::shown_good(&rt, is_refused(&text, Refusal::TooMany), 0);
    case_files::report(&rt, "too long", good, 1)
}
