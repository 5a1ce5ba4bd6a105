// Reading an index's text: the classes of refusals in their order, then its header.
ghost use Rattle.std.specs.Prelude.{◌≡◌, ◌≤◌, length};
ghost use Rattle.values.specs.Values as values;
ghost use Rattle.xml.specs.FormSteps.{height};
ghost use Rattle.xml.specs.CheckSteps.{good, form};
ghost use Rattle.elements.specs.Reading.{forest_at, head_at, children_at};
ghost use Rattle.index_values.specs.Steps.{given};
ghost use Rattle.index.specs.Index.{is_true, location_of, back_at, stands_at, caller_right, index_of};
ghost use Rattle.index.specs.Steps.{address_of, back_of, HeaderOf, ReadsIndex, ReadsAll, ReadsChildren, ReadsTag, ReadsRoot};

use crate::survey;
use crate::survey::Gathered;
use crate::walk::Source;
use elements::{Span, Tag};
use index_values::Partitions;
use quantities::{BlockNumber, Generation};
use refusals::Refusal;

// A location, as an index says one: a partition's letter, and a block's number there.
#[derive(Clone, Copy)]
pub struct Location {
    pub letter: u8,
    pub block: BlockNumber,
}

// What an index says besides its files: the R of its version 2.0.R; its generation; where the update time stands in its text; its location;
// its back pointer, if it has one; whether the policy may be updated; the highest fileuid; how many directories, with the root, and files it has, and how many rows these.
#[derive(Clone, Copy)]
pub struct Header {
    pub release: u64,
    pub generation: Generation,
    pub time: Span,
    pub location: Location,
    pub back: Option<Location>,
    pub allow: bool,
    pub highest: u64,
    pub directories: u64,
    pub files: u64,
    pub rows: u64,
}

// Whether the caller's letters, block size, UUID and place are in their rules.
#[tactic(auto, unfolding(crate::specs::Index::caller_right))]
pub fn is_caller_right(uuid: &[u8], volume: Partitions, letter: u8) -> bool
    ensures { result ≡ caller_right (given uuid.now volume) letter }
{
    quantities::is_letter(u64::from(volume.index_letter))
        && quantities::is_letter(u64::from(volume.data_letter))
        && volume.index_letter != volume.data_letter
        && (letter == volume.index_letter || letter == volume.data_letter)
        && quantities::is_block_size(volume.block_size)
        && values::is_uuid(uuid)
}

// The location whose row is at at.
fn location_at(text: &[u8], at: usize) -> Location
    ensures { address_of result ≡ location_of (forest_at text.now at) }
{
    Location {
        letter: index_values::letter_said(index_values::text_in(text, at, b"partition")),
        block: BlockNumber(index_values::number_named(text, at, b"startblock")),
    }
}

// Whether the location whose row is at at is that place.
fn is_place(text: &[u8], at: usize, place: Location) -> bool
    ensures { result ≡ stands_at place.letter place.block.0 (location_of (forest_at text.now at)) }
{
    let found = location_at(text, at);
    found.letter == place.letter && found.block.0 == place.block.0
}

fn is_true(raw: &[u8]) -> bool
    ensures { result ≡ is_true (values.boolean raw.now) }
{
    values::read_boolean(raw).unwrap_or(false)
}

// The location whose row is at at, if there is one.
fn back_at(text: &[u8], at: usize) -> Option<Location>
    ensures { back_of result ≡ back_at (forest_at text.now at) }
{
    elements::next_child(text, at)?;
    Some(location_at(text, at))
}

// The header of an index of which that was gathered.
fn head_from(text: &[u8], release: u64, found: &Gathered) -> Header
    requires { found.now.files ≤ found.now.entries }
    ensures { HeaderOf text.now release found.now result }
{
    let places = &found.places;
    Header {
        release,
        generation: Generation(index_values::number_placed(text, places[2])),
        time: index_rows::span_at(text, places[3]),
        location: location_at(text, index_rows::row_at(text, places[4])),
        back: back_at(text, index_rows::row_at(text, places[9])),
        allow: is_true(index_rows::text_at(text, places[5])),
        highest: index_values::number_placed(text, places[6]),
        directories: found.entries - found.files,
        files: found.files,
        rows: found.rows,
    }
}

// The index whose children are the row at at. The numbers of its entries and all rows go into their tables, as far as these have room.
fn read_children(
    source: Source<'_>,
    place: Location,
    release: u64,
    at: usize,
    entry_table: &mut [u64],
    row_table: &mut [u64],
) -> Result<Header, Refusal>
    requires { (at ≤ length source.text.now) × (height (forest_at source.text.now at) ≤ 64) }
    ensures { ReadsChildren source.entry place release at
        entry_table.old entry_table.new row_table.old row_table.new result }
{
    let found = survey::survey(source, at, entry_table, row_table)?;
    if !is_place(
        source.text,
        index_rows::row_at(source.text, found.places[4]),
        place,
    ) {
        return Err(Refusal::Location);
    }
    Ok(head_from(source.text, release, &found))
}

// The index whose root's tag is at n.
fn read_tag(
    source: Source<'_>,
    place: Location,
    n: usize,
    entry_table: &mut [u64],
    row_table: &mut [u64],
) -> Result<Header, Refusal>
    requires { height (children_at source.text.now n) ≤ 64 }
    ensures { ReadsTag source.entry place n
        entry_table.old entry_table.new row_table.old row_table.new result }
{
    let text = source.text;
    if !children::is_root(text, n, b"ltfsindex") {
        return Err(Refusal::Structure);
    }
    let release = values::read_version(elements::value_of(text, n)).ok_or(Refusal::Version)?;
    let at = elements::first_child(text, n);
    read_children(source, place, release, at, entry_table, row_table)
}

// The index whose text is in the XML form.
fn read_root(
    source: Source<'_>,
    place: Location,
    entry_table: &mut [u64],
    row_table: &mut [u64],
) -> Result<Header, Refusal>
    requires { form source.text.now ≡ good }
    ensures { ReadsRoot source.entry place
        entry_table.old entry_table.new row_table.old row_table.new result }
{
    match elements::next_tag(source.text, 38) {
        Tag::Open(n) | Tag::Empty(n) => read_tag(source, place, n, entry_table, row_table),
        Tag::End | Tag::Close(_) => Err(Refusal::Structure),
    }
}

// An index's text, of the volume with that UUID, letters and block size, at a partition letter and the number of its first block. The numbers of its
// entries and all rows go into their tables, as far as these have room; what a table holds after a refusal is left open.
pub fn read_into(
    text: &[u8],
    uuid: &[u8],
    volume: Partitions,
    letter: u8,
    block: BlockNumber,
    entry_table: &mut [u64],
    row_table: &mut [u64],
) -> Result<Header, Refusal>
    ensures { ReadsAll text.now (index_of (given uuid.now volume) letter block.0 text.now)
        entry_table.old entry_table.new row_table.old row_table.new result }
{
    if !is_caller_right(uuid, volume, letter) {
        return Err(Refusal::Caller);
    }
    if 1048576 < text.len() {
        return Err(Refusal::TooMany);
    }
    xml::check(text)?;
    let source = Source { text, uuid, volume };
    read_root(source, Location { letter, block }, entry_table, row_table)
}

// The same without the tables.
pub fn read_index(
    text: &[u8],
    uuid: &[u8],
    volume: Partitions,
    letter: u8,
    block: BlockNumber,
) -> Result<Header, Refusal>
    ensures { ReadsIndex text.now (index_of (given uuid.now volume) letter block.0 text.now) result }
{
    read_into(text, uuid, volume, letter, block, &mut [], &mut [])
}
