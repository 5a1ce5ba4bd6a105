// The walk over an index's elements. What it is handed of an element, its sort, the directory around it and what was gathered before it, is the walk's
// own at that place: a struct of the three would be made and taken apart again for each call.
ghost use Rattle.std.specs.Prelude.{◌≡◌, cond, ◌≤◌, length};
ghost use Rattle.xml.specs.FormSteps.{height};
ghost use Rattle.elements.specs.Reading.{forest_at, head_at, children_at};
ghost use Rattle.elements.specs.StartSteps.{Shape};
ghost use Rattle.index_names.specs.Sorts.{holds_elements, is_file};
ghost use Rattle.index_values.specs.Elements.{name_number};
ghost use Rattle.index.specs.Structure.{may_stand, right_often};
ghost use Rattle.children.specs.Children.{text_of_first};
ghost use Rattle.children.specs.RowSteps.{seat};
ghost use Rattle.index_values.specs.Entries.{is_entry, number_or_zero};
ghost use Rattle.index.specs.Entries.{holder};
ghost use Rattle.index.specs.SweepSteps.{one_more, more_rows, marked, row_done, ended_sums, begun, settled};
ghost use Rattle.index.specs.Steps.{asked, Meets, GoesOn, rows_copied, SaysEntry, EntryListed, Closes, ClosesEmpty, WalksRow};

use elements::{Next, Start};
use index_names::Sort;
use index_values::{Judged, Partitions};

// An index's text, and the volume that it is to be of.
#[derive(Clone, Copy)]
pub struct Source<'a> {
    pub text: &'a [u8],
    pub uuid: &'a [u8],
    pub volume: Partitions,
}

// What the walk gathers besides the tables: whether the structure is right so far, and so on; how many directories and files there are, how many
// of them files, and how many rows those have.
#[derive(Clone, Copy)]
pub struct Sums {
    pub structure: bool,
    pub few: bool,
    pub values: bool,
    pub own: bool,
    pub lawful: bool,
    pub entries: u64,
    pub files: u64,
    pub rows: u64,
}

// The sums so far; the fileuids; the rows of the file at hand; and, as far as they have room, the numbers of the entries and all rows.
#[derive(Drop)]
pub struct Walk<'a> {
    pub sums: Sums,
    pub uids: &'a mut [u64; 4096],
    pub rows: &'a mut [u64; 5120],
    pub entry_table: &'a mut [u64],
    pub row_table: &'a mut [u64],
}

// Where reading goes on behind a row, and the places of its elements.
#[derive(Clone, Copy)]
pub struct Left {
    pub at: usize,
    pub places: [usize; 16],
}

// One more, up to a limit that no lawful count reaches.
#[tactic(auto, unfolding(crate::specs::SweepSteps::one_more))]
fn bump(n: u64) -> u64
    ensures { result ≡ one_more n }
{
    if n < 5000 { n + 1 } else { n }
}

// The name of number j is seen in a row.
#[tactic(auto, unfolding(crate::specs::SweepSteps::marked))]
fn mark(seen: &mut [u64; 16], j: usize)
    ensures { seen.new ≡ marked j seen.old }
{
    if j < 16 {
        seen[j] = bump(seen[j]);
    }
}

// Whether a name of number j that was seen n times comes as often as it must.
fn is_once(needed: usize, j: usize, n: u64) -> bool
    ensures { result ≡ right_often needed j n }
{
    if j < needed { n == 1 } else { n <= 1 }
}

// Whether a row in an element of a kind is complete, by how often each name was seen.
#[tactic(auto, unfolding(crate::specs::SweepSteps::row_done))]
fn is_done(kind: Sort, seen: &[u64; 16]) -> bool
    ensures { result ≡ row_done kind seen.now }
{
    let needed = index_names::must_in(kind);
    index_names::may_repeat(kind) || seen.iter().enumerate().all(|(j, n)| is_once(needed, j, *n))
}

// The row is over.
#[tactic(auto, unfolding(crate::specs::SweepSteps::ended_sums))]
fn finish(kind: Sort, seen: &[u64; 16], a: Sums) -> Sums
    ensures { result ≡ ended_sums kind seen.now a }
{
    Sums {
        structure: a.structure & is_done(kind, seen),
        ..a
    }
}

// Whether elements of a sort hold elements.
fn is_open(sort: Sort) -> bool
    ensures { result ≡ holds_elements sort }
{
    matches!(
        sort,
        Sort::Index
            | Sort::Place
            | Sort::Root
            | Sort::Directory
            | Sort::Contents
            | Sort::File
            | Sort::ExtentInfo
            | Sort::Extent
    )
}

// Whether an element may stand where it does, as one of a sort, and holds what it may.
#[tactic(auto, unfolding(crate::specs::Structure::may_stand))]
fn fits_at(text: &[u8], h: Start, sort: Sort) -> bool
    requires { Shape text.now h }
    ensures { result ≡ may_stand sort (head_at text.now h.at) (children_at text.now h.at) }
{
    if matches!(sort, Sort::Unknown) || !h.plain {
        return false;
    }
    if is_open(sort) {
        !h.leaf || elements::is_blank(elements::part(text, h.text))
    } else {
        matches!(sort, Sort::Skipped) || h.leaf
    }
}

// Whether elements of a sort are directories or files.
fn is_entry(sort: Sort) -> bool
    ensures { result ≡ is_entry sort }
{
    matches!(sort, Sort::Root | Sort::Directory | Sort::File)
}

// Whether they are files.
fn is_file(sort: Sort) -> bool
    ensures { result ≡ is_file sort }
{
    matches!(sort, Sort::File)
}

// One more where it is one of those that are counted.
fn bump_if(one: bool, n: u64) -> u64
    ensures { result ≡ cond one (one_more n) n }
{
    if one { bump(n) } else { n }
}

// The start tag of an element of a sort.
#[tactic(auto, unfolding(crate::specs::SweepSteps::begun))]
fn enter(source: Source<'_>, h: Start, sort: Sort, a: Sums) -> Sums
    requires { Shape source.text.now h }
    ensures { result ≡ begun (asked source.entry) sort (head_at source.entry.text.now h.at)
        (children_at source.entry.text.now h.at) a }
{
    let raw = index_rows::lying(source.text, h.text);
    Sums {
        structure: a.structure & fits_at(source.text, h, sort),
        values: a.values & index_values::is_valued(sort, raw),
        own: a.own & index_values::is_own(source.uuid, source.volume, sort, raw),
        entries: bump_if(is_entry(sort), a.entries),
        files: bump_if(is_file(sort), a.files),
        ..a
    }
}

// So many rows more, up to a limit that no lawful count reaches.
#[tactic(auto, unfolding(crate::specs::SweepSteps::more_rows))]
fn add_rows(n: u64, k: usize) -> u64
    ensures { result ≡ more_rows n k }
{
    if n <= 8388608 && k <= 1024 {
        n + k as u64
    } else {
        n
    }
}

// What is gathered with the tests of a file's extents.
#[tactic(auto, unfolding(crate::specs::SweepSteps::settled))]
fn settle(v: Judged, a: Sums) -> Sums
    ensures { result ≡ settled v.few v.lawful v.count a }
{
    Sums {
        few: a.few & v.few,
        lawful: a.lawful & v.lawful,
        rows: add_rows(a.rows, v.count),
        ..a
    }
}

// A file's rows, the first count of a table, into the table of all rows behind n others, if it has room for them.
#[tactic(auto, unfolding(crate::specs::Steps::rows_copied))]
fn keep_rows(rows: &[u64; 5120], count: usize, row_table: &mut [u64], n: u64)
    ensures { row_table.new ≡ rows_copied rows.now count n row_table.old }
{
    let prior = n as usize;
    if count <= 1024 && prior <= row_table.len() / 5 {
        tables::copy(rows, count * 5, row_table, prior * 5);
    }
}

// The length that a file says, by the place of that element; 0 of a directory.
fn length_of(text: &[u8], sort: Sort, place: usize) -> u64
    ensures { result ≡ cond (is_file sort) (number_or_zero (text_of_first (seat text.now place))) 0 }
{
    if is_file(sort) {
        index_values::number_placed(text, place)
    } else {
        0
    }
}

// The nine numbers of an entry of a sort, in that directory, whose children have those places; so much was gathered before it, and it has so many rows.
fn entry_numbers(
    text: &[u8],
    places: &[usize; 16],
    uid: u64,
    sort: Sort,
    parent: u64,
    prior: Sums,
    count: usize,
) -> [u64; 9]
    ensures { SaysEntry text.now places.now uid sort parent prior count result }
{
    let name = index_rows::span_at(text, places[1]);
    [
        u64::from(is_file(sort)),
        parent,
        prior.files,
        uid,
        name.from as u64,
        name.len as u64,
        length_of(text, sort, places[8]),
        prior.rows,
        count as u64,
    ]
}

// The numbers of an entry go into their tables, its fileuid into that of the fileuids; no other element has any there.
fn list_entry(
    text: &[u8],
    places: &[usize; 16],
    uids: &mut [u64; 4096],
    entry_table: &mut [u64],
    sort: Sort,
    parent: u64,
    prior: Sums,
    count: usize,
)
    ensures { EntryListed text.now places.now sort parent prior count uids.old uids.new
        entry_table.old entry_table.new }
{
    if !is_entry(sort) {
        return;
    }
    let n = prior.entries as usize;
    let uid = index_values::number_placed(text, places[0]);
    tables::put(uids, n, uid);
    if n < entry_table.len() / 9 {
        let numbers = entry_numbers(text, places, uid, sort, parent, prior, count);
        tables::copy(&numbers, 9, entry_table, n * 9);
    }
}

// The number of an element among the names of its row, in an element of a kind.
fn number_at(text: &[u8], h: Start, kind: Sort) -> usize
    requires { Shape text.now h }
    ensures { result ≡ name_number kind (head_at text.now h.at) }
{
    index_names::number_in(kind, index_rows::lying(text, h.name))
}

// An element of such a row is met: its name is seen, its place noted; its sort.
fn meet(text: &[u8], h: Start, kind: Sort, seen: &mut [u64; 16], places: &mut [usize; 16]) -> Sort
    requires { Shape text.now h }
    ensures { Meets text.now kind h.at seen.old places.old seen.new places.new result }
{
    let j = number_at(text, h, kind);
    mark(seen, j);
    index_rows::note(places, j, h.at);
    index_names::sort_in(kind, j)
}

// Where the row goes on behind an element that is not walked over.
fn behind(text: &[u8], h: Start) -> usize
    ensures { GoesOn text.now h result }
{
    if h.leaf {
        h.next
    } else {
        elements::leave(text, h.at)
    }
}

// The directory that holds what is in an element of a sort: it, if it is an entry, else the one around it.
fn directory_in(sort: Sort, parent: u64, number: u64) -> u64
    ensures { result ≡ holder sort parent number }
{
    if is_entry(sort) { number } else { parent }
}

impl Walk<'_> {
    // The end of an element of a sort in that directory, whose children have those places and were walked over; so much was gathered before it.
    fn close(
        &mut self,
        source: Source<'_>,
        places: &[usize; 16],
        sort: Sort,
        parent: u64,
        prior: Sums,
    )
        ensures { Closes source.entry places.now sort parent prior self.old self.new }
    {
        let v = index_values::judge(source.text, places, self.rows, sort, source.volume);
        list_entry(
            source.text,
            places,
            self.uids,
            self.entry_table,
            sort,
            parent,
            prior,
            v.count,
        );
        keep_rows(self.rows, v.count, self.row_table, self.sums.rows);
        self.sums = settle(v, self.sums);
    }

    // The end of one that has an empty tag.
    fn close_empty(&mut self, source: Source<'_>, sort: Sort, parent: u64, prior: Sums)
        ensures { ClosesEmpty source.entry sort parent prior self.old self.new }
    {
        self.sums = finish(sort, &[0; 16], self.sums);
        self.close(source, &[0; 16], sort, parent, prior);
    }

    // The rest of the element of a kind that is open at at, in that directory, with depth levels of nesting left.
    pub fn row(
        &mut self,
        source: Source<'_>,
        at: usize,
        kind: Sort,
        depth: usize,
        parent: u64,
    ) -> Left
        requires { (at ≤ length source.text.now) × (height (forest_at source.text.now at) ≤ depth) }
        ensures { WalksRow source.entry kind at parent self.old self.new result }
    {
        let mut i = at;
        let mut seen = [0u64; 16];
        let mut places = [0usize; 16];
        // A loop, since it ends in two ways, at the text's end and at an end tag.
        loop {
            match elements::next_start(source.text, i) {
                Next::End => {
                    self.sums = finish(kind, &seen, self.sums);
                    return Left {
                        at: source.text.len(),
                        places,
                    };
                }
                Next::Close(n) => {
                    self.sums = finish(kind, &seen, self.sums);
                    return Left { at: n, places };
                }
                Next::Opens(h) => {
                    let sort = meet(source.text, h, kind, &mut seen, &mut places);
                    let prior = self.sums;
                    self.sums = enter(source, h, sort, prior);
                    if !is_open(sort) {
                        i = behind(source.text, h);
                    } else if h.empty {
                        self.close_empty(source, sort, parent, prior);
                        i = h.at;
                    } else {
                        let inside = directory_in(sort, parent, prior.entries);
                        let left = self.row(source, h.at, sort, depth - 1, inside);
                        self.close(source, &left.places, sort, parent, prior);
                        i = left.at;
                    }
                }
            }
        }
    }
}
