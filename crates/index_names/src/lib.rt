// The elements of an index by their names (01, Index): which may stand in which, and how often.
#![tactic(auto)]

ghost use Rattle.std.specs.Prelude.{◌≡◌};
ghost use Rattle.index_names.specs.Rows.{names_of, sorts_of};
ghost use Rattle.index_names.specs.Tables.{times, entry_table, table, sort, must, repeats};
ghost use Rattle.index_names.specs.Names.{number_in, names};

// What an element is.
#[derive(Clone, Copy, PartialEq, Eq, Debug)]
pub enum Sort {
    // One that may not stand where it does.
    Unknown,
    // Elements that hold elements; a place is a location or a previousgenerationlocation, the root the root directory.
    Index,
    Place,
    Root,
    Directory,
    Contents,
    File,
    ExtentInfo,
    Extent,
    // A dataplacementpolicy or extendedattributes: anything may be in it.
    Skipped,
    // Values.
    Comment,
    Creator,
    Uuid,
    Generation,
    Time,
    Boolean,
    Number,
    Letter,
    Name,
    RootName,
    Uid,
    RootUid,
}

// The sorts of what a directory or a file begins with, and then of its own.
macro_rules! entry_sorts {
    ($uid:ident, $name:ident, $($own:ident),*) => {
        [
            Sort::$uid,
            Sort::$name,
            Sort::Time,
            Sort::Time,
            Sort::Time,
            Sort::Time,
            Sort::Time,
            Sort::Boolean,
            $(Sort::$own),*
        ]
    };
}

// The sorts of the elements in an element of each kind, by the numbers of their names.
static INDEX_SORTS: [Sort; 11] = [
    Sort::Creator,
    Sort::Uuid,
    Sort::Generation,
    Sort::Time,
    Sort::Place,
    Sort::Boolean,
    Sort::Number,
    Sort::Root,
    Sort::Comment,
    Sort::Place,
    Sort::Skipped,
];

static PLACE_SORTS: [Sort; 2] = [Sort::Letter, Sort::Number];

static ROOT_SORTS: [Sort; 10] = entry_sorts!(RootUid, RootName, Contents, Skipped);

static DIRECTORY_SORTS: [Sort; 10] = entry_sorts!(Uid, Name, Contents, Skipped);

static CONTENTS_SORTS: [Sort; 2] = [Sort::Directory, Sort::File];

static FILE_SORTS: [Sort; 11] = entry_sorts!(Uid, Name, Number, ExtentInfo, Skipped);

static EXTENTINFO_SORTS: [Sort; 1] = [Sort::Extent];

static EXTENT_SORTS: [Sort; 5] = [
    Sort::Number,
    Sort::Letter,
    Sort::Number,
    Sort::Number,
    Sort::Number,
];

// The number of a name among those of an index. Here and below names are compared one after the other: a loop over a table of them takes twice the
// instructions for a name, and in a match each byte is tested by itself, in more cases than the check proves.
#[tactic(auto, unfolding(crate::specs::Names::names, crate::specs::Names::number_in, crate::specs::Tables::table, crate::specs::Tables::index_table, slices::specs::Words::bytes))]
fn in_index(name: &[u8]) -> usize
    ensures { result ≡ number_in (names Sort.Index) name.now }
{
    if slices::same(name, b"creator") {
        0
    } else if slices::same(name, b"volumeuuid") {
        1
    } else if slices::same(name, b"generationnumber") {
        2
    } else if slices::same(name, b"updatetime") {
        3
    } else if slices::same(name, b"location") {
        4
    } else if slices::same(name, b"allowpolicyupdate") {
        5
    } else if slices::same(name, b"highestfileuid") {
        6
    } else if slices::same(name, b"directory") {
        7
    } else if slices::same(name, b"comment") {
        8
    } else if slices::same(name, b"previousgenerationlocation") {
        9
    } else if slices::same(name, b"dataplacementpolicy") {
        10
    } else {
        11
    }
}

// The number of a name among those of a place.
#[tactic(auto, unfolding(crate::specs::Names::names, crate::specs::Names::number_in, crate::specs::Tables::table, crate::specs::Tables::place_table, slices::specs::Words::bytes))]
fn in_place(name: &[u8]) -> usize
    ensures { result ≡ number_in (names Sort.Place) name.now }
{
    if slices::same(name, b"partition") {
        0
    } else if slices::same(name, b"startblock") {
        1
    } else {
        2
    }
}

// The number of a name among the five times: in one function with the rest of an entry's names the compiler would call the last comparisons.
#[tactic(auto, unfolding(crate::specs::Names::number_in, crate::specs::Tables::times, slices::specs::Words::bytes))]
fn in_times(name: &[u8]) -> usize
    ensures { result ≡ number_in (names_of times) name.now }
{
    if slices::same(name, b"creationtime") {
        0
    } else if slices::same(name, b"changetime") {
        1
    } else if slices::same(name, b"modifytime") {
        2
    } else if slices::same(name, b"accesstime") {
        3
    } else if slices::same(name, b"backuptime") {
        4
    } else {
        5
    }
}

// The number of a name among those that directory and file have.
fn in_entry(name: &[u8]) -> usize
    ensures { result ≡ number_in (names_of (entry_table Sort.Uid Sort.Name)) name.now }
{
    if slices::same(name, b"fileuid") {
        0
    } else if slices::same(name, b"name") {
        1
    } else {
        let j = in_times(name);
        if j < 5 {
            2 + j
        } else if slices::same(name, b"readonly") {
            7
        } else {
            8
        }
    }
}

// The number of a name among those of a directory, the root directory too.
fn in_directory(name: &[u8]) -> usize
    ensures { result ≡ number_in (names Sort.Directory) name.now }
{
    let j = in_entry(name);
    if j < 8 {
        j
    } else if slices::same(name, b"contents") {
        8
    } else if slices::same(name, b"extendedattributes") {
        9
    } else {
        10
    }
}

// The number of a name among those of contents.
#[tactic(auto, unfolding(crate::specs::Names::names, crate::specs::Names::number_in, crate::specs::Tables::table, crate::specs::Tables::contents_table, slices::specs::Words::bytes))]
fn in_contents(name: &[u8]) -> usize
    ensures { result ≡ number_in (names Sort.Contents) name.now }
{
    if slices::same(name, b"directory") {
        0
    } else if slices::same(name, b"file") {
        1
    } else {
        2
    }
}

// The number of a name among those of a file.
fn in_file(name: &[u8]) -> usize
    ensures { result ≡ number_in (names Sort.File) name.now }
{
    let j = in_entry(name);
    if j < 8 {
        j
    } else if slices::same(name, b"length") {
        8
    } else if slices::same(name, b"extentinfo") {
        9
    } else if slices::same(name, b"extendedattributes") {
        10
    } else {
        11
    }
}

// The number of a name among those of an extentinfo.
#[tactic(auto, unfolding(crate::specs::Names::names, crate::specs::Names::number_in, crate::specs::Tables::table, crate::specs::Tables::extentinfo_table, slices::specs::Words::bytes))]
fn in_extentinfo(name: &[u8]) -> usize
    ensures { result ≡ number_in (names Sort.ExtentInfo) name.now }
{
    if slices::same(name, b"extent") { 0 } else { 1 }
}

// The number of a name among those of an extent.
#[tactic(auto, unfolding(crate::specs::Names::names, crate::specs::Names::number_in, crate::specs::Tables::table, crate::specs::Tables::extent_table, slices::specs::Words::bytes))]
fn in_extent(name: &[u8]) -> usize
    ensures { result ≡ number_in (names Sort.Extent) name.now }
{
    if slices::same(name, b"fileoffset") {
        0
    } else if slices::same(name, b"partition") {
        1
    } else if slices::same(name, b"startblock") {
        2
    } else if slices::same(name, b"byteoffset") {
        3
    } else if slices::same(name, b"bytecount") {
        4
    } else {
        5
    }
}

// The number of a name among those in an element of a kind; behind the last one where it is none of them.
#[tactic(auto, unfolding(crate::specs::Tables::table, crate::specs::Tables::times, crate::specs::Tables::entry_table, crate::specs::Tables::of_directory, crate::specs::Names::names, crate::specs::Names::number_in))]
pub fn number_in(kind: Sort, name: &[u8]) -> usize
    ensures { result ≡ number_in (names kind) name.now }
{
    match kind {
        Sort::Index => in_index(name),
        Sort::Place => in_place(name),
        Sort::Root | Sort::Directory => in_directory(name),
        Sort::Contents => in_contents(name),
        Sort::File => in_file(name),
        Sort::ExtentInfo => in_extentinfo(name),
        Sort::Extent => in_extent(name),
        _ => 0,
    }
}

// The sorts of the elements in an element of a kind, by their numbers; none of what holds no elements.
#[tactic(auto, unfolding(crate::specs::Tables::table, crate::specs::Tables::index_table, crate::specs::Tables::place_table, crate::specs::Tables::times, crate::specs::Tables::entry_table, crate::specs::Tables::of_directory, crate::specs::Tables::contents_table, crate::specs::Tables::of_file, crate::specs::Tables::extentinfo_table, crate::specs::Tables::extent_table))]
fn sorts_of(kind: Sort) -> &'static [Sort]
    ensures { result.now ≡ sorts_of (table kind) }
{
    match kind {
        Sort::Index => &INDEX_SORTS,
        Sort::Place => &PLACE_SORTS,
        Sort::Root => &ROOT_SORTS,
        Sort::Directory => &DIRECTORY_SORTS,
        Sort::Contents => &CONTENTS_SORTS,
        Sort::File => &FILE_SORTS,
        Sort::ExtentInfo => &EXTENTINFO_SORTS,
        Sort::Extent => &EXTENT_SORTS,
        _ => &[],
    }
}

// The sort of the element of number j in an element of a kind.
#[tactic(auto, unfolding(crate::specs::Tables::sort))]
pub fn sort_in(kind: Sort, j: usize) -> Sort
    ensures { result ≡ sort kind j }
{
    sorts_of(kind).get(j).copied().unwrap_or(Sort::Unknown)
}

// How many of the elements in an element of a kind must be there.
#[tactic(auto, unfolding(crate::specs::Tables::must, crate::specs::Rows::count_once, crate::specs::Tables::table, crate::specs::Tables::index_table, crate::specs::Tables::place_table, crate::specs::Tables::times, crate::specs::Tables::entry_table, crate::specs::Tables::of_directory, crate::specs::Tables::contents_table, crate::specs::Tables::of_file, crate::specs::Tables::extentinfo_table, crate::specs::Tables::extent_table))]
pub fn must_in(kind: Sort) -> usize
    ensures { result ≡ must kind }
{
    match kind {
        Sort::Index => 8,
        Sort::Place => 2,
        Sort::Root | Sort::Directory | Sort::File => 9,
        Sort::Extent => 5,
        _ => 0,
    }
}

// Whether elements of one name may come again in an element of a kind.
#[tactic(auto, unfolding(crate::specs::Tables::repeats, crate::specs::Rows::some_any_number, crate::specs::Tables::table, crate::specs::Tables::index_table, crate::specs::Tables::place_table, crate::specs::Tables::times, crate::specs::Tables::entry_table, crate::specs::Tables::of_directory, crate::specs::Tables::contents_table, crate::specs::Tables::of_file, crate::specs::Tables::extentinfo_table, crate::specs::Tables::extent_table))]
pub fn may_repeat(kind: Sort) -> bool
    ensures { result ≡ repeats kind }
{
    matches!(kind, Sort::Contents | Sort::ExtentInfo)
}
