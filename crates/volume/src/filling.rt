// The tables of a partition: its standing constructs, and how far data blocks reach.
ghost use Rattle.std.specs.Prelude.{◌≡◌, ◌-◌};
ghost use Rattle.constructs.specs.TableSteps.{bounds_in};
ghost use Rattle.volume.specs.Steps.{ListsOf, ReachesOf, EndsAt};
ghost use Rattle.volume.specs.Readers.{FillsOf};

use constructs::{Bounds, NUMBERS};

// The most elements of a list, and so the numbers of a table with one for each.
pub const ELEMENTS: usize = 65536;

// A partition: its list of elements and its store.
#[derive(Clone, Copy)]
pub struct Partition<'a> {
    pub list: &'a [u8],
    pub store: &'a [u8],
}

// The tables of a partition, and its store: where its constructs lie, and how many stand; how far data blocks reach from each element on, and how
// many elements it has.
#[derive(Clone, Copy)]
pub struct Tables<'a> {
    pub store: &'a [u8],
    pub constructs: &'a [u32; NUMBERS],
    pub count: usize,
    pub reach: &'a [u32],
    pub elements: usize,
}

// Puts the standing constructs of a partition into the table; their number.
fn list_constructs(partition: Partition, size: u64, table: &mut [u32; NUMBERS]) -> usize
    ensures { ListsOf size partition.entry.list.now partition.entry.store.now table.old table.new result }
{
    constructs::scan(partition.list, partition.store, size as usize, table).unwrap_or(0)
}

// Puts into the table how far data blocks reach from each element on; the number of elements.
fn fill_reach(partition: Partition, size: u64, table: &mut [u32]) -> usize
    ensures { ReachesOf size partition.entry.list.now partition.entry.store.now table.old table.new result }
{
    constructs::reach::reach(partition.list, partition.store, size as usize, table).unwrap_or(0)
}

impl<'a> Tables<'a> {
    // Fills both tables of a partition.
    pub fn fill(
        partition: Partition<'a>,
        size: u64,
        constructs: &'a mut [u32; NUMBERS],
        reach: &'a mut [u32],
    ) -> Tables<'a>
        ensures { FillsOf size partition.entry.list.now partition.entry.store.now constructs.old reach.old result }
    {
        let count = list_constructs(partition, size, constructs);
        let elements = fill_reach(partition, size, reach);
        Tables {
            store: partition.store,
            constructs,
            count,
            reach,
            elements,
        }
    }
}

impl Tables<'_> {
    // The construct with number k.
    pub fn construct(&self, k: usize) -> Bounds
        ensures { result ≡ bounds_in self.now.constructs.now k }
    {
        constructs::construct(self.constructs, k)
    }

    // The number of the last construct, 0 where there is none.
    pub fn last(&self) -> usize
        ensures { result ≡ self.now.count - 1 }
    {
        self.count.saturating_sub(1)
    }

    // Whether the partition ends with its last construct.
    pub fn ends(&self) -> bool
        ensures { EndsAt self.now.constructs.now self.now.count self.now.elements result }
    {
        self.count != 0 && self.construct(self.last()).end == self.elements
    }
}
