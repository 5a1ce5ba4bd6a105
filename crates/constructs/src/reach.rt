// How far data blocks reach from each element of a partition on.
ghost use Rattle.std.specs.Prelude.{◌≡◌, ℕ, ◌+◌, ◌≤◌, ◌<◌, ◌/◌, ◌-◌, ◌++◌, take, drop, length, get_or};
ghost use Rattle.constructs.specs.ReachSteps.{reach_one, even_after, data_length, PutsLengths, reaches, sum_of, Reaches, lies_by};
ghost use Rattle.tape.specs.Tape.{max_store};
ghost use Rattle.tape.specs.Steps.{Encoded};

use quantities::{BlockNumber, ByteCount};
use refusals::Refusal;
use tape::{Cell, Cells};

// Whether the marks behind the labels are even in number, behind a mark, with so many elements of the labels still to come.
fn even_after(k: usize, even: bool) -> bool
    ensures { result ≡ even_after k even }
{
    if k == 0 { !even } else { even }
}

// The length of a block of n bytes as a data block.
fn data_length(k: usize, even: bool, n: usize) -> usize
    ensures { result ≡ data_length k even n }
{
    if k == 0 && even { n } else { 0 }
}

// How far data blocks reach from an element with a data block of x bytes, or none, before an element from which they reach next bytes.
fn reach_one(size: usize, x: usize, next: usize) -> usize
    requires { x + next < 4294967296 }
    ensures { result ≡ reach_one size x next }
{
    if x == size { size + next } else { x.min(size) }
}

// Puts the lengths of a partition's data blocks into the table, 0 for any other element.
fn put_lengths(list: &[u8], store: &[u8], table: &mut [u32])
    requires { (count : ℕ) × Encoded list.now store.now count × (count ≤ length table.old) }
    ensures { PutsLengths list.now store.now table.old table.new }
{
    let mut labels: usize = 4;
    let mut even = true;
    for (at, cell) in Cells::new(list).enumerate() {
        match cell {
            Cell::Mark => {
                table[at] = 0;
                even = even_after(labels, even);
            }
            Cell::Block(n) => table[at] = data_length(labels, even, n) as u32,
            Cell::Unreadable => table[at] = 0,
        }
        labels = labels.saturating_sub(1);
    }
}

// Turns the lengths at the front of the table into how far data blocks reach, from the last element back.
fn extend(count: usize, size: usize, table: &mut [u32])
    requires { (count ≤ length table.old) × (sum_of (take count table.old) ≤ max_store) }
    ensures { table.new ≡ reaches size (take count table.old) ++ drop count table.old }
{
    let mut next: usize = 0;
    for i in (0..count).rev() {
        next = reach_one(size, table[i] as usize, next);
        table[i] = next as u32;
    }
}

// Puts into a table, for each element of a partition, how far data blocks reach from there; the number of elements.
pub fn reach(
    list: &[u8],
    store: &[u8],
    block_size: usize,
    table: &mut [u32],
) -> Result<usize, Refusal>
    ensures { Reaches block_size list.now store.now table.old table.new result }
{
    let count = tape::check(list, store)?;
    if table.len() < count {
        return Err(Refusal::Short);
    }
    put_lengths(list, store, table);
    extend(count, block_size, table);
    Ok(count)
}

// What stands at a place of the table, 0 past its end.
fn entry(table: &[u32], k: u64) -> u64
    ensures { (result ≡ get_or table.now k 0) × (result < 4294967296) }
{
    u64::from(table.get(k as usize).copied().unwrap_or(0))
}

// How many blocks of a size end before the last of so many bytes.
fn blocks_before(bytes: u64, size: u64) -> u64
    ensures { (result ≡ (bytes - 1) / size) × (result ≤ bytes) }
{
    bytes.saturating_sub(1).checked_div(size).unwrap_or(0)
}

// Whether an extent lies on the first kept elements of a partition, by its table: count bytes from an offset in a first block on.
pub fn lies(
    table: &[u32],
    block_size: u64,
    kept: u64,
    first: BlockNumber,
    offset: ByteCount,
    count: ByteCount,
) -> bool
    ensures { result ≡ lies_by table.now block_size kept first.0 offset.0 count.0 }
{
    let Some(bytes) = offset.0.checked_add(count.0) else {
        return false;
    };
    bytes <= entry(table, first.0)
        && first.0 < kept
        && blocks_before(bytes, block_size) < kept - first.0
}
