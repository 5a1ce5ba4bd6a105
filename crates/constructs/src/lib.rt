// Constructs of a partition (01, Constructs, verdict and cut): where each standing construct lies, and how far data blocks reach.
#![tactic(auto)]

ghost use Rattle.std.specs.Prelude.{◌≡◌, ℕ, ◌+◌, ◌*◌, ◌<◌, [], ◌∷◌};
ghost use Rattle.std.proofs.lemmas.List.Edits.{sets};

pub mod reach;

ghost use Rattle.tape.specs.Tape.{max_elements};
ghost use Rattle.tape.specs.Steps.{Encoded};
ghost use Rattle.constructs.specs.TableSteps.{FindsConstructs, ScansPartition, bounds_in};
ghost use Rattle.constructs.specs.Tables.{text_end};
ghost use Rattle.constructs.specs.PhaseSteps.{past_labels, after_mark, after_block, after_unreadable, closed_count, closed_table, Roomy, FitsTable};

use quantities::BlockNumber;
use refusals::Refusal;
use tape::{Cell, Cells};

// The most standing constructs of a partition, and the numbers of a table of them, four for each.
pub const CONSTRUCTS: usize = 21845;

pub const NUMBERS: usize = 87380;

// Where the next element stands: among the four of the labels, so many after it there; in a data run; in an index run, with its first
// element, where its bytes begin in the store, whether the block before was short, and whether an unreadable block was met; behind the
// first defect.
#[derive(Clone, Copy)]
enum Phase {
    Labels(usize),
    Data,
    Index {
        first: usize,
        from: usize,
        short: bool,
        holed: bool,
    },
    Defect,
}

impl Phase {
    // The phase behind the next element of the labels, with so many after it.
    fn past_label(k: usize) -> Phase
        ensures { result ≡ past_labels k }
    {
        match k {
            0 => Phase::Data,
            _ => Phase::Labels(k - 1),
        }
    }

    // The phase behind a mark, element at, with off bytes of blocks before it.
    fn after_mark(self, at: usize, off: usize) -> Phase
        requires { at < max_elements }
        ensures { result ≡ after_mark self at off }
    {
        match self {
            Phase::Labels(k) => Phase::past_label(k),
            Phase::Data => Phase::Index {
                first: at + 1,
                from: off,
                short: false,
                holed: false,
            },
            Phase::Index { first, .. } if first == at => Phase::Defect,
            Phase::Index { .. } => Phase::Data,
            Phase::Defect => Phase::Defect,
        }
    }

    // The phase behind a block of n bytes.
    fn after_block(self, size: usize, n: usize) -> Phase
        ensures { result ≡ after_block self size n }
    {
        match self {
            Phase::Labels(k) => Phase::past_label(k),
            Phase::Data if n <= size => Phase::Data,
            Phase::Index {
                first,
                from,
                short: false,
                holed,
            } if n <= size => Phase::Index {
                first,
                from,
                short: n < size,
                holed,
            },
            _ => Phase::Defect,
        }
    }

    // The phase behind an unreadable block.
    fn after_unreadable(self) -> Phase
        ensures { result ≡ after_unreadable self }
    {
        match self {
            Phase::Labels(k) => Phase::past_label(k),
            Phase::Data => Phase::Data,
            Phase::Index { short: true, .. } => Phase::Defect, // the short block was not the last
            Phase::Index { first, from, .. } => Phase::Index {
                first,
                from,
                short: false,
                holed: true,
            },
            Phase::Defect => Phase::Defect,
        }
    }
}

// Puts a construct into the table behind the n that are there. The table is C's or a fixed array, since no heap is used.
fn enter(table: &mut [u32; NUMBERS], n: usize, first: usize, end: usize, from: usize, to: usize)
    requires { FitsTable n first end from to }
    ensures { table.new ≡ sets table.old (n * 4) (first ∷ end ∷ from ∷ to ∷ []) }
{
    let k = n * 4;
    table[k] = first as u32;
    table[k + 1] = end as u32;
    table[k + 2] = from as u32;
    table[k + 3] = to as u32;
}

// Where the text of an index run ends in the store, which begins at from and whose blocks end at off: an empty text with an unreadable
// block in the run.
fn text_end(holed: bool, from: usize, off: usize) -> usize
    ensures { result ≡ text_end holed from off }
{
    if holed { from } else { off }
}

// Puts the construct that a mark, element at, closes into the table behind the n that are there; the number that are there then.
fn close(table: &mut [u32; NUMBERS], n: usize, phase: Phase, at: usize, off: usize) -> usize
    requires { Roomy n phase at off }
    ensures { (result ≡ closed_count n phase at) × (table.new ≡ closed_table table.old n phase at off) }
{
    match phase {
        Phase::Index {
            first,
            from,
            holed,
            ..
        } if first != at => {
            enter(table, n, first, at + 1, from, text_end(holed, from, off));
            n + 1
        }
        _ => n,
    }
}

// Puts the standing constructs of a list into the table; their number.
fn fill(list: &[u8], store: &[u8], size: usize, table: &mut [u32; NUMBERS]) -> usize
    requires { (count : ℕ) × Encoded list.now store.now count }
    ensures { FindsConstructs size list.now store.now table.old table.new result }
{
    let mut off: usize = 0;
    let mut n: usize = 0;
    let mut phase = Phase::Labels(3);
    for (at, cell) in Cells::new(list).enumerate() {
        match cell {
            Cell::Mark => {
                n = close(table, n, phase, at, off);
                phase = phase.after_mark(at, off);
            }
            Cell::Block(k) => {
                phase = phase.after_block(size, k);
                off += k;
            }
            Cell::Unreadable => {
                phase = phase.after_unreadable();
            }
        }
    }
    n
}

// Puts the standing constructs of a partition into a table, four numbers for each: its first block, the elements through its closing
// mark, and where its text begins and ends in the store, the same place where it has an unreadable block.
pub fn scan(
    list: &[u8],
    store: &[u8],
    block_size: usize,
    table: &mut [u32; NUMBERS],
) -> Result<usize, Refusal>
    ensures { ScansPartition block_size list.now store.now table.old table.new result }
{
    tape::check(list, store)?;
    Ok(fill(list, store, block_size, table))
}

// Where a construct lies: its first block, the elements through its closing mark, and where its text begins and ends in the store, the
// same place where it has an unreadable block.
#[derive(Clone, Copy, PartialEq, Eq, Debug)]
pub struct Bounds {
    pub first: BlockNumber,
    pub end: usize,
    pub from: usize,
    pub to: usize,
}

// The construct with number k of a table, zeros past the last.
pub fn construct(table: &[u32; NUMBERS], k: usize) -> Bounds
    ensures { result ≡ bounds_in table.now k }
{
    if CONSTRUCTS <= k {
        return Bounds {
            first: BlockNumber(0),
            end: 0,
            from: 0,
            to: 0,
        };
    }
    let i = k * 4;
    Bounds {
        first: BlockNumber(u64::from(table[i])),
        end: table[i + 1] as usize,
        from: table[i + 2] as usize,
        to: table[i + 3] as usize,
    }
}
