// A partition's block list and store (01, The block list): checked, walked, cut after n elements, and asked for a block.
#![tactic(auto)]

ghost use Rattle.std.specs.Prelude.{◌≡◌, ◌+◌, ◌≤◌, Ok, length};
ghost use Rattle.refusals.specs.Refusals.{and_then};
ghost use Rattle.quantities.specs.Letters.{are_letters};
ghost use Rattle.tape.specs.Tape.{max_elements};
ghost use Rattle.std.specs.Iterator.{YieldsFirst, item_count};
ghost use Rattle.tape.specs.ReadingSteps.{number_at, entry_at, cells};
ghost use Rattle.tape.specs.CellSteps.{cells_rest};
ghost use Rattle.tape.specs.WalkSteps.{passed, cells_left, totals_from, reach, spot_at, spot_below};
ghost use Rattle.tape.specs.Answers.{element_count, block_of};
ghost use Rattle.tape.specs.Steps.{Keeps, KeptList, KeptStore, FindsBlock};

use quantities::BlockNumber;
use refusals::Refusal;

// What stands at a place of a list, with the place of the next entry: a file mark, a block with its length, an unreadable block, nothing
// since the list ends, or no entry of a list.
#[derive(Clone, Copy, PartialEq, Eq, Debug)]
pub enum Entry {
    Mark(usize),
    Block(usize, usize),
    Unreadable(usize),
    End,
    Bad,
}

// What a list says of an element: that it is a file mark, a block of so many bytes, or an unreadable block.
#[derive(Clone, Copy, PartialEq, Eq, Debug)]
pub enum Cell {
    Mark,
    Block(usize),
    Unreadable,
}

impl Entry {
    // What the entry says of its element, and the place of the next entry; none where no element stands.
    fn passed(self) -> Option<(Cell, usize)>
        ensures { result ≡ passed self }
    {
        match self {
            Entry::Mark(next) => Some((Cell::Mark, next)),
            Entry::Block(n, next) => Some((Cell::Block(n), next)),
            Entry::Unreadable(next) => Some((Cell::Unreadable, next)),
            Entry::End | Entry::Bad => None,
        }
    }
}

// The elements of a list, one after the other, as far as there are entries.
#[derive(Clone, Drop)]
pub struct Cells<'a> {
    list: &'a [u8],
    at: usize,
}

impl<'a> Cells<'a> {
    pub fn new(list: &'a [u8]) -> Cells<'a>
        ensures { cells_rest result ≡ cells_left list.now 0 }
    {
        Cells { list, at: 0 }
    }
}

impl<'a> Iterator for Cells<'a> {
    type Item = Cell;

    ghost next_gives = { YieldsFirst cells_rest };

    ghost remaining = { item_count cells_rest };

    fn next(&mut self) -> Option<Cell> {
        let (cell, next) = entry_at(self.list, self.at).passed()?;
        self.at = next;
        Some(cell)
    }
}

// The number in four bytes, high byte first.
fn number_at(list: &[u8], at: usize) -> usize
    requires { at + 4 ≤ length list.now }
    ensures { result ≡ number_at list.now at }
{
    u32::from_be_bytes([list[at], list[at + 1], list[at + 2], list[at + 3]]) as usize
}

// The entry at a place of a list.
#[tactic(auto, using(std::proofs::lemmas::Bool::Decides::nat_tests), unfolding(crate::specs::ReadingSteps::entry_at))]
pub fn entry_at(list: &[u8], at: usize) -> Entry
    ensures { result ≡ entry_at list.now at }
{
    let Some(kind) = list.get(at) else {
        return Entry::End;
    };
    match *kind {
        1 => Entry::Mark(at + 1),
        3 => Entry::Unreadable(at + 1),
        2 if 5 <= list.len() - at => {
            let n = number_at(list, at + 1);
            if (1..=1048576).contains(&n) {
                Entry::Block(n, at + 5)
            } else {
                Entry::Bad
            }
        }
        _ => Entry::Bad,
    }
}

// The number of elements of a list, and the bytes of its blocks.
#[derive(Clone, Copy)]
struct Totals {
    elements: usize,
    bytes: usize,
}

// The totals of a list, none where an entry is wrong or the elements are too many.
fn sum_up(list: &[u8]) -> Option<Totals>
    ensures { result ≡ totals_from 0 0 (cells list.now) }
{
    let mut at: usize = 0;
    let mut elements: usize = 0;
    let mut bytes: usize = 0;
    // By the place, since `Cells` ends at a wrong entry as it does at the end; and by the entry, here and in `walk`, since by what `passed` hands out the
    // compiler adds the size of 0 for a mark too, in 1.4 times as many instructions.
    while at < list.len() {
        if elements == 65536 {
            return None;
        }
        match entry_at(list, at) {
            Entry::Mark(next) => {
                at = next;
                elements += 1; // marks count too
            }
            Entry::Block(n, next) => {
                at = next;
                elements += 1;
                bytes += n;
            }
            Entry::Unreadable(next) => {
                at = next;
                elements += 1;
            }
            Entry::End | Entry::Bad => return None,
        }
    }
    Some(Totals { elements, bytes })
}

// Whether a list and a store are well formed, and how many elements they have.
pub fn check(list: &[u8], store: &[u8]) -> Result<usize, Refusal>
    ensures { result ≡ element_count list.now store.now }
{
    match sum_up(list) {
        Some(totals) if totals.bytes == store.len() && totals.bytes <= 16777216 => {
            Ok(totals.elements)
        }
        _ => Err(Refusal::List),
    }
}

// How far the first entries of a list reach, in the list and in the store.
#[derive(Clone, Copy, PartialEq, Eq, Debug)]
pub struct Front {
    pub list: usize,
    pub store: usize,
}

// How far the first n entries reach, as far as there are entries.
fn walk(list: &[u8], n: usize) -> Front
    requires { n ≤ max_elements }
    ensures { result ≡ reach n list.now 0 0 }
{
    let mut at: usize = 0;
    let mut store: usize = 0;
    for _ in 0..n {
        match entry_at(list, at) {
            Entry::Mark(next) | Entry::Unreadable(next) => at = next,
            Entry::Block(size, next) => {
                at = next;
                store += size;
            }
            Entry::End | Entry::Bad => return Front { list: at, store },
        }
    }
    Front { list: at, store }
}

// Keeps n elements, and answers the lengths of the two fronts; n above the count keeps all.
pub fn keep(list: &[u8], store: &[u8], n: usize) -> Result<Front, Refusal>
    ensures { Keeps n list.now store.now result }
{
    let count = check(list, store)?;
    Ok(walk(list, n.min(count)))
}

// The front of the list that keeping n elements keeps.
pub fn kept_list<'a>(list: &'a [u8], store: &[u8], n: usize) -> Result<&'a [u8], Refusal>
    ensures { KeptList n list.now store.now (and_then result (λ x. Ok x.now)) }
{
    let front = keep(list, store, n)?;
    Ok(&list[..front.list])
}

// The front of the store, likewise.
pub fn kept_store<'a>(list: &[u8], store: &'a [u8], n: usize) -> Result<&'a [u8], Refusal>
    ensures { KeptStore n list.now store.now (and_then result (λ y. Ok y.now)) }
{
    let front = keep(list, store, n)?;
    Ok(&store[..front.store])
}

// Where a block's bytes begin in the store, and their number.
#[derive(Clone, Copy)]
struct Spot {
    from: usize,
    size: usize,
}

// The block behind the first n entries of a list.
fn find(list: &[u8], n: usize) -> Result<Spot, Refusal>
    requires { n ≤ max_elements }
    ensures { result ≡ spot_at list.now n }
{
    let front = walk(list, n);
    match entry_at(list, front.list) {
        Entry::Block(size, _) => Ok(Spot {
            from: front.store,
            size,
        }),
        Entry::Unreadable(_) => Err(Refusal::Unreadable),
        Entry::Mark(_) | Entry::End | Entry::Bad => Err(Refusal::Missing),
    }
}

// Two different partition letters, and a letter that is one of them.
pub fn are_letters(index: u8, data: u8, letter: u8) -> bool
    ensures { result ≡ are_letters index «data» letter }
{
    quantities::is_letter(u64::from(index))
        && quantities::is_letter(u64::from(data))
        && index != data
        && (letter == index || letter == data)
}

// The block with a number, of a list with so many elements; they were counted when it was checked, and are not counted again.
fn numbered(list: &[u8], count: usize, number: BlockNumber) -> Result<Spot, Refusal>
    requires { count ≤ max_elements }
    ensures { result ≡ spot_below count list.now number.0 }
{
    let n = number.0 as usize;
    if n < count {
        find(list, n)
    } else {
        Err(Refusal::Missing)
    }
}

// Where a block lies: whether in the store of the index partition, from which byte on, and how long it is.
#[derive(Clone, Copy, PartialEq, Eq, Debug)]
pub struct StorePart {
    pub on_index: bool,
    pub from: usize,
    pub size: usize,
}

// Where the block with a letter and a number lies; its bytes lie there.
pub fn find_block(
    index_list: &[u8],
    index_store: &[u8],
    data_list: &[u8],
    data_store: &[u8],
    index_letter: u8,
    data_letter: u8,
    letter: u8,
    number: BlockNumber,
) -> Result<StorePart, Refusal>
    ensures { FindsBlock index_letter data_letter letter number.0 index_list.now index_store.now
        data_list.now data_store.now result }
{
    if !are_letters(index_letter, data_letter, letter) {
        return Err(Refusal::Caller);
    }
    let index_count = check(index_list, index_store)?;
    let data_count = check(data_list, data_store)?;
    let on_index = letter == index_letter;
    let (list, count) = if on_index {
        (index_list, index_count)
    } else {
        (data_list, data_count)
    };
    let Spot { from, size } = numbered(list, count, number)?;
    Ok(StorePart {
        on_index,
        from,
        size,
    })
}

// The bytes of the block with a letter and a number, a part of whichever store holds it.
pub fn block<'a>(
    index_list: &[u8],
    index_store: &'a [u8],
    data_list: &[u8],
    data_store: &'a [u8],
    index_letter: u8,
    data_letter: u8,
    letter: u8,
    number: BlockNumber,
) -> Result<&'a [u8], Refusal>
    ensures { and_then result (λ x. Ok x.now) ≡ block_of index_letter data_letter letter number.0
        index_list.now index_store.now data_list.now data_store.now }
{
    let part = find_block(
        index_list,
        index_store,
        data_list,
        data_store,
        index_letter,
        data_letter,
        letter,
        number,
    )?;
    let store = if part.on_index {
        index_store
    } else {
        data_store
    };
    Ok(&store[part.from..part.from + part.size])
}
