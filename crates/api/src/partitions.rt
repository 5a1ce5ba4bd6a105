// A partition's list and store: checked, cut, asked for a block and for its constructs.
ghost use Rattle.std.specs.Prelude.{◌≡◌};
ghost use Rattle.tape.specs.Answers.{element_count};
ghost use Rattle.api.specs.Outputs.{Shown, one};
ghost use Rattle.api.specs.Partitions.{fronts, part_numbers, ShowsKept, ShowsPlace, ListsConstructs};

use crate::outputs;
use quantities::BlockNumber;
use refusals::Refusal;
use tape::{Front, StorePart};

// The number of elements of a partition.
#[unsafe(no_mangle)]
pub extern "C" fn klapouzen_check_list(list: &[u8], store: &[u8], count: &mut u64) -> u64
    ensures { Shown 1 one (element_count list.now store.now) result (one count.new) }
{
    outputs::tell_count(tape::check(list, store), count)
}

// How many bytes of the list and of the store.
fn in_lengths(front: Front) -> [u64; 2]
    ensures { result ≡ fronts front }
{
    [front.list as u64, front.store as u64]
}

// How many bytes of the list and of the store n elements keep; n above the count keeps all.
#[unsafe(no_mangle)]
pub extern "C" fn klapouzen_keep(list: &[u8], store: &[u8], n: u64, out: &mut [u64; 2]) -> u64
    ensures { ShowsKept n list.now store.now result out.new }
{
    outputs::tell(
        tape::keep(list, store, n as usize),
        in_lengths,
        outputs::zeros,
        out,
    )
}

// The side; where the block begins in that side's store, and its length.
fn in_part(part: StorePart) -> [u64; 3]
    ensures { result ≡ part_numbers part }
{
    [
        u64::from(!part.on_index),
        part.from as u64,
        part.size as u64,
    ]
}

// Where the block with a letter and a number lies.
#[unsafe(no_mangle)]
pub extern "C" fn klapouzen_block(
    index_list: &[u8],
    index_store: &[u8],
    data_list: &[u8],
    data_store: &[u8],
    index_letter: u8,
    data_letter: u8,
    letter: u8,
    number: u64,
    out: &mut [u64; 3],
) -> u64
    ensures { ShowsPlace index_letter data_letter letter number index_list.now index_store.now
        data_list.now data_store.now result out.new }
{
    let part = tape::find_block(
        index_list,
        index_store,
        data_list,
        data_store,
        index_letter,
        data_letter,
        letter,
        BlockNumber(number),
    );
    outputs::tell(part, in_part, outputs::zeros, out)
}

// Puts the standing constructs of a partition into a table, four numbers for each.
#[unsafe(no_mangle)]
pub extern "C" fn klapouzen_constructs(
    list: &[u8],
    store: &[u8],
    block_size: u64,
    table: &mut [u32; 87380],
    count: &mut u64,
) -> u64
    ensures { ListsConstructs block_size list.now store.now
        table.old table.new result count.new }
{
    let scanned = if quantities::is_block_size(block_size) {
        constructs::scan(list, store, block_size as usize, table)
    } else {
        Err(Refusal::Caller)
    };
    outputs::tell_count(scanned, count)
}
