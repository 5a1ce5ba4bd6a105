// All of an index at once: its header, its entries and all rows, by one walk over its text.
ghost use Rattle.std.specs.Prelude.{◌≡◌, ◌+◌, ◌*◌, ◌≤◌, length};
ghost use Rattle.index.specs.Index.{index_of};
ghost use Rattle.index_values.specs.Steps.{given};
ghost use Rattle.index_files.specs.WholeSteps.{enough, HandsOver, ReadsWhole};

use index::Header;
use index_values::Partitions;
use quantities::BlockNumber;
use refusals::Refusal;

// Whether so many numbers are enough for what a header counts.
fn is_enough(h: Header, entries: usize, rows: usize) -> bool
    ensures { result ≡ enough h entries rows }
{
    let room = (entries / 9) as u64;
    h.directories <= room && h.files <= room - h.directories && h.rows <= (rows / 5) as u64
}

// What a header counts, from the tables into the buffers.
fn hand_over(
    h: Header,
    entry_table: &[u64],
    row_table: &[u64],
    entries: &mut [u64],
    rows: &mut [u64],
)
    requires { ((h.directories + h.files) * 9 ≤ length entry_table.now) × (h.rows * 5 ≤ length row_table.now) }
    ensures { HandsOver h entry_table.now row_table.now entries.old entries.new
        rows.old rows.new }
{
    let count = h.directories + h.files;
    tables::copy(entry_table, count as usize * 9, entries, 0);
    tables::copy(row_table, h.rows as usize * 5, rows, 0);
}

// All of an index's text by tables, whatever is in them. What is read stands there first, so that nothing is written where it is refused; the text of an
// index that they have no room for is walked over again.
fn read_by_tables(
    text: &[u8],
    uuid: &[u8],
    volume: Partitions,
    letter: u8,
    block: BlockNumber,
    entry_table: &mut [u64],
    row_table: &mut [u64],
    entries: &mut [u64],
    rows: &mut [u64],
) -> Result<Header, Refusal>
    ensures { ReadsWhole text.now (index_of (given uuid.now volume) letter block.0 text.now)
        entries.old entries.new rows.old rows.new result }
{
    let h = index::read_into(text, uuid, volume, letter, block, entry_table, row_table)?;
    if !is_enough(h, entries.len(), rows.len()) {
        return Err(Refusal::Short);
    }
    if !is_enough(h, entry_table.len(), row_table.len()) {
        return index::read_into(text, uuid, volume, letter, block, entries, rows);
    }
    hand_over(h, entry_table, row_table, entries, rows);
    Ok(h)
}

// All of an index's text: entries and rows go into the fronts of the buffers; the other parameters are those of reading it. The tables have room for all
// entries, and for 4,096 rows.
pub fn read_whole(
    text: &[u8],
    uuid: &[u8],
    volume: Partitions,
    letter: u8,
    block: BlockNumber,
    entries: &mut [u64],
    rows: &mut [u64],
) -> Result<Header, Refusal>
    ensures { ReadsWhole text.now (index_of (given uuid.now volume) letter block.0 text.now)
        entries.old entries.new rows.old rows.new result }
{
    let mut entry_table = [0u64; 36864];
    let mut row_table = [0u64; 20480];
    read_by_tables(
        text,
        uuid,
        volume,
        letter,
        block,
        &mut entry_table,
        &mut row_table,
        entries,
        rows,
    )
}
