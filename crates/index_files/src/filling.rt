// Rows into a lent buffer of numbers.
ghost use Rattle.std.specs.Prelude.{◌≡◌, ◌+◌, ◌*◌, ◌≤◌, length};
ghost use Rattle.slices.specs.Slices.{written};
ghost use Rattle.extents.specs.Rows.{five, numbers_of};
ghost use Rattle.index_files.specs.RowSteps.{row_is};
ghost use Rattle.index_files.specs.EachRow.{rows_left};

use crate::extent_rows::{EachRow, Row};

// The five numbers of a row, into out from at on.
fn put_row(out: &mut [u64], at: usize, row: Row)
    requires { at + 5 ≤ length out.old }
    ensures { out.new ≡ written at (five (row_is row)) out.old }
{
    out[at..at + 5].copy_from_slice(&row.numbers());
}

// The rows that are left, into the front of out.
pub(crate) fn write_rows(rows: EachRow, out: &mut [u64])
    requires { length (rows_left rows) * 5 ≤ length out.old }
    ensures { out.new ≡ written 0 (numbers_of (rows_left rows.entry)) out.old }
{
    for (k, row) in rows.enumerate() {
        put_row(out, k * 5, row);
    }
}
