// The survey of an index's children: one walk, then the fileuids.
ghost use Rattle.std.specs.Prelude.{◌≤◌, length};
ghost use Rattle.xml.specs.FormSteps.{height};
ghost use Rattle.elements.specs.Reading.{forest_at};
ghost use Rattle.index.specs.Steps.{SumsUp, Surveys};

use crate::walk::{Source, Sums, Walk};
use index_names::Sort;
use refusals::Refusal;

// How many directories and files an index has, how many of them files, and how many rows these; and the places of the index's children.
#[derive(Clone, Copy)]
pub struct Gathered {
    pub entries: u64,
    pub files: u64,
    pub rows: u64,
    pub places: [usize; 16],
}

// What the sums of a walk refuse, with the fileuids in a table: that they are all different is one of the values.
fn sum_up(table: &[u64; 4096], s: Sums) -> Result<(), Refusal>
    ensures { SumsUp table.now s result }
{
    if !s.structure {
        return Err(Refusal::Structure);
    }
    if !s.few || 4096 < s.entries {
        return Err(Refusal::TooMany);
    }
    if !s.values || !index_values::unique(table, s.entries as usize) {
        return Err(Refusal::Value);
    }
    if !s.own {
        return Err(Refusal::Foreign);
    }
    if !s.lawful {
        return Err(Refusal::Extents);
    }
    Ok(())
}

// What is gathered of the index whose children are the row at at, if nothing in it is refused; the numbers of its entries and all rows go into their
// tables, as far as these have room.
pub fn survey(
    source: Source<'_>,
    at: usize,
    entry_table: &mut [u64],
    row_table: &mut [u64],
) -> Result<Gathered, Refusal>
    requires { (at ≤ length source.text.now) × (height (forest_at source.text.now at) ≤ 64) }
    ensures { Surveys source.entry at entry_table.old entry_table.new row_table.old
        row_table.new result }
{
    let mut uids = [0u64; 4096];
    let mut rows = [0u64; 5120];
    let mut walk = Walk {
        sums: Sums {
            structure: true,
            few: true,
            values: true,
            own: true,
            lawful: true,
            entries: 0,
            files: 0,
            rows: 0,
        },
        uids: &mut uids,
        rows: &mut rows,
        entry_table,
        row_table,
    };
    let left = walk.row(source, at, Sort::Index, 64, 0);
    let sums = walk.sums;
    sum_up(walk.uids, sums)?;
    let places = left.places;
    Ok(Gathered {
        entries: sums.entries,
        files: sums.files,
        rows: sums.rows,
        places,
    })
}
