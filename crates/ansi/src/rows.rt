// The bytes of a file that are handed out, put behind those of the files before it.
ghost use Rattle.writing.specs.Steps.{GrowsByAtMost};
ghost use Rattle.ansi.specs.Layout.{tape_file_of};
ghost use Rattle.ansi.specs.Answers.{file_bytes};

use writing::Text;

// Adds the file with the labels HDR1 and HDR2 whose header mark element first follows.
pub fn add_file(rows: &mut Text<'_>, h: &[u8], g: &[u8], first: usize)
    ensures { GrowsByAtMost 36 rows.old (file_bytes (tape_file_of h.now g.now first)) rows.new }
{
    rows.add(slices::part(h, 4, 17));
    rows.add(slices::part(g, 4, 11));
    rows.add_big_endian(8, first as u64);
}
