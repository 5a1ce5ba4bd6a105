// What the program writes for the four files of a volume (01, Bench examples).
#![tactic(auto)]

mod composing;

ghost use Rattle.std.specs.Prelude.{◌≡◌};
ghost use Rattle.slices.specs.Writers.{Puts};
ghost use Rattle.bench_lines.specs.Lines.{files_bounded, lines_in};

use refusals::Refusal;
use writing::Text;

// Whether each file is within its bound.
fn is_bounded(index_list: &[u8], index_store: &[u8], data_list: &[u8], data_store: &[u8]) -> bool
    ensures { result ≡ files_bounded index_list.now index_store.now
        data_list.now data_store.now }
{
    index_list.len() <= 4096
        && index_store.len() <= 24576
        && data_list.len() <= 4096
        && data_store.len() <= 24576
}

// Writes the lines to the front of out.
pub fn write(
    index_list: &[u8],
    index_store: &[u8],
    data_list: &[u8],
    data_store: &[u8],
    out: &mut [u8],
) -> Result<usize, Refusal>
    ensures { Puts 0 (lines_in index_list.now index_store.now data_list.now data_store.now)
        out.old out.new result }
{
    let mut buffer = [0u8; 256];
    let mut text = Text::new(&mut buffer);
    if !is_bounded(index_list, index_store, data_list, data_store) {
        composing::add_refusal(&mut text, Refusal::TooMany);
        return slices::put(out, 0, text.bytes());
    }
    let verdict = volume::find_break(index_list, index_store, data_list, data_store);
    let rescue = volume::find_cut(index_list, index_store, data_list, data_store);
    composing::add_lines(&mut text, verdict, rescue);
    slices::put(out, 0, text.bytes())
}
