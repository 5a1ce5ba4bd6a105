// Names: a text decoded, and the path of an entry.
ghost use Rattle.api.specs.Names.{DecodesOut, WritesPathOut};

use crate::outputs;

// Writes the bytes that a text means, its references replaced, to the front of buffer.
#[unsafe(no_mangle)]
pub extern "C" fn klapouzen_decode(text: &[u8], buffer: &mut [u8], count: &mut u64) -> u64
    ensures { DecodesOut text.now buffer.old buffer.new result count.new }
{
    outputs::tell_count(texts::decode(text, buffer, 0), count)
}

// Writes the path of an entry, by the entries of an index's text, nine numbers each, to the front of buffer.
#[unsafe(no_mangle)]
pub extern "C" fn klapouzen_path(
    text: &[u8],
    entries: &[u64],
    entry: u64,
    buffer: &mut [u8],
    count: &mut u64,
) -> u64
    ensures { WritesPathOut text.now entries.now entry buffer.old buffer.new result count.new }
{
    outputs::tell_count(paths::path(text, entries, entry, buffer), count)
}
