// ANSI labelled tapes: their files, and where a tape leaves the layout.
ghost use Rattle.api.specs.Tapes.{ReadsAnsi, PlacesAnsi};

use crate::outputs;

// The files of an ANSI labelled tape, 36 bytes each, at the front of buffer.
#[unsafe(no_mangle)]
pub extern "C" fn klapouzen_ansi(
    list: &[u8],
    store: &[u8],
    buffer: &mut [u8],
    count: &mut u64,
) -> u64
    ensures { ReadsAnsi list.now store.now buffer.old buffer.new result count.new }
{
    outputs::tell_count(ansi::files(list, store, buffer), count)
}

// How many elements at the front of a tape some tape in the layout begins with.
#[unsafe(no_mangle)]
pub extern "C" fn klapouzen_ansi_place(list: &[u8], store: &[u8], place: &mut u64) -> u64
    ensures { PlacesAnsi list.now store.now result place.new }
{
    outputs::tell_count(ansi::place(list, store), place)
}
