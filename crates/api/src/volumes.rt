// A volume: its verdict, and the rescue.
ghost use Rattle.std.specs.Prelude.{◌≡◌};
ghost use Rattle.api.specs.Volumes.{JudgesOut, RescuesOut};
ghost use Rattle.api.specs.Steps.{verdict_numbers, rescue_numbers};

use crate::outputs;
use volume::{Break, FoundCut};

// Which of the five breaks it is, 0 for none, and its number; the last two numbers are the places of the front and the side.
fn in_verdict(found: Option<Break>) -> [u64; 4]
    ensures { result ≡ verdict_numbers found }
{
    match found {
        Some(b) => [b.which(), b.number(), 0, 0],
        None => [0; 4],
    }
}

// Whether the volume is consistent, or which break comes first.
#[unsafe(no_mangle)]
pub extern "C" fn klapouzen_verdict(
    index_list: &[u8],
    index_store: &[u8],
    data_list: &[u8],
    data_store: &[u8],
    out: &mut [u64; 4],
) -> u64
    ensures { JudgesOut index_list.now index_store.now data_list.now data_store.now
        result out.new }
{
    let found = volume::find_break(index_list, index_store, data_list, data_store);
    outputs::tell(found, in_verdict, outputs::with_side, out)
}

// The last two numbers are the places of the front and the side.
fn in_rescue(cut: FoundCut) -> [u64; 7]
    ensures { result ≡ rescue_numbers cut }
{
    [
        cut.index_construct,
        cut.data_construct,
        cut.index_kept,
        cut.data_kept,
        cut.generation.0,
        0,
        0,
    ]
}

// The cut that keeps most index constructs in the index partition and leaves a consistent volume.
#[unsafe(no_mangle)]
pub extern "C" fn klapouzen_rescue(
    index_list: &[u8],
    index_store: &[u8],
    data_list: &[u8],
    data_store: &[u8],
    out: &mut [u64; 7],
) -> u64
    ensures { RescuesOut index_list.now index_store.now data_list.now data_store.now
        result out.new }
{
    let cut = volume::find_cut(index_list, index_store, data_list, data_store);
    outputs::tell(cut, in_rescue, outputs::with_side, out)
}
