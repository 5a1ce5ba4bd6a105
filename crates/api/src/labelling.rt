// Labels: read, written, and the labels of a volume.
ghost use Rattle.std.specs.Prelude.{◌≡◌, [], ◌∷◌, ◌++◌};
ghost use Rattle.api.specs.Labels.{given_label, ReadsVol1Out, WritesVol1, ReadsLabelOut, ChecksOut, WritesLabel};
ghost use Rattle.api.specs.Steps.{vol1_numbers, label_numbers};

use crate::outputs;
use label::LabelFields;
use label_writer::Given;
use refusals::Refusal;
use vol1::Vol1;

// The last number is the place of the front.
fn in_numbers(f: LabelFields) -> [u64; 13]
    ensures { result ≡ label_numbers f }
{
    [
        f.release,
        f.creator.from as u64,
        f.creator.len as u64,
        f.time.from as u64,
        f.time.len as u64,
        f.uuid.from as u64,
        f.uuid.len as u64,
        f.location as u64,
        f.index_letter as u64,
        f.data_letter as u64,
        f.block_size,
        u64::from(f.compression),
        0,
    ]
}

// Where a VOL1 label's identifier and its owner stand.
fn in_places(_: ()) -> [u64; 4]
    ensures { result ≡ vol1_numbers }
{
    [
        Vol1::IDENTIFIER_AT as u64,
        Vol1::IDENTIFIER_LENGTH as u64,
        Vol1::OWNER_AT as u64,
        Vol1::OWNER_LENGTH as u64,
    ]
}

// Whether a block is a VOL1 label, and where its identifier and its owner stand.
#[unsafe(no_mangle)]
pub extern "C" fn klapouzen_read_vol1(block: &[u8], out: &mut [u64; 4]) -> u64
    ensures { ReadsVol1Out block.now result out.new }
{
    outputs::tell(vol1::read_vol1(block), in_places, outputs::zeros, out)
}

// Writes a VOL1 label to the front of out.
#[unsafe(no_mangle)]
pub extern "C" fn klapouzen_write_vol1(
    out: &mut [u8],
    identifier: &[u8],
    owner: &[u8],
    length: &mut u64,
) -> u64
    ensures { WritesVol1 identifier.now owner.now out.old out.new result length.new }
{
    outputs::tell_count(vol1::write_vol1(out, identifier, owner), length)
}

// Reads an LTFS label.
#[unsafe(no_mangle)]
pub extern "C" fn klapouzen_read_label(text: &[u8], out: &mut [u64; 13]) -> u64
    ensures { ReadsLabelOut text.now result out.new }
{
    outputs::tell(label::read(text), in_numbers, outputs::with_front, out)
}

// Writes an LTFS label to the front of out.
#[unsafe(no_mangle)]
pub extern "C" fn klapouzen_write_label(
    out: &mut [u8],
    creator: &[u8],
    time: &[u8],
    uuid: &[u8],
    location: u8,
    index_letter: u8,
    data_letter: u8,
    block_size: u64,
    compression: u64,
    length: &mut u64,
) -> u64
    ensures { WritesLabel compression (given_label creator.now time.now uuid.now
        location index_letter data_letter block_size compression) out.old out.new result length.new }
{
    let written = if 1 < compression {
        Err(Refusal::Caller)
    } else {
        let given = Given {
            location,
            index_letter,
            data_letter,
            block_size,
            compression: compression == 1,
        };
        label_writer::write(out, creator, time, uuid, given)
    };
    outputs::tell_count(written, length)
}

// The last number is the place of the side.
fn on_volume(f: LabelFields) -> [u64; 14]
    ensures { result ≡ label_numbers f ++ 0 ∷ [] }
{
    let mut numbers = [0; 14];
    numbers[..13].copy_from_slice(&in_numbers(f));
    numbers
}

// The labels of a volume: what the index side's label says, its places being in the index store.
#[unsafe(no_mangle)]
pub extern "C" fn klapouzen_check_labels(
    index_list: &[u8],
    index_store: &[u8],
    data_list: &[u8],
    data_store: &[u8],
    out: &mut [u64; 14],
) -> u64
    ensures { ChecksOut index_list.now index_store.now data_list.now data_store.now
        result out.new }
{
    let label = labels::check(index_list, index_store, data_list, data_store);
    outputs::tell(label, on_volume, outputs::with_side, out)
}
