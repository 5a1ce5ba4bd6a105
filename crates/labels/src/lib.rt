// The labels of two partitions (01, Refusal numbers, the volume order): read and compared.
#![tactic(auto)]

ghost use Rattle.std.specs.Prelude.{◌≡◌, ◌+◌, ◌≤◌, IfOk};
ghost use Rattle.label.specs.Steps.{means, LieIn, places_of};
ghost use Rattle.label.specs.TextPlaces.{text_places};
ghost use Rattle.labels.specs.Labels.{labels_from};
ghost use Rattle.tape.specs.ReadingSteps.{entry_at};
ghost use Rattle.labels.specs.Steps.{past_block, past_mark, LaysOut, fields_moved, ChecksLabels};
ghost use Rattle.labels.specs.Places.{span_moved};

use elements::Span;
use label::LabelFields;
use refusals::Refusal;
use tape::Entry;

// The length of the block at a place of a list, and the place of the next entry; none where no block stands.
fn past_block(list: &[u8], at: usize) -> Option<(usize, usize)>
    ensures { result ≡ past_block (entry_at list.now at) }
{
    match tape::entry_at(list, at) {
        Entry::Block(n, next) => Some((n, next)),
        _ => None,
    }
}

// The place behind the mark at a place of a list; none where no mark stands.
fn past_mark(list: &[u8], at: usize) -> Option<usize>
    ensures { result ≡ past_mark (entry_at list.now at) }
{
    match tape::entry_at(list, at) {
        Entry::Mark(next) => Some(next),
        _ => None,
    }
}

// The lengths of blocks 0 and 2 of a partition.
#[derive(Clone, Copy)]
struct Layout {
    vol1: usize,
    text: usize,
}

// The lengths, if elements 0 to 3 are block, mark, block, mark.
fn lay_out(list: &[u8]) -> Option<Layout>
    ensures { LaysOut list.now result }
{
    let (vol1, next) = past_block(list, 0)?;
    let third = past_mark(list, next)?;
    let (text, next) = past_block(list, third)?;
    past_mark(list, next)?;
    Some(Layout { vol1, text })
}

// A span of a text that begins at a place of a store, as a span of the store.
fn moved(w: Span, by: usize) -> Span
    requires { by + w.from ≤ usize.MAX }
    ensures { result ≡ span_moved by w }
{
    Span {
        from: by + w.from,
        len: w.len,
    }
}

// What the label of a text says, with its spans moved.
fn in_store(f: LabelFields, by: usize) -> LabelFields
    requires creator { by + f.creator.from ≤ usize.MAX }
    requires time { by + f.time.from ≤ usize.MAX }
    requires uuid { by + f.uuid.from ≤ usize.MAX }
    ensures { result ≡ fields_moved by f }
{
    LabelFields {
        creator: moved(f.creator, by),
        time: moved(f.time, by),
        uuid: moved(f.uuid, by),
        ..f
    }
}

// The VOL1 label v and the label text s of the index side, w and t of the data side.
#[tactic(auto, unfolding(crate::specs::Labels::labels_from))]
fn read_sides(v: &[u8], s: &[u8], w: &[u8], t: &[u8]) -> Result<LabelFields, Refusal>
    ensures says { means s.now result ≡ labels_from v.now s.now w.now t.now }
    ensures inside { IfOk result (LieIn s.now) }
    ensures stands { IfOk result (λ f. places_of f ≡ text_places s.now) }
{
    vol1::read_vol1(v)?;
    vol1::read_vol1(w)?;
    let f = label::read(s)?;
    let g = label::read(t).map_err(|r| refusals::on_data_side(r))?;
    if label::labels_agree(v, s, f, w, t, g) {
        Ok(f)
    } else {
        Err(Refusal::Foreign)
    }
}

// The labels of a volume: what the index side's label says, its spans being places in the index store.
pub fn check(
    index_list: &[u8],
    index_store: &[u8],
    data_list: &[u8],
    data_store: &[u8],
) -> Result<LabelFields, Refusal>
    ensures { ChecksLabels index_list.now index_store.now data_list.now data_store.now result }
{
    tape::check(index_list, index_store)?;
    tape::check(data_list, data_store)?;
    let index = lay_out(index_list).ok_or(Refusal::Layout)?;
    let other = lay_out(data_list).ok_or(Refusal::Layout)?;
    let index_end = index.vol1 + index.text;
    let other_end = other.vol1 + other.text;
    let said = read_sides(
        &index_store[..index.vol1],
        &index_store[index.vol1..index_end],
        &data_store[..other.vol1],
        &data_store[other.vol1..other_end],
    )?;
    Ok(in_store(said, index.vol1))
}
