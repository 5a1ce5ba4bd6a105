// Whether the labels of the two sides agree.
ghost use Rattle.std.specs.Prelude.{◌≡◌, []};
ghost use Rattle.label.specs.Steps.{fields_in};
ghost use Rattle.label.specs.Agreement.{same_texts, same_numbers, own_letters, agree};

use super::reader::LabelFields;

// Whether the creators, the times and the UUIDs are the same.
fn same_texts(s: &[u8], f: LabelFields, t: &[u8], g: LabelFields) -> bool
    ensures { result ≡ same_texts (fields_in s.now f) (fields_in t.now g) }
{
    texts::same_decoded(elements::part(s, f.creator), elements::part(t, g.creator))
        && elements::part(s, f.time) == elements::part(t, g.time)
        && values::same_uuid(elements::part(s, f.uuid), elements::part(t, g.uuid))
}

// Whether the numbers are the same.
fn same_numbers(f: LabelFields, g: LabelFields) -> bool
    ensures { result ≡ same_numbers (fields_in [] f) (fields_in [] g) }
{
    f.release == g.release
        && f.index_letter == g.index_letter
        && f.data_letter == g.data_letter
        && f.block_size == g.block_size
        && f.compression == g.compression
}

// Whether the location of each side is its own letter.
fn own_letters(f: LabelFields, g: LabelFields) -> bool
    ensures { result ≡ own_letters (fields_in [] f) (fields_in [] g) }
{
    f.location == f.index_letter && g.location == g.data_letter
}

// Whether the labels agree: VOL1 and label text of the index side, with what the text says, and the same of the data side.
#[tactic(auto, unfolding(crate::specs::Agreement::agree))]
pub fn labels_agree(v: &[u8], s: &[u8], f: LabelFields, w: &[u8], t: &[u8], g: LabelFields) -> bool
    ensures { result ≡ agree v.now (fields_in s.now f) w.now (fields_in t.now g) }
{
    v == w && same_texts(s, f, t, g) && same_numbers(f, g) && own_letters(f, g)
}
