// The LTFS label, read.
ghost use Rattle.std.specs.Prelude.{◌≡◌, ◌&&◌, drop, IfOk, IfSome};
ghost use Rattle.std.specs.Option.{ok_or};
ghost use Rattle.refusals.specs.declared.Refusal.TheVariants.{Value};
ghost use Rattle.elements.specs.Tags.{tags_in};
ghost use Rattle.elements.specs.Reading.{head_at, children_at};
ghost use Rattle.texts.specs.Decoded.{decoded};
ghost use Rattle.values.specs.Values.{number, letter, is_creator, is_time, is_uuid};
ghost use Rattle.label.specs.Label.{letters_fit, label_from, root_of, label_of};
ghost use Rattle.label.specs.TextPlaces.{places_in, text_places};
ghost use Rattle.label.specs.Steps.{places_at, places_of, means, LieIn, texts_at, FindsTexts, ReadsLabel};

use elements::Span;
use refusals::Refusal;

// The places of the elements that hold the values.
#[derive(Clone, Copy)]
pub struct Places {
    pub creator: usize,
    pub time: usize,
    pub uuid: usize,
    pub location: usize,
    pub index_letter: usize,
    pub data_letter: usize,
    pub block_size: usize,
    pub compression: usize,
}

// What a label says: the R of its version 2.0.R, its values, and where in the text its creator, as spelled, its time and its UUID stand.
#[derive(Clone, Copy)]
pub struct LabelFields {
    pub release: u64,
    pub creator: Span,
    pub time: Span,
    pub uuid: Span,
    pub location: u8,
    pub index_letter: u8,
    pub data_letter: u8,
    pub block_size: u64,
    pub compression: bool,
}

// The children of the root at n, if they are lawful.
fn find_places(text: &[u8], n: usize) -> Option<Places>
    ensures { FindsTexts text.now (children_at text.now n) (tags_in (drop n text.now)) result }
{
    let [
        creator,
        time,
        uuid,
        location,
        partitions,
        block_size,
        compression,
        ..
    ] = children::read_row(
        text,
        elements::first_child(text, n),
        b"creator=formattime=volumeuuid=location/partitions/blocksize=compression=",
        7,
    )?;
    let [location, ..] = children::read_row(
        text,
        elements::first_child(text, location),
        b"partition=",
        1,
    )?;
    let [index_letter, data_letter, ..] = children::read_row(
        text,
        elements::first_child(text, partitions),
        b"index=data=",
        2,
    )?;
    Some(Places {
        creator,
        time,
        uuid,
        location,
        index_letter,
        data_letter,
        block_size,
        compression,
    })
}

// Whether the letters are different, and the location is one of them.
#[tactic(auto, unfolding(crate::specs::Label::letters_fit))]
pub fn letters_fit(location: u8, index: u8, other: u8) -> bool
    ensures { result ≡ letters_fit location index other }
{
    index != other && (location == index || location == other)
}

// The texts that stay as they are.
fn texts_lawful(creator: &[u8], time: &[u8], uuid: &[u8]) -> bool
    ensures { result ≡ (is_creator (decoded creator.now) && is_time time.now && is_uuid uuid.now) }
{
    values::is_creator(creator) && values::is_time(time) && values::is_uuid(uuid)
}

// The values at the places, if each is there and lawful.
#[tactic(auto, unfolding(crate::specs::Label::label_from))]
fn read_values(text: &[u8], p: Places, release: u64) -> Option<LabelFields>
    ensures says { means text.now (ok_or result Value) ≡ label_from release (texts_at text.now p) }
    ensures inside { IfSome result (LieIn text.now) }
    ensures stands { IfSome result (λ f. places_of f ≡ places_at text.now p) }
{
    if !texts_lawful(
        elements::text_of(text, p.creator),
        elements::text_of(text, p.time),
        elements::text_of(text, p.uuid),
    ) {
        return None;
    }
    let location = values::read_letter(elements::text_of(text, p.location))?;
    let index_letter = values::read_letter(elements::text_of(text, p.index_letter))?;
    let data_letter = values::read_letter(elements::text_of(text, p.data_letter))?;
    if !letters_fit(location, index_letter, data_letter) {
        return None;
    }
    let block_size = values::read_number(elements::text_of(text, p.block_size))?;
    if !quantities::is_block_size(block_size) {
        return None;
    }
    let compression = values::read_boolean(elements::text_of(text, p.compression))?;
    Some(LabelFields {
        release,
        creator: elements::text_at(text, p.creator),
        time: elements::text_at(text, p.time),
        uuid: elements::text_at(text, p.uuid),
        location,
        index_letter,
        data_letter,
        block_size,
        compression,
    })
}

// The root at n.
#[tactic(auto, unfolding(crate::specs::Label::root_of, slices::specs::Words::bytes))]
fn read_root(text: &[u8], n: usize) -> Result<LabelFields, Refusal>
    ensures says { means text.now result ≡ root_of (head_at text.now n) (children_at text.now n) }
    ensures inside { IfOk result (LieIn text.now) }
    ensures stands { IfOk result (λ f. places_of f ≡ places_in text.now (tags_in (drop n text.now))) }
{
    if !children::is_root(text, n, b"ltfslabel") {
        return Err(Refusal::Structure);
    }
    let version = values::read_version(elements::value_of(text, n));
    let release = version.ok_or(Refusal::Version)?;
    let places = find_places(text, n).ok_or(Refusal::Structure)?;
    read_values(text, places, release).ok_or(Refusal::Value)
}

// Reads an LTFS label.
pub fn read(text: &[u8]) -> Result<LabelFields, Refusal>
    ensures { ReadsLabel text.now (label_of text.now) (text_places text.now) result }
{
    if text.len() > 4096 {
        return Err(Refusal::TooMany);
    }
    xml::check(text)?;
    let root = elements::next_child(text, 38).ok_or(Refusal::Structure)?;
    read_root(text, root.at)
}
