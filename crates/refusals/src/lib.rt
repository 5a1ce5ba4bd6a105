// The refusals of document 01 and of 02's requests, each under the name of what is wrong.
#![tactic(auto)]

ghost use Rattle.std.specs.Prelude.{◌≡◌};
ghost use Rattle.refusals.specs.Refusals.{number_of, place_of, on_data_side};

// Where a text leaves the XML form (02, Item 6).
#[derive(Clone, Copy, PartialEq, Eq, Debug)]
pub struct Place {
    // How long the longest front of it is that some text in the form begins with.
    pub front: usize,
    // Among the labels of a volume: whether it is the data side's.
    pub on_data: bool,
}

#[derive(Clone, Copy, PartialEq, Eq, Debug)]
pub enum Refusal {
    // The block list or its store.
    List,
    // No such element, construct, file or file position.
    Missing,
    // The VOL1 label.
    Vol1,
    // A text outside the XML form.
    Form(Place),
    // An element or an attribute of a text.
    Structure,
    // A value outside its rule.
    Value,
    // A version that is not 2.0.R.
    Version,
    // Labels that disagree, or an index of another volume.
    Foreign,
    // Elements 0 to 3 of a partition.
    Layout,
    // A lent output that is too short.
    Short,
    // Unlawful extents.
    Extents,
    // An index that stands elsewhere than it says.
    Location,
    // No consistent cut.
    NoCut,
    // A caller's field or number.
    Caller,
    // A text that is too long, or too many entries or extents.
    TooMany,
    // The layout or a label of an ANSI labelled tape.
    Labels,
    // A label EOV1 in the place of EOF1: the file goes on on another tape.
    EndOfVolume,
    // A label EOF1 whose block count is not that of the data blocks present.
    BlockCount,
    // A block that the drive could not read.
    Unreadable,
}

// The number of a refusal in document 01's table, and from 16 on in 02.
impl From<Refusal> for u64 {
    ghost from_gives = { λ r n. n ≡ number_of r };

    fn from(refusal: Refusal) -> u64 {
        match refusal {
            Refusal::List => 1,
            Refusal::Missing => 2,
            Refusal::Vol1 => 3,
            Refusal::Form(_) => 4,
            Refusal::Structure => 5,
            Refusal::Value => 6,
            Refusal::Version => 7,
            Refusal::Foreign => 8,
            Refusal::Layout => 9,
            Refusal::Short => 10,
            Refusal::Extents => 11,
            Refusal::Location => 12,
            Refusal::NoCut => 13,
            Refusal::Caller => 14,
            Refusal::TooMany => 15,
            Refusal::Labels => 16,
            Refusal::EndOfVolume => 17,
            Refusal::BlockCount => 18,
            Refusal::Unreadable => 19,
        }
    }
}

// The place that a refusal tells: zeros but for 4.
pub fn place_told(refusal: Refusal) -> Place
    ensures { result ≡ place_of refusal }
{
    let Refusal::Form(p) = refusal else {
        return Place {
            front: 0,
            on_data: false,
        };
    };
    p
}

// The refusal of the data side's label, among the labels of a volume.
pub fn on_data_side(refusal: Refusal) -> Refusal
    ensures { result ≡ on_data_side refusal }
{
    let Refusal::Form(p) = refusal else {
        return refusal;
    };
    Refusal::Form(Place {
        front: p.front,
        on_data: true,
    })
}
