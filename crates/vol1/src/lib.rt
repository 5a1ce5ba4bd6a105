// The VOL1 label (01, VOL1; 002, 6.1.1), read and written.
#![tactic(auto)]

ghost use Rattle.std.specs.Prelude.{◌≡◌, length};
ghost use Rattle.vol1.specs.Vol1.{identifier_length, owner_length, vol1, is_printed, are_fields, vol1_of};
ghost use Rattle.vol1.specs.Steps.{WritesBlock, means_vol1};

use refusals::Refusal;
use writing::add;

// A VOL1 label, as the block that it is.
#[derive(Clone, Copy)]
pub struct Vol1 {
    pub block: [u8; Vol1::LENGTH],
}

impl Vol1 {
    pub const LENGTH: usize = 80;

    pub const LABEL_AT: usize = 0;

    pub const LABEL: [u8; 4] = *b"VOL1";

    pub const IDENTIFIER_AT: usize = 4;

    pub const IDENTIFIER_LENGTH: usize = 6;

    pub const ACCESSIBILITY_AT: usize = 10;

    pub const ACCESSIBILITY: [u8; 1] = *b"L";

    pub const RESERVED_AT: usize = 11;

    pub const RESERVED: [u8; 13] = [b' '; 13];

    pub const IMPLEMENTATION_AT: usize = 24;

    pub const IMPLEMENTATION: [u8; 13] = *b"LTFS         ";

    pub const OWNER_AT: usize = 37;

    pub const OWNER_LENGTH: usize = 14;

    pub const RESERVED_AFTER_AT: usize = 51;

    pub const RESERVED_AFTER: [u8; 28] = [b' '; 28];

    pub const VERSION_AT: usize = 79;

    pub const VERSION: [u8; 1] = *b"4";

    // The label of an identifier and an owner.
    pub fn new(identifier: &[u8; Vol1::IDENTIFIER_LENGTH], owner: &[u8; Vol1::OWNER_LENGTH]) -> Self
        ensures { result.block ≡ vol1 identifier.now owner.now }
    {
        let mut block = [0u8; Vol1::LENGTH];
        add(&mut block, Vol1::LABEL_AT, &Vol1::LABEL);
        add(&mut block, Vol1::IDENTIFIER_AT, identifier);
        add(&mut block, Vol1::ACCESSIBILITY_AT, &Vol1::ACCESSIBILITY);
        add(&mut block, Vol1::RESERVED_AT, &Vol1::RESERVED);
        add(&mut block, Vol1::IMPLEMENTATION_AT, &Vol1::IMPLEMENTATION);
        add(&mut block, Vol1::OWNER_AT, owner);
        add(&mut block, Vol1::RESERVED_AFTER_AT, &Vol1::RESERVED_AFTER);
        add(&mut block, Vol1::VERSION_AT, &Vol1::VERSION);
        Vol1 { block }
    }
}

// The label of fields in their lengths.
fn label_of(identifier: &[u8], owner: &[u8]) -> Vol1
    requires identifier { length identifier.now ≡ identifier_length }
    requires owner { length owner.now ≡ owner_length }
    ensures { result.block ≡ vol1 identifier.now owner.now }
{
    let mut first = [0u8; Vol1::IDENTIFIER_LENGTH];
    let mut second = [0u8; Vol1::OWNER_LENGTH];
    first.copy_from_slice(identifier);
    second.copy_from_slice(owner);
    Vol1::new(&first, &second)
}

// Whether each byte is ASCII 32 to 126.
fn is_printed(s: &[u8]) -> bool
    ensures { result ≡ is_printed s.now }
{
    s.iter().all(|b| (b' '..=b'~').contains(b))
}

// Reads a VOL1 label. Its fields stand in the block, so the answer carries none: theorem vol1_rereads names them by means_vol1.
#[tactic(auto, unfolding(crate::specs::Vol1::vol1_of))]
pub fn read_vol1(block: &[u8]) -> Result<(), Refusal>
    ensures { means_vol1 block.now result ≡ vol1_of block.now }
{
    if block.len() != Vol1::LENGTH {
        return Err(Refusal::Vol1);
    }
    let identifier = &block[Vol1::IDENTIFIER_AT..Vol1::ACCESSIBILITY_AT];
    let owner = &block[Vol1::OWNER_AT..Vol1::RESERVED_AFTER_AT];
    let own = label_of(identifier, owner).block;
    if block == own.as_slice() && is_printed(identifier) && is_printed(owner) {
        Ok(())
    } else {
        Err(Refusal::Vol1)
    }
}

// Whether a caller's fields are those of a VOL1 label.
#[tactic(auto, unfolding(crate::specs::Vol1::are_fields))]
fn are_fields(identifier: &[u8], owner: &[u8]) -> bool
    ensures { result ≡ are_fields identifier.now owner.now }
{
    identifier.len() == Vol1::IDENTIFIER_LENGTH
        && owner.len() == Vol1::OWNER_LENGTH
        && is_printed(identifier)
        && is_printed(owner)
}

// Writes the VOL1 label of an identifier and an owner to the front of out.
#[tactic(auto, unfolding(crate::specs::Vol1::are_fields))]
pub fn write_vol1(out: &mut [u8], identifier: &[u8], owner: &[u8]) -> Result<usize, Refusal>
    ensures { WritesBlock identifier.now owner.now out.old out.new result }
{
    if !are_fields(identifier, owner) {
        return Err(Refusal::Caller);
    }
    slices::put(out, 0, &label_of(identifier, owner).block)
}
