// A text put together piece by piece in a buffer.
#![tactic(auto)]

ghost use Rattle.std.specs.Prelude.{◌≡◌, length};
ghost use Rattle.big_endian.specs.BigEndian.{big_endian};
ghost use Rattle.digits.specs.Decimal.{short};
ghost use Rattle.writing.specs.Steps.{AddsAtMost, GrowsByAtMost, bytes_of};

// Puts src at a place of a buffer, if there is room for all of it, and answers the place behind it.
pub fn add(out: &mut [u8], at: usize, src: &[u8]) -> usize
    ensures { AddsAtMost (length src.now) out.old at src.now out.new result }
{
    slices::put(out, at, src).unwrap_or(at)
}

// A text that is put together in a buffer: so many bytes at its front.
#[derive(Drop)]
pub struct Text<'a> {
    out: &'a mut [u8],
    at: usize,
}

impl<'a> Text<'a> {
    // The text that holds nothing yet.
    pub fn new(out: &'a mut [u8]) -> Text<'a>
        ensures same_reference { result.out.ghost_name ≡ out.entry.ghost_name }
        ensures buffer { result.out.now ≡ out.old }
        ensures at { result.at ≡ 0 }
    {
        Text { out, at: 0 }
    }

    // The text of out that ends at a place.
    pub fn behind(out: &'a mut [u8], at: usize) -> Text<'a>
        ensures same_reference { result.out.ghost_name ≡ out.entry.ghost_name }
        ensures buffer { result.out.now ≡ out.old }
        ensures at { result.at ≡ at }
    {
        Text { out, at }
    }

    // Adds src, if there is room for all of it.
    pub fn add(&mut self, src: &[u8])
        ensures { GrowsByAtMost (length src.now) self.old src.now self.new }
    {
        self.at = add(self.out, self.at, src);
    }

    // Adds the digits of n.
    pub fn add_number(&mut self, n: u64)
        ensures { GrowsByAtMost 20 self.old (short n) self.new }
    {
        self.at = digits::write(self.out, self.at, n).unwrap_or(self.at);
    }

    // Adds n in width bytes, high byte first.
    pub fn add_big_endian(&mut self, width: usize, n: u64)
        ensures { GrowsByAtMost width self.old (big_endian width n) self.new }
    {
        self.at = big_endian::put(self.out, self.at, width, n).unwrap_or(self.at);
    }

    // Where the text ends.
    pub fn len(&self) -> usize
        ensures { result ≡ self.now.at }
    {
        self.at
    }

    // The text so far.
    pub fn bytes(&self) -> &[u8]
        ensures { result.now ≡ bytes_of self.now }
    {
        slices::part(self.out, 0, self.at)
    }
}
