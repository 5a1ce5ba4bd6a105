// Where runs of bytes and tags end. Each scan goes from a place of the whole text to another, since that is what its callers answer: so each is
// handed both, and none the part of the text that is left.
ghost use Rattle.std.specs.Prelude.{◌≡◌, ◌+◌, ◌≤◌, min, length, drop, get_or};
ghost use Rattle.slices.specs.Slices.{within};
ghost use Rattle.xml.specs.Bytes.{is_name_byte, is_space};
ghost use Rattle.xml.specs.ScanSteps.{Past};
ghost use Rattle.xml.specs.Tree.{is_not, past, quote_after};
ghost use Rattle.elements.specs.ScanSteps.{EndsInside, Onward, Looked, Nearby, IsQuote};
ghost use Rattle.std.specs.Option.{unwrap_or};

// The place at, or the text's end where that comes first.
pub fn inside(text: &[u8], at: usize) -> usize
    ensures { (result ≡ min at (length text.now)) × (drop result text.now ≡ drop at text.now) }
{
    at.min(text.len())
}

// The byte at i, 0 past the end.
pub fn byte(text: &[u8], i: usize) -> u8
    ensures { result ≡ get_or text.now i 0 }
{
    text.get(i).copied().unwrap_or(0)
}

// The first b from at on, or the end, byte by byte.
fn find_one(text: &[u8], at: usize, b: u8) -> usize
    requires { at ≤ length text.now }
    ensures { Past (is_not b) text.now at result }
{
    let rest = &text[at..];
    at + rest.iter().position(|x| *x == b).unwrap_or(rest.len())
}

// Whether b is among the eight bytes from i on. None of them ends the look at the others, so that the compiler compares them at once.
fn is_near(text: &[u8], i: usize, b: u8) -> bool
    requires { i + 8 ≤ length text.now }
    ensures { Looked (is_not b) text.now i 8 result }
{
    // By an index: contains and a fold over the eight bytes made reading an index a fifth slower.
    let mut near = false;
    let mut k: usize = 0;
    while k < 8 {
        near = near | (text[i + k] == b);
        k += 1;
    }
    near
}

// Past bytes from at on that are not b, eight at a turn, to eight that b is among, or to fewer.
fn others_end(text: &[u8], at: usize, b: u8) -> usize
    requires { at ≤ length text.now }
    ensures { Nearby (is_not b) text.now at result }
{
    // By an index: split_first_chunk made reading an index a fifth slower.
    let mut i = at;
    while 8 <= text.len() - i {
        if is_near(text, i, b) {
            return i;
        }
        i += 8;
    }
    i
}

// The first b from at on, where there is one.
fn find_ahead(text: &[u8], at: usize, b: u8) -> usize
    requires { EndsInside (is_not b) text.now at }
    ensures { Past (is_not b) text.now at result }
{
    // By an index: position, which tests for the end at each byte, is slower here.
    let mut i = at;
    while text[i] != b {
        i += 1;
    }
    i
}

// The first b from at on, or the end.
pub fn find(text: &[u8], at: usize, b: u8) -> usize
    requires { at ≤ length text.now }
    ensures { Past (is_not b) text.now at result }
{
    let i = others_end(text, at, b);
    if text.len() - i < 8 {
        return find_one(text, i, b);
    }
    find_ahead(text, i, b)
}

// A letter, a digit, `_`, `-` or `.`.
#[tactic(auto, unfolding(xml::specs::Bytes::is_name_byte, xml::specs::Bytes::is_ascii_letter))]
fn is_name_byte(b: u8) -> bool
    ensures { result ≡ is_name_byte b }
{
    b.is_ascii_alphanumeric() || matches!(b, b'_' | b'-' | b'.')
}

// Space, tab, CR or LF.
#[tactic(auto, unfolding(xml::specs::Bytes::is_space))]
pub fn is_space(b: u8) -> bool
    ensures { result ≡ is_space b }
{
    matches!(b, b' ' | b'\t' | b'\r' | b'\n')
}

// A small letter.
fn is_small(b: u8) -> bool
    ensures { result ≡ within 97 122 b }
{
    b.is_ascii_lowercase()
}

// Past small letters from at on, of which most names are made. Four at a turn, by index: `position` looks at one, for 3 per cent more instructions of
// reading an index.
pub fn letters_end(text: &[u8], at: usize) -> usize
    requires { at ≤ length text.now }
    ensures { Onward is_name_byte text.now at result }
{
    let mut i = at;
    while 4 <= text.len() - i {
        if !is_small(text[i]) {
            return i;
        }
        if !is_small(text[i + 1]) {
            return i + 1;
        }
        if !is_small(text[i + 2]) {
            return i + 2;
        }
        if !is_small(text[i + 3]) {
            return i + 3;
        }
        i += 4;
    }
    i
}

// The end of the name that begins at at.
pub fn name_end(text: &[u8], at: usize) -> usize
    requires { at ≤ length text.now }
    ensures { Past is_name_byte text.now at result }
{
    let from = letters_end(text, at);
    let rest = &text[from..];
    from + rest
        .iter()
        .position(|b| !is_name_byte(*b))
        .unwrap_or(rest.len())
}

// The end of the white space that begins at at.
pub fn space_end(text: &[u8], at: usize) -> usize
    requires { at ≤ length text.now }
    ensures { Past is_space text.now at result }
{
    let rest = &text[at..];
    at + rest
        .iter()
        .position(|b| !is_space(*b))
        .unwrap_or(rest.len())
}

// The quote that is open after b.
#[tactic(auto, unfolding(xml::specs::Tree::quote_after))]
fn quote_after(quote: Option<u8>, b: u8) -> Option<u8>
    requires { IsQuote quote }
    ensures after { unwrap_or result 0 ≡ quote_after (unwrap_or quote 0) b }
    ensures kept { IsQuote result }
{
    match quote {
        None if b == b'"' || b == b'\'' => Some(b),
        Some(q) if b != q => quote,
        _ => None,
    }
}

// How a tag ends: with `/>` or not, and where what follows it begins.
#[derive(Clone, Copy)]
pub struct TagEnd {
    pub empty: bool,
    pub at: usize,
}

// The end of the tag at n; most have a name of small letters alone.
pub fn tag_end(text: &[u8], n: usize) -> TagEnd
    requires { n ≤ length text.now }
    ensures { (past 0 0 (drop n text.now) ≡ record { empty = result.empty; rest = drop result.at text.now })
        × (n ≤ result.at) × (result.at ≤ length text.now) }
{
    let e = letters_end(text, n);
    if e < text.len() && text[e] == b'>' {
        return TagEnd {
            empty: false,
            at: e + 1,
        };
    }
    let mut quote = None;
    let mut last = 0;
    for (k, b) in text[n..].iter().enumerate() {
        if quote.is_none() && *b == b'>' {
            return TagEnd {
                empty: last == b'/',
                at: n + k + 1,
            };
        }
        last = *b;
        quote = quote_after(quote, *b);
    }
    TagEnd {
        empty: false,
        at: text.len(),
    }
}
