// Elements read off texts in the XML form and outside it, and texts decoded.
#![tactic(auto)]

use elements::Tag;
use std::io;

fn put(rt: &impl Print, s: &[u8]) -> io::Result<()> {
    rt.write_all(s)
}

fn line(rt: &impl Print, s: &[u8]) -> io::Result<()> {
    put(rt, s)?;
    put(rt, b"\n")
}

fn indent(rt: &impl Print, depth: usize) -> io::Result<()> {
    for _ in 0..depth {
        put(rt, b"  ")?;
    }
    Ok(())
}

// What the element at n says: `name key=[value] [text]`.
fn element(rt: &impl Print, text: &[u8], n: usize, depth: usize) -> io::Result<()> {
    indent(rt, depth)?;
    put(rt, elements::name_of(text, n))?;
    let key = elements::key_of(text, n);
    if !key.is_empty() {
        put(rt, b" ")?;
        put(rt, key)?;
        put(rt, b"=[")?;
        put(rt, elements::value_of(text, n))?;
        put(rt, b"]")?;
    }
    put(rt, b" [")?;
    put(rt, elements::text_of(text, n))?;
    line(rt, b"]")
}

// Each element from at on, by its nesting. A loop, since each tag says where the next one is looked for; an iterator is no plainer here.
fn walk(rt: &impl Print, text: &[u8], at: usize) -> io::Result<()> {
    let mut i = at;
    let mut depth: usize = 0;
    loop {
        match elements::next_tag(text, i) {
            Tag::End => {
                return Ok(());
            }
            Tag::Close(n) => {
                depth = depth.saturating_sub(1);
                i = n;
            }
            Tag::Open(n) => {
                element(rt, text, n, depth)?;
                depth = depth.saturating_add(1);
                i = n;
            }
            Tag::Empty(n) => {
                element(rt, text, n, depth)?;
                i = n;
            }
        }
    }
}

fn child(rt: &impl Print, text: &[u8], n: usize) -> io::Result<()> {
    put(rt, b"- ")?;
    put(rt, elements::name_of(text, n))?;
    if elements::has_children(text, n) {
        put(rt, b" with children")?;
    }
    if elements::name_is(text, n, b"part") {
        put(rt, b", a part")?;
    }
    line(rt, b"")
}

// The elements of the row at at alone; a loop as above.
fn row(rt: &impl Print, text: &[u8], at: usize) -> io::Result<()> {
    let mut i = at;
    while let Some(next) = elements::next_child(text, i) {
        child(rt, text, next.at)?;
        i = next.next;
    }
    Ok(())
}

// The children of the first element from at on.
fn children(rt: &impl Print, text: &[u8], at: usize) -> io::Result<()> {
    match elements::next_child(text, at) {
        None => line(rt, b"no element"),
        Some(first) => row(rt, text, elements::first_child(text, first.at)),
    }
}

// How many tags there are from at on; a loop as above.
fn tags(text: &[u8], at: usize) -> usize {
    let mut i = at;
    let mut n: usize = 0;
    loop {
        match elements::next_tag(text, i) {
            Tag::End => {
                return n;
            }
            Tag::Close(p) | Tag::Open(p) | Tag::Empty(p) => {
                n = n.wrapping_add(1);
                i = p;
            }
        }
    }
}

// The front of a text: its tags, where its first element is left, and the bytes of what that says: its name, attribute and text.
fn front(rt: &impl Print, part: &[u8]) -> io::Result<()> {
    let len = part.len();
    let tags = tags(part, 0);
    let end = elements::leave(part, 1);
    let name = elements::name_of(part, 1).len();
    let key = elements::key_of(part, 1).len();
    let value = elements::value_of(part, 1).len();
    let text = elements::text_of(part, 1).len();
    println!(rt; " {len}: {tags} {end} {name} {key} {value} {text}")
}

// The same for each front of a text.
fn fronts(rt: &impl Print, text: &[u8]) -> io::Result<()> {
    for k in 0..=text.len() {
        front(rt, &text[..k])?;
    }
    Ok(())
}

// A text, what is meant by it in a buffer of dots from the place 2 on, and its bytes and code points.
fn show_decoded(rt: &impl Print, raw: &[u8]) -> io::Result<()> {
    let mut out = [b'.'; 16];
    put(rt, raw)?;
    put(rt, b" = ")?;
    let decoded = texts::decode(raw, &mut out, 2);
    put(rt, &out)?;
    match decoded {
        Ok(end) => print!(rt; " {end}")?,
        Err(_) => put(rt, b" refused")?,
    }
    let len = texts::decoded_len(raw);
    let points = texts::code_points(raw);
    let second = texts::decoded_byte(raw, 1);
    println!(rt; " {len} {points} {second}")
}

fn show_same(rt: &impl Print, a: &[u8], b: &[u8]) -> io::Result<()> {
    put(rt, a)?;
    let says: &[u8] = if texts::same_decoded(a, b) {
        b" means "
    } else {
        b" does not mean "
    };
    put(rt, says)?;
    line(rt, b)
}

fn in_form(rt: &impl Print) -> io::Result<()> {
    let text =
        b"<?xml version=\"1.0\" encoding=\"UTF-8\"?>\n<book lang='en'>\n <part no = \"a>b\"><title>R&amp;D</title><empty/>\n </part>\n <part/>\n <note\t>1 &lt; 2</note >\n</book>\n";
    walk(rt, text, 38)?;
    children(rt, text, 38)
}

fn outside_form(rt: &impl Print) -> io::Result<()> {
    let unquoted = b"<a b=c d='e><f/>g</a>";
    walk(rt, unquoted, 0)?;
    let nested = b"text<<a<b/>x</b></b></b></b><c>";
    walk(rt, nested, 0)?;
    children(rt, nested, 5)?;
    let open = b"<a><b><c>deep</c><d k=\"v\"/";
    walk(rt, open, 0)?;
    children(rt, open, 0)?;
    walk(rt, open, 27)?;
    children(rt, open, 18446744073709551615)
}

fn main(rt: HostRuntime) -> io::Result<()> {
    in_form(&rt)?;
    outside_form(&rt)?;
    fronts(&rt, b"<a b='c/'>d<e/>f</a>")?;
    show_decoded(&rt, b"plain")?;
    show_decoded(&rt, b"&amp;&lt;&gt;&quot;&apos;")?;
    show_decoded(&rt, b"&amp;lt;")?;
    show_decoded(&rt, b"R&D &am &#6;")?;
    show_decoded(&rt, b"\xc3\xa9t\xc3\xa9 \xe2\x82\xac")?;
    show_decoded(&rt, b"")?;
    show_decoded(&rt, b"12345678901234")?;
    show_decoded(&rt, b"123456789012345")?;
    show_same(&rt, b"a&quot;b", b"a\"b")?;
    show_same(&rt, b"a&lt;", b"a&lt")?;
    show_same(&rt, b"", b"&")
}
