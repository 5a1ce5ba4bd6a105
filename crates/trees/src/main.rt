// Writes the trees of texts from standard input, as the reader of elements finds them, for comparison with other parsers. A text stands
// behind its length, 8 bytes, low byte first; an empty one or the end of the input is the end. A tree's lines are `(` and a name; `@`, a
// key, `=`, the length of its value, the value decoded; `"`, the length and the text, decoded, of an element without children; `)`. A line
// with a point ends a tree.
#![tactic(auto)]

use elements::Tag;
use std::io;

fn put(rt: &impl Print, s: &[u8]) -> io::Result<()> {
    rt.write_all(s)
}

// A text with references, decoded.
fn put_spelled(rt: &impl Print, raw: &[u8]) -> io::Result<()> {
    let mut out = [0u8; 65536];
    match texts::decode(raw, &mut out, 0) {
        Ok(n) => put(rt, slices::part(&out, 0, n)),
        Err(_) => put(rt, b"too long"),
    }
}

// A text decoded, behind its length. One without references is as long as it is spelled.
fn put_decoded(rt: &impl Print, raw: &[u8]) -> io::Result<()> {
    let n = texts::decoded_len(raw);
    print!(rt; "{n} ")?;
    if n == raw.len() {
        put(rt, raw)?;
    } else {
        put_spelled(rt, raw)?;
    }
    put(rt, b"\n")
}

// The element at n: its name, its attribute, its text.
fn put_element(rt: &impl Print, text: &[u8], n: usize) -> io::Result<()> {
    put(rt, b"(")?;
    put(rt, elements::name_of(text, n))?;
    put(rt, b"\n")?;
    let key = elements::key_of(text, n);
    if !key.is_empty() {
        put(rt, b"@")?;
        put(rt, key)?;
        put(rt, b"=")?;
        put_decoded(rt, elements::value_of(text, n))?;
    }
    if !elements::has_children(text, n) {
        put(rt, b"\"")?;
        put_decoded(rt, elements::text_of(text, n))?;
    }
    Ok(())
}

// The tree of a text, behind its declaration. A loop, since each tag says where the next one is looked for; an iterator is no plainer here.
fn put_tree(rt: &impl Print, text: &[u8]) -> io::Result<()> {
    let mut i: usize = 38;
    loop {
        match elements::next_tag(text, i) {
            Tag::End => {
                return Ok(());
            }
            Tag::Close(n) => {
                put(rt, b")\n")?;
                i = n;
            }
            Tag::Open(n) => {
                put_element(rt, text, n)?;
                i = n;
            }
            Tag::Empty(n) => {
                put_element(rt, text, n)?;
                put(rt, b")\n")?;
                i = n;
            }
        }
    }
}

fn main(rt: HostRuntime) -> io::Result<()> {
    // An index's text may be as long.
    let mut text = [0u8; 1048576];
    for _ in 0..u64::MAX {
        let n = case_files::bytes(&mut rt.stdin(), &mut text);
        if n == 0 {
            break;
        }
        put_tree(&rt, &text[..n])?;
        put(&rt, b".\n")?;
    }
    Ok(())
}
