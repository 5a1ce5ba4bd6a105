// Texts read as numbers and written again, each into a buffer of dots; and the bytes that are hex digits.
#![tactic(auto)]

use std::io;

fn line(rt: &impl Print, s: &[u8]) -> io::Result<()> {
    rt.write_all(s)?;
    rt.write_all(b"\n")
}

// The number n from the place at of a buffer of 24 dots.
fn show_written(rt: &impl Print, n: u64, at: usize) -> io::Result<()> {
    let mut out = [b'.'; 24];
    match digits::write(&mut out, at, n) {
        Ok(_) => line(rt, &out),
        Err(_) => {
            rt.write_all(&out)?;
            line(rt, b" refused")
        }
    }
}

fn show_read(rt: &impl Print, s: &[u8]) -> io::Result<()> {
    rt.write_all(s)?;
    rt.write_all(b" = ")?;
    match digits::read_plain(s) {
        Some(n) => show_written(rt, n, 2),
        None => line(rt, b"no number"),
    }
}

fn show_hex(rt: &impl Print) -> io::Result<()> {
    for b in 0..=255u8 {
        if digits::hex::is_digit(b) {
            rt.write_all(&[b])?;
        }
    }
    line(rt, b"")
}

fn main(rt: HostRuntime) -> io::Result<()> {
    let texts: [&[u8]; 19] = [
        b"0",
        b"7",
        b"10",
        b"1024",
        b"999999999999",
        b"18446744073709551615",
        b"18446744073709551616",
        b"18446744073709551620",
        b"99999999999999999999",
        b"100000000000000000000",
        b"007",
        b"00",
        b"",
        b" 7",
        b"7 ",
        b"+7",
        b"-7",
        b"7/",
        b"7:",
    ];
    for text in texts {
        show_read(&rt, text)?;
    }
    show_written(&rt, 0, 23)?;
    show_written(&rt, 0, 24)?;
    show_written(&rt, 12345, 19)?;
    show_written(&rt, 12345, 20)?;
    show_written(&rt, 12345, 25)?;
    show_hex(&rt)
}
