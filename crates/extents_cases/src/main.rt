// The byte map on cases from standard input: a line each, its numbers with a space between: file length, block size, position, and the rows.
#![tactic(auto)]

use extents::Stored;
use quantities::ByteCount;
use refusals::Refusal;
use std::io;

fn print(rt: &impl Print, answer: Result<Option<Stored>, Refusal>) -> io::Result<()> {
    match answer {
        Ok(Some(stored)) => {
            let letter = char::from(stored.letter);
            let block = stored.block.0;
            let byte = stored.byte.0;
            println!(rt; "stored {letter} {block} {byte}")
        }
        Ok(None) => println!(rt; "unstored"),
        Err(refusal) => {
            let number = u64::from(refusal);
            println!(rt; "refused {number}")
        }
    }
}

// Whether a number of a line ends before a byte.
fn ends_number(byte: &u8) -> bool {
    *byte <= b' '
}

// A case's answer, by the first 6,000 numbers of its line; what is no number is 0.
fn run_case(rt: &impl Print, line: &[u8]) -> io::Result<()> {
    let mut numbers = [0u64; 6000];
    for (number, field) in numbers.iter_mut().zip(line.split(ends_number)) {
        *number = digits::read_plain(field).unwrap_or(0);
    }
    let n = line.split(ends_number).count().min(numbers.len());
    match &numbers[..n] {
        [length, block_size, position, rows @ ..] => print(
            rt,
            extents::byte_at(rows, ByteCount(*length), *block_size, ByteCount(*position)),
        ),
        _ => Ok(()),
    }
}

// The cases of a text: its lines that a line feed ends.
fn run(rt: &impl Print, text: &[u8]) -> io::Result<()> {
    for line in text.split_inclusive(|b| *b == b'\n') {
        if let Some(case) = line.strip_suffix(b"\n") {
            run_case(rt, case)?;
        }
    }
    Ok(())
}

fn main(rt: HostRuntime) -> io::Result<()> {
    let mut text = [0u8; 65536];
    let n = case_files::read_full(&mut rt.stdin(), &mut text);
    run(&rt, &text[..n])
}
