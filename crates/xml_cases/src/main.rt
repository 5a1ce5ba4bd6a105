// Cases of the XML form (01, The XML form), run: for each sentence of the form texts that are in it, and texts that are not, each with a mark where
// it leaves the form; and vectors. A line for each group says how many cases gave what they must; every other case is written out.
#![tactic(auto)]

mod lines;
mod tally;

use std::rt::Files;
use std::{fs, io};
use tally::Judge;

// The lines of a file.
fn run_lines(rt: &impl Print, file: &[u8]) -> io::Result<()> {
    let mut judge = Judge::new(rt);
    for line in file.split_inclusive(|b| *b == b'\n') {
        judge.line(line.strip_suffix(b"\n").unwrap_or(line))?;
    }
    judge.report()
}

// The file with this name. Where it cannot be opened, the error is printed too, behind that name.
fn run(rt: &(impl Files + Print + Eprint), path: &str) -> io::Result<()> {
    let mut file = match fs::open(rt, path) {
        Ok(file) => file,
        Err(e) => {
            eprintln!(rt; "{path}: {e}")?;
            return Err(e);
        }
    };
    let mut room = [0u8; 262144];
    let n = case_files::read_full(&mut file, &mut room);
    run_lines(rt, &room[..n])
}

fn main(rt: HostRuntime) -> io::Result<()> {
    run(&rt, "cases")?;
    run(&rt, "vectors")?;
    run(&rt, "fronts")
}
