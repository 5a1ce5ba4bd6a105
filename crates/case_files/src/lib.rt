// Files of test cases: numbers of 8 bytes, low byte first, and byte strings, each behind its length as such a number. What cannot be
// read is 0 or empty.
#![tactic(auto)]

ghost use Rattle.std.specs.Prelude.{◌≡◌, ◌+◌, ◌-◌, ◌<◌, ◌≤◌, IfOk};
ghost use Rattle.case_files.specs.Counts.{IsPrefixLen};

use std::io::{ErrorKind, Read};
use std::rt::Files;
use std::{fs, io};

// Reads until buf is full, the input ends or a read fails, and answers how many bytes it put at the front of buf.
pub fn read_full<R: Read>(file: &mut R, buf: &mut [u8]) -> usize
    ensures { IsPrefixLen result buf.new }
{
    let mut done: usize = 0;
    for _ in 0..u64::MAX {
        if buf.len() <= done {
            break;
        }
        match file.read(&mut buf[done..]) {
            Ok(0) => break,
            Ok(n) => done += n,
            Err(e) if e.kind() == ErrorKind::Interrupted => {}
            Err(_) => break,
        }
    }
    done
}

// The next number of a file.
pub fn number<R: Read>(file: &mut R) -> u64 {
    let mut b = [0u8; 8];
    read_full(file, &mut b);
    u64::from_le_bytes(b)
}

// The next byte string of a file, at the front of buf, where it has room for it.
pub fn bytes<R: Read>(file: &mut R, buf: &mut [u8]) -> usize
    ensures { IsPrefixLen result buf.new }
{
    let n = number(file) as usize;
    if buf.len() < n {
        return 0;
    }
    read_full(file, &mut buf[..n])
}

// Prints how many of the cases under a name were as expected.
pub fn report(rt: &impl Print, name: &str, good: u64, cases: u64) -> io::Result<()> {
    println!(rt; "{name}: {good} of {cases} as expected")
}

// 1 for a case that was as expected; 0 for another, whose number is printed.
pub fn shown_good(rt: &impl Print, good: bool, case: u64) -> u64
    ensures { result ≤ 1 }
{
    if !good {
        let _ = println!(rt; "not as expected: case {case}");
    }
    u64::from(good)
}

// The cases of a file: how many there are, how many are left, and how many were as expected.
#[derive(Drop)]
pub struct Cases<R> {
    pub file: R,
    pub all: u64,
    pub left: u64,
    pub good: u64,
}

// Begins with the cases of a file. Where it cannot be opened, the error is printed too, behind the file's name.
pub fn open<S: Files + Eprint>(rt: &S, path: &str) -> io::Result<Cases<S::File>>
    ensures { IfOk result (λ c. (c.left ≡ c.all) × (c.good ≡ 0)) }
{
    let mut file = match fs::open(rt, path) {
        Ok(file) => file,
        Err(e) => {
            eprintln!(rt; "{path}: {e}")?;
            return Err(e);
        }
    };
    let all = number(&mut file);
    Ok(Cases {
        file,
        all,
        left: all,
        good: 0,
    })
}

// The next case was as expected or not.
pub fn judged<R: Drop>(rt: &impl Print, mut cases: Cases<R>, good: bool) -> Cases<R>
    ensures left { result.left ≡ cases.left - 1 }
    ensures all { result.all ≡ cases.all }
    ensures good { result.good ≤ cases.good + 1 }
{
    if 0 < cases.left {
        let case = cases.all.wrapping_sub(cases.left);
        cases.good = cases.good.wrapping_add(shown_good(rt, good, case));
        cases.left -= 1;
    }
    cases
}

// Ends with the cases of a file, and prints how many were as expected.
pub fn close<R: Drop>(rt: &impl Print, path: &str, cases: Cases<R>) -> io::Result<()> {
    report(rt, path, cases.good, cases.all)
}

// Reads the cases of a file, each by a call that answers whether it was as expected, and prints how many were.
pub fn run<S: Files + Print + Eprint, F: FnMut(&mut S::File) -> bool + Drop>(
    rt: &S,
    path: &str,
    mut is_as_expected: F,
) -> io::Result<()>
    requires { F.IsAlwaysCallable is_as_expected }
{
    let mut cases = open(rt, path)?;
    while 0 < cases.left {
        let good = is_as_expected(&mut cases.file);
        cases = judged(rt, cases, good);
    }
    close(rt, path, cases)
}
