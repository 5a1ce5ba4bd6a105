// Cases of ANSI labelled tapes (02, Item 1), read from files beside the program: the files of a tape, and where it leaves the layout.
#![tactic(auto)]

use std::fs::File;
use std::io;

// A list, a store and a lent buffer; the refusal, the number of files and the whole buffer expected.
fn files_case(file: &mut File) -> bool {
    let mut list = [0u8; 4096];
    let l = case_files::bytes(file, &mut list);
    let mut store = [0u8; 24576];
    let s = case_files::bytes(file, &mut store);
    let mut out = [0u8; 4096];
    let o = case_files::bytes(file, &mut out);
    let refusal = case_files::number(file);
    let files = case_files::number(file) as usize;
    let mut after = [0u8; 4096];
    let a = case_files::bytes(file, &mut after);
    let told = match ansi::files(&list[..l], &store[..s], &mut out[..o]) {
        Ok(n) => refusal == 0 && n == files,
        Err(r) => u64::from(r) == refusal && files == 0,
    };
    told && &out[..o] == &after[..a]
}

// A list and a store; the refusal, where there is room for every file, and the place expected.
fn place_case(file: &mut File) -> bool {
    let mut list = [0u8; 4096];
    let l = case_files::bytes(file, &mut list);
    let mut store = [0u8; 24576];
    let s = case_files::bytes(file, &mut store);
    let refusal = case_files::number(file);
    let place = case_files::number(file) as usize;
    let mut room = [0u8; 4096];
    let told = match ansi::files(&list[..l], &store[..s], &mut room) {
        Ok(_) => 0,
        Err(r) => u64::from(r),
    };
    told == refusal
        && match ansi::place(&list[..l], &store[..s]) {
            // Only a bad list or store has no place.
            Ok(n) => refusal != 1 && n == place,
            Err(r) => u64::from(r) == refusal,
        }
}

fn main(rt: HostRuntime) -> io::Result<()> {
    case_files::run(&rt, "vectors", files_case)?;
    case_files::run(&rt, "places", place_case)?;
    case_files::run(&rt, "unreadable", place_case)
}
