// Cases of what the program writes, read from files beside this one: vectors, document 01's examples, and volumes of our own with each break,
// cuts that are not the first or the obvious ones, files at and past their bounds, and UUIDs in several spellings on one volume.
#![tactic(auto)]

use std::fs::File;
use std::io;

// Four files; the lines expected.
fn one(file: &mut File) -> bool {
    let mut index_list = [0u8; 32768];
    let il = case_files::bytes(file, &mut index_list);
    let mut index_store = [0u8; 32768];
    let is = case_files::bytes(file, &mut index_store);
    let mut data_list = [0u8; 32768];
    let dl = case_files::bytes(file, &mut data_list);
    let mut data_store = [0u8; 32768];
    let ds = case_files::bytes(file, &mut data_store);
    let mut expected = [0u8; 256];
    let e = case_files::bytes(file, &mut expected);
    let mut lines = [0u8; 256];
    match bench_lines::write(
        &index_list[..il],
        &index_store[..is],
        &data_list[..dl],
        &data_store[..ds],
        &mut lines,
    ) {
        Ok(n) => slices::part(&lines, 0, n) == &expected[..e],
        Err(_) => false,
    }
}

fn main(rt: HostRuntime) -> io::Result<()> {
    case_files::run(&rt, "examples", one)?;
    case_files::run(&rt, "vectors", one)?;
    case_files::run(&rt, "own", one)?;
    case_files::run(&rt, "spellings", one)?;
    case_files::run(&rt, "numbers", one)?;
    case_files::run(&rt, "kinds", one)?;
    case_files::run(&rt, "unreadable", one)
}
