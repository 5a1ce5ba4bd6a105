// Cases of what a label does not reach: names and numbers as values, and rows by tables with optional children.
use std::fs::File;
use std::io;

// A text; whether it is a name, and whether it is the root directory's.
pub fn name_case(file: &mut File) -> bool {
    let mut raw = [0u8; 2048];
    let n = case_files::bytes(file, &mut raw);
    let name = case_files::number(file);
    let root = case_files::number(file);
    u64::from(values::is_name(&raw[..n])) == name
        && u64::from(values::is_root_name(&raw[..n])) == root
}

// A text; whether it is a number, and which.
pub fn number_case(file: &mut File) -> bool {
    let mut raw = [0u8; 64];
    let n = case_files::bytes(file, &mut raw);
    let said = case_files::number(file);
    let value = case_files::number(file);
    match values::read_number(&raw[..n]) {
        Some(m) => said == 1 && m == value,
        None => said == 0,
    }
}

// The next 16 numbers of a file.
fn seats_of(file: &mut File) -> [usize; 16] {
    let mut seats = [0usize; 16];
    for seat in &mut seats {
        *seat = case_files::number(file) as usize;
    }
    seats
}

// A text, a place in it, a table of rules and how many of them are required; whether the row there is lawful, and where each child stands.
pub fn row_case(file: &mut File) -> bool {
    let mut text = [0u8; 2048];
    let n = case_files::bytes(file, &mut text);
    let at = case_files::number(file) as usize;
    let mut table = [0u8; 256];
    let t = case_files::bytes(file, &mut table);
    let must = case_files::number(file) as usize;
    let lawful = case_files::number(file);
    let seats = seats_of(file);
    match children::read_row(&text[..n], at, &table[..t], must) {
        Some(found) => lawful == 1 && found == seats,
        None => lawful == 0,
    }
}
