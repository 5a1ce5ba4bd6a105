// Cases of VOL1.
use std::fs::File;
use std::io;

// A block; the refusal expected.
pub fn read_case(file: &mut File) -> bool {
    let mut block = [0u8; 512];
    let n = case_files::bytes(file, &mut block);
    let refusal = case_files::number(file);
    match vol1::read_vol1(&block[..n]) {
        Ok(()) => refusal == 0,
        Err(r) => u64::from(r) == refusal,
    }
}

// Whether the label is written to out as expected; out is compared whole.
fn written_as(out: &mut [u8], identifier: &[u8], owner: &[u8], refusal: u64, after: &[u8]) -> bool {
    let as_expected = match vol1::write_vol1(out, identifier, owner) {
        Ok(n) => refusal == 0 && n == 80,
        Err(r) => u64::from(r) == refusal,
    };
    as_expected && &*out == after
}

// An identifier, an owner and a buffer; the refusal and the buffer's content expected.
pub fn write_case(file: &mut File) -> bool {
    let mut identifier = [0u8; 64];
    let i = case_files::bytes(file, &mut identifier);
    let mut owner = [0u8; 64];
    let o = case_files::bytes(file, &mut owner);
    let mut out = [0u8; 512];
    let b = case_files::bytes(file, &mut out);
    let refusal = case_files::number(file);
    let mut after = [0u8; 512];
    let a = case_files::bytes(file, &mut after);
    written_as(
        &mut out[..b],
        &identifier[..i],
        &owner[..o],
        refusal,
        &after[..a],
    )
}
