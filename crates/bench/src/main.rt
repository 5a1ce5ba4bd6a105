// Writes the verdict on the volume in the current folder, and the rescue's cut (01, Bench examples).
#![tactic(auto)]

ghost use Rattle.case_files.specs.Counts.{IsPrefixLen};

use std::rt::Files;
use std::{fs, io};

// The bytes of a file, at the front of buf, as far as it has room and can be read; none where the file cannot be opened.
fn load(rt: &impl Files, path: &str, buf: &mut [u8]) -> usize
    ensures { IsPrefixLen result buf.new }
{
    let Ok(mut file) = fs::open(rt, path) else {
        return 0;
    };
    case_files::read_full(&mut file, buf)
}

// Each buffer has room for a byte more than its file may have, so that a longer file is told.
fn main(rt: HostRuntime) -> io::Result<()> {
    let mut index_list = [0u8; 4097];
    let il = load(&rt, "index.list", &mut index_list);
    let mut index_store = [0u8; 24577];
    let is = load(&rt, "index.store", &mut index_store);
    let mut data_list = [0u8; 4097];
    let dl = load(&rt, "data.list", &mut data_list);
    let mut data_store = [0u8; 24577];
    let ds = load(&rt, "data.store", &mut data_store);
    let mut lines = [0u8; 256];
    match bench_lines::write(
        &index_list[..il],
        &index_store[..is],
        &data_list[..dl],
        &data_store[..ds],
        &mut lines,
    ) {
        Ok(n) => rt.write_all(slices::part(&lines, 0, n)),
        Err(_) => Ok(()),
    }
}
