// Cases of the block list, read from files beside the program: checks, elements kept, blocks asked for.
#![tactic(auto)]

use quantities::BlockNumber;
use refusals::Refusal;
use std::fs::File;
use std::io;

// A list and a store; the refusal and the number of elements expected.
fn check_case(file: &mut File) -> bool {
    let mut list = [0u8; 131072];
    let l = case_files::bytes(file, &mut list);
    let mut store = [0u8; 24576];
    let s = case_files::bytes(file, &mut store);
    let refusal = case_files::number(file);
    let elements = case_files::number(file) as usize;
    match tape::check(&list[..l], &store[..s]) {
        Ok(n) => refusal == 0 && n == elements,
        Err(r) => u64::from(r) == refusal,
    }
}

// Whether the answer is the refusal with this number and no bytes are expected, or 0 and these bytes.
fn is_as(answer: Result<&[u8], Refusal>, refusal: u64, bytes: &[u8]) -> bool {
    match answer {
        Ok(part) => refusal == 0 && part == bytes,
        Err(r) => u64::from(r) == refusal && bytes.is_empty(),
    }
}

// A block list and its store.
#[derive(Clone, Copy)]
struct Tape<'a> {
    list: &'a [u8],
    store: &'a [u8],
}

impl<'a> Tape<'a> {
    // What is kept of the first n elements.
    fn kept(self, n: usize) -> Tape<'a> {
        Tape {
            list: tape::kept_list(self.list, self.store, n).unwrap_or(&[]),
            store: tape::kept_store(self.list, self.store, n).unwrap_or(&[]),
        }
    }

    // Whether keeping n elements tells this refusal each time, and answers these fronts.
    fn keeps(self, n: usize, refusal: u64, fronts: Tape<'_>) -> bool {
        is_as(
            tape::kept_list(self.list, self.store, n),
            refusal,
            fronts.list,
        ) && is_as(
            tape::kept_store(self.list, self.store, n),
            refusal,
            fronts.store,
        )
    }

    // Whether the lengths of the fronts are told so.
    fn keeps_lengths(self, n: usize, refusal: u64, fronts: Tape<'_>) -> bool {
        match tape::keep(self.list, self.store, n) {
            Ok(front) => {
                refusal == 0 && front.list == fronts.list.len() && front.store == fronts.store.len()
            }
            Err(r) => u64::from(r) == refusal,
        }
    }

    // Whether the fronts are the same where more elements are kept first, and where more are kept of the fronts.
    fn keeps_through(self, more: usize, n: usize, fronts: Tape<'_>) -> bool {
        self.kept(more).keeps(n, 0, fronts) && fronts.keeps(more, 0, fronts)
    }
}

// A list, a store and a number of elements; the refusal and the two fronts expected.
fn keep_case(file: &mut File) -> bool {
    let mut list = [0u8; 4096];
    let l = case_files::bytes(file, &mut list);
    let mut store = [0u8; 24576];
    let s = case_files::bytes(file, &mut store);
    let n = case_files::number(file) as usize;
    let refusal = case_files::number(file);
    let mut list_front = [0u8; 4096];
    let a = case_files::bytes(file, &mut list_front);
    let mut store_front = [0u8; 24576];
    let b = case_files::bytes(file, &mut store_front);
    let tape = Tape {
        list: &list[..l],
        store: &store[..s],
    };
    let fronts = Tape {
        list: &list_front[..a],
        store: &store_front[..b],
    };
    let more = if n < 65536 { n + 1 } else { n };
    tape.keeps_lengths(n, refusal, fronts)
        && tape.keeps(n, refusal, fronts)
        && (refusal != 0
            || (tape.keeps_through(usize::MAX, n, fronts) && tape.keeps_through(more, n, fronts)))
}

// Two lists with their stores, three letters and a number; the refusal and the bytes expected.
fn block_case(file: &mut File) -> bool {
    let mut index_list = [0u8; 4096];
    let il = case_files::bytes(file, &mut index_list);
    let mut index_store = [0u8; 24576];
    let is = case_files::bytes(file, &mut index_store);
    let mut data_list = [0u8; 4096];
    let dl = case_files::bytes(file, &mut data_list);
    let mut data_store = [0u8; 24576];
    let ds = case_files::bytes(file, &mut data_store);
    let i = (case_files::number(file) % 256) as u8;
    let d = (case_files::number(file) % 256) as u8;
    let letter = (case_files::number(file) % 256) as u8;
    let number = case_files::number(file);
    let refusal = case_files::number(file);
    let mut expected = [0u8; 24576];
    let e = case_files::bytes(file, &mut expected);
    let part = tape::block(
        &index_list[..il],
        &index_store[..is],
        &data_list[..dl],
        &data_store[..ds],
        i,
        d,
        letter,
        BlockNumber(number),
    );
    is_as(part, refusal, &expected[..e])
}

fn main(rt: HostRuntime) -> io::Result<()> {
    case_files::run(&rt, "check", check_case)?;
    case_files::run(&rt, "keep", keep_case)?;
    case_files::run(&rt, "block", block_case)?;
    case_files::run(&rt, "block_own", block_case)?;
    case_files::run(&rt, "check_unreadable", check_case)?;
    case_files::run(&rt, "keep_kinds", keep_case)?;
    case_files::run(&rt, "keep_unreadable", keep_case)?;
    case_files::run(&rt, "block_kinds", block_case)?;
    case_files::run(&rt, "block_unreadable", block_case)
}
