// Cases of the LTFS label.
use elements::Span;
use label::LabelFields;
use label_writer::Given;
use std::fs::File;
use std::io;

// The part of a text, or nothing where the text has no such part.
fn part(text: &[u8], w: Span) -> &[u8] {
    text.get(w.from..w.from.saturating_add(w.len))
        .unwrap_or(&[])
}

// Whether raw means the bytes expected.
fn means(raw: &[u8], expected: &[u8]) -> bool {
    let mut out = [0u8; 4096];
    let decoded = texts::decode(raw, &mut out, 0);
    decoded.is_ok_and(|n| out.get(..n) == Some(expected))
}

// Whether the numbers of a label are those expected.
fn numbers_as(f: LabelFields, release: u64, g: Given) -> bool {
    f.release == release
        && f.location == g.location
        && f.index_letter == g.index_letter
        && f.data_letter == g.data_letter
        && f.block_size == g.block_size
        && f.compression == g.compression
}

// What a label says, or is to say.
#[derive(Clone, Copy)]
struct Fields<'a> {
    creator: &'a [u8],
    time: &'a [u8],
    uuid: &'a [u8],
    given: Given,
}

impl<'a> Fields<'a> {
    // Whether a text reads as a label of version 2.0.R that says these.
    fn are_read(self, text: &[u8], release: u64) -> bool {
        label::read(text).is_ok_and(|f| {
            means(part(text, f.creator), self.creator)
                && part(text, f.time) == self.time
                && part(text, f.uuid) == self.uuid
                && numbers_as(f, release, self.given)
        })
    }

    // Whether a label is written to out as expected, and reads back, version 2.0.1; out is compared whole.
    fn are_written(self, out: &mut [u8], refusal: u64, after: &[u8]) -> bool {
        let written = label_writer::write(out, self.creator, self.time, self.uuid, self.given);
        let as_expected = match written {
            Ok(n) => refusal == 0 && out.get(..n).is_some_and(|text| self.are_read(text, 1)),
            Err(r) => u64::from(r) == refusal,
        };
        as_expected && &*out == after
    }
}

fn is_refused(text: &[u8], refusal: u64) -> bool {
    label::read(text).is_err_and(|r| u64::from(r) == refusal)
}

fn byte(file: &mut File) -> u8 {
    (case_files::number(file) % 256) as u8
}

// Three letters, a block size, and whether it is compressed.
fn given(file: &mut File) -> Given {
    let location = byte(file);
    let index_letter = byte(file);
    let data_letter = byte(file);
    let block_size = case_files::number(file);
    let compression = case_files::number(file) != 0;
    Given {
        location,
        index_letter,
        data_letter,
        block_size,
        compression,
    }
}

// A text; the refusal and the values expected.
pub fn read_case(file: &mut File) -> bool {
    let mut text = [0u8; 8192];
    let n = case_files::bytes(file, &mut text);
    let refusal = case_files::number(file);
    let release = case_files::number(file);
    let mut creator = [0u8; 512];
    let c = case_files::bytes(file, &mut creator);
    let mut time = [0u8; 64];
    let t = case_files::bytes(file, &mut time);
    let mut uuid = [0u8; 64];
    let u = case_files::bytes(file, &mut uuid);
    let fields = Fields {
        creator: &creator[..c],
        time: &time[..t],
        uuid: &uuid[..u],
        given: given(file),
    };
    if refusal == 0 {
        fields.are_read(&text[..n], release)
    } else {
        is_refused(&text[..n], refusal)
    }
}

// The fields of a label and a buffer; the refusal and the buffer's content expected.
pub fn write_case(file: &mut File) -> bool {
    let mut creator = [0u8; 512];
    let c = case_files::bytes(file, &mut creator);
    let mut time = [0u8; 64];
    let t = case_files::bytes(file, &mut time);
    let mut uuid = [0u8; 64];
    let u = case_files::bytes(file, &mut uuid);
    let fields = Fields {
        creator: &creator[..c],
        time: &time[..t],
        uuid: &uuid[..u],
        given: given(file),
    };
    let mut out = [0u8; 4096];
    let b = case_files::bytes(file, &mut out);
    let refusal = case_files::number(file);
    let mut after = [0u8; 4096];
    let a = case_files::bytes(file, &mut after);
    fields.are_written(&mut out[..b], refusal, &after[..a])
}

// A side's VOL1 and the text of its label.
#[derive(Clone, Copy)]
struct Side<'a> {
    vol1: &'a [u8],
    text: &'a [u8],
}

// Whether the labels of two sides agree; no where one of the texts is no label.
fn agree(index: Side<'_>, data: Side<'_>) -> bool {
    match (label::read(index.text), label::read(data.text)) {
        (Ok(f), Ok(g)) => label::labels_agree(index.vol1, index.text, f, data.vol1, data.text, g),
        _ => false,
    }
}

// VOL1 and label text of the index side, and of the data side; whether they agree.
pub fn agreement_case(file: &mut File) -> bool {
    let mut index_vol1 = [0u8; 128];
    let iv = case_files::bytes(file, &mut index_vol1);
    let mut index_text = [0u8; 4096];
    let it = case_files::bytes(file, &mut index_text);
    let mut data_vol1 = [0u8; 128];
    let dv = case_files::bytes(file, &mut data_vol1);
    let mut data_text = [0u8; 4096];
    let dt = case_files::bytes(file, &mut data_text);
    let expected = case_files::number(file);
    let index = Side {
        vol1: &index_vol1[..iv],
        text: &index_text[..it],
    };
    let data = Side {
        vol1: &data_vol1[..dv],
        text: &data_text[..dt],
    };
    u64::from(agree(index, data)) == expected
}
