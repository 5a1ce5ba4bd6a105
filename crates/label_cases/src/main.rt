// Cases of VOL1 and of the LTFS label (01, VOL1, Values, LTFS label), read from files beside the program: vectors, and for each sentence texts that
// keep it and texts that break it; and of values and rows that no label reaches.
#![tactic(auto)]

mod labels;
mod parts;
mod volumes;

use std::io;

fn main(rt: HostRuntime) -> io::Result<()> {
    case_files::run(&rt, "vol1_read", volumes::read_case)?;
    case_files::run(&rt, "vol1_write", volumes::write_case)?;
    case_files::run(&rt, "read_vectors", labels::read_case)?;
    case_files::run(&rt, "read_example", labels::read_case)?;
    case_files::run(&rt, "read_structure", labels::read_case)?;
    case_files::run(&rt, "read_form", labels::read_case)?;
    case_files::run(&rt, "read_version", labels::read_case)?;
    case_files::run(&rt, "read_values", labels::read_case)?;
    case_files::run(&rt, "read_order", labels::read_case)?;
    case_files::run(&rt, "read_uuid", labels::read_case)?;
    case_files::run(&rt, "read_numbers", labels::read_case)?;
    case_files::run(&rt, "write", labels::write_case)?;
    case_files::run(&rt, "agreement", labels::agreement_case)?;
    case_files::run(&rt, "agreement_uuid", labels::agreement_case)?;
    case_files::run(&rt, "names", parts::name_case)?;
    case_files::run(&rt, "numbers", parts::number_case)?;
    case_files::run(&rt, "rows", parts::row_case)
}
