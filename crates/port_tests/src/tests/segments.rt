//! The records of segments, which are in no file, and printed forms.
//!
//! Segments of files are in the rows of `elfanswers`, `segments.rows`.

use crate::tests::want::{open, want, want_at};
use std::alloc::AllocError;
use std::fmt;
use std::string::ToString;
use std::test::Fail;
use worked_files::files::{debug_link_file, segment_file};
use xmas_elf::ElfError;
use xmas_elf::bytes::{Order, Record};
use xmas_elf::program::{Flags, ProgramHeader, ProgramHeader32, ProgramHeader64, Type_};

const LITTLE: Order = Order::Little;

const PRINTED: &str = "Program header:
    type:             Ok(Load)
    flags:            X R
    offset:           0x0
    virtual address:  0x0
    physical address: 0x0
    file size:        0x53
    memory size:      0x53
    align:            0x1
";

#[test]
fn reads_the_record_of_a_segment(rt: HostRuntime) -> Result<(), Fail> {
    let bytes = segment_file();
    let file = open(&rt, &bytes);
    let record = ProgramHeader32::decode(&bytes[52..84], LITTLE);
    want(&rt, record.raw_data(&file), Ok(&bytes[..83]));
    want(&rt, record.to_string(rt.alloc())?.as_str(), PRINTED);
    Ok(())
}

#[test]
fn iterates_over_a_segment(rt: HostRuntime) {
    let bytes = segment_file();
    let file = open(&rt, &bytes);
    let mut programs = file.program_iter();
    for (is_some, index) in [(true, 1), (false, 1), (false, 1)] {
        let found = (programs.next().is_some(), programs.next_index);
        want(&rt, found, (is_some, index));
    }
}

// By offset and file size, the data of a record of class 64.
const DATA: &[(u64, u64, Result<&[u8], ElfError>)] = &[
    (2, u64::MAX, Err(ElfError::DataRange)),
    (u64::MAX, 1, Err(ElfError::DataRange)),
    (u64::MAX, 0, Ok(b"")),
];

// Sums of 64 bits don't wrap.
#[test]
fn the_end_of_a_record_may_pass_64_bits(rt: HostRuntime) {
    let bytes = debug_link_file();
    let file = open(&rt, &bytes);
    for &(offset, size, data) in DATA {
        let mut segment = ProgramHeader64::default();
        segment.type_ = Type_::from_raw(1);
        segment.offset = offset;
        segment.file_size = size;
        want_at(&rt, offset, segment.raw_data(&file), data);
        want_at(&rt, offset, segment.get_data(&file).err(), data.err());
    }
}

// The two hexadecimal forms of flags.
#[derive(Clone, Copy)]
struct Lower(Flags);

impl fmt::Display for Lower {
    fn fmt<W: fmt::Write>(&self, f: &mut fmt::Formatter<W>) -> fmt::Result {
        fmt::LowerHex::fmt(&self.0, f)
    }
}

#[derive(Clone, Copy)]
struct Upper(Flags);

impl fmt::Display for Upper {
    fn fmt<W: fmt::Write>(&self, f: &mut fmt::Formatter<W>) -> fmt::Result {
        fmt::UpperHex::fmt(&self.0, f)
    }
}

#[test]
fn prints_flags_as_numbers(rt: HostRuntime) -> Result<(), AllocError> {
    let alloc = rt.alloc();
    for (number, lower, upper) in [(5, "0x5", "0x5"), (0xf0ab, "0xf0ab", "0xF0AB")] {
        let found = Lower(Flags(number)).to_string(alloc)?;
        want(&rt, found.as_str(), lower);
        let found = Upper(Flags(number)).to_string(alloc)?;
        want(&rt, found.as_str(), upper);
    }
    Ok(())
}

const PRINTED_WIDE: &str = "Program header:
    type:             Err(\"Invalid type\")
    flags:               
    offset:           0xabc
    virtual address:  0x0
    physical address: 0x0
    file size:        0x0
    memory size:      0x0
    align:            0xffffffffffffffff
";

#[test]
fn prints_wide_headers(rt: HostRuntime) -> Result<(), AllocError> {
    let alloc = rt.alloc();
    let mut program = ProgramHeader64::default();
    program.type_ = Type_::from_raw(9);
    program.offset = 0xabc;
    program.align = u64::MAX;
    want(&rt, program.to_string(alloc)?.as_str(), PRINTED_WIDE);
    let program = ProgramHeader::Ph64(program);
    want(&rt, program.to_string(alloc)?.as_str(), PRINTED_WIDE);
    Ok(())
}
