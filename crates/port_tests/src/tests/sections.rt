//! Printed forms of section headers, and callers that ask for sections.
//!
//! Sections by index, by iterator and by name are in the rows of `elfanswers`, `sections.rows`.

use crate::tests::want::{open, want, want_at};
use elf_callers::callers;
use std::string::ToString;
use std::test::Fail;
use worked_files::files::{debug_link_file, strtab_file};
use worked_files::places::{section_64, set};
use xmas_elf::bytes::{Order, Record};
use xmas_elf::sections::{SectionHeader, SectionHeader_};
use xmas_elf::{ElfError, P64};

const LITTLE: Order = Order::Little;

const PRINTED: &str = "Section header:
    name:             1
    type:             Ok(StrTab)
    flags:            0
    address:          0
    offset:           132
    size:             12
    link:             0
    align:            1
    entry size:       0
";

const PRINTED_FAILED: &str = "Section header:
    name:             0
    type:             Err(\"Invalid sh type\")
    flags:            18446744073709551615
    address:          0
    offset:           0
    size:             0
    link:             0
    align:            0
    entry size:       0
";

#[test]
fn prints_a_section_header(rt: HostRuntime) -> Result<(), Fail> {
    let file = strtab_file(LITTLE);
    let section = open(&rt, &file).section_header(1)?;
    want(&rt, section.to_string(rt.alloc())?.as_str(), PRINTED);
    let mut record = [0; 64];
    set(&mut record, 0, section_64::TYPE, 12, LITTLE);
    set(&mut record, 0, section_64::FLAGS, u64::MAX, LITTLE);
    let section = SectionHeader::Sh64(SectionHeader_::<P64>::decode(&record, LITTLE));
    let found = section.to_string(rt.alloc())?;
    want(&rt, found.as_str(), PRINTED_FAILED);
    Ok(())
}

// By type, offset and size of a section of a file of 397 bytes: the range of its bytes there.
const STORED: &[(u64, u64, u64, Result<Option<(usize, usize)>, ElfError>)] = &[
    (1, 365, 12, Ok(Some((365, 12)))),
    (0, 365, 12, Ok(None)),
    (8, u64::MAX, u64::MAX, Ok(None)),
    (19, 0, 397, Ok(Some((0, 397)))),
    (12, 397, 0, Ok(Some((397, 0)))),
    (1, 1, 397, Err(ElfError::DataRange)),
    (3, u64::MAX, 1, Err(ElfError::DataRange)),
];

#[test]
fn stored_ranges_are_by_type_and_place(rt: HostRuntime) {
    let bytes = debug_link_file();
    let file = open(&rt, &bytes);
    for &(kind, offset, size, wanted) in STORED {
        let mut record = [0; 64];
        set(&mut record, 0, section_64::TYPE, kind, LITTLE);
        set(&mut record, 0, section_64::OFFSET, offset, LITTLE);
        set(&mut record, 0, section_64::SIZE, size, LITTLE);
        let section = SectionHeader::Sh64(SectionHeader_::<P64>::decode(&record, LITTLE));
        want_at(&rt, kind, section.stored_range(&file), wanted);
    }
}

#[test]
fn callers_count_what_they_ask_for(rt: HostRuntime) {
    let bytes = debug_link_file();
    let file = open(&rt, &bytes);
    want(&rt, callers::counted_sections(&file), 4);
    want(&rt, file.program_iter().count(), 0);
    let failed = file.program_header(0).err();
    want(&rt, failed, Some(ElfError::NoProgramHeaders));
}

#[test]
fn callers_get_the_sections_they_ask_for(rt: HostRuntime) -> Result<(), ElfError> {
    let bytes = debug_link_file();
    let file = open(&rt, &bytes);
    want(&rt, callers::section_at(&file, 365), Some(2));
    want(&rt, callers::section_at(&file, 366), None);
    let data = file.section_header(2)?.raw_data(&file)?;
    want(&rt, data.len(), 12);
    let link = file.find_section_by_name(".gnu_debuglink");
    want(&rt, link.expect(&rt, "the link").size(), 12);
    Ok(())
}

#[test]
fn callers_get_what_they_ask_of_bytes(rt: HostRuntime) -> Result<(), Fail> {
    let bytes = debug_link_file();
    want(&rt, callers::name_in(&bytes, 11), Ok(".gnu_debuglink"));
    want(&rt, callers::copied_name_len(rt.alloc(), &bytes)?, 9);
    want(&rt, callers::string_bytes(&bytes), Ok(45));
    Ok(())
}
