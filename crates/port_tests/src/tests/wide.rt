//! A file of more sections than 16 bits count: their number is in section header 0.
//!
//! Smaller files with such counts are in the rows of `elfanswers`, `counts.rows`.

use crate::tests::want::{open, want, want_at};
use std::test::Fail;
use worked_files::files::many_sections_file;
use xmas_elf::ElfError;
use xmas_elf::header::sanity_check;
use xmas_elf::report::report;
use xmas_elf::sections::ShType;

const TYPES: &[(u64, Result<ShType, ElfError>)] = &[
    (2, Ok(ShType::SymTabShIndex)),
    (0xff00, Ok(ShType::Null)),
    (69_998, Ok(ShType::Null)),
    (69_999, Ok(ShType::ProgBits)),
    (70_000, Err(ElfError::ShortSectionHeader)),
];

#[test]
fn reads_many_sections(rt: HostRuntime) -> Result<(), Fail> {
    let bytes = many_sections_file(rt.alloc())?;
    let file = open(&rt, bytes.as_slice());
    want(&rt, file.section_count(), 70_000);
    want(&rt, file.section_iter().count(), 70_000);
    want(&rt, sanity_check(&file), Ok(()));
    for &(index, kind) in TYPES {
        let section = file.section_header_at(index);
        want_at(&rt, index, section.and_then(|it| it.get_type()), kind);
    }
    let reserved = file.section_header(0xff00).err();
    want(&rt, reserved, Some(ElfError::ReservedIndex));
    let last = file.section_iter().last().map(|it| it.get_type());
    want(&rt, last, Some(Ok(ShType::ProgBits)));
    Ok(())
}

// The last section alone has an empty name and a type other than Null.
const NAMED: &[(&str, Option<u64>)] = &[
    (".symtab_shndx", Some(2_800_075)),
    ("", Some(0)),
    (".symtab", None),
];

#[test]
fn finds_a_section_among_many(rt: HostRuntime) -> Result<(), Fail> {
    let bytes = many_sections_file(rt.alloc())?;
    let file = open(&rt, bytes.as_slice());
    for &(name, offset) in NAMED {
        let found = file.find_section_by_name(name);
        want_at(&rt, name, found.map(|it| it.offset()), offset);
    }
    let second = file.section_header_at(2)?;
    want(&rt, second.get_name(&file), Ok(".symtab_shndx"));
    Ok(())
}

const MANY_END: &str = "69998 Ok(Null) ! Attempt to get name of null section
69999 Ok(ProgBits) = 

program headers
hash: none
";

// 21 lines of the ELF header, the check, the two headings, the empty line, a line for each section
// but the first, and that of the hash table.
#[test]
fn reports_many_sections(rt: HostRuntime) -> Result<(), Fail> {
    let bytes = many_sections_file(rt.alloc())?;
    let mut text = Vec::new(rt.alloc());
    want(&rt, report(bytes.as_slice(), &mut text), Ok(()));
    let lines = text.iter().filter(|byte| **byte == b'\n').count();
    want(&rt, lines, 26 + 69_999);
    want(&rt, text.as_slice().ends_with(MANY_END.as_bytes()), true);
    Ok(())
}
