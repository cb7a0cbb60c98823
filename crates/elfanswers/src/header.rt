//! The results of the ELF header, and how many items both iterators have.

use crate::printed::{Answer, Nothing, tell, tell_numbers};
use std::io;
use std::io::Write;
use xmas_elf::ElfFile;
use xmas_elf::header::sanity_check;

/// Writes them.
pub fn write_header<W: Write>(file: &ElfFile<'_>, out: &mut W) -> io::Result<()> {
    write_parts(file, out)?;
    write_sizes(file, out)?;
    tell("header display", &file.header, out)?;
    let check = Answer(sanity_check(file).map(|_| Nothing));
    tell("header sanity_check", &check, out)?;
    let count = file.section_iter().count();
    tell("section_iter count", &count, out)?;
    let count = file.program_iter().count();
    tell("program_iter count", &count, out)
}

fn write_parts<W: Write>(file: &ElfFile<'_>, out: &mut W) -> io::Result<()> {
    let (pt1, pt2) = (&file.header.pt1, &file.header.pt2);
    tell("header class", &pt1.class(), out)?;
    tell("header data", &pt1.data(), out)?;
    tell("header version", &pt1.version(), out)?;
    tell("header os_abi", &pt1.os_abi(), out)?;
    tell("header abi_version", &pt1.abi_version, out)?;
    tell("header size", &pt2.size(), out)?;
    tell("header type_", &pt2.type_().as_type(), out)?;
    tell("header machine", &pt2.machine().as_machine(), out)?;
    tell("header pt2_version", &pt2.version(), out)
}

fn write_sizes<W: Write>(file: &ElfFile<'_>, out: &mut W) -> io::Result<()> {
    let pt2 = &file.header.pt2;
    let numbers = [
        ("header_size", u64::from(pt2.header_size())),
        ("entry_point", pt2.entry_point()),
        ("ph_offset", pt2.ph_offset()),
        ("sh_offset", pt2.sh_offset()),
        ("ph_entry_size", u64::from(pt2.ph_entry_size())),
        ("ph_count", u64::from(pt2.ph_count())),
        ("sh_entry_size", u64::from(pt2.sh_entry_size())),
        ("sh_count", u64::from(pt2.sh_count())),
        ("sh_str_index", u64::from(pt2.sh_str_index())),
    ];
    tell_numbers(&"header", &numbers, out)
}
