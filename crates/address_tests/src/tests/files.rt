//! The symbols and the sections of a file.

use crate::callers::symbol_in;
use crate::tests::want::want_at;
use elf_addresses::section_at;
use std::test::Fail;
use worked_files::files::{put_header_64, put_section_64, put_symbol, strtab_file};
use worked_files::places::{put, section_64, set};
use worked_files::rows;
use xmas_elf::ElfFile;
use xmas_elf::bytes::Order;

const LITTLE: Order = Order::Little;

// The names of the sections and of the symbols.
pub(super) const NAMES: &[u8] = b"\0.strtab\0.symtab\0ab\0cd\0";

// The flags, the address and the size of sections 3 to 6: two in memory, one that is a template of
// thread-local storage, and one that is not in memory.
const SECTIONS: &[(u64, u64, u64)] = rows! {
    0x403, 0x1000, 0x200; 6, 0x1000, 0x100; 0x30, 0x1100, 0x100; 3, 0x1080, 0x100;
};

// An address, the section and the symbol there, and the offset in the symbol.
const ROWS: &[(u64, Option<usize>, Option<(usize, u64)>)] = rows! {
    0xfff, None, None; 0x1000, Some(4), Some((0, 0)); 0x1010, Some(4), Some((1, 0));
    0x1018, Some(4), Some((0, 0x18)); 0x10ff, Some(4), None; 0x1100, Some(6), None;
    0x117f, Some(6), None; 0x1180, None, None;
};

// Seven section headers from 64 on, the names at 512, and two symbols at 535.
pub(super) fn symbols_file() -> [u8; 583] {
    let mut file = [0; 583];
    put_header_64(&mut file, 7, LITTLE);
    put_section_64(&mut file, 128, [1, 3, 512, 23], LITTLE);
    put_section_64(&mut file, 192, [9, 2, 535, 48], LITTLE);
    let mut start = 256;
    for &(flags, address, size) in SECTIONS {
        put_section_64(&mut file, start, [0, 8, 0, size], LITTLE);
        set(&mut file, start, section_64::FLAGS, flags, LITTLE);
        set(&mut file, start, section_64::ADDRESS, address, LITTLE);
        start = start.wrapping_add(64);
    }
    put(&mut file, 512, NAMES);
    let mut start = 535;
    for (name, value, size) in [(17, 0x1000, 0x20), (20, 0x1010, 8)] {
        put_symbol(&mut file, 2, start, [name, 0x12, 4, value, size], LITTLE);
        start = start.wrapping_add(24);
    }
    file
}

#[test]
fn finds_sections_and_symbols_of_a_file(rt: HostRuntime) -> Result<(), Fail> {
    let bytes = symbols_file();
    let file = ElfFile::new(&bytes)?;
    for &(address, section, symbol) in ROWS {
        let found = section_at(&file, address).map(|found| found.0);
        want_at(&rt, address, found, section);
        let found = symbol_in(&file, address).map(|at| (at.index, at.offset));
        want_at(&rt, address, found, symbol);
    }
    Ok(())
}

#[test]
fn a_file_without_symbols_has_none(rt: HostRuntime) -> Result<(), Fail> {
    let bytes = strtab_file(LITTLE);
    let file = ElfFile::new(&bytes)?;
    want_at(&rt, "symbols", symbol_in(&file, 0).is_none(), true);
    want_at(&rt, "sections", section_at(&file, 0).is_none(), true);
    Ok(())
}
