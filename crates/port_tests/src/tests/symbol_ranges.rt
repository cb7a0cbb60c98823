//! The bytes in the file that a symbol names.

use crate::tests::want::{open, want, want_at};
use std::process::Abort;
use worked_files::files::{put_header_64, put_section_64, put_symbol};
use worked_files::places::{header_64, program_64, section_64, set};
use worked_files::rows;
use xmas_elf::ElfError;
use xmas_elf::bytes::{Order, Table};
use xmas_elf::symbol_table::{Entry64, SymbolTable};

const LITTLE: Order = Order::Little;

// Class 64, of this type: section 1 has 32 bytes at 496 and address 0x1000; section 2 has type
// NoBits; section 3 has 16 bytes at 528 and address 0x3008; section 4 extends past the end. The
// second segment is the template of thread-local data, at address 0x3000.
fn ranges_file(kind: u64) -> [u8; 560] {
    let mut file = [0; 560];
    put_header_64(&mut file, 5, LITTLE);
    set(&mut file, 0, header_64::TYPE, kind, LITTLE);
    set(&mut file, 0, header_64::PH_OFFSET, 384, LITTLE);
    set(&mut file, 0, header_64::PH_ENTRY_SIZE, 56, LITTLE);
    set(&mut file, 0, header_64::PH_COUNT, 2, LITTLE);
    put_section_64(&mut file, 128, [0, 1, 496, 32], LITTLE);
    set(&mut file, 128, section_64::ADDRESS, 0x1000, LITTLE);
    put_section_64(&mut file, 192, [0, 8, 528, 16], LITTLE);
    set(&mut file, 192, section_64::ADDRESS, 0x2000, LITTLE);
    put_section_64(&mut file, 256, [0, 1, 528, 16], LITTLE);
    set(&mut file, 256, section_64::ADDRESS, 0x3008, LITTLE);
    put_section_64(&mut file, 320, [0, 1, 544, 17], LITTLE);
    set(&mut file, 384, program_64::TYPE, 1, LITTLE);
    set(&mut file, 384, program_64::VIRTUAL_ADDR, 0x9000, LITTLE);
    set(&mut file, 440, program_64::TYPE, 7, LITTLE);
    set(&mut file, 440, program_64::VIRTUAL_ADDR, 0x3000, LITTLE);
    file
}

// A symbol: its section index, its type, its value and its size.
type Row = (u64, u64, u64, u64);

type Found = Result<Option<(usize, usize)>, ElfError>;

// In a shared object: a value is an address, or an offset in the template.
const LINKED: &[(Row, Found)] = rows! {
    (1, 2, 0x1000, 32), Ok(Some((496, 32))); (1, 2, 0x1010, 8), Ok(Some((512, 8)));
    (1, 0, 0x1020, 0), Ok(Some((528, 0))); (1, 1, 0x1020, 1), Ok(None); (1, 1, 0xfff, 1), Ok(None);
    (1, 1, 0x1000, u64::MAX), Ok(None); (2, 1, 0x2000, 4), Ok(None); (0, 1, 0x1000, 4), Ok(None);
    (0xfff1, 1, 0x1000, 4), Ok(None); (0xfff2, 1, 0x1000, 4), Ok(None);
    (3, 6, 8, 4), Ok(Some((528, 4))); (3, 6, 0x14, 4), Ok(Some((540, 4)));
    (3, 6, 0x15, 4), Ok(None); (3, 6, 7, 4), Ok(None); (3, 6, u64::MAX, 1), Ok(None);
    (3, 1, 0x300c, 4), Ok(Some((532, 4))); (4, 1, 0, 0), Err(ElfError::DataRange);
    (8, 1, 0, 0), Err(ElfError::ShortSectionHeader);
    (0xff00, 1, 0, 0), Err(ElfError::ReservedIndex); (0xffff, 1, 0, 0), Err(ElfError::NoShIndex);
};

// In an object file: a value is an offset in the section.
const OBJECT: &[(Row, Found)] = rows! {
    (1, 2, 0, 32), Ok(Some((496, 32))); (1, 2, 0x10, 8), Ok(Some((512, 8)));
    (1, 2, 0x1000, 1), Ok(None); (1, 2, u64::MAX, u64::MAX), Ok(None);
    (3, 6, 4, 4), Ok(Some((532, 4))); (2, 6, 4, 4), Ok(None);
};

fn symbol_bytes(row: Row) -> [u8; 24] {
    let mut bytes = [0; 24];
    put_symbol(&mut bytes, 2, 0, [0, row.1, row.0, row.2, row.3], LITTLE);
    bytes
}

// Wants the ranges of symbols in a file.
fn check_ranges(rt: &impl Abort, bytes: &[u8], rows: &[(Row, Found)]) -> Result<(), ElfError> {
    let file = open(rt, bytes);
    for &(row, wanted) in rows {
        let symbol = symbol_bytes(row);
        let table = Table::<Entry64>::new(&symbol, LITTLE)?;
        let symbols = SymbolTable::with_strings(table, b"");
        want_at(rt, row, symbols.file_range(&file, 0), wanted);
    }
    Ok(())
}

#[test]
fn symbols_name_bytes_of_their_sections(rt: HostRuntime) -> Result<(), ElfError> {
    check_ranges(&rt, &ranges_file(3), LINKED)?;
    check_ranges(&rt, &ranges_file(1), OBJECT)
}

#[test]
fn thread_local_symbols_need_a_template(rt: HostRuntime) -> Result<(), ElfError> {
    let mut bytes = ranges_file(3);
    set(&mut bytes, 440, program_64::TYPE, 1, LITTLE);
    check_ranges(&rt, &bytes, &[((3, 6, 8, 4), Ok(None))])
}

#[test]
fn no_symbol_is_past_the_end(rt: HostRuntime) -> Result<(), ElfError> {
    let bytes = ranges_file(3);
    let table = Table::<Entry64>::new(&[], LITTLE)?;
    let found = SymbolTable::with_strings(table, b"").file_range(&open(&rt, &bytes), 0);
    want(&rt, found, Err(ElfError::SymbolIndex));
    Ok(())
}
