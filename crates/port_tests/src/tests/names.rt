//! Names that aren't UTF-8, and names in strings of one's own; other names of files are in the rows
//! of `elfanswers`, `names.rows`.

use crate::tests::want::{open, want, want_at};
use elf_callers::callers::names::name_by_bytes;
use std::process::Abort;
use worked_files::files::{dynstr_file, strtab_file};
use worked_files::places::{header_32, put, section_32, set, symbol_32, symbol_64};
use worked_files::rows;
use xmas_elf::ElfError;
use xmas_elf::bytes::{Order, Record, Table};
use xmas_elf::symbol_table::{DynEntry32, Entry, Entry32, Entry64, SymbolTable};

const LITTLE: Order = Order::Little;

// `strtab_file` with the bytes 0xff and `b` in the place of `ab`, at index 9.
fn file_of_bytes() -> [u8; 144] {
    let mut bytes = strtab_file(LITTLE);
    put(&mut bytes, 141, b"\xff");
    bytes
}

#[test]
fn names_of_sections_need_not_be_utf8(rt: HostRuntime) -> Result<(), ElfError> {
    let mut bytes = file_of_bytes();
    set(&mut bytes, 92, section_32::NAME, 9, LITTLE);
    let file = open(&rt, &bytes);
    let table = file.section_table();
    let (null, section) = (file.section_header(0)?, file.section_header(1)?);
    let wanted = Ok(b"\xffb".as_slice());
    want(&rt, section.name_bytes(&file), wanted);
    want(&rt, table.name_bytes_of(&section), wanted);
    want(&rt, file.get_shstr_bytes(9), wanted);
    want(&rt, file.section_name(&section), wanted);
    want(&rt, section.get_name(&file), Err(ElfError::TextUtf8));
    want(&rt, name_by_bytes(&file, &section), Err(ElfError::TextUtf8));
    want(&rt, null.name_bytes(&file), Err(ElfError::NullName));
    want(&rt, table.name_bytes_of(&null), Err(ElfError::NullName));
    want(&rt, file.get_shstr_bytes(1), Ok(b".strtab".as_slice()));
    want(&rt, file.get_shstr_bytes(12), Err(ElfError::TextEnd));
    Ok(())
}

// Null, a type of the table, one without a meaning, that of `.relr.dyn`, and of each reserved range one.
const TYPES: &[u64] = rows! {
    0; 3; 12; 19; 0x5fff_ffff; 0x6fff_fff6; 0x7000_0000; 0xffff_ffff;
};

// `readelf -SW` shows these names for each type.
#[test]
fn sections_of_any_type_have_names(rt: HostRuntime) -> Result<(), ElfError> {
    for &kind in TYPES {
        let mut bytes = strtab_file(LITTLE);
        set(&mut bytes, 52, section_32::NAME, 9, LITTLE);
        set(&mut bytes, 92, section_32::TYPE, kind, LITTLE);
        let file = open(&rt, &bytes);
        let (null, section) = (file.section_header(0)?, file.section_header(1)?);
        want_at(&rt, kind, file.section_name(&null), Ok(b"ab".as_slice()));
        let found = file.section_name(&section);
        want_at(&rt, kind, found, Ok(b".strtab".as_slice()));
    }
    Ok(())
}

// The index of the section with the names, the link of section header 0, and the index of the name of
// section 1 in the name table; and that name, as `readelf -SW` shows it, or the first of the errors.
const NAMED: &[(u64, u64, u64, Result<&[u8], ElfError>)] = &[
    (1, 0, 1, Ok(b".strtab")),
    (1, 0, 2, Ok(b"strtab")),
    (1, 0, 8, Ok(b"")),
    (1, 0, 12, Err(ElfError::TextEnd)),
    (1, 0, 13, Err(ElfError::TextStart)),
    (0xffff, 1, 1, Ok(b".strtab")),
    (0xffff, 0xffff, 1, Err(ElfError::ShortSectionHeader)),
    (0xff00, 1, 1, Err(ElfError::ReservedIndex)),
    (0xfffe, 1, 1, Err(ElfError::ReservedIndex)),
    (3, 0, 1, Err(ElfError::ShortSectionHeader)),
];

#[test]
fn sections_are_named_by_the_wide_index(rt: HostRuntime) -> Result<(), ElfError> {
    for &(index, link, name, wanted) in NAMED {
        let mut bytes = strtab_file(LITTLE);
        set(&mut bytes, 0, header_32::SH_STR_INDEX, index, LITTLE);
        set(&mut bytes, 52, section_32::LINK, link, LITTLE);
        set(&mut bytes, 92, section_32::NAME, name, LITTLE);
        let file = open(&rt, &bytes);
        let section = file.section_header(1)?;
        let found = file.section_name(&section);
        want_at(&rt, (index, link, name), found, wanted);
    }
    Ok(())
}

#[test]
fn no_names_past_the_end(rt: HostRuntime) -> Result<(), ElfError> {
    for (offset, wanted) in [
        (132, Ok(b".strtab".as_slice())),
        (143, Err(ElfError::TextEnd)),
        (144, Err(ElfError::TextStart)),
        (145, Err(ElfError::ShortSectionOffset)),
    ] {
        let mut bytes = strtab_file(LITTLE);
        set(&mut bytes, 92, section_32::OFFSET, offset, LITTLE);
        let file = open(&rt, &bytes);
        let section = file.section_header(1)?;
        want_at(&rt, offset, file.section_name(&section), wanted);
    }
    Ok(())
}

#[test]
fn names_of_symbols_need_not_be_utf8(rt: HostRuntime) -> Result<(), ElfError> {
    let bytes = file_of_bytes();
    let file = open(&rt, &bytes);
    let mut symbols = [0; 72];
    set(&mut symbols, 24, symbol_64::NAME, 9, LITTLE);
    set(&mut symbols, 48, symbol_64::NAME, 13, LITTLE);
    let table = SymbolTable::new(Table::<Entry64>::new(&symbols, LITTLE)?, &file);
    want(&rt, table.name(1), Some(Err(ElfError::TextUtf8)));
    want(&rt, table.name_bytes(1), Some(Ok(b"\xffb".as_slice())));
    want(&rt, table.name_bytes(0), Some(Ok(b"".as_slice())));
    want(&rt, table.name_bytes(2), Some(Err(ElfError::TextStart)));
    want(&rt, table.name_bytes(3), None);
    Ok(())
}

// Strings, and the texts at 1 and at 9 there.
const STRINGS: &[(&[u8], Result<&str, ElfError>, Result<&str, ElfError>)] = &[
    (b"\0own\0\0\0\0\0zz\0", Ok("own"), Ok("zz")),
    (b"\0.dynstr\0cd\0", Ok(".dynstr"), Ok("cd")),
    (b"\0own", Err(ElfError::TextEnd), Err(ElfError::TextStart)),
    (b"", Err(ElfError::TextStart), Err(ElfError::TextStart)),
];

// Wants this name of a symbol of a table, and its bytes.
fn check_name<E: Entry + Record>(
    rt: &impl Abort,
    symbols: &SymbolTable<'_, E>,
    index: usize,
    name: Result<&str, ElfError>,
) {
    want_at(rt, index, symbols.name(index), Some(name));
    let bytes = name.map(|text| text.as_bytes());
    want_at(rt, index, symbols.name_bytes(index), Some(bytes));
}

// Wants the names of two symbols in each of these strings.
fn check_strings<E: Entry + Record>(rt: &impl Abort, table: Table<'_, E>) {
    for &(strings, first, second) in STRINGS {
        let symbols = SymbolTable::with_strings(table, strings);
        check_name(rt, &symbols, 0, first);
        check_name(rt, &symbols, 1, second);
    }
}

// The file has `.dynstr`, and no `.strtab`: the strings of a table are those that it was made with.
#[test]
fn a_table_names_symbols_by_its_own_strings(rt: HostRuntime) -> Result<(), ElfError> {
    let bytes = dynstr_file(LITTLE);
    let file = open(&rt, &bytes);
    let mut symbols = [0; 32];
    set(&mut symbols, 0, symbol_32::NAME, 1, LITTLE);
    set(&mut symbols, 16, symbol_32::NAME, 9, LITTLE);
    let table = Table::<DynEntry32>::new(&symbols, LITTLE)?;
    let in_file = SymbolTable::new(table, &file);
    check_name(&rt, &in_file, 0, Ok(".dynstr"));
    check_name(&rt, &in_file, 1, Ok("ab"));
    check_strings(&rt, table);
    let table = Table::<Entry32>::new(&symbols, LITTLE)?;
    let in_file = SymbolTable::new(table, &file);
    check_name(&rt, &in_file, 0, Err(ElfError::NoStrtab));
    check_name(&rt, &in_file, 1, Err(ElfError::NoStrtab));
    check_strings(&rt, table);
    Ok(())
}
