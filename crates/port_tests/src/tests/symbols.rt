//! Callers that name symbols, symbols of one's own, and printed forms.
//!
//! Numbers, meanings and names are in the rows of `elfanswers`, `symbols.rows`.

use crate::tests::want::{open, want, want_at};
use elf_callers::callers::symbols::{first_name, name_at, name_bytes, name_in, value_at};
use elf_callers::own::Numbered;
use std::alloc::Global;
use std::fmt::Display;
use std::process::Abort;
use std::string::ToString;
use std::test::Fail;
use worked_files::files::{dynstr_file, strtab_file};
use worked_files::places::{set, symbol_32, symbol_64};
use xmas_elf::bytes::{Order, Record, Table};
use xmas_elf::symbol_table::{
    Binding, DynEntry32, DynEntry64, Entry, Entry32, Entry64, SymbolTable,
};
use xmas_elf::{ElfError, ElfFile};

const LITTLE: Order = Order::Little;

/// The first symbol in some bytes.
pub fn symbol<E: Record>(bytes: &[u8], order: Order) -> Result<E, ElfError> {
    Table::<E>::new(bytes, order)?
        .get(0)
        .ok_or(ElfError::SymbolIndex)
}

// Symbols of both classes with this name.
fn narrow_bytes(name: u64) -> [u8; 16] {
    let mut bytes = [0; 16];
    set(&mut bytes, 0, symbol_32::NAME, name, LITTLE);
    bytes
}

fn wide_bytes(name: u64) -> [u8; 24] {
    let mut bytes = [0; 24];
    set(&mut bytes, 0, symbol_64::NAME, name, LITTLE);
    bytes
}

// The names at places of `.strtab` and of `.dynstr`.
const NAMES: &[(u64, Result<&str, ElfError>)] = &[
    (0, Ok("")),
    (9, Ok("ab")),
    (12, Err(ElfError::TextEnd)),
    (13, Err(ElfError::TextStart)),
];

// The name of a symbol by the string table that is taken once for many.
fn name_of_any<'a, E: Entry>(symbol: &E, file: &ElfFile<'a>) -> Result<&'a str, ElfError> {
    let strings = E::string_table(file);
    symbol.name_in(strings, file)
}

// Wants this name of symbols that are called by `.strtab`.
fn check_names(
    rt: &impl Abort,
    file: &ElfFile<'_>,
    place: u64,
    name: Result<&str, ElfError>,
) -> Result<(), ElfError> {
    let narrow = symbol::<Entry32>(&narrow_bytes(place), LITTLE)?;
    let bytes = wide_bytes(place);
    let wide = symbol::<Entry64>(&bytes, LITTLE)?;
    want_at(rt, place, name_of_any(&narrow, file), name);
    want_at(rt, place, wide.get_name(file), name);
    want_at(rt, place, name_of_any(&wide, file), name);
    want_at(rt, place, first_name(file.input, &bytes, LITTLE), name);
    Ok(())
}

// The same of dynamic symbols and `.dynstr`.
fn check_dynamic_names(
    rt: &impl Abort,
    file: &ElfFile<'_>,
    place: u64,
    name: Result<&str, ElfError>,
) -> Result<(), ElfError> {
    let narrow = symbol::<DynEntry32>(&narrow_bytes(place), LITTLE)?;
    let wide = symbol::<DynEntry64>(&wide_bytes(place), LITTLE)?;
    want_at(rt, place, narrow.get_name(file), name);
    want_at(rt, place, name_of_any(&narrow, file), name);
    want_at(rt, place, name_of_any(&wide, file), name);
    Ok(())
}

#[test]
fn callers_name_symbols(rt: HostRuntime) -> Result<(), ElfError> {
    let (strtab, dynstr) = (strtab_file(LITTLE), dynstr_file(LITTLE));
    let (file, dyn_file) = (open(&rt, &strtab), open(&rt, &dynstr));
    for &(place, name) in NAMES {
        check_names(&rt, &file, place, name)?;
        check_dynamic_names(&rt, &dyn_file, place, name)?;
    }
    let wide = symbol::<DynEntry64>(&wide_bytes(0), LITTLE)?;
    let failed = name_of_any(&wide, &file).err();
    want(&rt, failed, Some(ElfError::NoDynstr));
    Ok(())
}

#[test]
fn callers_read_bytes(rt: HostRuntime) -> Result<(), ElfError> {
    let mut bytes = wide_bytes(5);
    set(&mut bytes, 0, symbol_64::VALUE, 7, LITTLE);
    let table = Table::<Entry64>::new(&bytes, LITTLE)?;
    let values = [value_at(&table, 0), value_at(&table, 1)];
    want(&rt, values, [Some(7), None]);
    let first = symbol::<Entry64>(&bytes, LITTLE)?;
    want(&rt, name_in(b"\0s.c\0start\0", &first), Ok("start"));
    let by_strings = name_at(table, b"\0s.c\0start\0", 0);
    want(&rt, by_strings, Some(Ok("start")));
    want(&rt, name_at(table, b"\0s.c\0start\0", 1), None);
    Ok(())
}

#[test]
fn symbols_of_ones_own_need_no_string_table(rt: HostRuntime) {
    let bytes = strtab_file(LITTLE);
    let file = open(&rt, &bytes);
    want(&rt, Numbered::string_table(&file).is_none(), true);
    want(&rt, name_of_any(&Numbered { number: 1 }, &file), Ok("ab"));
    let failed = name_of_any(&Numbered { number: 3 }, &file);
    want(&rt, failed, Err(ElfError::TextEnd));
}

#[test]
fn the_fast_way_sums_up_names(rt: HostRuntime) -> Result<(), Fail> {
    let bytes = strtab_file(LITTLE);
    let file = open(&rt, &bytes);
    let mut symbols = [0; 72];
    set(&mut symbols, 24, symbol_64::NAME, 9, LITTLE);
    set(&mut symbols, 48, symbol_64::NAME, 1, LITTLE);
    let table = Table::<Entry64>::new(&symbols, LITTLE)?;
    want(&rt, name_bytes(&file, table), Ok(9));
    Ok(())
}

const PRINTED: &str = "Symbol table entry:
    name:             9
    binding:          Ok(Global)
    type:             Ok(Func)
    other:            Default
    shndx:            0
    value:            0
    size:             0
";

const PRINTED_FAILED: &str = "Symbol table entry:
    name:             9
    binding:          Err(\"Invalid value for binding\")
    type:             Err(\"Invalid value for type\")
    other:            Protected
    shndx:            4
    value:            5
    size:             6
";

// Wants this printed form of a symbol.
fn check_printed<E: Record + Display>(
    rt: &impl Abort,
    alloc: Global,
    bytes: &[u8],
    wanted: &str,
) -> Result<(), Fail> {
    let text = symbol::<E>(bytes, LITTLE)?.to_string(alloc)?;
    want(rt, text.as_str(), wanted);
    Ok(())
}

#[test]
fn prints_symbols(rt: HostRuntime) -> Result<(), Fail> {
    let mut narrow = narrow_bytes(9);
    set(&mut narrow, 0, symbol_32::INFO, 0x12, LITTLE);
    check_printed::<Entry32>(&rt, rt.alloc(), &narrow, PRINTED)?;
    check_printed::<DynEntry32>(&rt, rt.alloc(), &narrow, PRINTED)?;
    let mut wide = wide_bytes(9);
    set(&mut wide, 0, symbol_64::INFO, 0x12, LITTLE);
    check_printed::<Entry64>(&rt, rt.alloc(), &wide, PRINTED)
}

#[test]
fn prints_symbols_with_errors(rt: HostRuntime) -> Result<(), Fail> {
    let mut wide = wide_bytes(9);
    set(&mut wide, 0, symbol_64::INFO, 0x37, LITTLE);
    set(&mut wide, 0, symbol_64::OTHER, 3, LITTLE);
    set(&mut wide, 0, symbol_64::SHNDX, 4, LITTLE);
    set(&mut wide, 0, symbol_64::VALUE, 5, LITTLE);
    set(&mut wide, 0, symbol_64::SIZE, 6, LITTLE);
    check_printed::<DynEntry64>(&rt, rt.alloc(), &wide, PRINTED_FAILED)
}

// Wants this name of a symbol that has only a number, which is its value.
fn check_own(rt: &impl Abort, symbol: &Numbered, file: &ElfFile<'_>, name: Result<&str, ElfError>) {
    want(rt, symbol.get_name(file), name);
    want(rt, symbol.get_binding(), Ok(Binding::Global));
    want(rt, symbol.value(), u64::from(symbol.number));
    let section = symbol.get_section_header(file, 1).err();
    want(rt, section, Some(ElfError::ReservedSymbolIndex));
}

const OWN: &[u8; 12] = b"\0\0\0\x01\0\0\0\x02\0\0\0\x03";

const OWN_NAMES: &[Result<&str, ElfError>] = &[Ok("ab"), Ok("zz"), Err(ElfError::TextEnd)];

#[test]
fn reads_symbols_of_ones_own(rt: HostRuntime) -> Result<(), ElfError> {
    let bytes = strtab_file(LITTLE);
    let file = open(&rt, &bytes);
    let table = Table::<Numbered>::new(OWN, Order::Big)?;
    want(&rt, table.len(), 3);
    for (index, &name) in OWN_NAMES.iter().enumerate() {
        let symbol = table.get(index).ok_or(ElfError::SymbolIndex)?;
        check_own(&rt, &symbol, &file, name);
    }
    Ok(())
}

// The name of a symbol of a table by the file.
fn name_by_file<'a, E: Entry + Record>(
    table: Table<'a, E>,
    file: &ElfFile<'a>,
    index: usize,
) -> Option<Result<&'a str, ElfError>> {
    SymbolTable::new(table, file).name(index)
}

// The same in these strings.
fn name_by_strings<'a, E: Entry + Record>(
    table: Table<'a, E>,
    strings: &'a [u8],
    index: usize,
) -> Option<Result<&'a str, ElfError>> {
    SymbolTable::with_strings(table, strings).name(index)
}

// Their names are in no string table of the file; in strings each has the name at 0.
#[test]
fn a_table_names_symbols_of_ones_own(rt: HostRuntime) -> Result<(), ElfError> {
    let bytes = strtab_file(LITTLE);
    let file = open(&rt, &bytes);
    let own = *OWN;
    let table = Table::<Numbered>::new(&own, Order::Big)?;
    for (index, &name) in OWN_NAMES.iter().enumerate() {
        want_at(&rt, index, name_by_file(table, &file, index), Some(name));
        let by_strings = name_by_strings(table, b"one\0two\0", index);
        want_at(&rt, index, by_strings, Some(Ok("one")));
    }
    want(&rt, name_by_file(table, &file, 3), None);
    want(&rt, name_by_strings(table, b"one\0two\0", 3), None);
    Ok(())
}
