//! Shared objects as a compiler and a linker make them: their hash tables are good, and a look-up
//! finds each exported name where `readelf` says that it is.

use crate::tests::want::{open, want, want_at};
use elf_callers::callers::hash::value_in_bytes;
use std::process::Abort;
use worked_files::linked::exported::{SYSV_NARROW, SYSV_WIDE};
use worked_files::reports::report_ends_with;
use worked_files::rows;
use xmas_elf::bytes::{Record, Table};
use xmas_elf::hash::HashTable;
use xmas_elf::sections::SectionData;
use xmas_elf::symbol_table::{Entry, SymbolTable};
use xmas_elf::{ElfError, ElfFile};

// The exported names, in the order of the symbols from index 1 on, and the values that
// `readelf --dyn-syms` shows of them, of class 32 and of class 64.
const EXPORTS: &[(u32, &str, u64, u64)] = rows! {
    1, "fifth", 0x18c, 0x229; 2, "fourth", 0x1a0, 0x235; 3, "sixth", 0x192, 0x22f;
    4, "second", 0x181, 0x225; 5, "third", 0x208, 0x2f0; 6, "first", 0x17b, 0x21f;
};

// Names that none of them has.
const OTHERS: &[&str] = &["inner", "", "firs", "first2"];

// What both look-ups of a name find: the index and the value.
type Found = Result<Option<(u32, u64)>, ElfError>;

fn look_up<E: Entry + Record>(
    table: &HashTable<'_>,
    name: &str,
    symbols: &Table<'_, E>,
    file: &ElfFile<'_>,
) -> (Found, Found) {
    let found = table.lookup(name, symbols, file, |_| true);
    let in_names = table.lookup_in(name, &SymbolTable::new(*symbols, file), |_| true);
    (
        found.map(|found| found.map(|(index, symbol)| (index, symbol.value()))),
        in_names.map(|found| found.map(|(index, symbol)| (index, symbol.value()))),
    )
}

// Wants a good table of seven symbols, each exported name at its index with its value, and no other
// name.
fn check_linked<E: Entry + Record>(
    rt: &impl Abort,
    file: &ElfFile<'_>,
    symbols: Table<'_, E>,
    is_wide: bool,
) -> Result<(), ElfError> {
    let SectionData::HashTable(table) = file.section_header(1)?.get_data(file)? else {
        return Ok(assert!(rt; false));
    };
    want(rt, table.check(&symbols, file), Ok(()));
    let named = SymbolTable::new(symbols, file);
    want(rt, (named.name(7), named.iter().count()), (None, 7));
    for &(index, name, narrow, wide) in EXPORTS {
        let wanted = Ok(Some((index, if is_wide { wide } else { narrow })));
        let found = look_up(&table, name, &symbols, file);
        want_at(rt, name, found, (wanted, wanted));
        want_at(rt, name, named.name(index as usize), Some(Ok(name)));
    }
    for &name in OTHERS {
        let found = look_up(&table, name, &symbols, file);
        want_at(rt, name, found, (Ok(None), Ok(None)));
    }
    Ok(())
}

fn check_object(rt: &impl Abort, input: &[u8]) -> Result<(), ElfError> {
    let file = open(rt, input);
    match file.section_header(2)?.get_data(&file)? {
        SectionData::DynSymbolTable32(symbols) => check_linked(rt, &file, symbols, false),
        SectionData::DynSymbolTable64(symbols) => check_linked(rt, &file, symbols, true),
        _ => Ok(assert!(rt; false)),
    }
}

#[test]
fn finds_what_shared_objects_export(rt: HostRuntime) -> Result<(), ElfError> {
    check_object(&rt, SYSV_NARROW)?;
    check_object(&rt, SYSV_WIDE)
}

// The whole way from the bytes and a name, as a model of a dynamic linker goes it.
#[test]
fn goes_from_bytes_and_a_name_to_a_value(rt: HostRuntime) {
    for &(_index, name, _narrow, value) in EXPORTS {
        want_at(&rt, name, value_in_bytes(SYSV_WIDE, name), Ok(Some(value)));
    }
    want(&rt, value_in_bytes(SYSV_WIDE, "inner"), Ok(None));
    // without the last header, that of the names, no section is found by its name
    let cut = value_in_bytes(&SYSV_WIDE[..1471], "first");
    want(&rt, cut, Err(ElfError::ShortData));
}

#[test]
fn reports_good_hash_tables(rt: HostRuntime) {
    let end = "\nhash: ok\n";
    want(&rt, report_ends_with(rt.alloc(), SYSV_NARROW, end), true);
    want(&rt, report_ends_with(rt.alloc(), SYSV_WIDE, end), true);
}
