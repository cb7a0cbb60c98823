//! Shared objects as a compiler and a linker make them: their GNU hash tables are good, and a
//! look-up finds each exported name where `readelf` says that it is.

use crate::tests::want::{open, want, want_at};
use elf_base::bytes::{Order, Record, Table};
use elf_base::header::Class;
use elf_linking::LinkError;
use elf_linking::gnu_hash::GnuHashTable;
use std::process::Abort;
use worked_files::linked::exported::{GNU_NARROW, GNU_WIDE};
use worked_files::places::put;
use xmas_elf::ElfFile;
use xmas_elf::sections::SectionData;
use xmas_elf::symbol_table::{Entry, SymbolTable};

/// The exported names, in the order of the symbols from index 2 on; symbol 1,
/// `outer`, is undefined.
pub const NAMES: [&str; 7] = [
    "third", "fifth", "fourth", "sixth", "first", "second", "seventh",
];

// The values that `readelf --dyn-syms` shows of them, of class 32 and of class 64.
pub const NARROW_VALUES: [u64; 7] = [0x2c8, 0x201, 0x238, 0x207, 0x1f0, 0x1f6, 0x212];

pub const WIDE_VALUES: [u64; 7] = [0x3e0, 0x2ba, 0x2cb, 0x2c0, 0x2b0, 0x2b6, 0x2c6];

// The look-up by a symbol table that carries its names.
fn look_up_in<E: Entry + Record>(
    table: &GnuHashTable<'_>,
    name: &str,
    symbols: &Table<'_, E>,
    file: &ElfFile<'_>,
) -> Result<Option<(u32, E)>, LinkError> {
    table.lookup_in(name, &SymbolTable::new(*symbols, file), |_| true)
}

// Whether each exported name is at its index with its value, also by a string table taken once.
fn finds_each<E: Entry + Record>(
    table: &GnuHashTable<'_>,
    symbols: &Table<'_, E>,
    file: &ElfFile<'_>,
    values: [u64; 7],
) -> bool {
    for (k, (name, value)) in NAMES.iter().zip(values).enumerate() {
        let found = table.lookup(name, symbols, file, |_| true);
        let again = look_up_in(table, name, symbols, file);
        match (found, again) {
            (Ok(Some((index, symbol))), Ok(Some((same, _))))
                if index as usize == k.wrapping_add(2)
                    && same == index
                    && symbol.value() == value => {}
            _ => return false,
        }
    }
    true
}

// Wants each exported name and no other of the table, and of the table with any one byte changed
// each exported name or a failure.
fn check_table<E: Entry + Record>(
    rt: &impl Abort,
    bytes: &[u8],
    class: Class,
    symbols: &Table<'_, E>,
    file: &ElfFile<'_>,
    values: [u64; 7],
) -> Result<(), LinkError> {
    let table = GnuHashTable::read(bytes, class, Order::Little)?;
    want(rt, table.first_symbol(), 2);
    want(rt, table.check(symbols, file), Ok(()));
    want(rt, finds_each(&table, symbols, file, values), true);
    for name in ["inner", "", "firs", "first2", "outer"] {
        let found = table.lookup(name, symbols, file, |_| true)?;
        want_at(rt, name, found.is_none(), true);
    }
    for place in 0..bytes.len() {
        for change in 1u8..=255 {
            let mut changed = [0; 64];
            put(&mut changed, 0, bytes);
            if let Some(byte) = changed.get_mut(place) {
                *byte ^= change;
            }
            let changed = changed.get(..bytes.len()).unwrap_or(&[]);
            let found = match GnuHashTable::read(changed, class, Order::Little) {
                Ok(table) => {
                    table.check(symbols, file).is_err() || finds_each(&table, symbols, file, values)
                }
                Err(_) => true,
            };
            want_at(rt, (place, change), found, true);
        }
    }
    Ok(())
}

#[test]
fn finds_what_shared_objects_export(rt: HostRuntime) -> Result<(), LinkError> {
    let inputs: [&[u8]; 2] = [GNU_NARROW, GNU_WIDE];
    for input in inputs {
        let file = open(&rt, input);
        let hash = file.section_header(1)?.raw_data(&file)?;
        want(&rt, hash.len() <= 64, true);
        match file.section_header(2)?.get_data(&file)? {
            SectionData::DynSymbolTable32(symbols) => {
                check_table(&rt, hash, Class::ThirtyTwo, &symbols, &file, NARROW_VALUES)?
            }
            SectionData::DynSymbolTable64(symbols) => {
                check_table(&rt, hash, Class::SixtyFour, &symbols, &file, WIDE_VALUES)?
            }
            _ => assert!(rt; false),
        }
    }
    Ok(())
}
