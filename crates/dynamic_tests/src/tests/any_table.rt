//! Look-ups in a table of each kind: by a name alone, and by a test that knows the index of a symbol.

use crate::tests::want::{open, want, want_at};
use elf_base::ElfError;
use elf_base::bytes::{Order, Table};
use elf_base::header::Class;
use elf_linking::gnu_hash::GnuHashTable;
use elf_linking::{AnyTable, LinkError};
use linking_callers::callers::finds_all;
use std::process::Abort;
use worked_files::files::{put_symbol, put_words, strtab_file};
use worked_files::rows;
use xmas_elf::hash::HashTable;
use xmas_elf::symbol_table::{Entry, Entry32, SymbolTable};

const LITTLE: Order = Order::Little;

// A symbol without a name, and two symbols `ab` of this section with this value.
fn symbol_bytes(shndx: u64, value: u64) -> [u8; 48] {
    let mut bytes = [0; 48];
    for start in [16, 32] {
        put_symbol(&mut bytes, 1, start, [9, 0x12, shndx, value, 0], LITTLE);
    }
    bytes
}

// The words of a GNU table and of one of the standard, over these symbols.
const GNU: &[u32] = &[1, 1, 1, 5, 0x200_0100, 1, 0x0059_7728, 0x0059_7729];

const SYSV: &[u32] = &[1, 3, 1, 0, 2, 0];

// Those over the first symbol `ab` alone.
const GNU_ONE: &[u32] = &[1, 1, 1, 5, 0x200_0100, 1, 0x0059_7729];

const SYSV_ONE: &[u32] = &[1, 2, 1, 0, 0];

// The same without a symbol in their bucket.
const GNU_NONE: &[u32] = &[1, 1, 1, 5, 0x200_0100, 0, 0x0059_7729];

const SYSV_NONE: &[u32] = &[1, 2, 0, 0, 0];

// The index that the test passes, and that of the symbol found.
const ROWS: &[(u32, Option<u32>)] = &[(0, None), (1, Some(1)), (2, Some(2)), (3, None)];

fn check_rows(rt: &impl Abort, table: &AnyTable<'_>, symbols: &SymbolTable<'_, Entry32>) {
    for &(passed, wanted) in ROWS {
        let found = table.lookup_where("ab", symbols, |index, _| index == passed);
        let index = found.map(|found| found.map(|symbol| symbol.0));
        want_at(rt, passed, index, Ok(wanted));
    }
}

// The value of a name by a table.
fn value_of(
    table: &AnyTable<'_>,
    name: &str,
    symbols: &SymbolTable<'_, Entry32>,
) -> Result<Option<u64>, LinkError> {
    let found = table.defined_symbol(name, symbols)?;
    Ok(found.map(|(_index, symbol)| symbol.value()))
}

// Wants the value of the one name, and that none is found by another.
fn check_values(rt: &impl Abort, table: &AnyTable<'_>, symbols: &SymbolTable<'_, Entry32>) {
    want(rt, value_of(table, "ab", symbols), Ok(Some(7)));
    want(rt, value_of(table, "zz", symbols), Ok(None));
}

// The bytes of at most eight words, and zeros.
fn bytes_of(words: &[u32]) -> [u8; 32] {
    let mut bytes = [0; 32];
    put_words(&mut bytes, 0, words);
    bytes
}

// The table in the first bytes: GNU's, or that of the standard.
fn table_in<'a>(bytes: &'a [u8], words: &[u32], is_gnu: bool) -> Result<AnyTable<'a>, LinkError> {
    let bytes = bytes.get(..words.len().wrapping_mul(4)).unwrap_or(&[]);
    Ok(if is_gnu {
        AnyTable::Gnu(GnuHashTable::read(bytes, Class::ThirtyTwo, LITTLE)?)
    } else {
        AnyTable::Sysv(HashTable::read(bytes, LITTLE)?)
    })
}

#[test]
fn picks_a_symbol_by_its_index(rt: HostRuntime) -> Result<(), LinkError> {
    let file = strtab_file(LITTLE);
    let file = open(&rt, &file);
    let bytes = symbol_bytes(0, 0);
    let symbols = SymbolTable::new(Table::<Entry32>::new(&bytes, LITTLE)?, &file);
    for (words, is_gnu) in [(GNU, true), (SYSV, false)] {
        let bytes = bytes_of(words);
        check_rows(&rt, &table_in(&bytes, words, is_gnu)?, &symbols);
    }
    Ok(())
}

// The words of a table, of the same without a symbol in its bucket, and the error of that.
const ONE_SYMBOL: &[(bool, &[u32], &[u32], LinkError)] = rows! {
    true, GNU_ONE, GNU_NONE, LinkError::Missing;
    false, SYSV_ONE, SYSV_NONE, LinkError::Elf(ElfError::HashMissing);
};

#[test]
fn finds_values_by_each_table(rt: HostRuntime) -> Result<(), LinkError> {
    let file = strtab_file(LITTLE);
    let file = open(&rt, &file);
    let bytes = symbol_bytes(1, 7);
    let table = Table::<Entry32>::new(bytes.get(..32).unwrap_or(&[]), LITTLE)?;
    let symbols = SymbolTable::new(table, &file);
    for &(is_gnu, words, without, error) in ONE_SYMBOL {
        let bytes = bytes_of(words);
        check_values(&rt, &table_in(&bytes, words, is_gnu)?, &symbols);
        let bytes = bytes_of(without);
        let damaged = table_in(&bytes, without, is_gnu)?;
        want(&rt, value_of(&damaged, "ab", &symbols), Err(error));
    }
    Ok(())
}

#[test]
fn the_caller_tells_whether_look_ups_find_all(rt: HostRuntime) -> Result<(), LinkError> {
    let file = strtab_file(LITTLE);
    let file = open(&rt, &file);
    let bytes = symbol_bytes(1, 7);
    let symbols = Table::<Entry32>::new(bytes.get(..32).unwrap_or(&[]), LITTLE)?;
    for (words, finds) in [(GNU_ONE, true), (GNU_NONE, false)] {
        let bytes = bytes_of(words);
        let bytes = bytes.get(..28).unwrap_or(&[]);
        let table = GnuHashTable::read(bytes, Class::ThirtyTwo, LITTLE)?;
        want(&rt, finds_all(&table, &symbols, &file), finds);
    }
    Ok(())
}
