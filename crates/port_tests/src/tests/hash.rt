//! The hash numbers of names; and what a look-up finds is the whole symbol, also of a type of one's
//! own.
//!
//! Which symbol is found, and what a check says, is in the rows of `elfanswers`, `hash_tables.rows`.

use crate::tests::want::{want, want_at};
use elf_callers::own::Numbered;
use std::test::Fail;
use worked_files::files::{put_symbols, put_words, strtab_file};
use worked_files::rows;
use xmas_elf::ElfFile;
use xmas_elf::bytes::{Order, Table};
use xmas_elf::hash::{HashTable, hash};
use xmas_elf::symbol_table::{Entry, Entry32};

const LITTLE: Order = Order::Little;

const NAMES: &[(&str, u32)] = rows! {
    "", 0; "printf", 0x077905a6; "exit", 0x0006cf04; "syscall", 0x0b09985c;
    "flapenguin.me", 0x03987915; "ZZZZZW9p", 0;
};

#[test]
fn hash_numbers_are_the_known_ones(rt: HostRuntime) {
    for &(name, number) in NAMES {
        want_at(&rt, name, hash(name), number);
    }
}

#[test]
fn finds_the_symbol(rt: HostRuntime) -> Result<(), Fail> {
    let bytes = strtab_file(LITTLE);
    let file = ElfFile::new(&bytes)?;
    let mut words = [0; 20];
    put_words(&mut words, 0, &[1, 2, 1, 0, 0]);
    let mut symbols = [0; 32];
    put_symbols(&mut symbols, 0, &[(0, 0), (9, 0x12)]);
    let table = HashTable::read(&words, LITTLE)?;
    let symbols = Table::<Entry32>::new(&symbols, LITTLE)?;
    let Some((index, symbol)) = table.lookup("ab", &symbols, &file, |_| true)? else {
        return Err(Fail::from("no symbol"));
    };
    want(&rt, (index, symbol.name(), symbol.info()), (1, 9, 0x12));
    want(&rt, symbol.get_name(&file), Ok("ab"));
    Ok(())
}

// A symbol type that names its symbols itself.
#[test]
fn looks_up_symbols_of_ones_own(rt: HostRuntime) -> Result<(), Fail> {
    let bytes = strtab_file(LITTLE);
    let file = ElfFile::new(&bytes)?;
    let mut words = [0; 28];
    put_words(&mut words, 0, &[1, 4, 1, 0, 2, 3, 0]);
    let mut numbers = [0; 16];
    put_words(&mut numbers, 0, &[0, 1, 2, 3]);
    let table = HashTable::read(&words, LITTLE)?;
    let symbols = Table::<Numbered>::new(&numbers, LITTLE)?;
    let (answer, number) = table.lookup_counted("zz", &symbols, &file, |_| true);
    let found = answer?.map(|symbol| (symbol.0, symbol.1.value()));
    want(&rt, (number, found), (2, Some((2, 2))));
    want(&rt, table.check(&symbols, &file), Ok(()));
    Ok(())
}
