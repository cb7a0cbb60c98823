//! The symbol table of a file, by its section headers.

use crate::tests::files::{NAMES, symbols_file};
use crate::tests::want::want_at;
use elf_addresses::{symbol_at, symtab_at, symtab_index};
use std::test::Fail;
use worked_files::files::strtab_file;
use worked_files::places::{Place, section_64, set};
use xmas_elf::bytes::Order;
use xmas_elf::symbol_table::{Entry32, Entry64};
use xmas_elf::{ElfError, ElfFile};

const LITTLE: Order = Order::Little;

// Where the headers of the symbol table and of the section after it begin.
const TABLE: usize = 192;

const AFTER: usize = 256;

// The file of symbols, whose table is linked to its names.
fn linked_file() -> [u8; 583] {
    let mut file = symbols_file();
    set(&mut file, TABLE, section_64::LINK, 1, LITTLE);
    file
}

#[test]
fn is_read_with_its_names(rt: HostRuntime) -> Result<(), Fail> {
    let bytes = linked_file();
    let file = ElfFile::new(&bytes)?;
    want_at(&rt, "index", symtab_index(&file), Some(2));
    let symbols = symtab_at::<Entry64>(&file, 2)?;
    want_at(&rt, "symbols", symbols.table.len(), 2);
    want_at(&rt, "names", symbols.strings, NAMES);
    want_at(&rt, "indices", symbols.indices.len(), 0);
    let found = symbol_at(&symbols, 0x1012, None).map(|at| (at.index, at.offset));
    want_at(&rt, "symbol", found, Some((1, 2)));
    Ok(())
}

#[test]
fn is_the_first_of_its_type(rt: HostRuntime) -> Result<(), Fail> {
    let mut bytes = linked_file();
    set(&mut bytes, AFTER, section_64::TYPE, 2, LITTLE);
    want_at(&rt, "two", symtab_index(&ElfFile::new(&bytes)?), Some(2));
    set(&mut bytes, TABLE, section_64::TYPE, 11, LITTLE);
    want_at(&rt, "second", symtab_index(&ElfFile::new(&bytes)?), Some(3));
    let bytes = strtab_file(LITTLE);
    want_at(&rt, "none", symtab_index(&ElfFile::new(&bytes)?), None);
    Ok(())
}

// A field of the symbol table's header, and the error with this value.
const FAILED: &[(Place, u64, ElfError)] = &[
    (section_64::SIZE, 47, ElfError::NotMultiple),
    (section_64::OFFSET, 536, ElfError::DataRange),
    (section_64::LINK, 9, ElfError::ShortSectionHeader),
];

#[test]
fn errors(rt: HostRuntime) -> Result<(), Fail> {
    for &(field, value, error) in FAILED {
        let mut bytes = linked_file();
        set(&mut bytes, TABLE, field, value, LITTLE);
        let file = ElfFile::new(&bytes)?;
        let found = symtab_at::<Entry64>(&file, 2).err();
        want_at(&rt, value, found, Some(error));
    }
    let bytes = linked_file();
    let found = symtab_at::<Entry64>(&ElfFile::new(&bytes)?, 9).err();
    want_at(&rt, "no header", found, Some(ElfError::ShortSectionHeader));
    Ok(())
}

// The link and the size of a section of section indices, and how many belong to the table.
const INDICES: &[(u64, u64, usize)] = &[(2, 8, 2), (2, 7, 0), (1, 8, 0), (2, 0, 0)];

#[test]
fn section_indices_belong_to_it(rt: HostRuntime) -> Result<(), Fail> {
    for &(link, size, count) in INDICES {
        let mut bytes = linked_file();
        set(&mut bytes, AFTER, section_64::TYPE, 18, LITTLE);
        set(&mut bytes, AFTER, section_64::LINK, link, LITTLE);
        set(&mut bytes, AFTER, section_64::OFFSET, 512, LITTLE);
        set(&mut bytes, AFTER, section_64::SIZE, size, LITTLE);
        let symbols = symtab_at::<Entry64>(&ElfFile::new(&bytes)?, 2)?;
        want_at(&rt, (link, size), symbols.indices.len(), count);
    }
    Ok(())
}

// 48 bytes are three symbols of class 32.
#[test]
fn is_of_the_class_that_is_asked_for(rt: HostRuntime) -> Result<(), Fail> {
    let bytes = linked_file();
    let symbols = symtab_at::<Entry32>(&ElfFile::new(&bytes)?, 2)?;
    want_at(&rt, "symbols", symbols.table.len(), 3);
    Ok(())
}
