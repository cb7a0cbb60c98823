//! The symbols of a program that has none for other files: what `readelf -W -s` and `readelf -W -D
//! -s` show of it. Its GNU hash table is empty, so that only its relocations tell how many dynamic
//! symbols there are.

use crate::tests::want::{open, want, want_at};
use elf_base::ElfError;
use elf_linking::view::DynamicView;
use elf_linking::{DynamicObject, FileSymbols, LinkError};
use std::process::Abort;
use worked_files::linked::importer::IMPORTER;
use worked_files::linked::small::SMALL;
use worked_files::linked::versions::{NARROW, WIDE};
use worked_files::places::put;
use worked_files::rows;
use xmas_elf::symbol_table::{DynEntry64, Entry};

// Files whose hash tables count all symbols, and how many there are.
const COUNTED_WHOLE: &[(&[u8], u64)] = &[(SMALL, 5), (NARROW, 7), (WIDE, 7)];

#[test]
fn counts_the_symbols_that_relocations_name(rt: HostRuntime) -> Result<(), LinkError> {
    let file = open(&rt, IMPORTER);
    let view = DynamicView::read(&file)?;
    want(&rt, view.symbol_count(&file), Ok(1));
    want(&rt, view.reached_count(&file), Ok(3));
    for &(bytes, count) in COUNTED_WHOLE {
        let file = open(&rt, bytes);
        let found = DynamicView::read(&file)?.reached_count(&file);
        want(&rt, found, Ok(count));
    }
    Ok(())
}

// The first relocation of each names symbol 100: of `WIDE` at 0x2b8, of `IMPORTER` at 0x1a0.
#[test]
fn relocations_count_where_the_table_has_no_symbol(rt: HostRuntime) -> Result<(), LinkError> {
    let (mut counted, mut empty) = (*WIDE, *IMPORTER);
    put(&mut counted, 0x2c4, &[100]);
    put(&mut empty, 0x1ac, &[100]);
    let file = open(&rt, &counted);
    want(&rt, DynamicView::read(&file)?.reached_count(&file), Ok(7));
    let file = open(&rt, &empty);
    let found = DynamicView::read(&file)?.reached_count(&file);
    want(&rt, found, Ok(101));
    Ok(())
}

// A number of symbols, and the number that is read or the error.
const COUNTED: &[(u64, Result<usize, LinkError>)] = rows! {
    0, Ok(0); 3, Ok(3);
    // The symbols begin at 0x140, and their segment ends at 0x208.
    8, Ok(8); 9, Err(LinkError::Address); 1 << 32, Err(LinkError::Address);
    (1 << 32) + 1, Err(LinkError::SymbolIndex); u64::MAX, Err(LinkError::SymbolIndex);
};

#[test]
fn reads_as_many_symbols_as_are_given(rt: HostRuntime) -> Result<(), LinkError> {
    let file = open(&rt, IMPORTER);
    for &(count, wanted) in COUNTED {
        let object = DynamicObject::<DynEntry64>::read_counted(&file, count);
        let found = object.map(|object| object.symbol_count());
        want_at(&rt, count, found, wanted);
    }
    let object = DynamicObject::<DynEntry64>::read_counted(&file, 3)?;
    want(&rt, object.check(), Ok(()));
    want(&rt, object.name(1), Ok("data"));
    want(&rt, object.name(2), Ok("outer"));
    let object = DynamicObject::<DynEntry64>::read_reached(&file)?;
    want(&rt, object.symbol_count(), 3);
    let object = DynamicObject::<DynEntry64>::read(&file)?;
    want(&rt, object.name(1), Err(LinkError::SymbolIndex));
    Ok(())
}

// Wants a number of symbols, and some names by their indices.
fn check_names(rt: &impl Abort, bytes: &[u8], count: usize, names: &[(usize, &str, u64)]) {
    let (found, all) = match FileSymbols::read(&open(rt, bytes)) {
        Ok(FileSymbols::Narrow(symbols)) => (symbols.len(), None),
        Ok(FileSymbols::Wide(symbols)) => (symbols.len(), Some(symbols)),
        Err(error) => panic!(rt; "{error}"),
    };
    want(rt, found, count);
    let Some(symbols) = all else { return };
    for &(index, name, value) in names {
        want_at(rt, index, symbols.name(index), Some(Ok(name)));
        let found = symbols.get(index).map(|symbol| symbol.value());
        want_at(rt, index, found, Some(value));
    }
}

// The index, the name and the value of some symbols of `.symtab`, and of all dynamic ones.
const STATIC: &[(usize, &str, u64)] = rows! {
    3, "_DYNAMIC", 0x218; 5, "begin", 0x1f0; 8, "outer", 0;
};

const DYNAMIC: &[(usize, &str, u64)] = &[(0, "", 0), (1, "data", 0), (2, "outer", 0)];

// Sets e_shoff, at 40, and e_shnum, at 60, to 0.
fn without_sections(bytes: &mut [u8]) {
    put(bytes, 40, &[0; 8]);
    put(bytes, 60, &[0; 2]);
}

// The section headers begin at 1352, and `.symtab` and `.dynsym` are sections 12 and 2.
#[test]
fn reads_the_symbols_of_a_file(rt: HostRuntime) {
    let mut bytes = *IMPORTER;
    check_names(&rt, &bytes, 11, STATIC);
    put(&mut bytes, 1352 + 12 * 64 + 4, &[1]);
    check_names(&rt, &bytes, 3, DYNAMIC);
    put(&mut bytes, 1352 + 2 * 64 + 4, &[1]);
    check_names(&rt, &bytes, 3, DYNAMIC);
    without_sections(&mut bytes);
    check_names(&rt, &bytes, 3, DYNAMIC);
    check_names(&rt, NARROW, 7, &[]);
}

// A change of a byte of a section header, and the error.
const FAILED: &[(usize, &[u8], LinkError)] = rows! {
    // sh_size of `.symtab`: not whole records, and past the end
    12 * 64 + 32, &[1], LinkError::Elf(ElfError::NotMultiple);
    12 * 64 + 34, &[1], LinkError::Elf(ElfError::DataRange);
    // its sh_link: to no section, and to the first, of type Null
    12 * 64 + 41, &[1], LinkError::Elf(ElfError::ShortSectionHeader);
    12 * 64 + 40, &[0], LinkError::Elf(ElfError::NullData);
};

#[test]
fn tells_why_a_file_has_no_symbols(rt: HostRuntime) {
    for &(place, change, error) in FAILED {
        let mut bytes = *IMPORTER;
        put(&mut bytes, 1352usize.wrapping_add(place), change);
        let found = FileSymbols::read(&open(&rt, &bytes)).err();
        want_at(&rt, place, found, Some(error));
    }
    let mut bytes = *IMPORTER;
    without_sections(&mut bytes);
    put(&mut bytes, 0xb0, &[4]);
    let found = FileSymbols::read(&open(&rt, &bytes)).err();
    want(&rt, found, Some(LinkError::NoDynamic));
}
