//! The names of symbols by addresses in them.

use crate::callers::{linked_name, print_backtrace, symbol_name};
use crate::tests::rows::{F, Row, symbols, table_bytes};
use crate::tests::want::want_at;
use elf_addresses::{AnyAddressSymbols, SymbolIndex};
use std::test::Fail;
use worked_files::files::{
    put_header_32, put_header_64, put_section_32, put_section_64, put_symbol, strtab_file,
};
use worked_files::linked::small::SMALL;
use worked_files::places::{put, section_32, section_64, set};
use worked_files::rows;
use xmas_elf::ElfFile;
use xmas_elf::bytes::Order;
use xmas_elf::symbol_table::DynEntry64;

const LITTLE: Order = Order::Little;

// The names of the sections and of the symbols.
const NAMES: &[u8; 23] = b"\0.strtab\0.symtab\0ab\0cd\0";

// Symbols by name, info, value and size: an object and a function at the same place, a function
// that begins within that one, and a function whose name is past the end of the table.
const SYMBOLS: &[(u64, u64, u64, u64)] = rows! {
    20, 0x11, 0x100, 0x10; 17, 0x12, 0x100, 0x10; 20, 0x12, 0x108, 0x20; 23, 0x12, 0x200, 1;
};

// The first and the last address of each symbol, and the ones before and behind it.
const ROWS: &[(u64, Option<&'static str>)] = rows! {
    0xff, None; 0x100, Some("ab"); 0x107, Some("ab"); 0x108, Some("cd"); 0x127, Some("cd");
    0x128, None; 0x200, None;
};

// Section 1 is `.strtab`, and section 2 is `.symtab`, behind the names. The names are at 172 in class
// 32, and at 256 in class 64.
fn symtab_file(class: u8) -> [u8; 375] {
    let mut file = [0; 375];
    let (names, size): (usize, usize) = if class == 1 { (172, 16) } else { (256, 24) };
    if class == 1 {
        put_header_32(&mut file, 3, LITTLE);
        put_section_32(&mut file, 92, [1, 3, 172, 23], LITTLE);
        put_section_32(&mut file, 132, [9, 2, 195, 64], LITTLE);
    } else {
        put_header_64(&mut file, 3, LITTLE);
        put_section_64(&mut file, 128, [1, 3, 256, 23], LITTLE);
        put_section_64(&mut file, 192, [9, 2, 279, 96], LITTLE);
    }
    put(&mut file, names, NAMES);
    let mut start = names.wrapping_add(23);
    for &(name, info, value, width) in SYMBOLS {
        put_symbol(
            &mut file,
            class,
            start,
            [name, info, 1, value, width],
            LITTLE,
        );
        start = start.wrapping_add(size);
    }
    file
}

#[test]
fn finds_the_name_by_an_address(rt: HostRuntime) -> Result<(), Fail> {
    let (narrow, wide) = (symtab_file(1), symtab_file(2));
    let (narrow, wide) = (ElfFile::new(&narrow)?, ElfFile::new(&wide)?);
    for &(address, name) in ROWS {
        let both = (symbol_name(&narrow, address), symbol_name(&wide, address));
        want_at(&rt, address, both, (name, name));
    }
    let bytes = strtab_file(LITTLE);
    let without = ElfFile::new(&bytes)?;
    want_at(&rt, "no symbols", symbol_name(&without, 0x100), None);
    Ok(())
}

// What `readelf` says of the dynamic symbols: `ab` has 10 bytes at 0x230, `ef` 6 behind it, and
// `cd` 3 behind that.
const LINKED: &[(u64, Option<&str>)] = rows! {
    0x22f, None; 0x230, Some("ab"); 0x239, Some("ab"); 0x23a, Some("ef"); 0x23f, Some("ef");
    0x240, Some("cd"); 0x243, None; u64::MAX, None;
};

#[test]
fn names_dynamic_symbols(rt: HostRuntime) -> Result<(), Fail> {
    let file = ElfFile::new(SMALL)?;
    for &(address, name) in LINKED {
        let found = linked_name::<DynEntry64>(&file, address)?;
        want_at(&rt, address, found, name);
    }
    Ok(())
}

// The class of the symbols of a file, and their number.
fn symbols_in(file: &ElfFile<'_>) -> Option<(u8, usize)> {
    match AnyAddressSymbols::of(file).ok()? {
        AnyAddressSymbols::Narrow(symbols) => Some((1, symbols.table.len())),
        AnyAddressSymbols::Wide(symbols) => Some((2, symbols.table.len())),
    }
}

// `readelf` lists five dynamic symbols of the shared object, which has no sections.
#[test]
fn reads_the_symbols_of_either_class(rt: HostRuntime) -> Result<(), Fail> {
    let (mut narrow, mut wide) = (symtab_file(1), symtab_file(2));
    set(&mut narrow, 132, section_32::LINK, 1, LITTLE);
    set(&mut wide, 192, section_64::LINK, 1, LITTLE);
    let (narrow, wide) = (ElfFile::new(&narrow)?, ElfFile::new(&wide)?);
    want_at(&rt, "class 32", symbols_in(&narrow), Some((1, 4)));
    want_at(&rt, "class 64", symbols_in(&wide), Some((2, 4)));
    let linked = ElfFile::new(SMALL)?;
    want_at(&rt, "no sections", symbols_in(&linked), Some((2, 5)));
    let bytes = strtab_file(LITTLE);
    let neither = ElfFile::new(&bytes)?;
    want_at(&rt, "no symbols", symbols_in(&neither), None);
    Ok(())
}

const TRACED: &[Row] = &[(F, 0x12, 1, 0x1000, 0x100), (3, 0x12, 1, 0x1040, 0x10)];

const TRACE: &[u8] = b"1044 .L1+0x4\n1050 f+0x50\n2000 ?\nfff ?\n";

#[test]
fn prints_a_backtrace(rt: HostRuntime) -> Result<(), Fail> {
    let bytes = table_bytes(rt.alloc(), TRACED)?;
    let symbols = symbols(&rt, &bytes, &[], 62);
    let mut words = [0; 4];
    let mut numbers = [0; 4];
    SymbolIndex::build(&symbols, None, &mut words, &mut numbers)?;
    let size = SymbolIndex::size(&symbols, None);
    let index = SymbolIndex::lend(&symbols, None, size, &words, &numbers);
    let mut out = Vec::new(rt.alloc());
    print_backtrace(&index, &[0x1044, 0x1050, 0x2000, 0xfff], &mut out)?;
    want_at(&rt, "lines", out.as_slice(), TRACE);
    Ok(())
}
