//! Symbols as `dladdr` finds them.

use crate::callers::dladdr_in;
use crate::tests::rows::{F, Row, STRINGS, table_bytes};
use crate::tests::want::want_at;
use elf_addresses::dladdr::{DladdrSymbols, Reach};
use elf_addresses::{ClaimIndex, build_index, index_size};
use std::process::Abort;
use std::test::Fail;
use worked_files::linked::small::SMALL;
use worked_files::places::put;
use worked_files::rows;
use xmas_elf::ElfFile;
use xmas_elf::bytes::{Order, Table};
use xmas_elf::symbol_table::DynEntry64;

const END: u32 = STRINGS.len() as u32;

// A symbol that the table reaches, and an address where it is found or not.
const CASES: &[(Row, u64, bool)] = rows! {
    // Each type but thread-local.
    (F, 0x10, 1, 4, 4), 5, true; (F, 0x12, 1, 4, 4), 5, true; (F, 0x13, 1, 4, 4), 5, true;
    (F, 0x16, 1, 4, 4), 5, false; (F, 0x1a, 1, 4, 4), 5, true;
    // Each binding: GNU's table has no local symbols.
    (F, 0x02, 1, 4, 4), 5, true;
    // Undefined with a value, and without; absolute; common.
    (F, 0x12, 0, 4, 4), 5, true; (F, 0x12, 0, 0, 4), 0, false; (F, 0x12, 1, 0, 4), 0, true;
    (F, 0x12, 0xfff1, 4, 4), 5, false; (F, 0x12, 0xfff2, 4, 4), 5, true;
    // Without a name, at the end of the string table, and past it.
    (0, 0x12, 1, 4, 4), 5, true; (END - 1, 0x12, 1, 4, 4), 5, true; (END, 0x12, 1, 4, 4), 5, false;
    // The ends of its range, and size 0.
    (F, 0x12, 1, 4, 4), 3, false; (F, 0x12, 1, 4, 4), 7, true; (F, 0x12, 1, 4, 4), 8, false;
    (F, 0x12, 1, 4, 0), 4, true; (F, 0x12, 1, 4, 0), 5, false;
};

fn symbols<'a>(
    rt: &impl Abort,
    bytes: &'a [u8],
    reach: Reach<'a>,
) -> DladdrSymbols<'a, DynEntry64> {
    DladdrSymbols {
        table: Table::new(bytes, Order::Little).expect(rt, "whole symbols"),
        strings: STRINGS,
        reach,
    }
}

#[test]
fn finds_symbols_that_are_reached(rt: HostRuntime) -> Result<(), Fail> {
    for &(row, address, wanted) in CASES {
        let bytes = table_bytes(rt.alloc(), &[row])?;
        let found = symbols(&rt, &bytes, Reach::Buckets(&[1])).symbol_at(address);
        want_at(&rt, (row, address), found.is_some(), wanted);
        // A symbol that is not reached, and one without a word.
        let found = symbols(&rt, &bytes, Reach::Buckets(&[0])).symbol_at(address);
        want_at(&rt, (row, address), found.is_none(), true);
        let found = symbols(&rt, &bytes, Reach::Buckets(&[])).symbol_at(address);
        want_at(&rt, (row, address), found.is_none(), true);
    }
    Ok(())
}

// The binding and the type, the visibility, the number of chains, and whether the symbol is found.
const CHAINS: &[(u8, u8, u32, bool)] = rows! {
    0x12, 0, 1, true; 0x22, 0, 1, true; 0x02, 0, 1, false; 0xa2, 0, 1, false; 0x12, 1, 1, false;
    0x12, 2, 1, false; 0x12, 3, 1, true; 0x12, 4, 1, true; 0x12, 0, 0, false;
};

#[test]
fn finds_exported_symbols_with_a_chain(rt: HostRuntime) -> Result<(), Fail> {
    for &(info, other, count, wanted) in CHAINS {
        let mut bytes = table_bytes(rt.alloc(), &[(F, info, 1, 4, 4)])?;
        put(&mut bytes, 5, &[other]);
        let found = symbols(&rt, &bytes, Reach::Chains(count)).symbol_at(5);
        want_at(&rt, (info, other, count), found.is_some(), wanted);
    }
    Ok(())
}

// Symbols by value and size, the buckets that reach them, an address, and the symbol found there
// with the offset.
const ORDER: &[(&[(u64, u64)], &[u32], u64, Option<(usize, u64)>)] = rows! {
    // One in another, and behind it.
    &[(0, 9), (4, 2)], &[1, 1], 4, Some((1, 0));
    &[(0, 9), (4, 2)], &[1, 1], 6, Some((0, 6));
    // One without a size in another is found at its value.
    &[(0, 9), (4, 0)], &[1, 1], 4, Some((1, 0));
    &[(0, 9), (4, 0)], &[1, 1], 5, Some((0, 5));
    // With the same value: by the buckets, then by the table, whatever the sizes are.
    &[(4, 9), (4, 2)], &[1, 1], 4, Some((0, 0));
    &[(4, 2), (4, 9)], &[2, 1], 4, Some((1, 0));
    &[(4, 2), (4, 9)], &[1, 2], 5, Some((0, 1));
    &[(4, 2), (4, 9)], &[1, 2], 6, Some((1, 2));
    &[(4, 0), (4, 9)], &[1, 2], 4, Some((0, 0));
    &[(4, 9), (4, 9)], &[0, 7], 4, Some((1, 0));
    &[(4, 9), (4, 9)], &[0, 0], 4, None;
    // A range that reaches past the last address.
    &[(0xffff_ffff_ffff_fff0, 0x20)], &[1], 0xffff_ffff_ffff_ffff, Some((0, 15));
    &[], &[], 0, None;
};

#[test]
fn the_greatest_value_and_the_first_bucket_come_first(rt: HostRuntime) -> Result<(), Fail> {
    for &(places, reached, address, wanted) in ORDER {
        let mut rows: Vec<Row> = Vec::new(rt.alloc());
        for &(value, size) in places {
            rows.push((F, 0x12, 1, value, size))?;
        }
        let bytes = table_bytes(rt.alloc(), &rows)?;
        let symbols = symbols(&rt, &bytes, Reach::Buckets(reached));
        let found = symbols.symbol_at(address).map(|at| (at.index, at.offset));
        want_at(&rt, (places, address), found, wanted);
        let size = index_size(&symbols);
        let mut words = vec![in rt.alloc(); 0u32; size.words()]?;
        let mut numbers = vec![in rt.alloc(); 0u64; size.numbers()]?;
        build_index(&symbols, &mut words, &mut numbers)?;
        let index = ClaimIndex::lend(&symbols, size, &words, &numbers);
        want_at(&rt, (places, address), index.check(), true);
        let found = index.innermost(address).map(|claim| claim.index);
        want_at(&rt, (places, address), found, wanted.map(|at| at.0));
        // Each symbol that `dladdr` finds has a size.
        let found = index.innermost_index(address);
        want_at(&rt, (places, address), found, wanted.map(|at| at.0));
    }
    Ok(())
}

// What `readelf` says of the dynamic symbols: `ab` has 10 bytes at 0x230, `ef` 6 behind it, and
// `cd` 3 behind that; 3 is undefined and has no value.
const IN_SMALL: &[(u64, Option<(usize, u64)>)] = rows! {
    0, None; 0x22f, None; 0x230, Some((1, 0)); 0x239, Some((1, 9)); 0x23a, Some((2, 0));
    0x23f, Some((2, 5)); 0x242, Some((4, 2)); 0x243, None;
};

#[test]
fn finds_the_symbols_of_a_library(rt: HostRuntime) -> Result<(), Fail> {
    let file = ElfFile::new(SMALL)?;
    for &(address, wanted) in IN_SMALL {
        let found = dladdr_in::<DynEntry64>(&file, &mut [0; 5], address)?;
        want_at(&rt, address, found.map(|at| (at.index, at.offset)), wanted);
    }
    Ok(())
}
