//! The pieces of ranges of addresses.

use crate::tests::rows::{F, Row, symbols, table_bytes};
use crate::tests::want::want_at;
use elf_addresses::{IndexError, SymbolIndex, SymbolPieces};
use std::alloc::Global;
use std::process::Abort;
use std::test::Fail;
use worked_files::rows;
use xmas_elf::symbol_table::DynEntry64;

const MOST: u64 = 0xffff_ffff_ffff_ffff;

/// A range of addresses in one symbol, or in none.
pub type Run = (u64, u64, Option<usize>);

/// Symbols that nest, that cross, and that have no size, in section 1, and one in section 2.
pub const SYMBOLS: &[Row] = rows! {
    F, 0x12, 1, 0x1000, 0x100; F, 0x12, 1, 0x1040, 0x10; F, 0x12, 1, 0x1200, 0x20;
    F, 0x12, 1, 0x1210, 0x20; F, 0x12, 1, 0x1080, 0; F, 0x12, 2, 0x1000, 0x10;
};

/// The pieces of the first that nest.
pub const NESTED: &[Run] = rows! {
    0xff0, 0x1000, None; 0x1000, 0x1040, Some(0); 0x1040, 0x1050, Some(1); 0x1050, 0x1100, Some(0);
    0x1100, 0x1110, None;
};

/// Some pieces of those that cross.
pub const CROSSING: &[Run] = &[(0x1208, 0x1210, Some(2)), (0x1210, 0x1228, Some(3))];

// A symbol that ends past all addresses.
const LAST: &[Row] = &[(F, 0x12, 1, MOST - 15, 0x100)];

const IN_LAST: &[Run] = &[(MOST - 31, MOST - 15, None), (MOST - 15, MOST, Some(0))];

// Wants these pieces of a range in the symbols of a section.
fn check(
    rt: &impl Abort,
    alloc: Global,
    rows: &[Row],
    (within, begin, end): (Option<u32>, u64, u64),
    wanted: &[Run],
) -> Result<(), Fail> {
    let bytes = table_bytes(alloc, rows)?;
    let symbols = symbols(rt, &bytes, &[], 62);
    let size = SymbolIndex::size(&symbols, within);
    let mut words = vec![in alloc; u32::MAX; size.words()]?;
    let mut numbers = vec![in alloc; u64::MAX; size.numbers()]?;
    let pieces = SymbolPieces::new(&symbols, within, begin, end, &mut words, &mut numbers)?;
    check_runs(rt, begin, pieces, wanted);
    Ok(())
}

/// Wants these pieces of the range that begins here.
pub fn check_runs(
    rt: &impl Abort,
    begin: u64,
    pieces: SymbolPieces<'_, '_, '_, DynEntry64>,
    wanted: &[Run],
) {
    let mut index = 0;
    for piece in pieces {
        let run = (piece.begin, piece.end, piece.symbol);
        want_at(rt, index, Some(&run), wanted.get(index));
        index = index.wrapping_add(1);
    }
    want_at(rt, begin, index, wanted.len());
}

#[test]
fn rows(rt: HostRuntime) -> Result<(), Fail> {
    let alloc = rt.alloc();
    check(&rt, alloc, SYMBOLS, (Some(1), 0xff0, 0x1110), NESTED)?;
    check(&rt, alloc, SYMBOLS, (Some(1), 0x1208, 0x1228), CROSSING)?;
    check(&rt, alloc, LAST, (None, MOST - 31, MOST), IN_LAST)?;
    check(&rt, alloc, SYMBOLS, (Some(3), 0, 1), &[(0, 1, None)])?;
    check(&rt, alloc, SYMBOLS, (None, 0x1000, 0x1000), &[])?;
    check(&rt, alloc, SYMBOLS, (None, 0x1100, 0x1000), &[])
}

// A smaller symbol of another section is further in, if no section is given.
#[test]
fn all_sections(rt: HostRuntime) -> Result<(), Fail> {
    let wanted = [(0x1000, 0x1010, Some(5)), (0x1010, 0x1020, Some(0))];
    check(&rt, rt.alloc(), SYMBOLS, (None, 0x1000, 0x1020), &wanted)
}

#[test]
fn words_too_few(rt: HostRuntime) -> Result<(), Fail> {
    let bytes = table_bytes(rt.alloc(), SYMBOLS)?;
    let symbols = symbols(&rt, &bytes, &[], 62);
    let error = SymbolPieces::new(&symbols, Some(2), 0, 1, &mut [0], &mut [0, 0]).err();
    want_at(&rt, "one word", error, Some(IndexError::FewWords));
    let error = SymbolPieces::new(&symbols, Some(2), 0, 1, &mut [0, 0], &mut [0]).err();
    want_at(&rt, "one number", error, Some(IndexError::FewWords));
    let pieces = SymbolPieces::new(&symbols, Some(2), 0, 1, &mut [0, 0], &mut [0, 0]).is_ok();
    want_at(&rt, "two of both", pieces, true);
    Ok(())
}
