//! Words and numbers of an index, as they are built, and others.

use crate::callers::symbol_by_index;
use crate::tests::rows::{F, Row, place, symbols, table_bytes};
use crate::tests::want::want_at;
use elf_addresses::{ClaimIndex, IndexError, IndexSize, SymbolClaims, SymbolIndex};
use std::test::Fail;
use worked_files::rows;

// Symbol 1 is in symbol 0, symbol 2 is after both, and symbol 3 has no size.
const ROWS: &[Row] = rows! {
    F, 0x12, 1, 0x1000, 0x100; F, 0x12, 1, 0x1040, 0x10; F, 0x12, 1, 0x1080, 8;
    F, 0x12, 1, 0x2000, 0;
};

const SIZE: IndexSize = IndexSize { sized: 3, open: 1 };

// The symbols with a size by their values, the places of those that end last in the blocks of
// places 0, 0 to 1 and 2, and the symbol of size 0.
const BUILT: [u32; 7] = [0, 1, 2, 0, 0, 2, 3];

// Their values, and their sizes.
const RANGES: [u64; 6] = [0x1000, 0x1040, 0x1080, 0x100, 0x10, 8];

const ONES: [u32; 7] = [0xffff_ffff; 7];

// Words beside these numbers, an address, and the index of the symbol that is found.
const DAMAGED: &[(&[u32], u64, Option<usize>)] = rows! {
    // Too few words: no symbol, no places, and no symbol without a size.
    &[], 0x1044, None; &[], 0x1104, None; &[0, 1, 2], 0x1044, Some(1);
    &[0, 1, 2], 0x1050, Some(0); &[0, 1, 2, 0, 0, 2], 0x2000, None;
    // Zeros and ones.
    &[0, 0, 0, 0, 0, 0, 0], 0x1044, Some(0); &[0, 0, 0, 0, 0, 0, 0], 0x1100, None;
    &[0, 0, 0, 0, 0, 0, 0], 0x2000, None; &ONES, 0x1044, None; &ONES, 0x2000, None;
    // The symbols in another order: one that doesn't cover the address is not found.
    &[1, 0, 2, 0, 0, 2, 3], 0x1044, Some(0); &[2, 1, 0, 0, 0, 2, 3], 0x1100, None;
    &[2, 1, 0, 0, 0, 2, 3], 0x1020, None;
    // A place of a symbol that does not end last: what is behind it is not found.
    &[0, 1, 2, 0, 1, 2, 3], 0x1060, None; &[0, 1, 2, 0, 1, 2, 3], 0x1044, Some(1);
    // A place that is past its block, and one that is past all symbols.
    &[0, 1, 2, 0, 2, 2, 3], 0x1044, Some(1); &[0, 1, 2, 0, 9, 2, 3], 0x1044, Some(1);
    // Symbols twice, and a symbol with a size among those of size 0.
    &[0, 1, 1, 0, 0, 2, 3], 0x1044, Some(1); &[0, 1, 2, 0, 0, 2, 1], 0x2000, None;
};

// Numbers beside the words that are built, an address, and the index of the symbol that is found.
const OTHERS: &[(&[u64], u64, Option<usize>)] = rows! {
    // Too few numbers: no ranges, and no sizes.
    &[], 0x1044, None; &[0x1000, 0x1040, 0x1080], 0x1044, None;
    &[0x1000, 0x1040, 0x1080], 0x1040, Some(1);
    // Zeros.
    &[0, 0, 0, 0, 0, 0], 0x1044, None; &[0, 0, 0, 0, 0, 0], 0, None;
    // The range of another symbol: one that doesn't cover the address is not found.
    &[0x1000, 0x1080, 0x1080, 0x100, 8, 8], 0x1044, Some(0);
    &[0x1000, 0x1040, 0x1040, 0x100, 0x10, 0x10], 0x1044, None;
    // A range that ends a byte late, and one that begins a byte late.
    &[0x1000, 0x1040, 0x1080, 0x100, 0x11, 8], 0x1050, None;
    &[0x1000, 0x1041, 0x1080, 0x100, 0x10, 8], 0x1040, Some(0);
};

#[test]
fn words_are_built_in_order(rt: HostRuntime) -> Result<(), Fail> {
    let bytes = table_bytes(rt.alloc(), ROWS)?;
    let symbols = symbols(&rt, &bytes, &[], 62);
    let size = SymbolIndex::size(&symbols, None);
    want_at(&rt, "size", size, SIZE);
    want_at(&rt, "words", (size.words(), size.numbers()), (7, 6));
    let size = SymbolIndex::size(&symbols, Some(2));
    let found = (size.words(), size.numbers());
    want_at(&rt, "in no section", found, (0, 0));
    let mut words = [5; 9];
    let mut numbers = [5; 7];
    SymbolIndex::build(&symbols, None, &mut words, &mut numbers)?;
    want_at(&rt, "words", words, [0, 1, 2, 0, 0, 2, 3, 5, 5]);
    let ranges = [0x1000, 0x1040, 0x1080, 0x100, 0x10, 8, 5];
    want_at(&rt, "numbers", numbers, ranges);
    let found = SymbolIndex::lend(&symbols, None, SIZE, &words, &numbers).check();
    want_at(&rt, "more words", found, true);
    let found = SymbolIndex::lend(&symbols, None, SIZE, &BUILT, &RANGES).check();
    want_at(&rt, "as many", found, true);
    Ok(())
}

// Three symbols of one value, one below it, and one that is 2 to the 32 above the least.
const TIES: &[Row] = rows! {
    F, 0x12, 1, 0x2000, 8; F, 0x12, 1, 0x2000, 0x10; F, 0x12, 1, 0x2000, 8; F, 0x12, 1, 0x1000, 4;
    F, 0x12, 1, 0x1_0000_1000, 4;
};

#[test]
fn symbols_of_one_value_are_in_order(rt: HostRuntime) -> Result<(), Fail> {
    for (count, wanted) in [(4, &[3, 1, 2, 0][..]), (5, &[3, 1, 2, 0, 4])] {
        let bytes = table_bytes(rt.alloc(), &TIES[..count])?;
        let symbols = symbols(&rt, &bytes, &[], 62);
        let size = SymbolIndex::size(&symbols, None);
        let (mut words, mut numbers) = ([5; 10], [5; 10]);
        SymbolIndex::build_sized(&symbols, None, size, &mut words, &mut numbers)?;
        want_at(&rt, count, &words[..count], wanted);
    }
    Ok(())
}

#[test]
fn too_few_words_are_an_error(rt: HostRuntime) -> Result<(), Fail> {
    let bytes = table_bytes(rt.alloc(), ROWS)?;
    let symbols = symbols(&rt, &bytes, &[], 62);
    for (count, number_count) in [(6, 6), (7, 5)] {
        let mut words = vec![in rt.alloc(); 5u32; count]?;
        let mut numbers = vec![in rt.alloc(); 5u64; number_count]?;
        let built = SymbolIndex::build(&symbols, None, &mut words, &mut numbers);
        want_at(&rt, count, built, Err(IndexError::FewWords));
        let same = words.iter().all(|word| *word == 5) && numbers.iter().all(|number| *number == 5);
        want_at(&rt, count, same, true);
        let found = symbol_by_index(&symbols, &mut words, &mut numbers, 0x1044);
        want_at(&rt, count, found.is_err(), true);
    }
    let mut words = [5; 7];
    let mut numbers = [5; 6];
    let found = symbol_by_index(&symbols, &mut words, &mut numbers, 0x1044)?;
    want_at(&rt, "7 words", place(found), Some((1, 4, false)));
    Ok(())
}

#[test]
fn other_words_find_symbols_that_cover(rt: HostRuntime) -> Result<(), Fail> {
    let bytes = table_bytes(rt.alloc(), ROWS)?;
    let symbols = symbols(&rt, &bytes, &[], 62);
    for &(words, address, wanted) in DAMAGED {
        let index = SymbolIndex::lend(&symbols, None, SIZE, words, &RANGES);
        want_at(&rt, words, index.check(), false);
        let found = index.symbol_at(address).map(|at| at.index);
        want_at(&rt, (words, address), found, wanted);
    }
    for &(numbers, address, wanted) in OTHERS {
        let index = SymbolIndex::lend(&symbols, None, SIZE, &BUILT, numbers);
        want_at(&rt, numbers, index.check(), false);
        let found = index.symbol_at(address).map(|at| at.index);
        want_at(&rt, (numbers, address), found, wanted);
    }
    Ok(())
}

// The words of the symbols with a size, and the index and the symbol that are found at 0x1044, by a
// range from 0x1000 on of 0x100 addresses.
const ONE_RANGE: &[(&[u32], Option<usize>, Option<usize>)] = rows! {
    &[], None, None; &[0], Some(0), Some(0); &[1], Some(1), Some(1);
    // A symbol that doesn't cover the address, and one that isn't there.
    &[2], Some(2), None; &[9], Some(9), None;
};

#[test]
fn what_is_found_is_a_word(rt: HostRuntime) -> Result<(), Fail> {
    let bytes = table_bytes(rt.alloc(), ROWS)?;
    let symbols = symbols(&rt, &bytes, &[], 62);
    let claims = SymbolClaims {
        symbols: &symbols,
        within: None,
    };
    for &(words, wanted, found) in ONE_RANGE {
        let index = ClaimIndex {
            claims: &claims,
            sized: words,
            begins: &[0x1000],
            sizes: &[0x100],
            lasting: &[0],
            starts: &[],
        };
        want_at(&rt, words, index.innermost_index(0x1044), wanted);
        let claim = index.innermost(0x1044).map(|claim| claim.index);
        want_at(&rt, words, claim, found);
    }
    Ok(())
}
