//! The section that a symbol belongs to, by an entry of either class.
//!
//! Each error is in the rows of `elfanswers`, `symbols.rows`.

use crate::tests::symbols::symbol;
use crate::tests::want::{open, want_at};
use elf_callers::callers::symbols::section_of_any;
use std::alloc::AllocError;
use worked_files::files::{many_sections_file, shndx_file};
use worked_files::places::{WORD, set, symbol_32, symbol_64};
use xmas_elf::bytes::Order;
use xmas_elf::sections::{SectionHeader, ShType};
use xmas_elf::symbol_table::{DynEntry64, Entry, Entry32};
use xmas_elf::{ElfError, ElfFile};

const LITTLE: Order = Order::Little;

// The section of the symbol at this place with this section index, by an entry of either class.
fn section_of(
    file: &ElfFile<'_>,
    shndx: u64,
    place: usize,
) -> Result<(SectionHeader, SectionHeader), ElfError> {
    let mut narrow = [0; 16];
    set(&mut narrow, 0, symbol_32::SHNDX, shndx, LITTLE);
    let mut wide = [0; 24];
    set(&mut wide, 0, symbol_64::SHNDX, shndx, LITTLE);
    let first = symbol::<Entry32>(&narrow, LITTLE)?.get_section_header(file, place)?;
    let second = section_of_any(&symbol::<DynEntry64>(&wide, LITTLE)?, file, place)?;
    Ok((first, second))
}

// Where the data of that section begins.
fn offset_of(input: &[u8], shndx: u64, place: usize) -> Result<(u64, u64), ElfError> {
    let file = ElfFile::new(input)?;
    let (first, second) = section_of(&file, shndx, place)?;
    Ok((first.offset(), second.offset()))
}

// By the section index of a symbol and its place.
const ROWS: &[(u64, usize, Result<(u64, u64), ElfError>)] = &[
    (1, 1, Ok((172, 172))),
    (0xffff, 1, Ok((172, 172))),
    (0xffff, usize::MAX, Err(ElfError::SymbolIndex)),
];

#[test]
fn symbols_belong_to_sections(rt: HostRuntime) {
    let bytes = shndx_file(LITTLE);
    for &(shndx, place, offsets) in ROWS {
        want_at(&rt, place, offset_of(&bytes, shndx, place), offsets);
    }
}

const AMONG_MANY: &[(u64, Result<ShType, ElfError>)] = &[
    (1, Ok(ShType::StrTab)),
    (0xff00, Ok(ShType::Null)),
    (0xffff, Ok(ShType::Null)),
    (69_999, Ok(ShType::ProgBits)),
    (70_000, Err(ElfError::ShortSectionHeader)),
];

#[test]
fn wide_indices_reach_all_sections(rt: HostRuntime) -> Result<(), AllocError> {
    let mut bytes = many_sections_file(rt.alloc())?;
    for &(word, kind) in AMONG_MANY {
        set(bytes.as_mut_slice(), 2_800_079, WORD, word, LITTLE);
        let found = section_of(&open(&rt, bytes.as_slice()), 0xffff, 1);
        let found = found.and_then(|both| both.0.get_type());
        want_at(&rt, word, found, kind);
    }
    Ok(())
}
