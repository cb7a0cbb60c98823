//! The pieces of files, and the owner of each of their bytes.

use crate::tests::want::want_at;
use elf_addresses::Owner::{
    Behind, Between, ElfHeader, ProgramHeaders, Section, SectionHeaders, Segment,
};
use elf_addresses::{IndexError, Owner, Piece, Pieces, owner_of};
use std::alloc::{AllocError, Global};
use std::process::Abort;
use std::test::Fail;
use worked_files::files::{put_header_64, put_section_64, strtab_file};
use worked_files::places::{header_64, program_64, set};
use worked_files::rows;
use xmas_elf::ElfFile;
use xmas_elf::bytes::Order;

const LITTLE: Order = Order::Little;

// A section or a segment: its type, and the offset and the size of its bytes.
type Part = (u64, u64, u64);

// A run of bytes from the end of the one before: the offset after its last byte, and its owner.
type Run = (usize, Owner);

// A file of class 64: its size, the offset of the section headers, the sections, the offset of the
// program headers, the segments, its pieces, and the words of an index: two for each section, and for
// each segment, that has bytes in the file. The numbers are as many.
type Row = (
    usize,
    usize,
    &'static [Part],
    usize,
    &'static [Part],
    &'static [Run],
    usize,
);

const NULL: Part = (0, 0, 0);

const RELRO: u64 = 0x6474_e552;

const ROWS: &[Row] = rows! {
    // one section in another, with bytes after it
    0x400, 0x40, &[NULL, (1, 0x300, 0x80), (1, 0x320, 0x10)], 0, &[],
        &[(0x40, ElfHeader), (0x100, SectionHeaders), (0x300, Between), (0x320, Section(1)),
        (0x330, Section(2)), (0x380, Section(1)), (0x400, Behind)], 4;
    // of two sections that cross, the one that begins last, which is the first in the table
    0x400, 0x40, &[NULL, (1, 0x310, 0x20), (1, 0x300, 0x20)], 0, &[],
        &[(0x40, ElfHeader), (0x100, SectionHeaders), (0x300, Between), (0x310, Section(2)),
        (0x330, Section(1)), (0x400, Behind)], 4;
    // of sections that begin at the same byte, the smallest, and of the same size the first
    0x400, 0x40, &[NULL, (1, 0x300, 0x20), (1, 0x300, 0x20), (1, 0x300, 0x10)], 0, &[],
        &[(0x40, ElfHeader), (0x140, SectionHeaders), (0x300, Between), (0x310, Section(3)),
        (0x320, Section(1)), (0x400, Behind)], 6;
    // no type, no byte, and SHT_NOBITS: these claim nothing
    0x400, 0x40, &[(0, 0x300, 0x40), (1, 0x300, 0), (8, 0x310, 0x20), (1, 0x3f0, 0x10)], 0, &[],
        &[(0x40, ElfHeader), (0x140, SectionHeaders), (0x3f0, Between), (0x400, Section(3))], 2;
    // sections that end after the file: the first two have the same size in it
    0x400, 0x40,
        &[NULL, (1, 0x3f0, 0x100), (1, 0x3f0, 0x20), (1, 0x400, 0x10), (1, 0x1000, 4)], 0, &[],
        &[(0x40, ElfHeader), (0x180, SectionHeaders), (0x3f0, Between), (0x400, Section(1))], 4;
    // section headers in a section, and a section in the ELF header
    0x400, 0x40, &[NULL, (1, 0x40, 0x200), (1, 0, 0x10)], 0, &[],
        &[(0x40, ElfHeader), (0x100, SectionHeaders), (0x240, Section(1)), (0x400, Behind)], 4;
    // a segment in another, and one of each type that claims nothing; sections come first
    0x400, 0x40, &[NULL, (1, 0x340, 0x10)], 0x200,
        &[(1, 0, 0x380), (2, 0x300, 0x10), (RELRO, 0x2f0, 0x40), (0, 0x3c0, 0x20)],
        &[(0x40, ElfHeader), (0xc0, SectionHeaders), (0x200, Segment(0)), (0x2e0, ProgramHeaders),
        (0x300, Segment(0)), (0x310, Segment(1)), (0x340, Segment(0)), (0x350, Section(1)),
        (0x380, Segment(0)), (0x400, Behind)], 6;
    // no section headers: bytes before a segment are between parts, and those after it behind them
    0x400, 0, &[], 0x200, &[(1, 0x3c0, 0x10)],
        &[(0x40, ElfHeader), (0x200, Between), (0x238, ProgramHeaders), (0x3c0, Between),
        (0x3d0, Segment(0)), (0x400, Behind)], 2;
    // program headers in the section headers; the segment's size is the type of section 1
    0x400, 0x40, &[NULL, NULL, (1, 0x380, 0x10)], 0x60, &[(1, 0x300, 0x10)],
        &[(0x40, ElfHeader), (0x60, SectionHeaders), (0x98, ProgramHeaders),
        (0x100, SectionHeaders), (0x300, Between), (0x310, Segment(0)), (0x380, Between),
        (0x390, Section(2)), (0x400, Behind)], 4;
    // a section header table that ends after the file claims its bytes, and its sections claim none
    0x400, 0x380, &[NULL, (1, 0x100, 0x10), NULL], 0, &[],
        &[(0x40, ElfHeader), (0x380, Between), (0x400, SectionHeaders)], 0;
    // tables past the file
    0x48, 0x1000, &[NULL], 0x48, &[(1, 0, 0x48)], &[(0x40, ElfHeader), (0x48, Behind)], 0;
    // a file of only a header
    0x40, 0, &[], 0, &[], &[(0x40, ElfHeader)], 0;
};

// The bytes of a file. A header that the file doesn't contain is left out.
fn bytes_of(alloc: Global, row: Row) -> Result<Vec<u8>, AllocError> {
    let (len, sh_offset, sections, ph_offset, segments, _pieces, _words) = row;
    let mut file = vec![in alloc; 0u8; len]?;
    put_header_64(&mut file, sections.len() as u64, LITTLE);
    for (place, number) in [
        (header_64::SH_OFFSET, sh_offset as u64),
        (header_64::PH_OFFSET, ph_offset as u64),
        (header_64::PH_ENTRY_SIZE, 56),
        (header_64::PH_COUNT, segments.len() as u64),
    ] {
        set(&mut file, 0, place, number, LITTLE);
    }
    put_sections(&mut file, sh_offset, sections);
    put_segments(&mut file, ph_offset, segments);
    Ok(file)
}

fn put_sections(file: &mut [u8], from: usize, sections: &[Part]) {
    let mut start = from;
    for &(kind, offset, size) in sections {
        if start.wrapping_add(64) <= file.len() {
            put_section_64(file, start, [0, kind, offset, size], LITTLE);
        }
        start = start.wrapping_add(64);
    }
}

fn put_segments(file: &mut [u8], from: usize, segments: &[Part]) {
    let mut start = from;
    for &(kind, offset, size) in segments {
        if start.wrapping_add(56) <= file.len() {
            set(file, start, program_64::TYPE, kind, LITTLE);
            set(file, start, program_64::OFFSET, offset, LITTLE);
            set(file, start, program_64::FILE_SIZE, size, LITTLE);
        }
        start = start.wrapping_add(56);
    }
}

// Wants these pieces of a file, by words and numbers that hold others before.
fn check_pieces(
    rt: &impl Abort,
    alloc: Global,
    row: usize,
    bytes: &[u8],
    wanted: &[Run],
) -> Result<(), Fail> {
    let file = ElfFile::new(bytes)?;
    let mut words = vec![in alloc; u32::MAX; Pieces::words(&file)]?;
    let mut numbers = vec![in alloc; u64::MAX; Pieces::numbers(&file)]?;
    let (mut index, mut end) = (0, 0);
    for piece in Pieces::new(&file, &mut words, &mut numbers)? {
        want_at(rt, (row, index), piece.begin, end);
        end = piece.end;
        want_at(
            rt,
            (row, index),
            Some(&(end, piece.owner)),
            wanted.get(index),
        );
        check_owners(rt, row, &file, &piece);
        index = index.wrapping_add(1);
    }
    want_at(rt, row, index, wanted.len());
    want_at(rt, row, owner_of(&file, bytes.len()), None);
    let pieces = Pieces::new(&file, &mut words, &mut numbers)?;
    want_at(rt, row, pieces.total(), bytes.len());
    Ok(())
}

// Wants each byte of a piece to have its owner.
fn check_owners(rt: &impl Abort, row: usize, file: &ElfFile<'_>, piece: &Piece) {
    for offset in piece.begin..piece.end {
        want_at(rt, (row, offset), owner_of(file, offset), Some(piece.owner));
    }
}

#[test]
fn rows(rt: HostRuntime) -> Result<(), Fail> {
    for (index, &row) in ROWS.iter().enumerate() {
        let bytes = bytes_of(rt.alloc(), row)?;
        check_pieces(&rt, rt.alloc(), index, &bytes, row.5)?;
    }
    Ok(())
}

#[test]
fn a_file_of_class_32_in_both_orders(rt: HostRuntime) -> Result<(), Fail> {
    let pieces = [(52, ElfHeader), (132, SectionHeaders), (144, Section(1))];
    for order in [Order::Little, Order::Big] {
        check_pieces(&rt, rt.alloc(), 0, &strtab_file(order), &pieces)?;
    }
    Ok(())
}

#[test]
fn words_too_few(rt: HostRuntime) -> Result<(), Fail> {
    for (index, &row) in ROWS.iter().enumerate() {
        let bytes = bytes_of(rt.alloc(), row)?;
        let file = ElfFile::new(&bytes)?;
        want_at(&rt, index, Pieces::words(&file), row.6);
        want_at(&rt, index, Pieces::numbers(&file), row.6);
        let mut few = vec![in rt.alloc(); 0u32; row.6.saturating_sub(1)]?;
        let mut numbers = vec![in rt.alloc(); 0u64; row.6]?;
        let wanted = (row.6 > 0).then_some(IndexError::FewWords);
        let error = Pieces::new(&file, &mut few, &mut numbers).err();
        want_at(&rt, index, error, wanted);
        let mut words = vec![in rt.alloc(); 0u32; row.6.saturating_add(1)]?;
        let found = Pieces::new(&file, &mut words, &mut numbers).is_ok();
        want_at(&rt, index, found, true);
        let mut few = vec![in rt.alloc(); 0u64; row.6.saturating_sub(1)]?;
        let error = Pieces::new(&file, &mut words, &mut few).err();
        want_at(&rt, index, error, wanted);
    }
    Ok(())
}
