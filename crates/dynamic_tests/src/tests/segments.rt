//! Segments of files whose program header table is not an ordinary one. Each row was tried with a program
//! and a library of this kind: Linux 6.18 on x86-64 runs the program or says ENOEXEC, and `dlopen` of glibc
//! 2.36 loads the library or says why not.

use crate::tests::want::{open, want, want_at};
use elf_linking::view::dynamic_segment;
use elf_linking::{Segment, Segments};
use std::process::Abort;
use std::test::Fail;
use worked_files::places::{
    Place, header_32, header_64, program_32, program_64, put, section_64, set,
};
use worked_files::rows;
use xmas_elf::bytes::Order;
use xmas_elf::program::Flags;

const LITTLE: Order = Order::Little;

const BIG: Order = Order::Big;

// A file with room for the header and two records of class 64.
const SIZE: usize = 64 + 2 * 56;

// Writes the header of a file of class 64 with this table.
fn put_header(file: &mut [u8], offset: u64, entry_size: u64, count: u64, order: Order) {
    let encoding = if order == LITTLE { 1 } else { 2 };
    put(file, 0, &[0x7f, b'E', b'L', b'F', 2, encoding, 1]);
    set(file, 0, header_64::PH_OFFSET, offset, order);
    set(file, 0, header_64::PH_ENTRY_SIZE, entry_size, order);
    set(file, 0, header_64::PH_COUNT, count, order);
}

// Wants segments of these types.
fn check_kinds(rt: &impl Abort, row: usize, bytes: &[u8], kinds: &[u32]) {
    let mut segments = Segments::of(&open(rt, bytes));
    want_at(rt, row, usize::from(segments.count_left()), kinds.len());
    for &kind in kinds {
        let found = segments.next().map(|segment| segment.kind);
        want_at(rt, row, found, Some(kind));
    }
    want_at(rt, row, segments.next().is_none(), true);
}

// The offset of the table, the size of an entry, the number of entries, the number of bytes that the file
// lacks at its end, and the types of the segments. Records of types 1 and 2 are at 64 and 120.
const TABLES: &[(u64, u64, u64, usize, &[u32])] = rows! {
    64, 56, 2, 0, &[1, 2]; 120, 56, 1, 0, &[2]; 64, 56, 0, 0, &[];
    // A table cut by the end of the file: ENOEXEC; "cannot read file data".
    64, 56, 2, 1, &[]; 64, 56, 3, 0, &[]; u64::MAX, 56, 1, 0, &[];
    // A larger or smaller entry: ENOEXEC; "ELF file's phentsize not the expected size".
    64, 57, 2, 0, &[]; 64, 64, 1, 0, &[]; 64, 32, 2, 0, &[];
    // A table at offset 0 is read: its first record begins with the bytes of the header, and the second
    // with the number of entries. Both load such a file.
    0, 56, 3, 0, &[0x464c_457f, 3, 0]; 0, 56, 4, 0, &[];
    // Section header 0 has the number 1 for 0xffff (PN_XNUM), and isn't read: ENOEXEC; "cannot read file
    // data".
    64, 56, 0xffff, 0, &[];
};

#[test]
fn tables_are_read_as_linux_and_glibc_do(rt: HostRuntime) {
    for (row, &(offset, entry_size, count, cut, kinds)) in TABLES.iter().enumerate() {
        let mut file = [0; SIZE];
        put_header(&mut file, offset, entry_size, count, LITTLE);
        set(&mut file, 64, program_64::TYPE, 1, LITTLE);
        set(&mut file, 120, program_64::TYPE, 2, LITTLE);
        if count == 0xffff {
            set(&mut file, 0, header_64::SH_OFFSET, 112, LITTLE);
            set(&mut file, 0, header_64::SH_ENTRY_SIZE, 64, LITTLE);
            set(&mut file, 0, header_64::SH_COUNT, 1, LITTLE);
            set(&mut file, 112, section_64::INFO, 1, LITTLE);
        }
        check_kinds(&rt, row, &file[..SIZE - cut.min(SIZE)], kinds);
    }
}

// glibc loads a library with 0xffff records; Linux runs no program with more than 64 KB of them.
#[test]
fn as_many_records_as_there_can_be_are_read(rt: HostRuntime) -> Result<(), Fail> {
    let mut bytes = Vec::new(rt.alloc());
    bytes.resize(64 + 56 * 0xffff, 0u8)?;
    let file = bytes.as_mut_slice();
    put_header(file, 64, 56, 0xffff, LITTLE);
    set(file, 64 + 56 * 0xfffe, program_64::TYPE, 2, LITTLE);
    let file = open(&rt, &bytes);
    let segments = Segments::of(&file);
    want(&rt, segments.count_left(), 0xffff);
    let dynamic = dynamic_segment(&file).map(|segment| segment.kind);
    want(&rt, dynamic, Some(2));
    Ok(())
}

// A segment whose fields differ.
const ALL: Segment = Segment {
    kind: 1,
    flags: Flags(6),
    offset: 0x102,
    address: 0x2030,
    file_size: 0x304,
    mem_size: 0x4050,
    align: 0x1000,
};

// The numbers of the segment in both classes, in which the physical address is not read.
const FIELDS: &[(Place, Place, u64)] = rows! {
    program_32::TYPE, program_64::TYPE, 1;
    program_32::FLAGS, program_64::FLAGS, 6;
    program_32::OFFSET, program_64::OFFSET, 0x102;
    program_32::VIRTUAL_ADDR, program_64::VIRTUAL_ADDR, 0x2030;
    program_32::PHYSICAL_ADDR, program_64::PHYSICAL_ADDR, 0x7777;
    program_32::FILE_SIZE, program_64::FILE_SIZE, 0x304;
    program_32::MEM_SIZE, program_64::MEM_SIZE, 0x4050;
    program_32::ALIGN, program_64::ALIGN, 0x1000;
};

#[test]
fn fields_of_both_classes(rt: HostRuntime) {
    for (encoding, order) in [(1, LITTLE), (2, BIG)] {
        let mut narrow = [0; 52 + 32];
        put(&mut narrow, 0, &[0x7f, b'E', b'L', b'F', 1, encoding, 1]);
        set(&mut narrow, 0, header_32::PH_OFFSET, 52, order);
        set(&mut narrow, 0, header_32::PH_ENTRY_SIZE, 32, order);
        set(&mut narrow, 0, header_32::PH_COUNT, 1, order);
        let mut wide = [0; 64 + 56];
        put_header(&mut wide, 64, 56, 1, order);
        for &(narrow_place, wide_place, value) in FIELDS {
            set(&mut narrow, 52, narrow_place, value, order);
            set(&mut wide, 64, wide_place, value, order);
        }
        want(&rt, Segments::of(&open(&rt, &narrow)).next(), Some(ALL));
        want(&rt, Segments::of(&open(&rt, &wide)).next(), Some(ALL));
    }
}
