//! The same for files of class 32: each error of the check alone.

use crate::tests::images::{COUNT_OF_REL, NARROW, Row, check_rows};
use crate::tests::relocated_files::{SIZE, TABLE, base_file};
use elf_linking::LinkError;
use elf_loading::LoadError;
use worked_files::places::{header_32, program_32, set};
use xmas_elf::bytes::Order;
use xmas_elf::symbol_table::DynEntry32;

// The program headers and the entries of class 32, and the relocations, of 8 bytes each.
const LOAD_32: usize = 64;

const DYNAMIC_32: usize = 96;

const ENTRIES_32: &[(u64, u64)] = &[
    (17, 0x1240),
    (18, 16),
    (19, 8),
    (23, 0x1250),
    (2, 8),
    (20, 17),
    (36, 0x1260),
    (35, 4),
    (37, 4),
    (3, 0),
];

// The numbers of these entries.
const REL: usize = 0x324;

const REL_SIZE: usize = 0x32c;

const REL_EACH: usize = 0x334;

const KIND_32: usize = 0x34c;

const PACKED_32: usize = 0x354;

const PACKED_SIZE_32: usize = 0x35c;

const PACKED_EACH_32: usize = 0x364;

// A file for 386 whose words are at 0x1600, 0x1604, 0x1608 and 0x160c, of 4 bytes each.
fn file_32() -> [u8; SIZE] {
    let mut file = base_file(1, 3, ENTRIES_32);
    for &(start, place, value) in &[
        (LOAD_32, program_32::MEM_SIZE, SIZE as u64),
        (LOAD_32, program_32::FLAGS, 6),
        (DYNAMIC_32, program_32::MEM_SIZE, 0x200),
        (DYNAMIC_32, program_32::FLAGS, 6),
        (TABLE, NARROW, 0x1600),
        (TABLE + 4, NARROW, 8),
        (TABLE + 8, NARROW, 0x1604),
        (TABLE + 12, NARROW, 0x101),
        (TABLE + 16, NARROW, 0x1608),
        (TABLE + 20, NARROW, 0x107),
        (TABLE + 32, NARROW, 0x160c),
    ] {
        set(&mut file, start, place, value, Order::Little);
    }
    file
}

const ALL_32: &[Row] = &[
    (&[], Ok(())),
    // a count of one relative relocation, and of two, in place of the packed ones
    (
        &[
            (PACKED_32 - 4, NARROW, COUNT_OF_REL),
            (PACKED_32, NARROW, 1),
        ],
        Ok(()),
    ),
    (
        &[
            (PACKED_32 - 4, NARROW, COUNT_OF_REL),
            (PACKED_32, NARROW, 2),
        ],
        Err(LoadError::RelativeCount),
    ),
    // the same at address 0, where there is no table
    (
        &[
            (PACKED_32 - 4, NARROW, COUNT_OF_REL),
            (PACKED_32, NARROW, 2),
            (REL, NARROW, 0),
        ],
        Ok(()),
    ),
    (&[(TABLE + 20, NARROW, 0x106)], Err(LoadError::SlotType)),
    (&[(TABLE + 12, NARROW, 0x226)], Err(LoadError::NoSize)),
    (&[(REL_EACH, NARROW, 12)], Err(LoadError::RelocationSize)),
    (
        &[(PACKED_EACH_32, NARROW, 8)],
        Err(LoadError::RelocationSize),
    ),
    (&[(REL_SIZE, NARROW, 15)], Err(LoadError::NotMultiple)),
    (&[(PACKED_SIZE_32, NARROW, 3)], Err(LoadError::NotMultiple)),
    // slots with addends, and others: glibc adds them, where the supplement has none
    (&[(KIND_32, NARROW, 7)], Err(LoadError::Addends)),
    (&[(REL - 4, NARROW, 7)], Err(LoadError::Addends)),
    (&[(KIND_32, NARROW, 8)], Err(LoadError::SlotKind)),
    (&[(REL, NARROW, 0x9000)], Err(LoadError::Unreadable)),
    (&[(0, header_32::MACHINE, 62)], Err(LoadError::Machine)),
    (&[(TABLE + 4, NARROW, 9)], Err(LoadError::WordType)),
    (&[(TABLE, NARROW, 0x167c)], Ok(())),
    // the addend is the word there
    (
        &[(TABLE, NARROW, 0x167d)],
        Err(LoadError::Link(LinkError::Address)),
    ),
    (&[(TABLE, NARROW, 0x1601)], Err(LoadError::WordsOverlap)),
    (&[(TABLE, NARROW, 0x15fc)], Ok(())),
    (
        &[(TABLE + 16, NARROW, 0x1607)],
        Err(LoadError::WordsOverlap),
    ),
    (
        &[(TABLE + 32, NARROW, 0x1606)],
        Err(LoadError::WordsOverlap),
    ),
    (&[(TABLE, NARROW, 0x1268)], Ok(())),
    (&[(TABLE, NARROW, 0x1263)], Err(LoadError::WordInTable)),
    (&[(TABLE, NARROW, 0x1180)], Ok(())),
    (&[(TABLE, NARROW, 0x117f)], Err(LoadError::WordInTable)),
];

#[test]
fn class_32(rt: HostRuntime) {
    check_rows::<DynEntry32>(&rt, file_32(), ALL_32);
}
