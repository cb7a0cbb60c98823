//! Each error of a check, and which of two comes first.

use crate::tests::rows::{LIMIT, Row, file_32, file_64, open};
use crate::tests::want::want_at;
use elf_loading::{LoadError, LoadPlan};
use std::process::Abort;
use std::test::Fail;
use worked_files::places::{Place, header_64, program_64, set};
use xmas_elf::bytes::Order;

// Two loads, the second with zeros after its bytes, PT_INTERP, PT_GNU_RELRO, PT_TLS and PT_PHDR, in
// a file of 0x2000 bytes. The path is the two bytes at 0x3fe, which are zero.
const ROWS: &[Row] = &[
    (1, 5, 0, 0, 0x1000, 0x1000, 0x1000),
    (1, 6, 0x1100, 0x2100, 0x200, 0x1f00, 0x1000),
    (3, 4, 0x3fe, 0x3fe, 2, 2, 1),
    (0x6474_e552, 4, 0x1100, 0x2100, 0x100, 0x1f00, 1),
    (7, 4, 0x1100, 0x2100, 0x20, 0x40, 8),
    (6, 4, 0x40, 0x40, 0x150, 0x150, 8),
];

// The place of the header among the changes of a file; others are indices of program headers.
const HEADER: usize = usize::MAX;

// Fields that are changed: the program header, the field, and its new value; and the error.
type Change = (usize, Place, u64);

const CHANGES: &[(&[Change], Option<LoadError>)] = &[
    (&[], None),
    (&[(HEADER, header_64::TYPE, 1)], Some(LoadError::Type)),
    (&[(HEADER, header_64::TYPE, 4)], Some(LoadError::Type)),
    // Larger entries: Linux 6.18 says ENOEXEC, and glibc 2.36 "ELF file's phentsize not the expected size".
    (
        &[(HEADER, header_64::PH_ENTRY_SIZE, 57)],
        Some(LoadError::EntrySize),
    ),
    (
        &[(HEADER, header_64::PH_ENTRY_SIZE, 64)],
        Some(LoadError::EntrySize),
    ),
    (&[(HEADER, header_64::PH_COUNT, 0)], Some(LoadError::Count)),
    (&[(HEADER, header_64::PH_COUNT, 74)], Some(LoadError::Count)),
    // Linux says ENOEXEC, whatever section header 0 has (PN_XNUM): so many records are more than 64 KB.
    (
        &[(HEADER, header_64::PH_COUNT, 0xffff)],
        Some(LoadError::Count),
    ),
    // A table cut by the end of the file: ENOEXEC, and "cannot read file data".
    (
        &[(HEADER, header_64::PH_OFFSET, 0x1eb1)],
        Some(LoadError::Table),
    ),
    (
        &[(HEADER, header_64::PH_OFFSET, u64::MAX)],
        Some(LoadError::Table),
    ),
    (
        &[(HEADER, header_64::PH_OFFSET, 0x1eb0)],
        Some(LoadError::NoLoad),
    ),
    (
        &[(0, program_64::FILE_SIZE, 0x1001)],
        Some(LoadError::FileSize),
    ),
    (&[(0, program_64::FILE_SIZE, 0)], Some(LoadError::Empty)),
    (
        &[(1, program_64::FILE_SIZE, 0), (1, program_64::MEM_SIZE, 0)],
        Some(LoadError::Empty),
    ),
    (
        &[(1, program_64::OFFSET, 0x1101)],
        Some(LoadError::Misaligned),
    ),
    (&[(1, program_64::ALIGN, 3)], Some(LoadError::Alignment)),
    (&[(1, program_64::ALIGN, 0)], None),
    (
        &[(1, program_64::MEM_SIZE, u64::MAX)],
        Some(LoadError::Range),
    ),
    (&[(1, program_64::MEM_SIZE, 0x7fff_ffff_cf00)], None),
    (
        &[(1, program_64::MEM_SIZE, 0x7fff_ffff_cf01)],
        Some(LoadError::Range),
    ),
    // No memory, at the limit: Linux kills the program.
    (
        &[
            (1, program_64::FILE_SIZE, 0),
            (1, program_64::MEM_SIZE, 0),
            (1, program_64::OFFSET, 0),
            (1, program_64::VIRTUAL_ADDR, LIMIT),
        ],
        Some(LoadError::Range),
    ),
    (&[(1, program_64::FILE_SIZE, 0xf00)], None),
    (&[(1, program_64::FILE_SIZE, 0xf01)], Some(LoadError::Data)),
    (&[(1, program_64::FILE_SIZE, 0)], None),
    (
        &[
            (1, program_64::FILE_SIZE, 0),
            (1, program_64::OFFSET, 0x2100),
        ],
        Some(LoadError::Data),
    ),
    (
        &[(1, program_64::VIRTUAL_ADDR, 0x100)],
        Some(LoadError::Overlap),
    ),
    (&[(1, program_64::FLAGS, 4)], Some(LoadError::Zeros)),
    (&[(1, program_64::FLAGS, 2)], Some(LoadError::Zeros)),
    (&[(1, program_64::FLAGS, 7)], None),
    (
        &[(0, program_64::TYPE, 0), (1, program_64::TYPE, 0)],
        Some(LoadError::NoLoad),
    ),
    (
        &[(5, program_64::VIRTUAL_ADDR, 0x48)],
        Some(LoadError::Headers),
    ),
    (&[(5, program_64::TYPE, 0)], Some(LoadError::Headers)),
    (
        &[(5, program_64::TYPE, 0), (HEADER, header_64::TYPE, 2)],
        None,
    ),
    (&[(5, program_64::TYPE, 0), (2, program_64::TYPE, 0)], None),
    (
        &[(2, program_64::FILE_SIZE, 1)],
        Some(LoadError::Interpreter),
    ),
    (
        &[(2, program_64::FILE_SIZE, 3)],
        Some(LoadError::Interpreter),
    ),
    (
        &[(2, program_64::FILE_SIZE, 4097)],
        Some(LoadError::Interpreter),
    ),
    (
        &[(2, program_64::OFFSET, 0x1fff)],
        Some(LoadError::Interpreter),
    ),
    (&[(3, program_64::MEM_SIZE, 0x2eff)], None),
    (&[(3, program_64::MEM_SIZE, 0x2f00)], Some(LoadError::Relro)),
    (
        &[(3, program_64::VIRTUAL_ADDR, 0x1fff)],
        Some(LoadError::Relro),
    ),
    (
        &[
            (3, program_64::VIRTUAL_ADDR, u64::MAX),
            (3, program_64::MEM_SIZE, u64::MAX),
        ],
        Some(LoadError::Relro),
    ),
    (&[(4, program_64::FILE_SIZE, 0x41)], Some(LoadError::Tls)),
    (&[(4, program_64::ALIGN, 0)], Some(LoadError::Tls)),
    (&[(4, program_64::ALIGN, 3)], Some(LoadError::Tls)),
    (
        &[(4, program_64::VIRTUAL_ADDR, 0x3ff0)],
        Some(LoadError::Tls),
    ),
    (
        &[
            (4, program_64::FILE_SIZE, 0x41),
            (4, program_64::MEM_SIZE, 0),
        ],
        None,
    ),
    // Linux kills a program without an interpreter.
    (
        &[
            (HEADER, header_64::ENTRY_POINT, LIMIT),
            (2, program_64::TYPE, 0),
            (5, program_64::TYPE, 0),
        ],
        Some(LoadError::Entry),
    ),
    (
        &[
            (HEADER, header_64::ENTRY_POINT, LIMIT - 1),
            (2, program_64::TYPE, 0),
            (5, program_64::TYPE, 0),
        ],
        None,
    ),
    (&[(HEADER, header_64::ENTRY_POINT, LIMIT)], None),
    (
        &[
            (HEADER, header_64::TYPE, 1),
            (HEADER, header_64::PH_ENTRY_SIZE, 64),
        ],
        Some(LoadError::Type),
    ),
    (
        &[
            (0, program_64::ALIGN, 3),
            (1, program_64::FILE_SIZE, 0x2000),
        ],
        Some(LoadError::Alignment),
    ),
    (
        &[
            (1, program_64::MEM_SIZE, u64::MAX),
            (1, program_64::FILE_SIZE, 0xf01),
        ],
        Some(LoadError::Range),
    ),
    (
        &[
            (5, program_64::VIRTUAL_ADDR, 0x48),
            (4, program_64::ALIGN, 3),
        ],
        Some(LoadError::Headers),
    ),
];

// Changes a field of the header, or of a program header.
fn change(file: &mut [u8], change: Change) {
    let start = if change.0 == HEADER {
        0
    } else {
        change.0.wrapping_mul(56).wrapping_add(64)
    };
    set(file, start, change.1, change.2, Order::Little);
}

// Wants this error of a file, or none.
fn check(rt: &impl Abort, row: usize, bytes: &[u8], wanted: Option<LoadError>) {
    let file = open(rt, bytes);
    let found = LoadPlan::check_load(&file, 4096, LIMIT).err();
    want_at(rt, row, found, wanted);
}

#[test]
fn returns_the_first_error(rt: HostRuntime) -> Result<(), Fail> {
    for (row, (changes, wanted)) in CHANGES.iter().enumerate() {
        let mut bytes = file_64(rt.alloc(), 0x2000, 3, ROWS)?;
        for it in changes.iter() {
            change(bytes.as_mut_slice(), *it);
        }
        check(&rt, row, bytes.as_slice(), *wanted);
    }
    Ok(())
}

// A load of class 32, and its zeros.
const NARROW: &[Row] = &[
    (1, 5, 0, 0x0804_8000, 0x1000, 0x1000, 0x1000),
    (1, 6, 0x1000, 0x0804_9000, 0x10, 0x20, 0x1000),
];

#[test]
fn checks_class_32(rt: HostRuntime) -> Result<(), Fail> {
    let bytes = file_32(rt.alloc(), 0x1010, 2, NARROW)?;
    let file = open(&rt, &bytes);
    let plan = LoadPlan::check_load(&file, 4096, 0xffff_e000);
    want_at(&rt, "fits", plan.is_ok(), true);
    let plan = LoadPlan::check_load(&file, 4096, 0x0804_9fff);
    want_at(&rt, "limit", plan.err(), Some(LoadError::Range));
    let plan = LoadPlan::check_load(&file, 63, 0xffff_e000);
    want_at(&rt, "page", plan.err(), Some(LoadError::Count));
    Ok(())
}
