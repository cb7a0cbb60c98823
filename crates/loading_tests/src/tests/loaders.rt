//! Which files one loader maps.
//!
//! Each row is a change that `oracle/loaders.py` makes to a program and a library of gcc too, and
//! tries with Linux 6.18 and glibc 2.36. Where a column has an error, Linux didn't run that program
//! (`execve` failed, or the process was killed), or glibc didn't load that library (`dlopen` failed, or
//! the process crashed, or a program with the library in LD_PRELOAD). A program or a library without
//! an error may still end, for other reasons.

use crate::tests::rows::{LIMIT, Row, file_64, open};
use crate::tests::want::want_at;
use elf_loading::{LoadError, LoadPlan, Loader};
use std::test::Fail;
use worked_files::places::{Place, header_64, program_64, set};
use xmas_elf::bytes::Order;

// Two loads, the second with zeros after its bytes, PT_INTERP, PT_GNU_RELRO, PT_TLS, PT_DYNAMIC and
// a program header without a type, in a file of 0x2000 bytes.
const ROWS: &[Row] = &[
    (1, 5, 0, 0, 0x1000, 0x1000, 0x1000),
    (1, 6, 0x1100, 0x2100, 0x200, 0x1f00, 0x1000),
    (3, 4, 0x3fe, 0x3fe, 2, 2, 1),
    (0x6474_e552, 4, 0x1100, 0x2100, 0x100, 0x1f00, 1),
    (7, 4, 0x1100, 0x2100, 0x20, 0x40, 8),
    (2, 6, 0x1200, 0x2200, 0x40, 0x40, 8),
    (0, 6, 0, 0, 0, 0, 0x1000),
];

// The place of the header among the changes of a file; others are indices of program headers.
const HEADER: usize = usize::MAX;

const KIND: Place = program_64::TYPE;

const FLAGS: Place = program_64::FLAGS;

const OFFSET: Place = program_64::OFFSET;

const ADDRESS: Place = program_64::VIRTUAL_ADDR;

const SIZE: Place = program_64::FILE_SIZE;

const MEMORY: Place = program_64::MEM_SIZE;

const ALIGN: Place = program_64::ALIGN;

// Fields that are changed: the program header, the field, and its new value.
type Change = (usize, Place, u64);

// What it is, the changes, the error of Linux and that of glibc.
type Case = (
    &'static str,
    &'static [Change],
    Option<LoadError>,
    Option<LoadError>,
);

const CASES: &[Case] = &[
    ("none", &[], None, None),
    (
        "ABI",
        &[(HEADER, Place(7, 1), 9), (HEADER, Place(9, 1), 1)],
        None,
        Some(LoadError::OsAbi),
    ),
    (
        "version of the first bytes",
        &[(HEADER, Place(6, 1), 2), (HEADER, Place(7, 1), 9)],
        None,
        Some(LoadError::IdentVersion),
    ),
    (
        "version of the ABI",
        &[(HEADER, Place(8, 1), 1), (HEADER, Place(15, 1), 1)],
        None,
        Some(LoadError::AbiVersion),
    ),
    (
        "version of the ABI of GNU",
        &[(HEADER, Place(7, 1), 3), (HEADER, Place(8, 1), 3)],
        None,
        None,
    ),
    (
        "padding",
        &[(HEADER, Place(15, 1), 1), (HEADER, Place(20, 1), 2)],
        None,
        Some(LoadError::Padding),
    ),
    (
        "version",
        &[(HEADER, Place(20, 1), 2), (HEADER, header_64::TYPE, 1)],
        Some(LoadError::Type),
        Some(LoadError::Version),
    ),
    (
        "type",
        &[(HEADER, header_64::TYPE, 1)],
        Some(LoadError::Type),
        Some(LoadError::Type),
    ),
    (
        "a program at a fixed address",
        &[(HEADER, header_64::TYPE, 2)],
        None,
        Some(LoadError::Executable),
    ),
    (
        "larger entries",
        &[(HEADER, header_64::PH_ENTRY_SIZE, 64)],
        Some(LoadError::EntrySize),
        Some(LoadError::EntrySize),
    ),
    (
        "no program header",
        &[(HEADER, header_64::PH_COUNT, 0)],
        Some(LoadError::Count),
        Some(LoadError::NoLoad),
    ),
    (
        "a table cut by the end",
        &[(HEADER, header_64::PH_OFFSET, 0x1f00)],
        Some(LoadError::Table),
        Some(LoadError::Table),
    ),
    (
        "more bytes than memory",
        &[(0, SIZE, 0x1008)],
        Some(LoadError::FileSize),
        None,
    ),
    ("no bytes in the first", &[(0, SIZE, 0)], None, None),
    (
        "another without memory inside a page",
        &[(6, KIND, 1), (6, ADDRESS, 0x5008), (6, OFFSET, 8)],
        None,
        None,
    ),
    (
        "misaligned",
        &[(1, OFFSET, 0x1108)],
        Some(LoadError::Misaligned),
        Some(LoadError::Misaligned),
    ),
    (
        "misaligned without bytes",
        &[
            (6, KIND, 1),
            (6, ADDRESS, 0x5008),
            (6, OFFSET, 16),
            (6, MEMORY, 8),
        ],
        None,
        Some(LoadError::Misaligned),
    ),
    (
        "an alignment of three pages",
        &[(1, ALIGN, 0x3000)],
        None,
        None,
    ),
    (
        "an alignment of 2 to the 45",
        &[(1, ALIGN, 1 << 45)],
        None,
        None,
    ),
    (
        "an alignment of 2 to the 46",
        &[(1, ALIGN, 1 << 46)],
        None,
        Some(LoadError::Range),
    ),
    (
        "of 2 to the 63, of the first",
        &[(0, ALIGN, 1 << 63)],
        None,
        Some(LoadError::Range),
    ),
    (
        "of three times 2 to the 46",
        &[(1, ALIGN, 3 << 46)],
        None,
        None,
    ),
    (
        "of a quarter of the addresses, with pages of three quarters",
        &[(6, KIND, 1), (6, ADDRESS, 3 << 45), (1, ALIGN, 1 << 45)],
        None,
        Some(LoadError::Range),
    ),
    (
        "too much memory",
        &[(1, MEMORY, 1 << 47)],
        Some(LoadError::Range),
        Some(LoadError::Range),
    ),
    (
        "an address that wraps",
        &[(1, MEMORY, 0xffff_ffff_ffff_f000)],
        Some(LoadError::Range),
        Some(LoadError::Range),
    ),
    (
        "no memory at the limit",
        &[(6, KIND, 1), (6, ADDRESS, LIMIT)],
        Some(LoadError::Range),
        Some(LoadError::Range),
    ),
    ("bytes past the end", &[(0, OFFSET, 1 << 20)], None, None),
    (
        "an offset of 2 to the 63",
        &[(0, OFFSET, 1 << 63)],
        Some(LoadError::Data),
        Some(LoadError::Data),
    ),
    (
        "the last page of 2 to the 63",
        &[
            (6, KIND, 1),
            (6, ADDRESS, 0x5000),
            (6, OFFSET, 0x7fff_ffff_ffff_f000),
            (6, SIZE, 0x1000),
            (6, MEMORY, 0x1000),
        ],
        Some(LoadError::Data),
        Some(LoadError::Data),
    ),
    (
        "the page before it",
        &[
            (6, KIND, 1),
            (6, ADDRESS, 0x5000),
            (6, OFFSET, 0x7fff_ffff_ffff_e000),
            (6, SIZE, 0x1000),
            (6, MEMORY, 0x1000),
        ],
        None,
        None,
    ),
    (
        "the first, whose offsets are those of all pages",
        &[(0, OFFSET, 0x7fff_ffff_ffff_c000)],
        None,
        Some(LoadError::Data),
    ),
    (
        "the page before",
        &[(0, OFFSET, 0x7fff_ffff_ffff_b000)],
        None,
        None,
    ),
    (
        "the first without bytes",
        &[(0, OFFSET, 1 << 63), (0, SIZE, 0)],
        None,
        Some(LoadError::Data),
    ),
    (
        "zeros begin past the end",
        &[(1, OFFSET, 0x10_0100)],
        Some(LoadError::Data),
        Some(LoadError::Data),
    ),
    (
        "the same, not writable",
        &[(1, OFFSET, 0x10_0100), (1, FLAGS, 4)],
        None,
        Some(LoadError::Data),
    ),
    (
        "the same without bytes",
        &[
            (6, KIND, 1),
            (6, ADDRESS, 0x5008),
            (6, OFFSET, 0x10_0008),
            (6, MEMORY, 8),
        ],
        None,
        Some(LoadError::Data),
    ),
    (
        "the same at a page",
        &[
            (6, KIND, 1),
            (6, ADDRESS, 0x5000),
            (6, OFFSET, 0x10_0000),
            (6, MEMORY, 8),
        ],
        None,
        None,
    ),
    (
        "the first over the second",
        &[(0, SIZE, 0x2000), (0, MEMORY, 0x2000)],
        None,
        None,
    ),
    ("zeros not writable", &[(0, MEMORY, 0x1008)], None, None),
    (
        "the last before the others",
        &[(6, KIND, 1), (6, ADDRESS, 0x1000)],
        None,
        Some(LoadError::Overlap),
    ),
    (
        "the last at 0",
        &[(6, KIND, 1)],
        None,
        Some(LoadError::Range),
    ),
    (
        "the last from 0 to the end",
        &[(6, KIND, 1), (6, MEMORY, 0x4000)],
        None,
        Some(LoadError::Overlap),
    ),
    (
        "the first after the last",
        &[(0, ADDRESS, 0x2_0000)],
        None,
        Some(LoadError::Range),
    ),
    (
        "no load",
        &[(0, KIND, 0), (1, KIND, 0)],
        None,
        Some(LoadError::NoLoad),
    ),
    (
        "loads without memory",
        &[
            (0, SIZE, 0),
            (0, MEMORY, 0),
            (1, SIZE, 0),
            (1, MEMORY, 0),
            (1, ADDRESS, 0),
            (1, OFFSET, 0),
        ],
        Some(LoadError::Empty),
        Some(LoadError::Range),
    ),
    (
        "a short path",
        &[(2, SIZE, 1)],
        Some(LoadError::Interpreter),
        None,
    ),
    (
        "a long path",
        &[(2, SIZE, 5000)],
        Some(LoadError::Interpreter),
        None,
    ),
    (
        "a path without a zero",
        &[(2, SIZE, 3)],
        Some(LoadError::Interpreter),
        None,
    ),
    (
        "a path past the end",
        &[(2, OFFSET, 0x1fff)],
        Some(LoadError::Interpreter),
        None,
    ),
    (
        "an entry point past the end, and an interpreter",
        &[(HEADER, header_64::ENTRY_POINT, LIMIT)],
        None,
        None,
    ),
    (
        "an entry point past the end",
        &[(HEADER, header_64::ENTRY_POINT, LIMIT), (2, KIND, 0)],
        Some(LoadError::Entry),
        None,
    ),
    (
        "the last entry point",
        &[(HEADER, header_64::ENTRY_POINT, LIMIT - 1), (2, KIND, 0)],
        None,
        None,
    ),
    (
        "no dynamic segment",
        &[(5, KIND, 0)],
        None,
        Some(LoadError::NoDynamic),
    ),
    (
        "a dynamic segment at 0",
        &[(5, ADDRESS, 0)],
        None,
        Some(LoadError::NoDynamic),
    ),
    (
        "no bytes of it",
        &[(5, SIZE, 0)],
        None,
        Some(LoadError::NoDynamic),
    ),
    (
        "an empty dynamic segment behind it",
        &[(6, KIND, 2), (6, ADDRESS, 0x2200), (6, MEMORY, 0x40)],
        None,
        Some(LoadError::NoDynamic),
    ),
    (
        "an empty dynamic segment before it",
        &[(3, KIND, 2), (3, SIZE, 0)],
        None,
        Some(LoadError::NoDynamic),
    ),
    (
        "two dynamic segments",
        &[(6, KIND, 2), (6, ADDRESS, 0x2240), (6, SIZE, 0x20)],
        None,
        None,
    ),
    (
        "two, the last at 0",
        &[(6, KIND, 2), (6, SIZE, 0x20)],
        None,
        Some(LoadError::NoDynamic),
    ),
    (
        "two, the first at 0",
        &[(3, KIND, 2), (3, ADDRESS, 0)],
        None,
        None,
    ),
    (
        "relro far away",
        &[(3, ADDRESS, 1 << 40)],
        None,
        Some(LoadError::Relro),
    ),
    (
        "less than a page of it",
        &[(3, ADDRESS, 1 << 40), (3, MEMORY, 16)],
        None,
        None,
    ),
    (
        "relro between loads",
        &[
            (6, KIND, 1),
            (6, ADDRESS, 0x10_0000),
            (6, MEMORY, 16),
            (3, ADDRESS, 0x4_0000),
        ],
        None,
        None,
    ),
    (
        "a larger template",
        &[(4, SIZE, 0x41)],
        None,
        Some(LoadError::Tls),
    ),
    (
        "a template far away",
        &[(4, ADDRESS, 1 << 28)],
        None,
        Some(LoadError::Tls),
    ),
    ("an alignment of 3", &[(4, ALIGN, 3)], None, None),
    (
        "an alignment of 0",
        &[(4, ALIGN, 0)],
        None,
        Some(LoadError::Tls),
    ),
];

// Changes a field of the header, or of a program header.
fn change(file: &mut [u8], change: Change) {
    let start = if change.0 == HEADER {
        0
    } else {
        change.0.wrapping_mul(56).wrapping_add(64)
    };
    set(file, start, change.1, change.2, Order::Little);
}

#[test]
fn glibc_wants_little_endian(rt: HostRuntime) -> Result<(), Fail> {
    let mut bytes = file_64(rt.alloc(), 0x2000, 3, ROWS)?;
    change(bytes.as_mut_slice(), (HEADER, Place(5, 1), 2));
    let file = open(&rt, bytes.as_slice());
    let found = LoadPlan::check_load_by(&file, 4096, LIMIT, Loader::Glibc);
    want_at(&rt, "byte order", found, Err(LoadError::ByteOrder));
    Ok(())
}

#[test]
fn each_loader_has_its_errors(rt: HostRuntime) -> Result<(), Fail> {
    for (name, changes, kernel, glibc) in CASES.iter() {
        let mut bytes = file_64(rt.alloc(), 0x2000, 3, ROWS)?;
        change(bytes.as_mut_slice(), (HEADER, Place(20, 1), 1));
        for it in changes.iter() {
            change(bytes.as_mut_slice(), *it);
        }
        let file = open(&rt, bytes.as_slice());
        let found = LoadPlan::check_load_by(&file, 4096, LIMIT, Loader::Kernel).err();
        want_at(&rt, (*name, "Linux"), found, *kernel);
        let found = LoadPlan::check_load_by(&file, 4096, LIMIT, Loader::Glibc).err();
        want_at(&rt, (*name, "glibc"), found, *glibc);
    }
    Ok(())
}
