//! Plans of a program and a library: segments as `readelf -lW` prints them, and mappings as Linux
//! and glibc made them (/proc/PID/maps, less the base).

use crate::callers::{is_read_only_after_relocation, never_writable_and_executable};
use crate::tests::rows::{LIMIT, Row, file_64, open};
use crate::tests::want::want_at;
use elf_loading::{Contents, LoadPlan, Loader, Mapping, Span, Tls};
use std::process::Abort;
use std::test::Fail;
use worked_files::places::{header_64, program_64, set};
use xmas_elf::bytes::Order;
use xmas_elf::program::Flags;

// The segments of /usr/bin/sleep of Debian that matter, and its size.
const SLEEP: &[Row] = &[
    (6, 4, 0x40, 0x40, 0x2d8, 0x2d8, 8),
    (1, 4, 0, 0, 0x14a0, 0x14a0, 0x1000),
    (1, 5, 0x2000, 0x2000, 0x4609, 0x4609, 0x1000),
    (1, 4, 0x7000, 0x7000, 0x1e30, 0x1e30, 0x1000),
    (1, 6, 0x9d10, 0x9d10, 0x4f0, 0x6b0, 0x1000),
    (0x6474_e551, 6, 0, 0, 0, 0, 0x10),
    (0x6474_e552, 4, 0x9d10, 0x9d10, 0x2f0, 0x2f0, 1),
];

// Those of libc.so.6, and its size.
const LIBC: &[Row] = &[
    (6, 4, 0x40, 0x40, 0x310, 0x310, 8),
    (1, 4, 0, 0, 0x25388, 0x25388, 0x1000),
    (1, 5, 0x26000, 0x26000, 0x1550fc, 0x1550fc, 0x1000),
    (1, 4, 0x17c000, 0x17c000, 0x52c31, 0x52c31, 0x1000),
    (1, 6, 0x1cf8d0, 0x1cf8d0, 0x4f98, 0x12680, 0x1000),
    (7, 4, 0x1cf8d0, 0x1cf8d0, 0x10, 0x90, 8),
    (0x6474_e551, 6, 0, 0, 0, 0, 0x10),
    (0x6474_e552, 4, 0x1cf8d0, 0x1cf8d0, 0x3730, 0x3730, 1),
];

// A mapping: its start and end, its flags, and the offset in the file; without one it holds zeros.
type Line = (u64, u64, u32, Option<u64>);

const SLEEP_MAPS: &[Line] = &[
    (0, 0x2000, 4, Some(0)),
    (0x2000, 0x7000, 5, Some(0x2000)),
    (0x7000, 0x9000, 4, Some(0x7000)),
    (0x9000, 0xb000, 6, Some(0x9000)),
];

const LIBC_MAPS: &[Line] = &[
    (0, 0x26000, 4, Some(0)),
    (0x26000, 0x17c000, 5, Some(0x26000)),
    (0x17c000, 0x1cf000, 4, Some(0x17c000)),
    (0x1cf000, 0x1d5000, 6, Some(0x1cf000)),
    (0x1d5000, 0x1e2000, 6, None),
];

fn mapping_of(line: &Line) -> Mapping {
    Mapping {
        start: line.0,
        end: line.1,
        flags: Flags(line.2),
        contents: match line.3 {
            Some(offset) => Contents::File(offset),
            None => Contents::Zero,
        },
    }
}

// Wants these mappings of a plan, in this order.
fn check_mappings(rt: &impl Abort, plan: &LoadPlan<'_>, by: Loader, lines: &[Line]) {
    let mut mappings = plan.mappings(by);
    for line in lines {
        want_at(rt, line.0, mappings.next(), Some(mapping_of(line)));
    }
    want_at(rt, "the end", mappings.next(), None);
}

// Its program header table is at offset 0: the first record begins with the ELF header, the second with the
// number of entries, and the third is a load. Linux 6.18 runs such a program, and glibc 2.36 loads such a
// library.
#[test]
fn plans_a_table_at_offset_0(rt: HostRuntime) -> Result<(), Fail> {
    let mut bytes = file_64(rt.alloc(), 0x20c, 2, &[])?;
    let changes = [
        (0, header_64::PH_OFFSET, 0),
        (0, header_64::PH_COUNT, 3),
        (0, header_64::SH_ENTRY_SIZE, 1),
        (112, program_64::TYPE, 1),
        (112, program_64::FLAGS, 5),
        (112, program_64::VIRTUAL_ADDR, 0x40_0000),
        (112, program_64::FILE_SIZE, 0x20c),
        (112, program_64::MEM_SIZE, 0x20c),
        (112, program_64::ALIGN, 0x1000),
    ];
    for (start, place, value) in changes {
        set(bytes.as_mut_slice(), start, place, value, Order::Little);
    }
    let file = open(&rt, &bytes);
    let plan = LoadPlan::check_load(&file, 4096, LIMIT)?;
    let wanted = Span {
        start: 0x40_0000,
        end: 0x40_1000,
    };
    want_at(&rt, "span", plan.span(), wanted);
    Ok(())
}

#[test]
fn plans_a_program(rt: HostRuntime) -> Result<(), Fail> {
    let bytes = file_64(rt.alloc(), 43_888, 3, SLEEP)?;
    let file = open(&rt, &bytes);
    let plan = LoadPlan::check_load(&file, 4096, LIMIT)?;
    check_mappings(&rt, &plan, Loader::Kernel, SLEEP_MAPS);
    want_at(
        &rt,
        "span",
        plan.span(),
        Span {
            start: 0,
            end: 0xb000,
        },
    );
    let relro = Span {
        start: 0x9000,
        end: 0xa000,
    };
    want_at(&rt, "relro", plan.relro(), Some(relro));
    want_at(&rt, "stack", plan.stack(), Some(Flags(6)));
    want_at(&rt, "tls", plan.tls(), None);
    want_at(&rt, "interpreter", plan.interpreter().is_none(), true);
    want_at(&rt, "entry", plan.entry(), 0);
    let apart = never_writable_and_executable(&plan, Loader::Kernel);
    want_at(&rt, "writable and executable", apart, true);
    for (address, wanted) in [
        (0x8fff, false),
        (0x9000, true),
        (0x9fff, true),
        (0xa000, false),
    ] {
        let found = is_read_only_after_relocation(&plan, address);
        want_at(&rt, address, found, wanted);
    }
    Ok(())
}

#[test]
fn plans_a_library(rt: HostRuntime) -> Result<(), Fail> {
    let bytes = file_64(rt.alloc(), 1_926_232, 3, LIBC)?;
    let file = open(&rt, &bytes);
    let plan = LoadPlan::check_load(&file, 4096, LIMIT)?;
    check_mappings(&rt, &plan, Loader::Glibc, LIBC_MAPS);
    let tls = Tls {
        address: 0x1cf8d0,
        file_size: 0x10,
        mem_size: 0x90,
        align: 8,
    };
    want_at(&rt, "tls", plan.tls(), Some(tls));
    let relro = Span {
        start: 0x1cf000,
        end: 0x1d3000,
    };
    want_at(&rt, "relro", plan.relro(), Some(relro));
    Ok(())
}
