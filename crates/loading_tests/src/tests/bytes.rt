//! The byte at addresses, for both loaders and pages of three sizes.

use crate::callers::image_of;
use crate::tests::rows::{LIMIT, Row, file_64, open};
use crate::tests::want::want_at;
use elf_loading::{Byte, LoadError, LoadPlan, Loader};
use std::process::Abort;
use std::test::Fail;

// A load that ends inside a page, one with zeros that ends in the page of its bytes, and one without
// bytes that begins inside a page.
const ROWS: &[Row] = &[
    (1, 4, 0, 0, 0x500, 0x500, 0x1000),
    (1, 6, 0x600, 0x10600, 0x100, 0x200, 0x1000),
    (1, 6, 0x40, 0x20040, 0, 0x20, 0x1000),
];

// An address, and the byte there of Linux and of glibc; of the file, its offset.
type Asked = (u64, Option<Byte>, Option<Byte>);

const ASKED: &[Asked] = &[
    (0, Some(Byte::File(0)), Some(Byte::File(0))),
    (0x4ff, Some(Byte::File(0x4ff)), Some(Byte::File(0x4ff))),
    (0x500, Some(Byte::File(0x500)), Some(Byte::File(0x500))),
    (0xbff, Some(Byte::File(0xbff)), Some(Byte::File(0xbff))),
    (0xc00, Some(Byte::Zero), Some(Byte::Zero)),
    (0xffff, None, None),
    (0x10000, Some(Byte::File(0)), Some(Byte::File(0))),
    (0x106ff, Some(Byte::File(0x6ff)), Some(Byte::File(0x6ff))),
    (0x10700, Some(Byte::Zero), Some(Byte::Zero)),
    (0x107ff, Some(Byte::Zero), Some(Byte::Zero)),
    (0x10800, Some(Byte::Zero), Some(Byte::File(0x800))),
    (0x10c00, Some(Byte::Zero), Some(Byte::Zero)),
    (0x20000, Some(Byte::Zero), Some(Byte::File(0))),
    (0x2003f, Some(Byte::Zero), Some(Byte::File(0x3f))),
    (0x20040, Some(Byte::Zero), Some(Byte::Zero)),
    (0x20060, Some(Byte::Zero), Some(Byte::File(0x60))),
    (u64::MAX, None, None),
];

// Wants these bytes of a plan.
fn check(rt: &impl Abort, plan: &LoadPlan<'_>) {
    for &(address, linux, glibc) in ASKED {
        want_at(rt, address, plan.byte_at(address, Loader::Kernel), linux);
        want_at(rt, address, plan.byte_at(address, Loader::Glibc), glibc);
    }
}

#[test]
fn bytes_of_both_loaders(rt: HostRuntime) -> Result<(), Fail> {
    let bytes = file_64(rt.alloc(), 0xc00, 3, ROWS)?;
    let file = open(&rt, &bytes);
    let plan = LoadPlan::check_load(&file, 0x1000, LIMIT)?;
    check(&rt, &plan);
    for (page, end) in [(0x1000, 0x21000), (0x4000, 0x24000), (0x10000, 0x30000)] {
        let plan = LoadPlan::check_load(&file, page, LIMIT)?;
        want_at(&rt, page, plan.span().end, end);
    }
    Ok(())
}

// An address, and the number of the byte there of Linux and of glibc. Bytes from 0x400 on are 1, and
// that at 0x61 is the second byte of 0x500.
const NUMBERS: &[(usize, u8, u8)] = &[
    (0, 0x7f, 0x7f),
    (0x61, 5, 5),
    (0x4ff, 1, 1),
    (0x500, 1, 1),
    (0xc00, 0, 0),
    (0x5000, 0, 0),
    (0x106ff, 1, 1),
    (0x10700, 0, 0),
    (0x10800, 0, 1),
    (0x20040, 0, 0),
    (0x20061, 0, 5),
];

#[test]
fn fills_an_image(rt: HostRuntime) -> Result<(), Fail> {
    let bytes = file_64(rt.alloc(), 0xc00, 3, ROWS)?;
    let file = open(&rt, &bytes);
    let plan = LoadPlan::check_load(&file, 0x1000, LIMIT)?;
    let mut short = [7u8; 3];
    let failed = plan.fill(Loader::Kernel, &mut short);
    want_at(&rt, "short", failed, Err(LoadError::ImageSize));
    want_at(&rt, "short", short, [7; 3]);
    let mut linux = Vec::new(rt.alloc());
    linux.resize(0x21000, 7u8)?;
    plan.fill(Loader::Kernel, linux.as_mut_slice())?;
    let mut glibc = Vec::new(rt.alloc());
    glibc.resize(0x21000, 7u8)?;
    plan.fill(Loader::Glibc, glibc.as_mut_slice())?;
    for &(address, one, other) in NUMBERS {
        want_at(&rt, address, linux.get(address).copied(), Some(one));
        want_at(&rt, address, glibc.get(address).copied(), Some(other));
    }
    Ok(())
}

#[test]
fn image_of_a_program(rt: HostRuntime) -> Result<(), Fail> {
    let bytes = file_64(rt.alloc(), 0xc00, 2, ROWS)?;
    let file = open(&rt, &bytes);
    let plan = LoadPlan::check_load(&file, 0x1000, LIMIT)?;
    let image = image_of(rt.alloc(), &plan)?;
    want_at(&rt, "length", image.len(), 0x21000);
    for &(address, wanted, _) in NUMBERS {
        want_at(&rt, address, image.get(address).copied(), Some(wanted));
    }
    Ok(())
}
