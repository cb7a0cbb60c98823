//! Symbols whose ranges nest, cross, are the same, or have no size.

use crate::tests::rows::{Asked, F, Row, check};
use std::test::Fail;
use worked_files::rows;

const MOST: u64 = 0xffff_ffff_ffff_ffff;

// The rows are global functions in section 1: 0x12 is their binding and type.
const NESTED: &[Row] = &[(F, 0x12, 1, 0x1000, 0x100), (F, 0x12, 1, 0x1040, 0x10)];

const IN_NESTED: &[Asked] = rows! {
    0, None; 0xfff, None; 0x1000, Some((0, 0, false)); 0x103f, Some((0, 0x3f, false));
    0x1040, Some((1, 0, false)); 0x104f, Some((1, 0xf, false)); 0x1050, Some((0, 0x50, false));
    0x10ff, Some((0, 0xff, false)); 0x1100, None; MOST, None;
};

const CROSSING: &[Row] = &[(F, 0x12, 1, 0x20, 0x20), (F, 0x12, 1, 0x10, 0x20)];

const IN_CROSSING: &[Asked] = rows! {
    0xf, None; 0x10, Some((1, 0, false)); 0x1f, Some((1, 0xf, false)); 0x20, Some((0, 0, false));
    0x2f, Some((0, 0xf, false)); 0x30, Some((0, 0x10, false)); 0x3f, Some((0, 0x1f, false));
    0x40, None;
};

const SAME_VALUE: &[Row] = rows! {
    F, 0x12, 1, 0x10, 0x20; F, 0x12, 1, 0x10, 8; F, 0x12, 1, 0x10, 9;
};

const IN_SAME_VALUE: &[Asked] = rows! {
    0x10, Some((1, 0, false)); 0x17, Some((1, 7, false)); 0x18, Some((2, 8, false));
    0x19, Some((0, 9, false));
};

// The symbol of size 0 at 0x10 is covered by that with a size, and so is the one in it; the one at
// its end is not.
const OPEN: &[Row] = rows! {
    F, 0x12, 1, 0x10, 0; F, 0x12, 1, 0x18, 0; F, 0x12, 1, 0x20, 0; F, 0x12, 1, 0x10, 0x10;
    F, 0x12, 1, 0x20, 0;
};

const IN_OPEN: &[Asked] = rows! {
    0x10, Some((3, 0, false)); 0x18, Some((3, 8, false)); 0x1f, Some((3, 0xf, false));
    0x20, Some((2, 0, true)); 0x21, None;
};

const LAST: &[Row] = &[
    (F, 0x12, 1, 0xffff_ffff_ffff_fff0, 16),
    (F, 0x12, 1, 0xffff_ffff_ffff_ffe0, MOST),
    (F, 0x12, 1, 0, MOST),
];

const IN_LAST: &[Asked] = rows! {
    MOST, Some((0, 15, false));
    0xffff_ffff_ffff_ffef, Some((1, 15, false));
    0xffff_ffff_ffff_ffdf, Some((2, 0xffff_ffff_ffff_ffdf, false));
    0, Some((2, 0, false));
};

const TO_MOST: &[Row] = &[(F, 0x12, 1, 1, MOST)];

#[test]
fn finds_the_innermost_symbol(rt: HostRuntime) -> Result<(), Fail> {
    check(&rt, rt.alloc(), NESTED, IN_NESTED)?;
    check(&rt, rt.alloc(), CROSSING, IN_CROSSING)?;
    check(&rt, rt.alloc(), SAME_VALUE, IN_SAME_VALUE)?;
    check(&rt, rt.alloc(), &[], &[(0, None), (MOST, None)])
}

#[test]
fn a_symbol_without_a_size_covers_its_value(rt: HostRuntime) -> Result<(), Fail> {
    check(&rt, rt.alloc(), OPEN, IN_OPEN)
}

#[test]
fn ranges_reach_the_last_address(rt: HostRuntime) -> Result<(), Fail> {
    check(&rt, rt.alloc(), LAST, IN_LAST)?;
    check(
        &rt,
        rt.alloc(),
        TO_MOST,
        &[
            (0, None),
            (1, Some((0, 0, false))),
            (MOST, Some((0, 0xffff_ffff_ffff_fffe, false))),
        ],
    )
}

// Tables of two symbols with the same range, and the one that is found.
const ALIASES: &[(u8, u8, usize)] = rows! {
    // A local function and a global object; a local object and a global symbol of no type.
    0x11, 0x02, 1; 0x10, 0x01, 1;
    // A local, a weak, a global and a unique symbol, and one with a binding of no meaning.
    0x02, 0x22, 1; 0x22, 0x12, 1; 0x22, 0xa2, 1; 0xa2, 0x12, 0; 0x12, 0xa2, 0; 0x52, 0x02, 0;
    // Functions of both types; the same twice.
    0x1a, 0x12, 0; 0x12, 0x1a, 0; 0x11, 0x1a, 1; 0x12, 0x12, 0; 0x00, 0x00, 0;
};

#[test]
fn orders_symbols_with_the_same_range(rt: HostRuntime) -> Result<(), Fail> {
    for &(one, other, found) in ALIASES {
        check(
            &rt,
            rt.alloc(),
            &[(F, one, 1, 0x10, 8), (F, other, 1, 0x10, 8)],
            &[(0x11, Some((found, 1, false)))],
        )?;
    }
    Ok(())
}
