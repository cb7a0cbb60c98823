//! Symbols that name no addresses: by their type, their section, and their name.

use crate::tests::rows::{F, symbols, table_bytes};
use crate::tests::want::want_at;
use elf_addresses::symbol_at;
use std::test::Fail;
use worked_files::rows;

// The places of names in the string table.
const NONE: u32 = 0;

const EMPTY: u32 = 2;

const LABEL: u32 = 3;

const A: u32 = 7;

const D_DOT: u32 = 10;

const T_ONE: u32 = 15;

const X: u32 = 19;

const X_LONG: u32 = 22;

const Y: u32 = 29;

const WITH_D: u32 = 32;

const D_END: u32 = 33;

const PAST: u32 = 36;

// A machine; the name, `info` and `shndx` of a symbol that covers address 5; the section that is
// asked for; and whether the symbol is found.
const CASES: &[(u16, u32, u8, u16, Option<u32>, bool)] = rows! {
    // No type, object, function, section, file, common, thread-local, and a function by a resolver.
    62, F, 0x10, 1, None, true; 62, F, 0x11, 1, None, true; 62, F, 0x12, 1, None, true;
    62, F, 0x13, 1, None, false; 62, F, 0x14, 1, None, false; 62, F, 0x15, 1, None, false;
    62, F, 0x16, 1, None, false; 62, F, 0x17, 1, None, false; 62, F, 0x1a, 1, None, true;
    62, F, 0x1f, 1, None, false;
    // Undefined, the last index that is not reserved, reserved ones, absolute, common, and the
    // indices of 0xffff, which are 7 here.
    62, F, 0x12, 0, None, false; 62, F, 0x12, 0xfeff, None, true; 62, F, 0x12, 0xff00, None, false;
    62, F, 0x12, 0xfff1, None, false; 62, F, 0x12, 0xfff2, None, false;
    62, F, 0x12, 0xffff, None, true; 62, F, 0x12, 0xffff, Some(7), true;
    62, F, 0x12, 0xffff, Some(0xffff), false; 62, F, 0x12, 1, Some(1), true;
    62, F, 0x12, 1, Some(2), false; 62, F, 0x12, 0, Some(0), false;
    // No name, names that `nm` prints as nothing and as `(null)`, and labels.
    62, NONE, 0x12, 1, None, false; 62, EMPTY, 0x12, 1, None, true; 62, PAST, 0x12, 1, None, true;
    62, EMPTY, 0x00, 1, None, true; 62, LABEL, 0x00, 1, None, false;
    62, LABEL, 0x10, 1, None, true; 62, LABEL, 0x02, 1, None, true;
    // Mapping symbols of the Arm architecture.
    40, A, 0x00, 1, None, false; 40, A, 0x10, 1, None, true; 40, D_DOT, 0x00, 1, None, false;
    40, T_ONE, 0x00, 1, None, true; 40, X, 0x00, 1, None, true; 40, WITH_D, 0x00, 1, None, true;
    40, D_END, 0x00, 1, None, false;
    // Of the Arm 64-bit architecture, C-SKY, RISC-V, and x86-64, which has none.
    183, A, 0x00, 1, None, true; 183, D_DOT, 0x00, 1, None, false; 183, X, 0x00, 1, None, false;
    183, X_LONG, 0x00, 1, None, true; 252, D_DOT, 0x00, 1, None, false; 252, X, 0x00, 1, None, true;
    243, D_DOT, 0x00, 1, None, false; 243, X, 0x00, 1, None, false;
    243, X_LONG, 0x00, 1, None, false; 243, X_LONG, 0x02, 1, None, true;
    243, Y, 0x00, 1, None, true; 62, A, 0x00, 1, None, true; 62, X, 0x00, 1, None, true;
};

#[test]
fn some_symbols_name_no_address(rt: HostRuntime) -> Result<(), Fail> {
    for &(machine, name, info, shndx, within, wanted) in CASES {
        let bytes = table_bytes(rt.alloc(), &[(name, info, shndx, 4, 4)])?;
        let symbols = symbols(&rt, &bytes, &[7, 0, 0, 0], machine);
        let found = symbol_at(&symbols, 5, within).is_some();
        want_at(&rt, (machine, name, (info, shndx)), found, wanted);
    }
    Ok(())
}

#[test]
fn an_index_that_is_not_there_is_no_section(rt: HostRuntime) -> Result<(), Fail> {
    let bytes = table_bytes(rt.alloc(), &[(F, 0x12, 0xffff, 4, 4)])?;
    let without = symbols(&rt, &bytes, &[], 62);
    let found = symbol_at(&without, 5, None).is_none();
    want_at(&rt, "no words", found, true);
    let zero = symbols(&rt, &bytes, &[0, 0, 0, 0], 62);
    want_at(&rt, "the word 0", symbol_at(&zero, 5, None).is_none(), true);
    Ok(())
}
