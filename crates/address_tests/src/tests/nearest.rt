//! Symbols without a size below an address.

use crate::tests::rows::{F, Row, symbols, table_bytes};
use crate::tests::want::want_at;
use elf_addresses::{SymbolIndex, open_below};
use std::test::Fail;
use worked_files::rows;

// Symbols of size 0 at 0x10 and 0x20, in sections 1 and 2; of size 4 at 0x30; and two at 0x40, of
// which the function comes first.
const ROWS: &[Row] = rows! {
    F, 0x12, 1, 0x10, 0; F, 0x12, 2, 0x20, 0; F, 0x12, 1, 0x30, 4; F, 0x11, 1, 0x40, 0;
    F, 0x02, 1, 0x40, 0;
};

// An address, a section, and the index and the offset that are found.
const ASKED: &[(u64, u32, Option<(usize, u64)>)] = &[
    (0xf, 1, None),
    (0x10, 1, None),
    (0x11, 1, Some((0, 1))),
    (0x11, 2, None),
    (0x1f, 1, Some((0, 0xf))),
    (0x21, 2, Some((1, 1))),
    (0x21, 1, None),
    (0x30, 1, None),
    (0x34, 1, None),
    (0x3f, 2, None),
    (0x41, 1, Some((4, 1))),
    (0xffff_ffff_ffff_ffff, 1, Some((4, 0xffff_ffff_ffff_ffbf))),
];

#[test]
fn finds_the_open_symbol_below(rt: HostRuntime) -> Result<(), Fail> {
    let bytes = table_bytes(rt.alloc(), ROWS)?;
    let symbols = symbols(&rt, &bytes, &[], 62);
    let mut words = [0; 6];
    let mut numbers = [0; 2];
    SymbolIndex::build(&symbols, None, &mut words, &mut numbers)?;
    let size = SymbolIndex::size(&symbols, None);
    let index = SymbolIndex::lend(&symbols, None, size, &words, &numbers);
    for &(address, section, wanted) in ASKED {
        let found = open_below(&symbols, address, section, None).map(|at| (at.index, at.offset));
        want_at(&rt, (address, section), found, wanted);
        let found = index
            .open_below(address, section)
            .map(|at| (at.index, at.offset));
        want_at(&rt, (address, section), found, wanted);
    }
    Ok(())
}
