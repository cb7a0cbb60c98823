//! Tables of symbols that are written out, and what is asked of them.

use crate::tests::want::want_at;
use elf_addresses::{AddressSymbols, At, SymbolIndex, symbol_at};
use std::alloc::{AllocError, Global};
use std::process::Abort;
use std::test::Fail;
use xmas_elf::bytes::{Order, Table};
use xmas_elf::symbol_table::DynEntry64;

/// A symbol: its name, `info`, `shndx`, `value` and `size`.
pub type Row = (u32, u8, u16, u64, u64);

/// An address, and the index of the symbol there, the offset, and whether it has no size.
pub type Asked = (u64, Option<(usize, u64, bool)>);

/// The names that rows give by their place in it.
pub const STRINGS: &[u8] = b"\0f\0.L1\0$a\0$d.5\0$t1\0$x\0$xrv64\0$y\0x$d\0";

/// The name `f`.
pub const F: u32 = 1;

/// The bytes of a table of class 64.
pub fn table_bytes(alloc: Global, rows: &[Row]) -> Result<Vec<u8>, AllocError> {
    let mut bytes = Vec::new(alloc);
    for row in rows {
        bytes.extend_from_slice(&row.0.to_le_bytes())?;
        bytes.extend_from_slice(&[row.1, 0])?;
        bytes.extend_from_slice(&row.2.to_le_bytes())?;
        bytes.extend_from_slice(&row.3.to_le_bytes())?;
        bytes.extend_from_slice(&row.4.to_le_bytes())?;
    }
    Ok(bytes)
}

/// The symbols in these bytes, with the machine of the file.
pub fn symbols<'a>(
    rt: &impl Abort,
    bytes: &'a [u8],
    indices: &'a [u8],
    machine: u16,
) -> AddressSymbols<'a, DynEntry64> {
    AddressSymbols {
        table: Table::new(bytes, Order::Little).expect(rt, "whole symbols"),
        strings: STRINGS,
        indices: Table::new(indices, Order::Little).expect(rt, "whole words"),
        machine,
    }
}

/// The index of a symbol, the offset in it, and whether it has no size.
pub fn place(found: Option<At<DynEntry64>>) -> Option<(usize, u64, bool)> {
    found.map(|at| (at.index, at.offset, at.open))
}

/// Wants these results for a table of a file for x86-64, by a pass over it and by an index.
pub fn check(rt: &impl Abort, alloc: Global, rows: &[Row], asked: &[Asked]) -> Result<(), Fail> {
    let bytes = table_bytes(alloc, rows)?;
    let symbols = symbols(rt, &bytes, &[], 62);
    let size = SymbolIndex::size(&symbols, None);
    let mut words = vec![in alloc; 0u32; size.words()]?;
    let mut numbers = vec![in alloc; 0u64; size.numbers()]?;
    SymbolIndex::build(&symbols, None, &mut words, &mut numbers)?;
    let index = SymbolIndex::lend(&symbols, None, size, &words, &numbers);
    want_at(rt, "the index", index.check(), true);
    for &(address, wanted) in asked {
        let found = place(symbol_at(&symbols, address, None));
        want_at(rt, address, found, wanted);
        want_at(rt, address, place(index.symbol_at(address)), wanted);
    }
    Ok(())
}
