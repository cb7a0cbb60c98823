//! A symbol (gABI, "Symbol Table").

ghost use Rattle.std.specs.Prelude.{◌≡◌};
ghost use Rattle.elf_base.specs.Table.{table_items};
ghost use Rattle.elf_c.specs.Symbols.{symbol_record};

use crate::batch::Records;
use xmas_elf::bytes::{Record, Table};
use xmas_elf::symbol_table::Entry;

/// A symbol, as numbers.
#[repr(C)]
#[derive(Clone, Copy, Debug)]
pub struct Symbol {
    /// The value of the symbol: an address or an offset, depending on the types of the file and the
    /// section.
    pub value: u64,
    /// The size of the symbol's object in bytes, or 0.
    pub size: u64,
    /// The offset of the symbol's name in its string table, in bytes; 0 if it has none.
    pub name: u32,
    /// The index of the symbol's section, or a reserved index.
    pub shndx: u16,
    /// The binding of the symbol, times 16, plus its type.
    pub info: u8,
    /// The visibility of the symbol, in the low two bits.
    pub other: u8,
}

/// The numbers of no symbol.
pub(crate) const NO_SYMBOL: Symbol = Symbol {
    value: 0,
    size: 0,
    name: 0,
    shndx: 0,
    info: 0,
    other: 0,
};

impl Symbol {
    // The numbers of a symbol.
    #[inline(always)]
    pub(crate) fn of<E: Entry>(entry: &E) -> Symbol
        ensures { result ≡ symbol_record (E.fields entry.now) }
    {
        Symbol {
            value: entry.value(),
            size: entry.size(),
            name: entry.name(),
            shndx: entry.shndx(),
            info: entry.info(),
            other: entry.other().raw(),
        }
    }
}

impl<E: Entry + Record> Records for Table<'_, E> {
    type Item = E;

    type Record = Symbol;

    ghost items = { table_items };

    ghost record_of = { λ table entry. symbol_record (E.fields entry) };

    #[inline(always)]
    fn count(&self) -> usize {
        self.len()
    }

    #[inline(always)]
    fn record(&self, index: usize) -> Symbol {
        match self.get(index) {
            Some(entry) => Symbol::of(&entry),
            None => unreachable!(),
        }
    }
}
