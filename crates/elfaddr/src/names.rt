//! The names of the symbols that name addresses.

ghost use Rattle.std.specs.Prelude.{◌≡◌, List, ℕ};
ghost use Rattle.elf_addresses.specs.SymbolClaims.{symbol_items};
ghost use Rattle.elf_addresses.specs.Symtab.{lent_bytes};
ghost use Rattle.elfaddr.specs.Lines.{name_in, or_mark};
ghost use Rattle.xmas_elf.specs.Table.{table_items};

use elf_addresses::dladdr::DladdrSymbols;
use elf_addresses::{Claims, SymbolClaims};
use elf_base::bytes::bytes_up_to_zero;
use xmas_elf::ElfError;
use xmas_elf::bytes::{Record, Table};
use xmas_elf::symbol_table::Entry;

/// Symbols that name addresses, and their names.
pub trait Named: Claims {
    /// The name of the symbol at an index.
    ghost name_of: { Self → ℕ → List ℕ };

    /// The name of the symbol at an index, or `?` if it can't be read.
    fn name(&self, index: usize) -> &[u8]
        ensures { result.now ≡ name_of self.now index };
}

impl<E: Entry + Record> Named for SymbolClaims<'_, '_, E> {
    ghost name_of = { λ claims. name_in E.fields (symbol_items claims.symbols.now)
        claims.symbols.now.strings.now };

    fn name(&self, index: usize) -> &[u8] {
        name_in(&self.symbols.table, self.symbols.strings, index)
    }
}

impl<E: Entry + Record> Named for DladdrSymbols<'_, E> {
    ghost name_of = { λ symbols. name_in E.fields (table_items symbols.table) symbols.strings.now };

    fn name(&self, index: usize) -> &[u8] {
        name_in(&self.table, self.strings, index)
    }
}

// The name of the symbol at an index.
fn name_in<'a, E: Entry + Record>(table: &Table<'_, E>, strings: &'a [u8], index: usize) -> &'a [u8]
    ensures { result.now ≡ name_in E.fields (table_items table.now) strings.now index }
{
    match table.get(index) {
        Some(symbol) => or_mark(bytes_up_to_zero(strings, symbol.name() as usize)),
        None => b"?",
    }
}

// A name, or `?` if it can't be read.
pub(crate) fn or_mark(name: Result<&[u8], ElfError>) -> &[u8]
    ensures { result.now ≡ or_mark (lent_bytes name.entry) }
{
    match name {
        Ok(name) => name,
        Err(_) => b"?",
    }
}
