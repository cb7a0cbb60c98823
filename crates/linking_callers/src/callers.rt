//! Callers that look symbols up by their names, by whichever hash table a file has.

ghost use Rattle.std.specs.Borrow.{Bor};
ghost use Rattle.std.specs.Fn.{FnReturnsAt};
ghost use Rattle.std.specs.Prelude.{◌≡◌, ◌↔◌, ◌<◌, ◌≤◌};
ghost use Rattle.std.specs.Prelude.{ℕ, Contains, IsTrue, MatchOption};
ghost use Rattle.std.specs.Prelude.{None, Option, Some, slice_get, true};
ghost use Rattle.elf_base.specs.Table.{table_items};
ghost use Rattle.elf_linking.specs.GnuHash.{IsExported, IsGnuGood, first_symbol_of};
ghost use Rattle.xmas_elf.specs.Symbols.{Decides, symbols_of};

pub mod bindings;
pub mod checked;
pub mod find;
pub mod second_file;
pub mod versions;
pub mod view;

use elf_base::bytes::{Record, Table};
use elf_linking::gnu_hash::GnuHashTable;
use xmas_elf::ElfFile;
use xmas_elf::symbol_table::Entry;

/// Whether look-ups by a table find each symbol that they should: all runs come to an end,
/// and each symbol from the table's first on that is defined and not local and has a name
/// is on its name's run.
pub fn finds_all<E: Entry + Record>(
    table: &GnuHashTable<'_>,
    symbols: &Table<'_, E>,
    file: &ElfFile<'_>,
) -> bool
    ensures { IsTrue result
        ↔ IsGnuGood table.now (symbols_of E.fields E.text_in symbols.now file.now) }
{
    table.check(symbols, file).is_ok()
}

/// The symbol with this name that passes a test, by a table that passes the check. The look-up is
/// never rejected, what it finds is at the table's first symbol or later, has the name and passes,
/// and where it finds none, no defined symbol from the first on that isn't local has the name and
/// passes.
pub fn symbol_that<E: Entry + Record, F: Fn(&E) -> bool>(
    table: &GnuHashTable<'_>,
    name: &str,
    symbols: &Table<'_, E>,
    file: &ElfFile<'_>,
    f: F,
) -> Option<(u32, E)>
    requires callable { (e : Bor E) → Contains (table_items symbols.now) e.now → F.pre f e }
    requires decides { Decides (symbols_of E.fields E.text_in symbols.now file.now) F.Fn f }
    requires good { IsGnuGood table.now (symbols_of E.fields E.text_in symbols.now file.now) }
    ensures { let all = symbols_of E.fields E.text_in symbols.now file.now in MatchOption result
        ((i : ℕ) (e : E) → IsExported table.now all i e name.now → FnReturnsAt F.Fn f e true → ⊥)
        (λ found. (0 < found.0) × (first_symbol_of table.now ≤ found.0)
        × (slice_get all.items found.0 ≡ Some found.1)
        × (all.text found.1 ≡ Some name.now) × FnReturnsAt F.Fn f found.1 true) }
{
    match table.lookup(name, symbols, file, f) {
        Ok(Some(found)) => Some(found),
        Ok(None) => None,
        Err(_) => unreachable!(),
    }
}

/// The symbol with this name, by a table that passes the check: a symbol that has it, or none
/// where the table is to hold none that does.
pub fn symbol_with_name<E: Entry + Record>(
    table: &GnuHashTable<'_>,
    name: &str,
    symbols: &Table<'_, E>,
    file: &ElfFile<'_>,
) -> Option<(u32, E)>
    requires good { IsGnuGood table.now (symbols_of E.fields E.text_in symbols.now file.now) }
    ensures { let all = symbols_of E.fields E.text_in symbols.now file.now in MatchOption result
        ((i : ℕ) (e : E) → ¬ IsExported table.now all i e name.now)
        (λ found. (0 < found.0) × (first_symbol_of table.now ≤ found.0)
        × (slice_get all.items found.0 ≡ Some found.1)
        × (all.text found.1 ≡ Some name.now)) }
{
    match table.lookup(
        name,
        symbols,
        file,
        |_| -> bool
            ensures { result ≡ true }
        { true },
    ) {
        Ok(Some(symbol)) => Some(symbol),
        Ok(None) => None,
        Err(_) => unreachable!(),
    }
}
