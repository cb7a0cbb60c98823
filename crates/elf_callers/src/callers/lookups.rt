//! Look-ups by a test of one's own, in tables that were checked and in tables that were not.

ghost use Rattle.std.specs.Borrow.{Bor};
ghost use Rattle.std.specs.Prelude.{◌≡◌, ◌≢◌, ◌↔◌, ◌<◌, ◌≤◌, ℕ, Contains, Err, IsOk};
ghost use Rattle.std.specs.Prelude.{IsTrue, MatchOption, Some, length, slice_get};
ghost use Rattle.xmas_elf.specs.HashTable.{FindsAll, IsEndless, IsGood, Looks};
ghost use Rattle.xmas_elf.specs.HashTable.{MustBeFound, chain_count_of, chains_of, start_of};
ghost use Rattle.xmas_elf.specs.Symbol.{IsGlobal};
ghost use Rattle.xmas_elf.specs.Symbols.{Decides, IsMatch, symbols_of};
ghost use Rattle.xmas_elf.specs.Table.{table_items};

use xmas_elf::bytes::{Record, Table};
use xmas_elf::hash::HashTable;
use xmas_elf::symbol_table::Entry;
use xmas_elf::{ElfError, ElfFile};

/// A symbol with this name that passes the test, by a table that passed the check; none where a
/// search of all symbols that aren't local would find none.
pub fn find_checked<E: Entry + Record, F: Fn(&E) -> bool>(
    table: &HashTable<'_>,
    name: &str,
    symbols: &Table<'_, E>,
    file: &ElfFile<'_>,
    f: F,
) -> Option<(u32, E)>
    requires callable { (e : Bor E) → Contains (table_items symbols.now) e.now → F.pre f e }
    requires decides { Decides (symbols_of E.fields E.text_in symbols.now file.now) F.Fn f }
    requires good { IsGood table.now (symbols_of E.fields E.text_in symbols.now file.now) }
    ensures { let all = symbols_of E.fields E.text_in symbols.now file.now in MatchOption result
        (¬ MustBeFound all name.now (IsMatch all F.Fn f name.now))
        (λ found. (0 < found.0) × (slice_get all.items found.0 ≡ Some found.1)
        × IsMatch all F.Fn f name.now found.1) }
{
    match table.lookup(name, symbols, file, f) {
        Ok(found) => found,
        Err(_) => unreachable!(),
    }
}

/// The same with the number that `lookup_counted` returns, which is never above that of the chains,
/// nor that of the symbols.
pub fn find_counted<E: Entry + Record, F: Fn(&E) -> bool>(
    table: &HashTable<'_>,
    name: &str,
    symbols: &Table<'_, E>,
    file: &ElfFile<'_>,
    f: F,
) -> (Result<Option<(u32, E)>, ElfError>, u32)
    requires callable { (e : Bor E) → Contains (table_items symbols.now) e.now → F.pre f e }
    requires decides { Decides (symbols_of E.fields E.text_in symbols.now file.now) F.Fn f }
    requires good { IsGood table.now (symbols_of E.fields E.text_in symbols.now file.now) }
    ensures without_error { IsOk result.0 }
    ensures finds { let all = symbols_of E.fields E.text_in symbols.now file.now in
        FindsAll all name.now (IsMatch all F.Fn f name.now) result.0 }
    ensures counted { let all = symbols_of E.fields E.text_in symbols.now file.now in
        Looks (IsMatch all F.Fn f name.now) table.now all.items name.now result.0 result.1 }
    ensures in_chains { result.1 ≤ chain_count_of table.now }
    ensures in_symbols { result.1 ≤ length (table_items symbols.now) }
{
    table.lookup_counted(name, symbols, file, f)
}

/// A symbol with this name that some section defines, by a table that passed the check; none where
/// no symbol that isn't local and has the name is defined.
pub fn defined_symbol<E: Entry + Record>(
    table: &HashTable<'_>,
    name: &str,
    symbols: &Table<'_, E>,
    file: &ElfFile<'_>,
) -> Option<(u32, E)>
    requires good { IsGood table.now (symbols_of E.fields E.text_in symbols.now file.now) }
    ensures { let all = symbols_of E.fields E.text_in symbols.now file.now in MatchOption result
        ((i : ℕ) (e : E) → IsGlobal all i e name.now → (E.fields e).shndx ≡ 0)
        (λ found. (0 < found.0) × (slice_get all.items found.0 ≡ Some found.1)
        × (all.text found.1 ≡ Some name.now) × ((E.fields found.1).shndx ≢ 0)) }
{
    match table.lookup(
        name,
        symbols,
        file,
        |symbol| -> bool
            ensures { IsTrue result ↔ ((E.fields symbol.now).shndx ≢ 0) }
        { symbol.shndx() != 0 },
    ) {
        Ok(Some(found)) => Some(found),
        Ok(None) => None,
        Err(_) => unreachable!(),
    }
}

/// The result of a look-up in any table: that of the first stop which it reaches, and
/// `HashCycle` exactly where it reaches none.
pub fn lookup_anywhere<E: Entry + Record, F: Fn(&E) -> bool>(
    table: &HashTable<'_>,
    name: &str,
    symbols: &Table<'_, E>,
    file: &ElfFile<'_>,
    f: F,
) -> Result<Option<(u32, E)>, ElfError>
    requires callable { (e : Bor E) → Contains (table_items symbols.now) e.now → F.pre f e }
    requires decides { Decides (symbols_of E.fields E.text_in symbols.now file.now) F.Fn f }
    ensures answer { let all = symbols_of E.fields E.text_in symbols.now file.now in (count : ℕ)
        × Looks (IsMatch all F.Fn f name.now) table.now all.items name.now result count }
    ensures cycle { let all = symbols_of E.fields E.text_in symbols.now file.now in
        (result ≡ Err ElfError.HashCycle) ↔ IsEndless (λ at. IsMatch all F.Fn f name.now at.1)
        (chains_of table.now all.items) (start_of table.now name.now) }
{
    table.lookup(name, symbols, file, f)
}
