//! The hash table of the symbols of a file, of either kind (gABI, "Hash Table"; the convention of
//! GNU binutils and glibc).

ghost use Rattle.std.specs.Borrow.{Bor};
ghost use Rattle.std.specs.Prelude.{◌≡◌, ◌≢◌, ◌≤◌, ◌<◌, ◌^◌, ◌↔◌, ℕ, Contains, Err, IfOk, IsOk, IsTrue};
ghost use Rattle.std.specs.Prelude.{MatchResult, Some, length, slice_get};
ghost use Rattle.elf_linking.specs.DynamicView.{view_entries};
ghost use Rattle.xmas_elf.specs.SymbolTable.{table_symbols};
ghost use Rattle.xmas_elf.specs.Symbols.{Decides, DecidesWhere, IsMatch, IsMatchWhere};

use crate::LinkError;
use crate::gnu_hash::GnuHashTable;
use crate::view::{DT_GNU_HASH, DynamicView};
use xmas_elf::ElfFile;
use xmas_elf::bytes::Record;
use xmas_elf::hash::HashTable;
use xmas_elf::symbol_table::{Entry, SymbolTable};

/// A hash table of symbols, of either kind.
#[derive(Clone, Copy, Debug)]
pub enum AnyTable<'a> {
    /// The hash table of the ELF standard (`.hash`).
    Sysv(HashTable<'a>),
    /// GNU's hash table (`.gnu.hash`).
    Gnu(GnuHashTable<'a>),
}

impl<'a> AnyTable<'a> {
    ghost use Rattle.elf_linking.specs.AnyTable.{FindsAllBy, FindsAllWhereBy, IsCheckBy, IsCountBy};
    ghost use Rattle.elf_linking.specs.AnyTable.{IsDefinedBy, IsGoodBy, IsLinkedTable};
    ghost use Rattle.elf_linking.specs.AnyTable.{LooksBy, LooksForDefined, LooksWhereBy};

    /// The hash table of the dynamic segment: GNU's if there is an entry GnuHash, otherwise that of
    /// the ELF standard.
    ///
    /// Errors: those of `DynamicView::gnu_hash_table` if there is such an entry, otherwise those of
    /// `hash_table`.
    pub fn read(view: &DynamicView<'a>, file: &ElfFile<'a>) -> Result<AnyTable<'a>, LinkError>
        ensures { IsLinkedTable file.now (view_entries view.now) result }
    {
        match view.entry(DT_GNU_HASH) {
            Some(_) => match view.gnu_hash_table(file) {
                Ok(table) => Ok(AnyTable::Gnu(table)),
                Err(error) => Err(error),
            },
            None => match view.hash_table(file) {
                Ok(table) => Ok(AnyTable::Sysv(table)),
                Err(error) => Err(error),
            },
        }
    }

    /// Checks that look-ups find every symbol that the table is for: the result of the table's own
    /// `check`, which documents the cost.
    pub fn check<E: Entry + Record>(&self, symbols: &SymbolTable<'_, E>) -> Result<(), LinkError>
        ensures accepts { IsOk result ↔ IsGoodBy self.now (table_symbols symbols.now) }
        ensures exact { IsCheckBy self.now (table_symbols symbols.now) result }
    {
        match self {
            AnyTable::Sysv(table) => match table.check_in(symbols) {
                Ok(()) => Ok(()),
                Err(error) => Err(LinkError::Elf(error)),
            },
            AnyTable::Gnu(table) => table.check_in(symbols),
        }
    }

    /// The result of the table's own `lookup_in`, with the same contract.
    pub fn lookup<E: Entry + Record, F: Fn(&E) -> bool>(
        &self,
        name: &str,
        symbols: &SymbolTable<'_, E>,
        f: F,
    ) -> Result<Option<(u32, E)>, LinkError>
        requires callable { (e : Bor E) → Contains (table_symbols symbols.now).items e.now
            → F.pre f e }
        ensures answer { let all = table_symbols symbols.now in Decides all F.Fn f → (count : ℕ)
            × LooksBy (IsMatch all F.Fn f name.now) self.now all.items name.now result count }
        ensures good { let all = table_symbols symbols.now in Decides all F.Fn f
            → IsGoodBy self.now all
            → FindsAllBy self.now all name.now (IsMatch all F.Fn f name.now) result }
    {
        self.lookup_counted(name, symbols, f).0
    }

    /// The result of the table's own `lookup_counted_in`, with the same contract.
    pub fn lookup_counted<E: Entry + Record, F: Fn(&E) -> bool>(
        &self,
        name: &str,
        symbols: &SymbolTable<'_, E>,
        f: F,
    ) -> (Result<Option<(u32, E)>, LinkError>, u32)
        requires callable { (e : Bor E) → Contains (table_symbols symbols.now).items e.now
            → F.pre f e }
        ensures in_chains { IsCountBy self.now result.1 }
        ensures in_symbols { result.1 ≤ length (table_symbols symbols.now).items }
        ensures answer { let all = table_symbols symbols.now in Decides all F.Fn f
            → LooksBy (IsMatch all F.Fn f name.now) self.now all.items name.now result.0 result.1 }
        ensures good { let all = table_symbols symbols.now in Decides all F.Fn f
            → IsGoodBy self.now all
            → FindsAllBy self.now all name.now (IsMatch all F.Fn f name.now) result.0 }
    {
        match self {
            AnyTable::Sysv(table) => {
                let (found, count) = table.lookup_counted_in(name, symbols, f);
                match found {
                    Ok(found) => (Ok(found), count),
                    Err(error) => (Err(LinkError::Elf(error)), count),
                }
            }
            AnyTable::Gnu(table) => table.lookup_counted_in(name, symbols, f),
        }
    }

    /// The result of the table's own `lookup_where`, with the same contract.
    pub fn lookup_where<E: Entry + Record, F: Fn(u32, &E) -> bool>(
        &self,
        name: &str,
        symbols: &SymbolTable<'_, E>,
        f: F,
    ) -> Result<Option<(u32, E)>, LinkError>
        requires callable { (index : ℕ) (e : Bor E) → index < 2 ^ 32
            → slice_get (table_symbols symbols.now).items index ≡ Some e.now → F.pre f index e }
        ensures answer { let all = table_symbols symbols.now in DecidesWhere all F.Fn f
            → (count : ℕ) × LooksWhereBy (IsMatchWhere all F.Fn f name.now) self.now all.items
            name.now result count }
        ensures good { let all = table_symbols symbols.now in DecidesWhere all F.Fn f
            → IsGoodBy self.now all
            → FindsAllWhereBy self.now all name.now (IsMatchWhere all F.Fn f name.now) result }
    {
        match self {
            AnyTable::Sysv(table) => match table.lookup_where(name, symbols, f) {
                Ok(found) => Ok(found),
                Err(failure) => Err(LinkError::Elf(failure)),
            },
            AnyTable::Gnu(table) => table.lookup_where(name, symbols, f),
        }
    }

    /// The first defined symbol with this name that a look-up comes to, after the check of the
    /// table; `None` if it comes to none, and then no symbol that look-ups must find is one. For
    /// many names call `check` once, and then `lookup`.
    ///
    /// Errors: those of `check`.
    pub fn defined_symbol<E: Entry + Record>(
        &self,
        name: &str,
        symbols: &SymbolTable<'_, E>,
    ) -> Result<Option<(u32, E)>, LinkError>
        ensures checked { let all = table_symbols symbols.now in MatchResult result
            (λ _. IsGoodBy self.now all) (λ error. IsCheckBy self.now all (Err error)) }
        ensures found { IfOk result
            (IsDefinedBy self.now (table_symbols symbols.now) name.now) }
        ensures answer { IfOk result
            (LooksForDefined self.now (table_symbols symbols.now) name.now) }
    {
        self.check(symbols)?;
        match self.lookup(
            name,
            symbols,
            |symbol| -> bool
                ensures { IsTrue result ↔ ((E.fields symbol.now).shndx ≢ 0) }
            { symbol.shndx() != 0 },
        ) {
            Ok(Some(found)) => Ok(Some(found)),
            Ok(None) => Ok(None),
            Err(_) => unreachable!(),
        }
    }
}
