//! Look-ups in hash tables (gABI, "Hash Table").

ghost use Rattle.std.specs.Borrow.{Bor};
ghost use Rattle.std.specs.Fn.{FnReturnsAt};
ghost use Rattle.std.specs.Prelude.{◌≡◌, ◌≤◌, ◌<◌, ◌^◌, ℕ, true, false, Contains};
ghost use Rattle.std.specs.Prelude.{IsTrue, Some, length, slice_get};
ghost use Rattle.elf_base.specs.Table.{table_items};
ghost use Rattle.xmas_elf.specs.Symbols.{Decides, DecidesWhere, IsMatch, IsMatchWhere};
ghost use Rattle.xmas_elf.specs.Symbols.{ReturnsWhere, symbols_of};

use crate::bytes::{Record, Table};
use crate::hash::HashTable;
use crate::symbol_table::{Entry, SymbolTable};
use crate::{ElfError, ElfFile};

impl<'a> HashTable<'a> {
    ghost use Rattle.xmas_elf.specs.HashTable.{FindsAll, FindsAllWhere, IsGood, Looks, LooksWhere};
    ghost use Rattle.xmas_elf.specs.HashTable.{chain_count_of};
    ghost use Rattle.xmas_elf.specs.SymbolTable.{table_symbols};

    /// The first symbol in the chain of a name that has the name and passes the test, with its
    /// index; `None` if the chain ends before one, or there are no buckets.
    ///
    /// Errors: `HashData` if the bucket of the name extends past the end of the data; `ChainIndex`
    /// or `SymbolIndex` if the chain contains an index that is not below `chain_count` or
    /// `symbols.len()`; those of `get_chain` if the chain can't be followed; `HashCycle` if the
    /// chain never ends. If `check` is Ok for the same symbols and file, there is no error, and
    /// every symbol with the name that isn't local and passes the test is found: of several, the
    /// first in the chain. For a table that `check` rejects it can miss a symbol.
    ///
    /// If the bucket isn't empty, the call finds the string table of the symbols once, by
    /// `Entry::string_table`, and compares the names there in place.
    ///
    /// The contract holds for a test with only one result for each symbol. A closure states its
    /// result in a clause, as in `|_| -> bool ensures { result ≡ true } { true }`.
    pub fn lookup<E: Entry + Record, F: Fn(&E) -> bool>(
        &self,
        name: &str,
        symbols: &Table<'_, E>,
        file: &ElfFile<'_>,
        f: F,
    ) -> Result<Option<(u32, E)>, ElfError>
        requires callable { (e : Bor E) → Contains (table_items symbols.now) e.now → F.pre f e }
        ensures answer { let all = symbols_of E.fields E.text_in symbols.now file.now in
            Decides all F.Fn f → (count : ℕ)
            × Looks (IsMatch all F.Fn f name.now) self.now all.items name.now result count }
        ensures good { let all = symbols_of E.fields E.text_in symbols.now file.now in
            Decides all F.Fn f → IsGood self.now all
            → FindsAll all name.now (IsMatch all F.Fn f name.now) result }
    {
        self.lookup_in(name, &SymbolTable::new(*symbols, file), f)
    }

    /// The result of `lookup`, and the number of symbols on the way to it: exact unless the result
    /// is `HashCycle`, and at most the number of chains and of symbols. No clause says that the
    /// code compares no more.
    pub fn lookup_counted<E: Entry + Record, F: Fn(&E) -> bool>(
        &self,
        name: &str,
        symbols: &Table<'_, E>,
        file: &ElfFile<'_>,
        f: F,
    ) -> (Result<Option<(u32, E)>, ElfError>, u32)
        requires callable { (e : Bor E) → Contains (table_items symbols.now) e.now → F.pre f e }
        ensures in_chains { result.1 ≤ chain_count_of self.now }
        ensures in_symbols { result.1 ≤ length (table_items symbols.now) }
        ensures answer { let all = symbols_of E.fields E.text_in symbols.now file.now in
            Decides all F.Fn f
            → Looks (IsMatch all F.Fn f name.now) self.now all.items name.now result.0 result.1 }
        ensures good { let all = symbols_of E.fields E.text_in symbols.now file.now in
            Decides all F.Fn f → IsGood self.now all
            → FindsAll all name.now (IsMatch all F.Fn f name.now) result.0 }
    {
        self.lookup_counted_in(name, &SymbolTable::new(*symbols, file), f)
    }

    /// The result of `lookup` for a symbol table that carries its names. For many look-ups make the
    /// `SymbolTable` once, since it searches the section headers for the string table.
    ///
    /// The contract is that of `lookup`.
    pub fn lookup_in<E: Entry + Record, F: Fn(&E) -> bool>(
        &self,
        name: &str,
        symbols: &SymbolTable<'_, E>,
        f: F,
    ) -> Result<Option<(u32, E)>, ElfError>
        requires callable { (e : Bor E) → Contains (table_symbols symbols.now).items e.now
            → F.pre f e }
        ensures answer { let all = table_symbols symbols.now in Decides all F.Fn f → (count : ℕ)
            × Looks (IsMatch all F.Fn f name.now) self.now all.items name.now result count }
        ensures good { let all = table_symbols symbols.now in Decides all F.Fn f
            → IsGood self.now all → FindsAll all name.now (IsMatch all F.Fn f name.now) result }
    {
        self.lookup_counted_in(name, symbols, f).0
    }

    /// The result of `lookup_in`, and the number of `lookup_counted`.
    pub fn lookup_counted_in<E: Entry + Record, F: Fn(&E) -> bool>(
        &self,
        name: &str,
        symbols: &SymbolTable<'_, E>,
        f: F,
    ) -> (Result<Option<(u32, E)>, ElfError>, u32)
        requires callable { (e : Bor E) → Contains (table_symbols symbols.now).items e.now
            → F.pre f e }
        ensures in_chains { result.1 ≤ chain_count_of self.now }
        ensures in_symbols { result.1 ≤ length (table_symbols symbols.now).items }
        ensures answer { let all = table_symbols symbols.now in Decides all F.Fn f
            → Looks (IsMatch all F.Fn f name.now) self.now all.items name.now result.0 result.1 }
        ensures good { let all = table_symbols symbols.now in Decides all F.Fn f
            → IsGood self.now all → FindsAll all name.now (IsMatch all F.Fn f name.now) result.0 }
    {
        // The test of a symbol as a test of its index, which it leaves out.
        let test = |_index: u32, symbol: &E| -> bool
            requires { F.pre f symbol }
            ensures { FnReturnsAt F.Fn f symbol.now result }
        { f(symbol) };
        self.search(name, symbols, &test)
    }

    /// The result of `lookup_in` with a test that also knows the index of the symbol, as one that
    /// reads `.gnu.version` there.
    ///
    /// Errors: those of `lookup`.
    ///
    /// The contract holds for a test with only one result for each symbol and its index.
    pub fn lookup_where<E: Entry + Record, F: Fn(u32, &E) -> bool>(
        &self,
        name: &str,
        symbols: &SymbolTable<'_, E>,
        f: F,
    ) -> Result<Option<(u32, E)>, ElfError>
        requires callable { (index : ℕ) (e : Bor E) → index < 2 ^ 32
            → slice_get (table_symbols symbols.now).items index ≡ Some e.now → F.pre f index e }
        ensures answer { let all = table_symbols symbols.now in DecidesWhere all F.Fn f
            → (count : ℕ) × LooksWhere (IsMatchWhere all F.Fn f name.now) self.now all.items
            name.now result count }
        ensures good { let all = table_symbols symbols.now in DecidesWhere all F.Fn f
            → IsGood self.now all
            → FindsAllWhere all name.now (IsMatchWhere all F.Fn f name.now) result }
    {
        self.search(name, symbols, &f).0
    }

    // The look-up with a borrowed test: a pass along the chain from the bucket of the name.
    fn search<E: Entry + Record, F: Fn(u32, &E) -> bool>(
        &self,
        name: &str,
        symbols: &SymbolTable<'_, E>,
        f: &F,
    ) -> (Result<Option<(u32, E)>, ElfError>, u32)
        requires { (index : ℕ) (e : Bor E) → index < 2 ^ 32
            → slice_get (table_symbols symbols.now).items index ≡ Some e.now
            → F.pre f.now index e }
        ensures in_chains { result.1 ≤ chain_count_of self.now }
        ensures in_symbols { result.1 ≤ length (table_symbols symbols.now).items }
        ensures answer { let all = table_symbols symbols.now in DecidesWhere all F.Fn f.now
            → LooksWhere (IsMatchWhere all F.Fn f.now name.now) self.now all.items name.now
            result.0 result.1 }
    {
        let first = match self.start(name.as_bytes()) {
            None => return (Ok(None), 0),
            Some(Ok(first)) => first,
            Some(Err(error)) => return (Err(error), 0),
        };
        // The test is called only with symbols that have the name.
        self.follow_chain(
            first,
            symbols,
            |at: &(u32, E)| -> bool
                requires { (e : Bor E) → e.now ≡ at.now.1 → F.pre f.now at.now.0 e }
                ensures yes { IsTrue result
                    → IsMatchWhere (table_symbols symbols.entry.now) F.Fn f.entry.now
                    name.entry.now at.now }
                ensures no { result ≡ false
                    → (ReturnsWhere F.Fn f.entry.now at.now true
                    → ReturnsWhere F.Fn f.entry.now at.now false → ⊥)
                    → IsMatchWhere (table_symbols symbols.entry.now) F.Fn f.entry.now
                    name.entry.now at.now → ⊥ }
            { symbols.has_name(&at.1, name) && f(at.0, &at.1) },
        )
    }
}
