//! Look-ups in GNU hash tables (the convention of GNU binutils and glibc).

ghost use Rattle.std.specs.Borrow.{Bor};
ghost use Rattle.std.specs.Fn.{FnReturnsAt};
ghost use Rattle.std.specs.Prelude.{◌≡◌, ◌≢◌, ◌≤◌, ◌<◌, ◌+◌, ◌-◌, ◌/◌, ◌^◌, ◌↔◌};
ghost use Rattle.std.specs.Prelude.{ℕ, Bool, true, false, Contains, IfSome, IsTrue, List};
ghost use Rattle.std.specs.Prelude.{MatchOption, Option, Result, Ok, Err, Some, length, slice_get};
ghost use Rattle.elf_base.specs.Table.{table_items};
ghost use Rattle.elf_linking.specs.GnuHash.{symbol_end};
ghost use Rattle.xmas_elf.specs.SymbolTable.{table_symbols};
ghost use Rattle.xmas_elf.specs.Symbols.{Decides, DecidesWhere, IsMatch, IsMatchWhere};
ghost use Rattle.xmas_elf.specs.Symbols.{ReturnsWhere, symbols_of};

use crate::LinkError;
use crate::gnu_hash::{GnuHashTable, gnu_hash};
use elf_base::bytes::{Record, Table};
use xmas_elf::ElfFile;
use xmas_elf::symbol_table::{Entry, SymbolTable};

// Whether a symbol has the name and passes the test, which is called only if it has the name.
#[inline(always)]
fn passes<E: Entry + Record, F: Fn(u32, &E) -> bool>(
    index: u32,
    entry: &E,
    name: &str,
    symbols: &SymbolTable<'_, E>,
    f: &F,
) -> bool
    requires { (e : Bor E) → e.now ≡ entry.now → F.pre f.now index e }
    ensures yes { IsTrue result
        → IsMatchWhere (table_symbols symbols.now) F.Fn f.now name.now (index, entry.now) }
    ensures no { result ≡ false
        → (ReturnsWhere F.Fn f.now (index, entry.now) true
        → ReturnsWhere F.Fn f.now (index, entry.now) false → ⊥)
        → IsMatchWhere (table_symbols symbols.now) F.Fn f.now name.now (index, entry.now) → ⊥ }
{
    symbols.has_name(entry, name) && f(index, entry)
}

// The symbol at an index, if it has the name and passes the test.
#[inline(always)]
fn symbol_at<E: Entry + Record, F: Fn(u32, &E) -> bool>(
    index: u32,
    name: &str,
    symbols: &SymbolTable<'_, E>,
    f: &F,
) -> Option<E>
    requires { (index : ℕ) (e : Bor E) → index < 2 ^ 32
        → slice_get (table_symbols symbols.now).items index ≡ Some e.now → F.pre f.now index e }
    ensures yes { let all = table_symbols symbols.now in (e : E) → result ≡ Some e
        → (slice_get all.items index ≡ Some e) × IsMatchWhere all F.Fn f.now name.now (index, e) }
    ensures no { let all = table_symbols symbols.now in DecidesWhere all F.Fn f.now → result ≡ None
        → (e : E) → slice_get all.items index ≡ Some e
        → IsMatchWhere all F.Fn f.now name.now (index, e) → ⊥ }
{
    let entry = symbols.get(index as usize)?;
    if passes(index, &entry, name, symbols, f) {
        Some(entry)
    } else {
        None
    }
}

impl<'a> GnuHashTable<'a> {
    ghost use Rattle.elf_linking.specs.GnuHash.{FindsAll, FindsAllWhere, IsGnuGood, Looks, GnuLooksFrom};
    ghost use Rattle.elf_linking.specs.GnuHash.{GnuLooksWhere, first_symbol_of};
    ghost use Rattle.elf_linking.specs.Layouts.{gnu_hash_number};

    /// The first symbol in the run of a name that has the name's hash number, has the name and
    /// passes the test, with its index; `None` if the run ends before one, the bucket has no run,
    /// the Bloom words rule out the name, or there are no buckets.
    ///
    /// Errors: `ChainIndex` if the run begins before `first_symbol`; `SymbolIndex` if it comes to
    /// an index without a symbol; `ChainData` if a chain word extends past the end of the data. If
    /// `check` is Ok for the same symbols and file, there is no error and no symbol is missed.
    ///
    /// The call reads at most as many chain words as there are symbols. If there is a run, it finds
    /// the string table of the symbols once, by `Entry::string_table`, and compares the names there
    /// in place.
    ///
    /// The contract holds for a test with only one result for each symbol. A closure states its
    /// result in a clause, as in `|_| -> bool ensures { result ≡ true } { true }`.
    pub fn lookup<E: Entry + Record, F: Fn(&E) -> bool>(
        &self,
        name: &str,
        symbols: &Table<'_, E>,
        file: &ElfFile<'_>,
        f: F,
    ) -> Result<Option<(u32, E)>, LinkError>
        requires callable { (e : Bor E) → Contains (table_items symbols.now) e.now → F.pre f e }
        ensures answer { let all = symbols_of E.fields E.text_in symbols.now file.now in
            Decides all F.Fn f → (count : ℕ)
            × Looks (IsMatch all F.Fn f name.now) self.now all.items name.now result count }
        ensures good { let all = symbols_of E.fields E.text_in symbols.now file.now in
            Decides all F.Fn f → IsGnuGood self.now all
            → FindsAll self.now all name.now (IsMatch all F.Fn f name.now) result }
    {
        self.lookup_in(name, &SymbolTable::new(*symbols, file), f)
    }

    /// The result of `lookup` for a symbol table that carries its names. For many look-ups make the
    /// `SymbolTable` once, since it searches the section headers for the string table.
    ///
    /// The contract is that of `lookup`.
    pub fn lookup_in<E: Entry + Record, F: Fn(&E) -> bool>(
        &self,
        name: &str,
        symbols: &SymbolTable<'_, E>,
        f: F,
    ) -> Result<Option<(u32, E)>, LinkError>
        requires callable { (e : Bor E) → Contains (table_symbols symbols.now).items e.now
            → F.pre f e }
        ensures answer { let all = table_symbols symbols.now in Decides all F.Fn f → (count : ℕ)
            × Looks (IsMatch all F.Fn f name.now) self.now all.items name.now result count }
        ensures good { let all = table_symbols symbols.now in Decides all F.Fn f
            → IsGnuGood self.now all
            → FindsAll self.now all name.now (IsMatch all F.Fn f name.now) result }
    {
        self.lookup_counted_in(name, symbols, f).0
    }

    /// The result of `lookup_in`, and the number of chain words it read, which is at most the number
    /// of symbols.
    pub fn lookup_counted_in<E: Entry + Record, F: Fn(&E) -> bool>(
        &self,
        name: &str,
        symbols: &SymbolTable<'_, E>,
        f: F,
    ) -> (Result<Option<(u32, E)>, LinkError>, u32)
        requires callable { (e : Bor E) → Contains (table_symbols symbols.now).items e.now
            → F.pre f e }
        ensures in_symbols { result.1 ≤ length (table_symbols symbols.now).items }
        ensures answer { let all = table_symbols symbols.now in Decides all F.Fn f
            → Looks (IsMatch all F.Fn f name.now) self.now all.items name.now result.0 result.1 }
        ensures good { let all = table_symbols symbols.now in Decides all F.Fn f
            → IsGnuGood self.now all
            → FindsAll self.now all name.now (IsMatch all F.Fn f name.now) result.0 }
    {
        // The test of a symbol as a test of its index, which it leaves out.
        let test = |_index: u32, symbol: &E| -> bool
            requires { F.pre f symbol }
            ensures { FnReturnsAt F.Fn f symbol.now result }
        { f(symbol) };
        self.search(name, symbols, &test)
    }

    /// The result of `lookup_in` with a test that also knows the index of the symbol, as one that
    /// reads `.gnu.version` there.
    ///
    /// Errors: those of `lookup`.
    ///
    /// The contract holds for a test with only one result for each symbol and its index.
    #[inline(always)]
    pub fn lookup_where<E: Entry + Record, F: Fn(u32, &E) -> bool>(
        &self,
        name: &str,
        symbols: &SymbolTable<'_, E>,
        f: F,
    ) -> Result<Option<(u32, E)>, LinkError>
        requires callable { (index : ℕ) (e : Bor E) → index < 2 ^ 32
            → slice_get (table_symbols symbols.now).items index ≡ Some e.now → F.pre f index e }
        ensures answer { let all = table_symbols symbols.now in DecidesWhere all F.Fn f
            → (count : ℕ) × GnuLooksWhere (IsMatchWhere all F.Fn f name.now) self.now all.items
            name.now result count }
        ensures good { let all = table_symbols symbols.now in DecidesWhere all F.Fn f
            → IsGnuGood self.now all
            → FindsAllWhere self.now all name.now (IsMatchWhere all F.Fn f name.now) result }
    {
        self.search(name, symbols, &f).0
    }

    // The look-up with a borrowed test: a pass over the run from the bucket of the name.
    #[inline(always)]
    fn search<E: Entry + Record, F: Fn(u32, &E) -> bool>(
        &self,
        name: &str,
        symbols: &SymbolTable<'_, E>,
        f: &F,
    ) -> (Result<Option<(u32, E)>, LinkError>, u32)
        requires { (index : ℕ) (e : Bor E) → index < 2 ^ 32
            → slice_get (table_symbols symbols.now).items index ≡ Some e.now
            → F.pre f.now index e }
        ensures in_symbols { result.1 ≤ length (table_symbols symbols.now).items }
        ensures answer { let all = table_symbols symbols.now in DecidesWhere all F.Fn f.now
            → GnuLooksWhere (IsMatchWhere all F.Fn f.now name.now)
            self.now all.items name.now result.0 result.1 }
    {
        let hash = gnu_hash(name);
        let Some(from) = self.start(hash) else {
            return (Ok(None), 0);
        };
        if from < self.first_symbol() {
            return (Err(LinkError::ChainIndex), 0);
        }
        self.follow_chain(from, hash, name, symbols, f)
    }

    // The pass over the run from an index on, by the hash number of the name.
    #[inline(always)]
    fn follow_chain<E: Entry + Record, F: Fn(u32, &E) -> bool>(
        &self,
        from: u32,
        hash: u32,
        name: &str,
        symbols: &SymbolTable<'_, E>,
        f: &F,
    ) -> (Result<Option<(u32, E)>, LinkError>, u32)
        requires above { 0 < from }
        requires begins { first_symbol_of self.now ≤ from }
        requires callable { (index : ℕ) (e : Bor E) → index < 2 ^ 32
            → slice_get (table_symbols symbols.now).items index ≡ Some e.now
            → F.pre f.now index e }
        ensures in_symbols { result.1 ≤ length (table_symbols symbols.now).items }
        ensures answer { let all = table_symbols symbols.now in DecidesWhere all F.Fn f.now
            → GnuLooksFrom (IsMatchWhere all F.Fn f.now name.now) hash
            self.now all.items from result.0 result.1 }
    {
        let end = symbol_end(symbols);
        for index in u64::from(from)..end {
            let passed = index - u64::from(from);
            let word = match self.get_chain(index as u32) {
                Ok(word) => word,
                Err(error) => return (Err(error), passed as u32),
            };
            if word / 2 == hash / 2 {
                if let Some(entry) = symbol_at(index as u32, name, symbols, f) {
                    return (Ok(Some((index as u32, entry))), passed as u32 + 1);
                }
            }
            if word % 2 == 1 {
                return (Ok(None), passed as u32 + 1);
            }
        }
        let passed = end.saturating_sub(u64::from(from));
        (Err(LinkError::SymbolIndex), passed as u32)
    }
}

// The number of symbols with an index of 32 bits.
pub(crate) fn symbol_end<E: Entry + Record>(symbols: &SymbolTable<'_, E>) -> u64
    ensures { result ≡ symbol_end (table_symbols symbols.now).items }
{
    (symbols.len() as u64).min(1 << 32)
}
