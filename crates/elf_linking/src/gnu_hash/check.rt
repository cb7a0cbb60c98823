//! The check of a GNU hash table (this project's own).

ghost use Rattle.std.specs.Prelude.{◌≡◌, ◌≢◌, ◌+◌, ◌^◌, ◌<◌, ◌≤◌, ◌/◌, ◌%◌, ◌↔◌};
ghost use Rattle.std.specs.Prelude.{ℕ, Err, IfSome, IsOk, IsTrue, List, MatchResult, Ok, Result};
ghost use Rattle.std.specs.Prelude.{Some, false, length, slice_get};
ghost use Rattle.xmas_elf.specs.SymbolTable.{table_symbols};
ghost use Rattle.xmas_elf.specs.Symbols.{symbols_of};

use crate::LinkError;
use crate::gnu_hash::lookup::symbol_end;
use crate::gnu_hash::{GnuHashTable, gnu_hash_of_bytes};
use elf_base::bytes::{Record, Table};
use xmas_elf::ElfFile;
use xmas_elf::symbol_table::{Entry, SymbolTable};

impl<'a> GnuHashTable<'a> {
    ghost use Rattle.elf_linking.specs.GnuHash.{AreGoodBelow, gnu_bucket_count, first_symbol_of};
    ghost use Rattle.elf_linking.specs.GnuHash.{ComeFrom, EndsRun, HasChain, IsCheck, start_at};
    ghost use Rattle.elf_linking.specs.GnuHash.{GnuEnds, IsCut, IsGnuGood, IsHeld, IsThere};
    ghost use Rattle.elf_linking.specs.GnuHash.{IsAtFault, IsBucketGood, IsExported, chain_word};

    /// Checks that the runs of all buckets end, and that `lookup` finds every exported symbol: each
    /// one from `first_symbol` on that is defined, is not local and has a name. A binding without a
    /// meaning isn't local, and a symbol whose name is an error is not checked.
    ///
    /// Errors: those of `lookup` for the run of the least bucket at fault; `Missing` if there is no
    /// such bucket and a symbol is missing.
    ///
    /// It allocates no memory, and marks nothing. It takes one pass over the buckets, one over the
    /// chain words and one over the symbols, whatever the bytes are. It finds the string table of
    /// the symbols once, by `Entry::string_table`, and reads the name of each symbol there at most
    /// once; symbols may share a long name.
    pub fn check<E: Entry + Record>(
        &self,
        symbols: &Table<'_, E>,
        file: &ElfFile<'_>,
    ) -> Result<(), LinkError>
        ensures accepts { IsOk result
            ↔ IsGnuGood self.now (symbols_of E.fields E.text_in symbols.now file.now) }
        ensures exact { IsCheck self.now
            (symbols_of E.fields E.text_in symbols.now file.now) result }
    {
        self.check_in(&SymbolTable::new(*symbols, file))
    }

    /// The result of `check` for a symbol table that carries its names.
    pub fn check_in<E: Entry + Record>(&self, symbols: &SymbolTable<'_, E>) -> Result<(), LinkError>
        ensures accepts { IsOk result ↔ IsGnuGood self.now (table_symbols symbols.now) }
        ensures exact { IsCheck self.now (table_symbols symbols.now) result }
    {
        match self.check_buckets(symbols) {
            Ok(()) if self.holds_all(symbols) => Ok(()),
            Ok(()) => Err(LinkError::Missing),
            Err(fault) => Err(fault),
        }
    }

    // Whether the runs of all buckets end, or the error of the least bucket at fault: one pass over
    // the chain words finds up to which index runs end, and one over the buckets compares.
    fn check_buckets<E: Entry + Record>(
        &self,
        symbols: &SymbolTable<'_, E>,
    ) -> Result<(), LinkError>
        ensures { let items = (table_symbols symbols.now).items in MatchResult result
            (λ _. AreGoodBelow self.now items (gnu_bucket_count self.now))
            (λ error. (k : ℕ) × (k < gnu_bucket_count self.now) × AreGoodBelow self.now items k
            × IsAtFault self.now items k error) }
    {
        let runs_end = self.runs_end(symbols);
        for bucket in 0..self.bucket_count() {
            self.check_bucket(bucket, runs_end, symbols)?;
        }
        Ok(())
    }

    // Whether the run of a bucket ends, or the error for it; runs end up to `runs_end`.
    fn check_bucket<E: Entry + Record>(
        &self,
        bucket: u32,
        runs_end: u64,
        symbols: &SymbolTable<'_, E>,
    ) -> Result<(), LinkError>
        requires below { bucket < gnu_bucket_count self.now }
        requires ends { (from : ℕ) → first_symbol_of self.now ≤ from → from < runs_end
            → GnuEnds self.now (table_symbols symbols.now).items from }
        requires last { (i : ℕ) → first_symbol_of self.now ≤ i → runs_end ≤ i
            → IsThere self.now (table_symbols symbols.now).items i → EndsRun self.now i → ⊥ }
        ensures { let items = (table_symbols symbols.now).items in MatchResult result
            (λ _. IsBucketGood self.now items bucket)
            (λ error. IsAtFault self.now items bucket error) }
    {
        let from = self.bucket(bucket);
        if from == 0 {
            return Ok(());
        }
        if from < self.first_symbol() {
            return Err(LinkError::ChainIndex);
        }
        if u64::from(from) < runs_end {
            return Ok(());
        }
        Err(self.reason(from, symbols))
    }

    // The index after the last chain word that ends a run, of those that are within the data and
    // have a symbol; 0 if there is none.
    fn runs_end<E: Entry + Record>(&self, symbols: &SymbolTable<'_, E>) -> u64
        ensures ends { (from : ℕ) → first_symbol_of self.now ≤ from → from < result
            → GnuEnds self.now (table_symbols symbols.now).items from }
        ensures last { (i : ℕ) → first_symbol_of self.now ≤ i → result ≤ i
            → IsThere self.now (table_symbols symbols.now).items i → EndsRun self.now i → ⊥ }
    {
        let mut end = 0;
        for index in u64::from(self.first_symbol())..symbol_end(symbols) {
            match self.get_chain(index as u32) {
                Ok(word) => {
                    if word % 2 == 1 {
                        end = index + 1;
                    }
                }
                Err(_) => return end,
            }
        }
        end
    }

    // The error of a run that has no last word:
    // the symbols or the chain words end first.
    fn reason<E: Entry + Record>(&self, from: u32, symbols: &SymbolTable<'_, E>) -> LinkError
        requires begins { first_symbol_of self.now ≤ from }
        requires endless { (i : ℕ) → from ≤ i → IsThere self.now (table_symbols symbols.now).items i
            → EndsRun self.now i → ⊥ }
        ensures { IsCut self.now (table_symbols symbols.now).items from result }
    {
        let end = symbol_end(symbols);
        if u64::from(from) >= end {
            return LinkError::SymbolIndex;
        }
        match self.get_chain((end - 1) as u32) {
            Ok(_) => LinkError::SymbolIndex,
            Err(_) => LinkError::ChainData,
        }
    }

    // Whether every exported symbol is found: one pass over the symbols, which keeps the index from
    // which on runs come to the current one.
    fn holds_all<E: Entry + Record>(&self, symbols: &SymbolTable<'_, E>) -> bool
        ensures yes { let all = table_symbols symbols.now in
            IsTrue result → (i : ℕ) (e : E) (name : List ℕ) → IsExported self.now all i e name
            → IsHeld self.now all.items name i }
        ensures no { let all = table_symbols symbols.now in
            result ≡ false → (i : ℕ) × (e : E) × (name : List ℕ) × IsExported self.now all i e name
            × ¬ IsHeld self.now all.items name i }
    {
        let first = (self.first_symbol() as usize).max(1);
        let mut from = first;
        for index in first..symbols.len() {
            if let Some(entry) = symbols.get(index) {
                if !self.holds(index, from, &entry, symbols) {
                    return false;
                }
            }
            from = self.next_from(index, from, symbols);
        }
        true
    }

    // The index from which on runs come to the next symbol,
    // if those from `from` on come to this one.
    fn next_from<E: Entry + Record>(
        &self,
        index: usize,
        from: usize,
        symbols: &SymbolTable<'_, E>,
    ) -> usize
        requires room { index + 1 < 2 ^ 64 }
        requires below { index < length (table_symbols symbols.now).items }
        requires runs { ComeFrom self.now (table_symbols symbols.now).items from index }
        ensures { ComeFrom self.now (table_symbols symbols.now).items result (index + 1) }
    {
        if self.goes_on(index) { from } else { index + 1 }
    }

    // Whether a run that comes to a symbol continues at the next.
    fn goes_on(&self, index: usize) -> bool
        ensures yes { IsTrue result
            → (index < 2 ^ 32) × HasChain self.now index × (EndsRun self.now index → ⊥) }
        ensures no { result ≡ false
            → index < 2 ^ 32 → HasChain self.now index → (EndsRun self.now index → ⊥) → ⊥ }
    {
        if index > u32::MAX as usize {
            return false;
        }
        match self.get_chain(index as u32) {
            Ok(word) => word % 2 == 0,
            Err(_) => false,
        }
    }

    // Whether the symbol at an index is found if it is exported, where the runs from `from` on come
    // to it: its binding and section are read first, then its name.
    fn holds<E: Entry + Record>(
        &self,
        index: usize,
        from: usize,
        entry: &E,
        symbols: &SymbolTable<'_, E>,
    ) -> bool
        requires below { index < length (table_symbols symbols.now).items }
        requires runs { ComeFrom self.now (table_symbols symbols.now).items from index }
        ensures yes { let all = table_symbols symbols.now in
            IsTrue result → (name : List ℕ) → (all.fields entry.now).info / 16 ≢ 0
            → (all.fields entry.now).shndx ≢ 0 → all.text entry.now ≡ Some name
            → IsHeld self.now all.items name index }
        ensures no { let all = table_symbols symbols.now in
            result ≡ false → (name : List ℕ) × ((all.fields entry.now).info / 16 ≢ 0)
            × ((all.fields entry.now).shndx ≢ 0) × (all.text entry.now ≡ Some name)
            × ¬ IsHeld self.now all.items name index }
    {
        if entry.info() / 16 == 0 || entry.shndx() == 0 {
            return true;
        }
        match symbols.key_of(entry) {
            Some(name) => self.is_on_run(index, from, name, symbols),
            None => true,
        }
    }

    // Whether an index is found for a name, where the runs from `from` on come to it.
    fn is_on_run<E: Entry + Record>(
        &self,
        index: usize,
        from: usize,
        name: &[u8],
        symbols: &SymbolTable<'_, E>,
    ) -> bool
        requires below { index < length (table_symbols symbols.now).items }
        requires runs { ComeFrom self.now (table_symbols symbols.now).items from index }
        ensures { IsTrue result ↔ IsHeld self.now (table_symbols symbols.now).items name.now index }
    {
        let hash = gnu_hash_of_bytes(name);
        let Some(start) = self.start(hash) else {
            return false;
        };
        if (start as usize) < from || start as usize > index || index > u32::MAX as usize {
            return false;
        }
        match self.get_chain(index as u32) {
            Ok(word) => word / 2 == hash / 2,
            Err(_) => false,
        }
    }
}
