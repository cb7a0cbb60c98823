//! The check of a hash table (this project's own).

ghost use Rattle.std.specs.Prelude.{◌≡◌, ◌≢◌, ◌<◌, ◌+◌, ◌^◌, ◌/◌, ◌%◌, ◌↔◌, ℕ, Err, IfSome};
ghost use Rattle.std.specs.Prelude.{IsOk, IsTrue, List, MatchOption, MatchResult, None, Ok, Result};
ghost use Rattle.std.specs.Prelude.{Some, false};
ghost use Rattle.elf_records.specs.HashNumber.{hash_number};
ghost use Rattle.xmas_elf.specs.Counted.{IsCount};
ghost use Rattle.xmas_elf.specs.HashTable.{MustBeHeld};
ghost use Rattle.xmas_elf.specs.SymbolTable.{table_symbols};
ghost use Rattle.xmas_elf.specs.Symbol.{IsGlobal};
ghost use Rattle.xmas_elf.specs.Symbols.{symbols_of};

mod lent;

use crate::bytes::{Record, Table};
use crate::hash::{HashTable, hash_of_bytes};
use crate::symbol_table::{Entry, SymbolTable};
use crate::{ElfError, ElfFile};

// The name of a symbol that isn't local.
#[inline(always)]
fn global_name<'a, E: Entry + Record>(entry: &E, symbols: &SymbolTable<'a, E>) -> Option<&'a [u8]>
    ensures { let all = table_symbols symbols.now in MatchOption result
        ((all.fields entry.now).info / 16 ≢ 0 → all.text entry.now ≡ None)
        (λ name. ((all.fields entry.now).info / 16 ≢ 0) × (all.text entry.now ≡ Some name.now)) }
{
    if entry.info() / 16 == 0 {
        return None;
    }
    symbols.key_of(entry)
}

// The name of the symbol at an index, unless the symbol is local.
#[inline(always)]
fn name_at<'a, E: Entry + Record>(index: usize, symbols: &SymbolTable<'a, E>) -> Option<&'a [u8]>
    requires { 0 < index }
    ensures { let all = table_symbols symbols.now in MatchOption result
        (¬ MustBeHeld all index) (λ name. (e : E) × IsGlobal all index e name.now) }
{
    match symbols.get(index) {
        Some(entry) => global_name(&entry, symbols),
        None => None,
    }
}

// Whether the symbol at an index isn't local and has a name.
#[inline(always)]
fn must_be_held<E: Entry + Record>(index: usize, symbols: &SymbolTable<'_, E>) -> bool
    requires { 0 < index }
    ensures { IsTrue result ↔ MustBeHeld (table_symbols symbols.now) index }
{
    name_at(index, symbols).is_some()
}

// The number of symbols that aren't local and have a name.
fn global_count<E: Entry + Record>(symbols: &SymbolTable<'_, E>) -> usize
    ensures { IsCount (MustBeHeld (table_symbols symbols.now)) result }
{
    let mut count = 0;
    for index in 1..symbols.len() {
        count += usize::from(must_be_held(index, symbols));
    }
    count
}

// Errors are passed on by `match`, since a proof by hand would have to undo a `?`.
impl<'a> HashTable<'a> {
    ghost use Rattle.xmas_elf.specs.HashTable.{Comes, Ends, EndsBelow, IsAtFault, IsCheck, IsGood};
    ghost use Rattle.xmas_elf.specs.HashTable.{IsHeldBelow, IsHeldBy, IsReached, LooksFrom};
    ghost use Rattle.xmas_elf.specs.HashTable.{Reaches, IsFoundAt, bucket_count_of, bucket_of};
    ghost use Rattle.xmas_elf.specs.HashTable.{chains_of};

    /// Checks that all chains end, and that each symbol that isn't local and has a name is in the
    /// chain of that name, so that `lookup` finds it. A binding without a meaning isn't local, and
    /// a symbol whose name is an error is not checked.
    ///
    /// Errors: those of `lookup` for the chain of the least bucket whose chain doesn't end;
    /// `HashMissing` if all chains end and a symbol is missing.
    ///
    /// It allocates no memory, and marks nothing. It follows the chain of each bucket once, to its
    /// end, and counts the symbols that belong to that bucket by their names; then it counts the
    /// symbols that must be found, and compares. If no buckets share a chain, it takes a step for
    /// each symbol in a chain and one for each symbol, and reads each name twice, however the names
    /// are distributed.
    ///
    /// After more steps than there are chains, buckets share a chain, and it continues with the
    /// words of chains alone. It follows the chain from each index up to a lesser one or the end,
    /// in one step if chains lead downwards, as a linker makes them; from each bucket, if one of
    /// these passes reaches neither; and from the bucket of each symbol's name, which it reads once
    /// more, up to the symbol. With B buckets, C chains and S symbols, a table made to be expensive
    /// takes at most B + C + S times the lesser of C and S such steps. `check_with` needs fewer.
    pub fn check<E: Entry + Record>(
        &self,
        symbols: &Table<'_, E>,
        file: &ElfFile<'_>,
    ) -> Result<(), ElfError>
        ensures accepts { IsOk result
            ↔ IsGood self.now (symbols_of E.fields E.text_in symbols.now file.now) }
        ensures exact { IsCheck self.now
            (symbols_of E.fields E.text_in symbols.now file.now) result }
    {
        self.check_in(&SymbolTable::new(*symbols, file))
    }

    /// The result of `check`, with scratch memory from the caller: one word for each chain
    /// (`chain_count`). Use it for files that nobody trusts.
    ///
    /// If no buckets share a chain, it does what `check` does. Otherwise its time grows with the
    /// buckets, chains and symbols, times the logarithm of the chains, whatever the table. If
    /// `words` is shorter than the chains that have a symbol, it does what `check` does. It ignores
    /// what `words` contains, and leaves anything there.
    ///
    /// Errors: those of `check`.
    pub fn check_with<E: Entry + Record>(
        &self,
        symbols: &Table<'_, E>,
        file: &ElfFile<'_>,
        words: &mut [u32],
    ) -> Result<(), ElfError>
        ensures accepts { IsOk result
            ↔ IsGood self.now (symbols_of E.fields E.text_in symbols.now file.now) }
        ensures exact { IsCheck self.now
            (symbols_of E.fields E.text_in symbols.now file.now) result }
    {
        self.check_in_with(&SymbolTable::new(*symbols, file), words)
    }

    /// The result of `check` for a symbol table that carries its names.
    pub fn check_in<E: Entry + Record>(&self, symbols: &SymbolTable<'_, E>) -> Result<(), ElfError>
        ensures accepts { IsOk result ↔ IsGood self.now (table_symbols symbols.now) }
        ensures exact { IsCheck self.now (table_symbols symbols.now) result }
    {
        self.verdict(symbols, &mut [])
    }

    /// The result of `check_with` for a symbol table that carries its names.
    pub fn check_in_with<E: Entry + Record>(
        &self,
        symbols: &SymbolTable<'_, E>,
        words: &mut [u32],
    ) -> Result<(), ElfError>
        ensures accepts { IsOk result ↔ IsGood self.now (table_symbols symbols.now) }
        ensures exact { IsCheck self.now (table_symbols symbols.now) result }
    {
        self.verdict(symbols, words)
    }

    // The result of the check, from which `check_in` proves its other clauses.
    fn verdict<E: Entry + Record>(
        &self,
        symbols: &SymbolTable<'_, E>,
        words: &mut [u32],
    ) -> Result<(), ElfError>
        ensures { IsCheck self.now (table_symbols symbols.now) result }
    {
        match self.held_by_all(symbols) {
            Ok(Some(held)) => {
                let global = global_count(symbols) as u64;
                if held < global {
                    return Err(ElfError::HashMissing);
                }
                Ok(())
            }
            Ok(None) => {
                let count = (self.chain_count() as usize).min(symbols.len());
                match words.get_mut(..count) {
                    Some(words) => self.check_lent(symbols, words),
                    None => self.check_shared(symbols),
                }
            }
            Err(fault) => Err(fault),
        }
    }

    // The number of symbols found in the chains of all buckets, if they end; otherwise the error of
    // the least bucket at fault. `None` after more steps than there are chains: a chain that ends
    // has no index twice, so some buckets share a chain.
    fn held_by_all<E: Entry + Record>(
        &self,
        symbols: &SymbolTable<'_, E>,
    ) -> Result<Option<u64>, ElfError>
        ensures { let all = table_symbols symbols.now in MatchResult result
            (λ found. IfSome found (λ held. EndsBelow self.now all.items (bucket_count_of self.now)
            × IsCount (IsHeldBelow self.now all (bucket_count_of self.now)) held))
            (λ error. IsCheck self.now all (Err error)) }
    {
        let most = u64::from(self.chain_count());
        let mut steps: u64 = 0;
        let mut held: u64 = 0;
        for bucket in 0..self.bucket_count() {
            let (more, passed) = match self.held_by(bucket, symbols) {
                Ok(both) => both,
                Err(error) => return Err(error),
            };
            held += u64::from(more);
            steps += u64::from(passed);
            if steps > most {
                return Ok(None);
            }
        }
        Ok(Some(held))
    }

    // The number of symbols in the chain of a bucket that belong to it, and the number of symbols
    // passed, if the chain ends; otherwise the error for it.
    fn held_by<E: Entry + Record>(
        &self,
        bucket: u32,
        symbols: &SymbolTable<'_, E>,
    ) -> Result<(u32, u32), ElfError>
        requires below { bucket < bucket_count_of self.now }
        ensures { let all = table_symbols symbols.now in MatchResult result
            (λ (held, passed). ((first : ℕ) × (bucket_of self.now bucket ≡ Ok first)
            × Comes (chains_of self.now all.items) first passed 0)
            × IsCount (IsHeldBy self.now all bucket) held)
            (λ error. IsAtFault self.now all.items bucket error) }
    {
        let first = match self.get_bucket(bucket) {
            Ok(first) => first,
            Err(error) => return Err(error),
        };
        let mut index = first;
        let mut count: u32 = 0;
        let mut held: u32 = 0;
        while index != 0 {
            let (entry, next) = match self.step(index, count, symbols) {
                Ok(both) => both,
                Err(error) => return Err(error),
            };
            count += 1;
            held += u32::from(self.belongs(&entry, bucket, symbols));
            index = next;
        }
        Ok((held, count))
    }

    // The symbol at an index of a chain, and the next index; or the error of a search for nothing.
    #[inline(always)]
    fn step<E: Entry + Record>(
        &self,
        index: u32,
        passed: u32,
        symbols: &SymbolTable<'_, E>,
    ) -> Result<(E, u32), ElfError>
        requires { 0 < index }
        ensures { let chains = chains_of self.now (table_symbols symbols.now).items in MatchResult result
            (λ (entry, next). IsFoundAt chains index entry × (chains.chain index ≡ Ok next)
            × (passed < chains.count) × (passed + 1 < 2 ^ 32))
            (λ error. (first : ℕ) → Comes chains first passed index
            → (n : ℕ) × LooksFrom (λ (at : ℕ × E). ⊥) chains (Some (Ok first)) (Err error) n) }
    {
        let entry = match self.symbol_at(index, passed, symbols) {
            Ok(entry) => entry,
            Err(halt) => return Err(halt),
        };
        match self.get_chain(index) {
            Ok(next) => Ok((entry, next)),
            Err(error) => Err(error),
        }
    }

    // Whether a symbol in the chain of this bucket must be found there.
    #[inline(always)]
    fn belongs<E: Entry + Record>(
        &self,
        entry: &E,
        bucket: u32,
        symbols: &SymbolTable<'_, E>,
    ) -> bool
        requires below { bucket < bucket_count_of self.now }
        ensures { IsTrue result ↔ ((name : List ℕ) × (((table_symbols symbols.now).fields entry.now).info / 16 ≢ 0)
            × ((table_symbols symbols.now).text entry.now ≡ Some name)
            × (hash_number name % bucket_count_of self.now ≡ bucket)) }
    {
        let bucket_count = self.bucket_count();
        match global_name(entry, symbols) {
            Some(name) => hash_of_bytes(name) % bucket_count == bucket,
            None => false,
        }
    }

    // The check if buckets share chains: of the chains, and then of each symbol.
    fn check_shared<E: Entry + Record>(&self, symbols: &SymbolTable<'_, E>) -> Result<(), ElfError>
        ensures { IsCheck self.now (table_symbols symbols.now) result }
    {
        match self.check_buckets(symbols) {
            Ok(()) if self.holds_all(symbols) => Ok(()),
            Ok(()) => Err(ElfError::HashMissing),
            Err(error) => Err(error),
        }
    }

    // Whether the chains of all buckets end, or the error of the least bucket at fault.
    fn check_buckets<E: Entry + Record>(&self, symbols: &SymbolTable<'_, E>) -> Result<(), ElfError>
        ensures { let items = (table_symbols symbols.now).items in MatchResult result
            (λ _. EndsBelow self.now items (bucket_count_of self.now))
            (λ error. (k : ℕ) × (k < bucket_count_of self.now) × EndsBelow self.now items k
            × IsAtFault self.now items k error) }
    {
        let sound = self.ending(symbols);
        let bucket_count = self.bucket_count();
        for bucket in 0..bucket_count {
            match self.ends(bucket, sound, symbols) {
                Ok(()) => {}
                Err(error) => return Err(error),
            }
        }
        Ok(())
    }

    // An index below which each chain ends: the first whose chain reaches neither a lesser index
    // nor the end, or else the number of indices that can be in a chain.
    fn ending<E: Entry + Record>(&self, symbols: &SymbolTable<'_, E>) -> u32
        ensures some { 0 < result }
        ensures each { (i : ℕ) → i < result
            → Reaches (chains_of self.now (table_symbols symbols.now).items) i 0 }
    {
        let count = (self.chain_count() as usize).min(symbols.len()) as u32;
        for index in 1..count {
            if self
                .follow_chain(index, symbols, |at| at.0 < index)
                .0
                .is_err()
            {
                return index;
            }
        }
        count.max(1)
    }

    // Whether the chain of a bucket ends, or the error for it, if those below an index end.
    fn ends<E: Entry + Record>(
        &self,
        bucket: u32,
        sound: u32,
        symbols: &SymbolTable<'_, E>,
    ) -> Result<(), ElfError>
        requires some { 0 < sound }
        requires each { (i : ℕ) → i < sound
            → Reaches (chains_of self.now (table_symbols symbols.now).items) i 0 }
        ensures { let items = (table_symbols symbols.now).items in MatchResult result
            (λ _. Ends self.now items bucket) (λ error. IsAtFault self.now items bucket error) }
    {
        match self.get_bucket(bucket) {
            Ok(first) => match self.follow_chain(first, symbols, |at| at.0 < sound).0 {
                Ok(_) => Ok(()),
                Err(error) => Err(error),
            },
            Err(error) => Err(error),
        }
    }

    // Whether every symbol that must be is found, if all chains end.
    fn holds_all<E: Entry + Record>(&self, symbols: &SymbolTable<'_, E>) -> bool
        requires ends { EndsBelow self.now (table_symbols symbols.now).items (bucket_count_of self.now) }
        ensures yes { let all = table_symbols symbols.now in
            IsTrue result → (i : ℕ) (e : E) (name : List ℕ) → IsGlobal all i e name
            → IsReached self.now all.items name i }
        ensures no { let all = table_symbols symbols.now in
            result ≡ false → (i : ℕ) × (e : E) × (name : List ℕ) × IsGlobal all i e name
            × ¬ IsReached self.now all.items name i }
    {
        for index in 1..symbols.len() {
            if !self.holds(index, symbols) {
                return false;
            }
        }
        true
    }

    // Whether the symbol at an index is found, if it must be and all chains end.
    fn holds<E: Entry + Record>(&self, index: usize, symbols: &SymbolTable<'_, E>) -> bool
        requires ends { EndsBelow self.now (table_symbols symbols.now).items (bucket_count_of self.now) }
        requires symbol { 0 < index }
        ensures yes { let all = table_symbols symbols.now in
            IsTrue result → (e : E) (name : List ℕ) → IsGlobal all index e name
            → IsReached self.now all.items name index }
        ensures no { let all = table_symbols symbols.now in
            result ≡ false → (e : E) × (name : List ℕ) × IsGlobal all index e name
            × ¬ IsReached self.now all.items name index }
    {
        match name_at(index, symbols) {
            Some(name) => self.reaches(name, index, symbols),
            None => true,
        }
    }

    // Whether an index is in the chain of a name, if all chains end.
    fn reaches<E: Entry + Record>(
        &self,
        name: &[u8],
        index: usize,
        symbols: &SymbolTable<'_, E>,
    ) -> bool
        requires ends { EndsBelow self.now (table_symbols symbols.now).items (bucket_count_of self.now) }
        requires symbol { 0 < index }
        ensures { IsTrue result ↔ IsReached self.now (table_symbols symbols.now).items name.now index }
    {
        match self.start(name) {
            Some(Ok(first)) => match self
                .follow_chain(first, symbols, |at| at.0 as usize == index)
                .0
            {
                Ok(found) => found.is_some(),
                Err(_) => false,
            },
            Some(Err(_)) | None => false,
        }
    }
}
