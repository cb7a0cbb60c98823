//! The check of a table whose buckets share chains, with one word of scratch memory for each chain.
//!
//! A word from `LINKED` on links its index to a later one of the same chain, so that later searches
//! skip what is between them. A word below is the number of indices whose chain leads to its own
//! and that aren't linked. An index is linked once that number is 0: then all indices before it on
//! any chain are linked, and the links from a bucket end at it exactly if its chain contains it. No
//! result rests on these numbers: where links don't find a symbol, the chain itself is searched.

ghost use Rattle.std.specs.Prelude.{◌≡◌, ◌<◌, ◌+◌, ◌^◌, ◌⊎◌, ℕ, IsTrue, List, MatchOption};
ghost use Rattle.std.specs.Prelude.{MatchResult, false, length, slice_index_or};
ghost use Rattle.xmas_elf.specs.ChainLinks.{AreEnding, AreHeld, AreLinks, Joins};
ghost use Rattle.xmas_elf.specs.Symbol.{IsGlobal};
ghost use Rattle.xmas_elf.specs.SymbolTable.{table_symbols};

use crate::ElfError;
use crate::bytes::Record;
use crate::hash::HashTable;
use crate::hash::check::name_at;
use crate::symbol_table::{Entry, SymbolTable};

// The least word that links its index.
const LINKED: u32 = 1 << 31;

// The index that another is linked to, if it is linked.
fn linked(words: &[u32], index: usize) -> Option<u32>
    ensures { MatchOption result (slice_index_or words.now index 0 < 2 ^ 31)
        (λ next. Joins words.now index next × (index < length words.now) × (next < 2 ^ 31)) }
{
    match words.get(index) {
        Some(&word) if word >= LINKED => Some(word - LINKED),
        _ => None,
    }
}

// Whether an index is linked.
fn is_linked(words: &[u32], index: usize) -> bool
    ensures { IsTrue result → (j : ℕ) × Joins words.now index j }
{
    linked(words, index).is_some()
}

// Links an index to another.
fn link(words: &mut [u32], index: usize, next: u32)
    requires within { index < length words.old }
    requires small { next < 2 ^ 31 }
    ensures { (i j : ℕ) → Joins words.new i j
        → ((i ≡ index) × (j ≡ next)) ⊎ Joins words.old i j }
{
    words[index] = LINKED + next;
}

// Counts one index more that leads to another.
fn count_up(words: &mut [u32], index: usize)
    ensures { (i j : ℕ) → Joins words.new i j → Joins words.old i j }
{
    if index < words.len() && words[index] < LINKED - 1 {
        words[index] += 1;
    }
}

// Counts one index less that leads to another, and isn't linked.
fn count_down(words: &mut [u32], index: usize)
    ensures { (i j : ℕ) → Joins words.new i j → Joins words.old i j }
{
    if index < words.len() && words[index] > 0 && words[index] < LINKED {
        words[index] -= 1;
    }
}

// Unlinks all.
fn clear(words: &mut [u32])
    ensures { (i j : ℕ) → ¬ Joins words.new i j }
{
    words.fill(0);
}

impl<'a> HashTable<'a> {
    ghost use Rattle.xmas_elf.specs.HashTable.{Ends, EndsBelow, Held, IsAtFault, IsCheck};
    ghost use Rattle.xmas_elf.specs.HashTable.{IsReached, Reaches, bucket_count_of, chains_of};

    // `check_shared`, with a word for each chain that has a symbol.
    pub(super) fn check_lent<E: Entry + Record>(
        &self,
        symbols: &SymbolTable<'_, E>,
        words: &mut [u32],
    ) -> Result<(), ElfError>
        ensures { IsCheck self.now (table_symbols symbols.now) result }
    {
        match self.check_buckets_lent(symbols, words) {
            Ok(()) if self.holds_all_lent(symbols, words) => Ok(()),
            Ok(()) => Err(ElfError::HashMissing),
            Err(error) => Err(error),
        }
    }

    // `check_buckets`, which passes each index once.
    fn check_buckets_lent<E: Entry + Record>(
        &self,
        symbols: &SymbolTable<'_, E>,
        words: &mut [u32],
    ) -> Result<(), ElfError>
        ensures { let items = (table_symbols symbols.now).items in MatchResult result
            (λ _. EndsBelow self.now items (bucket_count_of self.now))
            (λ error. (k : ℕ) × (k < bucket_count_of self.now) × EndsBelow self.now items k
            × IsAtFault self.now items k error) }
    {
        clear(words);
        for bucket in 0..self.bucket_count() {
            match self.ends_lent(bucket, symbols, words) {
                Ok(()) => {}
                Err(error) => return Err(error),
            }
        }
        Ok(())
    }

    // Whether the chain of a bucket ends, or the error for it. Each index on it is then linked.
    fn ends_lent<E: Entry + Record>(
        &self,
        bucket: u32,
        symbols: &SymbolTable<'_, E>,
        words: &mut [u32],
    ) -> Result<(), ElfError>
        requires { AreEnding (chains_of self.now (table_symbols symbols.now).items) words.old }
        ensures answer { let items = (table_symbols symbols.now).items in MatchResult result
            (λ _. Ends self.now items bucket) (λ error. IsAtFault self.now items bucket error) }
        ensures kept { AreEnding (chains_of self.now (table_symbols symbols.now).items) words.new }
    {
        let first = match self.get_bucket(bucket) {
            Ok(first) => first,
            Err(error) => return Err(error),
        };
        match self
            .follow_chain(first, symbols, |at| is_linked(words, at.0 as usize))
            .0
        {
            Ok(_) => {}
            Err(error) => return Err(error),
        }
        self.link_ending(first, symbols, words);
        Ok(())
    }

    // Links each index of a chain that ends.
    fn link_ending<E: Entry + Record>(
        &self,
        first: u32,
        symbols: &SymbolTable<'_, E>,
        words: &mut [u32],
    )
        requires ends { Reaches (chains_of self.now (table_symbols symbols.now).items) first 0 }
        requires links { AreEnding (chains_of self.now (table_symbols symbols.now).items) words.old }
        ensures { AreEnding (chains_of self.now (table_symbols symbols.now).items) words.new }
    {
        let mut index = first;
        for _ in 0..symbols.len() {
            let here = index as usize;
            if index == 0 || here >= words.len() || is_linked(words, here) {
                return;
            }
            link(words, here, 0);
            index = match self.get_chain(index) {
                Ok(next) => next,
                Err(_) => return,
            };
        }
    }

    // `holds_all`, which follows links.
    fn holds_all_lent<E: Entry + Record>(
        &self,
        symbols: &SymbolTable<'_, E>,
        words: &mut [u32],
    ) -> bool
        requires ends { EndsBelow self.now (table_symbols symbols.now).items (bucket_count_of self.now) }
        ensures yes { let all = table_symbols symbols.now in
            IsTrue result → (i : ℕ) → Held self.now all i }
        ensures no { let all = table_symbols symbols.now in
            result ≡ false → (i : ℕ) × (e : E) × (name : List ℕ) × IsGlobal all i e name
            × ¬ IsReached self.now all.items name i }
    {
        self.count_leading(words);
        let count = (self.chain_count() as usize).min(words.len()) as u32;
        for index in 1..count {
            if !self.link_from(index, symbols, words) {
                return false;
            }
        }
        self.holds_rest(symbols, words)
    }

    // Whether every symbol that must be is found, if all chains end and those of linked indices are.
    fn holds_rest<E: Entry + Record>(&self, symbols: &SymbolTable<'_, E>, words: &[u32]) -> bool
        requires ends { EndsBelow self.now (table_symbols symbols.now).items (bucket_count_of self.now) }
        requires held { AreHeld self.now (table_symbols symbols.now) words.now }
        ensures yes { let all = table_symbols symbols.now in
            IsTrue result → (i : ℕ) → Held self.now all i }
        ensures no { let all = table_symbols symbols.now in
            result ≡ false → (i : ℕ) × (e : E) × (name : List ℕ) × IsGlobal all i e name
            × ¬ IsReached self.now all.items name i }
    {
        for index in 1..symbols.len() {
            if is_linked(words, index) {
                continue;
            }
            if !self.holds(index, symbols) {
                return false;
            }
        }
        true
    }

    // Sets each word to the number of indices that lead to its own.
    fn count_leading(&self, words: &mut [u32])
        ensures { (i j : ℕ) → ¬ Joins words.new i j }
    {
        clear(words);
        let count = (self.chain_count() as usize).min(words.len()) as u32;
        for index in 1..count {
            let Ok(next) = self.get_chain(index) else {
                continue;
            };
            count_up(words, next as usize);
        }
    }

    // Links an index, if all that lead to it are linked, and then so the next ones. Whether each of
    // their symbols is found, if it must be.
    fn link_from<E: Entry + Record>(
        &self,
        first: u32,
        symbols: &SymbolTable<'_, E>,
        words: &mut [u32],
    ) -> bool
        requires ends { EndsBelow self.now (table_symbols symbols.now).items (bucket_count_of self.now) }
        requires links { AreLinks (chains_of self.now (table_symbols symbols.now).items) words.old }
        requires held { AreHeld self.now (table_symbols symbols.now) words.old }
        ensures links { AreLinks (chains_of self.now (table_symbols symbols.now).items) words.new }
        ensures held { AreHeld self.now (table_symbols symbols.now) words.new }
        ensures no { let all = table_symbols symbols.now in
            result ≡ false → (i : ℕ) × (e : E) × (name : List ℕ) × IsGlobal all i e name
            × ¬ IsReached self.now all.items name i }
    {
        let mut index = first;
        for _ in 0..symbols.len() {
            let here = index as usize;
            if index == 0 || symbols.get(here).is_none() || words.get(here) != Some(&0) {
                return true;
            }
            if !self.holds_lent(index, symbols, words) {
                return false;
            }
            match self.get_chain(index) {
                Ok(next) if next < LINKED => {
                    link(words, here, next);
                    count_down(words, next as usize);
                    index = next;
                }
                _ => return true,
            }
        }
        true
    }

    // `holds` by links, or else by the whole chain: only a symbol that isn't found needs it.
    fn holds_lent<E: Entry + Record>(
        &self,
        index: u32,
        symbols: &SymbolTable<'_, E>,
        words: &mut [u32],
    ) -> bool
        requires ends { EndsBelow self.now (table_symbols symbols.now).items (bucket_count_of self.now) }
        requires symbol { 0 < index }
        requires links { AreLinks (chains_of self.now (table_symbols symbols.now).items) words.old }
        requires held { AreHeld self.now (table_symbols symbols.now) words.old }
        ensures links { AreLinks (chains_of self.now (table_symbols symbols.now).items) words.new }
        ensures held { AreHeld self.now (table_symbols symbols.now) words.new }
        ensures yes { IsTrue result → Held self.now (table_symbols symbols.now) index }
        ensures no { let all = table_symbols symbols.now in
            result ≡ false → (e : E) × (name : List ℕ) × IsGlobal all index e name
            × ¬ IsReached self.now all.items name index }
    {
        match name_at(index as usize, symbols) {
            Some(name) => {
                self.comes_to(name, index, symbols, words)
                    || self.reaches(name, index as usize, symbols)
            }
            None => true,
        }
    }

    // Whether the links from the bucket of a name lead to an index.
    fn comes_to<E: Entry + Record>(
        &self,
        name: &[u8],
        index: u32,
        symbols: &SymbolTable<'_, E>,
        words: &mut [u32],
    ) -> bool
        requires links { AreLinks (chains_of self.now (table_symbols symbols.now).items) words.old }
        requires held { AreHeld self.now (table_symbols symbols.now) words.old }
        ensures links { AreLinks (chains_of self.now (table_symbols symbols.now).items) words.new }
        ensures held { AreHeld self.now (table_symbols symbols.now) words.new }
        ensures yes { IsTrue result → IsReached self.now (table_symbols symbols.now).items name.now index }
    {
        match self.start(name) {
            Some(Ok(first)) => self.last_link(first, symbols, words) == index,
            Some(Err(_)) | None => false,
        }
    }

    // The index that the links from another lead to. Each index passed is linked past the next one,
    // so that later searches are shorter.
    fn last_link<E: Entry + Record>(
        &self,
        first: u32,
        symbols: &SymbolTable<'_, E>,
        words: &mut [u32],
    ) -> u32
        requires links { AreLinks (chains_of self.now (table_symbols symbols.now).items) words.old }
        requires held { AreHeld self.now (table_symbols symbols.now) words.old }
        ensures links { AreLinks (chains_of self.now (table_symbols symbols.now).items) words.new }
        ensures held { AreHeld self.now (table_symbols symbols.now) words.new }
        ensures comes { Reaches (chains_of self.now (table_symbols symbols.now).items) first result }
    {
        let mut index = first;
        for _ in 0..symbols.len() {
            let Some(next) = linked(words, index as usize) else {
                return index;
            };
            let further = linked(words, next as usize).unwrap_or(next);
            link(words, index as usize, further);
            index = further;
        }
        index
    }
}
