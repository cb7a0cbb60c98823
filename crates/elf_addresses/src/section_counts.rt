//! How many symbols each section has, for the pieces of many sections.

ghost use Rattle.std.specs.Prelude.{◌≡◌, ◌≤◌, ◌<◌, ◌+◌, ◌^◌, ◌↔◌, ℕ, false, true, IsTrue, Option, length, replicate, slice_index};
ghost use Rattle.elf_addresses.specs.Held.{InOrder};
ghost use Rattle.elf_addresses.specs.Index.{in_order_at, listed};
ghost use Rattle.elf_addresses.specs.SectionCounts.{AreCounts, counted, section_if, sized_section};
ghost use Rattle.elf_addresses.specs.SymbolClaims.{claim_of_symbols, symbol_count};

use crate::claims::Claims;
use crate::error::IndexError;
use crate::index::is_in_order_at;
use crate::symbols::{AddressSymbols, SymbolClaims};
use xmas_elf::bytes::Record;
use xmas_elf::symbol_table::Entry;

/// How many symbols of a table each section has, of those that name addresses and have a size.
#[derive(Drop)]
pub struct SectionCounts<'s, 'a, 'w, E: Entry + Record> {
    pub(crate) symbols: &'s AddressSymbols<'a, E>,
    pub(crate) counts: &'w [u32],
    ghost counted: { AreCounts E.fields symbols.now (symbol_count symbols.now) counts.now },
}

impl<'s, 'a, 'w, E: Entry + Record> SectionCounts<'s, 'a, 'w, E> {
    ghost use Rattle.std.specs.Prelude.{Err, IfOk, IsOk};
    ghost use Rattle.elf_addresses.specs.declared.error.IndexError.TheVariants.{ManySymbols};

    /// The counts of the sections with an index below the number of words. It passes over the table
    /// once. The error is `ManySymbols` (2 to the 32 symbols or more).
    pub fn new(
        symbols: &'s AddressSymbols<'a, E>,
        words: &'w mut [u32],
    ) -> Result<SectionCounts<'s, 'a, 'w, E>, IndexError>
        ensures many { 2 ^ 32 ≤ symbol_count symbols.now → result ≡ Err ManySymbols }
        ensures fits { symbol_count symbols.now < 2 ^ 32 → IsOk result }
        ensures symbols { IfOk result (λ counts. counts.symbols.now ≡ symbols.now) }
        ensures sections { IfOk result (λ counts. length counts.counts.now ≡ length words.old) }
    {
        if symbols.table.len() > u32::MAX as usize {
            return Err(IndexError::ManySymbols);
        }
        words.fill(0);
        count_all(symbols, &mut *words);
        Ok(SectionCounts {
            symbols,
            counts: words,
        })
    }

    /// The number of symbols of a section that name addresses and have a size; 0 for a section without
    /// a count.
    pub fn count(&self, section: u32) -> usize
        ensures small { result < 2 ^ 32 }
        ensures none { length self.now.counts.now ≤ section → result ≡ 0 }
        ensures value { section < length self.now.counts.now → result
            ≡ length (listed (claim_of_symbols E.fields self.now.symbols.now (Some section)) false
            (symbol_count self.now.symbols.now)) }
    {
        match self.counts.get(section as usize) {
            Some(count) => *count as usize,
            None => 0,
        }
    }

    // Whether words are the indices of all those symbols of a section, in order.
    pub(crate) fn are_all(&self, section: u32, words: &[u32]) -> bool
        ensures few { IsTrue result → length words.now < 2 ^ 32 }
        ensures within { IsTrue result → section < length self.now.counts.now }
        ensures ordered { IsTrue result
            → InOrder (claim_of_symbols E.fields self.now.symbols.now (Some section)) false
            (symbol_count self.now.symbols.now) words.now }
        ensures all { section < length self.now.counts.now
            → InOrder (claim_of_symbols E.fields self.now.symbols.now (Some section)) false
            (symbol_count self.now.symbols.now) words.now
            → IsTrue result }
    {
        if section as usize >= self.counts.len() {
            return false;
        }
        if words.len() != self.count(section) {
            return false;
        }
        let claims = SymbolClaims {
            symbols: self.symbols,
            within: Some(section),
        };
        are_in_order(&claims, words)
    }
}

// Whether each word is the index of a sized claim that is further in than that of the word before it.
fn are_in_order<C: Claims>(claims: &C, words: &[u32]) -> bool
    ensures { IsTrue result ↔ ((place : ℕ) → place < length words.now
        → in_order_at (C.claim_of claims.now) false words.now place ≡ true) }
{
    for place in 0..words.len() {
        if !is_in_order_at(claims, words, place, false) {
            return false;
        }
    }
    true
}

// Counts all symbols.
fn count_all<E: Entry + Record>(symbols: &AddressSymbols<'_, E>, counts: &mut [u32])
    requires few { symbol_count symbols.now < 2 ^ 32 }
    requires none { counts.old ≡ replicate (length counts.old) 0 }
    ensures counted { AreCounts E.fields symbols.now (symbol_count symbols.now) counts.new }
    ensures same { length counts.new ≡ length counts.old }
{
    for index in 0..symbols.table.len() {
        count_one(symbols, index, counts);
    }
}

// Counts the symbol at an index.
fn count_one<E: Entry + Record>(symbols: &AddressSymbols<'_, E>, index: usize, counts: &mut [u32])
    requires few { index + 1 < 2 ^ 32 }
    requires before { AreCounts E.fields symbols.now index counts.old }
    ensures counted { AreCounts E.fields symbols.now (index + 1) counts.new }
    ensures same { length counts.new ≡ length counts.old }
{
    let section = sized_section(symbols, index);
    add_one(counts, section);
}

// Adds one to the count of a section.
fn add_one(counts: &mut [u32], section: Option<u32>)
    requires { (place : ℕ) → place < length counts.old → slice_index counts.old place + 1 < 2 ^ 32 }
    ensures { counts.new ≡ counted counts.old section }
{
    let Some(section) = section else { return };
    if (section as usize) < counts.len() {
        counts[section as usize] += 1;
    }
}

// The section of the symbol at an index, if there is one that names addresses and has a size.
fn sized_section<E: Entry + Record>(symbols: &AddressSymbols<'_, E>, index: usize) -> Option<u32>
    ensures { result ≡ sized_section E.fields symbols.now index }
{
    let symbol = symbols.table.get(index)?;
    section_if(symbols, &symbol, index)
}

// The section of a symbol, if it names addresses and has a size.
fn section_if<E: Entry + Record>(
    symbols: &AddressSymbols<'_, E>,
    symbol: &E,
    index: usize,
) -> Option<u32>
    ensures { result ≡ section_if E.fields symbols.now index symbol.now }
{
    if symbols.is_candidate(symbol, index, None) && symbol.size() != 0 {
        Some(symbols.section_index(symbol, index))
    } else {
        None
    }
}
