//! An index of the symbols of a table, in words and numbers of the caller.

ghost use Rattle.std.specs.Prelude.{◌≡◌, ◌≤◌, ◌<◌, ◌+◌, ◌^◌, ◌↔◌, ◌==◌, false, true, length};
ghost use Rattle.std.specs.Prelude.{Err, IfSome, IsOk, IsTrue, MatchOption, OnErr, OnOk, Option, Some, drop, take, slice_get};
ghost use Rattle.elf_addresses.specs.Claims.{Covers, IsInnermost};
ghost use Rattle.elf_addresses.specs.Index.{IsBuilt, IsWellBuilt, listed, number_count, word_count};
ghost use Rattle.elf_addresses.specs.SymbolClaims.{claim_of_symbols, range_of_symbols, symbol_claim};
ghost use Rattle.elf_addresses.specs.SymbolClaims.{symbol_count, symbol_items};
ghost use Rattle.elf_addresses.specs.SymbolAt.{IsInSection, IsOpenSymbol, TellsAt, claim_at};
ghost use Rattle.elf_addresses.specs.declared.error.IndexError.TheVariants.{FewWords, ManySymbols};
ghost use Rattle.elf_addresses.specs.declared.find.At.{At};

use crate::claim::covers_range;
use crate::error::IndexError;
use crate::find::{At, if_in_section, told};
use crate::index::{
    ClaimIndex, IndexSize, build_index, build_sized, index_size, number_parts, word_parts,
};
use crate::symbols::{AddressSymbols, SymbolClaims};
use xmas_elf::bytes::Record;
use xmas_elf::symbol_table::Entry;

/// An index of the symbols of a table that name addresses, for questions that read at most a few of
/// them.
///
/// The words and the numbers belong to the caller, and may be any. If `check` returns true, as it does
/// for those of `build`, the results are those of the functions `symbol_at` and `open_below`. Otherwise
/// a result of `symbol_at` is a symbol that covers the address, or none.
#[derive(Drop)]
pub struct SymbolIndex<'s, 'a, 'w, E: Entry + Record> {
    /// The symbols, and the section that is asked for.
    pub claims: SymbolClaims<'s, 'a, E>,
    /// The indices of the symbols with a size: the one that is further in is later.
    pub sized: &'w [u32],
    /// The values of these symbols.
    pub begins: &'w [u64],
    /// The sizes of these symbols.
    pub sizes: &'w [u64],
    /// For each place `k - 1` of `sized`, the place of the symbol that ends last in the block of
    /// places that ends before `k` and begins at `k & (k - 1)`.
    pub lasting: &'w [u32],
    /// The indices of the symbols of size 0: the one that is further in is later.
    pub starts: &'w [u32],
}

impl<'s, 'a, 'w, E: Entry + Record> SymbolIndex<'s, 'a, 'w, E> {
    /// How many symbols the index has, from which follows how many words and numbers it takes: those
    /// with a size that name addresses, and those of size 0. One pass over the table.
    pub fn size(symbols: &AddressSymbols<'_, E>, within: Option<u32>) -> IndexSize
        ensures sized { result.sized ≡ length (listed (claim_of_symbols E.fields symbols.now within)
            false (symbol_count symbols.now)) }
        ensures open { result.open ≡ length (listed (claim_of_symbols E.fields symbols.now within)
            true (symbol_count symbols.now)) }
    {
        index_size(&SymbolClaims { symbols, within })
    }

    /// Builds the index in words and numbers: in the first of them, if there are more than it takes.
    ///
    /// Two passes over the table, and two sorts, as `build_index` sorts: of numbers, if the values are
    /// less than 2 to the 32 apart. It takes no memory. The errors are `ManySymbols`, then `FewWords`;
    /// after an error the words and the numbers are as they were, and those that it doesn't take
    /// always are.
    pub fn build(
        symbols: &AddressSymbols<'_, E>,
        within: Option<u32>,
        words: &mut [u32],
        numbers: &mut [u64],
    ) -> Result<(), IndexError>
        ensures many { 2 ^ 32 ≤ symbol_count symbols.now → result ≡ Err ManySymbols }
        ensures few { symbol_count symbols.now < 2 ^ 32
            → length words.old < word_count (claim_of_symbols E.fields symbols.now within)
            (symbol_count symbols.now)
            → result ≡ Err FewWords }
        ensures few_numbers { symbol_count symbols.now < 2 ^ 32
            → length numbers.old < number_count (claim_of_symbols E.fields symbols.now within)
            (symbol_count symbols.now)
            → result ≡ Err FewWords }
        ensures fits { symbol_count symbols.now < 2 ^ 32
            → word_count (claim_of_symbols E.fields symbols.now within) (symbol_count symbols.now)
            ≤ length words.old
            → number_count (claim_of_symbols E.fields symbols.now within)
            (symbol_count symbols.now) ≤ length numbers.old
            → IsOk result }
        ensures built { OnOk result (IsBuilt (claim_of_symbols E.fields symbols.now within)
            (range_of_symbols E.fields symbols.now) (symbol_count symbols.now) words.new
            numbers.new) }
        ensures unchanged { OnErr result ((words.new ≡ words.old) × (numbers.new ≡ numbers.old)) }
        ensures rest { let count = word_count
            (claim_of_symbols E.fields symbols.now within) (symbol_count symbols.now) in
            drop count words.new ≡ drop count words.old }
        ensures rest_numbers { let count = number_count
            (claim_of_symbols E.fields symbols.now within) (symbol_count symbols.now) in
            drop count numbers.new ≡ drop count numbers.old }
    {
        build_index(&SymbolClaims { symbols, within }, words, numbers)
    }

    /// What `build` does, with the size that `size` returns: one pass over the table, and the two sorts.
    pub fn build_sized(
        symbols: &AddressSymbols<'_, E>,
        within: Option<u32>,
        size: IndexSize,
        words: &mut [u32],
        numbers: &mut [u64],
    ) -> Result<(), IndexError>
        requires sized { size.sized ≡ length (listed (claim_of_symbols E.fields symbols.now within)
            false (symbol_count symbols.now)) }
        requires open { size.open ≡ length (listed (claim_of_symbols E.fields symbols.now within)
            true (symbol_count symbols.now)) }
        ensures many { 2 ^ 32 ≤ symbol_count symbols.now → result ≡ Err ManySymbols }
        ensures few { symbol_count symbols.now < 2 ^ 32
            → length words.old < size.sized + size.sized + size.open → result ≡ Err FewWords }
        ensures few_numbers { symbol_count symbols.now < 2 ^ 32
            → length numbers.old < size.sized + size.sized → result ≡ Err FewWords }
        ensures fits { symbol_count symbols.now < 2 ^ 32
            → size.sized + size.sized + size.open ≤ length words.old
            → size.sized + size.sized ≤ length numbers.old → IsOk result }
        ensures built { OnOk result (IsBuilt (claim_of_symbols E.fields symbols.now within)
            (range_of_symbols E.fields symbols.now) (symbol_count symbols.now) words.new
            numbers.new) }
        ensures unchanged { OnErr result ((words.new ≡ words.old) × (numbers.new ≡ numbers.old)) }
        ensures rest { let count = size.sized + size.sized + size.open in
            drop count words.new ≡ drop count words.old }
        ensures rest_numbers { let count = size.sized + size.sized in
            drop count numbers.new ≡ drop count numbers.old }
    {
        build_sized(&SymbolClaims { symbols, within }, size, words, numbers)
    }

    /// The index of a size in words and numbers: in the first of them, if there are more than it
    /// takes. It reads no symbol.
    pub fn lend(
        symbols: &'s AddressSymbols<'a, E>,
        within: Option<u32>,
        size: IndexSize,
        words: &'w [u32],
        numbers: &'w [u64],
    ) -> SymbolIndex<'s, 'a, 'w, E>
        ensures symbols { result.claims.symbols.now ≡ symbols.now }
        ensures within { result.claims.within ≡ within }
        ensures sized { result.sized.now ≡ take size.sized words.now }
        ensures begins { result.begins.now ≡ take size.sized numbers.now }
        ensures sizes { result.sizes.now ≡ take size.sized (drop size.sized numbers.now) }
        ensures lasting { result.lasting.now ≡ take size.sized (drop size.sized words.now) }
        ensures starts { result.starts.now
            ≡ take size.open (drop size.sized (drop size.sized words.now)) }
    {
        let claims = SymbolClaims { symbols, within };
        let (sized, lasting, starts) = word_parts(size, words);
        let (begins, sizes) = number_parts(size, numbers);
        SymbolIndex {
            claims,
            sized,
            begins,
            sizes,
            lasting,
            starts,
        }
    }

    /// Whether the index is well built, in time linear in the size of the table.
    pub fn check(&self) -> bool
        ensures { let claims = self.now.claims in
            IsTrue result ↔ IsWellBuilt (claim_of_symbols E.fields claims.symbols.now claims.within)
            (range_of_symbols E.fields claims.symbols.now) self.now.sized.now
            self.now.begins.now self.now.sizes.now self.now.lasting.now self.now.starts.now }
    {
        self.index().check()
    }

    /// The result of the function `symbol_at`, if the index is well built. With other words or numbers
    /// a symbol that covers the address, or none.
    pub fn symbol_at(&self, address: u64) -> Option<At<E>>
        ensures covers { IfSome (claim_at E.fields result) (λ claim. Covers claim address) }
        ensures innermost { let claims = self.now.claims in
            let claim_of = claim_of_symbols E.fields claims.symbols.now claims.within in
            IsWellBuilt claim_of (range_of_symbols E.fields claims.symbols.now)
            self.now.sized.now self.now.begins.now self.now.sizes.now self.now.lasting.now
            self.now.starts.now
            → IsInnermost claim_of address (claim_at E.fields result) }
        ensures tells { IfSome result (TellsAt E.fields self.now.claims.symbols.now address) }
    {
        self.symbol_at_counted(address).0
    }

    /// The result of `symbol_at`, and how many of the ranges it looked at after a binary search: at
    /// most all of them, whatever the words and the numbers are.
    pub fn symbol_at_counted(&self, address: u64) -> (Option<At<E>>, usize)
        ensures covers { IfSome (claim_at E.fields result.0) (λ claim. Covers claim address) }
        ensures innermost { let claims = self.now.claims in
            let claim_of = claim_of_symbols E.fields claims.symbols.now claims.within in
            IsWellBuilt claim_of (range_of_symbols E.fields claims.symbols.now)
            self.now.sized.now self.now.begins.now self.now.sizes.now self.now.lasting.now
            self.now.starts.now
            → IsInnermost claim_of address (claim_at E.fields result.0) }
        ensures tells { IfSome result.0 (TellsAt E.fields self.now.claims.symbols.now address) }
        ensures few { result.1 ≤ length self.now.begins.now }
    {
        let (found, steps) = self.index().innermost_counted(address);
        match found {
            Some(claim) => (
                covering_symbol(self.claims.symbols, claim.index, address),
                steps,
            ),
            None => (None, steps),
        }
    }

    /// The result of the function `open_below`, if the index is well built. With other words a
    /// symbol of size 0 in the section that names addresses and whose value is not above the
    /// address, or none.
    pub fn open_below(&self, address: u64, section: u32) -> Option<At<E>>
        ensures found { IfSome result (IsInSection E.fields self.now.claims.symbols.now
            self.now.claims.within address section) }
        ensures open_below { let claims = self.now.claims in
            IsWellBuilt (claim_of_symbols E.fields claims.symbols.now claims.within)
            (range_of_symbols E.fields claims.symbols.now) self.now.sized.now
            self.now.begins.now self.now.sizes.now self.now.lasting.now self.now.starts.now
            → MatchOption result
            ((at : At E) → IsOpenSymbol E.fields claims.symbols.now claims.within address section
            at → ⊥)
            (IsOpenSymbol E.fields claims.symbols.now claims.within address section) }
    {
        match self.index().open_below(address) {
            Some(claim) => if_in_section(
                self.claims.symbols,
                told(&self.claims, &claim, address),
                section,
            ),
            None => None,
        }
    }

    // The index of the claims of the symbols.
    #[inline(always)]
    fn index(&self) -> ClaimIndex<'_, 'w, SymbolClaims<'s, 'a, E>>
        ensures claims { result.claims.now ≡ self.now.claims }
        ensures sized { result.sized.now ≡ self.now.sized.now }
        ensures begins { result.begins.now ≡ self.now.begins.now }
        ensures sizes { result.sizes.now ≡ self.now.sizes.now }
        ensures lasting { result.lasting.now ≡ self.now.lasting.now }
        ensures starts { result.starts.now ≡ self.now.starts.now }
    {
        ClaimIndex {
            claims: &self.claims,
            sized: self.sized,
            begins: self.begins,
            sizes: self.sizes,
            lasting: self.lasting,
            starts: self.starts,
        }
    }
}

// The symbol at an index, if it covers an address.
#[inline(always)]
fn covering_symbol<E: Entry + Record>(
    symbols: &AddressSymbols<'_, E>,
    index: usize,
    address: u64,
) -> Option<At<E>>
    ensures covers { IfSome (claim_at E.fields result) (λ claim. Covers claim address) }
    ensures tells { IfSome result (TellsAt E.fields symbols.now address) }
    ensures known { (symbol : E) → slice_get (symbol_items symbols.now) index ≡ Some symbol
        → Covers (symbol_claim index (E.fields symbol)) address
        → claim_at E.fields result ≡ Some (symbol_claim index (E.fields symbol)) }
{
    match symbols.table.get(index) {
        Some(symbol) => if covers_range(symbol.value(), symbol.size(), address) {
            Some(at_of(symbol, index, address))
        } else {
            None
        },
        None => None,
    }
}

// A symbol, and the place of an address that is not below its value.
#[inline(always)]
fn at_of<E: Entry>(symbol: E, index: usize, address: u64) -> At<E>
    requires { (E.fields symbol).value ≤ address }
    ensures symbol { result.symbol ≡ symbol }
    ensures index { result.index ≡ index }
    ensures offset { (E.fields symbol).value + result.offset ≡ address }
    ensures is_open { result.open ≡ ((E.fields symbol).size == 0) }
{
    let offset = address - symbol.value();
    let open = symbol.size() == 0;
    At {
        index,
        symbol,
        offset,
        open,
    }
}
