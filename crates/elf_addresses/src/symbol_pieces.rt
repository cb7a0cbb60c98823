//! The pieces of a section: the longest runs of addresses in one symbol.

ghost use Rattle.std.specs.Prelude.{◌≡◌, ◌≤◌, ◌<◌, ◌+◌, ◌^◌, ◌↔◌, false, length, max};
ghost use Rattle.elf_addresses.specs.Held.{InBlocks, InOrder, InRanges};
ghost use Rattle.elf_addresses.specs.SymbolClaims.{claim_of_symbols, range_of_symbols};
ghost use Rattle.elf_addresses.specs.SymbolClaims.{symbol_count};

use crate::claim::Claim;
use crate::error::IndexError;
use crate::held::{parts_of, words_of};
use crate::index::{build_sized, index_size, reach};
use crate::next::{limit_of, next_claim};
use crate::section_counts::SectionCounts;
use crate::symbols::{AddressSymbols, SymbolClaims};
use xmas_elf::bytes::Record;
use xmas_elf::symbol_table::Entry;

/// A longest run of addresses in one symbol, or in none.
#[derive(Clone, Copy, Debug, PartialEq, Eq)]
pub struct SymbolPiece {
    /// The first address.
    pub begin: u64,
    /// The address after the last one; it is above `begin`.
    pub end: u64,
    /// The index of the symbol that each of the addresses is in: the one that `symbol_at` returns, if
    /// its size is not 0.
    pub symbol: Option<usize>,
}

/// An iterator over the pieces of a range of addresses, in their order.
///
/// A piece begins where the one before it ends, and the last ends at the end of the range. So every
/// address of the range is in exactly one piece.
#[derive(Drop)]
pub struct SymbolPieces<'s, 'a, 'w, E: Entry + Record> {
    pub(crate) claims: SymbolClaims<'s, 'a, E>,
    sized: &'w [u32],
    begins: &'w [u64],
    sizes: &'w [u64],
    lasting: &'w [u32],
    pub(crate) place: u64,
    pub(crate) end: u64,
    ghost left: { place ≤ end },
    ghost ordered: { InOrder (claim_of_symbols E.fields claims.symbols.now claims.within) false
        (symbol_count claims.symbols.now) sized.now },
    ghost ranges: { InRanges (range_of_symbols E.fields claims.symbols.now) sized.now begins.now
        sizes.now },
    ghost blocks: { InBlocks (range_of_symbols E.fields claims.symbols.now) sized.now lasting.now },
}

impl<'s, 'a, 'w, E: Entry + Record> SymbolPieces<'s, 'a, 'w, E> {
    ghost use Rattle.std.specs.Prelude.{Err, IfOk, IfSome, IsOk, IsSome, None, Some};
    ghost use Rattle.elf_addresses.specs.Owner.{ClaimBegins};
    ghost use Rattle.elf_addresses.specs.Runs.{IsNext};
    ghost use Rattle.elf_addresses.specs.Index.{number_count, word_count};
    ghost use Rattle.elf_addresses.specs.SymbolPieces.{IsSizedInnermost, IsSizedRun, piece_claims};
    ghost use Rattle.elf_addresses.specs.SymbolPieces.{symbol_limit, symbol_place};
    ghost use Rattle.elf_addresses.specs.declared.error.IndexError.TheVariants.{FewWords};
    ghost use Rattle.elf_addresses.specs.declared.error.IndexError.TheVariants.{ManySymbols};

    /// The pieces of the addresses from `begin` up to `end`; there are none if `end` is not above
    /// `begin`. For a section these are its address and the address after it, and `within` is its
    /// index. In an object file they are 0 and its size.
    ///
    /// It builds an index of the symbols in the words and the numbers, of which it takes as many as
    /// `SymbolIndex::size` returns. The errors are those of `SymbolIndex::build`: `ManySymbols`, then
    /// `FewWords`.
    pub fn new(
        symbols: &'s AddressSymbols<'a, E>,
        within: Option<u32>,
        begin: u64,
        end: u64,
        words: &'w mut [u32],
        numbers: &'w mut [u64],
    ) -> Result<SymbolPieces<'s, 'a, 'w, E>, IndexError>
        ensures many { 2 ^ 32 ≤ symbol_count symbols.now → result ≡ Err ManySymbols }
        ensures few { symbol_count symbols.now < 2 ^ 32
            → length words.old < word_count (claim_of_symbols E.fields symbols.now within)
            (symbol_count symbols.now)
            → result ≡ Err FewWords }
        ensures few_numbers { symbol_count symbols.now < 2 ^ 32
            → length numbers.old < number_count (claim_of_symbols E.fields symbols.now within)
            (symbol_count symbols.now)
            → result ≡ Err FewWords }
        ensures fits { symbol_count symbols.now < 2 ^ 32
            → word_count (claim_of_symbols E.fields symbols.now within) (symbol_count symbols.now)
            ≤ length words.old
            → number_count (claim_of_symbols E.fields symbols.now within)
            (symbol_count symbols.now) ≤ length numbers.old
            → IsOk result }
        ensures claims { IfOk result (λ pieces. piece_claims E.fields pieces
            ≡ claim_of_symbols E.fields symbols.now within) }
        ensures first { IfOk result (λ pieces. symbol_place pieces ≡ begin) }
        ensures last { IfOk result (λ pieces. symbol_limit pieces ≡ max begin end) }
    {
        let claims = SymbolClaims { symbols, within };
        let size = index_size(&claims);
        build_sized(&claims, size, &mut *words, &mut *numbers)?;
        let parts = words_of(&claims, size, words, numbers);
        Ok(SymbolPieces {
            claims,
            sized: parts.sized,
            begins: parts.begins,
            sizes: parts.sizes,
            lasting: parts.lasting,
            place: begin,
            end: begin.max(end),
        })
    }

    /// The same pieces of a section, by the indices of its symbols that name addresses and have a size,
    /// in order: as `SymbolIndex` has them, the symbol that is further in is later. It reads these
    /// symbols alone, so it is for files with many sections.
    ///
    /// It returns `None` if the words are not these indices, if there are not as many words in
    /// `lasting` and twice as many in `numbers`, in which it builds the index, or if the section has no
    /// count.
    pub fn in_order(
        counts: &SectionCounts<'s, 'a, '_, E>,
        section: u32,
        begin: u64,
        end: u64,
        sized: &'w [u32],
        lasting: &'w mut [u32],
        numbers: &'w mut [u64],
    ) -> Option<SymbolPieces<'s, 'a, 'w, E>>
        ensures exact { IsSome result ↔ ((length lasting.old ≡ length sized.now)
            × (length numbers.old ≡ length sized.now + length sized.now)
            × (section < length counts.now.counts.now)
            × InOrder (claim_of_symbols E.fields counts.now.symbols.now (Some section)) false
            (symbol_count counts.now.symbols.now) sized.now) }
        ensures claims { IfSome result (λ pieces. piece_claims E.fields pieces
            ≡ claim_of_symbols E.fields counts.now.symbols.now (Some section)) }
        ensures first { IfSome result (λ pieces. symbol_place pieces ≡ begin) }
        ensures last { IfSome result (λ pieces. symbol_limit pieces ≡ max begin end) }
    {
        if lasting.len() != sized.len() || numbers.len() != sized.len() + sized.len() {
            return None;
        }
        if !counts.are_all(section, sized) {
            return None;
        }
        let claims = SymbolClaims {
            symbols: counts.symbols,
            within: Some(section),
        };
        let (begins, sizes) = numbers.split_at_mut(sized.len());
        let (begins, sizes, lasting) = parts_of(&claims, sized, lasting, begins, sizes);
        Some(SymbolPieces {
            claims,
            sized,
            begins,
            sizes,
            lasting,
            place: begin,
            end: begin.max(end),
        })
    }

    // The symbol at the place, and the end of its run.
    fn run(&self) -> (Option<usize>, u64)
        requires { symbol_place self.now < symbol_limit self.now }
        ensures { IsSizedRun (piece_claims E.fields self.now) (symbol_limit self.now)
            (symbol_place self.now) result.1 result.0 }
    {
        match self.innermost() {
            Some(claim) => self.owned_run(&claim),
            None => self.free_run(),
        }
    }

    // The same for a place in a symbol.
    #[inline(always)]
    fn owned_run(&self, claim: &Claim) -> (Option<usize>, u64)
        requires left { symbol_place self.now < symbol_limit self.now }
        requires innermost { IsSizedInnermost (piece_claims E.fields self.now)
            (symbol_place self.now) (Some claim.now) }
        ensures { IsSizedRun (piece_claims E.fields self.now) (symbol_limit self.now)
            (symbol_place self.now) result.1 result.0 }
    {
        let end = self.next_begin(limit_of(claim, self.end));
        (Some(claim.index), end)
    }

    // The same for a place in no symbol.
    #[inline(always)]
    fn free_run(&self) -> (Option<usize>, u64)
        requires left { symbol_place self.now < symbol_limit self.now }
        requires free { IsSizedInnermost (piece_claims E.fields self.now) (symbol_place self.now)
            None }
        ensures { IsSizedRun (piece_claims E.fields self.now) (symbol_limit self.now)
            (symbol_place self.now) result.1 result.0 }
    {
        (None, self.next_begin(self.end))
    }

    // The innermost symbol with a size that covers the place.
    #[inline(always)]
    fn innermost(&self) -> Option<Claim>
        ensures { IsSizedInnermost (piece_claims E.fields self.now) (symbol_place self.now) result }
    {
        reach(
            &self.claims,
            self.sized,
            self.begins,
            self.sizes,
            self.lasting,
            self.place,
        )
        .0
    }

    // The next begin of a symbol with a size after the place, or the limit.
    #[inline(always)]
    fn next_begin(&self, limit: u64) -> u64
        ensures { IsNext (ClaimBegins (piece_claims E.fields self.now)) (symbol_place self.now)
            limit result }
    {
        next_claim(&self.claims, self.sized, self.place, limit)
    }
}

impl<E: Entry + Record> Iterator for SymbolPieces<'_, '_, '_, E> {
    ghost use Rattle.elf_addresses.specs.SymbolPieces.{SymbolStep, symbol_pieces_left};

    type Item = SymbolPiece;

    ghost next_gives = { SymbolStep E.fields };

    ghost remaining = { symbol_pieces_left };

    fn next(&mut self) -> Option<SymbolPiece> {
        let begin = self.place;
        if begin >= self.end {
            return None;
        }
        let (symbol, end) = self.run();
        self.place = end;
        Some(SymbolPiece { begin, end, symbol })
    }
}
