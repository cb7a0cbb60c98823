//! An index of the claims of a table, in words and numbers of the caller.

ghost use Rattle.std.specs.Prelude.{◌≡◌, ◌≤◌, ◌↔◌, false, ◌⊎◌, length, take, drop, IfSome, IsTrue, MatchOption, Some};
ghost use Rattle.elf_addresses.specs.Claims.{Among, Covers, FindsOpenBelow, IsForemost, IsInnermost, comes_before};
ghost use Rattle.elf_addresses.specs.Index.{IsKind, IsKnownIn, IsWellBuilt, SpansOver};
ghost use Rattle.elf_addresses.specs.declared.claim.Claim.{Claim};

mod ask;
mod build;
mod keys;
mod lasting;
mod near;
mod order;
mod ranges;
mod search;

use crate::claim::{Claim, nearer};
use crate::claims::Claims;
use crate::index::ask::{index_at, last_begun, over};
pub(crate) use crate::index::ask::{count_begun, reach};
pub(crate) use crate::index::build::{number_parts, word_parts};
pub use crate::index::build::{IndexSize, build_index, build_sized, index_size};
use crate::index::lasting::are_lasting;
pub(crate) use crate::index::lasting::fill_lasting;
use crate::index::near::reach_place;
pub(crate) use crate::index::order::is_in_order_at;
use crate::index::order::is_worst_first;
use crate::index::ranges::are_ranges;
pub(crate) use crate::index::ranges::fill_ranges;

/// An index of the claims of a table, for questions that read few of them.
#[derive(Drop)]
pub struct ClaimIndex<'c, 'w, C: Claims> {
    /// The claims.
    pub claims: &'c C,
    /// The indices of the sized claims: the one that is further in is later.
    pub sized: &'w [u32],
    /// The first addresses at these indices.
    pub begins: &'w [u64],
    /// The sizes at these indices.
    pub sizes: &'w [u64],
    /// For each place `k - 1` of `sized`, a place of the block of places that ends before `k`,
    /// whose range no range in the block outlasts. The block begins at `k & (k - 1)`.
    pub lasting: &'w [u32],
    /// The indices of the open claims: the one that is further in is later.
    pub starts: &'w [u32],
}

impl<'c, 'w, C: Claims> ClaimIndex<'c, 'w, C> {
    /// The index of a size in words and numbers: in the first of them, if there are more than it
    /// takes. They may be any, and so may the size; `check` returns whether they are those of
    /// `build_index`, or as good.
    pub fn lend(
        claims: &'c C,
        size: IndexSize,
        words: &'w [u32],
        numbers: &'w [u64],
    ) -> ClaimIndex<'c, 'w, C>
        ensures claims { result.claims.now ≡ claims.now }
        ensures sized { result.sized.now ≡ take size.sized words.now }
        ensures begins { result.begins.now ≡ take size.sized numbers.now }
        ensures sizes { result.sizes.now ≡ take size.sized (drop size.sized numbers.now) }
        ensures lasting { result.lasting.now ≡ take size.sized (drop size.sized words.now) }
        ensures starts { result.starts.now
            ≡ take size.open (drop size.sized (drop size.sized words.now)) }
    {
        let (sized, lasting, starts) = word_parts(size, words);
        let (begins, sizes) = number_parts(size, numbers);
        ClaimIndex {
            claims,
            sized,
            begins,
            sizes,
            lasting,
            starts,
        }
    }

    /// Whether the index is well built: the sized claims and the open ones are there in order, and
    /// `lasting` has for each block a place whose range no range in the block outlasts. The time is
    /// linear in the number of claims.
    pub fn check(&self) -> bool
        ensures { IsTrue result ↔ IsWellBuilt (C.claim_of self.now.claims.now)
            (C.range_of self.now.claims.now) self.now.sized.now self.now.begins.now
            self.now.sizes.now self.now.lasting.now
            self.now.starts.now }
    {
        if !is_worst_first(self.claims, self.sized, false) {
            return false;
        }
        if !is_worst_first(self.claims, self.starts, true) {
            return false;
        }
        if !are_ranges(self.claims, self.sized, self.begins, self.sizes) {
            return false;
        }
        are_lasting(self.begins, self.sizes, self.lasting)
    }

    /// The innermost claim that covers an address, if the index is well built. Otherwise a claim that
    /// `known` returns at a word of `sized` or `starts`, and that covers the address, or none.
    pub fn innermost(&self, address: u64) -> Option<Claim>
        ensures covers { IfSome result (λ claim. Covers claim address) }
        ensures listed { IfSome result (λ claim.
            IsKnownIn (C.known_of self.now.claims.now) self.now.sized.now claim
            ⊎ IsKnownIn (C.known_of self.now.claims.now) self.now.starts.now claim) }
        ensures innermost { IsWellBuilt (C.claim_of self.now.claims.now)
            (C.range_of self.now.claims.now) self.now.sized.now self.now.begins.now
            self.now.sizes.now self.now.lasting.now
            self.now.starts.now
            → IsInnermost (C.claim_of self.now.claims.now) address result }
    {
        self.innermost_counted(address).0
    }

    /// The index of the innermost of the sized claims that cover an address, if the index is well
    /// built, without a look at the claims. Otherwise an index in `sized` at whose place the range in
    /// `begins` and `sizes` covers the address, or none.
    pub fn innermost_index(&self, address: u64) -> Option<usize>
        ensures listed { IfSome result (SpansOver self.now.sized.now self.now.begins.now
            self.now.sizes.now address) }
        ensures innermost { IsWellBuilt (C.claim_of self.now.claims.now)
            (C.range_of self.now.claims.now) self.now.sized.now self.now.begins.now
            self.now.sizes.now self.now.lasting.now self.now.starts.now
            → MatchOption result
            ((claim : Claim) → Among (C.claim_of self.now.claims.now)
            (λ other. IsKind false other × Covers other address) claim → ⊥)
            (λ index. (claim : Claim) × (C.claim_of self.now.claims.now index ≡ Some claim)
            × IsForemost comes_before (C.claim_of self.now.claims.now)
            (λ other. IsKind false other × Covers other address) (Some claim)) }
    {
        let (place, _steps) = reach_place(self.begins, self.sizes, self.lasting, address);
        match place {
            Some(place) => index_at(self.sized, place),
            None => None,
        }
    }

    /// The result of `innermost`, and how many claims of `sized` were looked at after a binary
    /// search: at most all of them, whatever the words are.
    pub fn innermost_counted(&self, address: u64) -> (Option<Claim>, usize)
        ensures covers { IfSome result.0 (λ claim. Covers claim address) }
        ensures listed { IfSome result.0 (λ claim.
            IsKnownIn (C.known_of self.now.claims.now) self.now.sized.now claim
            ⊎ IsKnownIn (C.known_of self.now.claims.now) self.now.starts.now claim) }
        ensures innermost { IsWellBuilt (C.claim_of self.now.claims.now)
            (C.range_of self.now.claims.now) self.now.sized.now self.now.begins.now
            self.now.sizes.now self.now.lasting.now
            self.now.starts.now
            → IsInnermost (C.claim_of self.now.claims.now) address result.0 }
        ensures few { result.1 ≤ length self.now.begins.now }
    {
        let (found, steps) = reach(
            self.claims,
            self.sized,
            self.begins,
            self.sizes,
            self.lasting,
            address,
        );
        if found.is_some() {
            return (found, steps);
        }
        (over(self.claims, self.starts, address), steps)
    }

    /// The open claim below an address that no claim covers, if the index is well built: the claim
    /// that begins last at the address or below it, if it is open. With other words an open claim
    /// that begins at the address or below it, or none.
    pub fn open_below(&self, address: u64) -> Option<Claim>
        ensures begins { IfSome result (Among (C.claim_of self.now.claims.now)
            (λ claim. (claim.size ≡ 0) × (claim.begin ≤ address))) }
        ensures open_below { IsWellBuilt (C.claim_of self.now.claims.now)
            (C.range_of self.now.claims.now) self.now.sized.now self.now.begins.now
            self.now.sizes.now self.now.lasting.now
            self.now.starts.now
            → FindsOpenBelow (C.claim_of self.now.claims.now) address result }
    {
        if self.innermost(address).is_some() {
            return None;
        }
        let sized = last_begun(self.claims, self.sized, address);
        let claim = nearer(sized, last_begun(self.claims, self.starts, address))?;
        if claim.size == 0 { Some(claim) } else { None }
    }
}
