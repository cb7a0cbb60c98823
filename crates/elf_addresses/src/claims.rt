//! Claims of a table, and the innermost of those that cover an address.

ghost use Rattle.std.specs.Prelude.{◌≡◌, ◌<◌, ◌≤◌, ℕ, IfSome, MatchOption, Option, Some};
ghost use Rattle.elf_addresses.specs.Claims.{Covers, FindsOpenBelow, IsClaimAt, IsInnermost};
ghost use Rattle.elf_addresses.specs.Claims.{IsNearest, NoneAt};
ghost use Rattle.elf_addresses.specs.declared.claim.Claim.{Claim};

use crate::claim::{Claim, covers_range, further_in, nearer};

/// Claims by index, such as those of the symbols of a table.
pub trait Claims {
    /// The number of indices.
    ghost count: { Self → ℕ };

    /// The claim at an index, if there is one.
    ghost claim_of: { Self → ℕ → Option Claim };

    /// The claim that `known` returns at an index.
    ghost known_of: { Self → ℕ → Claim };

    /// It is the claim at the index, if there is one.
    ghost knows: { (claims : Self) (i : ℕ) (claim : Claim)
        → claim_of claims i ≡ Some claim → known_of claims i ≡ claim };

    /// An index with a claim is below the number of indices.
    ghost within: { (claims : Self) (i : ℕ) (claim : Claim)
        → claim_of claims i ≡ Some claim → i < count claims };

    /// The first address and the size at an index: those of the claim, if there is one.
    ghost range_of: { Self → ℕ → ℕ × ℕ };

    /// A claim has the index that it is found at.
    ghost own: { (claims : Self) (i : ℕ) (claim : Claim)
        → claim_of claims i ≡ Some claim → claim.index ≡ i };

    /// The range of a claim is that at its index.
    ghost ranged: { (claims : Self) (i : ℕ) (claim : Claim)
        → claim_of claims i ≡ Some claim → range_of claims i ≡ (claim.begin, claim.size) };

    /// The number of indices.
    fn count(&self) -> usize
        ensures { result ≡ count self.now };

    /// The claim at an index, if there is one.
    fn claim(&self, index: usize) -> Option<Claim>
        ensures claim { result ≡ claim_of self.now index }
        ensures own { IfSome result (λ claim. claim.index ≡ index) };

    /// The claim at an index, if there is one, and otherwise any. This may be faster than `claim`,
    /// since nothing is tested.
    fn known(&self, index: usize) -> Claim
        ensures { result ≡ known_of self.now index };

    /// The first address and the size at an index: those of the claim, if there is one, and
    /// otherwise any numbers. This may be faster than `claim`.
    fn range(&self, index: usize) -> (u64, u64)
        ensures { result ≡ range_of self.now index };
}

// The claim at an index, if it covers an address. The range is read first, since it may be faster.
#[inline(always)]
pub(crate) fn covering<C: Claims>(claims: &C, index: usize, address: u64) -> Option<Claim>
    ensures { MatchOption result
        (NoneAt (C.claim_of claims.now) (λ claim. Covers claim address) index)
        (λ claim. IsClaimAt (C.claim_of claims.now) index claim × Covers claim address
        × (claim.index ≡ index)) }
{
    let (begin, size) = claims.range(index);
    if !covers_range(begin, size, address) {
        return None;
    }
    let claim = claims.claim(index)?;
    if claim.covers(address) {
        Some(claim)
    } else {
        None
    }
}

/// The innermost claim that covers an address, by a pass over all claims.
pub fn innermost<C: Claims>(claims: &C, address: u64) -> Option<Claim>
    ensures { IsInnermost (C.claim_of claims.now) address result }
{
    let mut best = None;
    for index in 0..claims.count() {
        best = further_in(best, covering(claims, index, address));
    }
    best
}

// The claim at an index, if it begins at an address or below it.
#[inline(always)]
pub(crate) fn begun<C: Claims>(claims: &C, index: usize, address: u64) -> Option<Claim>
    ensures { MatchOption result
        (NoneAt (C.claim_of claims.now) (λ claim. claim.begin ≤ address) index)
        (λ claim. IsClaimAt (C.claim_of claims.now) index claim × (claim.begin ≤ address)
        × (claim.index ≡ index)) }
{
    let claim = claims.claim(index)?;
    if claim.begin <= address {
        Some(claim)
    } else {
        None
    }
}

/// The claim that begins last at an address or below it, by a pass over all claims.
pub fn nearest<C: Claims>(claims: &C, address: u64) -> Option<Claim>
    ensures { IsNearest (C.claim_of claims.now) address result }
{
    let mut best = None;
    for index in 0..claims.count() {
        best = nearer(best, begun(claims, index, address));
    }
    best
}

/// The open claim below an address that no claim covers: the claim that begins last at the address
/// or below it, if it is open.
pub fn open_below<C: Claims>(claims: &C, address: u64) -> Option<Claim>
    ensures { FindsOpenBelow (C.claim_of claims.now) address result }
{
    if innermost(claims, address).is_some() {
        return None;
    }
    let claim = nearest(claims, address)?;
    if claim.size == 0 { Some(claim) } else { None }
}
