//! What an index is asked.

ghost use Rattle.std.specs.Prelude.{◌≡◌, ◌≤◌, ◌<◌, ◌+◌, ℕ, Bool, true, false, max, length, nat_le, slice_get, slice_index, IfSome, Some};
ghost use Rattle.elf_addresses.specs.Claims.{Among, Covers, IsForemost, begins_nearer};
ghost use Rattle.elf_addresses.specs.Claims.{comes_before};
ghost use Rattle.elf_addresses.specs.Index.{AreLasting, AreRanges, IsKind, IsKnownIn, IsWorstFirst, IsFoundAt};
ghost use Rattle.elf_addresses.specs.declared.claim.Claim.{Claim};

use crate::claim::Claim;
use crate::claims::{Claims, begun};
use crate::index::near::reach_place;

// How many words from the first on have ranges that begin at an address or below it, if the ranges
// are in the order of their first addresses.
pub(crate) fn count_begun<C: Claims>(claims: &C, words: &[u32], address: u64) -> usize
    ensures bound { result ≤ length words.now }
    ensures begun { (is_open : Bool) → IsWorstFirst (C.claim_of claims.now) is_open words.now
        → (k : ℕ) → k < result → (C.range_of claims.now (slice_index words.now k)).0 ≤ address }
    ensures rest { (is_open : Bool) → IsWorstFirst (C.claim_of claims.now) is_open words.now
        → (k : ℕ) → result ≤ k → k < length words.now
        → address < (C.range_of claims.now (slice_index words.now k)).0 }
{
    words.partition_point(|word| begins_by(claims, *word, address))
}

// Whether the range at an index begins at an address or below it.
#[inline(always)]
fn begins_by<C: Claims>(claims: &C, index: u32, address: u64) -> bool
    ensures { result ≡ nat_le (C.range_of claims.now index).0 address }
{
    claims.range(index as usize).0 <= address
}

// The claim of the last word with a range that begins at an address or below it.
pub(crate) fn last_begun<C: Claims>(claims: &C, words: &[u32], address: u64) -> Option<Claim>
    ensures begins { IfSome result
        (Among (C.claim_of claims.now) (λ claim. claim.begin ≤ address)) }
    ensures listed { IfSome result (IsKnownIn (C.known_of claims.now) words.now) }
    ensures nearest { (is_open : Bool) → IsWorstFirst (C.claim_of claims.now) is_open words.now
        → IsForemost begins_nearer (C.claim_of claims.now)
        (λ claim. IsKind is_open claim × (claim.begin ≤ address)) result }
{
    let count = count_begun(claims, words, address);
    if count == 0 {
        return None;
    }
    begun(claims, words[count - 1] as usize, address)
}

// The last of the open claims that cover an address.
pub(crate) fn over<C: Claims>(claims: &C, starts: &[u32], address: u64) -> Option<Claim>
    ensures covers { IfSome result
        (Among (C.claim_of claims.now) (λ claim. Covers claim address)) }
    ensures listed { IfSome result (IsKnownIn (C.known_of claims.now) starts.now) }
    ensures foremost { IsWorstFirst (C.claim_of claims.now) true starts.now
        → IsForemost comes_before (C.claim_of claims.now)
        (λ claim. IsKind true claim × Covers claim address) result }
{
    let claim = last_begun(claims, starts, address)?;
    if claim.covers(address) {
        Some(claim)
    } else {
        None
    }
}

// The claim at the word at a place, if it covers an address. It is taken for a claim without a test.
#[inline(always)]
fn known_covering<C: Claims>(claims: &C, words: &[u32], place: usize, address: u64) -> Option<Claim>
    ensures covers { IfSome result (λ claim. Covers claim address) }
    ensures listed { IfSome result (IsKnownIn (C.known_of claims.now) words.now) }
    ensures known { (claim : Claim) → IsFoundAt (C.claim_of claims.now) words.now place claim
        → Covers claim address → result ≡ Some claim }
{
    match index_at(words, place) {
        Some(index) => if_covers(claims.known(index), address),
        None => None,
    }
}

// A claim, if it covers an address.
#[inline(always)]
fn if_covers(claim: Claim, address: u64) -> Option<Claim>
    ensures covers { IfSome result (λ found. Covers found address) }
    ensures same { IfSome result (λ found. found ≡ claim) }
    ensures found { Covers claim address → result ≡ Some claim }
{
    if claim.covers(address) {
        Some(claim)
    } else {
        None
    }
}

// The last of the sized claims that cover an address, and how many were looked at.
pub(crate) fn reach<C: Claims>(
    claims: &C,
    sized: &[u32],
    begins: &[u64],
    sizes: &[u64],
    lasting: &[u32],
    address: u64,
) -> (Option<Claim>, usize)
    ensures covers { IfSome result.0 (λ claim. Covers claim address) }
    ensures listed { IfSome result.0 (IsKnownIn (C.known_of claims.now) sized.now) }
    ensures foremost { IsWorstFirst (C.claim_of claims.now) false sized.now
        → AreRanges (C.range_of claims.now) sized.now begins.now sizes.now
        → AreLasting (C.range_of claims.now) sized.now lasting.now
        → IsForemost comes_before (C.claim_of claims.now)
        (λ claim. IsKind false claim × Covers claim address) result.0 }
    ensures few { result.1 ≤ length begins.now }
{
    let (place, steps) = reach_place(begins, sizes, lasting, address);
    match place {
        Some(place) => (known_covering(claims, sized, place, address), steps),
        None => (None, steps),
    }
}

// The word at a place, or 0 past the end.
#[inline(always)]
pub(crate) fn word_at(words: &[u32], place: usize) -> u32
    ensures { result ≡ slice_index words.now place }
{
    match words.get(place) {
        Some(word) => *word,
        None => 0,
    }
}

// The word at a place as an index, if there is one.
#[inline(always)]
pub(crate) fn index_at(words: &[u32], place: usize) -> Option<usize>
    ensures { result ≡ slice_get words.now place }
{
    match words.get(place) {
        Some(word) => Some(*word as usize),
        None => None,
    }
}
