//! The last range that covers an address, by the ranges that an index holds.

ghost use Rattle.std.specs.Prelude.{◌≡◌, ◌≤◌, ◌<◌, ◌+◌, ◌↔◌, ℕ, List, max, length, slice_index, IfSome, IsTrue, MatchOption};
ghost use Rattle.elf_addresses.specs.Index.{AreLasting, AreRanges, IsRising, NoneCovers, number_end};

use crate::claim::covers_range;
use crate::index::ask::word_at;
use crate::index::search::count_up_to;

// The number at a place, or 0 past the end.
#[inline(always)]
fn number_at(numbers: &[u64], place: usize) -> u64
    ensures { result ≡ slice_index numbers.now place }
{
    match numbers.get(place) {
        Some(number) => *number,
        None => 0,
    }
}

// The first address after the range at a place.
#[inline(always)]
pub(crate) fn end_at(begins: &[u64], sizes: &[u64], place: usize) -> u128
    ensures { result ≡ number_end begins.now sizes.now place }
{
    u128::from(number_at(begins, place)) + u128::from(number_at(sizes, place).max(1))
}

// Whether the range at a place ends behind an address.
#[inline(always)]
pub(crate) fn ends_behind(begins: &[u64], sizes: &[u64], place: usize, address: u64) -> bool
    ensures { IsTrue result ↔ (address < slice_index begins.now place
        + max (slice_index sizes.now place) 1) }
{
    u128::from(address) < end_at(begins, sizes, place)
}

// The number of places up to which to go on, after that of the range at `last`: at the ranges
// between, none ends behind the address.
#[inline(always)]
fn step_back(begins: &[u64], sizes: &[u64], lasting: &[u32], last: usize, address: u64) -> usize
    requires { last < length begins.now }
    ensures bound { result ≤ last }
    ensures passed { (range_of : ℕ → ℕ × ℕ) (words : List ℕ)
        → AreRanges range_of words begins.now sizes.now
        → AreLasting range_of words lasting.now
        → (j : ℕ) → result ≤ j → j < last
        → slice_index begins.now j + max (slice_index sizes.now j) 1 ≤ address }
{
    if ends_behind(begins, sizes, word_at(lasting, last) as usize, address) {
        return last;
    }
    (last + 1) & last
}

// The place of the last range that covers an address, and how many ranges were looked at.
pub(crate) fn reach_place(
    begins: &[u64],
    sizes: &[u64],
    lasting: &[u32],
    address: u64,
) -> (Option<usize>, usize)
    ensures covers { IfSome result.0 (λ place. (place < length begins.now)
        × (slice_index begins.now place ≤ address)
        × (address < slice_index begins.now place + max (slice_index sizes.now place) 1)) }
    ensures last { (range_of : ℕ → ℕ × ℕ) (words : List ℕ)
        → AreRanges range_of words begins.now sizes.now
        → AreLasting range_of words lasting.now → IsRising begins.now
        → MatchOption result.0 (NoneCovers begins.now sizes.now 0 address)
        (λ place. NoneCovers begins.now sizes.now (place + 1) address) }
    ensures few { result.1 ≤ length begins.now }
{
    let mut count = count_up_to(begins, address);
    let mut steps = 0;
    while count > 0 {
        steps += 1;
        let last = count - 1;
        if covers_range(begins[last], number_at(sizes, last), address) {
            return (Some(last), steps);
        }
        count = step_back(begins, sizes, lasting, last, address);
    }
    (None, steps)
}
