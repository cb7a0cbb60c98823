//! Building an index in words and numbers, and finding its parts there.

ghost use Rattle.std.specs.Prelude.{◌≡◌, ◌≤◌, ◌<◌, ◌+◌, ◌-◌, ◌^◌, ℕ, false, true, min, length, take, drop};
ghost use Rattle.std.specs.Prelude.{Err, IsOk, Ok, OnErr, OnOk};
ghost use Rattle.elf_addresses.specs.Index.{IsBuilt, listed, number_count, word_count};
ghost use Rattle.elf_addresses.specs.declared.error.IndexError.TheVariants.{FewWords, ManySymbols};

use crate::claims::Claims;
use crate::error::IndexError;
use crate::index::lasting::fill_lasting;
use crate::index::order::{count_kinds, fill_orders};
use crate::index::ranges::fill_ranges;

/// How many claims an index has, from which follows how many words and numbers it takes.
#[derive(Clone, Copy, Debug, PartialEq, Eq)]
pub struct IndexSize {
    /// The number of sized claims.
    pub sized: usize,
    /// The number of open claims.
    pub open: usize,
}

impl IndexSize {
    /// The number of words: two for each sized claim, and one for each open one. If it is 2 to the 64
    /// or more, one less than that.
    pub fn words(&self) -> usize
        ensures { result ≡ min (self.now.sized + self.now.sized + self.now.open) (2 ^ 64 - 1) }
    {
        self.numbers().saturating_add(self.open)
    }

    /// The number of numbers of 64 bits: two for each sized claim. If it is 2 to the 64 or more, one
    /// less than that.
    pub fn numbers(&self) -> usize
        ensures { result ≡ min (self.now.sized + self.now.sized) (2 ^ 64 - 1) }
    {
        self.sized.saturating_add(self.sized)
    }
}

/// How many claims an index has, by a pass over them.
pub fn index_size<C: Claims>(claims: &C) -> IndexSize
    ensures sized { result.sized
        ≡ length (listed (C.claim_of claims.now) false (C.count claims.now)) }
    ensures open { result.open
        ≡ length (listed (C.claim_of claims.now) true (C.count claims.now)) }
    ensures sized_bound { result.sized ≤ C.count claims.now }
    ensures open_bound { result.open ≤ C.count claims.now }
{
    let (sized, open) = count_kinds(claims);
    IndexSize { sized, open }
}

/// Builds an index in words and numbers: in the first of them, if there are more than it takes.
///
/// Two passes over the claims, and two sorts, of the sized claims and of the open ones. A sort is of
/// numbers, if the first addresses are less than 2 to the 32 apart and there are at most as many claims
/// as sized ones; otherwise it is of words, by their claims. It takes no memory. The errors are
/// `ManySymbols`, then `FewWords`; after an error the words and the numbers are as they were, and
/// those that it doesn't take always are.
pub fn build_index<C: Claims>(
    claims: &C,
    words: &mut [u32],
    numbers: &mut [u64],
) -> Result<(), IndexError>
    ensures many { 2 ^ 32 ≤ C.count claims.now → result ≡ Err ManySymbols }
    ensures few { C.count claims.now < 2 ^ 32
        → length words.old < word_count (C.claim_of claims.now) (C.count claims.now)
        → result ≡ Err FewWords }
    ensures few_numbers { C.count claims.now < 2 ^ 32
        → length numbers.old < number_count (C.claim_of claims.now) (C.count claims.now)
        → result ≡ Err FewWords }
    ensures fits { C.count claims.now < 2 ^ 32
        → word_count (C.claim_of claims.now) (C.count claims.now) ≤ length words.old
        → number_count (C.claim_of claims.now) (C.count claims.now) ≤ length numbers.old
        → IsOk result }
    ensures built { OnOk result (IsBuilt (C.claim_of claims.now) (C.range_of claims.now)
        (C.count claims.now) words.new numbers.new) }
    ensures unchanged { OnErr result ((words.new ≡ words.old) × (numbers.new ≡ numbers.old)) }
    ensures rest { let count = word_count (C.claim_of claims.now) (C.count claims.now) in
        drop count words.new ≡ drop count words.old }
    ensures rest_numbers { let count = number_count (C.claim_of claims.now) (C.count claims.now) in
        drop count numbers.new ≡ drop count numbers.old }
{
    build_sized(claims, index_size(claims), words, numbers)
}

/// What `build_index` does, with the size that `index_size` returns: one pass over the claims, and the
/// two sorts.
pub fn build_sized<C: Claims>(
    claims: &C,
    size: IndexSize,
    words: &mut [u32],
    numbers: &mut [u64],
) -> Result<(), IndexError>
    requires sized { size.sized ≡ length (listed (C.claim_of claims.now) false (C.count claims.now)) }
    requires open { size.open ≡ length (listed (C.claim_of claims.now) true (C.count claims.now)) }
    ensures many { 2 ^ 32 ≤ C.count claims.now → result ≡ Err ManySymbols }
    ensures few { C.count claims.now < 2 ^ 32
        → length words.old < size.sized + size.sized + size.open → result ≡ Err FewWords }
    ensures few_numbers { C.count claims.now < 2 ^ 32
        → length numbers.old < size.sized + size.sized → result ≡ Err FewWords }
    ensures fits { C.count claims.now < 2 ^ 32
        → size.sized + size.sized + size.open ≤ length words.old
        → size.sized + size.sized ≤ length numbers.old → IsOk result }
    ensures built { OnOk result (IsBuilt (C.claim_of claims.now) (C.range_of claims.now)
        (C.count claims.now) words.new numbers.new) }
    ensures unchanged { OnErr result ((words.new ≡ words.old) × (numbers.new ≡ numbers.old)) }
    ensures rest { let count = size.sized + size.sized + size.open in
        drop count words.new ≡ drop count words.old }
    ensures rest_numbers { let count = size.sized + size.sized in
        drop count numbers.new ≡ drop count numbers.old }
{
    if claims.count() > u32::MAX as usize {
        return Err(IndexError::ManySymbols);
    }
    let (sized, open) = (size.sized, size.open);
    if words.len() < sized + sized + open || numbers.len() < sized + sized {
        return Err(IndexError::FewWords);
    }
    let (order, rest) = words.split_at_mut(sized);
    let (lasting, rest) = rest.split_at_mut(sized);
    let (starts, _rest) = rest.split_at_mut(open);
    let (begins, rest) = numbers.split_at_mut(sized);
    let (sizes, _rest) = rest.split_at_mut(sized);
    fill_orders(claims, order, starts, begins);
    fill_ranges(claims, order, begins, sizes);
    fill_lasting(begins, sizes, lasting);
    Ok(())
}

// The three parts of an index of a size in words.
pub(crate) fn word_parts(size: IndexSize, words: &[u32]) -> (&[u32], &[u32], &[u32])
    ensures sized { result.0.now ≡ take size.sized words.now }
    ensures lasting { result.1.now ≡ take size.sized (drop size.sized words.now) }
    ensures starts { result.2.now
        ≡ take size.open (drop size.sized (drop size.sized words.now)) }
{
    let (sized, rest) = split(words, size.sized);
    let (lasting, rest) = split(rest, size.sized);
    let (starts, _rest) = split(rest, size.open);
    (sized, lasting, starts)
}

// The two parts of the numbers of an index of a size.
pub(crate) fn number_parts(size: IndexSize, numbers: &[u64]) -> (&[u64], &[u64])
    ensures begins { result.0.now ≡ take size.sized numbers.now }
    ensures sizes { result.1.now ≡ take size.sized (drop size.sized numbers.now) }
{
    let (begins, rest) = split(numbers, size.sized);
    let (sizes, _rest) = split(rest, size.sized);
    (begins, sizes)
}

// The first items, and the rest; all items if there are no more.
#[inline(always)]
fn split<T>(items: &[T], count: usize) -> (&[T], &[T])
    ensures front { result.0.now ≡ take count items.now }
    ensures back { result.1.now ≡ drop count items.now }
{
    if count <= items.len() {
        items.split_at(count)
    } else {
        (items, &[])
    }
}
