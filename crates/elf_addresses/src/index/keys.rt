//! Words in the order of their claims, by numbers of which each has a first address and an index.

ghost use Rattle.std.specs.Prelude.{◌≡◌, ◌≤◌, ◌<◌, ◌+◌, ◌-◌, ◌^◌, ◌/◌, ◌⊎◌, ℕ, All, length, map, slice_index};
ghost use Rattle.std.specs.List.Sorted.{IsPermutation, IsSortedBy, IsSortedWithin};
ghost use Rattle.elf_addresses.specs.Index.{IsRising, is_worse};
ghost use Rattle.elf_addresses.specs.Keys.{AreKeys, IsKey, key_index};

use crate::claims::Claims;
use crate::index::order::sort_words;

// One more than the greatest index, and than the greatest distance of a first address from the least.
const HALF: u64 = 0x1_0000_0000;

// The least and the greatest first address at the indices in words: the greatest number and 0 if
// there are no words.
fn span<C: Claims>(claims: &C, words: &[u32]) -> (u64, u64)
    ensures least { (place : ℕ) → place < length words.now
        → result.0 ≤ (C.range_of claims.now (slice_index words.now place)).0 }
    ensures greatest { (place : ℕ) → place < length words.now
        → (C.range_of claims.now (slice_index words.now place)).0 ≤ result.1 }
{
    let (mut least, mut greatest) = (u64::MAX, 0);
    for place in 0..words.len() {
        let begin = claims.range(words[place] as usize).0;
        least = least.min(begin);
        greatest = greatest.max(begin);
    }
    (least, greatest)
}

// The key of an index: the distance of its first address from the least one, and the index, from the
// greatest down. So of claims that differ in their indices alone, the one that is further in is later.
#[inline(always)]
fn key_at<C: Claims>(claims: &C, index: u32, least: u64) -> u64
    requires above { least ≤ (C.range_of claims.now index).0 }
    requires near { (C.range_of claims.now index).0 - least < 2 ^ 32 }
    ensures index { key_index result ≡ index }
    ensures key { IsKey (C.range_of claims.now) least result }
{
    (claims.range(index as usize).0 - least) * HALF + u64::from(u32::MAX - index)
}

// The index of a key.
#[inline(always)]
fn index_of(key: u64) -> u32
    ensures { result ≡ key_index key }
{
    u32::MAX - (key % HALF) as u32
}

// Writes the keys of words.
fn write_keys<C: Claims>(claims: &C, words: &[u32], least: u64, keys: &mut [u64])
    requires room { length keys.old ≡ length words.now }
    requires above { (place : ℕ) → place < length words.now
        → least ≤ (C.range_of claims.now (slice_index words.now place)).0 }
    requires near { (place : ℕ) → place < length words.now
        → (C.range_of claims.now (slice_index words.now place)).0 - least < 2 ^ 32 }
    ensures words { map key_index keys.new ≡ words.now }
    ensures keys { All (IsKey (C.range_of claims.now) least) keys.new }
{
    for place in 0..words.len() {
        keys[place] = key_at(claims, words[place], least);
    }
}

// Writes the indices of keys.
fn read_keys(keys: &[u64], words: &mut [u32])
    requires { length words.old ≡ length keys.now }
    ensures { words.new ≡ map key_index keys.now }
{
    for place in 0..keys.len() {
        words[place] = index_of(keys[place]);
    }
}

// Sorts words by the first addresses at these indices, and writes their keys.
fn sort_by_keys<C: Claims>(claims: &C, words: &mut [u32], least: u64, keys: &mut [u64])
    requires room { length keys.old ≡ length words.old }
    requires above { (place : ℕ) → place < length words.old
        → least ≤ (C.range_of claims.now (slice_index words.old place)).0 }
    requires near { (place : ℕ) → place < length words.old
        → (C.range_of claims.now (slice_index words.old place)).0 - least < 2 ^ 32 }
    ensures moved { IsPermutation words.old words.new }
    ensures keys { AreKeys (C.range_of claims.now) words.new keys.new }
    ensures rising { IsRising keys.new }
{
    write_keys(claims, words, least, keys);
    keys.sort_unstable();
    read_keys(keys, words);
}

// The place after the run of keys with the first address of the one at a place.
fn run_end(keys: &[u64], start: usize) -> usize
    requires { start < length keys.now }
    ensures after { start < result }
    ensures bound { result ≤ length keys.now }
    ensures run { (place : ℕ) → start ≤ place → place < result
        → slice_index keys.now place / 2 ^ 32 ≡ slice_index keys.now start / 2 ^ 32 }
    ensures other { result < length keys.now
        → slice_index keys.now result / 2 ^ 32 ≡ slice_index keys.now start / 2 ^ 32 → ⊥ }
{
    let begin = keys[start] / HALF;
    let mut end = start + 1;
    while end < keys.len() && keys[end] / HALF == begin {
        end += 1;
    }
    end
}

// Sorts the words from a place up to another one by their claims.
fn sort_run<C: Claims>(claims: &C, words: &mut [u32], start: usize, end: usize)
    requires inside { end ≤ length words.old }
    requires up { start < end }
    ensures moved { IsPermutation words.old words.new }
    ensures outside { (place : ℕ) → (place < start) ⊎ (end ≤ place)
        → slice_index words.new place ≡ slice_index words.old place }
    ensures inside { (place : ℕ) → start ≤ place → place < end
        → (was : ℕ) × (start ≤ was) × (was < end)
        × (slice_index words.new place ≡ slice_index words.old was) }
    ensures sorted { IsSortedWithin (is_worse (C.claim_of claims.now) (C.range_of claims.now))
        words.new start end }
{
    if end - start > 1 {
        let (_before, rest) = words.split_at_mut(start);
        let (run, _after) = rest.split_at_mut(end - start);
        sort_words(claims, run);
    }
}

// Sorts the words of each first address by their claims, if they are sorted by the first addresses.
fn sort_runs<C: Claims>(claims: &C, words: &mut [u32], keys: &[u64])
    requires keys { AreKeys (C.range_of claims.now) words.old keys.now }
    requires rising { IsRising keys.now }
    ensures moved { IsPermutation words.old words.new }
    ensures sorted { IsSortedBy (is_worse (C.claim_of claims.now) (C.range_of claims.now))
        words.new }
{
    let mut start = 0;
    while start < words.len() {
        let end = run_end(keys, start);
        sort_run(claims, words, start, end);
        start = end;
    }
}

// Sorts words by the claims at their indices, as `sort_words` does: the one that is further in is
// later. If there are as many numbers and the first addresses are near to one another, it sorts keys,
// which it writes into the numbers.
pub(crate) fn sort_by_numbers<C: Claims>(claims: &C, words: &mut [u32], numbers: &mut [u64])
    ensures moved { IsPermutation words.old words.new }
    ensures sorted { IsSortedBy (is_worse (C.claim_of claims.now) (C.range_of claims.now))
        words.new }
{
    let (least, greatest) = span(claims, words);
    if numbers.len() < words.len() || greatest.saturating_sub(least) >= HALF {
        sort_words(claims, words);
        return;
    }
    let (keys, _rest) = numbers.split_at_mut(words.len());
    sort_by_keys(claims, words, least, keys);
    sort_runs(claims, words, keys);
}
