//! Words and numbers that an iterator holds, with an index that is built in them.

ghost use Rattle.std.specs.Prelude.{◌≡◌, ◌≤◌, ◌<◌, ◌^◌, false, length, true};
ghost use Rattle.elf_addresses.specs.Held.{InBlocks, InRanges, IsHeld};
ghost use Rattle.elf_addresses.specs.Index.{IsBuilt, listed, number_count, word_count};

use crate::claims::Claims;
use crate::index::{
    IndexSize, build_sized, fill_lasting, fill_ranges, index_size, number_parts, word_parts,
};

// The parts of an index in words and numbers.
#[derive(Clone, Copy, Debug)]
pub(crate) struct IndexWords<'w> {
    pub(crate) sized: &'w [u32],
    pub(crate) begins: &'w [u64],
    pub(crate) sizes: &'w [u64],
    pub(crate) lasting: &'w [u32],
    pub(crate) starts: &'w [u32],
}

// Builds an index in words and numbers that are enough for it, and returns its parts.
pub(crate) fn built<'w, C: Claims>(
    claims: &C,
    words: &'w mut [u32],
    numbers: &'w mut [u64],
) -> IndexWords<'w>
    requires few { C.count claims.now < 2 ^ 32 }
    requires room { word_count (C.claim_of claims.now) (C.count claims.now) ≤ length words.old }
    requires numbers_room { number_count (C.claim_of claims.now) (C.count claims.now)
        ≤ length numbers.old }
    ensures { IsHeld (C.claim_of claims.now) (C.range_of claims.now) (C.count claims.now)
        result.sized.now result.begins.now result.sizes.now result.lasting.now
        result.starts.now }
{
    let size = index_size(claims);
    match build_sized(claims, size, &mut *words, &mut *numbers) {
        Ok(()) => {}
        Err(_) => unreachable!(),
    }
    words_of(claims, size, words, numbers)
}

// The parts of an index of a size that is built in words and numbers. The claims are those of its
// contract, and it reads none.
pub(crate) fn words_of<'w, C: Claims>(
    claims: &C,
    size: IndexSize,
    words: &'w [u32],
    numbers: &'w [u64],
) -> IndexWords<'w>
    requires sized { size.sized ≡ length (listed (C.claim_of claims.now) false (C.count claims.now)) }
    requires open { size.open ≡ length (listed (C.claim_of claims.now) true (C.count claims.now)) }
    requires built { IsBuilt (C.claim_of claims.now) (C.range_of claims.now) (C.count claims.now)
        words.now numbers.now }
    ensures { IsHeld (C.claim_of claims.now) (C.range_of claims.now) (C.count claims.now)
        result.sized.now result.begins.now result.sizes.now result.lasting.now
        result.starts.now }
{
    let (sized, lasting, starts) = word_parts(size, words);
    let (begins, sizes) = number_parts(size, numbers);
    IndexWords {
        sized,
        begins,
        sizes,
        lasting,
        starts,
    }
}

// The first addresses and the sizes of the ranges of these words, and for each place the one of its
// block whose range ends last, in numbers and words of the same count.
pub(crate) fn parts_of<'w, C: Claims>(
    claims: &C,
    words: &[u32],
    lasting: &'w mut [u32],
    begins: &'w mut [u64],
    sizes: &'w mut [u64],
) -> (&'w [u64], &'w [u64], &'w [u32])
    requires few { length words.now < 2 ^ 32 }
    requires room { length lasting.old ≡ length words.now }
    requires begins_room { length begins.old ≡ length words.now }
    requires sizes_room { length sizes.old ≡ length words.now }
    ensures ranges { InRanges (C.range_of claims.now) words.now result.0.now result.1.now }
    ensures blocks { InBlocks (C.range_of claims.now) words.now result.2.now }
{
    fill_ranges(claims, words, &mut *begins, &mut *sizes);
    fill_lasting(begins, sizes, &mut *lasting);
    (begins, sizes, lasting)
}
