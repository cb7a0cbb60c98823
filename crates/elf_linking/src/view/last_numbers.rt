//! The last number of each tag that calls ask for, found by one pass over the entries (gABI,
//! "Dynamic Section", d_tag). As in glibc, the last of several entries with one tag counts.

ghost use Rattle.std.specs.Prelude.{◌≡◌, ◌<◌, ◌^◌, IfSome, length};
ghost use Rattle.elf_linking.specs.Entries.{entries_left, number_with, pairs_of, until_null};
ghost use Rattle.elf_linking.specs.LastNumbers.{AreLast, noted, slot_of};

use crate::view::entries::{DynamicEntries, Pairs};
use crate::view::tags::DT_GNU_HASH;

// The number of slots.
const SLOTS: usize = 49;

// The entries of a dynamic segment, with the last number of each tag that has a slot.
#[derive(Clone, Copy, Debug)]
pub(crate) struct Entries<'a> {
    pairs: Pairs<'a>,
    numbers: [Option<u64>; SLOTS],
    ghost last: { AreLast numbers (until_null (pairs_of pairs)) },
}

impl<'a> Entries<'a> {
    // These entries, which are read in one pass.
    pub(crate) fn new(pairs: Pairs<'a>) -> Entries<'a>
        ensures { result.pairs ≡ pairs.entry }
    {
        Entries {
            pairs,
            numbers: last_numbers(pairs.iter()),
        }
    }

    // An iterator over the entries.
    pub(crate) fn iter(&self) -> DynamicEntries<'a>
        ensures items { entries_left result ≡ until_null (pairs_of self.now.pairs) }
        ensures fits { length (entries_left result) < 2 ^ 64 }
    {
        self.pairs.iter()
    }

    // The number in the last entry with this tag.
    #[inline(always)]
    pub(crate) fn number(&self, tag: u64) -> Option<u64>
        ensures { result ≡ number_with tag (until_null (pairs_of self.now.pairs)) }
    {
        match slot_of(tag) {
            Some(slot) => self.numbers[slot],
            None => last_number(&self.pairs, tag),
        }
    }
}

// The number in the last entry with this tag.
#[tactic(auto, using(crate::proofs::LastNumbers::number_none, crate::proofs::LastNumbers::number_hit, crate::proofs::LastNumbers::number_other))]
fn last_number(pairs: &Pairs<'_>, tag: u64) -> Option<u64>
    ensures { result ≡ number_with tag (until_null (pairs_of pairs.now)) }
{
    let mut found = None;
    for entry in pairs.iter() {
        if entry.raw_tag() == tag {
            found = Some(entry.raw_val());
        }
    }
    found
}

// The last numbers of these entries, by the slots of their tags.
fn last_numbers(entries: DynamicEntries<'_>) -> [Option<u64>; SLOTS]
    ensures { AreLast result (entries_left entries.entry) }
{
    let mut numbers = [None; SLOTS];
    for entry in entries {
        note(&mut numbers, entry.raw_tag(), entry.raw_val());
    }
    numbers
}

// Notes the number of an entry, if its tag has a slot.
#[inline(always)]
fn note(numbers: &mut [Option<u64>], tag: u64, number: u64)
    requires { length numbers.old ≡ 49 }
    ensures { numbers.new ≡ noted tag number numbers.old }
{
    if let Some(slot) = slot_of(tag) {
        numbers[slot] = Some(number);
    }
}

// The slot of a tag, if calls ask for it.
#[inline(always)]
fn slot_of(tag: u64) -> Option<usize>
    ensures slot { result ≡ slot_of tag }
    ensures below { IfSome result (λ slot. slot < 49) }
{
    match tag {
        0..=31 => Some(tag as usize),
        0x6fff_fff0..=0x6fff_ffff => Some((tag - 0x6fff_ffd0) as usize),
        DT_GNU_HASH => Some(48),
        _ => None,
    }
}
