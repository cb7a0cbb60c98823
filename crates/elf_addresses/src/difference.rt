//! The difference of the parts of two files.

ghost use Rattle.std.specs.Prelude.{◌≡◌, ◌≤◌, ◌<◌, ◌+◌, length, slice_get, take, MatchOption};
ghost use Rattle.std.specs.List.Sorted.{IsPermutation, IsSorted};
ghost use Rattle.std.specs.Ordering.{is_lt};
ghost use Rattle.elf_addresses.specs.Differences.{AreDifferences, AreMerged, change_of, change_order};
ghost use Rattle.elf_addresses.specs.Differences.{distance, first_of, name_order, new_size, news_of};
ghost use Rattle.elf_addresses.specs.Differences.{old_size, olds_of, part_order, shown};

use std::cmp::Ordering;

/// A part of a file: what it is, and its number of bytes.
#[derive(Clone, Copy, Debug)]
pub struct SizedPart<'a> {
    /// The number of its kind, as the caller numbers kinds.
    pub kind: usize,
    /// Its name, which may be empty.
    pub name: &'a [u8],
    /// Its place in the file. Of parts of one kind and one name, the one with the smallest place is
    /// the first.
    pub place: usize,
    /// Its number of bytes.
    pub size: u64,
}

/// What became of a part.
#[derive(Clone, Copy, Debug)]
pub enum Change<'a> {
    /// This part is in the old file alone.
    Gone(SizedPart<'a>),
    /// This part is in the new file alone.
    New(SizedPart<'a>),
    /// The part in the old file, and in the new one.
    Both(SizedPart<'a>, SizedPart<'a>),
}

impl<'a> Change<'a> {
    /// The number of bytes in the old file; 0 if the part isn't there.
    pub fn old_size(&self) -> u64
        ensures { result ≡ old_size self.now }
    {
        match self {
            Change::Gone(old) => old.size,
            Change::New(_) => 0,
            Change::Both(old, _) => old.size,
        }
    }

    /// The number of bytes in the new file; 0 if the part isn't there.
    pub fn new_size(&self) -> u64
        ensures { result ≡ new_size self.now }
    {
        match self {
            Change::Gone(_) => 0,
            Change::New(new) => new.size,
            Change::Both(_, new) => new.size,
        }
    }

    /// The part of the new file, or else that of the old one.
    pub fn part(&self) -> SizedPart<'a>
        ensures { result ≡ shown self.now }
    {
        match self {
            Change::Gone(old) => *old,
            Change::New(new) => *new,
            Change::Both(_, new) => *new,
        }
    }

    /// By how many bytes the part grew or shrank.
    pub fn distance(&self) -> u64
        ensures { result ≡ distance self.now }
    {
        self.new_size().abs_diff(self.old_size())
    }

    // The number of parts of the old file: 1 or 0.
    fn old_count(&self) -> usize
        ensures { result ≡ length (olds_of self.now) }
    {
        match self {
            Change::Gone(_) => 1,
            Change::New(_) => 0,
            Change::Both(_, _) => 1,
        }
    }

    // The number of parts of the new file: 1 or 0.
    fn new_count(&self) -> usize
        ensures { result ≡ length (news_of self.now) }
    {
        match self {
            Change::Gone(_) => 0,
            Change::New(_) => 1,
            Change::Both(_, _) => 1,
        }
    }
}

/// The differences of the parts of two files, the greatest first. It sorts the parts, and writes the
/// differences to the front of `changes`, which may hold anything before; of parts with the same kind
/// and name, the n-th of the old file is matched with the n-th of the new one.
///
/// `None` if `changes` has fewer elements than the two lists have together; the lists are then as they
/// were. Otherwise they are sorted by kind, name and place.
///
/// Sorts of the three slices, and one pass: for `n` parts in all some `n * log2(n)` comparisons, each
/// of at most all bytes of two names. It takes no memory.
pub fn differences<'c, 'a>(
    old: &mut [SizedPart<'a>],
    new: &mut [SizedPart<'a>],
    changes: &'c mut [Change<'a>],
) -> Option<&'c [Change<'a>]>
    ensures found { MatchOption result (length changes.old < length old.old + length new.old)
        (λ found. AreDifferences old.old new.old found.now) }
    ensures olds { MatchOption result (old.new ≡ old.old)
        (λ _. IsPermutation old.old old.new × IsSorted part_order old.new) }
    ensures news { MatchOption result (new.new ≡ new.old)
        (λ _. IsPermutation new.old new.new × IsSorted part_order new.new) }
{
    match old.len().checked_add(new.len()) {
        Some(count) if count <= changes.len() => {}
        _ => return None,
    }
    sort_parts(&mut *old);
    sort_parts(&mut *new);
    let count = merge(old, new, &mut *changes);
    let (found, _) = changes.split_at_mut(count);
    sort_changes(&mut *found);
    Some(found)
}

// Sorts parts by kind, name and place.
fn sort_parts(parts: &mut [SizedPart<'_>])
    ensures moved { IsPermutation parts.old parts.new }
    ensures count { length parts.new ≡ length parts.old }
    ensures sorted { IsSorted part_order parts.new }
{
    parts.sort_unstable_by(|one, other| part_order(one, other));
}

// The order of parts by kind, name and place.
fn part_order(one: &SizedPart<'_>, other: &SizedPart<'_>) -> Ordering
    ensures value { result ≡ part_order one.now other.now }
    ensures first { is_lt result ≡ is_lt (part_order one.now other.now) }
{
    name_order(one, other).then(one.place.cmp(&other.place))
}

// The order of parts by kind and name.
fn name_order(one: &SizedPart<'_>, other: &SizedPart<'_>) -> Ordering
    ensures { result ≡ name_order one.now other.now }
{
    one.kind.cmp(&other.kind).then(one.name.cmp(other.name))
}

// Sorts changes, the greatest first.
fn sort_changes(changes: &mut [Change<'_>])
    ensures moved { IsPermutation changes.old changes.new }
    ensures sorted { IsSorted change_order changes.new }
{
    changes.sort_unstable_by(|one, other| change_order(one, other));
}

// The order of changes: the greatest first, and of the same number of bytes by their parts.
fn change_order(one: &Change<'_>, other: &Change<'_>) -> Ordering
    ensures value { result ≡ change_order one.now other.now }
    ensures first { is_lt result ≡ is_lt (change_order one.now other.now) }
{
    let by_distance = other.distance().cmp(&one.distance());
    by_distance.then(part_order(&one.part(), &other.part()))
}

// Writes the changes of two lists that are in order to the front of `changes`, and returns their
// number.
fn merge<'a>(old: &[SizedPart<'a>], new: &[SizedPart<'a>], changes: &mut [Change<'a>]) -> usize
    requires old_sorted { IsSorted part_order old.now }
    requires new_sorted { IsSorted part_order new.now }
    requires room { length old.now + length new.now ≤ length changes.old }
    ensures within { result ≤ length changes.new }
    ensures merged { AreMerged old.now new.now (take result changes.new) }
{
    let (mut first, mut second, mut count) = (0, 0, 0);
    'parts: while let Some(change) = next_change(old, new, first, second) {
        changes[count] = change;
        first += change.old_count();
        second += change.new_count();
        count += 1;
    }
    count
}

// The change of the parts at two places, of which the one with the lesser name comes first.
fn next_change<'a>(
    old: &[SizedPart<'a>],
    new: &[SizedPart<'a>],
    first: usize,
    second: usize,
) -> Option<Change<'a>>
    ensures { result ≡ change_of (slice_get old.now first) (slice_get new.now second) }
{
    match (part_at(old, first), part_at(new, second)) {
        (None, None) => None,
        (Some(old), None) => Some(Change::Gone(old)),
        (None, Some(new)) => Some(Change::New(new)),
        (Some(old), Some(new)) => Some(first_of(old, new)),
    }
}

// The part at a place.
fn part_at<'a>(parts: &[SizedPart<'a>], place: usize) -> Option<SizedPart<'a>>
    ensures { result ≡ slice_get parts.now place }
{
    parts.get(place).copied()
}

// The change of two parts, by the order of their names.
fn first_of<'a>(old: SizedPart<'a>, new: SizedPart<'a>) -> Change<'a>
    ensures { result ≡ first_of (name_order old.entry new.entry) old.entry new.entry }
{
    match name_order(&old, &new) {
        Ordering::Less => Change::Gone(old),
        Ordering::Equal => Change::Both(old, new),
        Ordering::Greater => Change::New(new),
    }
}
