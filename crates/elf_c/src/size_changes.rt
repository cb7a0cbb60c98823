//! The difference of the parts of two files: which grew, shrank, came or went (this project's own).

ghost use Rattle.std.specs.Prelude.{◌≡◌, ◌≤◌, ◌<◌, ◌+◌, ℕ, All, Result, length, map, slice_get};
ghost use Rattle.std.specs.Prelude.{slice_index_or, take};
ghost use Rattle.std.specs.List.Sorted.{IsPermutation, IsSorted};
ghost use Rattle.std.specs.Ordering.{is_lt};
ghost use Rattle.elf_addresses.specs.Differences.{AreMerged, change_of, change_order, first_of};
ghost use Rattle.elf_addresses.specs.Differences.{name_order, news_of, olds_of, part_order};
ghost use Rattle.elf_c.specs.SizeChanges.{AreChanged, IsOwnRow, change_at, row_change_order, row_of};
ghost use Rattle.elf_c.specs.SizeChanges.{sized};
ghost use Rattle.elf_c.specs.Status.{GivesHere};
ghost use Rattle.elf_c.specs.declared.status.AnyError.{AnyError};

use crate::status::{AnyError, give};
use elf_addresses::{Change, IndexError, SizedPart};
use std::cmp::Ordering;

/// A part is in the old file alone.
pub const GONE: u32 = 0;
/// A part is in the new file alone.
pub const NEW: u32 = 1;
/// A part is in both files.
pub const BOTH: u32 = 2;

/// A part of a file, and its number of bytes.
#[repr(C)]
#[derive(Clone, Copy, Debug)]
pub struct SizePart<'a> {
    /// The bytes of its name, which may be empty.
    pub name: &'a [u8],
    /// The number of its kind, as the caller numbers kinds.
    pub kind: u64,
    /// Its place in the file. Of parts of one kind and one name, the one with the smallest place is
    /// the first.
    pub place: u64,
    /// Its number of bytes.
    pub size: u64,
}

/// What became of a part.
#[repr(C)]
#[derive(Clone, Copy, Debug)]
pub struct SizeChange {
    /// The index of the part of the old file in its list, which the call sorts; 0 if there is none.
    pub old_index: u64,
    /// The index of the part of the new file in its list, which the call sorts; 0 if there is none.
    pub new_index: u64,
    /// The number of bytes in the old file; 0 if the part isn't there.
    pub old_size: u64,
    /// The number of bytes in the new file; 0 if the part isn't there.
    pub new_size: u64,
    /// In which files it is: `GONE`, `NEW` or `BOTH`.
    pub files: u32,
}

// The part as the library has it.
fn sized<'a>(part: &SizePart<'a>) -> SizedPart<'a>
    ensures { result ≡ sized part.now }
{
    SizedPart {
        kind: part.kind as usize,
        name: part.name,
        place: part.place as usize,
        size: part.size,
    }
}

// The order of parts by kind and name.
fn name_order(one: &SizedPart<'_>, other: &SizedPart<'_>) -> Ordering
    ensures { result ≡ name_order one.now other.now }
{
    one.kind.cmp(&other.kind).then(one.name.cmp(other.name))
}

// The same, and by place if these are equal.
fn part_order(one: &SizedPart<'_>, other: &SizedPart<'_>) -> Ordering
    ensures value { result ≡ part_order one.now other.now }
    ensures first { is_lt result ≡ is_lt (part_order one.now other.now) }
{
    name_order(one, other).then(one.place.cmp(&other.place))
}

// The order of two parts as the caller has them.
fn given_order(one: &SizePart<'_>, other: &SizePart<'_>) -> Ordering
    ensures { is_lt result ≡ is_lt (part_order (sized one.now) (sized other.now)) }
{
    part_order(&sized(one), &sized(other))
}

// Sorts parts by kind, name and place.
fn sort_parts(parts: &mut [SizePart<'_>])
    ensures moved { IsPermutation parts.old parts.new }
    ensures sorted { IsSorted part_order (map sized parts.new) }
{
    parts.sort_unstable_by(|one, other| given_order(one, other));
}

// The part at an index, if there is one.
fn part_at<'a>(parts: &[SizePart<'a>], index: usize) -> Option<SizedPart<'a>>
    ensures { result ≡ slice_get (map sized parts.now) index }
{
    match parts.get(index) {
        Some(part) => Some(sized(part)),
        None => None,
    }
}

// The part for one that is missing.
fn no_part<'a>() -> SizedPart<'a> {
    SizedPart {
        kind: 0,
        name: b"",
        place: 0,
        size: 0,
    }
}

// The part at an index, or the given one.
fn part_or<'a>(parts: &[SizePart<'a>], index: u64, none: SizedPart<'a>) -> SizedPart<'a>
    ensures { result ≡ slice_index_or (map sized parts.now) index none.entry }
{
    match part_at(parts, index as usize) {
        Some(part) => part,
        None => none,
    }
}

// The change of two parts, by the order of their names.
fn first_of<'a>(old: SizedPart<'a>, new: SizedPart<'a>) -> Change<'a>
    ensures { result ≡ first_of (name_order old.entry new.entry) old.entry new.entry }
{
    match name_order(&old, &new) {
        Ordering::Less => Change::Gone(old),
        Ordering::Equal => Change::Both(old, new),
        Ordering::Greater => Change::New(new),
    }
}

// The change of the parts at two indices, of which the one with the lesser name comes first.
fn next_change<'a>(
    old: &[SizePart<'a>],
    new: &[SizePart<'a>],
    first: usize,
    second: usize,
) -> Option<Change<'a>>
    ensures { result ≡ change_of (slice_get (map sized old.now) first)
        (slice_get (map sized new.now) second) }
{
    match (part_at(old, first), part_at(new, second)) {
        (None, None) => None,
        (Some(old), None) => Some(Change::Gone(old)),
        (None, Some(new)) => Some(Change::New(new)),
        (Some(old), Some(new)) => Some(first_of(old, new)),
    }
}

// The row of the change of the parts at two indices.
fn row_of(change: &Change<'_>, first: usize, second: usize) -> SizeChange
    ensures { result ≡ row_of change.now first second }
{
    let (files, old, new) = match change {
        Change::Gone(_) => (GONE, first, 0),
        Change::New(_) => (NEW, 0, second),
        Change::Both(_, _) => (BOTH, first, second),
    };
    SizeChange {
        old_index: old as u64,
        new_index: new as u64,
        old_size: change.old_size(),
        new_size: change.new_size(),
        files,
    }
}

// The number of parts of the old file in a change: 1 or 0.
fn old_count(change: &Change<'_>) -> usize
    ensures { result ≡ length (olds_of change.now) }
{
    match change {
        Change::Gone(_) => 1,
        Change::New(_) => 0,
        Change::Both(_, _) => 1,
    }
}

// The number of parts of the new file in a change: 1 or 0.
fn new_count(change: &Change<'_>) -> usize
    ensures { result ≡ length (news_of change.now) }
{
    match change {
        Change::Gone(_) => 0,
        Change::New(_) => 1,
        Change::Both(_, _) => 1,
    }
}

// Writes the rows of the changes of two lists that are in order to the front of `rows`, and returns
// their number.
fn merge<'a>(
    old: &[SizePart<'a>],
    new: &[SizePart<'a>],
    none: SizedPart<'a>,
    rows: &mut [SizeChange],
) -> usize
    requires old_sorted { IsSorted part_order (map sized old.now) }
    requires new_sorted { IsSorted part_order (map sized new.now) }
    requires room { length old.now + length new.now ≤ length rows.old }
    ensures within { result ≤ length rows.new }
    ensures long { length rows.new ≡ length rows.old }
    ensures merged { AreMerged (map sized old.now) (map sized new.now)
        (map (change_at old.now new.now none.entry) (take result rows.new)) }
    ensures rows { All (IsOwnRow old.now new.now none.entry) (take result rows.new) }
{
    let (mut first, mut second, mut count) = (0, 0, 0);
    'parts: while let Some(change) = next_change(old, new, first, second) {
        rows[count] = row_of(&change, first, second);
        first += old_count(&change);
        second += new_count(&change);
        count += 1;
    }
    count
}

// The change of a row.
fn change_at<'a>(
    old: &[SizePart<'a>],
    new: &[SizePart<'a>],
    none: SizedPart<'a>,
    row: &SizeChange,
) -> Change<'a>
    ensures { result ≡ change_at old.now new.now none.entry row.now }
{
    if row.files == GONE {
        return Change::Gone(part_or(old, row.old_index, none));
    }
    if row.files == NEW {
        return Change::New(part_or(new, row.new_index, none));
    }
    Change::Both(
        part_or(old, row.old_index, none),
        part_or(new, row.new_index, none),
    )
}

// The order of changes: the greatest first, and of the same number of bytes by their parts.
fn change_order(one: &Change<'_>, other: &Change<'_>) -> Ordering
    ensures { result ≡ change_order one.now other.now }
{
    let by_distance = other.distance().cmp(&one.distance());
    by_distance.then(part_order(&one.part(), &other.part()))
}

// The order of rows by their changes.
fn row_order<'a>(
    old: &[SizePart<'a>],
    new: &[SizePart<'a>],
    none: SizedPart<'a>,
    one: &SizeChange,
    other: &SizeChange,
) -> Ordering
    ensures { is_lt result ≡ is_lt (row_change_order old.now new.now none.entry one.now other.now) }
{
    change_order(
        &change_at(old, new, none, one),
        &change_at(old, new, none, other),
    )
}

// Sorts rows, those of the greatest changes first.
fn sort_rows<'a>(
    old: &[SizePart<'a>],
    new: &[SizePart<'a>],
    none: SizedPart<'a>,
    rows: &mut [SizeChange],
)
    ensures moved { IsPermutation rows.old rows.new }
    ensures sorted { IsSorted (row_change_order old.now new.now none.entry) rows.new }
{
    rows.sort_unstable_by(|one, other| row_order(old, new, none, one, other));
}

// Sorts both lists, and writes the rows of their differences; without room for them, an error.
fn list_changes<'a>(
    old: &mut [SizePart<'a>],
    new: &mut [SizePart<'a>],
    rows: &mut [SizeChange],
) -> Result<u64, AnyError>
    ensures { AreChanged old.old new.old rows.old old.new new.new rows.new result }
{
    match old.len().checked_add(new.len()) {
        Some(count) if count <= rows.len() => {}
        _ => return Err(AnyError::Index(IndexError::FewWords)),
    }
    sort_parts(&mut *old);
    sort_parts(&mut *new);
    let none = no_part();
    let count = merge(&*old, &*new, none, &mut *rows);
    let (found, _) = rows.split_at_mut(count);
    sort_rows(&*old, &*new, none, found);
    Ok(count as u64)
}

/// The differences of the parts of two files, the greatest first: the result of
/// `elf_addresses::differences`, one row for each part that grew, shrank, came or went, or stayed as it
/// is. Each part is in exactly one row; of parts with the same kind and name, the n-th of the old file
/// is matched with the n-th of the new one. The differences of the sizes in all rows sum to the
/// difference of the sums of the sizes.
///
/// `olds` and `news` are sorted by kind, name and place. The rows are written to the front of `changes`,
/// and `count` is set to their number.
///
/// The error is `FewWords` if `changes` has fewer elements than both lists have together; nothing is
/// then changed. For `n` parts in all it takes some `n * log2(n)` comparisons, each of at most all bytes
/// of two names.
#[unsafe(no_mangle)]
pub extern "C" fn xmas_elf_size_changes<'a>(
    olds: &mut [SizePart<'a>],
    news: &mut [SizePart<'a>],
    changes: &mut [SizeChange],
    count: &mut u64,
) -> u32
    ensures { (answer : Result ℕ AnyError)
        × AreChanged olds.old news.old changes.old olds.new news.new changes.new answer
        × GivesHere answer count.old result count.new }
{
    give(list_changes(olds, news, changes), count)
}
