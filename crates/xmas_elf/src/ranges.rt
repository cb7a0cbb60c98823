//! Byte ranges of the input, computed without overflow.

ghost use Rattle.std.specs.Prelude.{◌≡◌, ◌↔◌, ◌+◌, ◌≤◌, ◌<◌};
ghost use Rattle.std.specs.Prelude.{IfOk, IsOk, IsTrue, MatchOption, length, ℕ};
ghost use Rattle.elf_base.specs.Lent.{Answers, IfPart, LiesAt};
ghost use Rattle.xmas_elf.specs.HeaderTable.{entry_place};
ghost use Rattle.xmas_elf.specs.Ranges.{IsRange, range_of};

use crate::ElfError;

// Whether `input` contains the range of `count` bytes from `start` on.
#[inline(always)]
pub(crate) fn is_within(input: &[u8], start: u64, count: u64) -> bool
    ensures { IsTrue result ↔ (start + count ≤ length input.now) }
{
    let len = input.len() as u64;
    count <= len && start <= len - count
}

// Whether `input` contains the range of `count` bytes from `start` on and another byte after it.
#[inline(always)]
pub(crate) fn ends_inside(input: &[u8], start: u64, count: u64) -> bool
    ensures { IsTrue result ↔ (start + count < length input.now) }
{
    let len = input.len() as u64;
    count < len && start < len - count
}

// The range of `count` bytes of `input` from `start` on, or `DataRange`.
#[inline(always)]
pub(crate) fn range_at(input: &[u8], start: u64, count: u64) -> Result<&[u8], ElfError>
    ensures within { IsOk result ↔ (start + count ≤ length input.now) }
    ensures range { IfPart (IsRange input.now start count) result }
    ensures place { IfOk result (LiesAt input.entry start) }
    ensures exact { Answers (range_of input.now start count) result }
{
    if !is_within(input, start, count) {
        return Err(ElfError::DataRange);
    }
    let start = start as usize;
    Ok(&input[start..start + count as usize])
}

// The offset of entry `index` of a table, if the input contains the entry.
#[inline(always)]
pub(crate) fn entry_at(input: &[u8], offset: u64, entry_size: u16, index: u64) -> Option<usize>
    ensures { MatchOption result (length input.now < entry_place offset entry_size (index + 1))
        (λ place. (place ≡ entry_place offset entry_size index)
        × (place + entry_size ≤ length input.now)) }
{
    // 128 bits are enough for the offset of any entry.
    let size = u128::from(entry_size);
    let place = u128::from(offset) + u128::from(index) * size;
    if place + size > input.len() as u128 {
        return None;
    }
    Some(place as usize)
}

// The number of entries of a table that the input contains, up to `limit`.
#[inline(always)]
pub(crate) fn entries_within(input: &[u8], offset: u64, entry_size: u16, limit: u64) -> usize
    requires { 0 < entry_size }
    ensures few { result ≤ limit }
    ensures each { (i : ℕ) → i < result → entry_place offset entry_size (i + 1) ≤ length input.now }
    ensures most { result < limit → length input.now < entry_place offset entry_size (result + 1) }
{
    // Most tables lie within the input whole, and a division takes longer than the rest.
    if table_is_within(input, offset, entry_size, limit) {
        return limit as usize;
    }
    let len = input.len() as u64;
    if offset > len {
        return 0;
    }
    let room = (len - offset) / u64::from(entry_size);
    room as usize
}

// Whether `input` contains a table with `count` entries.
#[inline(always)]
pub(crate) fn table_is_within(input: &[u8], offset: u64, entry_size: u16, count: u64) -> bool
    ensures { IsTrue result ↔ (entry_place offset entry_size count ≤ length input.now) }
{
    u128::from(offset) + u128::from(count) * u128::from(entry_size) <= input.len() as u128
}

// The same for a count of 16 bits, with which 64 bits are enough.
#[inline(always)]
pub(crate) fn short_table_is_within(input: &[u8], offset: u64, entry_size: u16, count: u16) -> bool
    ensures { IsTrue result ↔ (entry_place offset entry_size count ≤ length input.now) }
{
    let size = u32::from(count) * u32::from(entry_size);
    is_within(input, offset, u64::from(size))
}
