//! The sizes of parts: the sums of their runs, the largest first.

ghost use Rattle.std.specs.Prelude.{◌≡◌, ◌<◌, ◌≤◌, ◌+◌, ◌^◌, ◌++◌, All, IfOk, OnOk, length, replicate};
ghost use Rattle.std.specs.Ordering.{is_lt};
ghost use Rattle.std.specs.Prelude.{slice_index, slice_set};
ghost use Rattle.std.specs.List.Sorted.{IsPermutation};
ghost use Rattle.elfsize.specs.Totals.{AreSizes, AreTotals, IsLargestFirst, IsListed};
ghost use Rattle.elfsize.specs.Totals.{all_bytes, comes_first, listed};

use std::alloc::{AllocError, Global};
use std::cmp::Ordering;

/// A number of bytes of one part.
#[derive(Clone, Copy, Debug, PartialEq, Eq)]
pub struct Run {
    /// The number of the part.
    pub part: usize,
    /// The number of bytes.
    pub size: u64,
}

/// The sizes of the parts that have bytes in runs, the largest first; of the same size the one with
/// the smallest number. It takes a number of 64 bits for each part up to the one with the greatest
/// number.
pub fn part_sizes(alloc: Global, runs: &[Run]) -> Result<Vec<Run>, AllocError>
    requires numbers { All (λ run. run.part < 2 ^ 40) runs.now }
    requires fits { all_bytes runs.now < 2 ^ 64 }
    ensures { IfOk result (λ sizes. AreSizes runs.now sizes.items) }
{
    let count = part_count(runs);
    let totals = part_totals(alloc, runs, count)?;
    let mut sizes = listed(alloc, &totals)?;
    sort(&mut sizes)?;
    Ok(sizes)
}

// One more than the greatest number of a part, or 0.
fn part_count(runs: &[Run]) -> usize
    requires { All (λ run. run.part < 2 ^ 40) runs.now }
    ensures { All (λ run. run.part < result) runs.now }
{
    let mut count = 0;
    for run in runs {
        count = count_with(count, run.part);
    }
    count
}

// One more than a number, or a count that is more.
#[inline(always)]
fn count_with(count: usize, part: usize) -> usize
    requires { part < 2 ^ 40 }
    ensures grows { count ≤ result }
    ensures above { part < result }
{
    if part < count { count } else { part + 1 }
}

// The number of bytes of each part, by its number.
pub(crate) fn part_totals(alloc: Global, runs: &[Run], count: usize) -> Result<Vec<u64>, AllocError>
    requires numbers { All (λ run. run.part < count) runs.now }
    requires fits { all_bytes runs.now < 2 ^ 64 }
    ensures { IfOk result (λ totals. AreTotals runs.now totals.items) }
{
    let mut totals = vec![in alloc; 0u64; count]?;
    add_runs(&mut totals, runs);
    Ok(totals)
}

// Adds all runs to totals that are 0.
fn add_runs(totals: &mut [u64], runs: &[Run])
    requires none { totals.old ≡ replicate (length totals.old) 0 }
    requires numbers { All (λ run. run.part < length totals.old) runs.now }
    requires fits { all_bytes runs.now < 2 ^ 64 }
    ensures { AreTotals runs.now totals.new }
{
    for run in runs {
        add(totals, run.part, run.size);
    }
}

// Adds a number of bytes to the total of a part.
#[inline(always)]
fn add(totals: &mut [u64], part: usize, size: u64)
    requires within { part < length totals.old }
    requires fits { slice_index totals.old part + size < 2 ^ 64 }
    ensures { totals.new ≡ slice_set totals.old part (slice_index totals.old part + size) }
{
    totals[part] += size;
}

// The parts that have bytes, in the order of their numbers.
fn listed(alloc: Global, totals: &[u64]) -> Result<Vec<Run>, AllocError>
    ensures { IfOk result (λ sizes. IsListed totals.now (length totals.now) sizes.items) }
{
    let mut sizes = Vec::new(alloc);
    for part in 0..totals.len() {
        push_size(&mut sizes, part, totals[part])?;
    }
    Ok(sizes)
}

// Adds a part if it has bytes.
pub(crate) fn push_size(sizes: &mut Vec<Run>, part: usize, size: u64) -> Result<(), AllocError>
    ensures { OnOk result (sizes.new.items ≡ sizes.old.items ++ listed part size) }
{
    if size != 0 {
        sizes.push(Run { part, size })?;
    }
    Ok(())
}

// Puts the largest first, and of the same size the one with the smallest number.
fn sort(sizes: &mut Vec<Run>) -> Result<(), AllocError>
    ensures moved { IsPermutation sizes.old.items sizes.new.items }
    ensures sorted { OnOk result (IsLargestFirst sizes.new.items) }
{
    sizes.sort_by(|one, other| order_of(one, other))
}

// Which of two parts comes first.
#[inline(always)]
fn order_of(one: &Run, other: &Run) -> Ordering
    ensures { is_lt result ≡ comes_first one.now other.now }
{
    let by_size = other.size.cmp(&one.size);
    by_size.then(one.part.cmp(&other.part))
}
