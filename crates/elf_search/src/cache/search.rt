//! The search for a name, and which of the entries with equal keys is used.

ghost use Rattle.std.specs.Prelude.{◌≡◌, ◌≤◌, ◌<◌, ◌-◌, ℕ, IfSome, None, Some, length, option_map, unwrap_or};
ghost use Rattle.elf_search.specs.Cache.{better, is_last, next_best};

use crate::cache::{Cache, Machine, Usage};
use std::cmp::Ordering;

impl<'a> Cache<'a> {
    ghost use Rattle.elf_search.specs.Cache.{IsGood, LooksUp, looked_up, Searches, first_same, is_same};
    ghost use Rattle.elf_search.specs.Cache.{order_at, run_from, usage_of, used};

    // The entry that a machine gets for a name.
    pub(crate) fn entry_for(&self, name: &[u8], machine: &Machine<'_>) -> Option<usize>
        ensures looks { LooksUp self.now machine.now name.now result }
        ensures checked { IsGood self.now → result ≡ looked_up self.now machine.now name.now }
        ensures inside { IfSome result (λ entry. entry < self.now.count) }
    {
        let found = self.search(name, 0, self.count)?;
        self.used_from(self.first_same(name, found), name, machine)
    }

    // An entry from `left` up to `end` whose key equals a name, by a binary search.
    fn search(&self, name: &[u8], left: usize, end: usize) -> Option<usize>
        requires { end ≤ self.now.count }
        ensures searches { Searches (order_at self.now name.now) left end result }
        ensures inside { IfSome result (λ entry. entry < self.now.count) }
    {
        if left >= end {
            return None;
        }
        let middle = (left + end - 1) / 2;
        match self.order_at(name, middle) {
            Some(Ordering::Less) => self.search(name, middle + 1, end),
            Some(Ordering::Equal) => Some(middle),
            Some(Ordering::Greater) => self.search(name, left, middle),
            None => None,
        }
    }

    // The first of the entries up to `found` that compare equal, without a gap.
    fn first_same(&self, name: &[u8], found: usize) -> usize
        requires { found < self.now.count }
        ensures value { result ≡ first_same (order_at self.now name.now) found }
        ensures bound { result ≤ found }
    {
        let mut first = found;
        while first > 0 {
            if !self.is_same(name, first - 1) {
                return first;
            }
            first -= 1;
        }
        first
    }

    // Whether the key of an entry equals a name.
    fn is_same(&self, name: &[u8], index: usize) -> bool
        requires { index < self.now.count }
        ensures { result ≡ is_same (order_at self.now name.now index) }
    {
        matches!(self.order_at(name, index), Some(Ordering::Equal))
    }

    // The entry that a machine uses among those from `first` on whose keys equal a name.
    fn used_from(&self, first: usize, name: &[u8], machine: &Machine<'_>) -> Option<usize>
        requires { first ≤ self.now.count }
        ensures value { result ≡ used (usage_of self.now machine.now)
            (run_from (order_at self.now name.now) (self.now.count - first) first) }
        ensures inside { IfSome result (λ entry. entry < self.now.count) }
    {
        let mut best = None;
        for index in first..self.count {
            if !self.is_same(name, index) {
                return entry_of(best);
            }
            let usage = self.usage(index, machine);
            if is_last(best, usage) {
                return Some(entry_or(best, index));
            }
            best = next_best(best, index, usage);
        }
        entry_of(best)
    }
}

// Whether an entry ends the choice.
fn is_last(best: Option<(usize, usize)>, usage: Usage) -> bool
    ensures { result ≡ is_last best usage }
{
    match usage {
        Usage::Unfit | Usage::Named(_) => false,
        Usage::Plain => true,
        Usage::Foreign => best.is_some(),
    }
}

// The best named entry after another entry.
fn next_best(best: Option<(usize, usize)>, index: usize, usage: Usage) -> Option<(usize, usize)>
    ensures { result ≡ next_best best index usage }
{
    match usage {
        Usage::Named(rank) => better(best, index, rank),
        _ => best,
    }
}

// The better of the named entry so far and another one, each with the place of its name.
fn better(best: Option<(usize, usize)>, index: usize, rank: usize) -> Option<(usize, usize)>
    ensures { result ≡ better best index rank }
{
    match best {
        Some(known) => if rank < known.1 {
            Some((index, rank))
        } else {
            best
        },
        None => Some((index, rank)),
    }
}

// The named entry so far, or another entry.
fn entry_or(best: Option<(usize, usize)>, index: usize) -> usize
    ensures { result ≡ unwrap_or (option_map (λ entry. entry.0) best) index }
{
    match best {
        Some(known) => known.0,
        None => index,
    }
}

// The named entry so far.
fn entry_of(best: Option<(usize, usize)>) -> Option<usize>
    ensures { result ≡ option_map (λ entry. entry.0) best }
{
    match best {
        Some(known) => Some(known.0),
        None => None,
    }
}
