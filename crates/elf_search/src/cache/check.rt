//! What is wrong with a cache.

ghost use Rattle.std.specs.Prelude.{◌≡◌, ◌<◌, ◌+◌, Err, MatchResult, Ok};

use crate::SearchError;
use crate::cache::Cache;
use crate::cache::pieces::{are_small, compare};
use std::cmp::Ordering;

impl<'a> Cache<'a> {
    ghost use Rattle.elf_search.specs.Cache.{entry_check, first_error, hwcaps_name, is_above};
    ghost use Rattle.elf_search.specs.Cache.{is_entry_inside, is_in_order, is_pair_good};
    ghost use Rattle.elf_search.specs.Cache.{name_before, name_check};

    // The first error of the entries.
    #[tactic(auto, using(crate::proofs::CacheChecks::first_more, crate::proofs::CacheChecks::first_failed))]
    pub(crate) fn check_entries(&self) -> Result<(), SearchError>
        ensures { MatchResult result (λ _. first_error (entry_check self.now) self.now.count ≡ Ok tt)
            (λ error. first_error (entry_check self.now) self.now.count ≡ Err error) }
    {
        for index in 0..self.count {
            self.check_entry(index)?;
        }
        Ok(())
    }

    // The error of an entry.
    #[tactic(auto, unfolding(crate::specs::Cache::entry_check))]
    fn check_entry(&self, index: usize) -> Result<(), SearchError>
        requires { index < self.now.count }
        ensures { MatchResult result (λ _. entry_check self.now index ≡ Ok tt)
            (λ error. entry_check self.now index ≡ Err error) }
    {
        if !self.is_entry_inside(index) {
            return Err(SearchError::CacheEntry);
        }
        if !are_small(self.key(index)) {
            return Err(SearchError::CacheNumber);
        }
        if !self.is_in_order(index) {
            return Err(SearchError::CacheEntryOrder);
        }
        Ok(())
    }

    // Whether the key and the value of an entry are in the file.
    #[tactic(auto, unfolding(crate::specs::Cache::is_entry_inside))]
    fn is_entry_inside(&self, index: usize) -> bool
        requires { index < self.now.count }
        ensures { result ≡ is_entry_inside self.now index }
    {
        self.key_place(index) < self.bytes.len() && self.value_place(index) < self.bytes.len()
    }

    // Whether an entry may come after the one before it.
    fn is_in_order(&self, index: usize) -> bool
        requires { index < self.now.count }
        ensures { result ≡ is_in_order self.now index }
    {
        index == 0 || self.is_pair_good(index - 1)
    }

    // Whether an entry may come before the next one.
    #[tactic(auto, unfolding(crate::specs::Cache::is_pair_good))]
    fn is_pair_good(&self, index: usize) -> bool
        requires { index + 1 < self.now.count }
        ensures { result ≡ is_pair_good self.now index }
    {
        match compare(self.key(index), self.key(index + 1)) {
            Ordering::Less => false,
            Ordering::Equal => self.hwcap(index) >> 42 == 1 << 20
                || self.hwcap(index + 1) >> 42 != 1 << 20,
            Ordering::Greater => true,
        }
    }

    // The first error of the names of hwcaps.
    #[tactic(auto, using(crate::proofs::CacheChecks::first_more, crate::proofs::CacheChecks::first_failed))]
    pub(crate) fn check_names(&self) -> Result<(), SearchError>
        ensures { MatchResult result (λ _. first_error (name_check self.now) self.now.name_count ≡ Ok tt)
            (λ error. first_error (name_check self.now) self.now.name_count ≡ Err error) }
    {
        for index in 0..self.name_count {
            self.check_name(index)?;
        }
        Ok(())
    }

    // The error of a name of hwcaps.
    fn check_name(&self, index: usize) -> Result<(), SearchError>
        ensures { MatchResult result (λ _. name_check self.now index ≡ Ok tt)
            (λ error. name_check self.now index ≡ Err error) }
    {
        let Some(name) = self.hwcaps_name(index) else {
            return Err(SearchError::HwcapsName);
        };
        if !self.is_next(index, name) {
            return Err(SearchError::HwcapsOrder);
        }
        Ok(())
    }

    // Whether a name is above that before a place among those of hwcaps, if there is one.
    fn is_next(&self, index: usize, name: &[u8]) -> bool
        ensures { result ≡ is_above (name_before self.now index) name.now }
    {
        index == 0 || self.is_above(index - 1, name)
    }

    // Whether a name is above one of hwcaps.
    fn is_above(&self, before: usize, name: &[u8]) -> bool
        ensures { result ≡ is_above (hwcaps_name self.now before) name.now }
    {
        match self.hwcaps_name(before) {
            Some(before) => before.cmp(name).is_lt(),
            None => true,
        }
    }
}
