//! Entries of a cache, and what they are to a machine.

ghost use Rattle.std.specs.Prelude.{◌≡◌, ◌<◌, ◌+◌, ◌*◌, MatchOption, None, Some, length};
ghost use Rattle.elf_search.specs.Cache.{is_plain, rank_of, ranked};

use crate::cache::pieces::compare;
use crate::cache::{Cache, Machine, PLATFORMS, Usage};
use elf_base::bytes::{Order, bytes_up_to_zero, read_u32, read_u64};
use std::cmp::Ordering;

impl<'a> Cache<'a> {
    ghost use Rattle.elf_search.specs.Cache.{flags_of, hwcap_of, hwcaps_name, key_of};
    ghost use Rattle.elf_search.specs.Cache.{key_place, order_at, text_from, usage_by, usage_of};
    ghost use Rattle.elf_search.specs.Cache.{value_of, value_place, word_at};

    // The 32-bit number in an entry from a byte of it on.
    fn word(&self, index: usize, byte: usize) -> u32
        requires inside { index < self.now.count }
        requires part { byte + 4 < 25 }
        ensures { result ≡ word_at self.now.bytes.now
            (self.now.start + 48 + 24 * index + byte) }
    {
        read_u32(
            self.bytes,
            self.start + 48 + 24 * index + byte,
            Order::Little,
        )
    }

    // The place of the key of an entry.
    #[tactic(auto, unfolding(crate::specs::Cache::key_place))]
    pub(crate) fn key_place(&self, index: usize) -> usize
        requires { index < self.now.count }
        ensures { result ≡ key_place self.now index }
    {
        self.start + self.word(index, 4) as usize
    }

    // The place of the value of an entry.
    #[tactic(auto, unfolding(crate::specs::Cache::value_place))]
    pub(crate) fn value_place(&self, index: usize) -> usize
        requires { index < self.now.count }
        ensures { result ≡ value_place self.now index }
    {
        self.start + self.word(index, 8) as usize
    }

    // The capabilities that an entry asks for.
    #[tactic(auto, unfolding(crate::specs::Cache::hwcap_of))]
    pub(crate) fn hwcap(&self, index: usize) -> u64
        requires { index < self.now.count }
        ensures { result ≡ hwcap_of self.now index }
    {
        read_u64(self.bytes, self.start + 48 + 24 * index + 16, Order::Little)
    }

    // The order of a name and the key of an entry, if the key is in the file.
    #[tactic(auto, unfolding(crate::specs::Cache::order_at))]
    pub(crate) fn order_at(&self, name: &[u8], index: usize) -> Option<Ordering>
        requires { index < self.now.count }
        ensures { result ≡ order_at self.now name.now index }
    {
        let place = self.key_place(index);
        if place >= self.bytes.len() {
            return None;
        }
        Some(compare(name, &self.bytes[place..]))
    }

    // The key of an entry, with all that follows it.
    pub(crate) fn key(&self, index: usize) -> &'a [u8]
        requires { index < self.now.count }
        ensures { result.now ≡ key_of self.now index }
    {
        let place = self.key_place(index);
        if place > self.bytes.len() {
            return &[];
        }
        &self.bytes[place..]
    }

    // The bytes from a place up to the first zero byte, or up to the end.
    fn text_from(&self, place: usize) -> &'a [u8]
        ensures { result.now ≡ text_from self.now.bytes.now place }
    {
        if place > self.bytes.len() {
            return &[];
        }
        match bytes_up_to_zero(self.bytes, place) {
            Ok(text) => text,
            Err(_) => &self.bytes[place..],
        }
    }

    // The value of an entry.
    pub(crate) fn value(&self, index: usize) -> &'a [u8]
        requires { index < self.now.count }
        ensures { result.now ≡ value_of self.now index }
    {
        self.text_from(self.value_place(index))
    }

    // Name `index` of hwcaps.
    #[tactic(auto, unfolding(crate::specs::Cache::hwcaps_name))]
    pub(crate) fn hwcaps_name(&self, index: usize) -> Option<&'a [u8]>
        ensures { MatchOption result (hwcaps_name self.now index ≡ None)
            (λ name. hwcaps_name self.now index ≡ Some name.now) }
    {
        if index >= self.name_count {
            return None;
        }
        let place = read_u32(self.bytes, self.names + 4 * index, Order::Little) as usize;
        if place >= self.bytes.len() {
            return None;
        }
        Some(self.text_from(place))
    }

    // What an entry is to a machine.
    #[tactic(auto, unfolding(crate::specs::Cache::usage_of, crate::specs::Cache::flags_of))]
    pub(crate) fn usage(&self, index: usize, machine: &Machine<'_>) -> Usage
        requires { index < self.now.count }
        ensures { result ≡ usage_of self.now machine.now index }
    {
        let flags = self.word(index, 0);
        if flags != machine.flags && flags != machine.other_flags {
            return Usage::Unfit;
        }
        if self.value_place(index) >= self.bytes.len() {
            return Usage::Unfit;
        }
        self.usage_by(self.hwcap(index), machine)
    }

    // What an entry with these capabilities is to a machine.
    fn usage_by(&self, hwcap: u64, machine: &Machine<'_>) -> Usage
        ensures { result ≡ usage_by self.now machine.now hwcap }
    {
        if hwcap >> 42 != 1 << 20 {
            return if is_plain(hwcap, machine) {
                Usage::Plain
            } else {
                Usage::Foreign
            };
        }
        if (machine.levels >> (hwcap >> 32) % 32) & 1 != 1 {
            return Usage::Unfit;
        }
        match self.hwcaps_name((hwcap % (1 << 32)) as usize) {
            Some(name) => ranked(rank_of(machine, name)),
            None => Usage::Unfit,
        }
    }
}

// Whether a machine has these capabilities.
fn is_plain(hwcap: u64, machine: &Machine<'_>) -> bool
    ensures { result ≡ is_plain machine.now hwcap }
{
    let platform = hwcap & PLATFORMS;
    hwcap & (machine.bits | PLATFORMS) == hwcap && (platform == 0 || platform == machine.platform)
}

// The place of a name among the active ones of a machine.
fn rank_of(machine: &Machine<'_>, name: &[u8]) -> Option<usize>
    ensures { result ≡ rank_of machine.now (Some name.now) }
{
    machine.names.iter().position(|active| *active == name)
}

// An entry with a name is as good as the name's place among the active ones.
fn ranked(rank: Option<usize>) -> Usage
    ensures { result ≡ ranked rank }
{
    match rank {
        Some(rank) => Usage::Named(rank),
        None => Usage::Unfit,
    }
}
