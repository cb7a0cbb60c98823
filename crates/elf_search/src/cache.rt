//! The cache of libraries that `ldconfig` writes (`ld.so.cache`; glibc, `dl-cache.h`), and what the
//! loader finds there for a name.

ghost use Rattle.std.specs.Prelude.{◌≡◌, ◌↔◌, ◌≤◌, ◌+◌, ◌*◌, ℕ, Err, IsOk, MatchOption, MatchResult, None, Ok, Some, length};

mod check;
mod entries;
mod layout;
mod pieces;
mod search;

use crate::SearchError;
use crate::cache::layout::{check_header, header_place, words_of_header};
pub use crate::cache::pieces::compare;

// The first bytes of a cache.
pub(crate) const MAGIC: &[u8; 20] = b"glibc-ld.so.cache1.1";

// The first bytes of the older format.
pub(crate) const OLD_MAGIC: &[u8; 11] = b"ld.so-1.7.0";

// The bits of platforms among the capabilities of an entry.
pub(crate) const PLATFORMS: u64 = 0x000f_0000_0000_0000;

/// What a machine can use of a cache. The values for x86-64, AArch64 and 32-bit x86 are beside the
/// fields.
#[derive(Clone, Copy, Debug)]
pub struct Machine<'m> {
    /// The flags of its entries: 0x303, 0xa03, 3.
    pub flags: u32,
    /// Other flags that it takes, of 32-bit x86 1; else the same.
    pub other_flags: u32,
    /// The levels that it has, level k as bit k: bit 0, and on x86-64 bits 1 to 3 for the levels 2 to 4
    /// of the processor. The level of an entry is below 32.
    pub levels: u32,
    /// The capabilities that it has, other than platforms: on x86-64 bits 1 (`x86_64`), 2
    /// (`avx512_1`) and 63 (`tls`), on 32-bit x86 0 (`sse2`) and 63.
    pub bits: u64,
    /// The bit of its platform, 0 if it has none: `haswell` is bit 50, `i686` bit 49.
    pub platform: u64,
    /// The active names of subdirectories of `glibc-hwcaps`, the best first: `x86-64-v3`, ..
    pub names: &'m [&'m [u8]],
}

// What an entry of a cache is to a machine.
#[derive(Clone, Copy, Debug, PartialEq, Eq)]
pub(crate) enum Usage {
    // Not for the machine, or without a value in the file, or in a subdirectory that is not active.
    Unfit,
    // In the active subdirectory at this place among the active ones.
    Named(usize),
    // In no such subdirectory, and the machine has what it needs.
    Plain,
    // In no such subdirectory, and the machine lacks what it needs.
    Foreign,
}

/// A cache of libraries. It borrows the bytes of its file.
#[derive(Clone, Copy, Debug)]
pub struct Cache<'a> {
    bytes: &'a [u8],
    start: usize,
    count: usize,
    names: usize,
    name_count: usize,
    ghost entries: { start + 48 + 24 * count ≤ length bytes.now },
    ghost words: { names + 4 * name_count ≤ length bytes.now },
}

impl<'a> Cache<'a> {
    ghost use Rattle.elf_search.specs.Cache.{AreNamesGood, IsGood, LooksUp, cache_bytes, cache_check};
    ghost use Rattle.elf_search.specs.Cache.{cache_of, entry_count, header_place, looked_up, name_words, value_of};

    /// The cache in the bytes of a file. The older format may come before it.
    ///
    /// Errors, those of files that the loader ignores: `NotACache` if there are fewer than 49 bytes,
    /// or the header is cut off or does not begin with `glibc-ld.so.cache1.1`; `CacheCount` if the
    /// entries extend past the end; `CacheOrder` if it says that it is not little-endian. A damaged
    /// extension is no error: then no subdirectory of hwcaps is used. One pass over the sections of
    /// the extension.
    #[tactic(auto, unfolding(crate::specs::Cache::cache_of))]
    pub fn read(bytes: &'a [u8]) -> Result<Cache<'a>, SearchError>
        ensures accepts { IsOk result ↔ IsOk (cache_of bytes.now) }
        ensures exact { MatchResult result
            (λ cache. (cache_bytes cache ≡ bytes.now) × (cache.start ≡ header_place bytes.now)
            × (cache.count ≡ entry_count bytes.now)
            × ((cache.names, cache.name_count) ≡ name_words bytes.now))
            (λ error. cache_of bytes.now ≡ Err error) }
    {
        let start = header_place(bytes)?;
        let count = check_header(bytes, start)?;
        let (names, name_count) = words_of_header(bytes, start).unwrap_or((0, 0));
        Ok(Cache {
            bytes,
            start,
            count,
            names,
            name_count,
        })
    }

    /// The path of the library that a machine gets for a name.
    ///
    /// A binary search finds an entry whose key equals the name; it ends where a key is not in the
    /// file. Of the entries around it that are equal, in order, those count that are for the machine
    /// and have a value in the file: the best of those in active subdirectories of hwcaps, if such
    /// come first, or else the first whose capabilities the machine has. In a cache that is not in
    /// order a name may be missed; if `check` has no error, it is looked up among all entries.
    ///
    /// The time is that of a comparison for each step of the search and for each equal entry; each
    /// comparison may read a key as long as the file if it begins with zeros.
    pub fn look_up(&self, name: &[u8], machine: &Machine<'_>) -> Option<&'a [u8]>
        ensures value { (entry : _) × LooksUp self.now machine.now name.now entry
            × MatchOption result (entry ≡ None)
            (λ value. (i : ℕ) × (entry ≡ Some i) × (value.now ≡ value_of self.now i)) }
        ensures checked { IsGood self.now → MatchOption result
            (looked_up self.now machine.now name.now ≡ None)
            (λ value. (i : ℕ) × (looked_up self.now machine.now name.now ≡ Some i)
            × (value.now ≡ value_of self.now i)) }
    {
        let entry = self.entry_for(name, machine)?;
        Some(self.value(entry))
    }

    /// Checks all that a look-up may read. Without an error `look_up` finds the best of all entries with a
    /// name, and `ld.so` finds the same.
    ///
    /// Errors: of the first entry with one, `CacheEntry` if its key or its value is past the end,
    /// `CacheNumber` if a number in its key is 2 to the 31 or more, where `compare` is no order, and
    /// `CacheEntryOrder` if its key is above that of the entry before it, by `compare`, or equals it and of
    /// the two this entry alone is in a subdirectory of hwcaps. Then `CacheExtension` if there is an
    /// extension, and its place is no multiple of 4, its magic number is another, or a part of it is past
    /// the end. Then, of the first name of hwcaps with one, `HwcapsName` if its place is past the end,
    /// where `ld.so` of glibc 2.36 crashes, and `HwcapsOrder` if it is not above the name before it, by
    /// their bytes, where `ld.so` may pass over a subdirectory.
    ///
    /// The time is that of a comparison for each two neighbours, of a pass over the sections of the
    /// extension, and of reading each name of hwcaps up to a zero byte.
    #[tactic(auto, using(crate::proofs::CacheChecks::checked_after, crate::proofs::CacheChecks::checked_good))]
    pub fn check(&self) -> Result<(), SearchError>
        ensures exact { MatchResult result (λ _. cache_check self.now ≡ Ok tt)
            (λ error. cache_check self.now ≡ Err error) }
        ensures good { IsOk result → IsGood self.now }
        ensures names { IsOk result → AreNamesGood self.now }
    {
        self.check_entries()?;
        if words_of_header(self.bytes, self.start).is_none() {
            return Err(SearchError::CacheExtension);
        }
        self.check_names()
    }
}
