//! The header of a cache and its extension.

ghost use Rattle.std.specs.Prelude.{◌≡◌, ◌<◌, ◌≤◌, ◌+◌, ◌*◌, ◌^◌, Err, IfSome, MatchResult, Ok, None, Some, length, if◌then◌else◌};
ghost use Rattle.elf_search.specs.Cache.{cache_of, entry_count, extension_words, header_place};
ghost use Rattle.elf_search.specs.Cache.{aligned_words, are_within, tagged_words, words_of_header};

use crate::SearchError;
use crate::cache::{MAGIC, OLD_MAGIC};
use elf_base::bytes::{Order, read_u32};

// The place of the header, if the bytes are long enough for one there.
#[tactic(auto, unfolding(crate::specs::Cache::cache_of))]
pub(crate) fn header_place(bytes: &[u8]) -> Result<usize, SearchError>
    ensures { MatchResult result
        (λ start. (start ≡ header_place bytes.now) × (49 ≤ length bytes.now)
        × (start + 48 ≤ length bytes.now))
        (λ error. cache_of bytes.now ≡ Err error) }
{
    if bytes.len() < 49 {
        return Err(SearchError::NotACache);
    }
    let start = if bytes.starts_with(OLD_MAGIC) {
        let count = read_u32(bytes, 12, Order::Little) as usize;
        (16 + 12 * count + 7) / 8 * 8
    } else {
        0
    };
    if bytes.len() < start + 48 {
        return Err(SearchError::NotACache);
    }
    Ok(start)
}

// The number of entries of a cache with a header at this place, if it is one.
#[tactic(auto, unfolding(crate::specs::Cache::cache_of))]
pub(crate) fn check_header(bytes: &[u8], start: usize) -> Result<usize, SearchError>
    requires place { start ≡ header_place bytes.now }
    requires long { 49 ≤ length bytes.now }
    requires room { start + 48 ≤ length bytes.now }
    ensures exact { MatchResult result
        (λ count. (cache_of bytes.now ≡ Ok tt) × (count ≡ entry_count bytes.now)
        × (start + 48 + 24 * count ≤ length bytes.now))
        (λ error. cache_of bytes.now ≡ Err error) }
{
    if !bytes[start..].starts_with(MAGIC) {
        return Err(SearchError::NotACache);
    }
    let count = read_u32(bytes, start + 20, Order::Little) as usize;
    if bytes.len() < start + 48 + 24 * count {
        return Err(SearchError::CacheCount);
    }
    let flags = bytes[start + 28];
    if flags != 0 && flags % 4 != 2 {
        return Err(SearchError::CacheOrder);
    }
    Ok(count)
}

// The place and the number of the words for names of hwcaps in the extension of the header at a place;
// `None` if the extension is damaged.
pub(crate) fn words_of_header(bytes: &[u8], start: usize) -> Option<(usize, usize)>
    requires { start + 48 ≤ length bytes.now }
    ensures value { result ≡ words_of_header bytes.now start }
    ensures within { IfSome result (λ words. words.0 + 4 * words.1 ≤ length bytes.now) }
{
    extension_words(bytes, read_u32(bytes, start + 32, Order::Little) as usize)
}

// The place and the number of the words for names of hwcaps in the extension at a place, which is 0
// if there is no extension; `None` if the extension is damaged.
#[tactic(auto, unfolding(crate::specs::Cache::extension_words))]
fn extension_words(bytes: &[u8], place: usize) -> Option<(usize, usize)>
    requires { place < 2 ^ 32 }
    ensures value { result ≡ extension_words bytes.now place }
    ensures within { IfSome result (λ words. words.0 + 4 * words.1 ≤ length bytes.now) }
{
    if place == 0 {
        return Some((0, 0));
    }
    if place % 4 != 0 || bytes.len() < place + 8 {
        return None;
    }
    if read_u32(bytes, place, Order::Little) != 0xeaa4_2174 {
        return None;
    }
    let count = read_u32(bytes, place + 4, Order::Little) as usize;
    if bytes.len() < place + 8 + 16 * count {
        return None;
    }
    section_words(bytes, place + 8, count)
}

// The place and the number of the words in the last section with tag 1, if all sections are in the
// file.
fn section_words(bytes: &[u8], place: usize, count: usize) -> Option<(usize, usize)>
    requires room { place + 16 * count ≤ length bytes.now }
    ensures value { result ≡ (if are_within bytes.now place count
        then Some (tagged_words bytes.now place count) else None) }
    ensures within { IfSome result (λ words. words.0 + 4 * words.1 ≤ length bytes.now) }
{
    let mut words = (0, 0);
    for index in 0..count {
        let record = place + 16 * index;
        let from = read_u32(bytes, record + 8, Order::Little) as usize;
        let size = read_u32(bytes, record + 12, Order::Little) as usize;
        if bytes.len() < from + size {
            return None;
        }
        if read_u32(bytes, record, Order::Little) == 1 {
            words = aligned_words(from, size);
        }
    }
    Some(words)
}

// The place and the number of the words in a section; two zeros if its place or its size is no multiple
// of 4, as `ld.so` has it.
fn aligned_words(place: usize, size: usize) -> (usize, usize)
    ensures value { result ≡ aligned_words place size }
    ensures within { result.0 + 4 * result.1 ≤ place + size }
{
    if place % 4 == 0 && size % 4 == 0 {
        (place, size / 4)
    } else {
        (0, 0)
    }
}
