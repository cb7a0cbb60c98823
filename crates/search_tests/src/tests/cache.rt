//! Caches. The paths wanted are those that `ld.so` of glibc 2.36 loads with such a cache in the place of
//! its own, on a machine of level 4 with the platform `haswell`.

use crate::tests::want::want_at;
use elf_search::SearchError;
use elf_search::cache::{Cache, Machine, compare};
use std::cmp::Ordering;
use std::test::Fail;

// The entries of libq10.so; of libq2.so, the first in x86-64-v2, then libq02.so in x86-64-v3, and one
// again, and one in no subdirectory; of libq1.so, with an unknown level, in a subdirectory without a
// name, for 32-bit x86, with an unknown bit, for another platform, with bit 1, and with none; of libq.so;
// of libq\x80.so. The values are /v0.so to /v13.so.
const CACHE: [u8; 608] = [
    103, 108, 105, 98, 99, 45, 108, 100, 46, 115, 111, 46, 99, 97, 99, 104, 101, 49, 46, 49, 14, 0,
    0, 0, 188, 0, 0, 0, 2, 0, 0, 0, 60, 2, 0, 0, 0, 0, 0, 0, 0, 0, 0, 0, 0, 0, 0, 0, 3, 3, 0, 0,
    128, 1, 0, 0, 138, 1, 0, 0, 0, 0, 0, 0, 0, 0, 0, 0, 0, 0, 0, 0, 3, 3, 0, 0, 145, 1, 0, 0, 154,
    1, 0, 0, 0, 0, 0, 0, 0, 0, 0, 0, 1, 0, 0, 64, 3, 3, 0, 0, 161, 1, 0, 0, 171, 1, 0, 0, 0, 0, 0,
    0, 1, 0, 0, 0, 2, 0, 0, 64, 3, 3, 0, 0, 145, 1, 0, 0, 178, 1, 0, 0, 0, 0, 0, 0, 1, 0, 0, 0, 2,
    0, 0, 64, 3, 3, 0, 0, 145, 1, 0, 0, 185, 1, 0, 0, 0, 0, 0, 0, 0, 0, 0, 0, 0, 0, 0, 0, 3, 3, 0,
    0, 192, 1, 0, 0, 201, 1, 0, 0, 0, 0, 0, 0, 1, 0, 0, 0, 9, 0, 0, 64, 3, 3, 0, 0, 192, 1, 0, 0,
    208, 1, 0, 0, 0, 0, 0, 0, 7, 0, 0, 0, 2, 0, 0, 64, 3, 0, 0, 0, 192, 1, 0, 0, 215, 1, 0, 0, 0,
    0, 0, 0, 0, 0, 0, 0, 0, 0, 0, 0, 3, 3, 0, 0, 192, 1, 0, 0, 222, 1, 0, 0, 0, 0, 0, 0, 12, 0, 0,
    0, 0, 0, 0, 0, 3, 3, 0, 0, 192, 1, 0, 0, 229, 1, 0, 0, 0, 0, 0, 0, 0, 0, 0, 0, 0, 0, 2, 0, 3,
    3, 0, 0, 192, 1, 0, 0, 236, 1, 0, 0, 0, 0, 0, 0, 2, 0, 0, 0, 0, 0, 0, 0, 3, 3, 0, 0, 192, 1, 0,
    0, 244, 1, 0, 0, 0, 0, 0, 0, 0, 0, 0, 0, 0, 0, 0, 0, 3, 3, 0, 0, 252, 1, 0, 0, 4, 2, 0, 0, 0,
    0, 0, 0, 0, 0, 0, 0, 0, 0, 0, 0, 3, 3, 0, 0, 12, 2, 0, 0, 21, 2, 0, 0, 0, 0, 0, 0, 0, 0, 0, 0,
    0, 0, 0, 0, 108, 105, 98, 113, 49, 48, 46, 115, 111, 0, 47, 118, 48, 46, 115, 111, 0, 108, 105,
    98, 113, 50, 46, 115, 111, 0, 47, 118, 49, 46, 115, 111, 0, 108, 105, 98, 113, 48, 50, 46, 115,
    111, 0, 47, 118, 50, 46, 115, 111, 0, 47, 118, 51, 46, 115, 111, 0, 47, 118, 52, 46, 115, 111,
    0, 108, 105, 98, 113, 49, 46, 115, 111, 0, 47, 118, 53, 46, 115, 111, 0, 47, 118, 54, 46, 115,
    111, 0, 47, 118, 55, 46, 115, 111, 0, 47, 118, 56, 46, 115, 111, 0, 47, 118, 57, 46, 115, 111,
    0, 47, 118, 49, 48, 46, 115, 111, 0, 47, 118, 49, 49, 46, 115, 111, 0, 108, 105, 98, 113, 46,
    115, 111, 0, 47, 118, 49, 50, 46, 115, 111, 0, 108, 105, 98, 113, 128, 46, 115, 111, 0, 47,
    118, 49, 51, 46, 115, 111, 0, 120, 56, 54, 45, 54, 52, 45, 118, 50, 0, 120, 56, 54, 45, 54, 52,
    45, 118, 51, 0, 120, 56, 54, 45, 54, 52, 45, 118, 52, 0, 0, 116, 33, 164, 234, 1, 0, 0, 0, 1,
    0, 0, 0, 0, 0, 0, 0, 84, 2, 0, 0, 12, 0, 0, 0, 29, 2, 0, 0, 39, 2, 0, 0, 49, 2, 0, 0,
];

// A cache after one in the older format, as `ldconfig -r . -c compat` of glibc 2.36 writes it for a root with
// libq.so in /lib and in /lib/glibc-hwcaps/x86-64-v3, and with an entry more in the older format, so that
// four bytes of padding follow. Keys and values count from the newer header.
const AFTER_OLDER: [u8; 323] = [
    108, 100, 46, 115, 111, 45, 49, 46, 55, 46, 48, 0, 3, 0, 0, 0, 3, 3, 0, 0, 137, 0, 0, 0, 109,
    0, 0, 0, 3, 3, 0, 0, 137, 0, 0, 0, 96, 0, 0, 0, 3, 3, 0, 0, 137, 0, 0, 0, 96, 0, 0, 0, 0, 0, 0,
    0, 103, 108, 105, 98, 99, 45, 108, 100, 46, 115, 111, 46, 99, 97, 99, 104, 101, 49, 46, 49, 2,
    0, 0, 0, 59, 0, 0, 0, 2, 0, 0, 0, 212, 0, 0, 0, 0, 0, 0, 0, 0, 0, 0, 0, 0, 0, 0, 0, 3, 3, 0, 0,
    137, 0, 0, 0, 109, 0, 0, 0, 0, 0, 0, 0, 0, 0, 0, 0, 0, 0, 0, 64, 3, 3, 0, 0, 137, 0, 0, 0, 96,
    0, 0, 0, 0, 0, 0, 0, 0, 0, 0, 0, 0, 0, 0, 0, 47, 108, 105, 98, 47, 108, 105, 98, 113, 46, 115,
    111, 0, 47, 108, 105, 98, 47, 103, 108, 105, 98, 99, 45, 104, 119, 99, 97, 112, 115, 47, 120,
    56, 54, 45, 54, 52, 45, 118, 51, 47, 108, 105, 98, 113, 46, 115, 111, 0, 120, 56, 54, 45, 54,
    52, 45, 118, 51, 0, 0, 116, 33, 164, 234, 2, 0, 0, 0, 0, 0, 0, 0, 0, 0, 0, 0, 0, 1, 0, 0, 67,
    0, 0, 0, 1, 0, 0, 0, 0, 0, 0, 0, 252, 0, 0, 0, 4, 0, 0, 0, 145, 0, 0, 0, 108, 100, 99, 111,
    110, 102, 105, 103, 32, 40, 68, 101, 98, 105, 97, 110, 32, 71, 76, 73, 66, 67, 32, 50, 46, 51,
    54, 45, 57, 43, 100, 101, 98, 49, 50, 117, 49, 52, 41, 32, 115, 116, 97, 98, 108, 101, 32, 114,
    101, 108, 101, 97, 115, 101, 32, 118, 101, 114, 115, 105, 111, 110, 32, 50, 46, 51, 54,
];

// A change of one byte of it, and the path of libq.so, or the error of a file in which `ld.so` finds none.
const OLDER: &[((usize, u8), Result<Option<&[u8]>, SearchError>)] = &[
    // `ldconfig` counts the place of the name x86-64-v3 from the newer header, and `ld.so`, which so doesn't
    // find it, from the front of the file
    ((0, b'l'), Ok(Some(b"/lib/libq.so"))),
    // its place from the front
    ((252, 201), Ok(Some(b"/lib/glibc-hwcaps/x86-64-v3/libq.so"))),
    // the newer header is not after so many older entries, or is past the end
    ((12, 2), Err(SearchError::NotACache)),
    ((12, 4), Err(SearchError::NotACache)),
    ((12, 255), Err(SearchError::NotACache)),
    // the newer header has another magic number
    ((56, b'G'), Err(SearchError::NotACache)),
    // it says that it is not little-endian
    ((84, 1), Err(SearchError::CacheOrder)),
];

// Names and the paths that they get.
const FOUND: &[(&[u8], Option<&[u8]>)] = &[
    (b"libq10.so", Some(b"/v0.so")),
    (b"libq4294967306.so", Some(b"/v0.so")),
    (b"libq2.so", Some(b"/v2.so")),
    (b"libq002.so", Some(b"/v2.so")),
    (b"libq1.so", Some(b"/v10.so")),
    (b"libq.so", Some(b"/v12.so")),
    (b"libq\x80.so", Some(b"/v13.so")),
    (b"libq3.so", None),
    (b"libq\xff.so", None),
    (b"libq1", None),
    (b"lib", None),
];

// A change of one byte, a name, and the path that it gets.
const CHANGED: &[((usize, u8), &[u8], Option<&[u8]>)] = &[
    // the value of libq10.so is past the end
    ((58, 1), b"libq10.so", None),
    // the extension has another magic number
    ((572, 0), b"libq2.so", Some(b"/v4.so")),
    // the size of the section with the words, or its place, is no multiple of 4
    ((592, 11), b"libq2.so", Some(b"/v4.so")),
    ((588, 85), b"libq2.so", Some(b"/v4.so")),
    // the key in the middle is past the end
    ((198, 1), b"libq2.so", None),
    // no byte order is given
    ((28, 0), b"libq2.so", Some(b"/v2.so")),
    // libq10.so is named libq00.so, and the search doesn't find it before greater names
    ((388, b'0'), b"libq0.so", None),
    // the first entry of libq2.so is in no subdirectory
    ((95, 0), b"libq2.so", Some(b"/v2.so")),
];

// Bytes at places of the cache.
type Changes = &'static [(usize, &'static [u8])];

// What a check of a cache with other bytes returns.
const CHECKED: &[(Changes, Result<(), SearchError>)] = &[
    (&[], Ok(())),
    // the value of libq10.so is the last byte, and past the end; then its key, and that in the middle
    (&[(56, &[0x5f, 2])], Ok(())),
    (&[(56, &[0x60, 2])], Err(SearchError::CacheEntry)),
    (&[(52, &[0x60, 2])], Err(SearchError::CacheEntry)),
    (&[(198, &[1])], Err(SearchError::CacheEntry)),
    // a name is before a less one, and before a greater one
    (&[(384, b"libq03.so")], Ok(())),
    (&[(384, b"libq01.so")], Err(SearchError::CacheEntryOrder)),
    // of equal names one in no subdirectory comes first
    (&[(384, b"libq02.so")], Err(SearchError::CacheEntryOrder)),
    (&[(95, &[0])], Err(SearchError::CacheEntryOrder)),
    // the greatest number that a name may have, and one more
    (&[(384, b"lib2147483647")], Ok(())),
    (&[(384, b"lib2147483648")], Err(SearchError::CacheNumber)),
    // two errors of an entry; of two entries; of an entry and the extension; of the extension and a name in it
    (
        &[(58, &[1]), (384, b"lib2147483648")],
        Err(SearchError::CacheEntry),
    ),
    (
        &[(82, &[1]), (384, b"lib2147483648")],
        Err(SearchError::CacheNumber),
    ),
    (
        &[(384, b"libq01.so"), (572, &[0])],
        Err(SearchError::CacheEntryOrder),
    ),
    (
        &[(572, &[0]), (606, &[1])],
        Err(SearchError::CacheExtension),
    ),
];

// Bytes at a place of the extension, or of its place in the header, the path of libq2.so that `ld.so` loads with
// them, `None` where it crashes, and what a check returns. Without an error a look-up finds this path.
const EXTENSIONS: &[((usize, &[u8]), Option<&[u8]>, Result<(), SearchError>)] = &[
    ((596, &[0x1d, 2]), Some(b"/v2.so"), Ok(())),
    // no extension; its place is no multiple of 4, or its head is not in the file
    ((32, &[0, 0]), Some(b"/v4.so"), Ok(())),
    (
        (32, &[0x3e, 2]),
        Some(b"/v4.so"),
        Err(SearchError::CacheExtension),
    ),
    (
        (32, &[0x5c, 2]),
        Some(b"/v4.so"),
        Err(SearchError::CacheExtension),
    ),
    // another magic number
    (
        (572, &[1]),
        Some(b"/v4.so"),
        Err(SearchError::CacheExtension),
    ),
    // no section; one whose record, or a part, is past the end
    ((576, &[0]), Some(b"/v4.so"), Ok(())),
    (
        (576, &[3]),
        Some(b"/v4.so"),
        Err(SearchError::CacheExtension),
    ),
    (
        (592, &[16]),
        Some(b"/v4.so"),
        Err(SearchError::CacheExtension),
    ),
    // another tag; a size, or a place, that is no multiple of 4
    ((580, &[7]), Some(b"/v4.so"), Ok(())),
    ((592, &[11]), Some(b"/v4.so"), Ok(())),
    ((588, &[0x53]), Some(b"/v4.so"), Ok(())),
    // the first name is the last byte of the file; it is past the end, or the third is
    ((596, &[0x5f, 2]), Some(b"/v2.so"), Ok(())),
    ((596, &[0x60, 2]), None, Err(SearchError::HwcapsName)),
    ((604, &[0x60, 2]), None, Err(SearchError::HwcapsName)),
    // the first is the second, and the second the first; the first two are equal; the last is empty
    (
        (596, &[0x27, 2, 0, 0, 0x1d]),
        Some(b"/v1.so"),
        Err(SearchError::HwcapsOrder),
    ),
    (
        (600, &[0x1d]),
        Some(b"/v1.so"),
        Err(SearchError::HwcapsOrder),
    ),
    (
        (604, &[0x5f]),
        Some(b"/v2.so"),
        Err(SearchError::HwcapsOrder),
    ),
    // a byte above 127 is above all others
    (
        (541, &[0x80]),
        Some(b"/v4.so"),
        Err(SearchError::HwcapsOrder),
    ),
    // x86-64-v10, and what follows up to the next zero byte, is below x86-64-v3, though 10 is above 3
    ((549, b"10"), Some(b"/v2.so"), Ok(())),
];

// A change of one byte, and the error.
const ERRORS: &[((usize, u8), SearchError)] = &[
    ((0, b'G'), SearchError::NotACache),
    ((19, b'2'), SearchError::NotACache),
    ((22, 1), SearchError::CacheCount),
    ((20, 255), SearchError::CacheCount),
    ((28, 1), SearchError::CacheOrder),
    ((28, 3), SearchError::CacheOrder),
    ((28, 4), SearchError::CacheOrder),
];

// Two names, and their order: a name is found behind another one in a cache if it is less.
const ORDERS: &[(&[u8], &[u8], Ordering)] = &[
    (b"libz3.so", b"libz5.so", Ordering::Less),
    (b"libz5.so", b"libz3.so", Ordering::Greater),
    (b"lib1.so", b"lib01.so", Ordering::Equal),
    (b"libz00.so", b"libz4294967296.so", Ordering::Equal),
    (b"libz3.so", b"libz4294967301.so", Ordering::Less),
    // a difference of 2 to the 31 is negative both ways
    (b"libz2147483647.so", b"libz4294967295.so", Ordering::Less),
    (b"libz4294967295.so", b"libz2147483647.so", Ordering::Less),
    (b"libz1.so", b"libz2147483648.so", Ordering::Less),
    (b"libz2147483648.so", b"libz1.so", Ordering::Greater),
    // bytes above 127 are negative, and before the end
    (b"lib.so", b"lib\x80.so", Ordering::Greater),
    (b"lib\x80", b"lib", Ordering::Less),
    (b"lib", b"liba", Ordering::Less),
    (b"liba", b"lib9", Ordering::Less),
    (b"lib\0a", b"lib", Ordering::Equal),
];

const MACHINE: Machine<'static> = Machine {
    flags: 0x303,
    other_flags: 0x303,
    levels: 15,
    bits: 0x8000_0000_0000_0006,
    platform: 1 << 50,
    names: &[b"x86-64-v4", b"x86-64-v3", b"x86-64-v2"],
};

#[test]
fn names_are_ordered(rt: HostRuntime) {
    for &(one, other, wanted) in ORDERS {
        want_at(&rt, (one, other), compare(one, other), wanted);
    }
}

#[test]
fn a_name_gets_the_best_entry(rt: HostRuntime) -> Result<(), Fail> {
    let cache = Cache::read(&CACHE)?;
    want_at(&rt, "check", cache.check(), Ok(()));
    for &(name, wanted) in FOUND {
        want_at(&rt, name, cache.look_up(name, &MACHINE), wanted);
    }
    Ok(())
}

#[test]
fn damaged_entries_are_passed_over(rt: HostRuntime) -> Result<(), Fail> {
    for &(change, name, wanted) in CHANGED {
        let mut bytes = CACHE;
        if change.0 < bytes.len() {
            bytes[change.0] = change.1;
        }
        let cache = Cache::read(&bytes)?;
        want_at(&rt, change, cache.look_up(name, &MACHINE), wanted);
    }
    Ok(())
}

#[test]
fn a_check_finds_the_first_error(rt: HostRuntime) -> Result<(), Fail> {
    for &(changes, wanted) in CHECKED {
        let mut bytes = CACHE;
        for &change in changes {
            bytes = with_bytes(bytes, change);
        }
        let cache = Cache::read(&bytes)?;
        want_at(&rt, changes, cache.check(), wanted);
    }
    let cache = Cache::read(&AFTER_OLDER)?;
    want_at(&rt, "after an older one", cache.check(), Ok(()));
    Ok(())
}

#[test]
fn an_extension_is_read_as_by_the_loader(rt: HostRuntime) -> Result<(), Fail> {
    for &(change, loaded, wanted) in EXTENSIONS {
        let bytes = with_bytes(CACHE, change);
        let cache = Cache::read(&bytes)?;
        want_at(&rt, change, cache.check(), wanted);
        if wanted.is_ok() {
            let found = cache.look_up(b"libq2.so", &MACHINE);
            want_at(&rt, change, found, loaded);
        }
    }
    Ok(())
}

// A cache with other bytes at a place.
fn with_bytes(mut cache: [u8; 608], change: (usize, &[u8])) -> [u8; 608] {
    for (index, byte) in change.1.iter().enumerate() {
        if let Some(old) = cache.get_mut(change.0.saturating_add(index)) {
            *old = *byte;
        }
    }
    cache
}

#[test]
fn a_cache_may_come_after_an_older_one(rt: HostRuntime) {
    for &(change, wanted) in OLDER {
        let mut bytes = AFTER_OLDER;
        if change.0 < bytes.len() {
            bytes[change.0] = change.1;
        }
        want_at(&rt, change, path_of(&bytes), wanted);
    }
}

// The path that a cache has for libq.so.
fn path_of(bytes: &[u8]) -> Result<Option<&[u8]>, SearchError> {
    match Cache::read(bytes) {
        Ok(cache) => Ok(cache.look_up(b"libq.so", &MACHINE)),
        Err(error) => Err(error),
    }
}

#[test]
fn other_files_are_no_caches(rt: HostRuntime) {
    for &(change, wanted) in ERRORS {
        let mut bytes = CACHE;
        if change.0 < bytes.len() {
            bytes[change.0] = change.1;
        }
        want_at(&rt, change, error_of(&bytes), Some(wanted));
    }
    want_at(
        &rt,
        48,
        error_of(&CACHE[..48]),
        Some(SearchError::NotACache),
    );
}

// The error of a read.
fn error_of(bytes: &[u8]) -> Option<SearchError> {
    match Cache::read(bytes) {
        Ok(_) => None,
        Err(error) => Some(error),
    }
}
