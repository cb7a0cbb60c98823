//! Which files a search takes.

use crate::tests::want::want_at;
use elf_search::SearchError;
use elf_search::fits::{Fit, fits};

// The header of a library of 200 bytes for x86-64 with two program headers.
const HEAD: [u8; 64] = [
    0x7f, b'E', b'L', b'F', 2, 1, 1, 0, 0, 0, 0, 0, 0, 0, 0, 0, 3, 0, 62, 0, 1, 0, 0, 0, 0, 0, 0,
    0, 0, 0, 0, 0, 64, 0, 0, 0, 0, 0, 0, 0, 0, 0, 0, 0, 0, 0, 0, 0, 0, 0, 0, 0, 64, 0, 56, 0, 2, 0,
    0, 0, 0, 0, 0, 0,
];

const LENGTH: u64 = 200;

// Changes of two bytes of the header, each as an offset and a value, and what follows.
const CHANGES: &[((usize, u8), (usize, u8), Result<Fit, SearchError>)] = &[
    ((0, 0x7f), (0, 0x7f), Ok(Fit::Taken)),
    ((0, 0x7e), (4, 1), Err(SearchError::Magic)),
    ((4, 1), (5, 2), Ok(Fit::PassedOver)),
    ((18, 183), (5, 2), Ok(Fit::PassedOver)),
    ((18, 183), (9, 1), Ok(Fit::PassedOver)),
    ((18, 183), (20, 2), Err(SearchError::Version)),
    ((18, 183), (16, 1), Ok(Fit::PassedOver)),
    ((5, 2), (6, 0), Err(SearchError::ByteOrder)),
    ((6, 0), (7, 9), Err(SearchError::IdentVersion)),
    ((7, 9), (8, 1), Err(SearchError::OsAbi)),
    ((8, 1), (9, 1), Err(SearchError::AbiVersion)),
    ((7, 3), (8, 3), Ok(Fit::Taken)),
    ((7, 3), (8, 4), Err(SearchError::AbiVersion)),
    ((15, 1), (20, 2), Err(SearchError::Padding)),
    ((20, 2), (16, 1), Err(SearchError::Version)),
    ((16, 2), (16, 2), Ok(Fit::Taken)),
    ((16, 1), (54, 55), Err(SearchError::Type)),
    ((54, 55), (56, 9), Err(SearchError::EntrySize)),
    ((56, 3), (56, 3), Err(SearchError::FileData)),
    ((39, 0x80), (39, 0x80), Err(SearchError::FileData)),
    ((39, 0x7f), (56, 0), Ok(Fit::Taken)),
    ((39, 0x80), (56, 0), Err(SearchError::FileData)),
];

// A header with another value of the byte at an offset.
fn with_byte(mut head: [u8; 64], change: (usize, u8)) -> [u8; 64] {
    if let Some(byte) = head.get_mut(change.0) {
        *byte = change.1;
    }
    head
}

#[test]
fn the_first_test_that_fails_decides(rt: HostRuntime) {
    for &(first, second, wanted) in CHANGES {
        let head = with_byte(with_byte(HEAD, first), second);
        want_at(&rt, (first, second), fits(&head, LENGTH, 2, 62), wanted);
    }
}

#[test]
fn a_file_has_a_whole_header(rt: HostRuntime) {
    let short = Err(SearchError::ShortFile);
    want_at(&rt, 63, fits(&HEAD[..63], 63, 2, 62), short);
    want_at(&rt, 0, fits(&[], 0, 2, 62), short);
    want_at(&rt, 52, fits(&HEAD[..52], 52, 1, 3), Ok(Fit::PassedOver));
    want_at(&rt, 51, fits(&HEAD[..51], 51, 1, 3), short);
}
