//! The directory that an element of a search path names, and the path of a candidate, as bytes.

ghost use Rattle.std.specs.Prelude.{◌≡◌, ◌==◌, ◌&&◌, [], false, nat_eq, true};
ghost use Rattle.std.specs.Cmp.Lexicographic.{pointwise};
ghost use Rattle.std.specs.Iterator.{YieldsFirst, item_count};
ghost use Rattle.elf_search.specs.Paths.{are_slashes, directory_bytes, directory_left, has_directory};
ghost use Rattle.elf_search.specs.Paths.{path_left};
ghost use Rattle.elf_search.specs.Tokens.{expanded_left, values_of};

use crate::tokens::{Expanded, TokenValues, expand};

// Whether all bytes are slashes.
#[tactic(auto, using(crate::proofs::PathSteps::slashes_end, crate::proofs::PathSteps::slashes_other, crate::proofs::PathSteps::slashes_slash))]
fn are_slashes(bytes: Expanded<'_>) -> bool
    ensures { result ≡ are_slashes (expanded_left bytes.entry) }
{
    for byte in bytes {
        if byte != b'/' {
            return false;
        }
    }
    true
}

// Whether a byte is a slash before nothing but slashes.
fn is_lone_slash(byte: u8, rest: Expanded<'_>) -> bool
    ensures { result ≡ (byte == 47 && are_slashes (expanded_left rest.entry)) }
{
    byte == b'/' && are_slashes(rest)
}

// The bytes of a directory: those of an element with its tokens expanded, without slashes at the
// end, and one slash. A lone slash stays as it is.
#[derive(Clone, Copy, Debug, Drop)]
pub(crate) struct DirectoryBytes<'s> {
    bytes: Expanded<'s>,
    is_first: bool,
    is_done: bool,
}

impl<'s> DirectoryBytes<'s> {
    // The directory that an element names; the empty element is the current directory, before which
    // nothing stands.
    pub(crate) fn of(element: &'s [u8], values: &TokenValues<'s>) -> DirectoryBytes<'s>
        ensures { directory_left result ≡ directory_bytes (values_of values.now) element.now }
    {
        DirectoryBytes {
            bytes: expand(element, values),
            is_first: true,
            is_done: false,
        }
    }

    // No bytes.
    pub(crate) fn none() -> DirectoryBytes<'s>
        ensures { directory_left result ≡ [] }
    {
        let values = TokenValues {
            origin: None,
            lib: None,
            platform: None,
        };
        DirectoryBytes {
            bytes: expand(&[], &values),
            is_first: false,
            is_done: true,
        }
    }

    // The next byte of a directory of which none was returned.
    #[tactic(auto, using(crate::proofs::PathSteps::first_step, crate::proofs::PathSteps::first_end, crate::proofs::PathSteps::first_lone, crate::proofs::PathSteps::first_byte, crate::proofs::PathSteps::first_root))]
    fn first(&mut self) -> Option<u8>
        requires new { self.old.is_first ≡ true }
        requires going { self.old.is_done ≡ false }
        ensures { YieldsFirst directory_left self.old result self.new }
    {
        self.is_first = false;
        let Some(byte) = self.bytes.next() else {
            self.is_done = true;
            return None;
        };
        self.is_done = is_lone_slash(byte, self.bytes);
        Some(byte)
    }
}

impl Iterator for DirectoryBytes<'_> {
    type Item = u8;

    ghost next_gives = { YieldsFirst directory_left };

    ghost remaining = { item_count directory_left };

    #[tactic(auto, using(crate::proofs::PathSteps::slashes_end, crate::proofs::PathSteps::later_end, crate::proofs::PathSteps::later_byte))]
    fn next(&mut self) -> Option<u8> {
        if self.is_done {
            return None;
        }
        if self.is_first {
            return self.first();
        }
        if are_slashes(self.bytes) {
            self.is_done = true;
            return Some(b'/');
        }
        let byte = self.bytes.next()?;
        Some(byte)
    }
}

// Whether an element names a directory: it is empty, or not empty with its tokens expanded.
#[tactic(auto, using(crate::proofs::PathSteps::some_end, crate::proofs::PathSteps::some_byte))]
pub(crate) fn has_directory(element: &[u8], values: &TokenValues<'_>) -> bool
    ensures { result ≡ has_directory (values_of values.now) element.now }
{
    if element.is_empty() {
        return true;
    }
    let mut bytes = expand(element, values);
    match bytes.next() {
        Some(_) => true,
        None => false,
    }
}

// Whether two directories have the same bytes.
#[tactic(auto, using(crate::proofs::PathSteps::same_end, crate::proofs::PathSteps::same_shorter, crate::proofs::PathSteps::same_longer, crate::proofs::PathSteps::same_other, crate::proofs::PathSteps::same_byte))]
pub(crate) fn is_same(first: DirectoryBytes<'_>, second: DirectoryBytes<'_>) -> bool
    ensures { result ≡ pointwise nat_eq (directory_left first.entry) (directory_left second.entry) }
{
    let mut left = first;
    let mut right = second;
    loop {
        let Some(byte) = left.next() else {
            return match right.next() {
                Some(_) => false,
                None => true,
            };
        };
        let Some(other) = right.next() else {
            return false;
        };
        if byte != other {
            return false;
        }
    }
}

/// The bytes of the path of a candidate, in order.
#[derive(Clone, Copy, Debug, Drop)]
pub struct PathBytes<'s> {
    pub(crate) directory: DirectoryBytes<'s>,
    pub(crate) subdirectory: &'s [u8],
    pub(crate) name: &'s [u8],
}

impl Iterator for PathBytes<'_> {
    type Item = u8;

    ghost next_gives = { YieldsFirst path_left };

    ghost remaining = { item_count path_left };

    fn next(&mut self) -> Option<u8> {
        if let Some(byte) = self.directory.next() {
            return Some(byte);
        }
        if let Some((byte, others)) = self.subdirectory.split_first() {
            self.subdirectory = others;
            return Some(*byte);
        }
        let (byte, others) = self.name.split_first()?;
        self.name = others;
        Some(*byte)
    }
}
