//! The lists of directories in which a name is looked for.

ghost use Rattle.std.specs.Prelude.{◌≡◌, ◌+◌, ◌<◌, ◌^◌, IfSome, option_map, slice_get, take};
ghost use Rattle.elf_search.specs.Lists.{are_same, candidate_in, candidate_parts, candidate_path};
ghost use Rattle.elf_search.specs.Elements.{pieces_left};
ghost use Rattle.elf_search.specs.Lists.{directory_in, elements_in, has_directory_in, is_kept};
ghost use Rattle.elf_search.specs.Lists.{is_repeated, list_parts};
ghost use Rattle.elf_search.specs.Paths.{directory_left, path_left};

use crate::elements::split_piece;
use crate::paths::{DirectoryBytes, PathBytes, has_directory, is_same};
use crate::tokens::TokenValues;

/// How a candidate is found: by which list.
#[derive(Clone, Copy, Debug, PartialEq, Eq)]
pub enum How {
    /// The name contains a slash, and is the path.
    Itself,
    /// The DT_RPATH of an object, by its place in the chain of loaders.
    Rpath(usize),
    /// LD_LIBRARY_PATH.
    Environment,
    /// The DT_RUNPATH of the object that asks.
    Runpath,
    /// The cache of libraries.
    Cache,
    /// The directories of ld.so.conf, where there is no cache.
    Conf,
    /// The default directories.
    Default,
}

// A list of directories, or one path.
#[derive(Clone, Copy, Debug)]
pub(crate) struct SearchList<'s> {
    pub(crate) how: How,
    pub(crate) text: &'s [u8],
    // The bytes that end an element.
    pub(crate) separators: &'s [u8],
    pub(crate) values: TokenValues<'s>,
    // Whether the text is one path.
    pub(crate) is_path: bool,
    // Whether it has no subdirectories.
    pub(crate) is_plain: bool,
    pub(crate) subdirectories: &'s [&'s [u8]],
    pub(crate) name: &'s [u8],
}

impl<'s> SearchList<'s> {
    // The directory that an element names.
    fn directory(&self, element: &'s [u8]) -> DirectoryBytes<'s>
        ensures { directory_left result ≡ directory_in (list_parts self.now) element.now }
    {
        DirectoryBytes::of(element, &self.values)
    }

    // Whether an element names a directory.
    fn has_directory(&self, element: &[u8]) -> bool
        ensures { result ≡ has_directory_in (list_parts self.now) element.now }
    {
        self.is_path || has_directory(element, &self.values)
    }

    // Whether two elements name the same directory.
    fn are_same(&self, first: &'s [u8], second: &'s [u8]) -> bool
        ensures { result ≡ are_same (list_parts self.now) first.now second.now }
    {
        self.has_directory(first) && is_same(self.directory(first), self.directory(second))
    }

    // The text of the elements, if there is one.
    fn elements(&self) -> Option<&'s [u8]>
        ensures { pieces_left self.now.separators.now result ≡ elements_in (list_parts self.now) }
    {
        if self.text.is_empty() {
            return None;
        }
        Some(self.text)
    }

    // Whether an element before an index names the same directory as this one: one pass over the list.
    fn is_repeated(&self, index: usize, element: &'s [u8]) -> bool
        ensures { result ≡ is_repeated (list_parts self.now)
            (take index (elements_in (list_parts self.now))) element.now }
    {
        let mut rest = self.elements();
        for _place in 0..index {
            let Some(text) = rest else {
                return false;
            };
            let (earlier, others) = split_piece(text, self.separators);
            if self.are_same(earlier, element) {
                return true;
            }
            rest = others;
        }
        false
    }

    // The subdirectory at an index; a list without subdirectories has the empty one alone.
    #[tactic(auto, using(crate::proofs::ListSteps::subdirectory_some, crate::proofs::ListSteps::subdirectory_none))]
    pub(crate) fn subdirectory_at(&self, index: usize) -> Option<&'s [u8]>
        ensures value { option_map (λ bytes. bytes.now) result
            ≡ slice_get (list_parts self.now).subdirectories index }
        ensures below { IfSome result (λ _. index + 1 < 2 ^ 64) }
    {
        if self.is_plain {
            if index == 0 {
                return Some(&[]);
            }
            return None;
        }
        if index < self.subdirectories.len() {
            return Some(self.subdirectories[index]);
        }
        None
    }

    // Whether the element at an index gives candidates: it names a directory, and none before it
    // names the same.
    pub(crate) fn keeps(&self, index: usize, element: &'s [u8]) -> bool
        ensures { result ≡ is_kept (list_parts self.now)
            (take index (elements_in (list_parts self.now))) element.now }
    {
        self.has_directory(element) && !self.is_repeated(index, element)
    }
}

/// A path at which a name is looked for.
#[derive(Clone, Copy, Debug)]
pub struct Candidate<'s> {
    how: How,
    // The element of the list, or the path.
    element: &'s [u8],
    values: TokenValues<'s>,
    is_path: bool,
    subdirectory: &'s [u8],
    name: &'s [u8],
}

impl<'s> Candidate<'s> {
    // The candidate of an element of a list in a subdirectory.
    pub(crate) fn of(list: &SearchList<'s>, element: &'s [u8], subdirectory: &'s [u8]) -> Self
        ensures { candidate_parts result
            ≡ candidate_in (list_parts list.now) element.now subdirectory.now }
    {
        Candidate {
            how: list.how,
            element,
            values: list.values,
            is_path: list.is_path,
            subdirectory,
            name: list.name,
        }
    }

    /// By which list it is found.
    pub fn how(&self) -> How
        ensures { result ≡ (candidate_parts self.now).how }
    {
        self.how
    }

    /// The subdirectory, with its slash; empty for the directory itself.
    pub fn subdirectory(&self) -> &'s [u8]
        ensures { result.now ≡ (candidate_parts self.now).subdirectory }
    {
        if self.is_path { &[] } else { self.subdirectory }
    }

    /// The bytes of the path: those of the directory with a slash, of the subdirectory and of the
    /// name.
    pub fn path(&self) -> PathBytes<'s>
        ensures { path_left result ≡ candidate_path (candidate_parts self.now) }
    {
        if self.is_path {
            return PathBytes {
                directory: DirectoryBytes::none(),
                subdirectory: self.element,
                name: &[],
            };
        }
        PathBytes {
            directory: DirectoryBytes::of(self.element, &self.values),
            subdirectory: self.subdirectory,
            name: self.name,
        }
    }
}
