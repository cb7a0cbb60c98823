//! What a loader maps, and with which permissions.

ghost use Rattle.std.specs.Prelude.{◌≡◌, ◌<◌, true};
ghost use Rattle.std.specs.Iterator.{YieldsFirst};
ghost use Rattle.elf_loading.specs.LoadCheck.{fits_below};
ghost use Rattle.elf_loading.specs.MappingParts.{parts_of, parts_rest};
ghost use Rattle.elf_loading.specs.Mappings.{mapped_end};

use crate::load_check::{file_end, load_end};
use crate::pages::down;
use elf_linking::Segment;
use xmas_elf::program::Flags;

/// Whose way of mapping: they differ in what they leave in the rest of a page.
#[derive(Clone, Copy, Debug, PartialEq, Eq)]
pub enum Loader {
    /// Linux, which maps a program and its interpreter. After the bytes of a load segment that has
    /// more bytes in memory it writes zeros to the end of the page.
    Kernel,
    /// glibc, which maps libraries. It writes zeros only up to the end of the load segment, maps the
    /// pages between load segments without access, and maps a page of the file for a load segment
    /// without bytes that begins inside a page.
    Glibc,
}

/// What a mapping holds.
#[derive(Clone, Copy, Debug, PartialEq, Eq)]
pub enum Contents {
    /// Pages of the file, from this offset on.
    File(u64),
    /// Zeros.
    Zero,
    /// Nothing that can be read.
    NoAccess,
}

/// Pages that are mapped at once.
#[derive(Clone, Copy, Debug, PartialEq, Eq)]
pub struct Mapping {
    /// The first address, relative to the base.
    pub start: u64,
    /// The first address after the pages.
    pub end: u64,
    /// The permissions: those of the load segment, and none for `NoAccess`.
    pub flags: Flags,
    /// What the pages hold.
    pub contents: Contents,
}

// The end of the pages of the file that a loader maps for a load.
#[inline(always)]
pub(crate) fn mapped_end(page: u64, limit: u64, by: Loader, load: &Segment) -> u64
    requires page { 0 < page }
    requires fits { fits_below page limit load.now ≡ true }
    ensures { result ≡ mapped_end page by load.now }
{
    let mapped = match by {
        Loader::Kernel => load.file_size != 0,
        Loader::Glibc => true,
    };
    if mapped {
        return file_end(page, limit, load);
    }
    down(page, load.address)
}

// The mappings of a load that are still to be returned: those from the address `at` on. What is
// before `start` is the gap before the load.
#[derive(Clone, Copy, Debug)]
pub(crate) struct Parts {
    pub(crate) at: u64,
    pub(crate) start: u64,
    // The end of the pages of the file.
    pub(crate) middle: u64,
    pub(crate) end: u64,
    pub(crate) flags: Flags,
    // The offset of the first page.
    pub(crate) offset: u64,
}

impl Parts {
    // The mappings of a load, and of the gap before it.
    #[inline(always)]
    pub(crate) fn of(
        page: u64,
        limit: u64,
        by: Loader,
        before: Option<u64>,
        load: &Segment,
    ) -> Parts
        requires page { 0 < page }
        requires fits { fits_below page limit load.now ≡ true }
        ensures { result ≡ parts_of page by before load.now }
    {
        let start = down(page, load.address);
        let at = match (by, before) {
            (Loader::Glibc, Some(before)) => before.min(start),
            _ => start,
        };
        Parts {
            at,
            start,
            middle: mapped_end(page, limit, by, load),
            end: load_end(page, limit, load),
            flags: load.flags,
            offset: down(page, load.offset),
        }
    }

    // Returns the first of them, and removes it.
    #[tactic(auto, using(crate::proofs::PartsLeft::gap_first, crate::proofs::PartsLeft::pages_first, crate::proofs::PartsLeft::zeros_first, crate::proofs::PartsLeft::parts_end))]
    #[inline(always)]
    pub(crate) fn next(&mut self) -> Option<Mapping>
        ensures { YieldsFirst parts_rest self.old result self.new }
    {
        let start = self.at;
        if start < self.start {
            self.at = self.start;
            return Some(Mapping {
                start,
                end: self.start,
                flags: Flags(0),
                contents: Contents::NoAccess,
            });
        }
        if start < self.middle {
            self.at = self.middle;
            return Some(Mapping {
                start,
                end: self.middle,
                flags: self.flags,
                contents: Contents::File(self.offset),
            });
        }
        if start < self.end {
            self.at = self.end;
            return Some(Mapping {
                start,
                end: self.end,
                flags: self.flags,
                contents: Contents::Zero,
            });
        }
        None
    }
}
