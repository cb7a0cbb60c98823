//! The loads of a file, one after the other.

ghost use Rattle.std.specs.Prelude.{◌≡◌, length};
ghost use Rattle.elf_loading.specs.LoadsAmong.{loads_among};

use crate::segments::{PT_LOAD, sort};
use elf_linking::{Segment, Segments};
use xmas_elf::ElfFile;

// The loads of a file, in the order of its program headers.
#[derive(Clone, Copy, Debug)]
pub(crate) struct Loads<'a> {
    pub(crate) segments: Segments<'a>,
    // The number of loads that are left. After the last no program header is read.
    pub(crate) left: u16,
    ghost counted: { left ≡ length (loads_among segments) },
}

impl<'a> Loads<'a> {
    ghost use Rattle.std.specs.Iterator.{YieldsFirst};
    ghost use Rattle.elf_loading.specs.Loads.{loads_left};
    ghost use Rattle.elf_loading.specs.Segments.{loads_of};

    // All loads of a file.
    pub(crate) fn of(file: &ElfFile<'a>) -> Loads<'a>
        ensures { loads_left result ≡ loads_of file.now }
    {
        sort(Segments::of(file)).loads
    }

    // The next load.
    #[tactic(auto, using(crate::proofs::Lists::load_kept, crate::proofs::Lists::load_skipped, crate::proofs::Lists::some_more, crate::proofs::Lists::none_left, crate::proofs::Lists::count_kept))]
    #[inline(always)]
    pub(crate) fn step(&mut self) -> Option<Segment>
        ensures { YieldsFirst loads_left self.old result self.new }
    {
        if self.left == 0 {
            return None;
        }
        let mut segments = self.segments;
        while segments.kind() != PT_LOAD {
            segments = segments.rest();
        }
        *self = Loads {
            segments: segments.rest(),
            left: self.left - 1,
        };
        Some(segments.segment())
    }
}

impl Iterator for Loads<'_> {
    ghost use Rattle.std.specs.Iterator.{YieldsFirst, item_count};
    ghost use Rattle.elf_loading.specs.Loads.{loads_left};

    type Item = Segment;

    ghost next_gives = { YieldsFirst loads_left };

    ghost remaining = { item_count loads_left };

    #[inline(always)]
    fn next(&mut self) -> Option<Segment> {
        self.step()
    }
}
