//! The mappings of a file, in the order of their addresses.

ghost use Rattle.std.specs.Prelude.{◌≡◌, ◌<◌, true};
ghost use Rattle.std.specs.List.{list_all};
ghost use Rattle.elf_loading.specs.LoadCheck.{fits_below};
ghost use Rattle.elf_loading.specs.Loads.{loads_left};

use crate::load_check::load_end;
use crate::loads::Loads;
use crate::mapping::{Loader, Mapping, Parts};
use crate::plan::LoadPlan;
use xmas_elf::program::Flags;

/// An iterator over the mappings of a file, in the order of their addresses.
#[derive(Debug, Drop)]
pub struct Mappings<'a> {
    pub(crate) loads: Loads<'a>,
    pub(crate) page: u64,
    pub(crate) limit: u64,
    pub(crate) by: Loader,
    // The end of the load before the next.
    pub(crate) before: Option<u64>,
    pub(crate) parts: Parts,
    ghost paged: { 0 < page },
    ghost fit: { list_all (fits_below page limit) (loads_left loads) ≡ true },
}

impl<'a> LoadPlan<'a> {
    ghost use Rattle.std.specs.Prelude.{None};
    ghost use Rattle.elf_loading.specs.Mappings.{FollowEachOther, mappings_of};
    ghost use Rattle.elf_loading.specs.MappingsLeft.{mappings_left};
    ghost use Rattle.elf_loading.specs.Plan.{plan_loads};
    ghost use Rattle.elf_loading.specs.Spans.{span_of};

    /// What a loader maps before relocation, in the order of addresses.
    #[tactic(auto, unfolding(crate::specs::MappingsLeft::mappings_left), using(crate::proofs::FileChecks::passes_fit, crate::proofs::PartsLeft::nothing_left))]
    pub fn mappings(&self, by: Loader) -> Mappings<'a>
        ensures all { mappings_left result
            ≡ mappings_of self.now.page by None (plan_loads self.now) }
        ensures follow { let span = span_of self.now.page (plan_loads self.now) in
            FollowEachOther span.start span.end
            (mappings_of self.now.page by None (plan_loads self.now)) }
    {
        Mappings {
            loads: self.loads(),
            page: self.page,
            limit: self.limit,
            by,
            before: None,
            parts: Parts {
                at: 0,
                start: 0,
                middle: 0,
                end: 0,
                flags: Flags(0),
                offset: 0,
            },
        }
    }
}

impl Iterator for Mappings<'_> {
    ghost use Rattle.std.specs.Iterator.{YieldsFirst, item_count};
    ghost use Rattle.elf_loading.specs.MappingsLeft.{mappings_left};

    type Item = Mapping;

    ghost next_gives = { YieldsFirst mappings_left };

    ghost remaining = { item_count mappings_left };

    #[inline(always)]
    #[tactic(auto, unfolding(crate::specs::MappingsLeft::mappings_left), using(crate::proofs::Lists::fits_first, crate::proofs::Lists::fits_rest, crate::proofs::PartsLeft::parts_none, crate::proofs::PartsLeft::parts_first, crate::proofs::PartsLeft::parts_load, crate::proofs::PartsLeft::no_loads))]
    fn next(&mut self) -> Option<Mapping> {
        let mut parts = self.parts;
        loop {
            if let Some(mapping) = parts.next() {
                self.parts = parts;
                return Some(mapping);
            }
            let Some(load) = self.loads.step() else {
                self.parts = parts;
                return None;
            };
            parts = Parts::of(self.page, self.limit, self.by, self.before, &load);
            self.before = Some(load_end(self.page, self.limit, &load));
        }
    }
}
