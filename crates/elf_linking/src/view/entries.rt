//! The entries of a dynamic segment in order (gABI, "Dynamic Section", DT_NULL).

ghost use Rattle.std.specs.Prelude.{◌≡◌, ◌<◌, ◌^◌, Ok, Err, MatchResult, length};
ghost use Rattle.std.specs.Iterator.{YieldsFirst, item_count};
ghost use Rattle.elf_base.specs.FileHeader.{file_class, file_order};
ghost use Rattle.elf_linking.specs.DynamicView.{all_entries, entries_left};
ghost use Rattle.elf_linking.specs.DynamicView.{pairs_left, pairs_of, until_null};

use crate::LinkError;
use crate::view::tags::DT_NULL;
use elf_base::ElfError;
use elf_base::bytes::{Table, TableIter};
use elf_base::header::Class;
use xmas_elf::dynamic::Dynamic;
use xmas_elf::{ElfFile, P32, P64};

// The entries of a dynamic segment, by class.
#[derive(Clone, Copy, Debug)]
pub(crate) enum Pairs<'a> {
    Narrow(Table<'a, Dynamic<P32>>),
    Wide(Table<'a, Dynamic<P64>>),
}

impl<'a> Pairs<'a> {
    // The entries in these bytes of a file; the errors are those of `DynamicView::read`.
    pub(crate) fn new(bytes: &'a [u8], file: &ElfFile<'_>) -> Result<Pairs<'a>, LinkError>
        ensures { let answer = all_entries
            (file_class file.now.header) (file_order file.now.header) bytes.now in
            MatchResult result (λ pairs. answer ≡ Ok (pairs_of pairs))
            (λ error. answer ≡ Err error) }
    {
        let order = file.byte_order();
        match file.header.pt1.class() {
            Class::ThirtyTwo => match Table::new(bytes, order) {
                Ok(table) => Ok(Pairs::Narrow(table)),
                Err(error) => Err(LinkError::Elf(error)),
            },
            Class::SixtyFour => match Table::new(bytes, order) {
                Ok(table) => Ok(Pairs::Wide(table)),
                Err(error) => Err(LinkError::Elf(error)),
            },
            Class::None | Class::Other(_) => Err(LinkError::Elf(ElfError::UnknownClass)),
        }
    }

    // An iterator over the entries.
    pub(crate) fn iter(&self) -> DynamicEntries<'a>
        ensures items { entries_left result ≡ until_null (pairs_of self.now) }
        ensures fits { length (entries_left result) < 2 ^ 64 }
    {
        match self {
            Pairs::Narrow(table) => DynamicEntries::new(Rest::Narrow(table.iter())),
            Pairs::Wide(table) => DynamicEntries::new(Rest::Wide(table.iter())),
        }
    }
}

// The remaining entries, by class.
#[derive(Clone, Debug, Drop)]
enum Rest<'a> {
    Narrow(TableIter<'a, Dynamic<P32>>),
    Wide(TableIter<'a, Dynamic<P64>>),
}

impl Rest<'_> {
    // The first remaining entry.
    fn next(&mut self) -> Option<Dynamic<P64>>
        ensures { YieldsFirst pairs_left self.old result self.new }
    {
        match self {
            Rest::Narrow(rest) => Some(rest.next()?.widened()),
            Rest::Wide(rest) => rest.next(),
        }
    }
}

/// An iterator over the entries of a dynamic segment, up to the first with tag Null, which it does
/// not return.
#[derive(Clone, Debug, Drop)]
pub struct DynamicEntries<'a> {
    rest: Rest<'a>,
    // Whether it has reached the entry with tag Null.
    ended: bool,
}

impl<'a> DynamicEntries<'a> {
    #[tactic(auto, using(crate::proofs::EntryItems::until_null_fits))]
    fn new(rest: Rest<'a>) -> DynamicEntries<'a>
        requires { length (pairs_left rest) < 2 ^ 64 }
        ensures items { entries_left result ≡ until_null (pairs_left rest.entry) }
        ensures fits { length (entries_left result) < 2 ^ 64 }
    {
        DynamicEntries { rest, ended: false }
    }
}

impl Iterator for DynamicEntries<'_> {
    type Item = Dynamic<P64>;

    ghost next_gives = { YieldsFirst entries_left };

    ghost remaining = { item_count entries_left };

    #[tactic(auto, using(crate::proofs::EntryItems::left_ended, crate::proofs::EntryItems::left_none, crate::proofs::EntryItems::left_null, crate::proofs::EntryItems::left_first, crate::proofs::EntryItems::left_going))]
    fn next(&mut self) -> Option<Dynamic<P64>> {
        if self.ended {
            return None;
        }
        let entry = self.rest.next()?;
        if entry.raw_tag() == DT_NULL {
            self.ended = true;
            return None;
        }
        Some(entry)
    }
}
