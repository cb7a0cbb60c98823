//! The names of the libraries that an object asks for, and the last entry of a tag (gABI, "Dynamic
//! Section"; DT_AUXILIARY and DT_FILTER of Solaris and GNU).

ghost use Rattle.std.specs.Prelude.{◌≡◌, None, option_map};
ghost use Rattle.elf_linking.specs.DynamicView.{bytes_in_strings, view_entries, view_strings};
ghost use Rattle.elf_linking.specs.Loaded.{lent};
ghost use Rattle.elf_search.specs.Names.{kind_of, last_number, name_parts, names_in, names_left};
ghost use Rattle.elf_search.specs.Names.{last_text_of};

use elf_base::bytes::bytes_up_to_zero;
use elf_linking::LinkError;
use elf_linking::view::{DT_AUXILIARY, DT_FILTER, DT_NEEDED, DynamicEntries, DynamicView};

/// What an object asks for by an entry of its dynamic segment.
#[derive(Clone, Copy, Debug, PartialEq, Eq)]
pub enum NameKind {
    /// A library that it needs (DT_NEEDED).
    Needed,
    /// A library that is searched before it, if there is one (DT_AUXILIARY).
    Auxiliary,
    /// A library that is searched in place of it (DT_FILTER).
    Filter,
}

/// A name that an object asks for.
#[derive(Clone, Copy, Debug)]
pub struct NeededName<'a> {
    /// What the object asks for.
    pub kind: NameKind,
    /// The name as it is in the string table, with its tokens; the errors are those of
    /// `view::strings` and of `bytes::bytes_up_to_zero`.
    pub name: Result<&'a [u8], LinkError>,
}

// What an entry with this tag asks for, if it asks for a library.
fn kind_of(tag: u64) -> Option<NameKind>
    ensures { result ≡ kind_of tag }
{
    match tag {
        DT_NEEDED => Some(NameKind::Needed),
        DT_AUXILIARY => Some(NameKind::Auxiliary),
        DT_FILTER => Some(NameKind::Filter),
        _ => None,
    }
}

// The bytes at an offset in a string table up to the next zero byte.
fn bytes_at_offset<'a>(
    strings: Result<&'a [u8], LinkError>,
    place: u64,
) -> Result<&'a [u8], LinkError>
    ensures { lent result ≡ bytes_in_strings (lent strings.entry) place }
{
    Ok(bytes_up_to_zero(strings?, place as usize)?)
}

/// An iterator over the names that an object asks for, in the order of its entries.
#[derive(Clone, Debug, Drop)]
pub struct NeededNames<'a> {
    entries: DynamicEntries<'a>,
    strings: Result<&'a [u8], LinkError>,
}

/// The names of the libraries that an object asks for: those of the entries DT_NEEDED, DT_AUXILIARY
/// and DT_FILTER before the first DT_NULL, in order.
pub fn needed_names<'a>(view: &DynamicView<'a>) -> NeededNames<'a>
    ensures { names_left result ≡ names_in (view_strings view.now) (view_entries view.now) }
{
    NeededNames {
        entries: view.entries(),
        strings: view.strings(),
    }
}

impl<'a> Iterator for NeededNames<'a> {
    ghost use Rattle.std.specs.Iterator.{YieldsFirstBy, item_count};

    type Item = NeededName<'a>;

    ghost next_gives = { YieldsFirstBy name_parts names_left };

    ghost remaining = { item_count names_left };

    #[tactic(auto, using(crate::proofs::NameEntries::names_none, crate::proofs::NameEntries::names_first, crate::proofs::NameEntries::names_other))]
    fn next(&mut self) -> Option<NeededName<'a>> {
        loop {
            let entry = self.entries.next()?;
            if let Some(kind) = kind_of(entry.raw_tag()) {
                let name = bytes_at_offset(self.strings, entry.raw_val());
                return Some(NeededName { kind, name });
            }
        }
    }
}

/// The number in the last entry with a tag before the first DT_NULL. `ld.so` reads the last of
/// DT_SONAME, DT_RPATH, DT_RUNPATH and DT_FLAGS_1, where `DynamicView::entry` reads the first.
#[tactic(auto, using(crate::proofs::NameEntries::last_none, crate::proofs::NameEntries::last_hit, crate::proofs::NameEntries::last_other))]
pub fn last_entry(view: &DynamicView<'_>, tag: u64) -> Option<u64>
    ensures { result ≡ last_number tag None (view_entries view.now) }
{
    let mut last = None;
    for entry in view.entries() {
        if entry.raw_tag() == tag {
            last = Some(entry.raw_val());
        }
    }
    last
}

/// The bytes at the number in the last entry with a tag, as `last_entry` finds it; the errors are
/// those of a name of `needed_names`.
pub fn last_text<'a>(view: &DynamicView<'a>, tag: u64) -> Option<Result<&'a [u8], LinkError>>
    ensures { option_map lent result ≡ last_text_of tag (view_strings view.now) (view_entries view.now) }
{
    match last_entry(view, tag) {
        Some(place) => Some(bytes_at_offset(view.strings(), place)),
        None => None,
    }
}
