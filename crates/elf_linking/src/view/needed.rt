//! Texts at offsets in entries of a dynamic segment
//! (gABI, "Dynamic Section": DT_NEEDED and others).

ghost use Rattle.std.specs.Prelude.{◌≡◌, ◌<◌, ◌^◌, length};
ghost use Rattle.std.specs.Str.{bytes_eq};
ghost use Rattle.elf_linking.specs.DynamicView.{entries_left, needed_in, needed_left};
ghost use Rattle.elf_linking.specs.DynamicView.{text_in_strings};
ghost use Rattle.elf_linking.specs.Loaded.{lent};
ghost use Rattle.elf_linking.specs.VersionTables.{result_map};

use crate::LinkError;
use crate::view::entries::DynamicEntries;
use crate::view::tags::DT_NEEDED;
use elf_base::bytes::{is_found_at, text_at};

// The text at an offset in a string table, which may be an error.
pub(crate) fn text_by<'a>(
    strings: Result<&'a [u8], LinkError>,
    place: u64,
) -> Result<&'a str, LinkError>
    ensures { lent result ≡ text_in_strings (lent strings.entry) place }
{
    Ok(text_at(strings?, place as usize)?)
}

// Whether the text at an offset in a string table is `wanted`; the errors are those of `text_by`. A
// text that is the same is compared in place, and not read.
#[inline(always)]
pub(crate) fn is_text_by(
    strings: Result<&[u8], LinkError>,
    place: u64,
    wanted: &str,
) -> Result<bool, LinkError>
    ensures { result
        ≡ result_map (λ text. bytes_eq text wanted.now) (text_in_strings (lent strings.entry) place) }
{
    if let Ok(table) = strings {
        if is_found_at(table, place as usize, wanted) {
            return Ok(true);
        }
    }
    match text_by(strings, place) {
        Ok(text) => Ok(text == wanted),
        Err(error) => Err(error),
    }
}

/// An iterator over the names of the libraries that a file needs, in order.
///
/// The errors of an item are those of `view::strings`, and those of `bytes::text_at`.
#[derive(Clone, Debug, Drop)]
pub struct Needed<'a> {
    entries: DynamicEntries<'a>,
    strings: Result<&'a [u8], LinkError>,
}

impl<'a> Needed<'a> {
    #[tactic(auto, using(crate::proofs::NeededItems::needed_fits))]
    pub(crate) fn new(
        entries: DynamicEntries<'a>,
        strings: Result<&'a [u8], LinkError>,
    ) -> Needed<'a>
        requires { length (entries_left entries) < 2 ^ 64 }
        ensures items { needed_left result
            ≡ needed_in (lent strings.entry) (entries_left entries.entry) }
        ensures fits { length (needed_left result) < 2 ^ 64 }
    {
        Needed { entries, strings }
    }
}

impl<'a> Iterator for Needed<'a> {
    ghost use Rattle.std.specs.Iterator.{YieldsFirstBy, item_count};

    type Item = Result<&'a str, LinkError>;

    ghost next_gives = { YieldsFirstBy lent needed_left };

    ghost remaining = { item_count needed_left };

    #[tactic(auto, using(crate::proofs::NeededItems::needed_none, crate::proofs::NeededItems::needed_first, crate::proofs::NeededItems::needed_other))]
    fn next(&mut self) -> Option<Result<&'a str, LinkError>> {
        loop {
            let entry = self.entries.next()?;
            if entry.raw_tag() == DT_NEEDED {
                return Some(text_by(self.strings, entry.raw_val()));
            }
        }
    }
}
