//! The names of needed libraries as bytes (gABI, "Dynamic Section": DT_NEEDED).

ghost use Rattle.std.specs.Prelude.{◌≡◌, ◌<◌, ◌^◌, IfOk, IfSome, IsOkAnd, length};
ghost use Rattle.elf_base.specs.Lent.{LiesAt};
ghost use Rattle.elf_linking.specs.DynamicView.{LiesAsNeeded, bytes_in_strings, entries_left};
ghost use Rattle.elf_linking.specs.DynamicView.{needed_bytes_in, needed_bytes_left, needed_table};
ghost use Rattle.elf_linking.specs.Loaded.{lent};

use crate::LinkError;
use crate::view::entries::DynamicEntries;
use crate::view::tags::DT_NEEDED;
use elf_base::bytes::bytes_up_to_zero;

// The bytes at an offset in a string table up to the next zero byte, which may be an error.
fn bytes_at_offset<'a>(
    strings: Result<&'a [u8], LinkError>,
    place: u64,
) -> Result<&'a [u8], LinkError>
    ensures exact { lent result ≡ bytes_in_strings (lent strings.entry) place }
    ensures place { IfOk result (λ name. IsOkAnd strings.entry (λ table. LiesAt table place name)) }
{
    Ok(bytes_up_to_zero(strings?, place as usize)?)
}

/// An iterator over the names of the libraries that a file needs as bytes, whether or not they are
/// UTF-8, in order.
///
/// The errors of an item are those of `view::strings`, and those of `bytes::bytes_up_to_zero`.
#[derive(Clone, Debug, Drop)]
pub struct NeededBytes<'a> {
    entries: DynamicEntries<'a>,
    strings: Result<&'a [u8], LinkError>,
}

impl<'a> NeededBytes<'a> {
    ghost use Rattle.std.specs.Iterator.{YieldsFirstBy};

    #[tactic(auto, using(crate::proofs::NeededItems::needed_fits))]
    pub(crate) fn new(
        entries: DynamicEntries<'a>,
        strings: Result<&'a [u8], LinkError>,
    ) -> NeededBytes<'a>
        requires { length (entries_left entries) < 2 ^ 64 }
        ensures items { needed_bytes_left result
            ≡ needed_bytes_in (lent strings.entry) (entries_left entries.entry) }
        ensures table { needed_table result ≡ strings.entry }
        ensures fits { length (needed_bytes_left result) < 2 ^ 64 }
    {
        NeededBytes { entries, strings }
    }

    /// The next name. It is `Iterator::next` with a contract for the place of the name.
    #[tactic(auto, using(crate::proofs::NeededItems::needed_none, crate::proofs::NeededItems::needed_first, crate::proofs::NeededItems::needed_other, crate::proofs::NeededItems::number_first, crate::proofs::NeededItems::number_other))]
    pub fn next(&mut self) -> Option<Result<&'a [u8], LinkError>>
        ensures next { YieldsFirstBy lent needed_bytes_left self.old result self.new }
        ensures place { IfSome result (LiesAsNeeded self.old) }
        ensures table { needed_table self.new ≡ needed_table self.old }
    {
        loop {
            let entry = self.entries.next()?;
            if entry.raw_tag() == DT_NEEDED {
                return Some(bytes_at_offset(self.strings, entry.raw_val()));
            }
        }
    }
}

impl<'a> Iterator for NeededBytes<'a> {
    ghost use Rattle.std.specs.Iterator.{YieldsFirstBy, item_count};

    type Item = Result<&'a [u8], LinkError>;

    ghost next_gives = { YieldsFirstBy lent needed_bytes_left };

    ghost remaining = { item_count needed_bytes_left };

    fn next(&mut self) -> Option<Result<&'a [u8], LinkError>> {
        NeededBytes::next(self)
    }
}
