//! The versions that a file defines (LSB, "Symbol Versioning": Verdef and Verdaux).

ghost use Rattle.std.specs.Prelude.{◌≡◌, ◌+◌, ◌<◌, ◌≤◌, ◌^◌, length};
ghost use Rattle.std.specs.Str.{bytes_eq};
ghost use Rattle.elf_linking.specs.Loaded.{lent};
ghost use Rattle.elf_linking.specs.VersionList.{is_base};
ghost use Rattle.elf_linking.specs.VersionTables.{AreDefinitions, definition_item, definitions_in};
ghost use Rattle.elf_linking.specs.VersionTables.{definition_at, result_map, name_offset};
ghost use Rattle.elf_linking.specs.VersionTables.{definition_parts, definitions_left, records_data};
ghost use Rattle.elf_linking.specs.Versions.{defines_number};

use crate::LinkError;
use crate::versions::records::{Chain, Records};
use crate::view::{is_text_by, text_by};

/// A version that a file defines.
#[derive(Clone, Copy, Debug)]
pub struct Definition<'a> {
    /// The flags of the definition (vd_flags); the lowest marks the base.
    pub flags: u16,
    /// The number of the version (vd_ndx) as it is in the file. Symbols refer to it by bits 0 to 14.
    pub number: u16,
    /// The hash number of the name (vd_hash), that of the ELF standard's hash tables.
    pub hash: u32,
    name: Result<u32, LinkError>,
    strings: Result<&'a [u8], LinkError>,
}

impl<'a> Definition<'a> {
    /// Whether this is the base, which names the file and no version of a symbol (VER_FLG_BASE).
    pub fn is_base(&self) -> bool
        ensures { result ≡ is_base (definition_parts self.now).flags }
    {
        self.flags % 2 == 1
    }

    // Whether it has this number, and isn't the base.
    #[inline(always)]
    pub(crate) fn has_number(&self, number: u16) -> bool
        ensures { result ≡ defines_number number (definition_parts self.now) }
    {
        self.number % 0x8000 == number && !self.is_base()
    }

    /// The offset of the name in the string table, in bytes, by the first record of names.
    ///
    /// The error is `ShortVersion` if that record extends past the end of the segment.
    pub fn name_offset(&self) -> Result<u32, LinkError>
        ensures { result ≡ (definition_parts self.now).name_offset }
    {
        self.name
    }

    /// The name of the version, by the first record of names.
    ///
    /// Errors: `ShortVersion` if that record extends past the end of the segment; those of
    /// `view::strings` and of `bytes::text_at`.
    pub fn name(&self) -> Result<&'a str, LinkError>
        ensures { lent result ≡ (definition_parts self.now).name }
    {
        match self.name {
            Ok(offset) => text_by(self.strings, u64::from(offset)),
            Err(error) => Err(error),
        }
    }

    // Whether this is the name; the errors are those of `name`.
    #[inline(always)]
    pub(crate) fn has_name(&self, name: &str) -> Result<bool, LinkError>
        ensures { result
            ≡ result_map (λ other. bytes_eq other name.now) (definition_parts self.now).name }
    {
        is_text_by(self.strings, u64::from(self.name?), name)
    }
}

// The offset of a name in the string table, by the record of names at `place`.
#[inline(always)]
fn name_offset(records: &Records<'_>, place: usize) -> Result<u32, LinkError>
    ensures { result ≡ name_offset (records_data records.now) place }
{
    if !records.contain(place, 8) {
        return Err(LinkError::ShortVersion);
    }
    Ok(records.u32_at(place, 0))
}

// The definition at `place`.
#[inline(always)]
pub(crate) fn definition_at<'a>(records: &Records<'a>, place: usize) -> Definition<'a>
    requires { place + 20 ≤ length (records_data records.now).bytes }
    ensures { definition_parts result ≡ definition_at (records_data records.now) place }
{
    Definition {
        flags: records.u16_at(place, 2),
        number: records.u16_at(place, 4),
        hash: records.u32_at(place, 8),
        name: name_offset(records, records.place_behind(place, 12)),
        strings: records.strings,
    }
}

/// An iterator over the versions that a file defines; `Versions::definitions` says where it ends.
#[derive(Clone, Debug, Drop)]
pub struct Definitions<'a> {
    records: Records<'a>,
    chain: Chain,
}

impl<'a> Definitions<'a> {
    pub(crate) fn new(records: Records<'a>) -> Definitions<'a>
        ensures longest { AreDefinitions (records_data records.entry) (definitions_left result) }
        ensures exact { definitions_left result ≡ definitions_in (records_data records.entry) }
        ensures fits { length (definitions_left result) < 2 ^ 64 }
    {
        Definitions {
            records,
            chain: Chain {
                place: 0,
                left: records.bytes.len() as u64,
            },
        }
    }
}

impl<'a> Iterator for Definitions<'a> {
    ghost use Rattle.std.specs.Iterator.{YieldsFirstBy, item_count};

    type Item = Result<Definition<'a>, LinkError>;

    ghost next_gives = { YieldsFirstBy definition_item definitions_left };

    ghost remaining = { item_count definitions_left };

    #[tactic(auto, using(crate::proofs::VersionItems::items_end, crate::proofs::VersionItems::items_first))]
    #[inline(always)]
    fn next(&mut self) -> Option<Result<Definition<'a>, LinkError>> {
        match self.chain.next(&self.records, 16)? {
            Ok(place) => Some(Ok(definition_at(&self.records, place))),
            Err(error) => Some(Err(error)),
        }
    }
}
