//! The versions that a file needs of libraries (LSB, "Symbol Versioning": Verneed and Vernaux).

ghost use Rattle.std.specs.Prelude.{◌≡◌, ◌+◌, ◌<◌, ◌≤◌, ◌^◌, length};
ghost use Rattle.std.specs.Str.{bytes_eq};
ghost use Rattle.elf_linking.specs.Loaded.{lent};
ghost use Rattle.elf_linking.specs.VersionTables.{AreNeeds, need_at, need_item, need_parts};
ghost use Rattle.elf_linking.specs.VersionTables.{result_map, needs_in, needs_left, records_data};
ghost use Rattle.elf_linking.specs.Versions.{needs_number};

use crate::LinkError;
use crate::versions::records::{Chain, Records};
use crate::view::{is_text_by, text_by};

/// A version that a file needs of a library.
#[derive(Clone, Copy, Debug)]
pub struct Need<'a> {
    /// The flags of the version (vna_flags).
    pub flags: u16,
    /// The number of the version (bits 0 to 14 of vna_other), by which symbols refer to it.
    pub number: u16,
    /// Whether the version is hidden (bit 15 of vna_other).
    pub hidden: bool,
    /// The hash number of the name (vna_hash), that of the ELF standard's hash tables.
    pub hash: u32,
    name: u32,
    file: u32,
    strings: Result<&'a [u8], LinkError>,
}

impl<'a> Need<'a> {
    // Whether it has this number.
    pub(crate) fn has_number(&self, number: u16) -> bool
        ensures { result ≡ needs_number number (need_parts self.now) }
    {
        self.number == number
    }

    /// The offset of the name of the version in the string table, in bytes.
    pub fn name_offset(&self) -> u32
        ensures { result ≡ (need_parts self.now).name_offset }
    {
        self.name
    }

    /// The offset of the name of the library in the string table, in bytes.
    pub fn file_offset(&self) -> u32
        ensures { result ≡ (need_parts self.now).file_offset }
    {
        self.file
    }

    /// The name of the version; the errors are those of `view::strings` and of `bytes::text_at`.
    pub fn name(&self) -> Result<&'a str, LinkError>
        ensures { lent result ≡ (need_parts self.now).name }
    {
        text_by(self.strings, u64::from(self.name))
    }

    // Whether this is the name; the errors are those of `name`.
    #[inline(always)]
    pub(crate) fn has_name(&self, name: &str) -> Result<bool, LinkError>
        ensures { result ≡ result_map (λ other. bytes_eq other name.now) (need_parts self.now).name }
    {
        is_text_by(self.strings, u64::from(self.name), name)
    }

    /// The name of the library; the errors are those of `name`.
    pub fn file(&self) -> Result<&'a str, LinkError>
        ensures { lent result ≡ (need_parts self.now).file }
    {
        text_by(self.strings, u64::from(self.file))
    }
}

// The part at `place` of a need with this offset of the name of its file.
#[inline(always)]
fn need_at<'a>(records: &Records<'a>, file: u32, place: usize) -> Need<'a>
    requires { place + 16 ≤ length (records_data records.now).bytes }
    ensures { need_parts result ≡ need_at (records_data records.now) file place }
{
    let other = records.u16_at(place, 6);
    Need {
        flags: records.u16_at(place, 4),
        number: other % 0x8000,
        hidden: other >= 0x8000,
        hash: records.u32_at(place, 0),
        name: records.u32_at(place, 8),
        file,
        strings: records.strings,
    }
}

/// An iterator over the versions that a file needs; `Versions::needs` says where it ends.
#[derive(Clone, Debug, Drop)]
pub struct Needs<'a> {
    records: Records<'a>,
    needs: Chain,
    // How many more parts there may be.
    room: usize,
    // The name of the current need's file, and its remaining parts.
    file: u32,
    parts: Chain,
}

impl<'a> Needs<'a> {
    ghost use Rattle.std.specs.Prelude.{[], Err};
    ghost use Rattle.elf_linking.specs.VersionTables.{joined, parts_at, parts_of, places_left};
    ghost use Rattle.elf_linking.specs.VersionTables.{within_room};

    pub(crate) fn new(records: Records<'a>) -> Needs<'a>
        ensures longest { AreNeeds (records_data records.entry) (needs_left result) }
        ensures exact { needs_left result ≡ needs_in (records_data records.entry) }
        ensures fits { length (needs_left result) < 2 ^ 64 }
    {
        Needs {
            records,
            needs: Chain {
                place: 0,
                left: records.bytes.len() as u64,
            },
            room: records.bytes.len() / 16,
            file: 0,
            parts: Chain { place: 0, left: 0 },
        }
    }

    // Begins with the parts of the need at `place`.
    #[inline(always)]
    fn enter(&mut self, place: usize)
        requires { place + 16 ≤ length (records_data self.old.records).bytes }
        ensures entered { let records = records_data self.old.records in
            needs_left self.new ≡ within_room self.old.room (joined (parts_at records place)
            (parts_of records (places_left records 12 self.old.needs))) }
        ensures same { (self.new.records ≡ self.old.records) × (self.new.needs ≡ self.old.needs) }
    {
        self.file = self.records.u32_at(place, 4);
        self.parts = Chain {
            place: self.records.place_behind(place, 8),
            left: self.records.bytes.len() as u64,
        };
    }

    // Ends the list with an error.
    fn end(&mut self, error: LinkError) -> Result<Need<'a>, LinkError>
        ensures answer { need_item result ≡ Err error }
        ensures ended { needs_left self.new ≡ [] }
    {
        self.needs.left = 0;
        self.parts.left = 0;
        Err(error)
    }
}

impl<'a> Iterator for Needs<'a> {
    ghost use Rattle.std.specs.Iterator.{YieldsFirstBy, item_count};

    type Item = Result<Need<'a>, LinkError>;

    ghost next_gives = { YieldsFirstBy need_item needs_left };

    ghost remaining = { item_count needs_left };

    #[tactic(auto, using(crate::proofs::VersionItems::items_end, crate::proofs::VersionItems::items_first, crate::proofs::VersionItems::joined_end, crate::proofs::VersionItems::joined_first, crate::proofs::VersionItems::joined_cut, crate::proofs::VersionItems::parts_end, crate::proofs::VersionItems::parts_cut, crate::proofs::VersionItems::parts_more, crate::proofs::VersionItems::room_end, crate::proofs::VersionItems::room_cut, crate::proofs::VersionItems::room_full, crate::proofs::VersionItems::room_first))]
    #[inline(always)]
    fn next(&mut self) -> Option<Result<Need<'a>, LinkError>> {
        loop {
            match self.parts.next(&self.records, 12) {
                Some(Ok(place)) => {
                    if self.room == 0 {
                        return Some(self.end(LinkError::VersionCount));
                    }
                    self.room -= 1;
                    return Some(Ok(need_at(&self.records, self.file, place)));
                }
                Some(Err(error)) => return Some(self.end(error)),
                None => {}
            }
            match self.needs.next(&self.records, 12)? {
                Ok(place) => self.enter(place),
                Err(error) => return Some(self.end(error)),
            }
        }
    }
}
