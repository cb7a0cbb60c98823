//! Records of versions, each of which says how many bytes after it the next one lies.

ghost use Rattle.std.specs.Prelude.{◌≡◌, ◌+◌, ◌≤◌, ◌<◌, IfOk, IfSome, length, nat_le};
ghost use Rattle.std.specs.Iterator.{YieldsFirst};
ghost use Rattle.elf_linking.specs.VersionTables.{field, places_left, records_data};

use crate::LinkError;
use elf_base::bytes::{Order, read_u16, read_u32};

// Records: their bytes from the first on, how many the file tells, and the string table with their
// names.
#[derive(Clone, Copy, Debug)]
pub(crate) struct Records<'a> {
    pub(crate) bytes: &'a [u8],
    pub(crate) told: Option<u64>,
    pub(crate) order: Order,
    pub(crate) strings: Result<&'a [u8], LinkError>,
}

impl Records<'_> {
    // Whether the bytes contain `size` bytes from `place` on.
    #[inline(always)]
    pub(crate) fn contain(&self, place: usize, size: usize) -> bool
        ensures { result ≡ nat_le (place + size) (length (records_data self.now).bytes) }
    {
        let len = self.bytes.len();
        place <= len && size <= len - place
    }

    // The number of 16 bits that lies `offset` bytes after `place`.
    #[inline(always)]
    pub(crate) fn u16_at(&self, place: usize, offset: usize) -> u16
        requires { place + offset + 2 ≤ length (records_data self.now).bytes }
        ensures { result ≡ field (records_data self.now) 2 place offset }
    {
        read_u16(self.bytes, place + offset, self.order)
    }

    // The number of 32 bits that lies `offset` bytes after `place`.
    #[inline(always)]
    pub(crate) fn u32_at(&self, place: usize, offset: usize) -> u32
        requires { place + offset + 4 ≤ length (records_data self.now).bytes }
        ensures { result ≡ field (records_data self.now) 4 place offset }
    {
        read_u32(self.bytes, place + offset, self.order)
    }

    // The place as many bytes after `place` as the number of 32 bits `offset` bytes after it says.
    #[inline(always)]
    pub(crate) fn place_behind(&self, place: usize, offset: usize) -> usize
        requires { place + offset + 4 ≤ length (records_data self.now).bytes }
        ensures { result ≡ place + field (records_data self.now) 4 place offset }
    {
        place + self.u32_at(place, offset) as usize
    }
}

// The place of the next record of a list, and how many records there may be from it on. A list has no
// more records than there are bytes.
#[derive(Clone, Copy, Debug)]
pub(crate) struct Chain {
    pub(crate) place: usize,
    pub(crate) left: u64,
}

impl Chain {
    // The place of the next record, whose last four bytes lie `offset` bytes after it: `next`.
    #[tactic(auto, using(crate::proofs::VersionPlaces::places_end, crate::proofs::VersionPlaces::places_cut, crate::proofs::VersionPlaces::places_last, crate::proofs::VersionPlaces::places_more))]
    #[inline(always)]
    pub(crate) fn next(
        &mut self,
        records: &Records<'_>,
        offset: usize,
    ) -> Option<Result<usize, LinkError>>
        requires { offset ≤ 16 }
        ensures first { YieldsFirst (places_left (records_data records.now) offset)
            self.old result self.new }
        ensures whole { IfSome result (λ item. IfOk item (λ place.
            place + offset + 4 ≤ length (records_data records.now).bytes)) }
        ensures fewer { IfSome result (λ item. self.new.left < self.old.left) }
    {
        if self.left == 0 {
            return None;
        }
        let place = self.place;
        if !records.contain(place, offset + 4) {
            self.left = 0;
            return Some(Err(LinkError::ShortVersion));
        }
        if records.u32_at(place, offset) == 0 {
            self.left = 0;
        } else {
            self.left -= 1;
            self.place = records.place_behind(place, offset);
        }
        Some(Ok(place))
    }
}

// The places of needs, or of the parts of a need: an iterator over a list whose `next` lies 12 bytes
// after a record.
#[derive(Clone, Debug, Drop)]
pub(crate) struct Places<'a> {
    records: Records<'a>,
    chain: Chain,
}

impl<'a> Places<'a> {
    ghost use Rattle.std.specs.Prelude.{◌^◌};
    ghost use Rattle.elf_linking.specs.VersionTables.{iterator_places, places_of};

    // The places of the list from a place on.
    pub(crate) fn new(records: Records<'a>, place: usize) -> Places<'a>
        ensures items { let records = records_data records.entry in
            iterator_places result ≡ places_of records 12 place (length records.bytes) }
        ensures fits { length (iterator_places result) < 2 ^ 64 }
    {
        Places {
            records,
            chain: Chain {
                place,
                left: records.bytes.len() as u64,
            },
        }
    }
}

impl Iterator for Places<'_> {
    ghost use Rattle.std.specs.Iterator.{item_count};
    ghost use Rattle.elf_linking.specs.VersionTables.{iterator_places};

    type Item = Result<usize, LinkError>;

    ghost next_gives = { YieldsFirst iterator_places };

    ghost remaining = { item_count iterator_places };

    fn next(&mut self) -> Option<Result<usize, LinkError>> {
        self.chain.next(&self.records, 12)
    }
}
