//! The segments of a file: the records of its program header table (gABI, "Program Header").
//!
//! Linux and glibc read as many records of the size of the class as the header says, from the offset
//! of the table on, and `Segments` does the same. `program_iter` of xmas_elf also reads tables with
//! larger entries, and looks for the number of entries in section header 0 (PN_XNUM).

ghost use Rattle.std.specs.Prelude.{◌≡◌, ◌≢◌, ◌+◌, ◌*◌, ◌≤◌, ◌==◌, IfOk, length, nat_le};
ghost use Rattle.elf_base.specs.Lent.{Answers, LiesAt};
ghost use Rattle.elf_linking.specs.PortSegments.{AreProgramHeaders};
ghost use Rattle.elf_linking.specs.Segments.{is_whole, segment_32, segment_64, segment_at};
ghost use Rattle.elf_linking.specs.Segments.{segment_bytes, segment_size, segments_of};
ghost use Rattle.xmas_elf.specs.Ranges.{IsRange};

use elf_base::ElfError;
use elf_base::bytes::{Order, read_u32, read_u64};
use xmas_elf::ElfFile;
use xmas_elf::program::Flags;

/// The fields of a program header, as numbers. Those of class 32 are widened.
#[derive(Clone, Copy, Debug, PartialEq, Eq)]
pub struct Segment {
    /// The type (p_type).
    pub kind: u32,
    /// The permissions (p_flags).
    pub flags: Flags,
    /// The offset of its bytes in the file (p_offset).
    pub offset: u64,
    /// Its address (p_vaddr).
    pub address: u64,
    /// The number of its bytes in the file (p_filesz).
    pub file_size: u64,
    /// The number of its bytes in memory (p_memsz).
    pub mem_size: u64,
    /// The alignment (p_align).
    pub align: u64,
}

/// An iterator over the segments of a file, in the order of their program headers.
#[derive(Clone, Copy, Debug, Drop)]
pub struct Segments<'a> {
    input: &'a [u8],
    // The offset of the next record.
    place: usize,
    // The number of records that are left.
    left: u16,
    // Whether the class is 32.
    is_narrow: bool,
    order: Order,
    ghost within: { place + left * segment_size is_narrow ≤ length input.now },
}

// The record of class 32 at an offset.
#[inline(always)]
fn narrow_at(input: &[u8], place: usize, order: Order) -> Segment
    requires { place + 32 ≤ length input.now }
    ensures { result ≡ segment_32 order input.now place }
{
    Segment {
        kind: read_u32(input, place, order),
        flags: Flags(read_u32(input, place + 24, order)),
        offset: u64::from(read_u32(input, place + 4, order)),
        address: u64::from(read_u32(input, place + 8, order)),
        file_size: u64::from(read_u32(input, place + 16, order)),
        mem_size: u64::from(read_u32(input, place + 20, order)),
        align: u64::from(read_u32(input, place + 28, order)),
    }
}

// The record of class 64 at an offset.
#[inline(always)]
fn wide_at(input: &[u8], place: usize, order: Order) -> Segment
    requires { place + 56 ≤ length input.now }
    ensures { result ≡ segment_64 order input.now place }
{
    Segment {
        kind: read_u32(input, place, order),
        flags: Flags(read_u32(input, place + 4, order)),
        offset: read_u64(input, place + 8, order),
        address: read_u64(input, place + 16, order),
        file_size: read_u64(input, place + 32, order),
        mem_size: read_u64(input, place + 40, order),
        align: read_u64(input, place + 48, order),
    }
}

// The record at an offset.
#[inline(always)]
fn record_at(input: &[u8], place: usize, is_narrow: bool, order: Order) -> Segment
    requires { place + segment_size is_narrow ≤ length input.now }
    ensures { result ≡ segment_at is_narrow order input.now place }
{
    // The byte order is tested once for all fields, and first: where the type was read before, the
    // compiler knows it.
    match (order, is_narrow) {
        (Order::Little, true) => narrow_at(input, place, Order::Little),
        (Order::Big, true) => narrow_at(input, place, Order::Big),
        (Order::Little, false) => wide_at(input, place, Order::Little),
        (Order::Big, false) => wide_at(input, place, Order::Big),
    }
}

// The size of a record.
#[inline(always)]
fn record_size(is_narrow: bool) -> usize
    ensures { result ≡ segment_size is_narrow }
{
    if is_narrow { 32 } else { 56 }
}

// Whether the file has `count` bytes from an offset on.
#[inline(always)]
fn has_range(input: &[u8], start: u64, count: u64) -> bool
    ensures { result ≡ nat_le (start + count) (length input.now) }
{
    let len = input.len() as u64;
    count <= len && start <= len - count
}

// Whether the entries of the program header table have the size of the class, and it is in the file.
#[inline(always)]
fn is_whole(file: &ElfFile<'_>) -> bool
    ensures { result ≡ is_whole file.now }
{
    let size = record_size(file.header.pt1.class.raw() == 1);
    let part = &file.header.pt2;
    usize::from(part.ph_entry_size()) == size
        && has_range(
            file.input,
            part.ph_offset(),
            usize::from(part.ph_count()) as u64 * size as u64,
        )
}

impl<'a> Segments<'a> {
    ghost use Rattle.std.specs.Iterator.{YieldsFirst};
    ghost use Rattle.std.specs.Prelude.{◌<◌, ◌∷◌};
    ghost use Rattle.elf_linking.specs.SegmentsLeft.{left_count, next_segment, segments_left};

    /// The segments of a file: as many records as the header says (e_phnum), from the offset of the
    /// table on (e_phoff). There are none if the size of an entry (e_phentsize) isn't that of the
    /// class, 32 or 56 bytes, or if the table extends past the end of the file.
    #[tactic(auto, using(crate::proofs::SegmentRecords::all_within, crate::proofs::SegmentRecords::all_segments, crate::proofs::SegmentRecords::no_segments, crate::proofs::PortSegments::are_program_headers))]
    #[inline(always)]
    pub fn of(file: &ElfFile<'a>) -> Segments<'a>
        ensures all { segments_left result ≡ segments_of file.now }
        ensures port { AreProgramHeaders file.now }
    {
        let is_narrow = file.header.pt1.class.raw() == 1;
        let order = file.byte_order();
        if !is_whole(file) {
            return Segments {
                input: file.input,
                place: 0,
                left: 0,
                is_narrow,
                order,
            };
        }
        Segments {
            input: file.input,
            place: file.header.pt2.ph_offset() as usize,
            left: file.header.pt2.ph_count(),
            is_narrow,
            order,
        }
    }

    /// The number of segments that are left.
    #[tactic(auto, using(crate::proofs::SegmentRecords::count_is))]
    #[inline(always)]
    pub fn count_left(&self) -> u16
        ensures count { result ≡ length (segments_left self.now) }
        ensures is { result ≡ left_count self.now }
    {
        self.left
    }

    /// The type of the next segment (p_type). No other field is read.
    #[tactic(auto, using(crate::proofs::SegmentRecords::kind_within, crate::proofs::SegmentRecords::kind_is))]
    #[inline(always)]
    pub fn kind(&self) -> u32
        requires { 0 < left_count self.now }
        ensures { result ≡ (next_segment self.now).kind }
    {
        read_u32(self.input, self.place, self.order)
    }

    /// The next segment.
    #[tactic(auto, using(crate::proofs::SegmentRecords::next_within))]
    #[inline(always)]
    pub fn segment(&self) -> Segment
        requires { 0 < left_count self.now }
        ensures { result ≡ next_segment self.now }
    {
        record_at(self.input, self.place, self.is_narrow, self.order)
    }

    /// The segments after the next.
    #[tactic(auto, using(crate::proofs::SegmentRecords::next_within, crate::proofs::SegmentRecords::rest_within, crate::proofs::SegmentRecords::rest_is))]
    #[inline(always)]
    pub fn rest(&self) -> Segments<'a>
        requires { 0 < left_count self.now }
        ensures list { segments_left self.now ≡ next_segment self.now ∷ segments_left result }
        ensures fewer { left_count result < left_count self.now }
    {
        Segments {
            input: self.input,
            place: self.place + record_size(self.is_narrow),
            left: self.left - 1,
            is_narrow: self.is_narrow,
            order: self.order,
        }
    }

    // The next segment, if one is left.
    #[tactic(auto, using(crate::proofs::SegmentRecords::none_are))]
    #[inline(always)]
    fn step(&mut self) -> Option<Segment>
        ensures { YieldsFirst segments_left self.old result self.new }
    {
        if self.left == 0 {
            return None;
        }
        let segment = self.segment();
        *self = self.rest();
        Some(segment)
    }
}

impl Iterator for Segments<'_> {
    ghost use Rattle.elf_linking.specs.SegmentsLeft.{segments_left};
    ghost use Rattle.std.specs.Iterator.{YieldsFirst, item_count};

    type Item = Segment;

    ghost next_gives = { YieldsFirst segments_left };

    ghost remaining = { item_count segments_left };

    #[inline(always)]
    fn next(&mut self) -> Option<Segment> {
        self.step()
    }
}

impl Segment {
    /// The bytes of the segment in a file, which live as long as the input. A segment without bytes
    /// in the file (p_filesz 0) has the empty slice, whatever its offset.
    ///
    /// Errors: `DataRange` if the bytes extend past the end of the file.
    pub fn bytes<'a>(&self, file: &ElfFile<'a>) -> Result<&'a [u8], ElfError>
        ensures exact { Answers (segment_bytes file.now self.now) result }
        ensures count { IfOk result (λ part. length part.now ≡ self.now.file_size) }
        ensures range { IfOk result (λ part. self.now.file_size ≢ 0
            → IsRange file.now.input.now self.now.offset self.now.file_size part.now) }
        ensures place { IfOk result (λ part. self.now.file_size ≢ 0
            → LiesAt file.now.input self.now.offset part) }
    {
        if self.file_size == 0 {
            return Ok(&[]);
        }
        if !has_range(file.input, self.offset, self.file_size) {
            return Err(ElfError::DataRange);
        }
        let start = self.offset as usize;
        Ok(&file.input[start..start + self.file_size as usize])
    }
}
