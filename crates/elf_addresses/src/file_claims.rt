//! The sections and segments of a file, and the bytes of the file that each claims
//! (gABI, "Sections" and "Program Header").

ghost use Rattle.std.specs.Prelude.{◌≡◌, ◌<◌, ◌+◌, ◌^◌, length, slice_get};
ghost use Rattle.elf_addresses.specs.FileClaims.{byte_count, claim_with, cut_range, is_whole, range_claim};
ghost use Rattle.elf_addresses.specs.FileClaims.{section_claim, section_parts, section_range};
ghost use Rattle.elf_addresses.specs.FileClaims.{section_range_at, segment_claim, segment_parts};
ghost use Rattle.elf_addresses.specs.FileClaims.{segment_range, segment_range_at};
ghost use Rattle.elf_addresses.specs.PartRanges.{range_index, range_known, range_range, range_within};
ghost use Rattle.xmas_elf.specs.SectionTable.{section_table_file};
ghost use Rattle.elf_records.specs.ProgramNumbers.{ph_type_number};
ghost use Rattle.xmas_elf.specs.ProgramHeader.{program_fields};
ghost use Rattle.xmas_elf.specs.ProgramTable.{program_table_file};

use crate::claim::Claim;
use crate::claims::Claims;
use xmas_elf::ElfFile;
use xmas_elf::program::{ProgramHeader, ProgramTable, TYPE_GNU_RELRO};
use xmas_elf::sections::{SectionHeader, SectionTable};

const SHT_NULL: u32 = 0;

const SHT_NOBITS: u32 = 8;

const PT_NULL: u32 = 0;

/// The claims of the sections of a file to its bytes, by index.
///
/// A section claims `size` bytes from `offset` on, as many of them as the file contains. Sections of
/// type `SHT_NULL` and `SHT_NOBITS` have no claim, nor have those without a byte in the file. There
/// are no claims if an entry of the section header table can't be read, the offset of the table is
/// 0, or it has 2 to the 32 entries or more.
#[derive(Clone, Copy, Debug)]
pub struct SectionClaims<'b, 'a> {
    pub(crate) file: &'b ElfFile<'a>,
    table: SectionTable<'b, 'a>,
    count: usize,
    ghost own: { section_table_file table ≡ file.now },
    ghost counted: { count ≡ length (section_parts file.now) },
}

impl<'b, 'a> SectionClaims<'b, 'a> {
    /// The claims of the sections of a file.
    pub fn new(file: &'b ElfFile<'a>) -> SectionClaims<'b, 'a>
        ensures { result.file.now ≡ file.now }
    {
        let table = file.section_table();
        let offset = file.header.pt2.sh_offset();
        let whole = is_whole(offset, file.section_count(), table.len());
        let count = if whole { table.len() } else { 0 };
        SectionClaims { file, table, count }
    }

    // The section header at an index.
    #[inline(always)]
    fn part(&self, index: usize) -> Option<SectionHeader>
        ensures { result ≡ slice_get (section_parts self.now.file.now) index }
    {
        if index >= self.count {
            return None;
        }
        self.table.get(index)
    }
}

impl Claims for SectionClaims<'_, '_> {
    ghost count = { λ claims. length (section_parts claims.file.now) };

    ghost claim_of = { λ claims. section_claim claims.file.now };

    ghost known_of = { λ claims i. claim_with i (section_range_at claims.file.now i) };

    ghost knows = { λ claims i claim is. range_known i (section_range_at claims.file.now i) claim is };

    ghost within = { λ claims i claim is. range_within section_range (byte_count claims.file.now)
        (section_parts claims.file.now) i claim is };

    ghost range_of = { λ claims. section_range_at claims.file.now };

    ghost own = { λ claims i claim is. range_index i (section_range_at claims.file.now i) claim is };

    ghost ranged = { λ claims i claim is.
        range_range i (section_range_at claims.file.now i) claim is };

    #[inline(always)]
    fn count(&self) -> usize {
        self.count
    }

    #[inline(always)]
    fn claim(&self, index: usize) -> Option<Claim> {
        range_claim(index, self.range(index))
    }

    #[inline(always)]
    fn known(&self, index: usize) -> Claim {
        claim_with(index, self.range(index))
    }

    #[inline(always)]
    fn range(&self, index: usize) -> (u64, u64) {
        match self.part(index) {
            Some(section) => cut_range(self.file, section_range(&section)),
            None => (0, 0),
        }
    }
}

/// The claims of the segments of a file to its bytes, by index.
///
/// A segment claims `file_size` bytes from `offset` on, as many of them as the file contains.
/// Segments of type `PT_NULL` and `PT_GNU_RELRO` have no claim, nor have those without a byte in the
/// file. There are no claims if an entry of the program header table can't be read.
#[derive(Clone, Copy, Debug)]
pub struct SegmentClaims<'b, 'a> {
    pub(crate) file: &'b ElfFile<'a>,
    table: ProgramTable<'b, 'a>,
    count: usize,
    ghost own: { program_table_file table ≡ file.now },
    ghost counted: { count ≡ length (segment_parts file.now) },
}

impl<'b, 'a> SegmentClaims<'b, 'a> {
    /// The claims of the segments of a file.
    pub fn new(file: &'b ElfFile<'a>) -> SegmentClaims<'b, 'a>
        ensures { result.file.now ≡ file.now }
    {
        let table = file.program_table();
        let offset = file.header.pt2.ph_offset();
        let whole = is_whole(offset, u64::from(file.program_count()), table.len());
        let count = if whole { table.len() } else { 0 };
        SegmentClaims { file, table, count }
    }

    // The program header at an index.
    #[inline(always)]
    fn part(&self, index: usize) -> Option<ProgramHeader>
        ensures { result ≡ slice_get (segment_parts self.now.file.now) index }
    {
        if index >= self.count {
            return None;
        }
        self.table.get(index)
    }
}

impl Claims for SegmentClaims<'_, '_> {
    ghost count = { λ claims. length (segment_parts claims.file.now) };

    ghost claim_of = { λ claims. segment_claim claims.file.now };

    ghost known_of = { λ claims i. claim_with i (segment_range_at claims.file.now i) };

    ghost knows = { λ claims i claim is. range_known i (segment_range_at claims.file.now i) claim is };

    ghost within = { λ claims i claim is. range_within segment_range (byte_count claims.file.now)
        (segment_parts claims.file.now) i claim is };

    ghost range_of = { λ claims. segment_range_at claims.file.now };

    ghost own = { λ claims i claim is. range_index i (segment_range_at claims.file.now i) claim is };

    ghost ranged = { λ claims i claim is.
        range_range i (segment_range_at claims.file.now i) claim is };

    #[inline(always)]
    fn count(&self) -> usize {
        self.count
    }

    #[inline(always)]
    fn claim(&self, index: usize) -> Option<Claim> {
        range_claim(index, self.range(index))
    }

    #[inline(always)]
    fn known(&self, index: usize) -> Claim {
        claim_with(index, self.range(index))
    }

    #[inline(always)]
    fn range(&self, index: usize) -> (u64, u64) {
        match self.part(index) {
            Some(segment) => cut_range(self.file, segment_range(&segment)),
            None => (0, 0),
        }
    }
}

// Whether a table has entries: its offset is not 0, all of its entries can be read, and there are
// fewer than 2 to the 32.
#[inline(always)]
fn is_whole(offset: u64, count: u64, readable: usize) -> bool
    ensures { result ≡ is_whole offset count readable }
{
    offset != 0 && readable as u64 == count && count <= u64::from(u32::MAX)
}

// The part of a range that a file contains: its offset, and its size.
#[inline(always)]
pub(crate) fn cut_range(file: &ElfFile<'_>, range: (u64, u64)) -> (u64, u64)
    ensures range { result ≡ cut_range (byte_count file.now) range }
    ensures fits { result.0 + result.1 < 2 ^ 64 }
{
    let (begin, size) = range;
    let len = file.input.len() as u64;
    (begin, size.min(len.saturating_sub(begin)))
}

// The claim of a range, if it is not empty.
#[inline(always)]
fn range_claim(index: usize, range: (u64, u64)) -> Option<Claim>
    ensures { result ≡ range_claim index range }
{
    if range.1 == 0 {
        return None;
    }
    Some(claim_with(index, range))
}

// The claim of a range.
#[inline(always)]
fn claim_with(index: usize, range: (u64, u64)) -> Claim
    ensures { result ≡ claim_with index range }
{
    let (begin, size) = range;
    Claim {
        begin,
        size,
        extent: size,
        rank: 0,
        index,
    }
}

// The offset and the size of the bytes of a section.
#[inline(always)]
fn section_range(section: &SectionHeader) -> (u64, u64)
    ensures { result ≡ section_range section.now }
{
    let empty = matches!(section.type_().raw(), SHT_NULL | SHT_NOBITS);
    (section.offset(), if empty { 0 } else { section.size() })
}

// The offset and the size of the bytes of a segment.
#[inline(always)]
fn segment_range(program: &ProgramHeader) -> (u64, u64)
    ensures { result ≡ segment_range program.now }
{
    let empty = matches!(segment_type(program), PT_NULL | TYPE_GNU_RELRO);
    (
        program.offset(),
        if empty { 0 } else { program.file_size() },
    )
}

// The type of a segment, as a number.
#[inline(always)]
fn segment_type(program: &ProgramHeader) -> u32
    ensures { result ≡ ph_type_number (program_fields program.now).type_ }
{
    match program {
        ProgramHeader::Ph32(header) => header.type_.raw(),
        ProgramHeader::Ph64(header) => header.type_.raw(),
    }
}
