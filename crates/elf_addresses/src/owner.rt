//! The part of a file that a byte belongs to.

ghost use Rattle.std.specs.Prelude.{◌≡◌, ◌≤◌, ◌<◌, ◌+◌, ◌^◌, ◌↔◌, ◌||◌, ℕ, IsTrue, MatchOption};
ghost use Rattle.elf_addresses.specs.FileClaims.{byte_count, cut_range, elf_header};
ghost use Rattle.elf_addresses.specs.FileClaims.{program_headers, section_headers, table_range};
ghost use Rattle.elf_addresses.specs.Owner.{ClaimBegins, HasPartBehind, IsFree, IsIn, IsOwner};
ghost use Rattle.elf_addresses.specs.Owner.{OutsideHeaders, RangeBegins, TableBegins, is_claim_behind};
ghost use Rattle.elf_addresses.specs.Runs.{IsNext, IsRun};

use crate::claims::{Claims, innermost};
use crate::file_claims::{SectionClaims, SegmentClaims, cut_range};
use xmas_elf::ElfFile;
use xmas_elf::header::HeaderPt2;

/// The part of a file that a byte belongs to.
#[derive(Clone, Copy, Debug, PartialEq, Eq)]
pub enum Owner {
    /// The ELF header.
    ElfHeader,
    /// The program header table.
    ProgramHeaders,
    /// The section header table.
    SectionHeaders,
    /// The section at this index.
    Section(usize),
    /// The segment at this index: the byte is in no section.
    Segment(usize),
    /// No part, and a part begins after the byte.
    Between,
    /// No part, and no part begins after the byte.
    Behind,
}

/// The owner of the byte at an offset; `None` at the end of the file and past it.
///
/// The parts of a file are the ELF header, the program header table, the section header table, the
/// sections (`SectionClaims`) and the segments (`SegmentClaims`), in this order: the owner is the
/// first that covers the byte. Of the sections, and of the segments, it is the one that begins last,
/// then the smallest in the file, then the first. A table whose offset is 0 is not there. Passes
/// over the sections and the segments.
pub fn owner_of(file: &ElfFile<'_>, offset: usize) -> Option<Owner>
    ensures { MatchOption result (byte_count file.now ≤ offset)
        (λ owner. (offset < byte_count file.now) × IsOwner file.now offset owner) }
{
    if offset >= file.input.len() {
        return None;
    }
    let headers = Headers::new(file);
    if let Some((owner, _end)) = headers.run(offset as u64) {
        return Some(owner);
    }
    Some(part_owner(&headers, offset as u64))
}

// The owner of a byte outside of the headers.
fn part_owner(headers: &Headers<'_, '_>, byte: u64) -> Owner
    requires { OutsideHeaders headers.now.file.now byte }
    ensures { IsOwner headers.now.file.now byte result }
{
    let sections = SectionClaims::new(headers.file);
    if let Some(claim) = innermost(&sections, byte) {
        return Owner::Section(claim.index);
    }
    let segments = SegmentClaims::new(headers.file);
    if let Some(claim) = innermost(&segments, byte) {
        return Owner::Segment(claim.index);
    }
    if has_part_behind(headers, byte) {
        Owner::Between
    } else {
        Owner::Behind
    }
}

// Whether a part begins after a byte.
fn has_part_behind(headers: &Headers<'_, '_>, byte: u64) -> bool
    ensures { IsTrue result ↔ HasPartBehind headers.now.file.now byte }
{
    let sections = SectionClaims::new(headers.file);
    let segments = SegmentClaims::new(headers.file);
    any_of(
        headers.has_table_behind(byte),
        begins_behind(&sections, byte),
        begins_behind(&segments, byte),
    )
}

// Whether one of three is true.
#[inline(always)]
fn any_of(one: bool, other: bool, last: bool) -> bool
    ensures { result ≡ (one || (other || last)) }
{
    one || other || last
}

// Whether a claim that is not empty begins after a byte.
fn begins_behind<C: Claims>(claims: &C, byte: u64) -> bool
    ensures { IsTrue result
        ↔ ((begin : ℕ) × (byte < begin) × ClaimBegins (C.claim_of claims.now) begin) }
{
    for index in 0..claims.count() {
        if is_claim_behind(claims, index, byte) {
            return true;
        }
    }
    false
}

// Whether there is a claim at an index that is not empty and begins after a byte.
fn is_claim_behind<C: Claims>(claims: &C, index: usize, byte: u64) -> bool
    ensures { result ≡ is_claim_behind (C.claim_of claims.now index) byte }
{
    match claims.claim(index) {
        Some(claim) => claim.size != 0 && byte < claim.begin,
        None => false,
    }
}

// The ELF header and the tables of headers of a file: the offset and the size of each.
#[derive(Clone, Copy, Debug)]
pub(crate) struct Headers<'b, 'a> {
    pub(crate) file: &'b ElfFile<'a>,
    first: (u64, u64),
    programs: (u64, u64),
    sections: (u64, u64),
    ghost is_first: { first ≡ elf_header file.now },
    ghost are_programs: { programs ≡ program_headers file.now },
    ghost are_sections: { sections ≡ section_headers file.now },
    ghost programs_fit: { programs.0 + programs.1 < 2 ^ 64 },
    ghost sections_fit: { sections.0 + sections.1 < 2 ^ 64 },
}

impl<'b, 'a> Headers<'b, 'a> {
    // Those of a file.
    pub(crate) fn new(file: &'b ElfFile<'a>) -> Headers<'b, 'a>
        ensures { result.file.now ≡ file.now }
    {
        let part = &file.header.pt2;
        let programs = u64::from(file.program_count());
        Headers {
            file,
            first: first_header(file),
            programs: table(file, part.ph_offset(), part.ph_entry_size(), programs),
            sections: table(
                file,
                part.sh_offset(),
                part.sh_entry_size(),
                file.section_count(),
            ),
        }
    }

    // The owner of a byte in the headers, and the end of its run.
    #[tactic(auto, using(crate::proofs::Runs::elf_header_run, crate::proofs::Runs::program_headers_run, crate::proofs::Runs::section_headers_run))]
    #[inline(always)]
    pub(crate) fn run(&self, byte: u64) -> Option<(Owner, u64)>
        ensures { MatchOption result (OutsideHeaders self.now.file.now byte)
            (λ run. IsRun self.now.file.now byte run.1 run.0) }
    {
        if is_in(self.first, byte) {
            return Some((Owner::ElfHeader, end_of(self.first)));
        }
        if is_in(self.programs, byte) {
            return Some((Owner::ProgramHeaders, end_of(self.programs)));
        }
        if is_in(self.sections, byte) {
            let end = next_range(self.programs, byte, end_of(self.sections));
            return Some((Owner::SectionHeaders, end));
        }
        None
    }

    // The next begin of a table after a byte, or the limit if that is smaller.
    #[tactic(auto, using(crate::proofs::Runs::next_of_both))]
    #[inline(always)]
    pub(crate) fn next_table(&self, byte: u64, limit: u64) -> u64
        ensures { IsNext (TableBegins self.now.file.now) byte limit result }
    {
        next_range(self.sections, byte, next_range(self.programs, byte, limit))
    }

    // Whether a table begins after a byte.
    fn has_table_behind(&self, byte: u64) -> bool
        ensures { IsTrue result
            ↔ ((begin : ℕ) × (byte < begin) × TableBegins self.now.file.now begin) }
    {
        is_range_behind(self.programs, byte) || is_range_behind(self.sections, byte)
    }
}

// The ELF header.
#[inline(always)]
fn first_header(file: &ElfFile<'_>) -> (u64, u64)
    ensures { result ≡ elf_header file.now }
{
    let rest = match file.header.pt2 {
        HeaderPt2::Header32(_) => 36,
        HeaderPt2::Header64(_) => 48,
    };
    cut_range(file, (0, 16 + rest))
}

// A table of headers; it is empty if its offset is 0.
#[inline(always)]
fn table(file: &ElfFile<'_>, offset: u64, entry_size: u16, count: u64) -> (u64, u64)
    ensures range { result
        ≡ cut_range (byte_count file.now) (table_range offset entry_size count) }
    ensures fits { result.0 + result.1 < 2 ^ 64 }
{
    if offset == 0 {
        return (0, 0);
    }
    // A size that does not fit is cut to the file all the same.
    cut_range(file, (offset, u64::from(entry_size).saturating_mul(count)))
}

// Whether a byte is in a range.
#[inline(always)]
fn is_in(range: (u64, u64), byte: u64) -> bool
    ensures { IsTrue result ↔ IsIn range byte }
{
    let (begin, size) = range;
    begin <= byte && byte - begin < size
}

// The first offset after a range.
#[inline(always)]
fn end_of(range: (u64, u64)) -> u64
    requires { range.0 + range.1 < 2 ^ 64 }
    ensures { result ≡ range.0 + range.1 }
{
    let (begin, size) = range;
    begin + size
}

// Whether a range that is not empty begins after a byte.
#[inline(always)]
fn is_range_behind(range: (u64, u64), byte: u64) -> bool
    ensures { IsTrue result ↔ ((begin : ℕ) × (byte < begin) × RangeBegins range begin) }
{
    let (begin, size) = range;
    size != 0 && byte < begin
}

// The begin of a range that is not empty, if it is after a byte, or the limit if that is smaller.
#[inline(always)]
fn next_range(range: (u64, u64), byte: u64, limit: u64) -> u64
    ensures { IsNext (RangeBegins range) byte limit result }
{
    let (begin, size) = range;
    if size != 0 && byte < begin && begin < limit {
        return begin;
    }
    limit
}
