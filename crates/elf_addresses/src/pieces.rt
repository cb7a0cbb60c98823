//! The pieces of a file: the longest runs of bytes with one owner.

ghost use Rattle.std.specs.Prelude.{◌≡◌, ◌≤◌, ◌<◌, ◌^◌, length, nat_lt, if◌then◌else◌};
ghost use Rattle.elf_addresses.specs.FileClaims.{byte_count, section_claim, section_range_at};
ghost use Rattle.elf_addresses.specs.FileClaims.{section_parts, segment_claim, segment_parts};
ghost use Rattle.elf_addresses.specs.FileClaims.{segment_range_at};
ghost use Rattle.elf_addresses.specs.Held.{IsHeld};
ghost use Rattle.elf_addresses.specs.declared.owner.Owner.TheVariants.{Behind, Between};
ghost use Rattle.elf_addresses.specs.Index.{IsWellBuilt, number_count, word_count};

use crate::claim::Claim;
use crate::error::IndexError;
use crate::file_claims::{SectionClaims, SegmentClaims};
use crate::held::{IndexWords, built};
use crate::index::{ClaimIndex, index_size};
use crate::next::{limit_of, next_claim};
use crate::owner::{Headers, Owner};
use xmas_elf::ElfFile;

/// A longest run of bytes of a file with one owner.
#[derive(Clone, Copy, Debug, PartialEq, Eq)]
pub struct Piece {
    /// The offset of the first byte.
    pub begin: usize,
    /// The offset after the last byte; it is above `begin`.
    pub end: usize,
    /// The owner of each of the bytes, as `owner_of` returns it.
    pub owner: Owner,
}

/// An iterator over the pieces of a file, in the order of their offsets.
///
/// A piece begins where the one before it ends, the first at 0, and the last ends at the end of the
/// file. So every byte is in exactly one piece, and the sizes of the pieces sum to the size of the
/// file. The owners of a piece and of the next one differ.
#[derive(Debug, Drop)]
pub struct Pieces<'b, 'a, 'w> {
    pub(crate) headers: Headers<'b, 'a>,
    pub(crate) sections: SectionClaims<'b, 'a>,
    segments: SegmentClaims<'b, 'a>,
    section_words: IndexWords<'w>,
    segment_words: IndexWords<'w>,
    pub(crate) place: usize,
    ghost one_file: { headers.file.now ≡ sections.file.now },
    ghost same_file: { segments.file.now ≡ sections.file.now },
    ghost within: { place ≤ byte_count sections.file.now },
    ghost sections_held: { IsHeld (section_claim sections.file.now)
        (section_range_at sections.file.now) (length (section_parts sections.file.now))
        section_words.sized.now section_words.begins.now section_words.sizes.now
        section_words.lasting.now section_words.starts.now },
    ghost segments_held: { IsHeld (segment_claim sections.file.now)
        (segment_range_at sections.file.now) (length (segment_parts sections.file.now))
        segment_words.sized.now segment_words.begins.now segment_words.sizes.now
        segment_words.lasting.now segment_words.starts.now },
}

impl<'b, 'a, 'w> Pieces<'b, 'a, 'w> {
    ghost use Rattle.std.specs.Prelude.{Err, IfOk, IsOk, MatchOption, None, Some};
    ghost use Rattle.elf_addresses.specs.Claims.{IsInnermost};
    ghost use Rattle.elf_addresses.specs.FileClaims.{piece_numbers, piece_words};
    ghost use Rattle.elf_addresses.specs.Owner.{OutsideHeaders, PartBegins, SectionBegins};
    ghost use Rattle.elf_addresses.specs.Pieces.{bytes_left, pieces_file, pieces_place};
    ghost use Rattle.elf_addresses.specs.Runs.{IsNext, IsRun};
    ghost use Rattle.elf_addresses.specs.declared.error.IndexError.TheVariants.{FewWords};

    /// The number of words that `new` takes: two for each section, and for each segment, that has
    /// bytes in the file.
    pub fn words(file: &ElfFile<'_>) -> usize
        ensures { result ≡ piece_words file.now }
    {
        section_words(file) + segment_words(file)
    }

    /// The number of numbers of 64 bits that `new` takes: two for each section, and for each segment,
    /// that has bytes in the file. It is that of the words.
    pub fn numbers(file: &ElfFile<'_>) -> usize
        ensures { result ≡ piece_numbers file.now }
    {
        section_numbers(file) + segment_numbers(file)
    }

    /// The pieces of a file. It builds an index of the sections and one of the segments in the words
    /// and the numbers, which may hold anything before.
    ///
    /// Passes over the sections and the segments, and sorts of the words. It takes no memory. The
    /// error is `FewWords`, if there are fewer words than `words` returns, or fewer numbers than
    /// `numbers` does.
    pub fn new(
        file: &'b ElfFile<'a>,
        words: &'w mut [u32],
        numbers: &'w mut [u64],
    ) -> Result<Pieces<'b, 'a, 'w>, IndexError>
        ensures few { length words.old < piece_words file.now → result ≡ Err FewWords }
        ensures few_numbers { length numbers.old < piece_numbers file.now
            → result ≡ Err FewWords }
        ensures fits { piece_words file.now ≤ length words.old
            → piece_numbers file.now ≤ length numbers.old → IsOk result }
        ensures file { IfOk result (λ pieces. pieces_file pieces ≡ file.now) }
        ensures first { IfOk result (λ pieces. pieces_place pieces ≡ 0) }
    {
        if words.len() < Self::words(file) || numbers.len() < Self::numbers(file) {
            return Err(IndexError::FewWords);
        }
        let sections = SectionClaims::new(file);
        let segments = SegmentClaims::new(file);
        let (first, rest) = words.split_at_mut(section_words(file));
        let (first_numbers, rest_numbers) = numbers.split_at_mut(section_numbers(file));
        Ok(Pieces {
            headers: Headers::new(file),
            sections,
            segments,
            section_words: built(&sections, first, first_numbers),
            segment_words: built(&segments, rest, rest_numbers),
            place: 0,
        })
    }

    /// The sum of the sizes of the pieces that are left: the size of the file, if none was taken.
    #[tactic(auto, using(crate::proofs::lemmas::FilePieces::counted))]
    pub fn total(self) -> usize
        ensures { result ≡ bytes_left self.entry }
    {
        // This tells the proof that the length is a number of 64 bits.
        let _len = self.len();
        let mut sum = 0;
        for piece in self {
            sum += piece.end - piece.begin;
        }
        sum
    }

    // The number of bytes of the file.
    #[inline(always)]
    fn len(&self) -> u64
        ensures { result ≡ byte_count (pieces_file self.now) }
    {
        self.sections.file.input.len() as u64
    }

    // The owner of a byte, and the end of its run.
    fn run(&self, byte: u64) -> (Owner, u64)
        requires { byte < byte_count (pieces_file self.now) }
        ensures { IsRun (pieces_file self.now) byte result.1 result.0 }
    {
        if let Some(run) = self.header_run(byte) {
            return run;
        }
        match self.innermost_section(byte) {
            Some(claim) => self.section_run(&claim, byte),
            None => self.outer_run(byte),
        }
    }

    // The same of a byte in the headers.
    #[inline(always)]
    fn header_run(&self, byte: u64) -> Option<(Owner, u64)>
        ensures { MatchOption result (OutsideHeaders (pieces_file self.now) byte)
            (λ run. IsRun (pieces_file self.now) byte run.1 run.0) }
    {
        self.headers.run(byte)
    }

    // The same of a byte in a section.
    #[inline(always)]
    fn section_run(&self, claim: &Claim, byte: u64) -> (Owner, u64)
        requires headers { OutsideHeaders (pieces_file self.now) byte }
        requires innermost { IsInnermost (section_claim (pieces_file self.now)) byte
            (Some claim.now) }
        ensures { IsRun (pieces_file self.now) byte result.1 result.0 }
    {
        let limit = limit_of(claim, self.len());
        let end = self.next_section(byte, limit);
        (Owner::Section(claim.index), end)
    }

    // The same of a byte outside of the headers and the sections.
    #[inline(always)]
    fn outer_run(&self, byte: u64) -> (Owner, u64)
        requires within { byte < byte_count (pieces_file self.now) }
        requires headers { OutsideHeaders (pieces_file self.now) byte }
        requires sections { IsInnermost (section_claim (pieces_file self.now)) byte None }
        ensures { IsRun (pieces_file self.now) byte result.1 result.0 }
    {
        match self.innermost_segment(byte) {
            Some(claim) => self.segment_run(&claim, byte),
            None => self.free_run(byte),
        }
    }

    // The same of a byte that is in a segment alone.
    #[inline(always)]
    fn segment_run(&self, claim: &Claim, byte: u64) -> (Owner, u64)
        requires headers { OutsideHeaders (pieces_file self.now) byte }
        requires sections { IsInnermost (section_claim (pieces_file self.now)) byte None }
        requires innermost { IsInnermost (segment_claim (pieces_file self.now)) byte
            (Some claim.now) }
        ensures { IsRun (pieces_file self.now) byte result.1 result.0 }
    {
        let limit = limit_of(claim, self.len());
        let end = self.next_part(byte, limit);
        (Owner::Segment(claim.index), end)
    }

    // The same of a byte that is in no part.
    #[inline(always)]
    fn free_run(&self, byte: u64) -> (Owner, u64)
        requires within { byte < byte_count (pieces_file self.now) }
        requires headers { OutsideHeaders (pieces_file self.now) byte }
        requires sections { IsInnermost (section_claim (pieces_file self.now)) byte None }
        requires segments { IsInnermost (segment_claim (pieces_file self.now)) byte None }
        ensures { IsRun (pieces_file self.now) byte result.1 result.0 }
    {
        let len = self.len();
        let end = self.next_part(byte, len);
        (between_or_behind(end, len), end)
    }

    // The innermost section that covers a byte.
    #[inline(always)]
    fn innermost_section(&self, byte: u64) -> Option<Claim>
        ensures { IsInnermost (section_claim (pieces_file self.now)) byte result }
    {
        self.section_index().innermost(byte)
    }

    // The innermost segment that covers a byte.
    #[inline(always)]
    fn innermost_segment(&self, byte: u64) -> Option<Claim>
        ensures { IsInnermost (segment_claim (pieces_file self.now)) byte result }
    {
        self.segment_index().innermost(byte)
    }

    // The next begin of a table of headers or a section after a byte, or the limit.
    #[inline(always)]
    fn next_section(&self, byte: u64, limit: u64) -> u64
        ensures { IsNext (SectionBegins (pieces_file self.now)) byte limit result }
    {
        let table = self.headers.next_table(byte, limit);
        next_claim(&self.sections, self.section_words.sized, byte, table)
    }

    // The next begin of a table of headers, a section or a segment after a byte, or the limit.
    #[inline(always)]
    fn next_part(&self, byte: u64, limit: u64) -> u64
        ensures { IsNext (PartBegins (pieces_file self.now)) byte limit result }
    {
        let section = self.next_section(byte, limit);
        next_claim(&self.segments, self.segment_words.sized, byte, section)
    }

    // The index of the sections.
    #[inline(always)]
    fn section_index(&self) -> ClaimIndex<'_, 'w, SectionClaims<'b, 'a>>
        ensures file { result.claims.now.file.now ≡ pieces_file self.now }
        ensures built { IsWellBuilt (section_claim result.claims.now.file.now)
            (section_range_at result.claims.now.file.now) result.sized.now result.begins.now
            result.sizes.now result.lasting.now result.starts.now }
    {
        ClaimIndex {
            claims: &self.sections,
            sized: self.section_words.sized,
            begins: self.section_words.begins,
            sizes: self.section_words.sizes,
            lasting: self.section_words.lasting,
            starts: self.section_words.starts,
        }
    }

    // The index of the segments.
    #[inline(always)]
    fn segment_index(&self) -> ClaimIndex<'_, 'w, SegmentClaims<'b, 'a>>
        ensures file { result.claims.now.file.now ≡ pieces_file self.now }
        ensures built { IsWellBuilt (segment_claim result.claims.now.file.now)
            (segment_range_at result.claims.now.file.now) result.sized.now result.begins.now
            result.sizes.now result.lasting.now result.starts.now }
    {
        ClaimIndex {
            claims: &self.segments,
            sized: self.segment_words.sized,
            begins: self.segment_words.begins,
            sizes: self.segment_words.sizes,
            lasting: self.segment_words.lasting,
            starts: self.segment_words.starts,
        }
    }
}

impl Iterator for Pieces<'_, '_, '_> {
    ghost use Rattle.elf_addresses.specs.Pieces.{PieceStep, pieces_left};

    type Item = Piece;

    ghost next_gives = { PieceStep };

    ghost remaining = { pieces_left };

    fn next(&mut self) -> Option<Piece> {
        let begin = self.place;
        if begin >= self.sections.file.input.len() {
            return None;
        }
        let (owner, end) = self.run(begin as u64);
        self.place = end as usize;
        Some(Piece {
            begin,
            end: end as usize,
            owner,
        })
    }
}

// The number of words for the index of the sections.
fn section_words(file: &ElfFile<'_>) -> usize
    ensures count { result
        ≡ word_count (section_claim file.now) (length (section_parts file.now)) }
    ensures few { result ≤ 0x300000000 }
{
    index_size(&SectionClaims::new(file)).words()
}

// The number of numbers for the index of the sections.
fn section_numbers(file: &ElfFile<'_>) -> usize
    ensures count { result
        ≡ number_count (section_claim file.now) (length (section_parts file.now)) }
    ensures few { result ≤ 0x300000000 }
{
    index_size(&SectionClaims::new(file)).numbers()
}

// The number of numbers for the index of the segments.
fn segment_numbers(file: &ElfFile<'_>) -> usize
    ensures count { result
        ≡ number_count (segment_claim file.now) (length (segment_parts file.now)) }
    ensures few { result ≤ 0x300000000 }
{
    index_size(&SegmentClaims::new(file)).numbers()
}

// The number of words for the index of the segments.
fn segment_words(file: &ElfFile<'_>) -> usize
    ensures count { result
        ≡ word_count (segment_claim file.now) (length (segment_parts file.now)) }
    ensures few { result ≤ 0x300000000 }
{
    index_size(&SegmentClaims::new(file)).words()
}

// The owner of a byte in no part, by the next begin of a part.
#[inline(always)]
fn between_or_behind(next: u64, len: u64) -> Owner
    ensures { result ≡ (if nat_lt next len then Between else Behind) }
{
    if next < len {
        Owner::Between
    } else {
        Owner::Behind
    }
}
