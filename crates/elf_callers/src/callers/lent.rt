//! Callers that go by where a returned slice lies.

ghost use Rattle.std.specs.Prelude.{◌≡◌, ◌≢◌, ◌≤◌, ◌-◌};
ghost use Rattle.std.specs.Prelude.{MatchOption, None, Ok, Some};
ghost use Rattle.elf_callers.specs.Kinds.{symbols_64_in};
ghost use Rattle.xmas_elf.specs.Lent.{LiesAt};
ghost use Rattle.xmas_elf.specs.Place.{LiesAsSection};
ghost use Rattle.xmas_elf.specs.ProgramHeader.{HasSegmentData, IsSegmentData, program_fields};
ghost use Rattle.xmas_elf.specs.SectionContent.{section_content_of};
ghost use Rattle.xmas_elf.specs.SectionData.{HasSectionData, IsSectionData};
ghost use Rattle.xmas_elf.specs.SectionHeader.{section_fields};
ghost use Rattle.xmas_elf.specs.Types.{ElfFile};

use xmas_elf::ElfFile;
use xmas_elf::program::ProgramHeader;
use xmas_elf::sections::{SectionData, SectionHeader};

/// The data of a segment and of a section of one file.
#[derive(Clone, Copy, Debug)]
pub struct Overlay<'a> {
    /// The segment's.
    pub outer: &'a [u8],
    /// The section's.
    pub inner: &'a [u8],
    /// How many bytes after the first of the segment's the section's begin.
    pub place: u64,
}

/// The data of a section that begins in a segment, and its place there: both parts are the memory
/// of the input, so what follows the place in the one is the other.
#[tactic(auto, using(xmas_elf::proofs::lemmas::Lent::lies_between))]
pub fn section_in_segment<'a>(
    file: &ElfFile<'a>,
    program: &ProgramHeader,
    section: &SectionHeader,
) -> Overlay<'a>
    requires segment { HasSegmentData file.now (program_fields program.now) }
    requires full { (program_fields program.now).file_size ≢ 0 }
    requires section { HasSectionData file.now section.now }
    requires behind { (program_fields program.now).offset ≤ (section_fields section.now).offset }
    ensures outer { IsSegmentData file.now (program_fields program.now) result.outer.now }
    ensures inner { IsSectionData file.now section.now result.inner.now }
    ensures place { result.place
        ≡ (section_fields section.now).offset - (program_fields program.now).offset }
    ensures lies { LiesAt result.outer result.place result.inner }
{
    let Ok(outer) = program.raw_data(file) else {
        unreachable!()
    };
    let Ok(inner) = section.raw_data(file) else {
        unreachable!()
    };
    let place = section.offset() - program.offset();
    Overlay {
        outer,
        inner,
        place,
    }
}

/// The bytes of the symbols of a section of class 64, which are the section's own in the input.
pub fn symbol_bytes<'a>(file: &ElfFile<'a>, section: &SectionHeader) -> Option<&'a [u8]>
    ensures { let found = symbols_64_in (section_content_of file.now section.now) in
        MatchOption result
        (found ≡ None)
        (λ part. (found ≡ Some part.now) × LiesAsSection file.now section.now part) }
{
    match section.get_data(file) {
        Ok(SectionData::SymbolTable64(table)) => Some(table.bytes()),
        _ => None,
    }
}
