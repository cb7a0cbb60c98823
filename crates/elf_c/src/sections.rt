//! The sections of a file (gABI, "Sections").

ghost use Rattle.std.specs.Prelude.{◌≡◌, ◌↔◌, ◌+◌, ◌≤◌, ℕ, IfOk, IsTrue, Ok, Result, length};
ghost use Rattle.elf_base.specs.FirstError.{and_then};
ghost use Rattle.elf_c.specs.Batch.{Stores};
ghost use Rattle.elf_c.specs.Parsed.{file_of};
ghost use Rattle.elf_c.specs.Records.{FindsIndex, record_in, found_section, section_data_range};
ghost use Rattle.elf_c.specs.Records.{LiesIn, is_relr_type, range_at, section_checked, section_record};
ghost use Rattle.elf_c.specs.Status.{Gives, GivesHere};
ghost use Rattle.elf_c.specs.declared.status.AnyError.{AnyError};
ghost use Rattle.xmas_elf.specs.First.{FindsFirstAt};
ghost use Rattle.xmas_elf.specs.NameTable.{HasName};
ghost use Rattle.xmas_elf.specs.SectionHeader.{section_list, section_of};
ghost use Rattle.xmas_elf.specs.SectionTable.{section_table_file, table_sections};

use crate::batch::{Records, fill};
use crate::file::Parsed;
use crate::names::Range;
use crate::status::{AnyError, give};
use elf_base::ElfError;
use elf_linking::sections::SHT_RELR;
use std::str::from_utf8;
use xmas_elf::ElfFile;
use xmas_elf::sections::{SectionHeader, SectionTable, sanity_check};

/// A section header, as numbers.
#[repr(C)]
#[derive(Clone, Copy, Debug)]
pub struct Section {
    /// The flags of the section.
    pub flags: u64,
    /// The virtual address of the section, or 0.
    pub address: u64,
    /// The file offset of the section in bytes.
    pub offset: u64,
    /// The size of the section in bytes.
    pub size: u64,
    /// The alignment of the section's address, in bytes.
    pub align: u64,
    /// The size of an entry of the section in bytes, or 0.
    pub entry_size: u64,
    /// The offset of the section's name in the name table, in bytes.
    pub name: u32,
    /// The type of the section.
    pub type_: u32,
    /// The index of a section that this one links to, for the types that have one.
    pub link: u32,
    /// Extra information, which depends on the type of the section.
    pub info: u32,
}

impl Section {
    // The numbers of a section header.
    #[inline(always)]
    pub(crate) fn of(section: &SectionHeader) -> Section
        ensures { result ≡ section_record section.now }
    {
        Section {
            flags: section.flags(),
            address: section.address(),
            offset: section.offset(),
            size: section.size(),
            align: section.align(),
            entry_size: section.entry_size(),
            name: section.name(),
            type_: section.type_().raw(),
            link: section.link(),
            info: section.info(),
        }
    }
}

// The numbers of the section header at an index.
#[inline(always)]
fn section_at(file: &ElfFile<'_>, index: u64) -> Result<Section, ElfError>
    ensures { result
        ≡ and_then (section_of file.now index) (λ section. Ok (section_record section)) }
{
    Ok(Section::of(&file.section_header_at(index)?))
}

/// The section header at an index; the errors are those of `ElfFile::section_header_at`.
#[unsafe(no_mangle)]
pub extern "C" fn xmas_elf_section(
    input: &[u8],
    header: &Parsed,
    index: u64,
    out: &mut Section,
) -> u32
    ensures { Gives (and_then (section_of (file_of input.entry header.now) index)
        (λ section. Ok (section_record section))) out.old result out.new }
{
    give(section_at(&header.file(input), index), out)
}

// Whether a section is of type SHT_RELR.
#[inline(always)]
fn is_relr(section: &SectionHeader) -> bool
    ensures { result ≡ is_relr_type section.now }
{
    section.type_().raw() == SHT_RELR
}

// Checks the section header at an index.
#[inline(always)]
fn check_at(file: &ElfFile<'_>, index: u64) -> Result<(), ElfError>
    ensures { result ≡ and_then (section_of file.now index) section_checked }
{
    let section = file.section_header_at(index)?;
    if is_relr(&section) {
        return Ok(());
    }
    sanity_check(section, file)
}

/// Checks the section header at an index: that its type is known, `SHT_RELR` too.
///
/// Errors: those of `ElfFile::section_header_at`; those of `sections::sanity_check`, if the type is
/// not `SHT_RELR`.
#[unsafe(no_mangle)]
pub extern "C" fn xmas_elf_check_section(input: &[u8], header: &Parsed, index: u64) -> u32
    ensures { Gives (and_then (section_of (file_of input.entry header.now) index) section_checked)
        tt result tt }
{
    give(check_at(&header.file(input), index), &mut ())
}

impl Records for SectionTable<'_, '_> {
    type Item = SectionHeader;

    type Record = Section;

    ghost items = { table_sections };

    ghost record_of = { λ _ section. section_record section };

    #[inline(always)]
    fn count(&self) -> usize {
        self.len()
    }

    #[inline(always)]
    fn record(&self, index: usize) -> Section {
        match self.get(index) {
            Some(section) => Section::of(&section),
            None => unreachable!(),
        }
    }
}

/// The section headers from index `first` on, each as in `xmas_elf_section`: as many as fit in
/// `out`, or all, up to the number of sections or the first error. `count` is set to their number;
/// the rest of `out` is unchanged.
///
/// Error: `NoRecord` if there is none at `first`;
/// `out` and `count` are then unchanged.
#[unsafe(no_mangle)]
pub extern "C" fn xmas_elf_sections(
    input: &[u8],
    header: &Parsed,
    first: u64,
    out: &mut [Section],
    count: &mut u64,
) -> u32
    ensures { Stores (record_in section_record (section_list (file_of input.entry header.now)))
        first out.old out.new count.old result count.new }
{
    let file = header.file(input);
    give(fill(file.section_table(), first, out), count)
}

// The range of the data of a section of any type.
#[inline(always)]
fn file_range(section: &SectionHeader, file: &ElfFile<'_>) -> Result<(usize, usize), ElfError>
    ensures exact { and_then result (λ range. Ok (range_at range.0 range.1))
        ≡ section_data_range file.now section.now }
    ensures within { IfOk result (λ range. range.0 + range.1 ≤ length file.now.input.now) }
{
    if !is_relr(section) {
        return section.file_range(file);
    }
    let len = file.input.len() as u64;
    let (offset, size) = (section.offset(), section.size());
    if offset > len || size > len - offset {
        return Err(ElfError::DataRange);
    }
    Ok((offset as usize, size as usize))
}

// The range of the data of the section at an index.
#[inline(always)]
pub(crate) fn section_range_at(file: &ElfFile<'_>, index: u64) -> Result<Range, ElfError>
    ensures exact { result ≡ and_then (section_of file.now index) (section_data_range file.now) }
    ensures within { IfOk result (LiesIn file.now.input.now) }
{
    let section = file.section_header_at(index)?;
    let range = file_range(&section, file)?;
    Ok(Range {
        offset: range.0 as u64,
        size: range.1 as u64,
    })
}

/// The input range of the data of the section at an index.
///
/// Errors: those of `ElfFile::section_header_at`; for type `SHT_RELR` `DataRange` if the section
/// extends past the end of the input; for other types those of `SectionHeader::file_range`.
#[unsafe(no_mangle)]
pub extern "C" fn xmas_elf_section_data(
    input: &[u8],
    header: &Parsed,
    index: u64,
    out: &mut Range,
) -> u32
    ensures exact { Gives (and_then (section_of (file_of input.entry header.now) index)
        (section_data_range (file_of input.entry header.now))) out.old result out.new }
    ensures within { result ≡ 0 → LiesIn input.now out.new }
{
    give(section_range_at(&header.file(input), index), out)
}

// The numbers of the first section with a name.
#[tactic(auto, using(crate::proofs::FoundSections::found_utf8, crate::proofs::FoundSections::found_not_utf8))]
#[inline(always)]
fn section_with_name(file: &ElfFile<'_>, name: &[u8]) -> Result<Section, AnyError>
    ensures { result ≡ found_section file.now name.now }
{
    let Ok(name) = from_utf8(name) else {
        return Err(AnyError::NotFound);
    };
    match file.find_section_by_name(name) {
        Some(section) => Ok(Section::of(&section)),
        None => Err(AnyError::NotFound),
    }
}

/// The first section with a name, as in `ElfFile::find_section_by_name`, which skips type
/// `SHT_RELR`. `NotFound` if no section has it, or if it isn't UTF-8.
#[unsafe(no_mangle)]
pub extern "C" fn xmas_elf_find_section(
    input: &[u8],
    header: &Parsed,
    name: &[u8],
    out: &mut Section,
) -> u32
    ensures { GivesHere (found_section (file_of input.entry header.now) name.now)
        out.old result out.new }
{
    give(section_with_name(&header.file(input), name), out)
}

// Whether a section of a table has a name.
#[inline(always)]
fn has_name(table: &SectionTable<'_, '_>, section: &SectionHeader, name: &str) -> bool
    ensures { IsTrue result ↔ HasName (section_table_file table.now) section.now name.now }
{
    match table.name_of(section) {
        Ok(text) => text == name,
        Err(_) => false,
    }
}

// The index of the first section of a table with a name.
fn position_of_name(table: &SectionTable<'_, '_>, name: &str) -> Option<usize>
    ensures { FindsFirstAt (λ section. HasName (section_table_file table.now) section name.now)
        (table_sections table.now) result }
{
    table
        .iter()
        .position(|section| has_name(table, &section, name))
}

// The index of the first section with a name.
fn index_with_name(file: &ElfFile<'_>, name: &[u8]) -> Result<u64, AnyError>
    ensures { FindsIndex file.now name.now result }
{
    let Ok(name) = from_utf8(name) else {
        return Err(AnyError::NotFound);
    };
    match position_of_name(&file.section_table(), name) {
        Some(index) => Ok(index as u64),
        None => Err(AnyError::NotFound),
    }
}

/// The index of the first section with a name, that of `xmas_elf_find_section`. `NotFound` if no
/// section has it, or if it isn't UTF-8.
#[unsafe(no_mangle)]
pub extern "C" fn xmas_elf_find_section_index(
    input: &[u8],
    header: &Parsed,
    name: &[u8],
    out: &mut u64,
) -> u32
    ensures { (answer : Result ℕ AnyError)
        × FindsIndex (file_of input.entry header.now) name.now answer
        × GivesHere answer out.old result out.new }
{
    give(index_with_name(&header.file(input), name), out)
}
