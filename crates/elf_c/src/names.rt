//! Input ranges, and their texts (gABI, "String Table").

ghost use Rattle.std.specs.Prelude.{◌≡◌, ◌+◌, ◌≤◌, ℕ, IfOk, Result, length};
ghost use Rattle.elf_base.specs.Lent.{Answers};
ghost use Rattle.elf_c.specs.Batch.{Fills};
ghost use Rattle.elf_c.specs.Parsed.{file_of};
ghost use Rattle.elf_c.specs.Records.{AllLieIn, LiesIn, record_in, name_answer, name_range};
ghost use Rattle.elf_c.specs.Records.{name_range_by, names_range, text_range};
ghost use Rattle.elf_c.specs.Status.{Gives, GivesHere};
ghost use Rattle.elf_c.specs.declared.status.AnyError.{AnyError};
ghost use Rattle.xmas_elf.specs.Ranges.{range_of};
ghost use Rattle.xmas_elf.specs.SectionHeader.{section_list};
ghost use Rattle.xmas_elf.specs.SectionTable.{table_sections};

use crate::batch::{Records, fill};
use crate::file::Parsed;
use crate::status::{AnyError, Numbered, OK, give};
use elf_base::ElfError;
use elf_base::bytes::text_at;
use xmas_elf::ElfFile;
use xmas_elf::sections::{SectionHeader, SectionTable};

/// A byte range of the input.
#[repr(C)]
#[derive(Clone, Copy, Debug)]
pub struct Range {
    /// The offset of the first byte, from the start of the input.
    pub offset: u64,
    /// The number of bytes.
    pub size: u64,
}

/// The range of one of many names.
#[repr(C)]
#[derive(Clone, Copy, Debug)]
pub struct Name {
    /// The range of the name, without its zero byte; empty and at 0 if there is an error.
    pub range: Range,
    /// 0, or the number of the error for this name.
    pub status: u32,
}

impl Name {
    // The record for the range of a name, or for its error.
    #[inline(always)]
    pub(crate) fn of(answer: Result<Range, ElfError>) -> Name
        ensures { result ≡ name_answer answer }
    {
        match answer {
            Ok(range) => Name { range, status: OK },
            Err(error) => Name {
                range: Range { offset: 0, size: 0 },
                status: error.number(),
            },
        }
    }
}

// The bytes of a range.
#[inline(always)]
pub(crate) fn bytes_in<'a>(input: &'a [u8], part: &Range) -> Result<&'a [u8], ElfError>
    ensures exact { Answers (range_of input.now part.now.offset part.now.size) result }
    ensures within { IfOk result (λ bytes. (length bytes.now ≡ part.now.size)
        × (part.now.offset + part.now.size ≤ length input.now)) }
{
    let len = input.len() as u64;
    if part.offset > len || part.size > len - part.offset {
        return Err(ElfError::DataRange);
    }
    let (start, size) = (part.offset as usize, part.size as usize);
    Ok(&input[start..start + size])
}

// The range of the text at an index of a range.
#[inline(always)]
pub(crate) fn text_in(input: &[u8], part: &Range, index: u64) -> Result<Range, ElfError>
    ensures exact { result ≡ text_range input.now part.now index }
    ensures within { IfOk result (LiesIn input.now) }
{
    let bytes = bytes_in(input, part)?;
    let text = text_at(bytes, index as usize)?;
    prove!(input.len() <= usize::MAX);
    Ok(Range {
        offset: part.offset + index,
        size: text.len() as u64,
    })
}

/// The input range of the text at byte `index` of a range, up to the next zero byte of the range.
///
/// Errors: `DataRange` if the range extends past the end of the input;
/// those of `bytes::text_at`.
#[unsafe(no_mangle)]
pub extern "C" fn xmas_elf_text(input: &[u8], part: &Range, index: u64, out: &mut Range) -> u32
    ensures exact { Gives (text_range input.now part.now index) out.old result out.new }
    ensures within { result ≡ 0 → LiesIn input.now out.new }
{
    give(text_in(input, part, index), out)
}

// The range of the name table.
#[tactic(auto, unfolding(xmas_elf::specs::NameTable::names_section_of))]
#[inline(always)]
fn names_in(file: &ElfFile<'_>) -> Result<Range, ElfError>
    ensures exact { result ≡ names_range file.now }
    ensures within { IfOk result (LiesIn file.now.input.now) }
{
    let index = file.shstr_index()?;
    let section = file.section_header_at(u64::from(index))?;
    let (offset, len) = (section.offset(), file.input.len() as u64);
    if offset > len {
        return Err(ElfError::ShortSectionOffset);
    }
    Ok(Range {
        offset,
        size: len - offset,
    })
}

/// The range of the name table, which contains the names of sections;
/// one call is enough for many names.
///
/// It extends to the end of the input. The errors are those of `ElfFile::get_shstr` for a missing
/// table.
#[unsafe(no_mangle)]
pub extern "C" fn xmas_elf_names(input: &[u8], header: &Parsed, out: &mut Range) -> u32
    ensures exact { Gives (names_range (file_of input.entry header.now)) out.old result out.new }
    ensures within { result ≡ 0 → LiesIn input.now out.new }
{
    give(names_in(&header.file(input)), out)
}

// The range of a section's name, by that of the name table.
#[inline(always)]
fn name_of(
    input: &[u8],
    names: Result<Range, ElfError>,
    section: &SectionHeader,
) -> Result<Range, ElfError>
    ensures { result ≡ name_range_by input.now names section.now }
{
    text_in(input, &names?, u64::from(section.name()))
}

// The sections of a table, and the range of the table of their names.
#[derive(Drop)]
struct SectionNames<'b, 'a> {
    sections: SectionTable<'b, 'a>,
    names: Result<Range, ElfError>,
    input: &'a [u8],
}

impl Records for SectionNames<'_, '_> {
    type Item = SectionHeader;

    type Record = Name;

    ghost items = { λ names. table_sections names.sections };

    ghost record_of = { λ names section.
        name_answer (name_range_by names.input.now names.names section) };

    #[inline(always)]
    fn count(&self) -> usize {
        self.sections.len()
    }

    #[inline(always)]
    fn record(&self, index: usize) -> Name {
        match self.sections.get(index) {
            Some(section) => Name::of(name_of(self.input, self.names, &section)),
            None => unreachable!(),
        }
    }
}

/// The ranges of the names of the sections from index `first` on, each with its own status: as many as
/// fit in `out`, or all. `count` is set to their number; the rest of `out` is unchanged. The sections
/// are those of `xmas_elf_sections`.
///
/// A section of any type has a name, whose errors are those of `ElfFile::get_shstr`. Error of the
/// call: `NoRecord` if there is no section at `first`; `out` and `count` are then unchanged.
#[unsafe(no_mangle)]
pub extern "C" fn xmas_elf_section_names(
    input: &[u8],
    header: &Parsed,
    first: u64,
    out: &mut [Name],
    count: &mut u64,
) -> u32
    ensures exact { (answer : Result ℕ AnyError)
        × Fills (record_in
        (λ section. name_answer (name_range (file_of input.entry header.now) section))
        (section_list (file_of input.entry header.now))) first out.old answer out.new
        × GivesHere answer count.old result count.new }
    ensures within { result ≡ 0 → AllLieIn input.now count.new out.new }
{
    let file = header.file(input);
    let names = SectionNames {
        sections: file.section_table(),
        names: names_in(&file),
        input,
    };
    give(fill(names, first, out), count)
}
