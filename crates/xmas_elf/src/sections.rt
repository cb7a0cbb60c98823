//! The sections of a file, by index and in order (gABI, "Sections").

ghost use Rattle.std.specs.Prelude.{◌≡◌, ◌↔◌, ◌+◌, ◌*◌, ◌^◌, ◌<◌, ◌≤◌, IfOk, IsOk, length};
ghost use Rattle.std.specs.Iterator.{YieldsFirst, item_count};
ghost use Rattle.xmas_elf.specs.Checks.{section_check};
ghost use Rattle.xmas_elf.specs.SectionHeader.{HasSectionEntry, HasSectionHeader, SectionStep};
ghost use Rattle.xmas_elf.specs.SectionHeader.{section_at_index, section_by_u16, section_count_of};
ghost use Rattle.xmas_elf.specs.SectionHeader.{section_list, section_of, section_rest};
ghost use Rattle.xmas_elf.specs.HeaderTable.{IsLongest};

mod content;
mod section_header;
mod strings;
mod table;
mod text;

pub use crate::sections::content::SectionData;
pub use crate::sections::section_header::{SectionHeader, SectionHeader_, parse_section_header};
pub(crate) use crate::sections::section_header::{read_at_place, section_at_place, section_entry};
pub use crate::sections::strings::SectionStrings;
pub use crate::sections::table::{SectionTable, SectionTableIter};
pub(crate) use crate::sections::text::SectionType;
use crate::{ElfError, ElfFile};
pub use elf_records::sections::{
    GRP_COMDAT, GRP_MASKOS, GRP_MASKPROC, NoteHeader, Rel, Rela, SHF_ALLOC, SHF_COMPRESSED,
    SHF_EXECINSTR, SHF_GROUP, SHF_INFO_LINK, SHF_LINK_ORDER, SHF_MASKOS, SHF_MASKPROC, SHF_MERGE,
    SHF_OS_NONCONFORMING, SHF_STRINGS, SHF_TLS, SHF_WRITE, SHN_ABS, SHN_COMMON, SHN_HIOS,
    SHN_HIPROC, SHN_HIRESERVE, SHN_LOOS, SHN_LOPROC, SHN_LORESERVE, SHN_UNDEF, SHN_XINDEX,
    SHT_HIOS, SHT_HIPROC, SHT_HIUSER, SHT_LOOS, SHT_LOPROC, SHT_LOUSER, ShType, ShType_,
};

impl<'a> ElfFile<'a> {
    /// The section header at `index`; the errors are those of `sections::parse_section_header`.
    #[inline(always)]
    pub fn section_header(&self, index: u16) -> Result<SectionHeader, ElfError>
        ensures readable { IsOk result ↔ HasSectionHeader self.now.input.now self.now.header index }
        ensures value { IfOk result (λ section. section
            ≡ section_at_index self.now.input.now self.now.header index) }
        ensures exact { result ≡ section_by_u16 self.now.input.now self.now.header index }
    {
        parse_section_header(self.input, self.header, index)
    }

    /// The section header at `index` of the section header table, which may be any: no index is
    /// reserved, and it is not compared with the number of sections.
    ///
    /// Errors: `ShortSectionHeader`, `UnknownClass` and `SmallEntry`, under the conditions of
    /// `sections::parse_section_header`.
    #[inline(always)]
    pub fn section_header_at(&self, index: u64) -> Result<SectionHeader, ElfError>
        ensures readable { IsOk result ↔ HasSectionEntry self.now.input.now self.now.header index }
        ensures value { IfOk result (λ section. section
            ≡ section_at_index self.now.input.now self.now.header index) }
        ensures exact { result ≡ section_of self.now index }
    {
        section_entry(self.input, &self.header, index)
    }

    /// An iterator over the section headers, from index 0 on.
    ///
    /// It ends before the first header that can't be read. To notice that, compare
    /// `section_iter().count()` with `section_count()`. `get_name` and `raw_data` return an error
    /// for section 0, which has type Null, and for a section of a type without a `ShType`, such as
    /// `.relr.dyn`. So don't end a loop at the first error.
    pub fn section_iter(&self) -> SectionIter<'_, 'a>
        ensures file { result.file.now ≡ self.now }
        ensures first { result.next_index ≡ 0 }
        ensures longest { IsLongest (section_of self.now) (section_count_of self.now)
            (section_rest result) }
        ensures all { section_rest result ≡ section_list self.now }
        ensures room { length (section_rest result) * 40 ≤ length self.now.input.now }
        ensures fits { length (section_rest result) < 2 ^ 59 }
    {
        // This tells the proof of `fits` that the length is a number of 64 bits.
        prove!(self.input.len() <= usize::MAX);
        SectionIter {
            file: self,
            next_index: 0,
        }
    }
}

/// An iterator over the section headers of a file, up to the number of sections
/// or the first error.
#[derive(Clone, Debug, Drop)]
pub struct SectionIter<'b, 'a> {
    /// The file with the sections.
    pub file: &'b ElfFile<'a>,
    /// The index of the next section header.
    pub next_index: u64,
}

impl SectionIter<'_, '_> {
    /// Returns the section header at the next index, and advances the index. At the end it returns
    /// `None` and keeps the index, so that it returns only `None` from then on.
    ///
    /// It is `Iterator::next` with a contract for the index.
    #[inline(always)]
    pub fn next(&mut self) -> Option<SectionHeader>
        ensures { SectionStep self.old result self.new }
    {
        if self.next_index >= self.file.section_count() {
            return None;
        }
        let section = self.file.section_header_at(self.next_index).ok()?;
        self.next_index += 1;
        Some(section)
    }
}

impl Iterator for SectionIter<'_, '_> {
    type Item = SectionHeader;

    ghost next_gives = { YieldsFirst section_rest };

    ghost remaining = { item_count section_rest };

    #[inline(always)]
    fn next(&mut self) -> Option<SectionHeader> {
        SectionIter::next(self)
    }
}

/// Checks a section header; the only error is `InvalidShType`.
#[inline(always)]
pub fn sanity_check(section: SectionHeader, _file: &ElfFile<'_>) -> Result<(), ElfError>
    ensures { result ≡ section_check section }
{
    let _kind = section.get_type()?;
    Ok(())
}
