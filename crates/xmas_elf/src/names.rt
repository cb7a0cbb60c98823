//! The names of sections, and a section by its name
//! (gABI, "String Table" and "Sections", sh_name).

ghost use Rattle.std.specs.Prelude.{◌≡◌, ◌↔◌, ◌+◌, ◌≤◌, Err, IfNone, IfOk, IfSome, IsTrue};
ghost use Rattle.std.specs.Prelude.{Ok, length, ℕ};
ghost use Rattle.elf_base.specs.Lent.{Answers, IfPart};
ghost use Rattle.elf_base.specs.Text.{lent_text};
ghost use Rattle.xmas_elf.specs.HeaderTable.{EachBelow};
ghost use Rattle.xmas_elf.specs.NameTable.{HasName, FindsNamed, IsFirstNamed, IsNameAt};
ghost use Rattle.xmas_elf.specs.NameTable.{IsNameBytesAt, IsNameTable, LiesAsName};
ghost use Rattle.xmas_elf.specs.NameTable.{LiesAsNameTable, NameCompared, name_table_of};
ghost use Rattle.xmas_elf.specs.NameTable.{names_section_of, section_named, shstr_bytes_of, shstr_of};
ghost use Rattle.xmas_elf.specs.SectionHeader.{section_fields, section_list, section_of};

use crate::bytes::{bytes_up_to_zero, text_at, text_is};
use crate::sections::{SectionHeader, section_entry};
use crate::{ElfError, ElfFile};

impl<'a> ElfFile<'a> {
    /// The text at byte `index` of the name table, up to the next zero byte of the input, even past
    /// the end of the section. It lives as long as the input.
    ///
    /// Errors: those of `shstr_index`, then those of `section_header_at` for that index, then
    /// `ShortSectionOffset` if that section begins past the end of the input, then those of
    /// `bytes::text_at`.
    #[tactic(auto, unfolding(crate::specs::NameTable::shstr_of))]
    #[inline(always)]
    pub fn get_shstr(&self, index: u32) -> Result<&'a str, ElfError>
        ensures name { IfPart (IsNameAt self.now index) result }
        ensures exact { Answers (shstr_of self.now index) result }
    {
        text_at(self.name_table()?, index as usize)
    }

    /// The bytes at byte `index` of the name table, up to the next zero byte of the input, whether
    /// or not they are UTF-8: the text of `get_shstr`, where that is Ok.
    ///
    /// Errors: those of `get_shstr` except `TextUtf8`.
    #[tactic(auto, unfolding(crate::specs::NameTable::shstr_bytes_of, crate::specs::NameTable::shstr_of))]
    #[inline(always)]
    pub fn get_shstr_bytes(&self, index: u32) -> Result<&'a [u8], ElfError>
        ensures bytes { IfPart (IsNameBytesAt self.now index) result }
        ensures place { IfOk result (LiesAsName self.now index) }
        ensures as_text { shstr_of self.now index ≡ lent_text result }
        ensures exact { Answers (shstr_bytes_of self.now index) result }
    {
        bytes_up_to_zero(self.name_table()?, index as usize)
    }

    /// The bytes of a section's name, whatever the type of the section: Null and unknown types too.
    /// They need not be UTF-8, and live as long as the input.
    ///
    /// Errors: those of `get_shstr_bytes`, for the section's index in the name table (gABI,
    /// "Sections", sh_name).
    #[inline(always)]
    pub fn section_name(&self, section: &SectionHeader) -> Result<&'a [u8], ElfError>
        ensures bytes { IfPart (IsNameBytesAt self.now (section_fields section.now).name) result }
        ensures place { IfOk result (LiesAsName self.now (section_fields section.now).name) }
        ensures exact { Answers
            (shstr_bytes_of self.now (section_fields section.now).name) result }
    {
        self.get_shstr_bytes(section.name())
    }

    /// Whether the text at byte `index` of the name table equals `name`, and the number of bytes
    /// compared: 0 if there is no name table, otherwise as in `bytes::text_is`.
    #[inline(always)]
    pub fn shstr_is(&self, index: u32, name: &str) -> (bool, usize)
        ensures is { IsTrue result.0 ↔ IsNameAt self.now index name.now }
        ensures compared { NameCompared (name_table_of self.now) index name.now result.0 result.1 }
        ensures few { result.1 ≤ length name.now + 1 }
    {
        match self.name_table() {
            Ok(names) => text_is(names, index as usize, name),
            Err(_) => (false, 0),
        }
    }

    // The section that contains the section names.
    #[tactic(auto, unfolding(crate::specs::NameTable::names_section_of))]
    #[inline(always)]
    fn names_section(&self) -> Result<SectionHeader, ElfError>
        ensures { result ≡ names_section_of self.now }
    {
        let index = u64::from(self.shstr_index()?);
        section_entry(self.input, &self.header, index)
    }

    // The input from the offset of the section with the names on, whatever its type and size.
    #[tactic(auto, unfolding(crate::specs::NameTable::name_table_of))]
    #[inline(always)]
    pub(crate) fn name_table(&self) -> Result<&'a [u8], ElfError>
        ensures table { IfPart (IsNameTable self.now) result }
        ensures place { IfOk result (LiesAsNameTable self.now) }
        ensures exact { Answers (name_table_of self.now) result }
    {
        let offset = self.names_section()?.offset();
        if offset > self.input.len() as u64 {
            return Err(ElfError::ShortSectionOffset);
        }
        Ok(&self.input[offset as usize..])
    }

    /// The first section with this name, in the order of `section_iter`; names are compared in
    /// place. A section is skipped if its type is Null, or an error of `get_type`: `.relr.dyn`.
    pub fn find_section_by_name(&self, name: &str) -> Option<SectionHeader>
        ensures list { FindsNamed self.now name.now result }
        ensures found { IfSome result (λ section. (index : ℕ)
            × IsFirstNamed self.now name.now index section) }
        ensures missing { IfNone result (EachBelow (section_of self.now)
            (λ section. ¬ HasName self.now section name.now) (length (section_list self.now))) }
        ensures exact { result ≡ section_named self.now name.now }
    {
        self.section_table().find_by_name(name)
    }
}
