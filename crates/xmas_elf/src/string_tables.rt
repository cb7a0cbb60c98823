//! The string tables of symbols, found by name, and their texts (gABI, "String Table").

ghost use Rattle.std.specs.Prelude.{IfOk, codes};
ghost use Rattle.elf_base.specs.Lent.{Answers, IfPart};
ghost use Rattle.xmas_elf.specs.Place.{LiesAsNamed};
ghost use Rattle.xmas_elf.specs.StringTables.{IsDynString, IsDynstr, IsString, IsStrtab};
ghost use Rattle.xmas_elf.specs.StringTables.{dyn_string_of, dynstr_of, string_of, strtab_of};

use crate::bytes::text_at;
use crate::sections::ShType;
use crate::{ElfError, ElfFile};

impl<'a> ElfFile<'a> {
    /// The text at byte `index` of `.strtab`, up to the next zero byte of that section. It lives as
    /// long as the input.
    ///
    /// Errors: `NoStrtab` if no section has that name; `StrtabType` if the type of the first such
    /// section is not StrTab; `DataRange` if its data extends past the end of the input; those of
    /// `bytes::text_at`.
    ///
    /// Each call searches the section headers for the name. For many texts, get `raw_data` of the
    /// section once, and call `bytes::text_at` on it.
    #[tactic(auto, unfolding(crate::specs::StringTables::string_of))]
    pub fn get_string(&self, index: u32) -> Result<&'a str, ElfError>
        ensures text { IfPart (IsString self.now index) result }
        ensures exact { Answers (string_of self.now index) result }
    {
        text_at(self.strtab()?, index as usize)
    }

    /// The text at byte `index` of `.dynstr`, up to the next zero byte of that section. It lives as
    /// long as the input.
    ///
    /// Errors: `NoDynstr` if no section has that name; `DataRange` if the data of the first such
    /// section, of any type, extends past the end of the input; those of `bytes::text_at`.
    #[tactic(auto, unfolding(crate::specs::StringTables::dyn_string_of))]
    pub fn get_dyn_string(&self, index: u32) -> Result<&'a str, ElfError>
        ensures text { IfPart (IsDynString self.now index) result }
        ensures exact { Answers (dyn_string_of self.now index) result }
    {
        text_at(self.dynstr()?, index as usize)
    }

    // The data of `.strtab`.
    #[tactic(auto, unfolding(crate::specs::StringTables::strtab_of))]
    pub(crate) fn strtab(&self) -> Result<&'a [u8], ElfError>
        ensures table { IfPart (IsStrtab self.now) result }
        ensures place { IfOk result (LiesAsNamed self.now (codes ".strtab")) }
        ensures exact { Answers (strtab_of self.now) result }
    {
        let Some(section) = self.find_section_by_name(".strtab") else {
            return Err(ElfError::NoStrtab);
        };
        match section.get_type() {
            Ok(ShType::StrTab) => section.raw_data(self),
            _ => Err(ElfError::StrtabType),
        }
    }

    // The data of `.dynstr`, of any type.
    #[tactic(auto, unfolding(crate::specs::StringTables::dynstr_of))]
    pub(crate) fn dynstr(&self) -> Result<&'a [u8], ElfError>
        ensures table { IfPart (IsDynstr self.now) result }
        ensures place { IfOk result (LiesAsNamed self.now (codes ".dynstr")) }
        ensures exact { Answers (dynstr_of self.now) result }
    {
        let Some(section) = self.find_section_by_name(".dynstr") else {
            return Err(ElfError::NoDynstr);
        };
        section.raw_data(self)
    }
}
