//! The version of a symbol (LSB, "Symbol Versioning").

ghost use Rattle.std.specs.Prelude.{◌≡◌, ◌<◌, ℕ, Err, IsOkAnd, Ok, Option, option_map};
ghost use Rattle.std.specs.Str.{bytes_eq};
ghost use Rattle.elf_linking.specs.Loaded.{lent};
ghost use Rattle.elf_linking.specs.VersionList.{entry_of, named_in, numbers_in, versions_in};
ghost use Rattle.elf_linking.specs.VersionTables.{definition_parts, definitions_in, result_map};
ghost use Rattle.elf_linking.specs.VersionTables.{need_parts, needs_in};
ghost use Rattle.elf_linking.specs.Versions.{CanBeRead, HasReadableName, entry_item, first_item};
ghost use Rattle.elf_linking.specs.Versions.{defines_number, needs_number, version_tables};
ghost use Rattle.elf_linking.specs.Versions.{item_with, named_at, number_of};
ghost use Rattle.elf_linking.specs.Versions.{named_entry, named_parts, version_at, version_item};
ghost use Rattle.elf_linking.specs.Versions.{version_list};

use crate::LinkError;
use crate::versions::definitions::definition_at;
use crate::versions::{Definition, Need, Versions};
use elf_base::bytes::read_u16;

/// The definition or the need that a symbol's version number names.
#[derive(Clone, Copy, Debug)]
pub enum NamedVersion<'a> {
    /// A version that the file defines.
    Defined(Definition<'a>),
    /// A version that the file needs of a library.
    Needed(Need<'a>),
}

impl<'a> NamedVersion<'a> {
    /// The hash number of the name, that of the ELF standard's hash tables.
    #[inline(always)]
    pub fn hash(&self) -> u32
        ensures { result ≡ (named_entry self.now).hash }
    {
        match self {
            NamedVersion::Defined(definition) => definition.hash,
            NamedVersion::Needed(need) => need.hash,
        }
    }

    /// Whether it is hidden: a need with bit 15 of its number set. A definition is not.
    #[inline(always)]
    pub fn hidden(&self) -> bool
        ensures { result ≡ (named_entry self.now).hidden }
    {
        match self {
            NamedVersion::Defined(_) => false,
            NamedVersion::Needed(need) => need.hidden,
        }
    }

    /// The name; the errors are those of `Definition::name` and `Need::name`. There is none for what
    /// `Versions::version_of` returns, if `Versions::check` is Ok.
    #[inline(always)]
    pub fn name(&self) -> Result<&'a str, LinkError>
        ensures { lent result ≡ (named_entry self.now).name }
    {
        match self {
            NamedVersion::Defined(definition) => definition.name(),
            NamedVersion::Needed(need) => need.name(),
        }
    }

    // Whether this is the name; the errors are those of `name`.
    #[inline(always)]
    pub(crate) fn has_name(&self, name: &str) -> Result<bool, LinkError>
        ensures { result
            ≡ result_map (λ other. bytes_eq other name.now) (named_entry self.now).name }
    {
        match self {
            NamedVersion::Defined(definition) => definition.has_name(name),
            NamedVersion::Needed(need) => need.has_name(name),
        }
    }
}

/// The version of a symbol.
#[derive(Clone, Copy, Debug)]
pub struct SymbolVersion<'a> {
    /// The number of the version (bits 0 to 14): 0 is local, 1 is global.
    pub number: u16,
    /// Whether the version is hidden (bit 15): only a reference with a version finds the symbol.
    pub hidden: bool,
    /// The definition or need with the number; `None` for 0 and 1.
    pub named: Option<NamedVersion<'a>>,
}

impl<'a> Versions<'a> {
    /// The number of the symbol at `index` as the file has it, in 16 bits; `None` if the file
    /// has no numbers of symbols.
    ///
    /// The error is `SymbolIndex` if there is no number at this index.
    #[inline(always)]
    pub fn number(&self, index: u32) -> Result<Option<u16>, LinkError>
        ensures tables { result ≡ number_of (numbers_in (version_tables self.now)) index }
        ensures list { result ≡ number_of (version_list self.now).numbers index }
    {
        let Some(numbers) = self.numbers else {
            return Ok(None);
        };
        let place = index as usize * 2;
        if place + 2 > numbers.len() {
            return Err(LinkError::SymbolIndex);
        }
        Ok(Some(read_u16(numbers, place, self.definitions.records.order)))
    }

    /// The version of the symbol at `index`, with the definition or need that has its number: the
    /// first definition that isn't the base, otherwise the first need; `None` if the file has no
    /// numbers of symbols.
    ///
    /// Errors: that of `number`; the error with which `definitions` or `needs` end before the number
    /// is found. If `check` is Ok for more symbols than `index`, there is no error, and the name of
    /// the version can be read. A call goes through both lists once at most, and reads no name. A
    /// definition with a number below 64 is found at once, if it is one of the first 64 and lies in
    /// the first 64 KiB of the table.
    pub fn version_of(&self, index: u32) -> Result<Option<SymbolVersion<'a>>, LinkError>
        ensures exact { entry_item result ≡ version_at (version_list self.now) index }
        ensures readable { (count : ℕ) → CanBeRead (version_list self.now) count → index < count
            → IsOkAnd (entry_item result) HasReadableName }
        ensures named { version_item result ≡ named_at (version_tables self.now) index }
        ensures listed { version_list self.now ≡ versions_in (version_tables self.now) }
    {
        self.version_by_tables(index)
    }

    // The same by the tables.
    #[inline(always)]
    fn version_by_tables(&self, index: u32) -> Result<Option<SymbolVersion<'a>>, LinkError>
        ensures { version_item result ≡ named_at (version_tables self.now) index }
    {
        let Some(raw) = self.number(index)? else {
            return Ok(None);
        };
        let number = raw % 0x8000;
        Ok(Some(SymbolVersion {
            number,
            hidden: raw >= 0x8000,
            named: self.named(number)?,
        }))
    }

    // The definition or need with a number.
    fn named(&self, number: u16) -> Result<Option<NamedVersion<'a>>, LinkError>
        ensures { result_map (option_map named_parts) result ≡ item_with
            (λ named. (entry_of named).number) (named_in (version_tables self.now)) number }
    {
        if number < 2 {
            return Ok(None);
        }
        if let Some(definition) = self.definition_with(number)? {
            return Ok(Some(NamedVersion::Defined(definition)));
        }
        Ok(self.need_with(number)?.map(NamedVersion::Needed))
    }

    // The first definition with a number that isn't the base.
    fn definition_with(&self, number: u16) -> Result<Option<Definition<'a>>, LinkError>
        ensures { result_map (option_map definition_parts) result ≡ first_item (defines_number number)
            (definitions_in (version_tables self.now).definitions) }
    {
        match self.definitions.place_of(number) {
            Some(place) => Ok(Some(definition_at(&self.definitions.records, place))),
            None => self.definition_listed(number),
        }
    }

    // The first definition with a number that isn't the base, by a search of the list.
    #[tactic(auto, using(crate::proofs::lemmas::FirstItems::search_end, crate::proofs::lemmas::FirstItems::search_fault, crate::proofs::lemmas::FirstItems::search_found, crate::proofs::lemmas::FirstItems::search_other))]
    fn definition_listed(&self, number: u16) -> Result<Option<Definition<'a>>, LinkError>
        ensures { result_map (option_map definition_parts) result ≡ first_item (defines_number number)
            (definitions_in (version_tables self.now).definitions) }
    {
        for item in self.definitions() {
            let definition = item?;
            if definition.has_number(number) {
                return Ok(Some(definition));
            }
        }
        Ok(None)
    }

    // The first need with a number.
    #[tactic(auto, using(crate::proofs::lemmas::FirstItems::search_end, crate::proofs::lemmas::FirstItems::search_fault, crate::proofs::lemmas::FirstItems::search_found, crate::proofs::lemmas::FirstItems::search_other))]
    fn need_with(&self, number: u16) -> Result<Option<Need<'a>>, LinkError>
        ensures { result_map (option_map need_parts) result ≡ first_item (needs_number number)
            (needs_in (version_tables self.now).needs) }
    {
        for item in self.needs() {
            let need = item?;
            if need.has_number(number) {
                return Ok(Some(need));
            }
        }
        Ok(None)
    }
}
