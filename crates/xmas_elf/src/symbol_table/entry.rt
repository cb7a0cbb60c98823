//! The trait of the entries of all symbol tables (gABI, "Symbol Table").

ghost use Rattle.std.specs.Prelude.{◌≡◌, ℕ, IfOk, IfSome, IsSomeAnd, List};
ghost use Rattle.std.specs.Prelude.{MatchResult, None, Ok, Option, Result, Some};
ghost use Rattle.std.specs.Borrow.{Bor};
ghost use Rattle.std.proofs.Common.{rules};
ghost use Rattle.elf_base.specs.Lent.{Answers};
ghost use Rattle.elf_records.specs.SymbolNumbers.{visibility_raw};
ghost use Rattle.xmas_elf.specs.SectionHeader.{section_of};
ghost use Rattle.xmas_elf.specs.Symbol.{SymbolFields, symbol_binding};
ghost use Rattle.xmas_elf.specs.Symbol.{symbol_type, symbol_visibility};
ghost use Rattle.xmas_elf.specs.SymbolName.{HoldsNames, name_in_table};
ghost use Rattle.xmas_elf.specs.SymbolSection.{IsSectionIndex, symbol_section_of};
ghost use Rattle.xmas_elf.specs.declared.ElfFile.{ElfFile};
ghost use Rattle.elf_base.specs.declared.error.ElfError.{ElfError};

use crate::bytes::text_at;
use crate::sections::{SHN_ABS, SHN_COMMON, SHN_UNDEF, SHN_XINDEX, SectionHeader};
use crate::symbol_table::wide_index::wide_index;
use crate::symbol_table::{Binding, Binding_, Type, Type_, Visibility, Visibility_};
use crate::{ElfError, ElfFile};

/// A symbol: an entry of a symbol table, of any type (gABI, "Symbol Table").
///
/// The ghost members of an implementation say what its fields are, its name in a file, and in which
/// string table of the file such names are, if it says that.
pub trait Entry {
    /// The fields of the symbol, as numbers.
    ghost fields: { Self → SymbolFields };

    /// The name of the symbol in a file, if it has one.
    ghost text_in: { Self → ElfFile → Option (List ℕ) };

    /// The bytes of the string table of such symbols in a file, or the error for it; `None`, the
    /// default, if an implementation says nothing of it.
    ghost strings_in: { ElfFile → Option (Result (List ℕ) ElfError) } = { λ file. None };

    /// The place of that string table in the input; any, the default, if an implementation says
    /// nothing of it.
    ghost strings_lie: { ElfFile → Bor (List ℕ) → Type 0 } = { λ file table. Unit {0} };

    /// The offset of the symbol's name in its string table, in bytes; 0 if it has none (st_name).
    fn name(&self) -> u32
        ensures { result ≡ (fields self.now).name };

    /// The binding and the type of the symbol in one number (st_info).
    fn info(&self) -> u8
        ensures { result ≡ (fields self.now).info };

    /// The visibility of the symbol, as a number (st_other).
    fn other(&self) -> Visibility_
        ensures { result ≡ visibility_raw (fields self.now).other };

    /// The index of the symbol's section, or a reserved index (st_shndx).
    fn shndx(&self) -> u16
        ensures { result ≡ (fields self.now).shndx };

    /// The value of the symbol: an address or an offset, depending on the types of the file and the
    /// section (st_value).
    fn value(&self) -> u64
        ensures { result ≡ (fields self.now).value };

    /// The size of the symbol's object in bytes, or 0 (st_size).
    fn size(&self) -> u64
        ensures { result ≡ (fields self.now).size };

    /// The name of the symbol in a file. It lives as long as the input; an implementation documents
    /// its errors.
    ///
    /// The four types of this crate search the section headers for their string table in each call.
    /// For many symbols, call `string_table` once, and then `name_in`.
    fn get_name<'a>(&self, file: &ElfFile<'a>) -> Result<&'a str, ElfError>
        ensures { MatchResult result
            (λ text. text_in self.now file.now ≡ Some text.now)
            (λ _. text_in self.now file.now ≡ None) };

    /// The string table with the names of such symbols of a file, by their `name`, or the error for
    /// it; one call is enough for many symbols. `None` if names are not texts of one table: `name_in`
    /// is then `get_name`.
    fn string_table<'a>(file: &ElfFile<'a>) -> Option<Result<&'a [u8], ElfError>>
        ensures names { IfSome result (HoldsNames fields (λ entry. text_in entry file.now)) }
        ensures says { IfSome (strings_in file.now) (λ table. IsSomeAnd result (Answers table)) }
        ensures lies { IfSome result (λ found. IfOk found (strings_lie file.now)) };

    /// The name of the symbol in a file, by the result of `string_table` for that file.
    ///
    /// Errors: that of the string table; those of `bytes::text_at` in it at `name`.
    fn name_in<'a>(
        &self,
        strings: Option<Result<&'a [u8], ElfError>>,
        file: &ElfFile<'a>,
    ) -> Result<&'a str, ElfError>
        ensures text { IfSome strings.entry (HoldsNames fields (λ entry. text_in entry file.now))
            → MatchResult result
            (λ text. text_in self.now file.now ≡ Some text.now)
            (λ _. text_in self.now file.now ≡ None) }
        ensures exact { IfSome strings.entry
            (λ found. Answers (name_in_table found (fields self.now).name) result) }
    {
        match strings {
            Some(Ok(table)) => text_at(table, self.name() as usize),
            Some(Err(error)) => Err(error),
            None => self.get_name(file),
        }
    }

    /// The visibility of the symbol: the low two bits of `other` (ELF32_ST_VISIBILITY).
    fn get_other(&self) -> Visibility
        ensures { result ≡ symbol_visibility (fields self.now) }
    {
        self.other().as_visibility()
    }

    /// The binding of the symbol: `info` divided by 16, or `InvalidBinding` (ELF32_ST_BIND).
    fn get_binding(&self) -> Result<Binding, ElfError>
        ensures { result ≡ symbol_binding (fields self.now) }
    {
        Binding_::from_raw(self.info() / 16).as_binding()
    }

    /// The type of the symbol: the low four bits of `info`, or `InvalidSymbolType` (ELF32_ST_TYPE).
    fn get_type(&self) -> Result<Type, ElfError>
        ensures { result ≡ symbol_type (fields self.now) }
    {
        Type_::from_raw(self.info() % 16).as_type()
    }

    /// The header of the symbol's section; `self_index` is the index of the symbol in its table.
    ///
    /// Errors: `ReservedSymbolIndex` for `SHN_UNDEF`, `SHN_ABS` and `SHN_COMMON`; those of
    /// `ElfFile::section_header` for `shndx`. For `SHN_XINDEX` the section index is word
    /// `self_index` of `.symtab_shndx`, and the errors are: `NoShIndex` if no section has that
    /// name; `ExpectedShIndex` if the type of the first such section is not SymTabShIndex;
    /// `DataRange` if its data extends past the end of the input; `NotMultiple` if that is not a
    /// whole number of words; `SymbolIndex` if it has no such word; `ReservedSymbolIndex` for 0;
    /// those of `ElfFile::section_header_at`.
    #[tactic(auto, unfolding(crate::specs::SymbolSection::symbol_section_of))]
    fn get_section_header(
        &self,
        file: &ElfFile<'_>,
        self_index: usize,
    ) -> Result<SectionHeader, ElfError>
        ensures value { IfOk result (λ section. (index : ℕ)
            × IsSectionIndex file.now (fields self.now) self_index index
            × (section_of file.now index ≡ Ok section)) }
        ensures exact { result ≡ symbol_section_of file.now (fields self.now) self_index }
    {
        let index = self.shndx();
        if index == SHN_UNDEF || index == SHN_ABS || index == SHN_COMMON {
            return Err(ElfError::ReservedSymbolIndex);
        }
        if index != SHN_XINDEX {
            return file.section_header(index);
        }
        match wide_index(file, self_index)? {
            0 => Err(ElfError::ReservedSymbolIndex),
            index => file.section_header_at(u64::from(index)),
        }
    }

    /// An entry has at most one name in a file.
    ghost one_text: { (entry : Self) (file : ElfFile) (one other : List ℕ)
        → text_in entry file ≡ Some one → text_in entry file ≡ Some other
        → one ≡ other } = { λ entry file one other a b. Prim.search rules };
}
