//! The entries of symbol tables, stored as their bytes, with their fields and names, for all four
//! types (gABI, "Symbol Table": Elf32_Sym and Elf64_Sym).

ghost use Rattle.std.specs.Prelude.{◌≡◌, Bool, false, true};
ghost use Rattle.std.proofs.Common.{lit<};
ghost use Rattle.xmas_elf.specs.Symbol.{SymbolFields, symbol_in};
ghost use Rattle.xmas_elf.specs.Symbol.{dyn_entry_32, dyn_entry_64, entry_32, entry_64};
ghost use Rattle.xmas_elf.specs.Symbol.{dyn_entry_32_fields, dyn_entry_64_fields};
ghost use Rattle.xmas_elf.specs.Symbol.{entry_32_fields, entry_64_fields};

mod text;

use crate::bytes::{Order, Record, text_at};
use crate::symbol_table::{Entry, Visibility_};
use crate::{ElfError, ElfFile};
use elf_base::bytes::{read_u16, read_u32, read_u64};

/// A symbol of class 32 (gABI, "Symbol Table", Elf32_Sym). Its name is in `.strtab`: `get_name`
/// returns it as in `ElfFile::get_string`.
#[derive(Clone, Copy, Debug)]
pub struct Entry32 {
    bytes: [u8; 16],
    order: Order,
}

/// A symbol of class 64 (gABI, "Symbol Table", Elf64_Sym). Its name is in `.strtab`: `get_name`
/// returns it as in `ElfFile::get_string`.
#[derive(Clone, Copy, Debug)]
pub struct Entry64 {
    bytes: [u8; 24],
    order: Order,
}

/// A symbol for dynamic linking of class 32 (gABI, "Symbol Table"). Its name is in `.dynstr`:
/// `get_name` returns it as in `ElfFile::get_dyn_string`.
#[derive(Clone, Copy, Debug)]
pub struct DynEntry32 {
    bytes: [u8; 16],
    order: Order,
}

/// A symbol for dynamic linking of class 64 (gABI, "Symbol Table"). Its name is in `.dynstr`:
/// `get_name` returns it as in `ElfFile::get_dyn_string`.
#[derive(Clone, Copy, Debug)]
pub struct DynEntry64 {
    bytes: [u8; 24],
    order: Order,
}

impl Record for Entry32 {
    ghost SIZE = { 16 };

    const SIZE: usize = 16;

    ghost value = { entry_32 };

    ghost size_above_zero = { lit< tt };

    fn decode(bytes: &[u8], order: Order) -> Entry32 {
        match <[u8; 16]>::try_from(bytes) {
            Ok(kept) => Self { bytes: kept, order },
            Err(_) => unreachable!(),
        }
    }
}

impl Record for Entry64 {
    ghost SIZE = { 24 };

    const SIZE: usize = 24;

    ghost value = { entry_64 };

    ghost size_above_zero = { lit< tt };

    fn decode(bytes: &[u8], order: Order) -> Entry64 {
        match <[u8; 24]>::try_from(bytes) {
            Ok(kept) => Self { bytes: kept, order },
            Err(_) => unreachable!(),
        }
    }
}

impl Record for DynEntry32 {
    ghost SIZE = { 16 };

    const SIZE: usize = 16;

    ghost value = { dyn_entry_32 };

    ghost size_above_zero = { lit< tt };

    fn decode(bytes: &[u8], order: Order) -> DynEntry32 {
        match <[u8; 16]>::try_from(bytes) {
            Ok(kept) => Self { bytes: kept, order },
            Err(_) => unreachable!(),
        }
    }
}

impl Record for DynEntry64 {
    ghost SIZE = { 24 };

    const SIZE: usize = 24;

    ghost value = { dyn_entry_64 };

    ghost size_above_zero = { lit< tt };

    fn decode(bytes: &[u8], order: Order) -> DynEntry64 {
        match <[u8; 24]>::try_from(bytes) {
            Ok(kept) => Self { bytes: kept, order },
            Err(_) => unreachable!(),
        }
    }
}

// The bytes of a symbol and their byte order, by class.
pub(crate) enum Layout<'e> {
    Narrow(&'e [u8; 16], Order),
    Wide(&'e [u8; 24], Order),
}

// A type that stores the bytes of a symbol.
pub(crate) trait Kept {
    ghost fields: { Self → SymbolFields };

    // Whether its names are in `.dynstr`, and not in `.strtab`.
    ghost DYNAMIC: { Bool };

    const DYNAMIC: bool;

    fn layout(&self) -> Layout<'_>
        ensures { fields self.now ≡ symbol_in result };
}

impl<K: Kept> Entry for K {
    ghost use Rattle.std.specs.Prelude.{IfOk, IfSome, IsSomeAnd, MatchResult, None, Some};
    ghost use Rattle.std.specs.Result.{result_ok};
    ghost use Rattle.elf_base.specs.Lent.{Answers, IfPart};
    ghost use Rattle.xmas_elf.specs.Place.{LiesAsSymbolStrings};
    ghost use Rattle.xmas_elf.specs.SymbolName.{HoldsNames, IsSymbolString, name_by};
    ghost use Rattle.xmas_elf.specs.SymbolName.{symbol_string_of, symbol_strings_of};

    ghost fields = { K.fields };

    ghost text_in = { λ entry file.
        result_ok (symbol_string_of K.DYNAMIC file (K.fields entry).name) };

    ghost strings_in = { λ file. Some (symbol_strings_of K.DYNAMIC file) };

    ghost strings_lie = { LiesAsSymbolStrings K.DYNAMIC };

    #[inline(always)]
    fn name(&self) -> u32 {
        match self.layout() {
            Layout::Narrow(bytes, order) => read_u32(bytes, 0, order),
            Layout::Wide(bytes, order) => read_u32(bytes, 0, order),
        }
    }

    #[inline(always)]
    fn info(&self) -> u8 {
        match self.layout() {
            Layout::Narrow(bytes, _) => bytes[12],
            Layout::Wide(bytes, _) => bytes[4],
        }
    }

    #[inline(always)]
    fn other(&self) -> Visibility_ {
        Visibility_::from_raw(match self.layout() {
            Layout::Narrow(bytes, _) => bytes[13],
            Layout::Wide(bytes, _) => bytes[5],
        })
    }

    #[inline(always)]
    fn shndx(&self) -> u16 {
        match self.layout() {
            Layout::Narrow(bytes, order) => read_u16(bytes, 14, order),
            Layout::Wide(bytes, order) => read_u16(bytes, 6, order),
        }
    }

    #[inline(always)]
    fn value(&self) -> u64 {
        match self.layout() {
            Layout::Narrow(bytes, order) => u64::from(read_u32(bytes, 4, order)),
            Layout::Wide(bytes, order) => read_u64(bytes, 8, order),
        }
    }

    #[inline(always)]
    fn size(&self) -> u64 {
        match self.layout() {
            Layout::Narrow(bytes, order) => u64::from(read_u32(bytes, 8, order)),
            Layout::Wide(bytes, order) => read_u64(bytes, 16, order),
        }
    }

    /// The name of the symbol in `.strtab`, as in `ElfFile::get_string`; for a symbol for dynamic
    /// linking in `.dynstr`, as in `ElfFile::get_dyn_string`.
    fn get_name<'a>(&self, file: &ElfFile<'a>) -> Result<&'a str, ElfError>
        ensures text { IfPart (IsSymbolString K.DYNAMIC file.now (K.fields self.now).name) result }
        ensures exact { Answers
            (symbol_string_of K.DYNAMIC file.now (K.fields self.now).name) result }
    {
        if K::DYNAMIC {
            file.get_dyn_string(self.name())
        } else {
            file.get_string(self.name())
        }
    }

    /// The data of `.strtab`. Errors: `NoStrtab` if no section has that name; `StrtabType` if the
    /// type of the first such section is not StrTab; `DataRange` if it extends past the end of the
    /// input.
    ///
    /// For symbols for dynamic linking, the data of `.dynstr`. Errors: `NoDynstr` if no section has
    /// that name; `DataRange` if the first such section extends past the end of the input.
    #[tactic(auto, using(crate::proofs::SymbolNames::holds_found))]
    fn string_table<'a>(file: &ElfFile<'a>) -> Option<Result<&'a [u8], ElfError>>
        ensures table { IsSomeAnd result (Answers (symbol_strings_of K.DYNAMIC file.now)) }
        ensures place { IfSome result
            (λ answer. IfOk answer (LiesAsSymbolStrings K.DYNAMIC file.now)) }
        ensures names { IfSome result (HoldsNames K.fields
            (λ e. result_ok (symbol_string_of K.DYNAMIC file.now (K.fields e).name))) }
    {
        if K::DYNAMIC {
            Some(file.dynstr())
        } else {
            Some(file.strtab())
        }
    }

    /// The name of the symbol in a file, by the result of `string_table` for that file; for `None`
    /// as in `get_name`.
    ///
    /// Errors: that of the string table; those of `bytes::text_at` in it at `name`; for `None`
    /// those of `get_name`.
    fn name_in<'a>(
        &self,
        strings: Option<Result<&'a [u8], ElfError>>,
        file: &ElfFile<'a>,
    ) -> Result<&'a str, ElfError>
        ensures text { IfSome strings.entry (HoldsNames K.fields
            (λ e. result_ok (symbol_string_of K.DYNAMIC file.now (K.fields e).name)))
            → MatchResult result
            (λ text. result_ok (symbol_string_of K.DYNAMIC file.now (K.fields self.now).name)
            ≡ Some text.now)
            (λ _. result_ok (symbol_string_of K.DYNAMIC file.now (K.fields self.now).name)
            ≡ None) }
        ensures exact { Answers
            (name_by K.DYNAMIC file.now strings.entry (K.fields self.now).name) result }
    {
        match strings {
            Some(Ok(table)) => text_at(table, self.name() as usize),
            Some(Err(error)) => Err(error),
            None => self.get_name(file),
        }
    }
}

#[tactic(auto, unfolding(crate::specs::Symbol::entry_32_fields))]
impl Kept for Entry32 {
    ghost fields = { entry_32_fields };

    ghost DYNAMIC = { false };

    const DYNAMIC: bool = false;

    #[inline(always)]
    fn layout(&self) -> Layout<'_> {
        Layout::Narrow(&self.bytes, self.order)
    }
}

#[tactic(auto, unfolding(crate::specs::Symbol::entry_64_fields))]
impl Kept for Entry64 {
    ghost fields = { entry_64_fields };

    ghost DYNAMIC = { false };

    const DYNAMIC: bool = false;

    #[inline(always)]
    fn layout(&self) -> Layout<'_> {
        Layout::Wide(&self.bytes, self.order)
    }
}

#[tactic(auto, unfolding(crate::specs::Symbol::dyn_entry_32_fields))]
impl Kept for DynEntry32 {
    ghost fields = { dyn_entry_32_fields };

    ghost DYNAMIC = { true };

    const DYNAMIC: bool = true;

    #[inline(always)]
    fn layout(&self) -> Layout<'_> {
        Layout::Narrow(&self.bytes, self.order)
    }
}

#[tactic(auto, unfolding(crate::specs::Symbol::dyn_entry_64_fields))]
impl Kept for DynEntry64 {
    ghost fields = { dyn_entry_64_fields };

    ghost DYNAMIC = { true };

    const DYNAMIC: bool = true;

    #[inline(always)]
    fn layout(&self) -> Layout<'_> {
        Layout::Wide(&self.bytes, self.order)
    }
}
