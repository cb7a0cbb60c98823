//! The symbols that own bytes of sections, and their names.

ghost use Rattle.std.specs.Prelude.{◌≡◌, IfOk, MatchResult, slice_get};
ghost use Rattle.elf_addresses.specs.FileClaims.{section_parts};
ghost use Rattle.elf_addresses.specs.SymbolClaims.{symbol_items};
ghost use Rattle.elf_addresses.specs.Symtab.{IsSymtabSection};
ghost use Rattle.xmas_elf.specs.First.{FindsFirstAt};
ghost use Rattle.elfsize.specs.Symbols.{AreFew, AreSymbols, AreSymtab, AreSymtabAt};
ghost use Rattle.elfsize.specs.Symbols.{IsFailedAt, IsSymbolsError, IsSymtabError};
ghost use Rattle.elfsize.specs.Symbols.{IsSymtabReason, count_in, symbol_name, symbol_name_in};

use crate::lines::AnyError;
use crate::view::View;
use elf_addresses::{AddressSymbols, Claims, SectionClaims, symtab_at, symtab_index};
use elf_base::bytes::bytes_up_to_zero;
use xmas_elf::bytes::Record;
use xmas_elf::symbol_table::{Entry, Entry32, Entry64};
use xmas_elf::{ElfError, ElfFile};

/// The symbols of a file of either class.
#[derive(Drop)]
pub enum Symbols<'a> {
    /// None are asked for, or the file has no symbol table or no whole section header table.
    None,
    /// Of class 32.
    Narrow(AddressSymbols<'a, Entry32>),
    /// Of class 64.
    Wide(AddressSymbols<'a, Entry64>),
}

/// The symbols of a file that a view asks for: those of the first section of type `SHT_SYMTAB`. There
/// are none if the section header table is cut off.
pub fn read_symbols<'a>(view: View, file: &ElfFile<'a>) -> Result<Symbols<'a>, AnyError>
    ensures symbols { MatchResult result (AreSymbols view file.now)
        (IsSymbolsError view file.now) }
    ensures few { IfOk result AreFew }
{
    match view {
        View::Whole => Ok(Symbols::None),
        View::Segments => Ok(Symbols::None),
        View::Symbols => read_symtab(file),
    }
}

// The symbols of the symbol table, if there is one.
fn read_symtab<'a>(file: &ElfFile<'a>) -> Result<Symbols<'a>, AnyError>
    ensures symbols { MatchResult result (AreSymtab file.now) (IsSymtabReason file.now) }
    ensures few { IfOk result AreFew }
{
    match first_symtab(file) {
        Some(index) => few_at(file, index),
        None => Ok(Symbols::None),
    }
}

// The index of the first section of type SHT_SYMTAB. If the section header table is cut off, sections
// own no bytes.
fn first_symtab(file: &ElfFile<'_>) -> Option<usize>
    ensures { FindsFirstAt IsSymtabSection (section_parts file.now) result }
{
    if SectionClaims::new(file).count() == 0 {
        return None;
    }
    symtab_index(file)
}

// The symbols of the section at an index, if there are fewer than 2 to the 32.
fn few_at<'a>(file: &ElfFile<'a>, index: usize) -> Result<Symbols<'a>, AnyError>
    ensures symbols { MatchResult result (AreSymtabAt file.now index)
        (IsFailedAt file.now index) }
    ensures few { IfOk result AreFew }
{
    let symbols = match class_symtab(file, index) {
        Ok(symbols) => symbols,
        Err(error) => return Err(AnyError::Elf(error)),
    };
    if count_in(&symbols) < 0x1_0000_0000 {
        Ok(symbols)
    } else {
        Err(AnyError::Many)
    }
}

// The number of symbols.
fn count_in(symbols: &Symbols<'_>) -> usize
    ensures { result ≡ count_in symbols.now }
{
    match symbols {
        Symbols::None => 0,
        Symbols::Narrow(symbols) => symbols.table.len(),
        Symbols::Wide(symbols) => symbols.table.len(),
    }
}

// The symbols of the section at an index, by the class of the file, which is 32 or 64.
fn class_symtab<'a>(file: &ElfFile<'a>, index: usize) -> Result<Symbols<'a>, ElfError>
    ensures { MatchResult result (AreSymtabAt file.now index) (IsSymtabError file.now index) }
{
    if file.header.pt1.class.raw() == 1 {
        return match symtab_at::<Entry32>(file, index) {
            Ok(symbols) => Ok(Symbols::Narrow(symbols)),
            Err(error) => Err(error),
        };
    }
    match symtab_at::<Entry64>(file, index) {
        Ok(symbols) => Ok(Symbols::Wide(symbols)),
        Err(error) => Err(error),
    }
}

/// The name of the symbol at an index, or `?` if it can't be read.
pub fn symbol_name_in<'s>(symbols: &'s Symbols<'_>, index: usize) -> &'s [u8]
    ensures { result.now ≡ symbol_name_in symbols.now index }
{
    match symbols {
        Symbols::None => b"?",
        Symbols::Narrow(symbols) => symbol_name(symbols, index),
        Symbols::Wide(symbols) => symbol_name(symbols, index),
    }
}

// The same of symbols of one class.
fn symbol_name<'s, E: Entry + Record>(symbols: &'s AddressSymbols<'_, E>, index: usize) -> &'s [u8]
    ensures { result.now ≡ symbol_name E.fields symbols.now.strings.now
        (slice_get (symbol_items symbols.now) index) }
{
    let Some(symbol) = symbols.table.get(index) else {
        return b"?";
    };
    match bytes_up_to_zero(symbols.strings, symbol.name() as usize) {
        Ok(name) => name,
        Err(_) => b"?",
    }
}
