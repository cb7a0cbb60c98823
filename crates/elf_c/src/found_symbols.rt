//! The symbol that a reference gets by its name and version, found by the dynamic segment, without
//! section headers (gABI, "Dynamic Section"; LSB, "Symbol Versioning").

ghost use Rattle.std.specs.Prelude.{◌≡◌, Result};
ghost use Rattle.elf_c.specs.FoundSymbols.{IsFoundBy, IsFoundSymbol, IsSearch, IsWanted};
ghost use Rattle.elf_c.specs.FoundSymbols.{found_answer, found_symbol, no_symbol_record};
ghost use Rattle.elf_c.specs.FoundSymbols.{serving_symbol};
ghost use Rattle.elf_c.specs.LookUps.{IfUtf8, IsNameFound};
ghost use Rattle.elf_c.specs.Parsed.{file_of};
ghost use Rattle.elf_c.specs.Status.{GivesHere};
ghost use Rattle.elf_c.specs.declared.found_symbols.FoundSymbol.{FoundSymbol};
ghost use Rattle.elf_c.specs.declared.status.AnyError.{AnyError};

use crate::dynamic_symbols::is_narrow;
use crate::file::Parsed;
use crate::status::{AnyError, give};
use crate::symbols::{NO_SYMBOL, Symbol};
use elf_base::ElfError;
use elf_linking::find::{Use, Wanted};
use elf_linking::view::LinkedSymbol;
use elf_linking::{DynamicObject, LinkError, serves_others};
use std::str::from_utf8;
use xmas_elf::ElfFile;
use xmas_elf::bytes::Record;
use xmas_elf::symbol_table::{DynEntry32, DynEntry64, Entry};

/// The symbol that a reference gets, as numbers.
#[repr(C)]
#[derive(Clone, Copy, Debug)]
pub struct FoundSymbol {
    /// The symbol, or 0 in each field.
    pub symbol: Symbol,
    /// 1 if a symbol is found, otherwise 0.
    pub found: u32,
    /// The index of the symbol, or 0.
    pub index: u32,
}

impl FoundSymbol {
    // That no symbol is found.
    fn none() -> FoundSymbol
        ensures { result ≡ no_symbol_record }
    {
        FoundSymbol {
            symbol: NO_SYMBOL,
            found: 0,
            index: 0,
        }
    }

    // The numbers of the symbol that a search found, if any, and if it serves other files.
    fn of<E: Entry + Record>(found: Option<(u32, E)>) -> FoundSymbol
        ensures { result ≡ found_symbol E.fields found }
    {
        match found {
            Some((index, entry)) => FoundSymbol::if_serving(index, &entry),
            None => FoundSymbol::none(),
        }
    }

    // The numbers of the symbol at an index, if it serves other files than its own.
    fn if_serving<E: Entry + Record>(index: u32, entry: &E) -> FoundSymbol
        ensures { result ≡ serving_symbol index (E.fields entry.now) }
    {
        if serves_others(entry) {
            FoundSymbol {
                symbol: Symbol::of(entry),
                found: 1,
                index,
            }
        } else {
            FoundSymbol::none()
        }
    }
}

// The result of a search, as numbers.
fn said<E: Entry + Record>(
    found: Result<Option<(u32, E)>, LinkError>,
) -> Result<FoundSymbol, AnyError>
    ensures { result ≡ found_answer E.fields found }
{
    Ok(FoundSymbol::of(found?))
}

// What is asked for: the version with a name, and with an empty one what `dlsym` asks for.
fn wanted_of(version: &str) -> Wanted<'_>
    ensures { IsWanted version.now result }
{
    if version.is_empty() {
        Wanted::Newest
    } else {
        Wanted::exact(version)
    }
}

// Searches the dynamic symbols of a file of the class of `E`.
fn search<E: LinkedSymbol>(
    file: &ElfFile<'_>,
    name: &str,
    version: &str,
) -> Result<FoundSymbol, AnyError>
    ensures { IsSearch E.CLASS E.SIZE E.value E.fields file.now name.now version.now result }
{
    let object = DynamicObject::<E>::read(file)?;
    said(object.find(name, &wanted_of(version), Use::Any))
}

// Searches the dynamic symbols of a file, by its class.
fn search_by_class(file: &ElfFile<'_>, name: &str, version: &str) -> Result<FoundSymbol, AnyError>
    ensures { IsFoundSymbol file.now name.now version.now result }
{
    if is_narrow(file) {
        search::<DynEntry32>(file, name, version)
    } else {
        search::<DynEntry64>(file, name, version)
    }
}

// A name in bytes, which may not be UTF-8.
fn text_of(bytes: &[u8]) -> Result<&str, AnyError>
    ensures { IfUtf8 IsNameFound bytes.now result }
{
    match from_utf8(bytes) {
        Ok(text) => Ok(text),
        Err(_) => Err(AnyError::Elf(ElfError::TextUtf8)),
    }
}

// Searches for a name and a version in bytes, which may not be UTF-8.
fn search_by(file: &ElfFile<'_>, name: &[u8], version: &[u8]) -> Result<FoundSymbol, AnyError>
    ensures { IsFoundBy file.now name.now version.now result }
{
    let name = text_of(name)?;
    search_by_class(file, name, text_of(version)?)
}

/// The symbol of a file that `dlvsym` finds by a name and the name of a version, and with an empty
/// version, of which the pointer may be null, the one that `dlsym` finds: the result of
/// `DynamicObject::find` for `Wanted::exact` or `Wanted::Newest` and for `Use::Any`, if that symbol
/// serves other files than its own (`serves_others`). It needs no section headers.
///
/// Errors: `TextUtf8` if the name or the version is not UTF-8; those of `DynamicObject::read`; those
/// of `DynamicObject::find`.
#[unsafe(no_mangle)]
pub extern "C" fn xmas_elf_find_symbol(
    input: &[u8],
    header: &Parsed,
    name: &[u8],
    version: &[u8],
    out: &mut FoundSymbol,
) -> u32
    ensures { (answer : Result FoundSymbol AnyError)
        × IsFoundBy (file_of input.entry header.now) name.now version.now answer
        × GivesHere answer out.old result out.new }
{
    give(search_by(&header.file(input), name, version), out)
}
