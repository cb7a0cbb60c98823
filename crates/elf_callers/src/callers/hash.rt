//! Callers that look symbols up by their names, as a model of a dynamic linker would.

ghost use Rattle.std.specs.Prelude.{◌≡◌, ◌↔◌, ◌<◌, ℕ, IfErr, IfOk, IsOkAnd};
ghost use Rattle.std.specs.Prelude.{IsTrue, MatchOption, MatchResult, None, Option, Result, Some};
ghost use Rattle.std.specs.Prelude.{slice_get, true};
ghost use Rattle.elf_callers.specs.Linked.{AreLinked, IsFileValueOf, IsLinkError};
ghost use Rattle.elf_callers.specs.Linked.{NotLinked, symbols_in, table_in};
ghost use Rattle.xmas_elf.specs.HashTable.{IsGood, hash_data, hash_order};
ghost use Rattle.xmas_elf.specs.FileHeader.{header_of};
ghost use Rattle.xmas_elf.specs.ReportHash.{content_at};
ghost use Rattle.xmas_elf.specs.SectionContent.{section_content_of};
ghost use Rattle.xmas_elf.specs.Symbol.{IsGlobal};
ghost use Rattle.xmas_elf.specs.Symbols.{symbols_of};
ghost use Rattle.xmas_elf.specs.Table.{table_data, table_order};
ghost use Rattle.xmas_elf.specs.Types.{ElfError, ElfFile};

use xmas_elf::bytes::{Record, Table};
use xmas_elf::hash::HashTable;
use xmas_elf::sections::{SectionData, SectionHeader};
use xmas_elf::symbol_table::{DynEntry64, Entry};
use xmas_elf::{ElfError, ElfFile};

/// Whether look-ups in a hash table find each symbol that they should: all chains come to an end,
/// and each symbol that isn't local and has a name is on the chain of that name.
pub fn finds_all<E: Entry + Record>(
    table: &HashTable<'_>,
    symbols: &Table<'_, E>,
    file: &ElfFile<'_>,
) -> bool
    ensures { IsTrue result
        ↔ IsGood table.now (symbols_of E.fields E.text_in symbols.now file.now) }
{
    table.check(symbols, file).is_ok()
}

/// The symbol with this name, by a table that passes the check: a symbol that has it, which isn't
/// the one at index 0, or none where no symbol does but local ones.
pub fn symbol_with_name<E: Entry + Record>(
    table: &HashTable<'_>,
    name: &str,
    symbols: &Table<'_, E>,
    file: &ElfFile<'_>,
) -> Option<(u32, E)>
    requires good { IsGood table.now (symbols_of E.fields E.text_in symbols.now file.now) }
    ensures { let all = symbols_of E.fields E.text_in symbols.now file.now in MatchOption result
        ((i : ℕ) (e : E) → ¬ IsGlobal all i e name.now)
        (λ found. (0 < found.0) × (slice_get all.items found.0 ≡ Some found.1)
        × (all.text found.1 ≡ Some name.now)) }
{
    match table.lookup(
        name,
        symbols,
        file,
        |_| -> bool
            ensures { result ≡ true }
        { true },
    ) {
        Ok(Some(found)) => Some(found),
        Ok(None) => None,
        Err(_) => unreachable!(),
    }
}

// The hash table that a section has, if it has one.
fn table_in<'a>(file: &ElfFile<'a>, section: SectionHeader) -> Option<HashTable<'a>>
    ensures { let found = table_in (section_content_of file.now section) in MatchOption result
        (found ≡ None) (λ table. found ≡ Some (hash_order table, hash_data table)) }
{
    match section.get_data(file) {
        Ok(SectionData::HashTable(table)) => Some(table),
        _ => None,
    }
}

// The symbols of class 64 that the section at an index has, if it has some.
fn symbols_at<'a>(file: &ElfFile<'a>, index: u32) -> Option<Table<'a, DynEntry64>>
    ensures { let found = symbols_in (content_at file.now index) in MatchOption result
        (found ≡ None) (λ symbols. found ≡ Some (table_order symbols, table_data symbols)) }
{
    let section = file.section_header_at(u64::from(index)).ok()?;
    match section.get_data(file) {
        Ok(SectionData::DynSymbolTable64(symbols)) => Some(symbols),
        _ => None,
    }
}

/// The hash table of a file of class 64 for the dynamic linker,
/// and the symbols that it is linked to.
pub fn linked_tables<'a>(file: &ElfFile<'a>) -> Option<(HashTable<'a>, Table<'a, DynEntry64>)>
    ensures { MatchOption result (NotLinked file.now) (λ tables.
        AreLinked file.now tables.0 (table_order tables.1) (table_data tables.1)) }
{
    let section = file.find_section_by_name(".hash")?;
    let table = table_in(file, section)?;
    let symbols = symbols_at(file, section.link())?;
    Some((table, symbols))
}

/// The value of the symbol with this name in some file, as a dynamic linker finds it: by the hash
/// table and the symbols that it is linked to, after the check. None where there is no such symbol,
/// and an error where the file has no such tables or they fail the check.
pub fn value_of_name(file: &ElfFile<'_>, name: &str) -> Result<Option<u64>, ElfError>
    ensures value { IfOk result (IsFileValueOf file.now name.now) }
    ensures failed { IfErr result (IsLinkError file.now) }
{
    let Some((table, symbols)) = linked_tables(file) else {
        return Err(ElfError::ShortData);
    };
    match table.check(&symbols, file) {
        Ok(()) => match symbol_with_name(&table, name, &symbols, file) {
            Some((_index, symbol)) => Ok(Some(symbol.value())),
            None => Ok(None),
        },
        Err(error) => Err(error),
    }
}

/// The same, from the bytes of the file.
pub fn value_in_bytes(input: &[u8], name: &str) -> Result<Option<u64>, ElfError>
    ensures value { IfOk result (λ found. IsOkAnd (header_of input.now) (λ header.
        let file : ElfFile = record { input = input.entry; header = header } in
        IsFileValueOf file name.now found)) }
    ensures failed { IfErr result (λ error. MatchResult (header_of input.now) (λ header.
        let file : ElfFile = record { input = input.entry; header = header } in
        IsLinkError file error) (λ why. why ≡ error)) }
{
    let file = ElfFile::new(input)?;
    value_of_name(&file, name)
}
