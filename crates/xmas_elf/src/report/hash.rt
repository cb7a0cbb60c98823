//! The part of the report about the hash table of a file.

ghost use Rattle.std.specs.Prelude.{◌≡◌};
ghost use Rattle.xmas_elf.specs.ReportHash.{FindsHash, IsHashVerdict, IsLinkedVerdict, content_at};

use crate::hash::HashTable;
use crate::sections::{SectionData, SectionHeader, ShType};
use crate::{ElfError, ElfFile};

// The result for the hash table of a file. It is `pub`, since definitions in other crates name it.
#[derive(Clone, Copy)]
pub enum HashVerdict {
    // There is no hash table.
    NoTable,
    // Its link is not the index of a symbol table.
    NoSymbols,
    // The result of its check, or the error for its data.
    Checked(Result<(), ElfError>),
}

// The result for the first hash table of a file and the symbols that it links to.
pub(crate) fn hash_verdict(file: &ElfFile<'_>, words: &mut [u32]) -> HashVerdict
    ensures { IsHashVerdict file.now result }
{
    let Some(section) = hash_section(file) else {
        return HashVerdict::NoTable;
    };
    let found = match section.get_data(file) {
        Ok(found) => found,
        Err(error) => return HashVerdict::Checked(Err(error)),
    };
    match found {
        SectionData::HashTable(table) => linked_verdict(file, &table, section.link(), words),
        _ => unreachable!(),
    }
}

// The first section of type Hash.
fn hash_section(file: &ElfFile<'_>) -> Option<SectionHeader>
    ensures { FindsHash file.now result }
{
    file.section_iter()
        .find(|section| matches!(section.get_type(), Ok(ShType::Hash)))
}

// The result for a hash table whose symbols are in the section at index `link`.
fn linked_verdict(
    file: &ElfFile<'_>,
    table: &HashTable<'_>,
    link: u32,
    words: &mut [u32],
) -> HashVerdict
    ensures { IsLinkedVerdict file.now table.now (content_at file.now link) result }
{
    let Ok(section) = file.section_header_at(u64::from(link)) else {
        return HashVerdict::NoSymbols;
    };
    match section.get_data(file) {
        Ok(SectionData::SymbolTable32(symbols)) => {
            HashVerdict::Checked(table.check_with(&symbols, file, words))
        }
        Ok(SectionData::SymbolTable64(symbols)) => {
            HashVerdict::Checked(table.check_with(&symbols, file, words))
        }
        Ok(SectionData::DynSymbolTable32(symbols)) => {
            HashVerdict::Checked(table.check_with(&symbols, file, words))
        }
        Ok(SectionData::DynSymbolTable64(symbols)) => {
            HashVerdict::Checked(table.check_with(&symbols, file, words))
        }
        _ => HashVerdict::NoSymbols,
    }
}
