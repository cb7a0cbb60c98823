//! The symbols of `.symtab`, by the section headers.

ghost use Rattle.std.specs.Prelude.{◌≡◌, ◌≢◌, ◌↔◌, ◌%◌, IfOk, IsTrue, MatchResult, Ok, Err, length};
ghost use Rattle.elf_base.specs.Lent.{Answers};
ghost use Rattle.elf_addresses.specs.Symtab.{IsIndexData, IsIndexSection, IsSymtab};
ghost use Rattle.elf_addresses.specs.Symtab.{IsSymtabFailed, IsSymtabSection, data_at};
ghost use Rattle.elf_addresses.specs.Symtab.{LieAsIndices, LieAsParts, LieAsSymtab, LieAsWords};
ghost use Rattle.elf_addresses.specs.Symtab.{LiesAsDataAt, lent_bytes, parts_of, whole_words, words_at};
ghost use Rattle.xmas_elf.specs.First.{FindsFirstAt};
ghost use Rattle.xmas_elf.specs.SectionHeader.{section_list};

use crate::symbols::AddressSymbols;
use xmas_elf::bytes::{Record, Table};
use xmas_elf::sections::SectionHeader;
use xmas_elf::symbol_table::Entry;
use xmas_elf::{ElfError, ElfFile};

/// The index of the first section of type `SHT_SYMTAB`, which holds the symbol table of a file; `None`
/// if no section has this type.
pub fn symtab_index(file: &ElfFile<'_>) -> Option<usize>
    ensures { FindsFirstAt IsSymtabSection (section_list file.now) result }
{
    file.section_table()
        .iter()
        .position(|section| is_symtab(&section))
}

// Whether a section has the type SHT_SYMTAB.
fn is_symtab(section: &SectionHeader) -> bool
    ensures { IsTrue result ↔ IsSymtabSection section.now }
{
    section.type_().raw() == 2
}

/// The symbols of the section at an index, with what says which of them name addresses: the string
/// table that the section is linked to, the data of the first section of type `SHT_SYMTAB_SHNDX` that
/// is linked to it, and the machine of the file.
///
/// Section indices that can't be read or are no whole words count as none. The errors are those of the
/// section and its data, then of the string table and its data; then `NotMultiple`, if the data is not
/// a whole number of symbols.
pub fn symtab_at<'a, E: Entry + Record>(
    file: &ElfFile<'a>,
    index: usize,
) -> Result<AddressSymbols<'a, E>, ElfError>
    ensures symbols { MatchResult result (IsSymtab file.now index)
        (IsSymtabFailed E.SIZE file.now index) }
    ensures place { IfOk result (LieAsSymtab file.now index) }
{
    let parts = match parts_of(file, index) {
        Ok(parts) => parts,
        Err(error) => return Err(error),
    };
    let table = match Table::new(parts.0, file.byte_order()) {
        Ok(table) => table,
        Err(error) => return Err(error),
    };
    let Ok(indices) = Table::new(index_data(file, index), file.byte_order()) else {
        unreachable!();
    };
    Ok(AddressSymbols {
        table,
        strings: parts.1,
        indices,
        machine: file.header.pt2.machine().raw(),
    })
}

// The data of the section at an index, and of the section that it is linked to.
fn parts_of<'a>(file: &ElfFile<'a>, index: usize) -> Result<(&'a [u8], &'a [u8]), ElfError>
    ensures parts { MatchResult result
        (λ parts. parts_of file.now index ≡ Ok (parts.0.now, parts.1.now))
        (λ error. parts_of file.now index ≡ Err error) }
    ensures place { IfOk result (λ parts. LieAsParts file.now index parts.0 parts.1) }
{
    let section = file.section_header_at(index as u64)?;
    let bytes = section.raw_data(file)?;
    let linked = file.section_header_at(u64::from(section.link()))?;
    Ok((bytes, linked.raw_data(file)?))
}

// The data of the section at an index.
fn data_at<'a>(file: &ElfFile<'a>, index: usize) -> Result<&'a [u8], ElfError>
    ensures bytes { Answers (data_at file.now index) result }
    ensures place { IfOk result (LiesAsDataAt file.now index) }
{
    let section = file.section_header_at(index as u64)?;
    section.raw_data(file)
}

// The data of the first section of type SHT_SYMTAB_SHNDX that is linked to a symbol table, if it
// can be read and is of whole words.
fn index_data<'a>(file: &ElfFile<'a>, index: usize) -> &'a [u8]
    ensures data { IsIndexData file.now index result.now }
    ensures place { LieAsIndices file.now index result }
    ensures whole { length result.now % 4 ≡ 0 }
{
    let place = index_position(file, index);
    words_at(file, place)
}

// The position of that section.
fn index_position(file: &ElfFile<'_>, index: usize) -> Option<usize>
    ensures { FindsFirstAt (IsIndexSection index) (section_list file.now) result }
{
    file.section_table()
        .iter()
        .position(|section| is_index_section(&section, index))
}

// The data of the section at an index, if there is one, and the data can be read and is of whole
// words.
fn words_at<'a>(file: &ElfFile<'a>, place: Option<usize>) -> &'a [u8]
    ensures value { result.now ≡ words_at file.now place }
    ensures place { LieAsWords file.now place result }
    ensures whole { length result.now % 4 ≡ 0 }
{
    match place {
        Some(place) => whole_words(data_at(file, place)),
        None => &[],
    }
}

// Whether a section has the type SHT_SYMTAB_SHNDX and is linked to a section.
fn is_index_section(section: &SectionHeader, index: usize) -> bool
    ensures { IsTrue result ↔ IsIndexSection index section.now }
{
    section.type_().raw() == 18 && section.link() as usize == index
}

// Data, if it can be read and is of whole words; otherwise nothing.
fn whole_words(bytes: Result<&[u8], ElfError>) -> &[u8]
    ensures value { result.now ≡ whole_words (lent_bytes bytes.entry) }
    ensures same { length result.now ≢ 0 → bytes.entry ≡ Ok result }
    ensures whole { length result.now % 4 ≡ 0 }
{
    match bytes {
        Ok(bytes) if bytes.len() % 4 == 0 => bytes,
        _ => &[],
    }
}
