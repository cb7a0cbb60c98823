//! The symbols of a file, wherever it has them (gABI, "Sections", SHT_SYMTAB and SHT_DYNSYM, and
//! "Dynamic Section", DT_SYMTAB).

ghost use Rattle.std.specs.Prelude.{◌≡◌, ◌<◌, ◌≤◌, ◌%◌, Err, IfOk, IsOkAnd, MatchResult, length};
ghost use Rattle.elf_linking.specs.DynamicView.{LieAsSymbols, LiesAsStrings, dynamic_entries_of};
ghost use Rattle.elf_linking.specs.FileSymbols.{AreFileSymbols, AreSegmentSymbols, AreSymbolsOf};
ghost use Rattle.elf_linking.specs.FileSymbols.{AreTableOf, LieAsFileSymbols, NoFileSymbols};
ghost use Rattle.elf_linking.specs.FileSymbols.{first_of_type, is_of_type, pair_bytes};
ghost use Rattle.elf_linking.specs.FileSymbols.{section_symbols_of, symbols_section_of};
ghost use Rattle.xmas_elf.specs.Place.{LiesAsSection};
ghost use Rattle.xmas_elf.specs.SectionHeader.{section_fields, section_of};

use crate::LinkError;
use crate::view::{DynamicView, LinkedSymbol};
use elf_base::ElfError;
use elf_base::header::Class;
use xmas_elf::ElfFile;
use xmas_elf::bytes::Table;
use xmas_elf::sections::SectionHeader;
use xmas_elf::symbol_table::{DynEntry32, DynEntry64, SymbolTable};

// The types of sections of symbols (gABI, "Sections", sh_type).
const SHT_SYMTAB: u32 = 2;

const SHT_DYNSYM: u32 = 11;

/// The symbols of a file with their names, of the class of the file. A function that takes a
/// `SymbolTable` of any symbols works with either.
#[derive(Drop)]
pub enum FileSymbols<'a> {
    /// Those of class 32.
    Narrow(SymbolTable<'a, DynEntry32>),
    /// Those of class 64.
    Wide(SymbolTable<'a, DynEntry64>),
}

impl<'a> FileSymbols<'a> {
    /// The symbols of the first section of type SymTab, such as `.symtab`, with their names in the
    /// string table that the section links to. If there is no such section, they are those of the
    /// first section of type DynSym, such as `.dynsym`. If there is none either, as in a file
    /// without section headers, they are those of the dynamic segment: `DynamicView::reached_count`
    /// symbols. The symbols and their names are slices of the input.
    ///
    /// Errors: `UnknownClass` if the class is neither 1 nor 2. For a section: those of
    /// `SectionHeader::raw_data`; `Elf` with `NotMultiple` if its size is not a multiple of that of
    /// a symbol; those of `ElfFile::section_header_at` for the linked section, and of its
    /// `raw_data`. For the dynamic segment: those of `DynamicView::read`, `reached_count`,
    /// `counted_records` and `strings`.
    pub fn read(file: &ElfFile<'a>) -> Result<FileSymbols<'a>, LinkError>
        ensures { MatchResult result (AreSymbolsOf file.now) (NoFileSymbols file.now) }
    {
        match file.header.pt1.class() {
            Class::ThirtyTwo => Ok(FileSymbols::Narrow(table_of(file)?)),
            Class::SixtyFour => Ok(FileSymbols::Wide(table_of(file)?)),
            Class::None | Class::Other(_) => Err(LinkError::UnknownClass),
        }
    }
}

// The symbols of a file, of one class.
fn table_of<'a, E: LinkedSymbol>(file: &ElfFile<'a>) -> Result<SymbolTable<'a, E>, LinkError>
    ensures { MatchResult result (AreTableOf E.SIZE file.now)
        (λ error. AreFileSymbols file.now E.SIZE (Err error)) }
{
    let (bytes, strings) = parts_of(file, E::SIZE as u64)?;
    match Table::new(bytes, file.byte_order()) {
        Ok(table) => Ok(SymbolTable::with_strings(table, strings)),
        Err(_) => unreachable!(),
    }
}

// The bytes of the symbols of a file, which have this size each, and those of their string table.
fn parts_of<'a>(file: &ElfFile<'a>, size: u64) -> Result<(&'a [u8], &'a [u8]), LinkError>
    requires above { 0 < size }
    requires below { size ≤ 24 }
    ensures exact { AreFileSymbols file.now size (pair_bytes result) }
    ensures whole { IfOk result (λ parts. length parts.0.now % size ≡ 0) }
    ensures place { IfOk result (λ parts. LieAsFileSymbols file.now parts.0 parts.1) }
{
    match symbols_section(file) {
        Some(section) => section_parts(file, &section, size),
        None => segment_parts(file, size),
    }
}

// The same of a section.
#[tactic(auto, unfolding(crate::specs::FileSymbols::section_symbols_of))]
fn section_parts<'a>(
    file: &ElfFile<'a>,
    section: &SectionHeader,
    size: u64,
) -> Result<(&'a [u8], &'a [u8]), LinkError>
    requires { 0 < size }
    ensures exact { pair_bytes result ≡ section_symbols_of file.now size section.now }
    ensures whole { IfOk result (λ parts. length parts.0.now % size ≡ 0) }
    ensures place { IfOk result (λ parts. LiesAsSection file.now section.now parts.0
        × IsOkAnd (section_of file.now (section_fields section.now).link)
        (λ linked. LiesAsSection file.now linked parts.1)) }
{
    let bytes = section.raw_data(file)?;
    if bytes.len() as u64 % size != 0 {
        return Err(LinkError::Elf(ElfError::NotMultiple));
    }
    let strings = file.section_header_at(u64::from(section.link()))?;
    let text = strings.raw_data(file)?;
    Ok((bytes, text))
}

// The same of the dynamic segment.
fn segment_parts<'a>(file: &ElfFile<'a>, size: u64) -> Result<(&'a [u8], &'a [u8]), LinkError>
    requires above { 0 < size }
    requires below { size ≤ 24 }
    ensures exact { AreSegmentSymbols file.now size (pair_bytes result) }
    ensures whole { IfOk result (λ parts. length parts.0.now % size ≡ 0) }
    ensures place { IfOk result (λ parts. IsOkAnd (dynamic_entries_of file.now)
        (λ entries. LieAsSymbols file.now entries parts.0 × LiesAsStrings file.now entries parts.1)) }
{
    let view = DynamicView::read(file)?;
    let count = view.reached_count(file)?;
    let bytes = view.counted_bytes(file, count, size)?;
    Ok((bytes, view.strings()?))
}

// The section with the symbols of a file.
#[tactic(auto, unfolding(crate::specs::FileSymbols::symbols_section_of))]
fn symbols_section(file: &ElfFile<'_>) -> Option<SectionHeader>
    ensures { result ≡ symbols_section_of file.now }
{
    match first_of_type(file, SHT_SYMTAB) {
        Some(section) => Some(section),
        None => first_of_type(file, SHT_DYNSYM),
    }
}

// The first section of a type.
#[tactic(auto, using(crate::proofs::Firsts::find_none, crate::proofs::Firsts::find_hit, crate::proofs::Firsts::find_other))]
fn first_of_type(file: &ElfFile<'_>, kind: u32) -> Option<SectionHeader>
    ensures { result ≡ first_of_type file.now kind }
{
    for section in file.section_iter() {
        if is_of_type(kind, &section) {
            return Some(section);
        }
    }
    None
}

// Whether a section is of a type.
fn is_of_type(kind: u32, section: &SectionHeader) -> bool
    ensures { result ≡ is_of_type kind section.now }
{
    section.type_().raw() == kind
}
