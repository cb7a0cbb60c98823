//! Recipes: what the page for new users quotes. Each is proved not to panic. Those for the
//! segment of an address and for the instructions say in a contract what they return; the
//! others carry no claim. All read files of both classes but `print_build_id` and `first_symbols`,
//! which read those of class 64. `tools/compare/recipes.py` compares what they print with `readelf`.

ghost use Rattle.std.specs.Prelude.{◌↔◌, IfNone, IfSome, IsTrue, codes, ℕ};
ghost use Rattle.elf_callers.specs.LoadedAt.{IsLoadedAt};
ghost use Rattle.xmas_elf.specs.First.{FindsFirst};
ghost use Rattle.xmas_elf.specs.NameTable.{IsFirstNamed, section_named};
ghost use Rattle.xmas_elf.specs.ProgramHeader.{program_list};
ghost use Rattle.xmas_elf.specs.SectionData.{HasSectionData, IsSectionData};
ghost use Rattle.xmas_elf.specs.Types.{SectionHeader};

use std::io;
use std::io::Write;
use xmas_elf::bytes::{Record, Table, text_at};
use xmas_elf::dynamic::{Dynamic, Tag};
use xmas_elf::program::{ProgramHeader, SegmentData, Type};
use xmas_elf::sections::{Rel, Rela, SectionData, SectionHeader};
use xmas_elf::symbol_table::{Entry, Entry64};
use xmas_elf::{ElfFile, Extensions, P32, P64};

/// Prints each section's index, size in bytes and name.
pub fn print_sections<W: Write>(file: &ElfFile<'_>, out: &mut W) -> io::Result<()> {
    for (index, section) in file.section_iter().enumerate() {
        let name = file.get_shstr(section.name()).unwrap_or("?");
        writeln!(out, "{} {} {}", index, section.size(), name)?;
    }
    Ok(())
}

/// Prints the value, the size in bytes and the name of each symbol of a table.
pub fn print_symbol_table<E: Entry + Record, W: Write>(
    file: &ElfFile<'_>,
    symbols: Table<'_, E>,
    out: &mut W,
) -> io::Result<()> {
    for symbol in symbols {
        let name = symbol.get_name(file).unwrap_or("?");
        writeln!(out, "{:x} {} {}", symbol.value(), symbol.size(), name)?;
    }
    Ok(())
}

/// Prints each symbol's value, size in bytes and name.
pub fn print_symbols<W: Write>(file: &ElfFile<'_>, out: &mut W) -> io::Result<()> {
    for section in file.section_iter() {
        match section.get_data(file) {
            Ok(SectionData::SymbolTable32(symbols)) => print_symbol_table(file, symbols, out)?,
            Ok(SectionData::SymbolTable64(symbols)) => print_symbol_table(file, symbols, out)?,
            _ => {}
        }
    }
    Ok(())
}

// The names of the shared libraries in a dynamic section of class 32.
fn print_needed_32<W: Write>(
    file: &ElfFile<'_>,
    entries: Table<'_, Dynamic<P32>>,
    out: &mut W,
) -> io::Result<()> {
    for entry in entries {
        if entry.get_tag() == Ok(Tag::Needed) {
            let index = entry.get_val().ok();
            let name = index.and_then(|index| file.get_dyn_string(index).ok());
            writeln!(out, "{}", name.unwrap_or("?"))?;
        }
    }
    Ok(())
}

// The names of the shared libraries in a dynamic section of class 64.
fn print_needed_64<W: Write>(
    file: &ElfFile<'_>,
    entries: Table<'_, Dynamic<P64>>,
    out: &mut W,
) -> io::Result<()> {
    for entry in entries {
        if entry.get_tag() == Ok(Tag::Needed) {
            let index = entry
                .get_val()
                .ok()
                .and_then(|value| u32::try_from(value).ok());
            let name = index.and_then(|index| file.get_dyn_string(index).ok());
            writeln!(out, "{}", name.unwrap_or("?"))?;
        }
    }
    Ok(())
}

/// Prints the names of the shared libraries that the file needs.
pub fn print_needed<W: Write>(file: &ElfFile<'_>, out: &mut W) -> io::Result<()> {
    let Some(section) = file.find_section_by_name(".dynamic") else {
        return Ok(());
    };
    match section.get_data(file) {
        Ok(SectionData::Dynamic32(entries)) => print_needed_32(file, entries, out),
        Ok(SectionData::Dynamic64(entries)) => print_needed_64(file, entries, out),
        _ => Ok(()),
    }
}

/// Prints the build id in hexadecimal, if the file has one.
pub fn print_build_id<W: Write>(file: &ElfFile<'_>, out: &mut W) -> io::Result<()> {
    if let Some(id) = file.get_gnu_buildid() {
        for byte in id {
            write!(out, "{:02x}", byte)?;
        }
        writeln!(out)?;
    }
    Ok(())
}

/// The name of the symbol at an index of the symbol table that a section links to.
pub fn linked_name<'a>(file: &ElfFile<'a>, section: &SectionHeader, index: u32) -> Option<&'a str> {
    let linked = file.section_header_at(u64::from(section.link())).ok()?;
    let index = index as usize;
    match linked.get_data(file).ok()? {
        SectionData::SymbolTable32(symbols) => symbols.get(index)?.get_name(file).ok(),
        SectionData::SymbolTable64(symbols) => symbols.get(index)?.get_name(file).ok(),
        SectionData::DynSymbolTable32(symbols) => symbols.get(index)?.get_name(file).ok(),
        SectionData::DynSymbolTable64(symbols) => symbols.get(index)?.get_name(file).ok(),
        _ => None,
    }
}

// The lines of relocations of class 32 with addends.
fn print_rela_32<W: Write>(
    file: &ElfFile<'_>,
    section: &SectionHeader,
    relocations: Table<'_, Rela<P32>>,
    out: &mut W,
) -> io::Result<()> {
    for relocation in relocations {
        let name = linked_name(file, section, relocation.get_symbol_table_index()).unwrap_or("?");
        let (offset, kind) = (relocation.get_offset(), relocation.get_type());
        let addend = relocation.get_addend().cast_signed();
        writeln!(out, "{:x} {} {} {}", offset, kind, name, addend)?;
    }
    Ok(())
}

// The lines of relocations of class 64 with addends.
fn print_rela_64<W: Write>(
    file: &ElfFile<'_>,
    section: &SectionHeader,
    relocations: Table<'_, Rela<P64>>,
    out: &mut W,
) -> io::Result<()> {
    for relocation in relocations {
        let name = linked_name(file, section, relocation.get_symbol_table_index()).unwrap_or("?");
        let (offset, kind) = (relocation.get_offset(), relocation.get_type());
        let addend = relocation.get_addend().cast_signed();
        writeln!(out, "{:x} {} {} {}", offset, kind, name, addend)?;
    }
    Ok(())
}

// The lines of relocations of class 32 without addends.
fn print_rel_32<W: Write>(
    file: &ElfFile<'_>,
    section: &SectionHeader,
    relocations: Table<'_, Rel<P32>>,
    out: &mut W,
) -> io::Result<()> {
    for relocation in relocations {
        let name = linked_name(file, section, relocation.get_symbol_table_index()).unwrap_or("?");
        let (offset, kind) = (relocation.get_offset(), relocation.get_type());
        writeln!(out, "{:x} {} {}", offset, kind, name)?;
    }
    Ok(())
}

// The lines of relocations of class 64 without addends.
fn print_rel_64<W: Write>(
    file: &ElfFile<'_>,
    section: &SectionHeader,
    relocations: Table<'_, Rel<P64>>,
    out: &mut W,
) -> io::Result<()> {
    for relocation in relocations {
        let name = linked_name(file, section, relocation.get_symbol_table_index()).unwrap_or("?");
        let (offset, kind) = (relocation.get_offset(), relocation.get_type());
        writeln!(out, "{:x} {} {}", offset, kind, name)?;
    }
    Ok(())
}

/// Prints each relocation's offset, type and symbol, and its addend where the section has addends.
pub fn print_relocations<W: Write>(file: &ElfFile<'_>, out: &mut W) -> io::Result<()> {
    for section in file.section_iter() {
        match section.get_data(file) {
            Ok(SectionData::Rela32(table)) => print_rela_32(file, &section, table, out)?,
            Ok(SectionData::Rela64(table)) => print_rela_64(file, &section, table, out)?,
            Ok(SectionData::Rel32(table)) => print_rel_32(file, &section, table, out)?,
            Ok(SectionData::Rel64(table)) => print_rel_64(file, &section, table, out)?,
            _ => {}
        }
    }
    Ok(())
}

/// Whether an address lies in a segment, and that is one to be loaded.
pub fn is_loaded_at(program: &ProgramHeader, address: u64) -> bool
    ensures { IsTrue result ↔ IsLoadedAt address program.now }
{
    let start = program.virtual_addr();
    matches!(program.get_type(), Ok(Type::Load))
        && start <= address
        && address - start < program.mem_size()
}

/// The first loaded segment that an address lies in.
pub fn segment_of_address(file: &ElfFile<'_>, address: u64) -> Option<ProgramHeader>
    ensures { FindsFirst (IsLoadedAt address) (program_list file.now) result }
{
    file.program_iter()
        .find(|program| is_loaded_at(program, address))
}

/// The instructions of a file: the data of `.text`, which borrow its bytes.
pub fn text_of<'a>(file: &ElfFile<'a>) -> Option<&'a [u8]>
    ensures found { IfSome result (λ bytes. (index : ℕ) × (section : SectionHeader)
        × IsFirstNamed file.now (codes ".text") index section
        × IsSectionData file.now section bytes.now) }
    ensures missing { IfNone result (IfSome (section_named file.now (codes ".text"))
        (λ section. ¬ HasSectionData file.now section)) }
{
    file.find_section_by_name(".text")?.raw_data(file).ok()
}

/// The text at an index of the string table at an address:
/// a name of a file without section headers.
pub fn text_at_address<'a>(file: &ElfFile<'a>, address: u64, index: u64) -> Option<&'a str> {
    let program = segment_of_address(file, address)?;
    let place = address
        .checked_sub(program.virtual_addr())?
        .checked_add(index)?;
    text_at(program.raw_data(file).ok()?, usize::try_from(place).ok()?).ok()
}

// The names of the shared libraries in a dynamic segment of class 32.
fn print_needed_at_32<W: Write>(
    file: &ElfFile<'_>,
    entries: Table<'_, Dynamic<P32>>,
    out: &mut W,
) -> io::Result<()> {
    let strings = entries
        .iter()
        .find(|entry| entry.get_tag() == Ok(Tag::StrTab))
        .and_then(|entry| entry.get_ptr().ok());
    for entry in entries {
        if entry.get_tag() == Ok(Tag::Needed) {
            let name = match (strings, entry.get_val()) {
                (Some(address), Ok(index)) => text_at_address(
                    file,
                    u64::from(address),
                    u64::from(index),
                ),
                _ => None,
            };
            writeln!(out, "{}", name.unwrap_or("?"))?;
        }
    }
    Ok(())
}

// The names of the shared libraries in a dynamic segment of class 64.
fn print_needed_at_64<W: Write>(
    file: &ElfFile<'_>,
    entries: Table<'_, Dynamic<P64>>,
    out: &mut W,
) -> io::Result<()> {
    let strings = entries
        .iter()
        .find(|entry| entry.get_tag() == Ok(Tag::StrTab))
        .and_then(|entry| entry.get_ptr().ok());
    for entry in entries {
        if entry.get_tag() == Ok(Tag::Needed) {
            let name = match (strings, entry.get_val()) {
                (Some(address), Ok(index)) => text_at_address(file, address, index),
                _ => None,
            };
            writeln!(out, "{}", name.unwrap_or("?"))?;
        }
    }
    Ok(())
}

/// Prints the names of the shared libraries that the file needs, by its segments alone.
pub fn print_needed_by_segments<W: Write>(file: &ElfFile<'_>, out: &mut W) -> io::Result<()> {
    for program in file.program_iter() {
        match program.get_data(file) {
            Ok(SegmentData::Dynamic32(entries)) => print_needed_at_32(file, entries, out)?,
            Ok(SegmentData::Dynamic64(entries)) => print_needed_at_64(file, entries, out)?,
            _ => {}
        }
    }
    Ok(())
}

/// A symbol table, and the section that it is in.
#[derive(Drop)]
pub struct Symbols<'a> {
    /// The header of the section.
    pub section: SectionHeader,
    /// Its symbols.
    pub table: Table<'a, Entry64>,
}

/// The first symbol table of a file.
pub fn first_symbols<'a>(file: &ElfFile<'a>) -> Option<Symbols<'a>> {
    for section in file.section_iter() {
        if let Ok(SectionData::SymbolTable64(table)) = section.get_data(file) {
            return Some(Symbols { section, table });
        }
    }
    None
}
