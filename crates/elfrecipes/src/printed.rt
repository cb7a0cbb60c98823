//! The recipes of `elf_callers` over a file.

use elf_callers::recipes::{
    first_symbols, print_build_id, print_needed, print_needed_by_segments, print_relocations,
    print_sections, print_symbols, segment_of_address, text_of,
};
use std::io;
use std::io::Write;
use xmas_elf::ElfFile;

// The recipes that print.
fn print_all<W: Write>(file: &ElfFile<'_>, out: &mut W) -> io::Result<()> {
    writeln!(out, "[sections]")?;
    print_sections(file, out)?;
    writeln!(out, "[symbols]")?;
    print_symbols(file, out)?;
    writeln!(out, "[relocations]")?;
    print_relocations(file, out)?;
    writeln!(out, "[needed]")?;
    print_needed(file, out)?;
    writeln!(out, "[needed by segments]")?;
    print_needed_by_segments(file, out)?;
    writeln!(out, "[build id]")?;
    print_build_id(file, out)
}

// The recipes that return a value: the segment of the entry point, by its address and size, the
// number of bytes of `.text`, and the number of symbols of the first table.
fn print_values<W: Write>(file: &ElfFile<'_>, out: &mut W) -> io::Result<()> {
    writeln!(out, "[segment of the entry point]")?;
    if let Some(program) = segment_of_address(file, file.header.pt2.entry_point()) {
        writeln!(out, "{:x} {}", program.virtual_addr(), program.mem_size())?;
    }
    writeln!(out, "[text]")?;
    if let Some(bytes) = text_of(file) {
        writeln!(out, "{}", bytes.len())?;
    }
    writeln!(out, "[first symbols]")?;
    if let Some(symbols) = first_symbols(file) {
        writeln!(out, "{}", symbols.table.len())?;
    }
    Ok(())
}

/// Writes what each recipe gives, under a line with its name in brackets.
pub fn write_recipes<W: Write>(file: &ElfFile<'_>, out: &mut W) -> io::Result<()> {
    print_all(file, out)?;
    print_values(file, out)
}
