//! The results of symbols.

use crate::printed::{Answer, Pair, Place, Quoted, tell_numbers, tell_of};
use crate::records::is_asked;
use std::fmt::Display;
use std::io;
use std::io::Write;
use xmas_elf::ElfFile;
use xmas_elf::bytes::{Record, Table};
use xmas_elf::symbol_table::Entry;

/// Writes the kind of the table and how many symbols it has, and then their results.
pub fn write_symbols<E: Record + Entry + Display, W: Write>(
    file: &ElfFile<'_>,
    place: Place,
    kind: &'static str,
    table: Table<'_, E>,
    out: &mut W,
) -> io::Result<()> {
    writeln!(out, "{place} get_data = ok {kind} {}", table.len())?;
    for (k, symbol) in table.iter().enumerate() {
        if is_asked(k, table.len()) {
            let place = place.record("symbol", k);
            write_numbers(place, &symbol, out)?;
            write_names(file, place, &symbol, k, out)?;
            tell_of(place, "display", &symbol, out)?;
        }
    }
    Ok(())
}

fn write_numbers<E: Entry, W: Write>(place: Place, symbol: &E, out: &mut W) -> io::Result<()> {
    let numbers = [
        ("name", u64::from(symbol.name())),
        ("info", u64::from(symbol.info())),
        ("shndx", u64::from(symbol.shndx())),
        ("value", symbol.value()),
        ("size", symbol.size()),
    ];
    tell_numbers(&place, &numbers, out)?;
    tell_of(place, "get_other", &symbol.get_other(), out)?;
    tell_of(place, "get_binding", &Answer(symbol.get_binding()), out)?;
    tell_of(place, "get_type", &Answer(symbol.get_type()), out)
}

// The name, and the section that the symbol belongs to, by the name and the offset in its header.
fn write_names<E: Entry, W: Write>(
    file: &ElfFile<'_>,
    place: Place,
    symbol: &E,
    index: usize,
    out: &mut W,
) -> io::Result<()> {
    let name = Answer(symbol.get_name(file).map(|name| Quoted(name)));
    tell_of(place, "get_name", &name, out)?;
    let section = symbol.get_section_header(file, index);
    let section = Answer(section.map(|it| Pair(it.name(), it.offset())));
    tell_of(place, "get_section_header", &section, out)
}
