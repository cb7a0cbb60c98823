//! The results of a section: its numbers, name and data.

use crate::printed::{Answer, Nothing, Place, Quoted, Told, tell_numbers, tell_of};
use crate::records::{write_records, write_table};
use crate::symbols::write_symbols;
use std::io;
use std::io::Write;
use xmas_elf::bytes::Table;
use xmas_elf::hash::HashTable;
use xmas_elf::sections::{NoteHeader, SectionData, SectionHeader, sanity_check};
use xmas_elf::{ElfError, ElfFile};

// So many texts of a string table are asked.
const TEXTS: usize = 40;

// Buckets and chains, some behind the last of most tables.
const PLACES: &[u32] = &[0, 1, 2, 3, 10, 1000, 0xffff_ffff];

/// Writes them for the section at an index.
pub fn write_section<W: Write>(file: &ElfFile<'_>, index: u16, out: &mut W) -> io::Result<()> {
    let place = Place::header("section", index);
    match file.section_header(index) {
        Ok(section) => {
            writeln!(out, "{place} header = ok")?;
            write_parts(file, place, &section, out)
        }
        Err(error) => writeln!(out, "{place} header = err {error}"),
    }
}

/// Writes them for a section header over a file.
pub fn write_parts<W: Write>(
    file: &ElfFile<'_>,
    place: Place,
    section: &SectionHeader,
    out: &mut W,
) -> io::Result<()> {
    write_numbers(place, section, out)?;
    write_checks(file, place, section, out)?;
    write_data(file, place, section, out)
}

fn write_numbers<W: Write>(place: Place, section: &SectionHeader, out: &mut W) -> io::Result<()> {
    let numbers = [
        ("name", u64::from(section.name())),
        ("flags", section.flags()),
        ("address", section.address()),
        ("offset", section.offset()),
        ("size", section.size()),
        ("link", u64::from(section.link())),
        ("info", u64::from(section.info())),
        ("align", section.align()),
        ("entry_size", section.entry_size()),
    ];
    tell_numbers(&place, &numbers, out)
}

fn write_checks<W: Write>(
    file: &ElfFile<'_>,
    place: Place,
    section: &SectionHeader,
    out: &mut W,
) -> io::Result<()> {
    tell_of(place, "get_type", &Answer(section.get_type()), out)?;
    let name = Answer(section.get_name(file).map(|name| Quoted(name)));
    tell_of(place, "get_name", &name, out)?;
    let bytes = Answer(section.raw_data(file).map(|bytes| Told(bytes)));
    tell_of(place, "raw_data", &bytes, out)?;
    let check = Answer(sanity_check(*section, file).map(|_| Nothing));
    tell_of(place, "sanity_check", &check, out)?;
    tell_of(place, "display", &section, out)
}

fn write_data<W: Write>(
    file: &ElfFile<'_>,
    place: Place,
    section: &SectionHeader,
    out: &mut W,
) -> io::Result<()> {
    let found = match section.get_data(file) {
        Ok(found) => found,
        Err(error) => return writeln!(out, "{place} get_data = err {error}"),
    };
    match found {
        SectionData::SymbolTable32(table) => {
            write_symbols(file, place, "SymbolTable32", table, out)
        }
        SectionData::SymbolTable64(table) => {
            write_symbols(file, place, "SymbolTable64", table, out)
        }
        SectionData::DynSymbolTable32(table) => {
            write_symbols(file, place, "DynSymbolTable32", table, out)
        }
        SectionData::DynSymbolTable64(table) => {
            write_symbols(file, place, "DynSymbolTable64", table, out)
        }
        other => write_bytes(place, other, out),
    }
}

fn write_bytes<W: Write>(place: Place, found: SectionData<'_>, out: &mut W) -> io::Result<()> {
    match found {
        SectionData::Empty => writeln!(out, "{place} get_data = ok Empty"),
        SectionData::Undefined(bytes) => {
            writeln!(out, "{place} get_data = ok Undefined {}", Told(bytes))
        }
        SectionData::StrArray(bytes) => write_string_table(place, bytes, out),
        SectionData::Note64(header, body) => write_note(place, &header, body, out),
        SectionData::HashTable(table) => write_hash_table(place, &table, out),
        SectionData::Group { flags, indicies } => write_group(place, flags, indicies, out),
        other => write_tables(place, other, out),
    }
}

fn write_tables<W: Write>(place: Place, found: SectionData<'_>, out: &mut W) -> io::Result<()> {
    match found {
        SectionData::FnArray32(table) => write_table(place, "FnArray32", table, out),
        SectionData::FnArray64(table) => write_table(place, "FnArray64", table, out),
        SectionData::SymTabShIndex(table) => write_table(place, "SymTabShIndex", table, out),
        SectionData::Rela32(table) => write_table(place, "Rela32", table, out),
        SectionData::Rela64(table) => write_table(place, "Rela64", table, out),
        SectionData::Rel32(table) => write_table(place, "Rel32", table, out),
        SectionData::Rel64(table) => write_table(place, "Rel64", table, out),
        SectionData::Dynamic32(table) => write_table(place, "Dynamic32", table, out),
        SectionData::Dynamic64(table) => write_table(place, "Dynamic64", table, out),
        _ => Ok(()),
    }
}

fn write_string_table<W: Write>(place: Place, bytes: &[u8], out: &mut W) -> io::Result<()> {
    writeln!(out, "{place} get_data = ok StrArray {}", Told(bytes))?;
    write_strings(place, &SectionData::StrArray(bytes), out)
}

fn write_group<W: Write>(
    place: Place,
    flags: u32,
    members: Table<'_, u32>,
    out: &mut W,
) -> io::Result<()> {
    let count = members.len();
    writeln!(out, "{place} get_data = ok Group {flags} {count}")?;
    write_records(place, members, out)
}

fn write_strings<W: Write>(place: Place, found: &SectionData<'_>, out: &mut W) -> io::Result<()> {
    let Ok(mut strings) = found.strings() else {
        return writeln!(out, "{place} strings = none");
    };
    for k in 0..TEXTS {
        let text = strings.next();
        write_string(place, k, text, out)?;
        if !matches!(text, Some(Ok(_))) {
            break;
        }
    }
    Ok(())
}

fn write_string<W: Write>(
    place: Place,
    k: usize,
    text: Option<Result<&str, ElfError>>,
    out: &mut W,
) -> io::Result<()> {
    match text {
        Some(text) => {
            let text = Answer(text.map(|text| Quoted(text)));
            writeln!(out, "{place} string {k} = {text}")
        }
        None => writeln!(out, "{place} string {k} = none"),
    }
}

/// Writes the kind of the data and the results of a note.
pub fn write_note<W: Write>(
    place: Place,
    header: &NoteHeader,
    body: &[u8],
    out: &mut W,
) -> io::Result<()> {
    writeln!(out, "{place} get_data = ok Note64 {}", Told(body))?;
    tell_of(place, "note type_", &header.type_(), out)?;
    let name = Answer(header.name(body).map(|name| Quoted(name)));
    tell_of(place, "note name", &name, out)?;
    let description = Answer(header.desc(body).map(|bytes| Told(bytes)));
    tell_of(place, "note desc", &description, out)
}

fn write_hash_table<W: Write>(place: Place, table: &HashTable<'_>, out: &mut W) -> io::Result<()> {
    writeln!(out, "{place} get_data = ok HashTable")?;
    for &index in PLACES {
        let bucket = Answer(table.get_bucket(index));
        writeln!(out, "{place} get_bucket {index} = {bucket}")?;
        let chain = Answer(table.get_chain(index));
        writeln!(out, "{place} get_chain {index} = {chain}")?;
    }
    Ok(())
}
