//! The results of headers and tables that are in no file.

use crate::printed::Place;
use crate::symbols::write_symbols;
use crate::{sections, segments};
use std::fmt::Display;
use std::io;
use std::io::Write;
use xmas_elf::bytes::{Record, Table};
use xmas_elf::program::{ProgramHeader, ProgramHeader32, ProgramHeader64};
use xmas_elf::sections::{SectionHeader, SectionHeader_};
use xmas_elf::symbol_table::{DynEntry32, DynEntry64, Entry, Entry32, Entry64};
use xmas_elf::{ElfFile, P32, P64};

/// Writes the results of a header or a table of this kind over a file, in the order of that.
pub fn write_made<W: Write>(
    file: &ElfFile<'_>,
    kind: &str,
    bytes: &[u8],
    out: &mut W,
) -> io::Result<()> {
    match kind {
        "section32" => write_section(file, first(file, bytes).map(SectionHeader::Sh32), out),
        "section64" => write_section(file, first(file, bytes).map(SectionHeader::Sh64), out),
        "segment32" => write_segment(file, first(file, bytes).map(ProgramHeader::Ph32), out),
        "segment64" => write_segment(file, first(file, bytes).map(ProgramHeader::Ph64), out),
        "symbols32" => write_table::<Entry32, W>(file, bytes, out),
        "symbols64" => write_table::<Entry64, W>(file, bytes, out),
        "dynamic_symbols32" => write_table::<DynEntry32, W>(file, bytes, out),
        "dynamic_symbols64" => write_table::<DynEntry64, W>(file, bytes, out),
        _ => Ok(()),
    }
}

// Of the headers and tables that are made here.
fn place() -> Place {
    Place::header("made", 0)
}

// The first record of some bytes.
fn first<T: Record>(file: &ElfFile<'_>, bytes: &[u8]) -> Option<T> {
    Table::<T>::new(bytes, file.byte_order()).ok()?.get(0)
}

fn write_section<W: Write>(
    file: &ElfFile<'_>,
    section: Option<SectionHeader>,
    out: &mut W,
) -> io::Result<()> {
    match section {
        Some(section) => sections::write_parts(file, place(), &section, out),
        None => Ok(()),
    }
}

fn write_segment<W: Write>(
    file: &ElfFile<'_>,
    program: Option<ProgramHeader>,
    out: &mut W,
) -> io::Result<()> {
    match program {
        Some(program) => segments::write_parts(file, place(), &program, out),
        None => Ok(()),
    }
}

fn write_table<E: Record + Entry + Display, W: Write>(
    file: &ElfFile<'_>,
    bytes: &[u8],
    out: &mut W,
) -> io::Result<()> {
    match Table::<E>::new(bytes, file.byte_order()) {
        Ok(table) => write_symbols(file, place(), "symbols", table, out),
        Err(error) => writeln!(out, "{} get_data = err {error}", place()),
    }
}
