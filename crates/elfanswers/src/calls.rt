//! What calls return that are asked one by one: those with arguments, and those that the Rust crate
//! lacks.

use crate::printed::{Answer, Found, Pair, Quoted};
use std::alloc::Global;
use std::io::Write;
use std::{io, str};
use xmas_elf::hash::hash;
use xmas_elf::program::ProgramHeader;
use xmas_elf::report::report;
use xmas_elf::sections::parse_section_header;
use xmas_elf::{ElfError, ElfFile};

/// Writes what a call returns, and nothing where there is no such call here.
pub fn write_call<W: Write>(
    alloc: Global,
    file: &ElfFile<'_>,
    call: &str,
    out: &mut W,
) -> io::Result<()> {
    match call.split_once(' ') {
        None => {
            write_count(file, call, out)?;
            write_report(alloc, file, call, out)
        }
        Some((call, argument)) => {
            write_named(alloc, file, call, argument, out)?;
            match argument.parse::<u64>() {
                Ok(index) => {
                    write_text(file, call, index, out)?;
                    write_header(file, call, index, out)
                }
                Err(_) => Ok(()),
            }
        }
    }
}

fn write_count<W: Write>(file: &ElfFile<'_>, call: &str, out: &mut W) -> io::Result<()> {
    match call {
        "section_count" => write!(out, "{}", file.section_count()),
        "program_count" => write!(out, "{}", file.program_count()),
        "shstr_index" => write!(out, "{}", Answer(file.shstr_index())),
        "section_iter" => write!(out, "{}", iterates_by_index(file)),
        _ => Ok(()),
    }
}

// Whether each section of the iterator is the one at its index.
fn iterates_by_index(file: &ElfFile<'_>) -> bool {
    for (index, section) in file.section_iter().enumerate() {
        let other = file.section_header_at(index as u64);
        let numbers = other.map(|it| (it.name(), it.offset(), it.size()));
        if numbers != Ok((section.name(), section.offset(), section.size())) {
            return false;
        }
    }
    true
}

// The whole report, as one line.
fn write_report<W: Write>(
    alloc: Global,
    file: &ElfFile<'_>,
    call: &str,
    out: &mut W,
) -> io::Result<()> {
    if call != "report" {
        return Ok(());
    }
    let mut text = Vec::new(alloc);
    match report(file.input, &mut text) {
        Ok(()) => write!(out, "ok {}", Quoted(str::from_utf8(&text).unwrap_or("?"))),
        Err(fault) => write!(out, "err {fault}"),
    }
}

fn write_text<W: Write>(file: &ElfFile<'_>, call: &str, index: u64, out: &mut W) -> io::Result<()> {
    let index = u32::try_from(index).unwrap_or(u32::MAX);
    let text = match call {
        "get_shstr" => file.get_shstr(index),
        "get_string" => file.get_string(index),
        "get_dyn_string" => file.get_dyn_string(index),
        _ => return Ok(()),
    };
    write!(out, "{}", Answer(text.map(|text| Quoted(text))))
}

// The offset of a section, or the offset and the alignment of a segment.
fn write_header<W: Write>(
    file: &ElfFile<'_>,
    call: &str,
    index: u64,
    out: &mut W,
) -> io::Result<()> {
    let narrow = u16::try_from(index).unwrap_or(u16::MAX);
    let wide = u32::try_from(index).unwrap_or(u32::MAX);
    let section = match call {
        "section_header" => file.section_header(narrow),
        "section_header_at" => file.section_header_at(index),
        "parse_section_header" => parse_section_header(file.input, file.header, narrow),
        "program_header" => return write_segment(file.program_header(narrow), out),
        "program_header_at" => return write_segment(file.program_header_at(wide), out),
        _ => return Ok(()),
    };
    write!(out, "{}", Answer(section.map(|it| it.offset())))
}

fn write_segment<W: Write>(found: Result<ProgramHeader, ElfError>, out: &mut W) -> io::Result<()> {
    let numbers = found.map(|it| Pair(it.offset(), it.align()));
    write!(out, "{}", Answer(numbers))
}

// The calls that take a name, behind an index or alone.
fn write_named<W: Write>(
    alloc: Global,
    file: &ElfFile<'_>,
    call: &str,
    argument: &str,
    out: &mut W,
) -> io::Result<()> {
    match call {
        "shstr_is" => write_compared(alloc, file, argument, out),
        "hash" => write!(out, "{}", hash(argument)),
        "find_section_by_name" => write_section_found(alloc, file, argument, out),
        _ => Ok(()),
    }
}

// Whether the name at an index is this, and how many bytes were compared.
fn write_compared<W: Write>(
    alloc: Global,
    file: &ElfFile<'_>,
    argument: &str,
    out: &mut W,
) -> io::Result<()> {
    let (index, name) = argument.split_once(' ').unwrap_or((argument, ""));
    let index = index.parse::<u32>().unwrap_or(0);
    let name = plain(alloc, name)?;
    let answer = file.shstr_is(index, name.as_str());
    write!(out, "{}", Pair(answer.0, answer.1))
}

// The name and the offset of the section with this name.
fn write_section_found<W: Write>(
    alloc: Global,
    file: &ElfFile<'_>,
    argument: &str,
    out: &mut W,
) -> io::Result<()> {
    let name = plain(alloc, argument)?;
    let found = file.find_section_by_name(name.as_str());
    let numbers = Found(found.map(|it| Pair(it.name(), it.offset())));
    write!(out, "{numbers}")
}

// The text that is quoted so.
fn plain(alloc: Global, quoted: &str) -> io::Result<String> {
    let mut text = String::new(alloc);
    for (k, part) in quoted.split('\\').enumerate() {
        let (number, rest) = part.split_once(';').unwrap_or(("", part));
        let number = u32::from_str_radix(number, 16).unwrap_or(0);
        if k > 0 {
            text.push(char::from_u32(number).unwrap_or('?'))?;
        }
        text.push_str(if k > 0 { rest } else { part })?;
    }
    Ok(text)
}
