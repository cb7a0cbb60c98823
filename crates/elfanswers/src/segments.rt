//! The results of a segment: its numbers and data.

use crate::printed::{Answer, Nothing, Pair, Place, Told, tell_numbers, tell_of};
use crate::records::write_table;
use crate::sections::write_note;
use std::io;
use std::io::Write;
use xmas_elf::ElfFile;
use xmas_elf::program::{ProgramHeader, SegmentData, sanity_check};

/// Writes them for the segment at an index.
pub fn write_segment<W: Write>(file: &ElfFile<'_>, index: u16, out: &mut W) -> io::Result<()> {
    let place = Place::header("segment", index);
    match file.program_header(index) {
        Ok(program) => {
            writeln!(out, "{place} header = ok")?;
            write_parts(file, place, &program, out)
        }
        Err(error) => writeln!(out, "{place} header = err {error}"),
    }
}

/// Writes them for a program header over a file.
pub fn write_parts<W: Write>(
    file: &ElfFile<'_>,
    place: Place,
    program: &ProgramHeader,
    out: &mut W,
) -> io::Result<()> {
    write_numbers(place, program, out)?;
    write_bytes(file, place, program, out)?;
    write_data(file, place, program, out)
}

fn write_numbers<W: Write>(place: Place, program: &ProgramHeader, out: &mut W) -> io::Result<()> {
    let numbers = [
        ("offset", program.offset()),
        ("virtual_addr", program.virtual_addr()),
        ("physical_addr", program.physical_addr()),
        ("file_size", program.file_size()),
        ("mem_size", program.mem_size()),
        ("align", program.align()),
    ];
    tell_numbers(&place, &numbers, out)?;
    let flags = program.flags();
    tell_of(place, "flags", &Pair(flags.0, flags), out)?;
    tell_of(place, "get_type", &Answer(program.get_type()), out)
}

fn write_bytes<W: Write>(
    file: &ElfFile<'_>,
    place: Place,
    program: &ProgramHeader,
    out: &mut W,
) -> io::Result<()> {
    let bytes = Answer(program.raw_data(file).map(|bytes| Told(bytes)));
    tell_of(place, "raw_data", &bytes, out)?;
    let check = Answer(sanity_check(*program, file).map(|_| Nothing));
    tell_of(place, "sanity_check", &check, out)?;
    tell_of(place, "display", &program, out)
}

fn write_data<W: Write>(
    file: &ElfFile<'_>,
    place: Place,
    program: &ProgramHeader,
    out: &mut W,
) -> io::Result<()> {
    match program.get_data(file) {
        Ok(SegmentData::Empty) => writeln!(out, "{place} get_data = ok Empty"),
        Ok(SegmentData::Undefined(bytes)) => {
            writeln!(out, "{place} get_data = ok Undefined {}", Told(bytes))
        }
        Ok(SegmentData::Dynamic32(table)) => write_table(place, "Dynamic32", table, out),
        Ok(SegmentData::Dynamic64(table)) => write_table(place, "Dynamic64", table, out),
        Ok(SegmentData::Note64(header, body)) => write_note(place, &header, body, out),
        Err(error) => writeln!(out, "{place} get_data = err {error}"),
    }
}
