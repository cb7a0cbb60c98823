//! All results over one file.

use crate::header::write_header;
use crate::sections::write_section;
use crate::segments::write_segment;
use crate::texts::write_texts;
use std::io;
use std::io::Write;
use xmas_elf::ElfFile;

// So many headers of a table are asked, and then the last and the index past it.
const HEADERS: u32 = 256;

/// Writes a line for each call over the file that these bytes are.
pub fn write_answers<W: Write>(input: &[u8], out: &mut W) -> io::Result<()> {
    match ElfFile::new(input) {
        Ok(file) => {
            writeln!(out, "file new = ok")?;
            write_all(&file, out)
        }
        Err(error) => writeln!(out, "file new = err {error}"),
    }
}

fn write_all<W: Write>(file: &ElfFile<'_>, out: &mut W) -> io::Result<()> {
    write_header(file, out)?;
    write_texts(file, out)?;
    write_sections(file, out)?;
    write_segments(file, out)
}

fn write_sections<W: Write>(file: &ElfFile<'_>, out: &mut W) -> io::Result<()> {
    let count = file.header.pt2.sh_count();
    for index in 0..=count {
        if is_asked(index, count) {
            write_section(file, index, out)?;
        }
    }
    write_section(file, 0xff00, out)
}

fn write_segments<W: Write>(file: &ElfFile<'_>, out: &mut W) -> io::Result<()> {
    let count = file.header.pt2.ph_count();
    for index in 0..=count {
        if is_asked(index, count) {
            write_segment(file, index, out)?;
        }
    }
    Ok(())
}

fn is_asked(index: u16, count: u16) -> bool {
    let index = u32::from(index);
    index < HEADERS || index + 1 >= u32::from(count)
}
