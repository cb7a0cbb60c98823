//! The files that rows are of.

use crate::calls::write_call;
use crate::header::write_header;
use crate::lookups::Linked;
use crate::made::write_made;
use crate::printed::{Answer, Nothing, tell};
use crate::sections::write_section;
use crate::segments::write_segment;
use crate::texts::write_links;
use std::alloc::Global;
use std::io::Write;
use std::{io, str};
use xmas_elf::header::{Class_, Header, parse_header};
use xmas_elf::{ElfError, ElfFile};

/// A file, by whose header it is read, and a record that isn't the file's.
#[derive(Drop)]
pub struct Case {
    bytes: Vec<u8>,
    // The file whose header it is, if that isn't its own.
    under: Vec<u8>,
    class: Option<u8>,
    kind: String,
    record: Vec<u8>,
    // Of a hash table that isn't the file's.
    symbols: Vec<u8>,
}

impl Case {
    /// A file of these bytes.
    pub fn new(alloc: Global, bytes: Vec<u8>) -> Case {
        Case {
            bytes,
            under: Vec::new(alloc),
            class: None,
            kind: String::new(alloc),
            record: Vec::new(alloc),
            symbols: Vec::new(alloc),
        }
    }

    /// How many bytes the file has.
    pub fn len(&self) -> usize {
        self.bytes.len()
    }

    /// Has it read by the header of another file.
    pub fn set_header(&mut self, bytes: Vec<u8>) {
        self.under = bytes;
    }

    /// Has it read as of another class.
    pub fn set_class(&mut self, class: &str) -> io::Result<()> {
        self.class = Some(class.parse::<u8>().map_err(|_| unreadable())?);
        Ok(())
    }

    /// Puts bytes at a place.
    pub fn put(&mut self, alloc: Global, words: &str) -> io::Result<()> {
        let (place, digits) = words.split_once(' ').ok_or(unreadable())?;
        let place = place.parse::<usize>().map_err(|_| unreadable())?;
        for (k, byte) in bytes_of(alloc, digits)?.iter().enumerate() {
            let at = self.bytes.get_mut(place.wrapping_add(k));
            *at.ok_or(unreadable())? = *byte;
        }
        Ok(())
    }

    /// Takes a record of a kind.
    pub fn set_record(&mut self, alloc: Global, words: &str) -> io::Result<()> {
        let (kind, digits) = words.split_once(' ').unwrap_or((words, ""));
        self.kind = String::from_str(alloc, kind)?;
        self.record = bytes_of(alloc, digits)?;
        Ok(())
    }

    /// Takes the symbols of a hash table, which is the record.
    pub fn set_symbols(&mut self, alloc: Global, digits: &str) -> io::Result<()> {
        self.symbols = bytes_of(alloc, digits)?;
        Ok(())
    }

    /// What a call returns over the first bytes of the file, as a line of results has it; empty
    /// where there is no such call.
    pub fn answer(&self, alloc: Global, call: &str, len: usize) -> io::Result<Vec<u8>> {
        let mut out = Vec::new(alloc);
        if let Ok(file) = self.open(len) {
            write_call(alloc, &file, call, &mut out)?;
            if let Ok(linked) = Linked::new(&file, &self.record, &self.symbols) {
                linked.write_call(call, &mut out)?;
            }
        }
        if out.is_empty() {
            let lines = self.lines(alloc, call, len)?;
            let text = str::from_utf8(&lines).unwrap_or("");
            out.write_all(answer_in(text, call).as_bytes())?;
        }
        Ok(out)
    }

    // The lines among which is that of a call.
    fn lines(&self, alloc: Global, call: &str, len: usize) -> io::Result<Vec<u8>> {
        let mut out = Vec::new(alloc);
        let header = parse_header(self.input(len)).map(|_| Nothing);
        tell("parse_header", &Answer(header), &mut out)?;
        match self.open(len) {
            Ok(file) => {
                writeln!(out, "file new = ok")?;
                self.write_part(&file, call, &mut out)?;
            }
            Err(error) => writeln!(out, "file new = err {error}")?,
        }
        Ok(out)
    }

    // Writes the lines of the part of the file that a call is of.
    fn write_part<W: Write>(&self, file: &ElfFile<'_>, call: &str, out: &mut W) -> io::Result<()> {
        let mut words = call.split(' ');
        let part = words.next().unwrap_or("");
        let index = words.next().unwrap_or("").parse::<u16>().unwrap_or(0);
        match part {
            "section" => write_section(file, index, out),
            "segment" => write_segment(file, index, out),
            "made" => write_made(file, self.kind.as_str(), &self.record, out),
            "extensions" => write_links(file, out),
            _ => write_header(file, out),
        }
    }

    fn open(&self, len: usize) -> Result<ElfFile<'_>, ElfError> {
        let input = self.input(len);
        let header = match self.under.is_empty() {
            true => ElfFile::new(input)?.header,
            false => parse_header(&self.under)?,
        };
        let (mut pt1, pt2) = (header.pt1, header.pt2);
        if let Some(class) = self.class {
            pt1.class = Class_::from_raw(class);
        }
        let header = Header { pt1, pt2 };
        Ok(ElfFile { input, header })
    }

    // The first bytes of the file.
    fn input(&self, len: usize) -> &[u8] {
        self.bytes.get(..len).unwrap_or(&self.bytes)
    }
}

// What the line of a call says.
fn answer_in<'a>(text: &'a str, call: &str) -> &'a str {
    let mut lines = text.lines();
    let found = lines.find_map(|line| line.strip_prefix(call)?.strip_prefix(" = "));
    found.unwrap_or("")
}

/// Rows can't be read.
pub fn unreadable() -> io::Error {
    io::Error::from(io::ErrorKind::InvalidData)
}

// The bytes that are written so, each with two hexadecimal digits.
fn bytes_of(alloc: Global, digits: &str) -> io::Result<Vec<u8>> {
    let mut bytes = Vec::new(alloc);
    for pair in digits.as_bytes().chunks(2) {
        let pair = str::from_utf8(pair).unwrap_or("");
        bytes.push(u8::from_str_radix(pair, 16).map_err(|_| unreadable())?)?;
    }
    Ok(bytes)
}
