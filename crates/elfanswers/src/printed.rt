//! The printed forms of results.

use std::fmt::{Debug, Display};
use std::io::Write;
use std::{fmt, io};
use xmas_elf::ElfError;

// So many bytes at the front and at the end of a slice are told apart.
const TOLD: usize = 4096;

/// `ok` with the value, or `err` with the text of the error.
#[derive(Drop)]
pub struct Answer<T>(pub Result<T, ElfError>);

impl<T: Display> Display for Answer<T> {
    fn fmt<W: fmt::Write>(&self, f: &mut fmt::Formatter<W>) -> fmt::Result {
        match &self.0 {
            Ok(value) => write!(f, "ok {value}"),
            Err(error) => write!(f, "err {error}"),
        }
    }
}

/// `ok` with the value, or `none`.
#[derive(Drop)]
pub struct Found<T>(pub Option<T>);

impl<T: Display> Display for Found<T> {
    fn fmt<W: fmt::Write>(&self, f: &mut fmt::Formatter<W>) -> fmt::Result {
        match &self.0 {
            Some(value) => write!(f, "ok {value}"),
            None => f.write_str("none"),
        }
    }
}

/// A value as `Debug` prints it.
#[derive(Drop)]
pub struct Shown<T>(pub T);

impl<T: Debug> Display for Shown<T> {
    fn fmt<W: fmt::Write>(&self, f: &mut fmt::Formatter<W>) -> fmt::Result {
        Debug::fmt(&self.0, f)
    }
}

/// Nothing, as a check returns.
#[derive(Clone, Copy)]
pub struct Nothing;

impl Display for Nothing {
    fn fmt<W: fmt::Write>(&self, f: &mut fmt::Formatter<W>) -> fmt::Result {
        f.write_str("()")
    }
}

/// Two values, with a space between them.
#[derive(Drop)]
pub struct Pair<A, B>(pub A, pub B);

impl<A: Display, B: Display> Display for Pair<A, B> {
    fn fmt<W: fmt::Write>(&self, f: &mut fmt::Formatter<W>) -> fmt::Result {
        write!(f, "{} {}", self.0, self.1)
    }
}

/// A text with each character but printable ASCII as its number.
#[derive(Clone, Copy)]
pub struct Quoted<'a>(pub &'a str);

impl Display for Quoted<'_> {
    fn fmt<W: fmt::Write>(&self, f: &mut fmt::Formatter<W>) -> fmt::Result {
        for c in self.0.chars() {
            match c {
                '\\' => f.write_str("\\\\")?,
                ' '..='~' => f.write_char(c)?,
                _ => write!(f, "\\{:x};", c as u32)?,
            }
        }
        Ok(())
    }
}

/// How many bytes there are, and a number each of the first and of the last of them.
#[derive(Clone, Copy)]
pub struct Told<'a>(pub &'a [u8]);

impl Display for Told<'_> {
    fn fmt<W: fmt::Write>(&self, f: &mut fmt::Formatter<W>) -> fmt::Result {
        let len = self.0.len();
        let count = len.min(TOLD);
        let first = number_of(&self.0[..count]);
        let last = number_of(&self.0[len - count..]);
        write!(f, "{len} {first} {last}")
    }
}

fn number_of(bytes: &[u8]) -> u32 {
    let mut sum = 0u32;
    for byte in bytes {
        sum = sum.wrapping_mul(31).wrapping_add(u32::from(*byte));
    }
    sum
}

/// A part of a file: section 3, or symbol 5 of section 3.
#[derive(Clone, Copy)]
pub struct Place {
    kind: &'static str,
    index: u16,
    inner: Option<(&'static str, usize)>,
}

impl Place {
    /// An entry of a header table.
    pub fn header(kind: &'static str, index: u16) -> Place {
        Place {
            kind,
            index,
            inner: None,
        }
    }

    /// A record of its data.
    pub fn record(self, kind: &'static str, index: usize) -> Place {
        Place {
            kind: self.kind,
            index: self.index,
            inner: Some((kind, index)),
        }
    }
}

impl Display for Place {
    fn fmt<W: fmt::Write>(&self, f: &mut fmt::Formatter<W>) -> fmt::Result {
        write!(f, "{} {}", self.kind, self.index)?;
        match self.inner {
            Some((kind, index)) => write!(f, " {kind} {index}"),
            None => Ok(()),
        }
    }
}

/// Writes the line of a call with what it returns.
pub fn tell<A: Display, W: Write>(call: &str, answer: &A, out: &mut W) -> io::Result<()> {
    writeln!(out, "{call} = {answer}")
}

/// Writes that line for a part of a file.
pub fn tell_of<A: Display, W: Write>(
    place: Place,
    call: &str,
    answer: &A,
    out: &mut W,
) -> io::Result<()> {
    writeln!(out, "{place} {call} = {answer}")
}

/// Writes a line for each of these numbers, of the ELF header or of a part of a file.
pub fn tell_numbers<P: Display, W: Write>(
    part: &P,
    numbers: &[(&str, u64)],
    out: &mut W,
) -> io::Result<()> {
    for (call, number) in numbers {
        writeln!(out, "{part} {call} = {number}")?;
    }
    Ok(())
}
