//! The lines as text.

use crate::lines::{Asked, Line};
use elf_search::candidates::How;
use elf_search::names::NameKind;
use program_ends::write_name;
use program_libraries::{Found, Object, write_lacked};
use std::io;
use std::io::Write;

/// Writes a line as text.
pub(crate) fn write_text<W: Write>(line: Line<'_>, out: &mut W) -> io::Result<()> {
    match line {
        Line::Program { object, .. } => write_path(&object.path, out),
        Line::Found {
            asked,
            object,
            place,
        } => write_found(asked, object, place, out),
        Line::Missing(asked) => write_missing(asked, out),
        Line::Version(lacked) => write_lacked(lacked, out),
        Line::Start(path) => write_start(path, out),
        Line::Path(path) => write_path(path, out),
    }
}

// A path.
fn write_path<W: Write>(path: &str, out: &mut W) -> io::Result<()> {
    write_name(path.as_bytes(), out)?;
    writeln!(out)
}

// The line of a library that starts.
fn write_start<W: Write>(path: &str, out: &mut W) -> io::Result<()> {
    write!(out, "start ")?;
    write_path(path, out)
}

// The name of an entry behind blanks.
fn write_indented<W: Write>(asked: Asked<'_>, out: &mut W) -> io::Result<()> {
    for _ in 0..asked.depth {
        write!(out, "  ")?;
    }
    write_name(&asked.entry.name, out)
}

// The line of an entry whose library is missing.
fn write_missing<W: Write>(asked: Asked<'_>, out: &mut W) -> io::Result<()> {
    write_indented(asked, out)?;
    write!(out, " => not found")?;
    if asked.entry.kind == NameKind::Auxiliary {
        write!(out, " (auxiliary)")?;
    }
    writeln!(out)
}

// The line of an entry that had an object loaded.
fn write_found<W: Write>(
    asked: Asked<'_>,
    object: &Object,
    place: usize,
    out: &mut W,
) -> io::Result<()> {
    write_indented(asked, out)?;
    write!(out, " => ")?;
    write_name(object.path.as_bytes(), out)?;
    write!(
        out,
        " ({}{})",
        how_text(object.how),
        kind_text(asked.entry.kind)
    )?;
    writeln!(out, " #{place}")
}

/// By which list an object was found.
pub(crate) fn how_text(how: Found) -> &'static str {
    match how {
        Found::Program => "program",
        Found::Interpreter => "interpreter",
        Found::By(How::Itself) => "path",
        Found::By(How::Rpath(_)) => "rpath",
        Found::By(How::Environment) => "library-path",
        Found::By(How::Runpath) => "runpath",
        Found::By(How::Cache) => "cache",
        Found::By(How::Conf) => "conf",
        Found::By(How::Default) => "default",
    }
}

// What an entry asks for, if it is not just a library that its object needs.
fn kind_text(kind: NameKind) -> &'static str {
    match kind {
        NameKind::Needed => "",
        NameKind::Auxiliary => ", auxiliary",
        NameKind::Filter => ", filter",
    }
}
