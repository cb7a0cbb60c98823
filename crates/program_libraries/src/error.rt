//! Why the libraries of a program aren't found.

ghost use Rattle.std.specs.Prelude.{◌≡◌};

use elf_search::SearchError;
use program_ends::{say, write_name};
use std::alloc::{AllocError, AllocFailed, Global};
use std::io;
use std::io::Write;

/// Why the libraries of a program aren't found.
#[derive(Debug, Drop)]
pub enum FindError {
    /// The file at this path, of a program or a cache, can't be read.
    Unread { path: String },
    /// The file at this path has this error, or a name that it asks for.
    InFile { path: String, error: SearchError },
    /// The first record of the versions that the file at this path needs has this version number and not 1
    /// (vn_version).
    NeedRecord { path: String, number: u16 },
    /// There is not enough memory.
    Memory,
}

impl From<AllocError> for FindError {
    fn from(_error: AllocError) -> Self {
        FindError::Memory
    }
}

impl<T: Drop> From<AllocFailed<T>> for FindError {
    fn from(_error: AllocFailed<T>) -> Self {
        FindError::Memory
    }
}

// The error of the file at a path.
pub(crate) fn error_in(alloc: Global, path: &str, error: SearchError) -> FindError {
    match String::from_str(alloc, path) {
        Ok(path) => FindError::InFile { path, error },
        Err(_) => FindError::Memory,
    }
}

// That the first need of the file at a path has this version number.
pub(crate) fn need_record(alloc: Global, path: &str, number: u16) -> FindError {
    match String::from_str(alloc, path) {
        Ok(path) => FindError::NeedRecord { path, number },
        Err(_) => FindError::Memory,
    }
}

// That the file at a path can't be read.
pub(crate) fn unread(alloc: Global, path: &str) -> FindError {
    match String::from_str(alloc, path) {
        Ok(path) => FindError::Unread { path },
        Err(_) => FindError::Memory,
    }
}

/// Says why the libraries of a program aren't found, after the name of the program that runs, and returns
/// the status 1.
pub fn say_error<W: Write>(program: &str, error: &FindError, err: &mut W) -> u8
    ensures { result ≡ 1 }
{
    match error {
        FindError::Unread { path } => say_of(program, "cannot read ", path, "", err),
        FindError::InFile { path, error } => say_of(program, "", path, error.message(), err),
        FindError::NeedRecord { path, number } => say_need(program, path, *number, err),
        FindError::Memory => say(program, &"not enough memory", err),
    }
}

// Says which version number the first need of a file has, in the words of `ld.so`.
fn say_need<W: Write>(program: &str, path: &str, number: u16, err: &mut W) -> u8
    ensures { result ≡ 1 }
{
    let _ = write_need(program, path, number, err);
    1
}

fn write_need<W: Write>(program: &str, path: &str, number: u16, err: &mut W) -> io::Result<()> {
    write!(err, "{program}: ")?;
    write_name(path.as_bytes(), err)?;
    writeln!(err, ": unsupported version {number} of Verneed record")
}

// Writes a line about a path.
fn say_of<W: Write>(program: &str, before: &str, path: &str, after: &str, err: &mut W) -> u8
    ensures { result ≡ 1 }
{
    let _ = write_about_path(program, before, path, after, err);
    1
}

fn write_about_path<W: Write>(
    program: &str,
    before: &str,
    path: &str,
    after: &str,
    err: &mut W,
) -> io::Result<()> {
    write!(err, "{program}: {before}")?;
    write_name(path.as_bytes(), err)?;
    if !after.is_empty() {
        write!(err, ": {after}")?;
    }
    writeln!(err)
}
