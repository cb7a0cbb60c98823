//! Finds the separate debug file of a file without a symbol table, for programs that take its symbols.
#![tactic(auto)]

ghost use Rattle.std.specs.Prelude.{◌≡◌, IfOk, IfSome, OnOk};
ghost use Rattle.program_debug.specs.Debug.{Agrees, HasSymtab, IsDebugFileOf, IsDebugOf, IsWanted};

use elf_addresses::{AnyAddressSymbols, symtab_index};
use elf_debug::{DebugHow, DebugMismatch, DebugPath, DebugPathBytes, DebugWanted};
use elf_linking::LinkError;
use program_ends::{Fault, read_whole, say};
use std::alloc::{AllocError, Global};
use std::fmt::Display;
use std::fs::File;
use std::io::Write;
use std::rt::Files;
use std::{fmt, fs};
use xmas_elf::ElfFile;

/// The folder of debug files where no option names another.
pub const DEBUG_FOLDER: &str = "/usr/lib/debug";

/// Who looks for a debug file: the name of the program, which begins its messages, and the folder of
/// debug files.
#[derive(Clone, Copy, Debug)]
pub struct Seeker<'a> {
    pub name: &'a str,
    pub directory: &'a str,
}

// Why a file is not taken.
#[derive(Clone, Copy, Debug, Drop)]
enum NotTaken {
    // It is the debug file of another file.
    Mismatch(DebugMismatch),
    // It has no section of type `SHT_SYMTAB`.
    NoSymtab,
    // It is no ELF file, or its symbols can't be read.
    Unread(LinkError),
}

impl Display for NotTaken {
    fn fmt<W: fmt::Write>(&self, f: &mut fmt::Formatter<W>) -> fmt::Result {
        match self {
            NotTaken::Mismatch(mismatch) => write!(f, "not the debug file: {}", mismatch.message()),
            NotTaken::NoSymtab => write!(f, "debug file without a symbol table"),
            NotTaken::Unread(error) => write!(f, "{error}"),
        }
    }
}

/// The bytes of the debug file of the file at a path, which has these bytes, if it has no section of
/// type `SHT_SYMTAB`: those of the first candidate that is its debug file and has symbols. Of any other
/// regular file at a candidate path `err` is told why it is not taken.
///
/// By the contract the bytes pass the check. It doesn't say at which path they are, that no earlier
/// candidate passes the check, or that none does where the result is `None`.
pub fn find_debug_file<R: Files, E: Write>(
    alloc: Global,
    rt: &R,
    seeker: Seeker<'_>,
    path: &str,
    input: &[u8],
    err: &mut E,
) -> Result<Option<Vec<u8>>, AllocError>
    ensures { IfOk result (λ found. IfSome found (λ bytes. IsDebugOf input.now bytes.items)) }
{
    let Ok(file) = ElfFile::new(input) else {
        return Ok(None);
    };
    match symtab_index(&file) {
        Some(_) => Ok(None),
        None => find_for_file(alloc, rt, seeker, path, &file, err),
    }
}

// The same for a file without such a section.
fn find_for_file<R: Files, E: Write>(
    alloc: Global,
    rt: &R,
    seeker: Seeker<'_>,
    path: &str,
    file: &ElfFile<'_>,
    err: &mut E,
) -> Result<Option<Vec<u8>>, AllocError>
    ensures { IfOk result (λ found. IfSome found (λ bytes. IsDebugFileOf file.now bytes.items)) }
{
    let wanted = DebugWanted::of(file);
    let path = real_path(alloc, rt, path)?;
    for candidate in wanted.paths(path.as_bytes(), seeker.directory.as_bytes()) {
        if let Some(bytes) = attempt(alloc, rt, seeker.name, &wanted, candidate, &mut *err)? {
            return Ok(Some(bytes));
        }
    }
    Ok(None)
}

/// Whether there is a regular file at a path.
pub fn is_file<R: Files>(rt: &R, path: &str) -> bool {
    match fs::metadata(rt, path) {
        Ok(known) => known.is_file(),
        Err(_) => false,
    }
}

// A path without symbolic links that begins with a slash; the path itself if there is none.
fn real_path<R: Files>(alloc: Global, rt: &R, path: &str) -> Result<String, AllocError> {
    match rt.canonicalize(alloc, path) {
        Ok(real) => Ok(real.into_string()),
        Err(_) => String::from_str(alloc, path),
    }
}

// The bytes of the file at a candidate path if it is the debug file. Of another regular file a message
// says why it is not taken.
fn attempt<R: Files, E: Write>(
    alloc: Global,
    rt: &R,
    name: &str,
    wanted: &DebugWanted<'_>,
    candidate: DebugPath<'_>,
    err: &mut E,
) -> Result<Option<Vec<u8>>, AllocError>
    ensures { IfOk result (λ found. IfSome found (λ bytes. IsWanted wanted.now bytes.items)) }
{
    // A path that is not UTF-8 can't be opened.
    let Ok(path) = String::from_utf8(path_bytes(alloc, candidate.path)?) else {
        return Ok(None);
    };
    if !is_file(rt, path.as_str()) {
        return Ok(None);
    }
    match read_wanted(alloc, rt, wanted, candidate.how, path.as_str()) {
        Ok(bytes) => Ok(Some(bytes)),
        Err(fault) => {
            let _status = say(name, &fault, err);
            Ok(None)
        }
    }
}

fn path_bytes(alloc: Global, path: DebugPathBytes<'_>) -> Result<Vec<u8>, AllocError> {
    let mut bytes = Vec::new(alloc);
    for byte in path {
        bytes.push(byte)?;
    }
    Ok(bytes)
}

// The bytes of the file at a path if it is the debug file, or why it is not taken.
fn read_wanted<'p, R: Files>(
    alloc: Global,
    rt: &R,
    wanted: &DebugWanted<'_>,
    how: DebugHow,
    path: &'p str,
) -> Result<Vec<u8>, Fault<'p, NotTaken>>
    ensures { IfOk result (λ bytes. IsWanted wanted.now bytes.items) }
{
    let Some(bytes) = read_whole(alloc, File::open(rt, path).ok()) else {
        return Err(Fault::Read { path });
    };
    match check(wanted, how, &bytes) {
        Ok(()) => Ok(bytes),
        Err(error) => Err(Fault::Failed { path, error }),
    }
}

// Whether bytes that were found in a way are the debug file.
fn check(wanted: &DebugWanted<'_>, how: DebugHow, bytes: &[u8]) -> Result<(), NotTaken>
    ensures { OnOk result (IsWanted wanted.now bytes.now) }
{
    match ElfFile::new(bytes) {
        Ok(debug) => check_file(wanted, how, &debug),
        Err(error) => Err(NotTaken::Unread(LinkError::Elf(error))),
    }
}

// Whether a file that was found in a way is the debug file, and has a symbol table.
fn check_file(wanted: &DebugWanted<'_>, how: DebugHow, debug: &ElfFile<'_>) -> Result<(), NotTaken>
    ensures { OnOk result (Agrees wanted.now debug.now) }
{
    match wanted.check(how, debug) {
        Ok(()) => check_symbols(debug),
        Err(mismatch) => Err(NotTaken::Mismatch(mismatch)),
    }
}

// Whether a file has a symbol table that can be read.
fn check_symbols(file: &ElfFile<'_>) -> Result<(), NotTaken>
    ensures { OnOk result (HasSymtab file.now) }
{
    let Some(_index) = symtab_index(file) else {
        return Err(NotTaken::NoSymtab);
    };
    match AnyAddressSymbols::of(file) {
        Ok(_) => Ok(()),
        Err(error) => Err(NotTaken::Unread(error)),
    }
}
