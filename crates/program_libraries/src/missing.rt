//! Which libraries of a program are missing.

ghost use Rattle.std.specs.Prelude.{◌≡◌, ◌≢◌, ◌≤◌, IsFalse};
ghost use Rattle.program_ends.specs.declared.TheConstants.{CLOSED};
ghost use Rattle.program_libraries.specs.Complete.{IsComplete, with_missing};

use crate::complete::are_names_found;
use crate::error::{FindError, say_error};
use crate::needed_versions::are_versions_met;
use crate::objects::Object;
use crate::store::StoredFile;
use crate::trees::Tree;
use crate::versions::{LackedVersion, lacked_given, lacked_versions};
use elf_search::names::NameKind;
use elf_search::versions::Lack;
use linking_programs::Input;
use program_ends::write_name;
use std::alloc::Global;
use std::io;
use std::io::Write;

/// Says what a program doesn't get, after the name of the program that runs: the names that found no
/// object, but not those of auxiliary entries; if each found one, the versions that libraries lack.
/// Whether a library is missing, or a version that isn't weak, or versions can't be read: `ld.so` doesn't
/// start such a program.
pub fn say_missing<W: Write>(
    alloc: Global,
    program: &str,
    files: &[StoredFile],
    tree: &Tree,
    err: &mut W,
) -> bool
    ensures { IsFalse result → IsComplete files.now tree.now.objects.items }
{
    if are_names_found(files, &tree.objects) {
        let lacked = say_lacked(alloc, program, files, tree, err);
        return lacked || !are_versions_met(files, &tree.objects);
    }
    for object in &tree.objects {
        let _ = write_missing(program, tree.objects.len(), object, err);
    }
    true
}

// Says which versions libraries lack, and whether one isn't weak.
fn say_lacked<W: Write>(
    alloc: Global,
    program: &str,
    files: &[StoredFile],
    tree: &Tree,
    err: &mut W,
) -> bool {
    say_all(program, lacked_versions(alloc, files, tree), err)
}

/// Says which versions files given by hand, in the order in which they are loaded, lack of each other, after the name of
/// the program that runs. Whether one isn't weak, or `ld.so` doesn't support the record of a version: it doesn't start
/// such a program. What isn't among the files is no error, and an error of a file is left to the checks of the program.
pub fn say_lacked_given<W: Write>(
    alloc: Global,
    program: &str,
    inputs: &[Input<'_>],
    err: &mut W,
) -> bool {
    say_all(program, lacked_given(alloc, inputs), err)
}

// Says which versions are missing, or why that isn't known; whether one isn't weak, or it isn't known.
fn say_all<W: Write>(
    program: &str,
    found: Result<Vec<LackedVersion<'_>>, FindError>,
    err: &mut W,
) -> bool {
    let all = match found {
        Ok(all) => all,
        Err(error) => return say_error(program, &error, err) > 0,
    };
    let mut is_missing = false;
    for lacked in &all {
        let _ = write_said(program, lacked, err);
        is_missing = is_missing || matches!(lacked.lack, Lack::Strong);
    }
    is_missing
}

// Writes that a version is missing, after the name of the program that runs.
fn write_said<W: Write>(program: &str, lacked: &LackedVersion<'_>, err: &mut W) -> io::Result<()> {
    write!(err, "{program}: ")?;
    write_lacked(lacked, err)
}

/// Writes that a version is missing, or which version number the record has at which the search for it ends, in
/// the words of `ld.so`.
pub fn write_lacked<W: Write>(lacked: &LackedVersion<'_>, out: &mut W) -> io::Result<()> {
    write_name(lacked.library.as_bytes(), out)?;
    if let Some(number) = lacked.record {
        return writeln!(out, ": unsupported version {number} of Verdef record");
    }
    match lacked.lack {
        Lack::NoInformation => write!(out, ": no version information available")?,
        Lack::Weak => write_version(": weak version `", lacked.version, out)?,
        Lack::Strong => write_version(": version `", lacked.version, out)?,
    }
    write!(out, " (required by ")?;
    write_name(lacked.by.as_bytes(), out)?;
    writeln!(out, ")")
}

// Writes that a version isn't found.
fn write_version<W: Write>(before: &str, version: &str, out: &mut W) -> io::Result<()> {
    write!(out, "{before}")?;
    write_name(version.as_bytes(), out)?;
    write!(out, "' not found")
}

/// The status of a program that says whether a library or a version is missing: 1 in place of 0 if one is.
pub fn with_missing(missing: bool, status: u8) -> u8
    ensures value { result ≡ with_missing missing status }
    ensures same { status ≢ 0 → result ≡ status }
    ensures whole { result ≡ 0 → IsFalse missing }
    ensures kept { result ≡ 0 → status ≡ 0 }
    ensures bound { (status ≢ CLOSED → status ≤ 1) → result ≢ CLOSED → result ≤ 1 }
    ensures closed { result ≡ CLOSED → status ≡ CLOSED }
{
    if missing && status == 0 { 1 } else { status }
}

// Writes a line for each name of an object that found none of so many.
fn write_missing<W: Write>(
    program: &str,
    count: usize,
    object: &Object,
    err: &mut W,
) -> io::Result<()> {
    for index in 0..object.entries.len() {
        let entry = &object.entries[index];
        if entry.kind != NameKind::Auxiliary && !is_object(count, object.edges.get(index)) {
            write!(err, "{program}: ")?;
            write_name(object.path.as_bytes(), err)?;
            write!(err, ": ")?;
            write_name(&entry.name, err)?;
            writeln!(err, " not found")?;
        }
    }
    Ok(())
}

// Whether an entry found one of so many objects.
fn is_object(count: usize, edge: Option<&u32>) -> bool {
    match edge {
        Some(edge) => (*edge as usize) < count,
        None => false,
    }
}
