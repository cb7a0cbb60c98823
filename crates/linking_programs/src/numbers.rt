//! Whether symbols have version numbers past those of all versions of their files, for which `ld.so` reads past
//! the end of its table.

ghost use Rattle.std.specs.Prelude.{◌≡◌, ℕ, IfSome, IsFalse, MatchOption, Some, length, max, slice_get};
ghost use Rattle.elf_linking.specs.DynamicObject.{object_symbols, object_versions};
ghost use Rattle.elf_linking.specs.VersionList.{numbers_in};
ghost use Rattle.elf_linking.specs.VersionTables.{definitions_in, needs_in, version_number};
ghost use Rattle.elf_linking.specs.Versions.{number_of, version_tables};
ghost use Rattle.linking_programs.specs.Numbers.{AreInputsKnown, AreKnown, AreNumbersKnown, IsKnown};
ghost use Rattle.linking_programs.specs.Numbers.{greatest_number, greatest_of, past_number, past_of};

use crate::{Input, is_first_narrow, read_objects};
use elf_base::bytes::Record;
use elf_linking::DynamicObject;
use elf_linking::versions::Versions;
use elf_linking::view::LinkedSymbol;
use program_ends::{Stop, say, write_name};
use std::alloc::Global;
use std::io;
use std::io::Write;
use xmas_elf::symbol_table::{DynEntry32, DynEntry64};

/// Says of the first file with such a symbol, after the name of the program that runs, which symbol is the first,
/// and its number. Returns true if there is one, if a file can't be read by the class of the first, of which it says
/// nothing, or if memory is short.
pub fn say_past_numbers<W: Write>(
    alloc: Global,
    program: &str,
    inputs: &[Input<'_>],
    err: &mut W,
) -> bool
    ensures { IsFalse result
        → AreNumbersKnown ⟦<DynEntry32 as Record>⟧ ⟦<DynEntry64 as Record>⟧ inputs.now }
{
    if is_first_narrow(inputs) {
        say_of_class::<DynEntry32, _>(alloc, program, inputs, err)
    } else {
        say_of_class::<DynEntry64, _>(alloc, program, inputs, err)
    }
}

// The same for files of a class.
fn say_of_class<E: LinkedSymbol, W: Write>(
    alloc: Global,
    program: &str,
    inputs: &[Input<'_>],
    err: &mut W,
) -> bool
    ensures { IsFalse result
        → AreInputsKnown {E = E} E.Record E.fields E.CLASS E.SIZE inputs.now }
{
    match read_objects::<E>(alloc, inputs) {
        Ok(objects) => say_past_numbers_of(program, inputs, &objects, err),
        Err(Stop::Memory) => say(program, &"not enough memory", err) > 0,
        Err(_) => true,
    }
}

/// The same for the objects of files.
pub fn say_past_numbers_of<E: LinkedSymbol, W: Write>(
    program: &str,
    inputs: &[Input<'_>],
    objects: &[DynamicObject<'_, E>],
    err: &mut W,
) -> bool
    requires { length objects.now ≡ length inputs.now }
    ensures { IsFalse result → (i : ℕ) → IfSome (slice_get objects.now i) (IsKnown E.fields) }
{
    for index in 0..objects.len() {
        if let Some(past) = first_past(&objects[index]) {
            let _ = write_past(program, inputs[index].path, past, err);
            return true;
        }
    }
    false
}

// Writes that the symbol at an index of a file has a number.
fn write_past<W: Write>(
    program: &str,
    path: &str,
    past: (u32, u16),
    err: &mut W,
) -> io::Result<()> {
    write!(err, "{program}: ")?;
    write_name(path.as_bytes(), err)?;
    let (index, number) = past;
    writeln!(
        err,
        ": symbol {index} has the version number {number}, past those of all versions"
    )
}

/// The first symbol of an object whose version number, without bit 15, is past those of all versions that the
/// object defines or needs, and of 1, the number of global symbols: its index, and the number. Symbols from index
/// 2^32 on aren't looked at: no relocation and no hash table names one.
pub fn first_past<E: LinkedSymbol>(object: &DynamicObject<'_, E>) -> Option<(u32, u16)>
    ensures { let tables = version_tables (object_versions object.now) in MatchOption result
        (AreKnown tables (length (object_symbols E.fields object.now).items))
        (λ past. (past_number tables past.0 ≡ Some past.1) × AreKnown tables past.0) }
{
    let versions = object.versions();
    let greatest = greatest_number(&versions);
    for place in 0..object.symbol_count() {
        let Ok(index) = u32::try_from(place) else {
            return None;
        };
        if let Some(number) = past_number(&versions, greatest, index) {
            return Some((index, number));
        }
    }
    None
}

// The number of a symbol, if it has one that is past the greatest.
fn past_number(versions: &Versions<'_>, greatest: u16, index: u32) -> Option<u16>
    ensures { result ≡ past_of greatest (number_of (numbers_in (version_tables versions.now)) index) }
{
    match versions.number(index) {
        Ok(Some(raw)) if raw % 0x8000 > greatest => Some(raw % 0x8000),
        _ => None,
    }
}

// The greatest number of a version that these tables define or need, and of 1.
fn greatest_number(versions: &Versions<'_>) -> u16
    ensures { result ≡ greatest_number (version_tables versions.now) }
{
    greatest_needed(versions, greatest_defined(versions))
}

// The greatest number of a version that these tables define, and of 1.
#[tactic(auto, using(crate::proofs::Greatest::greatest_end, crate::proofs::Greatest::greatest_item, crate::proofs::Greatest::greatest_fault))]
fn greatest_defined(versions: &Versions<'_>) -> u16
    ensures { result ≡ greatest_of (λ definition. version_number definition.number) 1
        (definitions_in (version_tables versions.now).definitions) }
{
    let mut most = 1;
    for item in versions.definitions() {
        if let Ok(definition) = item {
            most = greater(most, definition.number % 0x8000);
        }
    }
    most
}

// The greatest number of a version that these tables need, and of another number.
#[tactic(auto, using(crate::proofs::Greatest::greatest_end, crate::proofs::Greatest::greatest_item, crate::proofs::Greatest::greatest_fault))]
fn greatest_needed(versions: &Versions<'_>, least: u16) -> u16
    ensures { result ≡ greatest_of (λ need. need.number) least
        (needs_in (version_tables versions.now).needs) }
{
    let mut most = least;
    for item in versions.needs() {
        if let Ok(need) = item {
            most = greater(most, need.number);
        }
    }
    most
}

// The greater of two numbers.
fn greater(one: u16, other: u16) -> u16
    ensures { result ≡ max one other }
{
    one.max(other)
}
