//! Whether the version numbers of symbols are known, and each reference gets a symbol, unless it is weak.

ghost use Rattle.std.specs.Prelude.{◌≡◌, ◌≤◌, [], IsTrue, length, map};
ghost use Rattle.elf_linking.specs.CheckedBindings.{all_unresolved};
ghost use Rattle.elf_linking.specs.Exports.{object_parts};
ghost use Rattle.elfload.specs.Symbols.{AreInputsBound, AreSymbolsFound};
ghost use Rattle.linking_programs.specs.Numbers.{AreInputsKnown, AreNumbersKnown};

use crate::NAME;
use crate::printing::{load_stop, words_fault_of};
use elf_base::bytes::Record;
use elf_linking::DynamicObject;
use elf_linking::checked::{CheckedBinding, CheckedScope};
use elf_linking::view::LinkedSymbol;
use linking_programs::{
    Input, checked_objects, is_first_narrow, read_objects, say_past_numbers_of,
};
use program_ends::{say, write_name};
use std::alloc::Global;
use std::io;
use std::io::Write;
use xmas_elf::symbol_table::{DynEntry32, DynEntry64};

// 0 if no symbol of the files has a version number past those of all versions and, where that is wanted, each reference
// that isn't weak gets a symbol; otherwise 1, and `err` says of the first which it is, or why the files can't be read.
pub(crate) fn say_references<W: Write>(
    alloc: Global,
    wanted: bool,
    inputs: &[Input<'_>],
    err: &mut W,
) -> u8
    ensures bound { result ≤ 1 }
    ensures known { result ≡ 0
        → AreNumbersKnown ⟦<DynEntry32 as Record>⟧ ⟦<DynEntry64 as Record>⟧ inputs.now }
    ensures found { result ≡ 0 → IsTrue wanted
        → AreSymbolsFound ⟦<DynEntry32 as Record>⟧ ⟦<DynEntry64 as Record>⟧ inputs.now }
{
    if is_first_narrow(inputs) {
        say_of_class::<DynEntry32, _>(alloc, wanted, inputs, err)
    } else {
        say_of_class::<DynEntry64, _>(alloc, wanted, inputs, err)
    }
}

// The same for files of a class.
fn say_of_class<E: LinkedSymbol, W: Write>(
    alloc: Global,
    wanted: bool,
    inputs: &[Input<'_>],
    err: &mut W,
) -> u8
    ensures bound { result ≤ 1 }
    ensures known { result ≡ 0
        → AreInputsKnown {E = E} E.Record E.fields E.CLASS E.SIZE inputs.now }
    ensures found { result ≡ 0 → IsTrue wanted
        → AreInputsBound {E = E} E.Record E.fields E.CLASS E.SIZE inputs.now }
{
    let objects = match read_objects::<E>(alloc, inputs) {
        Ok(objects) => objects,
        Err(stop) => return say(NAME, &words_fault_of(load_stop(stop)), err),
    };
    if say_past_numbers_of(NAME, inputs, &objects, &mut *err) {
        return 1;
    }
    if !wanted {
        return 0;
    }
    say_first(alloc, inputs, &objects, err)
}

// 0 if each reference that isn't weak gets a symbol; otherwise 1, and `err` says which the first is that doesn't.
fn say_first<E: LinkedSymbol, W: Write>(
    alloc: Global,
    inputs: &[Input<'_>],
    objects: &[DynamicObject<'_, E>],
    err: &mut W,
) -> u8
    requires { length objects.now ≡ length inputs.now }
    ensures bound { result ≤ 1 }
    ensures found { result ≡ 0 → all_unresolved (map (object_parts E.fields) objects.now) ≡ [] }
{
    let checked = match checked_objects(alloc, inputs, objects) {
        Ok(checked) => checked,
        Err(stop) => return say(NAME, &words_fault_of(load_stop(stop)), err),
    };
    match CheckedScope::new(&checked).unresolved().next() {
        Some(item) => say_symbol(inputs, objects, item, err),
        None => 0,
    }
}

// Says which symbol a reference doesn't get, in the words of `ld.so`.
fn say_symbol<E: LinkedSymbol, W: Write>(
    inputs: &[Input<'_>],
    objects: &[DynamicObject<'_, E>],
    item: Result<CheckedBinding<E>, usize>,
    err: &mut W,
) -> u8
    ensures { result ≡ 1 }
{
    let (from, name) = match item {
        Ok(binding) => {
            let index = binding.reference.symbol;
            (binding.from, name_at(objects, binding.from, index))
        }
        Err(from) => (from, None),
    };
    let path = match inputs.get(from) {
        Some(input) => input.path,
        None => "?",
    };
    let _ = write_symbol(path, name.unwrap_or(b"?"), err);
    1
}

// The name of the symbol at an index of the object at an index, if it can be read.
fn name_at<'a, E: LinkedSymbol>(
    objects: &[DynamicObject<'a, E>],
    from: usize,
    index: u32,
) -> Option<&'a [u8]> {
    match objects.get(from)?.name_bytes(index) {
        Ok(name) => Some(name),
        Err(_) => None,
    }
}

// Writes that a file has no definition of a symbol of this name.
fn write_symbol<W: Write>(path: &str, name: &[u8], err: &mut W) -> io::Result<()> {
    write!(err, "{NAME}: {path}: undefined symbol: ")?;
    write_name(name, err)?;
    err.write_all(b"\n")
}
