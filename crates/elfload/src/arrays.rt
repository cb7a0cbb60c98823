//! The arrays of addresses in a file, by the words that are there after relocation.

ghost use Rattle.std.specs.Prelude.{◌≡◌, ◌<◌, Err, IfSome, IsOk, MatchResult, Ok, length, ⊤};
ghost use Rattle.elf_loading.specs.Words.{address_size};
ghost use Rattle.elf_loading.specs.declared.words.Binding.TheVariants.{Now};
ghost use Rattle.elfload.specs.Starts.{AreInPlace, AreRelocated, AreSet, AreValues, IsArrayError, IsSlotError};
ghost use Rattle.elfload.specs.Starts.{object_slots, slot_address, slot_at, slots_of, with_word};
ghost use Rattle.elfload.specs.Words.{IsTextError, IsWordError};
ghost use Rattle.program_ends.specs.Stops.{IsStop};

use crate::words::is_unchanged;
use elf_linking::DynamicObject;
use elf_linking::scope::Scope;
use elf_linking::view::{LinkedSymbol, word_at};
use elf_loading::{Binding, LoadError, Origin, Relocated, Value, Word, Words};
use linking_programs::{Failed, failure};
use program_ends::Stop;
use std::alloc::Global;
use xmas_elf::ElfFile;

/// An array of addresses: where it begins, how many they are, and the width of each.
#[derive(Clone, Copy)]
pub(crate) struct Slots {
    start: u64,
    count: usize,
    width: u64,
}

/// The array of an object by two entries of its dynamic segment: that with its address, and that with
/// its size in bytes.
pub(crate) fn object_slots<E: LinkedSymbol>(
    object: &DynamicObject<'_, E>,
    array: u64,
    size: u64,
) -> Slots
    ensures value { result ≡ object_slots object.now array size }
    ensures wide { 0 < result.width }
{
    let view = object.view();
    slots_of(
        word_width(&object.file()),
        view.entry(array),
        view.entry(size),
    )
}

// The number of bytes of an address of a file.
fn word_width(file: &ElfFile<'_>) -> u64
    ensures value { result ≡ address_size file.now }
    ensures wide { 0 < result }
{
    if file.header.pt1.class.raw() == 1 {
        4
    } else {
        8
    }
}

// An array by its address and its size in bytes, if it has both.
fn slots_of(width: u64, start: Option<u64>, size: Option<u64>) -> Slots
    requires { 0 < width }
    ensures value { result ≡ slots_of width start size }
    ensures wide { result.width ≡ width }
{
    match start {
        Some(start) => match size {
            Some(size) => Slots {
                start,
                count: (size / width) as usize,
                width,
            },
            None => no_slots(width),
        },
        None => no_slots(width),
    }
}

fn no_slots(width: u64) -> Slots
    ensures { result ≡ record { start = 0; count = 0; width = width } }
{
    Slots {
        start: 0,
        count: 0,
        width,
    }
}

/// The values of an array of the object at an index, after relocation.
pub(crate) fn read_values<'s, E: LinkedSymbol>(
    alloc: Global,
    path: &'s str,
    objects: &[DynamicObject<'_, E>],
    object: &DynamicObject<'_, E>,
    of: usize,
    slots: &Slots,
) -> Result<Vec<Value>, Stop<Failed<'s, LoadError>>>
    requires { 0 < slots.now.width }
    ensures { MatchResult result
        (λ values. AreValues E.fields objects.now of object.now slots.now values.items)
        (IsStop (λ failed. (failed.path ≡ path.entry)
        × IsArrayError E.fields objects.now of object.now slots.now failed.error) ⊥ ⊤) }
{
    match words_in_place(alloc, path, &object.file(), slots) {
        Ok(values) => relocated(path, objects, of, slots, values),
        Err(stop) => Err(stop),
    }
}

// The values of an array of the object at an index after its relocations.
fn relocated<'s, E: LinkedSymbol>(
    path: &'s str,
    objects: &[DynamicObject<'_, E>],
    of: usize,
    slots: &Slots,
    values: Vec<Value>,
) -> Result<Vec<Value>, Stop<Failed<'s, LoadError>>>
    requires wide { 0 < slots.now.width }
    requires all { length values.items ≡ slots.now.count }
    ensures { MatchResult result (λ after. AreRelocated E.fields objects.now of slots.now
        values.items after.items)
        (IsStop (λ failed. (failed.path ≡ path.entry)
        × IsTextError E.fields Now objects.now of failed.error) ⊥ ⊥) }
{
    match Words::new(Scope::new(objects), of, Binding::Now) {
        Ok(words) => set_words(path, words, slots, values),
        Err(error) => Err(failure(path, LoadError::Link(error))),
    }
}

// The words of an array before relocation.
fn words_in_place<'s>(
    alloc: Global,
    path: &'s str,
    file: &ElfFile<'_>,
    slots: &Slots,
) -> Result<Vec<Value>, Stop<Failed<'s, LoadError>>>
    ensures { MatchResult result (λ values. AreInPlace file.now slots.now values.items
        × (length values.items ≡ slots.now.count))
        (IsStop (λ failed. (failed.path ≡ path.entry)
        × IsSlotError file.now slots.now failed.error) ⊥ ⊤) }
{
    let mut values = Vec::new(alloc);
    for index in 0..slots.count {
        match word_at(file, slot_address(slots, index)) {
            Ok(offset) => {
                let origin = Origin::Zero;
                if values.push(Value::Sum { origin, offset }).is_err() {
                    return Err(Stop::Memory);
                }
            }
            Err(error) => return Err(failure(path, LoadError::Link(error))),
        }
    }
    Ok(values)
}

// The address of the word of an array at an index.
fn slot_address(slots: &Slots, index: usize) -> u64
    ensures { result ≡ slot_address slots.now index }
{
    slots
        .start
        .wrapping_add(slots.width.wrapping_mul(index as u64))
}

// The values of an array after the words that are left.
fn set_words<'s, E: LinkedSymbol>(
    path: &'s str,
    words: Words<'_, '_, E>,
    slots: &Slots,
    before: Vec<Value>,
) -> Result<Vec<Value>, Stop<Failed<'s, LoadError>>>
    requires wide { 0 < slots.now.width }
    requires all { length before.items ≡ slots.now.count }
    ensures { MatchResult result
        (λ after. AreSet E.fields slots.now words.entry before.items after.items)
        (IsStop (λ failed. (failed.path ≡ path.entry)
        × IsWordError E.fields words.entry failed.error) ⊥ ⊥) }
{
    let mut values = before;
    for item in words {
        match set_word(path, &item, slots, values) {
            Ok(after) => values = after,
            Err(stop) => return Err(stop),
        }
    }
    Ok(values)
}

// The values of an array after the word of a relocation.
fn set_word<'s, E: LinkedSymbol>(
    path: &'s str,
    item: &Relocated<E>,
    slots: &Slots,
    values: Vec<Value>,
) -> Result<Vec<Value>, Stop<Failed<'s, LoadError>>>
    requires wide { 0 < slots.now.width }
    requires all { length values.items ≡ slots.now.count }
    ensures { MatchResult result (λ after. IsOk item.now.word
        × (length after.items ≡ length values.items)
        × (after.items ≡ with_word slots.now values.items item.now.word))
        (IsStop (λ failed. (failed.path ≡ path.entry) × (item.now.word ≡ Err failed.error)) ⊥ ⊥) }
{
    match item.word {
        Ok(word) => Ok(with_word(slots, values, &word)),
        Err(error) => Err(failure(path, error)),
    }
}

// The values of an array after a word.
#[tactic(auto, using(crate::proofs::StartValues::word_unchanged, crate::proofs::StartValues::word_elsewhere, crate::proofs::StartValues::word_set))]
fn with_word(slots: &Slots, values: Vec<Value>, word: &Word) -> Vec<Value>
    requires wide { 0 < slots.now.width }
    requires all { length values.items ≡ slots.now.count }
    ensures all { length result.items ≡ length values.items }
    ensures value { result.items ≡ with_word slots.now values.items (Ok word.now) }
{
    if is_unchanged(&word.value) {
        return values;
    }
    let mut values = values;
    match slot_at(slots, word.address) {
        Some(index) => {
            values[index] = word.value;
            values
        }
        None => values,
    }
}

// The index of the word of an array at an address.
fn slot_at(slots: &Slots, address: u64) -> Option<usize>
    requires { 0 < slots.now.width }
    ensures value { result ≡ slot_at slots.now address }
    ensures inside { IfSome result (λ index. index < slots.now.count) }
{
    let distance = address.wrapping_sub(slots.start);
    let index = (distance / slots.width) as usize;
    if distance % slots.width == 0 && index < slots.count {
        Some(index)
    } else {
        None
    }
}
