//! What relocations write to checked images: the bytes are worked out by hand from the formulas of
//! the processor supplements.

use crate::slot_callers::slot_after;
use crate::tests::images::{BUCKETS, KIND, MARKS, PAGE, SECOND, SYMBOL, file_64};
use crate::tests::relocated_files::{SIZE, SYMBOLS, WORD};
use crate::tests::relocated_images::PLACES;
use crate::tests::rows::{LIMIT, open};
use crate::tests::want::want_at;
use elf_linking::scope::Scope;
use elf_linking::{DynamicObject, LinkError};
use elf_loading::{CheckedImage, CheckedLoadScope, ImageError, LoadPlan, LoadScope, Loader};
use std::process::Abort;
use worked_files::places::{Place, set};
use xmas_elf::ElfError;
use xmas_elf::bytes::Order;
use xmas_elf::symbol_table::DynEntry64;

// A field that is changed: its offset in the file, its place after that, and its new value.
type Change = (usize, Place, u64);

// The file with some changes.
fn changed(changes: &[Change]) -> [u8; SIZE] {
    let mut file = file_64();
    for &(start, place, value) in changes {
        set(&mut file, start, place, value, Order::Little);
    }
    file
}

// The words of the second of two objects: its base; symbol 1 of the first object, twice; its base plus
// the word in place, which is 0.
const WORDS: [u8; 32] = [
    0, 0, 0, 0x50, 0, 0, 0, 0, 0, 0x15, 0, 0, 7, 0, 0, 0, 0, 0x15, 0, 0, 7, 0, 0, 0, 0, 0, 0, 0x50,
    0, 0, 0, 0,
];

#[test]
fn each_word_of_a_checked_image_is_written(rt: HostRuntime) {
    let bytes = file_64();
    let file = open(&rt, &bytes);
    let one = DynamicObject::<DynEntry64>::read(&file).expect(&rt, "an object");
    let two = DynamicObject::<DynEntry64>::read(&file).expect(&rt, "an object");
    let (objects, others): (_, [&[u8]; 2]) = ([one, two], [&[], &[]]);
    let plans = [LoadPlan::check_load(&file, PAGE, LIMIT).expect(&rt, "a plan"); 2];
    let loads = LoadScope::new(Scope::new(&objects), &plans);
    let scope = CheckedLoadScope::of(loads).expect(&rt, "a checked scope");
    let image = CheckedImage::of(&scope, 1, &mut [0; MARKS]).expect(&rt, "a checked image");
    want_at(&rt, "the index", image.index(), 1);
    let mut memory = [0x55; SIZE];
    let filled = image.fill(Loader::Glibc, &mut memory);
    want_at(&rt, "the bytes of the plan", filled, Ok(()));
    want_at(&rt, "these bytes", memory == bytes, true);
    let found = image.relocate(PLACES, &others, &mut memory);
    want_at(&rt, "the words without a number", found, Ok(0));
    let before = memory.get(..WORD) == bytes.get(..WORD);
    want_at(&rt, "before the words", before, true);
    let words = memory.get(WORD..WORD + 32) == Some(&WORDS[..]);
    want_at(&rt, "the words", words, true);
    let after = memory.get(WORD + 32..) == bytes.get(WORD + 32..);
    want_at(&rt, "after the words", after, true);
}

// Addresses, and the words of the second of two objects there: symbol 1 of the first object, by
// R_X86_64_64 with addend 0 and by R_X86_64_JUMP_SLOT; an address before the image, and one with seven
// bytes after it.
const SLOTS: [(u64, Option<u64>); 4] = [
    (0x1608, Some(0x7_0000_1500)),
    (0x1610, Some(0x7_0000_1500)),
    (0xfff, None),
    (0x1679, None),
];

#[test]
fn a_slot_has_the_address_of_its_symbol(rt: HostRuntime) {
    let bytes = file_64();
    let file = open(&rt, &bytes);
    let one = DynamicObject::<DynEntry64>::read(&file).expect(&rt, "an object");
    let two = DynamicObject::<DynEntry64>::read(&file).expect(&rt, "an object");
    let (objects, others): (_, [&[u8]; 2]) = ([one, two], [&[], &[]]);
    let plans = [LoadPlan::check_load(&file, PAGE, LIMIT).expect(&rt, "a plan"); 2];
    let loads = LoadScope::new(Scope::new(&objects), &plans);
    let scope = CheckedLoadScope::of(loads).expect(&rt, "a checked scope");
    let image = CheckedImage::of(&scope, 1, &mut [0; MARKS]).expect(&rt, "a checked image");
    for &(slot, wanted) in &SLOTS {
        let mut memory = [0; SIZE];
        let found = slot_after(&image, PLACES, &others, slot, &mut memory);
        want_at(&rt, slot, found, Ok(wanted));
    }
}

// Changes of the file, the index of the object, the number of places, the size of its image, and the
// result: a copy of a symbol of the second object, which has no image; a symbol that no object has;
// an address that an indirect function returns.
const RESULTS: &[(&[Change], usize, usize, usize, Result<u64, ImageError>)] = &[
    (&[], 1, 2, SIZE, Ok(0)),
    (&[], 1, 2, SIZE - 1, Err(ImageError::Size)),
    (&[], 1, 1, SIZE, Err(ImageError::Size)),
    (
        &[(SECOND, KIND, 5)],
        0,
        2,
        SIZE,
        Err(ImageError::CopySource),
    ),
    (&[(SECOND, SYMBOL, 2)], 1, 2, SIZE, Ok(0)),
    (
        &[(SECOND, SYMBOL, 2), (SYMBOLS, Place(52, 1), 0x10)],
        1,
        2,
        SIZE,
        Err(ImageError::Unresolved),
    ),
    (&[(SECOND, SYMBOL, 5)], 1, 2, SIZE, Ok(1)),
];

#[test]
fn a_checked_image_has_three_errors(rt: HostRuntime) {
    for &(changes, index, places, size, wanted) in RESULTS {
        let bytes = changed(changes);
        let file = open(&rt, &bytes);
        let one = DynamicObject::<DynEntry64>::read(&file).expect(&rt, "an object");
        let two = DynamicObject::<DynEntry64>::read(&file).expect(&rt, "an object");
        let (objects, others): (_, [&[u8]; 2]) = ([one, two], [&[], &[]]);
        let plans = [LoadPlan::check_load(&file, PAGE, LIMIT).expect(&rt, "a plan"); 2];
        let loads = LoadScope::new(Scope::new(&objects), &plans);
        let scope = CheckedLoadScope::of(loads).expect(&rt, "a checked scope");
        let image = CheckedImage::of(&scope, index, &mut [0; MARKS]).expect(&rt, "a checked image");
        let mut memory = changed(changes);
        let found = image.relocate(
            &PLACES[..places.min(2)],
            &others,
            &mut memory[..size.min(SIZE)],
        );
        want_at(&rt, (size, places), found, wanted);
    }
}

#[test]
fn a_damaged_hash_table_is_an_error_of_the_scope(rt: HostRuntime) {
    let (good, bad) = (file_64(), changed(&[(BUCKETS, Place(8, 4), 0)]));
    let (own, other) = (open(&rt, &good), open(&rt, &bad));
    let one = DynamicObject::<DynEntry64>::read(&own).expect(&rt, "an object");
    let two = DynamicObject::<DynEntry64>::read(&other).expect(&rt, "an object");
    let objects = [one, two];
    let plans = [LoadPlan::check_load(&own, PAGE, LIMIT).expect(&rt, "a plan"); 2];
    let loads = LoadScope::new(Scope::new(&objects), &plans);
    let found = CheckedLoadScope::of(loads).map(|_| ());
    want_at(
        &rt,
        "the second object",
        found,
        Err(LinkError::Elf(ElfError::HashMissing)),
    );
}
