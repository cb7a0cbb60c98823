//! Which relocation has an error: the packed one is at index 0, those with addends are at 1 and 2, and
//! the slot is at 3.

use crate::tests::images::{
    ADDRESS, BUCKETS, Change, FIRST, KIND, LOAD, MARKS, NARROW, PAGE, RELA_EACH, SECOND, SLOT,
    SYMBOL, WIDE, file_64,
};
use crate::tests::relocated_files::{SIZE, SYMBOLS};
use crate::tests::relocated_images::PLACES;
use crate::tests::rows::{LIMIT, open};
use crate::tests::want::want_at;
use elf_linking::scope::Scope;
use elf_linking::{DynamicObject, LinkError};
use elf_loading::{Binding, LoadError, LoadPlan, LoadScope, WordError};
use std::process::Abort;
use worked_files::places::{Place, program_64, set};
use xmas_elf::bytes::Order;
use xmas_elf::symbol_table::DynEntry64;

// Changes of a file, the error, and the relocation with it.
type Row = (&'static [Change], LoadError, Option<u64>);

const NOT_IN_MEMORY: LoadError = LoadError::Link(LinkError::Address);

const BINDING: Place = Place(52, 1);

const CHECKED: &[Row] = &[
    // the addend of a packed one is the word in place
    (&[(ADDRESS, WIDE, 0x167a)], NOT_IN_MEMORY, Some(0)),
    (&[(FIRST, WIDE, 0x1679)], LoadError::WordAddress, Some(1)),
    (&[(SECOND, WIDE, 0x1679)], LoadError::WordAddress, Some(2)),
    (&[(SLOT, WIDE, 0x1679)], LoadError::WordAddress, Some(3)),
    (&[(FIRST, WIDE, 0x1618)], LoadError::WordsOverlap, Some(1)),
    (&[(SECOND, WIDE, 0x1600)], LoadError::WordsOverlap, Some(2)),
    (&[(SLOT, WIDE, 0x1607)], LoadError::WordsOverlap, Some(3)),
    (&[(FIRST, WIDE, 0x1287)], LoadError::WordInTable, Some(1)),
    (&[(SLOT, WIDE, 0x1287)], LoadError::WordInTable, Some(3)),
    (
        &[(LOAD, program_64::FLAGS, 4)],
        LoadError::ReadOnly,
        Some(0),
    ),
    (&[(FIRST, KIND, 9)], LoadError::WordType, Some(1)),
    (&[(SECOND, KIND, 9)], LoadError::WordType, Some(2)),
    // of two relocations with errors the first
    (
        &[(FIRST, KIND, 9), (SLOT, WIDE, 0x1679)],
        LoadError::WordType,
        Some(1),
    ),
    (
        &[(SECOND, WIDE, 0x1679), (SLOT, WIDE, 0x1600)],
        LoadError::WordAddress,
        Some(2),
    ),
    // of no relocation
    (&[(RELA_EACH, WIDE, 16)], LoadError::RelocationSize, None),
    (&[(BUCKETS, NARROW, 0x121)], LoadError::Unreadable, None),
    (
        &[(SLOT, KIND, 1), (FIRST, KIND, 9)],
        LoadError::SlotType,
        None,
    ),
];

// The file with changes.
fn changed(changes: &[Change]) -> [u8; SIZE] {
    let mut bytes = file_64();
    for &(start, place, value) in changes {
        set(&mut bytes, start, place, value, Order::Little);
    }
    bytes
}

// The error of a relocation, or of none.
fn error_of(error: LoadError, relocation: Option<u64>) -> WordError {
    WordError { error, relocation }
}

// The result of the check of an object of a scope of two objects of one file.
fn checked(rt: &impl Abort, bytes: &[u8], of: usize, marks: &mut [u8]) -> Result<(), WordError> {
    let file = open(rt, bytes);
    let one = DynamicObject::<DynEntry64>::read(&file).expect(rt, "an object");
    let plan = LoadPlan::check_load(&file, PAGE, LIMIT).expect(rt, "a plan");
    LoadScope::new(Scope::new(&[one, one]), &[plan, plan]).check_words(of, marks)
}

#[test]
fn the_check_tells_the_relocation(rt: HostRuntime) {
    for (row, &(changes, error, relocation)) in CHECKED.iter().enumerate() {
        let found = checked(&rt, &changed(changes), 0, &mut [0; MARKS]);
        want_at(&rt, row, found, Err(error_of(error, relocation)));
    }
    let found = checked(&rt, &file_64(), 0, &mut [0; MARKS]);
    want_at(&rt, "no error", found, Ok(()));
    let found = checked(&rt, &file_64(), 0, &mut [0; MARKS - 1]);
    let few = error_of(LoadError::FewMarks, None);
    want_at(&rt, "few marks", found, Err(few));
    let found = checked(&rt, &file_64(), 2, &mut [0; MARKS]);
    let lacking = error_of(LoadError::Link(LinkError::ObjectIndex), None);
    want_at(&rt, "no object", found, Err(lacking));
}

const WRITTEN: &[Row] = &[
    (&[(ADDRESS, WIDE, 0x167a)], NOT_IN_MEMORY, Some(0)),
    (&[(SLOT, WIDE, 0x1679)], LoadError::WordAddress, Some(3)),
    (&[(SECOND, KIND, 9)], LoadError::WordType, Some(2)),
    // a strong symbol that no object has
    (
        &[(SYMBOLS, BINDING, 0x10), (SLOT, SYMBOL, 2)],
        LoadError::Unresolved,
        Some(3),
    ),
    (
        &[
            (SYMBOLS, BINDING, 0x10),
            (SECOND, SYMBOL, 2),
            (SLOT, SYMBOL, 2),
        ],
        LoadError::Unresolved,
        Some(2),
    ),
    // a copy of bytes of an image without any
    (&[(SECOND, KIND, 5)], LoadError::CopySource, Some(2)),
];

// The result of the relocation of the first of two objects of one file, whose image has this size.
fn written(rt: &impl Abort, bytes: &[u8; SIZE], size: usize) -> Result<u64, WordError> {
    let file = open(rt, bytes);
    let one = DynamicObject::<DynEntry64>::read(&file).expect(rt, "an object");
    let plan = LoadPlan::check_load(&file, PAGE, LIMIT).expect(rt, "a plan");
    let mut image = *bytes;
    let others: [&[u8]; 2] = [&[], &[]];
    let part = &mut image[..size.min(SIZE)];
    LoadScope::new(Scope::new(&[one, one]), &[plan, plan]).write_words(
        0,
        Binding::Now,
        PLACES,
        &others,
        part,
    )
}

#[test]
fn the_relocation_tells_which(rt: HostRuntime) {
    for (row, &(changes, error, relocation)) in WRITTEN.iter().enumerate() {
        let found = written(&rt, &changed(changes), SIZE);
        want_at(&rt, row, found, Err(error_of(error, relocation)));
    }
    want_at(&rt, "no error", written(&rt, &file_64(), SIZE), Ok(0));
    let found = written(&rt, &file_64(), SIZE - 1);
    let size = error_of(LoadError::ImageSize, None);
    want_at(&rt, "a byte less", found, Err(size));
}
