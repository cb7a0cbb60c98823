//! The symbols that references get of those shared objects, with each byte of their version tables
//! changed in turn.

use crate::tests::find::Asked::By;
use crate::tests::find::{Answer, Asked, LATEST, PLAIN, V1, V2};
use crate::tests::want::{open, want_at};
use elf_linking::find::Use;
use elf_linking::view::LinkedSymbol;
use elf_linking::{DynamicObject, LinkError};
use std::process::Abort;
use worked_files::linked::versions::{NARROW, NARROW_TABLES, WIDE, WIDE_TABLES};
use worked_files::places::put;
use worked_files::rows;
use xmas_elf::symbol_table::{DynEntry32, DynEntry64};

// Where the fields lie that a reference to `ab` reads, from the start of the version tables on: the
// numbers of symbols 3 and 4; of the base its next; of V1 and V2 the flags, the number, the hash
// number, where the names lie, the next of V1, and the offset of the name. The base is no version,
// whatever number it has, and V2 is the last definition by their count.
const READ: &[(usize, usize)] = rows! {
    6, 10; 32, 36; 46, 48; 48, 50; 52, 56; 56, 60; 60, 64; 64, 68; 74, 76; 76, 78; 80, 84; 84, 88;
    92, 96;
};

fn is_read(place: usize) -> bool {
    READ.iter()
        .any(|&(start, end)| start <= place && place < end)
}

// Wants what the undamaged objects answer, by versions that can be read still.
fn check_same<E: LinkedSymbol>(rt: &impl Abort, place: usize, object: &DynamicObject<'_, E>) {
    for (asked, index) in [(V1, 4), (V2, 3), (PLAIN, 4), (LATEST, 3)] {
        want_at(rt, (place, asked), index_of(object, asked), Ok(Some(index)));
    }
}

// The index of the symbol `ab` that a reference gets.
fn index_of<E: LinkedSymbol>(object: &DynamicObject<'_, E>, asked: Asked) -> Answer {
    let found = object.find("ab", &asked.wanted(), Use::Defined);
    found.map(|found| found.map(|found| found.0))
}

// Whether a symbol has a version, or one that is open to each.
fn has_version<E: LinkedSymbol>(
    object: &DynamicObject<'_, E>,
    index: u32,
    name: &str,
    hash: u32,
) -> Result<bool, LinkError> {
    let Some(version) = object.version(index)? else {
        return Err(LinkError::Missing);
    };
    let Some(named) = version.named else {
        return Ok(!version.hidden);
    };
    if named.hash() != hash {
        return Ok(false);
    }
    Ok(named.name()? == name)
}

// Wants the first of symbols 3 and 4 with a version.
fn check_version<E: LinkedSymbol>(
    rt: &impl Abort,
    place: usize,
    object: &DynamicObject<'_, E>,
    name: &'static str,
    hash: u32,
) {
    let answer = match has_version(object, 3, name, hash) {
        Ok(true) => Ok(Some(3)),
        Ok(false) => has_version(object, 4, name, hash).map(|has_version| has_version.then_some(4)),
        Err(error) => Err(error),
    };
    want_at(rt, (place, name), index_of(object, By(name, hash)), answer);
    let readable = object.check_versions().is_ok();
    want_at(rt, (place, name), readable && answer.is_err(), false);
}

// Of symbols 3 and 4 with these numbers the first below a number, or the default.
fn by_numbers(numbers: (u16, u16), least: u16) -> Option<u32> {
    if numbers.0 % 0x8000 < least {
        return Some(3);
    }
    if numbers.1 % 0x8000 < least {
        return Some(4);
    }
    match (numbers.0 < 0x8000, numbers.1 < 0x8000) {
        (true, false) => Some(3),
        (false, true) => Some(4),
        _ => None,
    }
}

// Wants of an object with one damaged byte what its symbols and its versions say, and what the
// sound object answers if no such reference reads that byte.
fn check_damaged<E: LinkedSymbol>(
    rt: &impl Abort,
    place: usize,
    bytes: &[u8],
) -> Result<(), LinkError> {
    let file = open(rt, bytes);
    let object = DynamicObject::<E>::read(&file)?;
    if !is_read(place) {
        check_same(rt, place, &object);
    }
    check_version(rt, place, &object, "V1", 0x591);
    check_version(rt, place, &object, "V2", 0x592);
    let versions = object.versions();
    let (Some(first), Some(second)) = (versions.number(3)?, versions.number(4)?) else {
        return Err(LinkError::Missing);
    };
    let numbers = (first, second);
    let found = index_of(&object, PLAIN);
    want_at(rt, place, found, Ok(by_numbers(numbers, 3)));
    let found = index_of(&object, LATEST);
    want_at(rt, place, found, Ok(by_numbers(numbers, 2)));
    Ok(())
}

const DAMAGES: &[u8] = &[0, 1, 2, 3, 4, 16, 20, 0x7f, 0x80, 0x83, 0xff];

#[test]
fn finds_symbols_by_damaged_tables(rt: HostRuntime) -> Result<(), LinkError> {
    for place in NARROW_TABLES.0..NARROW_TABLES.1 {
        for damage in DAMAGES {
            let mut bytes = *NARROW;
            put(&mut bytes, place, &[*damage]);
            check_damaged::<DynEntry32>(&rt, place.wrapping_sub(NARROW_TABLES.0), &bytes)?;
        }
    }
    for place in WIDE_TABLES.0..WIDE_TABLES.1 {
        for damage in DAMAGES {
            let mut bytes = *WIDE;
            put(&mut bytes, place, &[*damage]);
            check_damaged::<DynEntry64>(&rt, place.wrapping_sub(WIDE_TABLES.0), &bytes)?;
        }
    }
    Ok(())
}
