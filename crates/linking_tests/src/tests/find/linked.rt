//! The symbols that references get of shared objects with two versions of one name, which a linker
//! wrote.

use crate::tests::find::Asked::By;
use crate::tests::find::{Answer, Asked, HIDDEN_V1, LATEST, PLAIN, V1, V2, V3, found_in};
use crate::tests::want::{open, want_at};
use elf_linking::find::{Use, Wanted};
use elf_linking::view::LinkedSymbol;
use elf_linking::{DynamicObject, LinkError};
use std::process::Abort;
use worked_files::linked::versions::{NARROW, WIDE};
use worked_files::rows;
use xmas_elf::symbol_table::{DynEntry32, DynEntry64};

// What a reference to a name of the shared objects gets, by `readelf -W --dyn-syms -V`: `ab@@V2` is
// symbol 3 with number 3, and `ab@V1` symbol 4 with the hidden number 2.
const LINKED: &[(&str, Asked, Option<u32>)] = rows! {
    "ab", V1, Some(4); "ab", V2, Some(3); "ab", V3, None; "ab", HIDDEN_V1, Some(4);
    "ab", PLAIN, Some(4); "ab", LATEST, Some(3); "call", V1, None; "call", V2, Some(5);
    "call", PLAIN, Some(5); "call", LATEST, Some(5); "V1", V1, Some(2); "V1", V2, None;
    "outer", By("w1", 0x7a1), None; "outer", PLAIN, None; "a", PLAIN, None;
};

// The index of the symbol that a jump slot gets.
fn linked_index(rt: &impl Abort, class: u8, bytes: &[u8], name: &str, asked: Asked) -> Answer {
    let found = found_in(rt, class, bytes, name, &asked.wanted(), Use::Defined);
    found.map(|found| found.map(|found| found.0))
}

#[test]
fn finds_versions_that_a_linker_wrote(rt: HostRuntime) {
    for (row, &(name, asked, index)) in LINKED.iter().enumerate() {
        let found = linked_index(&rt, 1, NARROW, name, asked);
        want_at(&rt, row, found, Ok(index));
        want_at(&rt, row, linked_index(&rt, 2, WIDE, name, asked), Ok(index));
    }
}

// The values of `ab@V1` and `ab@@V2` by an object whose checks passed.
fn check_values<E: LinkedSymbol>(
    rt: &impl Abort,
    bytes: &[u8],
    values: (u64, u64),
) -> Result<(), LinkError> {
    let file = open(rt, bytes);
    let object = DynamicObject::<E>::read(&file)?;
    object.check()?;
    object.check_versions()?;
    let rows = [
        ("ab", Wanted::Newest, Use::Any, Some(values.1)),
        ("outer", Wanted::Newest, Use::Any, None),
        ("ab", Wanted::version("V1"), Use::Any, Some(values.0)),
        ("ab", Wanted::version("V2"), Use::Any, Some(values.1)),
        ("ab", Wanted::version("V1"), Use::Copy, Some(values.0)),
        ("ab", Wanted::version("V2"), Use::Copy, Some(values.1)),
        ("ab", Wanted::version("w1"), Use::Any, None),
        ("call", Wanted::version("V1"), Use::Any, None),
    ];
    for (row, (name, wanted, use_, value)) in rows.iter().enumerate() {
        let found = object.find(name, wanted, *use_)?;
        want_at(rt, row, found.map(|(_, symbol)| symbol.value()), *value);
    }
    Ok(())
}

#[test]
fn finds_values_by_versions(rt: HostRuntime) -> Result<(), LinkError> {
    check_values::<DynEntry32>(&rt, NARROW, (0x240, 0x246))?;
    check_values::<DynEntry64>(&rt, WIDE, (0x2f0, 0x2f6))
}
