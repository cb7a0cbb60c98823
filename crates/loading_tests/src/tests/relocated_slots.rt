//! What jump slots are until they are called, as the dynamic linker of glibc 2.36 leaves them in files
//! with these words: that of x86-64, that of 386, and that of AArch64 in qemu 7.2.

use crate::tests::relocated_files::{SIZE, SYMBOLS, TABLE, WORD, base_file, put_rela};
use crate::tests::relocated_images::{OLD, relocate_second, set_memory};
use crate::tests::want::want_at;
use elf_linking::LinkError;
use elf_loading::{Binding, LoadError};
use std::process::Abort;
use worked_files::places::{Place, put, set};
use xmas_elf::bytes::Order;
use xmas_elf::symbol_table::{DynEntry32, DynEntry64};

const LITTLE: Order = Order::Little;

const MINUS_16: u64 = u64::MAX - 15;

// The base of the second object.
const BASE: u64 = 0x5000_0000;

const ADDRESS: LoadError = LoadError::Link(LinkError::Address);

// A file for a machine with these dynamic entries and one relocation of the procedure linkage table, a
// jump slot of a symbol at 0x1600, in which the address 0x1036 is. The records have addends or not.
fn slot_file(machine: u64, addends: bool, symbol: u64, entries: [(u64, u64); 2]) -> [u8; SIZE] {
    let (class, kind, size) = match (machine, addends) {
        (3, false) => (1, 17, 8),
        (3, true) => (1, 7, 12),
        _ => (2, 7, 24),
    };
    let [one, other] = entries;
    let all = [(23, 0x1240), (2, size), (20, kind), one, other];
    let mut file = base_file(class, machine, &all);
    set_memory(&mut file, class, LITTLE);
    put(&mut file, WORD, &OLD);
    let width = if machine == 3 { 4 } else { 8 };
    set(&mut file, WORD, Place(0, width), 0x1036, LITTLE);
    if machine == 3 {
        set(&mut file, TABLE, Place(0, 4), 0x1600, LITTLE);
        set(&mut file, TABLE, Place(4, 4), (symbol << 8) | 7, LITTLE);
    } else {
        let kind = if machine == 62 { 7 } else { 1026 };
        put_rela(&mut file, TABLE, (0x1600, kind, symbol, 0));
    }
    file
}

// What relocation leaves of the slot, and its result.
fn relocated(
    rt: &impl Abort,
    machine: u64,
    file: &[u8; SIZE],
    when: Binding,
) -> (Result<u64, LoadError>, [u8; 16]) {
    if machine == 3 {
        relocate_second::<DynEntry32>(rt, file, when)
    } else {
        relocate_second::<DynEntry64>(rt, file, when)
    }
}

// The machine, DT_PLTGOT, the second word there, and the word of the slot less the base, or the error.
type Prelinked = (u64, u64, u64, Result<u64, LoadError>);

const PRELINKED: &[Prelinked] = &[
    (62, 0x15e8, 0, Ok(0x1036)),
    (62, 0x15e8, 0x5000, Ok(0x5000)),
    (62, 0x15e8, MINUS_16, Ok(MINUS_16)),
    (62, 0x15e0, 0x5000, Ok(0x5010)),
    (62, 0x1600, 0x5000, Ok(0x4fd0)),
    (62, 0x9000, 0, Err(ADDRESS)),
    (62, u64::MAX, 0, Err(ADDRESS)),
    (3, 0x15f4, 0, Ok(0x1036)),
    (3, 0x15f4, 0x5000, Ok(0x5000)),
    (3, 0x15f4, MINUS_16, Ok(MINUS_16)),
    (3, 0x15f0, 0x5000, Ok(0x5010)),
    (3, 0x1600, 0x5000, Ok(0x4fd0)),
    (183, 0x15e8, 0, Ok(0x1036)),
    (183, 0x15e8, 0x5000, Ok(0x5000)),
    (183, 0x15e0, 0x5000, Ok(0x5000)),
];

// The bytes of the slot in a file, with a number in it if there is one.
fn with_number(rt: &impl Abort, file: &[u8; SIZE], width: usize, number: Option<u64>) -> [u8; 16] {
    let mut bytes = [0; 16];
    put(
        &mut bytes,
        0,
        file.get(WORD..WORD + 16).expect(rt, "a word"),
    );
    if let Some(number) = number {
        set(&mut bytes, 0, Place(0, width), number, LITTLE);
    }
    bytes
}

#[test]
fn slots_of_prelinked_files_hold_their_entry(rt: HostRuntime) {
    for &(machine, table, first, number) in PRELINKED {
        let mut file = slot_file(machine, machine != 3, 1, [(3, table), (0, 0)]);
        let width = if machine == 3 { 4 } else { 8 };
        let second = (table.wrapping_sub(0x1000) as usize).wrapping_add(width);
        set(&mut file, second, Place(0, width), first, LITTLE);
        let found = relocated(&rt, machine, &file, Binding::Lazy);
        let wanted = match number {
            Ok(number) => (
                Ok(0),
                with_number(&rt, &file, width, Some(number.wrapping_add(BASE))),
            ),
            Err(error) => (Err(error), with_number(&rt, &file, width, None)),
        };
        want_at(&rt, (machine, table, first), found, wanted);
    }
}

// The machine, whether records have addends, the tag of an entry, st_other of the symbol, and whether the
// slot gets its symbol before the program runs.
const AT_ONCE: &[(u64, bool, u64, u64, bool)] = &[
    (3, false, 0, 0, false),
    (3, true, 0, 0, true),
    (62, true, 0, 0, false),
    (62, true, 0x7000_0005, 0x80, false),
    (183, true, 0, 0, false),
    (183, true, 0x7000_0005, 0, false),
    (183, true, 0x7000_0005, 0x7c, false),
    (183, true, 0, 0x80, false),
    (183, true, 0x7000_0005, 0x80, true),
    (183, true, 0x7000_0005, 0xc0, true),
];

#[test]
fn some_slots_are_bound_at_once(rt: HostRuntime) {
    for &(machine, addends, entry, other, at_once) in AT_ONCE {
        let mut file = slot_file(machine, addends, 1, [(entry, 0), (0, 0)]);
        let (size, place) = if machine == 3 { (16, 13) } else { (24, 5) };
        set(&mut file, SYMBOLS, Place(size + place, 1), other, LITTLE);
        let width = if machine == 3 { 4 } else { 8 };
        let (later, bound) = (BASE + 0x1036, 0x7_0000_1500);
        let found = relocated(&rt, machine, &file, Binding::Lazy);
        let wanted = if at_once { bound } else { later };
        let bytes = with_number(&rt, &file, width, Some(wanted));
        want_at(&rt, (machine, entry, other), found, (Ok(0), bytes));
    }
}

#[test]
fn a_slot_that_is_bound_at_once_wants_its_symbol(rt: HostRuntime) {
    for (entry, result, number) in [
        (0, Ok(0), Some(BASE + 0x1036)),
        (0x7000_0005, Err(LoadError::Unresolved), None),
    ] {
        let mut file = slot_file(183, true, 2, [(entry, 0), (0, 0)]);
        set(&mut file, SYMBOLS, Place(52, 1), 0x10, LITTLE);
        set(&mut file, SYMBOLS, Place(53, 1), 0x80, LITTLE);
        let found = relocated(&rt, 183, &file, Binding::Lazy);
        let bytes = with_number(&rt, &file, 8, number);
        want_at(&rt, entry, found, (result, bytes));
    }
}
