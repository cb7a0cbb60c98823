//! The order in which relocations are applied.

use crate::tests::relocated_files::{SIZE, TABLE, base_file, put_rela};
use crate::tests::rows::open;
use crate::tests::want::want_at;
use elf_linking::references::Reference;
use elf_linking::view::DynamicView;
use elf_loading::{InOrder, Relocation};
use std::process::Abort;
use worked_files::places::{Place, set};
use xmas_elf::bytes::Order;

// Three records of DT_RELA, the first of this type, the last that of DT_JMPREL, and two packed
// relocations.
fn file_with_slot(first: u64) -> [u8; SIZE] {
    let entries = [
        (7, 0x1240),
        (8, 72),
        (23, 0x1270),
        (2, 24),
        (20, 7),
        (36, 0x12a0),
        (35, 16),
    ];
    let mut file = base_file(2, 62, &entries);
    for (k, row) in [(0x1620, first, 0, 4), (0x1628, 6, 1, 0), (0x1630, 7, 1, 0)]
        .iter()
        .enumerate()
    {
        put_rela(&mut file, TABLE.wrapping_add(k.wrapping_mul(24)), *row);
    }
    set(&mut file, TABLE, Place(0x60, 8), 0x1600, Order::Little);
    set(&mut file, TABLE, Place(0x68, 8), 3, Order::Little);
    file
}

// A relocation, and whether it is packed and of the procedure linkage table.
type Row = (u64, u32, u32, u64, bool, bool);

const ROWS: &[Row] = &[
    (0x1600, 8, 0, 0, true, false),
    (0x1608, 8, 0, 0, true, false),
    (0x1620, 8, 0, 4, false, false),
    (0x1628, 6, 1, 0, false, false),
    (0x1630, 7, 1, 0, false, true),
];

// Wants the rows of a file, where the first record of DT_RELA is of this type.
fn check_order(rt: &impl Abort, first: u32) {
    let bytes = file_with_slot(u64::from(first));
    let file = open(rt, &bytes);
    let view = DynamicView::read(&file).expect(rt, "a dynamic segment");
    let mut order = InOrder::read(&view, &file).expect(rt, "relocations");
    for &(offset, kind, symbol, addend, in_place, slot) in ROWS {
        let kind = if offset == 0x1620 { first } else { kind };
        let wanted = Relocation {
            reference: Reference {
                offset,
                kind,
                symbol,
                addend,
            },
            in_place,
            slot,
        };
        want_at(rt, offset, order.next(), Some(wanted));
    }
    want_at(rt, 0u64, order.next(), None);
}

// IRELATIVE (37) comes where it is in the table. glibc 2.36 applies it after the others of the table
// (oracle/corners.toml).
#[test]
fn slots_at_the_end_of_a_table_come_once(rt: HostRuntime) {
    check_order(&rt, 8);
    check_order(&rt, 37);
}
