//! The row of each relocation type, by the tables of the processor supplements; which symbol it
//! wants, as glibc 2.36 has it.

use crate::tests::want::want_at;
use elf_linking::find::Use;
use elf_linking::references::{relative_of, row_of, use_of};
use elf_loading::{Formula, formula_of, width_of};

// The number of a type, its formula, the number of its bytes, and what it wants of its symbol, if it
// names one.
type Expected = (u32, Option<Formula>, u32, Option<Use>);

const X86_64: &[Expected] = &[
    (0, Some(Formula::Unchanged), 8, None),
    (1, Some(Formula::Symbol), 8, Some(Use::Any)),
    (2, Some(Formula::Distance), 4, Some(Use::Any)),
    (5, Some(Formula::Copy), 8, Some(Use::Copy)),
    (6, Some(Formula::SymbolAlone), 8, Some(Use::Any)),
    (7, Some(Formula::SymbolAlone), 8, Some(Use::Defined)),
    (8, Some(Formula::Base), 8, None),
    (10, Some(Formula::Symbol), 4, Some(Use::Any)),
    (16, Some(Formula::Module), 8, Some(Use::Defined)),
    (17, Some(Formula::Offset), 8, Some(Use::Defined)),
    (18, Some(Formula::Thread), 8, Some(Use::Defined)),
    (32, Some(Formula::Size), 4, Some(Use::Any)),
    (33, Some(Formula::Size), 8, Some(Use::Any)),
    (36, Some(Formula::Descriptor), 8, Some(Use::Defined)),
    (37, Some(Formula::Call), 8, Some(Use::Any)),
    (38, Some(Formula::Base), 8, None),
];

const I386: &[Expected] = &[
    (0, Some(Formula::Unchanged), 4, None),
    (1, Some(Formula::Symbol), 4, Some(Use::Any)),
    (2, Some(Formula::Distance), 4, Some(Use::Any)),
    (5, Some(Formula::Copy), 4, Some(Use::Copy)),
    (6, Some(Formula::SymbolAlone), 4, Some(Use::Any)),
    (7, Some(Formula::SymbolAlone), 4, Some(Use::Defined)),
    (8, Some(Formula::Base), 4, None),
    (14, Some(Formula::Thread), 4, Some(Use::Defined)),
    (35, Some(Formula::Module), 4, Some(Use::Defined)),
    (36, Some(Formula::OffsetAlone), 4, Some(Use::Defined)),
    (37, Some(Formula::ThreadNegated), 4, Some(Use::Defined)),
    (38, Some(Formula::Size), 4, Some(Use::Any)),
    (41, Some(Formula::Descriptor), 4, Some(Use::Defined)),
    (42, Some(Formula::Call), 4, Some(Use::Any)),
];

const AARCH64: &[Expected] = &[
    (0, Some(Formula::Unchanged), 8, None),
    (257, Some(Formula::Symbol), 8, Some(Use::Any)),
    (258, Some(Formula::Symbol), 8, Some(Use::Any)),
    (1024, Some(Formula::Copy), 8, Some(Use::Copy)),
    (1025, Some(Formula::Symbol), 8, Some(Use::Any)),
    (1026, Some(Formula::Symbol), 8, Some(Use::Defined)),
    (1027, Some(Formula::Base), 8, None),
    (1028, Some(Formula::Module), 8, Some(Use::Defined)),
    (1029, Some(Formula::Offset), 8, Some(Use::Defined)),
    (1030, Some(Formula::Thread), 8, Some(Use::Defined)),
    (1031, Some(Formula::Descriptor), 8, Some(Use::Defined)),
    (1032, Some(Formula::Call), 8, Some(Use::Any)),
];

// A machine, its types, that of the jump slots, that of the relative relocations, and the number of
// types with a formula.
const MACHINES: &[(u16, &[Expected], u32, u32, usize)] = &[
    (62, X86_64, 7, 8, 16),
    (3, I386, 7, 8, 14),
    (183, AARCH64, 1026, 1027, 12),
];

// The number of types with a formula, of those below 2000.
fn count_of(machine: u16) -> usize {
    let mut count = 0usize;
    for kind in 0..2000u32 {
        if formula_of(machine, kind).is_some() {
            count = count.wrapping_add(1);
        }
    }
    count
}

#[test]
fn each_type_has_its_formula_and_no_other_has_one(rt: HostRuntime) {
    for &(machine, rows, _, _, count) in MACHINES {
        for &(kind, formula, width, _) in rows {
            want_at(&rt, kind, formula_of(machine, kind), formula);
            want_at(&rt, kind, width_of(machine, kind), width);
        }
        want_at(&rt, machine, count_of(machine), count);
    }
    want_at(&rt, 40, formula_of(40, 2), None);
}

#[test]
fn each_type_has_its_number_and_its_symbol(rt: HostRuntime) {
    for &(machine, rows, slot, _, _) in MACHINES {
        for &(kind, _, _, symbol) in rows {
            want_at(&rt, kind, row_of(machine, kind).kind, kind);
            want_at(&rt, kind, row_of(machine, kind).names, symbol.is_some());
            want_at(&rt, kind, row_of(machine, kind).slot, kind == slot);
            want_at(&rt, kind, use_of(machine, kind), symbol.unwrap_or(Use::Any));
        }
    }
}

#[test]
fn relative_relocations_are_of_one_type(rt: HostRuntime) {
    for &(machine, _, _, relative, _) in MACHINES {
        want_at(
            &rt,
            machine,
            relative_of(machine).map(|row| row.kind),
            Some(relative),
        );
    }
    want_at(&rt, 40, relative_of(40), None);
}

#[test]
fn a_type_without_a_row_has_no_formula(rt: HostRuntime) {
    for (machine, width) in [(62, 8), (3, 4), (183, 8), (40, 8)] {
        let row = row_of(machine, 1999);
        want_at(&rt, machine, (row.kind, row.formula), (1999, None));
        want_at(
            &rt,
            machine,
            (row.width, row.use_, row.names, row.slot),
            (width, Use::Any, true, false),
        );
    }
}
