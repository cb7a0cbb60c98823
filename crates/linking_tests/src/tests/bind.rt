//! The symbol that a reference gets of the files in a scope: rows worked by hand from the rules
//! over two files in which up to three symbols have one name.

mod corners;
mod files;
mod linked;
mod rules;

use crate::tests::bind::Change::{
    Bytes, Definition, Entry, Machine, Name, Other, Unnumbered, With,
};
use crate::tests::find::file::{
    DEFINITIONS, KINDS, Kind, Symbol, add_entry, drop_numbers, find_file, set_bytes, set_name,
    set_other, set_symbol,
};
use crate::tests::want::{open, want, want_at};
use elf_base::ElfError;
use elf_linking::references::Reference;
use elf_linking::scope::Scope;
use elf_linking::view::LinkedSymbol;
use elf_linking::{CheckedObject, CheckedScope, DynamicObject, LinkError};
use std::process::Abort;
use worked_files::places::{header_64, set};
use worked_files::rows;
use worked_files::versioned::{Field, set_fields};
use xmas_elf::symbol_table::{DynEntry32, DynEntry64};

// The index of the file and that of its symbol.
type Answer = Result<Option<(usize, u32)>, LinkError>;

// What is changed in a file.
#[derive(Clone, Copy)]
enum Change {
    // Its machine.
    Machine(u64),
    // A dynamic entry more.
    Entry(u64, u64),
    // Another symbol at an index.
    With(usize, Symbol),
    // `st_other` of the symbol at an index.
    Other(usize, u64),
    // The name `]\xe6` of all symbols.
    Bytes,
    // Where the name of the symbol at an index begins.
    Name(usize, u64),
    // A field of the definitions.
    Definition(Field),
    // No numbers of symbols.
    Unnumbered,
}

// DT_SYMBOLIC, and DT_FLAGS with DF_SYMBOLIC.
const SYMBOLIC: Change = Entry(16, 0);

const FLAGGED: Change = Entry(30, 2);

// A name past the strings; the definition of V1 ends the list, and its next is past the end; its
// hash number is 0.
const NAMELESS: Change = Name(1, 0x1000);

const CUT: Change = Definition((44, 4, 0x1000));

const NO_HASH: Change = Definition((36, 4, 0));

// An undefined symbol, and one with a value, as a function whose address the program takes.
const ABSENT: Change = With(1, (0x12, 0, 0));

const UNDEFINED: Change = With(1, (0x12, 0, 0x10));

// The numbers of the symbols of either file from index 1 on, what is changed in which file, the
// file, the type and the symbol of the reference, and what it gets. Number 2 is V1, number 3 is V2;
// number 4 is V3 and number 5 the hidden V4 of a library; nothing has number 9.
type Row = (
    &'static [u16],
    &'static [u16],
    &'static [(usize, Change)],
    (usize, u32, u32),
    Answer,
);

const ORDER: &[Row] = rows! {
    // the first file in which there is one
    &[2], &[2], &[], (0, 0, 1), Ok(Some((0, 1)));
    &[2], &[2], &[], (1, 0, 1), Ok(Some((0, 1)));
    &[3], &[2], &[], (1, 0, 1), Ok(Some((1, 1)));
    &[3, 0x8002], &[2], &[], (1, 0, 1), Ok(Some((0, 2)));
    &[2], &[3, 2], &[], (1, 0, 1), Ok(Some((1, 1)));
    &[2], &[3, 2], &[], (1, 0, 2), Ok(Some((0, 1)));
    &[], &[2], &[], (1, 0, 1), Ok(Some((1, 1)));
    &[3], &[2], &[(1, ABSENT)], (1, 0, 1), Ok(None);
    // the reference's own file first, where it is symbolic
    &[2], &[2], &[(1, SYMBOLIC)], (1, 0, 1), Ok(Some((1, 1)));
    &[2], &[2], &[(1, FLAGGED)], (1, 0, 1), Ok(Some((1, 1)));
    &[2], &[2], &[(1, Entry(30, 6))], (1, 0, 1), Ok(Some((1, 1)));
    &[2], &[2], &[(1, Entry(30, 13))], (1, 0, 1), Ok(Some((0, 1)));
    &[2], &[2], &[(1, Entry(24, 2))], (1, 0, 1), Ok(Some((0, 1)));
    &[2], &[2], &[(1, SYMBOLIC)], (0, 0, 1), Ok(Some((0, 1)));
    &[2], &[2], &[(0, SYMBOLIC)], (1, 0, 1), Ok(Some((0, 1)));
    &[2], &[2], &[(1, SYMBOLIC), (1, ABSENT)], (1, 0, 1), Ok(Some((0, 1)));
    // weak and unique symbols as global ones, and no others
    &[2], &[2], &[(0, With(1, (0x22, 5, 0x10)))], (1, 0, 1), Ok(Some((0, 1)));
    &[2], &[2], &[(0, With(1, (0xa2, 5, 0x10)))], (1, 0, 1), Ok(Some((0, 1)));
    &[2], &[2], &[(0, With(1, (0x02, 5, 0x10)))], (1, 0, 1), Ok(Some((1, 1)));
    &[2, 2], &[2], &[(0, With(1, (0x02, 5, 0x10)))], (1, 0, 1), Ok(Some((1, 1)));
    &[2], &[2], &[(0, With(1, (0x32, 5, 0x10)))], (1, 0, 1), Ok(Some((1, 1)));
    &[2], &[2], &[(0, With(1, (0xb2, 5, 0x10)))], (1, 0, 1), Ok(Some((1, 1)));
    &[2], &[2], &[(0, With(1, (0xd2, 5, 0x10)))], (1, 0, 1), Ok(Some((1, 1)));
    // the symbol itself, if it is local, hidden or internal, whatever it is; a protected one
    &[2], &[2], &[(1, With(1, (0x02, 5, 0x10)))], (1, 0, 1), Ok(Some((1, 1)));
    &[2], &[2], &[(1, With(1, (0x03, 5, 0)))], (1, 0, 1), Ok(Some((1, 1)));
    &[2], &[2], &[(1, Other(1, 1))], (1, 0, 1), Ok(Some((1, 1)));
    &[2], &[2], &[(1, Other(1, 2))], (1, 0, 1), Ok(Some((1, 1)));
    &[2], &[2], &[(1, Other(1, 3))], (1, 0, 1), Ok(Some((1, 1)));
    &[2], &[2], &[(1, Other(1, 0xfc))], (1, 0, 1), Ok(Some((0, 1)));
    &[2], &[2], &[(0, Other(1, 2))], (1, 0, 1), Ok(Some((1, 1)));
    &[2], &[2], &[(1, Other(1, 2)), (1, NAMELESS)], (1, 0, 1), Ok(Some((1, 1)));
    &[2], &[2], &[], (1, 0, 0), Ok(Some((1, 0)));
};

// Names are compared byte by byte: two that aren't UTF-8, and one with a name of the same hash number.
const NAMES: &[Row] = rows! {
    &[2], &[2], &[(0, Bytes), (1, Bytes)], (1, 0, 1), Ok(Some((0, 1)));
    &[3], &[2], &[(0, Bytes), (1, Bytes)], (1, 0, 1), Ok(Some((1, 1)));
    &[2], &[2], &[(0, Bytes)], (1, 0, 1), Ok(Some((1, 1)));
    &[2], &[2], &[(1, Bytes)], (0, 0, 1), Ok(Some((0, 1)));
    &[3], &[2], &[(0, Bytes), (1, Bytes), (0, UNDEFINED), (1, Machine(62))], (1, 7, 1), Ok(Some((1, 1)));
};

const VERSIONS: &[Row] = rows! {
    // a version that a library is needed for, hidden or not
    &[3], &[4], &[], (1, 0, 1), Ok(Some((1, 1)));
    &[9], &[4], &[], (1, 0, 1), Ok(Some((0, 1)));
    &[9], &[0x8005], &[], (1, 0, 1), Ok(Some((1, 1)));
    &[9], &[0x8002], &[], (1, 0, 1), Ok(Some((0, 1)));
    &[0x8009], &[2], &[], (1, 0, 1), Ok(Some((1, 1)));
    // no version
    &[3], &[1], &[], (1, 0, 1), Ok(Some((0, 1)));
    &[3, 2], &[1], &[], (1, 0, 1), Ok(Some((0, 2)));
    &[3, 4], &[1], &[], (1, 0, 1), Ok(Some((1, 1)));
    &[0x8003, 4], &[9], &[], (1, 0, 1), Ok(Some((0, 2)));
    &[0x8002, 3], &[0], &[], (1, 0, 1), Ok(Some((0, 1)));
    &[3, 4], &[0x8001], &[], (1, 0, 1), Ok(Some((1, 1)));
    &[3], &[2], &[(1, NO_HASH)], (1, 0, 1), Ok(Some((0, 1)));
    // no numbers of symbols
    &[3], &[2], &[(1, Unnumbered)], (1, 0, 1), Ok(Some((0, 1)));
    &[3, 4], &[2], &[(1, Unnumbered)], (1, 0, 1), Ok(Some((1, 1)));
    &[3], &[2], &[(0, Unnumbered)], (1, 0, 1), Ok(Some((0, 1)));
};

const USES: &[Row] = rows! {
    // a copy, by the machine of the reference's file
    &[2], &[2], &[(0, Machine(62))], (0, 5, 1), Ok(Some((1, 1)));
    &[2], &[2], &[(0, Machine(3))], (0, 5, 1), Ok(Some((1, 1)));
    &[2], &[2], &[(0, Machine(183))], (0, 1024, 1), Ok(Some((1, 1)));
    &[2], &[2], &[(0, Machine(183))], (0, 5, 1), Ok(Some((0, 1)));
    &[2], &[2], &[(0, Machine(62))], (0, 1024, 1), Ok(Some((0, 1)));
    &[2], &[2], &[(0, Machine(62))], (0, 6, 1), Ok(Some((0, 1)));
    &[2], &[2], &[(0, Machine(8))], (0, 5, 1), Ok(Some((0, 1)));
    &[2], &[2], &[(1, Machine(62))], (0, 5, 1), Ok(Some((0, 1)));
    &[2], &[2], &[(1, Machine(62))], (1, 5, 1), Ok(Some((1, 1)));
    &[2], &[3], &[(0, Machine(62))], (0, 5, 1), Ok(None);
    &[2], &[3], &[(0, Machine(62)), (0, SYMBOLIC)], (0, 5, 1), Ok(None);
    &[2], &[2], &[(0, Machine(62)), (0, SYMBOLIC)], (0, 5, 1), Ok(Some((1, 1)));
    &[2], &[2], &[(0, Machine(62)), (0, Other(1, 3))], (0, 5, 1), Ok(Some((1, 1)));
    // a defined symbol
    &[2], &[2], &[(0, UNDEFINED), (1, Machine(62))], (1, 7, 1), Ok(Some((1, 1)));
    &[2], &[2], &[(0, UNDEFINED), (1, Machine(62))], (1, 6, 1), Ok(Some((0, 1)));
    &[2], &[2], &[(0, UNDEFINED), (1, Machine(3))], (1, 14, 1), Ok(Some((1, 1)));
    &[2], &[2], &[(0, UNDEFINED), (0, Machine(62))], (1, 7, 1), Ok(Some((0, 1)));
};

const PAST: LinkError = LinkError::Elf(ElfError::TextStart);

const FAILED: &[Row] = rows! {
    &[2], &[2], &[], (2, 0, 1), Err(LinkError::ObjectIndex);
    &[2], &[2], &[], (usize::MAX, 0, 9), Err(LinkError::ObjectIndex);
    &[2], &[2], &[], (1, 0, 4), Err(LinkError::SymbolIndex);
    &[2], &[2], &[], (0, 0, u32::MAX), Err(LinkError::SymbolIndex);
    // the name of the symbol, and then its version
    &[2], &[2], &[(1, NAMELESS)], (1, 0, 1), Err(PAST);
    &[2], &[3], &[(1, NAMELESS), (1, CUT)], (1, 0, 1), Err(PAST);
    &[2], &[3], &[(1, CUT)], (1, 0, 1), Err(LinkError::ShortVersion);
    // a file that is asked before there is an answer
    &[3], &[2], &[(0, CUT)], (1, 0, 1), Err(LinkError::ShortVersion);
    &[3], &[2], &[(0, CUT), (1, SYMBOLIC)], (1, 0, 1), Ok(Some((1, 1)));
    &[3], &[2], &[(0, CUT), (1, Machine(62))], (1, 5, 1), Ok(Some((1, 1)));
    &[2], &[3], &[(1, CUT)], (0, 0, 1), Ok(Some((0, 1)));
    &[3], &[1], &[(0, CUT)], (1, 0, 1), Ok(Some((0, 1)));
};

fn make_change(file: &mut [u8], kind: Kind, change: Change) {
    match change {
        Machine(machine) => set(file, 0, header_64::MACHINE, machine, kind.1),
        Entry(tag, number) => add_entry(file, kind, (tag, number)),
        With(index, symbol) => set_symbol(file, kind, index, symbol),
        Other(index, other) => set_other(file, kind, index, other),
        Bytes => set_bytes(file),
        Name(index, name) => set_name(file, kind, index, name),
        Definition(field) => set_fields(file, DEFINITIONS, &[field], kind.1),
        Unnumbered => drop_numbers(file, kind),
    }
}

// What a reference of a file gets in the scope of two, the first of which is the program.
fn bound_of<E: LinkedSymbol>(
    rt: &impl Abort,
    program: &[u8],
    library: &[u8],
    from: usize,
    reference: &Reference,
) -> Answer {
    let objects = [
        DynamicObject::<E>::read(&open(rt, program))?,
        DynamicObject::<E>::read(&open(rt, library))?,
    ];
    let answer = Scope::new(&objects).bind(from, reference);
    let answer = answer.map(|bound| bound.map(|bound| (bound.object, bound.index)));
    if let Ok(bound) = checked_bound_of(objects[0], objects[1], from, reference) {
        // A reference whose symbol or name can't be read gets none.
        want(rt, bound, answer.unwrap_or(None));
    }
    answer
}

// What the reference gets after the checks of the files, or the first error of these.
fn checked_bound_of<E: LinkedSymbol>(
    program: DynamicObject<'_, E>,
    library: DynamicObject<'_, E>,
    from: usize,
    reference: &Reference,
) -> Answer {
    let checked = [CheckedObject::of(program)?, CheckedObject::of(library)?];
    let bound = CheckedScope::new(&checked).bind(from, reference);
    Ok(bound.map(|bound| (bound.object, bound.index)))
}

// What the reference of a row gets.
fn answer(rt: &impl Abort, kind: Kind, row: Row) -> Answer {
    let mut program = find_file(kind, row.0);
    let mut library = find_file(kind, row.1);
    for &(index, changed) in row.2 {
        if index == 0 {
            make_change(&mut program, kind, changed);
        } else {
            make_change(&mut library, kind, changed);
        }
    }
    let reference = Reference {
        offset: 0,
        kind: row.3.1,
        symbol: row.3.2,
        addend: 0,
    };
    if kind.0 == 1 {
        bound_of::<DynEntry32>(rt, &program, &library, row.3.0, &reference)
    } else {
        bound_of::<DynEntry64>(rt, &program, &library, row.3.0, &reference)
    }
}

#[test]
fn binds_a_reference(rt: HostRuntime) {
    for (table, rows) in [ORDER, NAMES, VERSIONS, USES, FAILED].iter().enumerate() {
        for (index, &row) in rows.iter().enumerate() {
            for &kind in KINDS {
                want_at(&rt, (table, index, kind), answer(&rt, kind, row), row.4);
            }
        }
    }
}
