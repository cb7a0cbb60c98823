//! What visibility, protected symbols and the numbers of versions change in the symbol that a
//! reference gets, and what a version and no other accepts: rows worked by hand from the rules of
//! glibc's linker, in the form of `bind`.

use crate::tests::bind::Change::{Definition, Machine, Other};
use crate::tests::bind::{ABSENT, CUT, Row, UNDEFINED, answer};
use crate::tests::find::file::{KINDS, Kind, drop_numbers, find_file};
use crate::tests::find::{Answer, found_in};
use crate::tests::want::want_at;
use elf_linking::LinkError;
use elf_linking::find::{Use, Wanted};
use std::process::Abort;
use worked_files::rows;

const VISIBILITY: &[Row] = rows! {
    // a symbol of another file serves if it is of default visibility or protected
    &[2], &[2], &[(0, Other(1, 1))], (1, 0, 1), Ok(Some((1, 1)));
    &[2], &[2], &[(0, Other(1, 2))], (1, 0, 1), Ok(Some((1, 1)));
    &[2], &[2], &[(0, Other(1, 3))], (1, 0, 1), Ok(Some((0, 1)));
    &[2], &[2], &[(0, Other(1, 6))], (1, 0, 1), Ok(Some((1, 1)));
    &[2], &[2], &[(0, Other(1, 4))], (1, 0, 1), Ok(Some((0, 1)));
    // the next file is asked, and not the next symbol of the file
    &[2, 2], &[2], &[(0, Other(1, 2))], (1, 0, 1), Ok(Some((1, 1)));
    &[2], &[2], &[(0, Other(1, 2)), (1, ABSENT)], (1, 0, 1), Ok(None);
    &[2, 2], &[2], &[(0, Other(1, 2)), (1, ABSENT)], (1, 0, 1), Ok(None);
    // a hidden symbol serves its own file, even undefined
    &[2], &[2], &[(0, Other(1, 2))], (0, 0, 1), Ok(Some((0, 1)));
    &[2], &[2], &[(1, Other(1, 2)), (1, ABSENT)], (1, 0, 1), Ok(Some((1, 1)));
};

const PROTECTED: &[Row] = rows! {
    // another file has the symbol too: it is not taken, for any use
    &[2], &[2], &[(1, Machine(62)), (1, Other(1, 3))], (1, 6, 1), Ok(Some((1, 1)));
    &[2], &[2], &[(1, Machine(62)), (1, Other(1, 3))], (1, 7, 1), Ok(Some((1, 1)));
    // the program has taken the address of the function
    &[2], &[2], &[(0, UNDEFINED), (1, Machine(62)), (1, Other(1, 3))], (1, 6, 1), Ok(Some((0, 1)));
    &[2], &[2], &[(0, UNDEFINED), (1, Machine(62)), (1, Other(1, 3))], (1, 7, 1), Ok(Some((1, 1)));
    // an undefined one, which no file has, and which the program has
    &[3], &[2], &[(1, Machine(62)), (1, Other(1, 3)), (1, ABSENT)], (1, 6, 1), Ok(None);
    &[3], &[2], &[(1, Machine(62)), (1, Other(1, 3)), (1, ABSENT)], (1, 7, 1), Ok(None);
    &[2], &[2], &[(1, Machine(62)), (1, Other(1, 3)), (1, ABSENT)], (1, 6, 1), Ok(Some((1, 1)));
    // a copy is from the library
    &[2], &[2], &[(0, Machine(62)), (0, Other(1, 3))], (0, 5, 1), Ok(Some((1, 1)));
    &[2], &[3], &[(0, Machine(62)), (0, Other(1, 3))], (0, 5, 1), Ok(None);
    // the program's own
    &[2], &[2], &[(0, Machine(62)), (0, Other(1, 3))], (0, 6, 1), Ok(Some((0, 1)));
    // an error of the look-up for a defined symbol, after that for a copy found one
    &[3], &[2], &[(0, CUT), (1, Machine(62)), (1, Other(1, 3))], (1, 5, 1),
        Err(LinkError::ShortVersion);
};

// Of the number of a definition bits 0 to 14 count. The symbol of the program is hidden, so that it
// is accepted by the name of its version alone.
const NUMBERS: &[Row] = rows! {
    &[0x8002], &[2], &[(0, Definition((32, 2, 0x8002)))], (1, 0, 1), Ok(Some((0, 1)));
    &[0x8002], &[2], &[(0, Definition((32, 2, 0x8004)))], (1, 0, 1), Ok(Some((1, 1)));
    &[0x8002], &[2], &[(0, Definition((32, 2, 0x4002)))], (1, 0, 1), Ok(Some((1, 1)));
    &[0xfff2], &[2], &[(0, Definition((32, 2, 0x7ff2)))], (1, 0, 1), Ok(Some((0, 1)));
    &[0x7ff2], &[2], &[(0, Definition((32, 2, 0xfff2)))], (1, 0, 1), Ok(Some((0, 1)));
};

#[test]
fn binds_by_visibility_and_numbers(rt: HostRuntime) {
    for (table, rows) in [VISIBILITY, PROTECTED, NUMBERS].iter().enumerate() {
        for (index, &row) in rows.iter().enumerate() {
            for &kind in KINDS {
                want_at(&rt, (table, index, kind), answer(&rt, kind, row), row.4);
            }
        }
    }
}

// The numbers of the symbols `ab` from index 1 on, and which is found for V1 as a program asks, and
// for V1 and no other version. Number 2 is V1, and nothing has number 9.
const EXACT: &[(&[u16], Option<u32>, Option<u32>)] = rows! {
    &[2], Some(1), Some(1); &[0x8002], Some(1), Some(1); &[0], Some(1), None; &[1], Some(1), None;
    &[9], Some(1), None; &[0x8001], None, None; &[3], None, None; &[1, 2], Some(1), Some(2);
    &[3, 1, 0x8002], Some(2), Some(3); &[], None, None;
};

// The index of the symbol `ab` that a look-up finds.
fn index_in(rt: &impl Abort, kind: Kind, bytes: &[u8], wanted: &Wanted<'_>) -> Answer {
    let found = found_in(rt, kind.0, bytes, "ab", wanted, Use::Any);
    found.map(|found| found.map(|found| found.0))
}

#[test]
fn exact_version_is_that_or_none(rt: HostRuntime) {
    for &kind in KINDS {
        for &(numbers, wanted, exact) in EXACT {
            let mut file = find_file(kind, numbers);
            let found = index_in(&rt, kind, &file, &Wanted::version("V1"));
            want_at(&rt, (kind, numbers), found, Ok(wanted));
            let found = index_in(&rt, kind, &file, &Wanted::exact("V1"));
            want_at(&rt, (kind, numbers), found, Ok(exact));
            // in a file without numbers of symbols each is accepted
            drop_numbers(&mut file, kind);
            let found = index_in(&rt, kind, &file, &Wanted::exact("V1"));
            let first = if numbers.is_empty() { None } else { Some(1) };
            want_at(&rt, (kind, numbers), found, Ok(first));
        }
    }
}
