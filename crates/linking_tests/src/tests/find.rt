//! The symbol that a reference by a name and a version gets: rows worked by hand from the rules
//! over files in which up to three symbols have one name.

mod damaged;
pub mod file;
mod linked;

use crate::tests::find::Asked::{By, Hidden};
use crate::tests::find::file::{DEFINITIONS, KINDS, Symbol, drop_numbers, find_file, set_symbol};
use crate::tests::want::{open, want, want_at};
use elf_base::ElfError;
use elf_linking::find::{Use, Wanted};
use elf_linking::view::LinkedSymbol;
use elf_linking::{CheckedObject, DynamicObject, LinkError};
use std::process::Abort;
use worked_files::rows;
use worked_files::versioned::{Field, set_fields};
use xmas_elf::symbol_table::{DynEntry32, DynEntry64};

const SHORT: LinkError = LinkError::ShortVersion;

const PAST: LinkError = LinkError::Elf(ElfError::TextStart);

// What a reference asks for: a version by its name and its hash number, which is hidden or not, or
// none.
#[derive(Clone, Copy, Debug)]
enum Asked {
    By(&'static str, u32),
    Hidden(&'static str, u32),
    Plain,
    Latest,
}

impl Asked {
    fn wanted(self) -> Wanted<'static> {
        match self {
            Asked::By(name, hash) => Wanted::Version {
                name,
                hash,
                hidden: false,
            },
            Asked::Hidden(name, hash) => Wanted::Version {
                name,
                hash,
                hidden: true,
            },
            Asked::Plain => Wanted::Unversioned,
            Asked::Latest => Wanted::Newest,
        }
    }
}

const PLAIN: Asked = Asked::Plain;

const LATEST: Asked = Asked::Latest;

const V1: Asked = By("V1", 0x591);

const V2: Asked = By("V2", 0x592);

const V3: Asked = By("V3", 0x593);

const HIDDEN_V1: Asked = Hidden("V1", 0x591);

pub type Found = Result<Option<(u32, u64)>, LinkError>;

pub type Answer = Result<Option<u32>, LinkError>;

// The index and the value of the symbol that a reference gets.
fn found_of<E: LinkedSymbol>(
    rt: &impl Abort,
    bytes: &[u8],
    name: &str,
    wanted: &Wanted<'_>,
    use_: Use,
) -> Found {
    let file = open(rt, bytes);
    let object = DynamicObject::<E>::read(&file)?;
    let found = object.find(name, wanted, use_);
    let found = found.map(|found| found.map(|(index, symbol)| (index, symbol.value())));
    if let Ok(checked) = CheckedObject::of(object) {
        let checked = checked.find(name, wanted, use_);
        let checked = checked.map(|(index, symbol)| (index, symbol.value()));
        want(rt, Ok(checked), found);
    }
    found
}

/// The same in a file of either class.
pub fn found_in(
    rt: &impl Abort,
    class: u8,
    bytes: &[u8],
    name: &str,
    wanted: &Wanted<'_>,
    use_: Use,
) -> Found {
    if class == 1 {
        found_of::<DynEntry32>(rt, bytes, name, wanted, use_)
    } else {
        found_of::<DynEntry64>(rt, bytes, name, wanted, use_)
    }
}

// The index of the symbol `ab` that any use gets; each has 16 times its index as its value.
fn index_in(rt: &impl Abort, class: u8, bytes: &[u8], asked: Asked) -> Answer {
    let found = found_in(rt, class, bytes, "ab", &asked.wanted(), Use::Any)?;
    if let Some((index, value)) = found {
        want(rt, value, u64::from(index).wrapping_mul(16));
    }
    Ok(found.map(|found| found.0))
}

// The numbers of symbols from index 1 on, which version is asked for, and the symbol found. Number
// 2 is V1, number 3 is V2; number 4 is V3 and number 5 the hidden V4 of a library; nothing has number 9.
const BY_VERSION: &[(&[u16], Asked, Option<u32>)] = rows! {
    &[], V1, None; &[0x8002, 3], V1, Some(1); &[0x8002, 3], V2, Some(2); &[0x8002, 3], V3, None;
    &[3, 0x8002], V1, Some(2); &[3, 2], V1, Some(2); &[3, 2, 2], V1, Some(2);
    // the default is no answer to another version
    &[3], V1, None; &[3], V3, None; &[4, 3], V3, Some(1); &[3, 0x8005], By("V4", 0x594), Some(2);
    // the name and the hash number must both be the same
    &[2, 3], By("V2", 0x591), None; &[2, 3], By("V1", 0x592), None; &[2], By("V1", 0), None;
    &[2], By("", 0x591), None;
    // a hidden version, which asks for no other
    &[2], HIDDEN_V1, Some(1); &[3, 0x8002], HIDDEN_V1, Some(2);
    // a version without a hash number is accepted too, if neither is hidden
    &[9], V1, Some(1); &[0x8009], V1, None; &[9], HIDDEN_V1, None; &[0x8009], HIDDEN_V1, None;
    &[0], V1, Some(1); &[1], V1, Some(1); &[0x8001], V1, None; &[1], HIDDEN_V1, None;
    &[9, 2], V1, Some(1); &[0x8009, 2], V1, Some(2); &[9, 2], HIDDEN_V1, Some(2);
};

// The same for a reference without a version: what `Unversioned` finds, and `Newest`.
const BY_NONE: &[(&[u16], Option<u32>, Option<u32>)] = rows! {
    &[], None, None;
    // a number below 3 or below 2, hidden or not
    &[0], Some(1), Some(1); &[1], Some(1), Some(1); &[0x8000], Some(1), Some(1);
    &[0x8001], Some(1), Some(1); &[0x8002], Some(1), None; &[0x8002, 3], Some(1), Some(2);
    &[3, 2], Some(2), None; &[3, 0x8002], Some(2), Some(1); &[3, 4, 1], Some(3), Some(3);
    &[3, 2, 1], Some(2), Some(3);
    // one default
    &[2], Some(1), Some(1); &[3], Some(1), Some(1); &[9], Some(1), Some(1);
    &[3, 0x8004], Some(1), Some(1); &[0x8004, 3], Some(2), Some(2);
    &[0x8003, 0x8004, 3], Some(3), Some(3); &[0x8003, 0x7fff, 0xffff], Some(2), Some(2);
    // two and three of them
    &[3, 4], None, None; &[3, 3], None, None; &[3, 0x8003, 9], None, None; &[3, 4, 5], None, None;
    // none
    &[0x8003], None, None; &[0x8009], None, None; &[0x8003, 0x8004, 0xffff], None, None;
};

#[test]
fn finds_a_symbol_by_its_version(rt: HostRuntime) {
    for (row, &(numbers, asked, index)) in BY_VERSION.iter().enumerate() {
        for &kind in KINDS {
            let bytes = find_file(kind, numbers);
            let found = index_in(&rt, kind.0, &bytes, asked);
            want_at(&rt, (row, kind), found, Ok(index));
        }
    }
}

#[test]
fn finds_a_symbol_without_a_version(rt: HostRuntime) {
    for (row, &(numbers, plain, latest)) in BY_NONE.iter().enumerate() {
        for &kind in KINDS {
            let bytes = find_file(kind, numbers);
            let found = index_in(&rt, kind.0, &bytes, PLAIN);
            want_at(&rt, (row, kind), found, Ok(plain));
            let found = index_in(&rt, kind.0, &bytes, LATEST);
            want_at(&rt, (row, kind), found, Ok(latest));
        }
    }
}

// In a file without numbers of symbols each symbol is accepted.
#[test]
fn finds_the_first_symbol_without_numbers(rt: HostRuntime) {
    for (row, asked) in [V1, HIDDEN_V1, By("", 0), PLAIN, LATEST].iter().enumerate() {
        for &kind in KINDS {
            let mut bytes = find_file(kind, &[0x8003, 3, 4]);
            drop_numbers(&mut bytes, kind);
            let found = index_in(&rt, kind.0, &bytes, *asked);
            want_at(&rt, (row, kind), found, Ok(Some(1)));
        }
    }
}

// A symbol, and whether it serves any use, one that wants a defined symbol, and a copy.
const SERVING: &[(Symbol, bool, bool, bool)] = rows! {
    (0x12, 5, 0x10), true, true, true; (0x22, 5, 0x10), true, true, true;
    // undefined, as a function that is called through the file's own table
    (0x12, 0, 0x10), true, false, true; (0x12, 0, 0), false, false, false;
    // the value 0: in a section, absolute, common, and thread-local
    (0x11, 5, 0), false, false, false; (0x11, 0xfff1, 0), true, true, true;
    (0x12, 0xfff1, 0), true, true, true; (0x11, 0xfff2, 0), false, false, false;
    (0x16, 5, 0), true, true, true; (0x16, 0, 0), true, false, true;
    // each type
    (0x10, 5, 0x10), true, true, true; (0x11, 5, 0x10), true, true, true;
    (0x13, 5, 0x10), false, false, false; (0x14, 0xfff1, 0x10), false, false, false;
    (0x15, 5, 0x10), true, true, true; (0x16, 5, 0x10), true, true, true;
    (0x17, 5, 0x10), false, false, false; (0x18, 5, 0x10), false, false, false;
    (0x19, 5, 0x10), false, false, false; (0x1a, 5, 0x10), true, true, true;
    (0x1a, 5, 0), false, false, false; (0x1b, 5, 0x10), false, false, false;
    (0x1f, 5, 0x10), false, false, false;
};

// Wants symbol 1 for a use if it serves it, and otherwise symbol 2, which has the same number.
fn check_serving(rt: &impl Abort, row: usize, symbol: Symbol, use_: Use, serves: bool) {
    let wanted = if serves { (1, symbol.2) } else { (2, 0x20) };
    for &kind in KINDS {
        let mut bytes = find_file(kind, &[2, 2]);
        set_symbol(&mut bytes, kind, 1, symbol);
        let found = found_in(rt, kind.0, &bytes, "ab", &V1.wanted(), use_);
        want_at(rt, (row, use_, kind), found, Ok(Some(wanted)));
    }
}

#[test]
fn passes_over_symbols_that_do_not_serve(rt: HostRuntime) {
    for (row, &(symbol, any, defined, copy)) in SERVING.iter().enumerate() {
        check_serving(&rt, row, symbol, Use::Any, any);
        check_serving(&rt, row, symbol, Use::Defined, defined);
        check_serving(&rt, row, symbol, Use::Copy, copy);
    }
}

// Two symbols that aren't hidden, the first of which is undefined: only one serves a jump slot.
#[test]
fn counts_no_default_that_does_not_serve(rt: HostRuntime) {
    for &kind in KINDS {
        let mut bytes = find_file(kind, &[3, 4]);
        set_symbol(&mut bytes, kind, 1, (0x12, 0, 0x10));
        let found = found_in(&rt, kind.0, &bytes, "ab", &PLAIN.wanted(), Use::Defined);
        want_at(&rt, kind, found, Ok(Some((2, 0x20))));
        let found = found_in(&rt, kind.0, &bytes, "ab", &PLAIN.wanted(), Use::Any);
        want_at(&rt, kind, found, Ok(None));
        let found = found_in(&rt, kind.0, &bytes, "cd", &PLAIN.wanted(), Use::Any);
        want_at(&rt, kind, found, Ok(None));
    }
}

// The definition of V1 ends the list, and its next is past the end; its name is past the end of the
// strings, or its record of names is cut off; its hash number is 0; and V2 has the same as V1.
const CUT: Field = (44, 4, 0x1000);

const PAST_STRINGS: Field = (48, 4, 0x1000);

const CUT_NAME: Field = (40, 4, 0x1000);

const NO_HASH: Field = (36, 4, 0);

const SAME_HASH: Field = (64, 4, 0x591);

// Changed fields of the definitions, the numbers of symbols, which version is asked for, and what
// is found, or why it can't be told.
const UNREADABLE: &[(&[Field], &[u16], Asked, Answer)] = &[
    (&[CUT], &[2], V1, Ok(Some(1))),
    (&[CUT], &[3], V1, Err(SHORT)),
    (&[CUT], &[3], V2, Err(SHORT)),
    (&[CUT], &[4], V3, Err(SHORT)),
    (&[CUT], &[3, 2], V1, Err(SHORT)),
    (&[CUT], &[9, 2], V1, Err(SHORT)),
    (&[CUT], &[2, 3], V1, Ok(Some(1))),
    (&[CUT], &[1, 3], V1, Ok(Some(1))),
    (&[CUT], &[0x8001, 2, 3], V1, Ok(Some(2))),
    (&[CUT], &[2, 3], V2, Err(SHORT)),
    // a reference without a version reads none
    (&[CUT], &[3], PLAIN, Ok(Some(1))),
    (&[CUT], &[3], LATEST, Ok(Some(1))),
    (&[CUT], &[3, 1], PLAIN, Ok(Some(2))),
    // a name is read only if the hash number is the same
    (&[PAST_STRINGS], &[2], V1, Err(PAST)),
    (&[PAST_STRINGS], &[2, 3], V2, Ok(Some(2))),
    (&[PAST_STRINGS], &[3, 2], V1, Err(PAST)),
    (&[PAST_STRINGS], &[1, 2], V1, Ok(Some(1))),
    (&[CUT_NAME], &[2], V1, Err(SHORT)),
    (&[CUT_NAME], &[2, 3], V2, Ok(Some(2))),
    (&[PAST_STRINGS, NO_HASH], &[2], By("V1", 0), Err(PAST)),
    // a version with the hash number 0 is accepted in place of each that isn't hidden
    (&[NO_HASH], &[2], V2, Ok(Some(1))),
    (&[NO_HASH], &[2], V1, Ok(Some(1))),
    (&[NO_HASH], &[0x8002], V1, Ok(None)),
    (&[NO_HASH], &[2], HIDDEN_V1, Ok(None)),
    (&[NO_HASH], &[0x8002], By("V1", 0), Ok(Some(1))),
    (&[NO_HASH], &[0x8002, 2], Hidden("V2", 0), Ok(None)),
    // two versions with the same hash number
    (&[SAME_HASH], &[3, 2], V1, Ok(Some(2))),
    (&[SAME_HASH], &[3, 2], By("V2", 0x591), Ok(Some(1))),
    (&[SAME_HASH], &[3], V2, Ok(None)),
];

#[test]
fn tells_why_a_version_is_not_accepted(rt: HostRuntime) {
    for (row, &(fields, numbers, asked, answer)) in UNREADABLE.iter().enumerate() {
        for &kind in KINDS {
            let mut bytes = find_file(kind, numbers);
            set_fields(&mut bytes, DEFINITIONS, fields, kind.1);
            let found = index_in(&rt, kind.0, &bytes, asked);
            want_at(&rt, (row, kind), found, answer);
        }
    }
}

// Whether a reference accepts a symbol at once: those with the numbers 2, hidden 3 and 9.
const ACCEPTED: &[(u32, Asked, Result<bool, LinkError>)] = rows! {
    0, V1, Ok(true); 1, V1, Ok(true); 1, V2, Ok(false); 2, V2, Ok(true); 3, V1, Ok(true);
    3, HIDDEN_V1, Ok(false); 1, PLAIN, Ok(true); 2, PLAIN, Ok(false); 3, PLAIN, Ok(false);
    0, LATEST, Ok(true); 1, LATEST, Ok(false); 4, V1, Err(LinkError::SymbolIndex);
    4, PLAIN, Err(LinkError::SymbolIndex); u32::MAX, LATEST, Err(LinkError::SymbolIndex);
};

#[test]
fn accepts_a_symbol_by_its_index(rt: HostRuntime) -> Result<(), LinkError> {
    for &kind in KINDS {
        let bytes = find_file(kind, &[2, 0x8003, 9]);
        let file = open(&rt, &bytes);
        let versions = if kind.0 == 1 {
            DynamicObject::<DynEntry32>::read(&file)?.versions()
        } else {
            DynamicObject::<DynEntry64>::read(&file)?.versions()
        };
        for &(index, asked, accepted) in ACCEPTED {
            let found = asked.wanted().accepts(&versions, index);
            want_at(&rt, (index, asked), found, accepted);
        }
    }
    Ok(())
}

// Changed fields of the definitions, and whether the versions of the symbols can be read.
const CHECKED: &[(&[Field], Result<(), LinkError>)] = rows! {
    &[], Ok(()); &[CUT], Err(SHORT); &[PAST_STRINGS], Err(PAST); &[CUT_NAME], Err(SHORT);
    &[NO_HASH], Ok(()); &[SAME_HASH], Ok(());
    // more or fewer definitions, needs and parts than told, which is no error of glibc's linker
    &[(16, 4, 56)], Err(LinkError::VersionChain); &[(44, 4, 0)], Err(LinkError::VersionChain);
    &[(100, 4, 0)], Err(LinkError::VersionChain); &[(90, 2, 1)], Err(LinkError::VersionChain);
    &[(90, 2, 3)], Err(LinkError::VersionChain); &[(116, 4, 0)], Err(LinkError::VersionChain);
};

#[test]
fn checks_that_versions_can_be_read(rt: HostRuntime) -> Result<(), LinkError> {
    for (row, &(fields, answer)) in CHECKED.iter().enumerate() {
        for &kind in KINDS {
            let mut bytes = find_file(kind, &[2, 3]);
            set_fields(&mut bytes, DEFINITIONS, fields, kind.1);
            let file = open(&rt, &bytes);
            let checked = if kind.0 == 1 {
                DynamicObject::<DynEntry32>::read(&file)?.check_versions()
            } else {
                DynamicObject::<DynEntry64>::read(&file)?.check_versions()
            };
            want_at(&rt, (row, kind), checked, answer);
        }
    }
    Ok(())
}
