//! Words of relocations: the values are worked out by hand from the formulas of the processor
//! supplements.

mod aarch64;
mod i386;
mod x86_64;

use crate::tests::relocated_files::file_of;
use crate::tests::rows::open;
use crate::tests::want::want_at;
use crate::tests::words::aarch64::AARCH64;
use crate::tests::words::i386::I386;
use crate::tests::words::x86_64::X86_64;
use elf_linking::DynamicObject;
use elf_linking::scope::Scope;
use elf_linking::view::LinkedSymbol;
use elf_loading::{Binding, LoadError, Origin, Value, Word, Words};
use std::process::Abort;
use xmas_elf::symbol_table::{DynEntry32, DynEntry64};

// The machine, the type, the symbol and the addend of a relocation, and the number of its bytes and
// their value.
pub type Row = (u64, u64, u64, u64, (u64, Value));

pub const MINUS_4: u64 = u64::MAX - 3;

// What the resolver of the indirect function returns.
pub const RESOLVED: Origin = Origin::Call {
    object: Some(0),
    offset: 0x540,
};

// The first word of the second of two objects of one file.
fn first_word<E: LinkedSymbol>(
    rt: &impl Abort,
    bytes: &[u8],
    when: Binding,
) -> Result<Word, LoadError> {
    let file = open(rt, bytes);
    let one = DynamicObject::<E>::read(&file).expect(rt, "an object");
    let two = DynamicObject::<E>::read(&file).expect(rt, "an object");
    let objects = [one, two];
    let mut words = Words::new(Scope::new(&objects), 1, when).expect(rt, "words");
    words.next().expect(rt, "a relocation").word
}

fn word_of(rt: &impl Abort, bytes: &[u8], machine: u64, when: Binding) -> Result<Word, LoadError> {
    if machine == 3 {
        first_word::<DynEntry32>(rt, bytes, when)
    } else {
        first_word::<DynEntry64>(rt, bytes, when)
    }
}

#[test]
fn each_type_writes_its_value(rt: HostRuntime) {
    for rows in [X86_64, I386, AARCH64] {
        for &(machine, kind, symbol, addend, (width, value)) in rows {
            let file = file_of(machine, kind, symbol, addend);
            let word = Word {
                address: 0x1600,
                width,
                value,
            };
            let found = word_of(&rt, &file, machine, Binding::Now);
            want_at(&rt, (kind, symbol, addend), found, Ok(word));
        }
    }
}

// The machine, the type and the symbol of a relocation whose word has an error: symbol 2 is in no
// object, 4 is absolute, and 5 is an indirect function.
const ERRORS: &[(u64, u64, u64, LoadError)] = &[
    (62, 9, 1, LoadError::WordType),
    (183, 256, 0, LoadError::WordType),
    (183, 259, 1, LoadError::WordType),
    (62, 33, 2, LoadError::NoSize),
    (62, 32, 2, LoadError::NoSize),
    (3, 38, 2, LoadError::NoSize),
    (62, 5, 4, LoadError::CopyKind),
    (62, 5, 5, LoadError::CopyKind),
    (3, 5, 4, LoadError::CopyKind),
    (183, 1024, 5, LoadError::CopyKind),
    (62, 37, 1, LoadError::CallSymbol),
    (183, 1032, 2, LoadError::CallSymbol),
];

#[test]
fn words_of_no_value_have_an_error(rt: HostRuntime) {
    for &(machine, kind, symbol, error) in ERRORS {
        let file = file_of(machine, kind, symbol, 0);
        let found = word_of(&rt, &file, machine, Binding::Now);
        want_at(&rt, (kind, symbol), found, Err(error));
    }
}
