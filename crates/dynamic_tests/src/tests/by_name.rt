//! Which symbols a value by its name is taken from, and the error of a defined symbol in a damaged
//! hash table. The numbers are those of gABI, "Symbol Table" and "Hash Table".

use crate::tests::want::{open, want, want_at};
use elf_base::ElfError;
use elf_linking::values::value_by_name;
use elf_linking::{DynamicObject, LinkError};
use worked_files::linked::small::SMALL;
use worked_files::linked::versions::WIDE;
use worked_files::places::put;
use worked_files::rows;
use xmas_elf::symbol_table::{DynEntry64, Entry};

// st_info and st_other of the symbol `ab`, and the value of its name.
const ROWS: &[(u8, u8, Option<u64>)] = rows! {
    // Bindings: global, weak, unique, local, 3, and one of the processor.
    0x12, 0, Some(0x230); 0x22, 0, Some(0x230); 0xa2, 0, Some(0x230); 0x02, 0, None; 0x32, 0, None;
    0xd2, 0, None;
    // Visibilities: internal, hidden, protected, and the default and protected with other bits.
    0x12, 1, None; 0x12, 2, None; 0x12, 3, Some(0x230); 0x12, 4, Some(0x230);
    0x12, 0x63, Some(0x230); 0x02, 3, None;
};

#[test]
fn finds_only_what_serves_other_files(rt: HostRuntime) {
    for (row, &(info, other, value)) in ROWS.iter().enumerate() {
        let mut bytes = *SMALL;
        put(&mut bytes, 0x164, &[info, other]);
        want_at(&rt, row, value_by_name(&bytes, "ab"), Ok(value));
    }
}

// The default version of `ab` is hidden by its visibility: the older version isn't found instead.
#[test]
fn tries_no_other_version(rt: HostRuntime) {
    let mut bytes = *WIDE;
    want(&rt, value_by_name(&bytes, "ab"), Ok(Some(0x2f6)));
    put(&mut bytes, 0x1a5, &[2]);
    want(&rt, value_by_name(&bytes, "ab"), Ok(None));
}

// The first bucket leads to no symbol, which is found whichever the name is.
#[test]
fn rejects_a_defined_symbol_as_the_check_does(rt: HostRuntime) -> Result<(), LinkError> {
    let file = open(&rt, SMALL);
    let object = DynamicObject::<DynEntry64>::read(&file)?;
    let found = object
        .defined_symbol("ab")?
        .map(|(index, symbol)| (index, symbol.value()));
    want(&rt, found, Some((1, 0x230)));
    let mut bytes = *SMALL;
    put(&mut bytes, 0x128, &[5]);
    let damaged = open(&rt, &bytes);
    let object = DynamicObject::<DynEntry64>::read(&damaged)?;
    for name in ["ab", "ef", "cd", "zz"] {
        let error = object.defined_symbol(name).err();
        want_at(&rt, name, error, Some(LinkError::Elf(ElfError::ChainIndex)));
    }
    Ok(())
}
