//! The dynamic symbols of a file in one value: what `readelf -W -D -s` and `readelf -d` show of
//! small shared objects, and the errors of damaged ones in their order.

use crate::tests::versions::parts;
use crate::tests::want::{open, want, want_at};
use elf_base::ElfError;
use elf_linking::values::value_by_name;
use elf_linking::versions::Versions;
use elf_linking::view::{DynamicView, LinkedSymbol};
use elf_linking::{AnyTable, DynamicObject, LinkError};
use std::process::Abort;
use worked_files::linked::exported::{GNU_NARROW, GNU_WIDE};
use worked_files::linked::small::SMALL;
use worked_files::linked::versions::{NARROW, WIDE};
use worked_files::places::put;
use xmas_elf::symbol_table::{DynEntry32, DynEntry64, Entry};

// The name of each symbol, its values in class 32 and 64, and the name of its version.
const SYMBOLS: &[(u32, &str, u64, u64, Option<&str>)] = &[
    (0, "", 0, 0, None),
    (1, "outer", 0, 0, Some("w1")),
    (2, "V1", 0, 0, Some("V1")),
    (3, "ab", 0x246, 0x2f6, Some("V2")),
    (4, "ab", 0x240, 0x2f0, Some("V1")),
    (5, "call", 0x24c, 0x2fc, Some("V2")),
    (6, "V2", 0, 0, Some("V2")),
];

// The name of the version of a symbol.
fn version_name<'a, E: LinkedSymbol>(
    object: &DynamicObject<'a, E>,
    index: u32,
) -> Result<Option<&'a str>, LinkError> {
    Ok(parts(object.version(index))?.and_then(|(_number, _hidden, name)| name))
}

// The index of the symbol that a look-up comes to.
fn index_of<E: LinkedSymbol>(
    object: &DynamicObject<'_, E>,
    name: &str,
) -> Result<Option<u32>, LinkError> {
    Ok(object.lookup(name, |_| true)?.map(|found| found.0))
}

fn check_symbols<E: LinkedSymbol>(
    rt: &impl Abort,
    object: &DynamicObject<'_, E>,
) -> Result<(), LinkError> {
    want(rt, object.symbol_count(), 7);
    for &(index, name, narrow, wide, version) in SYMBOLS {
        let value = if E::CLASS == 1 { narrow } else { wide };
        want_at(rt, index, object.name(index), Ok(name));
        let found = object.symbol(index).map(|symbol| symbol.value());
        want_at(rt, index, found, Some(value));
        want_at(rt, index, version_name(object, index), Ok(version));
    }
    Ok(())
}

const INDICES: &[(&str, Option<u32>)] = &[("ab", Some(3)), ("call", Some(5)), ("outer", None)];

// Wants these indices of names, and no symbol past the last.
fn check_indices<E: LinkedSymbol>(rt: &impl Abort, object: &DynamicObject<'_, E>) {
    want(rt, object.name(7), Err(LinkError::SymbolIndex));
    want(rt, object.symbol(7).is_none(), true);
    want(rt, version_name(object, 7), Err(LinkError::SymbolIndex));
    for &(name, index) in INDICES {
        want_at(rt, name, index_of(object, name), Ok(index));
    }
}

#[test]
fn answers_about_each_symbol(rt: HostRuntime) -> Result<(), LinkError> {
    let (narrow, wide) = (open(&rt, NARROW), open(&rt, WIDE));
    let narrow = DynamicObject::<DynEntry32>::read(&narrow)?;
    let wide = DynamicObject::<DynEntry64>::read(&wide)?;
    check_symbols(&rt, &narrow)?;
    check_symbols(&rt, &wide)?;
    check_indices(&rt, &narrow);
    check_indices(&rt, &wide);
    want(&rt, narrow.newest_value("ab"), Ok(Some(0x246)));
    want(&rt, wide.newest_value("ab"), Ok(Some(0x2f6)));
    want(&rt, wide.newest_value("outer"), Ok(None));
    Ok(())
}

#[test]
fn finds_a_value_in_a_file_without_versions(rt: HostRuntime) -> Result<(), LinkError> {
    let file = open(&rt, SMALL);
    let object = DynamicObject::<DynEntry64>::read(&file)?;
    let found = object.defined_symbol("ef")?;
    want(&rt, found.map(|(_, symbol)| symbol.value()), Some(0x23a));
    want(&rt, version_name(&object, 1), Ok(None));
    Ok(())
}

// Wants of each part what the calls of the dynamic segment return, also past the last symbol: each
// of these files has nine at most.
fn check_parts<E: LinkedSymbol>(rt: &impl Abort, bytes: &[u8]) -> Result<(), LinkError> {
    let file = open(rt, bytes);
    let object = DynamicObject::<E>::read(&file)?;
    let view = DynamicView::read(&file)?;
    let symbols = view.symbols::<E>(&file)?;
    let versions = Versions::read(&view, &file, symbols.len() as u64)?;
    let table = AnyTable::read(&view, &file)?;
    want(rt, object.check(), table.check(&symbols));
    want(rt, object.symbols().len(), symbols.len());
    want(rt, object.view().soname(), view.soname());
    want(rt, object.view().needed().next(), view.needed().next());
    for index in 0..10 {
        let name = symbols.name(index as usize);
        let name = name.ok_or(LinkError::SymbolIndex);
        let name = name.and_then(|name| name.map_err(LinkError::Elf));
        want_at(rt, index, object.name(index), name);
        let version = parts(versions.version_of(index));
        let found = parts(object.versions().version_of(index));
        want_at(rt, index, found, version);
        let value = object.symbol(index).map(|symbol| symbol.value());
        let found = symbols.get(index as usize).map(|symbol| symbol.value());
        want_at(rt, index, value, found);
    }
    Ok(())
}

#[test]
fn has_the_parts_of_the_dynamic_segment(rt: HostRuntime) -> Result<(), LinkError> {
    check_parts::<DynEntry32>(&rt, NARROW)?;
    check_parts::<DynEntry32>(&rt, GNU_NARROW)?;
    check_parts::<DynEntry64>(&rt, WIDE)?;
    check_parts::<DynEntry64>(&rt, GNU_WIDE)?;
    check_parts::<DynEntry64>(&rt, SMALL)
}

// The error of a file, by the class that it is read as.
fn failure(rt: &impl Abort, bytes: &[u8], class: u8) -> Option<LinkError> {
    let file = open(rt, bytes);
    if class == 1 {
        DynamicObject::<DynEntry32>::read(&file).err()
    } else {
        DynamicObject::<DynEntry64>::read(&file).err()
    }
}

// A place in a file, and the byte there.
type Change = (usize, u8);

// Changes of the file of class 64 with versions, the class that it is read as, and the failure. Its
// program headers begin at 0x40, its dynamic entries at 0x310.
const FAILURES: &[(&[Change], u8, Option<LinkError>)] = &[
    (&[], 2, None),
    // p_type of the dynamic segment
    (&[(0xb0, 4)], 2, Some(LinkError::NoDynamic)),
    (&[(0xb0, 4)], 1, Some(LinkError::NoDynamic)),
    // d_tag and d_un of the entry GnuHash
    (&[(0x330, 0)], 1, Some(LinkError::NoEntry)),
    (&[(0x339, 0xff)], 1, Some(LinkError::Address)),
    // the class, before the address in the entry SymTab
    (&[], 1, Some(LinkError::UnknownClass)),
    (&[(0x359, 0xff)], 1, Some(LinkError::UnknownClass)),
    // d_un of the entry SymTab, before d_tag of StrTab
    (&[(0x359, 0xff)], 2, Some(LinkError::Address)),
    (&[(0x359, 0xff), (0x340, 0x15)], 2, Some(LinkError::Address)),
    (&[(0x350, 0x15)], 2, Some(LinkError::NoEntry)),
    // d_tag of the entry StrTab, and d_un of StrSize before d_tag of VerDefNum
    (&[(0x340, 0x15)], 2, Some(LinkError::NoEntry)),
    (&[(0x369, 0xff)], 2, Some(LinkError::Address)),
    (&[(0x369, 0xff), (0x3d0, 0)], 2, Some(LinkError::Address)),
    // d_tag of the entries VerDefNum and VerNeedNum, which only the check of the versions reads
    (&[(0x3d0, 0)], 2, None),
    (&[(0x3f0, 0)], 2, None),
    // d_un of VerDef and VerSym: past the end, and where the numbers of symbols are cut off
    (&[(0x3c9, 0xff)], 2, Some(LinkError::Address)),
    (&[(0x408, 0xfb), (0x409, 2)], 2, Some(LinkError::Address)),
    (&[(0x408, 0xfa), (0x409, 2)], 2, None),
];

#[test]
fn rejects_with_the_first_error(rt: HostRuntime) {
    for (row, &(changes, class, error)) in FAILURES.iter().enumerate() {
        let mut bytes = *WIDE;
        for &(place, byte) in changes {
            put(&mut bytes, place, &[byte]);
        }
        want_at(&rt, row, failure(&rt, &bytes, class), error);
        if class == 2 && error.is_some() {
            want_at(&rt, row, value_by_name(&bytes, "ab").err(), error);
        }
    }
}

// With tables of both kinds GNU's has an error before the symbols are, which are counted by the other.
#[test]
fn rejects_the_hash_table_before_the_symbols(rt: HostRuntime) {
    let mut bytes = *SMALL;
    put(&mut bytes, 0x2f0, &[0xf5, 0xfe, 0xff, 0x6f]);
    want(&rt, failure(&rt, &bytes, 2), Some(LinkError::BloomCount));
    put(&mut bytes, 0x2a0, &[0x15]);
    want(&rt, failure(&rt, &bytes, 2), Some(LinkError::BloomCount));
    let mut bytes = *SMALL;
    put(&mut bytes, 0x2a0, &[0x15]);
    want(&rt, failure(&rt, &bytes, 2), Some(LinkError::NoEntry));
}

// A name that begins past the end of the string table: its size is in the entry StrSize.
#[test]
fn tells_why_a_symbol_has_no_name(rt: HostRuntime) -> Result<(), LinkError> {
    let mut bytes = *WIDE;
    put(&mut bytes, 0x368, &[1]);
    let file = open(&rt, &bytes);
    let object = DynamicObject::<DynEntry64>::read(&file)?;
    want(&rt, object.name(0), Ok(""));
    let past = Err(LinkError::Elf(ElfError::TextStart));
    want(&rt, object.name(3), past);
    Ok(())
}

// The names of symbol 1 and of the needed library each with a byte that is not UTF-8.
#[test]
fn names_need_not_be_utf8(rt: HostRuntime) -> Result<(), LinkError> {
    let mut bytes = *SMALL;
    put(&mut bytes, 450, b"\xff");
    put(&mut bytes, 464, b"\xff");
    let file = open(&rt, &bytes);
    let object = DynamicObject::<DynEntry64>::read(&file)?;
    check_names_of_bytes(&rt, &object);
    check_libraries_of_bytes(&rt, &object.view());
    Ok(())
}

const NOT_UTF8: LinkError = LinkError::Elf(ElfError::TextUtf8);

fn check_names_of_bytes(rt: &impl Abort, object: &DynamicObject<'_, DynEntry64>) {
    want(rt, object.name(1), Err(NOT_UTF8));
    want(rt, object.name_bytes(1), Ok(b"a\xff".as_slice()));
    want(rt, object.name_bytes(5), Err(LinkError::SymbolIndex));
}

fn check_libraries_of_bytes(rt: &impl Abort, view: &DynamicView<'_>) {
    want(rt, view.needed().next(), Some(Err(NOT_UTF8)));
    let mut needed = view.needed_bytes();
    want(rt, needed.next(), Some(Ok(b"\xffibneed.so".as_slice())));
    want(rt, needed.next(), None);
}
