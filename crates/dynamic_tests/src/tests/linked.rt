//! Names by the dynamic segment alone, in files without section headers: how many symbols
//! there are, what they are called, and their values, as `readelf -dW` and
//! `readelf --dyn-syms -W` show them.

use crate::tests::shared_object::{NAMES, NARROW_VALUES, WIDE_VALUES};
use crate::tests::want::{open, want, want_at};
use elf_base::ElfError;
use elf_base::bytes::{Order, Record, text_at};
use elf_base::header::Class;
use elf_linking::gnu_hash::GnuHashTable;
use elf_linking::values::value_by_name;
use elf_linking::view::{DynamicView, bytes_at, bytes_from};
use elf_linking::{DynamicObject, LinkError};
use std::process::Abort;
use std::test::Fail;
use worked_files::linked::exported::{GNU_NARROW as NARROW, GNU_WIDE as WIDE};
use worked_files::linked::small::SMALL;
use worked_files::places::{WORD, put, set};
use worked_files::rows;
use xmas_elf::symbol_table::{DynEntry32, DynEntry64, Entry, SymbolTable};

const LITTLE: Order = Order::Little;

// The same files without section headers: e_shoff, and e_shnum with e_shstrndx, are 0.
fn narrow_stripped() -> [u8; 1332] {
    let mut bytes = *NARROW;
    put(&mut bytes, 32, &[0; 4]);
    put(&mut bytes, 48, &[0; 4]);
    bytes
}

fn wide_stripped() -> [u8; 1928] {
    let mut bytes = *WIDE;
    put(&mut bytes, 40, &[0; 8]);
    put(&mut bytes, 60, &[0; 4]);
    bytes
}

// Whether a symbol of a table has this name, by the table and in these strings, and this value.
fn is_symbol<E: Entry + Record>(
    symbols: &SymbolTable<'_, E>,
    symbol: &E,
    strings: &[u8],
    name: &str,
    value: u64,
) -> bool {
    symbol.value() == value
        && matches!(symbols.name_of(symbol), Ok(text) if text == name)
        && matches!(text_at(strings, symbol.name() as usize), Ok(text) if text == name)
}

// Wants these names and values of symbols, from index 2 on.
fn check_symbols<E: Entry + Record>(
    rt: &impl Abort,
    symbols: &SymbolTable<'_, E>,
    strings: &[u8],
    values: [u64; 7],
) {
    want(rt, symbols.len(), 9);
    for (index, (name, value)) in NAMES.iter().zip(values).enumerate() {
        let is_there = match symbols.get(index.wrapping_add(2)) {
            Some(symbol) => is_symbol(symbols, &symbol, strings, name, value),
            None => false,
        };
        want_at(rt, name, is_there, true);
    }
}

#[test]
fn reads_narrow_symbols_without_section_headers(rt: HostRuntime) -> Result<(), LinkError> {
    let bytes = narrow_stripped();
    let file = open(&rt, &bytes);
    want(&rt, file.section_count(), 0);
    let view = DynamicView::read(&file)?;
    want(&rt, view.symbol_count(&file), Ok(9));
    let symbols = view.symbols::<DynEntry32>(&file)?;
    check_symbols(&rt, &symbols, view.strings()?, NARROW_VALUES);
    let table = view.gnu_hash_table(&file)?;
    want(&rt, table.first_symbol(), 2);
    want(&rt, table.check_in(&symbols), Ok(()));
    want(&rt, view.hash_table(&file).is_err(), true);
    Ok(())
}

#[test]
fn reads_wide_symbols_without_section_headers(rt: HostRuntime) -> Result<(), LinkError> {
    let bytes = wide_stripped();
    let file = open(&rt, &bytes);
    let view = DynamicView::read(&file)?;
    let symbols = view.symbols::<DynEntry64>(&file)?;
    check_symbols(&rt, &symbols, view.strings()?, WIDE_VALUES);
    want(&rt, view.soname().is_none(), true);
    want(&rt, view.needed().next().is_none(), true);
    Ok(())
}

// Without section headers there is no `.dynstr`.
#[test]
fn names_by_section_headers_are_not_those_of_the_segment(rt: HostRuntime) -> Result<(), LinkError> {
    let bytes = wide_stripped();
    let file = open(&rt, &bytes);
    let symbols = DynamicView::read(&file)?.symbols::<DynEntry64>(&file)?;
    let in_file = SymbolTable::new(symbols.table(), &file);
    want(&rt, in_file.len(), 9);
    want(&rt, in_file.name(2), Some(Err(ElfError::NoDynstr)));
    want(&rt, symbols.name(2), Some(Ok("third")));
    Ok(())
}

// The index of a symbol, and its name where `.dynstr` begins one byte late.
const CUT_NAMES: &[(usize, &str)] = &[(2, "hird"), (6, "irst"), (8, "eventh")];

// sh_offset of `.dynstr` is changed, and no dynamic entry.
#[test]
fn names_symbols_by_the_dynamic_segment(rt: HostRuntime) -> Result<(), LinkError> {
    let mut bytes = *WIDE;
    put(&mut bytes, 0x520, &[0x39]);
    let file = open(&rt, &bytes);
    let view = DynamicView::read(&file)?;
    let symbols = view.symbols::<DynEntry64>(&file)?;
    check_symbols(&rt, &symbols, view.strings()?, WIDE_VALUES);
    let in_file = SymbolTable::new(symbols.table(), &file);
    let object = DynamicObject::<DynEntry64>::read(&file)?.symbols();
    for &(index, name) in CUT_NAMES {
        want_at(&rt, index, in_file.name(index), Some(Ok(name)));
        want_at(&rt, index, object.name(index), symbols.name(index));
    }
    check_values(&rt, &bytes, WIDE_VALUES);
    Ok(())
}

// Changes of the file of class 64 with a table of the standard, whose dynamic entries begin at
// 0x250; then why it has no symbols without names, and why none with them.
type SymbolError<'a> = (&'a [(usize, u8)], Option<LinkError>, Option<LinkError>);

const NO_ENTRY: Option<LinkError> = Some(LinkError::NoEntry);

const ADDRESS: Option<LinkError> = Some(LinkError::Address);

const SYMBOL_FAILURES: &[SymbolError<'static>] = &[
    (&[], None, None),
    // d_tag and d_un of the entry SymTab
    (&[(0x2a0, 0x15)], NO_ENTRY, NO_ENTRY),
    (&[(0x2a9, 0xff)], ADDRESS, ADDRESS),
    // d_tag of the entry StrTab, and d_un of StrSize
    (&[(0x290, 0x15)], None, NO_ENTRY),
    (&[(0x2b9, 0xff)], None, ADDRESS),
    // the symbols before the strings
    (&[(0x2a0, 0x15), (0x2b9, 0xff)], NO_ENTRY, NO_ENTRY),
    (&[(0x2a9, 0xff), (0x290, 0x15)], ADDRESS, ADDRESS),
    // d_tag and d_un of the entry Hash before the symbols
    (&[(0x280, 0x15), (0x2a9, 0xff)], NO_ENTRY, NO_ENTRY),
    (&[(0x289, 0xff), (0x2a0, 0x15)], ADDRESS, ADDRESS),
];

#[test]
fn tells_why_there_are_no_symbols(rt: HostRuntime) -> Result<(), LinkError> {
    for (row, &(changes, nameless, named)) in SYMBOL_FAILURES.iter().enumerate() {
        let mut bytes = *SMALL;
        for &(place, byte) in changes {
            put(&mut bytes, place, &[byte]);
        }
        let file = open(&rt, &bytes);
        let view = DynamicView::read(&file)?;
        let failed = view.records::<DynEntry64>(&file).err();
        want_at(&rt, row, failed, nameless);
        let failed = view.symbols::<DynEntry64>(&file).err();
        want_at(&rt, row, failed, named);
    }
    Ok(())
}

#[test]
fn reads_the_entries_of_a_dynamic_segment(rt: HostRuntime) -> Result<(), LinkError> {
    let file = open(&rt, SMALL);
    let view = DynamicView::read(&file)?;
    let mut entries: u32 = 0;
    for _entry in view.entries() {
        entries = entries.wrapping_add(1);
    }
    want(&rt, entries, 12);
    want(&rt, view.entry(10), Some(48));
    let mut needed = view.needed();
    let paths = (view.soname(), view.run_path(), view.r_path());
    let wanted = (Some(Ok("libsmall.so")), Some(Ok("/opt/lib")), None);
    want(&rt, paths, wanted);
    let libraries = (needed.next(), needed.next());
    want(&rt, libraries, (Some(Ok("libneed.so")), None));
    Ok(())
}

#[test]
fn reads_a_table_of_the_standard(rt: HostRuntime) -> Result<(), LinkError> {
    let file = open(&rt, SMALL);
    let view = DynamicView::read(&file)?;
    want(&rt, view.symbol_count(&file), Ok(5));
    let symbols = view.symbols::<DynEntry64>(&file)?;
    want(&rt, view.records::<DynEntry64>(&file)?.len(), 5);
    let table = view.hash_table(&file)?;
    want(&rt, table.chain_count(), 5);
    want(&rt, table.check_in(&symbols), Ok(()));
    let failed = view.gnu_hash_table(&file).err();
    want(&rt, failed, Some(LinkError::NoEntry));
    Ok(())
}

#[test]
fn reads_bytes_of_loaded_segments(rt: HostRuntime) {
    let file = open(&rt, SMALL);
    want(&rt, bytes_at(&file, 0x1c1, 2), Ok(b"ab".as_slice()));
    want(&rt, bytes_from(&file, 0x245).map(|rest| rest.len()), Ok(3));
    want(&rt, bytes_from(&file, 0x248), Err(LinkError::Address));
}

// Wants these values of the exported names, and of no others.
fn check_values(rt: &impl Abort, input: &[u8], values: [u64; 7]) {
    for (name, value) in NAMES.iter().zip(values) {
        want_at(rt, name, value_by_name(input, name), Ok(Some(value)));
    }
    for name in ["outer", "inner", "", "firs"] {
        want_at(rt, name, value_by_name(input, name), Ok(None));
    }
}

#[test]
fn finds_values_by_names(rt: HostRuntime) {
    check_values(&rt, NARROW, NARROW_VALUES);
    check_values(&rt, &narrow_stripped(), NARROW_VALUES);
    check_values(&rt, WIDE, WIDE_VALUES);
    check_values(&rt, &wide_stripped(), WIDE_VALUES);
}

const SMALL_VALUES: &[(&str, Option<u64>)] = rows! {
    "ab", Some(0x230); "ef", Some(0x23a); "cd", Some(0x240); "outer", None; "a", None;
};

#[test]
fn finds_values_by_a_table_of_the_standard(rt: HostRuntime) {
    for &(name, value) in SMALL_VALUES {
        want_at(&rt, name, value_by_name(SMALL, name), Ok(value));
    }
}

const FAILURES: &[(usize, u8, LinkError)] = &[
    (0, 0, LinkError::Elf(ElfError::NoMagic)),
    // p_type of the dynamic segment, then of the first that is loaded
    (64 + 112, 4, LinkError::NoDynamic),
    (64, 4, LinkError::Address),
    // d_tag of the entries Hash and SymTab
    (0x250 + 48, 3, LinkError::NoEntry),
    (0x250 + 80, 3, LinkError::NoEntry),
    // nbucket and nchain of the hash table
    (0x120, 0xff, LinkError::Elf(ElfError::HashData)),
    (0x124, 0xff, LinkError::Address),
    // the first bucket leads to no symbol
    (0x128, 5, LinkError::Elf(ElfError::ChainIndex)),
];

// Each failure: the place of a byte in the file of class 64 with a table of the standard, what is
// put there, and what is answered then.
#[test]
fn tells_why_no_value_is_found(rt: HostRuntime) {
    for &(place, byte, error) in FAILURES {
        let mut bytes = *SMALL;
        put(&mut bytes, place, &[byte]);
        want_at(&rt, place, value_by_name(&bytes, "ab"), Err(error));
    }
}

const RUNS: &[(u64, u64, [u64; 5], Result<u64, LinkError>)] = &[
    (0, 7, [9; 5], Ok(7)),
    (2, 7, [0, 0, 9, 9, 9], Ok(7)),
    (1, 7, [7, 9, 9, 9, 9], Ok(8)),
    (1, 7, [7, 8, 8, 9, 9], Ok(10)),
    (2, 7, [9, 7, 9, 8, 9], Ok(10)),
    (2, 7, [9, 7, 8, 8, 8], Err(LinkError::ChainData)),
    (2, 7, [10, 7, 9, 9, 9], Err(LinkError::ChainData)),
    (2, 7, [6, 0, 9, 9, 9], Err(LinkError::ChainIndex)),
    (2, 7, [6, 7, 9, 9, 9], Ok(8)),
];

// The words of a table of class 32 with one Bloom word: its buckets, its first symbol, and all
// words behind the Bloom word, with the count that they give.
#[test]
fn counts_symbols_by_runs(rt: HostRuntime) -> Result<(), Fail> {
    for (number, (buckets, first, words, count)) in RUNS.iter().enumerate() {
        let mut bytes = [0; 40];
        set(&mut bytes, 0, WORD, *buckets, LITTLE);
        set(&mut bytes, 4, WORD, *first, LITTLE);
        set(&mut bytes, 8, WORD, 1, LITTLE);
        let mut place: usize = 20;
        for word in words {
            set(&mut bytes, place, WORD, *word, LITTLE);
            place = place.wrapping_add(4);
        }
        let table = GnuHashTable::read(&bytes, Class::ThirtyTwo, LITTLE)?;
        want_at(&rt, number, table.symbol_count(), *count);
    }
    Ok(())
}
