//! Small GNU hash tables, word by word.

use crate::tests::want::{open, want, want_at};
use elf_base::bytes::{Order, Table};
use elf_base::header::Class;
use elf_linking::LinkError;
use elf_linking::gnu_hash::{GnuHashTable, gnu_hash};
use std::process::Abort;
use std::test::Fail;
use worked_files::files::{put_symbol, strtab_file};
use worked_files::places::{Place, WORD, set};
use worked_files::rows;
use xmas_elf::ElfFile;
use xmas_elf::symbol_table::{Entry32, SymbolTable};

const LITTLE: Order = Order::Little;

const HASHES: &[(&str, u32)] = rows! {
    "", 0x1505; "printf", 0x156b_2bb8; "exit", 0x7c96_7e3f; "syscall", 0xbac2_12a0;
    "ab", 0x0059_7728; ".strtab", 0xed6b_6063; "zz", 0x0059_7a79;
};

#[test]
fn hashes_names(rt: HostRuntime) {
    for &(name, number) in HASHES {
        want_at(&rt, name, gnu_hash(name), number);
    }
}

const NARROW: Class = Class::ThirtyTwo;

const WIDE: Class = Class::SixtyFour;

const ALL: u64 = u64::MAX;

// The words of a table: the four at its begin, the Bloom words, and the buckets and chain words.
type Words<'a> = ([u32; 4], &'a [u64], &'a [u32]);

// The bytes of such a table, which are 64 at most, and how many they are.
fn table_bytes((start, bloom, rest): Words<'_>, class: Class, order: Order) -> ([u8; 64], usize) {
    let size: usize = if class == NARROW { 4 } else { 8 };
    let mut bytes = [0; 64];
    let mut len: usize = 0;
    for word in start {
        set(&mut bytes, len, WORD, u64::from(word), order);
        len = len.wrapping_add(4);
    }
    for word in bloom {
        set(&mut bytes, len, Place(0, size), *word, order);
        len = len.wrapping_add(size);
    }
    for word in rest {
        set(&mut bytes, len, WORD, u64::from(*word), order);
        len = len.wrapping_add(4);
    }
    (bytes, len.min(64))
}

const AB: u32 = 0x0059_7728;

const START: [u32; 4] = [1, 1, 1, 6];

const LAST: &[u32] = &[1, AB + 1];

const ONE_SYMBOL: Words<'static> = (START, &[ALL], LAST);

const READ: &[(Words<'_>, Option<LinkError>)] = rows! {
    ([1, 1, 3, 6], &[ALL, ALL, ALL], &[1]), Some(LinkError::BloomCount);
    ([1, 1, 0, 6], &[], &[1]), Some(LinkError::BloomCount);
    ([u32::MAX, 1, 1, 6], &[ALL], &[]), Some(LinkError::ShortTable);
    ([0, 1, 0x8000_0000, 6], &[ALL], &[]), Some(LinkError::ShortTable);
    (START, &[ALL], &[]), Some(LinkError::ShortTable);
    (START, &[ALL], &[1]), None;
    ([1, 1, 2, 6], &[ALL, ALL], &[1]), None;
    ONE_SYMBOL, None;
};

#[test]
fn reads_tables(rt: HostRuntime) {
    for (number, &(words, error)) in READ.iter().enumerate() {
        let (bytes, len) = table_bytes(words, WIDE, LITTLE);
        let bytes = bytes.get(..len).unwrap_or(&[]);
        let found = GnuHashTable::read(bytes, WIDE, LITTLE).err();
        want_at(&rt, number, found, error);
    }
}

#[test]
fn reads_tables_that_are_cut(rt: HostRuntime) {
    let (bytes, len) = table_bytes(ONE_SYMBOL, WIDE, LITTLE);
    for short in 0..len {
        let bytes = bytes.get(..short).unwrap_or(&[]);
        let found = GnuHashTable::read(bytes, WIDE, LITTLE).err();
        let error = (short < 28).then_some(LinkError::ShortTable);
        want_at(&rt, short, found, error);
        for class in [Class::None, Class::Other(3)] {
            let found = GnuHashTable::read(bytes, class, LITTLE).err();
            want_at(&rt, short, found, Some(LinkError::UnknownClass));
        }
    }
}

const WORDS: Words<'static> = ([3, 2, 2, 6], &[0x1122_3344, 0x5566_7788], &[4, 5, 6, 7, 8]);

const NO_BUCKET: LinkError = LinkError::BucketIndex;

// Wants these words of the table of `WORDS`.
fn check_words(rt: &impl Abort, table: &GnuHashTable<'_>) {
    let found = [table.bucket_count(), table.first_symbol()];
    want(rt, found, [3, 2]);
    let found = [table.bloom_count(), table.bloom_shift()];
    want(rt, found, [2, 6]);
    let found = [table.get_bloom(0), table.get_bloom(1), table.get_bloom(2)];
    let wanted = [Ok(0x1122_3344), Ok(0x5566_7788), Err(NO_BUCKET)];
    want(rt, found, wanted);
    let found = [0, 2, 3].map(|index| table.get_bucket(index));
    want(rt, found, [Ok(4), Ok(6), Err(NO_BUCKET)]);
}

// By the index of the symbol.
const CHAIN: &[(u32, Result<u32, LinkError>)] = rows! {
    0, Err(LinkError::ChainIndex); 1, Err(LinkError::ChainIndex); 2, Ok(7); 3, Ok(8);
    4, Err(LinkError::ChainData); u32::MAX, Err(LinkError::ChainData);
};

fn check_class(rt: &impl Abort, class: Class, order: Order) -> Result<(), LinkError> {
    let (bytes, len) = table_bytes(WORDS, class, order);
    let bytes = bytes.get(..len).unwrap_or(&[]);
    let table = GnuHashTable::read(bytes, class, order)?;
    check_words(rt, &table);
    for &(index, word) in CHAIN {
        want_at(rt, index, table.get_chain(index), word);
    }
    Ok(())
}

#[test]
fn gets_words(rt: HostRuntime) -> Result<(), LinkError> {
    for class in [NARROW, WIDE] {
        check_class(&rt, class, Order::Little)?;
        check_class(&rt, class, Order::Big)?;
    }
    Ok(())
}

// Symbols of class 32 by their names and their sections; those with a name are global functions.
fn symbol_bytes(symbols: &[(u64, u64)]) -> ([u8; 64], usize) {
    let mut bytes = [0; 64];
    for (k, &(name, shndx)) in symbols.iter().enumerate() {
        let info = if name == 0 { 0 } else { 0x12 };
        let numbers = [name, info, shndx, 0, 0];
        put_symbol(&mut bytes, 1, k.wrapping_mul(16), numbers, LITTLE);
    }
    (bytes, symbols.len().min(4) * 16)
}

// A name that is looked up, whether the test passes, the index that is found or the error, and how
// many chain words the look-up reads.
type Answer<'a> = (&'a str, bool, Result<Option<u32>, LinkError>, u32);

// The words of a table, its symbols, what look-ups return, and what the check returns.
type Row<'a> = (
    Words<'a>,
    &'a [(u64, u64)],
    &'a [Answer<'a>],
    Result<(), LinkError>,
);

// Wants these results of both look-ups.
fn check_answers<'a>(
    rt: &impl Abort,
    number: usize,
    answers: &[Answer<'_>],
    table: &GnuHashTable<'_>,
    symbols: &Table<'a, Entry32>,
    file: &ElfFile<'a>,
) {
    for &(name, passes, wanted, read) in answers {
        let named = SymbolTable::new(*symbols, file);
        let (found, count) = table.lookup_counted_in(name, &named, |_| passes);
        let index = found.map(|found| found.map(|symbol| symbol.0));
        want_at(rt, (number, name), (index, count), (wanted, read));
        let found = table.lookup(name, symbols, file, |_| passes);
        let index = found.map(|found| found.map(|symbol| symbol.0));
        want_at(rt, (number, name), index, wanted);
    }
}

fn check_row(rt: &impl Abort, number: usize, class: Class, row: Row<'_>) -> Result<(), Fail> {
    let (words, symbols, answers, check) = row;
    let file = strtab_file(LITTLE);
    let file = open(rt, &file);
    let (words, len) = table_bytes(words, class, LITTLE);
    let table = GnuHashTable::read(&words[..len.min(64)], class, LITTLE)?;
    let (entries, len) = symbol_bytes(symbols);
    let symbols = Table::<Entry32>::new(&entries[..len.min(64)], LITTLE)?;
    check_answers(rt, number, answers, &table, &symbols, &file);
    want_at(rt, number, table.check(&symbols, &file), check);
    Ok(())
}

const STRTAB: u32 = 0xed6b_6063;

// Symbol 0, and in section 1 `ab`, `.strtab` behind it, `ab` again; and an undefined `ab`.
const ONE: &[(u64, u64)] = &[(0, 0), (9, 1)];

const TWO: &[(u64, u64)] = &[(0, 0), (9, 1), (1, 1)];

const TWICE: &[(u64, u64)] = &[(0, 0), (9, 1), (9, 1)];

const UNDEFINED: &[(u64, u64)] = &[(0, 0), (9, 0)];

const MISSING: Result<(), LinkError> = Err(LinkError::Missing);

const PAST: LinkError = LinkError::SymbolIndex;

const DATA: LinkError = LinkError::ChainData;

const FOUND: Answer<'static> = ("ab", true, Ok(Some(1)), 1);

const NOT_FOUND: Answer<'static> = ("ab", true, Ok(None), 0);

const BOTH: &[Answer<'static>] = &[FOUND, (".strtab", true, Ok(Some(2)), 2)];

const NONE: &[Answer<'static>] = rows! {
    "ab", true, Ok(None), 0; "", true, Ok(None), 0; ".strtab", true, Ok(None), 0;
};

const ROWS: &[Row<'_>] = rows! {
    // one symbol
    (START, &[0x100_1000_0000], LAST), ONE, &[FOUND, ("zz", true, Ok(None), 0)], Ok(());
    (START, &[ALL], LAST), ONE, &[FOUND, ("zz", true, Ok(None), 1)], Ok(());
    (START, &[0x1000_0000], LAST), ONE, &[NOT_FOUND], MISSING;
    (START, &[0x100_0000_0000], LAST), ONE, &[NOT_FOUND], MISSING;
    (START, &[ALL], &[1, AB]), ONE, &[FOUND, ("ab", false, Err(PAST), 1)], Err(PAST);
    (START, &[ALL], &[1, AB]), TWICE, &[FOUND, ("ab", false, Err(DATA), 1)], Err(DATA);
    ([1, 1, 1, 32], &[ALL], LAST), ONE, &[FOUND], Ok(());
    ([1, 1, 1, u32::MAX], &[ALL], LAST), ONE, &[FOUND], Ok(());
    // the second bit is bit 0
    ([1, 1, 1, 32], &[0x100_0000_0001], LAST), ONE, &[FOUND], Ok(());
    ([1, 1, 1, u32::MAX], &[0x100_0000_0000], LAST), ONE, &[NOT_FOUND], MISSING;
    // two symbols
    (START, &[ALL], &[1, AB, STRTAB]), TWO, BOTH, Ok(());
    (START, &[ALL], &[2, AB, STRTAB]), TWO, &[("ab", true, Ok(None), 1)], MISSING;
    (START, &[ALL], &[0, AB, STRTAB]), TWO, &[NOT_FOUND, (".strtab", true, Ok(None), 0)], MISSING;
    ([1, 2, 1, 6], &[ALL], &[1, STRTAB]), TWO, &[("ab", true, Err(LinkError::ChainIndex), 0)],
        Err(LinkError::ChainIndex);
    ([1, 2, 1, 6], &[ALL], &[2, STRTAB]), TWO, &[(".strtab", true, Ok(Some(2)), 1)], Ok(());
    ([2, 1, 1, 6], &[ALL], &[1, 2, AB + 1, STRTAB]), TWO,
        &[FOUND, (".strtab", true, Ok(Some(2)), 1)], Ok(());
    ([2, 1, 1, 6], &[ALL], &[2, 1, AB + 1, STRTAB]), TWO,
        &[("ab", true, Ok(None), 1), (".strtab", true, Ok(None), 1)], MISSING;
    ([2, 1, 1, 6], &[ALL], &[1, 1, AB, STRTAB]), TWO, BOTH, Ok(());
    // no symbols
    ([0, 1, 1, 6], &[ALL], &[]), &[(0, 0)], NONE, Ok(());
    ([1, 1, 1, 0], &[0], &[0]), UNDEFINED, NONE, Ok(());
    ([1, 1, 1, 0], &[0], &[0]), ONE, NONE, MISSING;
};

const NARROW_ROWS: &[Row<'_>] = rows! {
    ([1, 1, 1, 5], &[0x200_0100], LAST), ONE, &[FOUND, ("zz", true, Ok(None), 0)], Ok(());
};

#[test]
fn finds_symbols_and_checks_tables(rt: HostRuntime) -> Result<(), Fail> {
    for (class, rows) in [(WIDE, ROWS), (NARROW, NARROW_ROWS)] {
        for (number, &row) in rows.iter().enumerate() {
            check_row(&rt, number, class, row)?;
        }
    }
    Ok(())
}
