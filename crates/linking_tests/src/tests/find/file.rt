//! A file in which up to three symbols have the name `ab`, with a hash table of either kind and the
//! versions that `versions::file` has.

use elf_base::bytes::Order;
use worked_files::files::put_symbol;
use worked_files::places::{Place, put, set};
use worked_files::rows;
use worked_files::versioned::{
    DEFINED, NAMES, NEEDED, PROGRAMS, set_entry, set_fields, set_header, set_program,
    set_segment_end, sizes,
};

/// The class of a file, its byte order, and whether its hash table is GNU's.
#[derive(Clone, Copy, Debug)]
pub struct Kind(pub u8, pub Order, pub bool);

const LITTLE: Order = Order::Little;

const BIG: Order = Order::Big;

pub const KINDS: &[Kind] = rows! {
    Kind(1, LITTLE, false); Kind(1, LITTLE, true); Kind(1, BIG, false); Kind(1, BIG, true);
    Kind(2, LITTLE, false); Kind(2, LITTLE, true); Kind(2, BIG, false); Kind(2, BIG, true);
};

// Where the parts of the file are; its addresses are 0x1000 higher.
const DYNAMIC: usize = 0xb0;

const STRINGS: usize = 0x170;

const SYMBOLS: usize = 0x190;

const HASH: usize = 0x1f0;

const NUMBERS: usize = 0x220;

pub const DEFINITIONS: usize = 0x230;

const NEEDS: usize = 0x288;

const SIZE: usize = 0x2d8;

// The dynamic entries behind that of the hash table; the last is that of the numbers of symbols.
const ENTRIES: &[(u64, u64)] = rows! {
    5, 0x1170; 10, 32; 6, 0x1190; 0x6fff_fffc, 0x1230; 0x6fff_fffd, 3; 0x6fff_fffe, 0x1288;
    0x6fff_ffff, 2; 0x6fff_fff0, 0x1220;
};

// The tables over symbols 1, 2 and 3 in this order, of one bucket: that of the standard, and the
// words of GNU's before and behind its Bloom filter, which passes each name.
const SYSV: &[u64] = &[1, 4, 1, 0, 2, 3, 0];

const GNU: &[u64] = &[1, 1, 1, 0];

const GNU_RUN: &[u64] = &[1, 0x0059_7728, 0x0059_7728, 0x0059_7729];

/// A symbol `ab`: its type with its binding, its section and its value.
pub type Symbol = (u8, u16, u64);

/// Where the symbol at an index is, in a file of this class.
fn symbol_start(class: u8, index: usize) -> usize {
    let size: usize = if class == 1 { 16 } else { 24 };
    SYMBOLS.wrapping_add(index.wrapping_mul(size))
}

/// Writes a symbol at an index.
pub fn set_symbol(file: &mut [u8], kind: Kind, index: usize, symbol: Symbol) {
    let start = symbol_start(kind.0, index);
    let (info, shndx, value) = symbol;
    let numbers = [1, u64::from(info), u64::from(shndx), value, 0];
    put_symbol(file, kind.0, start, numbers, kind.1);
}

/// Writes `st_other` of the symbol at an index.
pub fn set_other(file: &mut [u8], kind: Kind, index: usize, other: u64) {
    let offset: usize = if kind.0 == 1 { 13 } else { 5 };
    let start = symbol_start(kind.0, index);
    set(file, start, Place(offset, 1), other, kind.1);
}

/// Writes where the name of the symbol at an index begins in the strings.
pub fn set_name(file: &mut [u8], kind: Kind, index: usize, name: u64) {
    let start = symbol_start(kind.0, index);
    set(file, start, Place(0, 4), name, kind.1);
}

/// Writes `]\xe6` in place of `ab`, which isn't UTF-8 and has the same hash number of GNU's table.
pub fn set_bytes(file: &mut [u8]) {
    put(file, STRINGS.wrapping_add(1), b"]\xe6");
}

fn set_words(file: &mut [u8], start: usize, words: &[u64], order: Order) {
    for (k, word) in words.iter().enumerate() {
        set(file, start, Place(k.wrapping_mul(4), 4), *word, order);
    }
}

fn set_hash(file: &mut [u8], kind: Kind) {
    if kind.2 {
        let bloom: usize = if kind.0 == 1 { 4 } else { 8 };
        let filter = HASH.wrapping_add(16);
        set_words(file, HASH, GNU, kind.1);
        put(file, filter, &[0xff; 8]);
        set_words(file, filter.wrapping_add(bloom), GNU_RUN, kind.1);
    } else {
        set_words(file, HASH, SYSV, kind.1);
    }
}

fn set_dynamic(file: &mut [u8], kind: Kind) {
    let (program, _width) = sizes(kind.0);
    let (start, segment) = (PROGRAMS.wrapping_add(program), (2, DYNAMIC as u64, 192));
    set_program(file, start, kind.0, segment, kind.1);
    let tag = if kind.2 { 0x6fff_fef5 } else { 4 };
    let hash = [(tag, 0x11f0)];
    for (k, entry) in hash.iter().chain(ENTRIES.iter()).enumerate() {
        set_entry_at(file, kind, k, *entry);
    }
}

// Writes a dynamic entry behind so many others.
fn set_entry_at(file: &mut [u8], kind: Kind, index: usize, entry: (u64, u64)) {
    let (_program, width) = sizes(kind.0);
    let start = DYNAMIC.wrapping_add(width.wrapping_mul(2).wrapping_mul(index));
    set_entry(file, start, width, entry, kind.1);
}

/// Takes the numbers of symbols out of a file: its last dynamic entry.
pub fn drop_numbers(file: &mut [u8], kind: Kind) {
    set_entry_at(file, kind, 8, (0, 0));
}

/// Adds a dynamic entry after that of the numbers of symbols.
pub fn add_entry(file: &mut [u8], kind: Kind, entry: (u64, u64)) {
    set_entry_at(file, kind, 9, entry);
}

/// The file whose symbols from index 1 on are `ab` with these numbers: functions of section 5 with
/// the values 0x10, 0x20 and 0x30.
pub fn find_file(kind: Kind, numbers: &[u16]) -> [u8; SIZE] {
    let mut file = [0; SIZE];
    set_header(&mut file, kind.0, kind.1);
    set_segment_end(&mut file, kind.0, SIZE, kind.1);
    set_dynamic(&mut file, kind);
    put(&mut file, STRINGS, NAMES);
    set_hash(&mut file, kind);
    for (k, number) in numbers.iter().enumerate() {
        let index = k.wrapping_add(1);
        let value = (index as u64).wrapping_mul(16);
        set_symbol(&mut file, kind, index, (0x12, 5, value));
        let place = NUMBERS.wrapping_add(index.wrapping_mul(2));
        set(&mut file, place, Place(0, 2), *number as u64, kind.1);
    }
    set_fields(&mut file, DEFINITIONS, DEFINED, kind.1);
    set_fields(&mut file, NEEDS, NEEDED, kind.1);
    file
}
