//! What relocations write to images: the bytes are worked out by hand from the formulas of the
//! processor supplements.

use crate::tests::relocated_files::{
    SIZE, SYMBOLS, TABLE, WORD, base_file, base_file_in, put_rela, put_rela_in,
};
use crate::tests::rows::{LIMIT, open};
use crate::tests::want::want_at;
use elf_linking::scope::Scope;
use elf_linking::view::LinkedSymbol;
use elf_linking::{DynamicObject, LinkError};
use elf_loading::{Binding, LoadError, LoadPlan, LoadScope, Place as LoadedAt};
use std::process::Abort;
use worked_files::places::{Place, program_32, program_64, put, set};
use worked_files::versioned::PROGRAMS;
use xmas_elf::ElfFile;
use xmas_elf::bytes::Order;
use xmas_elf::symbol_table::{DynEntry32, DynEntry64};

const LITTLE: Order = Order::Little;

const BIG: Order = Order::Big;

// The size of a page: each page of the image is full.
const PAGE: u64 = 128;

const MINUS_4: u64 = u64::MAX - 3;

// The bytes of the word and of those after it before they are written.
pub const OLD: [u8; 16] = [0x77; 16];

// Where the two objects are loaded: the second one's thread-local storage is -0x180 from the thread
// pointer.
pub const PLACES: &[LoadedAt] = &[
    LoadedAt {
        base: 0x7_0000_1000,
        module: 1,
        thread: 0xffff_ffff_ffff_ff00,
    },
    LoadedAt {
        base: 0x5000_0000,
        module: 2,
        thread: 0xffff_ffff_ffff_fe80,
    },
];

// Sets the size of the loaded segment in memory.
pub fn set_memory(file: &mut [u8], class: u8, order: Order) {
    let place = if class == 1 {
        program_32::MEM_SIZE
    } else {
        program_64::MEM_SIZE
    };
    set(file, PROGRAMS, place, SIZE as u64, order);
}

// A file of class 64 with one relocation of the word at 0x1600.
fn file_64(order: Order, machine: u64, row: (u64, u64, u64)) -> [u8; SIZE] {
    let mut file = base_file_in(order, 2, machine, &[(7, 0x1240), (8, 24)]);
    set_memory(&mut file, 2, order);
    put(&mut file, WORD, &OLD);
    put_rela_in(order, &mut file, TABLE, (0x1600, row.0, row.1, row.2));
    file
}

// A file of class 32 with one relocation of the word at 0x1600, whose addend is that word.
fn file_32(order: Order, row: (u64, u64, u64)) -> [u8; SIZE] {
    let mut file = base_file_in(order, 1, 3, &[(17, 0x1240), (18, 8)]);
    set_memory(&mut file, 1, order);
    put(&mut file, WORD, &OLD);
    set(&mut file, TABLE, Place(0, 4), 0x1600, order);
    set(&mut file, TABLE, Place(4, 4), (row.1 << 8) | row.0, order);
    set(&mut file, WORD, Place(0, 4), row.2, order);
    file
}

// The plan of a file, whose span is its bytes.
fn plan_of<'a>(rt: &impl Abort, file: &ElfFile<'a>) -> LoadPlan<'a> {
    LoadPlan::check_load(file, PAGE, LIMIT).expect(rt, "a plan")
}

// A copy of a file, for an image.
fn copy_of(bytes: &[u8; SIZE]) -> [u8; SIZE] {
    *bytes
}

// The first items, as many as are asked for.
fn first<T>(items: &[T], count: usize) -> &[T] {
    &items[..count.min(items.len())]
}

// Relocates the second of two objects of one file, whose bytes are those of its span, and returns the
// 16 bytes from the word on.
pub fn relocate_second<E: LinkedSymbol>(
    rt: &impl Abort,
    bytes: &[u8; SIZE],
    when: Binding,
) -> (Result<u64, LoadError>, [u8; 16]) {
    let file = open(rt, bytes);
    let one = DynamicObject::<E>::read(&file).expect(rt, "an object");
    let two = DynamicObject::<E>::read(&file).expect(rt, "an object");
    let objects = [one, two];
    let mut image = copy_of(bytes);
    let others: [&[u8]; 2] = [&[], &[]];
    let plans = [plan_of(rt, &file); 2];
    let scope = LoadScope::new(Scope::new(&objects), &plans);
    let result = scope.relocate(1, when, PLACES, &others, &mut image);
    let before = image.get(..WORD) == bytes.get(..WORD);
    want_at(rt, "before the word", before, true);
    let after = image.get(WORD + 16..) == bytes.get(WORD + 16..);
    want_at(rt, "after the word", after, true);
    let mut word = [0; 16];
    put(
        &mut word,
        0,
        image.get(WORD..WORD + 16).expect(rt, "a word"),
    );
    (result, word)
}

// The bytes of a word with as many of the old ones after it as make 16.
fn with_old(word: &[u8]) -> [u8; 16] {
    let mut bytes = OLD;
    put(&mut bytes, 0, word);
    bytes
}

// The type, the symbol and the addend of a relocation, the number of words without a number, and the
// bytes.
type Row = (u64, u64, u64, u64, &'static [u8]);

// The base of the second object is 0x5000_0000, that of the first one 0x7_0000_1000. Symbol 1 is at
// 0x500 of the first, symbol 4 is 0x1234, and symbol 3 is at 0x10 of its thread-local storage.
const X86_64: &[Row] = &[
    (0, 1, 4, 0, &[]),
    (8, 0, 0x10, 0, &[0x10, 0, 0, 0x50, 0, 0, 0, 0]),
    (8, 0, MINUS_4, 0, &[0xfc, 0xff, 0xff, 0x4f, 0, 0, 0, 0]),
    (38, 0, 0x10, 0, &[0x10, 0, 0, 0x50, 0, 0, 0, 0]),
    (1, 1, 0x10, 0, &[0x10, 0x15, 0, 0, 7, 0, 0, 0]),
    (1, 1, MINUS_4, 0, &[0xfc, 0x14, 0, 0, 7, 0, 0, 0]),
    (1, 4, 1, 0, &[0x35, 0x12, 0, 0, 0, 0, 0, 0]),
    (1, 2, 4, 0, &[4, 0, 0, 0, 0, 0, 0, 0]),
    (1, 5, 4, 1, &[]),
    (10, 1, 4, 0, &[4, 0x15, 0, 0]),
    (10, 4, MINUS_4, 0, &[0x30, 0x12, 0, 0]),
    (2, 1, MINUS_4, 0, &[0xfc, 0xfe, 0xff, 0xaf]),
    (6, 1, 5, 0, &[0, 0x15, 0, 0, 7, 0, 0, 0]),
    (7, 1, 5, 0, &[0, 0x15, 0, 0, 7, 0, 0, 0]),
    (33, 1, 2, 0, &[0xa, 0, 0, 0, 0, 0, 0, 0]),
    (32, 1, MINUS_4, 0, &[4, 0, 0, 0]),
    (16, 3, 0, 0, &[1, 0, 0, 0, 0, 0, 0, 0]),
    (17, 3, 2, 0, &[0x12, 0, 0, 0, 0, 0, 0, 0]),
    (
        18,
        3,
        4,
        0,
        &[0x14, 0xff, 0xff, 0xff, 0xff, 0xff, 0xff, 0xff],
    ),
    (36, 3, 0, 1, &[]),
    (37, 0, 0x540, 1, &[]),
];

#[test]
fn each_type_is_written(rt: HostRuntime) {
    for &(kind, symbol, addend, count, bytes) in X86_64 {
        let file = file_64(LITTLE, 62, (kind, symbol, addend));
        let found = relocate_second::<DynEntry64>(&rt, &file, Binding::Now);
        let wanted = (Ok(count), with_old(bytes));
        want_at(&rt, (kind, symbol, addend), found, wanted);
    }
}

// The same relocations of AArch64.
const BIG_64: &[Row] = &[
    (1027, 0, 0x10, 0, &[0, 0, 0, 0, 0x50, 0, 0, 0x10]),
    (257, 1, MINUS_4, 0, &[0, 0, 0, 7, 0, 0, 0x14, 0xfc]),
    (1028, 3, 0, 0, &[0, 0, 0, 0, 0, 0, 0, 1]),
    (
        1030,
        3,
        4,
        0,
        &[0xff, 0xff, 0xff, 0xff, 0xff, 0xff, 0xff, 0x14],
    ),
    (1032, 0, 0x540, 1, &[]),
];

#[test]
fn numbers_are_written_in_the_byte_order_of_the_file(rt: HostRuntime) {
    for &(kind, symbol, addend, count, bytes) in BIG_64 {
        let file = file_64(BIG, 183, (kind, symbol, addend));
        let found = relocate_second::<DynEntry64>(&rt, &file, Binding::Now);
        let wanted = (Ok(count), with_old(bytes));
        want_at(&rt, (kind, symbol, addend), found, wanted);
    }
    let file = file_64(BIG, 62, (10, 1, 4));
    let found = relocate_second::<DynEntry64>(&rt, &file, Binding::Now);
    want_at(&rt, 10u64, found, (Ok(0), with_old(&[0, 0, 0x15, 4])));
}

// Relocations of 386, whose addend is the word in place.
const I386: &[Row] = &[
    (8, 0, 0x10, 0, &[0x10, 0, 0, 0x50]),
    (8, 0, 0xffff_fffc, 0, &[0xfc, 0xff, 0xff, 0x4f]),
    (1, 1, 0x10, 0, &[0x10, 0x15, 0, 0]),
    (2, 1, 0xffff_fffc, 0, &[0xfc, 0xfe, 0xff, 0xaf]),
    (6, 1, 0x10, 0, &[0, 0x15, 0, 0]),
    (35, 3, 0, 0, &[1, 0, 0, 0]),
    (14, 3, 0, 0, &[0x10, 0xff, 0xff, 0xff]),
    (37, 3, 4, 0, &[0xf4, 0, 0, 0]),
    (1, 2, 4, 0, &[4, 0, 0, 0]),
];

#[test]
fn addends_in_place_are_read(rt: HostRuntime) {
    for &(kind, symbol, addend, count, bytes) in I386 {
        let file = file_32(LITTLE, (kind, symbol, addend));
        let found = relocate_second::<DynEntry32>(&rt, &file, Binding::Now);
        let wanted = (Ok(count), with_old(bytes));
        want_at(&rt, (kind, symbol, addend), found, wanted);
    }
    let file = file_32(BIG, (8, 0, 0xffff_fffc));
    let found = relocate_second::<DynEntry32>(&rt, &file, Binding::Now);
    let wanted = with_old(&[0x4f, 0xff, 0xff, 0xfc]);
    want_at(&rt, 8u64, found, (Ok(0), wanted));
}

// A dynamic entry, and whether its file has slots that get their symbols when they are called.
const ASKED: &[((u64, u64), bool)] = &[
    ((0, 0), true),
    ((24, 0), false),
    ((30, 8), false),
    ((30, 4), true),
    ((0x6fff_fffb, 1), false),
    ((0x6fff_fffb, 8), true),
];

// A file with a jump slot of symbol 1, in which the address 0x1036 is.
fn slot_file(asked: (u64, u64)) -> [u8; SIZE] {
    let entries = [(23, 0x1240), (2, 24), (20, 7), asked];
    let mut file = base_file(2, 62, &entries);
    set_memory(&mut file, 2, LITTLE);
    put(&mut file, WORD, &OLD);
    set(&mut file, WORD, Place(0, 8), 0x1036, LITTLE);
    put_rela(&mut file, TABLE, (0x1600, 7, 1, 0));
    file
}

#[test]
fn lazy_slots_hold_the_word_in_place(rt: HostRuntime) {
    let later = with_old(&[0x36, 0x10, 0, 0x50, 0, 0, 0, 0]);
    let bound = with_old(&[0, 0x15, 0, 0, 7, 0, 0, 0]);
    for &(asked, lazy) in ASKED {
        let file = slot_file(asked);
        let found = relocate_second::<DynEntry64>(&rt, &file, Binding::Lazy);
        let wanted = if lazy { later } else { bound };
        want_at(&rt, asked, found, (Ok(0), wanted));
        let found = relocate_second::<DynEntry64>(&rt, &file, Binding::Now);
        want_at(&rt, asked, found, (Ok(0), bound));
    }
}

// The binding and type of symbol 2, which no object has, and the result.
const ABSENT: &[(u64, Result<u64, LoadError>, &[u8])] = &[
    (0x20, Ok(0), &[4, 0, 0, 0, 0, 0, 0, 0]),
    (0x10, Err(LoadError::Unresolved), &[]),
];

#[test]
fn only_weak_symbols_may_be_absent(rt: HostRuntime) {
    for &(info, result, bytes) in ABSENT {
        let mut file = file_64(LITTLE, 62, (1, 2, 4));
        set(&mut file, SYMBOLS, Place(52, 1), info, LITTLE);
        let found = relocate_second::<DynEntry64>(&rt, &file, Binding::Now);
        want_at(&rt, info, found, (result, with_old(bytes)));
    }
}

// The address of a word, and the result: the image is from 0x1000 to 0x1680.
const ADDRESSES: &[(u64, Result<u64, LoadError>)] = &[
    (0x1678, Ok(0)),
    (0x1000, Ok(0)),
    (0x1679, Err(LoadError::WordAddress)),
    (0xfff, Err(LoadError::WordAddress)),
    (0, Err(LoadError::WordAddress)),
    (u64::MAX, Err(LoadError::WordAddress)),
];

#[test]
fn words_are_in_the_image(rt: HostRuntime) {
    for &(address, wanted) in ADDRESSES {
        let mut bytes = file_64(LITTLE, 62, (8, 0, 0));
        set(&mut bytes, TABLE, Place(0, 8), address, LITTLE);
        let file = open(&rt, &bytes);
        let one = DynamicObject::<DynEntry64>::read(&file).expect(&rt, "an object");
        let objects = [one];
        let mut image = copy_of(&bytes);
        let (places, others): (_, [&[u8]; 1]) = (first(PLACES, 1), [&[]]);
        let plans = [plan_of(&rt, &file)];
        let scope = LoadScope::new(Scope::new(&objects), &plans);
        let found = scope.relocate(0, Binding::Now, places, &others, &mut image);
        want_at(&rt, address, found, wanted);
    }
}

const NO_OBJECT: LoadError = LoadError::Link(LinkError::ObjectIndex);

// The index of the object, the numbers of plans, of places and of images, the size of the image, and
// the error.
const SIZES: &[(usize, [usize; 3], usize, LoadError)] = &[
    (1, [1, 1, 1], SIZE - 1, NO_OBJECT),
    (1, [2, 1, 1], SIZE, NO_OBJECT),
    (0, [0, 1, 1], SIZE, NO_OBJECT),
    (0, [1, 1, 1], SIZE - 1, LoadError::ImageSize),
    (0, [1, 1, 1], 0, LoadError::ImageSize),
    (0, [2, 1, 1], SIZE, LoadError::ImageSize),
    (0, [1, 0, 1], SIZE, LoadError::ImageSize),
    (0, [1, 2, 1], SIZE, LoadError::ImageSize),
    (0, [1, 1, 0], SIZE, LoadError::ImageSize),
    (0, [1, 1, 2], SIZE, LoadError::ImageSize),
];

#[test]
fn sizes_are_those_of_the_scope(rt: HostRuntime) {
    let bytes = file_64(LITTLE, 62, (8, 0, 0));
    let file = open(&rt, &bytes);
    let one = DynamicObject::<DynEntry64>::read(&file).expect(&rt, "an object");
    let objects = [one];
    let (all_plans, all): (_, [&[u8]; 2]) = ([plan_of(&rt, &file); 2], [&[], &[]]);
    for &(of, [plans, places, images], size, error) in SIZES {
        let mut image = copy_of(&bytes);
        let scope = LoadScope::new(Scope::new(&objects), first(&all_plans, plans));
        let (places, others) = (first(PLACES, places), first(&all, images));
        let image_part = &mut image[..size.min(SIZE)];
        let found = scope.relocate(of, Binding::Now, places, others, image_part);
        want_at(&rt, (of, size), found, Err(error));
        want_at(&rt, (of, size), image == bytes, true);
    }
}

// A library whose symbol 1 is its word at 0x1600, which a relocation with this type and addend writes.
fn library(kind: u64, addend: u64) -> [u8; SIZE] {
    let mut file = file_64(LITTLE, 62, (kind, 0, addend));
    set(&mut file, SYMBOLS, Place(32, 8), 0x1600, LITTLE);
    file
}

// The result of a program that copies that word, of as many bytes of the library's image, and the bytes
// from the word on; `left` is the number of the library's words that aren't written.
fn copied(
    rt: &impl Abort,
    library: &[u8; SIZE],
    left: u64,
    size: usize,
) -> (Result<u64, LoadError>, [u8; 16]) {
    let program = file_64(LITTLE, 62, (5, 1, 0));
    let (own, other) = (open(rt, &program), open(rt, library));
    let one = DynamicObject::<DynEntry64>::read(&own).expect(rt, "an object");
    let two = DynamicObject::<DynEntry64>::read(&other).expect(rt, "an object");
    let objects = [one, two];
    let plans = [plan_of(rt, &own), plan_of(rt, &other)];
    let scope = LoadScope::new(Scope::new(&objects), &plans);
    let mut source = copy_of(library);
    let none: [&[u8]; 2] = [&[], &[]];
    let found = scope.relocate(1, Binding::Now, PLACES, &none, &mut source);
    want_at(rt, "the library", found, Ok(left));
    let mut image = copy_of(&program);
    let others: [&[u8]; 2] = [&[], first(&source, size)];
    let result = scope.relocate(0, Binding::Now, PLACES, &others, &mut image);
    let mut word = [0; 16];
    put(
        &mut word,
        0,
        image.get(WORD..WORD + 16).expect(rt, "a word"),
    );
    (result, word)
}

// The word of the library is its base plus 0x20. The number of bytes of its image that are given, and
// the result of the program.
const COPIED: &[(usize, Result<u64, LoadError>, &[u8])] = &[
    (SIZE, Ok(0), &[0x20, 0, 0, 0x50, 0, 0, 0, 0]),
    (0x608, Ok(0), &[0x20, 0, 0, 0x50, 0, 0, 0, 0]),
    (0x607, Err(LoadError::CopySource), &[]),
    (0, Err(LoadError::CopySource), &[]),
];

#[test]
fn copies_are_of_relocated_words(rt: HostRuntime) {
    for &(size, result, bytes) in COPIED {
        let found = copied(&rt, &library(8, 0x20), 0, size);
        want_at(&rt, size, found, (result, with_old(bytes)));
    }
    // what a function returns is not known: the bytes of the file, where glibc 2.36 copies the address
    // that it returns (oracle/corners.toml)
    let mut called = library(37, 0x540);
    put(&mut called, WORD, &[1, 2, 3, 4, 5, 6, 7, 8]);
    let found = copied(&rt, &called, 1, SIZE);
    let wanted = (Ok(0), with_old(&[1, 2, 3, 4, 5, 6, 7, 8]));
    want_at(&rt, "of a function", found, wanted);
}
