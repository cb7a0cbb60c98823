//! Files with relocations, which are written field by field.

use worked_files::places::{Place, header_32, header_64, put, set};
use worked_files::versioned::{
    PROGRAMS, set_entry, set_header, set_program, set_segment_end, sizes,
};
use xmas_elf::bytes::Order;

const LITTLE: Order = Order::Little;

// Where the parts of the file are; addresses are 0x1000 more.
const STRINGS: usize = 0x100;

pub const SYMBOLS: usize = 0x120;

const HASH: usize = 0x1e0;

pub const TABLE: usize = 0x240;

pub const DYNAMIC: usize = 0x300;

pub const WORD: usize = 0x600;

pub const SIZE: usize = 0x680;

// A symbol: the offset of its name, its type and binding, its section, its value and its size.
type Symbol = (u64, u64, u64, u64, u64);

// None, a function, a weak one without a definition, a thread-local one, an absolute one, and an
// indirect function.
const ALL: &[Symbol] = &[
    (0, 0, 0, 0, 0),
    (1, 0x12, 1, 0x500, 8),
    (3, 0x20, 0, 0, 0),
    (5, 0x16, 1, 0x10, 4),
    (7, 0x11, 0xfff1, 0x1234, 0),
    (9, 0x1a, 1, 0x540, 2),
];

fn put_symbols(file: &mut [u8], class: u8, order: Order) {
    for (k, &(name, info, shndx, value, size)) in ALL.iter().enumerate() {
        let wide = class == 2;
        let at = SYMBOLS.wrapping_add(k.wrapping_mul(if wide { 24 } else { 16 }));
        set(file, at, Place(0, 4), name, order);
        set(file, at, Place(if wide { 4 } else { 12 }, 1), info, order);
        set(file, at, Place(if wide { 6 } else { 14 }, 2), shndx, order);
        let width = sizes(class).1;
        set(
            file,
            at,
            Place(if wide { 8 } else { 4 }, width),
            value,
            order,
        );
        set(
            file,
            at,
            Place(if wide { 16 } else { 8 }, width),
            size,
            order,
        );
    }
}

// A file for a machine with these dynamic entries after those of its symbols.
pub fn base_file(class: u8, machine: u64, entries: &[(u64, u64)]) -> [u8; SIZE] {
    base_file_in(LITTLE, class, machine, entries)
}

// The same in this byte order.
pub fn base_file_in(order: Order, class: u8, machine: u64, entries: &[(u64, u64)]) -> [u8; SIZE] {
    let mut file = [0; SIZE];
    let (program, width) = sizes(class);
    set_header(&mut file, class, order);
    let (kind, place) = if class == 1 {
        (header_32::TYPE, header_32::MACHINE)
    } else {
        (header_64::TYPE, header_64::MACHINE)
    };
    set(&mut file, 0, kind, 3, order);
    set(&mut file, 0, place, machine, order);
    set_segment_end(&mut file, class, SIZE, order);
    let second = PROGRAMS.wrapping_add(program);
    set_program(&mut file, second, class, (2, DYNAMIC as u64, 0x200), order);
    put(&mut file, STRINGS, b"\0a\0w\0t\0z\0f\0");
    put_symbols(&mut file, class, order);
    for (k, &word) in [1, 6, 1, 0, 2, 3, 4, 5, 0].iter().enumerate() {
        set(&mut file, HASH, Place(k.wrapping_mul(4), 4), word, order);
    }
    let own = [(4, 0x11e0), (5, 0x1100), (10, 11), (6, 0x1120)];
    for (k, entry) in own.iter().chain(entries.iter()).enumerate() {
        let start = DYNAMIC.wrapping_add(k.wrapping_mul(width).wrapping_mul(2));
        set_entry(&mut file, start, width, *entry, order);
    }
    file
}

// A relocation of class 64 with an addend: its address, type, symbol and addend.
pub fn put_rela(file: &mut [u8], start: usize, row: (u64, u64, u64, u64)) {
    put_rela_in(LITTLE, file, start, row);
}

// The same in this byte order.
pub fn put_rela_in(
    order: Order,
    file: &mut [u8],
    start: usize,
    (at, kind, symbol, addend): (u64, u64, u64, u64),
) {
    set(file, start, Place(0, 8), at, order);
    set(file, start, Place(8, 8), (symbol << 32) | kind, order);
    set(file, start, Place(16, 8), addend, order);
}

// A file with one relocation of the word at 0x1600. On 386 the addend is that word.
pub fn file_of(machine: u64, kind: u64, symbol: u64, addend: u64) -> [u8; SIZE] {
    if machine == 3 {
        let mut file = base_file(1, machine, &[(17, 0x1240), (18, 8)]);
        set(&mut file, TABLE, Place(0, 4), 0x1600, LITTLE);
        set(&mut file, TABLE, Place(4, 4), (symbol << 8) | kind, LITTLE);
        // of a descriptor the second word
        let place = if kind == 41 { 4 } else { 0 };
        set(&mut file, WORD, Place(place, 4), addend, LITTLE);
        return file;
    }
    let mut file = base_file(2, machine, &[(7, 0x1240), (8, 24)]);
    put_rela(&mut file, TABLE, (0x1600, kind, symbol, addend));
    set(&mut file, WORD, Place(0, 8), 0x7777, LITTLE);
    file
}
