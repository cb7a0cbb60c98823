//! A file with the version tables that its dynamic entries name.

use crate::places::{Place, header_32, header_64, program_32, program_64, put, set};
use crate::rows;
use xmas_elf::bytes::Order;

const LITTLE: Order = Order::Little;

const BIG: Order = Order::Big;

/// The class and the byte order of each file.
pub const KINDS: &[(u8, Order)] = &[(1, LITTLE), (1, BIG), (2, LITTLE), (2, BIG)];

/// How many bytes lie in memory before those of the file: the address of byte 0.
const BASE: u64 = 0x1000;

/// Where the program headers are.
pub const PROGRAMS: usize = 0x40;

// Where the dynamic entries and the strings are.
const DYNAMIC: usize = 0xb0;

const STRINGS: usize = 0x130;

/// Where the numbers of the symbols are, the definitions and the needs, and the end of these.
const NUMBERS: usize = 0x150;

pub const DEFINITIONS: usize = 0x160;

pub const NEEDS: usize = 0x1b8;

const SIZE: usize = 0x208;

/// The dynamic entries for all tables, for the definitions alone, and for the needs alone.
pub const NUMBERS_ENTRY: (u64, u64) = (0x6fff_fff0, 0x1150);

pub const ALL: &[(u64, u64)] = &[
    NUMBERS_ENTRY,
    (0x6fff_fffc, 0x1160),
    (0x6fff_fffd, 3),
    (0x6fff_fffe, 0x11b8),
    (0x6fff_ffff, 2),
];

/// A field of a record: its offset in the table, its width, and its number.
pub type Field = (usize, usize, u64);

/// The strings, which the records name by their offsets.
pub const NAMES: &[u8] = b"\0ab\0libc\0libm\0V1\0V2\0V3\0V4\0V5\0";

/// The base, and the versions V1 and V2, each before its record of names. A line is a record.
pub const DEFINED: &[Field] = rows! {
    0, 2, 1; 2, 2, 1; 4, 2, 1; 6, 2, 1; 8, 4, 0x672; 12, 4, 20; 16, 4, 28;
    20, 4, 1;
    28, 2, 1; 32, 2, 2; 34, 2, 1; 36, 4, 0x591; 40, 4, 20; 44, 4, 28;
    48, 4, 14;
    56, 2, 1; 60, 2, 3; 62, 2, 1; 64, 4, 0x592; 68, 4, 20;
    76, 4, 17;
};

/// `libc` with V3 and the hidden V4, and `libm` with V5. A line is a record.
pub const NEEDED: &[Field] = rows! {
    0, 2, 1; 2, 2, 2; 4, 4, 4; 8, 4, 16; 12, 4, 48;
    16, 4, 0x593; 22, 2, 4; 24, 4, 20; 28, 4, 16;
    32, 4, 0x594; 36, 2, 2; 38, 2, 0x8005; 40, 4, 23;
    48, 2, 1; 50, 2, 1; 52, 4, 9; 56, 4, 16;
    64, 4, 0x595; 70, 2, 6; 72, 4, 26;
};

// The numbers of eight symbols.
const SYMBOLS: &[Field] = rows! {
    2, 2, 1; 4, 2, 2; 6, 2, 0x8003; 8, 2, 4; 10, 2, 0x8005; 12, 2, 9; 14, 2, 0x8001;
};

/// Writes fields of records of a table that begins at `start`.
pub fn set_fields(file: &mut [u8], start: usize, fields: &[Field], order: Order) {
    for &(offset, width, number) in fields {
        set(file, start, Place(offset, width), number, order);
    }
}

/// Writes the type, the offset and the size of a segment.
pub fn set_program(
    file: &mut [u8],
    start: usize,
    class: u8,
    numbers: (u64, u64, u64),
    order: Order,
) {
    let address = numbers.1.wrapping_add(BASE);
    if class == 1 {
        set(file, start, program_32::TYPE, numbers.0, order);
        set(file, start, program_32::OFFSET, numbers.1, order);
        set(file, start, program_32::VIRTUAL_ADDR, address, order);
        set(file, start, program_32::FILE_SIZE, numbers.2, order);
    } else {
        set(file, start, program_64::TYPE, numbers.0, order);
        set(file, start, program_64::OFFSET, numbers.1, order);
        set(file, start, program_64::VIRTUAL_ADDR, address, order);
        set(file, start, program_64::FILE_SIZE, numbers.2, order);
    }
}

/// The size of a program header, and of a number in a dynamic entry.
pub fn sizes(class: u8) -> (usize, usize) {
    if class == 1 { (32, 4) } else { (56, 8) }
}

/// Ends the loaded segment at this byte of the file.
pub fn set_segment_end(file: &mut [u8], class: u8, end: usize, order: Order) {
    set_program(file, PROGRAMS, class, (1, 0, end as u64), order);
}

/// Writes the header of a file with two program headers.
pub fn set_header(file: &mut [u8], class: u8, order: Order) {
    let encoding = if order == LITTLE { 1 } else { 2 };
    put(file, 0, &[0x7f, b'E', b'L', b'F', class, encoding, 1]);
    let size = sizes(class).0 as u64;
    if class == 1 {
        set(file, 0, header_32::PH_OFFSET, PROGRAMS as u64, order);
        set(file, 0, header_32::PH_ENTRY_SIZE, size, order);
        set(file, 0, header_32::PH_COUNT, 2, order);
    } else {
        set(file, 0, header_64::PH_OFFSET, PROGRAMS as u64, order);
        set(file, 0, header_64::PH_ENTRY_SIZE, size, order);
        set(file, 0, header_64::PH_COUNT, 2, order);
    }
}

/// Writes a dynamic entry with numbers of this width.
pub fn set_entry(file: &mut [u8], start: usize, width: usize, entry: (u64, u64), order: Order) {
    set(file, start, Place(0, width), entry.0, order);
    set(file, start, Place(width, width), entry.1, order);
}

/// The file with these dynamic entries after those of the strings.
pub fn version_file(class: u8, order: Order, entries: &[(u64, u64)]) -> [u8; SIZE] {
    let mut file = [0; SIZE];
    let (program, width) = sizes(class);
    set_header(&mut file, class, order);
    set_segment_end(&mut file, class, SIZE, order);
    let dynamic = (2, DYNAMIC as u64, 128);
    set_program(
        &mut file,
        PROGRAMS.wrapping_add(program),
        class,
        dynamic,
        order,
    );
    let strings = [(5, 0x1130), (10, 32)];
    for (k, entry) in strings.iter().chain(entries.iter()).enumerate() {
        let start = DYNAMIC.wrapping_add(k.wrapping_mul(width).wrapping_mul(2));
        set_entry(&mut file, start, width, *entry, order);
    }
    put(&mut file, STRINGS, NAMES);
    set_fields(&mut file, NUMBERS, SYMBOLS, order);
    set_fields(&mut file, DEFINITIONS, DEFINED, order);
    set_fields(&mut file, NEEDS, NEEDED, order);
    file
}
