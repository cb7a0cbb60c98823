//! Small files, field by field.

use crate::places::{
    WORD, header_32, header_64, program_32, put, section_32, section_64, set, symbol_32, symbol_64,
};
use std::alloc::{AllocError, Global};
use xmas_elf::ElfFile;
use xmas_elf::bytes::Order;
use xmas_elf::header::{Class_, Header};

const LITTLE: Order = Order::Little;

/// The first seven bytes of a header of this class, and zeros, in room for the longest header.
pub fn plain_header(class: u8) -> [u8; 64] {
    let mut header = [0; 64];
    put(&mut header, 0, &[0x7f, b'E', b'L', b'F', class, 1, 1]);
    header
}

// The byte that says the order of a file's numbers.
fn data_byte(order: Order) -> u8 {
    match order {
        Order::Little => 1,
        Order::Big => 2,
    }
}

/// Writes the ELF header of class 32, with this many section headers from 52 on: section 1 holds
/// their names.
pub fn put_header_32(file: &mut [u8], count: u64, order: Order) {
    put(file, 0, &[0x7f, b'E', b'L', b'F', 1, data_byte(order), 1]);
    set(file, 0, header_32::SH_OFFSET, 52, order);
    set(file, 0, header_32::HEADER_SIZE, 52, order);
    set(file, 0, header_32::SH_ENTRY_SIZE, 40, order);
    set(file, 0, header_32::SH_COUNT, count, order);
    set(file, 0, header_32::SH_STR_INDEX, 1, order);
}

/// The same of class 64, from 64 on.
pub fn put_header_64(file: &mut [u8], count: u64, order: Order) {
    put(file, 0, &[0x7f, b'E', b'L', b'F', 2, data_byte(order), 1]);
    set(file, 0, header_64::SH_OFFSET, 64, order);
    set(file, 0, header_64::HEADER_SIZE, 64, order);
    set(file, 0, header_64::SH_ENTRY_SIZE, 64, order);
    set(file, 0, header_64::SH_COUNT, count, order);
    set(file, 0, header_64::SH_STR_INDEX, 1, order);
}

/// Writes the name, the type, the offset and the size of a section header of class 32 that begins
/// at a place.
pub fn put_section_32(file: &mut [u8], start: usize, numbers: [u64; 4], order: Order) {
    set(file, start, section_32::NAME, numbers[0], order);
    set(file, start, section_32::TYPE, numbers[1], order);
    set(file, start, section_32::OFFSET, numbers[2], order);
    set(file, start, section_32::SIZE, numbers[3], order);
}

/// The same of class 64.
pub fn put_section_64(file: &mut [u8], start: usize, numbers: [u64; 4], order: Order) {
    set(file, start, section_64::NAME, numbers[0], order);
    set(file, start, section_64::TYPE, numbers[1], order);
    set(file, start, section_64::OFFSET, numbers[2], order);
    set(file, start, section_64::SIZE, numbers[3], order);
}

/// Class 32, in either order: section 1, `.strtab`, names itself and holds `ab`.
pub fn strtab_file(order: Order) -> [u8; 144] {
    let mut file = [0; 144];
    put_header_32(&mut file, 2, order);
    put_section_32(&mut file, 92, [1, 3, 132, 12], order);
    set(&mut file, 92, section_32::ALIGN, 1, order);
    put(&mut file, 132, b"\0.strtab\0ab\0");
    file
}

/// `strtab_file` with the names `.dynstr` and `ab`.
pub fn dynstr_file(order: Order) -> [u8; 144] {
    let mut file = strtab_file(order);
    put(&mut file, 133, b".dynstr");
    file
}

/// Class 32, in either order: section 1, `.strtab`, holds the names, and section 2,
/// `.symtab_shndx`, the words 0 and 1, from 195 on.
pub fn shndx_file(order: Order) -> [u8; 203] {
    let mut file = [0; 203];
    put_header_32(&mut file, 3, order);
    put_section_32(&mut file, 92, [1, 3, 172, 23], order);
    set(&mut file, 92, section_32::ALIGN, 1, order);
    put_section_32(&mut file, 132, [9, 18, 195, 8], order);
    put(&mut file, 172, b"\0.strtab\0.symtab_shndx\0");
    set(&mut file, 195, WORD, 0, order);
    set(&mut file, 199, WORD, 1, order);
    file
}

/// Class 64: the names, a link to debug information and a build id.
pub fn debug_link_file() -> [u8; 397] {
    let mut file = [0; 397];
    put_header_64(&mut file, 4, LITTLE);
    put_section_64(&mut file, 128, [1, 3, 320, 45], LITTLE);
    put_section_64(&mut file, 192, [11, 1, 365, 12], LITTLE);
    put_section_64(&mut file, 256, [26, 7, 377, 20], LITTLE);
    put(
        &mut file,
        320,
        b"\0.shstrtab\0.gnu_debuglink\0.note.gnu.build-id\0",
    );
    put(&mut file, 365, b"a.debug\0");
    set(&mut file, 373, WORD, 0x1234_5678, LITTLE);
    set(&mut file, 377, WORD, 4, LITTLE);
    set(&mut file, 381, WORD, 4, LITTLE);
    set(&mut file, 385, WORD, 3, LITTLE);
    put(&mut file, 389, b"GNU\0\xde\xad\xbe\xef");
    file
}

/// Class 32, without sections: one segment that holds all but the last byte of the file.
pub fn segment_file() -> [u8; 84] {
    let mut file = [0; 84];
    put(&mut file, 0, &[0x7f, b'E', b'L', b'F', 1, 1, 1]);
    set(&mut file, 0, header_32::PH_OFFSET, 52, LITTLE);
    set(&mut file, 0, header_32::HEADER_SIZE, 52, LITTLE);
    set(&mut file, 0, header_32::PH_ENTRY_SIZE, 32, LITTLE);
    set(&mut file, 0, header_32::PH_COUNT, 1, LITTLE);
    set(&mut file, 52, program_32::TYPE, 1, LITTLE);
    set(&mut file, 52, program_32::FILE_SIZE, 83, LITTLE);
    set(&mut file, 52, program_32::MEM_SIZE, 83, LITTLE);
    set(&mut file, 52, program_32::FLAGS, 5, LITTLE);
    set(&mut file, 52, program_32::ALIGN, 1, LITTLE);
    file
}

/// Class 32, with 70,000 sections, whose number is in section header 0: section 1 holds the
/// names, section 2 is `.symtab_shndx`, and the last is of type ProgBits and has an empty name.
pub fn many_sections_file(alloc: Global) -> Result<Vec<u8>, AllocError> {
    let mut bytes = Vec::new(alloc);
    bytes.resize(2_800_083, 0u8)?;
    let file = bytes.as_mut_slice();
    put_header_32(file, 0, LITTLE);
    set(file, 52, section_32::SIZE, 70_000, LITTLE);
    put_section_32(file, 92, [1, 3, 2_800_052, 23], LITTLE);
    set(file, 92, section_32::ALIGN, 1, LITTLE);
    put_section_32(file, 132, [9, 18, 2_800_075, 8], LITTLE);
    set(file, 2_800_012, section_32::TYPE, 1, LITTLE);
    put(file, 2_800_052, b"\0.strtab\0.symtab_shndx\0");
    put(file, 2_800_075, b"\0\0\0\0\x01\0\0\0");
    Ok(bytes)
}

/// Class 32: section 2 is a hash table, whose link is section 3,
/// its two symbols; one is called `ab`.
pub fn hash_file() -> [u8; 276] {
    let mut file = [0; 276];
    put_header_32(&mut file, 4, LITTLE);
    put_section_32(&mut file, 92, [1, 3, 212, 12], LITTLE);
    set(&mut file, 92, section_32::ALIGN, 1, LITTLE);
    put_section_32(&mut file, 132, [9, 5, 224, 20], LITTLE);
    set(&mut file, 132, section_32::LINK, 3, LITTLE);
    put_section_32(&mut file, 172, [9, 2, 244, 32], LITTLE);
    set(&mut file, 172, section_32::LINK, 1, LITTLE);
    put(&mut file, 212, b"\0.strtab\0ab\0");
    put_words(&mut file, 224, &[1, 2, 1, 0, 0]);
    put_symbols(&mut file, 244, &[(0, 0), (9, 0x12)]);
    file
}

/// Writes words of four bytes from a place on.
pub fn put_words(file: &mut [u8], start: usize, words: &[u32]) {
    for (k, word) in words.iter().enumerate() {
        let place = start.wrapping_add(k.wrapping_mul(4));
        put(file, place, &word.to_le_bytes());
    }
}

/// Writes symbols of class 32 from a place on, by name and info; all else of them is 0.
pub fn put_symbols(file: &mut [u8], start: usize, symbols: &[(u64, u64)]) {
    for (k, symbol) in symbols.iter().enumerate() {
        let place = start.wrapping_add(k.wrapping_mul(16));
        set(file, place, symbol_32::NAME, symbol.0, LITTLE);
        set(file, place, symbol_32::INFO, symbol.1, LITTLE);
    }
}

/// Writes a symbol of this class at a place: its name, info, section index, value and size.
pub fn put_symbol(file: &mut [u8], class: u8, start: usize, numbers: [u64; 5], order: Order) {
    let [name, info, shndx, value, size] = numbers;
    if class == 1 {
        set(file, start, symbol_32::NAME, name, order);
        set(file, start, symbol_32::INFO, info, order);
        set(file, start, symbol_32::SHNDX, shndx, order);
        set(file, start, symbol_32::VALUE, value, order);
        set(file, start, symbol_32::SIZE, size, order);
    } else {
        set(file, start, symbol_64::NAME, name, order);
        set(file, start, symbol_64::INFO, info, order);
        set(file, start, symbol_64::SHNDX, shndx, order);
        set(file, start, symbol_64::VALUE, value, order);
        set(file, start, symbol_64::SIZE, size, order);
    }
}

/// The file with another class in part 1 of its header.
pub fn with_class<'a>(file: &ElfFile<'a>, class: u8) -> ElfFile<'a> {
    let mut pt1 = file.header.pt1;
    pt1.class = Class_::from_raw(class);
    ElfFile {
        input: file.input,
        header: Header {
            pt1,
            pt2: file.header.pt2,
        },
    }
}
