//! Files of a header and program headers that are written out.

use std::alloc::{AllocError, Global};
use std::process::Abort;
use worked_files::places::{header_32, header_64, program_32, program_64, put, set};
use xmas_elf::ElfFile;
use xmas_elf::bytes::Order;

const LITTLE: Order = Order::Little;

/// The end of the addresses that a program for x86-64 may use.
pub const LIMIT: u64 = 0x7fff_ffff_f000;

/// A program header: its type, flags, offset, address, sizes in the file and in memory, and
/// alignment.
pub type Row = (u64, u64, u64, u64, u64, u64, u64);

/// A file of class 64 with these program headers from byte 64 on. From byte `0x400` on, each byte is
/// 1.
pub fn file_64(alloc: Global, len: usize, kind: u64, rows: &[Row]) -> Result<Vec<u8>, AllocError> {
    let mut bytes = Vec::new(alloc);
    bytes.resize(len.min(0x400), 0u8)?;
    bytes.resize(len, 1u8)?;
    let file = bytes.as_mut_slice();
    put(file, 0, &[0x7f, b'E', b'L', b'F', 2, 1, 1]);
    set(file, 0, header_64::TYPE, kind, LITTLE);
    set(file, 0, header_64::MACHINE, 62, LITTLE);
    set(file, 0, header_64::PH_OFFSET, 64, LITTLE);
    set(file, 0, header_64::PH_ENTRY_SIZE, 56, LITTLE);
    set(file, 0, header_64::PH_COUNT, rows.len() as u64, LITTLE);
    let mut start = 64usize;
    for row in rows {
        set(file, start, program_64::TYPE, row.0, LITTLE);
        set(file, start, program_64::FLAGS, row.1, LITTLE);
        set(file, start, program_64::OFFSET, row.2, LITTLE);
        set(file, start, program_64::VIRTUAL_ADDR, row.3, LITTLE);
        set(file, start, program_64::FILE_SIZE, row.4, LITTLE);
        set(file, start, program_64::MEM_SIZE, row.5, LITTLE);
        set(file, start, program_64::ALIGN, row.6, LITTLE);
        start = start.wrapping_add(56);
    }
    Ok(bytes)
}

/// The same of class 32, from byte 52 on.
pub fn file_32(alloc: Global, len: usize, kind: u64, rows: &[Row]) -> Result<Vec<u8>, AllocError> {
    let mut bytes = Vec::new(alloc);
    bytes.resize(len.min(0x400), 0u8)?;
    bytes.resize(len, 1u8)?;
    let file = bytes.as_mut_slice();
    put(file, 0, &[0x7f, b'E', b'L', b'F', 1, 1, 1]);
    set(file, 0, header_32::TYPE, kind, LITTLE);
    set(file, 0, header_32::MACHINE, 3, LITTLE);
    set(file, 0, header_32::PH_OFFSET, 52, LITTLE);
    set(file, 0, header_32::PH_ENTRY_SIZE, 32, LITTLE);
    set(file, 0, header_32::PH_COUNT, rows.len() as u64, LITTLE);
    let mut start = 52usize;
    for row in rows {
        set(file, start, program_32::TYPE, row.0, LITTLE);
        set(file, start, program_32::FLAGS, row.1, LITTLE);
        set(file, start, program_32::OFFSET, row.2, LITTLE);
        set(file, start, program_32::VIRTUAL_ADDR, row.3, LITTLE);
        set(file, start, program_32::FILE_SIZE, row.4, LITTLE);
        set(file, start, program_32::MEM_SIZE, row.5, LITTLE);
        set(file, start, program_32::ALIGN, row.6, LITTLE);
        start = start.wrapping_add(32);
    }
    Ok(bytes)
}

/// The file that these bytes are.
pub fn open<'a>(rt: &impl Abort, bytes: &'a [u8]) -> ElfFile<'a> {
    ElfFile::new(bytes).expect(rt, "an ELF file")
}
