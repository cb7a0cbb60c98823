//! The parts of the ELF header as records in bytes (gABI, "ELF Header": Elf32_Ehdr, Elf64_Ehdr).

ghost use Rattle.std.specs.Prelude.{◌≡◌, ◌+◌, ◌≤◌, ◌<◌, length};
ghost use Rattle.std.proofs.Common.{lit<};
ghost use Rattle.elf_base.specs.FileHeader.{header_pt1, header_pt2_32, header_pt2_64};

use crate::bytes::{Order, Record, read_u16, read_u32, read_u64};
use crate::header::numbers::{Class_, Data_, Machine_, OsAbi_, Type_, Version_};
use crate::header::{HeaderPt1, HeaderPt2_};
use crate::{P32, P64};

impl HeaderPt1 {
    // Reads the first 16 bytes; all fields are single bytes, so no byte order is needed.
    #[inline(always)]
    pub(crate) fn read(bytes: &[u8]) -> HeaderPt1
        requires { 16 ≤ length bytes.now }
        ensures { result ≡ header_pt1 bytes.now }
    {
        let mut magic = [0; 4];
        magic.copy_from_slice(&bytes[0..4]);
        let mut padding = [0; 7];
        padding.copy_from_slice(&bytes[9..16]);
        Self {
            magic,
            class: Class_::from_raw(bytes[4]),
            encoding: Data_::from_raw(bytes[5]),
            version: Version_::from_raw(bytes[6]),
            os_abi: OsAbi_::from_raw(bytes[7]),
            abi_version: bytes[8],
            padding,
        }
    }
}

impl Record for HeaderPt1 {
    ghost SIZE = { 16 };

    const SIZE: usize = 16;

    ghost value = { λ order bytes. header_pt1 bytes };

    ghost size_above_zero = { lit< tt };

    fn decode(bytes: &[u8], _order: Order) -> HeaderPt1 {
        Self::read(bytes)
    }
}

impl HeaderPt2_<P32> {
    // Reads the 36 bytes from `place` on.
    #[inline(always)]
    pub(crate) fn read(bytes: &[u8], place: usize, order: Order) -> HeaderPt2_<P32>
        requires { place + 36 ≤ length bytes.now }
        ensures { result ≡ header_pt2_32 order place bytes.now }
    {
        Self {
            type_: Type_::from_raw(read_u16(bytes, place, order)),
            machine: Machine_::from_raw(read_u16(bytes, place + 2, order)),
            version: read_u32(bytes, place + 4, order),
            entry_point: read_u32(bytes, place + 8, order),
            ph_offset: read_u32(bytes, place + 12, order),
            sh_offset: read_u32(bytes, place + 16, order),
            flags: read_u32(bytes, place + 20, order),
            header_size: read_u16(bytes, place + 24, order),
            ph_entry_size: read_u16(bytes, place + 26, order),
            ph_count: read_u16(bytes, place + 28, order),
            sh_entry_size: read_u16(bytes, place + 30, order),
            sh_count: read_u16(bytes, place + 32, order),
            sh_str_index: read_u16(bytes, place + 34, order),
        }
    }
}

impl Record for HeaderPt2_<P32> {
    ghost SIZE = { 36 };

    const SIZE: usize = 36;

    ghost value = { λ order bytes. header_pt2_32 order 0 bytes };

    ghost size_above_zero = { lit< tt };

    fn decode(bytes: &[u8], order: Order) -> HeaderPt2_<P32> {
        Self::read(bytes, 0, order)
    }
}

impl HeaderPt2_<P64> {
    // Reads the 48 bytes from `place` on.
    #[inline(always)]
    pub(crate) fn read(bytes: &[u8], place: usize, order: Order) -> HeaderPt2_<P64>
        requires { place + 48 ≤ length bytes.now }
        ensures { result ≡ header_pt2_64 order place bytes.now }
    {
        Self {
            type_: Type_::from_raw(read_u16(bytes, place, order)),
            machine: Machine_::from_raw(read_u16(bytes, place + 2, order)),
            version: read_u32(bytes, place + 4, order),
            entry_point: read_u64(bytes, place + 8, order),
            ph_offset: read_u64(bytes, place + 16, order),
            sh_offset: read_u64(bytes, place + 24, order),
            flags: read_u32(bytes, place + 32, order),
            header_size: read_u16(bytes, place + 36, order),
            ph_entry_size: read_u16(bytes, place + 38, order),
            ph_count: read_u16(bytes, place + 40, order),
            sh_entry_size: read_u16(bytes, place + 42, order),
            sh_count: read_u16(bytes, place + 44, order),
            sh_str_index: read_u16(bytes, place + 46, order),
        }
    }
}

impl Record for HeaderPt2_<P64> {
    ghost SIZE = { 48 };

    const SIZE: usize = 48;

    ghost value = { λ order bytes. header_pt2_64 order 0 bytes };

    ghost size_above_zero = { lit< tt };

    fn decode(bytes: &[u8], order: Order) -> HeaderPt2_<P64> {
        Self::read(bytes, 0, order)
    }
}
