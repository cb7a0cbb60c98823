//! Numbers and records in bytes, in a given byte order.

ghost use Rattle.std.specs.Prelude.{◌≡◌, ◌+◌, ◌≤◌, length, slice_index};
ghost use Rattle.elf_base.specs.Number.{number};

mod record;
mod table;
mod text;

pub use crate::bytes::record::Record;
pub use crate::bytes::table::{Table, TableIter};
pub use crate::bytes::text::{
    bytes_up_to_zero, has_bytes_at, is_found_at, text_at, text_is, text_range,
};
use byteorder::{BigEndian, ByteOrder, LittleEndian};

/// The byte order of numbers (gABI, "ELF Header", EI_DATA).
#[derive(Clone, Copy, Debug, PartialEq, Eq)]
pub enum Order {
    /// `ELFDATA2LSB`: the least significant byte comes first.
    Little,
    /// `ELFDATA2MSB`: the most significant byte comes first.
    Big,
}

/// Reads the 16-bit unsigned number in the two bytes from `place` on.
#[inline(always)]
pub fn read_u16(bytes: &[u8], place: usize, order: Order) -> u16
    requires { place + 2 ≤ length bytes.now }
    ensures { result ≡ number order 2 place bytes.now }
{
    match order {
        Order::Little => LittleEndian::read_u16(&bytes[place..]),
        Order::Big => BigEndian::read_u16(&bytes[place..]),
    }
}

/// Reads the 32-bit unsigned number in the four bytes from `place` on.
#[inline(always)]
pub fn read_u32(bytes: &[u8], place: usize, order: Order) -> u32
    requires { place + 4 ≤ length bytes.now }
    ensures { result ≡ number order 4 place bytes.now }
{
    match order {
        Order::Little => LittleEndian::read_u32(&bytes[place..]),
        Order::Big => BigEndian::read_u32(&bytes[place..]),
    }
}

/// Reads the 64-bit unsigned number in the eight bytes from `place` on.
#[inline(always)]
pub fn read_u64(bytes: &[u8], place: usize, order: Order) -> u64
    requires { place + 8 ≤ length bytes.now }
    ensures { result ≡ number order 8 place bytes.now }
{
    match order {
        Order::Little => LittleEndian::read_u64(&bytes[place..]),
        Order::Big => BigEndian::read_u64(&bytes[place..]),
    }
}
