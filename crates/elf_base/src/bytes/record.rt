//! Records of a fixed size.

ghost use Rattle.std.specs.Prelude.{◌≡◌, ◌<◌, ℕ, List, length};
ghost use Rattle.std.proofs.Common.{lit<};
ghost use Rattle.elf_base.specs.Number.{number};
ghost use Rattle.elf_base.specs.declared.bytes.Order.{Order};

use crate::bytes::{Order, read_u32, read_u64};

/// A value decoded from a fixed number of bytes, such as a header or a symbol.
///
/// The ghost member `value` of an implementation says what its bytes mean in a byte order.
pub trait Record: Copy {
    ghost SIZE: { ℕ };

    /// The size of a record in bytes, above 0.
    const SIZE: usize;

    ghost value: { Order → List ℕ → Self };

    /// Decodes the record in `bytes`, which has `SIZE` bytes.
    fn decode(bytes: &[u8], order: Order) -> Self
        requires { length bytes.now ≡ SIZE }
        ensures { result ≡ value order bytes.now };

    ghost size_above_zero: { 0 < SIZE };
}

impl Record for u32 {
    ghost SIZE = { 4 };

    const SIZE: usize = 4;

    ghost value = { λ order bytes. number order 4 0 bytes };

    ghost size_above_zero = { lit< tt };

    fn decode(bytes: &[u8], order: Order) -> u32 {
        read_u32(bytes, 0, order)
    }
}

impl Record for u64 {
    ghost SIZE = { 8 };

    const SIZE: usize = 8;

    ghost value = { λ order bytes. number order 8 0 bytes };

    ghost size_above_zero = { lit< tt };

    fn decode(bytes: &[u8], order: Order) -> u64 {
        read_u64(bytes, 0, order)
    }
}
