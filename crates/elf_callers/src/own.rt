//! A symbol of one's own, to which what `xmas_elf` says of every `Entry` applies.

ghost use Rattle.std.proofs.Common.{lit<};
ghost use Rattle.elf_callers.specs.Numbered.{numbered_fields, numbered_name};
ghost use Rattle.xmas_elf.specs.Number.{number};

use xmas_elf::bytes::{Order, Record};
use xmas_elf::symbol_table::{Entry, Visibility_};
use xmas_elf::{ElfError, ElfFile};

/// A symbol of four bytes, which are its number. Number 1 is named `ab`, number 2 `zz`, and the
/// others have no name; its value is the number.
#[derive(Clone, Copy, Debug, PartialEq, Eq)]
pub struct Numbered {
    /// Which symbol it is.
    pub number: u32,
}

impl Record for Numbered {
    ghost SIZE = { 4 };

    const SIZE: usize = 4;

    ghost value = { λ order bytes. record { number = number order 4 0 bytes } };

    ghost size_above_zero = { lit< tt };

    fn decode(bytes: &[u8], order: Order) -> Numbered {
        Numbered {
            number: u32::decode(bytes, order),
        }
    }
}

impl Entry for Numbered {
    ghost fields = { λ symbol. numbered_fields symbol.number };

    ghost text_in = { λ symbol _. numbered_name symbol.number };

    fn name(&self) -> u32 {
        0
    }

    fn info(&self) -> u8 {
        0x10
    }

    fn other(&self) -> Visibility_ {
        Visibility_::from_raw(0)
    }

    fn shndx(&self) -> u16 {
        0
    }

    fn value(&self) -> u64 {
        u64::from(self.number)
    }

    fn size(&self) -> u64 {
        0
    }

    fn string_table<'a>(_file: &ElfFile<'a>) -> Option<Result<&'a [u8], ElfError>> {
        None
    }

    /// The name of this number, in every file; `TextEnd` for one that has none.
    fn get_name<'a>(&self, _file: &ElfFile<'a>) -> Result<&'a str, ElfError> {
        match self.number {
            1 => Ok("ab"),
            2 => Ok("zz"),
            _ => Err(ElfError::TextEnd),
        }
    }
}
