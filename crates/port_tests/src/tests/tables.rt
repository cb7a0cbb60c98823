//! Tables of words, and of a record that the test brings itself.

ghost use Rattle.std.specs.Prelude.{◌≡◌, slice_index};
ghost use Rattle.std.proofs.Common.{lit<};

use crate::tests::want::{want, want_at};
use elf_base::ElfError;
use elf_base::bytes::{Order, Record, Table};
use std::process::Abort;

const LITTLE: Order = Order::Little;

const BYTES: [u8; 16] = [1, 0, 0, 0, 0, 0, 0, 2, 3, 4, 5, 6, 7, 8, 9, 10];

// Wants these words of a table of those bytes, by each way to go over it.
fn check_words(rt: &impl Abort, order: Order, words: [u32; 4]) -> Result<(), ElfError> {
    let table = Table::<u32>::new(&BYTES, order)?;
    let mut index = 0usize;
    for word in table {
        want_at(rt, index, words.get(index).copied(), Some(word));
        index = index.wrapping_add(1);
    }
    want(rt, index, 4);
    want(rt, table.into_iter().count(), 4);
    let place = table.iter().position(|word| word == words[2]);
    want(rt, place, Some(2));
    want(rt, table.iter().find(|word| *word == 77), None);
    Ok(())
}

#[test]
fn reads_tables_of_words(rt: HostRuntime) -> Result<(), ElfError> {
    let little = [1, 0x0200_0000, 0x0605_0403, 0x0a09_0807];
    check_words(&rt, Order::Little, little)?;
    let big = [0x0100_0000, 2, 0x0304_0506, 0x0708_090a];
    check_words(&rt, Order::Big, big)
}

#[test]
fn reads_tables_of_wide_words(rt: HostRuntime) -> Result<(), ElfError> {
    let wide = Table::<u64>::new(&BYTES, Order::Big)?;
    want(&rt, wide.len(), 2);
    want(&rt, wide.get(0), Some(0x0100_0000_0000_0002));
    let wide = Table::<u64>::new(&BYTES, Order::Little)?;
    want(&rt, wide.get(1), Some(0x0a09_0807_0605_0403));
    let failed = Table::<u64>::new(&BYTES[..12], LITTLE).err();
    want(&rt, failed, Some(ElfError::NotMultiple));
    Ok(())
}

/// A colour of three bytes.
#[derive(Clone, Copy, Debug, PartialEq, Eq)]
struct Colour {
    red: u8,
    green: u8,
    blue: u8,
}

impl Record for Colour {
    ghost SIZE = { 3 };

    const SIZE: usize = 3;

    ghost value = { λ _ bytes.
        record {
          red = slice_index bytes 0;
          green = slice_index bytes 1;
          blue = slice_index bytes 2;
        } };

    ghost size_above_zero = { lit< tt };

    fn decode(bytes: &[u8], _order: Order) -> Colour {
        Colour {
            red: bytes[0],
            green: bytes[1],
            blue: bytes[2],
        }
    }
}

const COLOUR_BYTES: [u8; 10] = [1, 2, 3, 4, 5, 6, 7, 8, 9, 10];

const COLOURS: [Colour; 3] = [
    Colour {
        red: 1,
        green: 2,
        blue: 3,
    },
    Colour {
        red: 4,
        green: 5,
        blue: 6,
    },
    Colour {
        red: 7,
        green: 8,
        blue: 9,
    },
];

// Wants three colours of a table, by index.
fn check_table(rt: &impl Abort, table: Table<'_, Colour>) {
    want(rt, table.len(), 3);
    want(rt, table.is_empty(), false);
    want(rt, table.bytes(), &COLOUR_BYTES[..9]);
    for (index, colour) in COLOURS.iter().enumerate() {
        want_at(rt, index, table.get(index), Some(*colour));
    }
    want(rt, table.get(3), None);
    want(rt, table.get(usize::MAX), None);
}

// Wants them of its iterator.
fn check_items(rt: &impl Abort, table: Table<'_, Colour>) {
    let mut items = table.iter();
    for colour in COLOURS {
        want(rt, items.next(), Some(colour));
    }
    want(rt, items.next(), None);
    want(rt, items.next(), None);
}

// A table of a record that the test brings itself.
#[test]
fn reads_tables_of_any_record(rt: HostRuntime) -> Result<(), ElfError> {
    let table = Table::<Colour>::new(&COLOUR_BYTES[..9], LITTLE)?;
    check_table(&rt, table);
    check_items(&rt, table);
    Ok(())
}

#[test]
fn tables_have_whole_records(rt: HostRuntime) {
    for length in [1, 2, 4, 5, 7, 8, 10] {
        let failed = Table::<Colour>::new(&COLOUR_BYTES[..length], LITTLE).err();
        want_at(&rt, length, failed, Some(ElfError::NotMultiple));
    }
}

#[test]
fn tables_may_be_empty(rt: HostRuntime) -> Result<(), ElfError> {
    let none = Table::<Colour>::new(&COLOUR_BYTES[..0], LITTLE)?;
    want(&rt, none.is_empty(), true);
    want(&rt, none.get(0), None);
    want(&rt, none.iter().next(), None);
    Ok(())
}
