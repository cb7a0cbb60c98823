//! Which addresses packed relative relocations name.

ghost use Rattle.std.specs.Prelude.{◌<◌, ◌^◌, length};

use crate::tests::want::{want, want_at};
use elf_base::bytes::Order;
use elf_base::header::Class;
use elf_linking::LinkError;
use elf_linking::relr::Relr;
use std::process::Abort;
use std::test::Fail;
use worked_files::places::{Place, set};
use worked_files::rows;

const LITTLE: Order = Order::Little;

const BIG: Order = Order::Big;

const NARROW: Class = Class::ThirtyTwo;

const WIDE: Class = Class::SixtyFour;

// The words of a row, each in four or eight bytes, zeros behind them, and how many bytes they are.
fn bytes_of(words: &[u64], class: Class, order: Order) -> ([u8; 32], usize) {
    let size: usize = if class == NARROW { 4 } else { 8 };
    let mut bytes = [0; 32];
    for (k, word) in words.iter().enumerate() {
        let place = Place(0, size);
        set(&mut bytes, k.wrapping_mul(size), place, *word, order);
    }
    (bytes, words.len().wrapping_mul(size))
}

// The class, the words, and the addresses that they name.
const ROWS: &[(Class, &[u64], &[u64])] = rows! {
    WIDE, &[], &[];
    WIDE, &[0x1000], &[0x1000];
    WIDE, &[0x1000, 0x3], &[0x1000, 0x1008];
    WIDE, &[0x1000, 1 << 63 | 1], &[0x1000, 0x11f8];
    WIDE, &[0x1000, 0x1, 0x3], &[0x1000, 0x1200];
    WIDE, &[0x5], &[8];
    WIDE, &[0xffff_ffff_ffff_fff8, 0x3], &[0xffff_ffff_ffff_fff8, 0];
    WIDE, &[0x1000, 0x2000, 0x7], &[0x1000, 0x2000, 0x2008, 0x2010];
    NARROW, &[0x1000, 0x3], &[0x1000, 0x1004];
    NARROW, &[0x1000, 0x8000_0001], &[0x1000, 0x107c];
    NARROW, &[0x1000, 0x1, 0x3], &[0x1000, 0x1080];
    NARROW, &[0xffff_fffc, 0x3], &[0xffff_fffc, 0];
    // as a linker wrote them, with the addresses that `readelf -r` prints
    WIDE, &[0x3c0, 0x9, 0x3e43],
        &[0x3c0, 0x3d8, 0x5c0, 0x5e8, 0x600, 0x608, 0x610, 0x618, 0x620];
    NARROW, &[0x1e0, 0x9, 0x2e0, 0x7e1],
        &[0x1e0, 0x1ec, 0x2e0, 0x2f4, 0x2f8, 0x2fc, 0x300, 0x304, 0x308];
};

// Wants these addresses of words and no more, also when they are asked for once more.
fn check(rt: &impl Abort, row: usize, mut relr: Relr<'_>, addresses: &[u64]) {
    for address in addresses {
        want_at(rt, row, relr.next(), Some(*address));
    }
    want_at(rt, row, relr.next(), None);
    want_at(rt, row, relr.next(), None);
}

#[test]
fn words_name_addresses(rt: HostRuntime) -> Result<(), LinkError> {
    for (row, &(class, words, addresses)) in ROWS.iter().enumerate() {
        for order in [LITTLE, BIG] {
            let (bytes, len) = bytes_of(words, class, order);
            let bytes = bytes.get(..len).unwrap_or(b"a long row");
            check(&rt, row, Relr::new(bytes, class, order)?, addresses);
        }
    }
    Ok(())
}

// How many relocations these words name.
fn relocation_count(bytes: &[u8], class: Class, order: Order) -> Result<usize, LinkError>
    requires { length bytes.now < 2 ^ 61 }
{
    Ok(Relr::new(bytes, class, order)?.count())
}

const COUNTS: &[(usize, Class, Result<usize, LinkError>)] = &[
    (12, WIDE, Err(LinkError::NotMultiple)),
    (9, NARROW, Err(LinkError::NotMultiple)),
    (3, NARROW, Err(LinkError::NotMultiple)),
    (8, Class::None, Err(LinkError::UnknownClass)),
    (9, Class::Other(3), Err(LinkError::UnknownClass)),
    (8, WIDE, Ok(1)),
    (12, NARROW, Ok(3)),
    (0, WIDE, Ok(0)),
];

#[test]
fn data_that_is_no_words_is_an_error(rt: HostRuntime) {
    let bytes = [0; 12];
    for &(len, class, answer) in COUNTS {
        let found = relocation_count(&bytes[..len], class, LITTLE);
        want_at(&rt, len, found, answer);
    }
}

#[test]
fn relocations_are_counted_and_found(rt: HostRuntime) -> Result<(), Fail> {
    // a bitmap of all bits but the lowest is 63 addresses
    let (bytes, _len) = bytes_of(&[0x1000, u64::MAX], WIDE, LITTLE);
    want(&rt, relocation_count(&bytes[..16], WIDE, LITTLE), Ok(64));
    let rows = [
        (0x1000, true),
        (0x11f8, true),
        (0x1004, false),
        (0x1200, false),
    ];
    for (address, is_relocated) in rows {
        let mut relr = Relr::new(&bytes[..16], WIDE, LITTLE)?;
        let found = relr.any(|relocated| relocated == address);
        want_at(&rt, address, found, is_relocated);
    }
    Ok(())
}
