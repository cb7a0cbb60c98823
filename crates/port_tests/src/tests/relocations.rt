//! Relocations of both widths.

use crate::tests::want::want;
use elf_base::bytes::{Order, Record};
use elf_base::{P32, P64};
use elf_records::sections::{Rel, Rela};

const LITTLE: Order = Order::Little;

#[test]
fn reads_narrow_relocations(rt: HostRuntime) {
    let bytes: [u8; 8] = [0x10, 0, 0, 0, 0x07, 0x03, 0, 0];
    let narrow = Rel::<P32>::decode(&bytes, LITTLE);
    let numbers = [narrow.get_offset(), narrow.get_symbol_table_index()];
    want(&rt, (numbers, narrow.get_type()), ([0x10, 3], 7));
    let bytes = b"\0\0\0\x10\xff\xff\xff\x07\xff\xff\xff\xfc";
    let narrow = Rela::<P32>::decode(bytes, Order::Big);
    let numbers = [narrow.get_offset(), narrow.get_symbol_table_index()];
    let found = (numbers, narrow.get_addend(), narrow.get_type());
    want(&rt, found, ([0x10, 0x00ff_ffff], 0xffff_fffc, 7));
}

#[test]
fn reads_wide_relocations(rt: HostRuntime) {
    let bytes: [u8; 16] = [1, 2, 3, 4, 5, 6, 7, 8, 7, 0, 0, 0x80, 3, 0, 0, 0xff];
    let wide = Rel::<P64>::decode(&bytes, LITTLE);
    let kind = (wide.get_symbol_table_index(), wide.get_type());
    want(&rt, wide.get_offset(), 0x0807_0605_0403_0201);
    want(&rt, kind, (0xff00_0003, 0x8000_0007));
    let bytes = b"\x10\0\0\0\0\0\0\0\x07\0\0\0\x03\0\0\0\xfc\xff\xff\xff\xff\xff\xff\xff";
    let wide = Rela::<P64>::decode(bytes, LITTLE);
    let kind = (wide.get_symbol_table_index(), wide.get_type());
    let found = [wide.get_offset(), wide.get_addend()];
    want(&rt, found, [0x10, u64::MAX - 3]);
    want(&rt, kind, (3, 7));
}
