//! Tags of the dynamic section.

use crate::tests::want::{want, want_at};
use elf_base::bytes::{Order, Record};
use elf_base::{ElfError, P32, P64};
use elf_records::dynamic::{Dynamic, Tag, Tag_};
use std::process::Abort;
use worked_files::places::put;
use worked_files::rows;

const LITTLE: Order = Order::Little;

// A 32-bit entry with this tag, and the number 8.
fn narrow_entry(tag: u32) -> Dynamic<P32> {
    let mut bytes = [0; 8];
    put(&mut bytes, 0, &tag.to_le_bytes());
    bytes[4] = 8;
    Dynamic::<P32>::decode(&bytes, LITTLE)
}

// A 64-bit entry with this tag, and the number 2 to the 63.
fn wide_entry(tag: u32) -> Dynamic<P64> {
    let mut bytes = [0; 16];
    put(&mut bytes, 4, &tag.to_be_bytes());
    bytes[8] = 0x80;
    Dynamic::<P64>::decode(&bytes, Order::Big)
}

// What an entry has as its value and as its pointer, where it has them.
fn numbers<P: Copy>(number: P, has_value: bool, has_pointer: bool) -> [Result<P, ElfError>; 2] {
    let value = if has_value { Some(number) } else { None };
    let pointer = if has_pointer { Some(number) } else { None };
    [
        value.ok_or(ElfError::InvalidValue),
        pointer.ok_or(ElfError::InvalidPtr),
    ]
}

// Wants of a 32-bit entry with this tag its name, and whether it has a value and a pointer.
fn check_narrow(rt: &impl Abort, number: u32, name: &Tag<P32>, has_value: bool, has_pointer: bool) {
    let entry = narrow_entry(number);
    let found = entry.get_tag().ok().as_ref() == Some(name);
    want_at(rt, number, found, true);
    let found = [entry.get_val(), entry.get_ptr()];
    want_at(rt, number, found, numbers(8, has_value, has_pointer));
    let raw = [entry.raw_tag(), entry.raw_val()];
    want_at(rt, number, raw, [u64::from(number), 8]);
}

// The tags whose number is a value, those whose number is a pointer, and those without a number
// (gABI, "Dynamic Section").
const VALUES: &[(u32, Tag<P32>)] = rows! {
    1, Tag::Needed; 2, Tag::PltRelSize; 8, Tag::RelaSize; 9, Tag::RelaEnt; 10, Tag::StrSize;
    11, Tag::SymEnt; 14, Tag::SoName; 15, Tag::RPath; 18, Tag::RelSize; 19, Tag::RelEnt;
    20, Tag::PltRel; 27, Tag::InitArraySize; 28, Tag::FiniArraySize; 29, Tag::RunPath;
    30, Tag::Flags; 33, Tag::PreInitArraySize; 35, Tag::RelrSize; 37, Tag::RelrEnt;
    0x6fff_fffb, Tag::Flags1;
};

const POINTERS: &[(u32, Tag<P32>)] = rows! {
    3, Tag::Pltgot; 4, Tag::Hash; 5, Tag::StrTab; 6, Tag::SymTab; 7, Tag::Rela; 12, Tag::Init;
    13, Tag::Fini; 17, Tag::Rel; 21, Tag::Debug; 23, Tag::JmpRel; 25, Tag::InitArray;
    26, Tag::FiniArray; 32, Tag::PreInitArray; 34, Tag::SymTabShIndex; 36, Tag::Relr;
};

const NEITHER: &[(u32, Tag<P32>)] = rows! {
    0, Tag::Null; 16, Tag::Symbolic; 22, Tag::TextRel; 24, Tag::BindNow;
};

#[test]
fn names_the_tags(rt: HostRuntime) {
    for (number, name) in VALUES {
        check_narrow(&rt, *number, name, true, false);
    }
    for (number, name) in POINTERS {
        check_narrow(&rt, *number, name, false, true);
    }
    for (number, name) in NEITHER {
        check_narrow(&rt, *number, name, false, false);
    }
}

// The ends of the two ranges, whose tags have both.
#[test]
fn names_the_ranges_of_tags(rt: HostRuntime) {
    for number in [0x6000_000d, 0x6fff_fef5, 0x6fff_fffa, 0x6fff_ffff] {
        check_narrow(&rt, number, &Tag::OsSpecific(number), true, true);
    }
    for number in [0x7000_0000, 0x7fff_ffff] {
        check_narrow(&rt, number, &Tag::ProcessorSpecific(number), true, true);
    }
}

const WIDE_TAGS: &[(u32, Tag<P64>, bool, bool)] = &[
    (0, Tag::Null, false, false),
    (1, Tag::Needed, true, false),
    (3, Tag::Pltgot, false, true),
    (37, Tag::RelrEnt, true, false),
    (0x6000_000d, Tag::OsSpecific(0x6000_000d), true, true),
    (0x7fff_ffff, Tag::ProcessorSpecific(0x7fff_ffff), true, true),
];

// The same table serves class 64.
#[test]
fn names_the_tags_of_class_64(rt: HostRuntime) {
    for (number, name, has_value, has_pointer) in WIDE_TAGS {
        let entry = wide_entry(*number);
        let found = entry.get_tag().ok().as_ref() == Some(name);
        want_at(&rt, number, found, true);
        let found = [entry.get_val(), entry.get_ptr()];
        let wanted = numbers(1 << 63, *has_value, *has_pointer);
        want_at(&rt, number, found, wanted);
        let raw = [entry.raw_tag(), entry.raw_val()];
        want_at(&rt, number, raw, [u64::from(*number), 1 << 63]);
    }
    let found = Tag_::<P64>::from_raw(0x1_0000_0001).as_tag().is_err();
    want(&rt, found, true);
}

#[test]
fn rejects_other_tags(rt: HostRuntime) {
    for number in [31, 38, 0x6000_000c, 0x8000_0000, 0xffff_ffff] {
        let failed = Some(ElfError::InvalidTag);
        let entry = narrow_entry(number);
        let found = [
            entry.get_tag().err(),
            entry.get_val().err(),
            entry.get_ptr().err(),
        ];
        want_at(&rt, number, found, [failed; 3]);
        want_at(&rt, number, wide_entry(number).get_tag().err(), failed);
    }
}

// The bytes of an entry of class 32, their order, and its two numbers: a tag that is known, one of
// the processor, one that is unknown, and two with the highest bit set.
const NARROW_NUMBERS: &[([u8; 8], Order, [u32; 2])] = rows! {
    [5, 0, 0, 0, 8, 7, 6, 5], Order::Little, [5, 0x0506_0708];
    [0x70, 0, 0, 1, 8, 7, 6, 5], Order::Big, [0x7000_0001, 0x0807_0605];
    [0, 0, 0, 31, 0, 0, 0, 1], Order::Big, [31, 1];
    [1, 0, 0, 0x80, 2, 0, 0, 0x90], Order::Little, [0x8000_0001, 0x9000_0002];
    [0xff, 0xff, 0xff, 0xfe, 0xff, 0xff, 0xff, 0xfd], Order::Big, [0xffff_fffe, 0xffff_fffd];
};

// The same of class 64, with tags that are known only without their high half.
const WIDE_NUMBERS: &[([u8; 16], Order, [u64; 2])] = rows! {
    [5, 0, 0, 0, 0, 0, 0, 0, 8, 7, 6, 5, 4, 3, 2, 1], Order::Little, [5, 0x0102_0304_0506_0708];
    [0, 0, 0, 0, 0x70, 0, 0, 1, 8, 7, 6, 5, 4, 3, 2, 1], Order::Big, [0x7000_0001,
        0x0807_0605_0403_0201];
    [0, 0, 0, 0, 0x80, 0, 0, 1, 0, 0, 0, 0, 0x90, 0, 0, 2], Order::Big, [0x8000_0001, 0x9000_0002];
    [5, 0, 0, 0, 1, 0, 0, 0, 7, 0, 0, 0, 2, 0, 0, 0], Order::Little, [0x1_0000_0005, 0x2_0000_0007];
    [0x80, 0, 0, 0, 0, 0, 0, 5, 0xff, 0, 0, 0, 0, 0, 0, 7], Order::Big, [0x8000_0000_0000_0005,
        0xff00_0000_0000_0007];
};

// Each keeps its tag and its value.
#[test]
fn widens_entries(rt: HostRuntime) {
    for (bytes, order, numbers) in NARROW_NUMBERS {
        let [tag, value] = *numbers;
        let entry = Dynamic::<P32>::decode(bytes, *order).widened();
        let wanted = [u64::from(tag), u64::from(value)];
        want_at(&rt, tag, [entry.raw_tag(), entry.raw_val()], wanted);
        let named = Tag_::<P64>::from_raw(u64::from(tag)).as_tag();
        want_at(&rt, tag, entry.get_tag() == named, true);
    }
}

// The tag that the entry names is that of its number.
#[test]
fn returns_the_numbers_of_entries(rt: HostRuntime) {
    for (bytes, order, numbers) in NARROW_NUMBERS {
        let entry = Dynamic::<P32>::decode(bytes, *order);
        let [tag, value] = *numbers;
        let wanted = [u64::from(tag), u64::from(value)];
        want_at(&rt, tag, [entry.raw_tag(), entry.raw_val()], wanted);
        let named = Tag_::<P32>::from_raw(tag).as_tag();
        want_at(&rt, tag, entry.get_tag() == named, true);
    }
    for (bytes, order, numbers) in WIDE_NUMBERS {
        let entry = Dynamic::<P64>::decode(bytes, *order);
        let [tag, value] = *numbers;
        want_at(&rt, tag, [entry.raw_tag(), entry.raw_val()], [tag, value]);
        let named = Tag_::<P64>::from_raw(tag).as_tag();
        want_at(&rt, tag, entry.get_tag() == named, true);
    }
}
