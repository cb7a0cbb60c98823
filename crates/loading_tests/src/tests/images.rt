//! Whether the words of a file can be written: each error of the check alone, and which of two comes
//! first. What is accepted is worked out by hand from the list of errors.

use crate::tests::relocated_files::{SIZE, TABLE, base_file};
use crate::tests::rows::{LIMIT, open};
use crate::tests::want::want_at;
use elf_linking::scope::Scope;
use elf_linking::view::LinkedSymbol;
use elf_linking::{DynamicObject, LinkError};
use elf_loading::{LoadError, LoadPlan, LoadScope};
use std::process::Abort;
use worked_files::places::{Place, header_64, program_64, set};
use xmas_elf::bytes::Order;
use xmas_elf::symbol_table::DynEntry64;

// A field that is changed: its offset in the file, its place after that, and its new value.
pub type Change = (usize, Place, u64);

// Changes of a file, and the result of the check.
pub type Row = (&'static [Change], Result<(), LoadError>);

// The size of a page: the load fills its pages.
pub const PAGE: u64 = 128;

// A bit for each byte of the span, which is that of the load.
pub const MARKS: usize = SIZE / 8;

// The program headers of the load and of the dynamic segment, of class 64.
pub const LOAD: usize = 64;

const DYNAMIC: usize = 120;

// The numbers of the dynamic entries of `ENTRIES_64`, which are after four of the base file.
const RELA: usize = 0x348;

const RELA_SIZE: usize = 0x358;

pub const RELA_EACH: usize = 0x368;

const SLOTS: usize = 0x378;

const SLOTS_SIZE: usize = 0x388;

const SLOTS_KIND: usize = 0x398;

const PACKED: usize = 0x3a8;

const PACKED_SIZE: usize = 0x3b8;

const PACKED_EACH: usize = 0x3c8;

const GOT: usize = 0x3d8;

const OTHER: usize = 0x3e8;

// Tables of two relocations, of one slot, and of one packed relocation; and one that isn't read.
const ENTRIES_64: &[(u64, u64)] = &[
    (7, 0x1240),
    (8, 48),
    (9, 24),
    (23, 0x1270),
    (2, 24),
    (20, 7),
    (36, 0x12a0),
    (35, 8),
    (37, 8),
    (3, 0),
];

pub const WIDE: Place = Place(0, 8);

const TAG: Place = Place(0, 8);

// The first and the second relocation, and the slot: the address, and the type.
pub const FIRST: usize = TABLE;

pub const SECOND: usize = TABLE + 24;

pub const SLOT: usize = TABLE + 48;

pub const KIND: Place = Place(8, 4);

pub const SYMBOL: Place = Place(12, 4);

// The packed relocation.
pub const ADDRESS: usize = TABLE + 96;

// The size of the symbol that is copied, and the number of buckets.
const SYMBOL_SIZE: usize = 0x138 + 16;

pub const BUCKETS: usize = 0x1e0;

pub const NARROW: Place = Place(0, 4);

// A file for x86-64 whose words are at 0x1600, 0x1608, 0x1610 and 0x1618, of 8 bytes each.
pub fn file_64() -> [u8; SIZE] {
    let mut file = base_file(2, 62, ENTRIES_64);
    for &(start, place, value) in &[
        (LOAD, program_64::MEM_SIZE, SIZE as u64),
        (LOAD, program_64::FLAGS, 6),
        (DYNAMIC, program_64::MEM_SIZE, 0x200),
        (DYNAMIC, program_64::FLAGS, 4),
        (FIRST, WIDE, 0x1600),
        (FIRST, KIND, 8),
        (SECOND, WIDE, 0x1608),
        (SECOND, KIND, 1),
        (SECOND, SYMBOL, 1),
        (SLOT, WIDE, 0x1610),
        (SLOT, KIND, 7),
        (SLOT, SYMBOL, 1),
        (ADDRESS, WIDE, 0x1618),
    ] {
        set(&mut file, start, place, value, Order::Little);
    }
    file
}

// The result of the check of an object of a scope of two objects of one file.
fn checked<E: LinkedSymbol>(
    rt: &impl Abort,
    bytes: &[u8],
    of: usize,
    marks: &mut [u8],
) -> Result<(), LoadError> {
    let file = open(rt, bytes);
    let one = DynamicObject::<E>::read(&file).expect(rt, "an object");
    let two = DynamicObject::<E>::read(&file).expect(rt, "an object");
    let plan = LoadPlan::check_load(&file, PAGE, LIMIT).expect(rt, "a plan");
    LoadScope::new(Scope::new(&[one, two]), &[plan, plan]).check_image(of, marks)
}

// Wants these results of a file with changes.
pub fn check_rows<E: LinkedSymbol>(rt: &impl Abort, good: [u8; SIZE], rows: &[Row]) {
    for (row, (changes, wanted)) in rows.iter().enumerate() {
        let mut bytes = good;
        for &(start, place, value) in changes.iter() {
            set(&mut bytes, start, place, value, Order::Little);
        }
        // marks of an earlier check are cleared
        let mut marks = [0xff; MARKS];
        let found = checked::<E>(rt, &bytes, 0, &mut marks);
        want_at(rt, row, found, *wanted);
    }
}

const TABLES_64: &[Row] = &[
    (&[], Ok(())),
    // the dynamic segment is not where the file has it
    (
        &[(DYNAMIC, program_64::OFFSET, 0x310)],
        Err(LoadError::Dynamic),
    ),
    // a dynamic segment to the end of the file has the words in it
    (
        &[(DYNAMIC, program_64::MEM_SIZE, 0x380)],
        Err(LoadError::WordInTable),
    ),
    (
        &[(DYNAMIC, program_64::MEM_SIZE, 0x381)],
        Err(LoadError::Dynamic),
    ),
    // one without bytes in memory still has its entries in the file
    (&[(DYNAMIC, program_64::MEM_SIZE, 0)], Ok(())),
    (
        &[(DYNAMIC, program_64::MEM_SIZE, 0), (FIRST, WIDE, 0x1310)],
        Err(LoadError::WordInTable),
    ),
    (&[(LOAD, program_64::FLAGS, 2)], Err(LoadError::Dynamic)),
    (&[(DYNAMIC, program_64::FLAGS, 6)], Ok(())),
    (
        &[
            (DYNAMIC, program_64::FLAGS, 6),
            (LOAD, program_64::FLAGS, 4),
        ],
        Err(LoadError::Dynamic),
    ),
    // versions of no symbols, and no table for slots: glibc crashes
    (
        &[(OTHER - 8, TAG, 0x6fff_fffc), (OTHER, WIDE, 0x1620)],
        Err(LoadError::NoEntry),
    ),
    (
        &[(OTHER - 8, TAG, 0x6fff_fffe), (OTHER, WIDE, 0x1620)],
        Err(LoadError::NoEntry),
    ),
    (&[(OTHER - 8, TAG, 0x6fff_ffff)], Ok(())),
    (&[(GOT - 8, TAG, 0x70)], Err(LoadError::NoEntry)),
    (
        &[
            (GOT - 8, TAG, 0x70),
            (SLOTS - 8, TAG, 0x70),
            (SLOTS_KIND - 8, TAG, 0x70),
        ],
        Ok(()),
    ),
    (&[(GOT - 8, TAG, 0x70), (OTHER - 8, TAG, 24)], Ok(())),
    (&[(RELA_EACH, WIDE, 16)], Err(LoadError::RelocationSize)),
    (
        &[(RELA_EACH - 8, TAG, 0x70)],
        Err(LoadError::RelocationSize),
    ),
    (&[(PACKED_EACH, WIDE, 4)], Err(LoadError::RelocationSize)),
    (&[(RELA_SIZE, WIDE, 47)], Err(LoadError::NotMultiple)),
    (&[(SLOTS_SIZE, WIDE, 23)], Err(LoadError::NotMultiple)),
    (&[(PACKED_SIZE, WIDE, 7)], Err(LoadError::NotMultiple)),
    (&[(RELA_SIZE - 8, TAG, 0x70)], Err(LoadError::Unreadable)),
    (&[(RELA, WIDE, 0x9000)], Err(LoadError::Unreadable)),
    (&[(RELA_SIZE, WIDE, 24 * 46)], Err(LoadError::Unreadable)),
    (&[(PACKED, WIDE, 0x1679)], Err(LoadError::Unreadable)),
    (&[(SLOTS, WIDE, 0x1669)], Err(LoadError::Unreadable)),
    (&[(SLOTS_KIND, WIDE, 8)], Err(LoadError::SlotKind)),
    (&[(SLOTS_KIND - 8, TAG, 0x70)], Err(LoadError::SlotKind)),
    // with these glibc 2.36 ends by an assertion, applies none, and crashes
    (&[(SLOTS_KIND, WIDE, 17)], Err(LoadError::NoAddends)),
    (&[(OTHER - 8, TAG, 17)], Err(LoadError::NoAddends)),
    (&[(SLOTS - 8, TAG, 0x70)], Err(LoadError::NoSlots)),
    // a bitmap before any address: glibc crashes
    (&[(ADDRESS, WIDE, 0x1619)], Err(LoadError::FirstPacked)),
    // a hash table to the end of the file, with the words in it, and 4 bytes more
    (&[(BUCKETS, NARROW, 0x120)], Err(LoadError::WordInTable)),
    (&[(BUCKETS, NARROW, 0x121)], Err(LoadError::Unreadable)),
    (&[(0, header_64::MACHINE, 3)], Err(LoadError::Machine)),
    (&[(0, header_64::MACHINE, 40)], Err(LoadError::Machine)),
];

// Changes of the last entry: a tag, and its number.
const TAG_AT: usize = OTHER - 8;

const COUNT: u64 = 0x6fff_fff9;

pub const COUNT_OF_REL: u64 = 0x6fff_fffa;

// What glibc 2.36 does with such a library stands in oracle/relocations.py.
const RECORDS_64: &[Row] = &[
    // one relative relocation, and two
    (&[(TAG_AT, TAG, COUNT), (OTHER, WIDE, 0)], Ok(())),
    (&[(TAG_AT, TAG, COUNT), (OTHER, WIDE, 1)], Ok(())),
    (
        &[(TAG_AT, TAG, COUNT), (OTHER, WIDE, 2)],
        Err(LoadError::RelativeCount),
    ),
    (
        &[(TAG_AT, TAG, COUNT), (OTHER, WIDE, 2), (SECOND, KIND, 8)],
        Ok(()),
    ),
    (
        &[(TAG_AT, TAG, COUNT), (OTHER, WIDE, 3), (SECOND, KIND, 8)],
        Err(LoadError::RelativeCount),
    ),
    (
        &[(TAG_AT, TAG, COUNT), (OTHER, WIDE, 2), (FIRST, KIND, 1)],
        Err(LoadError::RelativeCount),
    ),
    (
        &[(TAG_AT, TAG, COUNT), (OTHER, WIDE, u64::MAX)],
        Err(LoadError::RelativeCount),
    ),
    // the table is shorter
    (
        &[
            (TAG_AT, TAG, COUNT),
            (OTHER, WIDE, 2),
            (SECOND, KIND, 8),
            (RELA_SIZE, WIDE, 24),
        ],
        Err(LoadError::RelativeCount),
    ),
    // the third is of the procedure linkage table again
    (
        &[
            (TAG_AT, TAG, COUNT),
            (OTHER, WIDE, 3),
            (SECOND, KIND, 8),
            (SLOT, KIND, 8),
            (RELA_SIZE, WIDE, 72),
        ],
        Err(LoadError::RelativeCount),
    ),
    // there is no table for the count
    (&[(TAG_AT, TAG, COUNT_OF_REL), (OTHER, WIDE, 9)], Ok(())),
    (
        &[
            (TAG_AT, TAG, COUNT),
            (OTHER, WIDE, 9),
            (RELA - 8, TAG, 0x70),
        ],
        Ok(()),
    ),
    // at address 0 there is none
    (
        &[(TAG_AT, TAG, COUNT), (OTHER, WIDE, 9), (RELA, WIDE, 0)],
        Ok(()),
    ),
    // types of the procedure linkage table: a descriptor and what a function returns are allowed
    (&[(SLOT, KIND, 1)], Err(LoadError::SlotType)),
    (&[(SLOT, KIND, 6)], Err(LoadError::SlotType)),
    (&[(SLOT, KIND, 0)], Err(LoadError::SlotType)),
    (&[(SLOT, KIND, 9)], Err(LoadError::SlotType)),
    (
        &[(SLOT, KIND, 36), (SLOT, SYMBOL, 3), (SLOT, WIDE, 0x1620)],
        Ok(()),
    ),
    (&[(SLOT, KIND, 37), (SLOT, SYMBOL, 0)], Ok(())),
    (&[(SLOT, KIND, 37)], Err(LoadError::CallSymbol)),
    // the file asks for its symbols before it runs
    (&[(SLOT, KIND, 1), (TAG_AT, TAG, 24)], Ok(())),
    (
        &[(SLOT, KIND, 1), (TAG_AT, TAG, 30), (OTHER, WIDE, 8)],
        Ok(()),
    ),
    (
        &[(SLOT, KIND, 1), (TAG_AT, TAG, 30), (OTHER, WIDE, 2)],
        Err(LoadError::SlotType),
    ),
    // sizes and copies
    (&[(SECOND, KIND, 33)], Ok(())),
    (
        &[(SECOND, KIND, 33), (SECOND, SYMBOL, 2)],
        Err(LoadError::NoSize),
    ),
    (
        &[(FIRST, KIND, 5), (FIRST, SYMBOL, 4)],
        Err(LoadError::CopyKind),
    ),
    (
        &[(FIRST, KIND, 5), (FIRST, SYMBOL, 5)],
        Err(LoadError::CopyKind),
    ),
    // the first of two errors
    (
        &[
            (TAG_AT, TAG, COUNT),
            (OTHER, WIDE, 2),
            (0, header_64::MACHINE, 40),
        ],
        Err(LoadError::Machine),
    ),
    (
        &[(TAG_AT, TAG, COUNT), (OTHER, WIDE, 2), (SLOT, KIND, 1)],
        Err(LoadError::RelativeCount),
    ),
    (
        &[(SLOT, KIND, 1), (FIRST, KIND, 9)],
        Err(LoadError::SlotType),
    ),
];

const WORDS_64: &[Row] = &[
    // the types of AArch64, and one of x86-64 among them
    (
        &[
            (0, header_64::MACHINE, 183),
            (FIRST, KIND, 1027),
            (SECOND, KIND, 257),
            (SLOT, KIND, 1026),
        ],
        Ok(()),
    ),
    (
        &[
            (0, header_64::MACHINE, 183),
            (FIRST, KIND, 8),
            (SECOND, KIND, 257),
            (SLOT, KIND, 1026),
        ],
        Err(LoadError::WordType),
    ),
    (&[(FIRST, KIND, 9)], Err(LoadError::WordType)),
    (
        &[(SECOND, SYMBOL, 6)],
        Err(LoadError::Link(LinkError::SymbolIndex)),
    ),
    // the last 8 bytes of the load, and one byte more
    (&[(FIRST, WIDE, 0x1678)], Ok(())),
    (&[(FIRST, WIDE, 0x1679)], Err(LoadError::WordAddress)),
    (&[(FIRST, WIDE, 0x1000)], Ok(())),
    (&[(FIRST, WIDE, 0xfff)], Err(LoadError::WordAddress)),
    (&[(FIRST, WIDE, u64::MAX)], Err(LoadError::WordAddress)),
    (&[(LOAD, program_64::FLAGS, 4)], Err(LoadError::ReadOnly)),
    (
        &[(LOAD, program_64::FLAGS, 4), (OTHER - 8, TAG, 22)],
        Ok(()),
    ),
    (
        &[
            (LOAD, program_64::FLAGS, 4),
            (OTHER - 8, TAG, 30),
            (OTHER, WIDE, 4),
        ],
        Ok(()),
    ),
    (
        &[
            (LOAD, program_64::FLAGS, 4),
            (OTHER - 8, TAG, 30),
            (OTHER, WIDE, 8),
        ],
        Err(LoadError::ReadOnly),
    ),
    // one byte in common with the word after it, before it, and of another table
    (&[(FIRST, WIDE, 0x1601)], Err(LoadError::WordsOverlap)),
    (&[(FIRST, WIDE, 0x15f8)], Ok(())),
    (&[(SECOND, WIDE, 0x1607)], Err(LoadError::WordsOverlap)),
    (&[(SLOT, WIDE, 0x160f)], Err(LoadError::WordsOverlap)),
    (&[(ADDRESS, WIDE, 0x1610)], Err(LoadError::WordsOverlap)),
    (&[(ADDRESS, WIDE, 0x15f8)], Ok(())),
    (&[(SECOND, WIDE, 0x1600)], Err(LoadError::WordsOverlap)),
    // a slot that is a relocation of DT_RELA again is passed over
    (&[(RELA_SIZE, WIDE, 72)], Ok(())),
    // a word without bytes may be anywhere
    (&[(FIRST, KIND, 0), (FIRST, WIDE, 0x1608)], Ok(())),
    (&[(FIRST, KIND, 0), (FIRST, WIDE, 0)], Ok(())),
    // copies of 8 and of 9 bytes; a descriptor of 16
    (&[(FIRST, KIND, 5), (FIRST, SYMBOL, 1)], Ok(())),
    (
        &[(FIRST, KIND, 5), (FIRST, SYMBOL, 1), (SYMBOL_SIZE, WIDE, 9)],
        Err(LoadError::WordsOverlap),
    ),
    (
        &[(FIRST, KIND, 36), (FIRST, SYMBOL, 3)],
        Err(LoadError::WordsOverlap),
    ),
    // before, in and after each table
    (&[(FIRST, WIDE, 0x12f8)], Ok(())),
    (&[(FIRST, WIDE, 0x12f9)], Err(LoadError::WordInTable)),
    (&[(FIRST, WIDE, 0x1500)], Ok(())),
    (&[(FIRST, WIDE, 0x14ff)], Err(LoadError::WordInTable)),
    (&[(FIRST, WIDE, 0x10f8)], Ok(())),
    (&[(FIRST, WIDE, 0x10f9)], Err(LoadError::WordInTable)),
    (&[(FIRST, WIDE, 0x110b)], Ok(())),
    (&[(FIRST, WIDE, 0x110a)], Err(LoadError::WordInTable)),
    (&[(FIRST, WIDE, 0x11b0)], Ok(())),
    (&[(FIRST, WIDE, 0x11af)], Err(LoadError::WordInTable)),
    (&[(FIRST, WIDE, 0x1204)], Ok(())),
    (&[(FIRST, WIDE, 0x1203)], Err(LoadError::WordInTable)),
    (&[(FIRST, WIDE, 0x1238)], Ok(())),
    (&[(FIRST, WIDE, 0x1239)], Err(LoadError::WordInTable)),
    (&[(FIRST, WIDE, 0x1288)], Ok(())),
    (&[(FIRST, WIDE, 0x1287)], Err(LoadError::WordInTable)),
    (&[(FIRST, WIDE, 0x12a8)], Ok(())),
    (&[(FIRST, WIDE, 0x12a7)], Err(LoadError::WordInTable)),
    // a table without bytes has none in common with a word around it
    (&[(PACKED, WIDE, 0x1604), (PACKED_SIZE, WIDE, 0)], Ok(())),
];

const TWO_64: &[Row] = &[
    (
        &[(LOAD, program_64::FLAGS, 2), (RELA_EACH, WIDE, 16)],
        Err(LoadError::Dynamic),
    ),
    (
        &[(RELA_EACH, WIDE, 16), (RELA_SIZE, WIDE, 47)],
        Err(LoadError::RelocationSize),
    ),
    (
        &[(RELA_SIZE, WIDE, 47), (PACKED_EACH, WIDE, 4)],
        Err(LoadError::NotMultiple),
    ),
    (
        &[(RELA_SIZE, WIDE, 47), (RELA, WIDE, 0x9000)],
        Err(LoadError::NotMultiple),
    ),
    (
        &[(PACKED, WIDE, 0x9000), (SLOTS_KIND, WIDE, 8)],
        Err(LoadError::Unreadable),
    ),
    (
        &[(SLOTS_KIND, WIDE, 17), (SLOTS - 8, TAG, 0x70)],
        Err(LoadError::NoAddends),
    ),
    (
        &[(SLOTS - 8, TAG, 0x70), (RELA_EACH, WIDE, 16)],
        Err(LoadError::NoSlots),
    ),
    (
        &[(ADDRESS, WIDE, 0x1619), (SLOTS_KIND, WIDE, 8)],
        Err(LoadError::FirstPacked),
    ),
    (
        &[(SLOTS_KIND, WIDE, 8), (BUCKETS, NARROW, 0x121)],
        Err(LoadError::SlotKind),
    ),
    (
        &[(BUCKETS, NARROW, 0x121), (0, header_64::MACHINE, 40)],
        Err(LoadError::Unreadable),
    ),
    (
        &[(0, header_64::MACHINE, 40), (FIRST, KIND, 9)],
        Err(LoadError::Machine),
    ),
    (
        &[(FIRST, KIND, 9), (SECOND, WIDE, 0x1679)],
        Err(LoadError::WordType),
    ),
    (
        &[(FIRST, WIDE, 0x1679), (SECOND, KIND, 9)],
        Err(LoadError::WordAddress),
    ),
    (
        &[(LOAD, program_64::FLAGS, 4), (SECOND, WIDE, 0x1600)],
        Err(LoadError::ReadOnly),
    ),
    // the second word has a byte of the first and one of the dynamic segment
    (
        &[
            (FIRST, WIDE, 0x12f0),
            (SECOND, WIDE, 0x12f7),
            (SECOND, KIND, 5),
            (SYMBOL_SIZE, WIDE, 10),
        ],
        Err(LoadError::WordsOverlap),
    ),
];

#[test]
fn tables_of_class_64(rt: HostRuntime) {
    check_rows::<DynEntry64>(&rt, file_64(), TABLES_64);
}

#[test]
fn records_of_class_64(rt: HostRuntime) {
    check_rows::<DynEntry64>(&rt, file_64(), RECORDS_64);
}

#[test]
fn words_of_class_64(rt: HostRuntime) {
    check_rows::<DynEntry64>(&rt, file_64(), WORDS_64);
}

#[test]
fn first_of_two_errors(rt: HostRuntime) {
    check_rows::<DynEntry64>(&rt, file_64(), TWO_64);
}

#[test]
fn marks_and_objects(rt: HostRuntime) {
    let file = file_64();
    let found = checked::<DynEntry64>(&rt, &file, 1, &mut [1; MARKS]);
    want_at(&rt, "second", found, Ok(()));
    let found = checked::<DynEntry64>(&rt, &file, 2, &mut [0; MARKS]);
    let wanted = Err(LoadError::Link(LinkError::ObjectIndex));
    want_at(&rt, "third", found, wanted);
    let own = open(&rt, &file);
    let one = DynamicObject::<DynEntry64>::read(&own).expect(&rt, "an object");
    let unplanned = LoadScope::new(Scope::new(&[one]), &[]).check_image(0, &mut [0; MARKS]);
    want_at(&rt, "no plan", unplanned, wanted);
    let found = checked::<DynEntry64>(&rt, &file, 0, &mut [0; MARKS - 1]);
    want_at(&rt, "a byte less", found, Err(LoadError::FewMarks));
    let mut other = file_64();
    set(&mut other, SLOT, KIND, 1, Order::Little);
    let found = checked::<DynEntry64>(&rt, &other, 0, &mut []);
    want_at(&rt, "a slot and no marks", found, Err(LoadError::SlotType));
    let found = checked::<DynEntry64>(&rt, &file, 0, &mut [0; MARKS + 1]);
    want_at(&rt, "a byte more", found, Ok(()));
}
