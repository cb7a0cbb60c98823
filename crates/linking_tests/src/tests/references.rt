//! The relocations that name a symbol, in files of both classes and orders that are written field by
//! field, and in a small shared object as `readelf -W -r` shows it.

use crate::tests::want::{open, want, want_at};
use elf_base::ElfError;
use elf_base::bytes::Order;
use elf_linking::find::Use;
use elf_linking::references::{Reference, TableRelocations, relocation_name, use_of};
use elf_linking::view::{DynamicView, word_at};
use elf_linking::{DynamicObject, LinkError};
use std::process::Abort;
use worked_files::files::with_class;
use worked_files::linked::small::SMALL;
use worked_files::places::{Place, set};
use worked_files::rows;
use worked_files::versioned::{
    KINDS, PROGRAMS, set_entry, set_header, set_program, set_segment_end, sizes,
};
use xmas_elf::symbol_table::DynEntry64;

// Where the dynamic entries are, the relocations with and without addends, and those of the
// procedure linkage table, which have addends.
const DYNAMIC: usize = 0xb0;

const RELA: usize = 0x130;

const REL: usize = 0x180;

const PLT: usize = 0x1a0;

const SIZE: usize = 0x1d0;

// A relocation: its offset, type and symbol, and its addend in class 32 and 64.
type Row = (u64, u32, u32, u64, u64);

const RELA_ROWS: &[Row] = &[
    (0x2000, 6, 1, 0x10, 0x10),
    (0x2008, 8, 0, 0x3000, 0x3000),
    (0x2010, 255, 0xff_ffff, 0xffff_ffff, u64::MAX),
];

const REL_ROWS: &[Row] = &[(0x2018, 1, 3, 0, 0), (0x2020, 8, 0, 0, 0)];

const PLT_ROWS: &[Row] = &[(0x2028, 7, 4, 0, 0), (0x2030, 7, 5, 0x20, 0x20)];

// Those that name a symbol, in the order of the tables.
const NAMED: &[Row] = rows! {
    0x2000, 6, 1, 0x10, 0x10; 0x2010, 255, 0xff_ffff, 0xffff_ffff, u64::MAX; 0x2018, 1, 3, 0, 0;
    0x2028, 7, 4, 0, 0; 0x2030, 7, 5, 0x20, 0x20;
};

// Writes relocations of this class, each of two or three numbers.
fn set_relocations(
    file: &mut [u8],
    start: usize,
    (class, numbers): (u8, usize),
    rows: &[Row],
    order: Order,
) {
    let width = sizes(class).1;
    for (k, &(offset, kind, symbol, narrow, wide)) in rows.iter().enumerate() {
        let at = start.wrapping_add(k.wrapping_mul(width).wrapping_mul(numbers));
        let (shift, addend) = if class == 1 { (8, narrow) } else { (32, wide) };
        let info = u64::from(symbol) << shift | u64::from(kind);
        set(file, at, Place(0, width), offset, order);
        set(file, at, Place(width, width), info, order);
        if numbers == 3 {
            set(file, at, Place(width.wrapping_mul(2), width), addend, order);
        }
    }
}

// A dynamic entry: its tag, and its number in class 32 and 64.
type Entry = (u64, u64, u64);

// The file with these dynamic entries.
fn reference_file(class: u8, order: Order, entries: &[Entry]) -> [u8; SIZE] {
    let mut file = [0; SIZE];
    let (program, width) = sizes(class);
    set_header(&mut file, class, order);
    set_segment_end(&mut file, class, SIZE, order);
    let dynamic = (2, DYNAMIC as u64, 128);
    let second = PROGRAMS.wrapping_add(program);
    set_program(&mut file, second, class, dynamic, order);
    for (k, &(tag, narrow, wide)) in entries.iter().enumerate() {
        let start = DYNAMIC.wrapping_add(k.wrapping_mul(width).wrapping_mul(2));
        let number = if class == 1 { narrow } else { wide };
        set_entry(&mut file, start, width, (tag, number), order);
    }
    set_relocations(&mut file, RELA, (class, 3), RELA_ROWS, order);
    set_relocations(&mut file, REL, (class, 2), REL_ROWS, order);
    set_relocations(&mut file, PLT, (class, 3), PLT_ROWS, order);
    file
}

const RELA_AT: Entry = (7, 0x1130, 0x1130);

const RELA_SIZE: Entry = (8, 36, 72);

const REL_AT: Entry = (17, 0x1180, 0x1180);

const REL_SIZE: Entry = (18, 16, 32);

const PLT_AT: Entry = (23, 0x11a0, 0x11a0);

const PLT_SIZE: Entry = (2, 24, 48);

const PLT_KIND: Entry = (20, 7, 7);

const OTHER_KIND: Entry = (20, 8, 8);

const NOT_MULTIPLE: LinkError = LinkError::Elf(ElfError::NotMultiple);

// Dynamic entries, and which of the relocations that name a symbol they lead to.
const ROWS: &[(&[Entry], Result<&[usize], LinkError>)] = rows! {
    &[], Ok(&[]);
    &[RELA_SIZE, REL_SIZE, PLT_SIZE, OTHER_KIND], Ok(&[]);
    &[RELA_AT, RELA_SIZE, REL_AT, REL_SIZE, PLT_AT, PLT_SIZE, PLT_KIND], Ok(&[0, 1, 2, 3, 4]);
    &[PLT_KIND, PLT_SIZE, PLT_AT, REL_SIZE, REL_AT, RELA_SIZE, RELA_AT], Ok(&[0, 1, 2, 3, 4]);
    &[REL_AT, REL_SIZE, PLT_AT, PLT_SIZE, PLT_KIND], Ok(&[2, 3, 4]);
    &[RELA_AT, (8, 24, 48)], Ok(&[0]);
    &[RELA_AT, (8, 0, 0)], Ok(&[]);
    // the relocations of the procedure linkage table without addends
    &[(23, 0x1180, 0x1180), (2, 16, 32), (20, 17, 17)], Ok(&[2]);
    // entries that lack, the first table before the next
    &[RELA_AT], Err(LinkError::NoEntry);
    &[REL_AT, RELA_SIZE], Err(LinkError::NoEntry);
    &[PLT_AT, PLT_KIND], Err(LinkError::NoEntry);
    &[PLT_AT, PLT_SIZE], Err(LinkError::NoEntry);
    &[PLT_AT, OTHER_KIND], Err(LinkError::NoEntry);
    &[PLT_AT, PLT_SIZE, OTHER_KIND], Err(LinkError::RelocationKind);
    &[(23, 0x9000, 0x9000), PLT_SIZE, OTHER_KIND], Err(LinkError::RelocationKind);
    &[RELA_AT, PLT_AT, PLT_SIZE, OTHER_KIND], Err(LinkError::NoEntry);
    &[(7, 0x9000, 0x9000), RELA_SIZE, REL_AT], Err(LinkError::Address);
    &[RELA_AT, (8, 0x1000, 0x1000)], Err(LinkError::Address);
    &[RELA_AT, (8, 35, 71)], Err(NOT_MULTIPLE);
    &[REL_AT, (18, 12, 24)], Err(NOT_MULTIPLE);
    &[PLT_AT, (2, 16, 32), PLT_KIND], Err(NOT_MULTIPLE);
};

fn reference(row: Row, class: u8) -> Reference {
    let (offset, kind, symbol, narrow, wide) = row;
    let addend = if class == 1 { narrow } else { wide };
    Reference {
        offset,
        kind,
        symbol,
        addend,
    }
}

fn check_row(
    rt: &impl Abort,
    number: usize,
    (class, order): (u8, Order),
    (entries, wanted): (&[Entry], Result<&[usize], LinkError>),
) -> Result<(), LinkError> {
    let bytes = reference_file(class, order, entries);
    let file = open(rt, &bytes);
    let view = DynamicView::read(&file)?;
    let places = match wanted {
        Ok(places) => places,
        Err(error) => {
            want_at(rt, number, view.references(&file).err(), Some(error));
            return Ok(());
        }
    };
    let mut found = view.references(&file)?;
    for place in places {
        let row = NAMED.get(*place).copied();
        let row = row.map(|row| reference(row, class));
        want_at(rt, number, found.next(), row);
    }
    want_at(rt, number, found.next(), None);
    want_at(rt, number, found.next(), None);
    want_at(rt, number, view.references(&file)?.count(), places.len());
    Ok(())
}

#[test]
fn lists_relocations_that_name_symbols(rt: HostRuntime) -> Result<(), LinkError> {
    for &kind in KINDS {
        for (number, &row) in ROWS.iter().enumerate() {
            check_row(&rt, number, kind, row)?;
        }
    }
    Ok(())
}

// In a file for x86-64 or AArch64 the table Rel isn't read, as in glibc; in one for 386 it is.
#[test]
fn passes_over_rel_where_all_records_have_addends(rt: HostRuntime) -> Result<(), LinkError> {
    for (machine, wanted) in [
        (62, None),
        (183, None),
        (3, Some(LinkError::Address)),
        (8, Some(LinkError::Address)),
    ] {
        let entries = [RELA_AT, RELA_SIZE, (17, 0x9000, 0x9000), REL_SIZE];
        let mut bytes = reference_file(2, Order::Little, &entries);
        set(&mut bytes, 0, Place(18, 2), machine, Order::Little);
        let file = open(&rt, &bytes);
        let view = DynamicView::read(&file)?;
        want_at(&rt, machine, view.references(&file).err(), wanted);
        let all = view.relocations(&file).err();
        want_at(&rt, machine, all, Some(LinkError::Address));
    }
    Ok(())
}

fn check_table(rt: &impl Abort, mut table: TableRelocations<'_>, rows: &[Row], class: u8) {
    for &row in rows {
        want(rt, table.next(), Some(reference(row, class)));
    }
    want(rt, table.next(), None);
}

#[test]
fn lists_all_relocations(rt: HostRuntime) -> Result<(), LinkError> {
    let entries = [
        RELA_AT, RELA_SIZE, REL_AT, REL_SIZE, PLT_AT, PLT_SIZE, PLT_KIND,
    ];
    for &(class, order) in KINDS {
        let bytes = reference_file(class, order, &entries);
        let file = open(&rt, &bytes);
        let mut found = DynamicView::read(&file)?.relocations(&file)?;
        for &row in RELA_ROWS.iter().chain(REL_ROWS).chain(PLT_ROWS) {
            want(&rt, found.next(), Some(reference(row, class)));
        }
        want(&rt, found.next(), None);
        let tables = DynamicView::read(&file)?.relocation_tables(&file)?;
        check_table(&rt, tables.rela, RELA_ROWS, class);
        check_table(&rt, tables.rel, REL_ROWS, class);
        check_table(&rt, tables.plt, PLT_ROWS, class);
    }
    Ok(())
}

// Packed relocations at the table Rel: the first word of each record is an address, and the second
// of the first record marks the words 7 and 8 after it in class 32, and 31 and 32 in class 64.
const RELR_AT: Entry = (36, 0x1180, 0x1180);

const PACKED: &[(&[Entry], Option<LinkError>)] = rows! {
    &[REL_AT, (35, 8, 16)], None;
    &[RELR_AT], Some(LinkError::NoEntry);
    &[RELR_AT, (35, 6, 12)], Some(LinkError::NotMultiple);
    &[(36, 0x9000, 0x9000), (35, 8, 16)], Some(LinkError::Address);
};

#[test]
fn lists_packed_relocations(rt: HostRuntime) -> Result<(), LinkError> {
    for &(class, order) in KINDS {
        for (number, &(entries, wanted)) in PACKED.iter().enumerate() {
            let bytes = reference_file(class, order, entries);
            let file = open(&rt, &bytes);
            let found = DynamicView::read(&file)?.relr(&file);
            let error = found.and_then(|relr| relr.err());
            want_at(&rt, number, error, wanted);
        }
        let bytes = reference_file(class, order, &[RELR_AT, (35, 8, 16)]);
        let file = open(&rt, &bytes);
        let marked = if class == 1 {
            [0x2018, 0x2038, 0x203c]
        } else {
            [0x2018, 0x2118, 0x2120]
        };
        let Some(found) = DynamicView::read(&file)?.relr(&file) else {
            return Err(LinkError::NoEntry);
        };
        let mut found = found?;
        for address in marked {
            want(&rt, found.next(), Some(address));
        }
        want(&rt, found.next(), None);
    }
    Ok(())
}

#[test]
fn reads_words(rt: HostRuntime) -> Result<(), LinkError> {
    for &(class, order) in KINDS {
        let bytes = reference_file(class, order, &[]);
        let file = open(&rt, &bytes);
        let (width, info) = if class == 1 {
            (4, 0x301)
        } else {
            (8, 0x3_0000_0001)
        };
        want(&rt, word_at(&file, 0x1180), Ok(0x2018));
        want(&rt, word_at(&file, 0x1180 + width), Ok(info));
        want(&rt, word_at(&file, 0x9000), Err(LinkError::Address));
        let other = with_class(&file, 3);
        want(&rt, word_at(&other, 0x1180), Err(LinkError::UnknownClass));
    }
    Ok(())
}

// The segments of a file of another class are read as those of class 64, but its relocations have no known size.
#[test]
fn rejects_relocations_of_another_class(rt: HostRuntime) -> Result<(), LinkError> {
    let bytes = reference_file(2, Order::Little, &[RELA_AT, RELA_SIZE]);
    let file = open(&rt, &bytes);
    let view = DynamicView::read(&file)?;
    let failed = view.references(&with_class(&file, 3)).err();
    want(&rt, failed, Some(LinkError::UnknownClass));
    Ok(())
}

#[test]
fn lists_a_jump_slot_of_a_shared_object(rt: HostRuntime) -> Result<(), LinkError> {
    let file = open(&rt, SMALL);
    let object = DynamicObject::<DynEntry64>::read(&file)?;
    let mut found = object.references()?;
    let slot = (0x388, 7, 3, 0, 0);
    want(&rt, found.next(), Some(reference(slot, 2)));
    want(&rt, found.next(), None);
    Ok(())
}

// By machine and relocation type, as the processor supplements of the System V ABI number them.
const USES: &[(u16, u32, Use)] = rows! {
    62, 5, Use::Copy; 62, 6, Use::Any; 62, 7, Use::Defined; 62, 8, Use::Any; 62, 16, Use::Defined;
    62, 17, Use::Defined; 62, 18, Use::Defined; 62, 36, Use::Defined; 62, 1024, Use::Any;
    3, 5, Use::Copy; 3, 7, Use::Defined; 3, 14, Use::Defined; 3, 16, Use::Any; 3, 35, Use::Defined;
    3, 36, Use::Defined; 3, 37, Use::Defined; 3, 41, Use::Defined; 183, 5, Use::Any;
    183, 1024, Use::Copy; 183, 1025, Use::Any; 183, 1026, Use::Defined; 183, 1027, Use::Any;
    183, 1028, Use::Defined; 183, 1029, Use::Defined; 183, 1030, Use::Defined;
    183, 1031, Use::Defined; 40, 5, Use::Any; 0, 7, Use::Any;
};

#[test]
fn uses_are_by_machine_and_type(rt: HostRuntime) {
    for &(machine, kind, use_) in USES {
        want_at(&rt, kind, use_of(machine, kind), use_);
    }
}

// By machine and relocation type, as `elf.h` of glibc 2.36 names them.
const NAMES: &[(u16, u32, Option<&str>)] = &[
    (62, 0, Some("R_X86_64_NONE")),
    (62, 8, Some("R_X86_64_RELATIVE")),
    (62, 38, Some("R_X86_64_RELATIVE64")),
    (62, 39, None),
    (62, 42, Some("R_X86_64_REX_GOTPCRELX")),
    (62, 43, None),
    (62, u32::MAX, None),
    (3, 7, Some("R_386_JMP_SLOT")),
    (3, 12, None),
    (3, 43, Some("R_386_GOT32X")),
    (3, 44, None),
    (183, 0, Some("R_AARCH64_NONE")),
    (183, 256, None),
    (183, 257, Some("R_AARCH64_ABS64")),
    (183, 313, Some("R_AARCH64_LD64_GOTPAGE_LO15")),
    (183, 512, Some("R_AARCH64_TLSGD_ADR_PREL21")),
    (183, 543, Some("R_AARCH64_TLSIE_LD_GOTTPREL_PREL19")),
    (183, 544, Some("R_AARCH64_TLSLE_MOVW_TPREL_G2")),
    (183, 573, Some("R_AARCH64_TLSLD_LDST128_DTPREL_LO12_NC")),
    (183, 574, None),
    (183, 1024, Some("R_AARCH64_COPY")),
    (183, 1032, Some("R_AARCH64_IRELATIVE")),
    (183, 1033, None),
    (40, 0, None),
];

#[test]
fn types_have_the_names_of_their_machine(rt: HostRuntime) {
    for &(machine, kind, name) in NAMES {
        want_at(&rt, kind, relocation_name(machine, kind), name);
    }
}
