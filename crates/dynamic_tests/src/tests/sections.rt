//! GNU hash tables and packed relocations of sections.

use crate::tests::want::{open, want, want_at};
use elf_base::bytes::Order;
use elf_linking::LinkError;
use elf_linking::sections::{SHT_GNU_HASH, SHT_RELR, section_gnu_hash, section_relr};
use std::process::Abort;
use worked_files::files::{put_section_32, strtab_file, with_class};
use worked_files::linked::exported::{GNU_NARROW, GNU_WIDE};
use worked_files::places::{Place, set};
use xmas_elf::ElfError;

// Where the data of section 1 begins.
const DATA: usize = 132;

// A file of class 32 whose section 1 has this type and size, with three words as data.
fn file_with(kind: u32, size: u64, order: Order) -> [u8; 144] {
    let mut file = strtab_file(order);
    put_section_32(&mut file, 92, [0, u64::from(kind), 132, size], order);
    for (index, word) in [0x1000, 3, 0x2000].into_iter().enumerate() {
        let place = Place(index.wrapping_mul(4), 4);
        set(&mut file, DATA, place, word, order);
    }
    file
}

// The error of the packed relocations or of the GNU hash table of section 1.
fn error_of(rt: &impl Abort, bytes: &[u8]) -> Result<Option<LinkError>, ElfError> {
    let file = open(rt, bytes);
    let section = file.section_header(1)?;
    let error = section_relr(&file, &section).and_then(|relr| relr.err());
    Ok(error.or(section_gnu_hash(&file, &section).and_then(|table| table.err())))
}

const RANGE: LinkError = LinkError::Elf(ElfError::DataRange);

// The type and the size of section 1 in a file of this order, and the error.
const ERRORS: &[(u32, u64, Order, LinkError)] = &[
    (SHT_RELR, 10, Order::Little, LinkError::NotMultiple),
    (SHT_RELR, 13, Order::Little, RANGE),
    (SHT_GNU_HASH, 12, Order::Big, LinkError::ShortTable),
    (SHT_GNU_HASH, 13, Order::Big, RANGE),
];

#[test]
fn other_sizes_are_errors(rt: HostRuntime) -> Result<(), ElfError> {
    for &(kind, size, order, error) in ERRORS {
        let found = error_of(&rt, &file_with(kind, size, order))?;
        want_at(&rt, (kind, size), found, Some(error));
    }
    Ok(())
}

#[test]
fn packed_relocations_are_those_of_the_section(rt: HostRuntime) -> Result<(), LinkError> {
    for order in [Order::Little, Order::Big] {
        let bytes = file_with(SHT_RELR, 12, order);
        let file = open(&rt, &bytes);
        let relr = section_relr(&file, &file.section_header(1)?);
        let mut relr = relr.ok_or(LinkError::NoEntry)??;
        for address in [0x1000, 0x1004, 0x2000] {
            want(&rt, relr.next(), Some(address));
        }
        want(&rt, relr.next(), None);
    }
    Ok(())
}

#[test]
fn packed_relocations_need_a_class(rt: HostRuntime) -> Result<(), ElfError> {
    let bytes = file_with(SHT_RELR, 12, Order::Little);
    let file = open(&rt, &bytes);
    let section = file.section_header(1)?;
    let classless = section_relr(&with_class(&file, 0), &section);
    let failure = classless.and_then(|relr| relr.err());
    want(&rt, failure, Some(LinkError::UnknownClass));
    want(&rt, section_gnu_hash(&file, &section).is_none(), true);
    Ok(())
}

#[test]
fn hash_tables_are_those_of_the_section(rt: HostRuntime) -> Result<(), LinkError> {
    let inputs: [&[u8]; 2] = [GNU_NARROW, GNU_WIDE];
    for input in inputs {
        let file = open(&rt, input);
        let table = section_gnu_hash(&file, &file.section_header(1)?);
        let table = table.ok_or(LinkError::NoEntry)??;
        want(&rt, table.first_symbol(), 2);
        let symbols = file.section_header(2)?;
        want(&rt, section_gnu_hash(&file, &symbols).is_none(), true);
        want(&rt, section_relr(&file, &symbols).is_none(), true);
    }
    Ok(())
}
