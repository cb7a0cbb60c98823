//! The counts of hash tables, and the texts of string tables, that are in no file.
//!
//! The data of sections and segments by their types is in the rows of `elfanswers`, `data.rows`.

use crate::tests::want::want;
use std::process::Abort;
use worked_files::rows;
use xmas_elf::ElfError;
use xmas_elf::bytes::Order;
use xmas_elf::hash::HashTable;
use xmas_elf::sections::SectionData;

const TWELVE: [u8; 12] = [0, 1, 2, 3, 4, 5, 6, 7, 8, 9, 10, 11];

#[test]
fn reads_the_counts_of_a_hash_table(rt: HostRuntime) -> Result<(), ElfError> {
    let table = HashTable::read(&TWELVE, Order::Little)?;
    want(&rt, table.bucket_count(), 0x0302_0100);
    want(&rt, table.chain_count(), 0x0706_0504);
    let table = HashTable::read(&TWELVE, Order::Big)?;
    want(&rt, table.bucket_count(), 0x0001_0203);
    want(&rt, table.chain_count(), 0x0405_0607);
    let failed = HashTable::read(&TWELVE[..11], Order::Little).err();
    want(&rt, failed, Some(ElfError::ShortData));
    Ok(())
}

// Wants these texts of a string table, in turn.
fn check_texts(
    rt: &impl Abort,
    table: SectionData<'static>,
    wanted: &'static [Option<Result<&'static str, ElfError>>],
) {
    let Ok(mut texts) = table.strings() else {
        return assert!(rt; false);
    };
    for text in wanted {
        want(rt, texts.next(), *text);
    }
}

const FAILED: Option<Result<&str, ElfError>> = Some(Err(ElfError::TextUtf8));

const TEXTS: &[(&[u8], &[Option<Result<&str, ElfError>>])] = rows! {
    b"ab\0cd", &[Some(Ok("ab")), Some(Err(ElfError::TextEnd)), None, None];
    b"a\0\xff\0b\0", &[Some(Ok("a")), FAILED, None];
    b"a\0b\0\0c\0", &[Some(Ok("a")), Some(Ok("b")), None, None];
    b"a\0", &[Some(Ok("a")), None];
};

#[test]
fn lists_the_texts_of_a_string_table(rt: HostRuntime) {
    for &(bytes, wanted) in TEXTS {
        check_texts(&rt, SectionData::StrArray(bytes), wanted);
    }
}

#[test]
fn other_data_has_no_texts(rt: HostRuntime) {
    want(&rt, SectionData::Empty.strings().is_err(), true);
    let other = SectionData::Undefined(b"ab\0");
    want(&rt, other.strings().is_err(), true);
}
