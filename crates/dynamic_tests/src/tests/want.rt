//! Assertions as functions: a call of one is proved in a third of the time that `assert_eq!` takes.

use std::fmt::Debug;
use std::process::Abort;
use xmas_elf::ElfFile;

/// Wants this result.
pub fn want<T: PartialEq + Debug + Drop>(rt: &impl Abort, found: T, wanted: T) {
    assert_eq!(rt; found, wanted);
}

/// Wants this result in a row of a table, which a failure names.
pub fn want_at<K: Debug + Drop, T: PartialEq + Debug + Drop>(
    rt: &impl Abort,
    row: K,
    found: T,
    wanted: T,
) {
    assert_eq!(rt; found, wanted, "at {row:?}");
}

/// The file that these bytes are.
pub fn open<'a>(rt: &impl Abort, bytes: &'a [u8]) -> ElfFile<'a> {
    ElfFile::new(bytes).expect(rt, "an ELF file")
}
