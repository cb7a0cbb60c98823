//! Records of versions with another version number than 1, which `ld.so` doesn't support (LSB, "Symbol
//! Versioning": vd_version, vn_version).

use crate::objects::view_of;
use elf_base::bytes::{Order, read_u16, read_u32};
use elf_linking::versions::{Need, Versions};
use elf_linking::view::{DT_VERDEF, DT_VERNEED, bytes_from};
use xmas_elf::ElfFile;

// The version number of each record that `ld.so` supports.
const SUPPORTED: u16 = 1;

// The size of a record of a definition in bytes. Its last four are the distance to the next record.
const DEFINITION_SIZE: usize = 20;

/// The first record of the definitions of a file with another version number than 1.
#[derive(Clone, Copy, Debug, Drop)]
pub(crate) struct OtherRecord {
    /// Its index among the definitions.
    pub(crate) index: usize,
    /// Its version number.
    pub(crate) number: u16,
}

// The bytes of a file from the table of versions at the last entry with a tag on, and their order.
fn records_at(bytes: &[u8], tag: u64) -> Option<(&[u8], Order)> {
    let Ok(file) = ElfFile::new(bytes) else {
        return None;
    };
    let Ok(Some(view)) = view_of(bytes) else {
        return None;
    };
    let address = view.entry(tag)?;
    match bytes_from(&file, address) {
        Ok(records) => Some((records, file.byte_order())),
        Err(_) => None,
    }
}

/// The version number of the first need of a file, if that isn't 1. `ld.so` tests no other need.
pub(crate) fn other_need(bytes: &[u8]) -> Option<u16> {
    let (records, order) = records_at(bytes, DT_VERNEED)?;
    if records.len() < 2 {
        return None;
    }
    let number = read_u16(records, 0, order);
    if number == SUPPORTED {
        None
    } else {
        Some(number)
    }
}

/// The first record of the definitions of a file with another version number than 1.
pub(crate) fn other_definition(bytes: &[u8]) -> Option<OtherRecord> {
    let (records, order) = records_at(bytes, DT_VERDEF)?;
    first_other(records, order)
}

// The first of these records.
fn first_other(records: &[u8], order: Order) -> Option<OtherRecord> {
    let mut place = 0;
    for index in 0..records.len() {
        if records.len() < DEFINITION_SIZE || records.len() - DEFINITION_SIZE < place {
            return None;
        }
        let number = read_u16(records, place, order);
        if number != SUPPORTED {
            return Some(OtherRecord { index, number });
        }
        let distance = read_u32(records, place + DEFINITION_SIZE - 4, order);
        if distance == 0 {
            return None;
        }
        place = place.checked_add(distance as usize)?;
    }
    None
}

/// Whether `ld.so` comes to a record when it looks among definitions for the version of a need: it passes
/// all up to the first definition with the hash number and the name.
pub(crate) fn is_passed(record: OtherRecord, versions: &Versions<'_>, need: &Need<'_>) -> bool {
    for (index, item) in versions.definitions().enumerate() {
        let Ok(definition) = item else {
            return false;
        };
        if index == record.index {
            return true;
        }
        if definition.hash == need.hash && is_same_name(definition.name(), need.name()) {
            return false;
        }
    }
    false
}

// Whether two names can be read and are equal.
fn is_same_name<F: Drop>(one: Result<&str, F>, other: Result<&str, F>) -> bool {
    match (one, other) {
        (Ok(one), Ok(other)) => one == other,
        _ => false,
    }
}
