//! What a shared object says without its section headers, as `readelf -l` and `-d` show it.

use crate::tests::want::{open, want, want_at};
use elf_base::ElfError;
use elf_base::bytes::Order;
use elf_linking::LinkError;
use elf_linking::view::{DynamicView, bytes_at, segment_at, strings};
use worked_files::files::put_words;
use worked_files::linked::exported::GNU_NARROW as NARROW;
use worked_files::places::{program_32, set};
use worked_files::rows;

const LITTLE: Order = Order::Little;

// Where the dynamic segment of the narrow file is, in bytes, and its headers of segments.
const DYNAMIC: usize = 0x240;

const FIRST_LOAD: usize = 52;

const SECOND_LOAD: usize = 84;

const DYNAMIC_HEADER: usize = 116;

const RANGES: &[(u64, u64, Option<(usize, usize)>)] = rows! {
    0x184, 6, Some((0x184, 0x18a)); 0, 0x240, Some((0, 0x240)); 0x23f, 1, Some((0x23f, 0x240));
    0x240, 0, Some((0x240, 0x240)); 0x240, 1, None; 0x1240, 0x8c, Some((0x240, 0x2cc));
    0x12cb, 2, None; 0x123f, 2, None; u64::MAX, 1, None; 0, u64::MAX, None;
};

#[test]
fn reads_bytes_at_addresses(rt: HostRuntime) {
    let mut bytes = *NARROW;
    let place = program_32::VIRTUAL_ADDR;
    set(&mut bytes, SECOND_LOAD, place, 0x1240, LITTLE);
    let file = open(&rt, &bytes);
    for &(address, count, range) in RANGES {
        let data = range.map(|(start, end)| bytes.get(start..end).unwrap_or(b"past the end"));
        let data = data.ok_or(LinkError::Address);
        want_at(&rt, address, bytes_at(&file, address, count), data);
        let segment = segment_at(&file, address, count);
        want_at(&rt, address, segment.is_some(), range.is_some());
    }
}

#[test]
fn tells_where_a_loaded_segment_is_cut_off(rt: HostRuntime) {
    let mut bytes = *NARROW;
    let place = program_32::FILE_SIZE;
    set(&mut bytes, FIRST_LOAD, place, 0x10000, LITTLE);
    let file = open(&rt, &bytes);
    let cut_off = LinkError::Elf(ElfError::DataRange);
    want(&rt, bytes_at(&file, 0x184, 1), Err(cut_off));
    want(&rt, strings(&file), Err(cut_off));
}

#[test]
fn tells_what_a_dynamic_segment_lacks(rt: HostRuntime) -> Result<(), LinkError> {
    let mut bytes = *NARROW;
    put_words(&mut bytes, DYNAMIC + 8, &[0x50, 0x184, 29, 7, 15, 7]);
    let file = open(&rt, &bytes);
    let view = DynamicView::read(&file)?;
    want(&rt, strings(&file), Err(LinkError::NoEntry));
    want(&rt, view.run_path(), Some(Err(LinkError::NoEntry)));
    want(&rt, view.r_path(), Some(Err(LinkError::NoEntry)));
    Ok(())
}

#[test]
fn tells_what_no_dynamic_segment_is(rt: HostRuntime) {
    let mut bytes = *NARROW;
    let place = program_32::FILE_SIZE;
    set(&mut bytes, DYNAMIC_HEADER, place, 0x77, LITTLE);
    let not_multiple = LinkError::Elf(ElfError::NotMultiple);
    let error = strings(&open(&rt, &bytes)).err();
    want(&rt, error, Some(not_multiple));
    set(&mut bytes, DYNAMIC_HEADER, program_32::TYPE, 4, LITTLE);
    let file = open(&rt, &bytes);
    want(&rt, strings(&file), Err(LinkError::NoDynamic));
    let failed = DynamicView::read(&file).err();
    want(&rt, failed, Some(LinkError::NoDynamic));
}
