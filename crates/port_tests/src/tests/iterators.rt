//! What a call of `Iterator` makes of the public index,
//! which the contract of that trait doesn't say.

use crate::tests::want::{open, want};
use std::iter::Iterator;
use std::process::Abort;
use worked_files::files::{plain_header, strtab_file};
use worked_files::places::{header_32, set};
use xmas_elf::bytes::Order;
use xmas_elf::program::ProgramIter;
use xmas_elf::sections::SectionIter;

// Wants three calls to give no section and to leave the index.
fn check_no_section(rt: &impl Abort, sections: &mut SectionIter<'_, '_>, index: u64) {
    for _ in 0..3 {
        let is_none = Iterator::next(sections).is_none();
        want(rt, (is_none, sections.next_index), (true, index));
    }
}

// Wants three calls to give no segment and to leave the index at 0.
fn check_no_segment(rt: &impl Abort, segments: &mut ProgramIter<'_, '_>) {
    for _ in 0..3 {
        let is_none = Iterator::next(segments).is_none();
        want(rt, (is_none, segments.next_index), (true, 0));
    }
}

// At the end the index stays, however often it is asked.
#[test]
fn the_index_stays_at_the_end(rt: HostRuntime) {
    let bytes = strtab_file(Order::Little);
    let file = open(&rt, &bytes);
    let mut sections = file.section_iter();
    for index in 0..2 {
        want(&rt, sections.next_index, index);
        want(&rt, Iterator::next(&mut sections).is_some(), true);
    }
    check_no_section(&rt, &mut sections, 2);
    check_no_segment(&rt, &mut file.program_iter());
}

// So it does in a file without sections and segments, and where a header has an error.
#[test]
fn the_index_stays_at_a_failure(rt: HostRuntime) {
    let bytes = plain_header(2);
    let file = open(&rt, &bytes);
    check_no_section(&rt, &mut file.section_iter(), 0);
    check_no_segment(&rt, &mut file.program_iter());
    let mut bytes = strtab_file(Order::Little);
    set(&mut bytes, 0, header_32::SH_COUNT, 9, Order::Little);
    set(&mut bytes, 0, header_32::PH_COUNT, 9, Order::Little);
    set(&mut bytes, 0, header_32::PH_ENTRY_SIZE, 32, Order::Little);
    set(&mut bytes, 0, header_32::PH_OFFSET, 120, Order::Little);
    let file = open(&rt, &bytes);
    let mut sections = file.section_iter();
    sections.next_index = 3;
    check_no_section(&rt, &mut sections, 3);
    check_no_segment(&rt, &mut file.program_iter());
}
