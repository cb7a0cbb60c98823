//! ELF headers that were put together by hand: what they hold, and which fault the check returns
//! where there are several.
//!
//! Headers of files, and each fault by itself, are in the rows of `elfanswers`, `headers.rows`.

use crate::tests::want::{open, want};
use std::process::Abort;
use std::test::Fail;
use worked_files::files::{debug_link_file, strtab_file};
use worked_files::places::{header_32, set};
use xmas_elf::bytes::Order;
use xmas_elf::header::{
    Class, Class_, Data, Data_, Header, HeaderPt1, HeaderPt2, OsAbi, OsAbi_, Version, Version_,
    parse_header, sanity_check,
};
use xmas_elf::{ElfError, ElfFile};

const LITTLE: Order = Order::Little;

// What the check says of a header of these parts over `strtab_file`.
fn check_of(pt1: HeaderPt1, pt2: HeaderPt2) -> Result<(), ElfError> {
    sanity_check(&ElfFile {
        input: &strtab_file(LITTLE),
        header: Header { pt1, pt2 },
    })
}

// Part 2 of `strtab_file` with these three numbers.
fn part_2(rt: &impl Abort, header_size: u64, ph_offset: u64, sh_offset: u64) -> HeaderPt2 {
    let mut bytes = strtab_file(LITTLE);
    set(&mut bytes, 0, header_32::HEADER_SIZE, header_size, LITTLE);
    set(&mut bytes, 0, header_32::PH_OFFSET, ph_offset, LITTLE);
    set(&mut bytes, 0, header_32::SH_OFFSET, sh_offset, LITTLE);
    open(rt, &bytes).header.pt2
}

// Every fault at once, mended one by one.
#[test]
fn checks_in_order(rt: HostRuntime) {
    let all = part_2(&rt, 51, 145, 65);
    let two_tables = part_2(&rt, 52, 145, 65);
    let mut pt1 = open(&rt, &strtab_file(LITTLE)).header.pt1;
    pt1.magic = [0x7f, b'E', b'L', b'G'];
    pt1.class = Class_::from_raw(0);
    pt1.version = Version_::from_raw(0);
    pt1.encoding = Data_::from_raw(0);
    want(&rt, check_of(pt1, all), Err(ElfError::BadMagic));
    pt1.magic = [0x7f, b'E', b'L', b'F'];
    want(&rt, check_of(pt1, all), Err(ElfError::HeaderSize));
    want(&rt, check_of(pt1, two_tables), Err(ElfError::NoClass));
    pt1.class = Class_::from_raw(2);
    want(&rt, check_of(pt1, two_tables), Err(ElfError::ClassMismatch));
    pt1.class = Class_::from_raw(1);
    want(&rt, check_of(pt1, two_tables), Err(ElfError::NoVersion));
    pt1.version = Version_::from_raw(1);
    want(&rt, check_of(pt1, two_tables), Err(ElfError::NoDataFormat));
}

// Its parts are of different classes.
#[test]
fn holds_what_it_is_given(rt: HostRuntime) -> Result<(), Fail> {
    let class_32 = strtab_file(LITTLE);
    let class_64 = debug_link_file();
    let mut pt1 = parse_header(&class_32)?.pt1;
    pt1.class = Class_::from_raw(9);
    pt1.encoding = Data_::from_raw(7);
    pt1.os_abi = OsAbi_::from_raw(3);
    let pt2 = parse_header(&class_64)?.pt2;
    let header = Header { pt1, pt2 };
    let file = ElfFile {
        input: &class_32,
        header,
    };
    want(&rt, file.header.pt1.class(), Class::Other(9));
    want(&rt, file.header.pt1.data(), Data::Other(7));
    want(&rt, file.header.pt1.version(), Version::Current);
    want(&rt, file.header.pt1.os_abi(), OsAbi::Linux);
    want(&rt, matches!(file.header.pt2, HeaderPt2::Header64(_)), true);
    want(&rt, file.input.len(), 144);
    Ok(())
}
