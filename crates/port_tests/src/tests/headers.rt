//! The fields of the ELF header, and what its numbers mean.

use crate::tests::want::{want, want_at};
use elf_base::bytes::{Order, Record};
use elf_base::header::{
    Class, Class_, Data, Data_, HeaderPt1, HeaderPt2, HeaderPt2_, Machine, Machine_, OsAbi, OsAbi_,
    Type, Type_, Version, Version_,
};
use elf_base::{P32, P64};
use worked_files::rows;

// Bytes that each say their own place.
const ASCENDING: [u8; 48] = [
    0, 1, 2, 3, 4, 5, 6, 7, 8, 9, 10, 11, 12, 13, 14, 15, 16, 17, 18, 19, 20, 21, 22, 23, 24, 25,
    26, 27, 28, 29, 30, 31, 32, 33, 34, 35, 36, 37, 38, 39, 40, 41, 42, 43, 44, 45, 46, 47,
];

// The fields of part 2 as the layout has them.
fn fields(part: &HeaderPt2_<u64>) -> [u64; 13] {
    [
        u64::from(part.type_.raw()),
        u64::from(part.machine.raw()),
        u64::from(part.version),
        part.entry_point,
        part.ph_offset,
        part.sh_offset,
        u64::from(part.flags),
        u64::from(part.header_size),
        u64::from(part.ph_entry_size),
        u64::from(part.ph_count),
        u64::from(part.sh_entry_size),
        u64::from(part.sh_count),
        u64::from(part.sh_str_index),
    ]
}

// Whether the class is 64, the byte order, whether each byte says how far it is from 255 and not its
// place, so that the highest bit of each number is set, and the numbers that the bytes are.
const NUMBERS: &[(bool, Order, bool, [u64; 13])] = rows! {
    false, Order::Little, false, [0x0100, 0x0302, 0x0706_0504, 0x0b0a_0908, 0x0f0e_0d0c,
        0x1312_1110, 0x1716_1514, 0x1918, 0x1b1a, 0x1d1c, 0x1f1e, 0x2120, 0x2322];
    false, Order::Big, false, [0x0001, 0x0203, 0x0405_0607, 0x0809_0a0b, 0x0c0d_0e0f,
        0x1011_1213, 0x1415_1617, 0x1819, 0x1a1b, 0x1c1d, 0x1e1f, 0x2021, 0x2223];
    false, Order::Big, true, [0xfffe, 0xfdfc, 0xfbfa_f9f8, 0xf7f6_f5f4, 0xf3f2_f1f0,
        0xefee_edec, 0xebea_e9e8, 0xe7e6, 0xe5e4, 0xe3e2, 0xe1e0, 0xdfde, 0xdddc];
    true, Order::Big, false, [0x0001, 0x0203, 0x0405_0607, 0x0809_0a0b_0c0d_0e0f,
        0x1011_1213_1415_1617, 0x1819_1a1b_1c1d_1e1f, 0x2021_2223, 0x2425, 0x2627, 0x2829, 0x2a2b,
        0x2c2d, 0x2e2f];
    true, Order::Little, false, [0x0100, 0x0302, 0x0706_0504, 0x0f0e_0d0c_0b0a_0908,
        0x1716_1514_1312_1110, 0x1f1e_1d1c_1b1a_1918, 0x2322_2120, 0x2524, 0x2726, 0x2928, 0x2b2a,
        0x2d2c, 0x2f2e];
    true, Order::Little, true, [0xfeff, 0xfcfd, 0xf8f9_fafb, 0xf0f1_f2f3_f4f5_f6f7,
        0xe8e9_eaeb_eced_eeef, 0xe0e1_e2e3_e4e5_e6e7, 0xdcdd_dedf, 0xdadb, 0xd8d9, 0xd6d7, 0xd4d5,
        0xd2d3, 0xd0d1];
};

#[test]
fn returns_all_numbers_of_part_2(rt: HostRuntime) {
    for (wide, order, descend, numbers) in NUMBERS {
        let bytes = ASCENDING.map(|byte| if *descend { 255 - byte } else { byte });
        let part = if *wide {
            HeaderPt2::Header64(HeaderPt2_::<P64>::decode(&bytes, *order))
        } else {
            HeaderPt2::Header32(HeaderPt2_::<P32>::decode(&bytes[..36], *order))
        };
        let found = fields(&part.numbers());
        want_at(&rt, (*wide, *order), found, *numbers);
    }
}

#[test]
fn decodes_each_byte_of_part_1(rt: HostRuntime) {
    let part = HeaderPt1::decode(&ASCENDING[..16], Order::Big);
    want(&rt, part.magic, [0, 1, 2, 3]);
    let numbers = [
        part.class.raw(),
        part.encoding.raw(),
        part.version.raw(),
        part.os_abi.raw(),
        part.abi_version,
    ];
    want(&rt, numbers, [4, 5, 6, 7, 8]);
    want(&rt, part.padding, [9, 10, 11, 12, 13, 14, 15]);
}

const CLASSES: &[(u8, Class)] = rows! {
    0, Class::None; 1, Class::ThirtyTwo; 2, Class::SixtyFour; 3, Class::Other(3);
};

const ENCODINGS: &[(u8, Data)] = rows! {
    0, Data::None; 1, Data::LittleEndian; 2, Data::BigEndian; 3, Data::Other(3);
};

const VERSIONS: &[(u8, Version)] = rows! {
    0, Version::None; 1, Version::Current; 2, Version::Other(2);
};

#[test]
fn names_the_numbers_of_part_1(rt: HostRuntime) {
    for &(number, name) in CLASSES {
        let class = Class_::from_raw(number);
        want(&rt, class.as_class(), name);
        want(&rt, [class.is_none(), name.is_none()], [number == 0; 2]);
    }
    for &(number, name) in ENCODINGS {
        let encoding = Data_::from_raw(number);
        want(&rt, encoding.as_data(), name);
        want(&rt, [encoding.is_none(), name.is_none()], [number == 0; 2]);
    }
    for &(number, name) in VERSIONS {
        let version = Version_::from_raw(number);
        want(&rt, version.as_version(), name);
        want(&rt, [version.is_none(), name.is_none()], [number == 0; 2]);
    }
}

const SYSTEMS: &[(u8, OsAbi)] = rows! {
    0, OsAbi::SystemV; 1, OsAbi::HpUx; 2, OsAbi::NetBSD; 3, OsAbi::Linux; 4, OsAbi::Other(4);
    6, OsAbi::Solaris; 7, OsAbi::Aix; 8, OsAbi::Irix; 9, OsAbi::FreeBSD; 12, OsAbi::OpenBSD;
    13, OsAbi::OpenVMS; 255, OsAbi::Other(255);
};

const TYPES: &[(u16, Type)] = rows! {
    0, Type::None; 1, Type::Relocatable; 2, Type::Executable; 3, Type::SharedObject; 4, Type::Core;
    5, Type::ProcessorSpecific(5); 0xffff, Type::ProcessorSpecific(0xffff);
};

const MACHINES: &[(u16, Machine)] = rows! {
    0, Machine::None; 1, Machine::Other(1); 2, Machine::Sparc; 3, Machine::X86; 8, Machine::Mips;
    0x14, Machine::PowerPC; 0x28, Machine::Arm; 0x2a, Machine::SuperH; 0x32, Machine::Ia64;
    0x3e, Machine::X86_64; 0xb7, Machine::AArch64; 0xf3, Machine::RISC_V; 0xf7, Machine::BPF;
    0xffff, Machine::Other(0xffff);
};

#[test]
fn names_systems_types_and_machines(rt: HostRuntime) {
    for &(number, name) in SYSTEMS {
        want(&rt, OsAbi_::from_raw(number).as_os_abi(), name);
    }
    for &(number, name) in TYPES {
        want(&rt, Type_(number).as_type(), name);
    }
    for &(number, name) in MACHINES {
        want(&rt, Machine_::from_raw(number).as_machine(), name);
    }
}
