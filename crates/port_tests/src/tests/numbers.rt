//! The names of the numbers of sections and segments.

use crate::tests::want::want;
use elf_base::ElfError;
use elf_records::program::{self, Flags};
use elf_records::sections::{ShType, ShType_};
use worked_files::rows;

const SECTION_TYPES: &[(u32, Result<ShType, ElfError>)] = rows! {
    0, Ok(ShType::Null); 1, Ok(ShType::ProgBits); 2, Ok(ShType::SymTab); 3, Ok(ShType::StrTab);
    4, Ok(ShType::Rela); 5, Ok(ShType::Hash); 6, Ok(ShType::Dynamic); 7, Ok(ShType::Note);
    8, Ok(ShType::NoBits); 9, Ok(ShType::Rel); 10, Ok(ShType::ShLib); 11, Ok(ShType::DynSym);
    12, Err(ElfError::InvalidShType); 13, Err(ElfError::InvalidShType); 14, Ok(ShType::InitArray);
    15, Ok(ShType::FiniArray); 16, Ok(ShType::PreInitArray); 17, Ok(ShType::Group);
    18, Ok(ShType::SymTabShIndex); 19, Err(ElfError::InvalidShType);
    0x5fff_ffff, Err(ElfError::InvalidShType); 0x6000_0000, Ok(ShType::OsSpecific(0x6000_0000));
    0x6fff_ffff, Ok(ShType::OsSpecific(0x6fff_ffff));
    0x7000_0000, Ok(ShType::ProcessorSpecific(0x7000_0000));
    0x7fff_ffff, Ok(ShType::ProcessorSpecific(0x7fff_ffff));
    0x8000_0000, Ok(ShType::User(0x8000_0000)); 0xffff_ffff, Ok(ShType::User(0xffff_ffff));
};

#[test]
fn names_the_types_of_sections(rt: HostRuntime) {
    for &(number, name) in SECTION_TYPES {
        want(&rt, ShType_::from_raw(number).as_sh_type(), name);
        want(&rt, ShType_::from_raw(number).raw(), number);
    }
}

const SEGMENT_TYPES: &[(u32, Result<program::Type, ElfError>)] = rows! {
    0, Ok(program::Type::Null);
    1, Ok(program::Type::Load);
    2, Ok(program::Type::Dynamic);
    3, Ok(program::Type::Interp);
    4, Ok(program::Type::Note);
    5, Ok(program::Type::ShLib);
    6, Ok(program::Type::Phdr);
    7, Ok(program::Type::Tls);
    8, Err(ElfError::InvalidPhType);
    0x5fff_ffff, Err(ElfError::InvalidPhType);
    0x6000_0000, Ok(program::Type::OsSpecific(0x6000_0000));
    0x6474_e551, Ok(program::Type::OsSpecific(0x6474_e551));
    0x6474_e552, Ok(program::Type::GnuRelro);
    0x6474_e553, Ok(program::Type::OsSpecific(0x6474_e553));
    0x6fff_ffff, Ok(program::Type::OsSpecific(0x6fff_ffff));
    0x7000_0000, Ok(program::Type::ProcessorSpecific(0x7000_0000));
    0x7fff_ffff, Ok(program::Type::ProcessorSpecific(0x7fff_ffff));
    0x8000_0000, Err(ElfError::InvalidPhType);
    0xffff_ffff, Err(ElfError::InvalidPhType);
};

#[test]
fn names_the_types_of_segments(rt: HostRuntime) {
    for &(number, name) in SEGMENT_TYPES {
        want(&rt, program::Type_::from_raw(number).as_type(), name);
        want(&rt, program::Type_::from_raw(number).raw(), number);
    }
    want(&rt, program::Type_::default().raw(), 0);
}

#[test]
fn flags_are_three_bits(rt: HostRuntime) {
    for number in 0..16 {
        let flags = Flags::from_raw(number);
        want(&rt, flags, Flags(number));
        want(&rt, flags.raw(), number);
        want(&rt, flags.is_execute(), number % 2 == 1);
        want(&rt, flags.is_write(), number / 2 % 2 == 1);
        want(&rt, flags.is_read(), number / 4 % 2 == 1);
    }
    want(&rt, Flags::default(), Flags(0));
}
