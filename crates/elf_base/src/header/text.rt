//! The printed form of the ELF header: one line per field.

ghost use Rattle.std.specs.Prelude.{◌≡◌, Some};
ghost use Rattle.elf_base.specs.FileHeader.{header_fields};
ghost use Rattle.elf_base.specs.HeaderText.{class_text, encoding_text, first_part_text};
ghost use Rattle.elf_base.specs.HeaderText.{header_text, machine_text, os_abi_text};
ghost use Rattle.elf_base.specs.HeaderText.{second_part_text, type_text, version_text};

use crate::header::numbers::{Class, Data, Machine, OsAbi, Type, Version};
use crate::header::{Header, HeaderPt1, HeaderPt2, HeaderPt2_};
use crate::print::{Bytes, Field};
use crate::{P32, P64};
use std::fmt;
use std::fmt::Display;

impl Display for Class {
    ghost output = { λ class. Some (class_text class) };

    fn fmt<W: fmt::Write>(&self, f: &mut fmt::Formatter<W>) -> fmt::Result {
        f.write_str(match *self {
            Self::None => "None",
            Self::ThirtyTwo => "ThirtyTwo",
            Self::SixtyFour => "SixtyFour",
            Self::Other(number) => return write!(f, "Other({number})"),
        })
    }
}

impl Display for Data {
    ghost output = { λ encoding. Some (encoding_text encoding) };

    fn fmt<W: fmt::Write>(&self, f: &mut fmt::Formatter<W>) -> fmt::Result {
        f.write_str(match *self {
            Self::None => "None",
            Self::LittleEndian => "LittleEndian",
            Self::BigEndian => "BigEndian",
            Self::Other(number) => return write!(f, "Other({number})"),
        })
    }
}

impl Display for Version {
    ghost output = { λ version. Some (version_text version) };

    fn fmt<W: fmt::Write>(&self, f: &mut fmt::Formatter<W>) -> fmt::Result {
        f.write_str(match *self {
            Self::None => "None",
            Self::Current => "Current",
            Self::Other(number) => return write!(f, "Other({number})"),
        })
    }
}

impl Display for OsAbi {
    ghost output = { λ os_abi. Some (os_abi_text os_abi) };

    fn fmt<W: fmt::Write>(&self, f: &mut fmt::Formatter<W>) -> fmt::Result {
        f.write_str(match *self {
            Self::SystemV => "SystemV",
            Self::HpUx => "HpUx",
            Self::NetBSD => "NetBSD",
            Self::Linux => "Linux",
            Self::Solaris => "Solaris",
            Self::Aix => "Aix",
            Self::Irix => "Irix",
            Self::FreeBSD => "FreeBSD",
            Self::OpenBSD => "OpenBSD",
            Self::OpenVMS => "OpenVMS",
            Self::Other(number) => return write!(f, "Other({number})"),
        })
    }
}

impl Display for Type {
    ghost output = { λ kind. Some (type_text kind) };

    fn fmt<W: fmt::Write>(&self, f: &mut fmt::Formatter<W>) -> fmt::Result {
        f.write_str(match *self {
            Self::None => "None",
            Self::Relocatable => "Relocatable",
            Self::Executable => "Executable",
            Self::SharedObject => "SharedObject",
            Self::Core => "Core",
            Self::ProcessorSpecific(number) => return write!(f, "ProcessorSpecific({number})"),
        })
    }
}

impl Display for Machine {
    ghost output = { λ machine. Some (machine_text machine) };

    fn fmt<W: fmt::Write>(&self, f: &mut fmt::Formatter<W>) -> fmt::Result {
        f.write_str(match *self {
            Self::None => "None",
            Self::Sparc => "Sparc",
            Self::X86 => "X86",
            Self::Mips => "Mips",
            Self::PowerPC => "PowerPC",
            Self::Arm => "Arm",
            Self::SuperH => "SuperH",
            Self::Ia64 => "Ia64",
            Self::X86_64 => "X86_64",
            Self::AArch64 => "AArch64",
            Self::RISC_V => "RISC_V",
            Self::BPF => "BPF",
            Self::Other(number) => return write!(f, "Other({number})"),
        })
    }
}

// Part 1, without its heading.
#[derive(Clone, Copy)]
struct FirstPart<'a>(&'a HeaderPt1);

impl Display for FirstPart<'_> {
    ghost output = { λ part. Some (first_part_text part.0.now) };

    fn fmt<W: fmt::Write>(&self, f: &mut fmt::Formatter<W>) -> fmt::Result {
        write!(
            f,
            "{}{}{}{}{}{}{}",
            Field("magic", Bytes(&self.0.magic)),
            Field("class", self.0.class()),
            Field("data", self.0.data()),
            Field("version", self.0.version()),
            Field("os abi", self.0.os_abi()),
            Field("abi version", self.0.abi_version),
            Field("padding", Bytes(&self.0.padding))
        )
    }
}

impl Display for HeaderPt2_<P32> {
    ghost output = { λ part. Some (second_part_text part) };

    fn fmt<W: fmt::Write>(&self, f: &mut fmt::Formatter<W>) -> fmt::Result {
        self.to_64().fmt(f)
    }
}

impl Display for HeaderPt2_<P64> {
    ghost output = { λ part. Some (second_part_text part) };

    fn fmt<W: fmt::Write>(&self, f: &mut fmt::Formatter<W>) -> fmt::Result {
        write!(
            f,
            "{}{}{}{}{}{}{}{}{}{}{}{}{}",
            Field("type", self.type_.as_type()),
            Field("machine", self.machine.as_machine()),
            Field("version", self.version),
            Field("entry_point", self.entry_point),
            Field("ph_offset", self.ph_offset),
            Field("sh_offset", self.sh_offset),
            Field("flags", self.flags),
            Field("header_size", self.header_size),
            Field("ph_entry_size", self.ph_entry_size),
            Field("ph_count", self.ph_count),
            Field("sh_entry_size", self.sh_entry_size),
            Field("sh_count", self.sh_count),
            Field("sh_str_index", self.sh_str_index)
        )
    }
}

impl Display for HeaderPt2 {
    ghost output = { λ part. Some (second_part_text (header_fields part)) };

    fn fmt<W: fmt::Write>(&self, f: &mut fmt::Formatter<W>) -> fmt::Result {
        match self {
            Self::Header32(part) => fmt::Display::fmt(part, f),
            Self::Header64(part) => fmt::Display::fmt(part, f),
        }
    }
}

impl Display for Header {
    ghost output = { λ header. Some (header_text header) };

    fn fmt<W: fmt::Write>(&self, f: &mut fmt::Formatter<W>) -> fmt::Result {
        write!(f, "ELF header:\n{}{}", FirstPart(&self.pt1), self.pt2)
    }
}
