//! The named numbers of an ELF header.
//!
//! A type whose name ends in `_` is the number in the file, which may be any. The enum with that
//! name, without `_`, is what the number means.

ghost use Rattle.std.specs.Prelude.{◌≡◌, ◌↔◌, IsTrue};
ghost use Rattle.elf_base.specs.FileHeader.{class_number, class_of, class_raw, encoding_number};
ghost use Rattle.elf_base.specs.FileHeader.{encoding_of, encoding_raw, machine_number, machine_of};
ghost use Rattle.elf_base.specs.FileHeader.{machine_raw, os_abi_number, os_abi_of, os_abi_raw};
ghost use Rattle.elf_base.specs.FileHeader.{type_number, type_of, type_raw, version_number};
ghost use Rattle.elf_base.specs.FileHeader.{version_of, version_raw};

/// The class of a file, as a number (gABI, "ELF Header", EI_CLASS).
#[derive(Clone, Copy, Debug, PartialEq, Eq)]
pub struct Class_(u8);

impl Class_ {
    /// The value of `number`, which may be any number.
    pub fn from_raw(number: u8) -> Class_
        ensures { result ≡ class_raw number }
    {
        Self(number)
    }

    /// The number in the file.
    pub fn raw(self) -> u8
        ensures { result ≡ class_number self }
    {
        self.0
    }

    /// What the number means.
    pub fn as_class(self) -> Class
        ensures { result ≡ class_of (class_number self) }
    {
        match self.0 {
            0 => Class::None,
            1 => Class::ThirtyTwo,
            2 => Class::SixtyFour,
            other => Class::Other(other),
        }
    }

    /// Whether the number is 0.
    pub fn is_none(self) -> bool
        ensures { IsTrue result ↔ (class_number self ≡ 0) }
    {
        self.0 == 0
    }
}

/// The class of a file: the width of its addresses and offsets (gABI, "ELF Header", EI_CLASS).
#[derive(Clone, Copy, Debug, PartialEq, Eq)]
pub enum Class {
    /// `ELFCLASSNONE`: invalid.
    None,
    /// `ELFCLASS32`: 32 bits.
    ThirtyTwo,
    /// `ELFCLASS64`: 64 bits.
    SixtyFour,
    /// Any other number.
    Other(u8),
}

impl Class {
    /// Whether it is `None`, the meaning of 0.
    pub fn is_none(&self) -> bool
        ensures { IsTrue result ↔ (self.now ≡ Class.None) }
    {
        matches!(*self, Self::None)
    }
}

/// The data encoding of a file, as a number (gABI, "ELF Header", EI_DATA).
#[derive(Clone, Copy, Debug)]
pub struct Data_(u8);

impl Data_ {
    /// The value of `number`, which may be any number.
    pub fn from_raw(number: u8) -> Data_
        ensures { result ≡ encoding_raw number }
    {
        Self(number)
    }

    /// The number in the file.
    pub fn raw(self) -> u8
        ensures { result ≡ encoding_number self }
    {
        self.0
    }

    /// What the number means.
    pub fn as_data(self) -> Data
        ensures { result ≡ encoding_of (encoding_number self) }
    {
        match self.0 {
            0 => Data::None,
            1 => Data::LittleEndian,
            2 => Data::BigEndian,
            other => Data::Other(other),
        }
    }

    /// Whether the number is 0.
    pub fn is_none(self) -> bool
        ensures { IsTrue result ↔ (encoding_number self ≡ 0) }
    {
        self.0 == 0
    }
}

/// The data encoding of a file: its byte order (gABI, "ELF Header", EI_DATA).
#[derive(Clone, Copy, Debug, PartialEq, Eq)]
pub enum Data {
    /// `ELFDATANONE`: invalid.
    None,
    /// `ELFDATA2LSB`: the least significant byte comes first.
    LittleEndian,
    /// `ELFDATA2MSB`: the most significant byte comes first.
    BigEndian,
    /// Any other number.
    Other(u8),
}

impl Data {
    /// Whether it is `None`, the meaning of 0.
    pub fn is_none(&self) -> bool
        ensures { IsTrue result ↔ (self.now ≡ Data.None) }
    {
        matches!(*self, Self::None)
    }
}

/// The version of the header, as a number (gABI, "ELF Header", EI_VERSION).
#[derive(Clone, Copy, Debug)]
pub struct Version_(u8);

impl Version_ {
    /// The value of `number`, which may be any number.
    pub fn from_raw(number: u8) -> Version_
        ensures { result ≡ version_raw number }
    {
        Self(number)
    }

    /// The number in the file.
    pub fn raw(self) -> u8
        ensures { result ≡ version_number self }
    {
        self.0
    }

    /// What the number means.
    pub fn as_version(self) -> Version
        ensures { result ≡ version_of (version_number self) }
    {
        match self.0 {
            0 => Version::None,
            1 => Version::Current,
            other => Version::Other(other),
        }
    }

    /// Whether the number is 0.
    pub fn is_none(self) -> bool
        ensures { IsTrue result ↔ (version_number self ≡ 0) }
    {
        self.0 == 0
    }
}

/// The version of the header (gABI, "ELF Header", EI_VERSION).
#[derive(Clone, Copy, Debug, PartialEq, Eq)]
pub enum Version {
    /// `EV_NONE`: invalid.
    None,
    /// `EV_CURRENT`: the only version.
    Current,
    /// Any other number.
    Other(u8),
}

impl Version {
    /// Whether it is `None`, the meaning of 0.
    pub fn is_none(&self) -> bool
        ensures { IsTrue result ↔ (self.now ≡ Version.None) }
    {
        matches!(*self, Self::None)
    }
}

/// The operating system whose extensions a file uses, as a number (gABI, "ELF Header", EI_OSABI).
#[derive(Clone, Copy, Debug)]
pub struct OsAbi_(u8);

impl OsAbi_ {
    /// The value of `number`, which may be any number.
    pub fn from_raw(number: u8) -> OsAbi_
        ensures { result ≡ os_abi_raw number }
    {
        Self(number)
    }

    /// The number in the file.
    pub fn raw(self) -> u8
        ensures { result ≡ os_abi_number self }
    {
        self.0
    }

    /// What the number means.
    pub fn as_os_abi(self) -> OsAbi
        ensures { result ≡ os_abi_of (os_abi_number self) }
    {
        match self.0 {
            0 => OsAbi::SystemV,
            1 => OsAbi::HpUx,
            2 => OsAbi::NetBSD,
            3 => OsAbi::Linux,
            6 => OsAbi::Solaris,
            7 => OsAbi::Aix,
            8 => OsAbi::Irix,
            9 => OsAbi::FreeBSD,
            12 => OsAbi::OpenBSD,
            13 => OsAbi::OpenVMS,
            other => OsAbi::Other(other),
        }
    }
}

/// The operating system whose extensions a file uses (gABI, "ELF Header", EI_OSABI).
#[derive(Clone, Copy, Debug, PartialEq, Eq)]
pub enum OsAbi {
    /// `ELFOSABI_NONE`: no extensions, or not specified.
    SystemV,
    /// `ELFOSABI_HPUX`: Hewlett-Packard HP-UX.
    HpUx,
    /// `ELFOSABI_NETBSD`: NetBSD.
    NetBSD,
    /// `ELFOSABI_GNU`, also `ELFOSABI_LINUX`: GNU and Linux.
    Linux,
    /// `ELFOSABI_SOLARIS`: Sun Solaris.
    Solaris,
    /// `ELFOSABI_AIX`: IBM AIX.
    Aix,
    /// `ELFOSABI_IRIX`: SGI IRIX.
    Irix,
    /// `ELFOSABI_FREEBSD`: FreeBSD.
    FreeBSD,
    /// `ELFOSABI_OPENBSD`: OpenBSD.
    OpenBSD,
    /// `ELFOSABI_OPENVMS`: OpenVMS.
    OpenVMS,
    /// Any other number.
    Other(u8),
}

/// The type of an object file, as a number (gABI, "ELF Header", e_type).
#[derive(Clone, Copy, Debug)]
pub struct Type_(pub u16);

impl Type_ {
    /// The value of `number`, which may be any number.
    pub fn from_raw(number: u16) -> Type_
        ensures { result ≡ type_raw number }
    {
        Self(number)
    }

    /// The number in the file.
    pub fn raw(self) -> u16
        ensures { result ≡ type_number self }
    {
        self.0
    }

    /// What the number means.
    pub fn as_type(self) -> Type
        ensures { result ≡ type_of (type_number self) }
    {
        match self.0 {
            0 => Type::None,
            1 => Type::Relocatable,
            2 => Type::Executable,
            3 => Type::SharedObject,
            4 => Type::Core,
            other => Type::ProcessorSpecific(other),
        }
    }
}

/// The type of an object file (gABI, "ELF Header", e_type).
#[derive(Clone, Copy, Debug, PartialEq, Eq)]
pub enum Type {
    /// `ET_NONE`: no type.
    None,
    /// `ET_REL`: a relocatable file.
    Relocatable,
    /// `ET_EXEC`: an executable file.
    Executable,
    /// `ET_DYN`: a shared object.
    SharedObject,
    /// `ET_CORE`: a core dump.
    Core,
    /// Any other number, including `ET_LOOS` to `ET_HIOS` (0xfe00 to 0xfeff) and `ET_LOPROC` to
    /// `ET_HIPROC` (0xff00 to 0xffff).
    ProcessorSpecific(u16),
}

/// The processor architecture of a file, as a number (gABI, "ELF Header", e_machine).
#[derive(Clone, Copy, Debug)]
pub struct Machine_(u16);

impl Machine_ {
    /// The value of `number`, which may be any number.
    pub fn from_raw(number: u16) -> Machine_
        ensures { result ≡ machine_raw number }
    {
        Self(number)
    }

    /// The number in the file.
    pub fn raw(self) -> u16
        ensures { result ≡ machine_number self }
    {
        self.0
    }

    /// What the number means.
    pub fn as_machine(self) -> Machine
        ensures { result ≡ machine_of (machine_number self) }
    {
        match self.0 {
            0 => Machine::None,
            2 => Machine::Sparc,
            3 => Machine::X86,
            8 => Machine::Mips,
            0x14 => Machine::PowerPC,
            0x28 => Machine::Arm,
            0x2a => Machine::SuperH,
            0x32 => Machine::Ia64,
            0x3e => Machine::X86_64,
            0xb7 => Machine::AArch64,
            0xf3 => Machine::RISC_V,
            0xf7 => Machine::BPF,
            other => Machine::Other(other),
        }
    }
}

/// The processor architecture of a file (gABI, "ELF Header", e_machine).
#[allow(non_camel_case_types)]
#[derive(Clone, Copy, Debug, PartialEq, Eq)]
pub enum Machine {
    /// `EM_NONE`: no machine.
    None,
    /// `EM_SPARC`: SPARC.
    Sparc,
    /// `EM_386`: Intel 80386.
    X86,
    /// `EM_MIPS`: MIPS.
    Mips,
    /// `EM_PPC`: PowerPC.
    PowerPC,
    /// `EM_ARM`: 32-bit Arm.
    Arm,
    /// `EM_SH`: Hitachi SuperH.
    SuperH,
    /// `EM_IA_64`: Intel Itanium.
    Ia64,
    /// `EM_X86_64`: AMD x86-64.
    X86_64,
    /// `EM_AARCH64`: 64-bit Arm.
    AArch64,
    /// `EM_RISCV`: RISC-V.
    RISC_V,
    /// `EM_BPF`: Linux BPF.
    BPF,
    /// Any other number.
    Other(u16),
}
