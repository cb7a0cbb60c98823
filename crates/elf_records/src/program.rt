//! The named numbers of program headers (gABI, "Program Header").

ghost use Rattle.std.specs.Prelude.{◌≡◌, ◌↔◌, IsTrue, Some};
ghost use Rattle.std.specs.Fmt.{WritesOnOk};
ghost use Rattle.std.specs.Int.{IsBitSet};
ghost use Rattle.elf_base.specs.Printed.{hex_text, upper_hex_text};
ghost use Rattle.elf_records.specs.ProgramNumbers.{flags_text, ph_type_number, ph_type_of};
ghost use Rattle.elf_records.specs.ProgramNumbers.{ph_type_raw, ph_type_text};

use elf_base::ElfError;
use std::fmt;
use std::fmt::Display;

/// `PT_LOOS`: the first OS-specific type.
pub const TYPE_LOOS: u32 = 0x6000_0000;

/// `PT_HIOS`: the last OS-specific type.
pub const TYPE_HIOS: u32 = 0x6fff_ffff;

/// `PT_LOPROC`: the first processor-specific type.
pub const TYPE_LOPROC: u32 = 0x7000_0000;

/// `PT_HIPROC`: the last processor-specific type.
pub const TYPE_HIPROC: u32 = 0x7fff_ffff;

/// `PT_GNU_EH_FRAME`: the index of the unwind tables (GNU).
pub const TYPE_GNU_EH_FRAME: u32 = 0x6474_e550;

/// `PT_GNU_STACK`: the permissions of the stack, in its flags (GNU).
pub const TYPE_GNU_STACK: u32 = 0x6474_e551;

/// `PT_GNU_PROPERTY`: a note with properties of the program (GNU).
pub const TYPE_GNU_PROPERTY: u32 = 0x6474_e553;

/// `PT_GNU_RELRO`: the memory that is read-only after relocation (GNU).
pub const TYPE_GNU_RELRO: u32 = 0x6474_e552;

/// `PF_X`: the segment is executable.
pub const FLAG_X: u32 = 1;

/// `PF_W`: the segment is writable.
pub const FLAG_W: u32 = 2;

/// `PF_R`: the segment is readable.
pub const FLAG_R: u32 = 4;

/// `PF_MASKOS`: the mask of the OS-specific flags.
pub const FLAG_MASKOS: u32 = 0x0ff0_0000;

/// `PF_MASKPROC`: the mask of the processor-specific flags.
pub const FLAG_MASKPROC: u32 = 0xf000_0000;

/// The type of a segment, as a number (gABI, "Program Header", p_type).
#[derive(Clone, Copy, Debug, Default)]
pub struct Type_(u32);

impl Type_ {
    /// The value of `number`, which may be any number.
    pub fn from_raw(number: u32) -> Type_
        ensures { result ≡ ph_type_raw number }
    {
        Self(number)
    }

    /// The number in the file.
    pub fn raw(self) -> u32
        ensures { result ≡ ph_type_number self }
    {
        self.0
    }

    /// What the number means; `InvalidPhType` for 8 to 0x5fffffff, and 0x80000000 or more.
    #[tactic(auto, unfolding(crate::specs::ProgramNumbers::ph_type_of))]
    #[inline(always)]
    pub fn as_type(self) -> Result<Type, ElfError>
        ensures { result ≡ ph_type_of (ph_type_number self) }
    {
        Ok(match self.0 {
            0 => Type::Null,
            1 => Type::Load,
            2 => Type::Dynamic,
            3 => Type::Interp,
            4 => Type::Note,
            5 => Type::ShLib,
            6 => Type::Phdr,
            7 => Type::Tls,
            TYPE_GNU_RELRO => Type::GnuRelro,
            TYPE_LOOS..=TYPE_HIOS => Type::OsSpecific(self.0),
            TYPE_LOPROC..=TYPE_HIPROC => Type::ProcessorSpecific(self.0),
            _ => return Err(ElfError::InvalidPhType),
        })
    }
}

/// The type of a segment (gABI, "Program Header", p_type).
#[derive(Clone, Copy, Debug, PartialEq, Eq)]
pub enum Type {
    /// `PT_NULL`: an unused entry, whose other fields have no meaning.
    Null,
    /// `PT_LOAD`: bytes to load into memory.
    Load,
    /// `PT_DYNAMIC`: the dynamic section.
    Dynamic,
    /// `PT_INTERP`: the path of the program interpreter.
    Interp,
    /// `PT_NOTE`: notes.
    Note,
    /// `PT_SHLIB`: reserved, without a meaning.
    ShLib,
    /// `PT_PHDR`: the program header table itself.
    Phdr,
    /// `PT_TLS`: the template of thread-local storage.
    Tls,
    /// `PT_GNU_RELRO`: the memory that is read-only after relocation (GNU).
    GnuRelro,
    /// `PT_LOOS` to `PT_HIOS`: an OS-specific type.
    OsSpecific(u32),
    /// `PT_LOPROC` to `PT_HIPROC`: a processor-specific type.
    ProcessorSpecific(u32),
}

impl Display for Type {
    ghost output = { λ kind. Some (ph_type_text kind) };

    fn fmt<W: fmt::Write>(&self, f: &mut fmt::Formatter<W>) -> fmt::Result {
        f.write_str(match *self {
            Self::Null => "Null",
            Self::Load => "Load",
            Self::Dynamic => "Dynamic",
            Self::Interp => "Interp",
            Self::Note => "Note",
            Self::ShLib => "ShLib",
            Self::Phdr => "Phdr",
            Self::Tls => "Tls",
            Self::GnuRelro => "GnuRelro",
            Self::OsSpecific(number) => return write!(f, "OsSpecific({number})"),
            Self::ProcessorSpecific(number) => return write!(f, "ProcessorSpecific({number})"),
        })
    }
}

/// The permissions of a segment (gABI, "Program Header", p_flags).
#[derive(Clone, Copy, Debug, Default, PartialEq, Eq)]
pub struct Flags(pub u32);

impl Flags {
    /// The flags in `number`, which may be any number.
    pub fn from_raw(number: u32) -> Flags
        ensures { result ≡ record { 0 = number } }
    {
        Self(number)
    }

    /// The number in the file.
    pub fn raw(self) -> u32
        ensures { result ≡ self.0 }
    {
        self.0
    }

    /// Whether the segment is executable: bit 0.
    pub fn is_execute(&self) -> bool
        ensures { IsTrue result ↔ IsBitSet self.now.0 0 }
    {
        self.0 & FLAG_X != 0
    }

    /// Whether the segment is writable: bit 1.
    pub fn is_write(&self) -> bool
        ensures { IsTrue result ↔ IsBitSet self.now.0 1 }
    {
        self.0 & FLAG_W != 0
    }

    /// Whether the segment is readable: bit 2.
    pub fn is_read(&self) -> bool
        ensures { IsTrue result ↔ IsBitSet self.now.0 2 }
    {
        self.0 & FLAG_R != 0
    }
}

impl Display for Flags {
    ghost output = { λ flags. Some (flags_text flags.0) };

    fn fmt<W: fmt::Write>(&self, f: &mut fmt::Formatter<W>) -> fmt::Result {
        write!(
            f,
            "{}{}{}",
            if self.is_execute() { 'X' } else { ' ' },
            if self.is_write() { 'W' } else { ' ' },
            if self.is_read() { 'R' } else { ' ' }
        )
    }
}

impl fmt::LowerHex for Flags {
    fn fmt<W: fmt::Write>(&self, f: &mut fmt::Formatter<W>) -> fmt::Result
        ensures { WritesOnOk W.write_str_gives f.old result (hex_text self.now.0) f.new }
    {
        write!(f, "0x{:x}", self.0)
    }
}

impl fmt::UpperHex for Flags {
    fn fmt<W: fmt::Write>(&self, f: &mut fmt::Formatter<W>) -> fmt::Result
        ensures { WritesOnOk W.write_str_gives f.old result (upper_hex_text self.now.0) f.new }
    {
        write!(f, "0x{:X}", self.0)
    }
}
