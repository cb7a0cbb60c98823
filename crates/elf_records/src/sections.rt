//! The named numbers of sections, and the records in sections (gABI, "Sections").

ghost use Rattle.std.specs.Prelude.{◌≡◌, Some};
ghost use Rattle.elf_records.specs.SectionNumbers.{sh_type_number, sh_type_of, sh_type_raw};
ghost use Rattle.elf_records.specs.SectionNumbers.{sh_type_text};

mod note;
mod relocations;

pub use crate::sections::note::NoteHeader;
pub use crate::sections::relocations::{Rel, Rela};
use elf_base::ElfError;
use std::fmt;
use std::fmt::Display;

/// No section: an undefined index.
pub const SHN_UNDEF: u16 = 0;

/// The first reserved index.
pub const SHN_LORESERVE: u16 = 0xff00;

/// The first processor-specific index.
pub const SHN_LOPROC: u16 = 0xff00;

/// The last processor-specific index.
pub const SHN_HIPROC: u16 = 0xff1f;

/// The first OS-specific index.
pub const SHN_LOOS: u16 = 0xff20;

/// The last OS-specific index.
pub const SHN_HIOS: u16 = 0xff3f;

/// The section index of a symbol with an absolute value.
pub const SHN_ABS: u16 = 0xfff1;

/// The section index of a common symbol.
pub const SHN_COMMON: u16 = 0xfff2;

/// The index is stored elsewhere, since it needs more than 16 bits.
pub const SHN_XINDEX: u16 = 0xffff;

/// The last reserved index.
pub const SHN_HIRESERVE: u16 = 0xffff;

/// The first OS-specific type.
pub const SHT_LOOS: u32 = 0x6000_0000;

/// The last OS-specific type.
pub const SHT_HIOS: u32 = 0x6fff_ffff;

/// The first processor-specific type.
pub const SHT_LOPROC: u32 = 0x7000_0000;

/// The last processor-specific type.
pub const SHT_HIPROC: u32 = 0x7fff_ffff;

/// The first type for applications.
pub const SHT_LOUSER: u32 = 0x8000_0000;

/// The last type for applications.
pub const SHT_HIUSER: u32 = 0xffff_ffff;

/// The section is writable while the program runs.
pub const SHF_WRITE: u64 = 1;

/// The section occupies memory while the program runs.
pub const SHF_ALLOC: u64 = 2;

/// The section contains instructions.
pub const SHF_EXECINSTR: u64 = 4;

/// Equal entries of the section may be merged.
pub const SHF_MERGE: u64 = 0x10;

/// The section contains texts ended by zero bytes.
pub const SHF_STRINGS: u64 = 0x20;

/// `info` is a section index.
pub const SHF_INFO_LINK: u64 = 0x40;

/// The section is ordered like the section that it links to.
pub const SHF_LINK_ORDER: u64 = 0x80;

/// The section needs OS-specific processing.
pub const SHF_OS_NONCONFORMING: u64 = 0x100;

/// The section is a member of a group.
pub const SHF_GROUP: u64 = 0x200;

/// The section contains thread-local storage.
pub const SHF_TLS: u64 = 0x400;

/// The data of the section is compressed.
pub const SHF_COMPRESSED: u64 = 0x800;

/// The mask of the OS-specific flags.
pub const SHF_MASKOS: u64 = 0x0ff0_0000;

/// The mask of the processor-specific flags.
pub const SHF_MASKPROC: u64 = 0xf000_0000;

/// The group may have duplicates, of which one is kept.
pub const GRP_COMDAT: u64 = 1;

/// The mask of the OS-specific flags of a group.
pub const GRP_MASKOS: u64 = 0x0ff0_0000;

/// The mask of the processor-specific flags of a group.
pub const GRP_MASKPROC: u64 = 0xf000_0000;

/// The type of a section, as a number (gABI, "Sections", sh_type).
#[derive(Clone, Copy, Debug)]
pub struct ShType_(u32);

impl ShType_ {
    /// The value of `number`, which may be any number.
    pub fn from_raw(number: u32) -> ShType_
        ensures { result ≡ sh_type_raw number }
    {
        Self(number)
    }

    /// The number in the file.
    pub fn raw(self) -> u32
        ensures { result ≡ sh_type_number self }
    {
        self.0
    }

    /// What the number means; `InvalidShType` for 12, 13 and 19 to 0x5fffffff.
    #[tactic(auto, unfolding(crate::specs::SectionNumbers::sh_type_of))]
    #[inline(always)]
    pub fn as_sh_type(self) -> Result<ShType, ElfError>
        ensures { result ≡ sh_type_of (sh_type_number self) }
    {
        Ok(match self.0 {
            0 => ShType::Null,
            1 => ShType::ProgBits,
            2 => ShType::SymTab,
            3 => ShType::StrTab,
            4 => ShType::Rela,
            5 => ShType::Hash,
            6 => ShType::Dynamic,
            7 => ShType::Note,
            8 => ShType::NoBits,
            9 => ShType::Rel,
            10 => ShType::ShLib,
            11 => ShType::DynSym,
            14 => ShType::InitArray,
            15 => ShType::FiniArray,
            16 => ShType::PreInitArray,
            17 => ShType::Group,
            18 => ShType::SymTabShIndex,
            SHT_LOOS..=SHT_HIOS => ShType::OsSpecific(self.0),
            SHT_LOPROC..=SHT_HIPROC => ShType::ProcessorSpecific(self.0),
            SHT_LOUSER..=SHT_HIUSER => ShType::User(self.0),
            _ => return Err(ElfError::InvalidShType),
        })
    }
}

/// The type of a section (gABI, "Sections", sh_type).
#[derive(Clone, Copy, Debug, PartialEq, Eq)]
pub enum ShType {
    /// `SHT_NULL`: an unused entry, whose other fields have no meaning.
    Null,
    /// `SHT_PROGBITS`: contents that the program defines.
    ProgBits,
    /// `SHT_SYMTAB`: the symbol table.
    SymTab,
    /// `SHT_STRTAB`: a string table.
    StrTab,
    /// `SHT_RELA`: relocations with addends.
    Rela,
    /// `SHT_HASH`: a hash table of symbols.
    Hash,
    /// `SHT_DYNAMIC`: the dynamic section.
    Dynamic,
    /// `SHT_NOTE`: notes.
    Note,
    /// `SHT_NOBITS`: like ProgBits, but without bytes in the file.
    NoBits,
    /// `SHT_REL`: relocations without addends.
    Rel,
    /// `SHT_SHLIB`: reserved, without a meaning.
    ShLib,
    /// `SHT_DYNSYM`: the symbol table for dynamic linking.
    DynSym,
    /// `SHT_INIT_ARRAY`: an array of initialization functions.
    InitArray,
    /// `SHT_FINI_ARRAY`: an array of termination functions.
    FiniArray,
    /// `SHT_PREINIT_ARRAY`: an array of pre-initialization functions.
    PreInitArray,
    /// `SHT_GROUP`: a group of sections.
    Group,
    /// `SHT_SYMTAB_SHNDX`: section indices of symbols that need more than 16 bits.
    SymTabShIndex,
    /// `SHT_LOOS` to `SHT_HIOS`: an OS-specific type.
    OsSpecific(u32),
    /// `SHT_LOPROC` to `SHT_HIPROC`: a processor-specific type.
    ProcessorSpecific(u32),
    /// `SHT_LOUSER` to `SHT_HIUSER`: a type for applications.
    User(u32),
}

impl Display for ShType {
    ghost output = { λ kind. Some (sh_type_text kind) };

    fn fmt<W: fmt::Write>(&self, f: &mut fmt::Formatter<W>) -> fmt::Result {
        f.write_str(match *self {
            Self::Null => "Null",
            Self::ProgBits => "ProgBits",
            Self::SymTab => "SymTab",
            Self::StrTab => "StrTab",
            Self::Rela => "Rela",
            Self::Hash => "Hash",
            Self::Dynamic => "Dynamic",
            Self::Note => "Note",
            Self::NoBits => "NoBits",
            Self::Rel => "Rel",
            Self::ShLib => "ShLib",
            Self::DynSym => "DynSym",
            Self::InitArray => "InitArray",
            Self::FiniArray => "FiniArray",
            Self::PreInitArray => "PreInitArray",
            Self::Group => "Group",
            Self::SymTabShIndex => "SymTabShIndex",
            Self::OsSpecific(number) => return write!(f, "OsSpecific({number})"),
            Self::ProcessorSpecific(number) => return write!(f, "ProcessorSpecific({number})"),
            Self::User(number) => return write!(f, "User({number})"),
        })
    }
}
