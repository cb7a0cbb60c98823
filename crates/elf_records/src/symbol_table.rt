//! The named numbers of symbols (gABI, "Symbol Table").

ghost use Rattle.std.specs.Prelude.{◌≡◌, Some};
ghost use Rattle.elf_records.specs.SymbolNumbers.{binding_number, binding_of, binding_raw};
ghost use Rattle.elf_records.specs.SymbolNumbers.{binding_text, symbol_type_number, symbol_type_of};
ghost use Rattle.elf_records.specs.SymbolNumbers.{symbol_type_raw, symbol_type_text};
ghost use Rattle.elf_records.specs.SymbolNumbers.{visibility_number, visibility_of, visibility_raw};
ghost use Rattle.elf_records.specs.SymbolNumbers.{visibility_text};

use elf_base::ElfError;
use std::fmt;
use std::fmt::Display;

/// `STT_GNU_IFUNC`: a function whose address another function returns (GNU).
pub const TYPE_GNU_IFUNC: u8 = 10;

/// `STB_GNU_UNIQUE`: one symbol of its name in a whole process (GNU).
pub const BINDING_GNU_UNIQUE: u8 = 10;

/// The visibility of a symbol, as a number (gABI, "Symbol Table", st_other).
#[derive(Clone, Copy, Debug)]
pub struct Visibility_(u8);

impl Visibility_ {
    /// The value of `number`, which may be any number.
    pub fn from_raw(number: u8) -> Visibility_
        ensures { result ≡ visibility_raw number }
    {
        Self(number)
    }

    /// The number in the file.
    pub fn raw(self) -> u8
        ensures { result ≡ visibility_number self }
    {
        self.0
    }

    /// What the number means: its low two bits are the visibility.
    #[tactic(auto, unfolding(crate::specs::SymbolNumbers::visibility_of))]
    pub fn as_visibility(self) -> Visibility
        ensures { result ≡ visibility_of (visibility_number self) }
    {
        match self.0 % 4 {
            0 => Visibility::Default,
            1 => Visibility::Internal,
            2 => Visibility::Hidden,
            _ => Visibility::Protected,
        }
    }
}

/// The visibility of a symbol (gABI, "Symbol Table", st_other).
#[derive(Clone, Copy, Debug, PartialEq, Eq)]
pub enum Visibility {
    /// `STV_DEFAULT`: as the binding says.
    Default,
    /// `STV_INTERNAL`: as Hidden, with a processor-specific meaning.
    Internal,
    /// `STV_HIDDEN`: not visible to other files.
    Hidden,
    /// `STV_PROTECTED`: visible to other files, but the file itself uses its own definition.
    Protected,
}

impl Display for Visibility {
    ghost output = { λ visibility. Some (visibility_text visibility) };

    fn fmt<W: fmt::Write>(&self, f: &mut fmt::Formatter<W>) -> fmt::Result {
        f.write_str(match *self {
            Self::Default => "Default",
            Self::Internal => "Internal",
            Self::Hidden => "Hidden",
            Self::Protected => "Protected",
        })
    }
}

/// The binding of a symbol, as a number (gABI, "Symbol Table", ELF32_ST_BIND).
#[derive(Clone, Copy, Debug)]
pub struct Binding_(u8);

impl Binding_ {
    /// The value of `number`, which may be any number.
    pub fn from_raw(number: u8) -> Binding_
        ensures { result ≡ binding_raw number }
    {
        Self(number)
    }

    /// The number in the file.
    pub fn raw(self) -> u8
        ensures { result ≡ binding_number self }
    {
        self.0
    }

    /// What the number means; `InvalidBinding` for 3 to 9, and 16 or more.
    #[tactic(auto, unfolding(crate::specs::SymbolNumbers::binding_of))]
    pub fn as_binding(self) -> Result<Binding, ElfError>
        ensures { result ≡ binding_of (binding_number self) }
    {
        Ok(match self.0 {
            0 => Binding::Local,
            1 => Binding::Global,
            2 => Binding::Weak,
            10..=12 => Binding::OsSpecific(self.0),
            13..=15 => Binding::ProcessorSpecific(self.0),
            _ => return Err(ElfError::InvalidBinding),
        })
    }
}

/// The binding of a symbol (gABI, "Symbol Table", ELF32_ST_BIND).
#[derive(Clone, Copy, Debug, PartialEq, Eq)]
pub enum Binding {
    /// `STB_LOCAL`: visible in its own file only.
    Local,
    /// `STB_GLOBAL`: visible to all files.
    Global,
    /// `STB_WEAK`: as Global, with lower precedence.
    Weak,
    /// `STB_LOOS` to `STB_HIOS`: an OS-specific binding.
    OsSpecific(u8),
    /// `STB_LOPROC` to `STB_HIPROC`: a processor-specific binding.
    ProcessorSpecific(u8),
}

impl Display for Binding {
    ghost output = { λ binding. Some (binding_text binding) };

    fn fmt<W: fmt::Write>(&self, f: &mut fmt::Formatter<W>) -> fmt::Result {
        f.write_str(match *self {
            Self::Local => "Local",
            Self::Global => "Global",
            Self::Weak => "Weak",
            Self::OsSpecific(number) => return write!(f, "OsSpecific({number})"),
            Self::ProcessorSpecific(number) => return write!(f, "ProcessorSpecific({number})"),
        })
    }
}

/// The type of a symbol, as a number (gABI, "Symbol Table", ELF32_ST_TYPE).
#[derive(Clone, Copy, Debug)]
pub struct Type_(u8);

impl Type_ {
    /// The value of `number`, which may be any number.
    pub fn from_raw(number: u8) -> Type_
        ensures { result ≡ symbol_type_raw number }
    {
        Self(number)
    }

    /// The number in the file.
    pub fn raw(self) -> u8
        ensures { result ≡ symbol_type_number self }
    {
        self.0
    }

    /// What the number means; `InvalidSymbolType` for 7 to 9, and 16 or more.
    #[tactic(auto, unfolding(crate::specs::SymbolNumbers::symbol_type_of))]
    pub fn as_type(self) -> Result<Type, ElfError>
        ensures { result ≡ symbol_type_of (symbol_type_number self) }
    {
        Ok(match self.0 {
            0 => Type::NoType,
            1 => Type::Object,
            2 => Type::Func,
            3 => Type::Section,
            4 => Type::File,
            5 => Type::Common,
            6 => Type::Tls,
            10..=12 => Type::OsSpecific(self.0),
            13..=15 => Type::ProcessorSpecific(self.0),
            _ => return Err(ElfError::InvalidSymbolType),
        })
    }
}

/// The type of a symbol (gABI, "Symbol Table", ELF32_ST_TYPE).
#[derive(Clone, Copy, Debug, PartialEq, Eq)]
pub enum Type {
    /// `STT_NOTYPE`: not specified.
    NoType,
    /// `STT_OBJECT`: data, such as a variable.
    Object,
    /// `STT_FUNC`: a function or other code.
    Func,
    /// `STT_SECTION`: a section.
    Section,
    /// `STT_FILE`: the name of a source file.
    File,
    /// `STT_COMMON`: a common block that is not yet allocated.
    Common,
    /// `STT_TLS`: a thread-local variable.
    Tls,
    /// `STT_LOOS` to `STT_HIOS`: an OS-specific type.
    OsSpecific(u8),
    /// `STT_LOPROC` to `STT_HIPROC`: a processor-specific type.
    ProcessorSpecific(u8),
}

impl Display for Type {
    ghost output = { λ kind. Some (symbol_type_text kind) };

    fn fmt<W: fmt::Write>(&self, f: &mut fmt::Formatter<W>) -> fmt::Result {
        f.write_str(match *self {
            Self::NoType => "NoType",
            Self::Object => "Object",
            Self::Func => "Func",
            Self::Section => "Section",
            Self::File => "File",
            Self::Common => "Common",
            Self::Tls => "Tls",
            Self::OsSpecific(number) => return write!(f, "OsSpecific({number})"),
            Self::ProcessorSpecific(number) => return write!(f, "ProcessorSpecific({number})"),
        })
    }
}
