//! The dynamic section (gABI, "Dynamic Section").

ghost use Rattle.std.specs.Prelude.{◌≡◌};
ghost use Rattle.std.proofs.Common.{lit<};
ghost use Rattle.elf_records.specs.Dynamic.{dynamic_32, dynamic_64, dynamic_tag, dynamic_value};
ghost use Rattle.elf_records.specs.Dynamic.{pointer_in, pointer_of, tag_row_of, tag_number, tag_of};
ghost use Rattle.elf_records.specs.Dynamic.{tag_raw, value_in, value_of};

use elf_base::bytes::{Order, Record, read_u32, read_u64};
use elf_base::{ElfError, P32, P64};

/// `DF_ORIGIN`: paths may contain `$ORIGIN`, the directory of the file.
pub const FLAG_ORIGIN: u64 = 0x1;

/// `DF_SYMBOLIC`: references of the file are bound within it first.
pub const FLAG_SYMBOLIC: u64 = 0x2;

/// `DF_TEXTREL`: relocations may change a segment that is not writable.
pub const FLAG_TEXTREL: u64 = 0x4;

/// `DF_BIND_NOW`: all relocations are applied before the program runs.
pub const FLAG_BIND_NOW: u64 = 0x8;

/// `DF_STATIC_TLS`: the file uses the static model of thread-local storage.
pub const FLAG_STATIC_TLS: u64 = 0x10;

/// `DF_1_NOW`: all relocations are applied before the program runs.
pub const FLAG_1_NOW: u64 = 0x1;

/// `DF_1_GLOBAL`: the symbols of the library are available to all other libraries.
pub const FLAG_1_GLOBAL: u64 = 0x2;

/// `DF_1_GROUP`: the library is a member of a group.
pub const FLAG_1_GROUP: u64 = 0x4;

/// `DF_1_NODELETE`: the library stays loaded.
pub const FLAG_1_NODELETE: u64 = 0x8;

/// `DF_1_LOADFLTR`: filtered libraries are loaded immediately.
pub const FLAG_1_LOADFLTR: u64 = 0x10;

/// `DF_1_INITFIRST`: the library is initialized before all others.
pub const FLAG_1_INITFIRST: u64 = 0x20;

/// `DF_1_NOOPEN`: `dlopen` cannot load the library.
pub const FLAG_1_NOOPEN: u64 = 0x40;

/// `DF_1_ORIGIN`: paths may contain `$ORIGIN`, the directory of the library.
pub const FLAG_1_ORIGIN: u64 = 0x80;

/// `DF_1_DIRECT`: symbols are bound directly.
pub const FLAG_1_DIRECT: u64 = 0x100;

/// `DF_1_TRANS`: the meaning is not documented.
pub const FLAG_1_TRANS: u64 = 0x200;

/// `DF_1_INTERPOSE`: the symbols of the library take precedence over those of other libraries.
pub const FLAG_1_INTERPOSE: u64 = 0x400;

/// `DF_1_NODEFLIB`: the default library search path is ignored.
pub const FLAG_1_NODEFLIB: u64 = 0x800;

/// `DF_1_NODUMP`: `dldump` cannot dump the library.
pub const FLAG_1_NODUMP: u64 = 0x1000;

/// `DF_1_CONFALT`: an alternative configuration is in use.
pub const FLAG_1_CONFALT: u64 = 0x2000;

/// `DF_1_ENDFILTEE`: the search for filtered libraries ends at this one.
pub const FLAG_1_ENDFILTEE: u64 = 0x4000;

/// `DF_1_DISPRELDNE`: displacement relocations were applied when the file was built.
pub const FLAG_1_DISPRELDNE: u64 = 0x8000;

/// `DF_1_DISPRELPND`: displacement relocations are applied at run time.
pub const FLAG_1_DISPRELPND: u64 = 0x1_0000;

/// `DF_1_NODIRECT`: the file has no direct bindings.
pub const FLAG_1_NODIRECT: u64 = 0x2_0000;

/// `DF_1_IGNMULDEF`: further definitions of a symbol are ignored.
pub const FLAG_1_IGNMULDEF: u64 = 0x4_0000;

/// `DF_1_NOKSYMS`: the meaning is not documented.
pub const FLAG_1_NOKSYMS: u64 = 0x8_0000;

/// `DF_1_NOHDR`: the meaning is not documented.
pub const FLAG_1_NOHDR: u64 = 0x10_0000;

/// `DF_1_EDITED`: the file was modified after it was built.
pub const FLAG_1_EDITED: u64 = 0x20_0000;

/// `DF_1_NORELOC`: the meaning is not documented.
pub const FLAG_1_NORELOC: u64 = 0x40_0000;

/// `DF_1_SYMINTPOSE`: individual symbols take precedence over those of other libraries.
pub const FLAG_1_SYMINTPOSE: u64 = 0x80_0000;

/// `DF_1_GLOBAUDIT`: all libraries are audited.
pub const FLAG_1_GLOBAUDIT: u64 = 0x100_0000;

/// `DF_1_SINGLETON`: the file uses singleton symbols.
pub const FLAG_1_SINGLETON: u64 = 0x200_0000;

/// `DF_1_STUB`: the file is a stub for another file, which contains the code.
pub const FLAG_1_STUB: u64 = 0x400_0000;

/// `DF_1_PIE`: the file is a position-independent executable.
pub const FLAG_1_PIE: u64 = 0x800_0000;

/// An entry of the dynamic section: a tag, and a number whose meaning depends on the tag (gABI,
/// "Dynamic Section", Elf32_Dyn, Elf64_Dyn).
#[derive(Clone, Copy, Debug)]
pub struct Dynamic<P> {
    tag: Tag_<P>,
    value: P,
}

/// The tag of a dynamic entry, as a number (gABI, "Dynamic Section", d_tag).
#[derive(Clone, Copy, Debug)]
pub struct Tag_<P>(P);

/// The tag of a dynamic entry (gABI, "Dynamic Section", d_tag).
#[derive(Clone, Debug, Drop, PartialEq, Eq)]
pub enum Tag<P> {
    /// `DT_NULL`: the end of the entries.
    Null,
    /// `DT_NEEDED`: the name of a needed library, as an offset in the string table.
    Needed,
    /// `DT_PLTRELSZ`: the size of the relocations of the procedure linkage table, in bytes.
    PltRelSize,
    /// `DT_PLTGOT`: the address of the procedure linkage table or the global offset table.
    Pltgot,
    /// `DT_HASH`: the address of the symbol hash table.
    Hash,
    /// `DT_STRTAB`: the address of the string table.
    StrTab,
    /// `DT_SYMTAB`: the address of the symbol table.
    SymTab,
    /// `DT_RELA`: the address of the relocations with addends.
    Rela,
    /// `DT_RELASZ`: the size of the relocations with addends, in bytes.
    RelaSize,
    /// `DT_RELAENT`: the size of one relocation with an addend, in bytes.
    RelaEnt,
    /// `DT_STRSZ`: the size of the string table, in bytes.
    StrSize,
    /// `DT_SYMENT`: the size of one entry of the symbol table, in bytes.
    SymEnt,
    /// `DT_INIT`: the address of the initialization function.
    Init,
    /// `DT_FINI`: the address of the termination function.
    Fini,
    /// `DT_SONAME`: the name of this library, as an offset in the string table.
    SoName,
    /// `DT_RPATH`: the library search path, as an offset in the string table (older).
    RPath,
    /// `DT_SYMBOLIC`: symbols are searched in this library first.
    Symbolic,
    /// `DT_REL`: the address of the relocations without addends.
    Rel,
    /// `DT_RELSZ`: the size of the relocations without addends, in bytes.
    RelSize,
    /// `DT_RELENT`: the size of one relocation without an addend, in bytes.
    RelEnt,
    /// `DT_PLTREL`: the kind of relocations of the procedure linkage table: the tag Rel or Rela.
    PltRel,
    /// `DT_DEBUG`: an address for debuggers.
    Debug,
    /// `DT_TEXTREL`: a relocation may modify a segment that is not writable.
    TextRel,
    /// `DT_JMPREL`: the address of the relocations of the procedure linkage table.
    JmpRel,
    /// `DT_BIND_NOW`: all relocations are applied before the program runs.
    BindNow,
    /// `DT_INIT_ARRAY`: the address of the array of initialization functions.
    InitArray,
    /// `DT_FINI_ARRAY`: the address of the array of termination functions.
    FiniArray,
    /// `DT_INIT_ARRAYSZ`: the size of the array of initialization functions, in bytes.
    InitArraySize,
    /// `DT_FINI_ARRAYSZ`: the size of the array of termination functions, in bytes.
    FiniArraySize,
    /// `DT_RUNPATH`: the library search path, as an offset in the string table.
    RunPath,
    /// `DT_FLAGS`: flags of this file.
    Flags,
    /// `DT_PREINIT_ARRAY`: the address of the array of pre-initialization functions.
    PreInitArray,
    /// `DT_PREINIT_ARRAYSZ`: the size of the array of pre-initialization functions, in bytes.
    PreInitArraySize,
    /// `DT_SYMTAB_SHNDX`: the address of the section indices of symbols that need more than 16
    /// bits.
    SymTabShIndex,
    /// `DT_RELRSZ`: the size of the relative relocations, in bytes.
    RelrSize,
    /// `DT_RELR`: the address of the relative relocations.
    Relr,
    /// `DT_RELRENT`: the size of one relative relocation, in bytes.
    RelrEnt,
    /// `DT_FLAGS_1`: further flags of this file, such as `FLAG_1_NOW`.
    Flags1,
    /// `DT_LOOS` to `DT_HIOS`: an OS-specific tag.
    OsSpecific(P),
    /// `DT_LOPROC` to `DT_HIPROC`: a processor-specific tag.
    ProcessorSpecific(P),
}

// What the number of an entry means, by its tag (gABI, "Dynamic Section", the column d_un).
#[derive(Clone, Copy)]
enum Meaning {
    // Nothing.
    Ignored,
    // A value, such as a size or an offset.
    Value,
    // An address.
    Pointer,
    // A value or an address, as the owner of the tag defines.
    Unspecified,
}

impl Meaning {
    // The number of an entry as a value, or `InvalidValue`.
    #[inline(always)]
    fn value<P: Copy>(self, number: P) -> Result<P, ElfError>
        ensures { result ≡ value_in number self }
    {
        match self {
            Self::Value | Self::Unspecified => Ok(number),
            Self::Ignored | Self::Pointer => Err(ElfError::InvalidValue),
        }
    }

    // The number of an entry as a pointer, or `InvalidPtr`.
    #[inline(always)]
    fn pointer<P: Copy>(self, number: P) -> Result<P, ElfError>
        ensures { result ≡ pointer_in number self }
    {
        match self {
            Self::Pointer | Self::Unspecified => Ok(number),
            Self::Ignored | Self::Value => Err(ElfError::InvalidPtr),
        }
    }
}

// The tag of a number, and what the number of an entry with this tag means; `raw` is the tag's
// number in the type of the file's class.
#[tactic(auto, unfolding(crate::specs::Dynamic::tag_row_of))]
#[inline(always)]
fn row<P: Copy>(number: u64, raw: P) -> Result<(Tag<P>, Meaning), ElfError>
    ensures { result ≡ tag_row_of raw number }
{
    Ok(match number {
        0 => (Tag::Null, Meaning::Ignored),
        1 => (Tag::Needed, Meaning::Value),
        2 => (Tag::PltRelSize, Meaning::Value),
        3 => (Tag::Pltgot, Meaning::Pointer),
        4 => (Tag::Hash, Meaning::Pointer),
        5 => (Tag::StrTab, Meaning::Pointer),
        6 => (Tag::SymTab, Meaning::Pointer),
        7 => (Tag::Rela, Meaning::Pointer),
        8 => (Tag::RelaSize, Meaning::Value),
        9 => (Tag::RelaEnt, Meaning::Value),
        10 => (Tag::StrSize, Meaning::Value),
        11 => (Tag::SymEnt, Meaning::Value),
        12 => (Tag::Init, Meaning::Pointer),
        13 => (Tag::Fini, Meaning::Pointer),
        14 => (Tag::SoName, Meaning::Value),
        15 => (Tag::RPath, Meaning::Value),
        16 => (Tag::Symbolic, Meaning::Ignored),
        17 => (Tag::Rel, Meaning::Pointer),
        18 => (Tag::RelSize, Meaning::Value),
        19 => (Tag::RelEnt, Meaning::Value),
        20 => (Tag::PltRel, Meaning::Value),
        21 => (Tag::Debug, Meaning::Pointer),
        22 => (Tag::TextRel, Meaning::Ignored),
        23 => (Tag::JmpRel, Meaning::Pointer),
        24 => (Tag::BindNow, Meaning::Ignored),
        25 => (Tag::InitArray, Meaning::Pointer),
        26 => (Tag::FiniArray, Meaning::Pointer),
        27 => (Tag::InitArraySize, Meaning::Value),
        28 => (Tag::FiniArraySize, Meaning::Value),
        29 => (Tag::RunPath, Meaning::Value),
        30 => (Tag::Flags, Meaning::Value),
        32 => (Tag::PreInitArray, Meaning::Pointer),
        33 => (Tag::PreInitArraySize, Meaning::Value),
        34 => (Tag::SymTabShIndex, Meaning::Pointer),
        35 => (Tag::RelrSize, Meaning::Value),
        36 => (Tag::Relr, Meaning::Pointer),
        37 => (Tag::RelrEnt, Meaning::Value),
        0x6fff_fffb => (Tag::Flags1, Meaning::Value),
        0x6000_000d..=0x6fff_ffff => (Tag::OsSpecific(raw), Meaning::Unspecified),
        0x7000_0000..=0x7fff_ffff => (Tag::ProcessorSpecific(raw), Meaning::Unspecified),
        _ => return Err(ElfError::InvalidTag),
    })
}

impl Record for Dynamic<P32> {
    ghost SIZE = { 8 };

    const SIZE: usize = 8;

    ghost value = { dynamic_32 };

    ghost size_above_zero = { lit< tt };

    fn decode(bytes: &[u8], order: Order) -> Dynamic<P32> {
        Self {
            tag: Tag_(read_u32(bytes, 0, order)),
            value: read_u32(bytes, 4, order),
        }
    }
}

impl Record for Dynamic<P64> {
    ghost SIZE = { 16 };

    const SIZE: usize = 16;

    ghost value = { dynamic_64 };

    ghost size_above_zero = { lit< tt };

    fn decode(bytes: &[u8], order: Order) -> Dynamic<P64> {
        Self {
            tag: Tag_(read_u64(bytes, 0, order)),
            value: read_u64(bytes, 8, order),
        }
    }
}

impl<P: Copy> Tag_<P> {
    /// The value of `number`, which may be any number.
    pub fn from_raw(number: P) -> Tag_<P>
        ensures { result ≡ tag_raw number }
    {
        Self(number)
    }

    /// The number in the file.
    pub fn raw(self) -> P
        ensures { result ≡ tag_number self }
    {
        self.0
    }
}

impl Tag_<P32> {
    /// What the number means; `InvalidTag` for 31, 38 to 0x6000000c, and 0x80000000 or more.
    #[inline(always)]
    pub fn as_tag(self) -> Result<Tag<P32>, ElfError>
        ensures { result ≡ tag_of (tag_number self) }
    {
        let (tag, _meaning) = row(u64::from(self.0), self.0)?;
        Ok(tag)
    }
}

impl Dynamic<P32> {
    /// The same entry with numbers of 64 bits.
    #[inline(always)]
    pub fn widened(&self) -> Dynamic<P64>
        ensures { result ≡ self.now }
    {
        Dynamic {
            tag: Tag_(u64::from(self.tag.0)),
            value: u64::from(self.value),
        }
    }

    /// The number of the tag, whether it is known or not (d_tag).
    #[inline(always)]
    pub fn raw_tag(&self) -> u64
        ensures { result ≡ dynamic_tag self.now }
    {
        u64::from(self.tag.0)
    }

    /// The entry's number, whatever the tag (d_un).
    #[inline(always)]
    pub fn raw_val(&self) -> u64
        ensures { result ≡ dynamic_value self.now }
    {
        u64::from(self.value)
    }

    /// The tag of the entry; `InvalidTag` if its number is unknown.
    #[inline(always)]
    pub fn get_tag(&self) -> Result<Tag<P32>, ElfError>
        ensures { result ≡ tag_of (dynamic_tag self.now) }
    {
        self.tag.as_tag()
    }

    /// The entry's number as a value; `InvalidTag`, or `InvalidValue` if entries with this tag have
    /// none.
    #[inline(always)]
    pub fn get_val(&self) -> Result<P32, ElfError>
        ensures { result ≡ value_of (dynamic_tag self.now) (dynamic_value self.now) }
    {
        let (_tag, meaning) = row(u64::from(self.tag.0), self.tag.0)?;
        meaning.value(self.value)
    }

    /// The entry's number as a pointer; `InvalidTag`, or `InvalidPtr` if entries with this tag have
    /// none.
    #[inline(always)]
    pub fn get_ptr(&self) -> Result<P32, ElfError>
        ensures { result ≡ pointer_of (dynamic_tag self.now) (dynamic_value self.now) }
    {
        let (_tag, meaning) = row(u64::from(self.tag.0), self.tag.0)?;
        meaning.pointer(self.value)
    }
}

impl Tag_<P64> {
    /// What the number means; `InvalidTag` for 31, 38 to 0x6000000c, and 0x80000000 or more.
    #[inline(always)]
    pub fn as_tag(self) -> Result<Tag<P64>, ElfError>
        ensures { result ≡ tag_of (tag_number self) }
    {
        let (tag, _meaning) = row(self.0, self.0)?;
        Ok(tag)
    }
}

impl Dynamic<P64> {
    /// The number of the tag, whether it is known or not (d_tag).
    #[inline(always)]
    pub fn raw_tag(&self) -> u64
        ensures { result ≡ dynamic_tag self.now }
    {
        self.tag.0
    }

    /// The entry's number, whatever the tag (d_un).
    #[inline(always)]
    pub fn raw_val(&self) -> u64
        ensures { result ≡ dynamic_value self.now }
    {
        self.value
    }

    /// The tag of the entry; `InvalidTag` if its number is unknown.
    #[inline(always)]
    pub fn get_tag(&self) -> Result<Tag<P64>, ElfError>
        ensures { result ≡ tag_of (dynamic_tag self.now) }
    {
        self.tag.as_tag()
    }

    /// The entry's number as a value; `InvalidTag`, or `InvalidValue` if entries with this tag have
    /// none.
    #[inline(always)]
    pub fn get_val(&self) -> Result<P64, ElfError>
        ensures { result ≡ value_of (dynamic_tag self.now) (dynamic_value self.now) }
    {
        let (_tag, meaning) = row(self.tag.0, self.tag.0)?;
        meaning.value(self.value)
    }

    /// The entry's number as a pointer; `InvalidTag`, or `InvalidPtr` if entries with this tag have
    /// none.
    #[inline(always)]
    pub fn get_ptr(&self) -> Result<P64, ElfError>
        ensures { result ≡ pointer_of (dynamic_tag self.now) (dynamic_value self.now) }
    {
        let (_tag, meaning) = row(self.tag.0, self.tag.0)?;
        meaning.pointer(self.value)
    }
}
