//! The error type of the ELF reader.

ghost use Rattle.std.specs.Prelude.{◌≡◌, Some};
ghost use Rattle.elf_base.specs.Message.{message_of};

use std::error::Error;
use std::fmt;

/// Why a file, or a part of it, can't be read. Each error has one text and a number that never
/// changes, the status in `elf_c`; `docs/api/elf_base.md` lists the calls that return it.
#[derive(Clone, Copy, Debug, PartialEq, Eq)]
pub enum ElfError {
    /// The input has fewer than 16 bytes.
    ShortPart1 = 1,
    /// The input does not begin with `MAGIC`.
    NoMagic = 2,
    /// The class of the input is neither 1 nor 2.
    InvalidClass = 3,
    /// The input ends before the ELF header of its class does.
    ShortHeaders = 4,
    /// A section index of 16 bits is 0xff00 or more, which is reserved.
    ReservedIndex = 5,
    /// An entry of the section header table extends past the end of the input.
    ShortSectionHeader = 6,
    /// The class of the header is neither 1 nor 2.
    UnknownClass = 7,
    /// The entry size of a header table is smaller than a header.
    SmallEntry = 8,
    /// No program header has this index.
    NoProgramHeaders = 9,
    /// An entry of the program header table extends past the end of the input.
    ShortProgramHeader = 10,
    /// The type of a section is unknown.
    InvalidShType = 11,
    /// A section of type Null has no name.
    NullName = 12,
    /// The section that contains the names begins past the end of the input.
    ShortSectionOffset = 13,
    /// A text begins past the end of its data.
    TextStart = 14,
    /// No zero byte ends a text within its data.
    TextEnd = 15,
    /// The bytes of a text are not UTF-8.
    TextUtf8 = 16,
    /// A section or segment of type Null has no data.
    NullData = 17,
    /// The data of a section or segment extends past the end of the input.
    DataRange = 18,
    /// The length of a table is not a multiple of the size of its records.
    NotMultiple = 19,
    /// Data is shorter than the header or number at its start.
    ShortData = 20,
    /// Notes of class 32 are not supported.
    Note32 = 21,
    /// The name of a note does not have the length that the note's header says.
    NoteName = 22,
    /// The description of a note extends past the end of its data.
    NoteDesc = 23,
    /// No section is named `.strtab`.
    NoStrtab = 24,
    /// The type of the section `.strtab` is not StrTab.
    StrtabType = 25,
    /// No section is named `.dynstr`.
    NoDynstr = 26,
    /// The type of a segment is unknown.
    InvalidPhType = 27,
    /// The tag of a dynamic entry is unknown.
    InvalidTag = 28,
    /// A dynamic entry with this tag has no value.
    InvalidValue = 29,
    /// A dynamic entry with this tag has no pointer.
    InvalidPtr = 30,
    /// The binding of a symbol is unknown.
    InvalidBinding = 31,
    /// The type of a symbol is unknown.
    InvalidSymbolType = 32,
    /// The section index of a symbol is reserved, and names no section.
    ReservedSymbolIndex = 33,
    /// No section is named `.symtab_shndx`.
    NoShIndex = 34,
    /// The type of the section `.symtab_shndx` is not SymTabShIndex.
    ExpectedShIndex = 35,
    /// A symbol index is not below the number of symbols, or of words in `.symtab_shndx`.
    SymbolIndex = 36,
    /// A section index does not fit in 16 bits. No call returns it, since larger indices are
    /// supported.
    WideIndex = 37,
    /// The header does not begin with `MAGIC`.
    BadMagic = 38,
    /// The header size in the header is not the size of its two parts.
    HeaderSize = 39,
    /// The class of the header is 0.
    NoClass = 40,
    /// The class of the header is not that of its second part.
    ClassMismatch = 41,
    /// The version of the header is 0.
    NoVersion = 42,
    /// The data byte of the header is 0.
    NoDataFormat = 43,
    /// The program header table extends past the end of the input.
    PhTableRange = 44,
    /// The section header table extends past the end of the input.
    ShTableRange = 45,
    /// The entry size of the program header table is not the size of a program header.
    PhSizeMismatch = 46,
    /// A segment does not end before the end of the input.
    EntryPointRange = 47,
    /// A segment has type ShLib, which is reserved.
    ShLibUsed = 48,
    /// The address and the offset of a segment differ modulo its alignment.
    BadAlign = 49,
    /// A bucket index is not below the number of buckets.
    BucketIndex = 50,
    /// A chain index is not below the number of chains.
    ChainIndex = 51,
    /// The sum of the number of buckets and a chain index does not fit in 32 bits.
    ChainSum = 52,
    /// A word of a hash table extends past the end of its data.
    HashData = 53,
    /// A chain of a hash table never ends.
    HashCycle = 54,
    /// A symbol is not in the chain that its name selects.
    HashMissing = 55,
}

impl ElfError {
    /// The text of the error.
    pub fn message(&self) -> &'static str
        ensures { result.now ≡ message_of self.now }
    {
        match self {
            Self::ShortPart1 => "File is shorter than the first ELF header part",
            Self::NoMagic => "Did not find ELF magic number",
            Self::InvalidClass => "Invalid ELF class",
            Self::ShortHeaders => "File is shorter than ELF headers",
            Self::ReservedIndex => "Attempt to get section for a reserved index",
            Self::ShortSectionHeader => "File is shorter than section header offset",
            Self::UnknownClass => "Unknown ELF class",
            Self::SmallEntry => "Entry size is smaller than the record",
            Self::NoProgramHeaders => "There are no program headers in this file",
            Self::ShortProgramHeader => "File is shorter than program header offset",
            Self::InvalidShType => "Invalid sh type",
            Self::NullName => "Attempt to get name of null section",
            Self::ShortSectionOffset => "File is shorter than section offset",
            Self::TextStart => "Text starts past the end of its data",
            Self::TextEnd => "Text has no terminating zero",
            Self::TextUtf8 => "Text is not valid UTF-8",
            Self::NullData => "Attempt to get data of a null header",
            Self::DataRange => "Data is out of range",
            Self::NotMultiple => "Data is not a whole number of records",
            Self::ShortData => "Data is too short",
            Self::Note32 => "32-bit binaries not implemented",
            Self::NoteName => "Note name does not match its size",
            Self::NoteDesc => "Note description is out of range",
            Self::NoStrtab => "no .strtab section",
            Self::StrtabType => "expected .strtab to be StrTab",
            Self::NoDynstr => "no .dynstr section",
            Self::InvalidPhType => "Invalid type",
            Self::InvalidTag => "Invalid tag value",
            Self::InvalidValue => "Invalid value",
            Self::InvalidPtr => "Invalid ptr",
            Self::InvalidBinding => "Invalid value for binding",
            Self::InvalidSymbolType => "Invalid value for type",
            Self::ReservedSymbolIndex => "Reserved section header index",
            Self::NoShIndex => "no .symtab_shndx section",
            Self::ExpectedShIndex => "Expected SymTabShIndex",
            Self::SymbolIndex => "Symbol index is out of range",
            Self::WideIndex => "Section index does not fit in 16 bits",
            Self::BadMagic => "bad magic number",
            Self::HeaderSize => "header_size does not match size of header",
            Self::NoClass => "No class",
            Self::ClassMismatch => "Mismatch between specified and actual class",
            Self::NoVersion => "no version",
            Self::NoDataFormat => "no data format",
            Self::PhTableRange => "program header table out of range",
            Self::ShTableRange => "section header table out of range",
            Self::PhSizeMismatch => "program header size mismatch",
            Self::EntryPointRange => "entry point out of range",
            Self::ShLibUsed => "Shouldn't use ShLib",
            Self::BadAlign => "Invalid combination of virtual_addr, offset, and align",
            Self::BucketIndex => "Bucket index is out of range",
            Self::ChainIndex => "Chain index is out of range",
            Self::ChainSum => "Chain position does not fit in 32 bits",
            Self::HashData => "Hash table data is too short",
            Self::HashCycle => "Hash chain never ends",
            Self::HashMissing => "Symbol is missing from the hash table",
        }
    }
}

impl fmt::Display for ElfError {
    ghost output = { λ error. Some (message_of error) };

    ghost styled_output = { λ error spec. Some (message_of error) };

    fn fmt<W: fmt::Write>(&self, f: &mut fmt::Formatter<W>) -> fmt::Result {
        f.write_str(self.message())
    }
}

impl Error for ElfError {}
