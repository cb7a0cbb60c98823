//! Errors for the parts of a file that a dynamic linker reads.

ghost use Rattle.std.specs.Prelude.{◌≡◌, ◌<◌, IfSome, Some};
ghost use Rattle.elf_linking.specs.Message.{link_message, link_number};
ghost use Rattle.elf_linking.specs.declared.error.LinkError.TheVariants.{Elf};

use elf_base::ElfError;
use std::error::Error;
use std::fmt;

/// Why a part of a file that a dynamic linker reads can't be read. Each error has one text.
#[derive(Clone, Copy, Debug, PartialEq, Eq)]
pub enum LinkError {
    /// An error of `xmas_elf`.
    Elf(ElfError),
    /// A GNU hash table has fewer than 16 bytes, or its Bloom words and buckets extend past the end
    /// of the data. Returned by `GnuHashTable::read`.
    ShortTable,
    /// The class is neither 1 nor 2. Returned by `GnuHashTable::read`, `Relr::new` and
    /// `DynamicView::references`; by `DynamicObject::read` if it is another than that of the symbols.
    UnknownClass,
    /// The number of Bloom words of a GNU hash table is not a power of two; 0 is not one. Returned
    /// by `GnuHashTable::read`.
    BloomCount,
    /// An index is not below the number of buckets, or of Bloom words. Returned by
    /// `GnuHashTable::get_bucket` and `get_bloom`.
    BucketIndex,
    /// The index of a symbol is before the first of a GNU hash table. Returned by
    /// `GnuHashTable::get_chain`, `lookup`, `lookup_counted_in`, `check` and `symbol_count`.
    ChainIndex,
    /// The chain word of a symbol extends past the end of the data. Returned by
    /// `GnuHashTable::get_chain`, `lookup`, `lookup_counted_in`, `check` and `symbol_count`.
    ChainData,
    /// The index of a symbol is not below the number of symbols, or does not fit in 32 bits.
    /// Returned by `GnuHashTable::lookup`, `lookup_counted_in`, `check` and `symbol_count`, by
    /// `Versions::number`, `version_of` and `check`, and by `DynamicObject::name`, `name_bytes`,
    /// `version`, `find` and `asked`.
    SymbolIndex,
    /// A symbol is not in the chain that its name selects. Returned by `GnuHashTable::check`.
    Missing,
    /// A file has no dynamic segment.
    NoDynamic,
    /// The dynamic segment has no entry with this tag.
    NoEntry,
    /// No loaded segment contains an address, or one of the bytes after it.
    Address,
    /// The rest of a list of notes does not contain a whole note.
    ShortNote,
    /// The data is not a whole number of words.
    NotMultiple,
    /// A record of versions extends past the end of its segment. Returned by the iterators over
    /// definitions and needs, `Definition::name` and `Versions::version_of`.
    ShortVersion,
    /// The needs so far have more parts than the bytes have room for. Returned by the iterator over
    /// needs and `Versions::version_of`.
    VersionCount,
    /// The relocations of a procedure linkage table are of a kind that is neither Rel nor Rela.
    /// Returned by `DynamicView::references`.
    RelocationKind,
    /// An index is not below the number of objects in a scope. Returned by `Scope::find`, `answer`
    /// and `bind`.
    ObjectIndex,
    /// There are more or fewer definitions, needs or parts of a need than the file tells. Returned by
    /// `Versions::check`.
    VersionChain,
}

impl LinkError {
    ghost use Rattle.elf_linking.specs.declared.error.LinkError.{LinkError};

    /// The number of the error, which never changes; for `Elf` that of the inner error, which is
    /// below 100. The exports for C return it as their status.
    pub fn number(&self) -> u32
        ensures { result ≡ link_number self.now }
    {
        self.row().0
    }

    /// The text of the error; for `Elf` that of the inner error.
    pub fn message(&self) -> &'static str
        ensures { result.now ≡ link_message self.now }
    {
        self.row().1
    }

    /// The error with this number. `None` if no error has it, and for the number of an `ElfError`,
    /// which is below 100.
    pub fn with_number(number: u32) -> Option<LinkError>
        ensures own { IfSome result (λ error. (100 < number) × (link_number error ≡ number)) }
        ensures only { (error : LinkError) → link_number error ≡ number → 100 < number
            → result ≡ Some error }
    {
        match number {
            101 => Some(LinkError::ShortTable),
            102 => Some(LinkError::UnknownClass),
            103 => Some(LinkError::BloomCount),
            104 => Some(LinkError::BucketIndex),
            105 => Some(LinkError::ChainIndex),
            106 => Some(LinkError::ChainData),
            107 => Some(LinkError::SymbolIndex),
            108 => Some(LinkError::Missing),
            109 => Some(LinkError::NoDynamic),
            110 => Some(LinkError::NoEntry),
            111 => Some(LinkError::Address),
            112 => Some(LinkError::ShortNote),
            113 => Some(LinkError::NotMultiple),
            114 => Some(LinkError::ShortVersion),
            115 => Some(LinkError::VersionCount),
            116 => Some(LinkError::RelocationKind),
            117 => Some(LinkError::ObjectIndex),
            118 => Some(LinkError::VersionChain),
            _ => None,
        }
    }

    // The number and the text.
    fn row(&self) -> (u32, &'static str)
        ensures number { result.0 ≡ link_number self.now }
        ensures text { result.1.now ≡ link_message self.now }
    {
        match self {
            LinkError::Elf(error) => (*error as u32, error.message()),
            LinkError::ShortTable => (101, "GNU hash table is too short"),
            LinkError::UnknownClass => (102, "Class is neither 1 nor 2"),
            LinkError::BloomCount => (103, "Number of Bloom words is not a power of two"),
            LinkError::BucketIndex => (104, "Bucket index is out of range"),
            LinkError::ChainIndex => (105, "Symbol index is before the first of the table"),
            LinkError::ChainData => (106, "Chain is not in the data"),
            LinkError::SymbolIndex => (107, "Symbol index is out of range"),
            LinkError::Missing => (108, "Symbol is missing from the GNU hash table"),
            LinkError::NoDynamic => (109, "No dynamic segment"),
            LinkError::NoEntry => (110, "Dynamic segment has no such entry"),
            LinkError::Address => (111, "Address is in no loaded segment"),
            LinkError::ShortNote => (112, "Note is cut off"),
            LinkError::NotMultiple => (113, "Data is not a whole number of words"),
            LinkError::ShortVersion => (114, "Version record is cut off"),
            LinkError::VersionCount => (115, "Version needs have more parts than bytes"),
            LinkError::RelocationKind => (116, "Kind of relocations is neither Rel nor Rela"),
            LinkError::ObjectIndex => (117, "Object index is out of range"),
            LinkError::VersionChain => (118, "Version records are more or fewer than told"),
        }
    }
}

impl fmt::Display for LinkError {
    ghost output = { λ error. Some (link_message error) };

    ghost styled_output = { λ error spec. Some (link_message error) };

    fn fmt<W: fmt::Write>(&self, f: &mut fmt::Formatter<W>) -> fmt::Result {
        f.write_str(self.message())
    }
}

impl Error for LinkError {}

impl From<ElfError> for LinkError {
    ghost from_gives = { λ error linked. linked ≡ Elf error };

    fn from(error: ElfError) -> Self {
        LinkError::Elf(error)
    }
}
