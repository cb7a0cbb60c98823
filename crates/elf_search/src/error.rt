//! Why a file can't be a library of a program, or a name or a cache can't be read.

ghost use Rattle.std.specs.Prelude.{◌≡◌, ◌<◌, IfSome, Some};
ghost use Rattle.elf_search.specs.Message.{search_message, search_number};

use elf_linking::LinkError;
use std::error::Error;
use std::fmt;

/// Why a file can't be a library of a program, or a name or a cache can't be read. Each error has
/// one text: for a file and a name the one that `ld.so` of glibc prints.
#[derive(Clone, Copy, Debug, PartialEq, Eq)]
pub enum SearchError {
    /// The file is a directory, or its program headers extend past its end. Returned by `fits`.
    FileData,
    /// The file has fewer bytes than a file header: 64, in class 32 52. Returned by `fits`.
    ShortFile,
    /// The file does not begin with the four bytes of an ELF file. Returned by `fits`.
    Magic,
    /// The byte order of the file is not little-endian. Returned by `fits`.
    ByteOrder,
    /// The version in the first 16 bytes is not 1. Returned by `fits`.
    IdentVersion,
    /// The ABI of the operating system is neither 0 nor 3 (GNU). Returned by `fits`.
    OsAbi,
    /// The version of that ABI is neither 0 nor, of ABI 3, below 4. Returned by `fits`.
    AbiVersion,
    /// One of the bytes 9 to 15 is not 0. Returned by `fits`.
    Padding,
    /// The version of the file is not 1. Returned by `fits`.
    Version,
    /// The type of the file is neither 2 (ET_EXEC) nor 3 (ET_DYN). Returned by `fits`.
    Type,
    /// The program headers are not of 56 bytes, in class 32 32. Returned by `fits`.
    EntrySize,
    /// No segment is loaded. Returned by `check_library`.
    NoLoad,
    /// The file is an executable of a fixed address (ET_EXEC). Returned by `check_library`.
    Executable,
    /// The file has no dynamic segment. Returned by `check_library`.
    NoDynamic,
    /// The file is an executable of any address (DF_1_PIE). Returned by `check_shared`.
    SharedExecutable,
    /// The value of a dynamic string token in a name is not known.
    EmptyToken,
    /// The file is no cache. Returned by `Cache::read`.
    NotACache,
    /// The entries extend past the end of the cache. Returned by `Cache::read`.
    CacheCount,
    /// The cache is of another byte order. Returned by `Cache::read`.
    CacheOrder,
    /// The words of the caller for a list of objects, or for their order, are too few. Returned by
    /// `Order::new`, `add` and `add_before`, and by `start_order`.
    FewWords,
    /// No object has the number, or no entry is asked for. Returned by `Order::found`, `found_before`,
    /// `add` and `add_before`.
    NoObject,
    /// A key or a value is past the end of the cache. Returned by `Cache::check`.
    CacheEntry,
    /// A number in a key of the cache is 2 to the 31 or more. Returned by `Cache::check`.
    CacheNumber,
    /// The entries of the cache are not in order. Returned by `Cache::check`.
    CacheEntryOrder,
    /// The extension of the cache can't be read. Returned by `Cache::check`.
    CacheExtension,
    /// A name of hwcaps is past the end of the cache. Returned by `Cache::check`.
    HwcapsName,
    /// The names of hwcaps are not in order. Returned by `Cache::check`.
    HwcapsOrder,
    /// The file of a need of versions is no object, and no missing one. Returned by the items of
    /// `missing_versions`.
    NoProvider,
    /// A part of the file can't be read.
    Link(LinkError),
}

impl SearchError {
    ghost use Rattle.elf_search.specs.declared.error.SearchError.{SearchError};

    /// The number of the error, which never changes; for `Link` that of the inner error, which is
    /// below 300.
    pub fn number(&self) -> u32
        ensures { result ≡ search_number self.now }
    {
        self.row().0
    }

    /// The text of the error; for `Link` that of the inner error.
    pub fn message(&self) -> &'static str
        ensures { result.now ≡ search_message self.now }
    {
        self.row().1
    }

    /// The error with this number. `None` if no error has it, and for the number of a `LinkError`,
    /// which is below 300.
    pub fn with_number(number: u32) -> Option<SearchError>
        ensures own { IfSome result (λ error. (500 < number) × (search_number error ≡ number)) }
        ensures only { (error : SearchError) → search_number error ≡ number → 500 < number
            → result ≡ Some error }
    {
        match number {
            501 => Some(SearchError::FileData),
            502 => Some(SearchError::ShortFile),
            503 => Some(SearchError::Magic),
            504 => Some(SearchError::ByteOrder),
            505 => Some(SearchError::IdentVersion),
            506 => Some(SearchError::OsAbi),
            507 => Some(SearchError::AbiVersion),
            508 => Some(SearchError::Padding),
            509 => Some(SearchError::Version),
            510 => Some(SearchError::Type),
            511 => Some(SearchError::EntrySize),
            512 => Some(SearchError::NoLoad),
            513 => Some(SearchError::Executable),
            514 => Some(SearchError::NoDynamic),
            515 => Some(SearchError::SharedExecutable),
            516 => Some(SearchError::EmptyToken),
            517 => Some(SearchError::NotACache),
            518 => Some(SearchError::CacheCount),
            519 => Some(SearchError::CacheOrder),
            520 => Some(SearchError::FewWords),
            521 => Some(SearchError::NoObject),
            522 => Some(SearchError::CacheEntry),
            523 => Some(SearchError::CacheNumber),
            524 => Some(SearchError::CacheEntryOrder),
            525 => Some(SearchError::CacheExtension),
            526 => Some(SearchError::HwcapsName),
            527 => Some(SearchError::HwcapsOrder),
            530 => Some(SearchError::NoProvider),
            _ => None,
        }
    }

    // The number and the text.
    fn row(&self) -> (u32, &'static str)
        ensures number { result.0 ≡ search_number self.now }
        ensures text { result.1.now ≡ search_message self.now }
    {
        match self {
            SearchError::FileData => (501, "cannot read file data"),
            SearchError::ShortFile => (502, "file too short"),
            SearchError::Magic => (503, "invalid ELF header"),
            SearchError::ByteOrder => (504, "ELF file data encoding not little-endian"),
            SearchError::IdentVersion => (505, "ELF file version ident does not match current one"),
            SearchError::OsAbi => (506, "ELF file OS ABI invalid"),
            SearchError::AbiVersion => (507, "ELF file ABI version invalid"),
            SearchError::Padding => (508, "nonzero padding in e_ident"),
            SearchError::Version => (509, "ELF file version does not match current one"),
            SearchError::Type => (510, "only ET_DYN and ET_EXEC can be loaded"),
            SearchError::EntrySize => (511, "ELF file's phentsize not the expected size"),
            SearchError::NoLoad => (512, "object file has no loadable segments"),
            SearchError::Executable => (513, "cannot dynamically load executable"),
            SearchError::NoDynamic => (514, "object file has no dynamic section"),
            SearchError::SharedExecutable => (
                515,
                "cannot dynamically load position-independent executable",
            ),
            SearchError::EmptyToken => (516, "empty dynamic string token substitution"),
            SearchError::NotACache => (517, "not a cache of libraries"),
            SearchError::CacheCount => (518, "entries extend past the end of the cache"),
            SearchError::CacheOrder => (519, "cache is of another byte order"),
            SearchError::FewWords => (520, "too few words for the objects"),
            SearchError::NoObject => (521, "no such object or entry"),
            SearchError::CacheEntry => (522, "key or value past the end of the cache"),
            SearchError::CacheNumber => (523, "number in a key of the cache is too large"),
            SearchError::CacheEntryOrder => (524, "entries of the cache are not in order"),
            SearchError::CacheExtension => (525, "extension of the cache is damaged"),
            SearchError::HwcapsName => (526, "name of hwcaps past the end of the cache"),
            SearchError::HwcapsOrder => (527, "names of hwcaps are not in order"),
            SearchError::NoProvider => (530, "file of a need of versions is no object"),
            SearchError::Link(error) => (error.number(), error.message()),
        }
    }
}

impl fmt::Display for SearchError {
    ghost output = { λ error. Some (search_message error) };

    ghost styled_output = { λ error spec. Some (search_message error) };

    fn fmt<W: fmt::Write>(&self, f: &mut fmt::Formatter<W>) -> fmt::Result {
        f.write_str(self.message())
    }
}

impl Error for SearchError {}
