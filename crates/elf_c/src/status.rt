//! The statuses of the exports: 0, or the number of an error.

ghost use Rattle.std.specs.Prelude.{◌≡◌, ℕ};
ghost use Rattle.elf_base.specs.Message.{error_number};
ghost use Rattle.elf_addresses.specs.Message.{index_number};
ghost use Rattle.elf_linking.specs.Message.{link_number};
ghost use Rattle.elf_loading.specs.Message.{load_number};
ghost use Rattle.elf_search.specs.Message.{search_number};
ghost use Rattle.elf_c.specs.Status.{GivesBy, failure_number};
ghost use Rattle.elf_c.specs.declared.status.AnyError.TheVariants.{Elf, Index, Link, Load, Search};

use elf_addresses::IndexError;
use elf_base::ElfError;
use elf_linking::LinkError;
use elf_loading::LoadError;
use elf_search::SearchError;

/// The status of a successful call.
pub const OK: u32 = 0;

/// The error of an export.
#[derive(Clone, Copy, Debug)]
pub enum AnyError {
    /// An error of `xmas_elf`.
    Elf(ElfError),
    /// An error of `elf_linking`.
    Link(LinkError),
    /// An error of `elf_loading`.
    Load(LoadError),
    /// An error of `elf_addresses`.
    Index(IndexError),
    /// An error of `elf_search`.
    Search(SearchError),
    /// A section contains other data than requested.
    OtherData,
    /// A table has no record at this index.
    NoRecord,
    /// Nothing has this name.
    NotFound,
    /// There are more objects than a call takes.
    ManyObjects,
    /// A file that was found by a build id has none.
    NoBuildId,
    /// A file that was found by a build id has another.
    OtherBuildId,
    /// The CRC of a file is another than that in the link to it.
    OtherChecksum,
}

impl From<ElfError> for AnyError {
    ghost from_gives = { λ error failure. failure ≡ Elf error };

    fn from(error: ElfError) -> Self {
        AnyError::Elf(error)
    }
}

impl From<LinkError> for AnyError {
    ghost from_gives = { λ error failure. failure ≡ Link error };

    fn from(error: LinkError) -> Self {
        AnyError::Link(error)
    }
}

impl From<LoadError> for AnyError {
    ghost from_gives = { λ error failure. failure ≡ Load error };

    fn from(error: LoadError) -> Self {
        AnyError::Load(error)
    }
}

impl From<IndexError> for AnyError {
    ghost from_gives = { λ error failure. failure ≡ Index error };

    fn from(error: IndexError) -> Self {
        AnyError::Index(error)
    }
}

impl From<SearchError> for AnyError {
    ghost from_gives = { λ error failure. failure ≡ Search error };

    fn from(error: SearchError) -> Self {
        AnyError::Search(error)
    }
}

/// An error with a number. Numbers never change: a new error gets a new number.
pub(crate) trait Numbered {
    ghost number_of: { Self → ℕ };

    fn number(self) -> u32
        ensures { result ≡ number_of self };
}

impl Numbered for ElfError {
    ghost number_of = { error_number };

    fn number(self) -> u32 {
        self as u32
    }
}

impl Numbered for LinkError {
    ghost number_of = { link_number };

    fn number(self) -> u32 {
        LinkError::number(&self)
    }
}

impl Numbered for LoadError {
    ghost number_of = { load_number };

    fn number(self) -> u32 {
        LoadError::number(&self)
    }
}

impl Numbered for IndexError {
    ghost number_of = { index_number };

    fn number(self) -> u32 {
        IndexError::number(&self)
    }
}

impl Numbered for SearchError {
    ghost number_of = { search_number };

    fn number(self) -> u32 {
        SearchError::number(&self)
    }
}

// The number of an error that was met before.
impl Numbered for u32 {
    ghost number_of = { λ number. number };

    fn number(self) -> u32 {
        self
    }
}

impl Numbered for AnyError {
    ghost number_of = { failure_number };

    fn number(self) -> u32 {
        match self {
            AnyError::Elf(error) => error.number(),
            AnyError::Link(error) => error.number(),
            AnyError::Load(error) => error.number(),
            AnyError::Index(error) => error.number(),
            AnyError::Search(error) => error.number(),
            AnyError::OtherData => 201,
            AnyError::NoRecord => 202,
            AnyError::NotFound => 203,
            AnyError::ManyObjects => 204,
            AnyError::NoBuildId => 211,
            AnyError::OtherBuildId => 212,
            AnyError::OtherChecksum => 213,
        }
    }
}

/// Stores a result: the value in `out` and status 0, or the number of the error, with `out`
/// unchanged.
#[inline(always)]
pub(crate) fn give<T: Copy, E: Numbered>(answer: Result<T, E>, out: &mut T) -> u32
    ensures { GivesBy E.number_of answer out.old result out.new }
{
    match answer {
        Ok(value) => {
            *out = value;
            OK
        }
        Err(error) => error.number(),
    }
}
