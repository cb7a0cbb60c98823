//! Whether an opened file is a library for a search (gABI, "ELF Header"), as `ld.so` of glibc 2.36
//! decides on Debian.

ghost use Rattle.std.specs.Prelude.{◌≡◌};
ghost use Rattle.elf_search.specs.Fits.{search_error, search_fit};

use crate::SearchError;
pub use elf_library::fits::Fit;
use elf_library::{HeaderError, fits as header};

// The error of a search for the error of a header.
fn search_error(error: HeaderError) -> SearchError
    ensures { result ≡ search_error error }
{
    match error {
        HeaderError::ShortFile => SearchError::ShortFile,
        HeaderError::Magic => SearchError::Magic,
        HeaderError::ByteOrder => SearchError::ByteOrder,
        HeaderError::IdentVersion => SearchError::IdentVersion,
        HeaderError::OsAbi => SearchError::OsAbi,
        HeaderError::AbiVersion => SearchError::AbiVersion,
        HeaderError::Padding => SearchError::Padding,
        HeaderError::Version => SearchError::Version,
        HeaderError::Type => SearchError::Type,
        HeaderError::EntrySize => SearchError::EntrySize,
        HeaderError::FileData => SearchError::FileData,
    }
}

/// Whether the file with these first bytes is the library that is looked for by a program of this
/// class (1 for 32 bits, 2 for 64) and this machine (e_machine).
///
/// `head` are the first 64 bytes of the file or more, or all that it has, and `len` is the number
/// of its bytes. The tests come in a fixed order, and the first that fails decides: a file of
/// another class is passed over whatever follows the class, and one for another machine before the
/// errors `ByteOrder` to `Padding`.
///
/// Errors, the first of these: `ShortFile`, `Magic`, `ByteOrder`, `IdentVersion`, `OsAbi`,
/// `AbiVersion`, `Padding`, `Version`, `Type`, `EntrySize`, and `FileData` if the program headers
/// extend past the end of the file. Of a directory, which can be opened and not read, the caller
/// returns `FileData` itself.
pub fn fits(head: &[u8], len: u64, class: u8, machine: u16) -> Result<Fit, SearchError>
    ensures { result ≡ search_fit class machine len head.now }
{
    match header::fits(head, len, class, machine) {
        Ok(fit) => Ok(fit),
        Err(error) => Err(search_error(error)),
    }
}
