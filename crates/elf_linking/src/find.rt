//! Which symbols a reference accepts: who asks, and for which version (LSB, "Symbol Versioning";
//! the rules of glibc's linker).

ghost use Rattle.std.specs.Prelude.{◌≡◌, ◌↔◌, IfOk, IsTrue, option_map};
ghost use Rattle.elf_linking.specs.Find.{IsAccepted, accepted, accepts_version, is_below, is_default};
ghost use Rattle.elf_linking.specs.Find.{is_open, is_version, serves};
ghost use Rattle.elf_linking.specs.VersionTables.{result_map};
ghost use Rattle.elf_linking.specs.Versions.{named_entry, number_of, version_entry, version_list};

pub(crate) mod kept;
mod search;

use crate::LinkError;
use crate::versions::{NamedVersion, SymbolVersion, Versions};
use xmas_elf::hash::hash;
use xmas_elf::sections::SHN_ABS;
use xmas_elf::symbol_table::Entry;

/// Who asks for a symbol.
#[derive(Clone, Copy, Debug, PartialEq, Eq)]
pub enum Use {
    /// Any use of a symbol.
    Any,
    /// A use that wants a defined symbol: a jump slot, or thread-local storage.
    Defined,
    /// A copy relocation.
    Copy,
}

/// The version that a reference asks for.
#[derive(Clone, Copy, Debug)]
pub enum Wanted<'v> {
    /// The version with this name.
    Version {
        /// The name.
        name: &'v str,
        /// The hash number of the name, that of the ELF standard's hash tables.
        hash: u32,
        /// Whether a version without a hash number is not accepted in its place.
        hidden: bool,
    },
    /// No version, as in a reference of a file without versions: a version with a number below 3,
    /// otherwise the default.
    Unversioned,
    /// No version, as `dlsym` asks: a version with a number below 2, otherwise the default.
    Newest,
}

impl<'v> Wanted<'v> {
    ghost use Rattle.elf_linking.specs.Find.{exact_version, version_wanted};

    /// The version with this name, whose hash number is computed here; it is not hidden. A version
    /// without a hash number that isn't hidden is accepted in its place, as for a reference of a
    /// program.
    pub fn version(name: &'v str) -> Wanted<'v>
        ensures { result ≡ version_wanted name.entry }
    {
        Wanted::Version {
            name,
            hash: hash(name),
            hidden: false,
        }
    }

    /// The version with this name and no other, as `dlvsym` asks; its hash number is computed here.
    /// A symbol with another version, or with the number 0 or 1, is not accepted. In a file without
    /// numbers of symbols each symbol is.
    pub fn exact(name: &'v str) -> Wanted<'v>
        ensures { result ≡ exact_version name.entry }
    {
        Wanted::Version {
            name,
            hash: hash(name),
            hidden: true,
        }
    }

    /// Whether a reference accepts the symbol at `index` at once. A version is accepted if it has
    /// the hash number and the name; so is one without a hash number if neither it nor the
    /// reference is hidden. `Unversioned` accepts a number below 3, `Newest` one below 2. In a file
    /// without numbers of symbols each is accepted.
    ///
    /// Errors: those of `Versions::version_of` and, if the hash number is the same, of
    /// `NamedVersion::name`; for `Unversioned` and `Newest` those of `Versions::number`.
    pub fn accepts(&self, versions: &Versions<'_>, index: u32) -> Result<bool, LinkError>
        ensures law { IfOk result (λ accepts.
            IsTrue accepts ↔ IsAccepted (version_list versions.now) self.now index) }
        ensures exact { result ≡ accepted (version_list versions.now) self.now index }
    {
        is_accepted(self, versions, index)
    }
}

// Whether a reference accepts the symbol at an index at once.
fn is_accepted(wanted: &Wanted<'_>, versions: &Versions<'_>, index: u32) -> Result<bool, LinkError>
    ensures { result ≡ accepted (version_list versions.now) wanted.now index }
{
    match wanted {
        Wanted::Version { name, hash, hidden } => {
            accepts_version(name, *hash, *hidden, versions.version_of(index)?)
        }
        Wanted::Unversioned => number_below(versions, index, 3),
        Wanted::Newest => number_below(versions, index, 2),
    }
}

// Whether a symbol serves a use: by its type, its value and its section.
#[inline(always)]
pub(crate) fn serves<E: Entry>(symbol: &E, use_: Use) -> bool
    ensures { result ≡ serves use_ (E.fields symbol.now) }
{
    let kind = symbol.info() % 16;
    if !matches!(kind, 0 | 1 | 2 | 5 | 6 | 10) {
        return false;
    }
    if symbol.value() == 0 && symbol.shndx() != SHN_ABS && kind != 6 {
        return false;
    }
    use_ != Use::Defined || symbol.shndx() != 0
}

// Whether a reference by a version accepts that of a symbol.
fn accepts_version(
    name: &str,
    hash: u32,
    hidden: bool,
    version: Option<SymbolVersion<'_>>,
) -> Result<bool, LinkError>
    ensures { result ≡ accepts_version name.now hash hidden (option_map version_entry version.entry) }
{
    let Some(version) = version else {
        return Ok(true);
    };
    Ok(is_version(name, hash, version.named)? || is_open(hidden, &version))
}

// Whether the definition or need of a version has the hash number and the name.
fn is_version(name: &str, hash: u32, named: Option<NamedVersion<'_>>) -> Result<bool, LinkError>
    ensures { result ≡ is_version name.now hash (option_map named_entry named.entry) }
{
    let Some(named) = named else {
        return Ok(false);
    };
    if named.hash() != hash {
        return Ok(false);
    }
    named.has_name(name)
}

// Whether a version without a hash number is accepted in place of another.
fn is_open(hidden: bool, version: &SymbolVersion<'_>) -> bool
    ensures { result ≡ is_open hidden (version_entry version.now) }
{
    let no_hash = match version.named {
        Some(named) => named.hash() == 0,
        None => true,
    };
    no_hash && !hidden && !version.hidden
}

// Whether the number of a symbol's version is below the least that needs a name.
#[inline(always)]
fn number_below(versions: &Versions<'_>, index: u32, least: u16) -> Result<bool, LinkError>
    ensures { result ≡ result_map (is_below least) (number_of (version_list versions.now).numbers index) }
{
    match versions.number(index) {
        Ok(Some(raw)) => Ok(raw % 0x8000 < least),
        Ok(None) => Ok(true),
        Err(error) => Err(error),
    }
}

// Whether the symbol at an index has a version that isn't hidden.
pub(crate) fn is_default(versions: &Versions<'_>, index: u32) -> bool
    ensures { result ≡ is_default (number_of (version_list versions.now).numbers index) }
{
    matches!(versions.number(index), Ok(Some(raw)) if raw < 0x8000)
}
