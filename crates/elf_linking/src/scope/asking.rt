//! What a reference asks for (LSB, "Symbol Versioning"; gABI, "Symbol Table"; the rules of glibc's
//! linker).

ghost use Rattle.std.specs.Prelude.{◌≡◌, option_map};
ghost use Rattle.elf_linking.specs.Scope.{asked_of, asked_parts, binds_to_itself, if_protected};
ghost use Rattle.elf_linking.specs.Scope.{wanted_by, wanted_of, wanted_parts};
ghost use Rattle.elf_linking.specs.VersionTables.{result_map};
ghost use Rattle.elf_linking.specs.Versions.{named_entry, version_entry};

use crate::find::{Use, Wanted};
use crate::references::{Reference, use_of};
use crate::versions::{NamedVersion, SymbolVersion};
use crate::view::LinkedSymbol;
use crate::{DynamicObject, LinkError};
use xmas_elf::symbol_table::Entry;

/// What a reference asks for.
#[derive(Clone, Copy, Debug)]
pub enum Asked<'a, E> {
    /// The symbol that it names, without a look-up: the symbol is local, hidden or internal.
    Own(E),
    /// The symbol that a look-up finds. `Scope::answer` says when a reference to a protected symbol
    /// gets that symbol instead.
    Look {
        /// The bytes of the name to look up, whether or not they are UTF-8.
        name: &'a [u8],
        /// The version that is wanted.
        wanted: Wanted<'a>,
        /// Who asks.
        use_: Use,
        /// The symbol that the reference names, if it is protected.
        own: Option<E>,
    },
}

impl<'a, E: LinkedSymbol> DynamicObject<'a, E> {
    /// What a reference of this file asks for. If its symbol is local, hidden or internal, that is
    /// the symbol itself, defined or not. Otherwise it is a look-up of the symbol's name, for the
    /// use that the type of the relocation has by the machine of the file, and for the symbol's own
    /// version if its definition or need has a hash number other than 0. Such a version is hidden if
    /// it is a need with bit 15 of its number set.
    ///
    /// Errors: `SymbolIndex` if there is no such symbol; for a look-up those of `name_bytes`, those of
    /// `version`, and those of `NamedVersion::name`. A call goes through the definitions and the
    /// needs once at most.
    pub fn asked(&self, reference: &Reference) -> Result<Asked<'a, E>, LinkError>
        ensures { result_map asked_parts result ≡ asked_of E.fields self.now reference.now }
    {
        let Some(symbol) = self.symbol(reference.symbol) else {
            return Err(LinkError::SymbolIndex);
        };
        if binds_to_itself(&symbol) {
            return Ok(Asked::Own(symbol));
        }
        let name = self.name_bytes(reference.symbol)?;
        let wanted = wanted_of(self.version(reference.symbol)?)?;
        Ok(Asked::Look {
            name,
            wanted,
            use_: use_of(self.machine(), reference.kind),
            own: if_protected(symbol),
        })
    }
}

// Whether a reference to a symbol gets the symbol itself.
fn binds_to_itself<E: Entry>(symbol: &E) -> bool
    ensures { result ≡ binds_to_itself (E.fields symbol.now) }
{
    symbol.info() / 16 == 0 || matches!(symbol.other().raw() % 4, 1 | 2)
}

// The symbol of a reference, if it is protected.
fn if_protected<E: LinkedSymbol>(symbol: E) -> Option<E>
    ensures { result ≡ if_protected E.fields symbol }
{
    if symbol.other().raw() % 4 == 3 {
        Some(symbol)
    } else {
        None
    }
}

// The version that a reference wants, by the version of its symbol.
fn wanted_of<'a>(version: Option<SymbolVersion<'a>>) -> Result<Wanted<'a>, LinkError>
    ensures { result_map wanted_parts result ≡ wanted_of (option_map version_entry version.entry) }
{
    match version {
        Some(version) => wanted_by(version.named),
        None => Ok(Wanted::Unversioned),
    }
}

// The version that a reference wants, by the definition or need of its symbol's version.
fn wanted_by<'a>(named: Option<NamedVersion<'a>>) -> Result<Wanted<'a>, LinkError>
    ensures { result_map wanted_parts result ≡ wanted_by (option_map named_entry named.entry) }
{
    let Some(named) = named else {
        return Ok(Wanted::Unversioned);
    };
    let hash = named.hash();
    if hash == 0 {
        return Ok(Wanted::Unversioned);
    }
    let hidden = named.hidden();
    let name = named.name()?;
    Ok(Wanted::Version { name, hash, hidden })
}
