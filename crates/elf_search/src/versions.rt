//! Versions that an object needs of libraries that lack them (LSB, "Symbol Versioning").

ghost use Rattle.std.specs.Prelude.{◌≡◌, map, option_map};
ghost use Rattle.elf_linking.specs.VersionTables.{definitions_in, need_parts, needs_left};
ghost use Rattle.elf_linking.specs.Versions.{version_tables};
ghost use Rattle.elf_search.specs.MissingVersions.{defines, has_name, is_weak, item_parts, lack_in};
ghost use Rattle.elf_search.specs.MissingVersions.{missing_in, missing_item, missing_left, missing_of};
ghost use Rattle.elf_search.specs.MissingVersions.{place_parts, provided_parts, provider_parts};
ghost use Rattle.elf_search.specs.MissingVersions.{provider_with};

use crate::SearchError;
use elf_linking::LinkError;
use elf_linking::versions::{Need, Needs, Versions};

/// What was found for the names of an object.
#[derive(Clone, Copy, Debug)]
pub enum Provided<'a> {
    /// The object is missing.
    NotFound,
    /// It has no versions (no DT_VERDEF).
    NoVersions,
    /// Its versions.
    Versions(Versions<'a>),
}

/// An object, found or missing, by the names that needs of versions give it.
#[derive(Clone, Copy, Debug)]
pub struct Provider<'s, 'a> {
    /// Its path and the names by which it was asked for.
    pub names: &'s [&'s [u8]],
    /// Its versions.
    pub provided: Provided<'a>,
}

/// Why a version is missing.
#[derive(Clone, Copy, Debug, PartialEq, Eq)]
pub enum Lack {
    /// The object has no versions at all. The program starts all the same.
    NoInformation,
    /// The object lacks a version that is needed weakly. The program starts all the same.
    Weak,
    /// The object lacks the version, and the program does not start.
    Strong,
}

/// A version that an object lacks.
#[derive(Clone, Copy, Debug)]
pub struct MissingVersion<'a> {
    /// The place of the object that lacks it among the providers.
    pub provider: usize,
    /// The version that is needed.
    pub need: Need<'a>,
    /// Why it is missing.
    pub lack: Lack,
}

// Whether a provider has a name.
#[tactic(auto, using(crate::proofs::VersionSteps::name_hit, crate::proofs::VersionSteps::name_other, crate::proofs::VersionSteps::name_end))]
fn has_name(provider: &Provider<'_, '_>, name: &[u8]) -> bool
    ensures { result ≡ has_name name.now (provider_parts provider.now) }
{
    for place in 0..provider.names.len() {
        if provider.names[place] == name {
            return true;
        }
    }
    false
}

// The place of the first provider with a name, and what was found for it.
#[tactic(auto, using(crate::proofs::VersionSteps::with_end, crate::proofs::VersionSteps::with_hit, crate::proofs::VersionSteps::with_other))]
fn provider_with<'a>(providers: &[Provider<'_, 'a>], name: &[u8]) -> Option<(usize, Provided<'a>)>
    ensures { option_map place_parts result
        ≡ provider_with name.now 0 (map provider_parts providers.now) }
{
    for place in 0..providers.len() {
        let provider = &providers[place];
        if has_name(provider, name) {
            return Some((place, provider.provided));
        }
    }
    None
}

// Whether some versions have a definition with this hash number and name.
#[tactic(auto, using(crate::proofs::VersionSteps::defines_end, crate::proofs::VersionSteps::defines_fault, crate::proofs::VersionSteps::defines_hit, crate::proofs::VersionSteps::defines_bad, crate::proofs::VersionSteps::defines_other_hash, crate::proofs::VersionSteps::defines_other_name))]
fn defines(versions: &Versions<'_>, hash: u32, name: &str) -> Result<bool, LinkError>
    ensures { result ≡ defines hash name.now
        (definitions_in (version_tables versions.now).definitions) }
{
    for item in versions.definitions() {
        let definition = item?;
        if definition.hash == hash {
            let other = definition.name()?;
            if other == name {
                return Ok(true);
            }
        }
    }
    Ok(false)
}

/// Why an object lacks the version of a need, `None` if it has it or is missing itself. The errors are those
/// of the definitions up to the one that is looked for, and of `Need::name`.
pub fn lack_in(provided: &Provided<'_>, need: &Need<'_>) -> Result<Option<Lack>, LinkError>
    ensures { result ≡ lack_in (provided_parts provided.now) (need_parts need.now) }
{
    match provided {
        Provided::NotFound => Ok(None),
        Provided::NoVersions => Ok(Some(Lack::NoInformation)),
        Provided::Versions(versions) => {
            let name = need.name()?;
            if defines(versions, need.hash, name)? {
                return Ok(None);
            }
            if is_weak(need.flags) {
                return Ok(Some(Lack::Weak));
            }
            Ok(Some(Lack::Strong))
        }
    }
}

// Whether the flags of a need say that the version is needed weakly (VER_FLG_WEAK).
fn is_weak(flags: u16) -> bool
    ensures { result ≡ is_weak flags }
{
    flags / 2 % 2 == 1
}

// The version of a need, if it is missing.
fn missing_of<'a>(
    providers: &[Provider<'_, 'a>],
    need: &Need<'a>,
) -> Result<Option<MissingVersion<'a>>, SearchError>
    ensures { item_parts result
        ≡ missing_of (map provider_parts providers.now) (need_parts need.now) }
{
    let file = match need.file() {
        Ok(file) => file,
        Err(error) => return Err(SearchError::Link(error)),
    };
    let Some((provider, provided)) = provider_with(providers, file.as_bytes()) else {
        return Err(SearchError::NoProvider);
    };
    match lack_in(&provided, need) {
        Ok(Some(lack)) => Ok(Some(MissingVersion {
            provider,
            need: *need,
            lack,
        })),
        Ok(None) => Ok(None),
        Err(error) => Err(SearchError::Link(error)),
    }
}

/// An iterator over the versions that an object needs and that are missing, in order.
///
/// The errors of an item are `Link` with those of an item of `needs`, of `Need::file` and
/// `Need::name`, and of the definitions of the object up to the one that is looked for; and
/// `NoProvider` if no provider has the name of the file. A search of definitions for a need takes
/// time in proportion to their number.
#[derive(Clone, Debug, Drop)]
pub struct MissingVersions<'s, 'a> {
    needs: Needs<'a>,
    providers: &'s [Provider<'s, 'a>],
}

/// The versions among these needs that are missing: those of which the first provider with the name
/// of the file was found and has no definition of equal hash number and name.
///
/// The providers are the objects in the order in which they are loaded, and then the names that
/// were asked for and are missing.
pub fn missing_versions<'s, 'a>(
    needs: Needs<'a>,
    providers: &'s [Provider<'s, 'a>],
) -> MissingVersions<'s, 'a>
    ensures { missing_left result
        ≡ missing_in (map provider_parts providers.now) (needs_left needs.entry) }
{
    MissingVersions { needs, providers }
}

impl<'s, 'a> Iterator for MissingVersions<'s, 'a> {
    ghost use Rattle.std.specs.Iterator.{YieldsFirstBy, item_count};

    type Item = Result<MissingVersion<'a>, SearchError>;

    ghost next_gives = { YieldsFirstBy missing_item missing_left };

    ghost remaining = { item_count missing_left };

    #[tactic(auto, using(crate::proofs::VersionSteps::missing_end, crate::proofs::VersionSteps::missing_fault, crate::proofs::VersionSteps::missing_none, crate::proofs::VersionSteps::missing_some, crate::proofs::VersionSteps::missing_error))]
    fn next(&mut self) -> Option<Result<MissingVersion<'a>, SearchError>> {
        loop {
            let item = self.needs.next()?;
            let need = match item {
                Ok(need) => need,
                Err(error) => return Some(Err(SearchError::Link(error))),
            };
            match missing_of(self.providers, &need) {
                Ok(Some(missing)) => return Some(Ok(missing)),
                Ok(None) => {}
                Err(error) => return Some(Err(error)),
            }
        }
    }
}
