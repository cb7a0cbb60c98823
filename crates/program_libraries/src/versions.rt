//! The versions that objects need and that the libraries they get lack.

use crate::error::{FindError, error_in, need_record};
use crate::holders::{Holder, given_holders, tree_holders};
use crate::needed_versions::{provided_by, versions_by};
use crate::objects::view_of;
use crate::records::{OtherRecord, is_passed, other_definition, other_need};
use crate::store::StoredFile;
use crate::trees::Tree;
use elf_linking::LinkError;
use elf_linking::versions::{Need, Versions};
use elf_search::SearchError;
use elf_search::versions::{Lack, MissingVersion, Provided, Provider, missing_versions};
use linking_programs::Input;
use std::alloc::{AllocError, Global};

/// A version that a library lacks.
#[derive(Clone, Copy, Debug, Drop)]
pub struct LackedVersion<'t> {
    /// The path of the library.
    pub library: &'t str,
    /// The version.
    pub version: &'t str,
    /// The path of the object that needs it.
    pub by: &'t str,
    /// Why it is missing.
    pub lack: Lack,
    /// The version number of the record at which `ld.so` ends its search for the version, since it is not 1.
    pub record: Option<u16>,
}

/// The versions that are missing, in the order of the objects that need them: first those for which `ld.so`
/// comes to a record that it doesn't support.
///
/// Errors: for the first object with one `NeedRecord` if its first need has another version number than 1,
/// and `InFile` if a version can't be read or is of a file which nothing asked for; `Memory`.
pub fn lacked_versions<'t>(
    alloc: Global,
    files: &'t [StoredFile],
    tree: &'t Tree,
) -> Result<Vec<LackedVersion<'t>>, FindError> {
    let holders = tree_holders(alloc, files, tree)?;
    lacked_among(alloc, &holders, false)
}

/// The versions that files given by hand, in the order in which they are loaded, need of each other and lack, in the
/// same order. Those of files that aren't among them are passed over, and so are those that can't be read.
///
/// Errors: `NeedRecord`, as those of `lacked_versions`; `Memory`.
pub(crate) fn lacked_given<'t>(
    alloc: Global,
    inputs: &'t [Input<'_>],
) -> Result<Vec<LackedVersion<'t>>, FindError> {
    let holders = given_holders(alloc, inputs)?;
    lacked_among(alloc, &holders, true)
}

// The objects among which versions are looked for: what each provides, and its first record that `ld.so` doesn't
// support; and whether they are given by hand.
#[derive(Clone, Copy)]
struct Scope<'s, 't> {
    holders: &'s [Holder<'t>],
    providers: &'s [Provider<'s, 't>],
    others: &'s [Option<OtherRecord>],
    is_given: bool,
}

// The versions that these objects need and lack.
fn lacked_among<'t>(
    alloc: Global,
    holders: &[Holder<'t>],
    is_given: bool,
) -> Result<Vec<LackedVersion<'t>>, FindError> {
    let providers = all_providers(alloc, holders, is_given)?;
    let others = all_others(alloc, holders)?;
    let scope = Scope {
        holders,
        providers: &providers,
        others: &others,
        is_given,
    };
    let mut lacked = Vec::new(alloc);
    for holder in holders {
        if let Some(bytes) = holder.bytes {
            push_all_lacked(alloc, scope, holder.path, bytes, &mut lacked)?;
        }
    }
    Ok(lacked)
}

// The versions of the file of an object.
fn versions_in(bytes: &[u8]) -> Result<Option<Versions<'_>>, LinkError> {
    match view_of(bytes)? {
        Some(view) => Ok(Some(versions_by(bytes, &view)?)),
        None => Ok(None),
    }
}

// What each object provides.
fn all_providers<'s, 't>(
    alloc: Global,
    holders: &'s [Holder<'t>],
    is_given: bool,
) -> Result<Vec<Provider<'s, 't>>, FindError> {
    let mut providers = Vec::new(alloc);
    for holder in holders {
        providers.push(Provider {
            names: &holder.names,
            provided: provided_of(alloc, holder, is_given)?,
        })?;
    }
    Ok(providers)
}

// For each the first record of its definitions that `ld.so` doesn't support.
fn all_others(
    alloc: Global,
    holders: &[Holder<'_>],
) -> Result<Vec<Option<OtherRecord>>, AllocError> {
    let mut others = Vec::new(alloc);
    for holder in holders {
        others.push(match holder.bytes {
            Some(bytes) => other_definition(bytes),
            None => None,
        })?;
    }
    Ok(others)
}

// What an object provides; one that can't be read counts as missing if it is given by hand.
fn provided_of<'t>(
    alloc: Global,
    holder: &Holder<'t>,
    is_given: bool,
) -> Result<Provided<'t>, FindError> {
    let Some(bytes) = holder.bytes else {
        return Ok(Provided::NotFound);
    };
    match provided_by(bytes) {
        Ok(provided) => Ok(provided),
        Err(_) if is_given => Ok(Provided::NotFound),
        Err(error) => Err(error_in(alloc, holder.path, SearchError::Link(error))),
    }
}

// The versions that the object at a path, with these bytes, needs and that are missing.
fn push_all_lacked<'t>(
    alloc: Global,
    scope: Scope<'_, 't>,
    path: &'t str,
    bytes: &'t [u8],
    lacked: &mut Vec<LackedVersion<'t>>,
) -> Result<(), FindError> {
    let versions = match versions_in(bytes) {
        Ok(Some(versions)) => versions,
        Ok(None) => return Ok(()),
        Err(_) if scope.is_given => return Ok(()),
        Err(error) => return Err(error_in(alloc, path, SearchError::Link(error))),
    };
    if let Some(number) = other_need(bytes) {
        return Err(need_record(alloc, path, number));
    }
    push_all_stopped(scope, path, &versions, lacked)?;
    for item in missing_versions(versions.needs(), scope.providers) {
        match item {
            Ok(missing) if has_other(scope.others, missing.provider) => {}
            Ok(missing) => lacked.push(lacked_version(scope, path, &missing))?,
            Err(_) if scope.is_given => {}
            Err(error) => return Err(error_in(alloc, path, error)),
        }
    }
    Ok(())
}

// Whether a provider has a record that `ld.so` doesn't support.
fn has_other(others: &[Option<OtherRecord>], provider: usize) -> bool {
    matches!(others.get(provider), Some(Some(_)))
}

// The versions that an object needs for which `ld.so` comes to a record that it doesn't support.
fn push_all_stopped<'t>(
    scope: Scope<'_, 't>,
    path: &'t str,
    versions: &Versions<'t>,
    lacked: &mut Vec<LackedVersion<'t>>,
) -> Result<(), AllocError> {
    if scope.others.iter().all(|other| other.is_none()) {
        return Ok(());
    }
    for item in versions.needs() {
        let Ok(need) = item else {
            return Ok(());
        };
        if let Some((provider, number)) = stop_of(scope, &need) {
            lacked.push(LackedVersion {
                library: library_path(scope, provider),
                version: need.name().unwrap_or(""),
                by: path,
                lack: Lack::Strong,
                record: Some(number),
            })?;
        }
    }
    Ok(())
}

// The place of the provider of a need, and the version number of the record at which the search for the
// version ends, if there is one.
fn stop_of(scope: Scope<'_, '_>, need: &Need<'_>) -> Option<(usize, u16)> {
    let Ok(file) = need.file() else {
        return None;
    };
    let place = scope
        .holders
        .iter()
        .position(|holder| holder.has_name(file.as_bytes()))?;
    let (Some(provider), Some(Some(record))) = (scope.providers.get(place), scope.others.get(place))
    else {
        return None;
    };
    match provider.provided {
        Provided::Versions(versions) if is_passed(*record, &versions, need) => {
            Some((place, record.number))
        }
        _ => None,
    }
}

// The paths and the name of a missing version.
fn lacked_version<'t>(
    scope: Scope<'_, 't>,
    path: &'t str,
    missing: &MissingVersion<'t>,
) -> LackedVersion<'t> {
    LackedVersion {
        library: library_path(scope, missing.provider),
        version: missing.need.name().unwrap_or(""),
        by: path,
        lack: missing.lack,
        record: None,
    }
}

// The path of a provider.
fn library_path<'t>(scope: Scope<'_, 't>, provider: usize) -> &'t str {
    match scope.holders.get(provider) {
        Some(holder) => holder.path,
        None => "",
    }
}
