//! Whether the libraries that a program gets define the versions that it needs of them.

ghost use Rattle.std.specs.Prelude.{◌≡◌, IfOk, IsTrue, Some};
ghost use Rattle.elf_linking.specs.DynamicView.{view_entries, view_strings};
ghost use Rattle.elf_linking.specs.VersionTables.{need_parts, needs_left};
ghost use Rattle.elf_linking.specs.Versions.{version_tables};
ghost use Rattle.elf_search.specs.MissingVersions.{provided_parts};
ghost use Rattle.elf_search.specs.Names.{name_parts, names_in};
ghost use Rattle.program_libraries.specs.NeededNames.{IsViewOf};
ghost use Rattle.program_libraries.specs.NeededVersions.{AreAllMet, AreNeedsMet, AreTablesOf};
ghost use Rattle.program_libraries.specs.NeededVersions.{AreVersionsMet, IsFirstProvided, IsMet};
ghost use Rattle.program_libraries.specs.NeededVersions.{IsObjectMet, IsProvided, IsProvidedBy, Provides};
ghost use Rattle.program_libraries.specs.NeededVersions.{edges_from, is_text, starts_with};

use crate::complete::after_first;
use crate::objects::{Object, view_of};
use crate::store::StoredFile;
use elf_linking::LinkError;
use elf_linking::versions::{Need, Needs, Versions};
use elf_linking::view::{DT_VERDEF, DynamicView};
use elf_search::names::{NeededName, needed_names};
use elf_search::versions::{Lack, Provided, lack_in};
use xmas_elf::ElfFile;

/// The versions of the file in these bytes, by its dynamic segment.
pub(crate) fn versions_by<'a>(
    bytes: &'a [u8],
    view: &DynamicView<'a>,
) -> Result<Versions<'a>, LinkError>
    ensures { IfOk result (λ versions. AreTablesOf bytes.now view.now (version_tables versions)) }
{
    let file = match ElfFile::new(bytes) {
        Ok(file) => file,
        Err(error) => return Err(LinkError::Elf(error)),
    };
    Versions::read(view, &file, 0)
}

/// What the library in these bytes provides.
pub(crate) fn provided_by(bytes: &[u8]) -> Result<Provided<'_>, LinkError>
    ensures { IfOk result (λ provided. Provides bytes.now (provided_parts provided)) }
{
    let Some(view) = view_of(bytes)? else {
        return Ok(Provided::NoVersions);
    };
    if view.entry(DT_VERDEF).is_none() {
        return Ok(Provided::NoVersions);
    }
    Ok(Provided::Versions(versions_by(bytes, &view)?))
}

/// Whether each version that these objects need of the libraries that they got is defined there, but for those of
/// libraries without definitions, and those that are needed weakly.
#[tactic(auto, using(crate::proofs::Served::served_none, crate::proofs::Served::served_more, crate::proofs::Served::versions_met))]
pub(crate) fn are_versions_met(files: &[StoredFile], objects: &[Object]) -> bool
    ensures { IsTrue result → AreVersionsMet files.now objects.now }
{
    for index in 0..objects.len() {
        if !is_object_met(files, objects, &objects[index]) {
            return false;
        }
    }
    true
}

// Whether each that the file of an object needs is.
fn is_object_met(files: &[StoredFile], objects: &[Object], object: &Object) -> bool
    ensures { IsTrue result → IsObjectMet files.now objects.now object.now }
{
    match files.get(object.file) {
        Some(file) => are_needs_met(files, objects, &file.bytes, &object.edges),
        None => false,
    }
}

// Whether each that the file in these bytes needs is, by the edges of its names.
fn are_needs_met(files: &[StoredFile], objects: &[Object], bytes: &[u8], edges: &[u32]) -> bool
    ensures { IsTrue result → AreNeedsMet files.now objects.now bytes.now edges.now }
{
    match view_of(bytes) {
        Ok(Some(view)) => match versions_by(bytes, &view) {
            Ok(versions) => are_all_met(files, objects, &view, edges, versions.needs()),
            Err(_) => false,
        },
        Ok(None) => true,
        Err(_) => false,
    }
}

// Whether these needs are met.
fn are_all_met(
    files: &[StoredFile],
    objects: &[Object],
    view: &DynamicView<'_>,
    edges: &[u32],
    needs: Needs<'_>,
) -> bool
    ensures { IsTrue result
        → AreAllMet (IsMet files.now objects.now view.now edges.now) (needs_left needs.entry) }
{
    for item in needs {
        let Ok(need) = item else {
            return false;
        };
        if !is_met(files, objects, view, edges, &need) {
            return false;
        }
    }
    true
}

// Whether a need is met, of the file with this dynamic segment.
fn is_met(
    files: &[StoredFile],
    objects: &[Object],
    view: &DynamicView<'_>,
    edges: &[u32],
    need: &Need<'_>,
) -> bool
    ensures { IsTrue result → IsMet files.now objects.now view.now edges.now (need_parts need.now) }
{
    match need.file() {
        Ok(file) => {
            is_first_provided(
                files,
                objects,
                edges_from(file.as_bytes(), view, edges),
                need,
            )
        }
        Err(_) => false,
    }
}

// Whether the library that the first of some edges leads to, if there is one, provides the version of a need.
fn is_first_provided(
    files: &[StoredFile],
    objects: &[Object],
    edges: &[u32],
    need: &Need<'_>,
) -> bool
    ensures { IsTrue result → IsFirstProvided files.now objects.now (need_parts need.now) edges.now }
{
    match edges.first() {
        Some(edge) => is_provided_by(files, objects, *edge, need),
        None => true,
    }
}

// Whether the library with a number, if there is one, does.
fn is_provided_by(files: &[StoredFile], objects: &[Object], number: u32, need: &Need<'_>) -> bool
    ensures { IsTrue result → IsProvidedBy files.now objects.now (need_parts need.now) number }
{
    let Some(library) = objects.get(number as usize) else {
        return true;
    };
    match files.get(library.file) {
        Some(file) => is_provided(&file.bytes, need),
        None => true,
    }
}

// Whether the library in these bytes does.
fn is_provided(bytes: &[u8], need: &Need<'_>) -> bool
    ensures { IsTrue result → IsProvided bytes.now (need_parts need.now) }
{
    match provided_by(bytes) {
        Ok(provided) => starts_with(lack_in(&provided, need)),
        Err(_) => false,
    }
}

// Whether a program starts with what a library lacks of a need.
fn starts_with(lack: Result<Option<Lack>, LinkError>) -> bool
    ensures { result ≡ starts_with lack }
{
    matches!(lack, Ok(None | Some(Lack::NoInformation | Lack::Weak)))
}

// The edges from that of the first name that is a text on, of the names in a dynamic segment.
#[tactic(auto, using(crate::proofs::NeededVersions::edges_end, crate::proofs::NeededVersions::edges_here, crate::proofs::NeededVersions::edges_after))]
fn edges_from<'e>(text: &[u8], view: &DynamicView<'_>, edges: &'e [u32]) -> &'e [u32]
    ensures { result.now ≡ edges_from text.now
        (names_in (view_strings view.now) (view_entries view.now)) edges.now }
{
    let mut rest = edges;
    for needed in needed_names(view) {
        if is_text(text, &needed) {
            return rest;
        }
        rest = after_first(rest);
    }
    &[]
}

// Whether a name is a text.
fn is_text(text: &[u8], needed: &NeededName<'_>) -> bool
    ensures { result ≡ is_text text.now (name_parts needed.now).name }
{
    match needed.name {
        Ok(name) => name == text,
        Err(_) => false,
    }
}
