//! Whether a program gets all libraries and versions that it needs.

ghost use Rattle.std.specs.Prelude.{◌≡◌, IsTrue, length};
ghost use Rattle.elf_linking.specs.DynamicView.{view_entries, view_strings};
ghost use Rattle.elf_search.specs.Names.{names_in};
ghost use Rattle.program_libraries.specs.Complete.{IsComplete};
ghost use Rattle.program_libraries.specs.NeededNames.{AreNamesFound, IsServed, IsServedBy, after_first};
ghost use Rattle.program_libraries.specs.NeededNames.{are_found, has_object};

use crate::needed_versions::are_versions_met;
use crate::objects::{Object, view_of};
use crate::store::StoredFile;
use elf_linking::view::DynamicView;
use elf_search::names::{NameKind, needed_names};

/// Whether there is an object, each name that one of them asks for, other than by an auxiliary entry, found one
/// of them, and each version that is needed of that one, and not weakly, is defined there if it defines any. The names
/// and the versions are those of the files, read anew. For each version that is needed this takes a pass over the names of
/// its object, and over the dynamic entries and the definitions of the library.
pub fn is_complete(files: &[StoredFile], objects: &[Object]) -> bool
    ensures { IsTrue result → IsComplete files.now objects.now }
{
    are_names_found(files, objects) && are_versions_met(files, objects)
}

// Whether there is an object, and each name that one of them asks for, other than by an auxiliary entry, found one
// of them.
#[tactic(auto, using(crate::proofs::Served::served_none, crate::proofs::Served::served_more, crate::proofs::Served::names_served))]
pub(crate) fn are_names_found(files: &[StoredFile], objects: &[Object]) -> bool
    ensures { IsTrue result → AreNamesFound files.now objects.now }
{
    for index in 0..objects.len() {
        if !is_served(files, objects.len(), &objects[index]) {
            return false;
        }
    }
    !objects.is_empty()
}

// Whether each name that an object asks for found one of so many objects.
fn is_served(files: &[StoredFile], count: usize, object: &Object) -> bool
    ensures { IsTrue result → IsServed files.now count object.now }
{
    match files.get(object.file) {
        Some(file) => are_served(count, &file.bytes, &object.edges),
        None => false,
    }
}

// Whether each name that the file in these bytes asks for found one of so many objects.
#[tactic(auto, using(crate::proofs::Served::served_by_view, crate::proofs::Served::served_by_none))]
fn are_served(count: usize, bytes: &[u8], edges: &[u32]) -> bool
    ensures { IsTrue result → IsServedBy count bytes.now edges.now }
{
    match view_of(bytes) {
        Ok(Some(view)) => are_found(count, &view, edges),
        Ok(None) => true,
        Err(_) => false,
    }
}

// Whether each name in a dynamic segment found one of so many objects.
#[tactic(auto, using(crate::proofs::FoundNames::found_end, crate::proofs::FoundNames::found_more, crate::proofs::FoundNames::found_miss))]
fn are_found(count: usize, view: &DynamicView<'_>, edges: &[u32]) -> bool
    ensures { result ≡ are_found count (names_in (view_strings view.now) (view_entries view.now))
        edges.now }
{
    let mut rest = edges;
    for needed in needed_names(view) {
        if needed.kind != NameKind::Auxiliary && !has_object(count, rest) {
            return false;
        }
        rest = after_first(rest);
    }
    true
}

// Whether the first of some entries found one of so many objects.
fn has_object(count: usize, edges: &[u32]) -> bool
    ensures { result ≡ has_object count edges.now }
{
    match edges.first() {
        Some(edge) => (*edge as usize) < count,
        None => false,
    }
}

// What is after the first of some entries.
pub(crate) fn after_first(edges: &[u32]) -> &[u32]
    ensures { result.now ≡ after_first edges.now }
{
    match edges.split_first() {
        Some((_, rest)) => rest,
        None => &[],
    }
}
