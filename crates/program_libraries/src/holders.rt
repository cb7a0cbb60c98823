//! The files of objects, by the names that needs of versions give them.

use crate::contents::bytes_in;
use crate::objects::text_in;
use crate::store::StoredFile;
use crate::trees::Tree;
use elf_linking::view::DT_SONAME;
use linking_programs::Input;
use std::alloc::{AllocError, Global};

/// An object, or a library that is missing.
#[derive(Drop)]
pub(crate) struct Holder<'t> {
    /// The path of the object; that of a missing library is empty.
    pub(crate) path: &'t str,
    /// The bytes of its file; `None` of a missing library.
    pub(crate) bytes: Option<&'t [u8]>,
    /// The names by which it is known.
    pub(crate) names: Vec<&'t [u8]>,
}

impl Holder<'_> {
    /// Whether it is known by a name.
    pub(crate) fn has_name(&self, name: &[u8]) -> bool {
        self.names.iter().any(|own| *own == name)
    }
}

/// The objects in the order in which names are looked up, and the missing libraries between them.
pub(crate) fn tree_holders<'t>(
    alloc: Global,
    files: &'t [StoredFile],
    tree: &'t Tree,
) -> Result<Vec<Holder<'t>>, AllocError> {
    let mut holders = Vec::new(alloc);
    for place in 0..tree.list.len() {
        push_object(alloc, files, tree, tree.list[place], &mut holders)?;
        push_missing(alloc, tree, place, &mut holders)?;
    }
    Ok(holders)
}

// The object with a number, by its path and the names by which it was asked for. The program is known by an empty
// name.
fn push_object<'t>(
    alloc: Global,
    files: &'t [StoredFile],
    tree: &'t Tree,
    number: u32,
    holders: &mut Vec<Holder<'t>>,
) -> Result<(), AllocError> {
    let Some(object) = tree.object(number) else {
        return Ok(());
    };
    let mut names: Vec<&'t [u8]> = Vec::new(alloc);
    names.push(if number == 0 {
        b""
    } else {
        object.path.as_bytes()
    })?;
    for name in &object.names {
        names.push(name.as_slice())?;
    }
    holders.push(Holder {
        path: &object.path,
        bytes: Some(bytes_in(files, object.file)),
        names,
    })?;
    Ok(())
}

// The libraries that were missing when the object at a place of the list was the last there.
fn push_missing<'t>(
    alloc: Global,
    tree: &'t Tree,
    place: usize,
    holders: &mut Vec<Holder<'t>>,
) -> Result<(), AllocError> {
    for missing in &tree.missing {
        if tree.last_of(missing.0) == Some(place) {
            let mut names: Vec<&'t [u8]> = Vec::new(alloc);
            names.push(missing.1.as_slice())?;
            holders.push(Holder {
                path: "",
                bytes: None,
                names,
            })?;
        }
    }
    Ok(())
}

/// Files that are given by hand: each is known by its path, by the last part of it, and by its soname.
pub(crate) fn given_holders<'t>(
    alloc: Global,
    inputs: &'t [Input<'_>],
) -> Result<Vec<Holder<'t>>, AllocError> {
    let mut holders = Vec::new(alloc);
    for input in inputs {
        let mut names: Vec<&'t [u8]> = Vec::new(alloc);
        names.push(input.path.as_bytes())?;
        if let Some((_, last)) = input.path.rsplit_once('/') {
            names.push(last.as_bytes())?;
        }
        if let Ok(Some(name)) = text_in(&input.bytes, DT_SONAME) {
            names.push(name)?;
        }
        holders.push(Holder {
            path: input.path,
            bytes: Some(&input.bytes),
            names,
        })?;
    }
    Ok(holders)
}
