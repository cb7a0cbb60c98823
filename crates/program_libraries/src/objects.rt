//! The objects that a program gets, and what their files say of them.

ghost use Rattle.std.specs.Prelude.{IfOk};
ghost use Rattle.program_libraries.specs.NeededNames.{IsViewOf};

use crate::error::{FindError, error_in};
use crate::systems::System;
use elf_linking::LinkError;
use elf_linking::view::DynamicView;
use elf_search::SearchError;
use elf_search::candidates::How;
use elf_search::names::{NameKind, last_text, needed_names};
use elf_search::tokens::{TokenValues, expand, is_known};
use std::alloc::{AllocError, Global};
use xmas_elf::ElfFile;

/// How an object was found.
#[derive(Clone, Copy, Debug, PartialEq, Eq)]
pub enum Found {
    /// It is the program.
    Program,
    /// It is the interpreter of the program.
    Interpreter,
    /// By a search.
    By(How),
}

/// A name that an object asks for.
#[derive(Drop)]
pub struct Entry {
    /// What it asks for.
    pub kind: NameKind,
    /// The name, with its tokens replaced.
    pub name: Vec<u8>,
    /// Whether the loader passes over it: it is auxiliary, and its file is an error, or it has a token without a value.
    pub is_passed_over: bool,
}

/// A program or a library.
#[derive(Drop)]
pub struct Object {
    /// The path by which it was opened.
    pub path: String,
    /// The directory of this path (`$ORIGIN`).
    pub origin: String,
    /// The index of its file.
    pub file: usize,
    /// Its search paths (DT_RPATH, DT_RUNPATH), and whether it wants no default directories.
    pub(crate) r_path: Option<Vec<u8>>,
    pub(crate) run_path: Option<Vec<u8>>,
    pub(crate) no_default: bool,
    /// The names by which it was asked for.
    pub names: Vec<Vec<u8>>,
    /// Its soname (DT_SONAME).
    pub soname: Option<Vec<u8>>,
    /// The number of the object that had it loaded, and of the entry there.
    pub loader: (u32, u32),
    /// How it was found.
    pub how: Found,
    /// What that entry asks for.
    pub kind: NameKind,
    /// The names that it asks for, in order.
    pub entries: Vec<Entry>,
    /// The number of the object that each of them found; `NO_OBJECT` if it is missing.
    pub edges: Vec<u32>,
}

/// The dynamic segment of the file in these bytes; `None` if it has none.
pub fn view_of(bytes: &[u8]) -> Result<Option<DynamicView<'_>>, LinkError>
    ensures { IfOk result (IsViewOf bytes.now) }
{
    let file = match ElfFile::new(bytes) {
        Ok(file) => file,
        Err(error) => return Err(LinkError::Elf(error)),
    };
    match DynamicView::read(&file) {
        Ok(view) => Ok(Some(view)),
        Err(LinkError::NoDynamic) => Ok(None),
        Err(error) => Err(error),
    }
}

/// The bytes at the last entry of a file with a tag; `None` if there is none.
pub(crate) fn text_in(bytes: &[u8], tag: u64) -> Result<Option<&[u8]>, LinkError> {
    let Some(view) = view_of(bytes)? else {
        return Ok(None);
    };
    match last_text(&view, tag) {
        Some(Ok(text)) => Ok(Some(text)),
        Some(Err(error)) => Err(error),
        None => Ok(None),
    }
}

/// The bytes of a path's directory: what is before its last slash, after the current directory if it
/// is relative.
pub(crate) fn origin_of(alloc: Global, directory: &str, path: &str) -> Result<String, AllocError> {
    let mut whole = String::new(alloc);
    if !path.starts_with('/') {
        whole.push_str(directory)?;
        whole.push('/')?;
    }
    whole.push_str(path)?;
    let folder = whole.as_str().rsplit_once('/').unwrap_or(("", "")).0;
    if folder.is_empty() {
        return String::from_str(alloc, "/");
    }
    String::from_str(alloc, folder)
}

impl Object {
    /// The values of the tokens for it.
    pub(crate) fn values<'v>(
        &'v self,
        system: &System,
        platform: Option<&'static str>,
    ) -> TokenValues<'v> {
        token_values(&self.origin, system, platform)
    }

    /// Whether it is known by a name: its path, one by which it was asked for, or its soname.
    pub(crate) fn has_name(&self, name: &[u8]) -> bool {
        self.path.as_bytes() == name
            || self.names.iter().any(|other| other.as_slice() == name)
            || self.has_soname(name)
    }

    /// Whether a name is its soname.
    pub(crate) fn has_soname(&self, name: &[u8]) -> bool {
        match &self.soname {
            Some(soname) => soname.as_slice() == name,
            None => false,
        }
    }
}

// The values of the tokens for an object with this origin.
fn token_values<'v>(
    origin: &'v str,
    system: &System,
    platform: Option<&'static str>,
) -> TokenValues<'v> {
    TokenValues {
        origin: Some(origin.as_bytes()),
        lib: bytes_of(system.lib),
        platform: bytes_of(platform),
    }
}

fn bytes_of(text: Option<&'static str>) -> Option<&'static [u8]> {
    match text {
        Some(text) => Some(text.as_bytes()),
        None => None,
    }
}

// How many times the bytes of a file the names that it asks for may have together: entries may share a text, and
// a few bytes of a token can stand for a long path.
const MOST_TIMES: usize = 16;

/// The names that a file asks for, with the tokens of an object at this path. That they have too many bytes
/// together is the error `FileData` of the file.
pub(crate) fn entries_of(
    alloc: Global,
    path: &str,
    origin: &str,
    bytes: &[u8],
    system: &System,
    platform: Option<&'static str>,
) -> Result<Vec<Entry>, FindError> {
    let mut entries = Vec::new(alloc);
    let view = match view_of(bytes) {
        Ok(Some(view)) => view,
        Ok(None) => return Ok(entries),
        Err(error) => return Err(error_in(alloc, path, SearchError::Link(error))),
    };
    let values = token_values(origin, system, platform);
    let mut room = bytes.len().saturating_mul(MOST_TIMES);
    for needed in needed_names(&view) {
        let name = match needed.name {
            Ok(name) => name,
            Err(error) => return Err(error_in(alloc, path, SearchError::Link(error))),
        };
        let is_known = is_known(name, &values);
        if !is_known && needed.kind != NameKind::Auxiliary {
            return Err(error_in(alloc, path, SearchError::EmptyToken));
        }
        let Some(name) = entry_name(alloc, name, is_known, &values, room)? else {
            return Err(error_in(alloc, path, SearchError::FileData));
        };
        room = room.saturating_sub(name.len());
        entries.push(Entry {
            kind: needed.kind,
            name,
            is_passed_over: !is_known,
        })?;
    }
    Ok(entries)
}

// A name, with its tokens replaced if they are known; `None` if it has more than `room` bytes.
fn entry_name(
    alloc: Global,
    name: &[u8],
    is_known: bool,
    values: &TokenValues<'_>,
    room: usize,
) -> Result<Option<Vec<u8>>, AllocError> {
    if is_known {
        return expanded(alloc, name, values, room);
    }
    if name.len() > room {
        return Ok(None);
    }
    Ok(Some(Vec::from_slice(alloc, name)?))
}

// A name with its tokens replaced; `None` if it has more than `room` bytes.
fn expanded(
    alloc: Global,
    name: &[u8],
    values: &TokenValues<'_>,
    room: usize,
) -> Result<Option<Vec<u8>>, AllocError> {
    let mut bytes = Vec::new(alloc);
    for byte in expand(name, values) {
        if bytes.len() >= room {
            return Ok(None);
        }
        bytes.push(byte)?;
    }
    Ok(Some(bytes))
}
