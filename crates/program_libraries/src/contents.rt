//! What the bytes of a file say about the search.

use crate::objects::view_of;
use crate::store::StoredFile;
use elf_linking::view::DynamicView;
use elf_linking::{LinkError, Segments};
use elf_search::SearchError;
use elf_search::fits::fits;
use elf_search::library::{DF_1_NODEFLIB, check_library, check_shared, has_flag_1};
use xmas_elf::ElfFile;

// The bytes of the file at an index.
pub(crate) fn bytes_in(files: &[StoredFile], place: usize) -> &[u8] {
    match files.get(place) {
        Some(file) => &file.bytes,
        None => &[],
    }
}

// The class and the machine that a file says; class 2 if it says none.
pub(crate) fn kind_of(bytes: &[u8]) -> (u8, u16) {
    let class = if bytes.get(4) == Some(&1) { 1 } else { 2 };
    let low = bytes.get(18).copied().unwrap_or(0);
    let high = bytes.get(19).copied().unwrap_or(0);
    (class, u16::from(low) + 256 * u16::from(high))
}

// Whether a program can be loaded.
pub(crate) fn check_program(bytes: &[u8], class: u8, machine: u16) -> Result<(), SearchError> {
    match fits(bytes, bytes.len() as u64, class, machine) {
        Ok(_) => {}
        Err(error) => return Err(error),
    }
    match ElfFile::new(bytes) {
        Ok(_) => Ok(()),
        Err(error) => Err(SearchError::Link(LinkError::Elf(error))),
    }
}

// Whether a file that was taken can be loaded as a library.
pub(crate) fn check(bytes: &[u8]) -> Result<(), SearchError> {
    let file = match ElfFile::new(bytes) {
        Ok(file) => file,
        Err(error) => return Err(SearchError::Link(LinkError::Elf(error))),
    };
    check_library(&file)?;
    match DynamicView::read(&file) {
        Ok(view) => check_shared(&view),
        Err(error) => Err(SearchError::Link(error)),
    }
}

// Whether a file has the flag DF_1_NODEFLIB.
pub(crate) fn is_without_default(bytes: &[u8]) -> bool {
    match view_of(bytes) {
        Ok(Some(view)) => has_flag_1(&view, DF_1_NODEFLIB),
        _ => false,
    }
}

// The path of the interpreter that a program names (PT_INTERP).
pub(crate) fn interpreter_in(bytes: &[u8]) -> Option<&str> {
    let file = ElfFile::new(bytes).ok()?;
    for segment in Segments::of(&file) {
        if segment.kind == 3 {
            let text = segment.bytes(&file).ok()?;
            let text = text.split(|byte| *byte == 0).next()?;
            return str::from_utf8(text).ok();
        }
    }
    None
}
