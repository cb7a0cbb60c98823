//! Whether a file that a search took can be loaded as a library, as `ld.so` of glibc 2.36 decides
//! (gABI, "Program Header" and "Dynamic Section").

ghost use Rattle.std.specs.Prelude.{◌≡◌, ◌==◌, None, not, ◌&&◌};
ghost use Rattle.elf_base.specs.FirstError.{unless};
ghost use Rattle.elf_linking.specs.DynamicView.{view_entries};
ghost use Rattle.elf_linking.specs.Segments.{segments_of};
ghost use Rattle.elf_search.specs.Library.{has_flag_1};
ghost use Rattle.elf_search.specs.Library.{has_load, is_executable, library_rows, shared_rows};

use crate::SearchError;
use crate::names::last_entry;
use elf_library::segments::dynamic_address;
use elf_linking::Segments;
use elf_linking::view::{DT_FLAGS_1, DynamicView};
use xmas_elf::ElfFile;

const PT_LOAD: u32 = 1;

/// `DF_1_INITFIRST`: the initialisers of the library run before those of all others (`elf.h` of
/// glibc).
pub const DF_1_INITFIRST: u64 = 0x20;

/// `DF_1_NODEFLIB`: no library is looked for in the default directories (`elf.h` of glibc).
pub const DF_1_NODEFLIB: u64 = 0x800;

/// `DF_1_PIE`: the file is an executable that can be loaded anywhere (`elf.h` of glibc).
pub const DF_1_PIE: u64 = 0x0800_0000;

// Whether a file has a segment that is loaded.
#[tactic(auto, using(crate::proofs::SegmentSearch::load_none, crate::proofs::SegmentSearch::load_hit, crate::proofs::SegmentSearch::load_other))]
fn has_load(file: &ElfFile<'_>) -> bool
    ensures { result ≡ has_load (segments_of file.now) }
{
    for segment in Segments::of(file) {
        if segment.kind == PT_LOAD {
            return true;
        }
    }
    false
}

// Whether a file is an executable of a fixed address (ET_EXEC).
fn is_executable(file: &ElfFile<'_>) -> bool
    ensures { result ≡ is_executable file.now }
{
    file.header.pt2.type_().raw() == 2
}

/// Whether a file that `fits` took has what a library must have. What else a loader asks of its
/// segments is tested after these, and `check_shared` last.
///
/// Errors, the first of these: `NoLoad` if no segment is loaded; `Executable` if the type is
/// ET_EXEC; `NoDynamic` if no segment is of type Dynamic, one of these has no bytes in the file, or
/// the last is at address 0.
pub fn check_library(file: &ElfFile<'_>) -> Result<(), SearchError>
    ensures { result ≡ unless (library_rows file.now) tt }
{
    if !has_load(file) {
        return Err(SearchError::NoLoad);
    }
    if is_executable(file) {
        return Err(SearchError::Executable);
    }
    if dynamic_address(file) == 0 {
        return Err(SearchError::NoDynamic);
    }
    Ok(())
}

/// Whether the last entry DT_FLAGS_1 has all bits of `flag`.
pub fn has_flag_1(view: &DynamicView<'_>, flag: u64) -> bool
    ensures { result ≡ has_flag_1 flag (view_entries view.now) }
{
    match last_entry(view, DT_FLAGS_1) {
        Some(flags) => flags & flag == flag,
        None => false,
    }
}

/// Whether a library is no executable.
///
/// Errors: `SharedExecutable` if the last entry DT_FLAGS_1 has the flag DF_1_PIE.
pub fn check_shared(view: &DynamicView<'_>) -> Result<(), SearchError>
    ensures { result ≡ unless (shared_rows (view_entries view.now)) tt }
{
    if has_flag_1(view, DF_1_PIE) {
        return Err(SearchError::SharedExecutable);
    }
    Ok(())
}
