//! What a file says about its debug file, and whether another file is that one.

ghost use Rattle.std.specs.Prelude.{◌≡◌, IfSome, IsSomeAnd, List, option_map, ℕ};
ghost use Rattle.elf_debug.specs.Paths.{all_paths, paths_left};
ghost use Rattle.elf_debug.specs.Wanted.{check_by_checksum, check_by_id, checked, message_of, own_id};
ghost use Rattle.xmas_elf.specs.Link.{IsDebugLink};

use crate::crc::debug_crc;
use crate::paths::{DebugHow, DebugPaths, debug_paths};
use elf_linking::build_ids::{build_id_of_section, build_id_of_segments};
use xmas_elf::{ElfFile, Extensions};

/// What a file says about its debug file.
#[derive(Clone, Copy, Debug)]
pub struct DebugWanted<'a> {
    /// The build id, which the debug file has too.
    pub build_id: Option<&'a [u8]>,
    /// The name of the debug file, and the CRC of its bytes.
    pub link: Option<(&'a str, u32)>,
}

/// Why a file is not the debug file that is wanted.
#[derive(Clone, Copy, Debug, PartialEq, Eq)]
pub enum DebugMismatch {
    /// It has no build id.
    NoBuildId,
    /// Its build id is another.
    OtherBuildId,
    /// The CRC of its bytes is another.
    OtherChecksum,
}

impl DebugMismatch {
    ghost use Rattle.elf_debug.specs.declared.wanted.DebugMismatch.{DebugMismatch};

    /// The text of the reason.
    pub fn message(&self) -> &'static str
        ensures { result.now ≡ message_of self.now }
    {
        match self {
            DebugMismatch::NoBuildId => "no build id",
            DebugMismatch::OtherBuildId => "another build id",
            DebugMismatch::OtherChecksum => "another CRC",
        }
    }
}

/// The build id of a file, by its section headers or else by its program headers. One that can't be
/// read is none.
pub fn own_build_id<'a>(file: &ElfFile<'a>) -> Option<&'a [u8]>
    ensures { result ≡ own_id file.now }
{
    match build_id_of_section(file) {
        Ok(Some(id)) => Some(id),
        _ => match build_id_of_segments(file) {
            Ok(Some(id)) => Some(id),
            _ => None,
        },
    }
}

// Whether the build id of a file is the one that is wanted.
fn check_by_id(wanted: Option<&[u8]>, own: Option<&[u8]>) -> Result<(), DebugMismatch>
    ensures { result ≡ check_by_id (option_map (λ id. id.now) wanted.entry)
        (option_map (λ id. id.now) own.entry) }
{
    let Some(own) = own else {
        return Err(DebugMismatch::NoBuildId);
    };
    match wanted {
        Some(wanted) if wanted == own => Ok(()),
        _ => Err(DebugMismatch::OtherBuildId),
    }
}

// Whether the CRC of some bytes is the one that is wanted.
fn check_by_checksum(wanted: Option<u32>, bytes: &[u8]) -> Result<(), DebugMismatch>
    ensures { result ≡ check_by_checksum wanted bytes.now }
{
    match wanted {
        Some(wanted) if debug_crc(bytes) == wanted => Ok(()),
        _ => Err(DebugMismatch::OtherChecksum),
    }
}

impl<'a> DebugWanted<'a> {
    /// What this file says.
    pub fn of(file: &ElfFile<'a>) -> DebugWanted<'a>
        ensures id { result.build_id ≡ own_id file.now }
        ensures link { IfSome result.link (λ link. IsDebugLink file.now link.0.now link.1) }
        ensures only { (text : List ℕ) (crc : ℕ) → IsDebugLink file.now text crc
            → IsSomeAnd result.link (λ link. (link.0.now ≡ text) × (link.1 ≡ crc)) }
    {
        DebugWanted {
            build_id: own_build_id(file),
            link: file.get_gnu_debuglink(),
        }
    }

    /// The paths at which the debug file may be, if the file is at this path: those of
    /// `debug_paths`.
    pub fn paths(&self, path: &'a [u8], directory: &'a [u8]) -> DebugPaths<'a>
        ensures { paths_left result ≡ all_paths (option_map (λ id. id.now) self.now.build_id)
            (option_map (λ link. link.0.now) self.now.link) path.now directory.now }
    {
        let name = match self.link {
            Some((name, _)) => Some(name.as_bytes()),
            None => None,
        };
        debug_paths(self.build_id, name, path, directory)
    }

    /// Whether a file that was found is the debug file: by its build id, if it was found by the
    /// build id, and otherwise by the CRC of all its bytes.
    pub fn check(&self, how: DebugHow, debug: &ElfFile<'_>) -> Result<(), DebugMismatch>
        ensures { result ≡ checked how (option_map (λ id. id.now) self.now.build_id)
            (option_map (λ link. link.1) self.now.link) debug.now }
    {
        match how {
            DebugHow::BuildId => check_by_id(self.build_id, own_build_id(debug)),
            DebugHow::Folder | DebugHow::Subfolder | DebugHow::Directory => {
                let wanted = match self.link {
                    Some((_, crc)) => Some(crc),
                    None => None,
                };
                check_by_checksum(wanted, debug.input)
            }
        }
    }
}
