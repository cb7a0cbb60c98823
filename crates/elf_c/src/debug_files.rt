//! Separate debug files: at which paths one may be, and whether a file is the one (gdb's manual, "Separate
//! Debug Files").

ghost use Rattle.std.specs.Prelude.{◌≡◌, ℕ, List, Ok, Result, length, min, option_map, slice_get};
ghost use Rattle.elf_debug.specs.Crc.{checksum};
ghost use Rattle.elf_debug.specs.Paths.{path_left, paths_left, way_parts};
ghost use Rattle.elf_c.specs.DebugFiles.{IsCandidate, IsDebugCheck, candidate_of, how_number, how_of};
ghost use Rattle.elf_c.specs.DebugFiles.{MOST, mismatch_error};
ghost use Rattle.elf_c.specs.Parsed.{file_of};
ghost use Rattle.elf_c.specs.Pieces.{IsRows};
ghost use Rattle.elf_c.specs.Status.{Gives, GivesHere};
ghost use Rattle.elf_c.specs.declared.debug_files.DebugCandidate.{DebugCandidate};
ghost use Rattle.elf_c.specs.declared.status.AnyError.{AnyError};

use crate::file::Parsed;
use crate::pieces::put;
use crate::status::{AnyError, give};
use elf_base::ElfError;
use elf_debug::{
    DebugHow, DebugMismatch, DebugPath, DebugPathBytes, DebugPaths, DebugWanted, debug_crc,
};
use xmas_elf::ElfFile;

/// A debug file is found by the build id.
pub const BY_BUILD_ID: u32 = 0;
/// A debug file is found by the name in the link, in the folder of the file.
pub const IN_FOLDER: u32 = 1;
/// A debug file is found by the name in the link, in `.debug` in the folder of the file.
pub const IN_SUBFOLDER: u32 = 2;
/// A debug file is found by the name in the link, under the directory in the same folder.
pub const IN_DIRECTORY: u32 = 3;

/// A path at which a debug file may be.
#[repr(C)]
#[derive(Clone, Copy, Debug)]
pub struct DebugCandidate {
    /// The number of bytes of the path; 2^64 - 1 if there are more.
    pub size: u64,
    /// How the file is found: `BY_BUILD_ID`, `IN_FOLDER`, `IN_SUBFOLDER` or `IN_DIRECTORY`.
    pub how: u32,
}

// The number of a way.
fn how_number(how: DebugHow) -> u32
    ensures { result ≡ how_number how }
{
    match how {
        DebugHow::BuildId => BY_BUILD_ID,
        DebugHow::Folder => IN_FOLDER,
        DebugHow::Subfolder => IN_SUBFOLDER,
        DebugHow::Directory => IN_DIRECTORY,
    }
}

// The way with a number.
fn how_of(number: u32) -> DebugHow
    ensures { result ≡ how_of number }
{
    if number == BY_BUILD_ID {
        return DebugHow::BuildId;
    }
    if number == IN_FOLDER {
        return DebugHow::Folder;
    }
    if number == IN_SUBFOLDER {
        return DebugHow::Subfolder;
    }
    DebugHow::Directory
}

// The path at an index, if there is one.
fn path_at<'s>(paths: DebugPaths<'s>, index: u64) -> Option<DebugPath<'s>>
    ensures { option_map way_parts result ≡ slice_get (paths_left paths.entry) index }
{
    let mut rest = paths;
    let mut left = index;
    'ways: while let Some(found) = rest.next() {
        if left == 0 {
            return Some(found);
        }
        left -= 1;
    }
    None
}

// Writes the bytes of a path to the front of `text`, as many as fit, and returns the number of all.
fn write_bytes(path: DebugPathBytes<'_>, text: &mut [u8]) -> u64
    ensures text { IsRows (path_left path.entry) 0 text.old text.new }
    ensures size { result ≡ min (length (path_left path.entry)) MOST }
{
    // This tells the proof that the length is a number of 64 bits.
    let _len = text.len();
    let mut rest = path;
    let mut count = 0u64;
    'bytes: while let Some(byte) = rest.next() {
        put(text, 0, count, byte);
        count = count.saturating_add(1);
    }
    count
}

// The path at an index at which the debug file may be: its text is written to `text`.
fn write_candidate(
    file: &ElfFile<'_>,
    path: &[u8],
    directory: &[u8],
    index: u64,
    text: &mut [u8],
) -> Result<DebugCandidate, AnyError>
    ensures { IsCandidate file.now path.now directory.now index text.old text.new result }
{
    let wanted = DebugWanted::of(file);
    match path_at(wanted.paths(path, directory), index) {
        Some(found) => Ok(DebugCandidate {
            size: write_bytes(found.path, text),
            how: how_number(found.how),
        }),
        None => Err(AnyError::NoRecord),
    }
}

/// The path at an index at which the debug file of the file at `path` may be: those of
/// `elf_debug::DebugWanted::paths`, by the build id in `directory` and by the name in `.gnu_debuglink`, in
/// the order in which gdb tries them. Its bytes are written to the front of `text`, as many as fit, without
/// a zero byte, and `out` is set to how many there are, and to how the file is found.
///
/// The error is `NoRecord` if there are no more paths; `text` and `out` are then unchanged.
#[unsafe(no_mangle)]
pub extern "C" fn xmas_elf_debug_path(
    input: &[u8],
    header: &Parsed,
    path: &[u8],
    directory: &[u8],
    index: u64,
    text: &mut [u8],
    out: &mut DebugCandidate,
) -> u32
    ensures { (answer : Result DebugCandidate AnyError)
        × IsCandidate (file_of input.entry header.now) path.now directory.now index text.old text.new answer
        × GivesHere answer out.old result out.new }
{
    give(
        write_candidate(&header.file(input), path, directory, index, text),
        out,
    )
}

// The error for a file that is not the debug file.
fn mismatch_error(mismatch: DebugMismatch) -> AnyError
    ensures { result ≡ mismatch_error mismatch }
{
    match mismatch {
        DebugMismatch::NoBuildId => AnyError::NoBuildId,
        DebugMismatch::OtherBuildId => AnyError::OtherBuildId,
        DebugMismatch::OtherChecksum => AnyError::OtherChecksum,
    }
}

// Whether a file that was found in some way is the debug file of another.
fn check(file: &ElfFile<'_>, how: u32, debug: &ElfFile<'_>) -> Result<(), AnyError>
    ensures { IsDebugCheck file.now how debug.now result }
{
    let wanted = DebugWanted::of(file);
    match wanted.check(how_of(how), debug) {
        Ok(()) => Ok(()),
        Err(mismatch) => Err(mismatch_error(mismatch)),
    }
}

/// Whether `debug`, whose header is `debug_header`, is the debug file of the file: the result of
/// `elf_debug::DebugWanted::check`. `how` is that of the path where it was found; any number above 3 is
/// taken for `IN_DIRECTORY`. A file that was found by the build id is compared by its own, and otherwise by
/// the CRC of all its bytes.
///
/// Errors: `NoBuildId` if it was found by the build id, and has none; `OtherBuildId` if it has another;
/// `OtherChecksum` if it was found by the name in the link, and its CRC is another than that in the link.
#[unsafe(no_mangle)]
pub extern "C" fn xmas_elf_check_debug(
    input: &[u8],
    header: &Parsed,
    how: u32,
    debug: &[u8],
    debug_header: &Parsed,
) -> u32
    ensures { (answer : Result (Unit {0}) AnyError)
        × IsDebugCheck (file_of input.entry header.now) how (file_of debug.entry debug_header.now) answer
        × GivesHere answer tt result tt }
{
    give(
        check(&header.file(input), how, &debug_header.file(debug)),
        &mut (),
    )
}

/// The CRC of the bytes of a debug file, as `.gnu_debuglink` has it: that of `elf_debug::debug_crc`
/// (polynomial 0x04C11DB7). There are no errors.
#[unsafe(no_mangle)]
pub extern "C" fn xmas_elf_debug_crc(bytes: &[u8], out: &mut u32) -> u32
    ensures { Gives (Ok (checksum bytes.now)) out.old result out.new }
{
    give(Ok::<u32, ElfError>(debug_crc(bytes)), out)
}
