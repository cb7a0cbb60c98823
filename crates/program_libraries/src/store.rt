//! The files that are opened, each of which is read once.

use crate::contents::bytes_in;
use crate::error::FindError;
use crate::rooted::system_path;
use elf_search::SearchError;
use elf_search::fits::{Fit, fits};
use program_ends::read_whole;
use std::alloc::Global;
use std::fs::File;
use std::io::{ErrorKind, Read};
use std::os::unix::fs::MetadataExt;
use std::{fs, io};

/// A file that was opened.
#[derive(Drop)]
pub struct StoredFile {
    // Its device and inode.
    identity: (u64, u64),
    /// All of its bytes.
    pub bytes: Vec<u8>,
}

// What the attempt to open a file gave.
#[derive(Clone, Copy, Debug, Drop)]
pub(crate) enum Opened {
    // The file at this index.
    File(usize),
    // There is none, or it can't be opened.
    Absent,
    // It can't be opened for another reason than that it is missing or not permitted.
    Failed,
    // It is a library of another class or for another machine.
    PassedOver,
    // It is no library, with this error; `FileData` of a directory and of a file that can't be read.
    Unfit(SearchError),
}

// The class and the machine of a program; `None` for the program itself.
type Wanted = Option<(u8, u16)>;

// How many bytes of a file decide whether it is a library.
const HEAD: usize = 64;

// Opens the library at a path in a root for a program of a class and a machine, and reads it if it has not been
// read before. What is no file, as a pipe, is not opened, and of a file that is no library only the head is read.
pub(crate) fn open(
    rt: &HostRuntime,
    root: &str,
    path: &str,
    kind: (u8, u16),
    files: &mut Vec<StoredFile>,
) -> Result<Opened, FindError> {
    open_if(rt, root, path, Some(kind), files)
}

// Opens the program at a path in a root, and reads it if it has not been read before.
pub(crate) fn open_program(
    rt: &HostRuntime,
    root: &str,
    path: &str,
    files: &mut Vec<StoredFile>,
) -> Result<Opened, FindError> {
    open_if(rt, root, path, None, files)
}

// Opens the file at a path in a root, if it is one, or of a program also a pipe.
fn open_if(
    rt: &HostRuntime,
    root: &str,
    path: &str,
    wanted: Wanted,
    files: &mut Vec<StoredFile>,
) -> Result<Opened, FindError> {
    let real = match system_path(rt, root, path) {
        Ok(real) => real,
        Err(error) => return unopened(&error),
    };
    let known = match fs::metadata(rt, real.as_str()) {
        Ok(known) => known,
        Err(error) => return unopened(&error),
    };
    let identity = (known.dev(), known.ino());
    if let Some(place) = place_of(files, identity) {
        let bytes = bytes_in(files, place);
        return Ok(fitted(bytes, bytes.len() as u64, wanted, place));
    }
    if known.is_dir() || !(wanted.is_none() || known.is_file()) {
        return Ok(Opened::Unfit(SearchError::FileData));
    }
    let file = match File::open(rt, real.as_str()) {
        Ok(file) => file,
        Err(error) => return unopened(&error),
    };
    let place = files.len();
    let (opened, bytes) = match read(rt.alloc(), file, known.len(), wanted, place) {
        Ok(read) => read,
        Err(error) if error.kind() == ErrorKind::OutOfMemory => return Err(FindError::Memory),
        Err(_) => return Ok(Opened::Unfit(SearchError::FileData)),
    };
    if matches!(opened, Opened::File(_)) {
        files.push(StoredFile { identity, bytes })?;
    }
    Ok(opened)
}

// Reads a file of a length that is to get an index: its head and, if that is of a library, the rest.
fn read(
    alloc: Global,
    file: File,
    length: u64,
    wanted: Wanted,
    place: usize,
) -> io::Result<(Opened, Vec<u8>)> {
    let mut file = file;
    let mut bytes = read_head(alloc, &mut file)?;
    let opened = fitted(&bytes, length, wanted, place);
    if matches!(opened, Opened::File(_)) {
        file.read_to_end(&mut bytes)?;
    }
    Ok((opened, bytes))
}

// The first bytes of a file, as many as its head has or the file.
fn read_head(alloc: Global, file: &mut File) -> io::Result<Vec<u8>> {
    let mut head = [0u8; HEAD];
    let mut filled: usize = 0;
    for _ in 0..HEAD {
        let Some(rest) = head.get_mut(filled..) else {
            break;
        };
        let count = file.read(rest)?;
        if count == 0 {
            break;
        }
        filled = filled.saturating_add(count);
    }
    Ok(Vec::from_slice(alloc, head.get(..filled).unwrap_or(&[]))?)
}

// What becomes of a file with these first bytes and a length, which has or gets an index. A program is taken.
fn fitted(head: &[u8], length: u64, wanted: Wanted, place: usize) -> Opened {
    let Some((class, machine)) = wanted else {
        return Opened::File(place);
    };
    match fits(head, length, class, machine) {
        Ok(Fit::Taken) => Opened::File(place),
        Ok(Fit::PassedOver) => Opened::PassedOver,
        Err(error) => Opened::Unfit(error),
    }
}

// A file that isn't there.
pub(crate) fn no_file(alloc: Global) -> StoredFile {
    StoredFile {
        identity: (0, 0),
        bytes: Vec::new(alloc),
    }
}

// The index of the file with an identity, if it has been read.
fn place_of(files: &[StoredFile], identity: (u64, u64)) -> Option<usize> {
    files.iter().position(|file| file.identity == identity)
}

// What an error of the system says of a file.
fn unopened(error: &io::Error) -> Result<Opened, FindError> {
    match error.kind() {
        ErrorKind::OutOfMemory => Err(FindError::Memory),
        ErrorKind::NotFound | ErrorKind::PermissionDenied => Ok(Opened::Absent),
        _ => Ok(Opened::Failed),
    }
}

// All bytes of the file at a path of this system; none if it can't be read.
pub(crate) fn bytes_at(rt: &HostRuntime, root: &str, path: &str) -> Option<Vec<u8>> {
    let real = system_path(rt, root, path).ok()?;
    if !fs::metadata(rt, real.as_str()).ok()?.is_file() {
        return None;
    }
    read_whole(rt.alloc(), File::open(rt, real.as_str()).ok())
}
