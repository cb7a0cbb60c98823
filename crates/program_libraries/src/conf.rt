//! The directories that `ld.so.conf` lists, where a root has no cache that can be used.

use crate::error::{FindError, unread};
use crate::rooted::{system_path, with_slash};
use crate::store::bytes_at;
use std::{fs, io};

// The deepest that a file can be included.
const DEEPEST: usize = 8;

// As many bytes as all files of lines may have, one that is included more than once counted each time.
const MOST_BYTES: usize = 1 << 20;

// The first of the files.
const FIRST: &str = "/etc/ld.so.conf";

// A line that is not yet read, the folder of its file, and how deep that is included.
#[derive(Drop)]
struct Line {
    text: String,
    folder: String,
    depth: usize,
}

// The lines that are not yet read, the last of them next, and how many bytes may still be read.
#[derive(Drop)]
struct Pending {
    lines: Vec<Line>,
    room: usize,
}

/// The directories of `/etc/ld.so.conf` in a root, each in a line.
///
/// Errors: `Unread` for a file after which all of them have more than 1 MiB; `Memory`.
pub(crate) fn directories(rt: &HostRuntime, root: &str) -> Result<Vec<u8>, FindError> {
    let mut found = Vec::new(rt.alloc());
    let mut pending = Pending {
        lines: Vec::new(rt.alloc()),
        room: MOST_BYTES,
    };
    push_file(rt, root, FIRST, 0, &mut pending)?;
    for _ in 0..u64::MAX {
        let Some(line) = pending.lines.pop() else {
            return Ok(found);
        };
        take_line(rt, root, &line, &mut pending, &mut found)?;
    }
    Ok(found)
}

// Puts the lines of the file at a path on top of those that are not yet read, the first on top.
fn push_file(
    rt: &HostRuntime,
    root: &str,
    path: &str,
    depth: usize,
    pending: &mut Pending,
) -> Result<(), FindError> {
    let Some(bytes) = bytes_at(rt, root, path) else {
        return Ok(());
    };
    // An empty file takes the room of a byte, since reading it takes time too.
    let Some(room) = pending.room.checked_sub(bytes.len().max(1)) else {
        return Err(unread(rt.alloc(), path));
    };
    pending.room = room;
    let folder = path.rsplit_once('/').unwrap_or(("", path)).0;
    for line in bytes.as_slice().rsplit(|byte| *byte == b'\n') {
        if let Ok(text) = str::from_utf8(line) {
            pending.lines.push(Line {
                text: String::from_str(rt.alloc(), text)?,
                folder: String::from_str(rt.alloc(), folder)?,
                depth,
            })?;
        }
    }
    Ok(())
}

// Adds the directory of a line to those that are found, or the lines of the files that it includes to those
// that are not yet read.
fn take_line(
    rt: &HostRuntime,
    root: &str,
    line: &Line,
    pending: &mut Pending,
    found: &mut Vec<u8>,
) -> Result<(), FindError> {
    let text = line.text.as_str().split('#').next().unwrap_or("").trim();
    if let Some(patterns) = after_word(text, "include") {
        if line.depth < DEEPEST {
            return include(rt, root, line, patterns, pending);
        }
        return Ok(());
    }
    if text.is_empty() || after_word(text, "hwcap").is_some() {
        return Ok(());
    }
    found.extend_from_slice(text.as_bytes())?;
    found.push(b'\n')?;
    Ok(())
}

// What comes after a word and a blank at the begin of a text.
fn after_word<'t>(text: &'t str, word: &str) -> Option<&'t str> {
    let rest = text.strip_prefix(word)?;
    if rest.starts_with(' ') || rest.starts_with('\t') {
        return Some(rest);
    }
    None
}

// Adds the lines of the files that a line includes.
fn include(
    rt: &HostRuntime,
    root: &str,
    line: &Line,
    patterns: &str,
    pending: &mut Pending,
) -> Result<(), FindError> {
    let mut files = Vec::new(rt.alloc());
    for pattern in patterns.split_whitespace() {
        let mut own = files_of(rt, root, line.folder.as_str(), pattern)?;
        own.sort()?;
        files.append(&mut own)?;
    }
    for file in files.iter().rev() {
        push_file(
            rt,
            root,
            file.as_str(),
            line.depth.saturating_add(1),
            pending,
        )?;
    }
    Ok(())
}

// The paths of the files of a pattern, which may have a star in the name of the file.
fn files_of(
    rt: &HostRuntime,
    root: &str,
    folder: &str,
    pattern: &str,
) -> Result<Vec<String>, FindError> {
    let whole = if pattern.starts_with('/') {
        String::from_str(rt.alloc(), pattern)?
    } else {
        with_slash(rt, folder, pattern).map_err(|_| FindError::Memory)?
    };
    let mut files = Vec::new(rt.alloc());
    let (folder, name) = whole.as_str().rsplit_once('/').unwrap_or(("", ""));
    let Some((front, back)) = name.split_once('*') else {
        files.push(whole)?;
        return Ok(files);
    };
    let Ok(names) = names_in(rt, root, folder) else {
        return Ok(files);
    };
    for name in &names {
        if is_between(name.as_str(), front, back) {
            files.push(with_slash(rt, folder, name.as_str()).map_err(|_| FindError::Memory)?)?;
        }
    }
    Ok(files)
}

// The names of the files in a folder.
fn names_in(rt: &HostRuntime, root: &str, folder: &str) -> io::Result<Vec<String>> {
    let real = system_path(rt, root, folder)?;
    let mut names = Vec::new(rt.alloc());
    for entry in fs::read_dir(rt, real.as_str())? {
        names.push(String::from_str(rt.alloc(), entry?.file_name())?)?;
    }
    Ok(names)
}

// Whether a name begins and ends with these texts, and is not hidden.
fn is_between(name: &str, front: &str, back: &str) -> bool {
    match name.strip_prefix(front) {
        Some(rest) => rest.ends_with(back) && !name.starts_with('.'),
        None => false,
    }
}
