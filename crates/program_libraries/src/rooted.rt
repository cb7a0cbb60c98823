//! Paths under the root of another system, out of which no link and no `..` leads.

use std::io::ErrorKind;
use std::{fs, io};

// As many links in one path as Linux follows.
const MOST_LINKS: usize = 40;

// The least length of a path that Linux does not take (PATH_MAX with the zero after it).
const TOO_LONG: usize = 4096;

// More steps than the components of such a path and of its links.
const MOST_STEPS: usize = 100_000;

/// The path of this system at which the file at a path is: that path itself, or one under the root,
/// without links below it. An empty root is that of this system. In another root, a path that is not
/// absolute begins at the root.
pub(crate) fn system_path(rt: &HostRuntime, root: &str, path: &str) -> io::Result<String> {
    if root.is_empty() {
        return Ok(String::from_str(rt.alloc(), path)?);
    }
    let real = real_path(rt, root, path)?;
    Ok(joined(rt, root, real.as_str())?)
}

/// A path without links, within the root: it begins with a slash, or is empty for the root itself. As in
/// Linux, a path of 4096 bytes and more is an error, and what is before a slash must be a directory.
pub(crate) fn real_path(rt: &HostRuntime, root: &str, path: &str) -> io::Result<String> {
    if root.is_empty() {
        return Ok(fs::canonicalize(rt, path)?.into_string());
    }
    if path.len() >= TOO_LONG {
        return Err(io::Error::from(ErrorKind::InvalidFilename));
    }
    let mut done = String::new(rt.alloc());
    let mut rest = String::from_str(rt.alloc(), path)?;
    let mut links: usize = 0;
    for _ in 0..MOST_STEPS {
        let Some((component, after)) = split_component(rest.as_str()) else {
            return Ok(done);
        };
        match target_of(rt, root, done.as_str(), component)? {
            Some(_) if links >= MOST_LINKS => return Err(io::Error::from(
                ErrorKind::FilesystemLoop,
            )),
            Some(target) => {
                links = links.saturating_add(1);
                if target.as_str().starts_with('/') {
                    done.clear();
                }
                rest = continued(rt, target, after)?;
            }
            None => {
                done = entered(rt, done.as_str(), component)?;
                rest = String::from_str(rt.alloc(), after)?;
            }
        }
    }
    Err(io::Error::from(ErrorKind::FilesystemLoop))
}

// The first component of a path and what comes after it, if it has one. After a component with a slash and
// nothing else comes the directory that it must be.
fn split_component(path: &str) -> Option<(&str, &str)> {
    let path = path.trim_start_matches('/');
    if path.is_empty() {
        return None;
    }
    match path.split_once('/') {
        Some((component, after)) if after.trim_start_matches('/').is_empty() => {
            Some((component, "."))
        }
        Some(parts) => Some(parts),
        None => Some((path, "")),
    }
}

// What a component of a folder points to, if it is a link. What `.` and `..` stand in must be a directory.
fn target_of(
    rt: &HostRuntime,
    root: &str,
    folder: &str,
    component: &str,
) -> io::Result<Option<String>> {
    let folder = joined(rt, root, folder)?;
    if component == "." || component == ".." {
        if !fs::metadata(rt, folder.as_str())?.is_dir() {
            return Err(io::Error::from(ErrorKind::NotADirectory));
        }
        return Ok(None);
    }
    let path = with_slash(rt, folder.as_str(), component)?;
    if !fs::symlink_metadata(rt, path.as_str())?.is_symlink() {
        return Ok(None);
    }
    Ok(Some(fs::read_link(rt, path.as_str())?.into_string()))
}

// The folder or the file that a component of a folder is, which is no link. Above the root is the root.
fn entered(rt: &HostRuntime, folder: &str, component: &str) -> io::Result<String> {
    if component == "." {
        return Ok(String::from_str(rt.alloc(), folder)?);
    }
    if component == ".." {
        let above = folder.rsplit_once('/').unwrap_or(("", "")).0;
        return Ok(String::from_str(rt.alloc(), above)?);
    }
    with_slash(rt, folder, component)
}

// The target of a link with what comes after the link, if there is something.
fn continued(rt: &HostRuntime, target: String, after: &str) -> io::Result<String> {
    if after.is_empty() {
        return Ok(target);
    }
    with_slash(rt, target.as_str(), after)
}

// Two texts, one after the other.
pub(crate) fn joined(rt: &HostRuntime, one: &str, other: &str) -> io::Result<String> {
    let mut text = String::from_str(rt.alloc(), one)?;
    text.push_str(other)?;
    Ok(text)
}

// Two texts with a slash between them.
pub(crate) fn with_slash(rt: &HostRuntime, one: &str, other: &str) -> io::Result<String> {
    let mut text = String::from_str(rt.alloc(), one)?;
    text.push('/')?;
    text.push_str(other)?;
    Ok(text)
}
