//! The paths at which a debug file may be.

use crate::tests::want::want_at;
use elf_debug::{DebugHow, DebugPaths, debug_paths};
use std::alloc::{AllocError, Global};

const DIRECTORY: &[u8] = b"/usr/lib/debug";

// How each file is found, and its path, a line for each.
fn lines(alloc: Global, paths: DebugPaths<'_>) -> Result<Vec<u8>, AllocError> {
    let mut text = Vec::new(alloc);
    for one in paths {
        let how: &[u8] = match one.how {
            DebugHow::BuildId => b"id ",
            DebugHow::Folder => b"folder ",
            DebugHow::Subfolder => b"subfolder ",
            DebugHow::Directory => b"directory ",
        };
        text.extend_from_slice(how)?;
        for byte in one.path {
            text.push(byte)?;
        }
        text.push(b'\n')?;
    }
    Ok(text)
}

type Row = (
    &'static str,
    Option<&'static [u8]>,
    Option<&'static [u8]>,
    &'static [u8],
    &'static [u8],
);

// The first row is the example of gdb's manual.
const ROWS: &[Row] = &[
    (
        "the manual",
        Some(b"\xab\xcd\xef\x12\x34"),
        Some(b"ls.debug"),
        b"/usr/bin/ls",
        b"id /usr/lib/debug/.build-id/ab/cdef1234.debug
folder /usr/bin/ls.debug
subfolder /usr/bin/.debug/ls.debug
directory /usr/lib/debug/usr/bin/ls.debug
",
    ),
    ("neither", None, None, b"/usr/bin/ls", b""),
    (
        "a build id",
        Some(b"\x00\x09\xa0"),
        None,
        b"ls",
        b"id /usr/lib/debug/.build-id/00/09a0.debug\n",
    ),
    ("a build id of one byte", Some(b"\xab"), None, b"/ls", b""),
    (
        "a relative path",
        None,
        Some(b"ls.debug"),
        b"bin/ls",
        b"folder bin/ls.debug\nsubfolder bin/.debug/ls.debug\n",
    ),
    (
        "no folder",
        None,
        Some(b"ls.debug"),
        b"ls",
        b"folder ls.debug\nsubfolder .debug/ls.debug\n",
    ),
];

#[test]
fn paths_are_those_of_gdb(rt: HostRuntime) -> Result<(), AllocError> {
    for &(row, id, link, path, wanted) in ROWS {
        let found = lines(rt.alloc(), debug_paths(id, link, path, DIRECTORY))?;
        want_at(&rt, row, found.as_slice(), wanted);
    }
    Ok(())
}
