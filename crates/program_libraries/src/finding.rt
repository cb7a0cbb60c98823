//! What all searches for the libraries of programs share: the settings, the cache and the files that
//! were read.

use crate::conf::directories;
use crate::error::{FindError, unread};
use crate::processor::{Processor, UNKNOWN, own_processor};
use crate::search::find_within;
use crate::store::{StoredFile, bytes_at, no_file};
use crate::trees::Tree;
use elf_search::cache::Cache;
use std::{env, io};

/// How the libraries of programs are found.
#[derive(Clone, Copy, Debug, Drop)]
pub struct Settings<'s> {
    /// The folder under which all paths of the other system are; empty for this system.
    pub root: &'s str,
    /// The value of LD_LIBRARY_PATH.
    pub library_path: &'s str,
    /// The cache of libraries.
    pub cache: CacheFile<'s>,
}

/// Which cache of libraries is used.
#[derive(Clone, Copy, Debug, Drop, PartialEq, Eq)]
pub enum CacheFile<'s> {
    /// That of the system: `/etc/ld.so.cache`. Where a root has none, and for a machine whose entries there
    /// aren't known, the directories of `/etc/ld.so.conf`.
    Own,
    /// The file at a path of this system.
    At(&'s str),
    /// None.
    NoCache,
}

/// What all searches share.
#[derive(Drop)]
pub(crate) struct Shared<'s> {
    pub settings: Settings<'s>,
    pub processor: Processor,
    // The bytes of the cache; empty if there is none.
    pub cache: Vec<u8>,
    // Whether they are one, or this system is searched, which has no directories in its place.
    pub has_cache: bool,
    // The directories in place of a cache.
    pub conf: Vec<u8>,
    // The current directory; empty if it is the root.
    pub directory: String,
}

/// Finds the libraries of programs. Each file is read once.
#[derive(Drop)]
pub struct Finder<'s> {
    shared: Shared<'s>,
    files: Vec<StoredFile>,
    // The index of the program that was searched for last, if its file is no library's.
    program: Option<usize>,
}

// The first number of objects for which there is memory, and how often it is doubled.
const FIRST_ROOM: usize = 512;

const DOUBLINGS: usize = 16;

impl<'s> Finder<'s> {
    /// Reads the cache and what the processor has.
    ///
    /// Errors: `Unread` if a cache is named that can't be read; `Memory`.
    pub fn new(rt: &HostRuntime, settings: Settings<'s>) -> Result<Finder<'s>, FindError> {
        let processor = if settings.root.is_empty() {
            own_processor(rt)
        } else {
            UNKNOWN
        };
        let cache = cache_bytes(rt, &settings)?;
        let has_cache = settings.root.is_empty() || Cache::read(&cache).is_ok();
        let conf = if settings.cache == CacheFile::Own {
            directories(rt, settings.root)?
        } else {
            Vec::new(rt.alloc())
        };
        let directory = match current_directory(rt, settings.root) {
            Ok(directory) => directory,
            Err(_) => String::new(rt.alloc()),
        };
        let shared = Shared {
            settings,
            processor,
            cache,
            has_cache,
            conf,
            directory,
        };
        let files = Vec::new(rt.alloc());
        Ok(Finder {
            shared,
            files,
            program: None,
        })
    }

    /// The files that were read. The next `find` gives up the bytes of the program.
    pub fn files(&self) -> &[StoredFile] {
        &self.files
    }

    /// The program at a path with its libraries.
    ///
    /// Errors: `Unread` if the program can't be read; `InFile` for the first file that can't be loaded,
    /// but not one that an auxiliary entry asks for; `Memory`.
    pub fn find(&mut self, rt: &HostRuntime, path: &str) -> Result<Tree, FindError> {
        self.give_up_program(rt);
        let first = self.files.len();
        let found = self.found(rt, path);
        self.program = if self.files.len() > first {
            Some(first)
        } else {
            None
        };
        found
    }

    // The program at a path with its libraries.
    fn found(&mut self, rt: &HostRuntime, path: &str) -> Result<Tree, FindError> {
        let mut room = FIRST_ROOM;
        for _ in 0..DOUBLINGS {
            if let Some(tree) = find_within(rt, &self.shared, &mut self.files, path, room)? {
                return Ok(tree);
            }
            room = room.saturating_mul(2);
        }
        Err(FindError::Memory)
    }

    // Gives up the bytes of the program that was searched for last. If it is a library too, it is read anew.
    fn give_up_program(&mut self, rt: &HostRuntime) {
        if let Some(place) = self.program {
            if let Some(file) = self.files.get_mut(place) {
                *file = no_file(rt.alloc());
            }
        }
    }
}

// The bytes of the cache; none if there is none.
fn cache_bytes(rt: &HostRuntime, settings: &Settings<'_>) -> Result<Vec<u8>, FindError> {
    let (bytes, path) = match settings.cache {
        CacheFile::Own => (bytes_at(rt, settings.root, "/etc/ld.so.cache"), None),
        CacheFile::At(path) => (bytes_at(rt, "", path), Some(path)),
        CacheFile::NoCache => (None, None),
    };
    match (bytes, path) {
        (Some(bytes), _) => Ok(bytes),
        (None, Some(path)) => Err(unread(rt.alloc(), path)),
        (None, None) => Ok(Vec::new(rt.alloc())),
    }
}

// The current directory, without a slash at its end.
fn current_directory(rt: &HostRuntime, root: &str) -> io::Result<String> {
    if !root.is_empty() {
        return Ok(String::new(rt.alloc()));
    }
    let directory = env::current_dir(rt)?.into_string();
    if directory.as_str() == "/" {
        return Ok(String::new(rt.alloc()));
    }
    Ok(directory)
}
