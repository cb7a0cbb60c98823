//! The file that is taken for a name.

use crate::error::{FindError, error_in};
use crate::rooted::system_path;
use crate::search::Search;
use crate::store::{Opened, StoredFile, open};
use elf_search::cache::{Cache, Machine};
use elf_search::candidates::{Asker, Candidate, Candidates, How, Surroundings};
use elf_search::tokens::TokenValues;
use std::alloc::{AllocError, Global};
use std::fs;

// More bytes than a path and the name of a file can have.
const MOST_BYTES: usize = 8192;

// What became of a candidate.
enum Attempt {
    // It is the file at an index, and the path has this text.
    Taken(String, usize),
    // The next one is tried.
    Next,
    // The rest of the list is left out.
    LeaveList,
}

impl<'f> Search<'f> {
    // The file that is taken for a name, its path, and how it is found.
    pub(super) fn look<'n>(
        &'n self,
        rt: &HostRuntime,
        files: &mut Vec<StoredFile>,
        asker: u32,
        name: &'n [u8],
    ) -> Result<Option<(How, String, usize)>, FindError> {
        let chain = self.chain(rt.alloc(), asker)?;
        let mut subdirectories = Vec::new(rt.alloc());
        for subdirectory in &self.subdirectories {
            subdirectories.push(subdirectory.as_slice())?;
        }
        let cached = self.cached(rt.alloc(), name)?;
        let around = Surroundings {
            environment: self.library_path(),
            program: self.program_values(),
            cache: cached,
            conf: self.conf(),
            defaults: self.system.defaults.as_bytes(),
            subdirectories: &subdirectories,
        };
        let mut candidates = Candidates::new(name, &chain, &around);
        for _ in 0..u64::MAX {
            let Some(candidate) = candidates.next() else {
                return Ok(None);
            };
            match self.attempt(rt, files, &candidate)? {
                Attempt::Taken(path, file) => return Ok(Some((candidate.how(), path, file))),
                Attempt::LeaveList => candidates.leave_list(),
                Attempt::Next => {}
            }
        }
        Ok(None)
    }

    // What an object and those that had it loaded say about the search, up to the program.
    fn chain(&self, alloc: Global, asker: u32) -> Result<Vec<Asker<'_>>, AllocError> {
        let mut chain = Vec::new(alloc);
        let mut number = asker;
        for _ in 0..self.objects.len() {
            let Some(object) = self.objects.get(number as usize) else {
                return Ok(chain);
            };
            chain.push(Asker {
                r_path: borrowed(&object.r_path),
                run_path: borrowed(&object.run_path),
                values: object.values(&self.system, self.platform),
                no_default: object.no_default,
            })?;
            if number == 0 {
                return Ok(chain);
            }
            number = object.loader.0;
        }
        Ok(chain)
    }

    // The values of tokens for the program.
    fn program_values(&self) -> TokenValues<'_> {
        match self.objects.first() {
            Some(program) => program.values(&self.system, self.platform),
            None => TokenValues {
                origin: None,
                lib: None,
                platform: None,
            },
        }
    }

    // The path that the cache has for a name; empty if it has none.
    fn cached(&self, alloc: Global, name: &[u8]) -> Result<&[u8], AllocError> {
        let shared = self.shared;
        let Ok(cache) = Cache::read(&shared.cache) else {
            return Ok(&[]);
        };
        let mut names = Vec::new(alloc);
        for own in &self.names {
            names.push(own.as_slice())?;
        }
        let machine = Machine {
            flags: self.system.flags,
            other_flags: self.system.other_flags,
            levels: self.processor.levels(),
            bits: self.system.bits | self.processor.bits(),
            platform: self.processor.platform_bit(),
            names: &names,
        };
        match cache.look_up(name, &machine) {
            Some(path) => Ok(path),
            None => Ok(&[]),
        }
    }

    // Tries to open a candidate.
    fn attempt(
        &self,
        rt: &HostRuntime,
        files: &mut Vec<StoredFile>,
        candidate: &Candidate<'_>,
    ) -> Result<Attempt, FindError> {
        let root = self.root();
        // A path that is not UTF-8 can't be opened.
        let Ok(path) = String::from_utf8(path_of(rt.alloc(), candidate)?) else {
            return Ok(Attempt::Next);
        };
        match open(rt, root, &path, (self.class, self.machine), files)? {
            Opened::Absent | Opened::PassedOver => Ok(Attempt::Next),
            Opened::Failed => {
                if leaves_list(rt, root, candidate, &path) {
                    return Ok(Attempt::LeaveList);
                }
                Ok(Attempt::Next)
            }
            Opened::Unfit(error) => Err(error_in(rt.alloc(), &path, error)),
            Opened::File(place) => Ok(Attempt::Taken(path, place)),
        }
    }
}

// The path of a candidate, of which a part is enough if it is longer than any that can be opened.
fn path_of(alloc: Global, candidate: &Candidate<'_>) -> Result<Vec<u8>, AllocError> {
    let mut bytes = Vec::new(alloc);
    for byte in candidate.path() {
        if bytes.len() >= MOST_BYTES {
            break;
        }
        bytes.push(byte)?;
    }
    Ok(bytes)
}

// Whether the rest of its list is left out after a candidate that can't be opened. A path without a search has no list.
fn leaves_list(rt: &HostRuntime, root: &str, candidate: &Candidate<'_>, path: &str) -> bool {
    candidate.how() != How::Itself
        && candidate.subdirectory().is_empty()
        && is_in_folder(rt, root, path)
}

// Whether the folder of a path is there. The current directory is.
fn is_in_folder(rt: &HostRuntime, root: &str, path: &str) -> bool {
    if !path.starts_with('/') {
        return true;
    }
    let folder = path.rsplit_once('/').unwrap_or(("", "")).0;
    let Ok(real) = system_path(rt, root, folder) else {
        return false;
    };
    match fs::metadata(rt, &real) {
        Ok(known) => known.is_dir(),
        Err(_) => false,
    }
}

fn borrowed(bytes: &Option<Vec<u8>>) -> Option<&[u8]> {
    match bytes {
        Some(bytes) => Some(bytes.as_slice()),
        None => None,
    }
}
