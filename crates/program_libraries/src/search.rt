//! The search for the libraries of a program.

use crate::contents::{
    bytes_in, check, check_program, interpreter_in, is_without_default, kind_of,
};
use crate::error::{FindError, error_in, unread};
use crate::finding::Shared;
use crate::objects::{Found, Object, entries_of, origin_of, text_in};
use crate::processor::Processor;
use crate::rooted::real_path;
use crate::store::{Opened, StoredFile, open, open_program};
use crate::systems::{System, system_of};
use crate::trees::{Tree, tree_of};
use elf_linking::view::{DT_RPATH, DT_RUNPATH, DT_SONAME};
use elf_search::SearchError;
use elf_search::names::NameKind;
use elf_search::order::Order;
use std::alloc::{AllocError, Global};
use std::io::ErrorKind;

mod look;

// The search for the libraries of a program.
#[derive(Drop)]
struct Search<'f> {
    shared: &'f Shared<'f>,
    class: u8,
    machine: u16,
    system: System,
    processor: Processor,
    // The value of `$PLATFORM`.
    platform: Option<&'static str>,
    // The active names of subdirectories, and all subdirectories.
    names: Vec<Vec<u8>>,
    subdirectories: Vec<Vec<u8>>,
    // The objects by their numbers.
    objects: Vec<Object>,
    // The interpreter of the program, as long as no entry has found it.
    interpreter: Option<Object>,
    // Its number, if one has, and whether an auxiliary or a filter entry has moved it in the list.
    interpreter_number: Option<usize>,
    is_interpreter_moved: bool,
    // The names that were missing, each with the number of objects at that time.
    missing: Vec<(usize, Vec<u8>)>,
}

// What a name is.
enum FoundName {
    // An object that is there.
    Known(usize),
    // A new one.
    New(Object),
    Missing,
    // That of an auxiliary entry whose file is an error.
    PassedOver,
}

/// The program at a path with its libraries; `None` if they are more than `room`.
pub(crate) fn find_within<'f>(
    rt: &HostRuntime,
    shared: &'f Shared<'f>,
    files: &mut Vec<StoredFile>,
    path: &str,
    room: usize,
) -> Result<Option<Tree>, FindError> {
    let mut search = Search::new(rt, shared, files, path)?;
    let mut object_words = Vec::from_elem(rt.alloc(), 0u32, room.saturating_mul(4))?;
    let mut edge_words = Vec::from_elem(rt.alloc(), 0u32, room.saturating_mul(16))?;
    let Some(count) = search.entry_count(0) else {
        return Ok(None);
    };
    let Ok(mut order) = Order::new(&mut object_words, &mut edge_words, count) else {
        return Ok(None);
    };
    for _ in 0..u32::MAX {
        let Some((asker, entry)) = order.next() else {
            break;
        };
        if !search.take_entry(rt, files, &mut order, asker, entry)? {
            return Ok(None);
        }
    }
    Ok(Some(tree_of(
        rt.alloc(),
        search.objects,
        search.interpreter,
        search.missing,
        files,
        &order,
    )?))
}

impl<'f> Search<'f> {
    // The program alone.
    fn new(
        rt: &HostRuntime,
        shared: &'f Shared<'f>,
        files: &mut Vec<StoredFile>,
        path: &str,
    ) -> Result<Search<'f>, FindError> {
        let root = shared.settings.root;
        let Opened::File(place) = open_program(rt, root, path, files)? else {
            return Err(unread(rt.alloc(), path));
        };
        let (class, machine) = kind_of(bytes_in(files, place));
        check_program(bytes_in(files, place), class, machine).map_err(|error| error_in(
            rt.alloc(),
            path,
            error,
        ))?;
        let processor = shared.processor.for_programs(class, machine);
        let system = system_of(class, machine);
        let mut search = Search {
            shared,
            class,
            machine,
            system,
            processor,
            platform: processor.platform().or(system.platform),
            names: processor.names(rt.alloc())?,
            subdirectories: processor.subdirectories(rt.alloc())?,
            objects: Vec::new(rt.alloc()),
            interpreter: None,
            interpreter_number: None,
            is_interpreter_moved: false,
            missing: Vec::new(rt.alloc()),
        };
        let origin = program_origin(rt, shared, path)?;
        let path = String::from_str(rt.alloc(), path)?;
        let program = search.object(rt.alloc(), files, path, origin, place, Found::Program)?;
        search.objects.push(program)?;
        search.interpreter = search.interpreter_object(rt, files, place)?;
        Ok(search)
    }

    // The object of a file at a path.
    fn object(
        &self,
        alloc: Global,
        files: &[StoredFile],
        path: String,
        origin: String,
        file: usize,
        how: Found,
    ) -> Result<Object, FindError> {
        let bytes = bytes_in(files, file);
        let entries = entries_of(alloc, &path, &origin, bytes, &self.system, self.platform)?;
        let r_path = own_text(alloc, &path, bytes, DT_RPATH)?;
        let run_path = own_text(alloc, &path, bytes, DT_RUNPATH)?;
        let soname = own_text(alloc, &path, bytes, DT_SONAME)?;
        Ok(Object {
            path,
            origin,
            file,
            r_path,
            run_path,
            no_default: is_without_default(bytes),
            names: Vec::new(alloc),
            soname,
            loader: (0, 0),
            how,
            kind: NameKind::Needed,
            entries,
            edges: Vec::new(alloc),
        })
    }

    // The interpreter of the program, if it can be read.
    fn interpreter_object(
        &self,
        rt: &HostRuntime,
        files: &mut Vec<StoredFile>,
        program: usize,
    ) -> Result<Option<Object>, FindError> {
        let path = match interpreter_in(bytes_in(files, program)) {
            Some(path) => String::from_str(rt.alloc(), path)?,
            None => String::from_str(rt.alloc(), self.system.interpreter)?,
        };
        let root = self.root();
        let opened = open(rt, root, &path, (self.class, self.machine), files)?;
        let Opened::File(place) = opened else {
            return Ok(None);
        };
        let origin = origin_of(rt.alloc(), self.directory(), &path)?;
        match self.object(rt.alloc(), files, path, origin, place, Found::Interpreter) {
            Ok(object) => Ok(Some(object)),
            Err(error) => none_after(error),
        }
    }

    // The root in which files are.
    fn root(&self) -> &str {
        let shared = self.shared;
        shared.settings.root
    }

    // The current directory.
    fn directory(&self) -> &str {
        let shared = self.shared;
        &shared.directory
    }

    // The value of LD_LIBRARY_PATH.
    fn library_path(&self) -> &[u8] {
        let shared = self.shared;
        shared.settings.library_path.as_bytes()
    }

    // The directories in place of a cache: where there is none, or its entries for this machine aren't known.
    fn conf(&self) -> &[u8] {
        let shared = self.shared;
        if shared.has_cache && self.system.has_cache() {
            return &[];
        }
        &shared.conf
    }

    // The number of entries of an object.
    fn entry_count(&self, object: usize) -> Option<u32> {
        u32::try_from(self.objects.get(object)?.entries.len()).ok()
    }

    // Finds what an entry of an object asks for; false if the words of the order are too few.
    fn take_entry(
        &mut self,
        rt: &HostRuntime,
        files: &mut Vec<StoredFile>,
        order: &mut Order<'_>,
        asker: u32,
        entry: u32,
    ) -> Result<bool, FindError> {
        let Some((name, kind)) = self.name_of(rt.alloc(), asker, entry)? else {
            order.missing();
            return Ok(true);
        };
        let found = match self.find_name(rt, files, order, asker, &name) {
            Ok(found) => found,
            Err(error) => passed_over(kind, error)?,
        };
        match found {
            FoundName::Missing => {
                self.missing.push((self.objects.len(), name))?;
                order.missing();
                Ok(true)
            }
            FoundName::PassedOver => {
                self.pass_over(asker, entry);
                order.missing();
                Ok(true)
            }
            FoundName::Known(number) => {
                self.note_name(number, name)?;
                self.note_move(order, kind, asker, number);
                Ok(note_known(order, kind, number))
            }
            FoundName::New(object) => self.add(order, object, name, kind, (asker, entry)),
        }
    }

    // The name in an entry of an object, if the values of its tokens are known.
    fn name_of(
        &self,
        alloc: Global,
        object: u32,
        entry: u32,
    ) -> Result<Option<(Vec<u8>, NameKind)>, AllocError> {
        let Some(object) = self.objects.get(object as usize) else {
            return Ok(None);
        };
        match object.entries.get(entry as usize) {
            Some(entry) if !entry.is_passed_over => {
                Ok(Some((Vec::from_slice(alloc, &entry.name)?, entry.kind)))
            }
            _ => Ok(None),
        }
    }

    // Notes that the loader passes over an auxiliary entry.
    fn pass_over(&mut self, asker: u32, entry: u32) {
        if let Some(object) = self.objects.get_mut(asker as usize) {
            if let Some(entry) = object.entries.get_mut(entry as usize) {
                entry.is_passed_over = true;
            }
        }
    }

    // Notes whether an entry that finds an object moves the interpreter: if that is behind the one that asks.
    fn note_move(&mut self, order: &Order<'_>, kind: NameKind, asker: u32, number: usize) {
        if kind != NameKind::Needed && self.interpreter_number == Some(number) {
            self.is_interpreter_moved = self.is_interpreter_moved
                || is_behind(order, asker, number);
        }
    }

    // Notes that an object was asked for by a name.
    fn note_name(&mut self, number: usize, name: Vec<u8>) -> Result<(), FindError> {
        if let Some(object) = self.objects.get_mut(number) {
            if !object.names.contains(&name) {
                object.names.push(name)?;
            }
        }
        Ok(())
    }

    // Adds an object that an entry found; false if the words of the order are too few.
    fn add(
        &mut self,
        order: &mut Order<'_>,
        object: Object,
        name: Vec<u8>,
        kind: NameKind,
        loader: (u32, u32),
    ) -> Result<bool, FindError> {
        let mut object = object;
        object.loader = loader;
        object.kind = kind;
        object.names.push(name)?;
        if object.how == Found::Interpreter {
            self.interpreter_number = Some(self.objects.len());
            self.is_interpreter_moved = kind != NameKind::Needed;
        }
        let Ok(count) = u32::try_from(object.entries.len()) else {
            return Ok(false);
        };
        self.objects.push(object)?;
        let added = match kind {
            NameKind::Needed => order.add(count),
            NameKind::Auxiliary | NameKind::Filter => order.add_before(count),
        };
        Ok(added.is_ok())
    }

    // What an object gets for a name.
    fn find_name(
        &mut self,
        rt: &HostRuntime,
        files: &mut Vec<StoredFile>,
        order: &Order<'_>,
        asker: u32,
        name: &[u8],
    ) -> Result<FoundName, FindError> {
        if let Some(number) = self.known(name) {
            return Ok(FoundName::Known(number));
        }
        if self.is_interpreter(name) {
            if let Some(object) = self.interpreter.take() {
                return Ok(FoundName::New(object));
            }
        }
        if let Some(number) = self.known_library(order, name) {
            return Ok(FoundName::Known(number));
        }
        let Some((how, path, file)) = self.look(rt, files, asker, name)? else {
            return Ok(FoundName::Missing);
        };
        if let Some(number) = self.with_file(file) {
            return Ok(FoundName::Known(number));
        }
        check(bytes_in(files, file)).map_err(|error| error_in(rt.alloc(), &path, error))?;
        let origin = origin_of(rt.alloc(), self.directory(), &path)?;
        let object = self.object(rt.alloc(), files, path, origin, file, Found::By(how))?;
        Ok(FoundName::New(object))
    }

    // The program or the interpreter, if it is known by a name. The program is known by an empty name. The
    // interpreter is behind it, until an entry moves it.
    fn known(&self, name: &[u8]) -> Option<usize> {
        let program = self.objects.first()?;
        if name.is_empty() || program.has_soname(name) {
            return Some(0);
        }
        let number = self.interpreter_number?;
        let interpreter = self.objects.get(number)?;
        if !self.is_interpreter_moved && interpreter.has_name(name) {
            return Some(number);
        }
        None
    }

    // Whether the interpreter that no entry has found is known by a name.
    fn is_interpreter(&self, name: &[u8]) -> bool {
        match &self.interpreter {
            Some(object) => object.has_name(name),
            None => false,
        }
    }

    // The first of the other objects in the list that is known by a name.
    fn known_library(&self, order: &Order<'_>, name: &[u8]) -> Option<usize> {
        let mut next = Some(order.first());
        for _ in 0..order.count() {
            let number = next?;
            if number > 0 && self.objects.get(number as usize)?.has_name(name) {
                return Some(number as usize);
            }
            next = order.following(number);
        }
        None
    }

    // The library with a file. The program and the interpreter have none.
    fn with_file(&self, file: usize) -> Option<usize> {
        self.objects.iter().position(|object| object.file == file
            && matches!(object.how, Found::By(_)))
    }
}

// Whether an object is behind another one in the list.
fn is_behind(order: &Order<'_>, object: u32, number: usize) -> bool {
    let mut next = order.following(object);
    for _ in 0..order.count() {
        let Some(other) = next else {
            return false;
        };
        if other as usize == number {
            return true;
        }
        next = order.following(other);
    }
    false
}

// That an entry is passed over, if it is an auxiliary one; otherwise the error.
fn passed_over(kind: NameKind, error: FindError) -> Result<FoundName, FindError> {
    if kind != NameKind::Auxiliary || matches!(&error, FindError::Memory) {
        return Err(error);
    }
    Ok(FoundName::PassedOver)
}

// No object, unless memory is short.
fn none_after(error: FindError) -> Result<Option<Object>, FindError> {
    if matches!(&error, FindError::Memory) {
        return Err(error);
    }
    Ok(None)
}

// Notes that an entry found an object that is there. It is one, so the order takes it.
fn note_known(order: &mut Order<'_>, kind: NameKind, number: usize) -> bool {
    let Ok(number) = u32::try_from(number) else {
        return false;
    };
    let noted = match kind {
        NameKind::Needed => order.found(number),
        NameKind::Auxiliary | NameKind::Filter => order.found_before(number),
    };
    noted.is_ok()
}

// The directory of the real path of a program, or else that of its path.
fn program_origin(rt: &HostRuntime, shared: &Shared<'_>, path: &str) -> Result<String, FindError> {
    match real_path(rt, shared.settings.root, path) {
        Ok(real) => Ok(origin_of(rt.alloc(), "", &real)?),
        Err(error) if error.kind() == ErrorKind::OutOfMemory => Err(FindError::Memory),
        Err(_) => Ok(origin_of(rt.alloc(), &shared.directory, path)?),
    }
}

// A copy of the bytes at the last entry with a tag of the file at a path.
fn own_text(
    alloc: Global,
    path: &str,
    bytes: &[u8],
    tag: u64,
) -> Result<Option<Vec<u8>>, FindError> {
    match text_in(bytes, tag) {
        Ok(Some(text)) => Ok(Some(Vec::from_slice(alloc, text)?)),
        Ok(None) => Ok(None),
        Err(error) => Err(error_in(alloc, path, SearchError::Link(error))),
    }
}
