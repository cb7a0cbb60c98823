//! The objects of a process: the program and its libraries, with their files, and where they are loaded.

ghost use Rattle.std.specs.Prelude.{◌≡◌, ◌<◌, ◌≤◌, MatchResult, Some, ℕ, length, slice_get, take};
ghost use Rattle.elf_base.specs.FileHeader.{header_of};
ghost use Rattle.elf_c.specs.LoadObjects.{AreImagesOf, AreObjectsOf, ArePadded, ArePlacesOf};
ghost use Rattle.elf_c.specs.LoadObjects.{ArePlansOf, GivesOrFails, IsFailedAt, IsUnplannedAt};
ghost use Rattle.elf_c.specs.LoadObjects.{IsPlanFor, LacksPlan};
ghost use Rattle.elf_c.specs.LoadObjects.{as_failure, failed_alone, failed_at, failed_in};
ghost use Rattle.elf_c.specs.LoadObjects.{failed_words};
ghost use Rattle.elf_c.specs.LoadObjects.{is_first_narrow, is_narrow_header, load_place, when_of};

use crate::load_plans::limit_of;
use crate::status::{AnyError, Numbered, OK};
use elf_base::bytes::Record;
use elf_linking::view::LinkedSymbol;
use elf_linking::{DynamicObject, LinkError};
use elf_loading::{Binding, LoadError, LoadPlan, Place, WordError};
use xmas_elf::ElfFile;

/// The most objects that a call takes.
pub const MOST_OBJECTS: usize = 64;

/// An object of a process: its file, and where it is loaded.
#[repr(C)]
#[derive(Clone, Copy, Debug)]
pub struct LoadObject<'a> {
    /// The bytes of the file.
    pub file: &'a [u8],
    /// Its image after relocation, if bytes of it are copied to another; otherwise it may be empty.
    pub image: &'a [u8],
    /// The number that is added to its addresses.
    pub base: u64,
    /// The number of its module of thread-local storage.
    pub module: u64,
    /// The offset of its thread-local storage from the thread pointer, modulo 2^64.
    pub thread: u64,
}

// Why the objects of a process can't be read, checked or relocated.
#[derive(Clone, Copy, Debug)]
pub(crate) struct Failure {
    // The error.
    pub(crate) error: AnyError,
    // The index of the object that has it, if one has.
    pub(crate) object: Option<usize>,
    // The index of the relocation of this object that has it, if one has.
    pub(crate) relocation: Option<u64>,
}

// The error of the object at an index.
pub(crate) fn failed_at(error: AnyError, index: usize) -> Failure
    ensures { result ≡ failed_at error index }
{
    Failure {
        error,
        object: Some(index),
        relocation: None,
    }
}

// An error that no object has.
pub(crate) fn failed_alone(error: AnyError) -> Failure
    ensures { result ≡ failed_alone error }
{
    Failure {
        error,
        object: None,
        relocation: None,
    }
}

// The error of the words of the object at an index.
pub(crate) fn failed_in(found: WordError, of: usize) -> Failure
    ensures { result ≡ failed_in found of }
{
    Failure {
        error: AnyError::Load(found.error),
        object: Some(of),
        relocation: found.relocation,
    }
}

// The error of the check or the relocation of the object at an index. No object has it if the index is that
// of none, or if the marks or the image are not of the size that is wanted.
fn failed_words(found: WordError, of: usize) -> Failure
    ensures { result ≡ failed_words found of }
{
    match found.error {
        LoadError::Link(LinkError::ObjectIndex) | LoadError::FewMarks | LoadError::ImageSize => {
            failed_alone(AnyError::Load(found.error))
        }
        _ => failed_in(found, of),
    }
}

// The result of the check or the relocation of the object at an index.
pub(crate) fn as_failure<T: Copy>(answer: Result<T, WordError>, of: usize) -> Result<T, Failure>
    ensures { result ≡ as_failure answer of }
{
    match answer {
        Ok(value) => Ok(value),
        Err(found) => Err(failed_words(found, of)),
    }
}

// Stores the value, or the indices of the object and of the relocation with an error.
pub(crate) fn give_or_fail<T: Copy>(
    answer: Result<T, Failure>,
    out: &mut T,
    failed: &mut u64,
    relocation: &mut u64,
) -> u32
    ensures { GivesOrFails answer out.old failed.old relocation.old result out.new failed.new
        relocation.new }
{
    match answer {
        Ok(value) => {
            *out = value;
            OK
        }
        Err(failure) => {
            if let Some(object) = failure.object {
                *failed = object as u64;
            }
            if let Some(index) = failure.relocation {
                *relocation = index;
            }
            failure.error.number()
        }
    }
}

// When jump slots get their symbols; 1 means when a function is called first.
#[inline(always)]
pub(crate) fn when_of(lazy: u32) -> Binding
    ensures { result ≡ when_of lazy }
{
    if lazy == 1 {
        Binding::Lazy
    } else {
        Binding::Now
    }
}

// Whether the first file is of class 32.
pub(crate) fn is_first_narrow(loads: &[LoadObject<'_>]) -> bool
    ensures { result ≡ is_first_narrow loads.now }
{
    match loads.first() {
        Some(load) => is_narrow(load.file),
        None => false,
    }
}

// Whether bytes begin with a header of class 32.
fn is_narrow(bytes: &[u8]) -> bool
    ensures { result ≡ is_narrow_header (header_of bytes.now) }
{
    match ElfFile::new(bytes) {
        Ok(file) => file.header.pt1.class.raw() == 1,
        Err(_) => false,
    }
}

// The objects in a room for the most; after them the first again.
fn padded<'a>(loads: &[LoadObject<'a>]) -> [LoadObject<'a>; MOST_OBJECTS]
    requires some { 0 < length loads.now }
    requires fit { length loads.now ≤ MOST_OBJECTS }
    ensures { ArePadded loads.now result (length loads.now) }
{
    let mut all = [loads[0]; MOST_OBJECTS];
    for index in 0..loads.len() {
        all[index] = loads[index];
    }
    all
}

// A room for the most objects.
#[derive(Drop)]
pub(crate) struct Objects<'a, E: Record> {
    pub(crate) all: [DynamicObject<'a, E>; MOST_OBJECTS],
}

// The objects of the files in their order; after them the first again. The error is that of the file at an
// index.
pub(crate) fn objects_of<'a, E: LinkedSymbol>(
    loads: &[LoadObject<'a>],
) -> Result<Objects<'a, E>, (usize, LinkError)>
    requires some { 0 < length loads.now }
    requires fit { length loads.now ≤ MOST_OBJECTS }
    ensures { MatchResult result
        (λ objects. AreObjectsOf E.CLASS E.SIZE loads.now (take (length loads.now) objects.all))
        (λ failed. IsFailedAt {E = E} E.Record E.CLASS E.SIZE loads.now failed.0 failed.1) }
{
    let first = match DynamicObject::<E>::of_bytes(loads[0].file) {
        Ok(first) => first,
        Err(error) => return Err((0, error)),
    };
    let mut objects = [first; MOST_OBJECTS];
    for index in 1..loads.len() {
        match DynamicObject::of_bytes(loads[index].file) {
            Ok(object) => objects[index] = object,
            Err(error) => return Err((index, error)),
        }
    }
    Ok(Objects { all: objects })
}

// The plan of the file of an object.
fn read_plan<'a, E: LinkedSymbol>(
    object: &DynamicObject<'a, E>,
    page: u64,
    limit: u64,
) -> Result<LoadPlan<'a>, LoadError>
    requires { 0 < page }
    ensures { MatchResult result (IsPlanFor page limit object.now) (LacksPlan page limit object.now) }
{
    let file = object.file();
    LoadPlan::check_load(&file, page, limit_of(&file, limit))
}

// A room for the most plans.
#[derive(Drop)]
pub(crate) struct Plans<'a> {
    pub(crate) all: [LoadPlan<'a>; MOST_OBJECTS],
}

// The plans of the objects in their order; after them that of the first again. The error is that of the
// object at an index.
pub(crate) fn plans_of<'a, E: LinkedSymbol>(
    objects: &[DynamicObject<'a, E>],
    page: u64,
    limit: u64,
) -> Result<Plans<'a>, (usize, LoadError)>
    requires paged { 0 < page }
    requires some { 0 < length objects.now }
    requires fit { length objects.now ≤ MOST_OBJECTS }
    ensures { MatchResult result
        (λ plans. ArePlansOf page limit objects.now (take (length objects.now) plans.all))
        (λ failed. IsUnplannedAt page limit objects.now failed.0 failed.1) }
{
    let first = match read_plan(&objects[0], page, limit) {
        Ok(first) => first,
        Err(error) => return Err((0, error)),
    };
    let mut plans = [first; MOST_OBJECTS];
    for index in 1..objects.len() {
        match read_plan(&objects[index], page, limit) {
            Ok(plan) => plans[index] = plan,
            Err(error) => return Err((index, error)),
        }
    }
    Ok(Plans { all: plans })
}

// The place of an object.
fn place_of(load: LoadObject<'_>) -> Place
    ensures { result ≡ load_place load.entry }
{
    Place {
        base: load.base,
        module: load.module,
        thread: load.thread,
    }
}

// The places of the objects in their order; after them that of one of them again.
pub(crate) fn places_of(loads: &[LoadObject<'_>]) -> [Place; MOST_OBJECTS]
    requires some { 0 < length loads.now }
    requires fit { length loads.now ≤ MOST_OBJECTS }
    ensures { ArePlacesOf loads.now (take (length loads.now) result) }
{
    padded(loads).map(|load| place_of(load))
}

// The images of the objects in their order; after them that of one of them again.
pub(crate) fn images_of<'a>(loads: &[LoadObject<'a>]) -> [&'a [u8]; MOST_OBJECTS]
    requires some { 0 < length loads.now }
    requires fit { length loads.now ≤ MOST_OBJECTS }
    ensures { AreImagesOf loads.now (take (length loads.now) result) }
{
    padded(loads).map(|load| load.image)
}
