//! The images of objects: the bytes of a plan, and what relocations write to them.

ghost use Rattle.std.specs.Prelude.{◌≡◌, ◌*◌, ◌<◌, ◌≤◌, ◌+◌, ℕ, Err, IfErr, IfOk, Result, length};
ghost use Rattle.std.specs.Prelude.{slice_index};
ghost use Rattle.elf_c.specs.LoadImages.{Checks, ChecksAs, Relocates, RelocatesAs, image_answer};
ghost use Rattle.elf_c.specs.LoadImages.{planned_byte};
ghost use Rattle.elf_c.specs.LoadObjects.{GivesOrFails, when_of};
ghost use Rattle.elf_c.specs.LoadPlans.{default_limit, loader_of, page_of};
ghost use Rattle.elf_c.specs.Parsed.{file_of};
ghost use Rattle.elf_c.specs.Status.{GivesHere};
ghost use Rattle.elf_c.specs.declared.load_objects.Failure.{Failure};
ghost use Rattle.elf_c.specs.declared.status.AnyError.{AnyError};

use crate::file::Parsed;
use crate::load_objects::{
    Failure, LoadObject, MOST_OBJECTS, as_failure, failed_alone, failed_at, give_or_fail,
    images_of, is_first_narrow, objects_of, places_of, plans_of, when_of,
};
use crate::load_plans::{limit_of, loader_of, page_of};
use crate::status::{AnyError, give};
use elf_base::bytes::Record;
use elf_linking::LinkError;
use elf_linking::scope::Scope;
use elf_linking::view::LinkedSymbol;
use elf_loading::{Binding, LoadPlan, LoadScope, Loader};
use xmas_elf::ElfFile;
use xmas_elf::symbol_table::{DynEntry32, DynEntry64};

// Writes the bytes of a file's plan to an image.
fn fill_image(
    file: &ElfFile<'_>,
    page: u64,
    limit: u64,
    by: Loader,
    image: &mut [u8],
) -> Result<(), AnyError>
    requires { 0 < page }
    ensures exact { result ≡ image_answer file.now page limit (length image.old) }
    ensures len { length image.new ≡ length image.old }
    ensures bytes { IfOk result (λ done. (i : ℕ) → i < length image.new
        → slice_index image.new i ≡ planned_byte file.now page by i) }
    ensures same { IfErr result (λ error. image.new ≡ image.old) }
{
    let plan = LoadPlan::check_load(file, page, limit)?;
    plan.fill(by, image)?;
    Ok(())
}

/// Writes the bytes of the span of a file's plan to `image`, as a loader maps them before relocation.
/// Byte `i` is that at the start of the span plus `i`, and 0 where no load segment has a page.
///
/// `page` and `limit` are as in `xmas_elf_load_plan`, and `loader` as in `xmas_elf_load_mappings`.
/// Errors: those of `xmas_elf_load_plan`; `ImageSize` if `image` is not as long as the span. `image` is
/// then unchanged.
#[unsafe(no_mangle)]
pub extern "C" fn xmas_elf_load_image(
    input: &[u8],
    header: &Parsed,
    page: u64,
    limit: u64,
    loader: u32,
    image: &mut [u8],
) -> u32
    ensures exact { let file = file_of input.entry header.now in
        GivesHere (image_answer file (page_of page) (default_limit file limit) (length image.old)) tt result tt }
    ensures len { length image.new ≡ length image.old }
    ensures bytes { result ≡ 0 → let file = file_of input.entry header.now in
        (i : ℕ) → i < length image.new
        → slice_index image.new i ≡ planned_byte file (page_of page) (loader_of loader) i }
    ensures same { 0 < result → image.new ≡ image.old }
{
    let file = header.file(input);
    let limit = limit_of(&file, limit);
    give(
        fill_image(&file, page_of(page), limit, loader_of(loader), image),
        &mut (),
    )
}

// Checks that the words of an object of one class can be written.
fn check_objects<E: LinkedSymbol>(
    loads: &[LoadObject<'_>],
    of: usize,
    page: u64,
    limit: u64,
    marks: &mut [u8],
) -> Result<(), Failure>
    requires paged { 0 < page }
    requires some { 0 < length loads.now }
    requires fit { length loads.now ≤ MOST_OBJECTS }
    ensures { ChecksAs {E = E} E.Record E.CLASS E.SIZE E.fields loads.now of page limit
        (8 * length marks.old) result }
{
    let objects = match objects_of::<E>(loads) {
        Ok(objects) => objects,
        Err(failed) => return Err(failed_at(AnyError::Link(failed.1), failed.0)),
    };
    let own = &objects.all[..loads.len()];
    let plans = match plans_of(own, page, limit) {
        Ok(plans) => plans,
        Err(failed) => return Err(failed_at(AnyError::Load(failed.1), failed.0)),
    };
    let scope = Scope::new(own);
    let planned = LoadScope::new(scope, &plans.all[..loads.len()]);
    as_failure(planned.check_words(of, marks), of)
}

// Checks that the words of an object can be written.
fn check(
    loads: &[LoadObject<'_>],
    of: usize,
    page: u64,
    limit: u64,
    marks: &mut [u8],
) -> Result<(), Failure>
    requires { 0 < page }
    ensures { Checks ⟦<DynEntry32 as Record>⟧ ⟦<DynEntry64 as Record>⟧ loads.now of page limit
        (8 * length marks.old) result }
{
    if loads.is_empty() {
        return Err(failed_alone(AnyError::Link(LinkError::ObjectIndex)));
    }
    if loads.len() > MOST_OBJECTS {
        return Err(failed_alone(AnyError::ManyObjects));
    }
    if is_first_narrow(loads) {
        check_objects::<DynEntry32>(loads, of, page, limit, marks)
    } else {
        check_objects::<DynEntry64>(loads, of, page, limit, marks)
    }
}

/// Checks that the words of the object at index `of` can be written before the program runs: the
/// result of `elf_loading::LoadScope::check_words` for the files of the objects. Their images and
/// numbers are not read.
///
/// `page` and `limit` are as in `xmas_elf_load_plan`. `marks` has a bit for each byte of the span of
/// the object's plan, so a byte for each eight, and one more; what it holds is overwritten.
///
/// Errors: `LinkObjectIndex` if there is no object; `ManyObjects` if there are more than 64; those of
/// `DynamicObject::read_reached`, of the first file that has one; those of `xmas_elf_load_plan`, of the
/// first file that has one; those of the check. `failed` is then the index of the object, if one has the
/// error: that of the file, or `of`. It is unchanged if none has it: with `LinkObjectIndex`, `ManyObjects`
/// and `FewMarks`. `relocation` is the index of its relocation with the error, in the order of
/// `elf_loading::Words`; it is unchanged if the error comes before those of words.
#[unsafe(no_mangle)]
pub extern "C" fn xmas_elf_check_image(
    objects: &[LoadObject<'_>],
    of: u64,
    page: u64,
    limit: u64,
    marks: &mut [u8],
    failed: &mut u64,
    relocation: &mut u64,
) -> u32
    ensures { (answer : Result (Unit {0}) Failure)
        × Checks ⟦<DynEntry32 as Record>⟧ ⟦<DynEntry64 as Record>⟧ objects.now of (page_of page) limit
        (8 * length marks.old) answer
        × GivesOrFails answer tt failed.old relocation.old result tt failed.new relocation.new }
{
    let answer = check(objects, of as usize, page_of(page), limit, marks);
    give_or_fail(answer, &mut (), failed, relocation)
}

// Writes the words of an object of one class to its image.
fn relocate_objects<E: LinkedSymbol>(
    loads: &[LoadObject<'_>],
    of: usize,
    when: Binding,
    page: u64,
    limit: u64,
    image: &mut [u8],
) -> Result<u64, Failure>
    requires paged { 0 < page }
    requires some { 0 < length loads.now }
    requires fit { length loads.now ≤ MOST_OBJECTS }
    ensures exact { RelocatesAs {E = E} E.Record E.CLASS E.SIZE E.fields loads.now of when page limit
        image.old image.new result }
    ensures len { length image.new ≡ length image.old }
{
    let objects = match objects_of::<E>(loads) {
        Ok(objects) => objects,
        Err(failed) => return Err(failed_at(AnyError::Link(failed.1), failed.0)),
    };
    let count = loads.len();
    let own = &objects.all[..count];
    let plans = match plans_of(own, page, limit) {
        Ok(plans) => plans,
        Err(failed) => return Err(failed_at(AnyError::Load(failed.1), failed.0)),
    };
    let (places, images) = (places_of(loads), images_of(loads));
    let scope = Scope::new(own);
    let planned = LoadScope::new(scope, &plans.all[..count]);
    let answer = planned.write_words(of, when, &places[..count], &images[..count], image);
    as_failure(answer, of)
}

// Writes the words of an object to its image.
fn relocate(
    loads: &[LoadObject<'_>],
    of: usize,
    when: Binding,
    page: u64,
    limit: u64,
    image: &mut [u8],
) -> Result<u64, Failure>
    requires { 0 < page }
    ensures exact { Relocates ⟦<DynEntry32 as Record>⟧ ⟦<DynEntry64 as Record>⟧ loads.now of when page
        limit image.old image.new result }
    ensures len { length image.new ≡ length image.old }
{
    if loads.is_empty() {
        return Err(failed_alone(AnyError::Link(LinkError::ObjectIndex)));
    }
    if loads.len() > MOST_OBJECTS {
        return Err(failed_alone(AnyError::ManyObjects));
    }
    if is_first_narrow(loads) {
        relocate_objects::<DynEntry32>(loads, of, when, page, limit, image)
    } else {
        relocate_objects::<DynEntry64>(loads, of, when, page, limit, image)
    }
}

/// Writes the words of the object at index `of` to its image: the result of
/// `elf_loading::LoadScope::write_words` for the files, the places and the images of the objects. `count`
/// is set to the number of words without a number, whose bytes stay as they are: results of functions,
/// and descriptors of thread-local storage.
///
/// `page` and `limit` are as in `xmas_elf_load_plan`. `image` holds the bytes that
/// `xmas_elf_load_image` writes, and is no part of the `image` of an object. `lazy` is 1 if jump slots
/// get their symbols when a function is called first, and any other number if they get them now.
///
/// Errors: `LinkObjectIndex` if there is no object; `ManyObjects` if there are more than 64; those of
/// `DynamicObject::read_reached`, of the first file that has one; those of `xmas_elf_load_plan`, of the
/// first file that has one; those of the library's call. `count` is then unchanged, the words before the
/// first that can't be written are written, and `failed` is the index of the object, if one has the error:
/// that of the file, or `of`. It is unchanged if none has it: with `LinkObjectIndex`, `ManyObjects` and
/// `ImageSize`. `relocation` is the index of its relocation with the error, in the order of
/// `elf_loading::Words`; it is unchanged if the error comes before those of words.
#[unsafe(no_mangle)]
pub extern "C" fn xmas_elf_relocate(
    objects: &[LoadObject<'_>],
    of: u64,
    lazy: u32,
    page: u64,
    limit: u64,
    image: &mut [u8],
    count: &mut u64,
    failed: &mut u64,
    relocation: &mut u64,
) -> u32
    ensures exact { (answer : Result ℕ Failure)
        × Relocates ⟦<DynEntry32 as Record>⟧ ⟦<DynEntry64 as Record>⟧ objects.now of (when_of lazy)
        (page_of page) limit image.old image.new answer
        × GivesOrFails answer count.old failed.old relocation.old result count.new failed.new
        relocation.new }
    ensures len { length image.new ≡ length image.old }
{
    let when = when_of(lazy);
    let answer = relocate(objects, of as usize, when, page_of(page), limit, image);
    give_or_fail(answer, count, failed, relocation)
}
