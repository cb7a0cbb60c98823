//! The relocation of all objects of a process.

ghost use Rattle.std.specs.Prelude.{◌≡◌, ◌<◌, ◌≤◌, ◌+◌, ◌↔◌, ℕ, IsTrue, Result, length, take};
ghost use Rattle.elf_loading.specs.LoadScope.{loaded_objects, loaded_plans};
ghost use Rattle.elf_loading.specs.Plan.{plan_size};
ghost use Rattle.elf_c.specs.LoadAll.{AreShown, IsImageRelocated, RelocatesAll, RelocatesAllAs};
ghost use Rattle.elf_c.specs.LoadAll.{RelocatesEach, begin_at, total_size};
ghost use Rattle.elf_c.specs.LoadObjects.{GivesOrFails, when_of};
ghost use Rattle.elf_c.specs.LoadPlans.{page_of};
ghost use Rattle.elf_c.specs.declared.load_objects.Failure.{Failure};

use crate::load_objects::{
    Failure, LoadObject, MOST_OBJECTS, failed_alone, failed_at, failed_in, give_or_fail,
    is_first_narrow, objects_of, places_of, plans_of, when_of,
};
use crate::load_plans::page_of;
use crate::status::AnyError;
use elf_base::bytes::Record;
use elf_linking::LinkError;
use elf_linking::scope::Scope;
use elf_linking::view::LinkedSymbol;
use elf_loading::{Binding, LoadError, LoadPlan, LoadScope, Place, WordError};
use xmas_elf::symbol_table::{DynEntry32, DynEntry64};

// The size of the image of a plan.
fn size_of(plan: &LoadPlan<'_>) -> usize
    ensures { result ≡ plan_size plan.now }
{
    let span = plan.span();
    (span.end - span.start) as usize
}

// Whether memory has the size of all images.
#[tactic(auto, using(crate::proofs::LoadAll::begin_past))]
fn is_whole(plans: &[LoadPlan<'_>], memory: usize) -> bool
    ensures { IsTrue result ↔ (total_size plans.now ≡ memory) }
{
    let mut rest = memory;
    for index in 0..plans.len() {
        let size = size_of(&plans[index]);
        if size > rest {
            return false;
        }
        rest -= size;
    }
    rest == 0
}

// The images after the one at an index, which are one after another; the others are empty.
fn shown<'m>(plans: &[LoadPlan<'_>], of: usize, behind: &'m [u8]) -> [&'m [u8]; MOST_OBJECTS]
    requires below { of < length plans.now }
    requires fit { length plans.now ≤ MOST_OBJECTS }
    requires whole { begin_at plans.now (of + 1) + length behind.now ≡ total_size plans.now }
    ensures { AreShown plans.now of behind.now (take (length plans.now) result) }
{
    let mut images: [&[u8]; MOST_OBJECTS] = [&[]; MOST_OBJECTS];
    let mut rest = behind;
    for index in of + 1..plans.len() {
        let (image, others) = rest.split_at(size_of(&plans[index]));
        images[index] = image;
        rest = others;
    }
    images
}

// Writes the words of the object at an index to its image, which is in memory from `begin` on.
fn relocate_image<E: LinkedSymbol>(
    planned: &LoadScope<'_, '_, E>,
    of: usize,
    when: Binding,
    places: &[Place],
    begin: usize,
    memory: &mut [u8],
) -> Result<u64, WordError>
    requires below { of < length (loaded_plans planned.now).now }
    requires fit { length (loaded_plans planned.now).now ≤ MOST_OBJECTS }
    requires begin { begin ≡ begin_at (loaded_plans planned.now).now of }
    requires whole { total_size (loaded_plans planned.now).now ≡ length memory.old }
    ensures exact { IsImageRelocated E.fields (loaded_objects planned.now) (loaded_plans planned.now) when
        places.now of memory.old memory.new result }
    ensures len { length memory.new ≡ length memory.old }
{
    let plans = planned.plans();
    let size = size_of(&plans[of]);
    let (_front, rest) = memory.split_at_mut(begin);
    let (image, behind) = rest.split_at_mut(size);
    let images = shown(plans, of, behind);
    planned.write_words(of, when, places, &images[..plans.len()], image)
}

// Writes the words of all objects to their images, those of the last object first.
fn relocate_each<E: LinkedSymbol>(
    planned: &LoadScope<'_, '_, E>,
    when: Binding,
    places: &[Place],
    memory: &mut [u8],
) -> Result<u64, Failure>
    requires fit { length (loaded_plans planned.now).now ≤ MOST_OBJECTS }
    requires whole { total_size (loaded_plans planned.now).now ≡ length memory.old }
    ensures exact { RelocatesEach E.fields (loaded_objects planned.now) (loaded_plans planned.now) when
        places.now memory.old memory.new result }
    ensures len { length memory.new ≡ length memory.old }
{
    let plans = planned.plans();
    let mut begin = memory.len();
    let mut left = 0u64;
    for done in 0..plans.len() {
        let of = plans.len() - 1 - done;
        begin -= size_of(&plans[of]);
        match relocate_image(planned, of, when, places, begin, memory) {
            Ok(count) => left = left.saturating_add(count),
            Err(found) => return Err(failed_in(found, of)),
        }
    }
    Ok(left)
}

// Writes the words of all objects of one class to their images.
fn relocate_objects<E: LinkedSymbol>(
    loads: &[LoadObject<'_>],
    when: Binding,
    page: u64,
    limit: u64,
    memory: &mut [u8],
) -> Result<u64, Failure>
    requires paged { 0 < page }
    requires some { 0 < length loads.now }
    requires fit { length loads.now ≤ MOST_OBJECTS }
    ensures exact { RelocatesAllAs {E = E} E.Record E.CLASS E.SIZE E.fields loads.now when page limit
        memory.old memory.new result }
    ensures len { length memory.new ≡ length memory.old }
{
    let objects = match objects_of::<E>(loads) {
        Ok(objects) => objects,
        Err(failed) => return Err(failed_at(AnyError::Link(failed.1), failed.0)),
    };
    let count = loads.len();
    let own = &objects.all[..count];
    let plans = match plans_of(own, page, limit) {
        Ok(plans) => plans,
        Err(failed) => return Err(failed_at(AnyError::Load(failed.1), failed.0)),
    };
    let own_plans = &plans.all[..count];
    if !is_whole(own_plans, memory.len()) {
        return Err(failed_alone(AnyError::Load(LoadError::ImageSize)));
    }
    let places = places_of(loads);
    let scope = Scope::new(own);
    let planned = LoadScope::new(scope, own_plans);
    relocate_each(&planned, when, &places[..count], memory)
}

// Writes the words of all objects to their images.
fn relocate_all(
    loads: &[LoadObject<'_>],
    when: Binding,
    page: u64,
    limit: u64,
    memory: &mut [u8],
) -> Result<u64, Failure>
    requires { 0 < page }
    ensures exact { RelocatesAll ⟦<DynEntry32 as Record>⟧ ⟦<DynEntry64 as Record>⟧ loads.now when page
        limit memory.old memory.new result }
    ensures len { length memory.new ≡ length memory.old }
{
    if loads.is_empty() {
        return Err(failed_alone(AnyError::Link(LinkError::ObjectIndex)));
    }
    if loads.len() > MOST_OBJECTS {
        return Err(failed_alone(AnyError::ManyObjects));
    }
    if is_first_narrow(loads) {
        relocate_objects::<DynEntry32>(loads, when, page, limit, memory)
    } else {
        relocate_objects::<DynEntry64>(loads, when, page, limit, memory)
    }
}

/// Writes the words of all objects to their images, those of the last object first: for each the result
/// of `elf_loading::LoadScope::write_words` for the files and the places of the objects. Each file is read
/// once. The `image` of an object is not read.
///
/// `images` are the bytes that `xmas_elf_load_image` writes for each object, one image after another, in
/// the order of the objects. Bytes are copied (R_X86_64_COPY) from the images of objects after the own one.
/// `page` and `limit` are as in `xmas_elf_load_plan`, `lazy` as in `xmas_elf_relocate`. `left` is set to
/// the number of words without a number, whose bytes stay as they are.
///
/// Errors: `LinkObjectIndex` if there is no object; `ManyObjects` if there are more than 64; those of
/// `DynamicObject::read_reached`, of the first file that has one; those of `xmas_elf_load_plan`, of the
/// first file that has one; `ImageSize` if `images` is not as long as all spans; those of the library's
/// call, of the last object that has one. `left` is then unchanged, and `failed` is the index of the
/// object, if one has the error; `relocation` is the index of its relocation with the error, in the order
/// of `elf_loading::Words`, and unchanged if the error comes before those of words. Only with an error of
/// the last kind is `images` changed: the objects after that one are relocated, and its words before the
/// first that can't be written are written.
#[unsafe(no_mangle)]
pub extern "C" fn xmas_elf_relocate_all(
    objects: &[LoadObject<'_>],
    lazy: u32,
    page: u64,
    limit: u64,
    images: &mut [u8],
    left: &mut u64,
    failed: &mut u64,
    relocation: &mut u64,
) -> u32
    ensures exact { (answer : Result ℕ Failure)
        × RelocatesAll ⟦<DynEntry32 as Record>⟧ ⟦<DynEntry64 as Record>⟧ objects.now (when_of lazy)
        (page_of page) limit images.old images.new answer
        × GivesOrFails answer left.old failed.old relocation.old result left.new failed.new
        relocation.new }
    ensures len { length images.new ≡ length images.old }
{
    let when = when_of(lazy);
    let answer = relocate_all(objects, when, page_of(page), limit, images);
    give_or_fail(answer, left, failed, relocation)
}
