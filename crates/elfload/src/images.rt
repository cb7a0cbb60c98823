//! Whether the words of each file can be written to its memory.

ghost use Rattle.std.specs.Prelude.{◌≡◌, ◌<◌, ◌≤◌, ◌-◌, ◌*◌, IfErr, IfNone, IfOk, IfSome, MatchResult, length, ⊤};
ghost use Rattle.elf_linking.specs.DynamicObject.{object_file};
ghost use Rattle.elfload.specs.Images.{AreAllChecked, ArePlansOf, IsChecked};
ghost use Rattle.elfload.specs.Images.{IsImageGood, IsImageError, IsPlanFor, IsPlanMissing};
ghost use Rattle.elfload.specs.Images.{IsFailedAt, IsWordsError, LacksPlan};
ghost use Rattle.elfload.specs.declared.images.TheConstants.{MOST_MARKS};
ghost use Rattle.linking_programs.specs.Files.{IsOfInput};
ghost use Rattle.program_ends.specs.Stops.{IsStop};

use crate::plans::limit_of;
use elf_linking::DynamicObject;
use elf_linking::scope::Scope;
use elf_linking::view::LinkedSymbol;
use elf_loading::{LoadError, LoadPlan, LoadScope, Span};
use linking_programs::{Failed, Input, check_object as check_symbols, failure_at};
use program_ends::Stop;
use std::alloc::Global;

// The most bytes of marks: those of a span of 4 GB.
const MOST_MARKS: u64 = 0x2000_0000;

// The plans of the files of all objects, which are those of the inputs.
pub(crate) fn read_plans<'s, 'a, E: LinkedSymbol>(
    alloc: Global,
    page: u64,
    inputs: &'s [Input<'_>],
    objects: &[DynamicObject<'a, E>],
) -> Result<Vec<LoadPlan<'a>>, Stop<Failed<'s, LoadError>>>
    requires paged { 0 < page }
    requires same { length objects.now ≡ length inputs.now }
    ensures plans { IfOk result (λ plans. ArePlansOf page objects.now plans.items) }
    ensures count { IfOk result (λ plans. length plans.items ≡ length objects.now) }
    ensures failed { IfErr result (IsStop (IsPlanMissing page inputs.now objects.now) ⊥ ⊤) }
{
    let mut plans = Vec::new(alloc);
    for index in 0..objects.len() {
        match read_plan(page, &objects[index]) {
            Ok(plan) => {
                if plans.push(plan).is_err() {
                    return Err(Stop::Memory);
                }
            }
            Err(error) => return Err(failure_at(inputs, index, error)),
        }
    }
    Ok(plans)
}

// The plan of the file of an object.
fn read_plan<'a, E: LinkedSymbol>(
    page: u64,
    object: &DynamicObject<'a, E>,
) -> Result<LoadPlan<'a>, LoadError>
    requires { 0 < page }
    ensures { MatchResult result (IsPlanFor page object.now)
        (LacksPlan page (object_file object.now)) }
{
    let file = object.file();
    match limit_of(&file.header) {
        Some(limit) => LoadPlan::check_load(&file, page, limit),
        None => Err(LoadError::Machine),
    }
}

// Checks the symbols and the words of all objects.
pub(crate) fn check_images<'s, E: LinkedSymbol>(
    alloc: Global,
    inputs: &'s [Input<'_>],
    objects: &[DynamicObject<'_, E>],
    plans: &[LoadPlan<'_>],
) -> Result<(), Stop<Failed<'s, LoadError>>>
    requires same { length objects.now ≡ length inputs.now }
    requires planned { length plans.now ≡ length objects.now }
    ensures { MatchResult result (λ _. AreAllChecked E.SIZE E.fields objects.now plans.now)
        (IsStop (IsImageError E.SIZE E.fields inputs.now objects.now plans.now) ⊥ ⊤) }
{
    for index in 0..objects.len() {
        match check_object(alloc, inputs, objects, plans, index) {
            Ok(()) => {}
            Err(stop) => return Err(stop),
        }
    }
    Ok(())
}

// Checks the symbols and the words of the object at an index.
fn check_object<'s, E: LinkedSymbol>(
    alloc: Global,
    inputs: &'s [Input<'_>],
    objects: &[DynamicObject<'_, E>],
    plans: &[LoadPlan<'_>],
    index: usize,
) -> Result<(), Stop<Failed<'s, LoadError>>>
    requires same { length objects.now ≡ length inputs.now }
    requires planned { length plans.now ≡ length objects.now }
    requires below { index < length objects.now }
    ensures { MatchResult result (λ _. IsChecked E.SIZE E.fields objects.now plans.now index)
        (IsStop (IsFailedAt E.SIZE E.fields inputs.now objects.now plans.now index) ⊥ ⊤) }
{
    match check_symbols(&objects[index]) {
        Ok(()) => check_words(alloc, inputs, objects, plans, index),
        Err(error) => Err(failure_at(inputs, index, LoadError::Link(error))),
    }
}

// Checks that the words of the object at an index can be written.
fn check_words<'s, E: LinkedSymbol>(
    alloc: Global,
    inputs: &'s [Input<'_>],
    objects: &[DynamicObject<'_, E>],
    plans: &[LoadPlan<'_>],
    index: usize,
) -> Result<(), Stop<Failed<'s, LoadError>>>
    requires same { length objects.now ≡ length inputs.now }
    requires planned { length plans.now ≡ length objects.now }
    requires below { index < length objects.now }
    ensures { MatchResult result (λ _. IsImageGood E.SIZE E.fields objects.now plans.now index)
        (IsStop (λ failed. IsOfInput inputs.now index failed
        × IsWordsError E.SIZE E.fields objects.now plans.now index failed.error) ⊥ ⊤) }
{
    let Some(size) = marks_size(plans[index].span()) else {
        return Err(Stop::Memory);
    };
    let Ok(mut marks) = vec![in alloc; 0u8; size] else {
        return Err(Stop::Memory);
    };
    let scope = Scope::new(objects);
    let planned = LoadScope::new(scope, plans);
    match planned.check_image(index, &mut marks) {
        Ok(()) => Ok(()),
        Err(error) => Err(failure_at(inputs, index, error)),
    }
}

// The number of bytes that have a bit for each byte of a span; none for more than 4 GB.
fn marks_size(span: Span) -> Option<usize>
    ensures enough { IfSome result (λ size. span.end - span.start ≤ 8 * size) }
    ensures most { IfNone result (8 * MOST_MARKS ≤ span.end - span.start) }
{
    let size = span.end.saturating_sub(span.start) / 8 + 1;
    if size > MOST_MARKS {
        None
    } else {
        Some(size as usize)
    }
}
