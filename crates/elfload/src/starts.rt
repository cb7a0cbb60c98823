//! What runs when a program starts: the functions of each file, in the order in which glibc runs them.

ghost use Rattle.std.specs.Prelude.{◌≡◌, ◌<◌, ◌≤◌, ◌++◌, ◌∷◌, [], IfSome, IsFalse, IsTrue, MatchResult, length, ⊤};
ghost use Rattle.elfload.specs.Starts.{AreStartsFailed, AreStartsOf, IsArrayError, IsArrayOf, IsGroup, IsPartError};
ghost use Rattle.elfload.specs.Starts.{IsPartOf, IsStepFailed, numbered, object_slots, single, start_of};
ghost use Rattle.program_ends.specs.Stops.{IsStop};
ghost use Rattle.program_ends.specs.declared.Stop.TheVariants as stops_are;

use crate::arrays::{object_slots, read_values};
use crate::steps::{Part, Step};
use elf_linking::DynamicObject;
use elf_linking::view::{
    DT_INIT, DT_INIT_ARRAY, DT_INIT_ARRAYSZ, DT_PREINIT_ARRAY, DT_PREINIT_ARRAYSZ, LinkedSymbol,
};
use elf_loading::{LoadError, Origin, Value};
use linking_programs::{Failed, Input};
use program_ends::Stop;
use std::alloc::Global;

/// A function that runs.
#[derive(Clone, Copy)]
pub(crate) struct Start<'s> {
    // The path of its file, and the step.
    pub(crate) path: &'s str,
    pub(crate) step: Step,
    // Its index in an array.
    pub(crate) index: Option<usize>,
    // Its address.
    pub(crate) value: Value,
}

/// The functions that run in these steps, of objects that are those of the inputs.
pub(crate) fn read_starts<'s, E: LinkedSymbol>(
    alloc: Global,
    steps: &[Step],
    inputs: &'s [Input<'_>],
    objects: &[DynamicObject<'_, E>],
) -> Result<Vec<Start<'s>>, Stop<Failed<'s, LoadError>>>
    requires { length objects.now ≡ length inputs.now }
    ensures { MatchResult result
        (λ starts. AreStartsOf E.fields inputs.now objects.now steps.now starts.items)
        (IsStop (AreStartsFailed E.fields inputs.now objects.now steps.now) ⊥ ⊤) }
{
    let mut starts = Vec::new(alloc);
    for index in 0..steps.len() {
        match read_step(alloc, steps[index], inputs, objects) {
            Ok(group) => match with_group(starts, &group) {
                Some(more) => starts = more,
                None => return Err(Stop::Memory),
            },
            Err(stop) => return Err(stop),
        }
    }
    Ok(starts)
}

// Some functions and more; `None` if there is no memory for these.
fn with_group<'s>(starts: Vec<Start<'s>>, group: &[Start<'s>]) -> Option<Vec<Start<'s>>>
    ensures { IfSome result (λ more. more.items ≡ starts.entry.items ++ group.now) }
{
    let mut starts = starts;
    match starts.extend_from_slice(group) {
        Ok(()) => Some(starts),
        Err(_) => None,
    }
}

// The functions that run in a step; none if no file has its index.
#[tactic(auto, using(crate::proofs::StartParts::no_object))]
fn read_step<'s, E: LinkedSymbol>(
    alloc: Global,
    step: Step,
    inputs: &'s [Input<'_>],
    objects: &[DynamicObject<'_, E>],
) -> Result<Vec<Start<'s>>, Stop<Failed<'s, LoadError>>>
    requires same { length objects.now ≡ length inputs.now }
    ensures { MatchResult result (λ starts. IsGroup E.fields inputs.now objects.now step starts.items)
        (IsStop (IsStepFailed E.fields inputs.now objects.now step) ⊥ ⊤) }
{
    if is_below(step.of, objects.len()) {
        return read_at(alloc, step, step.of, inputs, objects);
    }
    Ok(Vec::new(alloc))
}

// Whether an index is below a number.
fn is_below(index: usize, count: usize) -> bool
    ensures yes { IsTrue result → index < count }
    ensures no { IsFalse result → count ≤ index }
{
    index < count
}

// The functions that run in a step, of the file at its index.
fn read_at<'s, E: LinkedSymbol>(
    alloc: Global,
    step: Step,
    of: usize,
    inputs: &'s [Input<'_>],
    objects: &[DynamicObject<'_, E>],
) -> Result<Vec<Start<'s>>, Stop<Failed<'s, LoadError>>>
    requires same { length objects.now ≡ length inputs.now }
    requires below { of < length objects.now }
    requires own { step.of ≡ of }
    ensures { MatchResult result (λ starts. IsGroup E.fields inputs.now objects.now step starts.items)
        (IsStop (IsStepFailed E.fields inputs.now objects.now step) ⊥ ⊤) }
{
    let path = inputs[of].path;
    read_part(alloc, path, step, objects, &objects[of])
}

// The functions that run in a step, of its object.
fn read_part<'s, E: LinkedSymbol>(
    alloc: Global,
    path: &'s str,
    step: Step,
    objects: &[DynamicObject<'_, E>],
    object: &DynamicObject<'_, E>,
) -> Result<Vec<Start<'s>>, Stop<Failed<'s, LoadError>>>
    ensures { MatchResult result
        (λ starts. IsPartOf E.fields objects.now object.now path.entry step step.part starts.items)
        (IsStop (λ failed. (failed.path ≡ path.entry)
        × IsPartError E.fields objects.now step.of object.now step.part failed.error) ⊥ ⊤) }
{
    match step.part {
        Part::Preinit => {
            let (array, size) = (DT_PREINIT_ARRAY, DT_PREINIT_ARRAYSZ);
            read_array(alloc, path, step, objects, object, array, size)
        }
        Part::Init => single(alloc, path, step, object.view().entry(DT_INIT)),
        Part::InitArray => {
            let (array, size) = (DT_INIT_ARRAY, DT_INIT_ARRAYSZ);
            read_array(alloc, path, step, objects, object, array, size)
        }
        Part::Entry => {
            let entry = object.file().header.pt2.entry_point();
            single(alloc, path, step, Some(entry))
        }
    }
}

// The function at an address of a file, if there is one.
fn single<'s, F>(
    alloc: Global,
    path: &'s str,
    step: Step,
    address: Option<u64>,
) -> Result<Vec<Start<'s>>, Stop<F>>
    ensures { MatchResult result (λ starts. starts.items ≡ single path.entry step address)
        (λ stop. stop ≡ stops_are.Memory) }
{
    match address {
        Some(offset) => {
            let origin = Origin::Base(step.of);
            with_start(
                Vec::new(alloc),
                path,
                step,
                None,
                Value::Sum { origin, offset },
            )
        }
        None => Ok(Vec::new(alloc)),
    }
}

// Some functions and one more.
fn with_start<'s, F>(
    starts: Vec<Start<'s>>,
    path: &'s str,
    step: Step,
    index: Option<usize>,
    value: Value,
) -> Result<Vec<Start<'s>>, Stop<F>>
    ensures { MatchResult result (λ more. more.items
        ≡ starts.entry.items ++ (start_of path.entry step index value ∷ []))
        (λ stop. stop ≡ stops_are.Memory) }
{
    let mut starts = starts;
    let start = Start {
        path,
        step,
        index,
        value,
    };
    match starts.push(start) {
        Ok(()) => Ok(starts),
        Err(_) => Err(Stop::Memory),
    }
}

// The functions of an array, by its words after relocation. Two entries of the dynamic segment have its address and its size.
fn read_array<'s, E: LinkedSymbol>(
    alloc: Global,
    path: &'s str,
    step: Step,
    objects: &[DynamicObject<'_, E>],
    object: &DynamicObject<'_, E>,
    array: u64,
    size: u64,
) -> Result<Vec<Start<'s>>, Stop<Failed<'s, LoadError>>>
    ensures { let slots = object_slots object.now array size in MatchResult result
        (λ starts. IsArrayOf E.fields objects.now object.now path.entry step slots starts.items)
        (IsStop (λ failed. (failed.path ≡ path.entry)
        × IsArrayError E.fields objects.now step.of object.now slots failed.error) ⊥ ⊤) }
{
    let slots = object_slots(object, array, size);
    match read_values(alloc, path, objects, object, step.of, &slots) {
        Ok(values) => {
            let other = Start {
                path,
                step,
                index: None,
                value: Value::Unchanged,
            };
            number_all(alloc, other, &values)
        }
        Err(stop) => Err(stop),
    }
}

// A function for each of these values, by its index, of the file and the step of another one.
fn number_all<'s, F>(
    alloc: Global,
    other: Start<'s>,
    values: &[Value],
) -> Result<Vec<Start<'s>>, Stop<F>>
    ensures { MatchResult result (λ starts. starts.items
        ≡ numbered other.entry.path other.entry.step 0 values.now)
        (λ stop. stop ≡ stops_are.Memory) }
{
    let mut starts = Vec::new(alloc);
    for index in 0..values.len() {
        match with_start(starts, other.path, other.step, Some(index), values[index]) {
            Ok(more) => starts = more,
            Err(stop) => return Err(stop),
        }
    }
    Ok(starts)
}
