//! The files after their checks.

ghost use Rattle.std.specs.Prelude.{◌≡◌, MatchResult, length, map, ⊤};
ghost use Rattle.elf_linking.specs.Exports.{object_parts};
ghost use Rattle.linking_programs.specs.Checks.{ArePassed, IsCheckFailed};
ghost use Rattle.program_ends.specs.Stops.{IsStop};

use crate::{Failed, Input, failure_at};
use elf_linking::view::LinkedSymbol;
use elf_linking::{CheckedObject, DynamicObject, LinkError};
use program_ends::Stop;
use std::alloc::Global;

/// The objects, after checks that look-ups in them find what they must, and that their versions can
/// be read.
pub fn checked_objects<'a, 'f, E: LinkedSymbol>(
    alloc: Global,
    inputs: &'a [Input<'_>],
    objects: &[DynamicObject<'f, E>],
) -> Result<Vec<CheckedObject<'f, E>>, Stop<Failed<'a, LinkError>>>
    requires { length objects.now ≡ length inputs.now }
    ensures { MatchResult result (λ checked. ArePassed E.fields objects.now
        × (checked.items ≡ map (object_parts E.fields) objects.now))
        (IsStop (IsCheckFailed E.fields inputs.now objects.now) ⊥ ⊤) }
{
    let mut checked = Vec::new(alloc);
    for index in 0..objects.len() {
        match CheckedObject::of(objects[index]) {
            Ok(object) => {
                if checked.push(object).is_err() {
                    return Err(Stop::Memory);
                }
            }
            Err(error) => return Err(failure_at(inputs, index, error)),
        }
    }
    Ok(checked)
}
