//! Callers that ask which file's symbol a program gets for a name, by the bytes of its files.

ghost use Rattle.std.specs.Prelude.{◌≡◌, ◌↔◌, IsTrue, Ok, Result, Some, slice_get};
ghost use Rattle.elf_linking.specs.DynamicObject.{object_name_bytes};
ghost use Rattle.elf_linking.specs.References.{references_left};
ghost use Rattle.elf_linking.specs.Scope.{AreGood, BindsReference, HasNamedSymbol, scope_objects};
ghost use Rattle.elf_linking.specs.declared.error.LinkError.{LinkError};
ghost use Rattle.elf_linking.specs.declared.object.DynamicObject.{DynamicObject};
ghost use Rattle.linking_callers.specs.SecondFile.{FindsReference, IsChecked, IsLoaded};
ghost use Rattle.linking_callers.specs.SecondFile.{IsSecond, IsSecondOf, IsTo, is_of_second};
ghost use Rattle.xmas_elf.specs.First.{FindsFirst};

use elf_linking::references::{Reference, References};
use elf_linking::scope::{Bound, Scope};
use elf_linking::view::LinkedSymbol;
use elf_linking::{DynamicObject, LinkError};

// The object that was read, if look-ups in it find what they must and its versions can be read.
fn checked<'a, E: LinkedSymbol>(
    read: Result<DynamicObject<'a, E>, LinkError>,
) -> Result<DynamicObject<'a, E>, LinkError>
    ensures { IsChecked E.fields read.entry result }
{
    let object = match read {
        Ok(object) => object,
        Err(error) => return Err(error),
    };
    match object.check() {
        Ok(()) => match object.check_versions() {
            Ok(()) => Ok(object),
            Err(error) => Err(error),
        },
        Err(error) => Err(error),
    }
}

/// The dynamic symbols of the file that these bytes are, if look-ups in them find what they must and
/// their versions can be read.
///
/// Errors, the first of these: those of `DynamicObject::of_bytes`; that of `check`; that of
/// `check_versions`.
pub fn loaded_object<E: LinkedSymbol>(bytes: &[u8]) -> Result<DynamicObject<'_, E>, LinkError>
    ensures { IsLoaded E.fields E.CLASS E.SIZE bytes.now result }
{
    checked(DynamicObject::of_bytes(bytes))
}

// Whether the symbol at an index has a name that can be read and is this.
fn has_name<E: LinkedSymbol>(object: &DynamicObject<'_, E>, index: u32, name: &str) -> bool
    ensures { IsTrue result ↔ object_name_bytes E.fields object.now index ≡ Ok name.now }
{
    match object.name_bytes(index) {
        Ok(found) => found == name.as_bytes(),
        Err(_) => false,
    }
}

// The first of some references that is to a symbol with this name.
fn first_to<E: LinkedSymbol>(
    object: &DynamicObject<'_, E>,
    references: References<'_>,
    name: &str,
) -> Option<Reference>
    ensures { FindsFirst (IsTo E.fields object.now name.now) (references_left references.entry)
        result }
{
    let mut left = references;
    left.find(|reference| has_name(object, reference.symbol, name))
}

/// The first reference of an object that is to a symbol with this name, if there is one. Rejected as
/// `references` is.
#[tactic(auto, using(crate::proofs::SecondFiles::reference_found))]
pub fn first_reference<E: LinkedSymbol>(
    object: &DynamicObject<'_, E>,
    name: &str,
) -> Result<Option<Reference>, LinkError>
    ensures { FindsReference E.fields object.now name.now result }
{
    match object.references() {
        Ok(references) => Ok(first_to(object, references, name)),
        Err(error) => Err(error),
    }
}

// The symbol that a reference of the program, which is the first object, gets.
fn bound_by<E: LinkedSymbol>(scope: &Scope<'_, '_, E>, reference: &Reference) -> Option<Bound<E>>
    requires good { AreGood E.fields (scope_objects scope.now).now }
    requires named { HasNamedSymbol E.fields (scope_objects scope.now).now 0 reference.now }
    ensures { BindsReference E.fields (scope_objects scope.now).now 0 reference.now
        (Ok result) }
{
    match scope.bind(0, reference) {
        Ok(bound) => bound,
        Err(_) => unreachable!(),
    }
}

// Whether a symbol is one of the second object.
fn is_of_second<E: LinkedSymbol>(bound: &Option<Bound<E>>) -> bool
    ensures { result ≡ is_of_second bound.now }
{
    match bound {
        Some(bound) => bound.object == 1,
        None => false,
    }
}

/// Whether a program's reference to this name is bound to a symbol of the second object, its first
/// library: the first reference of the program, which is the first object of the scope, to a symbol
/// with the name. If the program has no such reference, the result is false. Rejected as `references`
/// is.
#[tactic(auto, using(crate::proofs::SecondFiles::named, crate::proofs::SecondFiles::second_bound, crate::proofs::SecondFiles::second_none, crate::proofs::SecondFiles::second_error))]
pub fn is_second<E: LinkedSymbol>(
    program: &DynamicObject<'_, E>,
    scope: &Scope<'_, '_, E>,
    name: &str,
) -> Result<bool, LinkError>
    requires good { AreGood E.fields (scope_objects scope.now).now }
    requires first { slice_get (scope_objects scope.now).now 0 ≡ Some program.now }
    ensures { IsSecond E.fields (scope_objects scope.now).now program.now name.now
        result }
{
    match first_reference(program, name) {
        Ok(Some(reference)) => Ok(is_of_second(&bound_by(scope, &reference))),
        Ok(None) => Ok(false),
        Err(error) => Err(error),
    }
}

/// Whether a program's reference to this name is bound to a symbol of its second file, as `is_second`
/// says: by the bytes of the program and of two libraries, in the order in which they are loaded.
///
/// Errors, the first of these: those of `loaded_object` of each file; those of `references` of the
/// program.
pub fn is_of_second_file<E: LinkedSymbol>(
    program: &[u8],
    second: &[u8],
    third: &[u8],
    name: &str,
) -> Result<bool, LinkError>
    ensures { (one : Result (DynamicObject E E.Record) LinkError)
        × (two : Result (DynamicObject E E.Record) LinkError)
        × (three : Result (DynamicObject E E.Record) LinkError)
        × IsLoaded E.fields E.CLASS E.SIZE program.now one
        × IsLoaded E.fields E.CLASS E.SIZE second.now two
        × IsLoaded E.fields E.CLASS E.SIZE third.now three
        × IsSecondOf E.fields one two three name.now result }
{
    let one = loaded_object::<E>(program);
    let two = loaded_object::<E>(second);
    let three = loaded_object::<E>(third);
    let one = match one {
        Ok(object) => object,
        Err(error) => return Err(error),
    };
    let two = match two {
        Ok(object) => object,
        Err(error) => return Err(error),
    };
    let three = match three {
        Ok(object) => object,
        Err(error) => return Err(error),
    };
    let objects = [one, two, three];
    is_second(&objects[0], &Scope::new(&objects), name)
}
