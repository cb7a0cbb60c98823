//! Scopes whose objects passed their checks, with plans.

ghost use Rattle.std.specs.Prelude.{◌≡◌, IfOk};
ghost use Rattle.elf_linking.specs.DynamicObject.{object_dynamic_symbols};
ghost use Rattle.elf_linking.specs.Checked.{AreChecked};
ghost use Rattle.elf_linking.specs.Scope.{AreGood};
ghost use Rattle.elf_linking.specs.VersionTables.{result_map};
ghost use Rattle.elf_loading.specs.CheckedLoads.{AreAllChecked};
ghost use Rattle.elf_loading.specs.LoadScope.{loaded_objects};

mod image;
mod slots;

use crate::LoadScope;
pub use crate::checked::image::{CheckedImage, ImageError};
use elf_linking::view::LinkedSymbol;
use elf_linking::{DynamicObject, LinkError};

/// The objects of a scope with their plans, where all objects passed their checks.
#[derive(Drop)]
pub struct CheckedLoadScope<'s, 'a, E: LinkedSymbol> {
    loads: LoadScope<'s, 'a, E>,
    ghost good: { ∥ AreGood E.fields (loaded_objects loads).now ∥₁ },
}

// The checks of the hash table and of the versions of an object.
fn check_object<E: LinkedSymbol>(object: &DynamicObject<'_, E>) -> Result<(), LinkError>
    ensures { AreChecked (object_dynamic_symbols E.fields object.now) result }
{
    object.check()?;
    object.check_versions()
}

// The checks of objects, in order.
fn check_objects<E: LinkedSymbol>(objects: &[DynamicObject<'_, E>]) -> Result<(), LinkError>
    ensures { AreAllChecked E.fields objects.now result }
{
    for place in 0..objects.len() {
        match check_object(&objects[place]) {
            Ok(()) => {}
            Err(error) => return Err(error),
        }
    }
    Ok(())
}

impl<'s, 'a, E: LinkedSymbol> CheckedLoadScope<'s, 'a, E> {
    ghost use Rattle.elf_loading.specs.CheckedLoadScope.{checked_loads};

    /// The scope, after the checks of its objects.
    ///
    /// Errors: for the first object that has one, those of `DynamicObject::check`, and then those of
    /// `DynamicObject::check_versions`.
    pub fn of(loads: LoadScope<'s, 'a, E>) -> Result<CheckedLoadScope<'s, 'a, E>, LinkError>
        ensures loads { IfOk result (λ checked. checked_loads checked ≡ loads.entry) }
        ensures exact { AreAllChecked E.fields (loaded_objects loads.entry).now
            (result_map (λ _. tt) result) }
    {
        match check_objects(loads.objects()) {
            Ok(()) => Ok(CheckedLoadScope { loads }),
            Err(error) => Err(error),
        }
    }

    /// The scope that was checked.
    pub fn loads(&self) -> LoadScope<'s, 'a, E>
        ensures { result ≡ checked_loads self.now }
    {
        self.loads
    }
}
