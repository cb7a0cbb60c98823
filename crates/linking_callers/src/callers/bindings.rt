//! A caller that goes over all references of a program and its libraries.

ghost use Rattle.std.specs.Prelude.{◌≡◌, true, false};
ghost use Rattle.elf_linking.specs.Bindings.{references_from};
ghost use Rattle.elf_linking.specs.Scope.{scope_objects};
ghost use Rattle.linking_callers.specs.AllBound.{AreBound, IsOneUnbound, is_bound};

use elf_linking::LinkError;
use elf_linking::scope::{Binding, Scope};
use elf_linking::view::LinkedSymbol;

/// Whether each reference of all objects gets a symbol, without an error.
pub fn all_bound<E: LinkedSymbol>(scope: &Scope<'_, '_, E>) -> bool
    ensures bound { let objects = (scope_objects scope.now).now in
        result ≡ true → AreBound E.fields objects (references_from 0 objects) }
    ensures unbound { let objects = (scope_objects scope.now).now in
        result ≡ false → IsOneUnbound E.fields objects (references_from 0 objects) }
{
    for item in scope.bindings() {
        if !is_bound(&item) {
            return false;
        }
    }
    true
}

// Whether a reference gets a symbol.
fn is_bound<E>(item: &Result<Binding<'_, E>, (usize, LinkError)>) -> bool
    ensures { result ≡ is_bound item.now }
{
    match item {
        Ok(binding) => matches!(binding.bound, Ok(Some(_))),
        Err(_) => false,
    }
}
