//! Callers that ask for the value of a name by its version, in an object whose look-ups find what
//! they must and whose versions can be read.

ghost use Rattle.std.specs.Prelude.{◌≡◌, ℕ, Ok, Option};
ghost use Rattle.std.specs.Prelude.{option_map};
ghost use Rattle.elf_linking.specs.AnyTable.{IsGoodBy};
ghost use Rattle.elf_linking.specs.DynamicObject.{object_dynamic_symbols};
ghost use Rattle.elf_linking.specs.Find.{AreReadable, FindsRight};
ghost use Rattle.elf_linking.specs.Find.{exact_version};
ghost use Rattle.elf_linking.specs.declared.find.Use.TheVariants.{Any};

use elf_linking::DynamicObject;
use elf_linking::find::{Use, Wanted};
use elf_linking::view::LinkedSymbol;

/// The value of a symbol with this name and a version with the other name, as `dlvsym` asks: that of the
/// symbol which is right in the list of symbols. `None` if the version of each symbol that look-ups must
/// find is another, or has no name.
pub fn exact_value<E: LinkedSymbol>(
    object: &DynamicObject<'_, E>,
    name: &str,
    version: &str,
) -> Option<u64>
    requires good { let file = object_dynamic_symbols E.fields object.now in
        IsGoodBy file.table file.symbols }
    requires readable { AreReadable (object_dynamic_symbols E.fields object.now) }
    ensures { let file = object_dynamic_symbols E.fields object.now in (found : Option (ℕ × E))
        × FindsRight file name.now (exact_version version.entry) Any (Ok found)
        × (result ≡ option_map (λ at. (E.fields at.1).value) found) }
{
    match object.find(name, &Wanted::exact(version), Use::Any) {
        Ok(Some((_index, exact))) => Some(exact.value()),
        Ok(None) => None,
        Err(_) => unreachable!(),
    }
}
