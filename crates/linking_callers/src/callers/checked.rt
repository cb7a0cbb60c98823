//! A caller that binds names in files whose checks passed.

ghost use Rattle.std.specs.Prelude.{◌≡◌, [], ◌∷◌, IfErr, IfOk, option_map};
ghost use Rattle.elf_linking.specs.CheckedScope.{looked_up};
ghost use Rattle.elf_linking.specs.Exports.{object_parts};
ghost use Rattle.linking_callers.specs.CheckedFiles.{IsFirstError};

use elf_linking::find::{Use, Wanted};
use elf_linking::view::LinkedSymbol;
use elf_linking::{CheckedObject, CheckedScope, DynamicObject, LinkError};

/// The index of the file, of a program and its library, whose symbol a name without a version gets;
/// `None` if neither file has one for other files.
///
/// Errors: that of the first check that fails, of the program and then of the library.
pub fn file_with_name<E: LinkedSymbol>(
    program: DynamicObject<'_, E>,
    library: DynamicObject<'_, E>,
    name: &str,
) -> Result<Option<usize>, LinkError>
    ensures found { IfOk result (λ at. let objects = object_parts E.fields program.entry
        ∷ object_parts E.fields library.entry ∷ [] in
        at ≡ option_map (λ bound. bound.object) (looked_up objects 0 name.now Wanted.Newest Use.Any)) }
    ensures failed { IfErr result (IsFirstError E.fields program.entry library.entry) }
{
    let objects = [CheckedObject::of(program)?, CheckedObject::of(library)?];
    let found = CheckedScope::new(&objects).find(0, name, &Wanted::Newest, Use::Any);
    Ok(found.map(|bound| bound.object))
}
