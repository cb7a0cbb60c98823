//! Callers that read the versions of a file.

ghost use Rattle.std.specs.Prelude.{◌≡◌, Option, option_map};
ghost use Rattle.elf_linking.specs.Loaded.{lent};
ghost use Rattle.elf_linking.specs.VersionTables.{definition_parts, definitions_in, result_map};
ghost use Rattle.elf_linking.specs.Versions.{IsFirst, first_item, version_tables};
ghost use Rattle.linking_callers.specs.VersionNames.{Defines, defines, is_name};

use elf_linking::LinkError;
use elf_linking::versions::{Definition, Versions};

// Whether a name can be read and is this.
fn is_name(found: Result<&str, LinkError>, name: &str) -> bool
    ensures { result ≡ is_name (lent found.entry) name.now }
{
    match found {
        Ok(found) => found == name,
        Err(_) => false,
    }
}

// Whether a definition defines the version with this name.
fn defines(definition: &Definition<'_>, name: &str) -> bool
    ensures { result ≡ defines name.now (definition_parts definition.now) }
{
    !definition.is_base() && is_name(definition.name(), name)
}

/// The definition of the version with this name, which isn't the base, if the file defines it. The
/// error is the one with which the definitions end before it.
#[tactic(auto, using(crate::proofs::VersionNames::defined_first))]
pub fn definition_of<'a>(
    versions: &Versions<'a>,
    name: &str,
) -> Result<Option<Definition<'a>>, LinkError>
    ensures { IsFirst (Defines name.now) (definitions_in (version_tables versions.now).definitions)
        (result_map (option_map definition_parts) result) }
{
    search_definitions(versions, name)
}

// The first definition of the version with this name, as a computed answer.
#[tactic(auto, using(elf_linking::proofs::lemmas::FirstItems::search_end, elf_linking::proofs::lemmas::FirstItems::search_fault, elf_linking::proofs::lemmas::FirstItems::search_found, elf_linking::proofs::lemmas::FirstItems::search_other))]
fn search_definitions<'a>(
    versions: &Versions<'a>,
    name: &str,
) -> Result<Option<Definition<'a>>, LinkError>
    ensures { result_map (option_map definition_parts) result ≡ first_item (defines name.now)
        (definitions_in (version_tables versions.now).definitions) }
{
    for item in versions.definitions() {
        match item {
            Ok(definition) => {
                if defines(&definition, name) {
                    return Ok(Some(definition));
                }
            }
            Err(error) => return Err(error),
        }
    }
    Ok(None)
}
