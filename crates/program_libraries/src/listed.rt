//! A program and its libraries as the files that other programs are given.

ghost use Rattle.std.specs.Prelude.{◌≡◌, ◌++◌, [], IfSome, map, option_map};
ghost use Rattle.std.specs.List.{cons_option};
ghost use Rattle.program_libraries.specs.Listed.{AreListed, input_parts, listed_file};

use crate::objects::Object;
use crate::store::StoredFile;
use crate::trees::Tree;
use linking_programs::Input;
use std::alloc::Global;

/// The files of a program and its libraries, in the order in which names are looked up; `None` if there
/// is no memory for them.
#[tactic(auto, using(crate::proofs::ListedInputs::listed_none, crate::proofs::ListedInputs::listed_more, crate::proofs::ListedInputs::listed_all))]
pub fn listed_inputs<'t>(
    alloc: Global,
    files: &[StoredFile],
    tree: &'t Tree,
) -> Option<Vec<Input<'t>>>
    ensures { IfSome result (λ inputs. AreListed files.now tree.now inputs.items) }
{
    let mut inputs = Vec::new(alloc);
    for number in &tree.list {
        let file = listed_file(files, &tree.objects, *number);
        match with_file(alloc, inputs, file) {
            Some(more) => inputs = more,
            None => return None,
        }
    }
    Some(inputs)
}

// Some inputs and a file by its path and its bytes, if there is one; `None` if there is no memory for it.
fn with_file<'t>(
    alloc: Global,
    inputs: Vec<Input<'t>>,
    file: Option<(&'t str, &[u8])>,
) -> Option<Vec<Input<'t>>>
    ensures { IfSome result (λ more. map input_parts more.items ≡ map input_parts inputs.entry.items
        ++ cons_option (option_map (λ file. (file.0.now, file.1.now)) file.entry) []) }
{
    let Some((path, bytes)) = file else {
        return Some(inputs);
    };
    let bytes = Vec::from_slice(alloc, bytes).ok()?;
    let mut inputs = inputs;
    match inputs.push(Input { path, bytes }) {
        Ok(()) => Some(inputs),
        Err(_) => None,
    }
}

// The path by which the object with a number was opened, and the bytes of its file.
fn listed_file<'f, 't>(
    files: &'f [StoredFile],
    objects: &'t [Object],
    number: u32,
) -> Option<(&'t str, &'f [u8])>
    ensures { option_map (λ file. (file.0.now, file.1.now)) result
        ≡ listed_file files.now objects.now number }
{
    let object = objects.get(number as usize)?;
    let file = files.get(object.file)?;
    Some((&object.path, &file.bytes))
}
