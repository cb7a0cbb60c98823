//! The files that the linking programs are given, and their objects.
#![tactic(auto)]

ghost use Rattle.std.specs.Prelude.{◌≡◌, ◌<◌, ◌↔◌, IfErr, IfOk, IsOk, MatchResult, length, ⊤};
ghost use Rattle.elf_base.specs.FileHeader.{header_of};
ghost use Rattle.elf_linking.specs.Checked.{AreChecked};
ghost use Rattle.elf_linking.specs.DynamicObject.{object_dynamic_symbols};
ghost use Rattle.linking_programs.specs.Checks.{IsGood};
ghost use Rattle.linking_programs.specs.Files.{AreObjectsOf, IsInputError, IsOfInput};
ghost use Rattle.linking_programs.specs.Files.{failed_fault_of, is_first_narrow, is_narrow_header};
ghost use Rattle.program_ends.specs.Stops.{IsStop};
ghost use Rattle.program_ends.specs.declared.Stop.TheVariants as stops_are;

use elf_linking::view::LinkedSymbol;
use elf_linking::{DynamicObject, LinkError};
use program_ends::{Fault, Stop, read_whole};
use std::alloc::Global;
use std::convert::AsStr;
use std::fs::File;
use xmas_elf::ElfFile;

mod checked;
mod numbers;

pub use crate::checked::checked_objects;
pub use crate::numbers::{first_past, say_past_numbers, say_past_numbers_of};

/// A file that a program is given.
#[derive(Drop)]
pub struct Input<'a> {
    /// The path by which it is given, and named in lines.
    pub path: &'a str,
    /// All of its bytes.
    pub bytes: Vec<u8>,
}

/// The error of a file, with its path.
#[derive(Clone, Copy, Debug, Drop)]
pub struct Failed<'a, F> {
    pub path: &'a str,
    pub error: F,
}

/// The files at these paths. Fails at the first that can't be read, or for which there is no memory.
pub fn read_inputs<'a, S: AsStr, F>(
    rt: &HostRuntime,
    paths: &'a [S],
) -> Result<Vec<Input<'a>>, Fault<'a, F>> {
    let mut inputs = Vec::new(rt.alloc());
    for path in paths {
        let path = path.as_str();
        let file = File::open(rt, path).ok();
        let Some(bytes) = read_whole(rt.alloc(), file) else {
            return Err(Fault::Read { path });
        };
        if inputs.push(Input { path, bytes }).is_err() {
            return Err(Fault::Read { path });
        }
    }
    Ok(inputs)
}

/// Whether the first file is of class 32.
pub fn is_first_narrow(inputs: &[Input<'_>]) -> bool
    ensures { result ≡ is_first_narrow inputs.now }
{
    match inputs.split_first() {
        Some((input, _)) => is_narrow(&input.bytes),
        None => false,
    }
}

// Whether bytes begin with a header of class 32.
fn is_narrow(bytes: &[u8]) -> bool
    ensures { result ≡ is_narrow_header (header_of bytes.now) }
{
    match ElfFile::new(bytes) {
        Ok(file) => file.header.pt1.class.raw() == 1,
        Err(_) => false,
    }
}

/// The objects of the files, all of one class.
pub fn read_objects<'a, E: LinkedSymbol>(
    alloc: Global,
    inputs: &'a [Input<'_>],
) -> Result<Vec<DynamicObject<'a, E>>, Stop<Failed<'a, LinkError>>>
    ensures objects { IfOk result (λ objects. AreObjectsOf E.CLASS E.SIZE inputs.now objects.items) }
    ensures count { IfOk result (λ objects. length objects.items ≡ length inputs.now) }
    ensures failed { IfErr result
        (IsStop (IsInputError {E = E} E.Record E.CLASS E.SIZE inputs.now) ⊥ ⊤) }
{
    let mut objects = Vec::new(alloc);
    for input in inputs {
        match DynamicObject::of_bytes(&input.bytes) {
            Ok(object) => {
                if objects.push(object).is_err() {
                    return Err(Stop::Memory);
                }
            }
            Err(error) => return Err(failure(input.path, error)),
        }
    }
    Ok(objects)
}

/// The result of the checks of an object: that of its hash table and, if that passes, of its versions.
pub fn check_object<E: LinkedSymbol>(object: &DynamicObject<'_, E>) -> Result<(), LinkError>
    ensures accepts { IsOk result ↔ IsGood (object_dynamic_symbols E.fields object.now) }
    ensures exact { AreChecked (object_dynamic_symbols E.fields object.now) result }
{
    match object.check() {
        Ok(()) => object.check_versions(),
        Err(error) => Err(error),
    }
}

/// The error of a file as a reason to stop.
pub fn failure<'a, F>(path: &'a str, error: F) -> Stop<Failed<'a, F>>
    ensures { result ≡ stops_are.Failed (record { path = path.entry; error = error }) }
{
    Stop::Failed(Failed { path, error })
}

/// The error of the file at an index as a reason to stop.
pub fn failure_at<'a, F>(inputs: &'a [Input<'_>], index: usize, error: F) -> Stop<Failed<'a, F>>
    requires { index < length inputs.now }
    ensures { IsStop (λ failed. IsOfInput inputs.now index failed × (failed.error ≡ error)) ⊥ ⊥
        result }
{
    failure(inputs[index].path, error)
}

/// What a program says where its output isn't written to its end.
pub fn failed_fault_of<F>(stop: Stop<Failed<'_, F>>) -> Fault<'_, F>
    ensures { result ≡ failed_fault_of stop.entry }
{
    match stop {
        Stop::Failed(failed) => Fault::Failed {
            path: failed.path,
            error: failed.error,
        },
        Stop::Write => Fault::Write,
        Stop::Memory => Fault::Memory,
    }
}
