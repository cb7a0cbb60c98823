//! Writes the words of all files, or the functions that run, once all files pass their checks.

ghost use Rattle.std.specs.Prelude.{◌≡◌, ◌<◌, Err, IfErr, IfOk, List, MatchResult, Ok, OnOk, length, ⊤};
ghost use Rattle.elf_linking.specs.declared.object.DynamicObject.{DynamicObject};
ghost use Rattle.elfload.specs.Ends.{AreFailed, IsStartText, IsWordsEnd, IsWritingFailed, IsWritten};
ghost use Rattle.elfload.specs.Ends.{load_stop, words_fault_of};
ghost use Rattle.elfload.specs.Images.{AreInputsChecked};
ghost use Rattle.elfload.specs.Starts.{AreStartsFailed};
ghost use Rattle.linking_programs.specs.Files.{AreObjectsOf};
ghost use Rattle.program_ends.specs.Appended.{AppendsSome};
ghost use Rattle.program_ends.specs.Stops.{IsStop};

use crate::Options;
use crate::images::{check_images, read_plans};
use crate::plans::AnyError;
use crate::start_lines::StartLines;
use crate::starts::read_starts;
use crate::steps::Step;
use crate::words::WordsText;
use elf_base::bytes::Record;
use elf_linking::view::LinkedSymbol;
use elf_linking::{DynamicObject, LinkError};
use elf_loading::LoadError;
use linking_programs::{Failed, Input, failure, is_first_narrow, read_objects};
use program_ends::json::Form;
use program_ends::{Fault, Stop, write_buffered};
use std::alloc::Global;
use std::io::Write;
use xmas_elf::symbol_table::{DynEntry32, DynEntry64};

/// Writes the words of the files, by the class of the first.
pub(crate) fn print_words<'a, W: Write>(
    alloc: Global,
    asked: Options<'_>,
    inputs: &'a [Input<'_>],
    out: &mut W,
) -> Result<(), Fault<'a, AnyError>>
    requires { 0 < asked.page }
    ensures { IsWordsEnd ⟦<DynEntry32 as Record>⟧ ⟦<DynEntry64 as Record>⟧ asked.entry inputs.now result }
{
    if is_first_narrow(inputs) {
        ended(print::<DynEntry32, _>(alloc, asked, inputs, &mut *out))
    } else {
        // A file of another class than 64 has an error there.
        ended(print::<DynEntry64, _>(alloc, asked, inputs, &mut *out))
    }
}

// What the program says, by how the output ended.
fn ended<W: Drop>(
    written: Result<W, Stop<Failed<'_, LoadError>>>,
) -> Result<(), Fault<'_, AnyError>>
    ensures { MatchResult written.entry (λ _. result ≡ Ok tt)
        (λ stop. result ≡ Err (words_fault_of stop)) }
{
    match written {
        Ok(_) => Ok(()),
        Err(stop) => Err(words_fault_of(stop)),
    }
}

// What the program says where the words aren't written to their end.
pub(crate) fn words_fault_of(stop: Stop<Failed<'_, LoadError>>) -> Fault<'_, AnyError>
    ensures { result ≡ words_fault_of stop.entry }
{
    match stop {
        Stop::Failed(failed) => Fault::Failed {
            path: failed.path,
            error: AnyError::Load(failed.error),
        },
        Stop::Write => Fault::Write,
        Stop::Memory => Fault::Memory,
    }
}

// Writes the words of files of a class, and gives the writer back.
fn print<'a, E: LinkedSymbol, W: Write + Drop>(
    alloc: Global,
    asked: Options<'_>,
    inputs: &'a [Input<'_>],
    out: W,
) -> Result<W, Stop<Failed<'a, LoadError>>>
    requires { 0 < asked.page }
    ensures checked { OnOk result
        (AreInputsChecked {E = E} E.Record E.fields E.CLASS E.SIZE asked.entry.page inputs.now) }
    ensures written { IfOk result (λ back. (objects : List (DynamicObject E E.Record))
        × AreObjectsOf E.CLASS E.SIZE inputs.now objects
        × AppendsSome (IsWritten E.fields asked.entry inputs.now objects)
        (W.contents out) (W.contents back)) }
    ensures stopped { IfErr result
        (IsStop (AreFailed {E = E} E.Record E.fields E.CLASS E.SIZE asked.entry inputs.now)
        (AreInputsChecked {E = E} E.Record E.fields E.CLASS E.SIZE asked.entry.page inputs.now) ⊤) }
{
    let objects = match read_objects::<E>(alloc, inputs) {
        Ok(objects) => objects,
        Err(stop) => return Err(load_stop(stop)),
    };
    print_checked(alloc, asked, inputs, &objects, out)
}

// Writes the words of files, of which these are the objects, and gives the writer back.
fn print_checked<'a, E: LinkedSymbol, W: Write + Drop>(
    alloc: Global,
    asked: Options<'_>,
    inputs: &'a [Input<'_>],
    objects: &[DynamicObject<'_, E>],
    out: W,
) -> Result<W, Stop<Failed<'a, LoadError>>>
    requires paged { 0 < asked.page }
    requires same { length objects.now ≡ length inputs.now }
    requires own { AreObjectsOf E.CLASS E.SIZE inputs.now objects.now }
    ensures checked { OnOk result
        (AreInputsChecked {E = E} E.Record E.fields E.CLASS E.SIZE asked.entry.page inputs.now) }
    ensures written { IfOk result (λ back. AppendsSome
        (IsWritten E.fields asked.entry inputs.now objects.now) (W.contents out) (W.contents back)) }
    ensures stopped { IfErr result
        (IsStop (AreFailed {E = E} E.Record E.fields E.CLASS E.SIZE asked.entry inputs.now)
        (AreInputsChecked {E = E} E.Record E.fields E.CLASS E.SIZE asked.entry.page inputs.now) ⊤) }
{
    let plans = match read_plans(alloc, asked.page, inputs, objects) {
        Ok(plans) => plans,
        Err(stop) => return Err(stop),
    };
    match check_images(alloc, inputs, objects, &plans) {
        Ok(()) => write_asked(alloc, asked, inputs, objects, out),
        Err(stop) => Err(stop),
    }
}

// Writes what is asked of these objects, and gives the writer back.
fn write_asked<'a, E: LinkedSymbol, W: Write + Drop>(
    alloc: Global,
    asked: Options<'_>,
    inputs: &'a [Input<'_>],
    objects: &[DynamicObject<'_, E>],
    out: W,
) -> Result<W, Stop<Failed<'a, LoadError>>>
    requires same { length objects.now ≡ length inputs.now }
    ensures { MatchResult result (λ back. AppendsSome (IsWritten E.fields asked.entry inputs.now objects.now)
        (W.contents out) (W.contents back))
        (IsStop (IsWritingFailed E.fields asked.entry inputs.now objects.now) ⊤ ⊤) }
{
    match asked.steps {
        Some(steps) => write_steps(alloc, asked.form, steps, inputs, objects, out),
        None => {
            let text = WordsText {
                form: asked.form,
                when: asked.when,
                inputs,
                objects,
            };
            write_buffered(alloc, &text, out)
        }
    }
}

// Writes which functions run in these steps, and gives the writer back.
fn write_steps<'a, E: LinkedSymbol, W: Write + Drop>(
    alloc: Global,
    form: Form,
    steps: &[Step],
    inputs: &'a [Input<'_>],
    objects: &[DynamicObject<'_, E>],
    out: W,
) -> Result<W, Stop<Failed<'a, LoadError>>>
    requires { length objects.now ≡ length inputs.now }
    ensures { MatchResult result
        (λ back. AppendsSome (IsStartText E.fields form inputs.now objects.now steps.now)
        (W.contents out) (W.contents back))
        (IsStop (AreStartsFailed E.fields inputs.now objects.now steps.now) ⊤ ⊤) }
{
    match read_starts(alloc, steps, inputs, objects) {
        Ok(starts) => {
            let lines = StartLines {
                form,
                starts: &starts,
            };
            write_buffered(alloc, &lines, out)
        }
        Err(stop) => Err(stop),
    }
}

// Why files are not read, as an error of a loader.
pub(crate) fn load_stop(stop: Stop<Failed<'_, LinkError>>) -> Stop<Failed<'_, LoadError>>
    ensures { result ≡ load_stop stop.entry }
{
    match stop {
        Stop::Failed(failed) => failure(failed.path, LoadError::Link(failed.error)),
        Stop::Write => Stop::Write,
        Stop::Memory => Stop::Memory,
    }
}
