//! Binds the references of ELF files to symbols, as a dynamic linker does when it starts a program.
//!
//! `elfbind PROGRAM` finds the libraries of the program as its loader does; `elfbind --alone FILE` takes the
//! file by itself, and `elfbind FILE..` a program and its libraries, in the order in which names are looked
//! up. It writes a line for each reference that is looked up, `FILE NAME@VERSION -> FILE 0xVALUE`, or `FILE
//! NAME@VERSION -> unresolved`, of a weak reference `unresolved (weak)`; a name without a version is
//! written without `@VERSION`. `elfbind --unresolved FILE..` writes only the lines of references that
//! are missing their symbols: those that get none and aren't weak. `elfbind --check FILE..` writes a
//! line for each file, whether its hash table and its versions pass their checks. With `--json` before
//! all of these each line is a JSON object.
#![tactic(auto)]

ghost use Rattle.std.specs.Prelude.{◌≡◌, ◌≢◌, ◌≤◌, [], Bool, Err, IfErr, IfOk, List, MatchResult, Ok};
ghost use Rattle.std.specs.Prelude.{IsFalse, OnOk, Result, length, ⊤};
ghost use Rattle.std.specs.Io.Buffered.{writer_buffer, writer_inner};
ghost use Rattle.elf_linking.specs.declared.error.LinkError.{LinkError};
ghost use Rattle.elf_linking.specs.declared.object.DynamicObject.{DynamicObject};
ghost use Rattle.elfbind.specs.Answers.{AreFilesFailed, AreFilesWritten, IsAnswer, IsAnswerBegun};
ghost use Rattle.elfbind.specs.Answers.{IsAnswerError, IsAnswerWritten, IsEnd, status_of};
ghost use Rattle.elfbind.specs.Files.{AreAccepted};
ghost use Rattle.elfbind.specs.Found.{AreFoundKnown, IsFoundEnd};
ghost use Rattle.program_libraries.specs.Complete.{with_missing};
ghost use Rattle.linking_programs.specs.Files.{AreObjectsOf, failed_fault_of};
ghost use Rattle.linking_programs.specs.Numbers.{AreNumbersKnown};
ghost use Rattle.program_ends.specs.Appended.{AppendsSome};
ghost use Rattle.program_ends.specs.Stops.{IsStop};
ghost use Rattle.program_ends.specs.declared.Fault.{Fault};
ghost use Rattle.program_ends.specs.declared.TheConstants.{CLOSED};
ghost use Rattle.program_libraries.specs.Complete.{IsComplete};

use crate::bindings::{Style, write_bindings};
use crate::checks::write_checks;
use elf_base::bytes::Record;
use elf_linking::view::LinkedSymbol;
use elf_linking::{DynamicObject, LinkError};
use linking_programs::{
    Failed, Input, checked_objects, failed_fault_of, is_first_narrow, read_inputs, read_objects,
    say_past_numbers,
};
use program_ends::json::{Form, form_asked};
use program_ends::{CLOSED, Fault, Stop, Watched, arguments, exit_code, say, write_about};
use program_libraries::{
    Finder, Given, Settings, StoredFile, Tree, given_files, listed_inputs, say_error,
    say_lacked_given, say_missing, with_missing,
};
use std::alloc::Global;
use std::io;
use std::io::{BufWriter, Write};
use std::process::ExitCode;
use xmas_elf::symbol_table::{DynEntry32, DynEntry64};

mod bindings;
mod checks;
mod files;

const NAME: &str = "elfbind";

const USAGE: &str =
    "elfbind [--json] [--unresolved | --check] [--alone | [--root DIR] [--library-path LIST] [--cache FILE | --no-cache]] <binary_path>..";

const HELP: &str =
    "Prints the symbol that each reference of a program and its libraries gets, and its file. The libraries
of one file are found; several files are in the order in which names are looked up.
--json               each line as a JSON object
--unresolved         only the references that are missing their symbols
--check              whether the hash table and the versions of each file pass their checks instead
--alone              the file without its libraries
--root DIR           the program and its libraries are under DIR, the root of another system
--library-path LIST  the value of LD_LIBRARY_PATH
--cache FILE         another cache than /etc/ld.so.cache
--no-cache           no cache";

/// What is asked of the files.
#[derive(Clone, Copy, Drop)]
pub enum Question {
    /// What each reference gets, or which references are missing their symbols.
    Bindings(Style),
    /// Whether the checks of each file pass, in lines of this form.
    Checks(Form),
}

/// Writes what is asked of the files to `out`, or the reason why it can't to `err`, and returns the
/// exit status.
///
/// The status is 0 once all is written and flushed, no reference is missing its symbol, no check fails and no symbol
/// has a version number past those of all versions, which `err` says of the first. It is `CLOSED`, and nothing is
/// said after it, if a write failed since nobody reads the output, and 1 otherwise. The contract says what can be the
/// case then: a reference is missing its symbol, or a check fails; a file has an error, which file and which error; a
/// write failed, if no error comes before the first line; memory is short; or `say_past_numbers` returns true, for
/// which the contract has no reason. It says nothing of what `out` and `err` hold.
pub fn run<W: Write, E: Write>(
    alloc: Global,
    question: Question,
    inputs: &[Input<'_>],
    out: &mut Watched<W>,
    err: &mut E,
) -> u8
    ensures bound { result ≢ CLOSED → result ≤ 1 }
    ensures accepted { result ≡ 0 → AreAccepted inputs.now }
    ensures known { result ≡ 0
        → AreNumbersKnown ⟦<DynEntry32 as Record>⟧ ⟦<DynEntry64 as Record>⟧ inputs.now }
    ensures ends { (wrong : Bool) × (end : Result Bool (Fault LinkError))
        × IsEnd ⟦<DynEntry32 as Record>⟧ ⟦<DynEntry64 as Record>⟧ inputs.now question end
        × (result ≡ with_missing wrong (status_of end out.new.closed)) }
{
    let wrong = say_past_numbers(alloc, NAME, inputs, &mut *err);
    with_missing(wrong, run_answer(alloc, question, inputs, out, err))
}

// Writes what is asked of the files, or the reason why it can't, whatever the version numbers of symbols are.
fn run_answer<W: Write, E: Write>(
    alloc: Global,
    question: Question,
    inputs: &[Input<'_>],
    out: &mut Watched<W>,
    err: &mut E,
) -> u8
    ensures bound { result ≢ CLOSED → result ≤ 1 }
    ensures accepted { result ≡ 0 → AreAccepted inputs.now }
    ensures ends { (end : Result Bool (Fault LinkError))
        × IsEnd ⟦<DynEntry32 as Record>⟧ ⟦<DynEntry64 as Record>⟧ inputs.now question end
        × (result ≡ status_of end out.new.closed) }
{
    match answer(alloc, question, inputs, &mut *out) {
        Ok(false) => 0,
        Ok(true) => 1,
        Err(Fault::Write) if out.is_closed() => CLOSED,
        Err(fault) => say(NAME, &fault, err),
    }
}

/// Writes what is asked of a program and its libraries that were found to `out`, as `run` does, and says
/// to `err` which libraries and versions are missing; returns the exit status.
///
/// The status is that of `run` for the files of the program and its libraries, in the order in which names
/// are looked up. It is 1 if that is 0 and a library or a version is missing, and if there is no memory for
/// the list of the files. By the contract it is 0 only if each name that these files ask for, other than by an
/// auxiliary entry, found an object, and if no symbol has a version number past those of all versions.
pub fn run_found<W: Write, E: Write>(
    alloc: Global,
    question: Question,
    files: &[StoredFile],
    tree: &Tree,
    out: &mut Watched<W>,
    err: &mut E,
) -> u8
    ensures bound { result ≢ CLOSED → result ≤ 1 }
    ensures complete { result ≡ 0 → IsComplete files.now tree.now.objects.items }
    ensures numbers { result ≡ 0
        → AreFoundKnown ⟦<DynEntry32 as Record>⟧ ⟦<DynEntry64 as Record>⟧ files.now tree.now }
    ensures ends { (wrong : Bool) × (end : Result Bool (Fault LinkError))
        × (IsFalse wrong → IsComplete files.now tree.now.objects.items)
        × IsFoundEnd ⟦<DynEntry32 as Record>⟧ ⟦<DynEntry64 as Record>⟧ files.now tree.now question
        end
        × (result ≡ with_missing wrong (status_of end out.new.closed)) }
{
    let missing = say_missing(alloc, NAME, files, tree, &mut *err);
    match listed_inputs(alloc, files, tree) {
        Some(inputs) => with_missing(missing, run(alloc, question, &inputs, out, err)),
        None => say(NAME, &"not enough memory", err),
    }
}

// Writes what is asked of the files, by the class of the first; whether something is wrong.
fn answer<'a, W: Write>(
    alloc: Global,
    question: Question,
    inputs: &'a [Input<'_>],
    out: &mut W,
) -> Result<bool, Fault<'a, LinkError>>
    ensures accepted { OnOk result (AreAccepted inputs.now) }
    ensures end { IsEnd ⟦<DynEntry32 as Record>⟧ ⟦<DynEntry64 as Record>⟧ inputs.now question
        result }
{
    if is_first_narrow(inputs) {
        ended(print::<DynEntry32, _>(alloc, question, inputs, &mut *out))
    } else {
        // A file of another class than 64 has an error there.
        ended(print::<DynEntry64, _>(alloc, question, inputs, &mut *out))
    }
}

// Whether something is wrong, or what the program says, by how the output ended.
fn ended<W: Drop>(
    written: Result<(W, bool), Stop<Failed<'_, LinkError>>>,
) -> Result<bool, Fault<'_, LinkError>>
    ensures { MatchResult written.entry (λ back. result ≡ Ok back.1)
        (λ stop. result ≡ Err (failed_fault_of stop)) }
{
    match written {
        Ok((_, wrong)) => Ok(wrong),
        Err(stop) => Err(failed_fault_of(stop)),
    }
}

// Writes what is asked of files of a class, and gives the writer back; whether something is wrong.
#[tactic(auto, using(crate::proofs::Objects::accepted_by))]
fn print<'a, E: LinkedSymbol, W: Write + Drop>(
    alloc: Global,
    question: Question,
    inputs: &'a [Input<'_>],
    out: W,
) -> Result<(W, bool), Stop<Failed<'a, LinkError>>>
    ensures accepted { OnOk result (AreAccepted inputs.now) }
    ensures written { IfOk result (λ back. (objects : List (DynamicObject E E.Record))
        × AreObjectsOf E.CLASS E.SIZE inputs.now objects
        × AppendsSome (IsAnswer E.fields inputs.now objects question back.1)
        (W.contents out) (W.contents back.0)) }
    ensures stopped { IfErr result
        (IsStop (AreFilesFailed E.Record E.fields E.CLASS E.SIZE inputs.now question)
        (AreFilesWritten E.Record E.fields E.CLASS E.SIZE inputs.now question) ⊤) }
{
    let objects = match read_objects::<E>(alloc, inputs) {
        Ok(objects) => objects,
        Err(stop) => return Err(stop),
    };
    print_objects(alloc, question, inputs, &objects, out)
}

// Writes what is asked of the files, of which these are the objects, and gives the writer back;
// whether something is wrong.
fn print_objects<'a, E: LinkedSymbol, W: Write + Drop>(
    alloc: Global,
    question: Question,
    inputs: &'a [Input<'_>],
    objects: &[DynamicObject<'_, E>],
    out: W,
) -> Result<(W, bool), Stop<Failed<'a, LinkError>>>
    requires same { length objects.now ≡ length inputs.now }
    ensures { MatchResult result (λ back. AppendsSome
        (IsAnswer E.fields inputs.now objects.now question back.1)
        (W.contents out) (W.contents back.0))
        (IsStop (IsAnswerError E.fields inputs.now objects.now question)
        (IsAnswerWritten E.fields inputs.now objects.now question) ⊤) }
{
    let mut buffered = match BufWriter::new(alloc, out) {
        Ok(buffered) => buffered,
        Err(_) => return Err(Stop::Memory),
    };
    let written = write_flushed(alloc, question, inputs, objects, &mut buffered);
    // Unlike a drop, this writes nothing more after a fault.
    let (out, _) = buffered.into_parts();
    match written {
        Ok(wrong) => Ok((out, wrong)),
        Err(stop) => Err(stop),
    }
}

// Writes what is asked of the files, and flushes it; whether something is wrong.
fn write_flushed<'s, E: LinkedSymbol, W: Write + Drop>(
    alloc: Global,
    question: Question,
    inputs: &'s [Input<'_>],
    objects: &[DynamicObject<'_, E>],
    buffered: &mut BufWriter<W>,
) -> Result<bool, Stop<Failed<'s, LinkError>>>
    requires same { length objects.now ≡ length inputs.now }
    requires empty { writer_buffer buffered.old ≡ [] }
    ensures { MatchResult result (λ wrong. AppendsSome
        (IsAnswer E.fields inputs.now objects.now question wrong)
        (W.contents (writer_inner buffered.old)) (W.contents (writer_inner buffered.new)))
        (IsStop (IsAnswerError E.fields inputs.now objects.now question)
        (IsAnswerWritten E.fields inputs.now objects.now question) ⊤) }
{
    let wrong = match write_answer(alloc, question, inputs, objects, buffered) {
        Ok(wrong) => wrong,
        Err(stop) => return Err(stop),
    };
    buffered.flush()?;
    Ok(wrong)
}

// Writes what is asked of the files; whether something is wrong.
fn write_answer<'s, E: LinkedSymbol, W: Write>(
    alloc: Global,
    question: Question,
    inputs: &'s [Input<'_>],
    objects: &[DynamicObject<'_, E>],
    out: &mut W,
) -> Result<bool, Stop<Failed<'s, LinkError>>>
    requires same { length objects.now ≡ length inputs.now }
    ensures { MatchResult result (λ wrong. AppendsSome
        (IsAnswer E.fields inputs.now objects.now question wrong)
        (W.contents out.old) (W.contents out.new))
        (IsStop (IsAnswerError E.fields inputs.now objects.now question)
        (IsAnswerBegun E.fields inputs.now objects.now question) ⊤) }
{
    match question {
        Question::Bindings(style) => match checked_objects(alloc, inputs, objects) {
            Ok(checked) => write_bindings(inputs, objects, &checked, style, out),
            Err(stop) => Err(stop),
        },
        Question::Checks(form) => write_checks(inputs, objects, form, out),
    }
}

fn main(rt: HostRuntime) -> ExitCode {
    exit_code(NAME, run_on_arguments(&rt), &mut rt.stderr())
}

// The status, or why the arguments can't be read: for want of memory, or since one is not UTF-8.
fn run_on_arguments(rt: &HostRuntime) -> io::Result<u8> {
    let words = arguments(rt)?;
    let (mut out, mut err) = (Watched::new(rt.stdout()), rt.stderr());
    if let Some(status) = write_about(NAME, USAGE, HELP, &words, &mut out, &mut err) {
        return Ok(status);
    }
    let Some((question, given)) = asked(&words) else {
        return Ok(say("usage", &USAGE, &mut out));
    };
    match given {
        Given::Program(settings, path) => {
            Ok(run_on_program(rt, question, settings, path, &mut out, &mut err))
        }
        Given::Files(paths) => Ok(run_on_files(rt, question, paths, &mut out, &mut err)),
    }
}

// Writes what is asked of the program at a path and its libraries, or why there is none.
fn run_on_program<W: Write, E: Write>(
    rt: &HostRuntime,
    question: Question,
    settings: Settings<'_>,
    path: &str,
    out: &mut Watched<W>,
    err: &mut E,
) -> u8 {
    let mut finder = match Finder::new(rt, settings) {
        Ok(finder) => finder,
        Err(error) => return say_error(NAME, &error, err),
    };
    match finder.find(rt, path) {
        Ok(tree) => run_found(rt.alloc(), question, finder.files(), &tree, out, err),
        Err(error) => say_error(NAME, &error, err),
    }
}

// Writes what is asked of a file by itself, or of a program and its libraries, at these paths, and which versions they lack
// of each other, or which file can't be read.
fn run_on_files<W: Write, E: Write>(
    rt: &HostRuntime,
    question: Question,
    paths: &[String],
    out: &mut Watched<W>,
    err: &mut E,
) -> u8 {
    match read_inputs::<_, LinkError>(rt, paths) {
        Ok(inputs) if paths.len() == 1 => run(rt.alloc(), question, &inputs, out, err),
        Ok(inputs) => {
            let missing = say_lacked_given(rt.alloc(), NAME, &inputs, &mut *err);
            with_missing(missing, run(rt.alloc(), question, &inputs, out, err))
        }
        Err(unread) => say(NAME, &unread, err),
    }
}

// What the arguments ask, and of which files, if they are as they should be.
fn asked(arguments: &[String]) -> Option<(Question, Given<'_>)> {
    let (form, arguments) = form_asked(arguments);
    let (first, others) = arguments.split_first()?;
    let only_missing = first.as_str() == "--unresolved";
    if first.as_str() == "--check" {
        return Some((Question::Checks(form), given_files(others)?));
    }
    let question = Question::Bindings(Style { only_missing, form });
    let rest = if only_missing { others } else { arguments };
    Some((question, given_files(rest)?))
}
