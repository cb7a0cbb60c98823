//! Prints what memory holds once files are loaded, as Linux maps programs and glibc libraries.
//!
//! `elfload PROGRAM` finds the libraries of the program as its loader does; `elfload --alone FILE` takes the
//! file by itself, and `elfload FILE..` a program and its libraries, in the order in which they are loaded.
//! It writes for each file its header, what else a loader asks for, and its mappings by both loaders, as they are
//! in /proc/PID/maps, relative to the base. Unless no file has a dynamic segment, it then writes for
//! each file the words that its relocations write, as `word 0xADDRESS WIDTH TYPE = VALUE`. `--lazy`
//! before the other options: jump slots get their symbols when they are called first; those of the
//! interpreter of the first file, which relocates itself, get them at once. `--page SIZE` after this is
//! the size of a page, 4096 without it.
//!
//! `elfload --start PROGRAM` writes which functions run when the program starts, in order.
//!
//! `elfload --kernel FILE..` and `elfload --glibc FILE..` write only whether one loader maps each file.
#![tactic(auto)]

ghost use Rattle.std.specs.Prelude.{◌≡◌, ◌≢◌, ◌<◌, ◌≤◌, ◌⊎◌, IfErr, IfOk, IsFalse, IsTrue, Result, max};
ghost use Rattle.elfload.specs.Ends.{IsBegun, IsEnd, IsFault, IsWordsEnd};
ghost use Rattle.elfload.specs.Files.{AreAllStatic, AreLoaded};
ghost use Rattle.elfload.specs.Found.{AreTogetherGood, IsFoundGood, IsStartGood};
ghost use Rattle.elfload.specs.Images.{AreImagesGood};
ghost use Rattle.elfload.specs.Plans.{IsInputLoaded, IsInputPlan, IsInputError};
ghost use Rattle.elfload.specs.Statuses.{ArePlanEnds, IsRunStatus};
ghost use Rattle.elfload.specs.Symbols.{AreSymbolsFound, is_now};
ghost use Rattle.linking_programs.specs.Numbers.{AreNumbersKnown};
ghost use Rattle.elfload.specs.declared.plans.AnyError.{AnyError};
ghost use Rattle.program_ends.specs.Appended.{AppendsSome};
ghost use Rattle.program_ends.specs.Ends.{quiet_status_of};
ghost use Rattle.program_ends.specs.declared.Fault.{Fault};
ghost use Rattle.program_ends.specs.declared.TheConstants.{CLOSED};
ghost use Rattle.program_libraries.specs.Complete.{IsComplete};

use crate::files::has_dynamic;
use crate::paths::run_on_arguments;
use crate::plans::{AnyError, Plan};
use crate::printing::print_words;
use crate::steps::{Step, early_starts, start_steps};
use crate::symbols::say_references;
use elf_base::bytes::Record;
use elf_loading::Binding;
use linking_programs::Input;
use program_ends::json::Form;
use program_ends::{
    CLOSED, Fault, Watched, exit_code, fault_of, quiet_status_of, say, write_buffered,
};
use program_libraries::{StoredFile, Tree, listed_inputs, say_missing, with_missing};
use std::alloc::Global;
use std::io::Write;
use std::process::ExitCode;
use xmas_elf::symbol_table::{DynEntry32, DynEntry64};

mod arguments;
mod arrays;
mod files;
mod images;
mod interpreter;
mod paths;
mod plans;
mod printing;
mod records;
mod start_lines;
mod starts;
mod steps;
mod symbols;
mod verdicts;
mod words;

// What messages begin with.
const NAME: &str = "elfload";

const USAGE: &str =
    "elfload [--json] [--lazy] [--page <size>] [--alone | [--root DIR] [--library-path LIST] [--cache FILE | --no-cache]] <binary_path>.. | elfload [--json] --start [--page <size>] [--root DIR] [--library-path LIST] [--cache FILE | --no-cache] <binary_path> | elfload [--json] (--kernel | --glibc) [--page <size>] <binary_path>..";

const HELP: &str =
    "Prints the header of each file, what else a loader asks for, and what Linux (kernel) and glibc map;
then, unless none has a dynamic segment, what relocations write, for a program and its libraries. The libraries
of one file are found; several files are in the order in which they are loaded.
--json               before the other options: a JSON object on each line
--lazy               jump slots get their symbols when they are called first, except those of the interpreter
--page <size>        the size of a page in bytes, a power of two; 4096 without it
--alone              the file without its libraries
--root DIR           the program and its libraries are under DIR, the root of another system
--library-path LIST  the value of LD_LIBRARY_PATH
--cache FILE         another cache than /etc/ld.so.cache
--no-cache           no cache
--start              only which functions run when a program starts, in order, up to its entry point and by it
--kernel             only whether Linux maps each file as a program, by its own list of errors
--glibc              only whether glibc maps each file as a library, by its own list of errors
Without --kernel and --glibc a file must pass a list that is stricter than both.";

/// What is asked for.
#[derive(Clone, Copy, Drop)]
pub struct Options<'s> {
    /// The size of a page.
    pub page: u64,
    /// When jump slots get their symbols; those of the interpreter of the first file get them at once.
    pub when: Binding,
    /// How the lines are written.
    pub form: Form,
    /// The steps of a start, if the functions that run are asked for and not the words.
    pub steps: Option<&'s [Step]>,
}

/// Writes the plan of each file to `out` and, if one has a dynamic segment, the words of each, or
/// the reasons why it can't to `err`, and returns the exit status.
///
/// The status is 0 once all is written and flushed; `CLOSED`, and nothing more is written or said, if a
/// write failed since nobody reads the output; and 1 otherwise. By the contract it is 0 only if
/// each file has a plan (`check_load`), and if, where one has a dynamic segment, the checks of the
/// symbols and of the images of all files pass, which have dynamic segments; and it is 1 only if the plan of a file has a fault, as
/// in the contract of `run_plan`, or the words have, as in that of `run_words`. None says what `out`
/// and `err` hold.
pub fn run<W: Write, E: Write>(
    alloc: Global,
    asked: Options<'_>,
    inputs: &[Input<'_>],
    out: &mut Watched<W>,
    err: &mut E,
) -> u8
    requires { 0 < asked.page }
    ensures bound { result ≢ CLOSED → result ≤ 1 }
    ensures closed { result ≡ CLOSED → IsTrue out.new.closed }
    ensures loaded { result ≡ 0 → AreLoaded asked.entry.page inputs.now }
    ensures checked { result ≡ 0 → AreAllStatic inputs.now
        ⊎ AreImagesGood ⟦<DynEntry32 as Record>⟧ ⟦<DynEntry64 as Record>⟧ asked.entry.page inputs.now }
    ensures status { result ≢ CLOSED
        → IsRunStatus ⟦<DynEntry32 as Record>⟧ ⟦<DynEntry64 as Record>⟧ asked.entry inputs.now result }
{
    let status = run_plans(alloc, asked.form, asked.page, inputs, &mut *out, &mut *err);
    if status != 0 {
        return status;
    }
    if !has_dynamic(inputs) {
        return 0;
    }
    run_words(alloc, asked, inputs, out, err)
}

/// Writes what `run` does of a program and its libraries that were found to `out`, and says to `err` which
/// libraries and versions are missing; returns the exit status.
///
/// The status is that of `run` for the files of the program and its libraries, in the order in which names
/// are looked up. It is 1 if that is 0 and a library or a version is missing, a symbol has a version number past those
/// of all versions, or, unless jump slots get their symbols later, a symbol is missing; and if there is no memory for
/// the list of the files. By the contract it is 0 only if each name that these files ask for, other than by an auxiliary
/// entry, found an object, if what `run` says of the status 0 is so, if each version number is known, and if each
/// reference that isn't weak gets a symbol.
pub fn run_found<W: Write, E: Write>(
    alloc: Global,
    asked: Options<'_>,
    files: &[StoredFile],
    tree: &Tree,
    out: &mut Watched<W>,
    err: &mut E,
) -> u8
    requires { 0 < asked.page }
    ensures bound { result ≢ CLOSED → result ≤ 1 }
    ensures closed { result ≡ CLOSED → IsTrue out.new.closed }
    ensures complete { result ≡ 0 → IsComplete files.now tree.now.objects.items }
    ensures good { result ≡ 0 → IsFoundGood ⟦<DynEntry32 as Record>⟧ ⟦<DynEntry64 as Record>⟧
        asked.entry files.now tree.now }
{
    let missing = say_missing(alloc, NAME, files, tree, &mut *err);
    match listed_inputs(alloc, files, tree) {
        Some(inputs) => run_together(alloc, asked, missing, &inputs, out, err),
        None => say_memory(err),
    }
}

/// Writes what `run` does of a program and its libraries, of which some may be missing, and returns the exit status.
///
/// The status is that of `run`. It is 1 if that is 0 and a library is missing; and, if none is missing, if a symbol has a
/// version number past those of all versions, or, unless jump slots get their symbols later, a reference that isn't
/// weak gets no symbol. `err` says of the first which it is.
pub(crate) fn run_together<W: Write, E: Write>(
    alloc: Global,
    asked: Options<'_>,
    missing: bool,
    inputs: &[Input<'_>],
    out: &mut Watched<W>,
    err: &mut E,
) -> u8
    requires { 0 < asked.page }
    ensures bound { result ≢ CLOSED → result ≤ 1 }
    ensures closed { result ≡ CLOSED → IsTrue out.new.closed }
    ensures whole { result ≡ 0 → IsFalse missing }
    ensures good { result ≡ 0 → AreTogetherGood ⟦<DynEntry32 as Record>⟧ ⟦<DynEntry64 as Record>⟧
        asked.entry inputs.now }
{
    let status = run(alloc, asked, inputs, out, &mut *err);
    if !has_dynamic(inputs) {
        return with_missing(missing, status);
    }
    with_references(alloc, status, missing, is_now(asked.when), inputs, err)
}

// Whether jump slots get their symbols before the program runs.
fn is_now(when: Binding) -> bool
    ensures { result ≡ is_now when }
{
    match when {
        Binding::Now => true,
        Binding::Lazy => false,
    }
}

// The status of files that had this one, of which some may be missing: 1 if it was 0 and one is, a symbol has a
// version number past those of all versions, or, where that is asked for, a symbol is missing.
fn with_references<E: Write>(
    alloc: Global,
    status: u8,
    missing: bool,
    wanted: bool,
    inputs: &[Input<'_>],
    err: &mut E,
) -> u8
    ensures kept { result ≡ 0 → status ≡ 0 }
    ensures whole { result ≡ 0 → IsFalse missing }
    ensures known { result ≡ 0
        → AreNumbersKnown ⟦<DynEntry32 as Record>⟧ ⟦<DynEntry64 as Record>⟧ inputs.now }
    ensures found { result ≡ 0 → IsTrue wanted
        → AreSymbolsFound ⟦<DynEntry32 as Record>⟧ ⟦<DynEntry64 as Record>⟧ inputs.now }
    ensures bound { (status ≢ CLOSED → status ≤ 1) → result ≢ CLOSED → result ≤ 1 }
    ensures closed { result ≡ CLOSED → status ≡ CLOSED }
{
    if status != 0 || missing {
        return with_missing(missing, status);
    }
    say_references(alloc, wanted, inputs, err)
}

/// Writes which functions run when a program starts, whose libraries were found, to `out`, and says to `err` which
/// libraries and versions are missing; returns the exit status.
///
/// The functions are those of the files of the program and its libraries, after the checks of `run_words` with pages of
/// a size. The status is that of `run_words`; it is 1 if that is 0 and a library, a version or a symbol is missing, or a
/// symbol has a version number past those of all versions, and if there is no memory for the lists of the files and of the
/// steps. By the contract it is 0 only if each name that these files ask for, other than by an auxiliary entry, found an
/// object, if these checks pass, if each version number is known, and if each reference that isn't weak gets a symbol.
pub fn run_start<W: Write, E: Write>(
    alloc: Global,
    form: Form,
    page: u64,
    files: &[StoredFile],
    tree: &Tree,
    out: &mut Watched<W>,
    err: &mut E,
) -> u8
    requires { 0 < page }
    ensures bound { result ≢ CLOSED → result ≤ 1 }
    ensures closed { result ≡ CLOSED → IsTrue out.new.closed }
    ensures complete { result ≡ 0 → IsComplete files.now tree.now.objects.items }
    ensures good { result ≡ 0 → IsStartGood ⟦<DynEntry32 as Record>⟧ ⟦<DynEntry64 as Record>⟧
        page files.now tree.now }
{
    let missing = say_missing(alloc, NAME, files, tree, &mut *err);
    match listed_inputs(alloc, files, tree) {
        Some(inputs) => {
            let status = run_steps(alloc, form, page, &inputs, tree, out, &mut *err);
            with_references(alloc, status, missing, true, &inputs, err)
        }
        None => say_memory(err),
    }
}

// Says that memory was short, and returns the status of an error.
fn say_memory<E: Write>(err: &mut E) -> u8
    ensures { result ≡ 1 }
{
    say(NAME, &"not enough memory", err)
}

// Writes which functions run when a program starts, of the files of a tree.
fn run_steps<W: Write, E: Write>(
    alloc: Global,
    form: Form,
    page: u64,
    inputs: &[Input<'_>],
    tree: &Tree,
    out: &mut Watched<W>,
    err: &mut E,
) -> u8
    requires { 0 < page }
    ensures bound { result ≢ CLOSED → result ≤ 1 }
    ensures closed { result ≡ CLOSED → IsTrue out.new.closed }
    ensures checked { result ≡ 0
        → AreImagesGood ⟦<DynEntry32 as Record>⟧ ⟦<DynEntry64 as Record>⟧ page inputs.now }
{
    let early = early_starts(&tree.list, &tree.starts, inputs);
    match start_steps(alloc, &tree.list, &tree.starts, early) {
        Some(steps) => {
            let asked = Options {
                page,
                when: Binding::Now,
                form,
                steps: Some(&steps),
            };
            run_words(alloc, asked, inputs, out, err)
        }
        None => say_memory(err),
    }
}

// The plans of all files, and the status: 1 if that of one is. Once nobody reads the output, no other plan is written.
fn run_plans<W: Write, E: Write>(
    alloc: Global,
    form: Form,
    page: u64,
    inputs: &[Input<'_>],
    out: &mut Watched<W>,
    err: &mut E,
) -> u8
    requires { 0 < page }
    ensures bound { result ≢ CLOSED → result ≤ 1 }
    ensures closed { result ≡ CLOSED → IsTrue out.new.closed }
    ensures loaded { result ≡ 0 → AreLoaded page inputs.now }
    ensures ends { result ≢ CLOSED → ArePlanEnds form page inputs.now result }
{
    let mut status = 0;
    for input in inputs {
        let own = run_plan(
            alloc,
            form,
            page,
            input.path,
            &input.bytes,
            &mut *out,
            &mut *err,
        );
        if is_shut(own) {
            return own;
        }
        status = worse(own, status);
    }
    status
}

// Whether a status is that of an output that nobody reads.
pub(crate) fn is_shut(status: u8) -> bool
    ensures yes { IsTrue result → status ≡ CLOSED }
    ensures no { IsFalse result → status ≢ CLOSED }
{
    status == CLOSED
}

// The greater of two statuses.
fn worse(one: u8, other: u8) -> u8
    ensures { result ≡ max one other }
{
    one.max(other)
}

/// Writes the plan of a file to `out`, with pages of a size, or the reason why it can't to `err`,
/// and returns the exit status.
///
/// The status is 0 once all is written and flushed, `CLOSED` if a write failed since nobody reads the output, and 1
/// otherwise. By the contract it is 0 only for a file that has a plan (`check_load`). The contract says which fault there
/// can be otherwise: the reason why the file has no plan; a write that failed, if it has one; or that memory is short.
/// It says nothing of what `out` and `err` hold.
#[tactic(auto, using(crate::proofs::Loaded::ended_loaded))]
pub fn run_plan<W: Write, E: Write>(
    alloc: Global,
    form: Form,
    page: u64,
    path: &str,
    input: &[u8],
    out: &mut Watched<W>,
    err: &mut E,
) -> u8
    requires { 0 < page }
    ensures bound { result ≢ CLOSED → result ≤ 1 }
    ensures closed { result ≡ CLOSED → IsTrue out.new.closed }
    ensures loaded { result ≡ 0 → IsInputLoaded page input.entry }
    ensures ends { (end : Result (Unit {0}) (Fault AnyError))
        × IsEnd form page path.entry input.entry end × (result ≡ quiet_status_of end out.new.closed) }
{
    let ended = answer(alloc, form, page, path, input, &mut *out);
    quiet_status_of(NAME, ended, out.is_closed(), err)
}

// Writes the plan of a file.
fn answer<'a, W: Write>(
    alloc: Global,
    form: Form,
    page: u64,
    path: &'a str,
    input: &[u8],
    out: &mut W,
) -> Result<(), Fault<'a, AnyError>>
    requires { 0 < page }
    ensures { IsEnd form page path.entry input.entry result }
{
    match print_plan(alloc, form, page, path, input, &mut *out) {
        Ok(_) => Ok(()),
        Err(fault) => Err(fault),
    }
}

// Writes the plan of the file that these bytes are, and gives the writer back.
fn print_plan<'a, W: Write + Drop>(
    alloc: Global,
    form: Form,
    page: u64,
    path: &'a str,
    input: &[u8],
    out: W,
) -> Result<W, Fault<'a, AnyError>>
    requires { 0 < page }
    ensures written { IfOk result (λ back. AppendsSome (IsInputPlan form page path.entry input.entry)
        (W.contents out) (W.contents back)) }
    ensures fault { IfErr result (IsFault path.entry (IsInputError page input.entry)
        (IsBegun form page path.entry input.entry)) }
{
    let plan = Plan {
        form,
        path,
        input,
        page,
    };
    match write_buffered(alloc, &plan, out) {
        Ok(out) => Ok(out),
        Err(stop) => Err(fault_of(stop, path)),
    }
}

/// Writes the words of each file to `out`, or which functions run in these steps of a start, or the reason why it can't
/// to `err`, and returns the exit status.
///
/// The status is 0 once all is written and flushed, `CLOSED` if a write failed since nobody reads the output, and 1
/// otherwise. By the contract it is 0 only if
/// the checks of the symbols and of the images of all files pass. The contract says which fault there
/// can be otherwise: a file has an error, which file and which error; a write failed, if all checks
/// pass; or memory is short. It says nothing of what `out` and `err` hold.
#[tactic(auto, using(crate::proofs::WordsEnds::ended_good))]
pub fn run_words<W: Write, E: Write>(
    alloc: Global,
    asked: Options<'_>,
    inputs: &[Input<'_>],
    out: &mut Watched<W>,
    err: &mut E,
) -> u8
    requires { 0 < asked.page }
    ensures bound { result ≢ CLOSED → result ≤ 1 }
    ensures closed { result ≡ CLOSED → IsTrue out.new.closed }
    ensures checked { result ≡ 0
        → AreImagesGood ⟦<DynEntry32 as Record>⟧ ⟦<DynEntry64 as Record>⟧ asked.entry.page inputs.now }
    ensures ends { (end : Result (Unit {0}) (Fault AnyError))
        × IsWordsEnd ⟦<DynEntry32 as Record>⟧ ⟦<DynEntry64 as Record>⟧ asked.entry inputs.now end
        × (result ≡ quiet_status_of end out.new.closed) }
{
    let ended = print_words(alloc, asked, inputs, &mut *out);
    quiet_status_of(NAME, ended, out.is_closed(), err)
}

fn main(rt: HostRuntime) -> ExitCode {
    exit_code(NAME, run_on_arguments(&rt), &mut rt.stderr())
}
