//! Looks names up in a program and its libraries, as `dlsym` does from the program with `RTLD_DEFAULT`: a
//! line for each name, with the value and the size of its symbol and the path of the file that has it.

ghost use Rattle.std.specs.Prelude.{◌≡◌, ◌≢◌, ◌≤◌, Bool, IfErr, IfOk, IsFalse, List, MatchResult};
ghost use Rattle.std.specs.Prelude.{OnOk, Result, Some, ⊤};
ghost use Rattle.std.specs.Io.KnownBytes.{Appends};
ghost use Rattle.elf_linking.specs.CheckedScope.{bound_fields};
ghost use Rattle.elf_linking.specs.Exports.{ObjectParts};
ghost use Rattle.elf_linking.specs.declared.error.LinkError.{LinkError};
ghost use Rattle.elfsym.specs.Scope.{AreScopeLines, AreScopeObjects, IsScopeEnd, IsScopeFault};
ghost use Rattle.elfsym.specs.Scope.{IsScopeBound, IsScopeLine, IsScopeObject, IsUnreadObject};
ghost use Rattle.elfsym.specs.Scope.{scope_text, target_of};
ghost use Rattle.program_libraries.specs.Complete.{with_missing};
ghost use Rattle.program_ends.proofs.Flushed.{appended_flushed};
ghost use Rattle.program_ends.specs.Appended.{AppendsSome};
ghost use Rattle.program_ends.specs.Ends.{quiet_status_of};
ghost use Rattle.program_ends.specs.declared.Fault.{Fault};
ghost use Rattle.program_ends.specs.declared.TheConstants.{CLOSED};
ghost use Rattle.program_ends.specs.declared.json.Form.TheVariants.{Text};
ghost use Rattle.program_libraries.specs.Complete.{IsComplete};

use crate::NAME;
use crate::lines::asked;
use elf_base::bytes::Record;
use elf_linking::checked::CheckedScope;
use elf_linking::find::Use;
use elf_linking::scope::Bound;
use elf_linking::view::LinkedSymbol;
use elf_linking::{CheckedObject, DynamicObject, LinkError};
use linking_programs::{Failed, Input, failed_fault_of, is_first_narrow};
use program_ends::json::{Form, Member, Value, write_json};
use program_ends::{CLOSED, Fault, Output, Stop, Watched, quiet_status_of, write_buffered};
use program_libraries::{
    Finder, Settings, StoredFile, Tree, listed_inputs, own_settings, say_error, say_missing,
    with_missing, with_option,
};
use std::alloc::Global;
use std::convert::AsStr;
use std::fmt::Display;
use std::io::Write;
use std::{fmt, io};
use xmas_elf::symbol_table::{DynEntry32, DynEntry64, Entry};

/// Writes a line for each reference, which is looked up in a program and its libraries that were found, to
/// `out`, and which libraries are missing, or the reason why it can't, to `err`; returns the exit status.
///
/// The status is 0 once all is written and flushed and no library or version is missing, `CLOSED`, and of
/// the output nothing is said, if a write failed since nobody reads it, and 1 otherwise. By the contract
/// it is 0 only if each name that the files ask for, other than by an auxiliary entry, found an object.
pub fn run_scope<S: AsStr, W: Write, E: Write>(
    alloc: Global,
    form: Form,
    references: &[S],
    files: &[StoredFile],
    tree: &Tree,
    out: &mut Watched<W>,
    err: &mut E,
) -> u8
    ensures bound { result ≢ CLOSED → result ≤ 1 }
    ensures complete { result ≡ 0 → IsComplete files.now tree.now.objects.items }
    ensures ends { (missing : Bool) × (end : Result (Unit {0}) (Fault LinkError))
        × (IsFalse missing → IsComplete files.now tree.now.objects.items)
        × IsScopeEnd ⟦<DynEntry32 as Record>⟧ ⟦<DynEntry64 as Record>⟧ form S.text files.now tree.now
        references.now end
        × (result ≡ with_missing missing (quiet_status_of end out.new.closed)) }
{
    let missing = say_missing(alloc, NAME, files, tree, &mut *err);
    let ended = print_found(alloc, form, references, files, tree, &mut *out);
    with_missing(missing, quiet_status_of(NAME, ended, out.is_closed(), err))
}

// Writes the lines by the files of the program and its libraries, which are of the class of the first.
fn print_found<'t, S: AsStr, W: Write>(
    alloc: Global,
    form: Form,
    references: &[S],
    files: &[StoredFile],
    tree: &'t Tree,
    out: &mut W,
) -> Result<(), Fault<'t, LinkError>>
    ensures { IsScopeEnd ⟦<DynEntry32 as Record>⟧ ⟦<DynEntry64 as Record>⟧ form S.text files.now
        tree.now references.now result }
{
    let Some(inputs) = listed_inputs(alloc, files, tree) else {
        return Err(Fault::Memory);
    };
    if is_first_narrow(&inputs) {
        match print_scope::<DynEntry32, _, _>(alloc, form, references, &inputs, &mut *out) {
            Ok(_) => Ok(()),
            Err(fault) => Err(fault),
        }
    } else {
        // A file of another class than 64 has an error there.
        match print_scope::<DynEntry64, _, _>(alloc, form, references, &inputs, &mut *out) {
            Ok(_) => Ok(()),
            Err(fault) => Err(fault),
        }
    }
}

// Writes the lines by files of a class, and gives the writer back.
fn print_scope<'i, E: LinkedSymbol, S: AsStr, W: Write + Drop>(
    alloc: Global,
    form: Form,
    references: &[S],
    inputs: &[Input<'i>],
    out: W,
) -> Result<W, Fault<'i, LinkError>>
    ensures written { IfOk result (λ back. (objects : List ObjectParts)
        × AreScopeObjects E.Record E.fields E.CLASS E.SIZE inputs.now objects
        × AppendsSome (AreScopeLines form S.text inputs.now objects references.now)
        (W.contents out) (W.contents back)) }
    ensures fault { IfErr result (IsScopeFault E.Record E.fields E.CLASS E.SIZE inputs.now) }
{
    let objects = match checked_objects::<E>(alloc, inputs) {
        Ok(objects) => objects,
        Err(fault) => return Err(fault),
    };
    let lines = ScopeLines {
        inputs,
        objects: &objects,
        references,
        form,
    };
    match write_buffered(alloc, &lines, out) {
        Ok(out) => Ok(out),
        Err(stop) => Err(failed_fault_of(stop)),
    }
}

// The objects of the files, after their checks.
fn checked_objects<'a, 'i, E: LinkedSymbol>(
    alloc: Global,
    inputs: &'a [Input<'i>],
) -> Result<Vec<CheckedObject<'a, E>>, Fault<'i, LinkError>>
    ensures { MatchResult result
        (λ objects. AreScopeObjects E.Record E.fields E.CLASS E.SIZE inputs.now objects.items)
        (IsScopeFault E.Record E.fields E.CLASS E.SIZE inputs.now) }
{
    let mut objects = Vec::new(alloc);
    for input in inputs {
        match checked_object(&input.bytes) {
            Ok(object) => {
                if objects.push(object).is_err() {
                    return Err(Fault::Memory);
                }
            }
            Err(error) => {
                return Err(Fault::Failed {
                    path: input.path,
                    error,
                });
            }
        }
    }
    Ok(objects)
}

// The object of a file, after its checks.
fn checked_object<'a, E: LinkedSymbol>(bytes: &'a [u8]) -> Result<CheckedObject<'a, E>, LinkError>
    ensures { MatchResult result
        (IsScopeObject E.Record E.fields E.CLASS E.SIZE bytes.now)
        (IsUnreadObject E.Record E.fields E.CLASS E.SIZE bytes.now) }
{
    match DynamicObject::of_bytes(bytes) {
        Ok(object) => CheckedObject::of(object),
        Err(error) => Err(error),
    }
}

// A line for each reference, by the objects of the files.
#[derive(Drop)]
struct ScopeLines<'s, 'i, 'a, E: LinkedSymbol, S> {
    inputs: &'s [Input<'i>],
    objects: &'s [CheckedObject<'a, E>],
    references: &'s [S],
    form: Form,
}

impl<'i, E: LinkedSymbol, S: AsStr> Output for ScopeLines<'_, 'i, '_, E, S> {
    ghost Writes = { λ lines. AppendsSome (AreScopeLines lines.form S.text lines.inputs.now lines.objects.now
        lines.references.now) };

    ghost flushed = { λ lines. appended_flushed (AreScopeLines lines.form S.text lines.inputs.now
        lines.objects.now lines.references.now) };

    type Error = Failed<'i, LinkError>;

    ghost Fails = { λ lines failed. ⊥ };

    ghost Begins = { λ lines. ⊤ };

    fn write_to<W: Write>(&self, out: &mut W) -> Result<(), Stop<Failed<'i, LinkError>>> {
        for reference in self.references {
            match write_line(
                self.inputs,
                self.objects,
                reference.as_str(),
                self.form,
                out,
            ) {
                Ok(()) => {}
                Err(_) => return Err(Stop::Write),
            }
        }
        Ok(())
    }
}

// The line of a reference.
fn write_line<E: LinkedSymbol, W: Write>(
    inputs: &[Input<'_>],
    objects: &[CheckedObject<'_, E>],
    reference: &str,
    form: Form,
    out: &mut W,
) -> io::Result<()>
    ensures { IfOk result (λ _. AppendsSome (IsScopeLine form inputs.now objects.now reference.now)
        (W.contents out.old) (W.contents out.new)) }
{
    let target = target_of(inputs, &bound_of(objects, reference));
    write_target(reference, target, form, out)
}

// The line of a reference, by what it says of its symbol.
fn write_target<'s, W: Write>(
    reference: &'s str,
    target: Option<Target<'s>>,
    form: Form,
    out: &mut W,
) -> io::Result<()>
    ensures { OnOk result (Appends (W.contents out.old) (W.contents out.new)
        (scope_text form reference.now target.entry)) }
{
    if let Form::Text = form {
        return write!(out, "{}", ScopeLine { reference, target });
    }
    let (value, size, path) = match target {
        Some(Target { value, size, path }) => {
            (Value::Number(value), Value::Number(size), Value::Text(path))
        }
        None => (Value::Null, Value::Null, Value::Null),
    };
    let members = [
        Member {
            key: "name",
            value: Value::Text(reference),
        },
        Member {
            key: "value",
            value,
        },
        Member {
            key: "size",
            value: size,
        },
        Member {
            key: "file",
            value: path,
        },
    ];
    write_json(&members, out)
}

// The symbol that the program gets for a reference.
fn bound_of<E: LinkedSymbol>(objects: &[CheckedObject<'_, E>], reference: &str) -> Option<Bound<E>>
    ensures { IsScopeBound objects.now reference.now (bound_fields E.fields result) }
{
    let (name, wanted) = asked(reference);
    CheckedScope::new(objects).find(0, name, &wanted, Use::Any)
}

// The value and the size of a symbol, and the path of the file that has it.
#[derive(Clone, Copy)]
struct Target<'s> {
    value: u64,
    size: u64,
    path: &'s str,
}

// What a line says of a symbol, if there is one.
fn target_of<'i, E: Entry>(inputs: &[Input<'i>], bound: &Option<Bound<E>>) -> Option<Target<'i>>
    ensures { result ≡ target_of inputs.now (bound_fields E.fields bound.now) }
{
    let bound = bound.as_ref()?;
    let input = inputs.get(bound.object)?;
    Some(Target {
        value: bound.symbol.value(),
        size: bound.symbol.size(),
        path: input.path,
    })
}

// The line of a reference as text: its symbol, or that there is none.
#[derive(Clone, Copy)]
struct ScopeLine<'r, 's> {
    reference: &'r str,
    target: Option<Target<'s>>,
}

impl Display for ScopeLine<'_, '_> {
    ghost output = { λ line. Some (scope_text Text line.reference.now line.target) };

    fn fmt<W: fmt::Write>(&self, f: &mut fmt::Formatter<W>) -> fmt::Result {
        match self.target {
            Some(Target { value, size, path }) => {
                writeln!(f, "{} 0x{:x} 0x{:x} {}", self.reference, value, size, path)
            }
            None => writeln!(f, "{}: none", self.reference),
        }
    }
}

// The status after the names in the arguments are looked up, or why the libraries of the program aren't
// found; `None` if the arguments are not as they should be.
pub(crate) fn run_on_program<W: Write, E: Write>(
    rt: &HostRuntime,
    form: Form,
    arguments: &[String],
    out: &mut Watched<W>,
    err: &mut E,
) -> Option<u8> {
    let (settings, path, references) = asked_of_program(arguments)?;
    let mut finder = match Finder::new(rt, settings) {
        Ok(finder) => finder,
        Err(error) => return Some(say_error(NAME, &error, err)),
    };
    match finder.find(rt, path) {
        Ok(tree) => {
            let files = finder.files();
            Some(run_scope(rt.alloc(), form, references, files, &tree, out, err))
        }
        Err(error) => Some(say_error(NAME, &error, err)),
    }
}

// The settings by the options that come first, the path of the program, and the names after it.
fn asked_of_program(arguments: &[String]) -> Option<(Settings<'_>, &str, &[String])> {
    let mut settings = own_settings();
    let mut rest = arguments;
    for _ in 0..arguments.len() {
        if !rest.first()?.as_str().starts_with("--") {
            break;
        }
        let (next, after) = with_option(settings, rest)?;
        settings = next;
        rest = after;
    }
    let (path, references) = rest.split_first()?;
    if references.is_empty() {
        return None;
    }
    Some((settings, path.as_str(), references))
}
