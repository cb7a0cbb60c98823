//! A line for each reference that is looked up, or for each that is missing its symbol: the file and
//! the value that it gets.

ghost use Rattle.std.specs.Prelude.{◌≡◌, ◌<◌, ◌&&◌, Bool, Err, IfOk, IsSome, MatchResult, None};
ghost use Rattle.std.specs.Prelude.{OnOk, Option, Some, length, map, not, option_map, slice_get};
ghost use Rattle.std.specs.Io.KnownBytes.{Appends};
ghost use Rattle.elf_linking.specs.CheckedBindings.{is_weak, item_parts};
ghost use Rattle.elf_linking.specs.CheckedScope.{bound_fields};
ghost use Rattle.elf_linking.specs.DynamicObject.{object_file, object_view};
ghost use Rattle.elf_linking.specs.DynamicView.{view_entries};
ghost use Rattle.elf_linking.specs.Exports.{object_parts};
ghost use Rattle.elf_linking.specs.References.{references_of};
ghost use Rattle.elfbind.specs.Bindings.{AreBindingsBegun, AreBindingsFailed, AreBindingsWritten};
ghost use Rattle.elfbind.specs.Bindings.{IsErrorOf, IsItemOf, is_missing, line_of};
ghost use Rattle.elfbind.specs.Bindings.{line_text, path_in, shown_text, target_of, target_text};
ghost use Rattle.elfbind.specs.Bindings.{version_text};
ghost use Rattle.linking_programs.specs.Checks.{ArePassed};
ghost use Rattle.program_ends.specs.Appended.{AppendsSome};
ghost use Rattle.program_ends.specs.Stops.{IsStop};
ghost use Rattle.program_ends.specs.declared.json.Form.TheVariants.{Json, Text};

use crate::files::either;
use elf_linking::checked::{CheckedBinding, CheckedScope};
use elf_linking::find::Wanted;
use elf_linking::scope::{Asked, Bound};
use elf_linking::view::LinkedSymbol;
use elf_linking::{CheckedObject, DynamicObject, LinkError};
use linking_programs::{Failed, Input, failure_at};
use program_ends::json::{Form, Member, Value, write_json};
use program_ends::{Stop, write_name};
use std::fmt::Display;
use std::io::Write;
use std::{fmt, io};
use xmas_elf::symbol_table::Entry;

/// Which references have a line, and how it is written.
#[derive(Clone, Copy, Debug)]
pub struct Style {
    /// Only those that are missing their symbols.
    pub only_missing: bool,
    /// As text or JSON.
    pub form: Form,
}

// A line for each reference of all files that is looked up, or, if only these are asked for, for each
// that is missing its symbol; and whether one is. `checked` are the objects after their checks.
pub(crate) fn write_bindings<'s, E: LinkedSymbol, W: Write>(
    inputs: &'s [Input<'_>],
    objects: &[DynamicObject<'_, E>],
    checked: &[CheckedObject<'_, E>],
    style: Style,
    out: &mut W,
) -> Result<bool, Stop<Failed<'s, LinkError>>>
    requires same { length objects.now ≡ length inputs.now }
    requires passed { ArePassed E.fields objects.now }
    requires checked { checked.now ≡ map (object_parts E.fields) objects.now }
    ensures { MatchResult result (λ missing. AppendsSome
        (AreBindingsWritten inputs.now (map (object_parts E.fields) objects.now) style missing)
        (W.contents out.old) (W.contents out.new))
        (IsStop (AreBindingsFailed E.fields inputs.now objects.now style)
        (AreBindingsBegun inputs.now (map (object_parts E.fields) objects.now) style) ⊥) }
{
    let mut missing = false;
    for item in CheckedScope::new(checked).bindings() {
        match write_item(inputs, objects, item, style, out) {
            Ok(own) => missing = either(missing, own),
            Err(stop) => return Err(stop),
        }
    }
    Ok(missing)
}

// The line of a reference, if it is looked up and asked for, and whether it is missing its symbol.
fn write_item<'s, E: LinkedSymbol, W: Write>(
    inputs: &'s [Input<'_>],
    objects: &[DynamicObject<'_, E>],
    item: Result<CheckedBinding<E>, usize>,
    style: Style,
    out: &mut W,
) -> Result<bool, Stop<Failed<'s, LinkError>>>
    requires same { length objects.now ≡ length inputs.now }
    requires passed { ArePassed E.fields objects.now }
    requires item { IsItemOf (map (object_parts E.fields) objects.now) (item_parts E.fields item) }
    ensures { MatchResult result (λ missing. AppendsSome (λ text. line_of inputs.now
        (map (object_parts E.fields) objects.now) style (item_parts E.fields item)
        ≡ Some (missing, text)) (W.contents out.old) (W.contents out.new))
        (IsStop (IsErrorOf E.fields inputs.now objects.now (item_parts E.fields item))
        (IsSome (line_of inputs.now (map (object_parts E.fields) objects.now) style
        (item_parts E.fields item))) ⊥) }
{
    let binding = match item {
        Ok(binding) => binding,
        Err(from) => return Err(failure_at(inputs, from, references_error(&objects[from]))),
    };
    let CheckedBinding {
        from,
        reference,
        bound,
    } = binding;
    let object = objects[from];
    let (name, wanted) = match object.asked(&reference) {
        Ok(Asked::Own(_)) => return Ok(false),
        Ok(Asked::Look { name, wanted, .. }) => (name, wanted),
        Err(error) => return Err(failure_at(inputs, from, error)),
    };
    let weak = is_weak(&object.symbol(reference.symbol));
    let missing = is_missing(weak, &bound);
    let found = target_of(inputs, &bound);
    let line = line_at(inputs, from, name, wanted, Target { found, weak });
    match write_if(line, is_shown(style.only_missing, missing), style.form, out) {
        Ok(()) => Ok(missing),
        Err(_) => Err(Stop::Write),
    }
}

// Why the relocations of an object can't be read.
fn references_error<E: LinkedSymbol>(object: &DynamicObject<'_, E>) -> LinkError
    requires { (object_parts E.fields object.now).references ≡ None }
    ensures { references_of (object_file object.now) (view_entries (object_view object.now))
        ≡ Err result }
{
    match object.references() {
        Ok(_) => unreachable!(),
        Err(error) => error,
    }
}

// Whether a line is asked for: all are, or only that of a reference that is missing its symbol.
fn is_shown(only_missing: bool, missing: bool) -> bool
    ensures { result ≡ not (only_missing && not missing) }
{
    !only_missing || missing
}

// A line, if it is asked for.
fn write_if<W: Write>(line: Line<'_, '_>, shown: bool, form: Form, out: &mut W) -> io::Result<()>
    ensures { IfOk result (λ _. AppendsSome
        (λ text. text ≡ shown_text shown (line_text form line.entry.file.now line.entry.name.now
        line.entry.version.0 line.entry.target.weak line.entry.target.found))
        (W.contents out.old) (W.contents out.new)) }
{
    if shown {
        write_line(line, form, out)?;
    }
    Ok(())
}

// A line.
fn write_line<'s, W: Write>(line: Line<'s, 's>, form: Form, out: &mut W) -> io::Result<()>
    ensures { OnOk result (Appends (W.contents out.old) (W.contents out.new)
        (line_text form line.entry.file.now line.entry.name.now line.entry.version.0
        line.entry.target.weak line.entry.target.found)) }
{
    match form {
        Form::Text => write_text(line, out),
        Form::Json => write_object(line, out),
    }
}

// A line as text: its file, the name and the version, and what it gets.
fn write_text<'s, W: Write>(line: Line<'s, 's>, out: &mut W) -> io::Result<()>
    ensures { OnOk result (Appends (W.contents out.old) (W.contents out.new)
        (line_text Text line.entry.file.now line.entry.name.now line.entry.version.0
        line.entry.target.weak line.entry.target.found)) }
{
    write!(out, "{} ", line.file)?;
    write_name(line.name, out)?;
    writeln!(out, "{} -> {}", line.version, line.target)
}

// A line as JSON.
fn write_object<'s, W: Write>(line: Line<'s, 's>, out: &mut W) -> io::Result<()>
    ensures { OnOk result (Appends (W.contents out.old) (W.contents out.new)
        (line_text Json line.entry.file.now line.entry.name.now line.entry.version.0
        line.entry.target.weak line.entry.target.found)) }
{
    let (file, value) = match line.target.found {
        Some((file, value)) => (Value::Text(file), Value::Number(value)),
        None => (Value::Null, Value::Null),
    };
    let version = match line.version.0 {
        Wanted::Version { name, .. } => Value::Text(name),
        Wanted::Unversioned | Wanted::Newest => Value::Null,
    };
    let members = [
        Member {
            key: "from",
            value: Value::Text(line.file),
        },
        Member {
            key: "name",
            value: Value::Name(line.name),
        },
        Member {
            key: "version",
            value: version,
        },
        Member {
            key: "weak",
            value: Value::Bool(line.target.weak),
        },
        Member {
            key: "file",
            value: file,
        },
        Member {
            key: "value",
            value,
        },
    ];
    write_json(&members, out)
}

// The path of the file that has a symbol, and the symbol's value.
fn target_of<'s, E: Entry>(
    inputs: &'s [Input<'_>],
    bound: &Option<Bound<E>>,
) -> Option<(&'s str, u64)>
    ensures { result ≡ target_of inputs.now (bound_fields E.fields bound.now) }
{
    let bound = bound.as_ref()?;
    let input = inputs.get(bound.object)?;
    Some((input.path, bound.symbol.value()))
}

// Whether a reference is missing its symbol: it gets none, and isn't weak.
fn is_missing<E: Entry>(weak: bool, bound: &Option<Bound<E>>) -> bool
    ensures { result ≡ is_missing weak (bound_fields E.fields bound.now) }
{
    bound.is_none() && !weak
}

// Whether a symbol is weak, if there is one.
fn is_weak<E: Entry>(symbol: &Option<E>) -> bool
    ensures { result ≡ is_weak (option_map E.fields symbol.now) }
{
    match symbol {
        Some(symbol) => symbol.info() / 16 == 2,
        None => false,
    }
}

// The version that is asked for, after the name.
#[derive(Clone, Copy)]
struct Version<'a>(Wanted<'a>);

impl Display for Version<'_> {
    ghost output = { λ version. Some (version_text version.0) };

    fn fmt<W: fmt::Write>(&self, f: &mut fmt::Formatter<W>) -> fmt::Result {
        match self.0 {
            Wanted::Version { name, .. } => write!(f, "@{}", name),
            Wanted::Unversioned | Wanted::Newest => Ok(()),
        }
    }
}

// A file and a value, or that there is none, and whether the reference is weak.
#[derive(Clone, Copy)]
struct Target<'a> {
    found: Option<(&'a str, u64)>,
    weak: bool,
}

impl Display for Target<'_> {
    ghost output = { λ target. Some (target_text target.weak target.found) };

    fn fmt<W: fmt::Write>(&self, f: &mut fmt::Formatter<W>) -> fmt::Result {
        match self.found {
            Some((file, value)) => write!(f, "{} 0x{:x}", file, value),
            None if self.weak => write!(f, "unresolved (weak)"),
            None => write!(f, "unresolved"),
        }
    }
}

// What the line of a reference says: its file, the name and the version, and what it gets.
#[derive(Clone, Copy)]
struct Line<'i, 'n> {
    file: &'i str,
    name: &'n [u8],
    version: Version<'n>,
    target: Target<'i>,
}

// The line of a reference of the file at an index.
fn line_at<'s, 'n>(
    inputs: &'s [Input<'_>],
    from: usize,
    name: &'n [u8],
    wanted: Wanted<'n>,
    target: Target<'s>,
) -> Line<'s, 'n>
    requires { from < length inputs.now }
    ensures file { result.file.now ≡ path_in (slice_get inputs.now from) }
    ensures name { result.name.now ≡ name.now }
    ensures version { result.version.0 ≡ wanted.entry }
    ensures target { result.target ≡ target.entry }
{
    Line {
        file: inputs[from].path,
        name,
        version: Version(wanted),
        target,
    }
}
