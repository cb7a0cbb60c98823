//! A line for each file: whether its checks pass.

ghost use Rattle.std.specs.Prelude.{◌≡◌, ◌<◌, IsSomeAnd, MatchResult, OnOk, Some, length};
ghost use Rattle.std.specs.Prelude.{slice_get, ⊤};
ghost use Rattle.std.specs.Io.KnownBytes.{Appends};
ghost use Rattle.elfbind.specs.Checks.{IsCheckLine, check_text};
ghost use Rattle.elfbind.specs.Files.{AreWritten};
ghost use Rattle.program_ends.specs.Appended.{AppendsSome};
ghost use Rattle.program_ends.specs.Stops.{IsStop};
ghost use Rattle.program_ends.specs.declared.json.Form.TheVariants.{Text};

use crate::files::either;
use elf_linking::view::LinkedSymbol;
use elf_linking::{CheckedObject, DynamicObject, LinkError};
use linking_programs::{Failed, Input};
use program_ends::Stop;
use program_ends::json::{Form, Member, Value, write_json};
use std::fmt::Display;
use std::io::Write;
use std::{fmt, io};

// A line for each file, and whether a check of one fails.
pub(crate) fn write_checks<'s, E: LinkedSymbol, W: Write>(
    inputs: &'s [Input<'_>],
    objects: &[DynamicObject<'_, E>],
    form: Form,
    out: &mut W,
) -> Result<bool, Stop<Failed<'s, LinkError>>>
    requires same { length objects.now ≡ length inputs.now }
    ensures { MatchResult result (λ failing. AppendsSome
        (AreWritten (IsCheckLine form E.fields inputs.now) objects.now failing)
        (W.contents out.old) (W.contents out.new)) (IsStop (λ _. ⊥) ⊤ ⊥) }
{
    let mut failing = false;
    for index in 0..objects.len() {
        match write_check(inputs, objects, index, form, out) {
            Ok(other) => failing = either(failing, other),
            Err(stop) => return Err(stop),
        }
    }
    Ok(failing)
}

// The line of the file at an index, and whether a check of it fails.
fn write_check<'s, E: LinkedSymbol, W: Write>(
    inputs: &'s [Input<'_>],
    objects: &[DynamicObject<'_, E>],
    index: usize,
    form: Form,
    out: &mut W,
) -> Result<bool, Stop<Failed<'s, LinkError>>>
    requires same { length objects.now ≡ length inputs.now }
    requires below { index < length objects.now }
    ensures { IsSomeAnd (slice_get objects.now index) (λ object. MatchResult result
        (λ failing. AppendsSome (IsCheckLine form E.fields inputs.now index object failing)
        (W.contents out.old) (W.contents out.new)) (IsStop (λ _. ⊥) ⊤ ⊥)) }
{
    let result = match CheckedObject::of(objects[index]) {
        Ok(_) => Ok(()),
        Err(error) => Err(error),
    };
    let line = Line {
        file: inputs[index].path,
        result,
    };
    write_line(line, form, out)?;
    Ok(result.is_err())
}

// A line.
fn write_line<W: Write>(line: Line<'_>, form: Form, out: &mut W) -> io::Result<()>
    ensures { OnOk result (Appends (W.contents out.old) (W.contents out.new)
        (check_text form line.entry.file.now line.entry.result)) }
{
    if let Form::Text = form {
        return write!(out, "{}", line);
    }
    let error = match &line.result {
        Ok(()) => Value::Null,
        Err(error) => Value::Text(error.message()),
    };
    let members = [
        Member {
            key: "file",
            value: Value::Text(line.file),
        },
        Member {
            key: "error",
            value: error,
        },
    ];
    write_json(&members, out)
}

// The line of a file, as text: its path, and the result of its checks.
#[derive(Clone, Copy)]
struct Line<'a> {
    file: &'a str,
    result: Result<(), LinkError>,
}

impl Display for Line<'_> {
    ghost output = { λ line. Some (check_text Text line.file.now line.result) };

    fn fmt<W: fmt::Write>(&self, f: &mut fmt::Formatter<W>) -> fmt::Result {
        match self.result {
            Ok(()) => writeln!(f, "{}: ok", self.file),
            Err(error) => writeln!(f, "{}: {}", self.file, error),
        }
    }
}
