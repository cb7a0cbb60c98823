//! The lines of the functions that run when a program starts.

ghost use Rattle.std.specs.Prelude.{◌≡◌, OnOk, Some, ⊤};
ghost use Rattle.std.specs.Io.KnownBytes.{Appends};
ghost use Rattle.std.specs.List.{flat_map};
ghost use Rattle.elfload.specs.Starts.{index_text, part_text, start_line, start_record, start_text};
ghost use Rattle.program_ends.proofs.Flushed.{appended_flushed};
ghost use Rattle.program_ends.specs.Appended.{AppendsSome};

use crate::records::{index_or_null, value_kind, value_numbers};
use crate::starts::Start;
use crate::steps::Part;
use crate::words::Written;
use elf_loading::LoadError;
use linking_programs::Failed;
use program_ends::json::{Form, Member, number_or_null, write_json};
use program_ends::{Output, Stop, json};
use std::fmt::Display;
use std::io::Write;
use std::{fmt, io};

/// The lines of functions that run.
#[derive(Clone, Copy)]
pub(crate) struct StartLines<'l, 's> {
    pub(crate) form: Form,
    pub(crate) starts: &'l [Start<'s>],
}

impl<'s> Output for StartLines<'_, 's> {
    ghost Writes = { λ lines. AppendsSome (λ text. text ≡ flat_map (start_line lines.form) lines.starts.now) };

    ghost flushed = { λ lines. appended_flushed (λ text. text ≡ flat_map (start_line lines.form) lines.starts.now) };

    type Error = Failed<'s, LoadError>;

    ghost Fails = { λ lines failed. ⊥ };

    ghost Begins = { λ lines. ⊤ };

    fn write_to<W: Write>(&self, out: &mut W) -> Result<(), Stop<Failed<'s, LoadError>>> {
        match write_starts(self.form, self.starts, out) {
            Ok(()) => Ok(()),
            Err(_) => Err(Stop::Write),
        }
    }
}

// The lines of functions that run.
fn write_starts<W: Write>(form: Form, starts: &[Start<'_>], out: &mut W) -> io::Result<()>
    ensures { OnOk result (Appends (W.contents out.old) (W.contents out.new)
        (flat_map (start_line form) starts.now)) }
{
    for index in 0..starts.len() {
        write_start(form, starts[index], out)?;
    }
    Ok(())
}

// The line of a function that runs.
fn write_start<W: Write>(form: Form, start: Start<'_>, out: &mut W) -> io::Result<()>
    ensures { OnOk result (Appends (W.contents out.old) (W.contents out.new) (start_line form start.entry)) }
{
    match form {
        Form::Text => write!(out, "{}", Line(start)),
        Form::Json => write_record(start, out),
    }
}

// The same as JSON.
fn write_record<W: Write>(start: Start<'_>, out: &mut W) -> io::Result<()>
    ensures { OnOk result (Appends (W.contents out.old) (W.contents out.new) (start_record start.entry)) }
{
    let numbers = value_numbers(&start.value);
    let members = [
        Member {
            key: "file",
            value: json::Value::Text(start.path),
        },
        Member {
            key: "runs",
            value: json::Value::Text(part_text(start.step.part)),
        },
        Member {
            key: "index",
            value: index_or_null(start.index),
        },
        Member {
            key: "value",
            value: json::Value::Text(value_kind(&start.value)),
        },
        Member {
            key: "object",
            value: index_or_null(numbers.object),
        },
        Member {
            key: "resolver",
            value: number_or_null(numbers.resolver),
        },
        Member {
            key: "offset",
            value: number_or_null(numbers.offset),
        },
        Member {
            key: "size",
            value: number_or_null(numbers.size),
        },
    ];
    write_json(&members, out)
}

// The same as text.
#[derive(Clone, Copy)]
struct Line<'s>(Start<'s>);

impl Display for Line<'_> {
    ghost output = { λ line. Some (start_text line.0) };

    fn fmt<W: fmt::Write>(&self, f: &mut fmt::Formatter<W>) -> fmt::Result {
        let start = self.0;
        let value = Written(start.step.of, start.value);
        writeln!(
            f,
            "{} {}{} = {}",
            start.path,
            part_text(start.step.part),
            Index(start.index),
            value
        )
    }
}

// The name of a part.
fn part_text(part: Part) -> &'static str
    ensures { result.now ≡ part_text part }
{
    match part {
        Part::Preinit => "preinit_array",
        Part::Init => "init",
        Part::InitArray => "init_array",
        Part::Entry => "entry",
    }
}

// An index in an array, if there is one.
#[derive(Clone, Copy)]
struct Index(Option<usize>);

impl Display for Index {
    ghost output = { λ index. Some (index_text index.0) };

    fn fmt<W: fmt::Write>(&self, f: &mut fmt::Formatter<W>) -> fmt::Result {
        match self.0 {
            Some(index) => write!(f, "[{}]", index),
            None => Ok(()),
        }
    }
}
