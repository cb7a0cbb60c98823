//! The lines as JSON, an object on each.

use crate::lines::{Asked, Line};
use crate::texts::how_text;
use elf_search::names::NameKind;
use elf_search::versions::Lack;
use program_ends::json::{Member, Value, write_json};
use program_libraries::{LackedVersion, Object};
use std::io;
use std::io::Write;

/// Writes a line as JSON, with the path of the program to which it belongs.
pub(crate) fn write_record<'x, W: Write>(
    program: &'x str,
    line: Line<'x>,
    out: &mut W,
) -> io::Result<()> {
    match line {
        Line::Program { object, place } => write_item(program, None, Some((object, place)), out),
        Line::Found {
            asked,
            object,
            place,
        } => write_item(program, Some(asked), Some((object, place)), out),
        Line::Missing(asked) => write_item(program, Some(asked), None, out),
        Line::Version(lacked) => write_version(program, lacked, out),
        Line::Start(path) => write_start(program, path, out),
        Line::Path(path) => write_path(program, path, out),
    }
}

// The line of the program, which no entry asks for, or of an entry with the object that it had loaded and the
// place of this object in the list, if it had one.
fn write_item<'x, W: Write>(
    program: &'x str,
    asked: Option<Asked<'x>>,
    found: Option<(&'x Object, usize)>,
    out: &mut W,
) -> io::Result<()> {
    let kind = if found.is_some() { "object" } else { "missing" };
    let (depth, from, name, entry) = asked_values(asked);
    let (file, how, place) = found_values(found);
    let members = [
        member("program", Value::Text(program)),
        member("kind", Value::Text(kind)),
        member("depth", depth),
        member("from", from),
        member("name", name),
        member("entry", entry),
        member("file", file),
        member("how", how),
        member("place", place),
    ];
    write_json(&members, out)
}

// How deep an entry's line is, the path of the object that has the entry, its name, and what it asks for; of
// the program nulls after the depth.
fn asked_values<'x>(asked: Option<Asked<'x>>) -> (Value<'x>, Value<'x>, Value<'x>, Value<'x>) {
    match asked {
        Some(asked) => (
            Value::Number(asked.depth as u64),
            Value::Text(&asked.object.path),
            Value::Name(&asked.entry.name),
            Value::Text(entry_text(asked.entry.kind)),
        ),
        None => (Value::Number(0), Value::Null, Value::Null, Value::Null),
    }
}

// The path of an object, how it was found and its place in the list; of a missing one nulls.
fn found_values<'x>(found: Option<(&'x Object, usize)>) -> (Value<'x>, Value<'x>, Value<'x>) {
    match found {
        Some((object, place)) => (
            Value::Text(&object.path),
            Value::Text(how_text(object.how)),
            Value::Number(place as u64),
        ),
        None => (Value::Null, Value::Null, Value::Null),
    }
}

// The line of a version that a library lacks.
fn write_version<'x, W: Write>(
    program: &'x str,
    lacked: &'x LackedVersion<'x>,
    out: &mut W,
) -> io::Result<()> {
    let record = match lacked.record {
        Some(number) => Value::Number(u64::from(number)),
        None => Value::Null,
    };
    let members = [
        member("program", Value::Text(program)),
        member("kind", Value::Text("version")),
        member("from", Value::Text(lacked.by)),
        member("version", Value::Text(lacked.version)),
        member("file", Value::Text(lacked.library)),
        member("reason", Value::Text(reason_text(lacked))),
        member("record", record),
    ];
    write_json(&members, out)
}

// The line of a library that starts.
fn write_start<'x, W: Write>(program: &'x str, path: &'x str, out: &mut W) -> io::Result<()> {
    let members = [
        member("program", Value::Text(program)),
        member("kind", Value::Text("start")),
        member("file", Value::Text(path)),
    ];
    write_json(&members, out)
}

// The line of an object that is in the list.
fn write_path<'x, W: Write>(program: &'x str, path: &'x str, out: &mut W) -> io::Result<()> {
    let members = [
        member("program", Value::Text(program)),
        member("file", Value::Text(path)),
    ];
    write_json(&members, out)
}

// A member of an object.
fn member<'a>(key: &'a str, value: Value<'a>) -> Member<'a> {
    Member { key, value }
}

// What an entry asks for.
fn entry_text(kind: NameKind) -> &'static str {
    match kind {
        NameKind::Needed => "needed",
        NameKind::Auxiliary => "auxiliary",
        NameKind::Filter => "filter",
    }
}

// Why a version is missing.
fn reason_text(lacked: &LackedVersion<'_>) -> &'static str {
    if lacked.record.is_some() {
        return "record";
    }
    match lacked.lack {
        Lack::NoInformation => "unversioned",
        Lack::Weak => "weak",
        Lack::Strong => "missing",
    }
}
