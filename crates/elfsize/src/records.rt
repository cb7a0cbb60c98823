//! The lines as JSON, an object on each.

ghost use Rattle.std.specs.Prelude.{◌≡◌, OnOk, option_map};
ghost use Rattle.std.specs.Io.KnownBytes.{Appends};
ghost use Rattle.elfsize.specs.Json.{capped, change_record, less, size_record};

use program_ends::json::{Member, Value, name_or_null, number_or_null, text_or_null, write_json};
use std::io;
use std::io::Write;

/// The size of a part of a file, or of all parts of files.
#[derive(Clone, Copy, Debug)]
pub struct SizeRecord<'a> {
    /// The path of the file.
    pub file: Option<&'a str>,
    /// What the part is.
    pub kind: &'a str,
    /// The index of the part.
    pub index: Option<u64>,
    /// Its name.
    pub name: Option<&'a [u8]>,
    /// The number of its bytes.
    pub size: u64,
    /// Its share of the file, in hundredths of a percent.
    pub share: Option<u64>,
}

/// A change of a size.
#[derive(Clone, Copy, Debug)]
pub struct ChangeRecord<'a> {
    /// What the part is.
    pub kind: &'a str,
    /// The index of the part.
    pub index: Option<u64>,
    /// Its name.
    pub name: Option<&'a [u8]>,
    /// Whether it came or went.
    pub state: Option<&'a str>,
    /// The number of its bytes before.
    pub old: u64,
    /// The number of its bytes now.
    pub new: u64,
    /// Whether it is all parts of a kind.
    pub total: bool,
}

/// Writes the line of a size.
#[tactic(auto, unfolding(crate::specs::Json::size_record))]
pub fn write_size<W: Write>(size: &SizeRecord<'_>, out: &mut W) -> io::Result<()>
    ensures { OnOk result (Appends (W.contents out.old) (W.contents out.new)
        (size_record (option_map (λ file. file.now) size.now.file) size.now.kind.now size.now.index
        (option_map (λ name. name.now) size.now.name) size.now.size size.now.share)) }
{
    let members = [
        member("file", text_or_null(size.file)),
        member("kind", Value::Text(size.kind)),
        member("index", number_or_null(size.index)),
        member("name", name_or_null(size.name)),
        member("size", Value::Number(size.size)),
        member("share", number_or_null(size.share)),
    ];
    write_json(&members, out)
}

/// Writes the line of a change.
pub fn write_change<W: Write>(change: &ChangeRecord<'_>, out: &mut W) -> io::Result<()>
    ensures { OnOk result (Appends (W.contents out.old) (W.contents out.new)
        (change_record change.now.kind.now change.now.index (option_map (λ name. name.now) change.now.name)
        (option_map (λ state. state.now) change.now.state) change.now.old change.now.new change.now.total)) }
{
    let members = [
        member("kind", Value::Text(change.kind)),
        member("index", number_or_null(change.index)),
        member("name", name_or_null(change.name)),
        member("state", text_or_null(change.state)),
        member("difference", less(change.new, change.old)),
        member("size", Value::Number(change.new)),
        member("total", Value::Bool(change.total)),
    ];
    write_json(&members, out)
}

// A member of a record.
fn member<'a>(key: &'a str, value: Value<'a>) -> Member<'a>
    ensures key { result.key ≡ key.entry }
    ensures value { result.value ≡ value.entry }
{
    Member { key, value }
}

// A number less another one.
fn less<'a>(new: u64, old: u64) -> Value<'a>
    ensures { result ≡ less new old }
{
    if new < old {
        Value::Negative(old - new)
    } else {
        Value::Number(new - old)
    }
}

/// A number of 64 bits, or the greatest.
pub fn capped(number: u128) -> u64
    ensures { result ≡ capped number }
{
    match u64::try_from(number) {
        Ok(number) => number,
        Err(_) => u64::MAX,
    }
}
