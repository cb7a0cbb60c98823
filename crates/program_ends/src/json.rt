//! Records as JSON (RFC 8259), an object on a line, for other programs to read.

ghost use Rattle.std.specs.Prelude.{◌≡◌, ◌+◌, ◌<◌, ◌^◌, IfSome, List, OnOk, false, length, option_map, ℕ};
ghost use Rattle.std.specs.Fmt.{digit_glyph};
ghost use Rattle.std.specs.Io.KnownBytes.{Appends};
ghost use Rattle.std.specs.List.{flat_map, position_from};
ghost use Rattle.std.specs.Str.{is_utf8};
ghost use Rattle.program_ends.specs.Json.{hex_byte, is_escaped, json_line, json_member};
ghost use Rattle.program_ends.specs.Json.{json_string, json_value, key_end, name_or_null, number_or_null};
ghost use Rattle.program_ends.specs.Json.{quoted, string_byte, text_or_null};
ghost use Rattle.program_ends.specs.JsonStrings.{Spells};

use std::convert::AsStr;
use std::io::Write;
use std::{io, str};

/// How a program writes its records.
#[derive(Clone, Copy, Debug)]
pub enum Form {
    /// As text.
    Text,
    /// As JSON, an object on a line.
    Json,
}

/// The form that the first argument asks for, which is `--json` for JSON, and the arguments after it.
pub fn form_asked<S: AsStr>(arguments: &[S]) -> (Form, &[S]) {
    match arguments.split_first() {
        Some((first, others)) if first.as_str() == "--json" => (Form::Json, others),
        _ => (Form::Text, arguments),
    }
}

/// A value of a member of a JSON object.
#[derive(Clone, Copy, Debug)]
pub enum Value<'a> {
    /// This number.
    Number(u64),
    /// Minus this number.
    Negative(u64),
    /// `true` or `false`.
    Bool(bool),
    /// `null`.
    Null,
    /// This text.
    Text(&'a str),
    /// The text that these bytes are; or, if they are not UTF-8, two hexadecimal digits for each of
    /// them, under the key with `_bytes` at its end.
    Name(&'a [u8]),
}

/// A member of a JSON object.
#[derive(Clone, Copy, Debug)]
pub struct Member<'a> {
    pub key: &'a str,
    pub value: Value<'a>,
}

/// A number, or null.
pub fn number_or_null<'a>(number: Option<u64>) -> Value<'a>
    ensures { result ≡ number_or_null number }
{
    match number {
        Some(number) => Value::Number(number),
        None => Value::Null,
    }
}

/// A text, or null.
pub fn text_or_null<'a>(text: Option<&'a str>) -> Value<'a>
    ensures value { json_value result ≡ json_value (text_or_null (option_map (λ text. text.now) text.entry)) }
    ensures key { key_end result ≡ key_end (text_or_null (option_map (λ text. text.now) text.entry)) }
{
    match text {
        Some(text) => Value::Text(text),
        None => Value::Null,
    }
}

/// A name, or null.
pub fn name_or_null<'a>(name: Option<&'a [u8]>) -> Value<'a>
    ensures value { json_value result ≡ json_value (name_or_null (option_map (λ name. name.now) name.entry)) }
    ensures key { key_end result ≡ key_end (name_or_null (option_map (λ name. name.now) name.entry)) }
{
    match name {
        Some(name) => Value::Name(name),
        None => Value::Null,
    }
}

/// Writes a JSON object with these members in their order, and a line feed.
pub fn write_json<W: Write>(members: &[Member<'_>], out: &mut W) -> io::Result<()>
    ensures { OnOk result (Appends (W.contents out.old) (W.contents out.new) (json_line members.now)) }
{
    out.write_all(b"{")?;
    let mut between: &[u8] = b"";
    for member in members {
        out.write_all(between)?;
        write_member(member, out)?;
        between = b",";
    }
    out.write_all(b"}\n")
}

// A member: its key, a colon and its value.
fn write_member<W: Write>(member: &Member<'_>, out: &mut W) -> io::Result<()>
    ensures { OnOk result (Appends (W.contents out.old) (W.contents out.new) (json_member member.now)) }
{
    out.write_all(b"\"")?;
    write_characters(member.key.as_bytes(), out)?;
    out.write_all(key_end(&member.value).as_bytes())?;
    out.write_all(b"\":")?;
    write_value(&member.value, out)
}

// What the key of a value has at its end.
fn key_end(value: &Value<'_>) -> &'static str
    ensures { result.now ≡ key_end value.now }
{
    match value {
        Value::Name(name) if !is_text(name) => "_bytes",
        _ => "",
    }
}

// A value.
fn write_value<W: Write>(value: &Value<'_>, out: &mut W) -> io::Result<()>
    ensures { OnOk result (Appends (W.contents out.old) (W.contents out.new) (json_value value.now)) }
{
    match *value {
        Value::Number(number) => write!(out, "{number}"),
        Value::Negative(0) => out.write_all(b"0"),
        Value::Negative(number) => write!(out, "-{number}"),
        Value::Bool(true) => out.write_all(b"true"),
        Value::Bool(false) => out.write_all(b"false"),
        Value::Null => out.write_all(b"null"),
        Value::Text(text) => write_string(text.as_bytes(), out),
        Value::Name(name) if is_text(name) => write_string(name, out),
        Value::Name(name) => write_hex(name, out),
    }
}

/// The law of strings: what is between the quotation marks spells the text, by the grammar of RFC 8259.
pub fn spelling_law()
    ensures { (text : List ℕ) → Spells (flat_map string_byte text) text }
{}

// Whether bytes are UTF-8.
fn is_text(bytes: &[u8]) -> bool
    ensures { result ≡ is_utf8 bytes.now }
{
    str::from_utf8(bytes).is_ok()
}

// A text as a string.
fn write_string<W: Write>(text: &[u8], out: &mut W) -> io::Result<()>
    ensures { OnOk result (Appends (W.contents out.old) (W.contents out.new) (json_string text.now)) }
{
    out.write_all(b"\"")?;
    write_characters(text, out)?;
    out.write_all(b"\"")
}

// Bytes in hexadecimal digits, as a string.
fn write_hex<W: Write>(bytes: &[u8], out: &mut W) -> io::Result<()>
    ensures { OnOk result (Appends (W.contents out.old) (W.contents out.new)
        (quoted (flat_map hex_byte bytes.now))) }
{
    out.write_all(b"\"")?;
    for byte in bytes {
        write_hex_byte(*byte, out)?;
    }
    out.write_all(b"\"")
}

// The characters of a string, with escapes.
fn write_characters<W: Write>(text: &[u8], out: &mut W) -> io::Result<()>
    ensures { OnOk result (Appends (W.contents out.old) (W.contents out.new)
        (flat_map string_byte text.now)) }
{
    let mut rest = text;
    'runs: while let Some(place) = first_escaped(rest) {
        out.write_all(&rest[..place])?;
        write_byte(rest[place], out)?;
        rest = &rest[place + 1..];
    }
    out.write_all(rest)
}

// A byte of a string.
fn write_byte<W: Write>(byte: u8, out: &mut W) -> io::Result<()>
    ensures { OnOk result (Appends (W.contents out.old) (W.contents out.new) (string_byte byte)) }
{
    if byte < 0x20 {
        out.write_all(b"\\u00")?;
        write_hex_byte(byte, out)
    } else if is_escaped(byte) {
        out.write_all(&[b'\\', byte])
    } else {
        out.write_all(&[byte])
    }
}

// A byte in two hexadecimal digits.
fn write_hex_byte<W: Write>(byte: u8, out: &mut W) -> io::Result<()>
    ensures { OnOk result (Appends (W.contents out.old) (W.contents out.new) (hex_byte byte)) }
{
    out.write_all(&[hex_digit(byte / 16), hex_digit(byte % 16)])
}

// The hexadecimal digit of a number.
fn hex_digit(number: u8) -> u8
    requires { number < 16 }
    ensures { result ≡ digit_glyph false number }
{
    if number < 10 {
        b'0' + number
    } else {
        b'a' - 10 + number
    }
}

// The index of the first byte that needs an escape.
fn first_escaped(text: &[u8]) -> Option<usize>
    ensures value { result ≡ position_from is_escaped 0 text.now }
    ensures bound { IfSome result (λ place. place < length text.now) }
    ensures room { IfSome result (λ place. place + 1 < 2 ^ 64) }
{
    text.iter().position(|byte| is_escaped(*byte))
}

// Whether a byte needs an escape in a string.
fn is_escaped(byte: u8) -> bool
    ensures { result ≡ is_escaped byte }
{
    byte < 0x20 || byte == b'"' || byte == b'\\'
}
