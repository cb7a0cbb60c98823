//! The words that relocations write, free of bases.

ghost use Rattle.std.specs.Prelude.{◌≡◌, ◌<◌, Err, IsOk, IsSomeAnd, MatchResult, Some, length, slice_get};
ghost use Rattle.std.specs.Prelude.{OnOk, ⊤};
ghost use Rattle.std.specs.Io.KnownBytes.{Appends};
ghost use Rattle.elfload.specs.Interpreter.{binding_of};
ghost use Rattle.elfload.specs.Words.{AreWordsWritten, IsAskedText, IsItemsText, IsTextError};
ghost use Rattle.elfload.specs.Words.{IsTextFailed, IsWordError, heading_text, is_unchanged, item_text, line_text};
ghost use Rattle.elfload.specs.Words.{name_text, path_text, prefix_of, start_text, value_text, without_prefix};
ghost use Rattle.elfload.specs.Words.{word_record, word_text};
ghost use Rattle.linking_programs.specs.Files.{IsOfInput};
ghost use Rattle.program_ends.proofs.Flushed.{appended_flushed};
ghost use Rattle.program_ends.specs.Appended.{AppendsSome};
ghost use Rattle.program_ends.specs.Stops.{IsStop};

use crate::interpreter::binding_of;
use crate::records::{index_or_null, value_kind, value_numbers};
use elf_linking::DynamicObject;
use elf_linking::references::relocation_name;
use elf_linking::scope::Scope;
use elf_linking::view::LinkedSymbol;
use elf_loading::{Binding, LoadError, Origin, Relocated, Value, Word, Words};
use linking_programs::{Failed, Input, failure, failure_at};
use program_ends::json::{Form, Member, number_or_null, write_json};
use program_ends::{Output, Stop, json};
use std::fmt::Display;
use std::io::Write;
use std::{fmt, io};

// The words of all objects, which are those of the inputs.
#[derive(Drop)]
pub(crate) struct WordsText<'s, 'i, 'o, 'b, E: LinkedSymbol> {
    pub(crate) form: Form,
    pub(crate) when: Binding,
    pub(crate) inputs: &'s [Input<'i>],
    pub(crate) objects: &'o [DynamicObject<'b, E>],
    ghost same: { length objects.now ≡ length inputs.now },
}

impl<'s, E: LinkedSymbol> Output for WordsText<'s, '_, '_, '_, E> {
    ghost Writes = { λ text. AppendsSome
        (AreWordsWritten E.fields text.form text.when text.inputs.now text.objects.now) };

    ghost flushed = { λ text. appended_flushed
        (AreWordsWritten E.fields text.form text.when text.inputs.now text.objects.now) };

    type Error = Failed<'s, LoadError>;

    ghost Fails = { λ text. IsTextFailed E.fields text.when text.inputs.now text.objects.now };

    ghost Begins = { λ text. ⊤ };

    fn write_to<W: Write>(&self, out: &mut W) -> Result<(), Stop<Failed<'s, LoadError>>> {
        write_words(self.form, self.when, self.inputs, self.objects, out)
    }
}

// Writes the words of all objects, which are those of the inputs.
fn write_words<'s, E: LinkedSymbol, W: Write>(
    form: Form,
    when: Binding,
    inputs: &'s [Input<'_>],
    objects: &[DynamicObject<'_, E>],
    out: &mut W,
) -> Result<(), Stop<Failed<'s, LoadError>>>
    requires same { length objects.now ≡ length inputs.now }
    ensures { MatchResult result
        (λ _. AppendsSome (AreWordsWritten E.fields form when inputs.now objects.now)
        (W.contents out.old) (W.contents out.new))
        (IsStop (IsTextFailed E.fields when inputs.now objects.now) ⊤ ⊥) }
{
    for of in 0..objects.len() {
        match write_object(form, when, inputs, objects, of, out) {
            Ok(()) => {}
            Err(stop) => return Err(stop),
        }
    }
    Ok(())
}

// The words of the object at an index, after the heading of its file.
fn write_object<'s, E: LinkedSymbol, W: Write>(
    form: Form,
    when: Binding,
    inputs: &'s [Input<'_>],
    objects: &[DynamicObject<'_, E>],
    of: usize,
    out: &mut W,
) -> Result<(), Stop<Failed<'s, LoadError>>>
    requires same { length objects.now ≡ length inputs.now }
    requires below { of < length objects.now }
    ensures { MatchResult result
        (λ _. IsSomeAnd (slice_get objects.now of) (λ object.
        AppendsSome (IsAskedText E.fields form when inputs.now objects.now of object)
        (W.contents out.old) (W.contents out.new)))
        (IsStop (λ failed. IsOfInput inputs.now of failed
        × IsTextError E.fields (binding_of objects.now when of) objects.now of failed.error) ⊤ ⊥) }
{
    let path = inputs[of].path;
    write_heading(form, path, out)?;
    let machine = objects[of].file().header.pt2.machine().raw();
    let place = Place {
        form,
        path,
        machine,
        of,
    };
    let own = binding_of(objects, when, of);
    match Words::new(Scope::new(objects), of, own) {
        Ok(words) => write_items(place, words, out),
        Err(error) => Err(failure_at(inputs, of, LoadError::Link(error))),
    }
}

// The line before the words of a file; JSON has none, since each object has the path.
#[tactic(auto, using(crate::proofs::WordLines::nothing_more))]
fn write_heading<W: Write>(form: Form, path: &str, out: &mut W) -> io::Result<()>
    ensures { OnOk result (Appends (W.contents out.old) (W.contents out.new) (heading_text form path.now)) }
{
    match form {
        Form::Text => write!(out, "{}", Heading(path)),
        Form::Json => Ok(()),
    }
}

// How the lines of an object are written, and what they say of its file: its path, machine and index.
#[derive(Clone, Copy)]
struct Place<'s> {
    form: Form,
    path: &'s str,
    machine: u16,
    of: usize,
}

// The lines of the relocations that are left.
fn write_items<'s, E: LinkedSymbol, W: Write>(
    place: Place<'s>,
    words: Words<'_, '_, E>,
    out: &mut W,
) -> Result<(), Stop<Failed<'s, LoadError>>>
    ensures { MatchResult result
        (λ _. AppendsSome (IsItemsText E.fields place.entry words.entry)
        (W.contents out.old) (W.contents out.new))
        (IsStop (λ failed. (failed.path ≡ place.entry.path)
        × IsWordError E.fields words.entry failed.error) ⊤ ⊥) }
{
    for item in words {
        match write_item(place, &item, out) {
            Ok(()) => {}
            Err(stop) => return Err(stop),
        }
    }
    Ok(())
}

// The line of a relocation, if it writes something.
fn write_item<'s, E: LinkedSymbol, W: Write>(
    place: Place<'s>,
    item: &Relocated<E>,
    out: &mut W,
) -> Result<(), Stop<Failed<'s, LoadError>>>
    ensures { MatchResult result
        (λ _. IsOk item.now.word × AppendsSome (λ text. text ≡ item_text place.entry item.now)
        (W.contents out.old) (W.contents out.new))
        (IsStop (λ failed. (failed.path ≡ place.entry.path) × (item.now.word ≡ Err failed.error)) ⊤ ⊥) }
{
    let word = match item.word {
        Ok(word) => word,
        Err(error) => return Err(failure(place.path, error)),
    };
    if is_unchanged(&word.value) {
        return Ok(());
    }
    write_word(place, item.relocation.reference.kind, word, out)?;
    Ok(())
}

// The line of a word.
fn write_word<W: Write>(place: Place<'_>, kind: u32, word: Word, out: &mut W) -> io::Result<()>
    ensures { OnOk result (Appends (W.contents out.old) (W.contents out.new) (line_text place.entry kind word)) }
{
    match place.form {
        Form::Text => {
            let line = Line {
                word,
                name: Name(place.machine, kind),
                of: place.of,
            };
            write!(out, "{}", line)
        }
        Form::Json => write_record(place, kind, word, out),
    }
}

// The same as JSON.
fn write_record<W: Write>(place: Place<'_>, kind: u32, word: Word, out: &mut W) -> io::Result<()>
    ensures { OnOk result (Appends (W.contents out.old) (W.contents out.new)
        (word_record place.entry.path.now place.entry.machine kind word)) }
{
    let name = match relocation_name(place.machine, kind) {
        Some(name) => json::Value::Text(name),
        None => json::Value::Null,
    };
    let numbers = value_numbers(&word.value);
    let members = [
        Member {
            key: "file",
            value: json::Value::Text(place.path),
        },
        Member {
            key: "word",
            value: json::Value::Number(word.address),
        },
        Member {
            key: "width",
            value: json::Value::Number(u64::from(word.width)),
        },
        Member {
            key: "type",
            value: json::Value::Number(u64::from(kind)),
        },
        Member {
            key: "name",
            value: name,
        },
        Member {
            key: "value",
            value: json::Value::Text(value_kind(&word.value)),
        },
        Member {
            key: "object",
            value: index_or_null(numbers.object),
        },
        Member {
            key: "resolver",
            value: number_or_null(numbers.resolver),
        },
        Member {
            key: "offset",
            value: number_or_null(numbers.offset),
        },
        Member {
            key: "size",
            value: number_or_null(numbers.size),
        },
    ];
    write_json(&members, out)
}

// Whether nothing is written.
pub(crate) fn is_unchanged(value: &Value) -> bool
    ensures { result ≡ is_unchanged value.now }
{
    matches!(value, Value::Unchanged)
}

// The line before the words of a file.
#[derive(Clone, Copy)]
struct Heading<'a>(&'a str);

impl Display for Heading<'_> {
    ghost output = { λ heading. Some (path_text heading.0.now) };

    fn fmt<W: fmt::Write>(&self, f: &mut fmt::Formatter<W>) -> fmt::Result {
        writeln!(f, "words {}", self.0)
    }
}

// The line of a word.
#[derive(Clone, Copy)]
struct Line {
    word: Word,
    name: Name,
    of: usize,
}

impl Display for Line {
    ghost output = { λ line. Some (word_text line.name.0 line.name.1 line.of line.word) };

    fn fmt<W: fmt::Write>(&self, f: &mut fmt::Formatter<W>) -> fmt::Result {
        writeln!(
            f,
            "word 0x{:x} {} {} = {}",
            self.word.address,
            self.word.width,
            self.name,
            Written(self.of, self.word.value)
        )
    }
}

// The name of a relocation type of a machine, without what all of them begin with; or its number.
#[derive(Clone, Copy)]
struct Name(u16, u32);

impl Display for Name {
    ghost output = { λ name. Some (name_text name.0 name.1) };

    fn fmt<W: fmt::Write>(&self, f: &mut fmt::Formatter<W>) -> fmt::Result {
        match relocation_name(self.0, self.1) {
            Some(name) => write!(f, "{}", without_prefix(prefix_of(self.0), name)),
            None => write!(f, "{}", self.1),
        }
    }
}

// What the names of relocation types of a machine begin with.
fn prefix_of(machine: u16) -> &'static str
    ensures { result.now ≡ prefix_of machine }
{
    match machine {
        3 => "R_386_",
        62 => "R_X86_64_",
        _ => "R_AARCH64_",
    }
}

// `text` without `prefix`, if it begins with it.
fn without_prefix(prefix: &'static str, text: &'static str) -> &'static str
    ensures { result.now ≡ without_prefix prefix.now text.now }
{
    match text.strip_prefix(prefix) {
        Some(rest) => rest,
        None => text,
    }
}

// What is written to a word of the object at an index.
#[derive(Clone, Copy)]
pub(crate) struct Written(pub(crate) usize, pub(crate) Value);

impl Display for Written {
    ghost output = { λ written. Some (value_text written.0 written.1) };

    fn fmt<W: fmt::Write>(&self, f: &mut fmt::Formatter<W>) -> fmt::Result {
        let of = self.0;
        match self.1 {
            Value::Unchanged => Ok(()),
            Value::Sum { origin, offset } => write!(f, "{}0x{:x}", Start(origin), offset),
            Value::Distance { origin, offset } => {
                write!(f, "{}0x{:x} - base({})", Start(origin), offset, of)
            }
            Value::Module(object) => write!(f, "module({})", object),
            Value::Thread { object, offset } => write!(f, "thread({}) + 0x{:x}", object, offset),
            Value::ThreadNegated { object, offset } => {
                write!(f, "0x{:x} - thread({})", offset, object)
            }
            Value::Descriptor {
                object: Some(object),
                offset,
            } => write!(f, "descriptor({}, 0x{:x})", object, offset),
            Value::Descriptor {
                object: None,
                offset,
            } => write!(f, "descriptor(0x{:x})", offset),
            Value::Copy {
                object,
                offset,
                size,
            } => write!(f, "copy({}, 0x{:x}, {})", object, offset, size),
        }
    }
}

// What a sum begins with.
#[derive(Clone, Copy)]
struct Start(Origin);

impl Display for Start {
    ghost output = { λ start. Some (start_text start.0) };

    fn fmt<W: fmt::Write>(&self, f: &mut fmt::Formatter<W>) -> fmt::Result {
        match self.0 {
            Origin::Zero => Ok(()),
            Origin::Base(object) => write!(f, "base({}) + ", object),
            Origin::Call {
                object: Some(object),
                offset,
            } => write!(f, "call(base({}) + 0x{:x}) + ", object, offset),
            Origin::Call {
                object: None,
                offset,
            } => write!(f, "call(0x{:x}) + ", offset),
        }
    }
}
