//! A line for each reference: the value and the size of the symbol that it gets.

ghost use Rattle.std.specs.Prelude.{◌≡◌, List, MatchResult, OnOk, Some, ℕ};
ghost use Rattle.std.specs.Io.KnownBytes.{Appends};
ghost use Rattle.elf_linking.specs.AnyTable.{IsGoodBy};
ghost use Rattle.elf_linking.specs.DynamicObject.{object_dynamic_symbols, object_symbols};
ghost use Rattle.elf_linking.specs.DynamicObject.{object_table};
ghost use Rattle.elfsym.specs.Lines.{AreFileLines, AreFileLinesBegun, AreFileLinesFailed};
ghost use Rattle.elfsym.specs.Lines.{AreInputLines, AreInputLinesBegun, AreInputLinesFailed};
ghost use Rattle.elfsym.specs.Lines.{AreLines, AreLinesBegun, AreNumbers, AreSymbolsFailed, Asks};
ghost use Rattle.elfsym.specs.Lines.{HasFirstLine, IsLine, IsSearchError, IsSearchFailed, line_text};
ghost use Rattle.elfsym.specs.Lines.{numbers_if_serving};
ghost use Rattle.program_ends.proofs.Flushed.{appended_flushed};
ghost use Rattle.program_ends.specs.Appended.{AppendsSome};
ghost use Rattle.program_ends.specs.Stops.{IsStop};
ghost use Rattle.program_ends.specs.declared.json.Form.TheVariants.{Text};

use elf_base::header::Class;
use elf_linking::find::{Use, Wanted};
use elf_linking::view::LinkedSymbol;
use elf_linking::{DynamicObject, LinkError, serves_others};
use program_ends::json::{Form, Member, Value, write_json};
use program_ends::{Output, Stop};
use std::convert::AsStr;
use std::fmt::Display;
use std::io::Write;
use std::{fmt, io};
use xmas_elf::ElfFile;
use xmas_elf::symbol_table::{DynEntry32, DynEntry64};

// A line for each reference in the file that these bytes are.
#[derive(Clone, Copy)]
pub(crate) struct Lines<'a, S> {
    pub(crate) input: &'a [u8],
    pub(crate) references: &'a [S],
    pub(crate) form: Form,
}

impl<S: AsStr> Output for Lines<'_, S> {
    ghost Writes = { λ lines. AppendsSome (AreInputLines lines.form S.text lines.input
        lines.references.now) };

    ghost flushed = { λ lines. appended_flushed (AreInputLines lines.form S.text lines.input
        lines.references.now) };

    type Error = LinkError;

    ghost Fails = { λ lines error. AreInputLinesFailed lines.form S.text lines.input
        lines.references.now error };

    ghost Begins = { λ lines. AreInputLinesBegun lines.form S.text lines.input
        lines.references.now };

    fn write_to<W: Write>(&self, out: &mut W) -> Result<(), Stop<LinkError>> {
        match ElfFile::new(self.input) {
            Ok(file) => write_lines(&file, self.references, self.form, out),
            Err(error) => Err(Stop::Failed(LinkError::Elf(error))),
        }
    }
}

// The lines of references in a file, by its class.
fn write_lines<S: AsStr, W: Write>(
    file: &ElfFile<'_>,
    references: &[S],
    form: Form,
    out: &mut W,
) -> Result<(), Stop<LinkError>>
    ensures { MatchResult result
        (λ _. AppendsSome (AreFileLines form S.text file.now references.now)
        (W.contents out.old) (W.contents out.new))
        (IsStop (AreFileLinesFailed form S.text file.now references.now)
        (AreFileLinesBegun form S.text file.now references.now) ⊥) }
{
    match file.header.pt1.class() {
        Class::ThirtyTwo => match DynamicObject::<DynEntry32>::read(file) {
            Ok(object) => write_checked(&object, references, form, out),
            Err(error) => Err(Stop::Failed(error)),
        },
        // An object has one of these two classes.
        _ => match DynamicObject::<DynEntry64>::read(file) {
            Ok(object) => write_checked(&object, references, form, out),
            Err(error) => Err(Stop::Failed(error)),
        },
    }
}

// The lines by the symbols of an object, once its check has passed.
fn write_checked<E: LinkedSymbol, S: AsStr, W: Write>(
    object: &DynamicObject<'_, E>,
    references: &[S],
    form: Form,
    out: &mut W,
) -> Result<(), Stop<LinkError>>
    ensures { let file = object_dynamic_symbols E.fields object.now in MatchResult result
        (λ _. AppendsSome (AreLines form S.text file references.now)
        (W.contents out.old) (W.contents out.new))
        (IsStop (AreSymbolsFailed form S.text file references.now)
        (AreLinesBegun form S.text file references.now) ⊥) }
{
    match object.check() {
        Ok(()) => write_each(object, references, form, out),
        Err(error) => Err(Stop::Failed(error)),
    }
}

// A line for each reference.
fn write_each<E: LinkedSymbol, S: AsStr, W: Write>(
    object: &DynamicObject<'_, E>,
    references: &[S],
    form: Form,
    out: &mut W,
) -> Result<(), Stop<LinkError>>
    requires good { IsGoodBy (object_table object.now)
        (object_symbols E.fields object.now) }
    ensures { let file = object_dynamic_symbols E.fields object.now in MatchResult result
        (λ _. AppendsSome (AreLines form S.text file references.now)
        (W.contents out.old) (W.contents out.new))
        (IsStop (IsSearchFailed form S.text file references.now)
        (HasFirstLine form S.text file references.now) ⊥) }
{
    for reference in references {
        match write_line(object, reference.as_str(), form, out) {
            Ok(()) => {}
            Err(stop) => return Err(stop),
        }
    }
    Ok(())
}

// The line of a reference.
fn write_line<E: LinkedSymbol, W: Write>(
    object: &DynamicObject<'_, E>,
    reference: &str,
    form: Form,
    out: &mut W,
) -> Result<(), Stop<LinkError>>
    requires good { IsGoodBy (object_table object.now)
        (object_symbols E.fields object.now) }
    ensures { let file = object_dynamic_symbols E.fields object.now in MatchResult result
        (λ _. AppendsSome (IsLine form file reference.now) (W.contents out.old) (W.contents out.new))
        (IsStop (IsSearchError file reference.now)
        ((line : List ℕ) × IsLine form file reference.now line) ⊥) }
{
    match numbers_of(object, reference) {
        Ok(numbers) => Ok(write_numbers(reference, numbers, form, out)?),
        Err(error) => Err(Stop::Failed(error)),
    }
}

// The line of a reference, by the value and the size of its symbol.
fn write_numbers<W: Write>(
    reference: &str,
    numbers: Option<(u64, u64)>,
    form: Form,
    out: &mut W,
) -> io::Result<()>
    ensures { OnOk result (Appends (W.contents out.old) (W.contents out.new)
        (line_text form reference.now numbers)) }
{
    if let Form::Text = form {
        return write!(out, "{}", Line { reference, numbers });
    }
    let (value, size) = match numbers {
        Some((value, size)) => (Value::Number(value), Value::Number(size)),
        None => (Value::Null, Value::Null),
    };
    let members = [
        Member {
            key: "name",
            value: Value::Text(reference),
        },
        Member {
            key: "value",
            value: value,
        },
        Member {
            key: "size",
            value: size,
        },
    ];
    write_json(&members, out)
}

// The value and the size of the symbol that a reference gets, if it serves other files than its own.
fn numbers_of<E: LinkedSymbol>(
    object: &DynamicObject<'_, E>,
    reference: &str,
) -> Result<Option<(u64, u64)>, LinkError>
    requires good { IsGoodBy (object_table object.now)
        (object_symbols E.fields object.now) }
    ensures { let file = object_dynamic_symbols E.fields object.now in
        MatchResult result (AreNumbers file reference.now) (IsSearchError file reference.now) }
{
    let (name, wanted) = asked(reference);
    match object.find(name, &wanted, Use::Any) {
        Ok(Some((_index, symbol))) => Ok(numbers_if_serving(&symbol)),
        Ok(None) => Ok(None),
        Err(error) => Err(error),
    }
}

// The value and the size of a symbol, if it serves other files than its own.
fn numbers_if_serving<E: LinkedSymbol>(symbol: &E) -> Option<(u64, u64)>
    ensures { result ≡ numbers_if_serving (E.fields symbol.now) }
{
    if serves_others(symbol) {
        Some((symbol.value(), symbol.size()))
    } else {
        None
    }
}

// The name and the version that a reference asks for.
pub(crate) fn asked(reference: &str) -> (&str, Wanted<'_>)
    ensures { Asks reference.now result.0.now result.1 }
{
    match reference.split_once('@') {
        Some((name, version)) => (name, Wanted::exact(version)),
        None => (reference, Wanted::Newest),
    }
}

// The line of a reference as text: the value and the size of its symbol, or that there is none.
#[derive(Clone, Copy)]
struct Line<'a> {
    reference: &'a str,
    numbers: Option<(u64, u64)>,
}

impl Display for Line<'_> {
    ghost output = { λ line. Some (line_text Text line.reference.now line.numbers) };

    fn fmt<W: fmt::Write>(&self, f: &mut fmt::Formatter<W>) -> fmt::Result {
        match self.numbers {
            Some((value, size)) => writeln!(f, "{} 0x{:x} 0x{:x}", self.reference, value, size),
            None => writeln!(f, "{}: none", self.reference),
        }
    }
}
