//! The lines of the difference of two files.

ghost use Rattle.std.specs.Prelude.{◌≡◌, ⊤, IfOk, MatchResult, OnOk, Some, codes, option_map};
ghost use Rattle.std.specs.Io.KnownBytes.{Appends};
ghost use Rattle.std.specs.List.{flat_map};
ghost use Rattle.elfsize.specs.Differences.{AreKinds, AreParts, IsChangesText, IsDifferenceText, IsPartOf};
ghost use Rattle.elfsize.specs.Differences.{change_text, different_text, found_text, kind_line};
ghost use Rattle.elfsize.specs.Differences.{kind_number, kind_record, kind_text, kinds_lines};
ghost use Rattle.elfsize.specs.Differences.{kinds_records, kinds_text, mark_text, segment_index};
ghost use Rattle.elfsize.specs.Differences.{sign_of, start_of, state_word, step_text};
ghost use Rattle.elfsize.specs.Lines.{AreFileSizes, IsShort};
ghost use Rattle.program_ends.specs.declared.json.Form.TheVariants as forms;
ghost use Rattle.program_ends.proofs.Flushed.{appended_flushed};
ghost use Rattle.program_ends.specs.Appended.{AppendsSome};
ghost use Rattle.program_ends.specs.Stops.{IsStop};

use crate::lines::{AnyError, file_sizes, kind_word, name_of, other_text, part_name};
use crate::records;
use crate::records::{ChangeRecord, capped};
use crate::side::Side;
use crate::sums::{Sums, file_sums};
use crate::totals::Run;
use elf_addresses::{Change, SizedPart, differences};
use program_ends::json::Form;
use program_ends::{Output, Stop, write_name};
use std::alloc::{AllocError, Global};
use std::fmt::Display;
use std::io::Write;
use std::{fmt, io};
use xmas_elf::ElfFile;

// The difference of two files.
#[derive(Clone, Copy)]
pub(crate) struct Difference<'a> {
    pub(crate) alloc: Global,
    pub(crate) form: Form,
    pub(crate) old: &'a Side<'a>,
    pub(crate) new: &'a Side<'a>,
}

impl Output for Difference<'_> {
    ghost Writes = { λ sides. AppendsSome (IsDifferenceText sides.form sides.old.now sides.new.now) };

    ghost flushed = { λ sides.
        appended_flushed (IsDifferenceText sides.form sides.old.now sides.new.now) };

    type Error = AnyError;

    ghost Fails = { λ sides. IsShort };

    ghost Begins = { λ sides. ⊤ };

    #[tactic(auto, using(crate::proofs::Compared::pair_ends))]
    fn write_to<W: Write>(&self, out: &mut W) -> Result<(), Stop<AnyError>> {
        let old = self.old;
        let new = self.new;
        let Ok(mut old_parts) = parts_of(self.alloc, old) else {
            return Err(Stop::Failed(AnyError::Memory));
        };
        let Ok(mut new_parts) = parts_of(self.alloc, new) else {
            return Err(Stop::Failed(AnyError::Memory));
        };
        let Ok(kinds) = kinds_of(self.alloc, &old.file, &new.file) else {
            return Err(Stop::Failed(AnyError::Memory));
        };
        let how = (self.alloc, self.form);
        write_changes(how, &mut old_parts, &mut new_parts, &kinds, out)
    }
}

// The bytes of two files by kind, and their sizes.
#[tactic(auto, using(crate::proofs::Compared::kinds_are))]
fn kinds_of(alloc: Global, old: &ElfFile<'_>, new: &ElfFile<'_>) -> Result<Kinds, AllocError>
    ensures { IfOk result (AreKinds old.now new.now) }
{
    let old_sums = file_sums(alloc, old)?;
    let new_sums = file_sums(alloc, new)?;
    Ok(Kinds {
        old: old_sums,
        new: new_sums,
        old_bytes: old.input.len() as u64,
        new_bytes: new.input.len() as u64,
    })
}

// The parts of a file that have bytes, with their names.
fn parts_of<'a>(alloc: Global, side: &'a Side<'_>) -> Result<Vec<SizedPart<'a>>, AllocError>
    ensures { IfOk result (λ parts. AreParts side.now.file side.now.symbols parts.items) }
{
    let sizes = file_sizes(alloc, &side.file, &side.symbols)?;
    named_parts(alloc, side, &sizes)
}

// The parts of these sizes, with their names.
#[tactic(auto, using(crate::proofs::Compared::no_parts, crate::proofs::Compared::all_parts))]
fn named_parts<'a>(
    alloc: Global,
    side: &'a Side<'_>,
    sizes: &[Run],
) -> Result<Vec<SizedPart<'a>>, AllocError>
    requires { AreFileSizes side.now.file side.now.symbols sizes.now }
    ensures { IfOk result (λ parts. AreParts side.now.file side.now.symbols parts.items) }
{
    let mut parts = Vec::new(alloc);
    for one in sizes {
        parts.push(named_part(side, one))?;
    }
    Ok(parts)
}

// The part of a size, with its name.
#[tactic(auto, using(crate::proofs::Compared::part_is))]
fn named_part<'a>(side: &'a Side<'_>, one: &Run) -> SizedPart<'a>
    ensures { IsPartOf side.now.file side.now.symbols one.now result }
{
    SizedPart {
        kind: kind_number(one.part),
        name: part_name(&side.file, &side.symbols, one.part),
        place: one.part,
        size: one.size,
    }
}

// The number of the kind of a part.
fn kind_number(part: usize) -> usize
    ensures { result ≡ kind_number part }
{
    if part % 4 == 3 {
        3 + part / 4
    } else {
        part % 4
    }
}

// The lines of the differences of two lists of parts, and those of the kinds.
#[tactic(auto, using(crate::proofs::Compared::changes_written))]
fn write_changes<'a, W: Write>(
    how: (Global, Form),
    old: &mut [SizedPart<'a>],
    new: &mut [SizedPart<'a>],
    kinds: &Kinds,
    out: &mut W,
) -> Result<(), Stop<AnyError>>
    ensures { MatchResult result
        (λ _. AppendsSome (IsChangesText how.1 old.old new.old kinds.now)
        (W.contents out.old) (W.contents out.new))
        (IsStop IsShort ⊤ ⊥) }
{
    let (alloc, form) = how;
    let count = old.len().saturating_add(new.len());
    let nothing = Change::New(SizedPart {
        kind: 0,
        name: b"",
        place: 0,
        size: 0,
    });
    let Ok(mut changes) = vec![in alloc; nothing; count] else {
        return Err(Stop::Failed(AnyError::Memory));
    };
    let Some(found) = differences(&mut *old, &mut *new, &mut changes) else {
        return Err(Stop::Failed(AnyError::Memory));
    };
    match write_found(form, found, kinds, out) {
        Ok(()) => Ok(()),
        Err(_) => Err(Stop::Write),
    }
}

// The lines of changes, and those of the kinds.
fn write_found<W: Write>(
    form: Form,
    changes: &[Change<'_>],
    kinds: &Kinds,
    out: &mut W,
) -> io::Result<()>
    ensures { OnOk result (Appends (W.contents out.old) (W.contents out.new)
        (found_text form changes.now kinds.now)) }
{
    write_lines(form, changes, &mut *out)?;
    write_kinds(form, kinds, out)
}

// The lines of changes.
fn write_lines<W: Write>(form: Form, changes: &[Change<'_>], out: &mut W) -> io::Result<()>
    ensures { OnOk result (Appends (W.contents out.old) (W.contents out.new)
        (flat_map (change_text form) changes.now)) }
{
    for change in changes {
        write_change(form, change, out)?;
    }
    Ok(())
}

// The line of a change; none if the size is the same.
#[tactic(auto, using(crate::proofs::Compared::nothing_added))]
fn write_change<W: Write>(form: Form, change: &Change<'_>, out: &mut W) -> io::Result<()>
    ensures { OnOk result (Appends (W.contents out.old) (W.contents out.new)
        (change_text form change.now)) }
{
    if change.distance() == 0 {
        return Ok(());
    }
    match form {
        Form::Text => write_different(change, out),
        Form::Json => write_record(change, out),
    }
}

// The line of a change of a size, as JSON.
fn write_record<W: Write>(change: &Change<'_>, out: &mut W) -> io::Result<()>
    ensures { OnOk result (Appends (W.contents out.old) (W.contents out.new)
        (different_text forms.Json change.now)) }
{
    let old = change.old_size();
    let new = change.new_size();
    let shown = change.part();
    let record = ChangeRecord {
        kind: kind_word(shown.place),
        index: segment_index(shown.place),
        name: name_of(shown.place, shown.name),
        state: state_word(change),
        old,
        new,
        total: false,
    };
    records::write_change(&record, out)
}

// The index of a part that has no name.
fn segment_index(part: usize) -> Option<u64>
    ensures { result ≡ segment_index part }
{
    if part % 4 == 1 {
        Some((part / 4) as u64)
    } else {
        None
    }
}

// Whether a part came or went, in one word.
fn state_word(change: &Change<'_>) -> Option<&'static str>
    ensures { option_map (λ word. word.now) result ≡ state_word change.now }
{
    match change {
        Change::Gone(_) => Some("gone"),
        Change::New(_) => Some("new"),
        Change::Both(_, _) => None,
    }
}

// The line of a change of a size, as text.
fn write_different<W: Write>(change: &Change<'_>, out: &mut W) -> io::Result<()>
    ensures { OnOk result (Appends (W.contents out.old) (W.contents out.new)
        (different_text forms.Text change.now)) }
{
    let old = change.old_size();
    let new = change.new_size();
    let mark = mark_text(change);
    let shown = change.part();
    let start = Start {
        old,
        new,
        mark,
        part: shown.place,
    };
    write!(out, "{}", start)?;
    write_name(shown.name, out)?;
    out.write_all(b"\n")
}

// Whether a part came or went.
fn mark_text(change: &Change<'_>) -> &'static str
    ensures { result.now ≡ mark_text change.now }
{
    match change {
        Change::Gone(_) => "gone ",
        Change::New(_) => "new ",
        Change::Both(_, _) => "",
    }
}

// The line of a change before the name of its part.
#[derive(Clone, Copy)]
struct Start<'a> {
    old: u64,
    new: u64,
    mark: &'a str,
    part: usize,
}

impl Display for Start<'_> {
    ghost output = { λ start. Some (start_of start.old start.new start.mark.now start.part) };

    fn fmt<W: fmt::Write>(&self, f: &mut fmt::Formatter<W>) -> fmt::Result {
        let step = Step {
            old: u128::from(self.old),
            new: u128::from(self.new),
        };
        write!(f, "{}{}{}", step, self.mark, Label(self.part))
    }
}

// By how much a number of bytes changed, and what it is now.
#[derive(Clone, Copy)]
struct Step {
    old: u128,
    new: u128,
}

impl Display for Step {
    ghost output = { λ step. Some (step_text step.old step.new) };

    #[tactic(auto, unfolding(crate::specs::Differences::step_text))]
    fn fmt<W: fmt::Write>(&self, f: &mut fmt::Formatter<W>) -> fmt::Result {
        let sign = sign_of(self.old, self.new);
        write!(
            f,
            "{}{} -> {} ",
            sign,
            self.new.abs_diff(self.old),
            self.new
        )
    }
}

// Whether a number of bytes became less.
fn sign_of(old: u128, new: u128) -> &'static str
    ensures { result.now ≡ sign_of old new }
{
    if new < old { "-" } else { "+" }
}

// What a part is, before its name.
#[derive(Clone, Copy)]
struct Label(usize);

impl Display for Label {
    ghost output = { λ label. Some (kind_text label.0) };

    fn fmt<W: fmt::Write>(&self, f: &mut fmt::Formatter<W>) -> fmt::Result {
        let (index, kind) = (self.0 / 4, self.0 % 4);
        if kind == 0 {
            return f.write_str("section ");
        }
        if kind == 1 {
            return write!(f, "segment {}", index);
        }
        if kind == 2 {
            return f.write_str("symbol ");
        }
        f.write_str(other_text(index))
    }
}

/// The bytes of two files by kind of part, and their sizes.
#[derive(Clone, Copy)]
pub struct Kinds {
    /// Those of the old file.
    pub old: Sums,
    /// Those of the new file.
    pub new: Sums,
    /// The size of the old file.
    pub old_bytes: u64,
    /// The size of the new file.
    pub new_bytes: u64,
}

impl Display for Kinds {
    ghost output = { λ kinds.
        Some (kinds_lines kinds.old kinds.new kinds.old_bytes kinds.new_bytes) };

    fn fmt<W: fmt::Write>(&self, f: &mut fmt::Formatter<W>) -> fmt::Result {
        let (old, new) = (&self.old, &self.new);
        write!(
            f,
            "all parts\n{}{}{}{}{}{}{}{}",
            Line(old.sections, new.sections, "sections"),
            Line(old.segments, new.segments, "segments"),
            Line(old.elf_headers, new.elf_headers, "ELF headers"),
            Line(old.program_headers, new.program_headers, "program headers"),
            Line(old.section_headers, new.section_headers, "section headers"),
            Line(old.between, new.between, "between parts"),
            Line(old.after, new.after, "after all parts"),
            Line(
                u128::from(self.old_bytes),
                u128::from(self.new_bytes),
                "sum"
            )
        )
    }
}

// The line of a kind.
#[derive(Clone, Copy)]
struct Line<'a>(u128, u128, &'a str);

impl Display for Line<'_> {
    ghost output = { λ line. Some (kind_line line.0 line.1 line.2.now) };

    #[tactic(auto, unfolding(crate::specs::Differences::kind_line))]
    fn fmt<W: fmt::Write>(&self, f: &mut fmt::Formatter<W>) -> fmt::Result {
        let step = Step {
            old: self.0,
            new: self.1,
        };
        writeln!(f, "{}{}", step, self.2)
    }
}

// The lines of the kinds.
fn write_kinds<W: Write>(form: Form, kinds: &Kinds, out: &mut W) -> io::Result<()>
    ensures { OnOk result (Appends (W.contents out.old) (W.contents out.new) (kinds_text form kinds.now)) }
{
    match form {
        Form::Text => write!(out, "{}", *kinds),
        Form::Json => write_kind_records(kinds, out),
    }
}

// The lines of the kinds, as JSON.
fn write_kind_records<W: Write>(kinds: &Kinds, out: &mut W) -> io::Result<()>
    ensures { OnOk result (Appends (W.contents out.old) (W.contents out.new)
        (kinds_records kinds.now.old kinds.now.new kinds.now.old_bytes kinds.now.new_bytes)) }
{
    let (old, new) = (&kinds.old, &kinds.new);
    write_kind(old.sections, new.sections, "sections", out)?;
    write_kind(old.segments, new.segments, "segments", out)?;
    write_kind(old.elf_headers, new.elf_headers, "ELF headers", out)?;
    write_kind(
        old.program_headers,
        new.program_headers,
        "program headers",
        out,
    )?;
    write_kind(
        old.section_headers,
        new.section_headers,
        "section headers",
        out,
    )?;
    write_kind(old.between, new.between, "between parts", out)?;
    write_kind(old.after, new.after, "after all parts", out)?;
    write_sum(kinds.old_bytes, kinds.new_bytes, out)
}

// The line of the sum, as JSON.
fn write_sum<W: Write>(old: u64, new: u64, out: &mut W) -> io::Result<()>
    ensures { OnOk result (Appends (W.contents out.old) (W.contents out.new)
        (kind_record old new (codes "sum"))) }
{
    write_kind(u128::from(old), u128::from(new), "sum", out)
}

// The line of a kind, as JSON.
#[tactic(auto, unfolding(crate::specs::Differences::kind_record))]
fn write_kind<W: Write>(old: u128, new: u128, kind: &str, out: &mut W) -> io::Result<()>
    ensures { OnOk result (Appends (W.contents out.old) (W.contents out.new)
        (kind_record old new kind.now)) }
{
    let record = ChangeRecord {
        kind,
        index: None,
        name: None,
        state: None,
        old: capped(old),
        new: capped(new),
        total: true,
    };
    records::write_change(&record, out)
}
