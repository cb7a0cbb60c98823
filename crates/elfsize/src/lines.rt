//! A line for each part of a file: its size, its share, and what it is.

ghost use Rattle.std.specs.Prelude.{◌≡◌, ◌<◌, ◌^◌, ⊤, [], All, IfOk, MatchResult, OnOk, Some, option_map};
ghost use Rattle.std.specs.Io.KnownBytes.{Appends};
ghost use Rattle.std.specs.List.{flat_map};
ghost use Rattle.elf_addresses.specs.FileClaims.{byte_count};
ghost use Rattle.elfsize.specs.Lines.{AreFileSizes, IsShort, IsTextBy, amount_text, head_text, index_of};
ghost use Rattle.elfsize.specs.Lines.{kind_word, label_text, line_text, name_of, other_text, part_name};
ghost use Rattle.elfsize.specs.Lines.{section_name, share_of, sizes_text, start_text, sum_line, sum_text};
ghost use Rattle.elfsize.specs.Symbols.{AreFew, AreRunsBy};
ghost use Rattle.elfsize.specs.Totals.{all_bytes};
ghost use Rattle.program_ends.specs.declared.json.Form.TheVariants as forms;
ghost use Rattle.program_ends.proofs.Flushed.{appended_flushed};
ghost use Rattle.program_ends.specs.Appended.{AppendsSome};
ghost use Rattle.program_ends.specs.Stops.{IsStop};

use crate::parts::file_runs;
use crate::records::{SizeRecord, capped, write_size};
use crate::side::Side;
use crate::split::split_runs;
use crate::symbols::{Symbols, symbol_name_in};
use crate::totals::{Run, part_sizes};
use program_ends::json::Form;
use program_ends::{Output, Stop, write_name};
use std::alloc::{AllocError, Global};
use std::fmt::Display;
use std::io::Write;
use std::{fmt, io};
use thiserror::Error;
use xmas_elf::{ElfError, ElfFile};

/// Why a file has no lines.
#[derive(Clone, Copy, Debug, Drop, Error)]
pub enum AnyError {
    /// It isn't an ELF file, or its symbols can't be read.
    #[error("{0}")]
    Elf(ElfError),
    /// It has 2 to the 32 symbols or more.
    #[error("Table has 2^32 symbols or more")]
    Many,
    /// There isn't enough memory for its sizes.
    #[error("not enough memory")]
    Memory,
}

// The path and the lines of a file, with the sum.
#[derive(Clone, Copy)]
pub(crate) struct Lines<'a> {
    pub(crate) alloc: Global,
    pub(crate) form: Form,
    pub(crate) path: &'a str,
    pub(crate) side: &'a Side<'a>,
}

impl Output for Lines<'_> {
    ghost Writes = { λ lines. AppendsSome (IsTextBy lines.form lines.path.now lines.side.now) };

    ghost flushed = { λ lines. appended_flushed (IsTextBy lines.form lines.path.now lines.side.now) };

    type Error = AnyError;

    ghost Fails = { λ lines. IsShort };

    ghost Begins = { λ lines. ⊤ };

    fn write_to<W: Write>(&self, out: &mut W) -> Result<(), Stop<AnyError>> {
        let side = self.side;
        match file_sizes(self.alloc, &side.file, &side.symbols) {
            Ok(sizes) => write_all_of(self, &sizes, out),
            Err(_) => Err(Stop::Failed(AnyError::Memory)),
        }
    }
}

// The lines of a file with these sizes of its parts.
fn write_all_of<W: Write>(
    lines: &Lines<'_>,
    sizes: &[Run],
    out: &mut W,
) -> Result<(), Stop<AnyError>>
    requires { AreFileSizes lines.now.side.now.file lines.now.side.now.symbols sizes.now }
    ensures { MatchResult result
        (λ _. AppendsSome (IsTextBy lines.now.form lines.now.path.now lines.now.side.now)
        (W.contents out.old) (W.contents out.new))
        (IsStop IsShort ⊤ ⊥) }
{
    match write_sizes(lines, sizes, out) {
        Ok(()) => Ok(()),
        Err(_) => Err(Stop::Write),
    }
}

// The sizes of the parts of a file.
pub(crate) fn file_sizes(
    alloc: Global,
    file: &ElfFile<'_>,
    symbols: &Symbols<'_>,
) -> Result<Vec<Run>, AllocError>
    requires { AreFew symbols.now }
    ensures { IfOk result (λ sizes. AreFileSizes file.now symbols.now sizes.items) }
{
    // This tells the proof that the length is a number of 64 bits.
    let _len = file.input.len();
    let runs = runs_by(alloc, file, symbols)?;
    part_sizes(alloc, &runs)
}

// The runs of a file, with the bytes of sections by symbol if there are symbols.
fn runs_by(alloc: Global, file: &ElfFile<'_>, symbols: &Symbols<'_>) -> Result<Vec<Run>, AllocError>
    requires { AreFew symbols.now }
    ensures runs { IfOk result (λ runs. AreRunsBy symbols.now file.now runs.items) }
    ensures numbers { IfOk result (λ runs. All (λ run. run.part < 2 ^ 40) runs.items) }
    ensures sum { IfOk result (λ runs. all_bytes runs.items ≡ byte_count file.now) }
{
    match symbols {
        Symbols::None => file_runs(alloc, file),
        Symbols::Narrow(symbols) => split_runs(alloc, file, symbols),
        Symbols::Wide(symbols) => split_runs(alloc, file, symbols),
    }
}

// The path, the lines, and the sum.
fn write_sizes<W: Write>(lines: &Lines<'_>, sizes: &[Run], out: &mut W) -> io::Result<()>
    ensures { OnOk result (Appends (W.contents out.old) (W.contents out.new)
        (sizes_text lines.now.form lines.now.path.now lines.now.side.now.file lines.now.side.now.symbols
        sizes.now)) }
{
    write_head(lines.form, lines.path, out)?;
    write_lines(lines, sizes, out)?;
    let side = lines.side;
    let whole = side.file.input.len() as u64;
    write_sum(lines.form, lines.path, whole, out)
}

// The line of the path.
#[tactic(auto, using(crate::proofs::Compared::nothing_added))]
fn write_head<W: Write>(form: Form, path: &str, out: &mut W) -> io::Result<()>
    ensures { OnOk result (Appends (W.contents out.old) (W.contents out.new) (head_text form path.now)) }
{
    match form {
        Form::Text => writeln!(out, "{}", path),
        Form::Json => Ok(()),
    }
}

// The line of the sum of the sizes.
fn write_sum<W: Write>(form: Form, path: &str, size: u64, out: &mut W) -> io::Result<()>
    ensures { OnOk result (Appends (W.contents out.old) (W.contents out.new)
        (sum_text form path.now size)) }
{
    match form {
        Form::Text => write!(out, "{}", Sum(size)),
        Form::Json => {
            let record = SizeRecord {
                file: Some(path),
                kind: "sum",
                index: None,
                name: None,
                size,
                share: Some(capped(share_of(size, size))),
            };
            write_size(&record, out)
        }
    }
}

// A line for each part.
fn write_lines<W: Write>(lines: &Lines<'_>, sizes: &[Run], out: &mut W) -> io::Result<()>
    ensures { OnOk result (Appends (W.contents out.old) (W.contents out.new)
        (flat_map (line_text lines.now.form lines.now.path.now lines.now.side.now.file
        lines.now.side.now.symbols) sizes.now)) }
{
    for one in sizes {
        write_line(lines, one, out)?;
    }
    Ok(())
}

// The line of a part.
fn write_line<W: Write>(lines: &Lines<'_>, one: &Run, out: &mut W) -> io::Result<()>
    ensures { OnOk result (Appends (W.contents out.old) (W.contents out.new)
        (line_text lines.now.form lines.now.path.now lines.now.side.now.file lines.now.side.now.symbols
        one.now)) }
{
    let side = lines.side;
    match lines.form {
        Form::Text => write_text(&side.file, &side.symbols, one, out),
        Form::Json => write_record(lines.path, &side.file, &side.symbols, one, out),
    }
}

// The line of a part, as text.
fn write_text<W: Write>(
    file: &ElfFile<'_>,
    symbols: &Symbols<'_>,
    one: &Run,
    out: &mut W,
) -> io::Result<()>
    ensures { OnOk result (Appends (W.contents out.old) (W.contents out.new)
        (line_text forms.Text [] file.now symbols.now one.now)) }
{
    let start = Start {
        part: one.part,
        size: one.size,
        whole: file.input.len() as u64,
    };
    write!(out, "{}", start)?;
    write_name(part_name(file, symbols, one.part), out)?;
    out.write_all(b"\n")
}

// The line of a part, as JSON.
fn write_record<'x, W: Write>(
    path: &'x str,
    file: &ElfFile<'x>,
    symbols: &'x Symbols<'_>,
    one: &Run,
    out: &mut W,
) -> io::Result<()>
    ensures { OnOk result (Appends (W.contents out.old) (W.contents out.new)
        (line_text forms.Json path.now file.now symbols.now one.now)) }
{
    let share = share_of(file.input.len() as u64, one.size);
    let record = SizeRecord {
        file: Some(path),
        kind: kind_word(one.part),
        index: index_of(one.part),
        name: name_of(one.part, part_name(file, symbols, one.part)),
        size: one.size,
        share: Some(capped(share)),
    };
    write_size(&record, out)
}

// What a part is, in one word or two.
pub(crate) fn kind_word(part: usize) -> &'static str
    ensures { result.now ≡ kind_word part }
{
    let (index, kind) = (part / 4, part % 4);
    match kind {
        0 => "section",
        1 => "segment",
        2 => "symbol",
        _ => other_text(index),
    }
}

// The index of a part that has one.
fn index_of(part: usize) -> Option<u64>
    ensures { result ≡ index_of part }
{
    if part % 4 == 3 {
        None
    } else {
        Some((part / 4) as u64)
    }
}

// The name of a part that has one.
pub(crate) fn name_of(part: usize, name: &[u8]) -> Option<&[u8]>
    ensures { option_map (λ name. name.now) result ≡ name_of part name.now }
{
    if part % 4 == 0 || part % 4 == 2 {
        Some(name)
    } else {
        None
    }
}

// The name of a part: a section has one, and a symbol.
pub(crate) fn part_name<'a>(file: &ElfFile<'a>, symbols: &'a Symbols<'_>, part: usize) -> &'a [u8]
    ensures { result.now ≡ part_name file.now symbols.now part }
{
    let (index, kind) = (part / 4, part % 4);
    if kind == 0 {
        return section_name(file, index);
    }
    if kind == 2 {
        return symbol_name_in(symbols, index);
    }
    b""
}

// The name of a section, or `?` if it can't be read.
fn section_name<'a>(file: &ElfFile<'a>, index: usize) -> &'a [u8]
    ensures { result.now ≡ section_name file.now index }
{
    let Ok(section) = file.section_header_at(index as u64) else {
        return b"?";
    };
    match file.section_name(&section) {
        Ok(name) => name,
        Err(_) => b"?",
    }
}

// The line of a part before its name.
#[derive(Clone, Copy)]
struct Start {
    part: usize,
    size: u64,
    whole: u64,
}

impl Display for Start {
    ghost output = { λ start. Some (start_text start.whole start.size start.part) };

    fn fmt<W: fmt::Write>(&self, f: &mut fmt::Formatter<W>) -> fmt::Result {
        let amount = Amount {
            size: self.size,
            whole: self.whole,
        };
        write!(f, "{}{}", amount, Label(self.part))
    }
}

// A size, and its share of the file.
#[derive(Clone, Copy)]
struct Amount {
    size: u64,
    whole: u64,
}

impl Display for Amount {
    ghost output = { λ amount. Some (amount_text amount.whole amount.size) };

    fn fmt<W: fmt::Write>(&self, f: &mut fmt::Formatter<W>) -> fmt::Result {
        let share = share_of(self.whole, self.size);
        write!(
            f,
            "{} {}.{}{}% ",
            self.size,
            share / 100,
            share / 10 % 10,
            share % 10
        )
    }
}

// A size in a file of a number of bytes, in hundredths of a percent.
#[inline(always)]
fn share_of(whole: u64, size: u64) -> u128
    ensures { result ≡ share_of whole size }
{
    u128::from(size) * 10000 / u128::from(whole.max(1))
}

// A part, before its name.
#[derive(Clone, Copy)]
struct Label(usize);

impl Display for Label {
    ghost output = { λ label. Some (label_text label.0) };

    fn fmt<W: fmt::Write>(&self, f: &mut fmt::Formatter<W>) -> fmt::Result {
        let (index, kind) = (self.0 / 4, self.0 % 4);
        if kind == 0 {
            return write!(f, "section {} ", index);
        }
        if kind == 1 {
            return write!(f, "segment {}", index);
        }
        if kind == 2 {
            return write!(f, "symbol {} ", index);
        }
        f.write_str(other_text(index))
    }
}

// A part without an index.
pub(crate) fn other_text(index: usize) -> &'static str
    ensures { result.now ≡ other_text index }
{
    match index {
        0 => "ELF header",
        1 => "program headers",
        2 => "section headers",
        3 => "between parts",
        _ => "after all parts",
    }
}

// The line of the sum.
#[derive(Clone, Copy)]
struct Sum(u64);

impl Display for Sum {
    ghost output = { λ sum. Some (sum_line sum.0) };

    fn fmt<W: fmt::Write>(&self, f: &mut fmt::Formatter<W>) -> fmt::Result {
        let amount = Amount {
            size: self.0,
            whole: self.0,
        };
        writeln!(f, "{}sum", amount)
    }
}
