//! The bytes of files by kind of part.

ghost use Rattle.std.specs.Prelude.{◌≡◌, ◌<◌, ◌^◌, IfOk, OnOk, Some, codes, map, slice_index};
ghost use Rattle.std.specs.Io.KnownBytes.{Appends};
ghost use Rattle.elfsize.specs.Sums.{AreInputSums, AreSums, all_of, kind_of, kind_run, lines_of};
ghost use Rattle.elfsize.specs.Sums.{records_of, sums_line, sums_of, sums_record, sums_text, with_sums};
ghost use Rattle.elfsize.specs.Totals.{AreTotals, all_bytes};

use crate::parts::file_runs;
use crate::records::{SizeRecord, capped, write_size};
use crate::totals::{Run, part_totals};
use program_ends::json::Form;
use std::alloc::{AllocError, Global};
use std::fmt::Display;
use std::io::Write;
use std::{fmt, io};
use xmas_elf::ElfFile;

const KINDS: usize = 7;

/// The numbers of bytes of files by kind of part.
#[derive(Clone, Copy, Debug, PartialEq, Eq)]
pub struct Sums {
    /// Those of sections.
    pub sections: u128,
    /// Those of segments.
    pub segments: u128,
    /// Those of ELF headers.
    pub elf_headers: u128,
    /// Those of program headers.
    pub program_headers: u128,
    /// Those of section headers.
    pub section_headers: u128,
    /// Those between parts.
    pub between: u128,
    /// Those after all parts.
    pub after: u128,
}

impl Sums {
    /// Those of no file.
    pub const NONE: Sums = Sums {
        sections: 0,
        segments: 0,
        elf_headers: 0,
        program_headers: 0,
        section_headers: 0,
        between: 0,
        after: 0,
    };

    // The bytes of all kinds.
    fn all(&self) -> u128
        ensures { result ≡ all_of self.now }
    {
        self.sections
            .saturating_add(self.segments)
            .saturating_add(self.elf_headers)
            .saturating_add(self.program_headers)
            .saturating_add(self.section_headers)
            .saturating_add(self.between)
            .saturating_add(self.after)
    }

    /// The sums with others.
    pub fn with(&self, other: &Sums) -> Sums
        ensures { result ≡ with_sums self.now other.now }
    {
        Sums {
            sections: self.sections.saturating_add(other.sections),
            segments: self.segments.saturating_add(other.segments),
            elf_headers: self.elf_headers.saturating_add(other.elf_headers),
            program_headers: self.program_headers.saturating_add(other.program_headers),
            section_headers: self.section_headers.saturating_add(other.section_headers),
            between: self.between.saturating_add(other.between),
            after: self.after.saturating_add(other.after),
        }
    }
}

impl Display for Sums {
    ghost output = { λ sums. Some (lines_of sums) };

    fn fmt<W: fmt::Write>(&self, f: &mut fmt::Formatter<W>) -> fmt::Result {
        write!(
            f,
            "all files\n{}{}{}{}{}{}{}{}",
            Line(self.sections, "sections"),
            Line(self.segments, "segments"),
            Line(self.elf_headers, "ELF headers"),
            Line(self.program_headers, "program headers"),
            Line(self.section_headers, "section headers"),
            Line(self.between, "between parts"),
            Line(self.after, "after all parts"),
            Line(self.all(), "sum")
        )
    }
}

/// Writes the sums in a form.
pub fn write_sums<W: Write>(form: Form, sums: &Sums, out: &mut W) -> io::Result<()>
    ensures { OnOk result (Appends (W.contents out.old) (W.contents out.new) (sums_text form sums.now)) }
{
    match form {
        Form::Text => write!(out, "{}", *sums),
        Form::Json => write_records(sums, out),
    }
}

// Writes the sums as JSON.
fn write_records<W: Write>(sums: &Sums, out: &mut W) -> io::Result<()>
    ensures { OnOk result (Appends (W.contents out.old) (W.contents out.new) (records_of sums.now)) }
{
    write_record(sums.sections, "sections", out)?;
    write_record(sums.segments, "segments", out)?;
    write_record(sums.elf_headers, "ELF headers", out)?;
    write_record(sums.program_headers, "program headers", out)?;
    write_record(sums.section_headers, "section headers", out)?;
    write_record(sums.between, "between parts", out)?;
    write_record(sums.after, "after all parts", out)?;
    write_all(sums, out)
}

// Writes the bytes of all kinds as JSON.
fn write_all<W: Write>(sums: &Sums, out: &mut W) -> io::Result<()>
    ensures { OnOk result (Appends (W.contents out.old) (W.contents out.new)
        (sums_record (all_of sums.now) (codes "sum"))) }
{
    write_record(sums.all(), "sum", out)
}

// Writes a number of bytes, and what they belong to, as JSON.
#[tactic(auto, unfolding(crate::specs::Sums::sums_record))]
fn write_record<W: Write>(bytes: u128, kind: &str, out: &mut W) -> io::Result<()>
    ensures { OnOk result (Appends (W.contents out.old) (W.contents out.new)
        (sums_record bytes kind.now)) }
{
    let record = SizeRecord {
        file: None,
        kind,
        index: None,
        name: None,
        size: capped(bytes),
        share: None,
    };
    write_size(&record, out)
}

// A number of bytes, and what they belong to.
#[derive(Clone, Copy)]
struct Line<'a>(u128, &'a str);

impl Display for Line<'_> {
    ghost output = { λ line. Some (sums_line line.0 line.1.now) };

    #[tactic(auto, unfolding(crate::specs::Sums::sums_line))]
    fn fmt<W: fmt::Write>(&self, f: &mut fmt::Formatter<W>) -> fmt::Result {
        writeln!(f, "{} {}", self.0, self.1)
    }
}

/// The sums of the file that these bytes are; any, if they are none.
#[tactic(auto, using(crate::proofs::KindRuns::input_sums_are, crate::proofs::KindRuns::no_input_sums))]
pub fn input_sums(alloc: Global, input: &[u8]) -> Result<Sums, AllocError>
    ensures { IfOk result (λ sums. AreInputSums input.entry sums) }
{
    match ElfFile::new(input) {
        Ok(file) => file_sums(alloc, &file),
        Err(_) => Ok(Sums::NONE),
    }
}

// The sums of a file.
#[tactic(auto, using(crate::proofs::KindRuns::sums_are))]
pub(crate) fn file_sums(alloc: Global, file: &ElfFile<'_>) -> Result<Sums, AllocError>
    ensures { IfOk result (λ sums. AreSums file.now sums) }
{
    // This tells the proof that the length is a number of 64 bits.
    let _len = file.input.len();
    let runs = file_runs(alloc, file)?;
    let totals = kind_totals(alloc, &runs)?;
    Ok(sums_of(&totals))
}

// The number of bytes of each kind in runs.
fn kind_totals(alloc: Global, runs: &[Run]) -> Result<Vec<u64>, AllocError>
    requires { all_bytes runs.now < 2 ^ 64 }
    ensures { IfOk result (λ totals. AreTotals (map kind_run runs.now) totals.items) }
{
    let kinds = kind_runs(alloc, runs)?;
    part_totals(alloc, &kinds, KINDS)
}

// The runs with the kinds of their parts.
#[tactic(auto, using(crate::proofs::KindRuns::one_more_kind))]
fn kind_runs(alloc: Global, runs: &[Run]) -> Result<Vec<Run>, AllocError>
    ensures { IfOk result (λ kinds. kinds.items ≡ map kind_run runs.now) }
{
    let mut kinds = Vec::new(alloc);
    for run in runs {
        kinds.push(kind_run(run))?;
    }
    Ok(kinds)
}

// The run with the kind of its part.
fn kind_run(run: &Run) -> Run
    ensures { result ≡ kind_run run.now }
{
    Run {
        part: kind_of(run.part),
        size: run.size,
    }
}

// The number of the kind of a part.
fn kind_of(part: usize) -> usize
    ensures { result ≡ kind_of part }
{
    match part % 4 {
        1 => 1,
        3 => 2 + (part / 4).min(4),
        _ => 0,
    }
}

// The totals of the kinds.
fn sums_of(totals: &[u64]) -> Sums
    ensures { result ≡ sums_of totals.now }
{
    Sums {
        sections: total(totals, 0),
        segments: total(totals, 1),
        elf_headers: total(totals, 2),
        program_headers: total(totals, 3),
        section_headers: total(totals, 4),
        between: total(totals, 5),
        after: total(totals, 6),
    }
}

// The total of a kind.
fn total(totals: &[u64], kind: usize) -> u128
    ensures { result ≡ slice_index totals.now kind }
{
    match totals.get(kind) {
        Some(total) => u128::from(*total),
        None => 0,
    }
}
