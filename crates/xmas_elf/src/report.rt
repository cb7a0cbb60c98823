//! The report: the output of `elfinfo` for a file, as text.

ghost use Rattle.std.specs.Prelude.{◌≡◌, Some, OnOk, IfErr};
ghost use Rattle.xmas_elf.specs.NameTable.{name_of};
ghost use Rattle.xmas_elf.specs.Report.{AppendsReport, FailsExactly, WritesNothing, WritesReport};
ghost use Rattle.xmas_elf.specs.Report.{check_line, fault_text, hash_line, name_text, report_text};
ghost use Rattle.xmas_elf.specs.Report.{section_line, section_lines, segment_line, segment_lines};
ghost use Rattle.xmas_elf.specs.Report.{verdict_text};

mod hash;

use crate::program::{ProgramHeader, SegmentType};
use crate::report::hash::{HashVerdict, hash_verdict};
use crate::sections::{SectionHeader, SectionType};
use crate::{ElfError, ElfFile, header, program};
use std::error::Error;
use std::fmt::Display;
use std::{fmt, io};

/// Why a report was not written.
#[derive(Clone, Copy, Debug, PartialEq, Eq)]
pub enum ReportFault {
    /// The input is not accepted, and nothing was written.
    Elf(ElfError),
    /// The writer failed.
    Write,
}

impl Display for ReportFault {
    ghost output = { λ fault. Some (fault_text fault) };

    ghost styled_output = { λ fault spec. Some (fault_text fault) };

    fn fmt<W: fmt::Write>(&self, f: &mut fmt::Formatter<W>) -> fmt::Result {
        f.write_str(match self {
            Self::Elf(error) => error.message(),
            Self::Write => "cannot write",
        })
    }
}

impl Error for ReportFault {}

// The result of a check.
#[derive(Clone, Copy)]
struct Verdict(Result<(), ElfError>);

impl Display for Verdict {
    ghost output = { λ verdict. Some (verdict_text verdict.0) };

    fn fmt<W: fmt::Write>(&self, f: &mut fmt::Formatter<W>) -> fmt::Result {
        match self.0 {
            Ok(()) => f.write_str(" ok"),
            Err(error) => write!(f, " ! {error}"),
        }
    }
}

// The line with the check of the ELF header.
#[derive(Clone, Copy)]
struct CheckLine<'b, 'a>(&'b ElfFile<'a>);

impl Display for CheckLine<'_, '_> {
    ghost output = { λ line. Some (check_line line.0.now) };

    fn fmt<W: fmt::Write>(&self, f: &mut fmt::Formatter<W>) -> fmt::Result {
        writeln!(f, "check:{}", Verdict(header::sanity_check(self.0)))
    }
}

// The name of a section, or the error for it.
#[derive(Clone, Copy)]
struct Name<'b, 'a>(&'b ElfFile<'a>, SectionHeader);

impl Display for Name<'_, '_> {
    ghost output = { λ name. Some (name_text (name_of name.0.now name.1)) };

    fn fmt<W: fmt::Write>(&self, f: &mut fmt::Formatter<W>) -> fmt::Result {
        match self.1.get_name(self.0) {
            Ok(name) => write!(f, " = {name}"),
            Err(error) => write!(f, " ! {error}"),
        }
    }
}

// The line for a section.
#[derive(Clone, Copy)]
struct SectionLine<'b, 'a> {
    file: &'b ElfFile<'a>,
    index: u64,
    section: SectionHeader,
}

impl Display for SectionLine<'_, '_> {
    ghost output = { λ line. Some (section_line line.file.now line.index line.section) };

    #[tactic(auto, unfolding(crate::specs::Report::section_line))]
    fn fmt<W: fmt::Write>(&self, f: &mut fmt::Formatter<W>) -> fmt::Result {
        let kind = SectionType(self.section.type_());
        writeln!(
            f,
            "{} {}{}",
            self.index,
            kind,
            Name(self.file, self.section)
        )
    }
}

// A line for each section except the first.
#[derive(Clone, Copy)]
struct SectionLines<'b, 'a>(&'b ElfFile<'a>);

impl Display for SectionLines<'_, '_> {
    ghost output = { λ lines. Some (section_lines lines.0.now) };

    fn fmt<W: fmt::Write>(&self, f: &mut fmt::Formatter<W>) -> fmt::Result {
        let file = self.0;
        let mut sections = file.section_iter();
        let _first = sections.next();
        let mut index = 1;
        for section in sections {
            let line = SectionLine {
                file,
                index,
                section,
            };
            write!(f, "{line}")?;
            index += 1;
        }
        Ok(())
    }
}

// The line for a segment.
#[derive(Clone, Copy)]
struct SegmentLine<'b, 'a> {
    file: &'b ElfFile<'a>,
    index: u64,
    program: ProgramHeader,
}

impl Display for SegmentLine<'_, '_> {
    ghost output = { λ line. Some (segment_line line.file.now line.index line.program) };

    #[tactic(auto, unfolding(crate::specs::Report::segment_line))]
    fn fmt<W: fmt::Write>(&self, f: &mut fmt::Formatter<W>) -> fmt::Result {
        let kind = SegmentType(self.program.type_());
        let verdict = Verdict(program::sanity_check(self.program, self.file));
        writeln!(f, "{} {}{}", self.index, kind, verdict)
    }
}

// A line for each segment.
#[derive(Clone, Copy)]
struct SegmentLines<'b, 'a>(&'b ElfFile<'a>);

impl Display for SegmentLines<'_, '_> {
    ghost output = { λ lines. Some (segment_lines lines.0.now) };

    fn fmt<W: fmt::Write>(&self, f: &mut fmt::Formatter<W>) -> fmt::Result {
        let file = self.0;
        let mut index = 0;
        for program in file.program_iter() {
            let line = SegmentLine {
                file,
                index,
                program,
            };
            write!(f, "{line}")?;
            index += 1;
        }
        Ok(())
    }
}

// The line for the hash table.
#[derive(Clone, Copy)]
struct HashLine(HashVerdict);

impl Display for HashLine {
    ghost output = { λ line. Some (hash_line line.0) };

    fn fmt<W: fmt::Write>(&self, f: &mut fmt::Formatter<W>) -> fmt::Result {
        match self.0 {
            HashVerdict::NoTable => f.write_str("hash: none\n"),
            HashVerdict::NoSymbols => f.write_str("hash: no symbols\n"),
            HashVerdict::Checked(answer) => writeln!(f, "hash:{}", Verdict(answer)),
        }
    }
}

// The report of an accepted file, whose hash table was checked before.
#[derive(Clone, Copy)]
struct FileReport<'b, 'a>(&'b ElfFile<'a>, HashVerdict);

impl Display for FileReport<'_, '_> {
    ghost output = { λ report. Some (report_text report.0.now report.1) };

    #[tactic(auto, unfolding(crate::specs::Report::report_text))]
    fn fmt<W: fmt::Write>(&self, f: &mut fmt::Formatter<W>) -> fmt::Result {
        write!(
            f,
            "{}{}sections\n{}\nprogram headers\n{}{}",
            self.0.header,
            CheckLine(self.0),
            SectionLines(self.0),
            SegmentLines(self.0),
            HashLine(self.1)
        )
    }
}

/// Writes the report of the file in `input`.
///
/// Errors: `Elf` with the error of `ElfFile::new`; `Write` if the writer fails, after any number
/// of bytes. The contract says what was written if the contents of the writer are known, as in
/// memory. As in std's `write_all`, interrupted writes are retried, and a write of 0 bytes fails.
pub fn report<W: io::Write>(input: &[u8], w: &mut W) -> Result<(), ReportFault>
    ensures written { OnOk result (WritesReport input.entry (W.contents w.old) (W.contents w.new)) }
    ensures failed { FailsExactly input.now result }
    ensures untouched { IfErr result (λ fault. WritesNothing fault w.old w.new) }
{
    report_with(input, w, &mut [])
}

/// Writes the report that `report` writes, with scratch memory from the caller for the check of the
/// hash table: one word for each chain. With fewer words the report is the same, and its check may
/// take longer.
///
/// Errors: those of `report`.
pub fn report_with<W: io::Write>(
    input: &[u8],
    w: &mut W,
    words: &mut [u32],
) -> Result<(), ReportFault>
    ensures written { OnOk result (WritesReport input.entry (W.contents w.old) (W.contents w.new)) }
    ensures failed { FailsExactly input.now result }
    ensures untouched { IfErr result (λ fault. WritesNothing fault w.old w.new) }
{
    match ElfFile::new(input) {
        Ok(file) => write_file(&file, w, words),
        Err(error) => Err(ReportFault::Elf(error)),
    }
}

// Writes the report of an accepted file.
fn write_file<W: io::Write>(
    file: &ElfFile<'_>,
    w: &mut W,
    words: &mut [u32],
) -> Result<(), ReportFault>
    ensures written { OnOk result (AppendsReport file.now (W.contents w.old) (W.contents w.new)) }
    ensures fault { IfErr result (λ fault. fault ≡ ReportFault.Write) }
{
    let verdict = hash_verdict(file, words);
    write!(w, "{}", FileReport(file, verdict)).map_err(|_| ReportFault::Write)
}
