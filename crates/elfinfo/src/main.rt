//! Prints what an ELF file holds: `elfinfo PATH` writes the report of the file to standard output.
#![tactic(auto)]

ghost use Rattle.std.specs.Borrow.{Bor};
ghost use Rattle.std.specs.Prelude.{◌≡◌, ◌≢◌, ◌≤◌, ◌/◌, Err, IfOk, IfSome, IsOk, IsSome, IsSomeAnd};
ghost use Rattle.std.specs.Prelude.{List, length, ℕ};
ghost use Rattle.program_ends.specs.declared.TheConstants.{CLOSED};
ghost use Rattle.xmas_elf.proofs.lemmas.Flushes.{report_flushed};
ghost use Rattle.xmas_elf.specs.FileHeader.{header_of};
ghost use Rattle.xmas_elf.specs.Report.{WritesReport};
ghost use Rattle.xmas_elf.specs.Types.{ElfError};

use program_ends::{
    CLOSED, Output, Stop, Watched, arguments, exit_code, read_whole, say, write_about,
    write_buffered,
};
use std::alloc::Global;
use std::fs::File;
use std::io;
use std::io::{Read, Write};
use std::process::ExitCode;
use thiserror::Error;
use xmas_elf::report::{ReportFault, report_with};
use xmas_elf::sections::{SectionData, SectionHeader, ShType};
use xmas_elf::{ElfError, ElfFile};

const NAME: &str = "elfinfo";

const USAGE: &str = "elfinfo <binary_path>";

const HELP: &str =
    "Prints the header, the sections and the program headers of a file, and checks its hash table.";

/// Why the program ends with status 1, and what it says then after its name. It names no path of a
/// file with an error.
#[derive(Debug, Drop, Error)]
enum Fault<'a> {
    #[error("elfinfo <binary_path>")]
    Usage,
    #[error("cannot read {path}")]
    Read { path: &'a str },
    #[error("{0}")]
    Failed(ElfError),
    #[error("cannot write")]
    Write,
    #[error("not enough memory")]
    Memory,
}

/// Writes the report of the file to `out`, or says on `err` why it can't,
/// and returns the exit status.
///
/// `file` is `None` where there is a path that does not open. The status is 0 once the whole report
/// is written and flushed; `CLOSED`, and nothing is said, if a write failed since nobody reads the
/// output; and 1 otherwise. The contract says that the status is 0 only for a file that is accepted,
/// and nothing of what `out` and `err` hold.
pub fn run<R: Read + Drop, W: Write, E: Write>(
    alloc: Global,
    path: Option<&str>,
    file: Option<R>,
    out: &mut Watched<W>,
    err: &mut E,
) -> u8
    ensures bound { result ≢ CLOSED → result ≤ 1 }
    ensures accepted { result ≡ 0 → IsSome path.entry × IsSomeAnd file (λ reader.
        IfSome (R.remaining reader) (λ bytes. IsOk (header_of bytes))) }
{
    let printed = print_report(alloc, path, file, &mut *out).map(|_| ());
    match printed {
        Ok(()) => 0,
        Err(Fault::Usage) => say("usage", &Fault::Usage, out),
        Err(Fault::Write) if out.is_closed() => CLOSED,
        Err(fault) => say(NAME, &fault, err),
    }
}

// The number of chains that the file's hash table has in the file.
fn chain_count(input: &[u8]) -> usize
    ensures { result ≤ length input.now / 4 }
{
    let most = input.len() / 4;
    let Ok(file) = ElfFile::new(input) else {
        return 0;
    };
    let is_hash = |section: &SectionHeader| matches!(section.get_type(), Ok(ShType::Hash));
    match file
        .section_iter()
        .find(is_hash)
        .map(|section| section.get_data(&file))
    {
        Some(Ok(SectionData::HashTable(table))) => most.min(table.chain_count() as usize),
        _ => 0,
    }
}

// What the program writes of a file: the report of all its bytes.
#[derive(Clone, Copy)]
struct Report<'a> {
    alloc: Global,
    input: &'a [u8],
}

impl Output for Report<'_> {
    ghost Writes = { λ report. WritesReport report.input };

    ghost flushed = { λ report. report_flushed report.input };

    type Error = ElfError;

    ghost Fails = { λ report error. header_of report.input.now ≡ Err error };

    ghost Begins = { λ report. (error : ElfError) → header_of report.input.now ≢ Err error };

    // Without memory for the words the report is the same, and the check of the hash table may take longer.
    fn write_to<W: Write>(&self, out: &mut W) -> Result<(), Stop<ElfError>> {
        let words = vec![in self.alloc; 0; chain_count(self.input)];
        let mut words = words.unwrap_or(Vec::new(self.alloc));
        match report_with(self.input, out, &mut words) {
            Ok(()) => Ok(()),
            Err(ReportFault::Elf(error)) => Err(Stop::Failed(error)),
            Err(ReportFault::Write) => Err(Stop::Write),
        }
    }
}

// Writes the report of all that the reader has left, whole, and gives the writer back.
fn print_report<'a, R: Read + Drop, W: Write + Drop>(
    alloc: Global,
    path: Option<&'a str>,
    file: Option<R>,
    out: W,
) -> Result<W, Fault<'a>>
    ensures path { IfOk result (λ _. IsSome path.entry) }
    ensures written { IfOk result (λ back. IsSomeAnd file (λ reader. IfSome (R.remaining reader)
        (λ bytes. (input : Bor (List ℕ)) × (input.now ≡ bytes)
        × WritesReport input (W.contents out) (W.contents back)))) }
{
    let path = path.ok_or(Fault::Usage)?;
    let input = read_whole(alloc, file).ok_or(Fault::Read { path })?;
    let report = Report {
        alloc,
        input: &input,
    };
    write_buffered(alloc, &report, out).map_err(|stop| match stop {
        Stop::Failed(error) => Fault::Failed(error),
        Stop::Write => Fault::Write,
        Stop::Memory => Fault::Memory,
    })
}

fn main(rt: HostRuntime) -> ExitCode {
    exit_code(NAME, run_on_arguments(&rt), &mut rt.stderr())
}

// The status, or why the arguments can't be read: for want of memory, or since one is not UTF-8.
fn run_on_arguments(rt: &HostRuntime) -> io::Result<u8> {
    let words = arguments(rt)?;
    let about = write_about(
        NAME,
        USAGE,
        HELP,
        &words,
        &mut rt.stdout(),
        &mut rt.stderr(),
    );
    if let Some(status) = about {
        return Ok(status);
    }
    let path = words.first().map(|path| path.as_str());
    let file = path.and_then(|path| File::open(rt, path).ok());
    let mut out = Watched::new(rt.stdout());
    Ok(run(rt.alloc(), path, file, &mut out, &mut rt.stderr()))
}
