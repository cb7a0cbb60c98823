//! Whether one loader maps each file, whatever the other one does.

ghost use Rattle.std.specs.Prelude.{◌≡◌, ◌≢◌, ◌<◌, IsTrue, OnOk, length};
ghost use Rattle.std.specs.Io.KnownBytes.{Appends};
ghost use Rattle.elfload.specs.Plans.{header_limit};
ghost use Rattle.elfload.specs.Verdicts.{HasVerdict, IsMappedLine, IsStatus, IsVerdictEnd};
ghost use Rattle.elfload.specs.Verdicts.{mapped_line, verdict_within};
ghost use Rattle.program_ends.specs.Appended.{AppendsSome};
ghost use Rattle.program_ends.specs.declared.TheConstants.{CLOSED};
ghost use Rattle.program_ends.specs.declared.json.Form.TheVariants.{Json};

use crate::plans::{AnyError, limit_of};
use crate::{NAME, is_shut};
use elf_loading::{LoadPlan, Loader};
use linking_programs::Input;
use program_ends::json::{Form, Member, Value, write_json};
use program_ends::{Fault, Watched, quiet_status_of};
use std::io;
use std::io::Write;
use xmas_elf::ElfFile;

/// Writes a line to `out` for each file that a loader maps, with pages of a size, says to `err` why it
/// doesn't map the others, and returns the exit status.
///
/// The loader is Linux, which starts each file as a program, or glibc, which loads each as a library that
/// a program starts with. Only its own check decides, `check_load_by`; `run` is stricter than both. By the
/// contract the status is 0 only if each file passes. If it is 1, there is a file before which all pass,
/// and it has an error: that of its header, of its machine, or the first of the check; or it passes, and
/// a write failed. It is `CLOSED`, and no other file is checked, once a write failed since nobody reads the
/// output. The contract says nothing of what `out` and `err` hold.
pub fn run_verdicts<W: Write, E: Write>(
    by: Loader,
    form: Form,
    page: u64,
    inputs: &[Input<'_>],
    out: &mut Watched<W>,
    err: &mut E,
) -> u8
    requires { 0 < page }
    ensures status { result ≢ CLOSED → IsStatus by page inputs.now (length inputs.now) result }
    ensures closed { result ≡ CLOSED → IsTrue out.new.closed }
{
    let mut status = 0;
    for input in inputs {
        let ended = write_verdict(by, form, page, input.path, &input.bytes, &mut *out);
        let own = quiet_status_of(NAME, ended, out.is_closed(), &mut *err);
        if is_shut(own) {
            return own;
        }
        status = first_fault(status, own);
    }
    status
}

// The status of some files and one more, which has its own.
fn first_fault(status: u8, own: u8) -> u8
    ensures none { status ≡ 0 → result ≡ own }
    ensures kept { status ≢ 0 → result ≡ status }
{
    if status == 0 { own } else { status }
}

// Writes that a loader maps the file that these bytes are.
fn write_verdict<'a, W: Write>(
    by: Loader,
    form: Form,
    page: u64,
    path: &'a str,
    bytes: &[u8],
    out: &mut W,
) -> Result<(), Fault<'a, AnyError>>
    requires { 0 < page }
    ensures end { IsVerdictEnd by page path.entry bytes.now result }
    ensures written { OnOk result (AppendsSome (IsMappedLine form path.now)
        (W.contents out.old) (W.contents out.new)) }
{
    match verdict(by, page, bytes) {
        Ok(()) => match write_mapped(form, path, out) {
            Ok(()) => Ok(()),
            Err(_) => Err(Fault::Write),
        },
        Err(error) => Err(Fault::Failed { path, error }),
    }
}

// Writes that the file at a path is mapped.
fn write_mapped<W: Write>(form: Form, path: &str, out: &mut W) -> io::Result<()>
    ensures { OnOk result (AppendsSome (IsMappedLine form path.now) (W.contents out.old) (W.contents out.new)) }
{
    write_line(form, path, out)?;
    out.flush()
}

// The line of a file that is mapped.
fn write_line<W: Write>(form: Form, path: &str, out: &mut W) -> io::Result<()>
    ensures { OnOk result (Appends (W.contents out.old) (W.contents out.new)
        (mapped_line form path.now)) }
{
    match form {
        Form::Text => writeln!(out, "{}: loads: yes", path),
        Form::Json => write_record(path, out),
    }
}

// The same as JSON.
fn write_record<W: Write>(path: &str, out: &mut W) -> io::Result<()>
    ensures { OnOk result (Appends (W.contents out.old) (W.contents out.new)
        (mapped_line Json path.now)) }
{
    let members = [
        Member {
            key: "file",
            value: Value::Text(path),
        },
        Member {
            key: "loads",
            value: Value::Bool(true),
        },
    ];
    write_json(&members, out)
}

// Whether a loader maps the file that these bytes are.
fn verdict(by: Loader, page: u64, bytes: &[u8]) -> Result<(), AnyError>
    requires { 0 < page }
    ensures { HasVerdict by page bytes.now result }
{
    match ElfFile::new(bytes) {
        Ok(file) => file_verdict(by, page, &file),
        Err(error) => Err(AnyError::Elf(error)),
    }
}

// Whether a loader maps a file.
fn file_verdict(by: Loader, page: u64, file: &ElfFile<'_>) -> Result<(), AnyError>
    requires { 0 < page }
    ensures { result ≡ verdict_within by page file.now (header_limit file.now.header) }
{
    let Some(limit) = limit_of(&file.header) else {
        return Err(AnyError::Machine);
    };
    match LoadPlan::check_load_by(file, page, limit, by) {
        Ok(()) => Ok(()),
        Err(error) => Err(AnyError::Load(error)),
    }
}
