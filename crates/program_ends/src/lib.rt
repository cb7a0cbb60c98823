//! How the programs read arguments and files, write names, write to their end, and say why they stop.
#![tactic(auto)]

ghost use Rattle.std.specs.Prelude.{◌≡◌, ◌+◌, ◌^◌, ◌<◌, ◌≤◌, [], IfSome, IsSomeAnd, List};
ghost use Rattle.std.specs.Prelude.{MatchResult, OnOk, Option, length, ℕ, ⊤};
ghost use Rattle.std.specs.Io.Buffered.{writer_buffer, writer_inner};
ghost use Rattle.std.specs.Io.KnownBytes.{Appends, Keeps};
ghost use Rattle.std.specs.Char.{is_ascii_control};
ghost use Rattle.std.specs.List.{position_from};
ghost use Rattle.program_ends.specs.Ends.{fault_of, quiet_status_of, status_of};
ghost use Rattle.program_ends.specs.Names.{escaped};
ghost use Rattle.program_ends.specs.Stops.{HasBegun, IsStop};

use std::alloc::Global;
use std::convert::AsStr;
use std::fmt::Display;
use std::io::{BufWriter, Read, Write};
use std::process::ExitCode;
use std::{env, io};
use thiserror::Error;
pub use watched::Watched;

pub mod json;
mod watched;

/// The status if nobody reads the output to its end: that of a program which the signal SIGPIPE ends,
/// as a shell tells it.
pub const CLOSED: u8 = 141;

/// Why an output isn't written to its end.
#[derive(Clone, Copy, Debug, Drop)]
pub enum Stop<E> {
    /// The input has this error.
    Failed(E),
    /// The writer failed.
    Write,
    /// There was not enough memory.
    Memory,
}

impl<E> From<io::Error> for Stop<E> {
    ghost use Rattle.program_ends.specs.declared.Stop.TheVariants.{Write};

    ghost from_gives = { λ _ stop. stop ≡ Write };

    fn from(_error: io::Error) -> Self {
        Stop::Write
    }
}

/// What a program writes.
pub trait Output {
    /// What the writer contains before and after the whole output, if that is known.
    ghost Writes: { Self → Option (List ℕ) → Option (List ℕ) → Type 0 };

    /// A flush after the output changes nothing: the writer still contains it.
    ghost flushed: { (output : Self) (old new kept : Option (List ℕ)) → Writes output old new
        → Keeps new kept → Writes output old kept };

    /// The error of the input.
    type Error;

    /// The input has this error.
    ghost Fails: { Self → Self.Error → Type 0 };

    /// The input has no error before the output begins.
    ghost Begins: { Self → Type 0 };

    /// Writes the output.
    fn write_to<W: Write>(&self, out: &mut W) -> Result<(), Stop<Self::Error>>
        ensures { MatchResult result
            (λ _. Writes self.now (W.contents out.old) (W.contents out.new))
            (IsStop (Fails self.now) (Begins self.now) ⊥) };
}

/// All bytes that a reader has left; `None` where there is no reader, a read fails or memory is
/// short.
pub fn read_whole<R: Read + Drop>(alloc: Global, file: Option<R>) -> Option<Vec<u8>>
    ensures { IfSome result (λ input. IsSomeAnd file (λ reader. IfSome (R.remaining reader)
        (λ bytes. input.items ≡ bytes))) }
{
    let mut file = file?;
    let mut input = Vec::new(alloc);
    match file.read_to_end(&mut input) {
        Ok(_) => Some(input),
        Err(_) => None,
    }
}

/// Writes an output through a buffer, flushes it, and gives the writer back. After a fault the
/// buffer is thrown away.
///
/// Errors: `Stop::Memory` if there is no memory for the buffer; those of `write_to`; `Stop::Write` if
/// the flush fails.
pub fn write_buffered<O: Output, W: Write + Drop>(
    alloc: Global,
    output: &O,
    out: W,
) -> Result<W, Stop<O::Error>>
    ensures { MatchResult result
        (λ back. O.Writes output.now (W.contents out) (W.contents back))
        (IsStop (O.Fails output.now) (HasBegun (O.Begins output.now) (O.Writes output.now)) ⊤) }
{
    let mut buffered = match BufWriter::new(alloc, out) {
        Ok(buffered) => buffered,
        Err(_) => return Err(Stop::Memory),
    };
    let written = write_flushed(output, &mut buffered);
    // Unlike a drop, this writes nothing more after a fault.
    let (out, _) = buffered.into_parts();
    match written {
        Ok(()) => Ok(out),
        Err(stop) => Err(stop),
    }
}

fn write_flushed<O: Output, W: Write + Drop>(
    output: &O,
    buffered: &mut BufWriter<W>,
) -> Result<(), Stop<O::Error>>
    requires { writer_buffer buffered.old ≡ [] }
    ensures { MatchResult result
        (λ _. O.Writes output.now
        (W.contents (writer_inner buffered.old)) (W.contents (writer_inner buffered.new)))
        (IsStop (O.Fails output.now) (HasBegun (O.Begins output.now) (O.Writes output.now)) ⊥) }
{
    match output.write_to(buffered) {
        Ok(()) => {}
        Err(stop) => return Err(stop),
    }
    buffered.flush()?;
    Ok(())
}

/// The arguments of the program, without its name. Fails for want of memory, and for an argument that
/// is not UTF-8.
pub fn arguments(rt: &HostRuntime) -> io::Result<Vec<String>> {
    let mut arguments = env::args(rt)?;
    let _program = arguments.next();
    let mut words = Vec::new(rt.alloc());
    for argument in arguments {
        words.push(argument)?;
    }
    Ok(words)
}

/// The version of the programs, which is that of the packages of the bindings.
pub const VERSION: &str = "0.1.0";

/// Writes the help of a program if its first argument is `--help`, and its name and version if it is
/// `--version`, and returns the exit status: 0, or 1 with a message on `err` if the write fails. With
/// other arguments it returns `None`. `usage` is the name with the arguments, and `help` what the
/// program prints, and its options, in lines.
pub fn write_about<S: AsStr, W: Write, E: Write>(
    name: &str,
    usage: &str,
    help: &str,
    arguments: &[S],
    out: &mut W,
    err: &mut E,
) -> Option<u8>
    ensures { IfSome result (λ status. status ≤ 1) }
{
    let written = match arguments.first()?.as_str() {
        "--help" => writeln!(out, "usage: {usage}\n{help}"),
        "--version" => writeln!(out, "{name} {VERSION}"),
        _ => return None,
    };
    match written {
        Ok(()) => Some(0),
        Err(_) => Some(say(name, &"cannot write", err)),
    }
}

/// Writes a line with the name of a program and why it ends with status 1, if the writer doesn't fail,
/// and returns that status.
pub fn say<F: Display, W: Write>(name: &str, fault: &F, to: &mut W) -> u8
    ensures { result ≡ 1 }
{
    let _ = writeln!(to, "{name}: {fault}");
    1
}

/// The exit code of a program by its status, or by what it says where its arguments can't be read.
pub fn exit_code<W: Write>(name: &str, status: io::Result<u8>, err: &mut W) -> ExitCode {
    let status = match status {
        Ok(status) => status,
        Err(_) => say(name, &"cannot read the arguments", err),
    };
    ExitCode::from(status)
}

/// Why a program ends with status 1, and what it says then after its name.
#[derive(Debug, Drop, Error)]
#[error_bound(E: Display)]
pub enum Fault<'a, E> {
    /// The file at this path can't be read.
    #[error("cannot read {path}")]
    Read { path: &'a str },
    /// The file at this path has this error.
    #[error("{path}: {error}")]
    Failed { path: &'a str, error: E },
    /// A write failed.
    #[error("cannot write")]
    Write,
    /// There was not enough memory.
    #[error("not enough memory")]
    Memory,
}

/// What a program says where the output for the file at a path isn't written to its end.
pub fn fault_of<E>(stop: Stop<E>, path: &str) -> Fault<'_, E>
    ensures { result ≡ fault_of path.entry stop }
{
    match stop {
        Stop::Failed(error) => Fault::Failed { path, error },
        Stop::Write => Fault::Write,
        Stop::Memory => Fault::Memory,
    }
}

/// The exit status of a program of this name: 0, or 1 and it says why.
pub fn status_of<T: Drop, E: Display + Drop, W: Write>(
    name: &str,
    ended: Result<T, Fault<'_, E>>,
    err: &mut W,
) -> u8
    ensures { result ≡ status_of ended.entry }
{
    match ended {
        Ok(_) => 0,
        Err(fault) => say(name, &fault, err),
    }
}

/// The exit status of a program of this name: 0; `CLOSED` if a write failed and nobody reads the output;
/// or 1 and it says why.
pub fn quiet_status_of<T: Drop, E: Display + Drop, W: Write>(
    name: &str,
    ended: Result<T, Fault<'_, E>>,
    closed: bool,
    err: &mut W,
) -> u8
    ensures { result ≡ quiet_status_of ended.entry closed }
{
    match ended {
        Err(Fault::Write) if closed => CLOSED,
        ended => status_of(name, ended, err),
    }
}

/// Writes the bytes of a name as GNU `readelf` does in the C locale: a control character (below
/// 0x20, or 0x7f) as `^` and the byte 0x40 above it, and any other byte as it is, UTF-8 or not.
pub fn write_name<W: Write>(name: &[u8], out: &mut W) -> io::Result<()>
    ensures { OnOk result (Appends (W.contents out.old) (W.contents out.new) (escaped name.now)) }
{
    let mut rest = name;
    'runs: while let Some(place) = first_control(rest) {
        out.write_all(&rest[..place])?;
        out.write_all(&[b'^', rest[place] + 0x40])?;
        rest = &rest[place + 1..];
    }
    out.write_all(rest)
}

// The index of the first control character.
fn first_control(name: &[u8]) -> Option<usize>
    ensures value { result ≡ position_from is_ascii_control 0 name.now }
    ensures bound { IfSome result (λ place. place < length name.now) }
    ensures room { IfSome result (λ place. place + 1 < 2 ^ 64) }
{
    name.iter().position(|byte| byte.is_ascii_control())
}
