//! The difference of two files: what is asked for, and how the program ends.

ghost use Rattle.std.specs.Prelude.{◌≡◌, ◌≤◌, Err, MatchResult, Result, if◌then◌else◌};
ghost use Rattle.elfsize.specs.Differences.{AreLengths, IsDifferenceEnd, IsDifferenceEndAt, IsPairFault};
ghost use Rattle.elfsize.specs.Differences.{IsPairText, OfFiles, difference_status, is_above};
ghost use Rattle.elfsize.specs.declared.difference.Lengths.{Lengths};
ghost use Rattle.elfsize.specs.declared.lines.AnyError.{AnyError};
ghost use Rattle.program_ends.specs.Appended.{AppendsSome};
ghost use Rattle.program_ends.specs.declared.Fault.{Fault};

use crate::changes::Difference;
use crate::lines::AnyError;
use crate::naming::{debug_bytes, side_of};
use crate::view::{Options, read_shown};
use crate::{NAME, fault_of};
use program_ends::{Fault, Stop, Watched, say, write_buffered};
use std::alloc::Global;
use std::convert::AsStr;
use std::fs::File;
use std::io::{Read, Write};
use std::rt::Files;

/// What is asked of two files.
#[derive(Clone, Copy)]
pub struct Comparison<'a> {
    /// What is asked of each.
    pub options: Options<'a>,
    /// By how many bytes the new file may be larger; `None` if by any number.
    pub limit: Option<u64>,
    /// The path of the old file.
    pub old: &'a str,
    /// The path of the new file.
    pub new: &'a str,
}

/// The lengths of two files.
#[derive(Clone, Copy, Debug, Drop)]
pub struct Lengths {
    /// That of the old file.
    pub old: usize,
    /// That of the new file.
    pub new: usize,
}

/// What is asked of the files at two paths; `None` if there are fewer paths, or more, or the limit is no
/// number.
pub fn compared<'s, S: AsStr>(
    options: Options<'s>,
    limit: Option<&'s str>,
    paths: &'s [S],
) -> Option<Comparison<'s>> {
    if paths.len() != 2 {
        return None;
    }
    let limit = match limit {
        Some(number) => Some(number.parse::<u64>().ok()?),
        None => None,
    };
    Some(Comparison {
        options,
        limit,
        old: paths[0].as_str(),
        new: paths[1].as_str(),
    })
}

/// Writes the difference of the files at two paths, as `run_difference` does.
pub fn compare_paths<R: Files, W: Write, E: Write>(
    alloc: Global,
    rt: &R,
    comparison: &Comparison<'_>,
    out: &mut Watched<W>,
    err: &mut E,
) -> u8
    ensures { (end : Result Lengths (Fault AnyError))
        × IsDifferenceEndAt comparison.now R.File.Read.remaining end
        × (result ≡ difference_status comparison.now.limit end) }
{
    let old = File::open(rt, comparison.old).ok();
    let new = File::open(rt, comparison.new).ok();
    run_difference(alloc, rt, comparison, old, new, out, err)
}

/// Writes the difference of two files to `out`, or the reason why it can't to `err`, and returns the
/// exit status.
///
/// A file is `None` where the path does not open. The status is 2 if all is written, and the new file
/// is larger than the old one by more than the limit; 0 if all is written otherwise; and 1 after a
/// fault. It says nothing of what `out` and `err` hold.
pub fn run_difference<F: Files, R: Read + Drop, W: Write, E: Write>(
    alloc: Global,
    rt: &F,
    comparison: &Comparison<'_>,
    old: Option<R>,
    new: Option<R>,
    out: &mut Watched<W>,
    err: &mut E,
) -> u8
    ensures bound { result ≤ 2 }
    ensures ends { (end : Result Lengths (Fault AnyError))
        × IsDifferenceEnd comparison.now R.remaining old new end
        × (result ≡ difference_status comparison.now.limit end) }
{
    let ended = compare_files(alloc, rt, comparison, old, new, &mut *out, &mut *err);
    status_after(comparison.limit, ended, out.is_closed(), err)
}

// The exit status after two files; after a fault it says why, unless nobody reads the output.
fn status_after<E: Write>(
    limit: Option<u64>,
    ended: Result<Lengths, Fault<'_, AnyError>>,
    closed: bool,
    err: &mut E,
) -> u8
    ensures bound { result ≤ 2 }
    ensures value { result ≡ difference_status limit ended.entry }
{
    match ended {
        Ok(lengths) => status_of_lengths(limit, &lengths),
        Err(Fault::Write) if closed => 1,
        Err(fault) => say(NAME, &fault, err),
    }
}

// The exit status for files of these lengths.
fn status_of_lengths(limit: Option<u64>, lengths: &Lengths) -> u8
    ensures bound { result ≤ 2 }
    ensures value { result ≡ (if is_above limit lengths.now then 2 else 0) }
{
    if is_above(limit, lengths) { 2 } else { 0 }
}

// Writes the difference of two files, and returns their lengths.
#[tactic(auto, using(crate::proofs::Compared::difference_ended))]
fn compare_files<'a, F: Files, R: Read + Drop, W: Write, E: Write>(
    alloc: Global,
    rt: &F,
    comparison: &Comparison<'a>,
    old: Option<R>,
    new: Option<R>,
    out: &mut W,
    err: &mut E,
) -> Result<Lengths, Fault<'a, AnyError>>
    ensures { IsDifferenceEnd comparison.now R.remaining old new result }
{
    match print_difference(alloc, rt, comparison, old, new, &mut *out, err) {
        Ok((_, lengths)) => Ok(lengths),
        Err(fault) => Err(fault),
    }
}

// Whether the new file is larger than the old one by more than a limit, if there is one.
fn is_above(limit: Option<u64>, lengths: &Lengths) -> bool
    ensures { result ≡ is_above limit lengths.now }
{
    match limit {
        Some(limit) => limit < lengths.new.saturating_sub(lengths.old) as u64,
        None => false,
    }
}

// Reads both files whole, writes their difference, and returns the writer and their lengths.
#[tactic(auto, using(crate::proofs::Compared::old_unread, crate::proofs::Compared::new_unread, crate::proofs::Compared::difference_done, crate::proofs::Compared::difference_failed))]
fn print_difference<'a, F: Files, R: Read + Drop, W: Write + Drop, E: Write>(
    alloc: Global,
    rt: &F,
    comparison: &Comparison<'a>,
    old: Option<R>,
    new: Option<R>,
    out: W,
    err: &mut E,
) -> Result<(W, Lengths), Fault<'a, AnyError>>
    ensures { MatchResult result
        (λ back. OfFiles comparison.now.options.view R.remaining old new (λ input other.
        AppendsSome (IsPairText comparison.now.options input other) (W.contents out) (W.contents back.0)
        × AreLengths input.now other.now back.1))
        (λ fault. IsDifferenceEnd comparison.now R.remaining old new (Err fault)) }
{
    let Some(old_input) = read_shown(alloc, comparison.options.view, old) else {
        return Err(Fault::Read {
            path: comparison.old,
        });
    };
    let Some(new_input) = read_shown(alloc, comparison.options.view, new) else {
        return Err(Fault::Read {
            path: comparison.new,
        });
    };
    let old_bytes: &[u8] = &old_input;
    let new_bytes: &[u8] = &new_input;
    let lengths = Lengths {
        old: old_bytes.len(),
        new: new_bytes.len(),
    };
    match print_inputs(alloc, rt, comparison, old_bytes, new_bytes, out, err) {
        Ok(out) => Ok((out, lengths)),
        Err(fault) => Err(fault),
    }
}

// Writes the difference of the files that these bytes are, and returns the writer.
#[tactic(auto, using(crate::proofs::Compared::old_fault, crate::proofs::Compared::new_fault, crate::proofs::Compared::stop_fault, crate::proofs::Compared::pair_found))]
fn print_inputs<'a, 'i, F: Files, W: Write + Drop, E: Write>(
    alloc: Global,
    rt: &F,
    comparison: &Comparison<'a>,
    old: &'i [u8],
    new: &'i [u8],
    out: W,
    err: &mut E,
) -> Result<W, Fault<'a, AnyError>>
    ensures { MatchResult result
        (λ back. AppendsSome (IsPairText comparison.now.options old.entry new.entry) (W.contents out) (W.contents back))
        (IsPairFault comparison.now old.entry new.entry) }
{
    let options = comparison.options;
    let Ok(old_found) = debug_bytes(alloc, rt, options, comparison.old, old, &mut *err) else {
        return Err(Fault::Memory);
    };
    let Ok(new_found) = debug_bytes(alloc, rt, options, comparison.new, new, err) else {
        return Err(Fault::Memory);
    };
    let old_side = match side_of(options, old, &old_found) {
        Ok(side) => side,
        Err(failure) => return Err(fault_of(Stop::Failed(failure), comparison.old)),
    };
    let new_side = match side_of(options, new, &new_found) {
        Ok(side) => side,
        Err(failure) => return Err(fault_of(Stop::Failed(failure), comparison.new)),
    };
    let difference = Difference {
        alloc,
        form: options.form,
        old: &old_side,
        new: &new_side,
    };
    match write_buffered(alloc, &difference, out) {
        Ok(out) => Ok(out),
        Err(stop) => Err(fault_of(stop, comparison.old)),
    }
}
