//! The report into writers that take little, nothing, or only some calls, and whose flush fails.

use crate::tests::want::{want, want_at};
use program_ends::{Output, Stop, write_buffered};
use std::alloc::Global;
use std::io;
use std::io::Write;
use std::process::Abort;
use std::test::Fail;
use worked_files::files::{debug_link_file, hash_file, strtab_file};
use xmas_elf::ElfError;
use xmas_elf::bytes::Order;
use xmas_elf::report::{ReportFault, report};

// What a writer does with the call that passes no more.
#[derive(Clone, Copy)]
enum Then {
    // It fails, and so does each call after it.
    Fails,
    // It takes no byte, and so does each call after it.
    TakesNothing,
    // It is interrupted, and all calls after it pass.
    IsInterrupted,
}

// Takes at most `most` bytes a call and passes so many calls.
#[derive(Drop)]
struct Limited {
    held: Vec<u8>,
    most: usize,
    passes: u32,
    then: Then,
}

impl Write for Limited {
    fn write(&mut self, buf: &[u8]) -> io::Result<usize> {
        if self.passes == 0 {
            return match self.then {
                Then::Fails => Err(io::Error::from(io::ErrorKind::Other)),
                Then::TakesNothing => Ok(0),
                Then::IsInterrupted => {
                    self.passes = u32::MAX;
                    Err(io::Error::from(io::ErrorKind::Interrupted))
                }
            };
        }
        self.passes -= 1;
        let count = buf.len().min(self.most);
        self.held.write(&buf[..count])
    }

    fn flush(&mut self) -> io::Result<()> {
        Ok(())
    }
}

fn make_writer(alloc: Global, most: usize, passes: u32, then: Then) -> Limited {
    Limited {
        held: Vec::new(alloc),
        most,
        passes,
        then,
    }
}

// Wants the same report one byte a call, and where one of the calls is interrupted.
fn check_slow_writers(rt: &impl Abort, alloc: Global, input: &[u8]) -> Result<(), ReportFault> {
    let mut whole = Vec::new(alloc);
    report(input, &mut whole)?;
    for (most, passes) in [(1, u32::MAX), (usize::MAX, 0), (usize::MAX, 7), (1, 100)] {
        let mut slow = make_writer(alloc, most, passes, Then::IsInterrupted);
        want(rt, report(input, &mut slow), Ok(()));
        want(rt, slow.held.as_slice(), whole.as_slice());
    }
    Ok(())
}

#[test]
fn writes_the_same_to_slow_writers(rt: HostRuntime) -> Result<(), Fail> {
    check_slow_writers(&rt, rt.alloc(), &strtab_file(Order::Little))?;
    check_slow_writers(&rt, rt.alloc(), &debug_link_file())?;
    check_slow_writers(&rt, rt.alloc(), &hash_file())?;
    Ok(())
}

// Each call failed in turn, until a run ends with Ok: no run before it does, nor has one an error.
fn check_faults(
    rt: &impl Abort,
    alloc: Global,
    input: &[u8],
    then: Then,
) -> Result<(), ReportFault> {
    let mut whole = Vec::new(alloc);
    report(input, &mut whole)?;
    let mut ended = false;
    for passes in 0..2000 {
        let mut writer = make_writer(alloc, usize::MAX, passes, then);
        let answer = report(input, &mut writer);
        if answer == Ok(()) {
            want(rt, writer.held.as_slice(), whole.as_slice());
            ended = true;
            break;
        }
        want_at(rt, passes, answer, Err(ReportFault::Write));
    }
    want(rt, ended, true);
    Ok(())
}

#[test]
fn fails_as_its_writer_does(rt: HostRuntime) -> Result<(), Fail> {
    for then in [Then::Fails, Then::TakesNothing] {
        check_faults(&rt, rt.alloc(), &strtab_file(Order::Little), then)?;
        check_faults(&rt, rt.alloc(), &debug_link_file(), then)?;
        check_faults(&rt, rt.alloc(), &hash_file(), then)?;
    }
    Ok(())
}

const FAILURES: &[(usize, ElfError)] = &[
    (0, ElfError::ShortPart1),
    (3, ElfError::ShortPart1),
    (15, ElfError::ShortPart1),
    (51, ElfError::ShortHeaders),
];

// Wants this failure of an input, and no call of the writer.
fn check_failed(rt: &impl Abort, alloc: Global, input: &[u8], failure: ElfError, then: Then) {
    let mut writer = make_writer(alloc, usize::MAX, 0, then);
    let answer = report(input, &mut writer);
    want_at(rt, input.len(), answer, Err(ReportFault::Elf(failure)));
    want(rt, writer.passes, 0);
}

// On an input with an error the writer is never called.
#[test]
fn rejects_whatever_the_writer_does(rt: HostRuntime) {
    let file = strtab_file(Order::Little);
    for &(len, failure) in FAILURES {
        let input = file.get(..len).unwrap_or(b"");
        check_failed(&rt, rt.alloc(), input, failure, Then::Fails);
        check_failed(&rt, rt.alloc(), input, failure, Then::TakesNothing);
        check_failed(&rt, rt.alloc(), input, failure, Then::IsInterrupted);
        let mut text = Vec::new(rt.alloc());
        let answer = report(input, &mut text);
        want_at(&rt, len, answer, Err(ReportFault::Elf(failure)));
        want_at(&rt, len, text.is_empty(), true);
    }
}

// A report as the programs write one, by which what is written isn't claimed.
#[derive(Clone, Copy)]
struct Report<'a>(&'a [u8]);

impl Output for Report<'_> {
    ghost Writes = { λ report old new. Unit {0} };

    ghost flushed = { λ report old new kept written keeps. tt };

    type Error = ReportFault;

    ghost Fails = { λ report error. Unit {0} };

    ghost Begins = { λ report. Unit {0} };

    fn write_to<W: Write>(&self, out: &mut W) -> Result<(), Stop<ReportFault>> {
        report(self.0, out).map_err(Stop::Failed)
    }
}

// Takes each write, and fails each flush.
#[derive(Drop)]
struct Unflushed;

impl Write for Unflushed {
    fn write(&mut self, buf: &[u8]) -> io::Result<usize> {
        Ok(buf.len())
    }

    fn flush(&mut self) -> io::Result<()> {
        Err(io::Error::from(io::ErrorKind::Other))
    }
}

// What comes of a report into a writer that can't be flushed.
fn is_flush_told(alloc: Global, input: &[u8]) -> bool {
    matches!(
        write_buffered(alloc, &Report(input), Unflushed),
        Err(Stop::Write)
    )
}

#[test]
fn a_flush_that_fails_is_told(rt: HostRuntime) {
    let (strtab, hash) = (strtab_file(Order::Little), hash_file());
    let told = [
        is_flush_told(rt.alloc(), &strtab),
        is_flush_told(rt.alloc(), &debug_link_file()),
        is_flush_told(rt.alloc(), &hash),
    ];
    want(&rt, told, [true; 3]);
}
