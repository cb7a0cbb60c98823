//! A writer that knows whether its reader has gone, as `head` after its last line.

ghost use Rattle.std.specs.Prelude.{◌≡◌, false};

use std::io;
use std::io::{ErrorKind, Write};

/// A writer, and whether a write failed since nobody reads what is written (`BrokenPipe`).
#[derive(Drop)]
pub struct Watched<W> {
    to: W,
    closed: bool,
}

impl<W> Watched<W> {
    /// A writer to which nothing is written yet.
    pub fn new(to: W) -> Watched<W>
        ensures { result.closed ≡ false }
    {
        Watched { to, closed: false }
    }

    /// Whether a write has failed since nobody reads what is written.
    pub fn is_closed(&self) -> bool
        ensures { result ≡ self.now.closed }
    {
        self.closed
    }

    // The error of a write, which is kept in mind.
    fn seen(&mut self, error: &io::Error)
        ensures { self.new.to ≡ self.old.to }
    {
        if error.kind() == ErrorKind::BrokenPipe {
            self.closed = true;
        }
    }
}

impl<W: Write> Write for Watched<W> {
    ghost contents = { λ watched. W.contents watched.to };

    fn write(&mut self, buf: &[u8]) -> io::Result<usize> {
        match self.to.write(buf) {
            Ok(count) => Ok(count),
            Err(error) => {
                self.seen(&error);
                Err(error)
            }
        }
    }

    fn flush(&mut self) -> io::Result<()> {
        match self.to.flush() {
            Ok(()) => Ok(()),
            Err(error) => {
                self.seen(&error);
                Err(error)
            }
        }
    }
}
