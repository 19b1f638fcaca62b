//! A writer that fails or stops at a chosen place.
ghost use Rattle.std.specs.Prelude.{◌≡◌, IfOk};

use std::alloc::Global;
use std::io;
use std::io::{Error, ErrorKind, Write};

/// What a writer does where it has taken its bytes.
#[derive(Clone, Copy)]
enum End {
    Fails,
    TakesNothing,
    IsInterruptedOnce,
}

/// Takes so many bytes, some at most in one call, and then fails or stops.
#[derive(Drop)]
pub struct StoppingWriter {
    taken: Vec<u8>,
    left: usize,
    most: usize,
    end: End,
    flushes: bool,
}

impl StoppingWriter {
    fn ending(alloc: Global, left: usize, most: usize, end: End) -> StoppingWriter {
        StoppingWriter {
            taken: Vec::new(alloc),
            left,
            most,
            end,
            flushes: true,
        }
    }

    /// Takes all bytes.
    pub fn endless(alloc: Global) -> StoppingWriter {
        StoppingWriter::ending(alloc, usize::MAX, usize::MAX, End::Fails)
    }

    /// Takes that many bytes, and fails at each call then.
    pub fn after(alloc: Global, count: usize) -> StoppingWriter {
        StoppingWriter::ending(alloc, count, usize::MAX, End::Fails)
    }

    /// Takes that many bytes, one a call, and nothing then.
    pub fn full_after(alloc: Global, count: usize) -> StoppingWriter {
        StoppingWriter::ending(alloc, count, 1, End::TakesNothing)
    }

    /// Takes that many bytes, is interrupted, and takes all that comes then; one byte a call.
    pub fn interrupted_after(alloc: Global, count: usize) -> StoppingWriter {
        StoppingWriter::ending(alloc, count, 1, End::IsInterruptedOnce)
    }

    /// Takes all bytes, and fails to flush them.
    pub fn at_flush(alloc: Global) -> StoppingWriter {
        StoppingWriter {
            flushes: false,
            ..StoppingWriter::endless(alloc)
        }
    }

    /// One that does the same and has taken nothing.
    pub fn again(&self) -> StoppingWriter {
        StoppingWriter {
            taken: Vec::new(*self.taken.allocator()),
            left: self.left,
            most: self.most,
            end: self.end,
            flushes: self.flushes,
        }
    }

    pub fn written(&self) -> &[u8] {
        self.taken.as_slice()
    }

    // What is done in place of taking a byte.
    fn stop(&mut self) -> io::Result<usize>
        ensures { IfOk result (λ count. count ≡ 0) }
    {
        match self.end {
            End::Fails => Err(Error::other("the writer fails")),
            End::TakesNothing => Ok(0),
            End::IsInterruptedOnce => {
                self.left = usize::MAX;
                Err(Error::from(ErrorKind::Interrupted))
            }
        }
    }
}

impl Write for StoppingWriter {
    fn write(&mut self, buf: &[u8]) -> io::Result<usize> {
        if self.left == 0 {
            return self.stop();
        }
        let count = self.left.min(self.most).min(buf.len());
        self.taken.extend_from_slice(&buf[..count])?;
        self.left -= count;
        Ok(count)
    }

    fn flush(&mut self) -> io::Result<()> {
        if self.flushes {
            Ok(())
        } else {
            Err(Error::other("the writer fails"))
        }
    }
}
