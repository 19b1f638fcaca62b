//! A writer that stops at a chosen place.
ghost use Rattle.std.specs.Prelude.{◌≡◌, IfOk};

use std::alloc::Global;
use std::io;
use std::io::{Error, ErrorKind, Write};

/// What the writer does once in place of taking a byte.
#[derive(Clone, Copy)]
pub enum Stop {
    TakesNothing,
    Fails,
    IsInterrupted,
}

impl Stop {
    fn answer(self) -> io::Result<usize>
        ensures { IfOk result (λ count. count ≡ 0) }
    {
        match self {
            Stop::TakesNothing => Ok(0),
            Stop::Fails => Err(Error::other("the writer fails")),
            Stop::IsInterrupted => Err(Error::from(ErrorKind::Interrupted)),
        }
    }
}

/// Takes a byte a call. It may stop once, after so many bytes, and takes more after that.
#[derive(Drop)]
pub struct StoppingWriter {
    taken: Vec<u8>,
    stop: Option<(usize, Stop)>,
}

impl StoppingWriter {
    pub fn new(alloc: Global, stop: Option<(usize, Stop)>) -> StoppingWriter {
        StoppingWriter {
            taken: Vec::new(alloc),
            stop,
        }
    }

    pub fn written(&self) -> &[u8] {
        self.taken.as_slice()
    }
}

impl Write for StoppingWriter {
    fn write(&mut self, buf: &[u8]) -> io::Result<usize> {
        match self.stop {
            Some((place, stop)) if place == self.taken.len() => {
                self.stop = None;
                stop.answer()
            }
            _ => {
                let count = buf.len().min(1);
                self.taken.extend_from_slice(&buf[..count])?;
                Ok(count)
            }
        }
    }

    fn flush(&mut self) -> io::Result<()> {
        Ok(())
    }
}
