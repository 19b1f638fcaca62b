//! A reader that is interrupted or fails at a chosen place.
use std::io;
use std::io::{Error, ErrorKind, Read};

/// Gives a text in pieces, and then one byte so many times; and then it ends or fails.
#[derive(Clone, Copy)]
pub struct Source<'text> {
    pub text: &'text [u8],
    /// How much of the text it gives at a time.
    pub most: usize,
    pub byte: u8,
    pub times: usize,
    pub fails: bool,
    /// Whether it is interrupted before each piece.
    pub is_interrupted: bool,
    pub was_interrupted: bool,
}

impl<'text> Source<'text> {
    /// Gives the text as fast as it is asked for, and ends.
    pub fn of_text(text: &'text str) -> Source<'text> {
        Source {
            text: text.as_bytes(),
            most: usize::MAX,
            byte: b' ',
            times: 0,
            fails: false,
            is_interrupted: false,
            was_interrupted: false,
        }
    }

    /// Gives so many bytes of the text, and fails then.
    pub fn failing(text: &'text str, after: usize) -> Source<'text> {
        let (given, _) = text.as_bytes().split_at(after.min(text.len()));
        Source {
            text: given,
            fails: true,
            ..Source::of_text("")
        }
    }

    /// Gives the byte so many times, and ends.
    pub fn of_bytes(byte: u8, times: usize) -> Source<'text> {
        Source {
            byte,
            times,
            ..Source::of_text("")
        }
    }
}

impl Read for Source<'_> {
    fn read(&mut self, buf: &mut [u8]) -> io::Result<usize> {
        self.was_interrupted = self.is_interrupted && !self.was_interrupted;
        if self.was_interrupted {
            return Err(Error::from(ErrorKind::Interrupted));
        }
        if !self.text.is_empty() {
            let count = self.text.len().min(self.most).min(buf.len());
            let (given, rest) = self.text.split_at(count);
            buf[..count].copy_from_slice(given);
            self.text = rest;
            return Ok(count);
        }
        if self.times == 0 && self.fails {
            return Err(Error::other("the reader fails"));
        }
        let count = self.times.min(buf.len());
        for byte in &mut buf[..count] {
            *byte = self.byte;
        }
        self.times -= count;
        Ok(count)
    }
}
