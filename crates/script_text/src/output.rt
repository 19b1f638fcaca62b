//! Writing a text whole.
ghost use Rattle.script_text.specs.Output.{Writes, WritesBeginning};

use std::io;
use std::io::{ErrorKind, Write};

/// Writes the text and flushes it. What was written before a failure is a beginning of the text.
pub fn print<O: Write>(out: &mut O, text: &[u8]) -> io::Result<()>
    ensures whole { Writes O.contents out.old out.new text.now result }
    ensures beginning { WritesBeginning O.contents out.old out.new text.now result }
{
    if let Err(error) = write_whole(out, text) {
        return Err(error);
    }
    out.flush()
}

fn write_whole<O: Write>(out: &mut O, text: &[u8]) -> io::Result<()>
    ensures whole { Writes O.contents out.old out.new text.now result }
    ensures beginning { WritesBeginning O.contents out.old out.new text.now result }
{
    let mut done = 0;
    for _ in 0..u64::MAX {
        if done == text.len() {
            return Ok(());
        }
        let (_, rest) = text.split_at(done);
        match out.write(rest) {
            Ok(0) => return Err(io::Error::from(ErrorKind::WriteZero)),
            Ok(count) => done += count,
            Err(error) if error.kind() == ErrorKind::Interrupted => {}
            Err(error) => return Err(error),
        }
    }
    Err(io::Error::from(ErrorKind::TimedOut))
}
