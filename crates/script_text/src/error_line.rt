//! The line of an error.
ghost use Rattle.shred_stage.specs.Sinks.{AppendsBeginning};
ghost use Rattle.script_text.specs.Texts.{error_text, line_of};

use crate::error::ScriptError;
use crate::output::print;
use arrayvec::ArrayVec;
use std::io::Write;

/// The most bytes of an error's line.
const MOST_LINE_BYTES: usize = 96;

/// Writes the error's line, or a beginning of it where that fails.
pub fn tell<E: Write>(err: &mut E, error: ScriptError)
    ensures { AppendsBeginning (E.contents err.old) (E.contents err.new) (line_of (error_text error)) }
{
    let mut line: ArrayVec<u8, MOST_LINE_BYTES> = ArrayVec::new();
    if let Ok(()) = writeln!(line, "{error}") {
        let _ = print(err, line.as_slice());
    }
}
