//! Reading a script, of bounded length.
ghost use Rattle.std.specs.Prelude.{◌≡◌, ◌≤◌, ◌<◌, ◌+◌, ◌++◌, ◌↔◌, length, vec_len, Err, IfErr, IfOk, OnOk, true};
ghost use Rattle.std.specs.Io.KnownBytes.{Consumes, IsAtEnd, prepend_known};
ghost use Rattle.script_text.specs.declared.error.ScriptError.TheVariants.{TooLong};
ghost use Rattle.script_text.specs.Input.{IsLongerThan, IsReadError};

use crate::error::ScriptError;
use std::alloc::Global;
use std::io::{ErrorKind, Read};

/// The most bytes that a script may have.
pub const MOST_BYTES: usize = 1_048_576;

const CHUNK_BYTES: usize = 8192;

/// All that `reader` gives. Of a script that is too long and a read that fails, the first that is met is told.
pub fn read_text<R: Read>(alloc: Global, reader: &mut R) -> Result<Vec<u8>, ScriptError>
    ensures text { IfOk result (λ text. Consumes (R.remaining reader.old) (R.remaining reader.new) text.items) }
    ensures end { OnOk result (IsAtEnd (R.remaining reader.new)) }
    ensures length { IfOk result (λ text. vec_len text ≤ MOST_BYTES) }
    ensures too_long { result ≡ Err TooLong → IsLongerThan MOST_BYTES (R.remaining reader.old) }
    ensures err { IfErr result IsReadError }
{
    let mut text = Vec::new(alloc);
    let mut chunk = [0; CHUNK_BYTES];
    for _ in 0..u64::MAX {
        if append_next(reader, &mut chunk, &mut text)? {
            return Ok(text);
        }
    }
    Err(ScriptError::InputFailed)
}

// One read, whose bytes go behind the text, and whether it met the end. Of a read that was interrupted there are none.
fn append_next<R: Read>(
    reader: &mut R,
    chunk: &mut [u8; CHUNK_BYTES],
    text: &mut Vec<u8>,
) -> Result<bool, ScriptError>
    requires { vec_len text.old ≤ MOST_BYTES }
    ensures text { OnOk result (Consumes (prepend_known text.old.items (R.remaining reader.old)) (R.remaining reader.new) text.new.items) }
    ensures end { IfOk result (λ is_end. is_end ≡ true → IsAtEnd (R.remaining reader.new)) }
    ensures length { vec_len text.new ≤ MOST_BYTES }
    ensures too_long { result ≡ Err TooLong → IsLongerThan MOST_BYTES (prepend_known text.old.items (R.remaining reader.old)) }
    ensures err { IfErr result IsReadError }
{
    match reader.read(chunk) {
        Ok(0) => Ok(true),
        Ok(count) => {
            append(text, &chunk[..count])?;
            Ok(false)
        }
        Err(error) if error.kind() == ErrorKind::Interrupted => Ok(false),
        Err(_) => Err(ScriptError::InputFailed),
    }
}

fn append(text: &mut Vec<u8>, bytes: &[u8]) -> Result<(), ScriptError>
    requires { vec_len text.old ≤ MOST_BYTES }
    ensures text { OnOk result (text.new.items ≡ text.old.items ++ bytes.now) }
    ensures length { vec_len text.new ≤ MOST_BYTES }
    ensures too_long { (result ≡ Err TooLong) ↔ (MOST_BYTES < vec_len text.old + length bytes.now) }
    ensures err { IfErr result IsReadError }
{
    if bytes.len() > MOST_BYTES - text.len() {
        return Err(ScriptError::TooLong);
    }
    text.extend_from_slice(bytes)?;
    Ok(())
}
