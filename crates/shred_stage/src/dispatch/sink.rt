//! Where a plan is printed to.
ghost use Rattle.std.specs.Prelude.{◌≡◌, ◌<◌, ◌≤◌, ℕ, List, Option, length, take, IfOk, OnOk, OnErr};
ghost use Rattle.std.specs.Io.KnownBytes.{Appends, Keeps};
ghost use Rattle.shred_stage.specs.Sinks.{IsCounted, IsPut};

use std::io::Write;
use thiserror::Error;

/// A sink took nothing, and counted a failure.
#[derive(Clone, Copy, Debug, PartialEq, Eq, Error)]
#[error("the sink failed")]
pub struct SinkFailed;

/// Takes the bytes of a text, piece by piece, and counts its failures.
pub trait PlanSink {
    /// The bytes that it took, where it tells them.
    ghost told: { Self → Option (List ℕ) };

    /// How often it failed.
    ghost failures: { Self → ℕ };

    /// Takes a beginning of the piece, of at least one byte, and says how many; or takes nothing and counts a failure.
    fn put(&mut self, piece: &[u8]) -> Result<usize, SinkFailed>
        requires some { 0 < length piece.now }
        ensures beginning { IfOk result (λ n. (0 < n) × (n ≤ length piece.now)) }
        ensures taken { IfOk result (λ n. Appends (told self.old) (told self.new) (take n piece.now)) }
        ensures no_failure { OnOk result (failures self.new ≡ failures self.old) }
        ensures nothing { OnErr result (Keeps (told self.old) (told self.new)) }
        ensures counted { OnErr result (IsCounted (failures self.old) (failures self.new)) };
}

/// A sink that hands what it takes to a writer. A write that fails, or that takes no byte, is a failure. The count stops at
/// the greatest `usize`.
#[derive(Drop)]
pub struct ToWriter<W> {
    writer: W,
    failures: usize,
}

impl<W: Write> ToWriter<W> {
    ghost use Rattle.shred_stage.specs.Writers.{writer_of, failures_of};

    /// A sink over this writer, without failures.
    pub fn new(writer: W) -> Self
        ensures writer { writer_of result ≡ writer }
        ensures failures { failures_of result ≡ 0 }
    {
        ToWriter {
            writer,
            failures: 0,
        }
    }
}

impl<W: Write> PlanSink for ToWriter<W> {
    ghost use Rattle.shred_stage.specs.Writers.{writer_of, failures_of};

    ghost told = { λ sink. W.contents (writer_of sink) };

    ghost failures = { failures_of };

    fn put(&mut self, piece: &[u8]) -> Result<usize, SinkFailed> {
        match self.writer.write(piece) {
            Ok(0) | Err(_) => {
                if self.failures < usize::MAX {
                    self.failures += 1;
                }
                Err(SinkFailed)
            }
            Ok(count) => Ok(count),
        }
    }
}

/// Puts the whole text, piece by piece, up to the first failure.
pub(crate) fn put_all<W: PlanSink>(sink: &mut W, text: &[u8]) -> Result<(), SinkFailed>
    ensures { IsPut (W.told sink.old) (W.told sink.new) (W.failures sink.old) (W.failures sink.new) text.now result }
{
    let mut done = 0;
    while done < text.len() {
        let (_, rest) = text.split_at(done);
        match sink.put(rest) {
            Ok(count) => done += count,
            Err(e) => return Err(e),
        }
    }
    Ok(())
}
