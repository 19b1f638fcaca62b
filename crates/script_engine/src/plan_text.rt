//! The printed plan, in memory.
ghost use Rattle.std.specs.Prelude.{IfOk, IfErr};
ghost use Rattle.shred.specs.Builders.{built, builder_pairs};
ghost use Rattle.script_engine.specs.PlanTexts.{IsNotPrinted, IsPrint};

use crate::builder::ScriptBuilder;
use script_text::error::ScriptError;
use shred::{PlanSink, PrintError, SinkFailed};
use std::alloc::Global;

/// The bytes of a printed plan. A refusal of memory is a failure.
#[derive(Drop)]
struct PlanText {
    bytes: Vec<u8>,
    failures: usize,
}

impl PlanSink for PlanText {
    ghost use Rattle.std.specs.Prelude.{Some};

    ghost told = { λ text. Some text.bytes.items };

    ghost failures = { λ text. text.failures };

    fn put(&mut self, piece: &[u8]) -> Result<usize, SinkFailed> {
        match self.bytes.extend_from_slice(piece) {
            Ok(()) => Ok(piece.len()),
            Err(_) => {
                if self.failures < usize::MAX {
                    self.failures += 1;
                }
                Err(SinkFailed)
            }
        }
    }
}

/// What the builder prints of its plan.
pub(crate) fn plan_text(alloc: Global, builder: &ScriptBuilder) -> Result<Vec<u8>, ScriptError>
    ensures printed { IfOk result (λ text. IsPrint (builder_pairs builder.now) (built builder.now).plan text.items) }
    ensures not_printed { IfErr result (IsNotPrinted (builder_pairs builder.now) (built builder.now).plan) }
{
    let mut text = PlanText {
        bytes: Vec::new(alloc),
        failures: 0,
    };
    match builder.print_par_seq(&mut text) {
        Ok(()) => Ok(text.bytes),
        Err(PrintError::Unnamed(id)) => Err(ScriptError::Unnamed { id: id.0 }),
        Err(PrintError::Write) => Err(ScriptError::OutOfMemory),
    }
}
