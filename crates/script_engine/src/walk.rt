//! The walk over a script's lines, which make its plan.
ghost use Rattle.std.specs.Prelude.{◌≡◌, OnOk, IfOk, IfErr};
ghost use Rattle.shred.specs.Built.{IsNewBuilt};
ghost use Rattle.script_engine.specs.Lines.{IsBatchNotEnded, IsBuiltBy, IsNotBuilt, IsNotTaken};
ghost use Rattle.script_text.specs.declared.script.PlanLine.TheVariants.{Batch, End};
ghost use Rattle.script_engine.specs.Notes.{AreNotedBy};
ghost use Rattle.script_engine.specs.Building.{HasTaken, building_of};

use crate::taker::LineTaker;
use script_text::error::{LineFault, ScriptError};
use script_text::script::{BatchLine, PlanLine};
use shred_run::entry::push_or_drop;
use std::alloc::Global;
use std::mem;

/// What takes the next line, and the batches that are open around it, each with what is to take it, the outermost first.
#[derive(Drop)]
struct Building<'text, B> {
    current: B,
    pending: Vec<(BatchLine<'text>, B)>,
}

/// What this empty one becomes that takes all lines, in their order. Refused where a line does not go into the plan, where a
/// batch has no end or an end no batch, and where memory is wanting.
pub fn take_lines<B: LineTaker + Drop>(
    alloc: Global,
    lines: Vec<PlanLine<'_>>,
    empty: B,
) -> Result<B, ScriptError>
    requires { IsNewBuilt (B.noting.comes_to empty) }
    ensures built { IfOk result (λ taker. IsBuiltBy lines.entry.items (B.noting.comes_to taker)) }
    ensures noted { IfOk result (AreNotedBy B.noting lines.entry.items empty) }
    ensures not_built { IfErr result (IsNotBuilt lines.entry.items) }
{
    let mut building = Building {
        current: empty,
        pending: Vec::new(alloc),
    };
    for line in lines {
        if let Err(error) = take_line(alloc, &mut building, line) {
            return Err(error);
        }
    }
    match building.pending.pop() {
        None => Ok(building.current),
        Some((batch, _)) => Err(ScriptError::Line {
            line: batch.line,
            fault: LineFault::BatchWithoutEnd,
        }),
    }
}

fn take_line<'text, B: LineTaker + Drop>(
    alloc: Global,
    building: &mut Building<'text, B>,
    line: PlanLine<'text>,
) -> Result<(), ScriptError>
    ensures taken { OnOk result (HasTaken B.noting line.entry building.old building.new) }
    ensures not_taken { IfErr result (IsNotTaken line.entry (building_of B.noting building.old)) }
{
    match line {
        PlanLine::System(line) => building.current.add_system(alloc, line),
        PlanLine::Local(steps) => building.current.add_local(steps),
        PlanLine::Barrier => {
            building.current.add_barrier();
            Ok(())
        }
        PlanLine::Rule(line) => building.current.set_rule(line),
        PlanLine::Batch(batch) => begin_batch(alloc, building, batch),
        PlanLine::End(line) => end_batch(alloc, building, line),
    }
}

/// Goes on with an empty plan, that of the batch.
fn begin_batch<'text, B: LineTaker + Drop>(
    alloc: Global,
    building: &mut Building<'text, B>,
    batch: BatchLine<'text>,
) -> Result<(), ScriptError>
    ensures begun { OnOk result (HasTaken B.noting (Batch batch.entry) building.old building.new) }
    ensures not_begun { IfErr result (λ error. error ≡ ScriptError.OutOfMemory) }
{
    let inner = building.current.begin_batch(alloc, &batch)?;
    let outer = mem::replace(&mut building.current, inner);
    match push_or_drop(&mut building.pending, (batch, outer)) {
        Ok(()) => Ok(()),
        Err(_) => Err(ScriptError::OutOfMemory),
    }
}

/// Adds the innermost open batch to the plan around it, and goes on with that.
fn end_batch<B: LineTaker + Drop>(
    alloc: Global,
    building: &mut Building<'_, B>,
    end: usize,
) -> Result<(), ScriptError>
    ensures ended { OnOk result (HasTaken B.noting (End end) building.old building.new) }
    ensures not_ended { IfErr result (IsBatchNotEnded end (building_of B.noting building.old)) }
{
    let Some((batch, outer)) = building.pending.pop() else {
        return Err(ScriptError::Line {
            line: end,
            fault: LineFault::EndWithoutBatch,
        });
    };
    let inner = mem::replace(&mut building.current, outer);
    building.current.add_batch(alloc, end, batch, inner)
}
