//! The builder of a script's plan.
ghost use Rattle.std.specs.Prelude.{◌≡◌, IfErr, IfOk, ⊤};
ghost use Rattle.shred.specs.Builders.{built};
ghost use Rattle.script_engine.specs.Lines.{IsNotBuilt};
ghost use Rattle.script_engine.specs.Runs.{IsMadeOf};

use crate::batch::ScriptBatch;
use crate::local::ScriptLocal;
use crate::system::ScriptSystem;
use crate::taker::LineTaker;
use crate::walk::take_lines;
use script_text::error::ScriptError;
use script_text::script::{BatchLine, PlanLine, RuleLine, SystemLine};
use script_text::step::Step;
use script_text::value::Value;
use shred::DispatcherBuilder;
use std::alloc::{AllocError, Global};

/// A builder of plans of a script's systems and batches.
pub type ScriptBuilder = DispatcherBuilder<Value, ScriptSystem, ScriptBatch, ScriptLocal>;

/// The builder that has taken all lines, in their order, with this number of workers. Refused where a line does not go into the
/// plan, where a batch has no end or an end no batch, and where memory is wanting.
pub(crate) fn builder_with(
    alloc: Global,
    lines: Vec<PlanLine<'_>>,
    workers: usize,
) -> Result<ScriptBuilder, ScriptError>
    ensures made { IfOk result (λ builder. IsMadeOf lines.entry.items workers (built builder)) }
    ensures not_built { IfErr result (IsNotBuilt lines.entry.items) }
{
    let mut builder = take_lines(alloc, lines, ScriptBuilder::new(alloc))?;
    builder.add_pool(workers);
    Ok(builder)
}

impl LineTaker for ScriptBuilder {
    // Nothing is noted.
    ghost noting = { record { comes_to = built; system = λ line old new. ⊤; same = λ old new. ⊤; begins = λ batch around inner. ⊤; batch = λ batch inner old new. ⊤ } };

    fn add_system(&mut self, alloc: Global, line: SystemLine<'_>) -> Result<(), ScriptError> {
        let SystemLine {
            line,
            name,
            time,
            dependencies,
            steps,
        } = line;
        let system = ScriptSystem::new(alloc, time, steps)?;
        match self.add(system, name, dependencies.as_slice()) {
            Ok(_) => Ok(()),
            Err(error) => Err(ScriptError::of_add(line, error)),
        }
    }

    fn add_local(&mut self, steps: Vec<Step>) -> Result<(), ScriptError> {
        match self.add_thread_local(ScriptLocal { steps }) {
            Ok(()) => Ok(()),
            Err(_) => Err(ScriptError::OutOfMemory),
        }
    }

    fn add_barrier(&mut self) {
        DispatcherBuilder::add_barrier(self);
    }

    fn set_rule(&mut self, line: RuleLine) -> Result<(), ScriptError> {
        match self.add_rule(line.rule) {
            Ok(()) => Ok(()),
            Err(error) => Err(ScriptError::of_add(line.line, error)),
        }
    }

    fn begin_batch(
        &self,
        alloc: Global,
        _batch: &BatchLine<'_>,
    ) -> Result<ScriptBuilder, AllocError> {
        Ok(ScriptBuilder::new(alloc))
    }

    fn add_batch(
        &mut self,
        _alloc: Global,
        end: usize,
        batch: BatchLine<'_>,
        inner: ScriptBuilder,
    ) -> Result<(), ScriptError> {
        let controller = ScriptBatch {
            rounds: batch.rounds,
        };
        let dependencies = batch.dependencies.as_slice();
        match DispatcherBuilder::add_batch(self, controller, inner, batch.name, dependencies) {
            Ok(_) => Ok(()),
            Err(error) => Err(ScriptError::of_add(end, error)),
        }
    }
}
