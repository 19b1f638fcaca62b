//! What takes the lines of a script.
ghost use Rattle.std.specs.Prelude.{◌≡◌, IfErr, IfOk, OnErr, OnOk};
ghost use Rattle.shred.specs.Built.{IsBarrierSet, IsNewBuilt};
ghost use Rattle.script_engine.specs.Lines.{IsNotAdded, IsRuleNotSet};

use script_text::error::ScriptError;
use script_text::script::{BatchLine, RuleLine, SystemLine};
use script_text::step::Step;
use std::alloc::{AllocError, Global};

/// What takes the lines of a script, one after the other: a builder of its plan, which may note more beside it. After a refusal
/// its builder is as before.
pub trait LineTaker: Sized {
    ghost use Rattle.script_engine.specs.Notes.{AddsBatchLine, AddsLine, AddsLocal, KeepsBuilt, Noting, RefusesBatch, SetsRule};

    ghost noting: { Noting Self };

    /// Adds the system of a line.
    fn add_system(&mut self, alloc: Global, line: SystemLine<'_>) -> Result<(), ScriptError>
        ensures added { OnOk result (AddsLine noting line.entry self.old self.new) }
        ensures noted { OnOk result (noting.system line.entry self.old self.new) }
        ensures not_added { IfErr result (IsNotAdded line.entry (noting.comes_to self.old)) }
        ensures unchanged { OnErr result (KeepsBuilt noting self.old self.new) };

    /// Adds the thread-local system of these steps.
    fn add_local(&mut self, steps: Vec<Step>) -> Result<(), ScriptError>
        ensures added { OnOk result (AddsLocal noting steps.items self.old self.new) }
        ensures noted { OnOk result (noting.same self.old self.new) }
        ensures not_added { IfErr result (λ error. error ≡ ScriptError.OutOfMemory) }
        ensures unchanged { OnErr result (KeepsBuilt noting self.old self.new) };

    /// What is added from here on stands behind all that is there.
    fn add_barrier(&mut self)
        ensures set { IsBarrierSet (noting.comes_to self.old) (noting.comes_to self.new) }
        ensures noted { noting.same self.old self.new };

    /// Sets the rule of a line, which is refused where a system or a batch was added before.
    fn set_rule(&mut self, line: RuleLine) -> Result<(), ScriptError>
        ensures set { OnOk result (SetsRule noting line.rule self.old self.new) }
        ensures noted { OnOk result (noting.same self.old self.new) }
        ensures not_set { IfErr result (IsRuleNotSet line (noting.comes_to self.old)) }
        ensures unchanged { OnErr result (KeepsBuilt noting self.old self.new) };

    /// What takes the lines of this batch, which stands in its plan.
    fn begin_batch(&self, alloc: Global, batch: &BatchLine<'_>) -> Result<Self, AllocError>
        ensures empty { IfOk result (λ inner. IsNewBuilt (noting.comes_to inner)) }
        ensures noted { IfOk result (noting.begins batch.now self.now) };

    /// Adds the batch of this plan, which the line of this number ends.
    fn add_batch(
        &mut self,
        alloc: Global,
        end: usize,
        batch: BatchLine<'_>,
        inner: Self,
    ) -> Result<(), ScriptError>
        ensures added { OnOk result (AddsBatchLine noting batch.entry inner self.old self.new) }
        ensures noted { OnOk result (noting.batch batch.entry inner self.old self.new) }
        ensures not_added { IfErr result (RefusesBatch noting end batch.entry inner self.old) }
        ensures unchanged { OnErr result (KeepsBuilt noting self.old self.new) };
}
