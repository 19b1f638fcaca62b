//! A script's batches: their controller.
ghost use Rattle.std.specs.Prelude.{◌≡◌, [], Ok, true};
ghost use Rattle.shred_run.specs.declared.system.RunningTime.TheVariants.{VeryLong};

use script_text::outcome::Refusal;
use script_text::value::Value;
use shred::{BatchController, Fault, OutOfMemory, RunningTime, View, World};
use std::alloc::Global;

/// The controller of a batch of a script, which runs its plan so often.
#[derive(Drop)]
pub struct ScriptBatch {
    pub(crate) rounds: usize,
}

impl BatchController<Value> for ScriptBatch {
    type Error = Refusal;

    type Accessor = ();

    ghost reads = { λ batch. [] };

    ghost writes = { λ batch. [] };

    ghost time = { λ batch. VeryLong };

    ghost begins = { λ before seen outcome after left. (after ≡ before) × (outcome ≡ Ok before.rounds) × (left ≡ seen) };

    ghost asks = { λ before seen outcome after left. (after ≡ before) × (outcome ≡ Ok true) × (left ≡ seen) };

    ghost sets_up = { λ before seen outcome after left. (after ≡ before) × (outcome ≡ Ok tt) × (left ≡ seen) };

    fn begin(&mut self, _view: &mut View<Value>) -> Result<usize, Fault<Refusal>> {
        Ok(self.rounds)
    }

    fn again(&mut self, _view: &mut View<Value>) -> Result<bool, Fault<Refusal>> {
        Ok(true)
    }

    fn running_time(&self) -> RunningTime {
        RunningTime::VeryLong
    }

    fn accessor(&self, _alloc: Global) -> Result<(), OutOfMemory> {
        Ok(())
    }

    fn setup(&mut self, _world: &mut World<Value>) -> Result<(), Fault<Refusal>> {
        Ok(())
    }
}
