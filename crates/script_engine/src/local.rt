//! A script's thread-local systems, as they are run.
ghost use Rattle.std.specs.Prelude.{◌≡◌, ⊤, Ok, IfOk};
ghost use Rattle.script_engine.specs.Steps.{steps_outcome, steps_left};

use crate::stepping::run_steps;
use script_text::outcome::Refusal;
use script_text::step::Step;
use script_text::value::Value;
use shred::{Fault, LocalWorld, RunNow, World};
use std::thread::Threads;

/// A thread-local system of a script: steps that run in order, up to the first that refuses, over the whole world.
#[derive(Drop)]
pub struct ScriptLocal {
    pub(crate) steps: Vec<Step>,
}

impl RunNow<Value> for ScriptLocal {
    type Error = Refusal;

    // A run keeps the system, and ends and leaves what its steps make of what the world holds.
    ghost runs = { λ before held outcome after left. (after ≡ before) × (outcome ≡ steps_outcome before.steps.items held) × (left ≡ steps_left before.steps.items held) };

    ghost sets_up = { λ before held outcome after left. (after ≡ before) × (outcome ≡ Ok tt) × (left ≡ held) };

    ghost disposes = { λ _ held outcome left. (outcome ≡ Ok tt) × (left ≡ held) };

    fn run_now<R: Threads + Sync>(
        &mut self,
        _rt: &R,
        world: &mut LocalWorld<Value>,
    ) -> Result<(), Fault<Refusal>> {
        run_steps(self.steps.as_slice(), world)
    }

    fn setup(&mut self, _world: &mut World<Value>) -> Result<(), Fault<Refusal>> {
        Ok(())
    }

    fn dispose(self, _world: &mut World<Value>) -> Result<(), Fault<Refusal>> {
        Ok(())
    }
}
