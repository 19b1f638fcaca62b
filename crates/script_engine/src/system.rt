//! A script's systems, as they are dispatched.
ghost use Rattle.std.specs.Prelude.{◌≡◌, [], map, Ok, IfOk};
ghost use Rattle.script_text.specs.Declares.{places_read, places_written};
ghost use Rattle.script_text.specs.Place.{id_at};
ghost use Rattle.script_engine.specs.Steps.{steps_outcome, steps_left};

use crate::declared::Declared;
use crate::kept_numbers::run_declared;
use script_text::outcome::Refusal;
use script_text::step::Step;
use script_text::value::Value;
use shred::{Fault, OutOfMemory, RunningTime, System, View, World};
use std::alloc::{AllocError, Global};

/// A system of a script: steps that run in order, up to the first that refuses.
#[derive(Drop)]
pub struct ScriptSystem {
    declared: Declared,
    time: RunningTime,
    steps: Vec<Step>,
    ghost read_by_steps: { declared.read.items ≡ places_read [] steps.items },
    ghost written_by_steps: { declared.written.items ≡ places_written [] steps.items },
}

impl ScriptSystem {
    /// The system of this time and these steps.
    pub(crate) fn new(
        alloc: Global,
        time: RunningTime,
        steps: Vec<Step>,
    ) -> Result<Self, AllocError>
        ensures steps { IfOk result (λ system. system.steps.items ≡ steps.items) }
        ensures time { IfOk result (λ system. system.time ≡ time) }
    {
        let declared = Declared::of_steps(alloc, steps.as_slice())?;
        Ok(ScriptSystem {
            declared,
            time,
            steps,
        })
    }
}

impl System<Value> for ScriptSystem {
    type Error = Refusal;

    type Accessor = Declared;

    ghost reads = { λ system. map id_at system.declared.read.items };

    ghost writes = { λ system. map id_at system.declared.written.items };

    ghost time = { λ system. system.time };

    // A run keeps the system, and ends and leaves what its steps make of what it sees.
    ghost step = { λ before seen outcome after left. (after ≡ before) × (outcome ≡ steps_outcome before.steps.items seen) × (left ≡ steps_left before.steps.items seen) };

    ghost sets_up = { λ before seen outcome after left. (after ≡ before) × (outcome ≡ Ok tt) × (left ≡ seen) };

    ghost disposes = { λ _ seen outcome left. (outcome ≡ Ok tt) × (left ≡ seen) };

    #[inline(always)]
    fn run(&mut self, view: &mut View<Value>) -> Result<(), Fault<Refusal>> {
        run_declared(self.steps.as_slice(), &self.declared, view)
    }

    fn running_time(&self) -> RunningTime {
        self.time
    }

    fn accessor(&self, alloc: Global) -> Result<Declared, OutOfMemory> {
        self.declared.copy(alloc)
    }

    fn setup(&mut self, _world: &mut World<Value>) -> Result<(), Fault<Refusal>> {
        Ok(())
    }

    fn dispose(self, _world: &mut World<Value>) -> Result<(), Fault<Refusal>> {
        Ok(())
    }
}
