//! Systems that count their runs.
ghost use Rattle.std.specs.Prelude.{◌≡◌};
ghost use Rattle.shred.specs.Counted.{CountedStep, UncountedStep, counted_refusals, counted_runs, counted_system};

use shred_run::{Fault, RunningTime, System};
use shred_world::{OutOfMemory, ResourceValue, View, World};
use std::alloc::Global;

/// A system with the number of its runs, and of those that were not done. It does what the system within does, and declares the
/// same. A number that is the greatest of its type stays. Of one in a dispatcher the numbers are seen by `Dispatcher::system`.
#[derive(Drop)]
pub struct Counted<S> {
    system: S,
    runs: u64,
    refusals: u64,
}

impl<S> Counted<S> {
    /// The system, of which no run is counted yet.
    pub fn new(system: S) -> Self
        ensures system { counted_system result ≡ system }
        ensures runs { counted_runs result ≡ 0 }
        ensures refusals { counted_refusals result ≡ 0 }
    {
        Counted {
            system,
            runs: 0,
            refusals: 0,
        }
    }

    /// The system within.
    pub fn system(&self) -> &S
        ensures { result.now ≡ counted_system self.now }
    {
        &self.system
    }

    /// How many runs there were.
    pub fn runs(&self) -> u64
        ensures { result ≡ counted_runs self.now }
    {
        self.runs
    }

    /// How many of them were not done.
    pub fn refusals(&self) -> u64
        ensures { result ≡ counted_refusals self.now }
    {
        self.refusals
    }
}

impl<V: ResourceValue, S: System<V>> System<V> for Counted<S> {
    type Error = S::Error;

    type Accessor = S::Accessor;

    ghost reads = { λ counted. S.reads counted.system };

    ghost writes = { λ counted. S.writes counted.system };

    ghost time = { λ counted. S.time counted.system };

    ghost step = { CountedStep S.step };

    ghost sets_up = { UncountedStep S.sets_up };

    ghost disposes = { λ before. S.disposes before.system };

    fn run(&mut self, view: &mut View<V>) -> Result<(), Fault<S::Error>> {
        let outcome = self.system.run(view);
        self.runs = self.runs.saturating_add(1);
        if outcome.is_err() {
            self.refusals = self.refusals.saturating_add(1);
        }
        outcome
    }

    fn running_time(&self) -> RunningTime {
        self.system.running_time()
    }

    fn accessor(&self, alloc: Global) -> Result<S::Accessor, OutOfMemory> {
        self.system.accessor(alloc)
    }

    fn setup(&mut self, world: &mut World<V>) -> Result<(), Fault<S::Error>> {
        self.system.setup(world)
    }

    fn dispose(self, world: &mut World<V>) -> Result<(), Fault<S::Error>> {
        self.system.dispose(world)
    }
}
