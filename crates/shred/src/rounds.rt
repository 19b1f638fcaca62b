//! A controller that says a number.
ghost use Rattle.std.specs.Prelude.{◌≡◌, []};
ghost use Rattle.shred.specs.Made.{IsLeftAlone};
ghost use Rattle.shred.specs.Rounds.{SaysRounds, rounds_of};
ghost use Rattle.shred_run.specs.Controls.{SaysYes};
ghost use Rattle.shred_run.specs.declared.system.RunningTime.TheVariants.{VeryLong};

use shred_run::{BatchController, Fault, RunningTime};
use shred_world::{OutOfMemory, ResourceValue, View, World};
use std::alloc::Global;
use std::marker::PhantomData;

/// The controller of a batch whose plan is run this many times at each run of the batch, up to the first refusal. It declares
/// nothing, and refuses nothing itself.
#[derive(Drop)]
pub struct Rounds<E> {
    rounds: usize,
    error: PhantomData<E>,
}

impl<E> Rounds<E> {
    /// So many rounds.
    pub fn new(rounds: usize) -> Self
        ensures { rounds_of result ≡ rounds }
    {
        Rounds {
            rounds,
            error: PhantomData,
        }
    }
}

impl<V: ResourceValue, E> BatchController<V> for Rounds<E> {
    type Error = E;

    type Accessor = ();

    ghost reads = { λ rounds. [] };

    ghost writes = { λ rounds. [] };

    ghost time = { λ rounds. VeryLong };

    ghost begins = { SaysRounds };

    ghost asks = { SaysYes };

    ghost sets_up = { IsLeftAlone };

    fn begin(&mut self, _view: &mut View<V>) -> Result<usize, Fault<E>> {
        Ok(self.rounds)
    }

    fn again(&mut self, _view: &mut View<V>) -> Result<bool, Fault<E>> {
        Ok(true)
    }

    fn running_time(&self) -> RunningTime {
        RunningTime::VeryLong
    }

    fn accessor(&self, _alloc: Global) -> Result<(), OutOfMemory> {
        Ok(())
    }

    fn setup(&mut self, _world: &mut World<V>) -> Result<(), Fault<E>> {
        Ok(())
    }
}
