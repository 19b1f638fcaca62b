//! No batch stands in the plan.
ghost use Rattle.std.specs.Prelude.{[]};
ghost use Rattle.shred_run.specs.Controls.{Refuses};
ghost use Rattle.shred_run.specs.declared.system.RunningTime.TheVariants.{VeryLong};

use crate::controller::BatchController;
use crate::system::{Fault, RunningTime};
use shred_world::{OutOfMemory, ResourceValue, View, World};
use std::alloc::Global;
use std::marker::PhantomData;

/// A controller that no caller can make: where it is the type of controllers, no batch stands in the plan. Its error is `E`.
/// Its calls, which nobody reaches, refuse for want of memory and change nothing.
#[derive(Drop)]
pub struct NoBatch<E> {
    error: PhantomData<E>,
}

impl<V: ResourceValue, E> BatchController<V> for NoBatch<E> {
    type Error = E;

    type Accessor = ();

    ghost reads = { λ none. [] };

    ghost writes = { λ none. [] };

    ghost time = { λ none. VeryLong };

    ghost begins = { Refuses };

    ghost asks = { Refuses };

    ghost sets_up = { Refuses };

    fn begin(&mut self, _view: &mut View<V>) -> Result<usize, Fault<E>> {
        Err(Fault::OutOfMemory)
    }

    fn again(&mut self, _view: &mut View<V>) -> Result<bool, Fault<E>> {
        Err(Fault::OutOfMemory)
    }

    fn running_time(&self) -> RunningTime {
        RunningTime::VeryLong
    }

    fn accessor(&self, _alloc: Global) -> Result<(), OutOfMemory> {
        Ok(())
    }

    fn setup(&mut self, _world: &mut World<V>) -> Result<(), Fault<E>> {
        Err(Fault::OutOfMemory)
    }
}
