//! Systems of which only a run and two lists are said.
ghost use Rattle.std.specs.Prelude.{◌≡◌, List, IfOk};
ghost use Rattle.shred_run.specs.declared.system.RunningTime.TheVariants.{Average};
ghost use Rattle.shred.specs.Made.{IsLeftAlone};
ghost use Rattle.shred_table.specs.Accessors.{batch_reads, batch_writes};
ghost use Rattle.shred_table.specs.declared.id.ResourceId.{ResourceId};
ghost use Rattle.shred_table.specs.Changes.{StaysOutside, KeepsIdsOf};
ghost use Rattle.shred_world.specs.Between.{OverView};

use shred_run::{Fault, RunningTime, System};
use shred_world::{BatchAccessor, OutOfMemory, ResourceId, ResourceValue, View, World};
use std::alloc::Global;

/// What a run does, and over which ids.
pub trait PlainSystem<V: ResourceValue> {
    ghost use Rattle.shred_world.specs.OwnViews.{IsLent};
    ghost use Rattle.shred_run.specs.Steps.{Step};
    ghost use Rattle.shred_world.specs.Views.{view_held, may_write, table_name, IsSameView};

    type Error;

    ghost reads: { Self → List ResourceId };

    ghost writes: { Self → List ResourceId };

    ghost step: { Step V Self Self.Error };

    /// One step, as `System::run`.
    fn run(&mut self, view: &mut View<V>) -> Result<(), Fault<Self::Error>>
        requires lent { IsLent view.old (reads self.old) (writes self.old) }
        ensures step { OverView V.kind_of step self.old view.old result self.new view.new }
        ensures table { table_name view.new ≡ table_name view.old }
        ensures view { IsSameView view.old view.new }
        ensures ids { KeepsIdsOf (view_held V.kind_of) view.old view.new }
        ensures frame { StaysOutside (may_write view.old) (view_held V.kind_of) view.old view.new }
        ensures reads { reads self.new ≡ reads self.old }
        ensures writes { writes self.new ≡ writes self.old };

    /// The ids that are read, and those that are written.
    fn accessor(&self, alloc: Global) -> Result<BatchAccessor, OutOfMemory>
        ensures reads { IfOk result (λ accessor. batch_reads accessor ≡ reads self.now) }
        ensures writes { IfOk result (λ accessor. batch_writes accessor ≡ writes self.now) };
}

/// The system of a `PlainSystem`: it takes an average time, sets nothing up and has nothing to dispose of.
#[derive(Drop)]
pub struct Plain<T>(pub T);

impl<V: ResourceValue, T: PlainSystem<V> + Drop> System<V> for Plain<T> {
    type Error = T::Error;

    type Accessor = BatchAccessor;

    ghost reads = { λ plain. T.reads plain.0 };

    ghost writes = { λ plain. T.writes plain.0 };

    ghost time = { λ plain. Average };

    ghost step = { λ before seen outcome after left. T.step before.0 seen outcome after.0 left };

    ghost sets_up = { IsLeftAlone };

    ghost disposes = { λ before seen outcome left. IsLeftAlone before seen outcome before left };

    fn run(&mut self, view: &mut View<V>) -> Result<(), Fault<T::Error>> {
        self.0.run(view)
    }

    fn running_time(&self) -> RunningTime {
        RunningTime::Average
    }

    fn accessor(&self, alloc: Global) -> Result<BatchAccessor, OutOfMemory> {
        self.0.accessor(alloc)
    }

    fn setup(&mut self, _world: &mut World<V>) -> Result<(), Fault<T::Error>> {
        Ok(())
    }

    fn dispose(self, _world: &mut World<V>) -> Result<(), Fault<T::Error>> {
        Ok(())
    }
}
