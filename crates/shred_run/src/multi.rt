//! Controllers that say once how often their plan is run.
ghost use Rattle.std.specs.Prelude.{◌≡◌, ℕ, List, IfOk};
ghost use Rattle.shred_run.specs.Controls.{Control, SaysYes};
ghost use Rattle.shred_run.specs.declared.system.RunningTime.TheVariants.{VeryLong};
ghost use Rattle.shred_table.specs.declared.id.ResourceId.{ResourceId};
ghost use Rattle.shred_table.specs.Changes.{StaysOutside, KeepsIdsOf};
ghost use Rattle.shred_world.specs.Between.{OverView, OverWorld};

use crate::controller::BatchController;
use crate::system::{Fault, RunningTime};
use shred_world::{Accessor, OutOfMemory, ResourceValue, View, World};
use std::alloc::Global;

/// What says, over the resources that it declares, how often a plan is run.
pub trait MultiDispatchController<V: ResourceValue> {
    ghost use Rattle.shred_world.specs.OwnViews.{IsLent};
    ghost use Rattle.shred_run.specs.Steps.{Step};
    ghost use Rattle.shred_world.specs.Views.{view_held, may_write, table_name, IsSameView};

    type Error;

    type Accessor: Accessor + Drop;

    ghost reads: { Self → List ResourceId };

    ghost writes: { Self → List ResourceId };

    ghost plans: { Control V Self ℕ Self.Error };

    ghost sets_up: { Step V Self Self.Error };

    /// How often the inner plan is to run, over a view of just the ids that the controller declares, with none of them out. It
    /// gives back what it took, keeps every id, and changes nothing but what the view may write. A `Fault` ends the batch;
    /// what was written stays.
    fn plan(&mut self, view: &mut View<V>) -> Result<usize, Fault<Self::Error>>
        requires lent { IsLent view.old (reads self.old) (writes self.old) }
        ensures plans { OverView V.kind_of plans self.old view.old result self.new view.new }
        ensures table { table_name view.new ≡ table_name view.old }
        ensures view { IsSameView view.old view.new }
        ensures ids { KeepsIdsOf (view_held V.kind_of) view.old view.new }
        ensures frame { StaysOutside (may_write view.old) (view_held V.kind_of) view.old view.new }
        ensures reads { reads self.new ≡ reads self.old }
        ensures writes { writes self.new ≡ writes self.old };

    /// What the controller declares.
    fn accessor(&self, alloc: Global) -> Result<Self::Accessor, OutOfMemory>
        ensures reads { IfOk result (λ a. Self.Accessor.reads a ≡ reads self.now) }
        ensures writes { IfOk result (λ a. Self.Accessor.writes a ≡ writes self.now) };

    /// What is done once, before the first run.
    fn setup(&mut self, world: &mut World<V>) -> Result<(), Fault<Self::Error>>
        ensures sets_up { OverWorld V.kind_of sets_up self.old world.old result self.new world.new }
        ensures reads { reads self.new ≡ reads self.old }
        ensures writes { writes self.new ≡ writes self.old };
}

/// The controller of a `MultiDispatchController`: its plan is run as often as that says.
#[derive(Drop)]
pub struct MultiDispatcher<C> {
    controller: C,
}

impl<C> MultiDispatcher<C> {
    ghost use Rattle.shred_run.specs.Multi.{controller_of};

    pub fn new(controller: C) -> Self
        ensures { controller_of result ≡ controller }
    {
        MultiDispatcher { controller }
    }
}

impl<V: ResourceValue, C: MultiDispatchController<V> + Drop> BatchController<V>
    for MultiDispatcher<C> {
    type Error = C::Error;

    type Accessor = C::Accessor;

    ghost reads = { λ multi. C.reads multi.controller };

    ghost writes = { λ multi. C.writes multi.controller };

    ghost time = { λ multi. VeryLong };

    ghost begins = { λ before seen bound after left. C.plans before.controller seen bound after.controller left };

    ghost asks = { SaysYes };

    ghost sets_up = { λ before seen outcome after left. C.sets_up before.controller seen outcome after.controller left };

    fn begin(&mut self, view: &mut View<V>) -> Result<usize, Fault<C::Error>> {
        self.controller.plan(view)
    }

    fn again(&mut self, _view: &mut View<V>) -> Result<bool, Fault<C::Error>> {
        Ok(true)
    }

    fn running_time(&self) -> RunningTime {
        RunningTime::VeryLong
    }

    fn accessor(&self, alloc: Global) -> Result<C::Accessor, OutOfMemory> {
        self.controller.accessor(alloc)
    }

    fn setup(&mut self, world: &mut World<V>) -> Result<(), Fault<C::Error>> {
        self.controller.setup(world)
    }
}
