//! What says how often the plan of a batch is run.
ghost use Rattle.std.specs.Prelude.{◌≡◌, ℕ, Bool, List, IfOk};
ghost use Rattle.shred_run.specs.declared.system.RunningTime.{RunningTime};
ghost use Rattle.shred_table.specs.declared.id.ResourceId.{ResourceId};
ghost use Rattle.shred_table.specs.Changes.{StaysOutside, KeepsIdsOf};
ghost use Rattle.shred_world.specs.Between.{OverView, OverWorld};

use crate::system::{Fault, RunningTime};
use shred_world::{Accessor, OutOfMemory, ResourceValue, View, World};
use std::alloc::Global;

/// What says, over the resources that it declares, how often the plan of its batch is run: at most as often as `begin`
/// answers, and before each run as long as `again` says yes.
pub trait BatchController<V: ResourceValue> {
    ghost use Rattle.shred_world.specs.OwnViews.{IsLent};
    ghost use Rattle.shred_run.specs.Steps.{Step};
    ghost use Rattle.shred_run.specs.Controls.{Control};
    ghost use Rattle.shred_world.specs.Views.{view_held, may_write, table_name, IsSameView};

    type Error;

    type Accessor: Accessor + Drop;

    ghost reads: { Self → List ResourceId };

    ghost writes: { Self → List ResourceId };

    ghost time: { Self → RunningTime };

    ghost begins: { Control V Self ℕ Self.Error };

    ghost asks: { Control V Self Bool Self.Error };

    ghost sets_up: { Step V Self Self.Error };

    /// Begins a run of the batch, over a view of just the ids that the controller declares, with none of them out, and
    /// answers the most rounds that there are to be. It gives back what it took, keeps every id, and changes nothing but what
    /// the view may write. A `Fault` ends the batch; what was written stays.
    fn begin(&mut self, view: &mut View<V>) -> Result<usize, Fault<Self::Error>>
        requires lent { IsLent view.old (reads self.old) (writes self.old) }
        ensures begins { OverView V.kind_of begins self.old view.old result self.new view.new }
        ensures table { table_name view.new ≡ table_name view.old }
        ensures view { IsSameView view.old view.new }
        ensures ids { KeepsIdsOf (view_held V.kind_of) view.old view.new }
        ensures frame { StaysOutside (may_write view.old) (view_held V.kind_of) view.old view.new }
        ensures reads { reads self.new ≡ reads self.old }
        ensures writes { writes self.new ≡ writes self.old };

    /// Asked before each round, over such a view again: whether the inner plan is to run. No ends the batch, which is Done
    /// then. A `Fault` ends it too; what was written stays.
    fn again(&mut self, view: &mut View<V>) -> Result<bool, Fault<Self::Error>>
        requires lent { IsLent view.old (reads self.old) (writes self.old) }
        ensures asks { OverView V.kind_of asks self.old view.old result self.new view.new }
        ensures table { table_name view.new ≡ table_name view.old }
        ensures view { IsSameView view.old view.new }
        ensures ids { KeepsIdsOf (view_held V.kind_of) view.old view.new }
        ensures frame { StaysOutside (may_write view.old) (view_held V.kind_of) view.old view.new }
        ensures reads { reads self.new ≡ reads self.old }
        ensures writes { writes self.new ≡ writes self.old };

    /// How long a run of the batch is thought to take.
    fn running_time(&self) -> RunningTime
        ensures { result ≡ time self.now };

    /// What the controller declares.
    fn accessor(&self, alloc: Global) -> Result<Self::Accessor, OutOfMemory>
        ensures reads { IfOk result (λ a. Self.Accessor.reads a ≡ reads self.now) }
        ensures writes { IfOk result (λ a. Self.Accessor.writes a ≡ writes self.now) };

    /// What is done once, before the first run and before the setup of the batch's systems.
    fn setup(&mut self, world: &mut World<V>) -> Result<(), Fault<Self::Error>>
        ensures sets_up { OverWorld V.kind_of sets_up self.old world.old result self.new world.new }
        ensures reads { reads self.new ≡ reads self.old }
        ensures writes { writes self.new ≡ writes self.old };
}
