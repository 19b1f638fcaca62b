//! A system as a tree that runs as one.
ghost use Rattle.std.specs.Prelude.{◌≡◌, ◌<◌, length};
ghost use Rattle.std.specs.List.{AllZip};
ghost use Rattle.shred_table.specs.Parts.{IsHandOf};
ghost use Rattle.shred_world.specs.Beside.{lender_of, pairs_behind, pairs_of, parted_of};
ghost use Rattle.shred_world.specs.Views.{table_name, view_slot};
ghost use Rattle.shred_trees.specs.Leaves.{exact_of, system_of};
ghost use Rattle.shred_trees.specs.Parted.{IsPairList, RanAt, OneRanIn, IsHandAt, IsPairAt};
ghost use Rattle.shred_trees.specs.TreeViews.{Covers, RanOver};

use crate::lists::{Lists, append};
use crate::tree::{RunWithPool, Shape};
use shred_run::{Fault, Now, System};
use shred_world::{Behind, OutOfMemory, Parts, ResourceId, ResourceValue, Table, View, World};
use std::alloc::Global;

// The run of a system over a hand and what lies behind it.
fn run_over<V: ResourceValue, S: System<V>>(
    system: &mut S,
    behind: &Behind<V>,
    hand: &mut Table<V>,
) -> Result<(), Fault<S::Error>>
    requires one { 0 < length (pairs_behind behind.now) }
    requires hand { IsHandAt behind.now 0 hand.old }
    requires pair { IsPairAt (exact_of S.System) behind.now 0 system.old }
    ensures { RanAt V.kind_of (exact_of S.System) behind.now 0 system.old hand.old result system.new hand.new }
{
    let mut view = behind.view(0, hand);
    system.run(&mut view)
}

// The run of a system over the hand of its part.
fn run_part<V: ResourceValue + Drop, S: System<V>>(
    system: &mut S,
    parts: &mut Parts<V>,
    lender: &View<V>,
) -> Result<(), Fault<S::Error>>
    requires lender { table_name lender.now ≡ lender_of parts.old }
    requires pairs { IsPairList (exact_of S.System) system.old (pairs_of parts.old) }
    requires hands { AllZip (IsHandOf (view_slot lender.now)) (pairs_of parts.old) parts.old.hands.items }
    ensures ran { OneRanIn V.kind_of (exact_of S.System) lender.now parts.old system.old result system.new parts.new }
    ensures lender { lender_of parts.new ≡ lender_of parts.old }
    ensures parted { parted_of parts.new ≡ parted_of parts.old }
    ensures pairs { pairs_of parts.new ≡ pairs_of parts.old }
{
    let behind = parts.behind(lender);
    run_over(system, &behind, &mut parts.hands[0])
}

// The run of a system over just what it declares of the view.
fn run_listed<V: ResourceValue + Drop, S: System<V>>(
    alloc: Global,
    system: &mut S,
    lists: &Lists,
    view: &mut View<V>,
) -> Result<(), Fault<S::Error>>
    requires covered { Covers view.old (S.reads system.old) (S.writes system.old) }
    requires reads { lists.now.reads.items ≡ S.reads system.old }
    requires writes { lists.now.writes.items ≡ S.writes system.old }
    ensures { RanOver V.kind_of (system_of S.System) system.old view.old result system.new view.new }
{
    let pairs = [lists.pair()];
    let mut parts = match view.part(alloc, &pairs) {
        Ok(parts) => parts,
        Err(_) => return Err(Fault::OutOfMemory),
    };
    let outcome = run_part(system, &mut parts, view);
    parts.join(view);
    outcome
}

impl<V: ResourceValue + Drop, E, S: System<V, Error = E> + Drop> RunWithPool<V, E> for Now<S> {
    ghost use Rattle.shred_trees.specs.Pieces.{never_apart};
    ghost use Rattle.shred_trees.specs.Leaves.{now_trees};

    ghost trees = { now_trees S.step S.sets_up S.reads S.writes };

    ghost pieces = { never_apart };

    fn setup(&mut self, world: &mut World<V>) -> Result<(), Fault<E>> {
        self.0.setup(world)
    }

    fn reads(&self, ids: &mut Vec<ResourceId>) -> Result<(), OutOfMemory> {
        let lists = Lists::of_system(*ids.allocator(), &self.0)?;
        append(ids, lists.reads.as_slice())
    }

    fn writes(&self, ids: &mut Vec<ResourceId>) -> Result<(), OutOfMemory> {
        let lists = Lists::of_system(*ids.allocator(), &self.0)?;
        append(ids, lists.writes.as_slice())
    }

    fn split(self) -> Shape<Self> {
        Shape::Leaf(self)
    }

    fn rejoin(first: Self, _second: Self) -> Self {
        first
    }

    fn run_in_order(&mut self, alloc: Global, view: &mut View<V>) -> Result<(), Fault<E>> {
        match Lists::of_system(alloc, &self.0) {
            Ok(lists) => run_listed(alloc, &mut self.0, &lists, view),
            Err(_) => Err(Fault::OutOfMemory),
        }
    }
}
