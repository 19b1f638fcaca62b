//! The dispatcher of a tree.
ghost use Rattle.std.specs.Prelude.{◌≡◌, Ok};
ghost use Rattle.shred_run.specs.Alone.{KeepsLists};
ghost use Rattle.shred_table.specs.Shown.{IsSameSlots};
ghost use Rattle.shred_world.specs.Between.{OverWorld};
ghost use Rattle.shred_trees.specs.ParSeqs.{TreeRanOver, TreeRanWithin, ParSeqRanOver};

use crate::lists::Lists;
use crate::tree::RunWithPool;
use shred_run::{Fault, RunNow};
use shred_world::parting::{keep, twin_of_local};
use shred_world::{LocalWorld, ResourceValue, Table, View, World};
use std::alloc::Global;
use std::marker::PhantomData;
use std::thread::Threads;

/// A tree with a number of workers, which runs over a world. As a `RunNow` it runs on the caller's thread; nothing of it is
/// disposed of.
#[derive(Drop)]
pub struct ParSeq<T, E> {
    tree: T,
    workers: usize,
    of: PhantomData<E>,
}

// The run of a tree over what it lists of the table behind a world.
fn run_over<
    R: Threads + Sync,
    V: ResourceValue + Drop + Send + Sync,
    E: Drop + Send,
    T: RunWithPool<V, E> + Send,
>(
    rt: &R,
    alloc: Global,
    tree: &mut T,
    lists: &Lists,
    table: &mut Table<V>,
    workers: usize,
) -> Result<(), Fault<E>>
    requires reads { lists.now.reads.items ≡ T.trees.reads tree.old }
    requires writes { lists.now.writes.items ≡ T.trees.writes tree.old }
    ensures ran { TreeRanOver V.kind_of T.trees tree.old table.old result tree.new table.new }
    ensures slots { IsSameSlots table.old table.new }
{
    let reads = lists.reads.as_slice();
    let writes = lists.writes.as_slice();
    let mut view = View::over(reads, writes, &[], table);
    tree.run(rt, alloc, &mut view, workers)
}

// The same, all of it on the caller's thread.
fn run_over_in_order<V: ResourceValue + Drop, E: Drop, T: RunWithPool<V, E>>(
    alloc: Global,
    tree: &mut T,
    lists: &Lists,
    table: &mut Table<V>,
) -> Result<(), Fault<E>>
    requires reads { lists.now.reads.items ≡ T.trees.reads tree.old }
    requires writes { lists.now.writes.items ≡ T.trees.writes tree.old }
    ensures ran { TreeRanOver V.kind_of T.trees tree.old table.old result tree.new table.new }
    ensures slots { IsSameSlots table.old table.new }
{
    let reads = lists.reads.as_slice();
    let writes = lists.writes.as_slice();
    let mut view = View::over(reads, writes, &[], table);
    tree.run_in_order(alloc, &mut view)
}

// The run of a tree over what it lists of a world.
fn run_within<
    R: Threads + Sync,
    V: ResourceValue + Drop + Send + Sync,
    E: Drop + Send,
    T: RunWithPool<V, E> + Send,
>(
    rt: &R,
    tree: &mut T,
    lists: &Lists,
    world: &mut LocalWorld<V>,
    workers: usize,
) -> Result<(), Fault<E>>
    requires reads { lists.now.reads.items ≡ T.trees.reads tree.old }
    requires writes { lists.now.writes.items ≡ T.trees.writes tree.old }
    ensures { TreeRanWithin V.kind_of T.trees tree.old world.old result tree.new world.new }
{
    let alloc = world.allocator();
    let twin = twin_of_local(world);
    let outcome = run_over(rt, alloc, tree, lists, &mut twin.table, workers);
    keep(world);
    outcome
}

// The same, all of it on the caller's thread.
fn run_within_in_order<V: ResourceValue + Drop, E: Drop, T: RunWithPool<V, E>>(
    tree: &mut T,
    lists: &Lists,
    world: &mut LocalWorld<V>,
) -> Result<(), Fault<E>>
    requires reads { lists.now.reads.items ≡ T.trees.reads tree.old }
    requires writes { lists.now.writes.items ≡ T.trees.writes tree.old }
    ensures { TreeRanWithin V.kind_of T.trees tree.old world.old result tree.new world.new }
{
    let alloc = world.allocator();
    let twin = twin_of_local(world);
    let outcome = run_over_in_order(alloc, tree, lists, &mut twin.table);
    keep(world);
    outcome
}

impl<T, E> ParSeq<T, E> {
    ghost use Rattle.shred_trees.specs.ParSeqs.{ParSeqRan, tree_of, workers_of};

    /// The tree, to be run with this many workers.
    pub fn new(tree: T, workers: usize) -> Self
        ensures tree { tree_of result ≡ tree }
        ensures workers { workers_of result ≡ workers }
    {
        ParSeq {
            tree,
            workers,
            of: PhantomData,
        }
    }

    /// Sets the tree up: in a `Par` and in a `Seq` the head, and where that was Done the tail. What was inserted before a
    /// refusal stays.
    pub fn setup<V: ResourceValue>(&mut self, world: &mut World<V>) -> Result<(), Fault<E>>
    where
        T: RunWithPool<V, E>,
        ensures sets_up { OverWorld V.kind_of T.trees.sets_up (tree_of self.old) world.old result (tree_of self.new) world.new }
        ensures lists { KeepsLists T.trees.reads T.trees.writes (tree_of self.old) (tree_of self.new) }
        ensures workers { workers_of self.new ≡ workers_of self.old }
    {
        self.tree.setup(world)
    }

    /// Runs the tree over what it lists of the world. Where there is no memory for the lists, the answer is `OutOfMemory`,
    /// and nothing is done.
    pub fn dispatch<R: Threads + Sync, V: ResourceValue + Drop + Send + Sync>(
        &mut self,
        rt: &R,
        world: &mut World<V>,
    ) -> Result<(), Fault<E>>
    where
        T: RunWithPool<V, E> + Send,
        E: Drop + Send,
        ensures ran { ParSeqRanOver V.kind_of T.trees self.old world.old result self.new world.new }
        ensures workers { workers_of self.new ≡ workers_of self.old }
    {
        let local = world.local();
        match Lists::of_tree::<V, E, T>(local.allocator(), &self.tree) {
            Ok(lists) => run_within(rt, &mut self.tree, &lists, local, self.workers),
            Err(_) => Err(Fault::OutOfMemory),
        }
    }
}

impl<V: ResourceValue + Drop, E: Drop, T: RunWithPool<V, E>> RunNow<V> for ParSeq<T, E> {
    ghost use Rattle.shred_trees.specs.ParSeqs.{ParSeqRan, tree_of, workers_of};

    type Error = E;

    ghost runs = { λ old before outcome new after. ParSeqRan V.kind_of T.trees (tree_of old) before outcome (tree_of new) after × (workers_of new ≡ workers_of old) };

    ghost sets_up = { λ old before outcome new after. T.trees.sets_up (tree_of old) before outcome (tree_of new) after × KeepsLists T.trees.reads T.trees.writes (tree_of old) (tree_of new) × (workers_of new ≡ workers_of old) };

    ghost disposes = { λ old before outcome after. (outcome ≡ Ok tt) × (after ≡ before) };

    fn run_now<R: Threads + Sync>(
        &mut self,
        _rt: &R,
        world: &mut LocalWorld<V>,
    ) -> Result<(), Fault<E>> {
        match Lists::of_tree::<V, E, T>(world.allocator(), &self.tree) {
            Ok(lists) => run_within_in_order(&mut self.tree, &lists, world),
            Err(_) => Err(Fault::OutOfMemory),
        }
    }

    fn setup(&mut self, world: &mut World<V>) -> Result<(), Fault<E>> {
        self.tree.setup(world)
    }

    fn dispose(self, _world: &mut World<V>) -> Result<(), Fault<E>> {
        Ok(())
    }
}
