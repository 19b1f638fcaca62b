//! What may stand in a tree.
ghost use Rattle.std.specs.Prelude.{◌≡◌, ◌++◌, OnErr, OnOk};
ghost use Rattle.shred_world.specs.Between.{OverWorld};

use crate::walk::run_tree;
use shred_run::Fault;
use shred_world::{OutOfMemory, ResourceId, ResourceValue, View, World};
use std::alloc::Global;
use std::thread::Threads;

/// What a tree comes apart into.
pub enum Shape<T> {
    /// It runs as one.
    Leaf(T),
    /// The first runs, and where it was Done the second.
    InTurn(T, T),
    /// The two run beside each other.
    Beside(T, T),
}

/// What may stand in a tree: what runs over a view of the ids that it lists. A tree that runs as one gives itself, whole, as
/// its one piece; a tree that is to run on threads gives two pieces of its own type, which are put together again when they
/// have run.
pub trait RunWithPool<V: ResourceValue, E>: Sized + Drop {
    ghost use Rattle.shred_trees.specs.Pieces.{ComesApart, Pieces};
    ghost use Rattle.shred_trees.specs.TreeViews.{Covers, RanOver};
    ghost use Rattle.shred_trees.specs.Trees.{Trees};

    ghost trees: { Trees V Self E };

    ghost pieces: { Pieces Self };

    /// What is done once, before the first run.
    fn setup(&mut self, world: &mut World<V>) -> Result<(), Fault<E>>
        ensures sets_up { OverWorld V.kind_of trees.sets_up self.old world.old result self.new world.new }
        ensures reads { trees.reads self.new ≡ trees.reads self.old }
        ensures writes { trees.writes self.new ≡ trees.writes self.old };

    /// Appends the ids that are read. If memory is refused, the list is as before.
    fn reads(&self, ids: &mut Vec<ResourceId>) -> Result<(), OutOfMemory>
        ensures ok { OnOk result (ids.new.items ≡ ids.old.items ++ trees.reads self.now) }
        ensures err { OnErr result (ids.new.items ≡ ids.old.items) };

    /// Appends the ids that are written. If memory is refused, the list is as before.
    fn writes(&self, ids: &mut Vec<ResourceId>) -> Result<(), OutOfMemory>
        ensures ok { OnOk result (ids.new.items ≡ ids.old.items ++ trees.writes self.now) }
        ensures err { OnErr result (ids.new.items ≡ ids.old.items) };

    /// Takes the tree apart.
    fn split(self) -> Shape<Self>
        ensures { ComesApart V.kind_of trees pieces self result };

    /// Puts two pieces together again.
    fn rejoin(first: Self, second: Self) -> Self
        requires { pieces.fits first second }
        ensures { pieces.joins first second result };

    /// Runs the whole tree on the caller's thread.
    fn run_in_order(&mut self, alloc: Global, view: &mut View<V>) -> Result<(), Fault<E>>
        requires { Covers view.old (trees.reads self.old) (trees.writes self.old) }
        ensures { RanOver V.kind_of trees self.old view.old result self.new view.new };

    /// Runs the tree: with 0 or 1 workers on the caller's thread, and with more the halves of each `Par` in it on two
    /// threads, one of which is that of its caller. A half whose thread cannot be started runs there too.
    final fn run<R: Threads + Sync>(
        &mut self,
        rt: &R,
        alloc: Global,
        view: &mut View<V>,
        workers: usize,
    ) -> Result<(), Fault<E>>
    where
        Self: Send,
        V: Drop + Send + Sync,
        E: Drop + Send,
        requires { Covers view.old (trees.reads self.old) (trees.writes self.old) }
        ensures { RanOver V.kind_of trees self.old view.old result self.new view.new }
    {
        if workers <= 1 {
            return self.run_in_order(alloc, view);
        }
        run_tree(rt, alloc, self, view)
    }
}
