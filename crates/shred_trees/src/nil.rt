//! The tree that does nothing.
ghost use Rattle.std.specs.Prelude.{[]};
ghost use Rattle.shred_run.specs.declared.system.RunningTime.TheVariants.{Average};

use crate::tree::{RunWithPool, Shape};
use shred_run::{Fault, RunningTime, System};
use shred_world::{OutOfMemory, ResourceId, ResourceValue, View, World};
use std::alloc::Global;

/// Does nothing, as a system and as a tree.
#[derive(Clone, Copy, Debug, PartialEq, Eq)]
pub struct Nil;

impl<V: ResourceValue> System<V> for Nil {
    ghost use Rattle.shred_trees.specs.Leaves.{NilRuns};

    type Error = ();

    type Accessor = ();

    ghost reads = { λ nil. [] };

    ghost writes = { λ nil. [] };

    ghost time = { λ nil. Average };

    ghost step = { NilRuns };

    ghost sets_up = { NilRuns };

    ghost disposes = { λ nil before outcome after. NilRuns nil before outcome nil after };

    fn run(&mut self, _view: &mut View<V>) -> Result<(), Fault<()>> {
        Ok(())
    }

    fn running_time(&self) -> RunningTime {
        RunningTime::Average
    }

    fn accessor(&self, _alloc: Global) -> Result<(), OutOfMemory> {
        Ok(())
    }

    fn setup(&mut self, _world: &mut World<V>) -> Result<(), Fault<()>> {
        Ok(())
    }

    fn dispose(self, _world: &mut World<V>) -> Result<(), Fault<()>> {
        Ok(())
    }
}

impl<V: ResourceValue, E> RunWithPool<V, E> for Nil {
    ghost use Rattle.shred_trees.specs.Leaves.{NilRuns};
    ghost use Rattle.shred_trees.specs.Pieces.{never_apart};

    ghost trees = { record { runs = NilRuns; sets_up = NilRuns; reads = λ nil. []; writes = λ nil. [] } };

    ghost pieces = { never_apart };

    fn setup(&mut self, _world: &mut World<V>) -> Result<(), Fault<E>> {
        Ok(())
    }

    fn reads(&self, _ids: &mut Vec<ResourceId>) -> Result<(), OutOfMemory> {
        Ok(())
    }

    fn writes(&self, _ids: &mut Vec<ResourceId>) -> Result<(), OutOfMemory> {
        Ok(())
    }

    fn split(self) -> Shape<Self> {
        Shape::Leaf(self)
    }

    fn rejoin(first: Self, _second: Self) -> Self {
        first
    }

    fn run_in_order(&mut self, _alloc: Global, _view: &mut View<V>) -> Result<(), Fault<E>> {
        Ok(())
    }
}
