//! A tree of the tests' own that runs as one, and a system: both count their runs.
ghost use Rattle.std.specs.Prelude.{[]};

use shred::{
    BatchAccessor, Fault, Now, Only, OutOfMemory, Plain, PlainSystem, ResourceId, RunWithPool,
    Shape, View, World,
};
use std::alloc::Global;
use std::sync::atomic::{AtomicU64, Ordering};

/// It adds 1 to the counter.
#[derive(Drop)]
pub(crate) struct Counts<'c>(pub(crate) &'c AtomicU64);

impl<'c> RunWithPool<Only<i64>, u8> for Counts<'c> {
    ghost use Rattle.shred_trees.specs.Pieces.{never_apart};

    ghost trees = { record { runs = λ _ _ _ _ _. Unit {0}; sets_up = λ _ _ _ _ _. Unit {0}; reads = λ _. []; writes = λ _. [] } };

    ghost pieces = { never_apart };

    fn setup(&mut self, _world: &mut World<Only<i64>>) -> Result<(), Fault<u8>> {
        Ok(())
    }

    fn reads(&self, _ids: &mut Vec<ResourceId>) -> Result<(), OutOfMemory> {
        Ok(())
    }

    fn writes(&self, _ids: &mut Vec<ResourceId>) -> Result<(), OutOfMemory> {
        Ok(())
    }

    fn split(self) -> Shape<Self> {
        Shape::Leaf(self)
    }

    fn rejoin(first: Self, _second: Self) -> Self {
        first
    }

    fn run_in_order(
        &mut self,
        _alloc: Global,
        _view: &mut View<Only<i64>>,
    ) -> Result<(), Fault<u8>> {
        self.0.fetch_add(1, Ordering::SeqCst);
        Ok(())
    }
}

/// It adds 1 to the counter.
#[derive(Drop)]
pub(crate) struct Ticks<'c>(&'c AtomicU64);

impl<'c> PlainSystem<Only<i64>> for Ticks<'c> {
    type Error = u8;

    ghost reads = { λ _. [] };

    ghost writes = { λ _. [] };

    ghost step = { λ _ _ _ _ _. Unit {0} };

    fn run(&mut self, _view: &mut View<Only<i64>>) -> Result<(), Fault<u8>> {
        self.0.fetch_add(1, Ordering::SeqCst);
        Ok(())
    }

    fn accessor(&self, alloc: Global) -> Result<BatchAccessor, OutOfMemory> {
        BatchAccessor::of(alloc, &[], &[])
    }
}

/// A system that adds 1 to the counter.
pub(crate) fn tick_of(counter: &AtomicU64) -> Now<Plain<Ticks<'_>>> {
    Now(Plain(Ticks(counter)))
}
