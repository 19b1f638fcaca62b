//! A system that is only planned, made of what it declares.
ghost use Rattle.std.specs.Prelude.{◌≡◌, IfOk};
ghost use Rattle.shred_table.specs.Accessors.{batch_reads, batch_writes};

use shred::{BatchAccessor, Fault, OutOfMemory, ResourceId, RunningTime, System, View, World};
use std::alloc::{AllocError, Global};
use std::process::Abort;
use test_calls::declared::{Case, resources};
use test_values::Value;

/// A system that is only planned.
#[derive(Drop)]
pub(crate) struct OnlyPlanned {
    reads: Vec<ResourceId>,
    writes: Vec<ResourceId>,
    time: RunningTime,
}

impl System<Value> for OnlyPlanned {
    type Error = u8;

    type Accessor = BatchAccessor;

    ghost reads = { λ s. s.reads.items };

    ghost writes = { λ s. s.writes.items };

    ghost time = { λ s. s.time };

    ghost step = { λ _ _ _ _ _. Unit {0} };

    ghost sets_up = { λ _ _ _ _ _. Unit {0} };

    ghost disposes = { λ _ _ _ _. Unit {0} };

    fn run(&mut self, _view: &mut View<Value>) -> Result<(), Fault<u8>> {
        Ok(())
    }

    fn setup(&mut self, _world: &mut World<Value>) -> Result<(), Fault<u8>> {
        Ok(())
    }

    fn dispose(self, _world: &mut World<Value>) -> Result<(), Fault<u8>> {
        Ok(())
    }

    fn running_time(&self) -> RunningTime {
        self.time
    }

    fn accessor(&self, alloc: Global) -> Result<BatchAccessor, OutOfMemory> {
        BatchAccessor::of(alloc, self.reads.as_slice(), self.writes.as_slice())
    }
}

/// These are the ids of these kinds, in order.
pub(crate) fn expect_ids(
    rt: &impl Abort,
    alloc: Global,
    ids: &[ResourceId],
    kinds: &[u32],
) -> Result<(), AllocError> {
    let wanted = resources(alloc, kinds)?;
    assert_eq!(rt; ids, wanted.as_slice());
    Ok(())
}

/// The system of a case.
pub(crate) fn system_of(alloc: Global, case: Case) -> Result<OnlyPlanned, AllocError> {
    Ok(OnlyPlanned {
        reads: resources(alloc, case.reads)?,
        writes: resources(alloc, case.writes)?,
        time: case.time,
    })
}
