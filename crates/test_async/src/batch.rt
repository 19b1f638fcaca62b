//! A plan with a batch, by an asynchronous dispatch.
ghost use Rattle.std.specs.Prelude.{[]};
ghost use Rattle.shred_run.specs.declared.system.RunningTime.TheVariants.{VeryLong};

use crate::adds::{Adds, adds_to, count_of, zeros};
use crate::ended::{DONE, ended};
use shred::{
    BatchController, DispatcherBuilder, Fault, Only, OutOfMemory, RunningTime, View, World,
};
use std::alloc::Global;
use std::test::Fail;

/// Runs its plan twice.
#[derive(Drop)]
struct Twice;

impl BatchController<Only<i64>> for Twice {
    type Error = u8;

    type Accessor = ();

    ghost reads = { λ controller. [] };

    ghost writes = { λ controller. [] };

    ghost time = { λ controller. VeryLong };

    ghost begins = { λ _ _ _ _ _. Unit {0} };

    ghost asks = { λ _ _ _ _ _. Unit {0} };

    ghost sets_up = { λ _ _ _ _ _. Unit {0} };

    fn begin(&mut self, _view: &mut View<Only<i64>>) -> Result<usize, Fault<u8>> {
        Ok(2)
    }

    fn again(&mut self, _view: &mut View<Only<i64>>) -> Result<bool, Fault<u8>> {
        Ok(true)
    }

    fn running_time(&self) -> RunningTime {
        RunningTime::VeryLong
    }

    fn accessor(&self, _alloc: Global) -> Result<(), OutOfMemory> {
        Ok(())
    }

    fn setup(&mut self, _world: &mut World<Only<i64>>) -> Result<(), Fault<u8>> {
        Ok(())
    }
}

type Builder = DispatcherBuilder<Only<i64>, Adds, Twice>;

/// A batch of two systems that add 1 to count 0 and 2 to count 1, beside one that adds 5 to count 2.
fn with_a_batch(alloc: Global) -> Result<Builder, Fail> {
    let mut inner: Builder = DispatcherBuilder::new(alloc);
    inner.add(adds_to(0, 1), "", &[])?;
    inner.add(adds_to(1, 2), "", &[])?;
    let mut builder: Builder = DispatcherBuilder::new(alloc);
    builder.add_batch(Twice, inner, "", &[])?;
    builder.add(adds_to(2, 5), "", &[])?;
    Ok(builder)
}

#[test]
fn a_batch_runs_its_plan_twice(rt: HostRuntime) -> Result<(), Fail> {
    let mut dispatcher = with_a_batch(rt.alloc())?.build_async(zeros(rt.alloc(), 3)?);
    assert_eq!(rt; ended(dispatcher.dispatch(&rt)), DONE);
    assert_eq!(rt; ended(dispatcher.wait(&rt)), DONE);
    let counts = match dispatcher.world(&rt) {
        Ok(world) => Some((count_of(world, 0), count_of(world, 1), count_of(world, 2))),
        Err(_) => None,
    };
    assert_eq!(rt; counts, Some((Some(2), Some(4), Some(5))));
    Ok(())
}
