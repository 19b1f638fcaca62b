//! A thread-local system that takes a bundle on the whole world.

use crate::locals::script::{Script, expect_counts, world_of};
use shred::{DispatcherBuilder, Fault, LocalWorld, NoBatch, RunNow, World, Write};
use std::test::Fail;
use std::thread::Threads;
use test_calls::ended::{DONE, run_ended};
use test_values::{Count, Value};

/// Adds 1 to the count, in a bundle.
#[derive(Drop)]
struct TakesBundle;

impl RunNow<Value> for TakesBundle {
    type Error = u8;

    ghost runs = { λ _ _ _ _ _. Unit {0} };

    ghost sets_up = { λ _ _ _ _ _. Unit {0} };

    ghost disposes = { λ _ _ _ _. Unit {0} };

    fn run_now<R: Threads + Sync>(
        &mut self,
        _rt: &R,
        world: &mut LocalWorld<Value>,
    ) -> Result<(), Fault<u8>> {
        match world.system_data::<Write<Count>>() {
            Ok(mut lent) => {
                let next = lent.0.wrapping_add(1);
                **lent = Count(next);
                lent.give_back();
                Ok(())
            }
            Err(_) => Err(Fault::Refused(1)),
        }
    }

    fn setup(&mut self, _world: &mut World<Value>) -> Result<(), Fault<u8>> {
        Ok(())
    }

    fn dispose(self, _world: &mut World<Value>) -> Result<(), Fault<u8>> {
        Ok(())
    }
}

#[test]
fn a_local_system_writes_in_a_bundle(rt: HostRuntime) -> Result<(), Fail> {
    let mut world = world_of(rt.alloc(), &[Some(1)])?;
    let builder: DispatcherBuilder<Value, Script, NoBatch<u8>, TakesBundle> =
        DispatcherBuilder::new(rt.alloc());
    let mut dispatcher = builder.with_thread_local(TakesBundle)?.build();
    let end = run_ended(dispatcher.run_now(&rt, world.local()));
    assert_eq!(rt; end, DONE);
    expect_counts(&rt, &world, &[Some(2)]);
    Ok(())
}
