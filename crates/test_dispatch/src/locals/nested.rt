//! A dispatcher that is a thread-local system of another one.
ghost use Rattle.std.specs.Prelude.{[]};

use crate::locals::script::{IDLE, Script, expect_counts, world_of};
use shred::{
    BatchAccessor, DispatchError, Dispatcher, DispatcherBuilder, Fault, NoBatch, Now, OutOfMemory,
    Plain, PlainSystem, SystemId, View, World,
};
use std::alloc::Global;
use std::test::Fail;
use std::thread::Threads;
use test_values::Value;

/// A system that touches nothing, with the error of a dispatcher.
#[derive(Drop)]
struct Quiet;

impl PlainSystem<Value> for Quiet {
    type Error = DispatchError<u8>;

    ghost reads = { λ system. [] };

    ghost writes = { λ system. [] };

    ghost step = { λ _ _ _ _ _. Unit {0} };

    fn run(&mut self, _view: &mut View<Value>) -> Result<(), Fault<DispatchError<u8>>> {
        Ok(())
    }

    fn accessor(&self, alloc: Global) -> Result<BatchAccessor, OutOfMemory> {
        BatchAccessor::of(alloc, &[], &[])
    }
}

type Outer = Dispatcher<Value, Plain<Quiet>, NoBatch<DispatchError<u8>>, Dispatcher<Value, Script>>;

/// A dispatcher whose one thread-local system is a dispatcher of these two, the second of which is thread-local.
fn outer_of(alloc: Global, staged: Script, local: Script) -> Result<Outer, Fail> {
    let inner: DispatcherBuilder<Value, Script> = DispatcherBuilder::new(alloc);
    let inner = inner
        .with(staged, "", &[])?
        .with_thread_local(Now(local))?
        .build();
    let outer: DispatcherBuilder<
        Value,
        Plain<Quiet>,
        NoBatch<DispatchError<u8>>,
        Dispatcher<Value, Script>,
    > = DispatcherBuilder::new(alloc);
    Ok(
        outer
            .with(Plain(Quiet), "", &[])?
            .with_thread_local(inner)?
            .build(),
    )
}

fn dispatched(
    rt: &(impl Threads + Sync),
    outer: &mut Outer,
    world: &mut World<Value>,
) -> Result<(), DispatchError<DispatchError<u8>>> {
    outer.dispatch(rt, world)
}

#[test]
fn a_dispatcher_is_a_local_system_of_another(rt: HostRuntime) -> Result<(), Fail> {
    let mut world = world_of(rt.alloc(), &[Some(1)])?;
    let adds = Script { amount: 3, ..IDLE };
    let multiplies = Script { factor: 5, ..IDLE };
    let mut outer = outer_of(rt.alloc(), adds, multiplies)?;
    assert!(rt; dispatched(&rt, &mut outer, &mut world).is_ok());
    expect_counts(&rt, &world, &[Some(20)]);
    Ok(())
}

#[test]
fn its_refusal_is_told_as_that_of_a_local_system(rt: HostRuntime) -> Result<(), Fail> {
    let mut world = world_of(rt.alloc(), &[Some(1)])?;
    let refuses = Script {
        amount: 3,
        run_code: 7,
        ..IDLE
    };
    let multiplies = Script { factor: 5, ..IDLE };
    let mut outer = outer_of(rt.alloc(), refuses, multiplies)?;
    let told = dispatched(&rt, &mut outer, &mut world);
    assert!(rt;
        matches!(
            told,
            Err(DispatchError::ThreadLocal {
                index: 0,
                fault: Fault::Refused(DispatchError::System {
                    id: SystemId(0),
                    fault: Fault::Refused(7),
                }),
            })
        )
    );
    expect_counts(&rt, &world, &[Some(4)]);
    Ok(())
}
