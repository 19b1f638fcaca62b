//! Plans with batches of systems that add to counts, and how calls of their dispatchers end.

use crate::adds::Adds;
use crate::bounds::Bounds;
use shred::{AddError, DispatchError, Dispatcher, DispatcherBuilder, RunNow, SystemId, World};
use shred_orders::dispatch_interleaved;
use std::alloc::Global;
use std::thread::Threads;
use test_calls::ended::{Ended, ended, run_ended};
use test_values::Value;

pub(crate) type AddsBuilder = DispatcherBuilder<Value, Adds, Bounds>;

pub(crate) type AddsDispatcher = Dispatcher<Value, Adds, Bounds>;

/// A builder with these systems, which depend on nothing.
pub(crate) fn plan_of(alloc: Global, systems: &[Adds]) -> Result<AddsBuilder, AddError> {
    let mut builder: AddsBuilder = DispatcherBuilder::new(alloc);
    for system in systems {
        builder.add(*system, "", &[])?;
    }
    Ok(builder)
}

pub(crate) fn add_batch(
    builder: &mut AddsBuilder,
    controller: Bounds,
    inner: AddsBuilder,
    name: &str,
    dependencies: &[&str],
) -> Result<SystemId, AddError> {
    builder.add_batch(controller, inner, name, dependencies)
}

/// A builder with these systems and then one batch of this controller over that plan.
pub(crate) fn around(
    alloc: Global,
    beside: &[Adds],
    controller: Bounds,
    inner: AddsBuilder,
) -> Result<AddsBuilder, AddError> {
    let mut builder = plan_of(alloc, beside)?;
    add_batch(&mut builder, controller, inner, "", &[])?;
    Ok(builder)
}

/// A call of a dispatcher.
#[derive(Clone, Copy, Debug)]
pub(crate) enum Call {
    Setup,
    Seq,
    Par,
    Both,
    Interleaved,
    ThreadLocal,
    RunNow,
    RunAny,
}

fn interleaved(
    rt: &(impl Threads + Sync),
    dispatcher: &mut AddsDispatcher,
    world: &mut World<Value>,
) -> Ended {
    ended(dispatch_interleaved(rt, dispatcher, world))
}

fn run(
    rt: &(impl Threads + Sync),
    dispatcher: &mut AddsDispatcher,
    world: &mut World<Value>,
) -> Ended {
    run_ended(dispatcher.run_now(rt, world.local()))
}

/// A run by the trait's method, which does not know that it runs a dispatcher.
fn run_any<D: RunNow<Value, Error = DispatchError<u8>>>(
    rt: &(impl Threads + Sync),
    dispatcher: &mut D,
    world: &mut World<Value>,
) -> Ended {
    run_ended(dispatcher.run_now(rt, world.local()))
}

/// How the call ends.
pub(crate) fn called(
    rt: &(impl Threads + Sync),
    dispatcher: &mut AddsDispatcher,
    world: &mut World<Value>,
    call: Call,
) -> Ended {
    match call {
        Call::Setup => ended(dispatcher.setup(world)),
        Call::Seq => ended(dispatcher.dispatch_seq(world)),
        Call::Par => ended(dispatcher.dispatch_par(rt, world)),
        Call::Both => ended(dispatcher.dispatch(rt, world)),
        Call::Interleaved => interleaved(rt, dispatcher, world),
        Call::ThreadLocal => ended(dispatcher.dispatch_thread_local(rt, world)),
        Call::RunNow => run(rt, dispatcher, world),
        Call::RunAny => run_any(rt, dispatcher, world),
    }
}
