//! Calls of dispatchers, each for every type of system.

use shred::{Dispatcher, Stage, System, ThreadLocal, World, new_dispatcher};
use std::alloc::{AllocError, Global};
use std::fmt::Display;
use std::thread::Threads;
use test_calls::calls::text_of;
use test_values::Value;

/// The dispatcher of these stages, on so many workers.
pub(crate) fn dispatcher_on<S: System<Value> + Drop>(
    alloc: Global,
    stages: Vec<Stage<Value, S>>,
    workers: usize,
) -> Dispatcher<Value, S> {
    new_dispatcher(stages, ThreadLocal::new(alloc), workers)
}

/// `done`, or the error's text.
fn told<E: Display + Drop>(alloc: Global, answer: Result<(), E>) -> Result<String, AllocError> {
    match answer {
        Ok(()) => String::from_str(alloc, "done"),
        Err(error) => text_of(alloc, &error),
    }
}

/// Dispatches, and tells how that ended.
pub(crate) fn dispatched<S: System<Value, Error = E> + Drop + Send, E: Display + Drop + Send>(
    rt: &(impl AllocGlobal + Threads + Sync),
    dispatcher: &mut Dispatcher<Value, S>,
    world: &mut World<Value>,
    on_threads: bool,
) -> Result<String, AllocError>
where
    S::Accessor: Send,
{
    let answer = if on_threads {
        dispatcher.dispatch_par(rt, world)
    } else {
        dispatcher.dispatch_seq(world)
    };
    told(rt.alloc(), answer)
}
