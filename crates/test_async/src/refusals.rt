//! Runs that cannot be started: the call that was to begin one and all that follow answer `Lost`. The last test passes
//! whichever request for memory is refused, and where no thread can be started.

use crate::adds::{Adds, Dispatcher, adds_to, refuses, with_local};
use crate::ended::{DONE, Ended, LOST, NO_MEMORY, ended};
use crate::rows::expect_counts;
use shred::{AsyncError, DispatcherBuilder, Now, Only, World, only_id};
use std::alloc::{AllocError, Global};
use std::process::Abort;
use std::test::Fail;
use std::thread::Threads;

/// A runtime that no thread can be started with, since it is refused a copy of itself.
#[derive(Drop)]
struct WithoutCopies<R> {
    rt: R,
}

impl<R: Threads> Threads for WithoutCopies<R> {}

impl<R: Drop> Clone for WithoutCopies<R> {
    fn clone(&self) -> Result<Self, AllocError> {
        Err(AllocError)
    }
}

/// All calls answer `Lost`.
fn expect_lost(
    rt: &(impl Abort + Threads + Sync + Clone + Send + 'static),
    dispatcher: &mut Dispatcher,
) {
    assert_eq!(rt; ended(dispatcher.wait(rt)), LOST);
    assert!(rt; matches!(dispatcher.world(rt), Err(AsyncError::Lost)));
    assert!(rt; matches!(dispatcher.res(rt), Err(AsyncError::Lost)));
    assert!(rt; matches!(dispatcher.world_mut(rt), Err(AsyncError::Lost)));
    assert!(rt; matches!(dispatcher.mut_res(rt), Err(AsyncError::Lost)));
    assert_eq!(rt; ended(dispatcher.dispatch(rt)), LOST);
    assert_eq!(rt; ended(dispatcher.wait_without_tl(rt)), LOST);
    assert_eq!(rt; ended(dispatcher.setup(rt)), LOST);
    assert!(rt; matches!(dispatcher.running(), Err(AsyncError::Lost)));
}

#[test]
fn what_could_not_be_started_is_lost_from_then_on(rt: HostRuntime) -> Result<(), Fail> {
    let mut dispatcher = with_local(rt.alloc(), refuses(0))?;
    let without = WithoutCopies { rt: rt.clone()? };
    assert_eq!(rt; ended(dispatcher.dispatch(&without)), LOST);
    expect_lost(&rt, &mut dispatcher);
    Ok(())
}

/// The dispatcher of this system over two counts of 0, with a thread-local system that adds 1 to count 1, where there is memory
/// for it.
fn made(alloc: Global, staged: Adds) -> Option<Dispatcher> {
    let mut world = World::empty(alloc);
    for number in 0..2 {
        if world.insert_by_id(only_id(number), 0).is_err() {
            return None;
        }
    }
    let mut builder: DispatcherBuilder<Only<i64>, Adds> = DispatcherBuilder::new(alloc);
    if builder.add(staged, "", &[]).is_err() {
        return None;
    }
    if builder.add_thread_local(Now(adds_to(1, 1))).is_err() {
        return None;
    }
    Some(builder.build_async(world))
}

/// A wait runs the thread-local system, or that system finds no memory and changes nothing.
fn expect_local(rt: &(impl Abort + Threads + Sync), dispatcher: &mut Dispatcher) {
    let waited = ended(dispatcher.wait(rt));
    assert!(rt; waited == DONE || waited == ("thread-local", 0, NO_MEMORY));
    expect_counts(rt, dispatcher, 1, i64::from(waited == DONE));
}

/// The dispatcher of this system begins its run, whose refusal the first wait tells, or loses all.
fn expect_begun_or_lost(
    rt: &(impl Abort + AllocGlobal + Threads + Sync + Clone + Send + 'static),
    staged: Adds,
    refusal: Option<Ended>,
) {
    let Some(mut dispatcher) = made(rt.alloc(), staged) else {
        return;
    };
    let dispatched = ended(dispatcher.dispatch(rt));
    if dispatched == LOST {
        expect_lost(rt, &mut dispatcher);
        return;
    }
    assert_eq!(rt; dispatched, DONE);
    expect_counts(rt, &mut dispatcher, 1, 0);
    if let Some(refusal) = refusal {
        assert_eq!(rt; ended(dispatcher.wait(rt)), refusal);
        expect_counts(rt, &mut dispatcher, 1, 0);
    }
    expect_local(rt, &mut dispatcher);
}

#[test]
fn a_run_is_begun_or_all_is_lost(rt: HostRuntime) {
    expect_begun_or_lost(&rt, refuses(0), None);
    expect_begun_or_lost(&rt, refuses(1), Some(("system", 0, 3)));
}
