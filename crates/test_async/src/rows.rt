//! What the calls answer and leave, one after the other.

use crate::adds::{Dispatcher, count_of, refuses, with_local};
use crate::ended::{DONE, ended};
use crate::meanwhile::count_and_look;
use shred::{Only, World};
use std::process::Abort;
use std::test::Fail;
use std::thread::Threads;

/// The counts 0 and 1 of a world that is shown; none where it is not.
fn shown<E>(world: Result<&World<Only<i64>>, E>) -> Option<(Option<i64>, Option<i64>)>
where
    E: Drop,
{
    match world {
        Ok(world) => Some((count_of(world, 0), count_of(world, 1))),
        Err(_) => None,
    }
}

/// The world of the dispatcher has these counts 0 and 1.
pub(crate) fn expect_counts(
    rt: &(impl Abort + Threads),
    dispatcher: &mut Dispatcher,
    staged: i64,
    local: i64,
) {
    assert_eq!(rt;
        shown(dispatcher.world(rt)),
        Some((Some(staged), Some(local)))
    );
}

#[test]
fn a_wait_tells_a_refusal_once_and_runs_no_thread_local_system_then(
    rt: HostRuntime,
) -> Result<(), Fail> {
    let mut dispatcher = with_local(rt.alloc(), refuses(1_000))?;
    assert_eq!(rt; ended(dispatcher.dispatch(&rt)), DONE);
    expect_counts(&rt, &mut dispatcher, 1, 0);
    assert_eq!(rt; ended(dispatcher.wait(&rt)), ("system", 0, 3));
    expect_counts(&rt, &mut dispatcher, 1, 0);
    assert_eq!(rt; ended(dispatcher.wait(&rt)), DONE);
    expect_counts(&rt, &mut dispatcher, 1, 1);
    Ok(())
}

#[test]
fn a_dispatch_that_tells_a_refusal_starts_nothing(rt: HostRuntime) -> Result<(), Fail> {
    let mut dispatcher = with_local(rt.alloc(), refuses(1))?;
    assert_eq!(rt; ended(dispatcher.dispatch(&rt)), DONE);
    assert_eq!(rt; ended(dispatcher.dispatch(&rt)), ("system", 0, 3));
    assert_eq!(rt; dispatcher.running().ok(), Some(false));
    expect_counts(&rt, &mut dispatcher, 1, 0);
    assert_eq!(rt; ended(dispatcher.dispatch(&rt)), DONE);
    assert_eq!(rt; ended(dispatcher.wait_without_tl(&rt)), DONE);
    expect_counts(&rt, &mut dispatcher, 2, 0);
    assert_eq!(rt; ended(dispatcher.wait(&rt)), DONE);
    expect_counts(&rt, &mut dispatcher, 2, 1);
    assert_eq!(rt; dispatcher.running().ok(), Some(false));
    Ok(())
}

#[test]
fn a_wait_without_thread_local_systems_tells_a_refusal_once(rt: HostRuntime) -> Result<(), Fail> {
    let mut dispatcher = with_local(rt.alloc(), refuses(1))?;
    assert_eq!(rt; ended(dispatcher.dispatch(&rt)), DONE);
    assert_eq!(rt; ended(dispatcher.wait_without_tl(&rt)), ("system", 0, 3));
    assert_eq!(rt; ended(dispatcher.wait_without_tl(&rt)), DONE);
    expect_counts(&rt, &mut dispatcher, 1, 0);
    Ok(())
}

#[test]
fn a_wait_before_any_dispatch_runs_the_thread_local_systems(rt: HostRuntime) -> Result<(), Fail> {
    let mut dispatcher = with_local(rt.alloc(), refuses(0))?;
    assert_eq!(rt; ended(dispatcher.wait(&rt)), DONE);
    expect_counts(&rt, &mut dispatcher, 0, 1);
    Ok(())
}

#[test]
fn two_dispatches_run_one_after_the_other(rt: HostRuntime) -> Result<(), Fail> {
    let mut dispatcher = with_local(rt.alloc(), refuses(0))?;
    for _ in 0..3 {
        assert_eq!(rt; ended(dispatcher.dispatch(&rt)), DONE);
    }
    assert_eq!(rt; shown(dispatcher.res(&rt)), Some((Some(3), Some(0))));
    Ok(())
}

#[test]
fn a_caller_looks_while_the_plan_runs(rt: HostRuntime) {
    for (number, is_found) in [(5, true), (6, false)] {
        let both = count_and_look(&rt, rt.alloc(), &[3, 5, 8], number);
        assert_eq!(rt; both, Some((7, is_found)));
    }
}
