//! Which refusal is told, and dispatchers that are dropped after it. The last three tests pass whichever request for memory or
//! thread is refused.

use crate::adds::{ADDS, Does};
use crate::keeping::{
    Builder, behind_a_system, beside_a_system, expect_counts, first_refusal, in_batches, kept_on,
    refusal, stage_of, zeros,
};
use shred::AddError;
use std::alloc::Global;
use std::process::Abort;
use std::sync::Wait;
use std::sync::atomic::Ordering;
use std::test::Fail;
use std::thread::Threads;
use test_meeting::VAIN;
use test_workers::few_copies::FewCopies;

/// Refuses with this code, where it is not 0.
const fn with_code(code: u8) -> Does {
    Does { code, ..ADDS }
}

/// One stage of these systems tells so in each of ten dispatches, and all of them have added.
fn expect_told<R: Abort + AllocGlobal + Threads + Wait + Clone + Drop + Send + 'static>(
    rt: &R,
    systems: &[Does],
    told: Option<(usize, u8)>,
) -> Result<(), Fail> {
    for threads in [0, 1, 2, 3, 8, 64] {
        let mut kept = kept_on(rt, rt.alloc(), stage_of(rt.alloc(), systems)?, threads, 0)?;
        let mut world = zeros(rt.alloc(), systems.len())?;
        for _ in 0..10 {
            assert_eq!(rt; refusal(&mut kept, &mut world), told);
        }
        expect_counts(rt, &world, systems.len(), 10);
    }
    Ok(())
}

#[test]
fn the_first_refusal_is_told(rt: HostRuntime) -> Result<(), Fail> {
    let (done, three, four) = (with_code(0), with_code(3), with_code(4));
    expect_told(&rt, &[done; 4], None)?;
    expect_told(&rt, &[done, done, done, three], Some((3, 3)))?;
    expect_told(&rt, &[done, four, done, three], Some((1, 4)))?;
    expect_told(&rt, &[four, three, three, three], Some((0, 4)))?;
    expect_told(
        &rt,
        &[done, done, three, done, done, done, four, four, done, four],
        Some((2, 3)),
    )
}

/// Four systems in a batch, of which the last refuses, tell so by the id of the batch, and all have added, as has the system beside it.
fn expect_told_beside<R: Abort + AllocGlobal + Threads + Wait + Clone + Drop + Send + 'static>(
    rt: &R,
    batch_first: bool,
    told: Option<(usize, u8)>,
) -> Result<(), Fail> {
    for threads in [1, 2, 3, 8] {
        let inner = stage_of(rt.alloc(), &[ADDS, ADDS, ADDS, with_code(7)])?;
        let builder = beside_a_system(rt.alloc(), inner, 4, batch_first)?;
        let mut kept = kept_on(rt, rt.alloc(), builder, threads, 0)?;
        let mut world = zeros(rt.alloc(), 5)?;
        for _ in 0..10 {
            assert_eq!(rt; refusal(&mut kept, &mut world), told);
        }
        expect_counts(rt, &world, 5, 10);
    }
    Ok(())
}

#[test]
fn a_refusal_inside_of_a_batch_is_told_by_the_batch(rt: HostRuntime) -> Result<(), Fail> {
    expect_told_beside(&rt, true, Some((0, 7)))?;
    expect_told_beside(&rt, false, Some((1, 7)))
}

/// Three workers and their pool have a copy of the runtime each, until the dispatcher is dropped after so many dispatches of four
/// systems in so many batches, which tell so.
fn expect_ended<R: Abort + AllocGlobal + Threads + Wait + Clone + Drop + Send + 'static>(
    rt: &R,
    last: Does,
    levels: u32,
    times: u32,
    told: Option<(usize, u8)>,
) -> Result<(), Fail> {
    let (few, left) = FewCopies::of(rt.clone()?, rt.alloc(), 4)?;
    let inner = stage_of(rt.alloc(), &[ADDS, ADDS, ADDS, last])?;
    let builder = in_batches(rt.alloc(), inner, levels)?;
    let mut kept = kept_on(&few, rt.alloc(), builder, 4, 0)?;
    assert_eq!(rt; left.load(Ordering::SeqCst), 0);
    let mut world = zeros(rt.alloc(), 4)?;
    assert_eq!(rt; first_refusal(&mut kept, &mut world, times), told);
    drop(kept);
    assert_eq!(rt; left.load(Ordering::SeqCst), 4);
    Ok(())
}

#[test]
fn a_dispatcher_that_is_dropped_has_ended_its_workers(rt: HostRuntime) -> Result<(), Fail> {
    expect_ended(&rt, ADDS, 0, 0, None)?;
    expect_ended(&rt, ADDS, 0, 10, None)?;
    expect_ended(&rt, with_code(7), 0, 1, Some((3, 7)))?;
    expect_ended(&rt, with_code(7), 1, 1, Some((0, 7)))?;
    expect_ended(&rt, with_code(7), 3, 1, Some((0, 7)))
}

/// Two that wait for each other, but not long before they have met.
const IMPATIENT: Does = Does {
    members: 2,
    turns: VAIN,
    code: 0,
};

/// Two that wait for each other in the plan have met ten times more after they met, and so many systems have added each time. A
/// dispatch that took memory then would fail. That they meet at all the gates see.
fn expect_no_memory<R: Abort + AllocGlobal + Threads + Wait + Clone + Drop + Send + 'static>(
    rt: &R,
    builder: Builder,
    threads: usize,
    systems: usize,
) {
    let Ok(mut kept) = kept_on(rt, rt.alloc(), builder, threads, 0) else {
        return;
    };
    let Ok(mut world) = zeros(rt.alloc(), systems) else {
        return;
    };
    if refusal(&mut kept, &mut world).is_some() {
        return;
    }
    assert_eq!(rt; first_refusal(&mut kept, &mut world, 10), None);
    expect_counts(rt, &world, systems, 11);
}

#[test]
fn once_a_stage_has_run_a_dispatch_takes_no_memory(rt: HostRuntime) {
    let Ok(builder) = stage_of(rt.alloc(), &[IMPATIENT; 2]) else {
        return;
    };
    expect_no_memory(&rt, builder, 2, 2);
}

/// Two that wait for each other in a batch, with a system beside it.
fn impatient_beside(alloc: Global, batch_first: bool) -> Result<Builder, AddError> {
    let inner = stage_of(alloc, &[IMPATIENT; 2])?;
    beside_a_system(alloc, inner, 2, batch_first)
}

#[test]
fn once_a_stage_has_run_that_a_batch_hands_out_it_takes_none(rt: HostRuntime) {
    for batch_first in [true, false] {
        let Ok(builder) = impatient_beside(rt.alloc(), batch_first) else {
            return;
        };
        expect_no_memory(&rt, builder, 3, 3);
    }
}

/// The same two in a batch at the end of a system's group, which stays on the caller's thread.
fn impatient_behind(alloc: Global) -> Result<Builder, AddError> {
    behind_a_system(alloc, stage_of(alloc, &[IMPATIENT; 2])?, true)
}

#[test]
fn once_a_batch_behind_a_system_has_handed_out_it_takes_none(rt: HostRuntime) {
    let Ok(builder) = impatient_behind(rt.alloc()) else {
        return;
    };
    expect_no_memory(&rt, builder, 4, 6);
}
