//! Many dispatches, by one dispatcher and by several, and the systems that a dispatcher lends.

use crate::adds::ADDS;
use crate::frames::play;
use crate::keeping::{expect_counts, first_refusal, kept_on, refusal, stage_of, zeros};
use shred::{DEFAULT_LOOKS, SystemId};
use std::process::Abort;
use std::sync::Wait;
use std::test::Fail;
use std::thread::Threads;

/// So many systems, dispatched so often on so many threads, have added as often.
fn expect_added<R: Abort + AllocGlobal + Threads + Wait + Clone + Drop + Send + 'static>(
    rt: &R,
    systems: usize,
    threads: usize,
    looks: u32,
    times: u32,
) -> Result<(), Fail> {
    let builder = stage_of(rt.alloc(), &[ADDS; 70][..systems.min(70)])?;
    let mut kept = kept_on(rt, rt.alloc(), builder, threads, looks)?;
    let mut world = zeros(rt.alloc(), systems)?;
    assert_eq!(rt; first_refusal(&mut kept, &mut world, times), None);
    expect_counts(rt, &world, systems, i64::from(times));
    Ok(())
}

#[test]
fn systems_add_on_any_number_of_threads(rt: HostRuntime) -> Result<(), Fail> {
    for threads in [0, 1, 2, 3, 8, 64] {
        expect_added(&rt, 1, threads, 0, 10)?;
        expect_added(&rt, 5, threads, 0, 10)?;
        expect_added(&rt, 70, threads, DEFAULT_LOOKS, 10)?;
    }
    Ok(())
}

#[test]
fn a_hundred_thousand_dispatches(rt: HostRuntime) -> Result<(), Fail> {
    expect_added(&rt, 4, 4, DEFAULT_LOOKS, 100_000)
}

#[test]
fn ten_dispatchers_keep_workers_at_once(rt: HostRuntime) -> Result<(), Fail> {
    let mut dispatchers = Vec::new(rt.alloc());
    for _ in 0..10 {
        let builder = stage_of(rt.alloc(), &[ADDS; 4])?;
        dispatchers.push(kept_on(&rt, rt.alloc(), builder, 4, 100)?)?;
    }
    let mut world = zeros(rt.alloc(), 4)?;
    for _ in 0..100 {
        for kept in &mut dispatchers {
            assert_eq!(rt; refusal(kept, &mut world), None);
        }
    }
    expect_counts(&rt, &world, 4, 1_000);
    Ok(())
}

#[test]
fn a_thousand_frames_are_played(rt: HostRuntime) -> Result<(), Fail> {
    let mut world = zeros(rt.alloc(), 4)?;
    assert!(rt; play(&rt, &mut world, 1_000).is_ok());
    expect_counts(&rt, &world, 4, 1_000);
    Ok(())
}

#[test]
fn a_system_is_lent_by_its_id(rt: HostRuntime) -> Result<(), Fail> {
    let builder = stage_of(rt.alloc(), &[ADDS; 3])?;
    let kept = kept_on(&rt, rt.alloc(), builder, 2, 0)?;
    let mut lent = None;
    if let Some(system) = kept.system(SystemId(1)) {
        lent = Some(system.0.number);
    }
    assert_eq!(rt; lent, Some(1));
    assert!(rt; kept.system(SystemId(3)).is_none());
    Ok(())
}
