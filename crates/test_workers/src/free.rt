//! How many workers are free, and pools whose workers have a runner each.

use crate::rows::triplers;
use crate::tripled::{Number, Triples};
use shred_workers::{Pool, Workers};
use std::alloc::{AllocError, Global};
use std::sync::{Arc, Wait};
use std::test::Fail;
use std::thread::Threads;

/// How many are free while the worker of a place is taken, where it can be.
fn free_without<R: Wait>(rt: &R, workers: &Workers<Number>, place: usize) -> Option<usize> {
    let caller = workers.take(place)?;
    let free = workers.free(8);
    workers.give_back(rt, place, caller);
    Some(free)
}

#[test]
fn a_worker_is_free_where_nobody_has_taken_it(rt: HostRuntime) -> Result<(), Fail> {
    let pool = triplers(&rt, rt.alloc(), 3, 0)?;
    let workers = pool.workers();
    assert_eq!(rt; workers.free(8), 3);
    assert_eq!(rt; workers.free(2), 2);
    for place in 0..3 {
        assert_eq!(rt; free_without(&rt, workers, place), Some(2));
    }
    assert_eq!(rt; free_without(&rt, workers, 3), None);
    assert_eq!(rt; workers.free(8), 3);
    Ok(())
}

#[test]
fn none_is_free_where_none_was_started(rt: HostRuntime) -> Result<(), Fail> {
    let workers: Workers<Number> = Workers::new(rt.alloc(), 3, 0)?;
    assert_eq!(rt; workers.free(8), 0);
    Ok(())
}

/// A pool of so many places, for so many runners.
fn pool_of<R: Threads + Wait + Clone + Drop + Send + 'static>(
    rt: &R,
    alloc: Global,
    places: usize,
    count: usize,
) -> Result<Pool<Number, R>, AllocError> {
    let workers = Arc::new(alloc, Workers::new(alloc, places, 0)?)?;
    let mut runners = Vec::new(alloc);
    for _ in 0..count {
        runners.push(Triples)?;
    }
    Pool::start_each(rt, alloc, workers, runners)
}

#[test]
fn a_worker_is_started_for_each_runner_that_has_a_place(rt: HostRuntime) -> Result<(), Fail> {
    for (places, runners, started) in [(3, 0, 0), (3, 1, 1), (3, 3, 3), (3, 5, 3), (0, 2, 0)] {
        let pool = pool_of(&rt, rt.alloc(), places, runners)?;
        assert_eq!(rt; pool.len(), started);
        assert_eq!(rt; pool.workers().free(8), started);
    }
    Ok(())
}
