//! Pools whose threads or memory are refused. The test passes whichever request for memory is refused.

use crate::dropped::Counted;
use crate::rows::numbers;
use shred_workers::{Pool, Workers};
use std::alloc::{AllocError, Global};
use std::sync::atomic::Ordering;
use std::sync::{Arc, Wait};
use std::thread::Threads;

/// The numbers 0 to 4, tripled ten times by a pool of three workers; none where memory for them or for the pool is refused.
fn tripled_by<R: Threads + Wait + Clone + Drop + Send + 'static>(
    rt: &R,
    alloc: Global,
    runner: &mut Counted,
) -> Result<Vec<u64>, AllocError> {
    let workers = Arc::new(alloc, Workers::new(alloc, 3, 0)?)?;
    let pool = Pool::start(rt, alloc, workers, &*runner)?;
    let mut lanes = numbers(alloc, 5)?;
    for _ in 0..10 {
        pool.workers().run(rt, runner, &mut lanes);
    }
    let mut values = Vec::new(alloc);
    for number in &lanes {
        values.push(number.value)?;
    }
    Ok(values)
}

/// Of the numbers 0 to 4, what ten runs make: 59,049 times the number, and 29,524 more.
const AFTER_TEN: [u64; 5] = [29_524, 88_573, 147_622, 206_671, 265_720];

#[test]
fn a_pool_works_or_memory_is_wanting(rt: HostRuntime) {
    let Ok((mut runner, alive)) = Counted::first(rt.alloc()) else {
        return;
    };
    for _ in 0..3 {
        if let Ok(values) = tripled_by(&rt, rt.alloc(), &mut runner) {
            assert_eq!(rt; values.as_slice(), AFTER_TEN.as_slice());
        }
        assert_eq!(rt; alive.load(Ordering::SeqCst), 1);
    }
}
