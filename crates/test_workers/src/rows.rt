//! Pools of so many workers, and what their lanes come to.

use crate::tree::{Counts, Tree, leaves};
use crate::tripled::{Number, Triples, triple_all};
use shred_workers::{DEFAULT_LOOKS, Pool, Workers};
use std::alloc::{AllocError, Global};
use std::process::Abort;
use std::sync::{Arc, Wait};
use std::test::Fail;
use std::thread::Threads;

/// A pool that triples numbers.
pub(crate) fn triplers<R: Threads + Wait + Clone + Drop + Send + 'static>(
    rt: &R,
    alloc: Global,
    workers: usize,
    looks: u32,
) -> Result<Pool<Number, R>, AllocError> {
    let workers = Arc::new(alloc, Workers::new(alloc, workers, looks)?)?;
    Pool::start(rt, alloc, workers, &Triples)
}

/// The numbers from 0 on.
pub(crate) fn numbers(alloc: Global, count: u64) -> Result<Vec<Number>, AllocError> {
    let mut numbers = Vec::new(alloc);
    for value in 0..count {
        numbers.push(Number { value })?;
    }
    Ok(numbers)
}

/// The numbers are those from 0 on, each tripled once.
pub(crate) fn expect_tripled(rt: &impl Abort, numbers: &[Number]) {
    let mut expected = 1;
    for number in numbers {
        assert_eq!(rt; number.value, expected);
        expected = expected.wrapping_add(3);
    }
}

#[test]
fn each_lane_is_run_once_and_stands_at_its_place(rt: HostRuntime) -> Result<(), Fail> {
    for workers in [0, 1, 2, 3, 8] {
        for looks in [0, DEFAULT_LOOKS] {
            let pool = triplers(&rt, rt.alloc(), workers, looks)?;
            assert_eq!(rt; pool.len(), workers);
            for count in [0, 1, 2, 3, 4, 9, 20] {
                let mut lanes = numbers(rt.alloc(), count)?;
                triple_all(&rt, pool.workers(), &mut lanes);
                assert_eq!(rt; u64::try_from(lanes.len()).ok(), Some(count));
                expect_tripled(&rt, lanes.as_slice());
            }
        }
    }
    Ok(())
}

/// Of the numbers 0 to 4, what 100,000 runs make: where x is the number and n the runs, 3^n x + (3^n - 1) / 2, less multiples of 2^64.
const AFTER: [u64; 5] = [
    7_390_780_510_651_725_888,
    3_725_597_458_245_626_049,
    60_414_405_839_526_210,
    14_841_975_427_142_977_987,
    11_176_792_374_736_878_148,
];

#[test]
fn a_pool_takes_a_hundred_thousand_runs(rt: HostRuntime) -> Result<(), Fail> {
    let pool = triplers(&rt, rt.alloc(), 3, DEFAULT_LOOKS)?;
    let mut lanes = numbers(rt.alloc(), 5)?;
    for _ in 0..100_000 {
        triple_all(&rt, pool.workers(), &mut lanes);
    }
    assert_eq!(rt; lanes.len(), AFTER.len());
    for (number, expected) in lanes.iter().zip(&AFTER) {
        assert_eq!(rt; number.value, *expected);
    }
    Ok(())
}

#[test]
fn ten_pools_run_at_once(rt: HostRuntime) -> Result<(), Fail> {
    let mut pools = Vec::new(rt.alloc());
    for _ in 0..10 {
        pools.push(triplers(&rt, rt.alloc(), 3, 100)?)?;
    }
    for _ in 0..100 {
        for pool in &pools {
            let mut lanes = numbers(rt.alloc(), 4)?;
            triple_all(&rt, pool.workers(), &mut lanes);
            expect_tripled(&rt, lanes.as_slice());
        }
    }
    Ok(())
}

#[test]
fn a_lane_hands_parts_of_itself_to_workers_that_are_free(rt: HostRuntime) -> Result<(), Fail> {
    for count in [0, 1, 3] {
        let workers = Arc::new(rt.alloc(), Workers::new(rt.alloc(), count, DEFAULT_LOOKS)?)?;
        let counts = Counts {
            workers: workers.clone()?,
        };
        let pool: Pool<Tree, _> = Pool::start(&rt, rt.alloc(), workers, &counts)?;
        for _ in 0..100 {
            assert_eq!(rt; leaves(&rt, pool.workers(), 0), 1);
            assert_eq!(rt; leaves(&rt, pool.workers(), 3), 8);
            assert_eq!(rt; leaves(&rt, pool.workers(), 10), 1_024);
        }
    }
    Ok(())
}
