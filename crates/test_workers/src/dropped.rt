//! Pools that are dropped, and how many of their runners are left.

use crate::rows::{expect_tripled, numbers};
use crate::tripled::{Number, Triples};
use shred_hatch::Runner;
use shred_workers::{DEFAULT_LOOKS, Pool, Workers};
use std::alloc::{AllocError, Global};
use std::sync::atomic::{AtomicU64, Ordering};
use std::sync::{Arc, Wait};
use std::test::Fail;
use std::thread::Threads;

/// Triples numbers, and is counted while it is there.
pub(crate) struct Counted {
    alive: Arc<AtomicU64>,
}

impl Counted {
    /// The first one.
    pub(crate) fn first(alloc: Global) -> Result<(Counted, Arc<AtomicU64>), AllocError> {
        let alive = Arc::new(alloc, AtomicU64::new(1))?;
        let seen = alive.clone()?;
        Ok((Counted { alive }, seen))
    }
}

impl Clone for Counted {
    fn clone(&self) -> Result<Self, AllocError> {
        let alive = self.alive.clone()?;
        alive.fetch_add(1, Ordering::SeqCst);
        Ok(Counted { alive })
    }
}

impl Drop for Counted {
    fn drop(self) {
        let Self { alive } = self;
        alive.fetch_sub(1, Ordering::SeqCst);
    }
}

impl Runner<Number> for Counted {
    fn run<R: Wait>(&mut self, rt: &R, number: &mut Number) {
        let mut triples = Triples;
        triples.run(rt, number);
    }
}

/// Places for so many workers.
fn places(alloc: Global, count: usize, looks: u32) -> Result<Arc<Workers<Number>>, AllocError> {
    Ok(Arc::new(alloc, Workers::new(alloc, count, looks)?)?)
}

#[test]
fn a_pool_that_is_dropped_has_joined_its_threads(rt: HostRuntime) -> Result<(), Fail> {
    for looks in [0, DEFAULT_LOOKS] {
        for runs in [0, 1, 100] {
            let (mut runner, alive) = Counted::first(rt.alloc())?;
            let workers = places(rt.alloc(), 4, looks)?;
            let pool = Pool::start(&rt, rt.alloc(), workers.clone()?, &runner)?;
            assert_eq!(rt; alive.load(Ordering::SeqCst), 5);
            for _ in 0..runs {
                let mut lanes = numbers(rt.alloc(), 6)?;
                pool.workers().run(&rt, &mut runner, &mut lanes);
                expect_tripled(&rt, lanes.as_slice());
            }
            drop(pool);
            assert_eq!(rt; alive.load(Ordering::SeqCst), 1);
            let mut lanes = numbers(rt.alloc(), 6)?;
            workers.run(&rt, &mut runner, &mut lanes);
            expect_tripled(&rt, lanes.as_slice());
        }
    }
    Ok(())
}
