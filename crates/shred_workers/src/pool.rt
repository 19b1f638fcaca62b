//! The threads of workers.
ghost use Rattle.std.specs.Prelude.{◌≡◌, IfOk, vec_len};
ghost use Rattle.std.specs.Arc.{arc_value};

use crate::place::{Idle, Place};
use crate::workers::Workers;
use shred_hatch::{Job, Runner, open};
use std::alloc::{AllocError, Global};
use std::sync::{Arc, Wait};
use std::thread;
use std::thread::{JoinHandle, Threads};

/// The threads of workers. Dropping it ends them, and waits until they have ended.
pub struct Pool<J: Job, R: Threads + Wait> {
    workers: Arc<Workers<J>>,
    threads: Vec<JoinHandle<()>>,
    rt: R,
}

impl<J: Job + Drop, R: Threads + Wait + Drop> Drop for Pool<J, R> {
    fn drop(self) {
        let Self {
            workers,
            threads,
            rt,
        } = self;
        workers.close(&rt);
        for thread in threads {
            thread.join(&rt);
        }
    }
}

// Starts the worker of a place. None where its thread or memory is refused.
fn start_worker<
    J: Job + Drop + Send + 'static,
    R: Threads + Wait + Clone + Send + 'static,
    X: Runner<J> + Drop + Send + 'static,
>(rt: &R, alloc: Global, place: &Place<J>, looks: u32, runner: X) -> Option<JoinHandle<()>> {
    let (caller, worker) = open(alloc).ok()?;
    let idle = Idle::new(caller);
    let runtime = rt.clone().ok()?;
    let mut runner = runner;
    let thread = thread::spawn(rt, move || worker.serve(&runtime, looks, &mut runner)).ok()?;
    place.fill(rt, idle);
    Some(thread)
}

impl<J: Job + Drop + Send + 'static, R: Threads + Wait + Clone + Send + 'static> Pool<J, R> {
    /// Starts a thread for each place, up to the first that is refused: who hands out jobs finds no worker at the places that are left.
    /// Each worker runs jobs by a clone of the runner.
    pub fn start<X: Runner<J> + Clone + Send + 'static>(
        rt: &R,
        alloc: Global,
        workers: Arc<Workers<J>>,
        runner: &X,
    ) -> Result<Pool<J, R>, AllocError>
        ensures { IfOk result (λ pool. arc_value pool.workers ≡ arc_value workers) }
    {
        let mut runners = Vec::with_capacity(alloc, workers.len())?;
        for _ in 0..workers.len() {
            let Ok(own) = runner.clone() else {
                break;
            };
            runners.push(own)?;
        }
        Pool::start_each(rt, alloc, workers, runners)
    }

    /// Starts a thread for each runner, at a place of its own, up to the first that is refused. A runner that is left over gets none, and a
    /// place that is left over no worker.
    pub fn start_each<X: Runner<J> + Drop + Send + 'static>(
        rt: &R,
        alloc: Global,
        workers: Arc<Workers<J>>,
        runners: Vec<X>,
    ) -> Result<Pool<J, R>, AllocError>
        ensures { IfOk result (λ pool. arc_value pool.workers ≡ arc_value workers) }
    {
        let places = workers.clone()?;
        let mut pool = Pool {
            workers,
            threads: Vec::with_capacity(alloc, places.places().len())?,
            rt: rt.clone()?,
        };
        let mut runners = runners;
        for place in places.places() {
            let Some(runner) = runners.pop() else {
                break;
            };
            let Some(thread) = start_worker(rt, alloc, place, places.looks(), runner) else {
                break;
            };
            pool.threads.push(thread)?;
        }
        Ok(pool)
    }
}

impl<J: Job, R: Threads + Wait> Pool<J, R> {
    /// The workers, for who hands them jobs.
    pub fn workers(&self) -> &Workers<J>
        ensures { result.now ≡ arc_value self.now.workers }
    {
        &self.workers
    }

    /// The runtime, of which the pool has a clone.
    pub fn runtime(&self) -> &R
        ensures { result.now ≡ self.now.rt }
    {
        &self.rt
    }

    /// How many threads were started.
    pub fn len(&self) -> usize
        ensures { result ≡ vec_len self.now.threads }
    {
        self.threads.len()
    }
}
