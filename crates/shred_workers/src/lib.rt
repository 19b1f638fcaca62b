//! Workers that are kept: threads that are started once, and run one job after the other, beside the thread that hands them out.
//!
//! A type of jobs says what is known of a job before its run and after, and a runner runs one:
//!
//!     impl Job for Number {
//!         ghost ready = { λ _. ⊤ };
//!
//!         ghost ran = { λ before after. after.value ≡ tripled before.value };
//!     }
//!
//! Then a list of jobs is run on the workers of a pool and on the caller's thread:
//!
//!     let workers = Arc::new(alloc, Workers::new(alloc, 3, DEFAULT_LOOKS)?)?;
//!     let pool = Pool::start(&rt, alloc, workers, &Triples)?;
//!     pool.workers().run(&rt, &mut Triples, &mut numbers);
//!
//! `run` ensures that each number is tripled, in order, for every number of workers, 0 among them: `triple_all` of `test_workers`
//! concludes it. `leaves`, there too, hands out jobs one by one, from within a job.
#![tactic(auto)]

mod lanes;
mod place;
mod pool;
mod workers;

pub use pool::Pool;
pub use workers::{DEFAULT_LOOKS, Workers};
