//! A hatch between a caller and one worker: the caller sends a job, and collects it as its run left it.
//!
//!     let (mut caller, worker) = open(alloc)?;
//!     // on a thread of its own: worker.serve(&rt, looks, &mut runner)
//!     caller.send(job);
//!     let job = caller.collect(&rt, looks);
//!     caller.end();
//!
//! `collect` ensures `J.ran sent job`, where `sent` is what `send` was passed, though another thread ran it. `shred_workers` starts the
//! threads; `leaves` of `test_workers` sends and collects.
#![tactic(auto)]

mod caller;
mod job;
mod line;
mod plays;
mod view;
mod worker;

pub use caller::{Caller, open};
pub use job::{Job, Runner};
pub use worker::Worker;
