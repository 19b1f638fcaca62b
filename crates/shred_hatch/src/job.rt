//! What a worker runs, and who runs it.
use std::sync::Wait;

/// What is known of a job, before it is run and after.
pub trait Job {
    /// What has to hold of a job that is run.
    ghost ready: { Self → Type 0 };

    /// What a run makes of it.
    ghost ran: { Self → Self → Type 0 };
}

/// Who runs jobs. Each worker has one.
pub trait Runner<J: Job> {
    /// Runs a job once.
    fn run<R: Wait>(&mut self, rt: &R, job: &mut J)
        requires { J.ready job.old }
        ensures { J.ran job.old job.new };
}
