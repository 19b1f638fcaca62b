//! The worker's end of a hatch.
ghost use Rattle.std.specs.Prelude.{◌≡◌, [], Some, None};
ghost use Rattle.std.specs.Arc.{arc_value};
ghost use Rattle.shred_hatch.specs.Ends.{IsEnd, IsWorker};
ghost use Rattle.shred_hatch.specs.Phases.{working, finished};

use crate::job::{Job, Runner};
use crate::line::{End, Line, Row, look, sleep, wake};
use crate::plays::{Fetch, Finish};
use std::marker::Model;
use std::sync::{Arc, Wait};

/// The worker's end.
#[derive(Drop)]
pub struct Worker<J: Job> {
    pub(crate) line: Arc<Line<J>>,
    pub(crate) seat: End<J>,
}

impl<J: Job> Model for Worker<J> {
    ghost Value = { Unit {0} };

    ghost view = { λ _. tt };

    ghost invariant = { λ worker. IsWorker (arc_value worker.line).table.shared.table_id worker.seat };
}

fn run_once<J: Job, R: Wait, X: Runner<J>>(rt: &R, runner: &mut X, job: J) -> J
    requires { J.ready job }
    ensures { J.ran job result }
{
    let mut job = job;
    runner.run(rt, &mut job);
    job
}

// Runs the job that was fetched, and gives it back.
fn work<J: Job, R: Wait, X: Runner<J>>(rt: &R, row: &Row<J>, seat: &mut End<J>, runner: &mut X)
    requires row { IsEnd row.now.table_id seat.old }
    requires seat { (x : J) × (seat.old.me ≡ working x x) × J.ready x }
    ensures row { seat.new.table_id ≡ seat.old.table_id }
    ensures seat { finished seat.new.me }
{
    let job = row.exchange(seat, 0, None).unwrap();
    let done = run_once(rt, runner, job);
    match row.exchange(seat, 0, Some(done)) {
        None => {}
        Some(_) => unreachable!(),
    }
    row.store::<Finish>(seat, 0, 0);
}

fn serve<J: Job, R: Wait, X: Runner<J>>(
    rt: &R,
    line: &Line<J>,
    seat: &mut End<J>,
    looks: u32,
    runner: &mut X,
)
    requires row { IsEnd line.now.table.shared.table_id seat.old }
    requires seat { finished seat.old.me }
{
    for _ in rt.forever() {
        look(&line.table.shared, 0, looks);
        match line.table.shared.load::<Fetch>(seat, 0) {
            0 => sleep(rt, &line.table.shared, 0, &line.worker_sleeps),
            1 => {
                work(rt, &line.table.shared, seat, runner);
                wake(&line.table.shared, &line.caller_sleeps);
            }
            _ => return,
        }
    }
}

impl<J: Job> Worker<J> {
    /// Runs each job that comes, until the worker is told to end. It looks for one `looks` times before it sleeps.
    pub fn serve<R: Wait, X: Runner<J>>(self, rt: &R, looks: u32, runner: &mut X)
    where
        J: Drop,
    {
        let Worker { line, mut seat } = self;
        serve(rt, &line, &mut seat, looks, runner);
    }
}
