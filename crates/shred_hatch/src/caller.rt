//! The caller's end of a hatch.
ghost use Rattle.std.specs.Prelude.{◌≡◌, Option, Some, None, IfOk};
ghost use Rattle.std.specs.Arc.{arc_value};
ghost use Rattle.shred_hatch.specs.Ends.{job_out, IsCaller, IsEnd};
ghost use Rattle.shred_hatch.specs.Phases.{holding, sending};

use crate::job::Job;
use crate::line::{End, Line, Row, look, sleep, wake};
use crate::plays;
use crate::plays::{Collect, HandOver, Pair, PickUp};
use crate::worker::Worker;
use atomic_table::Table;
use std::alloc::{AllocError, Global};
use std::marker::Model;
use std::sync::atomic::AtomicBool;
use std::sync::{Arc, Wait};

/// The caller's end. Contracts see it as the job that is out, where one is. It is not dropped: `end` gives it up.
pub struct Caller<J: Job> {
    line: Arc<Line<J>>,
    seat: End<J>,
}

impl<J: Job> Model for Caller<J> {
    ghost Value = { Option J };

    ghost view = { λ caller. job_out caller.seat.me.0 };

    ghost invariant = { λ caller. IsCaller (arc_value caller.line).table.shared.table_id caller.seat };
}

/// A hatch with no job, by its two ends.
pub fn open<J: Job + Drop>(alloc: Global) -> Result<(Caller<J>, Worker<J>), AllocError>
    ensures { IfOk result (λ ends. ends.0 ≡ None) }
{
    let (table, mut seat) = Table::vacant(alloc, &[0], 1, &())?;
    let theirs = table.shared.split_seat::<Pair>(&mut seat);
    table.shared.load::<PickUp>(&mut seat, 0);
    let line = Line {
        table,
        caller_sleeps: AtomicBool::new(false),
        worker_sleeps: AtomicBool::new(false),
    };
    let line = Arc::new(alloc, line)?;
    let other = line.clone()?;
    Ok((
        Caller { line, seat },
        Worker {
            line: other,
            seat: theirs,
        },
    ))
}

fn hand_over<J: Job>(row: &Row<J>, seat: &mut End<J>, job: J)
    requires row { IsEnd row.now.table_id seat.old }
    requires seat { seat.old.me ≡ holding None }
    requires ready { J.ready job }
    ensures row { seat.new.table_id ≡ seat.old.table_id }
    ensures seat { seat.new.me ≡ sending job }
{
    match row.exchange(seat, 0, Some(job)) {
        None => {}
        Some(_) => unreachable!(),
    }
    row.store::<HandOver>(seat, 0, 1);
}

fn collect<J: Job, R: Wait>(
    rt: &R,
    row: &Row<J>,
    seat: &mut End<J>,
    looks: u32,
    sleeps: &AtomicBool,
) -> J
    requires row { IsEnd row.now.table_id seat.old }
    requires seat { (x : J) × (seat.old.me ≡ sending x) }
    ensures row { seat.new.table_id ≡ seat.old.table_id }
    ensures seat { seat.new.me ≡ holding None }
    ensures ran { (x : J) → seat.old.me ≡ sending x → J.ran x result }
{
    look(row, 1, looks);
    for _ in rt.forever() {
        if row.load::<Collect>(seat, 0) == 0 {
            return row.exchange(seat, 0, None).unwrap();
        }
        sleep(rt, row, 1, sleeps);
    }
    unreachable!()
}

fn end<J: Job>(row: &Row<J>, seat: &mut End<J>)
    requires row { IsEnd row.now.table_id seat.old }
    requires seat { seat.old.me ≡ holding None }
{
    row.store::<plays::End>(seat, 0, 2);
}

impl<J: Job> Caller<J> {
    /// Hands a job to the worker, and wakes it where it sleeps.
    pub fn send(&mut self, job: J)
        requires free { self.old ≡ None }
        requires ready { J.ready job }
        ensures { self.new ≡ Some job }
    {
        hand_over(&self.line.table.shared, &mut self.seat, job);
        wake(&self.line.table.shared, &self.line.worker_sleeps);
    }

    /// Waits for the job that is out: it comes back as its run left it. It looks for it `looks` times before it sleeps.
    pub fn collect<R: Wait>(&mut self, rt: &R, looks: u32) -> J
        requires out { (x : J) × (self.old ≡ Some x) }
        ensures free { self.new ≡ None }
        ensures ran { (x : J) → self.old ≡ Some x → J.ran x result }
    {
        collect(
            rt,
            &self.line.table.shared,
            &mut self.seat,
            looks,
            &self.line.caller_sleeps,
        )
    }

    /// Tells the worker to end.
    pub fn end(self)
    where
        J: Drop,
        requires { self ≡ None }
    {
        let Caller { line, mut seat } = self;
        end(&line.table.shared, &mut seat);
        wake(&line.table.shared, &line.worker_sleeps);
    }
}
