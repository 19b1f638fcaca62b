//! The line between the two ends: the word and the slot that they share, and who sleeps on the word.
ghost use Rattle.std.specs.Prelude.{◌≡◌, IfOk};
ghost use Rattle.shred_hatch.specs.Ends.{IsSized};

use crate::job::Job;
use crate::plays::OneJob;
use crate::view::View;
use atomic_table::{Seat, Shared, Table};
use std::alloc::Global;
use std::hint::spin_loop;
use std::sync::Wait;
use std::sync::atomic::{AtomicBool, Ordering};

pub(crate) type Row<J> = Shared<Option<J>, View<J>, (), OneJob>;

pub(crate) type End<J> = Seat<Option<J>, View<J>>;

/// A table of one word and one slot. Of an end that sleeps, or is about to, the other knows that it has to be woken.
#[derive(Drop)]
pub(crate) struct Line<J: Job> {
    pub(crate) table: Table<Option<J>, View<J>, (), OneJob, Global>,
    pub(crate) caller_sleeps: AtomicBool,
    pub(crate) worker_sleeps: AtomicBool,
}

// Looks at the word, up to so many times, until it is another.
pub(crate) fn look<J: Job>(row: &Row<J>, word: u64, looks: u32)
    requires { IsSized row.now.table_id }
{
    for _ in 0..looks {
        if row.peek(0) != word {
            return;
        }
        spin_loop();
    }
}

// Sleeps while the word is this one. It may also return for no reason.
pub(crate) fn sleep<J: Job, R: Wait>(rt: &R, row: &Row<J>, word: u32, sleeps: &AtomicBool)
    requires { IsSized row.now.table_id }
{
    sleeps.store(true, Ordering::SeqCst);
    row.park(rt, 0, word);
    sleeps.store(false, Ordering::SeqCst);
}

// Wakes the other end, if it sleeps.
pub(crate) fn wake<J: Job>(row: &Row<J>, sleeps: &AtomicBool)
    requires { IsSized row.now.table_id }
{
    if sleeps.load(Ordering::SeqCst) {
        row.wake_one(0);
    }
}
