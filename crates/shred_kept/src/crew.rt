//! The workers of a pool, for one who hands them jobs.
ghost use Rattle.std.specs.Prelude.{◌≡◌, None, IfSome};
ghost use Rattle.std.specs.Arc.{arc_value};

use shred_hatch::{Caller, Job};
use shred_workers::Workers;
use std::sync::{Arc, Wait};

/// The workers of a pool. Its calls are those of `Workers`, and ask for it to be written, so that they may be made where a job's type
/// holds references.
#[derive(Drop)]
pub(crate) struct Crew<J: Job> {
    workers: Arc<Workers<J>>,
}

impl<J: Job + Drop> Crew<J> {
    pub(crate) fn new(workers: Arc<Workers<J>>) -> Crew<J>
        ensures { result.workers ≡ workers }
    {
        Crew { workers }
    }

    /// How many places there are.
    pub(crate) fn len(&mut self) -> usize
        ensures count { result ≡ (arc_value self.old.workers).0 }
        ensures same { self.new ≡ self.old }
    {
        self.workers.len()
    }

    /// How often who waits looks before it sleeps.
    pub(crate) fn looks(&mut self) -> u32
        ensures { self.new ≡ self.old }
    {
        self.workers.looks()
    }

    /// How many workers are free just now, counted up to this number.
    pub(crate) fn free(&mut self, most: usize) -> usize
        ensures { self.new ≡ self.old }
    {
        self.workers.free(most)
    }

    /// The worker of a place, if it is free.
    pub(crate) fn take(&mut self, place: usize) -> Option<Caller<J>>
        ensures free { IfSome result (λ caller. caller ≡ None) }
        ensures same { self.new ≡ self.old }
    {
        self.workers.take(place)
    }

    /// Gives the worker of a place back.
    pub(crate) fn give_back<R: Wait>(&mut self, rt: &R, place: usize, caller: Caller<J>)
        requires { caller ≡ None }
        ensures { self.new ≡ self.old }
    {
        self.workers.give_back(rt, place, caller);
    }
}
