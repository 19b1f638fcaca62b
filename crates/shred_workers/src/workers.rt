//! The workers of a pool, as those see them who hand them jobs.
ghost use Rattle.std.specs.Prelude.{◌≡◌, ◌≤◌, ℕ, All, None, IfOk, IfSome, length, vec_capacity};
ghost use Rattle.std.specs.List.{AllZip};

use crate::lanes::run_lanes;
use crate::place::Place;
use shred_hatch::{Caller, Job, Runner};
use std::alloc::{AllocError, Global};
use std::marker::Model;
use std::sync::Wait;

/// How often who waits looks before it sleeps, where a caller has no number of its own.
pub const DEFAULT_LOOKS: u32 = 1000;

/// The places of workers, which all share who hand them jobs. Contracts see it as how many there are, and how often who waits looks.
#[derive(Drop)]
pub struct Workers<J: Job> {
    places: Vec<Place<J>>,
    looks: u32,
}

impl<J: Job> Model for Workers<J> {
    ghost Value = { ℕ × ℕ };

    ghost view = { λ workers. (length workers.places.items, workers.looks) };
}

impl<J: Job + Drop> Workers<J> {
    /// Places for so many workers, whom a `Pool` starts. Who waits, a worker or a caller, looks `looks` times before it sleeps.
    pub fn new(alloc: Global, count: usize, looks: u32) -> Result<Workers<J>, AllocError>
        ensures { IfOk result (λ workers. workers ≡ (count, looks)) }
    {
        let mut places = Vec::with_capacity(alloc, count)?;
        for _ in 0..count {
            places.push(Place::new())?;
        }
        Ok(Workers { places, looks })
    }

    /// How many places there are.
    pub fn len(&self) -> usize
        ensures { result ≡ self.now.0 }
    {
        self.places.len()
    }

    /// How many workers are free just now, counted up to this number. It never waits.
    pub fn free(&self, most: usize) -> usize
        ensures { result ≤ most }
    {
        let mut free: usize = 0;
        for place in &self.places {
            if free < most && place.is_free() {
                free += 1;
            }
        }
        free
    }

    /// The worker of a place, if it is free. It never waits: where another thread looks at the place just now, the answer is None too.
    pub fn take(&self, place: usize) -> Option<Caller<J>>
        ensures { IfSome result (λ caller. caller ≡ None) }
    {
        self.places.get(place)?.take()
    }

    /// Gives the worker of a place back. Where the pool is closed meanwhile, or has no such place, it ends.
    pub fn give_back<R: Wait>(&self, rt: &R, place: usize, caller: Caller<J>)
        requires { caller ≡ None }
    {
        match self.places.get(place) {
            Some(place) => place.give_back(rt, caller),
            None => caller.end(),
        }
    }

    /// How often who waits looks before it sleeps.
    pub fn looks(&self) -> u32
        ensures { result ≡ self.now.1 }
    {
        self.looks
    }

    /// Runs every lane once: each of the last ones on a worker that is free, and the rest on the caller's thread. The lanes come back in
    /// the order in which they were given, each as a run of it left it. It takes no memory, and waits for no worker but for those that
    /// it handed a lane.
    pub fn run<R: Wait, X: Runner<J>>(&self, rt: &R, runner: &mut X, lanes: &mut Vec<J>)
        requires { All J.ready lanes.old.items }
        ensures ran { AllZip J.ran lanes.old.items lanes.new.items }
        ensures room { vec_capacity lanes.new ≡ vec_capacity lanes.old }
    {
        run_lanes(rt, self.places.as_slice(), self.looks, runner, lanes);
    }

    pub(crate) fn places(&self) -> &[Place<J>] {
        self.places.as_slice()
    }

    // Ends each worker, now or when it is given back.
    pub(crate) fn close<R: Wait>(&self, rt: &R) {
        for place in &self.places {
            place.close(rt);
        }
    }
}
