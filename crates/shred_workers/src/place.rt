//! The place of a worker in a pool.
ghost use Rattle.std.specs.Prelude.{◌≡◌, None, IfSome};

use shred_hatch::{Caller, Job};
use std::mem;
use std::sync::{Mutex, Wait};

/// A worker that is free. Where it is dropped, it ends.
pub(crate) struct Idle<J: Job> {
    caller: Caller<J>,
    ghost free: { caller ≡ None },
}

impl<J: Job> Idle<J> {
    pub(crate) fn new(caller: Caller<J>) -> Idle<J>
        requires { caller ≡ None }
    {
        Idle { caller }
    }

    fn into_caller(self) -> Caller<J>
        ensures { result ≡ None }
    {
        let Idle { caller } = self;
        caller
    }
}

impl<J: Job + Drop> Drop for Idle<J> {
    fn drop(self) {
        let Self { caller } = self;
        caller.end();
    }
}

#[derive(Drop)]
enum State<J: Job> {
    Free(Idle<J>),
    Out,
    Closed,
}

/// The place of a worker: it is free, or it is out, or the pool is closed.
#[derive(Drop)]
pub(crate) struct Place<J: Job> {
    state: Mutex<State<J>>,
}

impl<J: Job + Drop> Place<J> {
    pub(crate) fn new() -> Place<J> {
        Place {
            state: Mutex::new(State::Out),
        }
    }

    pub(crate) fn take(&self) -> Option<Caller<J>>
        ensures { IfSome result (λ caller. caller ≡ None) }
    {
        let mut state = self.state.try_lock()?;
        match mem::replace(&mut *state, State::Out) {
            State::Free(idle) => Some(idle.into_caller()),
            State::Out => None,
            State::Closed => {
                *state = State::Closed;
                None
            }
        }
    }

    // Whether the worker is free just now.
    pub(crate) fn is_free(&self) -> bool {
        match self.state.try_lock() {
            Some(state) => matches!(&*state, State::Free(_)),
            None => false,
        }
    }

    pub(crate) fn give_back<R: Wait>(&self, rt: &R, caller: Caller<J>)
        requires { caller ≡ None }
    {
        self.fill(rt, Idle::new(caller));
    }

    pub(crate) fn fill<R: Wait>(&self, rt: &R, idle: Idle<J>) {
        let mut state = self.state.lock(rt);
        match mem::replace(&mut *state, State::Closed) {
            State::Closed => {}
            _ => *state = State::Free(idle),
        }
    }

    // Ends the worker, now or when it is given back.
    pub(crate) fn close<R: Wait>(&self, rt: &R) {
        *self.state.lock(rt) = State::Closed;
    }
}
