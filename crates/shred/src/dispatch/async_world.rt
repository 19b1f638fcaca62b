//! The world of an asynchronous dispatcher.
ghost use Rattle.std.specs.Borrow.{sem};
ghost use Rattle.shred.specs.AsyncLent.{LendsShown, LendsJoined};
ghost use Rattle.shred.specs.AsyncShown.{IsHome, Shows};
ghost use Rattle.shred.specs.AsyncDispatchers.{state_of};
ghost use Rattle.shred_world.specs.Worlds.{world_held};
ghost use Rattle.shred.specs.AsyncOver.{AsyncShows, AsyncLends};

use crate::dispatch::async_dispatcher::AsyncDispatcher;
use crate::dispatch::async_error::AsyncError;
use crate::dispatch::async_place::{Place, home_world};
use shred_run::{BatchController, System};
use shred_world::{Accessor, ResourceValue, World};
use std::convert::Infallible;
use std::thread::Threads;

impl<
    V: ResourceValue + Drop,
    S: System<V, Error = E, Accessor = A> + Drop,
    C: BatchController<V, Error = E, Accessor = B> + Drop,
    L,
    E: Drop,
    A: Accessor + Drop,
    B: Accessor + Drop,
> AsyncDispatcher<V, S, C, L> {
    // The world, where no run is out.
    fn shown(&self) -> Result<&World<V>, AsyncError<Infallible>>
        requires { IsHome (state_of V.kind_of self.now) }
        ensures { Shows (λ world. world_held V.kind_of world.now) (state_of V.kind_of self.now) result }
    {
        match &self.place {
            Place::Home(home) => Ok(&home.world),
            Place::Out(_) => unreachable!(),
            Place::Lost => Err(AsyncError::Lost),
        }
    }

    /// Waits for the run that is out, where one is, and shows the world. A refusal that was not told yet stays so. `Lost` where a
    /// run could not be started before.
    pub fn world<R: Threads>(&mut self, rt: &R) -> Result<&World<V>, AsyncError<Infallible>>
        ensures shown { AsyncShows self.old result }
        ensures* after { sem 𝓛 (LendsShown V.row S.row C.row L.row E.row A.row B.row V.ResourceValue S.System A.Accessor C.BatchController B.Accessor self.entry result) }
    {
        self.join(rt);
        self.shown()
    }

    /// Another name of `world`.
    pub fn res<R: Threads>(&mut self, rt: &R) -> Result<&World<V>, AsyncError<Infallible>>
        ensures shown { AsyncShows self.old result }
        ensures* after { sem 𝓛 (LendsShown V.row S.row C.row L.row E.row A.row B.row V.ResourceValue S.System A.Accessor C.BatchController B.Accessor self.entry result) }
    {
        self.world(rt)
    }

    /// Waits for the run that is out, where one is, and lends the world to be written. A refusal that was not told yet stays
    /// so. `Lost` where a run could not be started before.
    pub fn world_mut<R: Threads>(&mut self, rt: &R) -> Result<&mut World<V>, AsyncError<E>>
        ensures shown { AsyncLends self.old result }
        ensures* after { sem 𝓛 (LendsJoined V.row S.row C.row L.row E.row A.row B.row V.ResourceValue S.System A.Accessor C.BatchController B.Accessor self.entry result) }
    {
        self.join(rt);
        match home_world(&mut self.place) {
            Some(world) => Ok(world),
            None => Err(AsyncError::Lost),
        }
    }

    /// Another name of `world_mut`.
    pub fn mut_res<R: Threads>(&mut self, rt: &R) -> Result<&mut World<V>, AsyncError<E>>
        ensures shown { AsyncLends self.old result }
        ensures* after { sem 𝓛 (LendsJoined V.row S.row C.row L.row E.row A.row B.row V.ResourceValue S.System A.Accessor C.BatchController B.Accessor self.entry result) }
    {
        self.world_mut(rt)
    }
}
