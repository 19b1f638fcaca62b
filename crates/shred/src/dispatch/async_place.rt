//! Where the world and the plan of an asynchronous dispatcher are.
ghost use Rattle.std.specs.Borrow.{sem};
ghost use Rattle.shred.specs.AsyncBegun.{HasBegun};
ghost use Rattle.shred.specs.AsyncPlaces.{LendsPlaced, ShowsHome};

use crate::dispatch::async_run::{Home, Running, start};
use shred_run::{BatchController, NoBatch, System};
use shred_world::{Accessor, ResourceValue, World};
use std::mem;
use std::thread::Threads;

/// Where the world and the plan are: home, out on a run, or lost.
#[derive(Drop)]
pub(crate) enum Place<
    V: ResourceValue,
    S: System<V>,
    C: BatchController<V, Error = <S as System<V>>::Error> = NoBatch<<S as System<V>>::Error>,
> {
    Home(Home<V, S, C>),
    Out(Running<V, S, C>),
    Lost,
}

/// Begins a run over what is home, and says whether it did; where it could not be started, what was home is lost. What is not
/// home stays.
pub(crate) fn begin<
    R: Threads + Sync + Clone + Send + 'static,
    V: ResourceValue + Drop + Send + Sync + 'static,
    S: System<V, Error = E> + Drop + Send + 'static,
    C: BatchController<V, Error = E> + Drop + Send + 'static,
    E: Drop + Send + 'static,
>(rt: &R, place: &mut Place<V, S, C>, workers: usize) -> bool
where
    S::Accessor: Send + 'static,
    C::Accessor: Send + 'static,
    ensures { HasBegun place.old result place.new }
{
    match mem::replace(place, Place::Lost) {
        Place::Home(home) => {
            let Home {
                world,
                plan,
                untold: _,
            } = home;
            let alloc = *plan.stages.allocator();
            match start(rt, alloc, world, plan, workers) {
                Some(run) => {
                    *place = Place::Out(run);
                    true
                }
                None => false,
            }
        }
        other => {
            *place = other;
            false
        }
    }
}

/// The world that is home, to be written.
pub(crate) fn home_world<
    V: ResourceValue,
    S: System<V, Error = E, Accessor = A>,
    C: BatchController<V, Error = E, Accessor = B>,
    E,
    A: Accessor + Drop,
    B: Accessor + Drop,
>(place: &mut Place<V, S, C>) -> Option<&mut World<V>>
    ensures shown { ShowsHome place.old result }
    ensures* after { sem 𝓛 (LendsPlaced V.row S.row C.row E.row A.row B.row V.ResourceValue S.System A.Accessor C.BatchController B.Accessor place.entry result) }
{
    match place {
        Place::Home(home) => Some(&mut home.world),
        Place::Out(_) => None,
        Place::Lost => None,
    }
}
