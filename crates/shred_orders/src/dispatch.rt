//! Dispatches, told by the orders in which their steps may come, and two of them side by side.
ghost use Rattle.std.specs.Prelude.{◌≡◌};
ghost use Rattle.shred.specs.Dispatchers.{dispatcher_locals, dispatcher_workers};
ghost use Rattle.shred_orders.specs.OverWorlds.{DispatchedInterleaved, DispatchedAlike};

use shred::{BatchController, DispatchError, Dispatcher, ResourceValue, RunNow, System, World};
use std::thread::Threads;

/// `dispatch_par`, told by its records at every depth: each order of all of them in which the groups of each stage, of the
/// plan or of the inner plan of one batch, are interleaved in any way leads from what was before to what it left.
pub fn dispatch_interleaved<
    R: Threads + Sync,
    V: ResourceValue + Drop + Send + Sync,
    S: System<V, Error = E> + Send,
    C: BatchController<V, Error = E> + Send,
    L,
    E: Drop + Send,
>(
    rt: &R,
    dispatcher: &mut Dispatcher<V, S, C, L>,
    world: &mut World<V>,
) -> Result<(), DispatchError<E>>
where
    S::Accessor: Send,
    C::Accessor: Send,
    ensures interleaved { DispatchedInterleaved dispatcher.old world.old result dispatcher.new world.new }
    ensures locals { dispatcher_locals dispatcher.new ≡ dispatcher_locals dispatcher.old }
    ensures workers { dispatcher_workers dispatcher.new ≡ dispatcher_workers dispatcher.old }
{
    dispatcher.dispatch_par(rt, world)
}

/// Dispatches two dispatchers, each on as many threads as it has, over a world of its own. Where they began with the same
/// plan, systems, controllers and values, and each system and controller allows one end, they end the same, unless memory
/// was wanting.
pub fn dispatch_alike<
    R: Threads + Sync,
    V: ResourceValue + Drop + Send + Sync,
    S: System<V, Error = E> + Send,
    C: BatchController<V, Error = E> + Send,
    L: RunNow<V, Error = E> + Drop,
    E: Drop + Send,
>(
    rt: &R,
    first: &mut Dispatcher<V, S, C, L>,
    world: &mut World<V>,
    second: &mut Dispatcher<V, S, C, L>,
    other: &mut World<V>,
) -> (Result<(), DispatchError<E>>, Result<(), DispatchError<E>>)
where
    S::Accessor: Send,
    C::Accessor: Send,
    ensures { DispatchedAlike L.runs first.old world.old second.old other.old result first.new world.new second.new other.new }
{
    let one = first.dispatch(rt, world);
    let two = second.dispatch(rt, other);
    (one, two)
}
