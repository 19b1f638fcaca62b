//! A run of a plan on a thread of its own.
ghost use Rattle.std.specs.Prelude.{◌≡◌, IfSome};
ghost use Rattle.shred_stage.specs.OverWorlds.{PlanDispatched};

use shred_run::{BatchController, NoBatch, System};
use shred_stage::{DispatchError, Plan};
use shred_world::{ResourceValue, World};
use std::alloc::Global;
use std::snapshot::Snapshot;
use std::sync::Arc;
use std::sync::atomic::{AtomicBool, Ordering};
use std::thread;
use std::thread::{Promise, PromisedHandle, Threads};

/// A world and a plan, with the answer of the last run where that is a refusal which is untold.
#[derive(Drop)]
pub(crate) struct Home<
    V: ResourceValue,
    S: System<V>,
    C: BatchController<V> = NoBatch<<S as System<V>>::Error>,
> {
    pub(crate) world: World<V>,
    pub(crate) plan: Plan<V, S, C>,
    pub(crate) untold: Result<(), DispatchError<S::Error>>,
}

/// What a thread promises: that it gives back what a dispatch of the plan leaves of the world and of itself, with its answer.
#[derive(Drop)]
pub(crate) struct RunFrom<
    V: ResourceValue,
    S: System<V>,
    C: BatchController<V, Error = <S as System<V>>::Error> = NoBatch<<S as System<V>>::Error>,
> {
    pub(crate) world: Snapshot<World<V>>,
    pub(crate) plan: Snapshot<Plan<V, S, C>>,
}

impl<V: ResourceValue, S: System<V, Error = E>, C: BatchController<V, Error = E>, E> Promise<
    (World<V>, Plan<V, S, C>, Result<(), DispatchError<E>>),
> for RunFrom<V, S, C> {
    ghost kept_by = { λ from left. PlanDispatched from.plan.value from.world.value left.2 left.1 left.0 };
}

/// A run that was begun, and whether it has come to its end.
#[derive(Drop)]
pub(crate) struct Running<
    V: ResourceValue,
    S: System<V>,
    C: BatchController<V, Error = <S as System<V>>::Error> = NoBatch<<S as System<V>>::Error>,
> {
    pub(crate) handle: PromisedHandle<
        (
            World<V>,
            Plan<V, S, C>,
            Result<(), DispatchError<<S as System<V>>::Error>>,
        ),
        RunFrom<V, S, C>,
    >,
    pub(crate) is_done: Arc<AtomicBool>,
}

// Runs the plan, and says then that it has come to its end.
fn run_plan<
    R: Threads + Sync,
    V: ResourceValue + Drop + Send + Sync,
    S: System<V, Error = E> + Send + Drop,
    C: BatchController<V, Error = E> + Send + Drop,
    E: Drop + Send,
>(
    rt: &R,
    world: World<V>,
    plan: Plan<V, S, C>,
    workers: usize,
    is_done: &AtomicBool,
) -> (World<V>, Plan<V, S, C>, Result<(), DispatchError<E>>)
where
    S::Accessor: Send,
    C::Accessor: Send,
    ensures { PlanDispatched plan world result.2 result.1 result.0 }
{
    let mut world = world;
    let mut plan = plan;
    let untold = plan.run_beside(rt, world.local(), workers);
    is_done.store(true, Ordering::SeqCst);
    (world, plan, untold)
}

/// Begins a run of the plan over the world, on a thread of its own, each stage on at most `workers` threads. None where that
/// thread or the memory for its start is refused; then the world and the plan are dropped.
pub(crate) fn start<
    R: Threads + Sync + Clone + Send + 'static,
    V: ResourceValue + Drop + Send + Sync + 'static,
    S: System<V, Error = E> + Drop + Send + 'static,
    C: BatchController<V, Error = E> + Drop + Send + 'static,
    E: Drop + Send + 'static,
>(
    rt: &R,
    alloc: Global,
    world: World<V>,
    plan: Plan<V, S, C>,
    workers: usize,
) -> Option<Running<V, S, C>>
where
    S::Accessor: Send + 'static,
    C::Accessor: Send + 'static,
    ensures world { IfSome result (λ run. run.handle.promise.world.value ≡ world) }
    ensures plan { IfSome result (λ run. run.handle.promise.plan.value ≡ plan) }
{
    let is_done = Arc::new(alloc, AtomicBool::new(false)).ok()?;
    let tells = is_done.clone().ok()?;
    let runtime = rt.clone().ok()?;
    let promise = RunFrom {
        world: Snapshot::of(&world),
        plan: Snapshot::of(&plan),
    };
    let handle = thread::spawn_with(
        rt,
        promise,
        move || -> (World<V>, Plan<V, S, C>, Result<(), DispatchError<E>>)
            ensures { PlanDispatched plan world result.2 result.1 result.0 }
        { run_plan(&runtime, world, plan, workers, &tells) },
    )
    .ok()?;
    Some(Running { handle, is_done })
}

/// Joins a run: what it left of the world and the plan, with its answer.
pub(crate) fn join_run<
    R: Threads,
    V: ResourceValue + Drop,
    S: System<V, Error = E> + Drop,
    C: BatchController<V, Error = E> + Drop,
    E: Drop,
>(rt: &R, run: Running<V, S, C>) -> Home<V, S, C>
    ensures { let begun = run.handle.promise in
        PlanDispatched begun.plan.value begun.world.value result.untold result.plan result.world }
{
    let Running { handle, is_done: _ } = run;
    let (world, plan, untold) = handle.join(rt);
    Home {
        world,
        plan,
        untold,
    }
}
