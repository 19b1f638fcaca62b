//! A dispatcher whose stages run on workers that are kept.
ghost use Rattle.std.specs.Option.{option_map};
ghost use Rattle.std.specs.Prelude.{◌≡◌, IfErr, IfOk, IfSome};
ghost use Rattle.shred_run.specs.Alone.{KeepsKindsIn};
ghost use Rattle.shred_run.specs.Depths.{steps_of};
ghost use Rattle.shred_run.specs.WorkSetups.{setups_of};
ghost use Rattle.shred.specs.Dispatchers.{dispatcher_locals, dispatcher_workers};
ghost use Rattle.shred.specs.FullRuns.{RunsNow, whole_with};
ghost use Rattle.shred.specs.KeptDispatchers.{dispatcher_of, KeepsLocals, KeepsWorkers};
ghost use Rattle.shred.specs.Setups.{DisposesNow, SetsUpNow};
ghost use Rattle.shred_stage.specs.Lookups.{IsSystemOf, plan_system};
ghost use Rattle.shred_world.specs.Worlds.{local_held, world_held};
ghost use Rattle.shred.specs.OverWorlds.{AllKeptDispatched, AllKeptDispatchedLocally, DispatcherDisposed, KeptSetUp, KeptStagesDispatched, StagesDispatchedLocally};

use crate::dispatch::dispatcher::{Dispatcher, as_run};
use shred_kept::StageCrew;
use shred_run::{BatchController, Fault, NoBatch, Now, RunNow, System, SystemId};
use shred_stage::DispatchError;
use shred_world::{LocalWorld, ResourceValue, World};
use std::alloc::{AllocFailed, Global};
use std::sync::Wait;
use std::thread::Threads;

/// Runs the stages of a plan over a world on workers that are kept, and then the thread-local systems on the caller's thread. Dropping it
/// ends the workers, and waits until they have ended.
#[derive(Drop)]
pub struct KeptDispatcher<
    R: Threads + Wait,
    V: ResourceValue,
    S: System<V>,
    C: BatchController<V, Error = <S as System<V>>::Error> = NoBatch<<S as System<V>>::Error>,
    L = Now<S>,
> {
    dispatcher: Dispatcher<V, S, C, L>,
    crew: StageCrew<R, V, S, C>,
}

impl<
    V: ResourceValue + Drop,
    S: System<V, Error = E> + Drop,
    C: BatchController<V, Error = E> + Drop,
    L,
    E: Drop,
> Dispatcher<V, S, C, L> {
    // `dispatch_par` on workers that are kept, over what a world holds.
    fn run_on<R: Threads + Wait>(
        &mut self,
        crew: &mut StageCrew<R, V, S, C>,
        world: &mut LocalWorld<V>,
    ) -> Result<(), DispatchError<E>>
        ensures dispatched { StagesDispatchedLocally self.old world.old result self.new world.new }
        ensures locals { dispatcher_locals self.new ≡ dispatcher_locals self.old }
        ensures workers { dispatcher_workers self.new ≡ dispatcher_workers self.old }
    {
        self.plan.run_kept(crew, world)
    }
}

impl<
    V: ResourceValue + Drop + Send + Sync + 'static,
    S: System<V, Error = E> + Drop + Send + 'static,
    C: BatchController<V, Error = E> + Drop + Send + 'static,
    L,
    E: Drop + Send + 'static,
> Dispatcher<V, S, C, L>
where
    S::Accessor: Send + 'static,
    C::Accessor: Send + 'static,
{
    /// The dispatcher with workers that are kept: as many threads as it was given, the caller's among them. Who waits, a worker or the
    /// caller, looks `looks` times before it sleeps. A worker that cannot be started is one fewer. Where memory is refused, the dispatcher
    /// comes back.
    pub fn keep<R: Threads + Wait + Clone + Send + 'static>(
        self,
        rt: &R,
        alloc: Global,
        looks: u32,
    ) -> Result<KeptDispatcher<R, V, S, C, L>, AllocFailed<Dispatcher<V, S, C, L>>>
        ensures kept { IfOk result (λ kept. dispatcher_of kept ≡ self) }
        ensures back { IfErr result (λ refused. refused.value ≡ self) }
    {
        match StageCrew::start(rt, alloc, self.workers.saturating_sub(1), looks) {
            Ok(crew) => Ok(KeptDispatcher {
                dispatcher: self,
                crew,
            }),
            Err(_) => Err(AllocFailed { value: self }),
        }
    }
}

impl<
    R: Threads + Wait + Drop,
    V: ResourceValue + Drop,
    S: System<V, Error = E> + Drop,
    C: BatchController<V, Error = E> + Drop,
    L,
    E: Drop,
> KeptDispatcher<R, V, S, C, L> {
    /// Runs the stages, one after the other, up to the first that is not Done, the groups of each beside each other on the workers that
    /// are free and on the caller's thread.
    pub fn dispatch_par(&mut self, world: &mut World<V>) -> Result<(), DispatchError<E>>
        ensures dispatched { KeptStagesDispatched self.old world.old result self.new world.new }
        ensures locals { KeepsLocals self.old self.new }
        ensures workers { KeepsWorkers self.old self.new }
    {
        self.dispatcher.run_on(&mut self.crew, world.local())
    }

    /// The system of this id, as `Dispatcher::system` lends it.
    pub fn system(&self, id: SystemId) -> Option<&S>
        ensures first { option_map (λ system. system.now) result ≡ plan_system id.0 (dispatcher_of self.now).plan.stages.items }
        ensures stands { IfSome result (λ system. IsSystemOf (dispatcher_of self.now).plan.stages.items id.0 system.now) }
    {
        self.dispatcher.system(id)
    }

    /// The dispatcher, without its workers, which end.
    pub fn into_dispatcher(self) -> Dispatcher<V, S, C, L>
        ensures { result ≡ dispatcher_of self }
    {
        let KeptDispatcher {
            dispatcher,
            crew: _,
        } = self;
        dispatcher
    }
}

impl<
    R: Threads + Wait + Drop,
    V: ResourceValue + Drop,
    S: System<V, Error = E> + Drop,
    C: BatchController<V, Error = E> + Drop,
    L: RunNow<V, Error = E> + Drop,
    E: Drop,
> KeptDispatcher<R, V, S, C, L> {
    // `dispatch`, over what a world holds.
    fn dispatch_local<T: Threads + Sync>(
        &mut self,
        rt: &T,
        world: &mut LocalWorld<V>,
    ) -> Result<(), DispatchError<E>>
        ensures dispatched { AllKeptDispatchedLocally L.runs self.old world.old result self.new world.new }
        ensures kinds { KeepsKindsIn local_held V.kind_of world.old world.new }
    {
        match self.dispatcher.run_on(&mut self.crew, world) {
            Ok(()) => self.dispatcher.thread_local.run(rt, world),
            Err(error) => Err(error),
        }
    }

    /// `dispatch_par` and then, where that was Done, the thread-local systems, one after the other, up to the first that is not Done.
    pub fn dispatch<T: Threads + Sync>(
        &mut self,
        rt: &T,
        world: &mut World<V>,
    ) -> Result<(), DispatchError<E>>
        ensures dispatched { AllKeptDispatched L.runs self.old world.old result self.new world.new }
        ensures kinds { KeepsKindsIn world_held V.kind_of world.old world.new }
    {
        self.dispatch_local(rt, world.local())
    }

    /// Sets up what stands in the plan, in its order, and then the thread-local ones, up to the first that is not Done, which the answer
    /// tells. What was done before it stays.
    pub fn setup(&mut self, world: &mut World<V>) -> Result<(), DispatchError<E>>
        ensures { KeptSetUp L.sets_up self.old world.old result self.new world.new }
    {
        self.dispatcher.setup(world)
    }

    /// Ends the workers, and disposes of what stands in the plan, in its order, and then of the thread-local ones, of all of them. The
    /// answer tells the first that is not Done.
    pub fn dispose(self, world: &mut World<V>) -> Result<(), DispatchError<E>>
        ensures { DispatcherDisposed L.disposes (dispatcher_of self) world.old result world.new }
    {
        self.into_dispatcher().dispose(world)
    }
}

impl<
    R: Threads + Wait + Drop,
    V: ResourceValue + Drop,
    S: System<V, Error = E> + Drop,
    C: BatchController<V, Error = E> + Drop,
    L: RunNow<V, Error = E> + Drop,
    E: Drop,
> RunNow<V> for KeptDispatcher<R, V, S, C, L> {
    type Error = DispatchError<E>;

    ghost runs = { λ old before outcome new after. RunsNow V.kind_of (steps_of S.System C.BatchController) L.runs (whole_with (dispatcher_of old) before) outcome (whole_with (dispatcher_of new) after) };

    ghost sets_up = { λ old before outcome new after. SetsUpNow (setups_of S.System C.BatchController) L.sets_up (whole_with (dispatcher_of old) before) outcome (whole_with (dispatcher_of new) after) };

    ghost disposes = { λ old before outcome after. DisposesNow S.disposes L.disposes (whole_with (dispatcher_of old) before) outcome after };

    fn run_now<T: Threads + Sync>(
        &mut self,
        rt: &T,
        world: &mut LocalWorld<V>,
    ) -> Result<(), Fault<DispatchError<E>>> {
        as_run(self.dispatch_local(rt, world))
    }

    fn setup(&mut self, world: &mut World<V>) -> Result<(), Fault<DispatchError<E>>> {
        as_run(self.setup(world))
    }

    fn dispose(self, world: &mut World<V>) -> Result<(), Fault<DispatchError<E>>> {
        as_run(self.dispose(world))
    }
}
