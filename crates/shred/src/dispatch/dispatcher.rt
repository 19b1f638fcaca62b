//! The dispatcher: it runs a plan, and then the thread-local systems.
ghost use Rattle.std.specs.Option.{option_map};
ghost use Rattle.std.specs.Prelude.{◌≡◌, IfSome};
ghost use Rattle.shred_model.specs.Record.{Agent};
ghost use Rattle.shred_run.specs.Alone.{KeepsKindsIn};
ghost use Rattle.shred_run.specs.Depths.{steps_of};
ghost use Rattle.shred_run.specs.WorkSetups.{setups_of};
ghost use Rattle.shred_stage.specs.Lookups.{IsSystemOf, plan_system};
ghost use Rattle.shred_stage.specs.Names.{AreNames};
ghost use Rattle.shred_stage.specs.Plans.{plan_states};
ghost use Rattle.shred.specs.PrintedPlans.{PrintsDispatcher};
ghost use Rattle.shred_stage.specs.StagePlan.{plan_of, widest};
ghost use Rattle.shred.specs.Dispatchers.{dispatcher_locals, dispatcher_plan, dispatcher_states, dispatcher_workers};
ghost use Rattle.shred.specs.FullRuns.{IsRefusedBy, RunsNow, whole_with};
ghost use Rattle.shred.specs.Setups.{DisposesNow, SetsUpNow};
ghost use Rattle.shred.specs.SystemNames.{names_known, names_pairs};
ghost use Rattle.shred.specs.ThreadLocals.{systems_of};
ghost use Rattle.shred_world.specs.Worlds.{local_held, world_held};
ghost use Rattle.shred.specs.OverWorlds.{AllDispatched, AllDispatchedLocally, BothSetUp, DispatcherDisposed, DispatcherRan, DispatcherSetUp, StagesDispatched, LocalsDispatched};
ghost use Rattle.shred_stage.specs.Added.{AreSame};

use crate::dispatch::names::SystemNames;
use crate::thread_local::ThreadLocal;
use shred_run::first::first;
use shred_run::{BatchController, Fault, NoBatch, Now, RunNow, System, SystemId};
use shred_stage::{DispatchError, Plan, PlanSink, PrintError, Stage};
use shred_world::{LocalWorld, ResourceValue, World};
use std::thread::Threads;

/// Runs the stages of a plan over a world, and then the thread-local systems.
#[derive(Drop)]
pub struct Dispatcher<
    V: ResourceValue,
    S: System<V>,
    C: BatchController<V> = NoBatch<<S as System<V>>::Error>,
    L = Now<S>,
> {
    pub(crate) plan: Plan<V, S, C>,
    pub(crate) thread_local: ThreadLocal<L>,
    pub(crate) workers: usize,
}

/// The dispatcher of these stages, each of which runs on at most that many threads, and of these thread-local systems. It
/// takes no memory.
pub fn new_dispatcher<V: ResourceValue, S: System<V>, C: BatchController<V>, L>(
    stages: Vec<Stage<V, S, C>>,
    thread_local: ThreadLocal<L>,
    workers: usize,
) -> Dispatcher<V, S, C, L>
    ensures plan { dispatcher_plan result ≡ plan_of stages.items }
    ensures states { (path : Agent) → dispatcher_states result path ≡ plan_states stages.items path }
    ensures locals { dispatcher_locals result ≡ systems_of thread_local }
    ensures workers { dispatcher_workers result ≡ workers }
{
    Dispatcher {
        plan: Plan { stages },
        thread_local,
        workers,
    }
}

impl<V: ResourceValue, S: System<V>, C: BatchController<V>, L> Dispatcher<V, S, C, L> {
    /// The greatest number of groups in a stage, 0 where there is none.
    pub fn max_threads(&self) -> usize
        ensures { result ≡ widest (dispatcher_plan self.now) }
    {
        self.plan.max_threads()
    }

    /// The plan that it runs.
    pub fn plan(&self) -> &Plan<V, S, C>
        ensures { result.now ≡ self.now.plan }
    {
        &self.plan
    }

    /// The system of this id, as its runs have left it, if the plan has it, and it is no batch. What stands in a batch is not
    /// looked for, and a thread-local system has no id.
    pub fn system(&self, id: SystemId) -> Option<&S>
        ensures first { option_map (λ system. system.now) result ≡ plan_system id.0 self.now.plan.stages.items }
        ensures stands { IfSome result (λ system. IsSystemOf self.now.plan.stages.items id.0 system.now) }
    {
        self.plan.system(id)
    }

    /// Puts the plan's text and a line feed into the sink, with the names of the builder. Where a system has no name,
    /// nothing is put, and the answer is `Unnamed` with the first such id in the plan's order. Where the sink fails, it is
    /// `Write`, and a beginning of the text was put. It takes no memory.
    pub fn print_par_seq<W: PlanSink>(
        &self,
        sink: &mut W,
        names: &SystemNames,
    ) -> Result<(), PrintError>
        ensures printed { PrintsDispatcher W.PlanSink self.now names.now sink.old sink.new result }
        ensures names { AreNames (names_pairs names.now) (names_known names.now) }
    {
        self.plan.print(sink, &names.names, b"\n")
    }
}

// The setup of a plan, and where that was Done of these thread-local systems.
pub(crate) fn set_up_both<
    V: ResourceValue + Drop,
    S: System<V, Error = E> + Drop,
    C: BatchController<V, Error = E> + Drop,
    L: RunNow<V, Error = E> + Drop,
    E: Drop,
>(
    plan: &mut Plan<V, S, C>,
    thread_local: &mut ThreadLocal<L>,
    world: &mut World<V>,
) -> Result<(), DispatchError<E>>
    ensures { BothSetUp L.sets_up plan.old thread_local.old world.old result plan.new thread_local.new world.new }
{
    match plan.setup(world) {
        Ok(()) => thread_local.setup(world),
        Err(error) => Err(error),
    }
}

// A dispatch's answer, as the outcome of one run.
pub(crate) fn as_run<E>(answer: Result<(), DispatchError<E>>) -> Result<(), Fault<DispatchError<E>>>
    ensures { IsRefusedBy answer result }
{
    match answer {
        Ok(()) => Ok(()),
        Err(error) => Err(Fault::Refused(error)),
    }
}

impl<V: ResourceValue, S: System<V>, C: BatchController<V>, L: RunNow<V> + Drop> Dispatcher<
    V,
    S,
    C,
    L,
> {
    /// Runs the thread-local systems over the world, one after the other, up to the first that is not Done, on the caller's
    /// thread.
    pub fn dispatch_thread_local<R: Threads + Sync>(
        &mut self,
        rt: &R,
        world: &mut World<V>,
    ) -> Result<(), DispatchError<L::Error>>
        ensures run { LocalsDispatched L.runs self.old world.old result self.new world.new }
        ensures kinds { KeepsKindsIn world_held V.kind_of world.old world.new }
        ensures plan { dispatcher_plan self.new ≡ dispatcher_plan self.old }
        ensures states { AreSame (dispatcher_states self.old) (dispatcher_states self.new) }
        ensures workers { dispatcher_workers self.new ≡ dispatcher_workers self.old }
    {
        self.thread_local.run(rt, world.local())
    }
}

impl<
    V: ResourceValue + Drop,
    S: System<V, Error = E>,
    C: BatchController<V, Error = E>,
    L,
    E: Drop,
> Dispatcher<V, S, C, L> {
    /// Runs the stages, one after the other, up to the first that is not Done, on the caller's thread, and so inner plans. It
    /// takes no memory but what its systems and controllers take.
    pub fn dispatch_seq(&mut self, world: &mut World<V>) -> Result<(), DispatchError<E>>
        ensures dispatched { StagesDispatched self.old world.old result self.new world.new }
        ensures locals { dispatcher_locals self.new ≡ dispatcher_locals self.old }
        ensures workers { dispatcher_workers self.new ≡ dispatcher_workers self.old }
    {
        self.plan.run_in_order(world.local())
    }
}

impl<
    V: ResourceValue + Drop,
    S: System<V, Error = E> + Drop,
    C: BatchController<V, Error = E> + Drop,
    L: RunNow<V, Error = E> + Drop,
    E: Drop,
> Dispatcher<V, S, C, L> {
    /// Sets up what stands in the plan, in its order, and then the thread-local ones, up to the first that is not Done,
    /// which the answer tells. What was done before it stays.
    pub fn setup(&mut self, world: &mut World<V>) -> Result<(), DispatchError<E>>
        ensures { DispatcherSetUp L.sets_up self.old world.old result self.new world.new }
    {
        set_up_both(&mut self.plan, &mut self.thread_local, world)
    }

    /// Disposes of what stands in the plan, in its order, and then of the thread-local ones, of all of them. The answer
    /// tells the first that is not Done.
    pub fn dispose(self, world: &mut World<V>) -> Result<(), DispatchError<E>>
        ensures { DispatcherDisposed L.disposes self world.old result world.new }
    {
        let staged = self.plan.dispose(world);
        first(staged, self.thread_local.dispose(world))
    }
}

impl<
    V: ResourceValue + Drop,
    S: System<V, Error = E>,
    C: BatchController<V, Error = E>,
    L: RunNow<V, Error = E> + Drop,
    E: Drop,
> Dispatcher<V, S, C, L> {
    // `dispatch` on the caller's thread, over what a world holds.
    fn dispatch_in_order<R: Threads + Sync>(
        &mut self,
        rt: &R,
        world: &mut LocalWorld<V>,
    ) -> Result<(), DispatchError<E>>
        ensures dispatched { AllDispatchedLocally L.runs self.old world.old result self.new world.new }
        ensures kinds { KeepsKindsIn local_held V.kind_of world.old world.new }
    {
        match self.plan.run_in_order(world) {
            Ok(()) => self.thread_local.run(rt, world),
            Err(error) => Err(error),
        }
    }
}

impl<
    V: ResourceValue + Drop,
    S: System<V, Error = E> + Drop,
    C: BatchController<V, Error = E> + Drop,
    L: RunNow<V, Error = E> + Drop,
    E: Drop,
> RunNow<V> for Dispatcher<V, S, C, L> {
    type Error = DispatchError<E>;

    ghost runs = { λ old before outcome new after. RunsNow V.kind_of (steps_of S.System C.BatchController) L.runs (whole_with old before) outcome (whole_with new after) };

    ghost sets_up = { λ old before outcome new after. SetsUpNow (setups_of S.System C.BatchController) L.sets_up (whole_with old before) outcome (whole_with new after) };

    ghost disposes = { λ old before outcome after. DisposesNow S.disposes L.disposes (whole_with old before) outcome after };

    fn run_now<R: Threads + Sync>(
        &mut self,
        rt: &R,
        world: &mut LocalWorld<V>,
    ) -> Result<(), Fault<DispatchError<E>>> {
        as_run(self.dispatch_in_order(rt, world))
    }

    fn setup(&mut self, world: &mut World<V>) -> Result<(), Fault<DispatchError<E>>> {
        as_run(self.setup(world))
    }

    fn dispose(self, world: &mut World<V>) -> Result<(), Fault<DispatchError<E>>> {
        as_run(self.dispose(world))
    }
}

impl<
    V: ResourceValue + Drop + Send + Sync,
    S: System<V, Error = E> + Send,
    C: BatchController<V, Error = E> + Send,
    L,
    E: Drop + Send,
> Dispatcher<V, S, C, L>
where
    S::Accessor: Send,
    C::Accessor: Send,
{
    /// Runs the stages, one after the other, up to the first that is not Done, the groups of each beside each other on at
    /// most as many threads as the dispatcher was given, the caller's among them. A batch hands that number on to its inner
    /// plan. A half whose thread cannot be started runs on the thread that would have started it.
    pub fn dispatch_par<R: Threads + Sync>(
        &mut self,
        rt: &R,
        world: &mut World<V>,
    ) -> Result<(), DispatchError<E>>
        ensures dispatched { StagesDispatched self.old world.old result self.new world.new }
        ensures locals { dispatcher_locals self.new ≡ dispatcher_locals self.old }
        ensures workers { dispatcher_workers self.new ≡ dispatcher_workers self.old }
    {
        self.plan.run_beside(rt, world.local(), self.workers)
    }
}

impl<
    V: ResourceValue + Drop + Send + Sync,
    S: System<V, Error = E> + Send,
    C: BatchController<V, Error = E> + Send,
    L: RunNow<V, Error = E> + Drop,
    E: Drop + Send,
> Dispatcher<V, S, C, L>
where
    S::Accessor: Send,
    C::Accessor: Send,
{
    // `dispatch`, over what a world holds.
    fn dispatch_beside<R: Threads + Sync>(
        &mut self,
        rt: &R,
        world: &mut LocalWorld<V>,
    ) -> Result<(), DispatchError<E>>
        ensures dispatched { AllDispatchedLocally L.runs self.old world.old result self.new world.new }
        ensures kinds { KeepsKindsIn local_held V.kind_of world.old world.new }
    {
        match self.plan.run_beside(rt, world, self.workers) {
            Ok(()) => self.thread_local.run(rt, world),
            Err(error) => Err(error),
        }
    }

    /// `dispatch_par` and then, where that was Done, `dispatch_thread_local`.
    pub fn dispatch<R: Threads + Sync>(
        &mut self,
        rt: &R,
        world: &mut World<V>,
    ) -> Result<(), DispatchError<E>>
        ensures dispatched { AllDispatched L.runs self.old world.old result self.new world.new }
        ensures kinds { KeepsKindsIn world_held V.kind_of world.old world.new }
    {
        self.dispatch_beside(rt, world.local())
    }

    /// `dispatch`, over what a world holds, with each refusal as `Refused`. The `RunNow` of a dispatcher runs the same plan
    /// on the caller's thread.
    pub fn run_now<R: Threads + Sync>(
        &mut self,
        rt: &R,
        world: &mut LocalWorld<V>,
    ) -> Result<(), Fault<DispatchError<E>>>
        ensures run { DispatcherRan L.runs self.old world.old result self.new world.new }
        ensures kinds { KeepsKindsIn local_held V.kind_of world.old world.new }
    {
        as_run(self.dispatch_beside(rt, world))
    }
}
