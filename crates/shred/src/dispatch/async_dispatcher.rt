//! A dispatcher whose runs go on while its caller does other things.
ghost use Rattle.std.specs.Prelude.{◌≡◌, Ok};
ghost use Rattle.shred.specs.AsyncState.{home};
ghost use Rattle.shred.specs.AsyncDispatchers.{over, state_of};
ghost use Rattle.shred.specs.AsyncSteps.{IsAtRest, SaysRunning};
ghost use Rattle.shred.specs.AsyncOver.{AsyncJoins, AsyncDispatches, AsyncWaitsWithoutLocals, AsyncWaits, AsyncRunsLocals, AsyncSetsUp};

use crate::dispatch::async_error::{AsyncError, as_told};
use crate::dispatch::async_place::{Place, begin};
use crate::dispatch::async_run::{Home, join_run};
use crate::dispatch::dispatcher::set_up_both;
use crate::thread_local::ThreadLocal;
use shred_run::{BatchController, NoBatch, Now, RunNow, System};
use shred_stage::{Plan, Stage};
use shred_world::{ResourceValue, World};
use std::mem;
use std::sync::atomic::Ordering;
use std::thread::Threads;

/// Runs the stages of a plan over a world on a thread of its own, and the thread-local systems on the caller's. Where it is
/// dropped while a run is out, that run goes on, and what it leaves is never dropped: wait first.
#[derive(Drop)]
pub struct AsyncDispatcher<
    V: ResourceValue,
    S: System<V>,
    C: BatchController<V, Error = <S as System<V>>::Error> = NoBatch<<S as System<V>>::Error>,
    L = Now<S>,
> {
    pub(crate) place: Place<V, S, C>,
    pub(crate) thread_local: ThreadLocal<L>,
    pub(crate) workers: usize,
}

/// The asynchronous dispatcher of these stages over this world, each of which runs on at most that many threads, and of
/// these thread-local systems. It takes no memory; what a dispatch takes is of the allocator of the stages.
pub fn new_async<V: ResourceValue, S: System<V, Error = E>, C: BatchController<V, Error = E>, L, E>(
    world: World<V>,
    stages: Vec<Stage<V, S, C>>,
    thread_local: ThreadLocal<L>,
    workers: usize,
) -> AsyncDispatcher<V, S, C, L>
    ensures { state_of V.kind_of result ≡ home (over V.kind_of (record { stages = stages }) thread_local workers world) (Ok tt) }
{
    AsyncDispatcher {
        place: Place::Home(Home {
            world,
            plan: Plan { stages },
            untold: Ok(()),
        }),
        thread_local,
        workers,
    }
}

impl<
    V: ResourceValue + Drop,
    S: System<V, Error = E> + Drop,
    C: BatchController<V, Error = E> + Drop,
    L,
    E: Drop,
> AsyncDispatcher<V, S, C, L> {
    // Waits for the run that is out, where one is, and takes home what it left.
    pub(crate) fn join<R: Threads>(&mut self, rt: &R)
        ensures { AsyncJoins self.old self.new }
    {
        match mem::replace(&mut self.place, Place::Lost) {
            Place::Out(run) => self.place = Place::Home(join_run(rt, run)),
            other => self.place = other,
        }
    }

    /// Waits for the run that is out, where one is, and tells a refusal that was not told yet: that of the last run. It runs no
    /// thread-local system. `Lost` where a run could not be started before.
    pub fn wait_without_tl<R: Threads>(&mut self, rt: &R) -> Result<(), AsyncError<E>>
        ensures { AsyncWaitsWithoutLocals self.old result self.new }
    {
        self.join(rt);
        match &mut self.place {
            Place::Home(home) => as_told(mem::replace(&mut home.untold, Ok(()))),
            Place::Out(_) => unreachable!(),
            Place::Lost => Err(AsyncError::Lost),
        }
    }

    /// Whether a run goes on that has not come to its end. It waits for nobody. What it says while a run is out no clause
    /// tells, but that it is no refusal; `Lost` where a run could not be started before.
    pub fn running(&mut self) -> Result<bool, AsyncError<E>>
        ensures answer { SaysRunning (state_of V.kind_of self.old) result }
        ensures state { state_of V.kind_of self.new ≡ state_of V.kind_of self.old }
    {
        match &self.place {
            Place::Home(_) => Ok(false),
            Place::Out(run) => Ok(!run.is_done.load(Ordering::SeqCst)),
            Place::Lost => Err(AsyncError::Lost),
        }
    }
}

impl<
    V: ResourceValue + Drop,
    S: System<V, Error = E> + Drop,
    C: BatchController<V, Error = E> + Drop,
    L: RunNow<V, Error = E> + Drop,
    E: Drop,
> AsyncDispatcher<V, S, C, L> {
    /// Waits for the run that is out, where one is, and sets up what stands in the plan, in its order, and then the
    /// thread-local systems, up to the first that is not Done, which the answer tells. What was done before it stays, and a
    /// refusal of the last run that was not told yet stays so. `Lost` where a run could not be started before.
    pub fn setup<R: Threads>(&mut self, rt: &R) -> Result<(), AsyncError<E>>
        ensures { AsyncSetsUp L.sets_up self.old result self.new }
    {
        self.join(rt);
        match &mut self.place {
            Place::Home(home) => as_told(set_up_both(
                &mut home.plan,
                &mut self.thread_local,
                &mut home.world,
            )),
            Place::Out(_) => unreachable!(),
            Place::Lost => Err(AsyncError::Lost),
        }
    }

    /// Waits for the run that is out, where one is, and tells a refusal that was not told yet: that of the last run. Where there
    /// is none, it runs the thread-local systems on the caller's thread, one after the other, up to the first that is not
    /// Done, which the answer tells; also where nothing was dispatched. `Lost` where a run could not be started before.
    pub fn wait<R: Threads + Sync>(&mut self, rt: &R) -> Result<(), AsyncError<E>>
        ensures { AsyncWaits L.runs self.old result self.new }
    {
        if let Err(told) = self.wait_without_tl(rt) {
            return Err(told);
        }
        self.run_locals(rt)
    }

    // Runs the thread-local systems over the world that is home.
    fn run_locals<R: Threads + Sync>(&mut self, rt: &R) -> Result<(), AsyncError<E>>
        requires { IsAtRest (state_of V.kind_of self.old) }
        ensures { AsyncRunsLocals L.runs self.old result self.new }
    {
        match &mut self.place {
            Place::Home(home) => as_told(self.thread_local.run(rt, home.world.local())),
            _ => unreachable!(),
        }
    }
}

impl<
    V: ResourceValue + Drop + Send + Sync + 'static,
    S: System<V, Error = E> + Drop + Send + 'static,
    C: BatchController<V, Error = E> + Drop + Send + 'static,
    L,
    E: Drop + Send + 'static,
> AsyncDispatcher<V, S, C, L>
where
    S::Accessor: Send + 'static,
    C::Accessor: Send + 'static,
{
    /// Waits for the run that is out, where one is, and tells a refusal that was not told yet: that of the last run; it then
    /// begins nothing. Where there is none, it begins a run of the stages on a thread of its own, and does not wait for it.
    /// It runs no thread-local system. `Lost` where the run could not be started, since its thread or the memory for its
    /// start was refused, and where one could not be started before.
    pub fn dispatch<R: Threads + Sync + Clone + Send + 'static>(
        &mut self,
        rt: &R,
    ) -> Result<(), AsyncError<E>>
        ensures { AsyncDispatches self.old result self.new }
    {
        if let Err(refused) = self.wait_without_tl(rt) {
            return Err(refused);
        }
        if begin(rt, &mut self.place, self.workers) {
            Ok(())
        } else {
            Err(AsyncError::Lost)
        }
    }
}
