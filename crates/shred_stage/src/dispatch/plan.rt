//! The plan that a dispatcher runs: stages, one after the other.
ghost use Rattle.std.specs.Option.{option_map};
ghost use Rattle.std.specs.Prelude.{◌≡◌, Err, IfSome};
ghost use Rattle.shred_stage.specs.SinkTexts.{PutsPlan};
ghost use Rattle.shred_stage.specs.Setups.{StageDisposalAt};
ghost use Rattle.shred_stage.specs.Situations.{dispatch_answer};
ghost use Rattle.shred_stage.specs.Lookups.{IsSystemOf, plan_system};
ghost use Rattle.shred_stage.specs.StagePlan.{plan_of, widest};
ghost use Rattle.shred_world.specs.Between.{LeavesWorld};
ghost use Rattle.shred_stage.specs.OverWorlds.{PlanDispatchedLocally, PlanDisposed, PlanSetUp};

use crate::dispatch::dispatch_error::DispatchError;
use crate::dispatch::printing::{PrintError, print};
use crate::dispatch::sink::PlanSink;
use crate::dispatch::stage::Stage;
use shred_kept::StageCrew;
use shred_run::first::first;
use shred_run::{BatchController, NoBatch, StageFault, System, SystemId};
use shred_world::{LocalWorld, ResourceValue, World};
use std::collections::HashMap;
use std::sync::Wait;
use std::thread::Threads;

/// Stages that run one after the other.
#[derive(Drop)]
pub struct Plan<
    V: ResourceValue,
    S: System<V>,
    C: BatchController<V> = NoBatch<<S as System<V>>::Error>,
> {
    pub stages: Vec<Stage<V, S, C>>,
}

/// A dispatch's error for the fault of its stage at this place.
pub fn at_stage<E>(stage: usize, fault: StageFault<E>) -> DispatchError<E>
    ensures { Err result ≡ dispatch_answer stage (Err fault) }
{
    match fault {
        StageFault::System { id, fault } => DispatchError::System { id, fault },
        StageFault::Memory => DispatchError::StageMemory { stage },
    }
}

impl<V: ResourceValue, S: System<V>, C: BatchController<V>> Plan<V, S, C> {
    /// The greatest number of groups in a stage, 0 where there is none.
    pub fn max_threads(&self) -> usize
        ensures { result ≡ widest (plan_of self.now.stages.items) }
    {
        let mut most: usize = 0;
        for place in 0..self.stages.len() {
            most = most.max(self.stages[place].max_threads());
        }
        most
    }

    /// The system of this id, if the plan has it, and it is no batch. One that stands in a batch is not looked for.
    pub fn system(&self, id: SystemId) -> Option<&S>
        ensures first { option_map (λ system. system.now) result ≡ plan_system id.0 self.now.stages.items }
        ensures stands { IfSome result (λ system. IsSystemOf self.now.stages.items id.0 system.now) }
    {
        for stage in &self.stages {
            let system = stage.system(id);
            if system.is_some() {
                return system;
            }
        }
        None
    }

    /// Puts the plan's text and what follows it into the sink, with these names. Where a system has no name, nothing is put,
    /// and the answer is `Unnamed` with the first such id in the plan's order. Where the sink fails, it is `Write`, and a
    /// beginning of the text was put. It takes no memory.
    pub fn print<W: PlanSink>(
        &self,
        sink: &mut W,
        names: &HashMap<String, SystemId>,
        end: &[u8],
    ) -> Result<(), PrintError>
        ensures { PutsPlan W.PlanSink names.now (plan_of self.now.stages.items) end.now sink.old sink.new result }
    {
        print(sink, names, &self.stages, end)
    }
}

impl<
    V: ResourceValue + Drop,
    S: System<V, Error = E>,
    C: BatchController<V, Error = E>,
    E: Drop,
> Plan<V, S, C> {
    /// Runs the stages, one after the other, up to the first that is not Done, on the caller's thread.
    pub fn run_in_order(&mut self, world: &mut LocalWorld<V>) -> Result<(), DispatchError<E>>
        ensures { PlanDispatchedLocally self.old world.old result self.new world.new }
    {
        for place in 0..self.stages.len() {
            if let Err(fault) = self.stages[place].turn_in_order(world) {
                return Err(at_stage(place, fault));
            }
        }
        Ok(())
    }
}

impl<
    V: ResourceValue + Drop + Send + Sync,
    S: System<V, Error = E> + Send,
    C: BatchController<V, Error = E> + Send,
    E: Drop + Send,
> Plan<V, S, C>
where
    S::Accessor: Send,
    C::Accessor: Send,
{
    /// The same, the groups of each stage, and of each stage of an inner plan, beside each other on at most `workers` threads,
    /// the caller's among them.
    pub fn run_beside<R: Threads + Sync>(
        &mut self,
        rt: &R,
        world: &mut LocalWorld<V>,
        workers: usize,
    ) -> Result<(), DispatchError<E>>
        ensures { PlanDispatchedLocally self.old world.old result self.new world.new }
    {
        for place in 0..self.stages.len() {
            if let Err(fault) = self.stages[place].turn_beside(rt, world, workers) {
                return Err(at_stage(place, fault));
            }
        }
        Ok(())
    }
}

impl<
    V: ResourceValue + Drop,
    S: System<V, Error = E> + Drop,
    C: BatchController<V, Error = E> + Drop,
    E: Drop,
> Plan<V, S, C> {
    /// Runs the stages, one after the other, up to the first that is not Done, the groups of each beside each other on the workers
    /// that are free and on the caller's thread.
    pub fn run_kept<R: Threads + Wait>(
        &mut self,
        crew: &mut StageCrew<R, V, S, C>,
        world: &mut LocalWorld<V>,
    ) -> Result<(), DispatchError<E>>
        ensures { PlanDispatchedLocally self.old world.old result self.new world.new }
    {
        for place in 0..self.stages.len() {
            if let Err(fault) = self.stages[place].turn_kept(crew, world) {
                return Err(at_stage(place, fault));
            }
        }
        Ok(())
    }

    /// Sets up what stands in the plan, in its order, up to the first that is not Done. What was done before it stays.
    pub fn setup(&mut self, world: &mut World<V>) -> Result<(), DispatchError<E>>
        ensures { PlanSetUp self.old world.old result self.new world.new }
    {
        for place in 0..self.stages.len() {
            if let Err(fault) = self.stages[place].setup(world) {
                return Err(at_stage(place, fault));
            }
        }
        Ok(())
    }

    /// Disposes of what stands in the plan, in its order, of all of it. The answer is the first that is not Done.
    pub fn dispose(self, world: &mut World<V>) -> Result<(), DispatchError<E>>
        ensures { PlanDisposed self world.old result world.new }
    {
        let mut answer = Ok(());
        let mut place = 0;
        for stage in self.stages {
            answer = first(answer, dispose_of_stage(place, stage, world));
            place += 1;
        }
        answer
    }
}

// The disposal of the stage at this place.
fn dispose_of_stage<
    V: ResourceValue + Drop,
    S: System<V, Error = E> + Drop,
    C: BatchController<V, Error = E> + Drop,
    E: Drop,
>(place: usize, stage: Stage<V, S, C>, world: &mut World<V>) -> Result<(), DispatchError<E>>
    ensures { LeavesWorld V.kind_of (StageDisposalAt S.disposes place stage) world.old result world.new }
{
    match stage.dispose(world) {
        Ok(()) => Ok(()),
        Err(fault) => Err(at_stage(place, fault)),
    }
}
