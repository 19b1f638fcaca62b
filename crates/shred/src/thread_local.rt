//! The thread-local systems of a dispatcher, and their runs, one after the other.
ghost use Rattle.std.specs.Prelude.{◌≡◌, ◌++◌, ◌∷◌, [], length, OnOk, OnErr};
ghost use Rattle.shred_run.specs.Alone.{KeepsKindsIn};
ghost use Rattle.shred.specs.LocalRuns.{LocalDisposal, LocalRanOver, LocalsRanOver, LocalsSetUpOver, LocalsDisposed, LocalSetUpOver};
ghost use Rattle.shred_world.specs.Worlds.{local_held};
ghost use Rattle.shred_world.specs.Between.{LeavesWorld};

use shred_run::RunNow;
use shred_run::first::first;
use shred_stage::DispatchError;
use shred_world::{LocalWorld, OutOfMemory, ResourceValue, World};
use std::alloc::Global;
use std::thread::Threads;

/// Systems that run over a whole world, in the order in which they were added.
#[derive(Drop)]
pub struct ThreadLocal<L> {
    systems: Vec<L>,
}

impl<L: Drop> ThreadLocal<L> {
    ghost use Rattle.shred.specs.ThreadLocals.{systems_of, ThreadLocalRan, ThreadLocalSetUp};

    /// No systems. It takes no memory.
    pub fn new(alloc: Global) -> Self
        ensures { systems_of result ≡ [] }
    {
        ThreadLocal {
            systems: Vec::new(alloc),
        }
    }

    /// Puts the system at the end. Where memory is refused, all is as before, and the system is dropped.
    pub fn push(&mut self, system: L) -> Result<(), OutOfMemory>
        ensures ok { OnOk result (systems_of self.new ≡ systems_of self.old ++ system ∷ []) }
        ensures err { OnErr result (systems_of self.new ≡ systems_of self.old) }
    {
        Ok(self.systems.push(system)?)
    }

    /// How many there are.
    pub fn len(&self) -> usize
        ensures { result ≡ length (systems_of self.now) }
    {
        self.systems.len()
    }

    /// Runs the systems, in order, up to the first that is not Done.
    pub fn run<R: Threads + Sync, V: ResourceValue>(
        &mut self,
        rt: &R,
        world: &mut LocalWorld<V>,
    ) -> Result<(), DispatchError<L::Error>>
    where
        L: RunNow<V>,
        ensures run { ThreadLocalRan V.kind_of L.runs self.old world.old result self.new world.new }
        ensures kinds { KeepsKindsIn local_held V.kind_of world.old world.new }
    {
        run_locals(rt, self.systems.as_mut_slice(), world)
    }

    /// Sets the systems up, in order, up to the first that is not Done.
    pub fn setup<V: ResourceValue>(
        &mut self,
        world: &mut World<V>,
    ) -> Result<(), DispatchError<L::Error>>
    where
        L: RunNow<V>,
        ensures { ThreadLocalSetUp V.kind_of L.sets_up self.old world.old result self.new world.new }
    {
        set_up_each(self.systems.as_mut_slice(), world)
    }

    /// Disposes of all systems, in order, and answers the first answer that is not Done.
    pub fn dispose<V: ResourceValue, E: Drop>(
        self,
        world: &mut World<V>,
    ) -> Result<(), DispatchError<E>>
    where
        L: RunNow<V, Error = E>,
        ensures { LocalsDisposed V.kind_of L.disposes (systems_of self) world.old result world.new }
    {
        dispose_of_each(self.systems, world)
    }
}

// The run of the system at this place.
fn run_one<R: Threads + Sync, V: ResourceValue, L: RunNow<V>>(
    rt: &R,
    index: usize,
    local: &mut L,
    world: &mut LocalWorld<V>,
) -> Result<(), DispatchError<L::Error>>
    ensures run { LocalRanOver V.kind_of L.runs index local.old world.old result local.new world.new }
    ensures kinds { KeepsKindsIn local_held V.kind_of world.old world.new }
{
    match local.run_now(rt, world) {
        Ok(()) => Ok(()),
        Err(fault) => Err(DispatchError::ThreadLocal { index, fault }),
    }
}

// The runs of the systems, in order, up to the first that is not Done.
fn run_locals<R: Threads + Sync, V: ResourceValue, L: RunNow<V>>(
    rt: &R,
    locals: &mut [L],
    world: &mut LocalWorld<V>,
) -> Result<(), DispatchError<L::Error>>
    ensures run { LocalsRanOver V.kind_of L.runs locals.old world.old result locals.new world.new }
    ensures kinds { KeepsKindsIn local_held V.kind_of world.old world.new }
{
    for (index, local) in locals.iter_mut().enumerate() {
        if let Err(error) = run_one(rt, index, local, world) {
            return Err(error);
        }
    }
    Ok(())
}

// The setup of the system at this place.
fn set_up_one<V: ResourceValue, L: RunNow<V>>(
    index: usize,
    local: &mut L,
    world: &mut World<V>,
) -> Result<(), DispatchError<L::Error>>
    ensures { LocalSetUpOver V.kind_of L.sets_up index local.old world.old result local.new world.new }
{
    match local.setup(world) {
        Ok(()) => Ok(()),
        Err(fault) => Err(DispatchError::ThreadLocal { index, fault }),
    }
}

// The setups of the systems, in order, up to the first that is not Done.
fn set_up_each<V: ResourceValue, L: RunNow<V>>(
    locals: &mut [L],
    world: &mut World<V>,
) -> Result<(), DispatchError<L::Error>>
    ensures { LocalsSetUpOver V.kind_of L.sets_up locals.old world.old result locals.new world.new }
{
    for (index, local) in locals.iter_mut().enumerate() {
        if let Err(error) = set_up_one(index, local, world) {
            return Err(error);
        }
    }
    Ok(())
}

// The disposal of the system at this place.
fn dispose_of<V: ResourceValue, L: RunNow<V>>(
    index: usize,
    local: L,
    world: &mut World<V>,
) -> Result<(), DispatchError<L::Error>>
    ensures { LeavesWorld V.kind_of (LocalDisposal L.disposes index local) world.old result world.new }
{
    match local.dispose(world) {
        Ok(()) => Ok(()),
        Err(fault) => Err(DispatchError::ThreadLocal { index, fault }),
    }
}

// The disposals of all systems, in order.
fn dispose_of_each<V: ResourceValue, L: RunNow<V, Error = E> + Drop, E: Drop>(
    locals: Vec<L>,
    world: &mut World<V>,
) -> Result<(), DispatchError<E>>
    ensures { LocalsDisposed V.kind_of L.disposes locals.items world.old result world.new }
{
    let mut answer = Ok(());
    let mut index = 0;
    for local in locals {
        answer = first(answer, dispose_of(index, local, world));
        index += 1;
    }
    answer
}
