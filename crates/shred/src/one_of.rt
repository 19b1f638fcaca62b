//! One of two systems, so that systems of different types share a dispatcher.
ghost use Rattle.shred.specs.Made.{of_either, StepsEither, EndsEither};

use shred_run::{Fault, RunningTime, System};
use shred_world::{Accessor, OutOfMemory, ResourceId, ResourceValue, View, World};
use std::alloc::Global;

/// A system, or an accessor, of one of two types. It nests: `OneOf<A, OneOf<B, C>>` is one of three.
#[derive(Drop)]
pub enum OneOf<A, B> {
    First(A),
    Second(B),
}

impl<A: Accessor, B: Accessor> Accessor for OneOf<A, B> {
    ghost reads = { of_either A.reads B.reads };

    ghost writes = { of_either A.writes B.writes };

    fn reads(&self, alloc: Global) -> Result<Vec<ResourceId>, OutOfMemory> {
        match self {
            OneOf::First(first) => first.reads(alloc),
            OneOf::Second(second) => second.reads(alloc),
        }
    }

    fn writes(&self, alloc: Global) -> Result<Vec<ResourceId>, OutOfMemory> {
        match self {
            OneOf::First(first) => first.writes(alloc),
            OneOf::Second(second) => second.writes(alloc),
        }
    }
}

impl<V: ResourceValue, A: System<V, Error = E>, B: System<V, Error = E>, E> System<V>
    for OneOf<A, B> {
    type Error = E;

    type Accessor = OneOf<A::Accessor, B::Accessor>;

    ghost reads = { of_either A.reads B.reads };

    ghost writes = { of_either A.writes B.writes };

    ghost time = { of_either A.time B.time };

    ghost step = { StepsEither A.step B.step };

    ghost sets_up = { StepsEither A.sets_up B.sets_up };

    ghost disposes = { EndsEither A.disposes B.disposes };

    fn run(&mut self, view: &mut View<V>) -> Result<(), Fault<E>> {
        match self {
            OneOf::First(first) => first.run(view),
            OneOf::Second(second) => second.run(view),
        }
    }

    fn running_time(&self) -> RunningTime {
        match self {
            OneOf::First(first) => first.running_time(),
            OneOf::Second(second) => second.running_time(),
        }
    }

    fn accessor(&self, alloc: Global) -> Result<OneOf<A::Accessor, B::Accessor>, OutOfMemory> {
        match self {
            OneOf::First(first) => Ok(OneOf::First(first.accessor(alloc)?)),
            OneOf::Second(second) => Ok(OneOf::Second(second.accessor(alloc)?)),
        }
    }

    fn setup(&mut self, world: &mut World<V>) -> Result<(), Fault<E>> {
        match self {
            OneOf::First(first) => first.setup(world),
            OneOf::Second(second) => second.setup(world),
        }
    }

    fn dispose(self, world: &mut World<V>) -> Result<(), Fault<E>> {
        match self {
            OneOf::First(first) => first.dispose(world),
            OneOf::Second(second) => second.dispose(world),
        }
    }
}
