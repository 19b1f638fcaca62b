//! Systems that are passed three resources that they read, and what they write.
ghost use Rattle.std.specs.Prelude.{◌≡◌, [], ◌∷◌};
ghost use Rattle.shred_table.specs.Id.{id_of};
ghost use Rattle.shred.specs.Passed.{AnyChangeBy, AnyTryChangeBy, ChangeBy, DoneChangeBy, StepsPassed, TryChangeBy, named};

use crate::passed::fetching::fetch_3;
use crate::passed::never_refuses::NeverRefuses;
use crate::passed::{Passed, PassedSystem, TrySystem, answered, into_typed};
use crate::typed::{Ran, TypedSystem, Uses};
use shred_world::{DataError, Resource, ResourceTypes, ResourceValue, View};

/// What a run does with what it writes, by three resources that it reads.
pub trait Reads3Writes<A, B, C, W>: Sized {
    ghost step: { ChangeBy Self (A × B × C) W } = { AnyChangeBy };

    /// One step.
    fn run(&mut self, first: &A, second: &B, third: &C, written: &mut W)
        ensures { step self.old (first.now, second.now, third.now) written.old self.new written.new };

    /// The system of a dispatcher, which is refused before its run as that of a `ReadsWrites` is.
    final fn into_system(self) -> PassedSystem<Self, (A, B, C), W>
        ensures { result.0.system.0 ≡ self }
    {
        into_typed(NeverRefuses(self))
    }

    /// The same, with an error of the caller's own.
    final fn into_system_with_error<E>(self) -> PassedSystem<Self, (A, B, C), W, E>
        ensures { result.0.system.0 ≡ self }
    {
        into_typed(NeverRefuses(self))
    }
}

/// What a run does with what it writes, by three resources that it reads, or why it refuses. What it wrote before it refused
/// stays.
pub trait TryReads3Writes<A, B, C, W, E>: Sized {
    ghost step: { TryChangeBy Self (A × B × C) W E } = { AnyTryChangeBy };

    /// One step.
    fn run(&mut self, first: &A, second: &B, third: &C, written: &mut W) -> Result<(), E>
        ensures { step self.old (first.now, second.now, third.now) written.old result self.new written.new };

    /// The system of a dispatcher, which is refused before its run as that of a `ReadsWrites` is.
    final fn into_system(self) -> TrySystem<Self, (A, B, C), W, E>
        ensures { result.0.system ≡ self }
    {
        into_typed(self)
    }
}

impl<T: Reads3Writes<A, B, C, W>, A, B, C, W, E> TryReads3Writes<A, B, C, W, E>
    for NeverRefuses<T> {
    ghost step = { DoneChangeBy T.step };

    fn run(&mut self, first: &A, second: &B, third: &C, written: &mut W) -> Result<(), E> {
        self.0.run(first, second, third, written);
        Ok(())
    }
}

impl<
    V: ResourceValue + Drop,
    T: TryReads3Writes<A, B, C, W, E>,
    A: Resource<V>,
    B: Resource<V>,
    C: Resource<V>,
    W: ResourceTypes<V>,
    E: From<DataError>,
> TypedSystem<V> for Passed<T, (A, B, C), W, E> {
    type Data = Uses<(A, B, C), W, E>;

    ghost step = { StepsPassed (id_of A.KIND 0 ∷ id_of B.KIND 0 ∷ id_of C.KIND 0 ∷ []) W.ids (λ read. named A.KIND A.wrapped read.0 ∷ named B.KIND B.wrapped read.1 ∷ named C.KIND C.wrapped read.2 ∷ []) W.moved E.from_gives T.step };

    fn run(&mut self, view: &View<V>, written: &mut W) -> Ran<E> {
        let (first, second, third) = fetch_3::<V, A, B, C>(view)?;
        answered(self.system.run(first, second, third, written))
    }
}
