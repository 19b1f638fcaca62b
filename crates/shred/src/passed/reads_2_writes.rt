//! Systems that are passed two resources that they read, and what they write.
ghost use Rattle.std.specs.Prelude.{◌≡◌, [], ◌∷◌};
ghost use Rattle.shred_table.specs.Id.{id_of};
ghost use Rattle.shred.specs.Passed.{AnyChangeBy, AnyTryChangeBy, ChangeBy, DoneChangeBy, StepsPassed, TryChangeBy, named};

use crate::passed::fetching::fetch_2;
use crate::passed::never_refuses::NeverRefuses;
use crate::passed::{Passed, PassedSystem, TrySystem, answered, into_typed};
use crate::typed::{Ran, TypedSystem, Uses};
use shred_world::{DataError, Resource, ResourceTypes, ResourceValue, View};

/// What a run does with what it writes, by two resources that it reads.
pub trait Reads2Writes<A, B, W>: Sized {
    ghost step: { ChangeBy Self (A × B) W } = { AnyChangeBy };

    /// One step.
    fn run(&mut self, first: &A, second: &B, written: &mut W)
        ensures { step self.old (first.now, second.now) written.old self.new written.new };

    /// The system of a dispatcher, which is refused before its run as that of a `ReadsWrites` is.
    final fn into_system(self) -> PassedSystem<Self, (A, B), W>
        ensures { result.0.system.0 ≡ self }
    {
        into_typed(NeverRefuses(self))
    }

    /// The same, with an error of the caller's own.
    final fn into_system_with_error<E>(self) -> PassedSystem<Self, (A, B), W, E>
        ensures { result.0.system.0 ≡ self }
    {
        into_typed(NeverRefuses(self))
    }
}

/// What a run does with what it writes, by two resources that it reads, or why it refuses. What it wrote before it refused
/// stays.
pub trait TryReads2Writes<A, B, W, E>: Sized {
    ghost step: { TryChangeBy Self (A × B) W E } = { AnyTryChangeBy };

    /// One step.
    fn run(&mut self, first: &A, second: &B, written: &mut W) -> Result<(), E>
        ensures { step self.old (first.now, second.now) written.old result self.new written.new };

    /// The system of a dispatcher, which is refused before its run as that of a `ReadsWrites` is.
    final fn into_system(self) -> TrySystem<Self, (A, B), W, E>
        ensures { result.0.system ≡ self }
    {
        into_typed(self)
    }
}

impl<T: Reads2Writes<A, B, W>, A, B, W, E> TryReads2Writes<A, B, W, E> for NeverRefuses<T> {
    ghost step = { DoneChangeBy T.step };

    fn run(&mut self, first: &A, second: &B, written: &mut W) -> Result<(), E> {
        self.0.run(first, second, written);
        Ok(())
    }
}

impl<
    V: ResourceValue + Drop,
    T: TryReads2Writes<A, B, W, E>,
    A: Resource<V>,
    B: Resource<V>,
    W: ResourceTypes<V>,
    E: From<DataError>,
> TypedSystem<V> for Passed<T, (A, B), W, E> {
    type Data = Uses<(A, B), W, E>;

    ghost step = { StepsPassed (id_of A.KIND 0 ∷ id_of B.KIND 0 ∷ []) W.ids (λ read. named A.KIND A.wrapped read.0 ∷ named B.KIND B.wrapped read.1 ∷ []) W.moved E.from_gives T.step };

    fn run(&mut self, view: &View<V>, written: &mut W) -> Ran<E> {
        let (first, second) = fetch_2::<V, A, B>(view)?;
        answered(self.system.run(first, second, written))
    }
}
