//! Systems that are passed one resource that they read, and what they write.
ghost use Rattle.std.specs.Prelude.{◌≡◌, [], ◌∷◌};
ghost use Rattle.shred_table.specs.Id.{id_of};
ghost use Rattle.shred.specs.Passed.{AnyChangeBy, AnyTryChangeBy, ChangeBy, DoneChangeBy, StepsPassed, TryChangeBy, named};

use crate::passed::never_refuses::NeverRefuses;
use crate::passed::{Passed, PassedSystem, TrySystem, answered, into_typed};
use crate::typed::{Ran, TypedSystem, Uses};
use shred_world::{DataError, Resource, ResourceTypes, ResourceValue, View};

/// What a run does with what it writes, by one resource that it reads.
pub trait ReadsWrites<R, W>: Sized {
    ghost step: { ChangeBy Self R W } = { AnyChangeBy };

    /// One step.
    fn run(&mut self, read: &R, written: &mut W)
        ensures { step self.old read.now written.old self.new written.new };

    /// The system of a dispatcher, which is refused before its run as `Typed` is, and where what it reads is not there or is
    /// written, too.
    final fn into_system(self) -> PassedSystem<Self, (R,), W>
        ensures { result.0.system.0 ≡ self }
    {
        into_typed(NeverRefuses(self))
    }

    /// The same, with an error of the caller's own.
    final fn into_system_with_error<E>(self) -> PassedSystem<Self, (R,), W, E>
        ensures { result.0.system.0 ≡ self }
    {
        into_typed(NeverRefuses(self))
    }
}

/// What a run does with what it writes, by one resource that it reads, or why it refuses. What it wrote before it refused stays.
pub trait TryReadsWrites<R, W, E>: Sized {
    ghost step: { TryChangeBy Self R W E } = { AnyTryChangeBy };

    /// One step.
    fn run(&mut self, read: &R, written: &mut W) -> Result<(), E>
        ensures { step self.old read.now written.old result self.new written.new };

    /// The system of a dispatcher, which is refused before its run as that of a `ReadsWrites` is.
    final fn into_system(self) -> TrySystem<Self, (R,), W, E>
        ensures { result.0.system ≡ self }
    {
        into_typed(self)
    }
}

impl<T: ReadsWrites<R, W>, R, W, E> TryReadsWrites<R, W, E> for NeverRefuses<T> {
    ghost step = { DoneChangeBy T.step };

    fn run(&mut self, read: &R, written: &mut W) -> Result<(), E> {
        self.0.run(read, written);
        Ok(())
    }
}

impl<
    V: ResourceValue + Drop,
    T: TryReadsWrites<R, W, E>,
    R: Resource<V>,
    W: ResourceTypes<V>,
    E: From<DataError>,
> TypedSystem<V> for Passed<T, (R,), W, E> {
    type Data = Uses<(R,), W, E>;

    ghost step = { StepsPassed (id_of R.KIND 0 ∷ []) W.ids (λ read. named R.KIND R.wrapped read ∷ []) W.moved E.from_gives T.step };

    fn run(&mut self, view: &View<V>, written: &mut W) -> Ran<E> {
        let read = view.fetch::<R>()?;
        answered(self.system.run(read, written))
    }
}
