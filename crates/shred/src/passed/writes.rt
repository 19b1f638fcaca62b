//! Systems that are passed what they write.
ghost use Rattle.std.specs.Prelude.{◌≡◌, []};
ghost use Rattle.shred.specs.Passed.{AnyChange, AnyTryChange, Change, DoneChange, StepsPassed, TryChange};

use crate::passed::never_refuses::NeverRefuses;
use crate::passed::{Passed, PassedSystem, TrySystem, answered, into_typed};
use crate::typed::{Ran, TypedSystem, Uses};
use shred_world::{DataError, ResourceTypes, ResourceValue, View};

/// What a run does with what it writes.
pub trait Writes<W>: Sized {
    ghost step: { Change Self W } = { AnyChange };

    /// One step.
    fn run(&mut self, written: &mut W)
        ensures { step self.old written.old self.new written.new };

    /// The system of a dispatcher, which is refused before its run as `Typed` is.
    final fn into_system(self) -> PassedSystem<Self, (), W>
        ensures { result.0.system.0 ≡ self }
    {
        into_typed(NeverRefuses(self))
    }

    /// The same, with an error of the caller's own.
    final fn into_system_with_error<E>(self) -> PassedSystem<Self, (), W, E>
        ensures { result.0.system.0 ≡ self }
    {
        into_typed(NeverRefuses(self))
    }
}

/// What a run does with what it writes, or why it refuses. What it wrote before it refused stays.
pub trait TryWrites<W, E>: Sized {
    ghost step: { TryChange Self W E } = { AnyTryChange };

    /// One step.
    fn run(&mut self, written: &mut W) -> Result<(), E>
        ensures { step self.old written.old result self.new written.new };

    /// The system of a dispatcher, which is refused before its run as `Typed` is.
    final fn into_system(self) -> TrySystem<Self, (), W, E>
        ensures { result.0.system ≡ self }
    {
        into_typed(self)
    }
}

impl<T: Writes<W>, W, E> TryWrites<W, E> for NeverRefuses<T> {
    ghost step = { DoneChange T.step };

    fn run(&mut self, written: &mut W) -> Result<(), E> {
        self.0.run(written);
        Ok(())
    }
}

impl<V: ResourceValue, T: TryWrites<W, E>, W: ResourceTypes<V>, E: From<DataError>> TypedSystem<V>
    for Passed<T, (), W, E> {
    type Data = Uses<(), W, E>;

    ghost step = { StepsPassed {R = Unit {0}} [] W.ids (λ none. []) W.moved E.from_gives (λ before none. T.step before) };

    fn run(&mut self, _view: &View<V>, written: &mut W) -> Ran<E> {
        answered(self.system.run(written))
    }
}
