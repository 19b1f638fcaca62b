//! Systems that name what they read and write by its types.
ghost use Rattle.std.specs.Prelude.{◌≡◌, ◌||◌};
ghost use Rattle.shred_run.specs.declared.system.RunningTime.TheVariants.{Average};
ghost use Rattle.shred.specs.Made.{IsLeftAlone};
ghost use Rattle.shred.specs.Typed.{StepsTyped, SaysNothing};

use shred_run::{Fault, RunningTime, System};
use shred_world::{
    BatchAccessor, DataError, OutOfMemory, ResourceTypes, ResourceValue, View, World,
};
use std::alloc::Global;
use std::marker::PhantomData;

/// What a run answers: that it was done, or why it ended early.
pub type Ran<E = DataError> = Result<(), Fault<E>>;

/// The types of what a system reads and of what it writes, up to four resources each, and of why it refuses.
pub trait SystemTypes<V: ResourceValue> {
    type Reads: ResourceTypes<V>;

    type Writes: ResourceTypes<V>;

    type Error: From<DataError>;
}

/// The types of a system that reads `R`, writes `W` and refuses by `E`. No value of it is made.
pub struct Uses<R, W, E = DataError> {
    types: PhantomData<(R, W, E)>,
}

impl<V: ResourceValue, R: ResourceTypes<V>, W: ResourceTypes<V>, E: From<DataError>> SystemTypes<V>
    for Uses<R, W, E> {
    type Reads = R;

    type Writes = W;

    type Error = E;
}

/// What a run does with resources of given types, each of number 0.
pub trait TypedSystem<V: ResourceValue>: Sized {
    ghost use Rattle.shred_run.specs.Steps.{Step};
    ghost use Rattle.shred.specs.Typed.{LeadsFrom};
    ghost use Rattle.shred_table.specs.Slots.{among};
    ghost use Rattle.shred_table.specs.declared.id.ResourceId.{ResourceId};
    ghost use Rattle.shred_world.specs.Views.{is_out, may_read};

    type Data: SystemTypes<V>;

    ghost step: { Step V Self Self.Data.Error } = { SaysNothing };

    /// One step. What is read is fetched of the view, before anything is written, since a refusal takes nothing back; what is
    /// written has left the view, and goes back with the values that it then has. A `Fault` ends the group.
    fn run(
        &mut self,
        view: &View<V>,
        written: &mut <Self::Data as SystemTypes<V>>::Writes,
    ) -> Ran<<Self::Data as SystemTypes<V>>::Error>
        requires declared { (id : ResourceId) → may_read view.now id ≡ (among Self.Data.Reads.ids id || among Self.Data.Writes.ids id) }
        requires out { (id : ResourceId) → is_out view.now id ≡ among Self.Data.Writes.ids id }
        ensures { LeadsFrom V.kind_of step Self.Data.Reads.ids Self.Data.Writes.ids Self.Data.Writes.moved view.now self.old written.old result self.new written.new };

    /// The system of a dispatcher.
    final fn into_system(self) -> Typed<Self>
        ensures { result.0 ≡ self }
    {
        Typed(self)
    }
}

/// The system of a `TypedSystem`. Before the run it moves out what is to be written, and is refused as a view refuses it: where a
/// resource is not there, or is named twice, or for want of memory. It takes an average time, sets nothing up and has nothing
/// to dispose of.
#[derive(Drop)]
pub struct Typed<T>(pub T);

impl<V: ResourceValue, T: TypedSystem<V> + Drop> System<V> for Typed<T> {
    type Error = <T::Data as SystemTypes<V>>::Error;

    type Accessor = BatchAccessor;

    ghost reads = { λ typed. T.Data.Reads.ids };

    ghost writes = { λ typed. T.Data.Writes.ids };

    ghost time = { λ typed. Average };

    ghost step = { StepsTyped V.kind_of T.step T.Data.Reads.ids T.Data.Writes.ids T.Data.Writes.parts T.Data.Error.from_gives };

    ghost sets_up = { IsLeftAlone };

    ghost disposes = { λ before seen outcome left. IsLeftAlone before seen outcome before left };

    fn run(&mut self, view: &mut View<V>) -> Ran<<T::Data as SystemTypes<V>>::Error> {
        let mut written = match <T::Data as SystemTypes<V>>::Writes::take(view) {
            Ok(written) => written,
            Err(error) => return Err(Fault::from(error)),
        };
        let outcome = self.0.run(view, &mut written);
        written.give_back(view);
        outcome
    }

    fn running_time(&self) -> RunningTime {
        RunningTime::Average
    }

    fn accessor(&self, alloc: Global) -> Result<BatchAccessor, OutOfMemory> {
        let reads = <T::Data as SystemTypes<V>>::Reads::ids(alloc)?;
        let writes = <T::Data as SystemTypes<V>>::Writes::ids(alloc)?;
        Ok(BatchAccessor::new(reads, writes))
    }

    fn setup(&mut self, _world: &mut World<V>) -> Ran<<T::Data as SystemTypes<V>>::Error> {
        Ok(())
    }

    fn dispose(self, _world: &mut World<V>) -> Ran<<T::Data as SystemTypes<V>>::Error> {
        Ok(())
    }
}
