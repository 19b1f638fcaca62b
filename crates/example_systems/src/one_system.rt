//! A count that one system sets.
ghost use Rattle.std.specs.Prelude.{◌≡◌, [], ◌∷◌, IfSome, pos};
ghost use Rattle.shred_run.specs.declared.system.RunningTime.TheVariants.{Average};
ghost use Rattle.shred.specs.Made.{IsLeftAlone};
ghost use Rattle.example_systems.specs.declared.one_system.Value.TheVariants.{Count};
ghost use Rattle.example_systems.specs.OneSystem.{SetsToSeven, count_at};

use shred::{
    BatchAccessor, DataError, Dispatcher, Fault, Kind, OutOfMemory, Resource, ResourceId,
    ResourceValue, RunningTime, StagesBuilder, System, SystemId, ThreadLocal, View, World,
    new_dispatcher,
};
use std::alloc::Global;

/// What the world holds.
#[derive(Debug, Drop)]
pub enum Value {
    Count(Count),
}

/// A resource of kind 0.
#[derive(Clone, Copy, Debug)]
pub struct Count(pub i64);

impl ResourceValue for Value {
    ghost kind_of = { λ value. record { 0 = 0 } };

    fn kind(&self) -> Kind {
        Kind(0)
    }
}

impl Resource<Value> for Count {
    ghost KIND = { record { 0 = 0 } };

    const KIND: Kind = Kind(0);

    ghost wrapped = { λ count. Count count };

    fn wrap(self) -> Value {
        Value::Count(self)
    }

    fn unwrap(value: Value) -> Result<Self, Value> {
        match value {
            Value::Count(count) => Ok(count),
        }
    }

    fn view(value: &Value) -> Option<&Self> {
        match value {
            Value::Count(count) => Some(count),
        }
    }

    fn view_mut(value: &mut Value) -> Option<&mut Self> {
        match value {
            Value::Count(count) => Some(count),
        }
    }

    ghost use Rattle.std.proofs.Common.{refl};

    ghost wrapped_kind = { λ count. refl };

    ghost wrapped_once = { λ first second same. Prim.cc };
}

fn count_id() -> ResourceId
    ensures { result ≡ count_at }
{
    ResourceId::from_type_id(Kind(0))
}

/// Sets the count to 7. It writes the count and reads nothing.
#[derive(Drop)]
pub struct SetToSeven;

impl System<Value> for SetToSeven {
    type Error = DataError;

    type Accessor = BatchAccessor;

    ghost reads = { λ system. [] };

    ghost writes = { λ system. count_at ∷ [] };

    ghost time = { λ system. Average };

    ghost step = { SetsToSeven };

    ghost sets_up = { IsLeftAlone };

    ghost disposes = { λ before seen outcome left. IsLeftAlone before seen outcome before left };

    fn run(&mut self, view: &mut View<Value>) -> Result<(), Fault<DataError>> {
        match view.write::<Count>(count_id()) {
            Ok(count) => {
                *count = Count(7);
                Ok(())
            }
            Err(error) => Err(Fault::from(error)),
        }
    }

    fn running_time(&self) -> RunningTime {
        RunningTime::Average
    }

    fn accessor(&self, alloc: Global) -> Result<BatchAccessor, OutOfMemory> {
        BatchAccessor::of(alloc, &[], &[count_id()])
    }

    fn setup(&mut self, _world: &mut World<Value>) -> Result<(), Fault<DataError>> {
        Ok(())
    }

    fn dispose(self, _world: &mut World<Value>) -> Result<(), Fault<DataError>> {
        Ok(())
    }
}

/// The count after one dispatch, which is 7; none where something was refused.
pub fn count_after_dispatch(alloc: Global) -> Option<i64>
    ensures { IfSome result (λ count. count ≡ pos 7) }
{
    let mut world: World<Value> = World::empty(alloc);
    world.insert_by_id(count_id(), Count(1)).ok()?;

    let mut builder: StagesBuilder<Value, SetToSeven> = StagesBuilder::new(alloc);
    builder.insert(&[], SystemId(0), SetToSeven).ok()?;

    let mut dispatcher: Dispatcher<Value, SetToSeven> = new_dispatcher(
        builder.build(),
        ThreadLocal::new(alloc),
        4,
    );
    dispatcher.dispatch_seq(&mut world).ok()?;

    match world.try_fetch_by_id::<Count>(count_id()) {
        Ok(Some(count)) => Some(count.0),
        _ => None,
    }
}
