//! A system whose setup has what it writes be held.
ghost use Rattle.std.specs.Int.{int_wrapping_add, w64};
ghost use Rattle.std.specs.Prelude.{◌≡◌, ◌∷◌, IfOk, IfSome, Some, [], pos};
ghost use Rattle.std.specs.Option.{option_map};
ghost use Rattle.shred.specs.Made.{IsLeftAlone};
ghost use Rattle.shred_run.specs.declared.system.RunningTime.TheVariants.{Average};
ghost use Rattle.example_systems.specs.Numbers.{first_number, number_id, number_value};
ghost use Rattle.example_systems.specs.SetUp.{HoldsNumber, number_or_zero, one_more};

use crate::world_alone::number_in;
use shred::{
    BatchAccessor, DataError, Dispatcher, Fault, Only, OutOfMemory, RunningTime, StagesBuilder,
    System, SystemId, ThreadLocal, View, World, Write, new_dispatcher, only_id,
};
use std::alloc::Global;

/// Adds 1 to a number, and wraps past 64 bits with sign. Its setup holds the default number, 0, where none is held.
#[derive(Drop)]
pub struct CountUp;

impl System<Only<i64>> for CountUp {
    type Error = DataError;

    type Accessor = BatchAccessor;

    ghost reads = { λ system. [] };

    ghost writes = { λ system. number_id 0 ∷ [] };

    ghost time = { λ system. Average };

    ghost step = { λ before seen outcome after left. IfOk outcome (λ done. left (number_id 0) ≡ option_map one_more (seen (number_id 0))) };

    ghost sets_up = { HoldsNumber };

    ghost disposes = { λ before seen outcome left. IsLeftAlone before seen outcome before left };

    fn run(&mut self, view: &mut View<Only<i64>>) -> Result<(), Fault<DataError>> {
        let number = view.write::<i64>(only_id(0))?;
        *number = number.wrapping_add(1);
        Ok(())
    }

    fn running_time(&self) -> RunningTime {
        RunningTime::Average
    }

    fn accessor(&self, alloc: Global) -> Result<BatchAccessor, OutOfMemory> {
        BatchAccessor::of(alloc, &[], &[only_id(0)])
    }

    fn setup(&mut self, world: &mut World<Only<i64>>) -> Result<(), Fault<DataError>> {
        match world.setup::<Write<i64>>() {
            Ok(()) => Ok(()),
            Err(error) => Err(Fault::from(DataError::from(error))),
        }
    }

    fn dispose(self, _world: &mut World<Only<i64>>) -> Result<(), Fault<DataError>> {
        Ok(())
    }
}

/// The number after the setup and one dispatch of a system that adds 1: one more than the number that was held, or 1 where
/// none was. None where something was refused.
pub fn counted_up(alloc: Global, world: &mut World<Only<i64>>) -> Option<i64>
    ensures counted { IfSome result (λ number. number ≡ int_wrapping_add w64 (number_or_zero (first_number world.old)) (pos 1)) }
    ensures held { IfSome result (λ number. first_number world.new ≡ Some (number_value number)) }
{
    let mut builder: StagesBuilder<Only<i64>, CountUp> = StagesBuilder::new(alloc);
    builder.insert(&[], SystemId(0), CountUp).ok()?;

    let mut dispatcher: Dispatcher<Only<i64>, CountUp> = new_dispatcher(
        builder.build(),
        ThreadLocal::new(alloc),
        4,
    );
    dispatcher.setup(world).ok()?;
    dispatcher.dispatch_seq(world).ok()?;
    number_in(world)
}
