//! A world without a dispatcher.
ghost use Rattle.std.specs.Prelude.{◌≡◌, Some, None, OnOk, OnErr, IfOk, IfErr, IsSome, pos};
ghost use Rattle.std.specs.Option.{option_map};
ghost use Rattle.shred_table.specs.Slots.{with_at};
ghost use Rattle.shred_table.specs.declared.id.ResourceId.{ResourceId};
ghost use Rattle.shred_world.specs.Worlds.{IsKeptOrMade, world_held};
ghost use Rattle.example_systems.specs.Numbers.{IsDoubled, IsDoublingRefused, IsKeptWhole, IsPutInto, first_number, kind_of, number_id, number_value};

use shred::{DataError, Only, World, WorldError, WriteExpect};
use std::alloc::Global;

/// A world that holds this number alone.
pub fn world_of(alloc: Global, number: i64) -> Result<World<Only<i64>>, WorldError>
    ensures held { IfOk result (λ world. first_number world ≡ Some (number_value number)) }
    ensures alone { IfOk result (λ world. (id : ResourceId) → world_held kind_of world id ≡ with_at (λ other. None) (number_id 0) (Some (number_value number)) id) }
    ensures out_of_memory { IfErr result (λ error. error ≡ WorldError.OutOfMemory) }
{
    let mut world = World::empty(alloc);
    match world.insert(number) {
        Ok(()) => Ok(world),
        Err(error) => Err(error),
    }
}

/// The number that is held, if one is.
pub fn number_in(world: &World<Only<i64>>) -> Option<i64>
    ensures { option_map number_value result ≡ first_number world.now }
{
    match world.try_fetch::<i64>() {
        Some(number) => Some(*number),
        None => None,
    }
}

/// The number that is held, or else 5, which is then held.
pub fn number_or_five(world: &mut World<Only<i64>>) -> Result<i64, WorldError>
    ensures given { IfOk result (IsKeptOrMade number_value (first_number world.old) (λ made. made ≡ pos 5)) }
    ensures held { IfOk result (λ number. IsPutInto world.old (Some (number_value number)) world.new) }
    ensures out_of_memory { IfErr result (λ error. (error ≡ WorldError.OutOfMemory) × (first_number world.old ≡ None)) }
    ensures unchanged { OnErr result (IsKeptWhole world.old world.new) }
{
    match world.entry::<i64>().or_insert(5) {
        Ok(number) => Ok(*number),
        Err(error) => Err(error),
    }
}

/// Puts this number in the place of the one that is held.
pub fn set(world: &mut World<Only<i64>>, number: i64) -> Result<(), WorldError>
    ensures put { OnOk result (IsPutInto world.old (Some (number_value number)) world.new) }
    ensures held_one { OnOk result (IsSome (first_number world.old)) }
    ensures missing { IfErr result (λ error. (error ≡ WorldError.Missing (number_id 0)) × (first_number world.old ≡ None)) }
    ensures unchanged { OnErr result (IsKeptWhole world.old world.new) }
{
    match world.fetch_mut::<i64>() {
        Ok(held) => {
            *held = number;
            Ok(())
        }
        Err(error) => Err(error),
    }
}

/// Doubles the number that is held, by a call with a bundle, and gives it.
pub fn double(world: &mut World<Only<i64>>) -> Result<i64, DataError>
    ensures doubled { IfOk result (IsDoubled (world_held kind_of world.old) (world_held kind_of world.new)) }
    ensures refused { IfErr result (IsDoublingRefused (first_number world.old)) }
    ensures unchanged { OnErr result (IsKeptWhole world.old world.new) }
{
    world.exec::<WriteExpect<i64>, _, _>(|number| {
        **number = number.wrapping_mul(2);
        **number
    })
}

/// The number that was held, if one was, which leaves the world.
pub fn take(world: &mut World<Only<i64>>) -> Option<i64>
    ensures taken { option_map number_value result ≡ first_number world.old }
    ensures left { IsPutInto world.old None world.new }
{
    world.remove::<i64>()
}
