//! An example of an asynchronous dispatcher: a plan that runs on a thread of its own while its caller does something else.
ghost use Rattle.std.specs.List.{list_any};
ghost use Rattle.std.specs.Prelude.{◌≡◌, ◌==◌, IfSome, Some, pos};
ghost use Rattle.shred.specs.AsyncDispatchers.{state_of};
ghost use Rattle.shred_world.specs.Worlds.{world_held};
ghost use Rattle.example_systems.specs.OneSystem.{count_at};
ghost use Rattle.example_systems.specs.declared.one_system.Value.TheVariants.{Count as counted};
ghost use Rattle.test_async.specs.Meanwhile.{LeavesSeven, kind_of};

use example_systems::one_system::{Count, SetToSeven, Value};
use shred::{AsyncDispatcher, StagesBuilder, SystemId, ThreadLocal, World, new_async};
use std::alloc::Global;
use std::thread::Threads;

/// Has a system set a count to 7 on a thread of its own, and looks in the meantime whether the number is among the numbers.
/// Gives the count that is there after the wait, and whether the number is; none where something was refused.
pub fn count_and_look<R: Threads + Sync + Clone + Send + 'static>(
    rt: &R,
    alloc: Global,
    numbers: &[u32],
    number: u32,
) -> Option<(i64, bool)>
    ensures count { IfSome result (λ both. both.0 ≡ pos 7) }
    ensures found { IfSome result (λ both. both.1 ≡ list_any (λ x. x == number) numbers.now) }
{
    let mut dispatcher = setting_to_seven(alloc)?;
    dispatcher.dispatch(rt).ok()?;
    let is_found = numbers.contains(&number);
    dispatcher.wait(rt).ok()?;
    match dispatcher.world(rt) {
        Ok(world) => Some((count_in(world)?, is_found)),
        Err(_) => None,
    }
}

// The dispatcher of a system that sets a count to 7, over a world where the count is 1.
fn setting_to_seven(alloc: Global) -> Option<AsyncDispatcher<Value, SetToSeven>>
    ensures { IfSome result (λ dispatcher. LeavesSeven (state_of kind_of dispatcher)) }
{
    let mut world: World<Value> = World::empty(alloc);
    world.insert(Count(1)).ok()?;

    let mut builder: StagesBuilder<Value, SetToSeven> = StagesBuilder::new(alloc);
    builder.insert(&[], SystemId(0), SetToSeven).ok()?;

    Some(new_async(world, builder.build(), ThreadLocal::new(alloc), 4))
}

// The count; none where none is held.
fn count_in(world: &World<Value>) -> Option<i64>
    ensures { IfSome result (λ count. world_held kind_of world.now count_at ≡ Some (counted (record { 0 = count }))) }
{
    world.try_fetch::<Count>().map(|count| count.0)
}
