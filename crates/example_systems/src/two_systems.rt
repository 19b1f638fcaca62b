//! A dispatch of two systems, of whatever type.
ghost use Rattle.std.specs.Prelude.{◌≡◌, IfOk, IfSome};
ghost use Rattle.shred_run.specs.Dispatched.{Dispatched};
ghost use Rattle.shred_stage.specs.Plans.{plan_states};
ghost use Rattle.shred_stage.specs.Situations.{dispatch_answer};
ghost use Rattle.shred_stage.specs.StagePlan.{plan_of};
ghost use Rattle.shred.specs.Dispatchers.{dispatcher_over, dispatcher_plan, dispatcher_states};
ghost use Rattle.shred_table.specs.declared.id.ResourceId.{ResourceId};
ghost use Rattle.shred_world.specs.Worlds.{world_held};
ghost use Rattle.example_systems.specs.Numbers.{kind_of};
ghost use Rattle.example_systems.specs.TwoSystems.{AreLeftAtTwo, HasInOrder, five_and_zero};
ghost use Rattle.example_systems.specs.WithoutBatches.{without_batches};

use shred::{
    DataError, DispatchError, Dispatcher, Only, OutOfMemory, Stage, StagesBuilder, System,
    SystemId, ThreadLocal, World, WorldError, new_dispatcher, only_id,
};
use std::alloc::Global;

// A world with 5 at place 1 and 0 at place 2.
fn world_of_two(alloc: Global) -> Result<World<Only<i64>>, WorldError>
    ensures { IfOk result (λ world. (id : ResourceId) → world_held kind_of world id ≡ five_and_zero id) }
{
    let mut world: World<Only<i64>> = World::empty(alloc);
    world.insert_by_id(only_id(1), 5i64)?;
    world.insert_by_id(only_id(2), 0i64)?;
    Ok(world)
}

// A plan of the two systems, in this order.
fn stages_of<S: System<Only<i64>> + Drop>(
    alloc: Global,
    first: S,
    second: S,
) -> Result<Vec<Stage<Only<i64>, S>>, OutOfMemory>
    ensures { IfOk result (λ stages. HasInOrder S.reads S.writes first second (plan_of stages.items) (plan_states stages.items)) }
{
    let mut builder = StagesBuilder::new(alloc);
    builder.insert(&[], SystemId(0), first)?;
    builder.insert(&[], SystemId(1), second)?;
    Ok(builder.build())
}

fn dispatcher_of<S: System<Only<i64>> + Drop>(
    alloc: Global,
    first: S,
    second: S,
) -> Result<Dispatcher<Only<i64>, S>, OutOfMemory>
    ensures { IfOk result (λ dispatcher. HasInOrder S.reads S.writes first second (dispatcher_plan dispatcher) (dispatcher_states dispatcher)) }
{
    let stages = stages_of(alloc, first, second)?;
    Ok(new_dispatcher(stages, ThreadLocal::new(alloc), 4))
}

// A dispatch on the caller's thread.
fn dispatched<S: System<Only<i64>, Error = DataError>>(
    dispatcher: &mut Dispatcher<Only<i64>, S>,
    world: &mut World<Only<i64>>,
) -> Result<(), DispatchError<DataError>>
    ensures { Dispatched kind_of (without_batches S.reads S.writes S.step) dispatch_answer (dispatcher_over kind_of dispatcher.old world.old) result (dispatcher_over kind_of dispatcher.new world.new) }
{
    dispatcher.dispatch_seq(world)
}

/// What two systems, one after the other, leave at place 2 of a world with 5 at place 1 and 0 at place 2; none where
/// something was refused.
pub fn left_at_two<S: System<Only<i64>, Error = DataError> + Drop>(
    alloc: Global,
    first: S,
    second: S,
) -> Option<i64>
    ensures { IfSome result (AreLeftAtTwo S.step S.reads S.writes first second) }
{
    let mut world = world_of_two(alloc).ok()?;
    let mut dispatcher = dispatcher_of(alloc, first, second).ok()?;
    dispatched(&mut dispatcher, &mut world).ok()?;
    world.remove_by_id::<i64>(only_id(2)).ok()?
}
