//! A batch: a plan that runs as often as a number says.
ghost use Rattle.std.specs.Prelude.{◌≡◌, [], ◌∷◌, IfOk, IfSome};
ghost use Rattle.shred_model.specs.Record.{Agent};
ghost use Rattle.shred_run.specs.Dispatched.{Dispatched};
ghost use Rattle.shred_stage.specs.Situations.{dispatch_answer};
ghost use Rattle.shred.specs.Made.{IsLeftAlone};
ghost use Rattle.shred_table.specs.declared.id.ResourceId.{ResourceId};
ghost use Rattle.shred_world.specs.Worlds.{world_held};
ghost use Rattle.shred.specs.Builders.{built};
ghost use Rattle.shred.specs.Dispatchers.{dispatcher_over, dispatcher_plan, dispatcher_states};
ghost use Rattle.example_systems.specs.Numbers.{kind_of, number_id};
ghost use Rattle.example_systems.specs.Rounds.{AreLeftByRounds, IsOfRounds, IsRound, PlansAsOften, RoundsBuilt, five_and_rounds, rounds_related};

use crate::enum_of_systems::Add;
use shred::{
    AddError, BatchAccessor, DataError, DispatchError, Dispatcher, DispatcherBuilder, Fault,
    MultiDispatchController, MultiDispatcher, Only, OutOfMemory, Plain, View, World, WorldError,
    only_id,
};
use std::alloc::Global;

/// Reads the number of its place, and has its plan run so often: never where that is negative.
#[derive(Drop)]
pub struct AsOften {
    pub at: u64,
}

impl MultiDispatchController<Only<i64>> for AsOften {
    type Error = DataError;

    type Accessor = BatchAccessor;

    ghost reads = { λ controller. number_id controller.at ∷ [] };

    ghost writes = { λ controller. [] };

    ghost plans = { PlansAsOften };

    ghost sets_up = { IsLeftAlone };

    fn plan(&mut self, view: &mut View<Only<i64>>) -> Result<usize, Fault<DataError>> {
        match view.read::<i64>(only_id(self.at)) {
            Ok(number) => Ok(usize::try_from(*number).unwrap_or(0)),
            Err(error) => Err(Fault::from(error)),
        }
    }

    fn accessor(&self, alloc: Global) -> Result<BatchAccessor, OutOfMemory> {
        BatchAccessor::of(alloc, &[only_id(self.at)], &[])
    }

    fn setup(&mut self, _world: &mut World<Only<i64>>) -> Result<(), Fault<DataError>> {
        Ok(())
    }
}

type Rounds = MultiDispatcher<AsOften>;

type RoundsBuilder = DispatcherBuilder<Only<i64>, Plain<Add>, Rounds>;

type RoundsDispatcher = Dispatcher<Only<i64>, Plain<Add>, Rounds>;

// A world with 5 at place 0 and the number of rounds at place 1.
fn world_of_rounds(alloc: Global, rounds: i64) -> Result<World<Only<i64>>, WorldError>
    ensures { IfOk result (λ world. (id : ResourceId) → world_held kind_of world id ≡ five_and_rounds rounds id) }
{
    let mut world = World::empty(alloc);
    world.insert_by_id(only_id(0), 5i64)?;
    world.insert_by_id(only_id(1), rounds)?;
    Ok(world)
}

// The plan of a round, which adds 3 at place 0.
fn plan_of_round(alloc: Global) -> Result<RoundsBuilder, AddError>
    ensures { IfOk result (λ builder. IsRound (built builder)) }
{
    DispatcherBuilder::new(alloc).with(Plain(Add { to: 0, amount: 3 }), "add", &[])
}

// The dispatcher of a batch of that plan, which runs as often as place 1 says.
fn dispatcher_of_rounds(alloc: Global) -> Result<RoundsDispatcher, AddError>
    ensures { IfOk result (λ dispatcher. (plan : RoundsBuilt) × IsOfRounds plan × (dispatcher_plan dispatcher ≡ plan.plan) × ((path : Agent) → dispatcher_states dispatcher path ≡ plan.states path)) }
{
    let round = plan_of_round(alloc)?;
    let controller = MultiDispatcher::new(AsOften { at: 1 });
    let plan = DispatcherBuilder::new(alloc).with_batch(controller, round, "rounds", &[])?;
    Ok(plan.build())
}

// A dispatch on the caller's thread.
fn dispatched(
    dispatcher: &mut RoundsDispatcher,
    world: &mut World<Only<i64>>,
) -> Result<(), DispatchError<DataError>>
    ensures { Dispatched kind_of rounds_related dispatch_answer (dispatcher_over kind_of dispatcher.old world.old) result (dispatcher_over kind_of dispatcher.new world.new) }
{
    dispatcher.dispatch_seq(world)
}

/// What is left at place 0, where 3 is added to the 5 there in so many rounds; none where something was refused.
pub fn added_in_rounds(alloc: Global, rounds: i64) -> Option<i64>
    ensures { IfSome result (AreLeftByRounds rounds) }
{
    let mut dispatcher = dispatcher_of_rounds(alloc).ok()?;
    let mut world = world_of_rounds(alloc, rounds).ok()?;
    dispatched(&mut dispatcher, &mut world).ok()?;
    world.remove_by_id::<i64>(only_id(0)).ok()?
}
