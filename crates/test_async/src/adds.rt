//! Systems that add to one count, worlds of counts, and asynchronous dispatchers of such systems.
ghost use Rattle.std.specs.Prelude.{[], ◌∷◌};
ghost use Rattle.shred_run.specs.declared.system.RunningTime.TheVariants.{Average};
ghost use Rattle.shred_table.specs.Id.{id_of};
ghost use Rattle.shred_table.specs.Only.{only_kind};

use shred::{
    AsyncDispatcher, BatchAccessor, DispatcherBuilder, Fault, Now, Only, OutOfMemory, RunningTime,
    System, View, World, only_id,
};
use std::alloc::Global;
use std::test::Fail;

/// It adds the amount to the count of its number, and then refuses with 3 in so many of its first runs. Its setup makes its
/// count 0, and then refuses with 4 where it is to.
#[derive(Clone, Copy)]
pub(crate) struct Adds {
    pub(crate) number: u64,
    pub(crate) amount: i64,
    pub(crate) refusals: u64,
    pub(crate) refuses_setup: bool,
}

/// It adds this amount to the count of this number.
pub(crate) fn adds_to(number: u64, amount: i64) -> Adds {
    Adds {
        number,
        amount,
        refusals: 0,
        refuses_setup: false,
    }
}

/// It adds 1 to count 0, and then refuses in so many of its first runs.
pub(crate) fn refuses(refusals: u64) -> Adds {
    Adds {
        refusals,
        ..adds_to(0, 1)
    }
}

impl System<Only<i64>> for Adds {
    type Error = u8;

    type Accessor = BatchAccessor;

    ghost reads = { λ adds. [] };

    ghost writes = { λ adds. id_of only_kind adds.number ∷ [] };

    ghost time = { λ adds. Average };

    ghost step = { λ _ _ _ _ _. Unit {0} };

    ghost sets_up = { λ _ _ _ _ _. Unit {0} };

    ghost disposes = { λ _ _ _ _. Unit {0} };

    fn run(&mut self, view: &mut View<Only<i64>>) -> Result<(), Fault<u8>> {
        match view.write::<i64>(only_id(self.number)) {
            Ok(count) => *count = count.wrapping_add(self.amount),
            Err(_) => return Err(Fault::Refused(99)),
        }
        if self.refusals == 0 {
            Ok(())
        } else {
            self.refusals -= 1;
            Err(Fault::Refused(3))
        }
    }

    fn running_time(&self) -> RunningTime {
        RunningTime::Average
    }

    fn accessor(&self, alloc: Global) -> Result<BatchAccessor, OutOfMemory> {
        BatchAccessor::of(alloc, &[], &[only_id(self.number)])
    }

    fn setup(&mut self, world: &mut World<Only<i64>>) -> Result<(), Fault<u8>> {
        if world.insert_by_id(only_id(self.number), 0).is_err() {
            return Err(Fault::OutOfMemory);
        }
        if self.refuses_setup {
            Err(Fault::Refused(4))
        } else {
            Ok(())
        }
    }

    fn dispose(self, _world: &mut World<Only<i64>>) -> Result<(), Fault<u8>> {
        Ok(())
    }
}

/// An asynchronous dispatcher of such systems.
pub(crate) type Dispatcher = AsyncDispatcher<Only<i64>, Adds>;

/// A world of so many counts, each of them 0.
pub(crate) fn zeros(alloc: Global, count: u64) -> Result<World<Only<i64>>, Fail> {
    let mut world = World::empty(alloc);
    for number in 0..count {
        world.insert_by_id(only_id(number), 0)?;
    }
    Ok(world)
}

/// The asynchronous dispatcher of this system, over two counts of 0, with a thread-local system that adds 1 to count 1.
pub(crate) fn with_local(alloc: Global, staged: Adds) -> Result<Dispatcher, Fail> {
    let mut builder: DispatcherBuilder<Only<i64>, Adds> = DispatcherBuilder::new(alloc);
    builder.add(staged, "", &[])?;
    builder.add_thread_local(Now(adds_to(1, 1)))?;
    Ok(builder.build_async(zeros(alloc, 2)?))
}

/// What the world has as the count of this number.
pub(crate) fn count_of(world: &World<Only<i64>>, number: u64) -> Option<i64> {
    match world.try_fetch_by_id::<i64>(only_id(number)) {
        Ok(Some(held)) => Some(*held),
        _ => None,
    }
}
