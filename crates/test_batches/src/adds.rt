//! A system that adds to one count, and worlds of counts.
ghost use Rattle.std.specs.Prelude.{[], ◌∷◌};
ghost use Rattle.shred_run.specs.declared.system.RunningTime.TheVariants.{Average};
ghost use Rattle.shred_table.specs.Id.{id_of};
ghost use Rattle.test_values.specs.Values.{count_kind};

use shred::{BatchAccessor, Fault, OutOfMemory, RunningTime, System, View, World};
use std::alloc::Global;
use std::process::Abort;
use std::test::Fail;
use test_calls::counts::{answer_of, count_at, count_id, put};
use test_values::{Count, Value};

/// It adds the amount to the count under its number, and then refuses with the code, where that is not 0. It may read another
/// count, and does not. Its setup puts `inserts` under its number, and its disposal `leaves`, where there is one.
#[derive(Clone, Copy)]
pub(crate) struct Adds {
    pub(crate) number: u64,
    pub(crate) reads: u64,
    pub(crate) amount: i64,
    pub(crate) code: u8,
    pub(crate) inserts: Option<i64>,
    pub(crate) leaves: Option<i64>,
}

/// The number of a count that nothing writes.
pub(crate) const UNWRITTEN: u64 = 1000;

/// It changes nothing, and never refuses.
pub(crate) const IDLE: Adds = Adds {
    number: 0,
    reads: UNWRITTEN,
    amount: 0,
    code: 0,
    inserts: None,
    leaves: None,
};

/// It adds this amount to the count of this number.
pub(crate) fn adds_to(number: u64, amount: i64) -> Adds {
    Adds {
        number,
        amount,
        ..IDLE
    }
}

/// It adds this amount to the count of this number, and then refuses with this code.
pub(crate) fn refuses(number: u64, amount: i64, code: u8) -> Adds {
    Adds {
        code,
        ..adds_to(number, amount)
    }
}

impl Adds {
    // The count after a run.
    fn sum(&self, count: i64) -> i64 {
        count.wrapping_add(self.amount)
    }
}

impl System<Value> for Adds {
    type Error = u8;

    type Accessor = BatchAccessor;

    ghost reads = { λ system. id_of count_kind system.reads ∷ [] };

    ghost writes = { λ system. id_of count_kind system.number ∷ [] };

    ghost time = { λ system. Average };

    ghost step = { λ _ _ _ _ _. Unit {0} };

    ghost sets_up = { λ _ _ _ _ _. Unit {0} };

    ghost disposes = { λ _ _ _ _. Unit {0} };

    fn run(&mut self, view: &mut View<Value>) -> Result<(), Fault<u8>> {
        match view.write::<Count>(count_id(self.number)) {
            Ok(count) => {
                let answer = answer_of(self.code);
                *count = Count(self.sum(count.0));
                answer
            }
            Err(_) => Err(Fault::Refused(101)),
        }
    }

    fn running_time(&self) -> RunningTime {
        RunningTime::Average
    }

    fn accessor(&self, alloc: Global) -> Result<BatchAccessor, OutOfMemory> {
        BatchAccessor::of(alloc, &[count_id(self.reads)], &[count_id(self.number)])
    }

    fn setup(&mut self, world: &mut World<Value>) -> Result<(), Fault<u8>> {
        put(world, self.number, self.inserts)
    }

    fn dispose(self, world: &mut World<Value>) -> Result<(), Fault<u8>> {
        put(world, self.number, self.leaves)
    }
}

/// A world of these counts, numbered from 0.
pub(crate) fn world_of(alloc: Global, counts: &[i64]) -> Result<World<Value>, Fail> {
    let mut world = World::empty(alloc);
    for (number, count) in counts.iter().enumerate() {
        world.insert_by_id(count_id(number as u64), Count(*count))?;
    }
    Ok(world)
}

/// The world holds these counts from 0 on.
pub(crate) fn expect_counts(rt: &impl Abort, world: &World<Value>, counts: &[i64]) {
    for (number, count) in counts.iter().enumerate() {
        assert_eq!(rt; count_at(world, number as u64), Some(*count));
    }
}
