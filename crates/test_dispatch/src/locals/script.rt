//! A system that does to one count what its script says.
ghost use Rattle.std.specs.Prelude.{[], ◌∷◌};
ghost use Rattle.shred_run.specs.declared.system.RunningTime.TheVariants.{Average};
ghost use Rattle.shred_table.specs.Id.{id_of};
ghost use Rattle.test_values.specs.Values.{count_kind};

use shred::{BatchAccessor, Fault, OutOfMemory, RunningTime, System, View, World, WorldError};
use std::alloc::Global;
use std::process::Abort;
use test_calls::counts::{answer_of, count_at, count_id, put};
use test_values::{Count, Value};

/// What a system does to the count under its number. Where a code is not 0, it then refuses with that.
#[derive(Clone, Copy)]
pub(crate) struct Script {
    pub(crate) number: u64,
    /// What its setup puts there.
    pub(crate) inserts: Option<i64>,
    pub(crate) setup_code: u8,
    /// What its run has to find there. It refuses with 100 where it finds another count.
    pub(crate) finds: Option<i64>,
    /// Its run multiplies by the factor, and then adds the amount.
    pub(crate) factor: i64,
    pub(crate) amount: i64,
    pub(crate) run_code: u8,
    /// What its disposal puts there.
    pub(crate) leaves: Option<i64>,
    pub(crate) dispose_code: u8,
}

/// It changes nothing, and never refuses.
pub(crate) const IDLE: Script = Script {
    number: 0,
    inserts: None,
    setup_code: 0,
    finds: None,
    factor: 1,
    amount: 0,
    run_code: 0,
    leaves: None,
    dispose_code: 0,
};

// `put`, and then the answer of the code.
fn put_and_answer(
    world: &mut World<Value>,
    number: u64,
    count: Option<i64>,
    code: u8,
) -> Result<(), Fault<u8>> {
    match put(world, number, count) {
        Ok(()) => answer_of(code),
        Err(fault) => Err(fault),
    }
}

impl Script {
    // The count after a run.
    fn turned(&self, count: i64) -> i64 {
        count.wrapping_mul(self.factor).wrapping_add(self.amount)
    }

    // How a run ends that found this count.
    fn answer_at(&self, count: i64) -> Result<(), Fault<u8>> {
        match self.finds {
            Some(wanted) if wanted != count => Err(Fault::Refused(100)),
            _ => answer_of(self.run_code),
        }
    }
}

impl System<Value> for Script {
    type Error = u8;

    type Accessor = BatchAccessor;

    ghost reads = { λ system. [] };

    ghost writes = { λ system. id_of count_kind system.number ∷ [] };

    ghost time = { λ system. Average };

    ghost step = { λ _ _ _ _ _. Unit {0} };

    ghost sets_up = { λ _ _ _ _ _. Unit {0} };

    ghost disposes = { λ _ _ _ _. Unit {0} };

    fn run(&mut self, view: &mut View<Value>) -> Result<(), Fault<u8>> {
        match view.write::<Count>(count_id(self.number)) {
            Ok(count) => {
                let answer = self.answer_at(count.0);
                *count = Count(self.turned(count.0));
                answer
            }
            Err(_) => Err(Fault::Refused(101)),
        }
    }

    fn running_time(&self) -> RunningTime {
        RunningTime::Average
    }

    fn accessor(&self, alloc: Global) -> Result<BatchAccessor, OutOfMemory> {
        BatchAccessor::of(alloc, &[], &[count_id(self.number)])
    }

    fn setup(&mut self, world: &mut World<Value>) -> Result<(), Fault<u8>> {
        put_and_answer(world, self.number, self.inserts, self.setup_code)
    }

    fn dispose(self, world: &mut World<Value>) -> Result<(), Fault<u8>> {
        put_and_answer(world, self.number, self.leaves, self.dispose_code)
    }
}

/// A world of these counts, numbered from 0.
pub(crate) fn world_of(alloc: Global, counts: &[Option<i64>]) -> Result<World<Value>, WorldError> {
    let mut world = World::empty(alloc);
    for (number, count) in counts.iter().enumerate() {
        if let Some(count) = count {
            world.insert_by_id(count_id(number as u64), Count(*count))?;
        }
    }
    Ok(world)
}

/// The world holds just these of the counts from 0 on.
pub(crate) fn expect_counts(rt: &impl Abort, world: &World<Value>, counts: &[Option<i64>]) {
    for (number, count) in counts.iter().enumerate() {
        assert_eq!(rt; count_at(world, number as u64), *count);
    }
}
