//! A controller that runs its plan up to a bound, and says no after some rounds.
ghost use Rattle.std.specs.Prelude.{◌≡◌, [], ◌∷◌};
ghost use Rattle.shred_run.specs.declared.system.RunningTime.TheVariants.{VeryLong};
ghost use Rattle.shred_table.specs.Id.{id_of};
ghost use Rattle.test_values.specs.Values.{count_kind};

use crate::adds::UNWRITTEN;
use shred::{BatchAccessor, BatchController, Fault, OutOfMemory, RunningTime, View, World};
use std::alloc::Global;
use test_calls::counts::{answer_of, count_id, put};
use test_values::{Count, Value};

/// Begins with this bound, and says yes as often as `yes` says. It adds 1 to the count under its number each time that it is
/// asked, and refuses to begin with the code, where that is not 0. It may read another count, and does not. Its setup puts
/// `inserts` under its number.
#[derive(Clone, Copy)]
pub(crate) struct Bounds {
    pub(crate) number: u64,
    pub(crate) reads: u64,
    pub(crate) bound: usize,
    pub(crate) yes: usize,
    pub(crate) asked: usize,
    pub(crate) code: u8,
    pub(crate) inserts: Option<i64>,
}

/// It never runs its plan.
pub(crate) const NEVER: Bounds = Bounds {
    number: 0,
    reads: UNWRITTEN,
    bound: 0,
    yes: 0,
    asked: 0,
    code: 0,
    inserts: None,
};

/// Runs its plan so often, and counts under this number how often it was asked.
pub(crate) fn times(number: u64, bound: usize) -> Bounds {
    Bounds {
        number,
        bound,
        yes: bound,
        ..NEVER
    }
}

impl Bounds {
    // Whether it says yes, asked once more.
    fn says(&mut self) -> bool
        ensures number { self.new.number ≡ self.old.number }
        ensures reads { self.new.reads ≡ self.old.reads }
    {
        self.asked = self.asked.wrapping_add(1);
        self.asked <= self.yes
    }
}

// One more.
fn next(count: i64) -> i64 {
    count.wrapping_add(1)
}

impl BatchController<Value> for Bounds {
    type Error = u8;

    type Accessor = BatchAccessor;

    ghost reads = { λ controller. id_of count_kind controller.reads ∷ [] };

    ghost writes = { λ controller. id_of count_kind controller.number ∷ [] };

    ghost time = { λ controller. VeryLong };

    ghost begins = { λ _ _ _ _ _. Unit {0} };

    ghost asks = { λ _ _ _ _ _. Unit {0} };

    ghost sets_up = { λ _ _ _ _ _. Unit {0} };

    fn begin(&mut self, _view: &mut View<Value>) -> Result<usize, Fault<u8>> {
        self.asked = 0;
        match answer_of(self.code) {
            Ok(()) => Ok(self.bound),
            Err(fault) => Err(fault),
        }
    }

    fn again(&mut self, view: &mut View<Value>) -> Result<bool, Fault<u8>> {
        let answer = self.says();
        match view.write::<Count>(count_id(self.number)) {
            Ok(count) => {
                *count = Count(next(count.0));
                Ok(answer)
            }
            Err(_) => Err(Fault::Refused(102)),
        }
    }

    fn running_time(&self) -> RunningTime {
        RunningTime::VeryLong
    }

    fn accessor(&self, alloc: Global) -> Result<BatchAccessor, OutOfMemory> {
        BatchAccessor::of(alloc, &[count_id(self.reads)], &[count_id(self.number)])
    }

    fn setup(&mut self, world: &mut World<Value>) -> Result<(), Fault<u8>> {
        put(world, self.number, self.inserts)
    }
}
