//! The system that is dispatched.
ghost use Rattle.std.specs.Prelude.{◌≡◌, [], ◌∷◌};
ghost use Rattle.shredmeasure.specs.Adds.{adds_one};
ghost use Rattle.shredmeasure.specs.Counts.{count_id};

use shred::{BatchAccessor, DataError, Fault, Only, OutOfMemory, PlainSystem, View, only_id};
use std::alloc::Global;
use std::hint::spin_loop;

/// Waits for so many pauses of the processor, and adds 1 to the count of its number. It declares to read the count of number 0,
/// and does not look at it.
#[derive(Drop)]
pub(crate) struct AddOne {
    pub(crate) number: u64,
    pub(crate) work: u64,
}

fn pause(times: u64) {
    for _ in 0..times {
        spin_loop();
    }
}

impl PlainSystem<Only<i64>> for AddOne {
    type Error = DataError;

    ghost reads = { λ system. count_id 0 ∷ [] };

    ghost writes = { λ system. count_id system.number ∷ [] };

    // A run that is Done adds 1 to the count of its number, within 64 bits with sign.
    ghost step = { adds_one };

    fn run(&mut self, view: &mut View<Only<i64>>) -> Result<(), Fault<DataError>> {
        pause(self.work);
        match view.write::<i64>(only_id(self.number)) {
            Ok(count) => {
                *count = count.wrapping_add(1);
                Ok(())
            }
            Err(error) => Err(Fault::from(error)),
        }
    }

    fn accessor(&self, alloc: Global) -> Result<BatchAccessor, OutOfMemory> {
        BatchAccessor::of(alloc, &[only_id(0)], &[only_id(self.number)])
    }
}
