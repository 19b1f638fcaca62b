//! An enum whose variants are systems, so that systems of different types share a dispatcher.
ghost use Rattle.std.specs.Prelude.{◌≡◌, [], ◌∷◌, IfSome, pos};
ghost use Rattle.example_systems.specs.Jobs.{AddStep, CopyStep, JobStep, job_reads, job_writes};
ghost use Rattle.example_systems.specs.Numbers.{number_id};

use crate::two_systems::left_at_two;
use shred::{
    BatchAccessor, DataError, Fault, Only, OutOfMemory, Plain, PlainSystem, View, only_id,
};
use std::alloc::Global;

/// Adds to the number that stands at a place, and wraps past 64 bits with sign.
#[derive(Drop)]
pub struct Add {
    pub to: u64,
    pub amount: i64,
}

impl PlainSystem<Only<i64>> for Add {
    type Error = DataError;

    ghost reads = { λ system. [] };

    ghost writes = { λ system. number_id system.to ∷ [] };

    ghost step = { AddStep };

    fn run(&mut self, view: &mut View<Only<i64>>) -> Result<(), Fault<DataError>> {
        match view.write::<i64>(only_id(self.to)) {
            Ok(number) => {
                *number = number.wrapping_add(self.amount);
                Ok(())
            }
            Err(error) => Err(Fault::from(error)),
        }
    }

    fn accessor(&self, alloc: Global) -> Result<BatchAccessor, OutOfMemory> {
        BatchAccessor::of(alloc, &[], &[only_id(self.to)])
    }
}

/// Copies the number of one place to another.
#[derive(Drop)]
pub struct Copy {
    pub from: u64,
    pub to: u64,
}

impl PlainSystem<Only<i64>> for Copy {
    type Error = DataError;

    ghost reads = { λ system. number_id system.from ∷ [] };

    ghost writes = { λ system. number_id system.to ∷ [] };

    ghost step = { CopyStep };

    fn run(&mut self, view: &mut View<Only<i64>>) -> Result<(), Fault<DataError>> {
        let copied = match view.read::<i64>(only_id(self.from)) {
            Ok(number) => *number,
            Err(error) => return Err(Fault::from(error)),
        };
        match view.write::<i64>(only_id(self.to)) {
            Ok(number) => {
                *number = copied;
                Ok(())
            }
            Err(error) => Err(Fault::from(error)),
        }
    }

    fn accessor(&self, alloc: Global) -> Result<BatchAccessor, OutOfMemory> {
        BatchAccessor::of(alloc, &[only_id(self.from)], &[only_id(self.to)])
    }
}

/// One of the systems of this program.
#[derive(Drop)]
pub enum Job {
    Add(Add),
    Copy(Copy),
}

impl PlainSystem<Only<i64>> for Job {
    type Error = DataError;

    ghost reads = { job_reads };

    ghost writes = { job_writes };

    ghost step = { JobStep };

    fn run(&mut self, view: &mut View<Only<i64>>) -> Result<(), Fault<DataError>> {
        match self {
            Job::Add(add) => add.run(view),
            Job::Copy(copy) => copy.run(view),
        }
    }

    fn accessor(&self, alloc: Global) -> Result<BatchAccessor, OutOfMemory> {
        match self {
            Job::Add(add) => add.accessor(alloc),
            Job::Copy(copy) => copy.accessor(alloc),
        }
    }
}

/// What is left at place 2, once 3 was added to the 5 at place 1 and that was copied: 8; none where something was refused.
pub fn copied_by_jobs(alloc: Global) -> Option<i64>
    ensures { IfSome result (λ number. number ≡ pos 8) }
{
    let add = Job::Add(Add { to: 1, amount: 3 });
    let copy = Job::Copy(Copy { from: 1, to: 2 });
    left_at_two(alloc, Plain(add), Plain(copy))
}
