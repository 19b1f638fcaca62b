//! Systems behind a boxed interface of the caller's own, so that their types are not listed.
ghost use Rattle.std.specs.Prelude.{◌≡◌, ℤ, List, IfOk, IfSome, false, is_some, pos};
ghost use Rattle.shred_run.specs.Steps.{Outcome};
ghost use Rattle.shred_table.specs.Accessors.{batch_reads, batch_writes};
ghost use Rattle.shred_table.specs.declared.id.ResourceId.{ResourceId};
ghost use Rattle.shred_table.specs.declared.only.Only.{Only};
ghost use Rattle.shred_world.specs.OwnViews.{IsLent};
ghost use Rattle.shred_world.specs.Views.{view_held, declared_held, may_write, table_name, IsSameView};
ghost use Rattle.shred_world.specs.Worked.{Held};
ghost use Rattle.shred_world.specs.declared.world.view.DataError.{DataError};
ghost use Rattle.example_systems.specs.Numbers.{kind_of};

use crate::enum_of_systems::{Add, Copy};
use crate::two_systems::left_at_two;
use shred::{BatchAccessor, DataError, Fault, Only, OutOfMemory, Plain, PlainSystem, View};
use std::alloc::Global;

/// A `PlainSystem` over numbers, whose type a box need not name.
pub trait AnyJob: Drop {
    ghost job_reads: { Self → List ResourceId };

    ghost job_writes: { Self → List ResourceId };

    ghost job_step: { Self → Held (Only ℤ) → Outcome DataError → Held (Only ℤ) → Type 0 };

    /// One step, as `PlainSystem::run`.
    fn run_job(&mut self, view: &mut View<Only<i64>>) -> Result<(), Fault<DataError>>
        requires lent { IsLent view.old (job_reads self.old) (job_writes self.old) }
        ensures step { job_step self.old (declared_held kind_of view.old) result (declared_held kind_of view.new) }
        ensures table { table_name view.new ≡ table_name view.old }
        ensures view { IsSameView view.old view.new }
        ensures ids { (id : ResourceId) → is_some (view_held kind_of view.new id) ≡ is_some (view_held kind_of view.old id) }
        ensures frame { (id : ResourceId) → may_write view.old id ≡ false → view_held kind_of view.new id ≡ view_held kind_of view.old id }
        ensures reads { job_reads self.new ≡ job_reads self.old }
        ensures writes { job_writes self.new ≡ job_writes self.old };

    /// The ids that are read, and those that are written.
    fn job_accessor(&self, alloc: Global) -> Result<BatchAccessor, OutOfMemory>
        ensures reads { IfOk result (λ accessor. batch_reads accessor ≡ job_reads self.now) }
        ensures writes { IfOk result (λ accessor. batch_writes accessor ≡ job_writes self.now) };
}

impl<T: PlainSystem<Only<i64>, Error = DataError> + Drop> AnyJob for T {
    ghost job_reads = { T.reads };

    ghost job_writes = { T.writes };

    ghost job_step = { λ before seen outcome left. (after : _) × T.step before seen outcome after left };

    fn run_job(&mut self, view: &mut View<Only<i64>>) -> Result<(), Fault<DataError>> {
        self.run(view)
    }

    fn job_accessor(&self, alloc: Global) -> Result<BatchAccessor, OutOfMemory> {
        self.accessor(alloc)
    }
}

/// A job behind a box.
#[derive(Drop)]
pub struct Boxed(pub Box<dyn AnyJob>);

impl PlainSystem<Only<i64>> for Boxed {
    type Error = DataError;

    ghost reads = { λ boxed. (AnyJob-box boxed.0).job_reads boxed.0.value };

    ghost writes = { λ boxed. (AnyJob-box boxed.0).job_writes boxed.0.value };

    // A step is one of the job in the box.
    ghost step = { λ before seen outcome after left. (AnyJob-box before.0).job_step before.0.value seen outcome left };

    fn run(&mut self, view: &mut View<Only<i64>>) -> Result<(), Fault<DataError>> {
        self.0.run_job(view)
    }

    fn accessor(&self, alloc: Global) -> Result<BatchAccessor, OutOfMemory> {
        self.0.job_accessor(alloc)
    }
}

/// What is left at place 2, once 3 was added to the 5 at place 1 and that was copied: 8; none where something was refused.
pub fn copied_by_boxes(alloc: Global) -> Option<i64>
    ensures { IfSome result (λ number. number ≡ pos 8) }
{
    let add: Box<dyn AnyJob> = Box::new(alloc, Add { to: 1, amount: 3 }).ok()?;
    let copy: Box<dyn AnyJob> = Box::new(alloc, Copy { from: 1, to: 2 }).ok()?;
    left_at_two(alloc, Plain(Boxed(add)), Plain(Boxed(copy)))
}
