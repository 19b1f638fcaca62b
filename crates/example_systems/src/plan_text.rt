//! The text of a plan, in memory.
ghost use Rattle.std.specs.Prelude.{IfErr, IfOk, IfSome};
ghost use Rattle.std.specs.String.{string_bytes};
ghost use Rattle.shred_stage.specs.Names.{AreNames};
ghost use Rattle.shred.specs.Builders.{built, builder_pairs};
ghost use Rattle.example_systems.specs.PlanTexts.{HasThree, IsRefusalOf, IsTextOf, IsTextOfThree};

use crate::enum_of_systems::{Add, Copy, Job};
use shred::{
    AddError, DispatcherBuilder, Only, Plain, PlanSink, PrintError, ResourceValue, SinkFailed,
    System,
};
use std::alloc::Global;

/// The bytes that were put. Memory that is refused is a failure, and the failures are counted up to the greatest `usize`.
#[derive(Drop)]
struct Bytes {
    put: Vec<u8>,
    failures: usize,
}

impl PlanSink for Bytes {
    ghost use Rattle.std.specs.Prelude.{Some};

    ghost told = { λ bytes. Some bytes.put.items };

    ghost failures = { λ bytes. bytes.failures };

    fn put(&mut self, piece: &[u8]) -> Result<usize, SinkFailed> {
        if self.put.extend_from_slice(piece).is_ok() {
            return Ok(piece.len());
        }
        self.failures = self.failures.saturating_add(1);
        Err(SinkFailed)
    }
}

/// What the builder prints of its plan.
pub fn text_of<V: ResourceValue, S: System<V> + Drop>(
    alloc: Global,
    builder: &DispatcherBuilder<V, S>,
) -> Result<Vec<u8>, PrintError>
    ensures text { IfOk result (λ text. IsTextOf (builder_pairs builder.now) (built builder.now).plan text.items) }
    ensures names { AreNames (builder_pairs builder.now) (built builder.now).known }
    ensures refused { IfErr result (IsRefusalOf (builder_pairs builder.now) (built builder.now).plan) }
{
    let mut bytes = Bytes {
        put: Vec::new(alloc),
        failures: 0,
    };
    match builder.print_par_seq(&mut bytes) {
        Ok(()) => Ok(bytes.put),
        Err(error) => Err(error),
    }
}

/// A plan of two systems that are run at once, and one after them.
fn plan_of_three(alloc: Global) -> Result<DispatcherBuilder<Only<i64>, Plain<Job>>, AddError>
    ensures { IfOk result (λ builder. HasThree (built builder)) }
{
    let first = Plain(Job::Add(Add { to: 1, amount: 3 }));
    let second = Plain(Job::Add(Add { to: 2, amount: 4 }));
    let third = Plain(Job::Copy(Copy { from: 1, to: 2 }));
    DispatcherBuilder::new(alloc)
        .with(first, "first", &[])?
        .with(second, "second", &[])?
        .with(third, "third", &["first", "second"])
}

/// The text of that plan; none where something was refused.
pub fn text_of_three(alloc: Global) -> Option<String>
    ensures { IfSome result (λ text. IsTextOfThree (string_bytes text)) }
{
    let builder = plan_of_three(alloc).ok()?;
    String::from_utf8(text_of(alloc, &builder).ok()?).ok()
}
