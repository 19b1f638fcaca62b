//! Two dispatches that end the same.
ghost use Rattle.std.specs.Prelude.{◌≡◌, true};
ghost use Rattle.shred.specs.FullRuns.{whole_over};
ghost use Rattle.shred_orders.specs.OneEnd.{IsSameButThreads};
ghost use Rattle.example_systems.specs.Adders.{AreBothRun};
ghost use Rattle.example_systems.specs.Numbers.{kind_of};

use crate::enum_of_systems::Add;
use shred::{Dispatcher, Only, Plain, World};
use shred_orders::dispatch_alike;
use std::thread::Threads;

/// Dispatches two dispatchers that add, each on as many threads as it has and over numbers of its own. It tells whether
/// both were done; where they were, and began with the same plan, systems, thread-local systems and numbers, they left
/// the same.
pub fn both_added<R: Threads + Sync>(
    rt: &R,
    first: &mut Dispatcher<Only<i64>, Plain<Add>>,
    numbers: &mut World<Only<i64>>,
    second: &mut Dispatcher<Only<i64>, Plain<Add>>,
    others: &mut World<Only<i64>>,
) -> bool
    ensures ran { AreBothRun (whole_over kind_of first.old numbers.old) (whole_over kind_of second.old others.old) result (whole_over kind_of first.new numbers.new) (whole_over kind_of second.new others.new) }
    ensures alike { result ≡ true → IsSameButThreads (whole_over kind_of first.old numbers.old) (whole_over kind_of second.old others.old) → IsSameButThreads (whole_over kind_of first.new numbers.new) (whole_over kind_of second.new others.new) }
{
    let (one, two) = dispatch_alike(rt, first, numbers, second, others);
    one.is_ok() && two.is_ok()
}
