//! How deep batches nest in what stands in an entry, and how deep they are followed.
ghost use Rattle.std.specs.Prelude.{◌≡◌};
ghost use Rattle.shred_run.specs.Depths.{depth_of};
ghost use Rattle.shred_run.specs.Rules.{rule_depth};

use crate::work::{Nested, Work};

/// The depth that is noted of it: 0 of a system, and of a batch its own.
pub fn depth_of<V, S, C>(work: &Work<S, Nested<V, S, C>>) -> usize
    ensures { result ≡ depth_of work.now }
{
    match work {
        Work::System(_) => 0,
        Work::Batch(nested) => nested.batch.depth,
    }
}

/// The depth to which batches in it are followed: the given one, or else the one that is noted of it.
pub fn depth_by<V, S, C>(at: Option<usize>, work: &Work<S, Nested<V, S, C>>) -> usize
    ensures { result ≡ rule_depth at work.now }
{
    match at {
        Some(depth) => depth,
        None => depth_of(work),
    }
}
