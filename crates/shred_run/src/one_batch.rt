//! Groups of which there is one, of one batch.
ghost use Rattle.std.specs.Prelude.{◌≡◌};
ghost use Rattle.shred_run.specs.OneBatch.{is_lone_batch, is_one_batch};

use crate::entry::{Group, GroupEntry};
use crate::work::Work;

/// Whether there is one entry, and a batch stands in it.
pub fn is_one_batch<V, S, B>(entries: &[GroupEntry<V, Work<S, B>>]) -> bool
    ensures { result ≡ is_one_batch entries.now }
{
    entries.len() == 1 && entries[0].work.is_batch()
}

/// Whether there is one group, of one batch.
pub fn is_lone_batch<V, S, B>(groups: &[Group<V, Work<S, B>>]) -> bool
    ensures { result ≡ is_lone_batch groups.now }
{
    groups.len() == 1 && is_one_batch(groups[0].entries.as_slice())
}
