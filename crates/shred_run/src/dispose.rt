//! Disposal of what stands in an entry: of a system, or of what stands in a batch's inner plan, which leads back here.
ghost use Rattle.std.specs.Prelude.{◌-◌, All};
ghost use Rattle.shred_run.specs.Nesting.{IsNoDeeper};
ghost use Rattle.shred_run.specs.Rules.{EntryNests, GroupNests, TierNests};
ghost use Rattle.shred_run.specs.WorkSetups.{WorkDisposal};
ghost use Rattle.shred_world.specs.Between.{LeavesWorld};
ghost use Rattle.shred_run.specs.Disposing.{BatchDisposed, TiersDisposed, GroupsDisposed, GroupDisposed, EntryDisposed};

use crate::depth::depth_by;
use crate::entry::{Group, GroupEntry, StageFault};
use crate::first::first;
use crate::system::{Fault, System};
use crate::work::{Batch, Nested, Tier, Work, within};
use shred_world::{ResourceValue, World};

// Disposes of a system, or of what stands in the inner plan of a batch whose batches nest less deep than `depth`, in the plan's
// order, also of what stands behind one that is not Done. The answer tells the first that is not Done.
#[cycle(dispose)]
fn dispose_of_work<V: ResourceValue + Drop, S: System<V, Error = E> + Drop, C: Drop, E: Drop>(
    depth: usize,
    work: Work<S, Nested<V, S, C>>,
    world: &mut World<V>,
) -> Result<(), Fault<E>>
    requires { IsNoDeeper depth work }
    ensures { LeavesWorld V.kind_of (WorkDisposal C S.disposes depth work) world.old result world.new }
{
    match work {
        Work::System(system) => system.dispose(world),
        Work::Batch(nested) => {
            let Nested { batch } = nested;
            dispose_of_batch(depth - 1, batch, world)
        }
    }
}

// Disposes of what stands in the inner plan of a batch whose batches nest less deep.
#[cycle(dispose)]
fn dispose_of_batch<V: ResourceValue + Drop, S: System<V, Error = E> + Drop, C: Drop, E: Drop>(
    less: usize,
    batch: Batch<V, C, Work<S, Nested<V, S, C>>>,
    world: &mut World<V>,
) -> Result<(), Fault<E>>
    requires { All (TierNests (Some less)) batch.tiers.items }
    ensures { BatchDisposed V.kind_of S.System less batch world.old result world.new }
{
    match dispose_of_tiers(less, batch.tiers, world) {
        Ok(()) => Ok(()),
        Err(fault) => Err(within(fault)),
    }
}

// Disposes of all that stands in some tiers, in order, and answers the first answer that is not Done.
#[cycle(dispose)]
fn dispose_of_tiers<V: ResourceValue + Drop, S: System<V, Error = E> + Drop, C: Drop, E: Drop>(
    less: usize,
    tiers: Vec<Tier<V, Work<S, Nested<V, S, C>>>>,
    world: &mut World<V>,
) -> Result<(), StageFault<E>>
    requires { All (TierNests (Some less)) tiers.items }
    ensures { TiersDisposed V.kind_of S.System less tiers.items world.old result world.new }
{
    let mut answer = Ok(());
    for tier in tiers {
        answer = first(answer, dispose_of_groups(Some(less), tier.groups, world));
    }
    answer
}

/// Disposes of all that stands in some groups, in order, batches to one depth, or each to the depth that is noted of it. The
/// answer is the first that is not Done.
#[cycle(dispose)]
pub fn dispose_of_groups<V: ResourceValue + Drop, S: System<V, Error = E> + Drop, C: Drop, E: Drop>(
    at: Option<usize>,
    groups: Vec<Group<V, Work<S, Nested<V, S, C>>>>,
    world: &mut World<V>,
) -> Result<(), StageFault<E>>
    requires { All (GroupNests at) groups.items }
    ensures { GroupsDisposed V.kind_of S.System at groups.items world.old result world.new }
{
    let mut answer = Ok(());
    for group in groups {
        answer = first(answer, dispose_of_group(at, group, world));
    }
    answer
}

// Disposes of all that stands in a group's entries, in order, and answers the first answer that is not Done.
#[cycle(dispose)]
fn dispose_of_group<V: ResourceValue + Drop, S: System<V, Error = E> + Drop, C: Drop, E: Drop>(
    at: Option<usize>,
    group: Group<V, Work<S, Nested<V, S, C>>>,
    world: &mut World<V>,
) -> Result<(), StageFault<E>>
    requires { GroupNests at group }
    ensures { GroupDisposed V.kind_of S.System at group world.old result world.new }
{
    let mut answer = Ok(());
    for entry in group.entries {
        answer = first(answer, dispose_of_entry(at, entry, world));
    }
    answer
}

// Disposes of what stands in the entry.
#[cycle(dispose)]
fn dispose_of_entry<V: ResourceValue + Drop, S: System<V, Error = E> + Drop, C: Drop, E: Drop>(
    at: Option<usize>,
    entry: GroupEntry<V, Work<S, Nested<V, S, C>>>,
    world: &mut World<V>,
) -> Result<(), StageFault<E>>
    requires { EntryNests at entry }
    ensures { EntryDisposed V.kind_of S.System at entry world.old result world.new }
{
    let id = entry.id;
    let depth = depth_by(at, &entry.work);
    match dispose_of_work(depth, entry.work, world) {
        Ok(()) => Ok(()),
        Err(fault) => Err(StageFault::System { id, fault }),
    }
}
