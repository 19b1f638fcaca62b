//! Setup of what stands in an entry: of a system, or of a batch, whose inner plan leads back here.
ghost use Rattle.std.specs.Prelude.{◌≡◌, ◌-◌, All, map};
ghost use Rattle.shred_run.specs.Depths.{Owns, lists_of, depth_of};
ghost use Rattle.shred_run.specs.KeptControllers.{IsOwnControl, control_access};
ghost use Rattle.shred_run.specs.Hands.{IsSameButEntries, KeepsRoom};
ghost use Rattle.shred_run.specs.OwnLists.{IsEntryOf, IsGroupOf};
ghost use Rattle.shred_run.specs.PlanOf.{entry_plan, group_plan};
ghost use Rattle.shred_run.specs.Rules.{RuleOwns};
ghost use Rattle.shred_run.specs.Owned.{HasOwnGroups, IsOwned, StaysOwned, StayTiers};
ghost use Rattle.shred_run.specs.SettingUp.{WorkSetUp, BatchSetUp, TiersSetUp, GroupsSetUp, GroupSetUp, EntriesSetUp, EntrySetUp, TiersOwnGroups, TiersStayOwn};

use crate::controller::BatchController;
use crate::depth::depth_by;
use crate::entry::{Group, GroupEntry, StageFault};
use crate::system::{Fault, System};
use crate::work::{Batch, Nested, Tier, Work, within};
use shred_world::{ResourceValue, World};

// Sets a system up, or a batch whose batches nest less deep than `depth`: its controller, and then what stands in its inner
// plan, in the plan's order, up to the first that is not Done, whose fault is the batch's. What was done before it stays.
#[cycle(set_up)]
fn set_up_work<V: ResourceValue, S: System<V, Error = E>, C: BatchController<V, Error = E>, E>(
    depth: usize,
    work: &mut Work<S, Nested<V, S, C>>,
    world: &mut World<V>,
) -> Result<(), Fault<E>>
    requires { IsOwned (lists_of S.System C.BatchController) depth work.old }
    ensures set_up { WorkSetUp V.kind_of S.System C.BatchController depth work.old world.old result work.new world.new }
    ensures owned { StaysOwned (lists_of S.System C.BatchController) depth work.old work.new }
    ensures noted { depth_of work.new ≡ depth_of work.old }
{
    match work {
        Work::System(system) => system.setup(world),
        Work::Batch(nested) => set_up_batch(depth - 1, &mut nested.batch, world),
    }
}

// Sets a batch up whose batches nest less deep.
#[cycle(set_up)]
fn set_up_batch<V: ResourceValue, S: System<V, Error = E>, C: BatchController<V, Error = E>, E>(
    less: usize,
    batch: &mut Batch<V, C, Work<S, Nested<V, S, C>>>,
    world: &mut World<V>,
) -> Result<(), Fault<E>>
    requires control { IsOwnControl C.reads C.writes batch.old.control }
    requires tiers { TiersOwnGroups S.System C.BatchController less batch.old.tiers.items }
    ensures set_up { BatchSetUp V.kind_of S.System C.BatchController less batch.old world.old result batch.new world.new }
    ensures access { control_access batch.new.control ≡ control_access batch.old.control }
    ensures control { IsOwnControl C.reads C.writes batch.new.control }
    ensures tiers { TiersStayOwn S.System C.BatchController less batch.old.tiers.items batch.new.tiers.items }
{
    if let Err(fault) = batch.control.controller.setup(world) {
        return Err(fault);
    }
    match set_up_tiers(less, batch.tiers.as_mut_slice(), world) {
        Ok(()) => Ok(()),
        Err(fault) => Err(within(fault)),
    }
}

// Sets up what stands in some tiers, in order, up to the first that is not Done.
#[cycle(set_up)]
fn set_up_tiers<V: ResourceValue, S: System<V, Error = E>, C: BatchController<V, Error = E>, E>(
    less: usize,
    tiers: &mut [Tier<V, Work<S, Nested<V, S, C>>>],
    world: &mut World<V>,
) -> Result<(), StageFault<E>>
    requires { All (HasOwnGroups (Owns (lists_of S.System C.BatchController) less)) tiers.old }
    ensures set_up { TiersSetUp V.kind_of S.System C.BatchController less tiers.old world.old result tiers.new world.new }
    ensures stay { StayTiers (Owns (lists_of S.System C.BatchController) less) tiers.old tiers.new }
{
    for tier in tiers.iter_mut() {
        if let Err(fault) = set_up_groups(Some(less), tier.groups.as_mut_slice(), world) {
            return Err(fault);
        }
    }
    Ok(())
}

/// Sets up what stands in some groups, in order, up to the first that is not Done: batches to one depth, or each to the depth
/// that is noted of it.
#[cycle(set_up)]
pub fn set_up_groups<
    V: ResourceValue,
    S: System<V, Error = E>,
    C: BatchController<V, Error = E>,
    E,
>(
    at: Option<usize>,
    groups: &mut [Group<V, Work<S, Nested<V, S, C>>>],
    world: &mut World<V>,
) -> Result<(), StageFault<E>>
    requires owns { All (IsGroupOf (RuleOwns (lists_of S.System C.BatchController) at)) groups.old }
    requires room { All KeepsRoom groups.old }
    ensures { GroupsSetUp V.kind_of S.System C.BatchController at groups.old world.old result groups.new world.new }
{
    for group in groups.iter_mut() {
        if let Err(fault) = set_up_group(at, group, world) {
            return Err(fault);
        }
    }
    Ok(())
}

// Sets up what stands in a group's entries, in order, up to the first that is not Done.
#[cycle(set_up)]
fn set_up_group<V: ResourceValue, S: System<V, Error = E>, C: BatchController<V, Error = E>, E>(
    at: Option<usize>,
    group: &mut Group<V, Work<S, Nested<V, S, C>>>,
    world: &mut World<V>,
) -> Result<(), StageFault<E>>
    requires { IsGroupOf (RuleOwns (lists_of S.System C.BatchController) at) group.old }
    ensures set_up { GroupSetUp V.kind_of S.System C.BatchController at group.old world.old result group.new world.new }
    ensures plan { group_plan group.new ≡ group_plan group.old }
    ensures owns { IsGroupOf (RuleOwns (lists_of S.System C.BatchController) at) group.new }
    ensures same { IsSameButEntries group.old group.new }
{
    set_up_entries(at, group.entries.as_mut_slice(), world)
}

// Sets up what stands in some entries, in order, up to the first that is not Done.
#[cycle(set_up)]
fn set_up_entries<V: ResourceValue, S: System<V, Error = E>, C: BatchController<V, Error = E>, E>(
    at: Option<usize>,
    entries: &mut [GroupEntry<V, Work<S, Nested<V, S, C>>>],
    world: &mut World<V>,
) -> Result<(), StageFault<E>>
    requires { All (IsEntryOf (RuleOwns (lists_of S.System C.BatchController) at)) entries.old }
    ensures set_up { EntriesSetUp V.kind_of S.System C.BatchController at entries.old world.old result entries.new world.new }
    ensures plan { map entry_plan entries.new ≡ map entry_plan entries.old }
    ensures owns { All (IsEntryOf (RuleOwns (lists_of S.System C.BatchController) at)) entries.new }
{
    for entry in entries.iter_mut() {
        if let Err(fault) = set_up_entry(at, entry, world) {
            return Err(fault);
        }
    }
    Ok(())
}

// Sets up what stands in the entry; a fault is told with its id.
#[cycle(set_up)]
fn set_up_entry<V: ResourceValue, S: System<V, Error = E>, C: BatchController<V, Error = E>, E>(
    at: Option<usize>,
    entry: &mut GroupEntry<V, Work<S, Nested<V, S, C>>>,
    world: &mut World<V>,
) -> Result<(), StageFault<E>>
    requires { IsEntryOf (RuleOwns (lists_of S.System C.BatchController) at) entry.old }
    ensures set_up { EntrySetUp V.kind_of S.System C.BatchController at entry.old world.old result entry.new world.new }
    ensures plan { entry_plan entry.new ≡ entry_plan entry.old }
    ensures owns { IsEntryOf (RuleOwns (lists_of S.System C.BatchController) at) entry.new }
{
    let depth = depth_by(at, &entry.work);
    match set_up_work(depth, &mut entry.work, world) {
        Ok(()) => Ok(()),
        Err(fault) => Err(StageFault::System {
            id: entry.id,
            fault,
        }),
    }
}
