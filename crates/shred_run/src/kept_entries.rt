//! The entries that are kept of systems and of batches.
ghost use Rattle.std.specs.Prelude.{◌≡◌, ◌↔◌, ◌++◌, ◌≤◌, ℕ, All, AllPairs, IfOk, OnOk};
ghost use Rattle.std.specs.List.{flat_map};
ghost use Rattle.shred_run.specs.Circles.{EntryOwns, TiersOwn};
ghost use Rattle.shred_run.specs.Kept.{HaveSameIds};
ghost use Rattle.shred_run.specs.KeptControllers.{IsOwnControl, control_access};
ghost use Rattle.shred_run.specs.Works.{tier_plan, tiers_plan};
ghost use Rattle.shred_run.specs.Sides.{plan_reads, plan_writes, stage_side};
ghost use Rattle.shred_table.specs.Id.{IsBefore};
ghost use Rattle.shred_table.specs.Parting.{IsEmptyHand};
ghost use Rattle.shred_table.specs.declared.id.ResourceId.{ResourceId};
ghost use Rattle.shred_run.specs.Batches.{NotesAtMost, TierNotesAtMost};
ghost use Rattle.shred_run.specs.declared.work.Work.TheVariants.{System as ASystem};
ghost use Rattle.shred_run.specs.Alone.{access_by};
ghost use Rattle.shred_run.specs.SystemSteps.{KeepsSystem, KeepsBatch, HoldsBatch};

use crate::control::KeptController;
use crate::controller::BatchController;
use crate::depth::depth_of;
use crate::entry::{GroupEntry, Side, SystemId};
use crate::sorted::sort_without_doubles;
use crate::system::System;
use crate::work::{Batch, Nested, Tier, Work};
use shred_world::parting::empty_hand;
use shred_world::{Accessor, OutOfMemory, ResourceId, ResourceValue, Table};
use std::alloc::Global;

// A controller with what is kept of it.
fn kept_controller<V: ResourceValue + Drop, C: BatchController<V> + Drop>(
    alloc: Global,
    controller: C,
) -> Result<KeptController<V, C>, OutOfMemory>
    ensures controller { IfOk result (λ control. control.controller ≡ controller) }
    ensures access { IfOk result (λ control. control_access control ≡ access_by C.reads C.writes controller) }
    ensures own { IfOk result (IsOwnControl C.reads C.writes) }
{
    let accessor = controller.accessor(alloc)?;
    let reads = accessor.reads(alloc)?;
    let writes = accessor.writes(alloc)?;
    let hand = empty_hand(alloc, writes.as_slice())?;
    Ok(KeptController {
        controller,
        reads,
        writes,
        hand,
    })
}

// Puts the ids of one side of the accesses of a tier's entries at the list's end.
fn append_tier<V, X>(
    tier: &Tier<V, X>,
    side: Side,
    ids: &mut Vec<ResourceId>,
) -> Result<(), OutOfMemory>
    ensures { OnOk result (ids.new.items ≡ ids.old.items ++ stage_side side (tier_plan tier.now)) }
{
    for group in &tier.groups {
        group.append_to(side, ids)?;
    }
    Ok(())
}

// Puts the ids of one side of the accesses of the entries of tiers at the list's end.
fn append_tiers<V, X>(
    tiers: &Vec<Tier<V, X>>,
    side: Side,
    ids: &mut Vec<ResourceId>,
) -> Result<(), OutOfMemory>
    ensures { OnOk result (ids.new.items ≡ ids.old.items ++ flat_map (stage_side side) (tiers_plan tiers.now.items)) }
{
    for tier in tiers {
        append_tier(tier, side, ids)?;
    }
    Ok(())
}

// These ids and those of one side of the accesses of the entries of tiers, in order, each once.
fn joined<V, X>(
    alloc: Global,
    own: &[ResourceId],
    tiers: &Vec<Tier<V, X>>,
    side: Side,
) -> Result<Vec<ResourceId>, OutOfMemory>
    ensures in_order { IfOk result (λ ids. AllPairs IsBefore ids.items) }
    ensures same { IfOk result (λ ids. HaveSameIds ids.items (own.now ++ flat_map (stage_side side) (tiers_plan tiers.now.items))) }
{
    let mut ids = Vec::from_slice(alloc, own)?;
    append_tiers(tiers, side, &mut ids)?;
    sort_without_doubles(&mut ids);
    Ok(ids)
}

// The greatest depth that is noted in some entries.
fn deepest_entry<V, S, C>(entries: &[GroupEntry<V, Work<S, Nested<V, S, C>>>]) -> usize
    ensures noted { All (NotesAtMost result) entries.now }
    ensures least { (most : ℕ) → All (NotesAtMost most) entries.now → result ≤ most }
{
    let mut most: usize = 0;
    for entry in entries {
        most = most.max(depth_of(&entry.work));
    }
    most
}

// The greatest depth that is noted in the entries of a tier.
fn deepest_group<V, S, C>(tier: &Tier<V, Work<S, Nested<V, S, C>>>) -> usize
    ensures noted { TierNotesAtMost result tier.now }
    ensures least { (most : ℕ) → TierNotesAtMost most tier.now → result ≤ most }
{
    let mut most: usize = 0;
    for group in &tier.groups {
        most = most.max(deepest_entry(group.entries.as_slice()));
    }
    most
}

// The greatest depth that is noted in the entries of tiers.
fn deepest<V, S, C>(tiers: &Vec<Tier<V, Work<S, Nested<V, S, C>>>>) -> usize
    ensures noted { All (TierNotesAtMost result) tiers.now.items }
    ensures least { (most : ℕ) → All (TierNotesAtMost most) tiers.now.items → result ≤ most }
{
    let mut most: usize = 0;
    for tier in tiers {
        most = most.max(deepest_group(tier));
    }
    most
}

// The two lists of a batch's entry: these ids of its controller joined with those of the entries of its tiers, reads with reads
// and writes with writes. And a hand for what is written.
fn kept_lists<V: Drop, X>(
    alloc: Global,
    reads: &[ResourceId],
    writes: &[ResourceId],
    tiers: &Vec<Tier<V, X>>,
) -> Result<(Vec<ResourceId>, Vec<ResourceId>, Table<V>), OutOfMemory>
    ensures reads_in_order { IfOk result (λ kept. AllPairs IsBefore kept.0.items) }
    ensures same_reads { IfOk result (λ kept. HaveSameIds kept.0.items (reads.now ++ plan_reads (tiers_plan tiers.now.items))) }
    ensures writes_in_order { IfOk result (λ kept. AllPairs IsBefore kept.1.items) }
    ensures same_writes { IfOk result (λ kept. HaveSameIds kept.1.items (writes.now ++ plan_writes (tiers_plan tiers.now.items))) }
    ensures hand { IfOk result (λ kept. IsEmptyHand kept.1.items kept.2) }
{
    let reads = joined(alloc, reads, tiers, Side::Reads)?;
    let writes = joined(alloc, writes, tiers, Side::Writes)?;
    let hand = empty_hand(alloc, writes.as_slice())?;
    Ok((reads, writes, hand))
}

/// What is kept of a system: its two lists, the reads in order and each once, and its time. `OutOfMemory` where memory is
/// refused, and the system is dropped.
pub fn system_entry<V: ResourceValue + Drop, S: System<V> + Drop, C: BatchController<V>>(
    alloc: Global,
    id: SystemId,
    system: S,
) -> Result<GroupEntry<V, Work<S, Nested<V, S, C>>>, OutOfMemory>
    ensures kept { IfOk result (KeepsSystem S.System id.0 system) }
    ensures same { IfOk result (λ entry. entry.work ≡ ASystem system) }
    ensures own_lists { IfOk result (EntryOwns S.System C.BatchController) }
{
    let time = system.running_time();
    let accessor = system.accessor(alloc)?;
    let mut reads = accessor.reads(alloc)?;
    let writes = accessor.writes(alloc)?;
    let hand = empty_hand(alloc, writes.as_slice())?;
    sort_without_doubles(&mut reads);
    Ok(GroupEntry {
        id,
        reads,
        writes,
        time,
        work: Work::System(system),
        hand,
    })
}

/// What is kept of a batch of this controller and these tiers: its lists are those that the controller declares joined with
/// those of the entries of the tiers, reads with reads and writes with writes, in order, each id once; its time is the
/// controller's. `OutOfMemory` where memory is refused, or where batches nest as deep as can be counted.
pub fn batch_entry<V: ResourceValue + Drop, S: System<V> + Drop, C: BatchController<V> + Drop>(
    alloc: Global,
    id: SystemId,
    controller: C,
    tiers: Vec<Tier<V, Work<S, Nested<V, S, C>>>>,
) -> Result<GroupEntry<V, Work<S, Nested<V, S, C>>>, OutOfMemory>
    requires { TiersOwn S.System C.BatchController tiers.items }
    ensures kept { IfOk result (KeepsBatch C.BatchController id.0 controller tiers.items) }
    ensures batch { IfOk result (HoldsBatch C.BatchController controller tiers.items) }
    ensures own_lists { IfOk result (EntryOwns S.System C.BatchController) }
{
    let Some(depth) = deepest(&tiers).checked_add(1) else {
        return Err(OutOfMemory);
    };
    let time = controller.running_time();
    let control = kept_controller(alloc, controller)?;
    let (reads, writes, hand) = kept_lists(
        alloc,
        control.reads.as_slice(),
        control.writes.as_slice(),
        &tiers,
    )?;
    let batch = Batch {
        control,
        tiers,
        depth,
    };
    Ok(GroupEntry {
        id,
        reads,
        writes,
        time,
        work: Work::Batch(Nested { batch }),
        hand,
    })
}
