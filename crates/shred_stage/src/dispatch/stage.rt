//! A stage of a plan: groups that run beside each other.
ghost use Rattle.std.proofs.Props.{props};
ghost use Rattle.std.specs.Prelude.{◌≡◌, ◌↔◌, ◌<◌, ◌≤◌, length, All, IfOk, OnOk, OnErr, IsSome, IfSome, ◌++◌, ◌∷◌, []};
ghost use Rattle.shred_model.specs.Plan.{group_access, group_ids, stage_ids};
ghost use Rattle.shred_model.specs.Beside.{AreApart};
ghost use Rattle.shred_stage.specs.Placement.{greatest_time};
ghost use Rattle.shred_run.specs.Circles.{EntryOwns, StageOwns, TierOwns};
ghost use Rattle.shred_run.specs.Hands.{KeepsRoom};
ghost use Rattle.shred_run.specs.PlanOf.{entry_access, entry_plan, groups_plan, numbers_of, HasEntryIds};
ghost use Rattle.shred_stage.specs.Search.{OthersDoNotConflict, SpotIs, TouchedIs, touched_by, NoneConflicts, conflicts_with, TakesIds};
ghost use Rattle.shred_run.specs.Touching.{is_touched};
ghost use Rattle.shred_run.specs.Sides.{stage_side};
ghost use Rattle.shred_stage.specs.Soundness.{IsSmallGroup};
ghost use Rattle.shred_run.specs.Depths.{lists_of};
ghost use Rattle.shred_run.specs.OwnFacts.{owns_itself-is_fact};
ghost use Rattle.std.specs.Coded.{Coded-set};

use crate::dispatch::lookup::group_system;
use shred_kept::{StageCrew, turn_kept};
use shred_run::dispose::dispose_of_groups;
use shred_run::entry::{Group, GroupEntry, Side};
use shred_run::setup::set_up_groups;
use shred_run::{
    BatchController, Nested, NoBatch, StageFault, System, SystemId, Tier, Work, beside, in_order,
};
use shred_world::parting::{keep, twin_of_local};
use shred_world::{LocalWorld, OutOfMemory, ResourceId, ResourceValue, World};
use smallvec::SmallVec;
use std::alloc::Global;
use std::sync::Wait;
use std::thread::Threads;

/// Which groups of a stage an entry has to come after.
#[derive(Clone, Copy)]
pub(crate) enum Touched {
    Nothing,
    One(usize),
    Several,
}

/// Where a stage takes an entry: as a new last group, or at the end of a group.
#[derive(Clone, Copy)]
pub(crate) enum Spot {
    NewGroup,
    EndOf(usize),
}

/// Groups that do not conflict, of one to four entries each, in which stand systems `S`, and batches with controllers `C`.
#[derive(Drop)]
pub struct Stage<
    V: ResourceValue,
    S: System<V>,
    C: BatchController<V> = NoBatch<<S as System<V>>::Error>,
> {
    groups: Vec<Group<V, Work<S, Nested<V, S, C>>>>,
    ghost some_group: { 0 < length groups.items },
    ghost small_groups: { All IsSmallGroup (groups_plan groups.items) },
    ghost apart: { AreApart group_access (groups_plan groups.items) },
    ghost keep_ids: { All HasEntryIds groups.items },
    ghost keep_room: { All KeepsRoom groups.items },
    ghost own_lists: { StageOwns S.System C.BatchController groups.items } by { Prim.hlevel (props, owns_itself-is_fact (Coded-set V.code) (lists_of S.System C.BatchController)) },
}

impl<V: ResourceValue, S: System<V>, C: BatchController<V>> Stage<V, S, C> {
    ghost use Rattle.shred_model.specs.Record.{Agent};
    ghost use Rattle.shred_run.specs.Works.{tier_plan, tier_states};
    ghost use Rattle.shred_stage.specs.Added.{nothing_at, AreSame, IsNew};
    ghost use Rattle.shred_stage.specs.EntriesAt.{stage_entry_at};
    ghost use Rattle.shred_stage.specs.Lookups.{stage_system};
    ghost use Rattle.std.specs.Option.{option_map};
    ghost use Rattle.shred_stage.specs.Plans.{stage_states};
    ghost use Rattle.shred_stage.specs.StagePlan.{group_of, may_end_in, stage_plan, PushesEntry, PushesGroup};

    /// A stage with this entry alone.
    pub(crate) fn new(
        alloc: Global,
        entry: GroupEntry<V, Work<S, Nested<V, S, C>>>,
    ) -> Result<Self, OutOfMemory>
    where
        V: Drop,
        S: Drop,
        C: Drop,
        requires own_lists { EntryOwns S.System C.BatchController entry }
        ensures plan { IfOk result (λ stage. stage_plan stage ≡ (entry_plan entry ∷ []) ∷ []) }
        ensures added { IfOk result (λ stage. IsNew nothing_at (stage_entry_at stage) entry) }
    {
        let mut groups = Vec::new(alloc);
        let group = Group::new(alloc, entry)?;
        groups.push(group)?;
        Ok(Stage { groups })
    }

    /// The number of groups.
    pub fn max_threads(&self) -> usize
        ensures { result ≡ length (stage_plan self.now) }
    {
        self.groups.len()
    }

    /// The ids of a group's systems, in order, if the stage has this group.
    pub fn group_ids(&self, group: usize) -> Option<&[SystemId]>
        ensures some { IsSome result ↔ (group < length (stage_plan self.now)) }
        ensures ids { IfSome result (λ ids. numbers_of ids.now ≡ group_ids (group_of self.now group)) }
    {
        if group < self.groups.len() {
            Some(self.groups[group].ids.as_slice())
        } else {
            None
        }
    }

    /// The system of this id, if the stage has it, and it is no batch.
    pub fn system(&self, id: SystemId) -> Option<&S>
        ensures { option_map (λ system. system.now) result ≡ stage_system id.0 self.now }
    {
        for group in &self.groups {
            let system = group_system(group, id);
            if system.is_some() {
                return system;
            }
        }
        None
    }

    /// Where the stage takes the entry, if it does, while these dependencies are left.
    pub(crate) fn spot_for(
        &self,
        left: &[SystemId],
        entry: &GroupEntry<V, Work<S, Nested<V, S, C>>>,
    ) -> Option<Spot>
        ensures { SpotIs (numbers_of left.now) (entry_plan entry.now) (stage_plan self.now) result }
    {
        match self.touched(left, entry) {
            Touched::Nothing => left.is_empty().then_some(Spot::NewGroup),
            Touched::One(group) => self
                .may_end(left, entry, group)
                .then_some(Spot::EndOf(group)),
            Touched::Several => None,
        }
    }

    /// Whether a group of the stage conflicts with the entry.
    pub(crate) fn conflicts(&self, entry: &GroupEntry<V, Work<S, Nested<V, S, C>>>) -> bool
        ensures { result ≡ conflicts_with (stage_plan self.now) (entry_access entry.now) }
    {
        self.groups.iter().any(|group| group.conflicts(entry))
    }

    /// Which groups the entry has to come after.
    #[tactic(auto, using(crate::proofs::Planner::Earlier::touched_all))]
    fn touched(&self, left: &[SystemId], entry: &GroupEntry<V, Work<S, Nested<V, S, C>>>) -> Touched
        ensures { TouchedIs (touched_by left.now entry.now) (stage_plan self.now) result }
    {
        let mut touched = Touched::Nothing;
        for (place, group) in self.groups.iter().enumerate() {
            if group.is_touched(left, entry) {
                match touched {
                    Touched::Nothing => touched = Touched::One(place),
                    _ => return Touched::Several,
                }
            }
        }
        touched
    }

    /// Whether the entry may stand at the end of this group, the only one that it has to come after.
    fn may_end(
        &self,
        left: &[SystemId],
        entry: &GroupEntry<V, Work<S, Nested<V, S, C>>>,
        group: usize,
    ) -> bool
        requires { group < length (stage_plan self.now) }
        ensures { result ≡ may_end_in self.now group (numbers_of left.now) (entry_plan entry.now) }
    {
        let group = &self.groups[group];
        group.entries.len() < 4
            && (left.is_empty() || left.len() == 1 && !group.conflicts(entry))
            && entry.time.count() < 2 * (self.greatest_time() - group.time())
    }

    /// The greatest time of a group.
    fn greatest_time(&self) -> usize
        ensures value { result ≡ greatest_time (stage_plan self.now) }
        ensures small { result ≤ 20 }
    {
        let mut greatest: usize = 0;
        for group in &self.groups {
            greatest = greatest.max(group.time());
        }
        greatest
    }

    /// Takes out of the list, for each id of the stage, one that equals it.
    pub(crate) fn take_ids(&self, left: &mut SmallVec<SystemId, 4>)
        ensures { TakesIds (stage_ids (stage_plan self.now)) left.old.items left.new.items }
    {
        for group in &self.groups {
            if left.is_empty() {
                return;
            }
            group.take_ids(left);
        }
    }

    /// Puts the ids of one side of the systems' accesses at the list's end.
    pub(crate) fn append_to(&self, side: Side, ids: &mut Vec<ResourceId>) -> Result<(), OutOfMemory>
        ensures { OnOk result (ids.new.items ≡ ids.old.items ++ stage_side side (stage_plan self.now)) }
    {
        for group in &self.groups {
            group.append_to(side, ids)?;
        }
        Ok(())
    }

    /// Gives the entry a new last group.
    pub(crate) fn push_group(
        &mut self,
        entry: GroupEntry<V, Work<S, Nested<V, S, C>>>,
    ) -> Result<(), OutOfMemory>
    where
        V: Drop,
        S: Drop,
        C: Drop,
        requires free { NoneConflicts (stage_plan self.old) (entry_access entry) }
        requires own_lists { EntryOwns S.System C.BatchController entry }
        ensures ok { OnOk result (PushesGroup self.old self.new (entry_plan entry)) }
        ensures err { OnErr result (stage_plan self.new ≡ stage_plan self.old) }
        ensures added { OnOk result (IsNew (stage_entry_at self.old) (stage_entry_at self.new) entry) }
        ensures unchanged { OnErr result (AreSame (stage_entry_at self.old) (stage_entry_at self.new)) }
    {
        let alloc = *self.groups.allocator();
        let group = Group::new(alloc, entry)?;
        self.groups.push(group)?;
        Ok(())
    }

    /// Puts the entry at the end of a group.
    pub(crate) fn push_entry(
        &mut self,
        group: usize,
        entry: GroupEntry<V, Work<S, Nested<V, S, C>>>,
    ) -> Result<(), OutOfMemory>
    where
        V: Drop,
        S: Drop,
        C: Drop,
        requires within { group < length (stage_plan self.old) }
        requires room { length (group_of self.old group) < 4 }
        requires others { OthersDoNotConflict (stage_plan self.old) group (entry_access entry) }
        requires own_lists { EntryOwns S.System C.BatchController entry }
        ensures ok { OnOk result (PushesEntry self.old self.new group (entry_plan entry)) }
        ensures err { OnErr result (stage_plan self.new ≡ stage_plan self.old) }
        ensures added { OnOk result (IsNew (stage_entry_at self.old) (stage_entry_at self.new) entry) }
        ensures unchanged { OnErr result (AreSame (stage_entry_at self.old) (stage_entry_at self.new)) }
    {
        self.groups[group].push(entry)
    }

    /// Its groups, as a tier of the inner plan of a batch.
    pub(crate) fn into_tier(self) -> Tier<V, Work<S, Nested<V, S, C>>>
    where
        V: Drop,
        S: Drop,
        C: Drop,
        ensures plan { tier_plan result ≡ stage_plan self }
        ensures states { (path : Agent) → tier_states result path ≡ stage_states self path }
        ensures own { TierOwns S.System C.BatchController result }
    {
        Tier {
            groups: self.groups,
        }
    }
}

impl<
    V: ResourceValue + Drop,
    S: System<V, Error = E>,
    C: BatchController<V, Error = E>,
    E: Drop,
> Stage<V, S, C> {
    ghost use Rattle.shred_stage.specs.OverWorlds.{StageDispatched, StageTookOver};

    // The turn of its groups, one after the other, over what a world holds.
    pub(crate) fn turn_in_order(&mut self, world: &mut LocalWorld<V>) -> Result<(), StageFault<E>>
        ensures { StageTookOver self.old world.old result self.new world.new }
    {
        let groups = self.groups.as_mut_slice();
        let twin = twin_of_local(world);
        let answer = in_order::turn_in_order(groups, &mut twin.table);
        keep(world);
        answer
    }

    /// Runs every group, one after the other, each up to the first entry that is not Done, on the caller's thread, and so the
    /// groups of inner plans. The answer is that of the first group, in order, that is not Done; it is never `Memory`.
    pub fn execute_seq(&mut self, world: &mut World<V>) -> Result<(), StageFault<E>>
        ensures { StageDispatched self.old world.old result self.new world.new }
    {
        self.turn_in_order(world.local())
    }
}

impl<
    V: ResourceValue + Drop + Send + Sync,
    S: System<V, Error = E> + Send,
    C: BatchController<V, Error = E> + Send,
    E: Drop + Send,
> Stage<V, S, C>
where
    S::Accessor: Send,
    C::Accessor: Send,
{
    ghost use Rattle.shred_stage.specs.OverWorlds.{StageDispatched, StageTookOver};

    // The turn of its groups, beside each other on threads, over what a world holds.
    pub(crate) fn turn_beside<R: Threads + Sync>(
        &mut self,
        rt: &R,
        world: &mut LocalWorld<V>,
        workers: usize,
    ) -> Result<(), StageFault<E>>
        ensures { StageTookOver self.old world.old result self.new world.new }
    {
        let groups = self.groups.as_mut_slice();
        let twin = twin_of_local(world);
        let answer = beside::turn_beside(rt, groups, &mut twin.table, workers);
        keep(world);
        answer
    }

    /// Runs every group, each up to the first entry that is not Done, beside each other in halves, and these again, on at
    /// most that many threads, the caller's among them: of 0 or 1, and of a stage of one group, on the caller's thread
    /// alone. A half whose thread cannot be started runs on the thread that would have started it. A batch hands the number
    /// on: each stage of an inner plan, at every depth, runs on at most so many again, that of its own group among them. The
    /// answer is that of the first group, in order, that is not Done, whichever refused first in time; it is never `Memory`.
    pub fn execute<R: Threads + Sync>(
        &mut self,
        rt: &R,
        world: &mut World<V>,
        workers: usize,
    ) -> Result<(), StageFault<E>>
        ensures { StageDispatched self.old world.old result self.new world.new }
    {
        self.turn_beside(rt, world.local(), workers)
    }
}

impl<
    V: ResourceValue + Drop,
    S: System<V, Error = E> + Drop,
    C: BatchController<V, Error = E> + Drop,
    E: Drop,
> Stage<V, S, C> {
    ghost use Rattle.shred_stage.specs.OverWorlds.{StageTookOver};

    // The turn of its groups, beside each other on workers that are kept, over what a world holds.
    pub(crate) fn turn_kept<R: Threads + Wait>(
        &mut self,
        crew: &mut StageCrew<R, V, S, C>,
        world: &mut LocalWorld<V>,
    ) -> Result<(), StageFault<E>>
        ensures { StageTookOver self.old world.old result self.new world.new }
    {
        let twin = twin_of_local(world);
        let answer = turn_kept(crew, &mut self.groups, &mut twin.table);
        keep(world);
        answer
    }
}

impl<
    V: ResourceValue + Drop,
    S: System<V, Error = E> + Drop,
    C: BatchController<V, Error = E> + Drop,
    E: Drop,
> Stage<V, S, C> {
    ghost use Rattle.shred_stage.specs.StagePlan.{stage_plan};
    ghost use Rattle.shred_stage.specs.OverWorlds.{StageSetUp, StageDisposed};

    /// Sets up what stands in the entries, in the plan's order, up to the first that is not Done, which the answer tells. What
    /// was done before it stays.
    pub fn setup(&mut self, world: &mut World<V>) -> Result<(), StageFault<E>>
        ensures set_up { StageSetUp self.old world.old result self.new world.new }
        ensures plan { stage_plan self.new ≡ stage_plan self.old }
    {
        set_up_groups(None, self.groups.as_mut_slice(), world)
    }

    /// Disposes of all that stands in the entries, in the plan's order, also of what stands after one that is not Done. The
    /// answer tells the first that is not Done.
    pub fn dispose(self, world: &mut World<V>) -> Result<(), StageFault<E>>
        ensures { StageDisposed self world.old result world.new }
    {
        dispose_of_groups(None, self.groups, world)
    }
}
