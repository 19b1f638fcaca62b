//! Entries of a plan, in groups that run in order.
ghost use Rattle.std.specs.Prelude.{◌≡◌, ◌≤◌, ◌<◌, [], ◌∷◌, ◌++◌, length, remove, IfOk, OnOk, OnErr, IfSome, IfNone};
ghost use Rattle.shred_model.specs.Plan.{group_ids, group_time};
ghost use Rattle.shred_table.specs.Id.{same_id};
ghost use Rattle.shred_table.specs.Parting.{IsEmptyHand};
ghost use Rattle.shred_run.specs.Hands.{KeepsRoom};
ghost use Rattle.shred_run.specs.PlanOf.{entry_access, entry_plan, group_plan, numbers_of, HasEntryIds};
ghost use Rattle.shred_run.specs.Left.{difference, without_one};
ghost use Rattle.shred_run.specs.Sides.{side_of, group_side};
ghost use Rattle.shred_run.specs.Touching.{share_item, accesses_conflict, group_conflicts, holds_any, is_touched};

use crate::system::{Fault, RunningTime};
use arrayvec::ArrayVec;
use shred_world::parting::empty_hand;
use shred_world::{OutOfMemory, ResourceId, Table, check_intersection};
use smallvec::SmallVec;
use std::alloc::Global;
use std::default::MadeWith;
use std::fmt;
use std::fmt::Display;
use thiserror::Error;

/// The number under which a system was added.
#[derive(Clone, Copy, Debug, PartialEq, Eq, PartialOrd, Ord, Hash)]
pub struct SystemId(pub usize);

impl fmt::Display for SystemId {
    ghost use Rattle.std.specs.Prelude.{Some};
    ghost use Rattle.shred_run.specs.Texts.{system_text};

    ghost output = { λ id. Some (system_text id) };

    fn fmt<W: fmt::Write>(&self, f: &mut fmt::Formatter<W>) -> fmt::Result {
        let number = self.0;
        write!(f, "system {number}")
    }
}

impl<A: Drop> MadeWith<A> for SystemId {
    fn made_with(_alloc: A) -> Self
        ensures { result.0 ≡ 0 }
    {
        SystemId(0)
    }
}

/// One of the two lists of an access: what is read, or what is written.
#[derive(Clone, Copy, Debug, PartialEq, Eq)]
pub enum Side {
    Reads,
    Writes,
}

/// A system or a batch, with what was kept of it when it was placed, and a slot for each id that it writes, into which the
/// value is moved while it runs, where its group has other entries.
#[derive(Drop)]
pub struct GroupEntry<V, S> {
    pub id: SystemId,
    pub reads: Vec<ResourceId>,
    pub writes: Vec<ResourceId>,
    pub time: RunningTime,
    pub work: S,
    pub hand: Table<V>,
}

/// Entries that run one after the other. Beside them stand their ids, the ids that they write, and a slot for each of
/// these, into which the value is moved while the group runs, unless it is a batch that runs over the table itself.
#[derive(Drop)]
pub struct Group<V, S> {
    pub ids: ArrayVec<SystemId, 4>,
    pub entries: Vec<GroupEntry<V, S>>,
    pub written: Vec<ResourceId>,
    pub hand: Table<V>,
}

/// Why a stage did not end as Done.
#[derive(Debug, Drop, Error)]
#[error_bound(E: Display)]
pub enum StageFault<E> {
    /// The entry of this id ended with a fault, the first in plan order.
    #[error("{id}: {fault}")]
    System { id: SystemId, fault: Fault<E> },
    /// The stage was refused for memory before it began. No run answers it.
    #[error("out of memory")]
    Memory,
}

fn shares_resource(first: &Vec<ResourceId>, second: &Vec<ResourceId>) -> bool
    ensures { result ≡ share_item same_id first.now.items second.now.items }
{
    check_intersection(first.as_slice(), second.as_slice())
}

impl<V, S> GroupEntry<V, S> {
    /// One of the two kept lists.
    fn side(&self, side: Side) -> &[ResourceId]
        ensures { result.now ≡ side_of side (entry_access self.now) }
    {
        match side {
            Side::Reads => self.reads.as_slice(),
            Side::Writes => self.writes.as_slice(),
        }
    }

    /// Whether one entry writes what the other reads or writes.
    pub fn conflicts(&self, other: &GroupEntry<V, S>) -> bool
        ensures { result ≡ accesses_conflict same_id (entry_access self.now) (entry_access other.now) }
    {
        shares_resource(&self.writes, &other.writes)
            || shares_resource(&self.writes, &other.reads)
            || shares_resource(&self.reads, &other.writes)
    }
}

impl<V, S> Group<V, S> {
    /// Whether an entry of the group conflicts with this one.
    pub fn conflicts(&self, entry: &GroupEntry<V, S>) -> bool
        ensures { result ≡ group_conflicts same_id (entry_access entry.now) (group_plan self.now) }
    {
        self.entries.iter().any(|member| member.conflicts(entry))
    }

    /// Whether the group holds one of these ids.
    fn holds_any(&self, ids: &[SystemId]) -> bool
        requires { HasEntryIds self.now }
        ensures { result ≡ holds_any (numbers_of ids.now) (group_plan self.now) }
    {
        !ids.is_empty() && check_intersection(self.ids.as_slice(), ids)
    }

    /// Whether the entry has to come after this group: they conflict, or the group holds an id that is left.
    pub fn is_touched(&self, left: &[SystemId], entry: &GroupEntry<V, S>) -> bool
        requires { HasEntryIds self.now }
        ensures { result ≡ is_touched same_id (numbers_of left.now) (entry_access entry.now) (group_plan self.now) }
    {
        self.holds_any(left) || self.conflicts(entry)
    }

    /// The sum of the entries' times.
    pub fn time(&self) -> usize
        requires { length self.now.entries.items ≤ 4 }
        ensures value { result ≡ group_time (group_plan self.now) }
        ensures small { result ≤ 20 }
    {
        self.entries.iter().map(|entry| entry.time.count()).sum()
    }

    /// A group of one entry.
    pub fn new(alloc: Global, entry: GroupEntry<V, S>) -> Result<Self, OutOfMemory>
    where
        V: Drop,
        S: Drop,
        ensures plan { IfOk result (λ group. group_plan group ≡ entry_plan entry ∷ []) }
        ensures ids { IfOk result HasEntryIds }
        ensures entries { IfOk result (λ group. group.entries.items ≡ entry ∷ []) }
        ensures room { IfOk result KeepsRoom }
    {
        let (written, hand) = written_hand(alloc, entry.writes.as_slice())?;
        let mut ids: ArrayVec<SystemId, 4> = ArrayVec::new_in(());
        ids.push(entry.id);
        let mut entries = Vec::new(alloc);
        entries.push(entry)?;
        Ok(Group {
            ids,
            entries,
            written,
            hand,
        })
    }

    // What the group writes with these ids more, and a hand for it.
    fn hand_with(&self, more: &[ResourceId]) -> Result<(Vec<ResourceId>, Table<V>), OutOfMemory>
    where
        V: Drop,
        ensures written { IfOk result (λ grown. grown.0.items ≡ self.now.written.items ++ more.now) }
        ensures hand { IfOk result (λ grown. IsEmptyHand grown.0.items grown.1) }
    {
        let alloc = *self.written.allocator();
        let mut written = Vec::from_slice(alloc, self.written.as_slice())?;
        written.extend_from_slice(more)?;
        let hand = empty_hand(alloc, written.as_slice())?;
        Ok((written, hand))
    }

    /// Puts the entry at the group's end.
    pub fn push(&mut self, entry: GroupEntry<V, S>) -> Result<(), OutOfMemory>
    where
        V: Drop,
        S: Drop,
        requires few { length self.old.entries.items < 4 }
        requires ids { HasEntryIds self.old }
        requires room { KeepsRoom self.old }
        ensures ok { OnOk result (group_plan self.new ≡ group_plan self.old ++ entry_plan entry ∷ []) }
        ensures err { OnErr result (group_plan self.new ≡ group_plan self.old) }
        ensures ids { HasEntryIds self.new }
        ensures added { OnOk result (self.new.entries.items ≡ self.old.entries.items ++ entry ∷ []) }
        ensures unchanged { OnErr result (self.new.entries.items ≡ self.old.entries.items) }
        ensures room { KeepsRoom self.new }
    {
        let id = entry.id;
        let (written, hand) = self.hand_with(entry.writes.as_slice())?;
        push_or_drop(&mut self.entries, entry)?;
        self.ids.push(id);
        self.written = written;
        self.hand = hand;
        Ok(())
    }

    /// Puts the ids of one side of the entries' accesses at the list's end.
    pub fn append_to(&self, side: Side, ids: &mut Vec<ResourceId>) -> Result<(), OutOfMemory>
        ensures { OnOk result (ids.new.items ≡ ids.old.items ++ group_side side (group_plan self.now)) }
    {
        for entry in &self.entries {
            ids.extend_from_slice(entry.side(side))?;
        }
        Ok(())
    }

    /// Takes out of the list, for each of the group's ids, one that equals it.
    pub fn take_ids(&self, left: &mut SmallVec<SystemId, 4>)
        requires { HasEntryIds self.now }
        ensures { numbers_of left.new.items ≡ difference (numbers_of left.old.items) (group_ids (group_plan self.now)) }
    {
        for id in self.ids.as_slice() {
            take_id(left, *id);
        }
    }
}

// These ids, and a hand for them.
fn written_hand<V: Drop>(
    alloc: Global,
    ids: &[ResourceId],
) -> Result<(Vec<ResourceId>, Table<V>), OutOfMemory>
    ensures written { IfOk result (λ made. made.0.items ≡ ids.now) }
    ensures hand { IfOk result (λ made. IsEmptyHand made.0.items made.1) }
{
    let written = Vec::from_slice(alloc, ids)?;
    let hand = empty_hand(alloc, written.as_slice())?;
    Ok((written, hand))
}

#[tactic(auto, using(crate::proofs::Groups::numbers_of_remove))]
fn take_id(left: &mut SmallVec<SystemId, 4>, id: SystemId)
    ensures { numbers_of left.new.items ≡ without_one id.0 (numbers_of left.old.items) }
{
    if let Some(place) = place_of(left.as_slice(), id) {
        left.remove(place);
    }
}

/// The first place of the id in the list, if it stands there.
fn place_of(ids: &[SystemId], id: SystemId) -> Option<usize>
    ensures within { IfSome result (λ place. place < length ids.now) }
    ensures found { IfSome result (λ place. without_one id.0 (numbers_of ids.now) ≡ remove (numbers_of ids.now) place) }
    ensures absent { IfNone result (without_one id.0 (numbers_of ids.now) ≡ numbers_of ids.now) }
{
    ids.iter().position(|other| *other == id)
}

/// Puts the item at the list's end, or drops it where memory is refused.
pub fn push_or_drop<T: Drop>(items: &mut Vec<T>, item: T) -> Result<(), OutOfMemory>
    ensures ok { OnOk result (items.new.items ≡ items.old.items ++ item ∷ []) }
    ensures err { OnErr result (items.new.items ≡ items.old.items) }
{
    Ok(items.push(item)?)
}
