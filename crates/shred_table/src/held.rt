//! The slots that hold values, by their number in the order of ids.
ghost use Rattle.std.specs.Prelude.{◌≡◌, ℕ, ◌<◌, length, slice_index_or, AllPairs, IfSome, IfNone, Some, None, is_some};
ghost use Rattle.std.specs.Map.{lookup};
ghost use Rattle.shred_table.specs.Counts.{IsWithinDigits};
ghost use Rattle.shred_table.specs.AsOne.{as_one};
ghost use Rattle.shred_table.specs.Id.{same_id};
ghost use Rattle.shred_table.specs.Slots.{slot_at, slot_held};
ghost use Rattle.shred_table.specs.InOrder.{ComesBefore};
ghost use Rattle.shred_table.specs.Held.{holds, held_slots};
ghost use Rattle.shred_table.specs.Listed.{IsPlaceOf};
ghost use Rattle.shred_table.specs.declared.id.ResourceId.{ResourceId};
ghost use Rattle.shred_table.specs.declared.table.Slot.{Slot};

use crate::id::ResourceId;
use crate::resource::ResourceValue;
use crate::steps::Steps;
use crate::table::{Slot, Table};
use std::cmp::Ordering;

// Whether the slot, or where it is empty that of the hand, holds a value, and the hand has one.
fn is_held_beside<V: ResourceValue>(slot: &(ResourceId, Slot<V>), hand: &Table<V>) -> bool
    ensures { result ≡ is_some (slot_held V.kind_of slot.now.0 (as_one (Some slot.now.1) (slot_at hand.now slot.now.0))) }
{
    match hand.slot(slot.0) {
        Some(other) => {
            if slot.1.value.is_some() {
                slot.1.held(slot.0).is_some()
            } else {
                other.held(slot.0).is_some()
            }
        }
        None => false,
    }
}

// Whether the slot holds a value.
fn is_held<V: ResourceValue>(slot: &(ResourceId, Slot<V>), hand: &[Table<V>]) -> bool
    ensures { result ≡ holds V.kind_of hand.now slot.now }
{
    match hand.first() {
        Some(hand) => is_held_beside(slot, hand),
        None => slot.1.held(slot.0).is_some(),
    }
}

// How many of the slots hold a value.
fn count<V: ResourceValue>(slots: &[(ResourceId, Slot<V>)], hand: &[Table<V>]) -> usize
    ensures { result ≡ length (held_slots V.kind_of hand.now slots.now) }
{
    let mut count: usize = 0;
    for slot in slots {
        if is_held(slot, hand) {
            count += 1;
        }
    }
    count
}

// The id of the slot of this number among those that hold a value.
fn nth<V: ResourceValue>(
    slots: &[(ResourceId, Slot<V>)],
    hand: &[Table<V>],
    number: usize,
) -> ResourceId
    requires { number < length (held_slots V.kind_of hand.now slots.now) }
    ensures { (d : ResourceId × Slot V) → result ≡ (slice_index_or (held_slots V.kind_of hand.now slots.now) number d).0 }
{
    let mut left = number;
    for slot in slots {
        if is_held(slot, hand) {
            if left == 0 {
                return slot.0;
            }
            left -= 1;
        }
    }
    unreachable!()
}

// The same, where it is known how many hold a value. Mostly all do, and then nothing is looked through.
fn id_of<V: ResourceValue>(
    slots: &[(ResourceId, Slot<V>)],
    hand: &[Table<V>],
    count: usize,
    number: usize,
) -> ResourceId
    requires count { count ≡ length (held_slots V.kind_of hand.now slots.now) }
    requires number { number < count }
    ensures { (d : ResourceId × Slot V) → result ≡ (slice_index_or (held_slots V.kind_of hand.now slots.now) number d).0 }
{
    if count == slots.len() {
        return slots[number].0;
    }
    nth(slots, hand, number)
}

/// The number of an id's slot among those that hold a value, where it holds one, found by halving them.
pub(crate) fn slot_of<V: ResourceValue>(
    slots: &[(ResourceId, Slot<V>)],
    hand: &[Table<V>],
    id: ResourceId,
    steps: &mut Steps,
) -> Option<usize>
    requires { AllPairs ComesBefore slots.now }
    ensures found { IfSome result (IsPlaceOf id (held_slots V.kind_of hand.now slots.now)) }
    ensures none { IfNone result (lookup (same_id id) (held_slots V.kind_of hand.now slots.now) ≡ None) }
    ensures steps { IsWithinDigits (length (held_slots V.kind_of hand.now slots.now)) steps.old.count steps.new.count }
{
    let count = count(slots, hand);
    let mut low: usize = 0;
    let mut high = count;
    while low < high {
        let middle = low + (high - low) / 2;
        match steps.compare(id_of(slots, hand, count, middle), id) {
            Ordering::Less => low = middle + 1,
            Ordering::Equal => return Some(middle),
            Ordering::Greater => high = middle,
        }
    }
    None
}
