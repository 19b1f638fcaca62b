//! A list of slots, in the order of their ids.
ghost use Rattle.std.specs.Prelude.{◌≡◌, ◌<◌, ◌≤◌, length, slice_index_or, IsTrue, AllPairs, None, Some, Option, map, IfOk, IfErr, OnOk, OnErr, IfSome, is_some, ◌&&◌};
ghost use Rattle.std.specs.Borrow.{sem};
ghost use Rattle.std.specs.Option.{option_copied, option_copied_mut};
ghost use Rattle.std.proofs.Props.{props};
ghost use Rattle.shred_table.specs.InOrder.{ComesBefore};
ghost use Rattle.shred_table.specs.declared.id.ResourceId.{ResourceId};

use crate::accessor::OutOfMemory;
use crate::held;
use crate::id::ResourceId;
use crate::resource::ResourceValue;
use crate::steps::Steps;
use crate::table::{Slot, Table};
use std::alloc::Global;
use std::cmp::Ordering;

/// Slots in the order of their ids. A slot is found by halving the list.
#[derive(Drop)]
pub(crate) struct Listed<V> {
    slots: Vec<(ResourceId, Slot<V>)>,
    ghost sorted: { AllPairs ComesBefore slots.items } by { Prim.hlevel props },
}

impl<V> Listed<V> {
    ghost use Rattle.shred_table.specs.Lent.{LendsListed};
    ghost use Rattle.shred_table.specs.Listed.{listed_at, IsPlaceOf, IsGapFor};
    ghost use Rattle.shred_table.specs.Parting.{slot_value};
    ghost use Rattle.shred_table.specs.Slots.{with_at};
    ghost use Rattle.shred_table.specs.Changes.{Puts, Empties};
    ghost use Rattle.shred_table.specs.Counts.{IsCountBefore, IsWithinDigitsOf};
    ghost use Rattle.shred_table.specs.Held.{listed_held};

    // No slots. It takes no memory.
    pub(crate) fn new(alloc: Global) -> Self
        ensures { (id : ResourceId) → listed_at result id ≡ None }
    {
        Listed {
            slots: Vec::new(alloc),
        }
    }

    // Takes all slots away, with their values; the memory stays.
    pub(crate) fn clear(&mut self)
    where
        V: Drop,
        ensures { (id : ResourceId) → listed_at self.new id ≡ None }
    {
        self.slots.clear();
    }

    // Where the slot of the id is, or where it would go.
    fn place(&self, id: ResourceId) -> Result<usize, usize>
        ensures found { IfOk result (IsPlaceOf id self.now.slots.items) }
        ensures gap { IfErr result (IsGapFor id self.now.slots.items) }
    {
        let mut low: usize = 0;
        let mut high = self.slots.len();
        while low < high {
            let middle = low + (high - low) / 2;
            match self.slots[middle].0.cmp(&id) {
                Ordering::Less => low = middle + 1,
                Ordering::Equal => return Ok(middle),
                Ordering::Greater => high = middle,
            }
        }
        Err(low)
    }

    // The same, where two places are looked at first.
    fn place_near(&self, id: ResourceId, first: usize, second: usize) -> Result<usize, usize>
        ensures found { IfOk result (IsPlaceOf id self.now.slots.items) }
        ensures gap { IfErr result (IsGapFor id self.now.slots.items) }
    {
        if first < self.slots.len() && self.slots[first].0 == id {
            return Ok(first);
        }
        if second < self.slots.len() && self.slots[second].0 == id {
            return Ok(second);
        }
        self.place(id)
    }

    // Takes the value out of the slot of an id, which stays, and tells where the slot is, or where it would go. Two places are
    // looked at first.
    pub(crate) fn take(&mut self, id: ResourceId, first: usize, second: usize) -> (Option<V>, usize)
        ensures value { result.0 ≡ slot_value (listed_at self.old id) }
        ensures slots { Empties listed_at self.old id self.new }
        ensures ids { map (λ slot. slot.0) self.new.slots.items ≡ map (λ slot. slot.0) self.old.slots.items }
    {
        match self.place_near(id, first, second) {
            Ok(place) => (self.slots[place].1.value.take(), place),
            Err(place) => (None, place),
        }
    }

    // The slot of an id.
    pub(crate) fn get(&self, id: ResourceId) -> Option<&Slot<V>>
        ensures { option_copied result ≡ listed_at self.now id }
    {
        self.get_near(id, 0)
    }

    // The same, where a place is looked at first, and then the one that the id has where ids are numbered without gaps.
    pub(crate) fn get_near(&self, id: ResourceId, near: usize) -> Option<&Slot<V>>
        ensures { option_copied result ≡ listed_at self.now id }
    {
        match self.place_near(id, near, id.likely_place()) {
            Ok(place) => Some(&self.slots[place].1),
            Err(_) => None,
        }
    }

    // How many ids that come before it hold a value, with the hand where there is one, if the id holds one.
    pub(crate) fn slot_of(
        &self,
        hand: &[Table<V>],
        id: ResourceId,
        steps: &mut Steps,
    ) -> Option<usize>
    where
        V: ResourceValue,
        ensures held { is_some result ≡ is_some (listed_held V.kind_of hand.now self.now id) }
        ensures slot { IfSome result (IsCountBefore (listed_held V.kind_of hand.now self.now) id) }
        ensures steps { IsWithinDigitsOf (listed_held V.kind_of hand.now self.now) steps.old.count steps.new.count }
    {
        held::slot_of(self.slots.as_slice(), hand, id, steps)
    }

    // How many slots there are.
    pub(crate) fn len(&self) -> usize
        ensures { result ≡ length (map (λ slot. slot.0) self.now.slots.items) }
    {
        self.slots.len()
    }

    // The id of the slot at a place.
    pub(crate) fn id_at(&self, place: usize) -> ResourceId
        requires { place < length (map (λ slot. slot.0) self.now.slots.items) }
        ensures { (d : ResourceId) → result ≡ slice_index_or (map (λ slot. slot.0) self.now.slots.items) place d }
    {
        self.slots[place].0
    }

    // The ids that have a slot, in order.
    pub(crate) fn ids(&self, alloc: Global) -> Result<Vec<ResourceId>, OutOfMemory>
        ensures { IfOk result (λ ids. ids.items ≡ map (λ slot. slot.0) self.now.slots.items) }
    {
        Ok(self.slots.iter().map(|slot| slot.0).collect(alloc)?)
    }

    // The slot of an id, to write. Places are looked at first as in `get_near`.
    pub(crate) fn get_mut(&mut self, id: ResourceId, near: usize) -> Option<&mut Slot<V>>
        ensures shown { option_copied_mut result ≡ listed_at self.old id }
        ensures* written { sem 𝓛 (LendsListed V.row self.entry id result) }
    {
        match self.place_near(id, near, id.likely_place()) {
            Ok(place) => Some(&mut self.slots[place].1),
            Err(_) => None,
        }
    }

    // Gives the id this slot, in the place of the one that it has. If memory is refused, it had none and has none.
    pub(crate) fn insert(&mut self, id: ResourceId, slot: Slot<V>) -> Result<(), OutOfMemory>
    where
        V: Drop,
        ensures ok { OnOk result (Puts listed_at self.old id (Some slot) self.new) }
        ensures err { OnErr result ((q : ResourceId) → listed_at self.new q ≡ listed_at self.old q) }
        ensures no_room { OnErr result (listed_at self.old id ≡ None) }
    {
        match self.place(id) {
            Ok(place) => {
                self.slots[place].1 = slot;
                Ok(())
            }
            Err(place) => Ok(self.slots.insert(place, (id, slot))?),
        }
    }

    // Takes the slot of an id away.
    pub(crate) fn remove(&mut self, id: ResourceId) -> Option<Slot<V>>
        ensures value { result ≡ listed_at self.old id }
        ensures after { (q : ResourceId) → listed_at self.new q ≡ with_at (listed_at self.old) id None q }
        ensures fewer { IsTrue (is_some (listed_at self.old id)) → length self.new.slots.items < length self.old.slots.items }
    {
        match self.place(id) {
            Ok(place) => Some(self.slots.remove(place).1),
            Err(_) => None,
        }
    }
}
