//! A table and a hand beside it, which hold as one.
ghost use Rattle.std.specs.Prelude.{◌≡◌, ◌&&◌, IfSome, IfNone, IfOk, IfErr, IsTrue, None, Some, OnOk, OnErr, is_some};
ghost use Rattle.std.specs.Borrow.{sem};
ghost use Rattle.std.specs.Option.{option_copied, option_copied_mut};
ghost use Rattle.shred_table.specs.Id.{id_kind};
ghost use Rattle.shred_table.specs.declared.id.ResourceId.{ResourceId};
ghost use Rattle.shred_table.specs.Slots.{slot_at, noted_in, with_at, slot_with};
ghost use Rattle.shred_table.specs.Changes.{Puts};
ghost use Rattle.shred_table.specs.Counts.{IsCountBefore, IsWithinDigitsOf};

use crate::accessor::OutOfMemory;
use crate::id::ResourceId;
use crate::resource::{Resource, ResourceValue};
use crate::steps::Steps;
use crate::table::{self, Slot, Table};
use std::alloc::Global;
use std::mem;

/// A table and a hand beside it. Under an id is held what is in the table's slot, or, where that is empty, what is in the
/// hand's; nothing, where either has no slot.
#[derive(Drop)]
pub struct Twin<V> {
    /// The table.
    pub table: Table<V>,
    /// The hand.
    pub hand: Table<V>,
}

impl<V> Twin<V> {
    ghost use Rattle.shred_table.specs.Twins.{twin_slot, twin_held, IsSettled, LendsOfTwin};

    /// No slots. It takes no memory.
    pub fn new(alloc: Global) -> Self
        ensures none { (id : ResourceId) → twin_slot result id ≡ None }
        ensures settled { IsSettled result }
    {
        Twin {
            table: Table::new(alloc),
            hand: Table::new(alloc),
        }
    }

    /// The slot that has what is held under an id.
    pub fn slot(&self, id: ResourceId) -> Option<&Slot<V>>
        ensures { option_copied result ≡ twin_slot self.now id }
    {
        let slot = self.table.slot(id)?;
        let other = self.hand.slot(id)?;
        if slot.value.is_some() {
            Some(slot)
        } else {
            Some(other)
        }
    }

    /// The value that is held under an id.
    pub fn get(&self, id: ResourceId) -> Option<&V>
    where
        V: ResourceValue,
        ensures { option_copied result ≡ twin_held V.kind_of self.now id }
    {
        match self.slot(id) {
            Some(slot) => slot.held(id),
            None => None,
        }
    }

    /// How many held ids come before this one, where it is held. The search takes no more comparisons than the number of held ids
    /// has binary digits. Where it is not known that all is in the table, each id is looked for in the hand besides, which is not
    /// counted.
    pub fn slot_of(&self, settled: bool, id: ResourceId, steps: &mut Steps) -> Option<usize>
    where
        V: ResourceValue,
        requires { IsTrue settled → IsSettled self.now }
        ensures held { is_some result ≡ is_some (twin_held V.kind_of self.now id) }
        ensures slot { IfSome result (IsCountBefore (twin_held V.kind_of self.now) id) }
        ensures steps { IsWithinDigitsOf (twin_held V.kind_of self.now) steps.old.count steps.new.count }
    {
        if settled {
            self.table.slot_of(id, steps)
        } else {
            self.table.slot_of_both(&self.hand, id, steps)
        }
    }

    /// Moves an id's value out of the hand into its slot in the table, where that is empty. Whether the id has both slots.
    pub fn bring(&mut self, id: ResourceId) -> bool
        ensures both { result ≡ is_some (twin_slot self.old id) }
        ensures here { IsTrue result → slot_at self.new.table id ≡ twin_slot self.old id }
        ensures same { (q : ResourceId) → twin_slot self.new q ≡ twin_slot self.old q }
        ensures settled { IsSettled self.old → IsSettled self.new }
    {
        let Some(other) = self.hand.slot_mut(id) else {
            return false;
        };
        let Some(slot) = self.table.slot_mut(id) else {
            return false;
        };
        if slot.value.is_none() {
            mem::swap(&mut slot.value, &mut other.value);
        }
        true
    }

    /// The resource that is held under an id, to write.
    pub fn resource_mut<R: Resource<V>>(&mut self, id: ResourceId) -> Option<&mut R>
    where
        V: ResourceValue,
        ensures shown { IfSome result (λ r. twin_slot self.old id ≡ slot_with (R.wrapped r.now)) }
        ensures missing { R.KIND ≡ id_kind id → IfNone result (twin_held V.kind_of self.old id ≡ None) }
        ensures* written { sem 𝓛 (LendsOfTwin V.row R.row R.wrapped self.entry id result) }
    {
        if !self.bring(id) {
            return None;
        }
        table::resource_mut(&mut self.table, id)
    }

    /// The value that is held under an id, to write.
    pub fn value_mut(&mut self, id: ResourceId) -> Option<&mut V>
    where
        V: ResourceValue,
        ensures shown { option_copied_mut result ≡ twin_held V.kind_of self.old id }
        ensures* written { sem 𝓛 (LendsOfTwin V.row V.row (λ v. v) self.entry id result) }
    {
        if !self.bring(id) {
            return None;
        }
        table::value_mut(&mut self.table, id)
    }

    /// Puts the value in the place of the one that is held under an id, and gives back the old one; or the value itself, where
    /// there is none to give.
    pub fn replace(&mut self, id: ResourceId, value: V) -> Result<V, V>
        ensures ok { IfOk result (λ old. twin_slot self.old id ≡ Some (record { value = Some old })) }
        ensures replaced { OnOk result (Puts twin_slot self.old id (slot_with value) self.new) }
        ensures err { IfErr result (λ back. back ≡ value) }
        ensures empty { OnErr result (IfSome (twin_slot self.old id) (λ s. s.value ≡ None)) }
        ensures unchanged { OnErr result ((q : ResourceId) → twin_slot self.new q ≡ twin_slot self.old q) }
        ensures settled { IsSettled self.old → IsSettled self.new }
    {
        if !self.bring(id) {
            return Err(value);
        }
        table::replace(&mut self.table, id, value)
    }

    /// Moves each value out of the hand into its slot in the table, where that is empty; a value that has no such slot is
    /// dropped, and so is a slot of the table that the hand has none for.
    pub fn settle(&mut self)
    where
        V: Drop,
        ensures table { (q : ResourceId) → slot_at self.new.table q ≡ twin_slot self.old q }
        ensures same { (q : ResourceId) → twin_slot self.new q ≡ twin_slot self.old q }
        ensures settled { IsSettled self.new }
        ensures noted { (q : ResourceId) → noted_in self.new.table q ≡ noted_in self.old.table q }
    {
        self.hand.bring_all(&mut self.table);
        self.table.drop_strays(&self.hand);
    }

    /// Holds a value under an id, in the place of what was held there.
    pub fn put(&mut self, id: ResourceId, value: V) -> Result<(), OutOfMemory>
    where
        V: Drop,
        ensures ok { OnOk result (Puts twin_slot self.old id (slot_with value) self.new) }
        ensures err { OnErr result ((q : ResourceId) → twin_slot self.new q ≡ twin_slot self.old q) }
        ensures no_room { OnErr result (twin_slot self.old id ≡ None) }
        ensures settled { IsSettled self.old → IsSettled self.new }
    {
        table::open(&mut self.hand, id)?;
        table::put(&mut self.table, id, value)
    }

    /// Makes the slots of an id empty; they are made where there are none.
    pub fn open(&mut self, id: ResourceId) -> Result<(), OutOfMemory>
    where
        V: Drop,
        ensures ok { OnOk result (Puts twin_slot self.old id (Some (record { value = None })) self.new) }
        ensures err { OnErr result ((q : ResourceId) → twin_slot self.new q ≡ twin_slot self.old q) }
        ensures no_room { OnErr result (twin_slot self.old id ≡ None) }
        ensures settled { IsSettled self.old → IsSettled self.new }
    {
        table::open(&mut self.hand, id)?;
        table::open(&mut self.table, id)
    }

    /// Takes the slots of an id away, and gives what they had as one.
    pub fn remove(&mut self, id: ResourceId) -> Option<Slot<V>>
    where
        V: Drop,
        ensures value { result ≡ twin_slot self.old id }
        ensures after { (q : ResourceId) → twin_slot self.new q ≡ with_at (twin_slot self.old) id None q }
        ensures settled { IsSettled self.old → IsSettled self.new }
    {
        if !self.bring(id) {
            return None;
        }
        let slot = table::remove(&mut self.table, id);
        self.hand.close(id);
        slot
    }
}
