//! A table of slots, each of one id; the value of a slot may be moved out of it and back.
ghost use Rattle.std.specs.Prelude.{◌≡◌, ◌<◌, ◌&&◌, ◌≢◌, ◌||◌, length, slice_index_or, IsTrue, false, is_some, IfNone, IfSome, None, Some, MatchOption, OnOk, OnErr, IfOk, IfErr};
ghost use Rattle.std.specs.Option.{option_copied, option_copied_mut};
ghost use Rattle.std.specs.Borrow.{sem};
ghost use Rattle.shred_table.specs.Slots.{slots_of, ids_in, slot_at, noted_in, among, of_kind, held, with_at, slot_with, IsOfOtherKind};
ghost use Rattle.shred_table.specs.AsOne.{both_held};
ghost use Rattle.shred_table.specs.Counts.{IsCountBefore, IsWithinDigitsOf};
ghost use Rattle.shred_table.specs.Id.{id_kind, same_id};
ghost use Rattle.shred_table.specs.Parting.{slot_value, filled};
ghost use Rattle.shred_table.specs.Lent.{LendsSlot, LendsValue, LendsResource, LendsHeld};
ghost use Rattle.shred_table.specs.declared.id.ResourceId.{ResourceId};
ghost use Rattle.shred_table.specs.Changes.{Puts, Empties};

use crate::accessor::OutOfMemory;
use crate::hints::Hints;
use crate::id::ResourceId;
use crate::listed::Listed;
use crate::resource::{Resource, ResourceValue};
use crate::steps::Steps;
use std::alloc::Global;
use std::{mem, slice};

/// The place of a value; it stays while the value is moved out.
#[derive(Drop)]
pub struct Slot<V> {
    /// The value, where it was not moved out.
    pub value: Option<V>,
}

impl<V> Slot<V> {
    /// The value, where it is of the id's kind.
    pub fn held(&self, id: ResourceId) -> Option<&V>
    where
        V: ResourceValue,
        ensures { option_copied result ≡ of_kind V.kind_of id self.now.value }
    {
        match &self.value {
            Some(value) => {
                if value.kind() == id.kind() {
                    Some(value)
                } else {
                    None
                }
            }
            None => None,
        }
    }

    fn value_mut(&mut self) -> Option<&mut V>
        ensures shown { MatchOption result (self.old.value ≡ None) (λ r. self.old.value ≡ Some r.now) }
        ensures* written { sem 𝓛 (LendsValue V.row self.entry result) }
    {
        self.value.as_mut()
    }

    fn resource_mut<R: Resource<V>>(&mut self) -> Option<&mut R>
    where
        V: ResourceValue,
        ensures shown { MatchOption result (IsOfOtherKind V.kind_of R.KIND self.old.value) (λ r. self.old.value ≡ Some (R.wrapped r.now)) }
        ensures* written { sem 𝓛 (LendsResource V.row R.row R.wrapped self.entry result) }
    {
        let value = self.value_mut()?;
        R::view_mut(value)
    }

    /// The resource that the slot has, out of it.
    pub fn into_resource<R: Resource<V>>(self) -> Option<R>
    where
        V: ResourceValue + Drop,
        ensures { MatchOption result (IsOfOtherKind V.kind_of R.KIND self.value) (λ r. self.value ≡ Some (R.wrapped r)) }
    {
        let Some(value) = self.value else {
            return None;
        };
        match R::unwrap(value) {
            Ok(resource) => Some(resource),
            Err(_) => None,
        }
    }
}

/// Slots by id, and the ids whose values are noted as handed out.
#[derive(Drop)]
pub struct Table<V> {
    slots: Listed<V>,
    out: Vec<ResourceId>,
    hints: Hints,
}

impl<V> Table<V> {
    /// No slots. It takes no memory.
    pub fn new(alloc: Global) -> Self
        ensures { (id : ResourceId) → slot_at result id ≡ None }
    {
        Table {
            slots: Listed::new(alloc),
            out: Vec::new(alloc),
            hints: Hints::new(alloc),
        }
    }

    // No slots, and room to note where so many values came from.
    pub(crate) fn with_homes(alloc: Global, count: usize) -> Result<Self, OutOfMemory>
        ensures { IfOk result (λ table. (id : ResourceId) → slot_at table id ≡ None) }
    {
        let hints = Hints::with_room(alloc, count)?;
        Ok(Table {
            slots: Listed::new(alloc),
            out: Vec::new(alloc),
            hints,
        })
    }

    // Takes all slots away, with their values, and makes room to note where so many values came from. The memory stays, and so
    // where there was as much before, no more is taken.
    pub(crate) fn make_ready(&mut self, count: usize) -> Result<(), OutOfMemory>
    where
        V: Drop,
        ensures { (id : ResourceId) → slot_at self.new id ≡ None }
    {
        self.slots.clear();
        self.hints.make_room(count)
    }

    /// The allocator that the table was made with.
    pub fn allocator(&self) -> Global {
        *self.out.allocator()
    }

    /// Whether the id's value was noted as handed out.
    pub fn has_note(&self, id: ResourceId) -> bool
        ensures { result ≡ noted_in self.now id }
    {
        // Mostly nothing is noted, and then nothing is looked through.
        !self.out.is_empty() && self.out.contains(&id)
    }

    /// The slot of an id.
    pub fn slot(&self, id: ResourceId) -> Option<&Slot<V>>
        ensures { option_copied result ≡ slot_at self.now id }
    {
        self.slots.get(id)
    }

    /// The same, where a place is looked at first.
    pub fn slot_near(&self, id: ResourceId, near: usize) -> Option<&Slot<V>>
        ensures { option_copied result ≡ slot_at self.now id }
    {
        self.slots.get_near(id, near)
    }

    /// The value that is held under an id.
    pub fn get(&self, id: ResourceId) -> Option<&V>
    where
        V: ResourceValue,
        ensures { option_copied result ≡ held V.kind_of self.now id }
    {
        match self.slot(id) {
            Some(slot) => slot.held(id),
            None => None,
        }
    }

    /// How many ids that come before it are held, where the id is held. It takes no more comparisons than the number of held
    /// ids has binary digits.
    pub fn slot_of(&self, id: ResourceId, steps: &mut Steps) -> Option<usize>
    where
        V: ResourceValue,
        ensures held { is_some result ≡ is_some (held V.kind_of self.now id) }
        ensures slot { IfSome result (IsCountBefore (held V.kind_of self.now) id) }
        ensures steps { IsWithinDigitsOf (held V.kind_of self.now) steps.old.count steps.new.count }
    {
        let (none, _) = slice::from_ref(self).split_at(0);
        self.slots.slot_of(none, id, steps)
    }

    // The same of what is held with a hand beside.
    pub(crate) fn slot_of_both(
        &self,
        hand: &Table<V>,
        id: ResourceId,
        steps: &mut Steps,
    ) -> Option<usize>
    where
        V: ResourceValue,
        ensures held { is_some result ≡ is_some (both_held V.kind_of self.now hand.now id) }
        ensures slot { IfSome result (IsCountBefore (both_held V.kind_of self.now hand.now) id) }
        ensures steps { IsWithinDigitsOf (both_held V.kind_of self.now hand.now) steps.old.count steps.new.count }
    {
        self.slots.slot_of(slice::from_ref(hand), id, steps)
    }

    // How many ids have a slot.
    pub(crate) fn count(&self) -> usize
        ensures { result ≡ length (ids_in self.now) }
    {
        self.slots.len()
    }

    // The id of the slot at a place.
    pub(crate) fn id_at(&self, place: usize) -> ResourceId
        requires { place < length (ids_in self.now) }
        ensures { (d : ResourceId) → result ≡ slice_index_or (ids_in self.now) place d }
    {
        self.slots.id_at(place)
    }

    /// The ids that have a slot.
    pub fn ids(&self) -> Result<Vec<ResourceId>, OutOfMemory>
        ensures { IfOk result (λ ids. (q : ResourceId) → among ids.items q ≡ is_some (slot_at self.now q)) }
    {
        self.slots.ids(self.allocator())
    }

    // Takes the slot of an id away, with its value.
    pub(crate) fn close(&mut self, id: ResourceId)
    where
        V: Drop,
        ensures slots { (q : ResourceId) → slot_at self.new q ≡ with_at (slot_at self.old) id None q }
        ensures fewer { IsTrue (is_some (slot_at self.old id)) → length (ids_in self.new) < length (ids_in self.old) }
        ensures noted { (q : ResourceId) → noted_in self.new q ≡ noted_in self.old q }
    {
        let _ = self.slots.remove(id);
    }

    // Takes the value out of the slot of an id, which stays, and tells where it was, to be looked at first later on. It is looked
    // for where ids without gaps have it, and then behind the one that was found last.
    pub(crate) fn take_next(&mut self, id: ResourceId) -> (Option<V>, usize)
        ensures value { result.0 ≡ slot_value (slot_at self.old id) }
        ensures slots { Empties slot_at self.old id self.new }
        ensures noted { (q : ResourceId) → noted_in self.new q ≡ noted_in self.old q }
    {
        let (value, place) = self.slots.take(id, id.likely_place(), self.hints.next());
        self.hints.found(place);
        (value, place)
    }

    /// Looks for what is moved next from the first slot on.
    pub fn rewind(&mut self)
        ensures slots { slots_of self.new ≡ slots_of self.old }
        ensures noted { (q : ResourceId) → noted_in self.new q ≡ noted_in self.old q }
    {
        self.hints.rewind();
    }

    // The place that the value of this number came from.
    pub(crate) fn home(&self, number: usize) -> usize {
        self.hints.home(number)
    }

    // Notes the place that the value of this number came from.
    pub(crate) fn note_home(&mut self, number: usize, place: usize)
        ensures slots { slots_of self.new ≡ slots_of self.old }
        ensures noted { (q : ResourceId) → noted_in self.new q ≡ noted_in self.old q }
    {
        self.hints.note_home(number, place);
    }

    // The slot of an id, to write. A place is looked at first.
    pub(crate) fn slot_mut_near(&mut self, id: ResourceId, near: usize) -> Option<&mut Slot<V>>
        ensures shown { option_copied_mut result ≡ slot_at self.old id }
        ensures* written { sem 𝓛 (LendsSlot V.row self.entry id result) }
    {
        self.slots.get_mut(id, near)
    }

    // The slot of an id, to write.
    pub(crate) fn slot_mut(&mut self, id: ResourceId) -> Option<&mut Slot<V>>
        ensures shown { option_copied_mut result ≡ slot_at self.old id }
        ensures* written { sem 𝓛 (LendsSlot V.row self.entry id result) }
    {
        self.slots.get_mut(id, 0)
    }
}

/// Forgets which values were noted as handed out; the room for notes stays.
pub fn forget_notes<V>(table: &mut Table<V>)
    ensures slots { slots_of table.new ≡ slots_of table.old }
    ensures noted { (q : ResourceId) → noted_in table.new q ≡ false }
{
    table.out.clear();
}

/// The list in which the table has noted what is handed out, out of the table, which notes nothing then.
pub fn take_notes<V>(table: &mut Table<V>) -> Vec<ResourceId>
    ensures list { (q : ResourceId) → among result.items q ≡ noted_in table.old q }
    ensures slots { slots_of table.new ≡ slots_of table.old }
    ensures noted { (q : ResourceId) → noted_in table.new q ≡ false }
{
    let alloc = table.allocator();
    mem::replace(&mut table.out, Vec::new(alloc))
}

/// Notes just these ids.
pub fn note_all<V>(table: &mut Table<V>, ids: Vec<ResourceId>)
    ensures slots { slots_of table.new ≡ slots_of table.old }
    ensures noted { (q : ResourceId) → noted_in table.new q ≡ among ids.items q }
{
    table.out = ids;
}

/// Notes that the id's value is handed out.
pub fn note<V>(table: &mut Table<V>, id: ResourceId) -> Result<(), OutOfMemory>
    ensures ok { OnOk result ((q : ResourceId) → noted_in table.new q ≡ (same_id id q || noted_in table.old q)) }
    ensures err { OnErr result ((q : ResourceId) → noted_in table.new q ≡ noted_in table.old q) }
    ensures slots { (q : ResourceId) → slot_at table.new q ≡ slot_at table.old q }
{
    if table.has_note(id) {
        return Ok(());
    }
    Ok(table.out.push(id)?)
}

/// Puts a value into the slot of an id, which is made where there is none.
pub fn put<V: Drop>(table: &mut Table<V>, id: ResourceId, value: V) -> Result<(), OutOfMemory>
    ensures ok { OnOk result (Puts slot_at table.old id (slot_with value) table.new) }
    ensures err { OnErr result ((q : ResourceId) → slot_at table.new q ≡ slot_at table.old q) }
    ensures no_room { OnErr result (slot_at table.old id ≡ None) }
{
    let slot = Slot { value: Some(value) };
    table.slots.insert(id, slot)
}

/// Makes the slot of an id empty; the slot is made where there is none.
pub fn open<V: Drop>(table: &mut Table<V>, id: ResourceId) -> Result<(), OutOfMemory>
    ensures ok { OnOk result (Puts slot_at table.old id (Some (record { value = None })) table.new) }
    ensures err { OnErr result ((q : ResourceId) → slot_at table.new q ≡ slot_at table.old q) }
    ensures no_room { OnErr result (slot_at table.old id ≡ None) }
{
    table.slots.insert(id, Slot { value: None })
}

/// Takes the value out of the slot of an id; the slot stays.
pub fn take<V>(table: &mut Table<V>, id: ResourceId) -> Option<V>
    ensures value { result ≡ slot_value (slot_at table.old id) }
    ensures slots { Empties slot_at table.old id table.new }
    ensures noted { (q : ResourceId) → noted_in table.new q ≡ noted_in table.old q }
{
    take_near(table, id, 0)
}

// `take`, with a place that is looked at first.
pub(crate) fn take_near<V>(table: &mut Table<V>, id: ResourceId, near: usize) -> Option<V>
    ensures value { result ≡ slot_value (slot_at table.old id) }
    ensures slots { Empties slot_at table.old id table.new }
    ensures noted { (q : ResourceId) → noted_in table.new q ≡ noted_in table.old q }
    ensures ids { ids_in table.new ≡ ids_in table.old }
{
    table.slots.take(id, near, id.likely_place()).0
}

/// Puts a value into the slot of an id, where there is one.
pub fn fill<V: Drop>(table: &mut Table<V>, id: ResourceId, value: V)
    ensures slots { Puts slot_at table.old id (filled value (slot_at table.old id)) table.new }
    ensures noted { (q : ResourceId) → noted_in table.new q ≡ noted_in table.old q }
{
    fill_near(table, id, 0, value);
}

// `fill`, with a place that is looked at first.
pub(crate) fn fill_near<V: Drop>(table: &mut Table<V>, id: ResourceId, near: usize, value: V)
    ensures slots { Puts slot_at table.old id (filled value (slot_at table.old id)) table.new }
    ensures noted { (q : ResourceId) → noted_in table.new q ≡ noted_in table.old q }
{
    if let Some(slot) = table.slot_mut_near(id, near) {
        slot.value = Some(value);
    }
}

/// Takes the slot of an id away.
pub fn remove<V>(table: &mut Table<V>, id: ResourceId) -> Option<Slot<V>>
    ensures value { result ≡ slot_at table.old id }
    ensures after { (q : ResourceId) → slot_at table.new q ≡ with_at (slot_at table.old) id None q }
{
    table.slots.remove(id)
}

/// Puts the value in the place of the one that the slot of an id has, and gives back the old one; or the value
/// itself, where there is none to give.
pub fn replace<V>(table: &mut Table<V>, id: ResourceId, value: V) -> Result<V, V>
    ensures ok { IfOk result (λ old. slot_at table.old id ≡ Some (record { value = Some old })) }
    ensures replaced { OnOk result (Puts slot_at table.old id (slot_with value) table.new) }
    ensures err { IfErr result (λ back. back ≡ value) }
    ensures empty { OnErr result (IfSome (slot_at table.old id) (λ s. s.value ≡ None)) }
    ensures unchanged { OnErr result ((q : ResourceId) → slot_at table.new q ≡ slot_at table.old q) }
{
    let Some(slot) = table.slot_mut(id) else {
        return Err(value);
    };
    match &mut slot.value {
        Some(held) => Ok(mem::replace(held, value)),
        None => Err(value),
    }
}

/// The resource that is held under an id, to write.
pub fn resource_mut<V: ResourceValue, R: Resource<V>>(
    table: &mut Table<V>,
    id: ResourceId,
) -> Option<&mut R>
    ensures shown { IfSome result (λ r. slot_at table.old id ≡ slot_with (R.wrapped r.now)) }
    ensures missing { R.KIND ≡ id_kind id → IfNone result (held V.kind_of table.old id ≡ None) }
    ensures* written { sem 𝓛 (LendsHeld V.row R.row R.wrapped table.entry id result) }
{
    resource_mut_near(table, id, 0)
}

/// The same, where a place is looked at first.
pub fn resource_mut_near<V: ResourceValue, R: Resource<V>>(
    table: &mut Table<V>,
    id: ResourceId,
    near: usize,
) -> Option<&mut R>
    ensures shown { IfSome result (λ r. slot_at table.old id ≡ slot_with (R.wrapped r.now)) }
    ensures missing { R.KIND ≡ id_kind id → IfNone result (held V.kind_of table.old id ≡ None) }
    ensures* written { sem 𝓛 (LendsHeld V.row R.row R.wrapped table.entry id result) }
{
    let slot = table.slot_mut_near(id, near)?;
    slot.resource_mut()
}

/// The value that is held under an id, to write.
pub fn value_mut<V: ResourceValue>(table: &mut Table<V>, id: ResourceId) -> Option<&mut V>
    ensures shown { option_copied_mut result ≡ held V.kind_of table.old id }
    ensures* written { sem 𝓛 (LendsHeld V.row V.row (λ v. v) table.entry id result) }
{
    if table.get(id).is_none() {
        return None;
    }
    let slot = table.slot_mut(id)?;
    slot.value_mut()
}
