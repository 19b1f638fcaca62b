//! Moving the values of some ids from a table into another one, and back.
ghost use Rattle.std.specs.Prelude.{◌≡◌, ◌&&◌, IsTrue, true, IfOk, IfSome, IfNone, None, OnOk, OnErr, is_some, Some};
ghost use Rattle.shred_table.specs.declared.id.ResourceId.{ResourceId};
ghost use Rattle.shred_table.specs.Parting.{IsEmptyHand, IsRoom, IsSpare, emptied, table_value, HoldsJust, FitsJust, AreEmpty};
ghost use Rattle.shred_table.specs.AsOne.{brought};
ghost use Rattle.shred_table.specs.Slots.{slot_at, noted_in, among, ids_in};
ghost use Rattle.shred_table.specs.Changes.{Puts, Empties, EmptiesEach, Receives, ReceivesEach, TakesOver};

use crate::accessor::OutOfMemory;
use crate::id::ResourceId;
use crate::table::{Table, fill_near, open, take_near};
use std::alloc::Global;

/// A table with an empty slot for each of these ids, and with no other slot.
pub fn empty_hand<V: Drop>(alloc: Global, ids: &[ResourceId]) -> Result<Table<V>, OutOfMemory>
    ensures { IfOk result (IsEmptyHand ids.now) }
{
    let mut hand = Table::with_homes(alloc, ids.len())?;
    for id in ids {
        open(&mut hand, *id)?;
    }
    Ok(hand)
}

impl<V: Drop> Table<V> {
    // Gives the hand an empty slot for the id where this table has a slot, and no slot where it has none.
    fn fit(&self, id: ResourceId, hand: &mut Table<V>) -> Result<(), OutOfMemory>
        requires { slot_at hand.old id ≡ emptied (slot_at hand.old id) }
        ensures ok { OnOk result (Puts slot_at hand.old id (emptied (slot_at self.now id)) hand.new) }
        ensures err { OnErr result ((q : ResourceId) → slot_at hand.new q ≡ slot_at hand.old q) }
    {
        if self.slot(id).is_none() {
            hand.close(id);
            return Ok(());
        }
        if hand.slot(id).is_some() {
            return Ok(());
        }
        open(hand, id)
    }

    // Makes the empty slots into which the values of these ids can be moved out. A hand that has them already takes
    // no memory; if memory is refused, the hand has empty slots for some of the ids.
    pub(crate) fn make_room(
        &self,
        ids: &[ResourceId],
        hand: &mut Table<V>,
    ) -> Result<(), OutOfMemory>
        requires { IsSpare ids.now hand.old }
        ensures room { OnOk result (IsRoom self.now ids.now hand.new) }
        ensures spare { OnErr result (IsSpare ids.now hand.new) }
    {
        for id in ids {
            self.fit(*id, hand)?;
        }
        Ok(())
    }

    // Moves the value of an id, where there is one, into the slot of another table, which notes where it came from.
    fn move_one(&mut self, id: ResourceId, number: usize, to: &mut Table<V>)
        ensures from { Empties slot_at self.old id self.new }
        ensures to { Receives slot_at to.old (table_value self.old) id to.new }
    {
        let (value, home) = self.take_next(id);
        if let Some(value) = value {
            fill_near(to, id, number, value);
        }
        to.note_home(number, home);
    }

    // Moves the value of an id, where there is one, into the slot of the table that it came from.
    fn move_one_home(&mut self, id: ResourceId, number: usize, to: &mut Table<V>)
        ensures from { Empties slot_at self.old id self.new }
        ensures to { Receives slot_at to.old (table_value self.old) id to.new }
    {
        let home = self.home(number);
        if let Some(value) = take_near(self, id, number) {
            fill_near(to, id, home, value);
        }
    }
}

impl<V: Drop> Table<V> {
    // Moves the value that is at a place, where there is one, into the id's slot of another table, where that is empty. A value
    // for which the other table has no such slot is dropped.
    fn bring_one(&mut self, id: ResourceId, place: usize, to: &mut Table<V>)
        ensures from { Empties slot_at self.old id self.new }
        ensures to { Puts slot_at to.old id (brought (slot_at self.old id) (slot_at to.old id)) to.new }
        ensures ids { ids_in self.new ≡ ids_in self.old }
        ensures noted { (q : ResourceId) → noted_in to.new q ≡ noted_in to.old q }
    {
        let Some(value) = take_near(self, id, place) else {
            return;
        };
        if let Some(slot) = to.slot_mut_near(id, place) {
            if slot.value.is_none() {
                slot.value = Some(value);
            }
        }
    }

    // `bring_one` of each value.
    pub(crate) fn bring_all(&mut self, to: &mut Table<V>)
        ensures from { (q : ResourceId) → slot_at self.new q ≡ emptied (slot_at self.old q) }
        ensures to { (q : ResourceId) → slot_at to.new q ≡ brought (slot_at self.old q) (slot_at to.old q) }
        ensures noted { (q : ResourceId) → noted_in to.new q ≡ noted_in to.old q }
    {
        for place in 0..self.count() {
            let id = self.id_at(place);
            self.bring_one(id, place, to);
        }
    }

    // The first id that has a slot here and none in the hand.
    fn stray(&self, hand: &Table<V>) -> Option<ResourceId>
        ensures some { IfSome result (λ id. (is_some (slot_at self.now id) ≡ true) × (slot_at hand.now id ≡ None)) }
        ensures none { IfNone result ((q : ResourceId) → slot_at hand.now q ≡ None → slot_at self.now q ≡ None) }
    {
        for place in 0..self.count() {
            let id = self.id_at(place);
            if hand.slot_near(id, place).is_none() {
                return Some(id);
            }
        }
        None
    }

    // Takes away the slots that the hand has none for, with their values.
    pub(crate) fn drop_strays(&mut self, hand: &Table<V>)
        ensures kept { (q : ResourceId) → IsTrue (is_some (slot_at hand.now q)) → slot_at self.new q ≡ slot_at self.old q }
        ensures none { (q : ResourceId) → slot_at hand.now q ≡ None → slot_at self.new q ≡ None }
        ensures noted { (q : ResourceId) → noted_in self.new q ≡ noted_in self.old q }
    {
        while let Some(id) = self.stray(hand) {
            self.close(id);
        }
    }
}

/// Moves the values of these ids into the slots that another table has for them; their own slots stay, empty. A value for
/// which the other table has no slot is dropped.
pub fn move_each<V: Drop>(from: &mut Table<V>, ids: &[ResourceId], to: &mut Table<V>)
    ensures from { EmptiesEach slot_at from.old (among ids.now) from.new }
    ensures to { ReceivesEach slot_at to.old (table_value from.old) (among ids.now) to.new }
{
    for number in 0..ids.len() {
        from.move_one(ids[number], number, to);
    }
}

/// `move_each`, back into the table that the values came from. The place that each left is looked at first.
pub fn move_home<V: Drop>(from: &mut Table<V>, ids: &[ResourceId], to: &mut Table<V>)
    ensures from { EmptiesEach slot_at from.old (among ids.now) from.new }
    ensures to { ReceivesEach slot_at to.old (table_value from.old) (among ids.now) to.new }
{
    for number in 0..ids.len() {
        from.move_one_home(ids[number], number, to);
    }
}

/// Moves the values of these ids into the hand; their slots stay, empty.
pub fn move_out<V: Drop>(table: &mut Table<V>, ids: &[ResourceId], hand: &mut Table<V>)
    requires { IsRoom table.old ids.now hand.old }
    ensures hand { HoldsJust ids.now (slot_at table.old) hand.new }
    ensures left { EmptiesEach slot_at table.old (among ids.now) table.new }
{
    move_each(table, ids, hand);
}

/// Moves the values of these ids back from the hand into their slots; the hand's slots stay, empty.
pub fn move_back<V: Drop>(table: &mut Table<V>, ids: &[ResourceId], hand: &mut Table<V>)
    requires slots { FitsJust ids.now (slot_at table.old) hand.old }
    requires empty { AreEmpty (among ids.now) table.old }
    ensures back { TakesOver slot_at table.old (slot_at hand.old) (among ids.now) table.new }
    ensures hand { (q : ResourceId) → slot_at hand.new q ≡ emptied (slot_at hand.old q) }
{
    move_home(hand, ids, table);
}
