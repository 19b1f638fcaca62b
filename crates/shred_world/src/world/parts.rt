//! Parting a view into views that may be used beside each other.
ghost use Rattle.std.specs.Prelude.{◌≡◌, ◌<◌, ◌&&◌, false, cond, is_some, IfOk, OnOk, OnErr, length};
ghost use Rattle.std.specs.List.{AllZip};
ghost use Rattle.shred_table.specs.declared.id.ResourceId.{ResourceId};
ghost use Rattle.shred_world.specs.Beside.{pairs_of, lender_of, pairs_behind, pair_behind, lent_behind, shelf_behind, reads_behind, writes_behind};
ghost use Rattle.shred_world.specs.OwnViews.{IsLent};
ghost use Rattle.shred_world.specs.Parted.{has_place, IsJoinedWith, IsParted, IsViewOfPair, MayBeJoined, ShowsSame, AllWithin};
ghost use Rattle.shred_table.specs.Parting.{emptied};
ghost use Rattle.shred_table.specs.Parts.{DoNotConflict, reads_of, writes_of, written_by, HasNothingOut, HasRoom, HoldsWritten, Fits, IsHandOf, IsJoined};
ghost use Rattle.shred_table.specs.Slots.{slot_at, slots_of, noted_in, among};
ghost use Rattle.shred_world.specs.Views.{may_read, may_write, is_out, is_own, table_name, view_slot, IsSameLoan};

use crate::world::parted::Parts;
use crate::world::tuples::joined;
use crate::world::view::{Shelf, View};
use shred_table::accessor::OutOfMemory;
use shred_table::hands::{fit_hands, move_all_back, move_all_out};
use shred_table::id::ResourceId;
use shred_table::resource::ResourceValue;
use shred_table::table::{self, Table};
use std::alloc::Global;
use std::snapshot::Snapshot;

// The ids that the pairs write, in the room of a list.
fn written_ids(
    room: Vec<ResourceId>,
    pairs: &[(&[ResourceId], &[ResourceId])],
) -> Result<Vec<ResourceId>, OutOfMemory>
    ensures { IfOk result (λ ids. (q : ResourceId) → among ids.items q ≡ written_by pairs.now q) }
{
    let mut ids = room;
    ids.clear();
    for pair in pairs {
        ids = match joined(ids, pair.1) {
            Ok(ids) => ids,
            Err(error) => return Err(error),
        };
    }
    Ok(ids)
}

// Hands with room for what the pairs write, and the list of it, in the room that the table has for its notes.
fn make_ready<V: Drop>(
    table: &mut Table<V>,
    alloc: Global,
    pairs: &[(&[ResourceId], &[ResourceId])],
    hands: Vec<Table<V>>,
) -> Result<(Vec<Table<V>>, Vec<ResourceId>), OutOfMemory>
    ensures slots { slots_of table.new ≡ slots_of table.old }
    ensures nothing_noted { (q : ResourceId) → noted_in table.new q ≡ false }
    ensures hands { IfOk result (λ ready. AllZip (HasRoom table.old) pairs.now ready.0.items) }
    ensures ids { IfOk result (λ ready. (q : ResourceId) → among ready.1.items q ≡ written_by pairs.now q) }
{
    let fitted = fit_hands(table, alloc, pairs, hands);
    let room = table::take_notes(table);
    match fitted {
        Ok(hands) => match written_ids(room, pairs) {
            Ok(ids) => Ok((hands, ids)),
            Err(error) => Err(error),
        },
        Err(error) => Err(error),
    }
}

/// The pairs of lists by which a view is parted, and what lies behind the hands of the parts.
#[derive(Drop)]
pub struct Behind<'p, 's, V> {
    pub(crate) pairs: &'p [(&'p [ResourceId], &'p [ResourceId])],
    pub(crate) shelf: [Shelf<'s, V>; 1],
}

impl<'p, 's, V> Behind<'p, 's, V> {
    /// How many parts there are.
    pub fn len(&self) -> usize
        ensures { result ≡ length (pairs_behind self.now) }
    {
        self.pairs.len()
    }

    /// The view of the part of this number, of just the ids of its pair, over its hand and what lies behind the hands.
    /// Views of several parts may be there at the same time.
    pub fn view<'b, 'a>(&'b self, number: usize, hand: &'a mut Table<V>) -> View<'b, 'a, V>
        requires number { number < length (pairs_behind self.now) }
        requires hand { IsHandOf (lent_behind self.now) (pair_behind self.now number) hand.old }
        ensures name { result.own.ghost_name ≡ hand.entry.ghost_name }
        ensures over { IsViewOfPair (pair_behind self.now number) hand.old (shelf_behind self.now) result }
        ensures lent { IsLent result (reads_behind self.now number) (writes_behind self.now number) }
        ensures own { (id : ResourceId) → is_own result id ≡ among (writes_behind self.now number) id }
    {
        let pair = &self.pairs[number];
        View::over(pair.0, pair.1, &self.shelf, hand)
    }
}

impl<'s, 'a, V: ResourceValue + Drop> View<'s, 'a, V> {
    /// Moves the values of the ids that each pair writes into a hand of the pair. The slots that they leave stay, and the
    /// ids of these slots are out until `Parts::join` moves the values back. If memory is refused, nothing was moved.
    pub fn part<'p>(
        &mut self,
        alloc: Global,
        pairs: &'p [(&'p [ResourceId], &'p [ResourceId])],
    ) -> Result<Parts<'p, 'a, V>, OutOfMemory>
        requires nothing_out { (id : ResourceId) → is_out self.old id ≡ false }
        requires reads_within { AllWithin reads_of (may_read self.old) pairs.now }
        requires writes_within { AllWithin writes_of (may_write self.old) pairs.now }
        requires apart { DoNotConflict pairs.now }
        ensures loan { IsSameLoan self.old self.new }
        ensures parted { IfOk result (λ parts. IsParted self.old pairs.now parts self.new) }
        ensures out { OnOk result ((q : ResourceId) → is_out self.new q ≡ (written_by pairs.now q && has_place self.old q)) }
        ensures refused { OnErr result (ShowsSame self.old self.new) }
        ensures nothing_begun { OnErr result ((q : ResourceId) → is_out self.new q ≡ false) }
    {
        self.part_with(alloc, pairs, Vec::new(alloc))
    }

    /// `part`, with hands that `Parts::join` gave back, whatever is in them: where they and the view have the room that this takes,
    /// as after a run by the same pairs, no memory is taken.
    pub fn part_with<'p>(
        &mut self,
        alloc: Global,
        pairs: &'p [(&'p [ResourceId], &'p [ResourceId])],
        hands: Vec<Table<V>>,
    ) -> Result<Parts<'p, 'a, V>, OutOfMemory>
        requires nothing_out { (id : ResourceId) → is_out self.old id ≡ false }
        requires reads_within { AllWithin reads_of (may_read self.old) pairs.now }
        requires writes_within { AllWithin writes_of (may_write self.old) pairs.now }
        requires apart { DoNotConflict pairs.now }
        ensures loan { IsSameLoan self.old self.new }
        ensures parted { IfOk result (λ parts. IsParted self.old pairs.now parts self.new) }
        ensures out { OnOk result ((q : ResourceId) → is_out self.new q ≡ (written_by pairs.now q && has_place self.old q)) }
        ensures refused { OnErr result (ShowsSame self.old self.new) }
        ensures nothing_begun { OnErr result ((q : ResourceId) → is_out self.new q ≡ false) }
    {
        let (mut hands, written) = match make_ready(self.own, alloc, pairs, hands) {
            Ok(ready) => ready,
            Err(error) => return Err(error),
        };
        move_all_out(self.own, pairs, hands.as_mut_slice());
        table::note_all(self.own, written);
        Ok(Parts {
            pairs,
            lender: Snapshot::of(&self.own),
            parted: Snapshot::of(&hands),
            hands,
        })
    }
}

impl<'p, 'a, V: ResourceValue + Drop> Parts<'p, 'a, V> {
    /// What lies behind the hands, for views of the parts. The lender is the view that was parted.
    pub fn behind<'b>(&self, lender: &'b View<V>) -> Behind<'p, 'b, V>
        requires { table_name lender.now ≡ lender_of self.now }
        ensures pairs { pairs_behind result ≡ pairs_of self.now }
        ensures shelf { (q : ResourceId) → lent_behind result q ≡ view_slot lender.now q }
    {
        Behind {
            pairs: self.pairs,
            shelf: [Shelf::before_all(lender.own, lender.owned, lender.base, lender.shelf)],
        }
    }

    /// Moves each value back into the slot of its id in the view that was parted, which it left empty. It gives back the hands, of
    /// which `part_with` takes the room.
    pub fn join(self, lender: &mut View<V>) -> Vec<Table<V>>
        requires { MayBeJoined V.kind_of self lender.old }
        ensures loan { IsSameLoan lender.old lender.new }
        ensures joined { IsJoinedWith V.kind_of self.entry lender.old lender.new }
        ensures nothing_out { (q : ResourceId) → is_out lender.new q ≡ false }
    {
        let Parts {
            pairs,
            lender: _,
            parted: _,
            mut hands,
        } = self;
        move_all_back(lender.own, pairs, hands.as_mut_slice());
        hands
    }
}
