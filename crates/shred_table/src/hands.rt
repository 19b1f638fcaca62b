//! Hands for several pairs of lists of ids: what each pair writes is moved into its hand, and back.
ghost use Rattle.std.specs.Prelude.{◌≡◌, false, is_some, IfOk, length};
ghost use Rattle.std.specs.List.{All, AllZip};
ghost use Rattle.shred_table.specs.declared.id.ResourceId.{ResourceId};
ghost use Rattle.shred_table.specs.Parting.{AreEmpty};
ghost use Rattle.shred_table.specs.Parts.{DoNotConflict, written_by, HasNothingOut, HasRoom, HoldsWritten, Fits, IsJoined};
ghost use Rattle.shred_table.specs.Slots.{slot_at, noted_in};
ghost use Rattle.shred_table.specs.Changes.{StaysOutside, EmptiesEach};

use crate::accessor::OutOfMemory;
use crate::id::ResourceId;
use crate::parting::{move_back, move_out};
use crate::table::{Table, forget_notes};
use std::alloc::Global;

// As many hands, the first of them those that are there.
fn counted<V: Drop>(
    alloc: Global,
    count: usize,
    mut hands: Vec<Table<V>>,
) -> Result<Vec<Table<V>>, OutOfMemory>
    ensures { IfOk result (λ counted. length counted.items ≡ count) }
{
    hands.truncate(count);
    while hands.len() < count {
        hands.push(Table::new(alloc))?;
    }
    Ok(hands)
}

/// A hand for each pair, with room for what the pair writes. The hands that are there are used again, whatever is in them.
pub fn fit_hands<V: Drop>(
    table: &Table<V>,
    alloc: Global,
    pairs: &[(&[ResourceId], &[ResourceId])],
    hands: Vec<Table<V>>,
) -> Result<Vec<Table<V>>, OutOfMemory>
    ensures { IfOk result (λ fitted. AllZip (HasRoom table.now) pairs.now fitted.items) }
{
    let mut hands = counted(alloc, pairs.len(), hands)?;
    for i in 0..pairs.len() {
        let hand = &mut hands[i];
        hand.make_ready(pairs[i].1.len())?;
        table.make_room(pairs[i].1, hand)?;
    }
    Ok(hands)
}

/// Moves what each pair writes into its hand.
pub fn move_all_out<V: Drop>(
    table: &mut Table<V>,
    pairs: &[(&[ResourceId], &[ResourceId])],
    hands: &mut [Table<V>],
)
    requires apart { DoNotConflict pairs.now }
    requires room { AllZip (HasRoom table.old) pairs.now hands.old }
    ensures hands { AllZip (HoldsWritten table.old) pairs.now hands.new }
    ensures nothing_out { All HasNothingOut hands.new }
    ensures left { EmptiesEach slot_at table.old (written_by pairs.now) table.new }
{
    table.rewind();
    for i in 0..pairs.len() {
        let hand = &mut hands[i];
        move_out(table, pairs[i].1, hand);
        forget_notes(hand);
    }
}

/// Moves what is in the hands back. Then no value is handed out.
pub fn move_all_back<V: Drop>(
    table: &mut Table<V>,
    pairs: &[(&[ResourceId], &[ResourceId])],
    hands: &mut [Table<V>],
)
    requires apart { DoNotConflict pairs.now }
    requires fit { AllZip (Fits table.old) pairs.now hands.old }
    requires empty { AreEmpty (written_by pairs.now) table.old }
    ensures joined { AllZip (IsJoined table.new) pairs.now hands.old }
    ensures rest { StaysOutside (written_by pairs.now) slot_at table.old table.new }
    ensures slots { (q : ResourceId) → is_some (slot_at table.new q) ≡ is_some (slot_at table.old q) }
    ensures noted { (q : ResourceId) → noted_in table.new q ≡ false }
{
    for i in 0..pairs.len() {
        move_back(table, pairs[i].1, &mut hands[i]);
    }
    forget_notes(table);
}
