//! Moving the values of a world into cells, and back.
ghost use Rattle.std.specs.Prelude.{◌≡◌, ◌||◌, true, false, is_some};
ghost use Rattle.shred_cell.specs.Shared.{ArePlaced, has_cell, cell_in, KeepsHeldOrShared};
ghost use Rattle.shred_table.specs.Slots.{among, slot_at};
ghost use Rattle.shred_table.specs.declared.id.ResourceId.{ResourceId};
ghost use Rattle.shred_table.specs.Changes.{Empties, EmptiesEach, Receives, ReceivesEach};

use super::OfKind;
use crate::cell::{InvalidBorrow, TrustCell};
use shred_table::id::ResourceId;
use shred_table::resource::ResourceValue;
use shred_table::table::{Table, fill, take};

// Moves the value that is held under an id into a cell, in the slot that is there for it.
fn enclose_one<V: ResourceValue + Drop>(
    table: &mut Table<V>,
    id: ResourceId,
    cells: &mut Table<TrustCell<V, OfKind>>,
)
    ensures table { Empties slot_at table.old id table.new }
    ensures cells { Receives slot_at cells.old (cell_in V.kind_of table.old) id cells.new }
{
    if let Some(value) = take(table, id) {
        let kind = id.kind();
        if value.kind() == kind {
            fill(cells, id, TrustCell::with_fact(value, &kind));
        }
    }
}

// Moves the values that are held under these ids into cells.
pub(super) fn enclose<V: ResourceValue + Drop>(
    table: &mut Table<V>,
    ids: &[ResourceId],
    cells: &mut Table<TrustCell<V, OfKind>>,
)
    ensures table { EmptiesEach slot_at table.old (among ids.now) table.new }
    ensures cells { ReceivesEach slot_at cells.old (cell_in V.kind_of table.old) (among ids.now) cells.new }
{
    for id in ids {
        enclose_one(table, *id, cells);
    }
}

// Moves the value of an id's cell back; false where it is lost, with the guard that had it.
fn release_one<V: ResourceValue + Drop>(
    table: &mut Table<V>,
    id: ResourceId,
    cells: &mut Table<TrustCell<V, OfKind>>,
) -> bool
    requires home { is_some (slot_at table.old id) ≡ true }
    requires placed { ArePlaced cells.old }
    ensures either { KeepsHeldOrShared V.kind_of table.old cells.old table.new cells.new }
    ensures gone { result ≡ true → has_cell cells.new id ≡ false }
    ensures fewer { (q : ResourceId) → has_cell cells.old q ≡ false → has_cell cells.new q ≡ false }
    ensures homes { (q : ResourceId) → is_some (slot_at table.new q) ≡ is_some (slot_at table.old q) }
    ensures slots { (q : ResourceId) → is_some (slot_at cells.new q) ≡ is_some (slot_at cells.old q) }
    ensures placed { ArePlaced cells.new }
{
    let Some(cell) = take(cells, id) else {
        return true;
    };
    match cell.into_inner() {
        Ok(value) => {
            fill(table, id, value);
            true
        }
        Err(InvalidBorrow) => {
            fill(cells, id, TrustCell::lost(&id.kind()));
            false
        }
    }
}

// Moves the values of these ids' cells back; false where one is lost, and then some of the others are still in their cells.
pub(super) fn release<V: ResourceValue + Drop>(
    table: &mut Table<V>,
    ids: &[ResourceId],
    cells: &mut Table<TrustCell<V, OfKind>>,
) -> bool
    requires homes { (q : ResourceId) → is_some (slot_at table.old q) ≡ among ids.now q }
    requires placed { ArePlaced cells.old }
    ensures either { KeepsHeldOrShared V.kind_of table.old cells.old table.new cells.new }
    ensures gone { result ≡ true → (q : ResourceId) → among ids.now q ≡ true → has_cell cells.new q ≡ false }
    ensures homes { (q : ResourceId) → is_some (slot_at table.new q) ≡ is_some (slot_at table.old q) }
    ensures slots { (q : ResourceId) → is_some (slot_at cells.new q) ≡ is_some (slot_at cells.old q) }
    ensures placed { ArePlaced cells.new }
{
    for id in ids {
        if !release_one(table, *id, cells) {
            return false;
        }
    }
    true
}
