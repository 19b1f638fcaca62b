//! From a world to a shared world, and back.
ghost use Rattle.std.specs.Prelude.{◌≡◌, ◌||◌, IfErr, IfOk, is_some};
ghost use Rattle.shred_cell.specs.Shared.{ArePlaced, has_cell};
ghost use Rattle.shred_cell.specs.SharedWorlds.{SharesHeld, shares};
ghost use Rattle.shred_table.specs.Slots.{among, held, slot_at};
ghost use Rattle.shred_table.specs.declared.id.ResourceId.{ResourceId};
ghost use Rattle.shred_table.specs.AsOne.{IsSettledBeside};
ghost use Rattle.shred_table.specs.Twins.{twin_slot};
ghost use Rattle.shred_world.specs.Worlds.{world_held, world_slot, IsSameMap};

use super::moves::{enclose, release};
use super::{OfKind, SharedWorld};
use crate::cell::TrustCell;
use shred_table::id::ResourceId;
use shred_table::parting::empty_hand;
use shred_table::resource::ResourceValue;
use shred_table::table::Table;
use shred_table::twin::Twin;
use shred_world::values::{from_twin, into_twin};
use shred_world::world::World;

// The shared world of the values that are held in the table, and of those that are in the cells.
fn share<V: ResourceValue + Drop>(
    mut table: Table<V>,
    hand: Table<V>,
    ids: Vec<ResourceId>,
    mut cells: Table<TrustCell<V, OfKind>>,
) -> SharedWorld<V>
    requires homes { (q : ResourceId) → is_some (slot_at table q) ≡ among ids.items q }
    requires covered { (q : ResourceId) → is_some (slot_at cells q) ≡ among ids.items q }
    requires placed { ArePlaced cells }
    requires room { IsSettledBeside table hand }
    ensures { (q : ResourceId) → shares result q ≡ (is_some (held V.kind_of table q) || has_cell cells q) }
{
    enclose(&mut table, ids.as_slice(), &mut cells);
    SharedWorld {
        table,
        hand,
        cells,
        ids,
    }
}

// The shared world of the values that are held in the table, whose slots are of these ids; or the world over the table and the
// hand as they were, where memory is refused.
fn share_each<V: ResourceValue + Drop>(
    twin: Twin<V>,
    ids: Vec<ResourceId>,
) -> Result<SharedWorld<V>, World<V>>
    requires ids { (q : ResourceId) → among ids.items q ≡ is_some (slot_at twin.table q) }
    requires settled { IsSettledBeside twin.table twin.hand }
    ensures ok { IfOk result (λ shared. SharesHeld shared (held V.kind_of twin.table)) }
    ensures err { IfErr result (λ back. (q : ResourceId) → world_slot back q ≡ twin_slot twin q) }
{
    match empty_hand(twin.table.allocator(), ids.as_slice()) {
        Ok(cells) => {
            let Twin { table, hand } = twin;
            Ok(share(table, hand, ids, cells))
        }
        Err(_) => Err(from_twin(twin)),
    }
}

impl<V: ResourceValue + Drop> SharedWorld<V> {
    /// The world, with each of its values in a cell of its own; or the world as it was, where memory is refused.
    pub fn new(world: World<V>) -> Result<SharedWorld<V>, World<V>>
        ensures ok { IfOk result (λ shared. SharesHeld shared (world_held V.kind_of world)) }
        ensures err { IfErr result (IsSameMap world) }
    {
        let twin = into_twin(world);
        match twin.table.ids() {
            Ok(ids) => share_each(twin, ids),
            Err(_) => Err(from_twin(twin)),
        }
    }

    /// The world, with the values that the cells have; or the shared world, where a guard that writes was forgotten. It takes
    /// no memory.
    pub fn into_world(self) -> Result<World<V>, SharedWorld<V>>
        ensures ok { IfOk result (λ world. (id : ResourceId) → is_some (world_held V.kind_of world id) ≡ shares self id) }
        ensures err { IfErr result (λ shared. (id : ResourceId) → shares shared id ≡ shares self id) }
    {
        let SharedWorld {
            mut table,
            hand,
            mut cells,
            ids,
        } = self;
        if release(&mut table, ids.as_slice(), &mut cells) {
            Ok(from_twin(Twin { table, hand }))
        } else {
            Err(share(table, hand, ids, cells))
        }
    }
}
