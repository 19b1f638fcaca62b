//! Values of a world as they are, of whatever kind, and the table behind an owned world.
ghost use Rattle.std.specs.Prelude.{◌≡◌};
ghost use Rattle.std.specs.Borrow.{sem};
ghost use Rattle.std.specs.Option.{option_copied, option_copied_mut};
ghost use Rattle.shred_world.specs.Lent.{LendsValueOf};
ghost use Rattle.shred_table.specs.Slots.{slot_at};
ghost use Rattle.shred_table.specs.Twins.{IsSettled, twin_slot};
ghost use Rattle.shred_table.specs.declared.id.ResourceId.{ResourceId};
ghost use Rattle.shred_world.specs.Worlds.{world_held, world_slot};

use crate::world::World;
use crate::world::local::LocalWorld;
use shred_table::id::ResourceId;
use shred_table::resource::ResourceValue;
use shred_table::twin::Twin;

/// The value that is held under the id. `shred` gives none of these functions again, so by its names alone no value of
/// another kind comes into a world.
pub fn value_of<V: ResourceValue>(world: &World<V>, id: ResourceId) -> Option<&V>
    ensures { option_copied result ≡ world_held V.kind_of world.now id }
{
    world.local.get(id)
}

/// The value that is held under the id, to write.
pub fn value_of_mut<V: ResourceValue>(world: &mut World<V>, id: ResourceId) -> Option<&mut V>
    ensures shown { option_copied_mut result ≡ world_held V.kind_of world.old id }
    ensures* written { sem 𝓛 (LendsValueOf V.row V.kind_of world.entry id result) }
{
    world.local.value_mut(id)
}

/// The table behind a world, in which all its values are, and the hand beside it.
pub fn into_twin<V: Drop>(world: World<V>) -> Twin<V>
    ensures table { (q : ResourceId) → slot_at result.table q ≡ world_slot world q }
    ensures settled { IsSettled result }
{
    let World { mut local } = world;
    local.settle();
    let LocalWorld { twin, settled: _ } = local;
    twin
}

/// The world over a table and the hand beside it.
pub fn from_twin<V>(twin: Twin<V>) -> World<V>
    ensures { (q : ResourceId) → world_slot result q ≡ twin_slot twin q }
{
    World {
        local: LocalWorld {
            twin,
            settled: false,
        },
    }
}
