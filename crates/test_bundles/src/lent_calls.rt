//! Bundles that are taken on a world and given back, whose whole effect their caller can say.
ghost use Rattle.std.specs.Prelude.{◌≡◌, Some, OnOk, OnErr};
ghost use Rattle.shred_table.specs.Id.{id_of};
ghost use Rattle.shred_table.specs.Slots.{with_at};
ghost use Rattle.shred_world.specs.Worlds.{world_held};
ghost use Rattle.shred_table.specs.declared.id.ResourceId.{ResourceId};
ghost use Rattle.test_values.specs.Values.{kind_of, count_kind};
ghost use Rattle.test_values.specs.declared.values.Value.TheVariants.{Count as counted};

use shred_world::{DataError, ResourceValue, SystemData, World, WriteExpect};
use test_values::{Count, Value};

/// Sets the count, in a bundle that is taken on the world.
pub fn set_lent_count(world: &mut World<Value>, count: Count) -> Result<(), DataError>
    ensures ok { OnOk result ((q : ResourceId) → world_held kind_of world.new q ≡ with_at (world_held kind_of world.old) (id_of count_kind 0) (Some (counted count)) q) }
    ensures err { OnErr result ((q : ResourceId) → world_held kind_of world.new q ≡ world_held kind_of world.old q) }
{
    match world.system_data::<WriteExpect<Count>>() {
        Ok(mut lent) => {
            **lent = count;
            lent.give_back();
            Ok(())
        }
        Err(error) => Err(error),
    }
}

/// Takes a bundle on the world and gives it back, which leaves what the world held.
pub fn take_and_give_back<'s, V: ResourceValue + Drop + 's, D: SystemData<'s, V>>(
    world: &mut World<V>,
) -> Result<(), DataError>
    ensures { (q : ResourceId) → world_held V.kind_of world.new q ≡ world_held V.kind_of world.old q }
{
    match world.system_data::<D>() {
        Ok(lent) => {
            lent.give_back();
            Ok(())
        }
        Err(error) => Err(error),
    }
}
