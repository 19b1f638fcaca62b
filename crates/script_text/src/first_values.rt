//! The world of a script's first values.
ghost use Rattle.std.specs.Prelude.{◌≡◌, IfOk, IfErr};
ghost use Rattle.indexmap.specs.IndexMap.{values};
ghost use Rattle.shred_table.specs.declared.id.ResourceId.{ResourceId};
ghost use Rattle.shred_world.specs.Worlds.{world_held};
ghost use Rattle.script_text.specs.declared.error.ScriptError.TheVariants.{OutOfMemory};
ghost use Rattle.script_text.specs.Report.{numbers_held};
ghost use Rattle.script_text.specs.Value.{value_kind};

use crate::error::ScriptError;
use crate::step::Resources;
use crate::value::{Value, id_at};
use shred_world::World;
use std::alloc::Global;

/// The world that holds each resource's first value.
pub fn world_of(alloc: Global, resources: &Resources<'_>) -> Result<World<Value>, ScriptError>
    ensures held { IfOk result (λ world. (id : ResourceId) → world_held value_kind world id ≡ numbers_held (values resources.now) id) }
    ensures err { IfErr result (λ error. error ≡ OutOfMemory) }
{
    let mut world = World::empty(alloc);
    for (place, first) in resources.values().enumerate() {
        let Ok(()) = world.insert_by_id(id_at(place), *first) else {
            return Err(ScriptError::OutOfMemory);
        };
    }
    Ok(world)
}
