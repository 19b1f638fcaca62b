//! What sets up a world for a resource.
ghost use Rattle.std.specs.Prelude.{◌≡◌, Option, Result, Ok};
ghost use Rattle.shred_world.specs.declared.world.WorldError.{WorldError};
ghost use Rattle.shred_table.specs.declared.id.ResourceId.{ResourceId};
ghost use Rattle.shred_table.specs.Id.{id_of};
ghost use Rattle.shred_world.specs.Worlds.{world_held, IsProvided};

use crate::world::{World, WorldError};
use shred_table::id::ResourceId;
use shred_table::resource::{Resource, ResourceValue};

/// Sets up a world for a resource of type `R`.
pub trait SetupHandler<V: ResourceValue, R: Resource<V>> {
    ghost sets_up: { (ResourceId → Option V) → Result (Unit {0}) WorldError → (ResourceId → Option V) → Type 0 };

    /// What is done once, before the resource is asked for.
    fn setup(world: &mut World<V>) -> Result<(), WorldError>
        ensures { sets_up (world_held V.kind_of world.old) result (world_held V.kind_of world.new) };
}

/// Holds the default resource, where none is held.
pub struct DefaultProvider;

/// Does nothing.
pub struct PanicHandler;

impl<V: ResourceValue + Drop, R: Resource<V> + Default> SetupHandler<V, R> for DefaultProvider {
    ghost sets_up = { λ before answer after. IsProvided R.wrapped R.is_default (id_of R.KIND 0) before answer after };

    fn setup(world: &mut World<V>) -> Result<(), WorldError> {
        world.fill(ResourceId::new::<V, R>(), || R::default())
    }
}

impl<V: ResourceValue, R: Resource<V>> SetupHandler<V, R> for PanicHandler {
    ghost sets_up = { λ before answer after. (answer ≡ Ok tt) × ((q : ResourceId) → after q ≡ before q) };

    fn setup(_world: &mut World<V>) -> Result<(), WorldError> {
        Ok(())
    }
}
