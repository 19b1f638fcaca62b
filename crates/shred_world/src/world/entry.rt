//! The place of one resource in a world, which may be filled.
ghost use Rattle.std.specs.Prelude.{◌≡◌, None, IfOk, IfErr};
ghost use Rattle.std.specs.Borrow.{sem};
ghost use Rattle.shred_world.specs.Refusals.{IsWithoutRoom};
ghost use Rattle.shred_world.specs.Entries.{entry_held};

use crate::world::fetch::FetchMut;
use crate::world::{World, WorldError};
use shred_table::id::ResourceId;
use shred_table::resource::{Resource, ResourceValue};
use std::marker::PhantomData;

/// The place of the resource of type `R` and number 0.
#[derive(Drop)]
pub struct Entry<'a, V, R> {
    world: &'a mut World<V>,
    resource: PhantomData<R>,
}

impl<'a, V: ResourceValue, R: Resource<V>> Entry<'a, V, R> {
    ghost use Rattle.shred_world.specs.Entries.{lent_world, entry_world, LendsEntry, KeepsOrMakes};
    ghost use Rattle.shred_table.specs.Id.{id_of};
    ghost use Rattle.shred_world.specs.Worlds.{world_held};

    // The place in this world.
    pub(crate) fn over(world: &'a mut World<V>) -> Self
        ensures name { (lent_world result).ghost_name ≡ world.entry.ghost_name }
        ensures shown { entry_world result ≡ world.old }
    {
        Entry {
            world,
            resource: PhantomData,
        }
    }

    /// The resource that is held, or else this one, which is then held. `OutOfMemory`, only where none was held; the world
    /// is then as before.
    pub fn or_insert(self, resource: R) -> Result<FetchMut<'a, R>, WorldError>
    where
        V: Drop,
        R: Drop,
        ensures shown { IfOk result (KeepsOrMakes V.kind_of R.Resource self.entry (λ made. made ≡ resource)) }
        ensures out_of_memory { IfErr result (IsWithoutRoom (entry_held V.kind_of R.KIND self.entry)) }
        ensures* written { sem 𝓛 (LendsEntry V.row R.row V.kind_of R.Resource self.entry result) }
    {
        self.or_insert_with(move || resource)
    }

    /// The resource that is held, or else the one that the closure gives, which is then held. The closure is called only
    /// where none is held, and after room is made. `OutOfMemory` as of `or_insert`.
    pub fn or_insert_with<F: FnOnce() -> R>(self, make: F) -> Result<FetchMut<'a, R>, WorldError>
    where
        V: Drop,
        F: Drop,
        requires callable { world_held V.kind_of (entry_world self) (id_of R.KIND 0) ≡ None → F.pre make }
        ensures shown { IfOk result (KeepsOrMakes V.kind_of R.Resource self.entry (F.post make)) }
        ensures out_of_memory { IfErr result (IsWithoutRoom (entry_held V.kind_of R.KIND self.entry)) }
        ensures* written { sem 𝓛 (LendsEntry V.row R.row V.kind_of R.Resource self.entry result) }
    {
        let Entry { world, resource: _ } = self;
        if let Err(error) = world.fill(ResourceId::new::<V, R>(), make) {
            return Err(error);
        }
        world.fetch_mut()
    }
}
