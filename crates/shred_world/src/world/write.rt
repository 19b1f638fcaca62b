//! Resources that are taken of a view to be written.
ghost use Rattle.std.specs.Prelude.{◌≡◌, [], ◌∷◌, Some, true, false};
ghost use Rattle.shred_table.specs.Id.{id_of};
ghost use Rattle.shred_world.specs.BundleParts.{written_value, with_written};
ghost use Rattle.shred_world.specs.contracts.world.write.Write.{the_row};
ghost use Rattle.std.specs.Borrow.{Lends, sem};

use crate::world::bundle::SystemData;
use crate::world::setup::{DefaultProvider, PanicHandler, SetupHandler};
use crate::world::view::{DataError, View};
use crate::world::{World, WorldError};
use shred_table::accessor::OutOfMemory;
use shred_table::id::ResourceId;
use shred_table::resource::{Resource, ResourceValue};
use std::alloc::Global;
use std::marker::PhantomData;
use std::ops::{Deref, DerefMut};

/// The resource of type `T` and number 0, to write. It has left its slot, and goes back by `give_back`.
pub struct Write<T, F = DefaultProvider> {
    pub(crate) resource: T,
    pub(crate) handler: PhantomData<F>,
}

/// A `Write` that sets up nothing.
pub type WriteExpect<T> = Write<T, PanicHandler>;

impl<T, F> Deref for Write<T, F> {
    type Target = T;

    ghost deref_gives = { λ write resource. resource ≡ written_value write };

    fn deref(&self) -> &T {
        &self.resource
    }
}

impl<T, F> DerefMut for Write<T, F> {
    ghost deref_mut_gives = { λ write resource. resource ≡ written_value write };

    fn deref_mut(&mut self) -> &mut T
        ensures* written { sem 𝓛 (Lends (the_row T.row F.row) T.row self.entry result (with_written self.old)) }
        ensures shown { result.now ≡ written_value self.old }
    {
        &mut self.resource
    }
}

impl<T, F> Write<T, F> {
    // The resource that is held.
    pub(crate) fn into_resource(self) -> T
        ensures { result ≡ written_value self }
    {
        let Write {
            resource,
            handler: _,
        } = self;
        resource
    }
}

impl<'s, V: ResourceValue + Drop, T: Resource<V>, F: SetupHandler<V, T>> SystemData<'s, V>
    for Write<T, F> {
    ghost read_ids = { [] };

    ghost written_ids = { id_of T.KIND 0 ∷ [] };

    ghost sets_up = { F.sets_up };

    ghost parts = { record { kind = T.KIND; id = id_of T.KIND 0; is_written = true; may_be_absent = false } ∷ [] };

    ghost shows = { λ write. Some (T.wrapped (written_value write)) ∷ [] };

    ghost moved = { λ write. (id_of T.KIND 0, T.wrapped (written_value write)) ∷ [] };

    fn setup(world: &mut World<V>) -> Result<(), WorldError> {
        F::setup(world)
    }

    fn fetch(view: &mut View<'s, '_, V>) -> Result<Self, DataError> {
        let id = ResourceId::new::<V, T>();
        if let Err(error) = view.test::<T>(id, view.may_write(id)) {
            return Err(error);
        }
        match view.take_out(id)? {
            Some(resource) => Ok(Write {
                resource,
                handler: PhantomData,
            }),
            None => Err(DataError::Missing(id)),
        }
    }

    fn give_back(self, view: &mut View<'s, '_, V>) {
        view.put_back(ResourceId::new::<V, T>(), self.into_resource());
    }

    fn reads(alloc: Global) -> Result<Vec<ResourceId>, OutOfMemory> {
        Ok(Vec::new(alloc))
    }

    fn writes(alloc: Global) -> Result<Vec<ResourceId>, OutOfMemory> {
        ResourceId::new::<V, T>().listed(alloc)
    }
}
