//! Resources that are taken of a view to be read.
ghost use Rattle.std.specs.Prelude.{◌≡◌, [], ◌∷◌, Some, None, true, false};
ghost use Rattle.shred_world.specs.Bundles.{ids_of, AreOut, HasBack};
ghost use Rattle.shred_table.specs.Id.{id_of};
ghost use Rattle.shred_world.specs.Views.{is_out, IsSameLoan};
ghost use Rattle.shred_world.specs.BundleParts.{read_value, moved_of_read, moved_to_read};
ghost use Rattle.shred_world.specs.Fetched.{fetched};

use crate::world::bundle::SystemData;
use crate::world::fetch::Fetch;
use crate::world::handing::Handed;
use crate::world::setup::{DefaultProvider, PanicHandler, SetupHandler};
use crate::world::view::{DataError, View};
use crate::world::{World, WorldError};
use shred_table::accessor::OutOfMemory;
use shred_table::id::ResourceId;
use shred_table::resource::{Resource, ResourceValue};
use std::alloc::Global;
use std::marker::PhantomData;
use std::ops::Deref;

/// The resource of type `T` and number 0, to read.
pub struct Read<'s, T, F = DefaultProvider> {
    pub(crate) resource: Handed<'s, T>,
    pub(crate) handler: PhantomData<F>,
}

/// A `Read` that sets up nothing.
pub type ReadExpect<'s, T> = Read<'s, T, PanicHandler>;

impl<'s, T, F> Deref for Read<'s, T, F> {
    type Target = T;

    ghost deref_gives = { λ read resource. resource ≡ read_value read };

    fn deref(&self) -> &T {
        match &self.resource {
            Handed::Lent(resource) => resource,
            Handed::Moved(resource) => resource,
        }
    }
}

impl<'s, T, F> From<Fetch<'s, T>> for Read<'s, T, F> {
    ghost from_gives = { λ fetch read. (read_value read ≡ fetched fetch) × (moved_of_read read ≡ None) };

    fn from(fetch: Fetch<'s, T>) -> Self {
        Read {
            resource: Handed::Lent(fetch.resource),
            handler: PhantomData,
        }
    }
}

impl<'s, T, F> Read<'s, T, F> {
    // Puts the resource back where it was moved out.
    pub(crate) fn put_back<V: ResourceValue + Drop>(self, view: &mut View<'s, '_, V>)
    where
        T: Resource<V>,
        requires out { AreOut (is_out view.old) (ids_of (moved_to_read T.wrapped (id_of T.KIND 0) self)) }
        ensures returned { HasBack V.kind_of view.old (moved_to_read T.wrapped (id_of T.KIND 0) self.entry) view.new }
        ensures loan { IsSameLoan view.old view.new }
    {
        let Read {
            resource,
            handler: _,
        } = self;
        match resource {
            Handed::Lent(_) => {}
            Handed::Moved(resource) => view.put_back(ResourceId::new::<V, T>(), resource),
        }
    }
}

impl<'s, V: ResourceValue + Drop, T: Resource<V>, F: SetupHandler<V, T>> SystemData<'s, V>
    for Read<'s, T, F> {
    ghost read_ids = { id_of T.KIND 0 ∷ [] };

    ghost written_ids = { [] };

    ghost sets_up = { F.sets_up };

    ghost parts = { record { kind = T.KIND; id = id_of T.KIND 0; is_written = false; may_be_absent = false } ∷ [] };

    ghost shows = { λ read. Some (T.wrapped (read_value read)) ∷ [] };

    ghost moved = { λ read. moved_to_read T.wrapped (id_of T.KIND 0) read };

    fn setup(world: &mut World<V>) -> Result<(), WorldError> {
        F::setup(world)
    }

    fn fetch(view: &mut View<'s, '_, V>) -> Result<Self, DataError> {
        let id = ResourceId::new::<V, T>();
        if let Err(error) = view.test::<T>(id, view.may_read(id)) {
            return Err(error);
        }
        match view.hand_out(id)? {
            Some(resource) => Ok(Read {
                resource,
                handler: PhantomData,
            }),
            None => Err(DataError::Missing(id)),
        }
    }

    fn give_back(self, view: &mut View<'s, '_, V>) {
        self.put_back(view);
    }

    fn reads(alloc: Global) -> Result<Vec<ResourceId>, OutOfMemory> {
        ResourceId::new::<V, T>().listed(alloc)
    }

    fn writes(alloc: Global) -> Result<Vec<ResourceId>, OutOfMemory> {
        Ok(Vec::new(alloc))
    }
}
