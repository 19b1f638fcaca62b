//! Resources that may be absent, and bundles of nothing.
ghost use Rattle.std.specs.Prelude.{[], ◌∷◌, true, false};
ghost use Rattle.std.specs.Option.{option_map};
ghost use Rattle.shred_world.specs.Bundles.{NoSetup};
ghost use Rattle.shred_world.specs.BundleParts.{read_value, written_value, moved_if_read, moved_if_written};
ghost use Rattle.shred_table.specs.Id.{id_of};

use crate::world::bundle::SystemData;
use crate::world::read::Read;
use crate::world::view::{DataError, View};
use crate::world::write::Write;
use crate::world::{World, WorldError};
use shred_table::accessor::OutOfMemory;
use shred_table::id::ResourceId;
use shred_table::resource::{Resource, ResourceValue};
use std::alloc::Global;
use std::marker::PhantomData;

impl<'s, V: ResourceValue + Drop, T: Resource<V>, F> SystemData<'s, V> for Option<Read<'s, T, F>> {
    ghost read_ids = { id_of T.KIND 0 ∷ [] };

    ghost written_ids = { [] };

    ghost sets_up = { NoSetup };

    ghost parts = { record { kind = T.KIND; id = id_of T.KIND 0; is_written = false; may_be_absent = true } ∷ [] };

    ghost shows = { λ found. option_map (λ read. T.wrapped (read_value read)) found ∷ [] };

    ghost moved = { λ found. moved_if_read T.wrapped (id_of T.KIND 0) found };

    fn setup(_world: &mut World<V>) -> Result<(), WorldError> {
        Ok(())
    }

    fn fetch(view: &mut View<'s, '_, V>) -> Result<Self, DataError> {
        let id = ResourceId::new::<V, T>();
        if let Err(error) = view.test::<T>(id, view.may_read(id)) {
            return Err(error);
        }
        match view.hand_out(id)? {
            Some(resource) => Ok(Some(Read {
                resource,
                handler: PhantomData,
            })),
            None => Ok(None),
        }
    }

    fn give_back(self, view: &mut View<'s, '_, V>) {
        if let Some(read) = self {
            read.put_back(view);
        }
    }

    fn reads(alloc: Global) -> Result<Vec<ResourceId>, OutOfMemory> {
        ResourceId::new::<V, T>().listed(alloc)
    }

    fn writes(alloc: Global) -> Result<Vec<ResourceId>, OutOfMemory> {
        Ok(Vec::new(alloc))
    }
}

impl<'s, V: ResourceValue + Drop, T: Resource<V>, F> SystemData<'s, V> for Option<Write<T, F>> {
    ghost read_ids = { [] };

    ghost written_ids = { id_of T.KIND 0 ∷ [] };

    ghost sets_up = { NoSetup };

    ghost parts = { record { kind = T.KIND; id = id_of T.KIND 0; is_written = true; may_be_absent = true } ∷ [] };

    ghost shows = { λ found. option_map (λ write. T.wrapped (written_value write)) found ∷ [] };

    ghost moved = { λ found. moved_if_written T.wrapped (id_of T.KIND 0) found };

    fn setup(_world: &mut World<V>) -> Result<(), WorldError> {
        Ok(())
    }

    fn fetch(view: &mut View<'s, '_, V>) -> Result<Self, DataError> {
        let id = ResourceId::new::<V, T>();
        if let Err(error) = view.test::<T>(id, view.may_write(id)) {
            return Err(error);
        }
        match view.take_out(id)? {
            Some(resource) => Ok(Some(Write {
                resource,
                handler: PhantomData,
            })),
            None => Ok(None),
        }
    }

    fn give_back(self, view: &mut View<'s, '_, V>) {
        if let Some(write) = self {
            view.put_back(ResourceId::new::<V, T>(), write.into_resource());
        }
    }

    fn reads(alloc: Global) -> Result<Vec<ResourceId>, OutOfMemory> {
        Ok(Vec::new(alloc))
    }

    fn writes(alloc: Global) -> Result<Vec<ResourceId>, OutOfMemory> {
        ResourceId::new::<V, T>().listed(alloc)
    }
}

impl<'s, V: ResourceValue> SystemData<'s, V> for () {
    ghost read_ids = { [] };

    ghost written_ids = { [] };

    ghost sets_up = { NoSetup };

    ghost parts = { [] };

    ghost shows = { λ nothing. [] };

    ghost moved = { λ nothing. [] };

    fn setup(_world: &mut World<V>) -> Result<(), WorldError> {
        Ok(())
    }

    fn fetch(_view: &mut View<'s, '_, V>) -> Result<Self, DataError> {
        Ok(())
    }

    fn give_back(self, _view: &mut View<'s, '_, V>) {}

    fn reads(alloc: Global) -> Result<Vec<ResourceId>, OutOfMemory> {
        Ok(Vec::new(alloc))
    }

    fn writes(alloc: Global) -> Result<Vec<ResourceId>, OutOfMemory> {
        Ok(Vec::new(alloc))
    }
}

impl<'s, V: ResourceValue, T> SystemData<'s, V> for PhantomData<T> {
    ghost read_ids = { [] };

    ghost written_ids = { [] };

    ghost sets_up = { NoSetup };

    ghost parts = { [] };

    ghost shows = { λ nothing. [] };

    ghost moved = { λ nothing. [] };

    fn setup(_world: &mut World<V>) -> Result<(), WorldError> {
        Ok(())
    }

    fn fetch(_view: &mut View<'s, '_, V>) -> Result<Self, DataError> {
        Ok(PhantomData)
    }

    fn give_back(self, _view: &mut View<'s, '_, V>) {}

    fn reads(alloc: Global) -> Result<Vec<ResourceId>, OutOfMemory> {
        Ok(Vec::new(alloc))
    }

    fn writes(alloc: Global) -> Result<Vec<ResourceId>, OutOfMemory> {
        Ok(Vec::new(alloc))
    }
}
