//! `First` to `Fourth` as the one resource that a system reads or writes.
ghost use Rattle.std.specs.Prelude.{[], ◌∷◌, refl};
ghost use Rattle.shred_table.specs.Id.{id_of};
ghost use Rattle.shred_world.specs.Types.{written_part};

use crate::values::places::{First, Fourth, Second, Third};
use shred_world::{
    DataError, OutOfMemory, Resource, ResourceId, ResourceTypes, ResourceValue, View,
};
use std::alloc::Global;

impl<V: ResourceValue + Drop, T> ResourceTypes<V> for First<T>
where
    First<T>: Resource<V>,
{
    ghost ids = { id_of ⟦<First<T> as Resource<V>>⟧.KIND 0 ∷ [] };

    ghost parts = { written_part ⟦<First<T> as Resource<V>>⟧.KIND ∷ [] };

    ghost moved = { λ taken. (id_of ⟦<First<T> as Resource<V>>⟧.KIND 0, ⟦<First<T> as Resource<V>>⟧.wrapped taken) ∷ [] };

    fn take(view: &mut View<V>) -> Result<Self, DataError> {
        match <(First<T>,)>::take(view) {
            Ok((resource,)) => Ok(resource),
            Err(error) => Err(error),
        }
    }

    fn give_back(self, view: &mut View<V>) {
        (self,).give_back(view);
    }

    fn ids(alloc: Global) -> Result<Vec<ResourceId>, OutOfMemory> {
        <(First<T>,)>::ids(alloc)
    }

    ghost same_ids = { λ taken. refl };
}

impl<V: ResourceValue + Drop, T> ResourceTypes<V> for Second<T>
where
    Second<T>: Resource<V>,
{
    ghost ids = { id_of ⟦<Second<T> as Resource<V>>⟧.KIND 0 ∷ [] };

    ghost parts = { written_part ⟦<Second<T> as Resource<V>>⟧.KIND ∷ [] };

    ghost moved = { λ taken. (id_of ⟦<Second<T> as Resource<V>>⟧.KIND 0, ⟦<Second<T> as Resource<V>>⟧.wrapped taken) ∷ [] };

    fn take(view: &mut View<V>) -> Result<Self, DataError> {
        match <(Second<T>,)>::take(view) {
            Ok((resource,)) => Ok(resource),
            Err(error) => Err(error),
        }
    }

    fn give_back(self, view: &mut View<V>) {
        (self,).give_back(view);
    }

    fn ids(alloc: Global) -> Result<Vec<ResourceId>, OutOfMemory> {
        <(Second<T>,)>::ids(alloc)
    }

    ghost same_ids = { λ taken. refl };
}

impl<V: ResourceValue + Drop, T> ResourceTypes<V> for Third<T>
where
    Third<T>: Resource<V>,
{
    ghost ids = { id_of ⟦<Third<T> as Resource<V>>⟧.KIND 0 ∷ [] };

    ghost parts = { written_part ⟦<Third<T> as Resource<V>>⟧.KIND ∷ [] };

    ghost moved = { λ taken. (id_of ⟦<Third<T> as Resource<V>>⟧.KIND 0, ⟦<Third<T> as Resource<V>>⟧.wrapped taken) ∷ [] };

    fn take(view: &mut View<V>) -> Result<Self, DataError> {
        match <(Third<T>,)>::take(view) {
            Ok((resource,)) => Ok(resource),
            Err(error) => Err(error),
        }
    }

    fn give_back(self, view: &mut View<V>) {
        (self,).give_back(view);
    }

    fn ids(alloc: Global) -> Result<Vec<ResourceId>, OutOfMemory> {
        <(Third<T>,)>::ids(alloc)
    }

    ghost same_ids = { λ taken. refl };
}

impl<V: ResourceValue + Drop, T> ResourceTypes<V> for Fourth<T>
where
    Fourth<T>: Resource<V>,
{
    ghost ids = { id_of ⟦<Fourth<T> as Resource<V>>⟧.KIND 0 ∷ [] };

    ghost parts = { written_part ⟦<Fourth<T> as Resource<V>>⟧.KIND ∷ [] };

    ghost moved = { λ taken. (id_of ⟦<Fourth<T> as Resource<V>>⟧.KIND 0, ⟦<Fourth<T> as Resource<V>>⟧.wrapped taken) ∷ [] };

    fn take(view: &mut View<V>) -> Result<Self, DataError> {
        match <(Fourth<T>,)>::take(view) {
            Ok((resource,)) => Ok(resource),
            Err(error) => Err(error),
        }
    }

    fn give_back(self, view: &mut View<V>) {
        (self,).give_back(view);
    }

    fn ids(alloc: Global) -> Result<Vec<ResourceId>, OutOfMemory> {
        <(Fourth<T>,)>::ids(alloc)
    }

    ghost same_ids = { λ taken. refl };
}
