//! Resources that are named by their types alone, each of number 0.
ghost use Rattle.std.specs.Prelude.{◌≡◌, List, IfOk, IfErr, OnOk, OnErr, None, [], ◌∷◌, refl};
ghost use Rattle.shred_table.specs.declared.id.ResourceId.{ResourceId};
ghost use Rattle.shred_table.specs.Id.{id_of};
ghost use Rattle.shred_world.specs.BundleParts.{written_value};
ghost use Rattle.shred_world.specs.Bundles.{Part, IsRefused, bundle_refusal, ids_of, AreOut, parts_moved, HasBack, IsUndoneBy};
ghost use Rattle.shred_world.specs.Grants.{Moved, grant_of};
ghost use Rattle.shred_world.specs.Types.{written_part};
ghost use Rattle.shred_world.specs.Views.{is_out, table_name, IsSameLoan};

use crate::world::setup::PanicHandler;
use crate::world::view::{DataError, View};
use crate::world::write::{Write, WriteExpect};
use shred_table::accessor::OutOfMemory;
use shred_table::id::ResourceId;
use shred_table::resource::{Resource, ResourceValue};
use std::alloc::Global;
use std::marker::PhantomData;

/// The types of up to four resources, each of number 0. A value of it holds them, moved out of a view.
pub trait ResourceTypes<V: ResourceValue> {
    ghost ids: { List ResourceId };

    ghost parts: { List Part };

    ghost moved: { Self → Moved V };

    /// Moves the resources out of a view, one after the other. Where one is refused, those before it go back, and the view is as it
    /// was.
    fn take(view: &mut View<V>) -> Result<Self, DataError>
        ensures refused { IfErr result (IsRefused (grant_of V.kind_of view.old) parts) }
        ensures passed { OnOk result (bundle_refusal (grant_of V.kind_of view.old) parts ≡ None) }
        ensures moved { IfOk result (λ taken. moved taken ≡ parts_moved V.kind_of view.old parts) }
        ensures out { IfOk result (λ taken. AreOut (is_out view.new) (ids_of (moved taken))) }
        ensures undone { IfOk result (IsUndoneBy V.kind_of moved view.old view.new) }
        ensures unchanged { OnErr result (grant_of V.kind_of view.new ≡ grant_of V.kind_of view.old) }
        ensures table { table_name view.new ≡ table_name view.old }
        ensures loan { IsSameLoan view.old view.new };

    /// Gives the resources back, with the values as they are now. It takes no memory.
    fn give_back(self, view: &mut View<V>)
        requires out { AreOut (is_out view.old) (ids_of (moved self)) }
        ensures returned { HasBack V.kind_of view.old (moved self) view.new }
        ensures table { table_name view.new ≡ table_name view.old }
        ensures loan { IsSameLoan view.old view.new };

    /// Their ids.
    fn ids(alloc: Global) -> Result<Vec<ResourceId>, OutOfMemory>
        ensures { IfOk result (λ listed. listed.items ≡ ids) };

    ghost same_ids: { (taken : Self) → ids_of (moved taken) ≡ ids };
}

// A resource that goes back to its view.
fn going_back<T>(resource: T) -> WriteExpect<T>
    ensures { written_value result ≡ resource }
{
    Write {
        resource,
        handler: PhantomData,
    }
}

impl<V: ResourceValue> ResourceTypes<V> for () {
    ghost ids = { [] };

    ghost parts = { [] };

    ghost moved = { λ none. [] };

    fn take(_view: &mut View<V>) -> Result<(), DataError> {
        Ok(())
    }

    fn give_back(self, _view: &mut View<V>) {}

    fn ids(alloc: Global) -> Result<Vec<ResourceId>, OutOfMemory> {
        Ok(Vec::new(alloc))
    }

    ghost same_ids = { λ none. refl };
}

impl<V: ResourceValue + Drop, A: Resource<V>> ResourceTypes<V> for (A,) {
    ghost ids = { id_of A.KIND 0 ∷ [] };

    ghost parts = { written_part A.KIND ∷ [] };

    ghost moved = { λ taken. (id_of A.KIND 0, A.wrapped taken.0) ∷ [] };

    fn take(view: &mut View<V>) -> Result<(A,), DataError> {
        match view.system_data::<WriteExpect<A>>() {
            Ok(a) => Ok((a.into_resource(),)),
            Err(error) => Err(error),
        }
    }

    fn give_back(self, view: &mut View<V>) {
        let (a,) = self;
        view.give_back(going_back(a));
    }

    fn ids(alloc: Global) -> Result<Vec<ResourceId>, OutOfMemory> {
        ResourceId::new::<V, A>().listed(alloc)
    }

    ghost same_ids = { λ taken. refl };
}

impl<V: ResourceValue + Drop, A: Resource<V>, B: Resource<V>> ResourceTypes<V> for (A, B) {
    ghost ids = { id_of A.KIND 0 ∷ id_of B.KIND 0 ∷ [] };

    ghost parts = { written_part A.KIND ∷ written_part B.KIND ∷ [] };

    ghost moved = { λ taken. (id_of A.KIND 0, A.wrapped taken.0) ∷ (id_of B.KIND 0, B.wrapped taken.1) ∷ [] };

    fn take(view: &mut View<V>) -> Result<(A, B), DataError> {
        match view.system_data::<(WriteExpect<A>, WriteExpect<B>)>() {
            Ok((a, b)) => Ok((a.into_resource(), b.into_resource())),
            Err(error) => Err(error),
        }
    }

    fn give_back(self, view: &mut View<V>) {
        let (a, b) = self;
        view.give_back((going_back(a), going_back(b)));
    }

    fn ids(alloc: Global) -> Result<Vec<ResourceId>, OutOfMemory> {
        let mut ids = <(A,)>::ids(alloc)?;
        ids.push(ResourceId::new::<V, B>())?;
        Ok(ids)
    }

    ghost same_ids = { λ taken. refl };
}

impl<V: ResourceValue + Drop, A: Resource<V>, B: Resource<V>, C: Resource<V>> ResourceTypes<V>
    for (A, B, C) {
    ghost ids = { id_of A.KIND 0 ∷ id_of B.KIND 0 ∷ id_of C.KIND 0 ∷ [] };

    ghost parts = { written_part A.KIND ∷ written_part B.KIND ∷ written_part C.KIND ∷ [] };

    ghost moved = { λ taken. (id_of A.KIND 0, A.wrapped taken.0) ∷ (id_of B.KIND 0, B.wrapped taken.1) ∷ (id_of C.KIND 0, C.wrapped taken.2) ∷ [] };

    fn take(view: &mut View<V>) -> Result<(A, B, C), DataError> {
        match view.system_data::<(WriteExpect<A>, WriteExpect<B>, WriteExpect<C>)>() {
            Ok((a, b, c)) => Ok((a.into_resource(), b.into_resource(), c.into_resource())),
            Err(error) => Err(error),
        }
    }

    fn give_back(self, view: &mut View<V>) {
        let (a, b, c) = self;
        view.give_back((going_back(a), going_back(b), going_back(c)));
    }

    fn ids(alloc: Global) -> Result<Vec<ResourceId>, OutOfMemory> {
        let mut ids = <(A, B)>::ids(alloc)?;
        ids.push(ResourceId::new::<V, C>())?;
        Ok(ids)
    }

    ghost same_ids = { λ taken. refl };
}

impl<
    V: ResourceValue + Drop,
    A: Resource<V>,
    B: Resource<V>,
    C: Resource<V>,
    D: Resource<V>,
> ResourceTypes<V> for (A, B, C, D) {
    ghost ids = { id_of A.KIND 0 ∷ id_of B.KIND 0 ∷ id_of C.KIND 0 ∷ id_of D.KIND 0 ∷ [] };

    ghost parts = { written_part A.KIND ∷ written_part B.KIND ∷ written_part C.KIND ∷ written_part D.KIND ∷ [] };

    ghost moved = { λ taken. (id_of A.KIND 0, A.wrapped taken.0) ∷ (id_of B.KIND 0, B.wrapped taken.1) ∷ (id_of C.KIND 0, C.wrapped taken.2) ∷ (id_of D.KIND 0, D.wrapped taken.3) ∷ [] };

    fn take(view: &mut View<V>) -> Result<(A, B, C, D), DataError> {
        match view.system_data::<
            (
                WriteExpect<A>,
                WriteExpect<B>,
                WriteExpect<C>,
                WriteExpect<D>,
            ),
        >()
        {
            Ok((a, b, c, d)) => Ok((
                a.into_resource(),
                b.into_resource(),
                c.into_resource(),
                d.into_resource(),
            )),
            Err(error) => Err(error),
        }
    }

    fn give_back(self, view: &mut View<V>) {
        let (a, b, c, d) = self;
        view.give_back((going_back(a), going_back(b), going_back(c), going_back(d)));
    }

    fn ids(alloc: Global) -> Result<Vec<ResourceId>, OutOfMemory> {
        let mut ids = <(A, B, C)>::ids(alloc)?;
        ids.push(ResourceId::new::<V, D>())?;
        Ok(ids)
    }

    ghost same_ids = { λ taken. refl };
}
