//! What a world holds, lent to be read and written while the ids stay.
ghost use Rattle.std.specs.Prelude.{◌≡◌, ◌≢◌, false, IsTrue, IfSome, None, Some, Err, OnOk, OnErr, IfOk, IfErr, is_some};
ghost use Rattle.std.specs.Borrow.{sem};
ghost use Rattle.std.specs.Option.{option_map, option_copied, option_copied_mut};
ghost use Rattle.shred_table.specs.declared.id.ResourceId.{ResourceId};
ghost use Rattle.shred_world.specs.Fetched.{fetched};
ghost use Rattle.shred_table.specs.Id.{id_kind};
ghost use Rattle.shred_table.specs.Slots.{slot_at, noted_in};
ghost use Rattle.shred_table.specs.Twins.{IsSettled, twin_slot};

use crate::world::bundle::SystemData;
use crate::world::fetch::{Fetch, FetchMut};
use crate::world::view::{DataError, View};
use crate::world::{ReplaceError, WorldError, test_kind};
use shred_table::id::ResourceId;
use shred_table::parting::move_each;
use shred_table::resource::{Resource, ResourceValue};
use shred_table::steps::Steps;
use shred_table::twin::Twin;
use std::alloc::Global;

/// What a world holds. It has the world's calls that keep the ids under which values are held.
#[derive(Drop)]
pub struct LocalWorld<V> {
    pub(crate) twin: Twin<V>,
    // Whether it is known that all values are in the table.
    pub(crate) settled: bool,
    ghost kept: { IsTrue settled → IsSettled twin },
}

impl<V> LocalWorld<V> {
    ghost use Rattle.shred_world.specs.Worlds.{local_slot, twin_of_local};
    ghost use Rattle.shred_world.specs.Lent.{LendsLocalTwin};
    ghost use Rattle.shred_table.specs.Changes.{Stays};

    // Holds nothing.
    pub(crate) fn empty(alloc: Global) -> Self
        ensures { (id : ResourceId) → local_slot result id ≡ None }
    {
        LocalWorld {
            twin: Twin::new(alloc),
            settled: true,
        }
    }

    // Moves all values into the table, where it is not known that they are there.
    #[inline(always)]
    pub(crate) fn settle(&mut self)
    where
        V: Drop,
        ensures table { (q : ResourceId) → slot_at (twin_of_local self.new).table q ≡ local_slot self.old q }
        ensures same { (q : ResourceId) → local_slot self.new q ≡ local_slot self.old q }
        ensures settled { IsSettled (twin_of_local self.new) }
        ensures noted { Stays noted_in (twin_of_local self.old).table (twin_of_local self.new).table }
    {
        if !self.settled {
            self.twin.settle();
            self.settled = true;
        }
    }

    // The table, in which all values are, and the hand beside it. From now on this is not known of the table.
    #[inline(always)]
    pub(crate) fn opened(&mut self) -> &mut Twin<V>
    where
        V: Drop,
        ensures table { (q : ResourceId) → slot_at result.now.table q ≡ local_slot self.old q }
        ensures same { (q : ResourceId) → twin_slot result.now q ≡ local_slot self.old q }
        ensures settled { IsSettled result.now }
        ensures* back { sem 𝓛 (LendsLocalTwin V.row self.entry result) }
    {
        self.settle();
        self.settled = false;
        &mut self.twin
    }

    // The table and the hand. From now on it is not known that all values are in the table.
    #[inline(always)]
    fn loosened(&mut self) -> &mut Twin<V>
        ensures shown { result.now ≡ twin_of_local self.old }
        ensures* back { sem 𝓛 (LendsLocalTwin V.row self.entry result) }
    {
        self.settled = false;
        &mut self.twin
    }

    // Notes that all values are in the table.
    #[inline(always)]
    pub(crate) fn keep(&mut self)
        requires { IsSettled (twin_of_local self.old) }
        ensures { (q : ResourceId) → local_slot self.new q ≡ local_slot self.old q }
    {
        self.settled = true;
    }
}

impl<V: ResourceValue> LocalWorld<V> {
    ghost use Rattle.shred_world.specs.Worlds.{local_held, local_first};
    ghost use Rattle.shred_table.specs.Id.{id_of, id_kind};
    ghost use Rattle.shred_world.specs.Views.{view_held};
    ghost use Rattle.shred_world.specs.Lending.{IsOverLocal};
    ghost use Rattle.shred_world.specs.Lent.{LendsLocalWorld, LendsLocalGot, LendsLocalGotOk, LendsLocalValue, HoldsSame, LendsLocalFirst, LendsLocalFirstOk};
    ghost use Rattle.shred_world.specs.OwnViews.{IsLent};
    ghost use Rattle.shred_world.specs.Fetched.{IsFetched, IsFoundIn, IsLentFrom, fetched_as};
    ghost use Rattle.shred_table.specs.Changes.{Stays, Puts};
    ghost use Rattle.shred_table.specs.Counts.{IsCountBefore, IsWithinDigitsOf};
    ghost use Rattle.shred_world.specs.Refusals.{IsWrongKind, IsMissingFrom, misplaced, mistaken, IsFetchMissing, IsReplaced, IsReplaceMissing};

    /// The allocator that the world was made with.
    pub fn allocator(&self) -> Global {
        self.twin.table.allocator()
    }

    /// Whether a value is held under the id.
    pub fn has_value_raw(&self, id: ResourceId) -> bool
        ensures { result ≡ is_some (local_held V.kind_of self.now id) }
    {
        self.get(id).is_some()
    }

    // The value that is held under the id.
    pub(crate) fn get(&self, id: ResourceId) -> Option<&V>
        ensures { option_copied result ≡ local_held V.kind_of self.now id }
    {
        if self.settled {
            self.twin.table.get(id)
        } else {
            self.twin.get(id)
        }
    }

    // How many held ids come before this one, where it is held.
    pub(crate) fn slot_of(&self, id: ResourceId, steps: &mut Steps) -> Option<usize>
        ensures held { is_some result ≡ is_some (local_held V.kind_of self.now id) }
        ensures slot { IfSome result (IsCountBefore (local_held V.kind_of self.now) id) }
        ensures steps { IsWithinDigitsOf (local_held V.kind_of self.now) steps.old.count steps.new.count }
    {
        self.twin.slot_of(self.settled, id, steps)
    }

    /// Whether a resource of the type is held.
    pub fn has_value<R: Resource<V>>(&self) -> bool
        ensures { result ≡ is_some (local_held V.kind_of self.now (id_of R.KIND 0)) }
    {
        self.has_value_raw(ResourceId::new::<V, R>())
    }

    /// Puts the value in the place of the one that is held under the id, as `World::replace_raw` does.
    pub fn replace_raw(&mut self, id: ResourceId, value: V) -> Result<V, ReplaceError<V>>
        ensures ok { IfOk result (IsReplaced V.kind_of (local_held V.kind_of self.old) id value) }
        ensures replaced { OnOk result (Puts (local_held V.kind_of) self.old id (Some value) self.new) }
        ensures err { OnErr result (Stays (local_held V.kind_of) self.old self.new) }
        ensures wrong_kind { (V.kind_of value ≢ id_kind id) → result ≡ Err (misplaced V.kind_of id value) }
        ensures missing { IsReplaceMissing V.kind_of (local_held V.kind_of self.old) id value result }
    {
        let asked = value.kind();
        if asked != id.kind() {
            return Err(ReplaceError::WrongKind {
                asked,
                found: id.kind(),
                value,
            });
        }
        if !self.has_value_raw(id) {
            return Err(ReplaceError::Missing { id, value });
        }
        match self.twin.replace(id, value) {
            Ok(old) => Ok(old),
            Err(value) => Err(ReplaceError::Missing { id, value }),
        }
    }

    /// The resource that is held. `Missing` where none is.
    pub fn fetch<R: Resource<V>>(&self) -> Result<Fetch<'_, R>, WorldError>
        ensures shown { IfOk result (IsFetched (local_held V.kind_of self.now) R.wrapped (id_of R.KIND 0)) }
        ensures missing { IfErr result (IsMissingFrom (local_held V.kind_of self.now) (id_of R.KIND 0)) }
    {
        match self.try_fetch() {
            Some(fetch) => Ok(fetch),
            None => Err(WorldError::Missing(ResourceId::new::<V, R>())),
        }
    }

    /// The resource that is held, if one is.
    pub fn try_fetch<R: Resource<V>>(&self) -> Option<Fetch<'_, R>>
        ensures { option_map (λ f. R.wrapped (fetched f)) result ≡ local_first V.kind_of R.KIND self.now }
    {
        match self.try_fetch_by_id(ResourceId::new::<V, R>()) {
            Ok(found) => found,
            Err(_) => None,
        }
    }

    /// The resource that is held under the id, if one is. `WrongKind` where the id is of another kind.
    pub fn try_fetch_by_id<R: Resource<V>>(
        &self,
        id: ResourceId,
    ) -> Result<Option<Fetch<'_, R>>, WorldError>
        ensures ok { IfOk result (IsFoundIn (local_held V.kind_of self.now) R.KIND (fetched_as R.wrapped) id) }
        ensures wrong_kind { IfErr result (IsWrongKind R.KIND id) }
    {
        test_kind::<V, R>(id)?;
        let Some(value) = self.get(id) else {
            return Ok(None);
        };
        match R::view(value) {
            Some(resource) => Ok(Some(Fetch { resource })),
            None => Ok(None),
        }
    }

    // The resource that is held under an id of its kind, to write.
    pub(crate) fn resource_mut<R: Resource<V>>(&mut self, id: ResourceId) -> Option<&mut R>
        requires kind { R.KIND ≡ id_kind id }
        ensures shown { option_map (λ r. R.wrapped r.now) result ≡ local_held V.kind_of self.old id }
        ensures* written { sem 𝓛 (LendsLocalGot V.row R.row V.kind_of R.wrapped self.entry id result) }
    {
        self.loosened().resource_mut(id)
    }

    // The value that is held under the id, to write.
    pub(crate) fn value_mut(&mut self, id: ResourceId) -> Option<&mut V>
        ensures shown { option_copied_mut result ≡ local_held V.kind_of self.old id }
        ensures* written { sem 𝓛 (LendsLocalValue V.row V.kind_of self.entry id result) }
    {
        self.loosened().value_mut(id)
    }

    /// The resource that is held, if one is, to write.
    pub fn get_mut<R: Resource<V>>(&mut self) -> Option<&mut R>
        ensures shown { option_map (λ r. R.wrapped r.now) result ≡ local_first V.kind_of R.KIND self.old }
        ensures* written { sem 𝓛 (LendsLocalFirst V.row R.row V.kind_of R.Resource self.entry result) }
    {
        self.resource_mut(ResourceId::new::<V, R>())
    }

    /// The resource that is held, if one is, to write.
    pub fn try_fetch_mut<R: Resource<V>>(&mut self) -> Option<FetchMut<'_, R>>
        ensures shown { option_map (λ r. R.wrapped r.now) result ≡ local_first V.kind_of R.KIND self.old }
        ensures* written { sem 𝓛 (LendsLocalFirst V.row R.row V.kind_of R.Resource self.entry result) }
    {
        self.get_mut::<R>()
    }

    /// The resource that is held, to write. `Missing` where none is.
    pub fn fetch_mut<R: Resource<V>>(&mut self) -> Result<FetchMut<'_, R>, WorldError>
        ensures shown { IfOk result (λ r. local_first V.kind_of R.KIND self.old ≡ Some (R.wrapped r.now)) }
        ensures missing { IfErr result (IsMissingFrom (local_held V.kind_of self.old) (id_of R.KIND 0)) }
        ensures* written { sem 𝓛 (LendsLocalFirstOk V.row R.row V.kind_of R.Resource self.entry result) }
    {
        let Some(resource) = self.get_mut::<R>() else {
            return Err(WorldError::Missing(ResourceId::new::<V, R>()));
        };
        Ok(resource)
    }

    /// The resource that is held under the id, to write. `WrongKind` where the id is of another kind, tested first;
    /// `Missing` where nothing is held.
    pub fn try_fetch_mut_by_id<R: Resource<V>>(
        &mut self,
        id: ResourceId,
    ) -> Result<FetchMut<'_, R>, WorldError>
        ensures shown { IfOk result (IsLentFrom (local_held V.kind_of self.old) R.KIND R.wrapped id) }
        ensures wrong_kind { (R.KIND ≢ id_kind id) → result ≡ Err (mistaken R.KIND id) }
        ensures missing { IsFetchMissing R.KIND (local_held V.kind_of self.old) id result }
        ensures* written { sem 𝓛 (LendsLocalGotOk V.row R.row V.kind_of R.wrapped self.entry id result) }
    {
        test_kind::<V, R>(id)?;
        let Some(resource) = self.resource_mut::<R>(id) else {
            return Err(WorldError::Missing(id));
        };
        Ok(resource)
    }

    /// The view of what is held under the ids: those of `reads` may be read, and those of `writes` be written too.
    pub fn lend<'b>(
        &'b mut self,
        reads: &'b [ResourceId],
        writes: &'b [ResourceId],
    ) -> View<'b, 'b, V>
    where
        V: Drop,
        ensures shown { HoldsSame (local_held V.kind_of self.old) (view_held V.kind_of result) }
        ensures lent { IsLent result reads.now writes.now }
        ensures over { IsOverLocal self.old writes.now result }
        ensures* back { sem 𝓛 (LendsLocalWorld V.row self.entry result) }
    {
        let twin = self.opened();
        move_each(&mut twin.table, writes, &mut twin.hand);
        View::of_twin(twin, reads, writes)
    }
}
