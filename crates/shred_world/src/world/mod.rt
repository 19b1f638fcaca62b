//! The world: a finite map from ids to values of their id's kind.
ghost use Rattle.std.specs.Prelude.{◌≡◌, ◌≢◌, ◌↔◌, None, Some, Err, OnOk, OnErr, IfOk, IfErr, IfSome, is_some};
ghost use Rattle.std.specs.Borrow.{sem};
ghost use Rattle.std.specs.Option.{option_map};
ghost use Rattle.shred_table.specs.declared.id.ResourceId.{ResourceId};
ghost use Rattle.shred_world.specs.Fetched.{fetched, IsFetched, IsFoundIn, IsLentFrom, fetched_as};
ghost use Rattle.shred_table.specs.Id.{id_kind};
ghost use Rattle.shred_table.specs.Changes.{Stays, Puts, Removes};
ghost use Rattle.shred_table.specs.Counts.{IsCountBefore, IsWithinDigitsOf};
ghost use Rattle.shred_world.specs.Refusals.{IsWrongKind, IsMissingFrom, IsWithoutRoom, misplaced, mistaken, IsFetchMissing, IsReplaced, IsReplaceMissing, IsWithoutRoomFor};
ghost use Rattle.shred_world.specs.Worlds.{FillsWorld, world_first};
ghost use Rattle.shred_world.specs.Lent.{HoldsSame};

use crate::world::entry::Entry;
use crate::world::fetch::{Fetch, FetchMut};
use crate::world::local::LocalWorld;
use crate::world::view::View;
use shred_table::accessor::OutOfMemory;
use shred_table::id::{Kind, ResourceId};
use shred_table::resource::{Resource, ResourceValue};
use shred_table::steps::Steps;
use std::alloc::Global;
use thiserror::Error;

pub mod absent;
pub mod bundle;
pub mod dynamic;
pub mod each;
pub mod entry;
mod exec;
pub mod fetch;
pub mod handing;
pub mod lent;
pub mod local;
pub mod local_lent;
pub mod parted;
pub mod parts;
pub mod read;
pub mod setup;
pub mod tuples;
pub mod types;
pub mod view;
pub mod write;

/// Why a call of a world was refused.
#[derive(Clone, Copy, Debug, PartialEq, Eq, Error)]
pub enum WorldError {
    #[error("out of memory")]
    OutOfMemory,
    /// The caller's type or value has the kind `asked`, and the id the kind `found`.
    #[error("{asked} was asked for, and the id is of {found}")]
    WrongKind { asked: Kind, found: Kind },
    /// No value is held under the id.
    #[error("nothing is held under {0}")]
    Missing(ResourceId),
}

impl From<OutOfMemory> for WorldError {
    ghost use Rattle.shred_world.specs.declared.world.WorldError.{WorldError};

    ghost from_gives = { λ _ error. error ≡ WorldError.OutOfMemory };

    fn from(_error: OutOfMemory) -> WorldError {
        WorldError::OutOfMemory
    }
}

/// Why `replace_raw` was refused; it hands the value back.
#[derive(Debug, Drop, PartialEq, Error)]
pub enum ReplaceError<V> {
    /// The value has the kind `asked`, and the id the kind `found`.
    #[error("the value is of {asked}, and the id of {found}")]
    WrongKind { asked: Kind, found: Kind, value: V },
    /// No value is held under the id.
    #[error("nothing is held under {id}")]
    Missing { id: ResourceId, value: V },
}

/// Values, each held under an id of its kind.
#[derive(Drop)]
pub struct World<V> {
    pub(crate) local: LocalWorld<V>,
}

/// Another name of `World`.
pub type Resources<V> = World<V>;

// Refuses an id of another kind than the resource's.
pub(crate) fn test_kind<V: ResourceValue, R: Resource<V>>(id: ResourceId) -> Result<(), WorldError>
    ensures ok { OnOk result (R.KIND ≡ id_kind id) }
    ensures wrong_kind { IfErr result (IsWrongKind R.KIND id) }
{
    if R::KIND == id.kind() {
        Ok(())
    } else {
        Err(WorldError::WrongKind {
            asked: R::KIND,
            found: id.kind(),
        })
    }
}

impl<V> World<V> {
    ghost use Rattle.shred_world.specs.Lent.{LendsLocal};
    ghost use Rattle.shred_world.specs.Worlds.{local_of};

    /// What the world holds, to read and write while the ids stay. It takes no memory.
    pub fn local(&mut self) -> &mut LocalWorld<V>
        ensures shown { result.now ≡ local_of self.old }
        ensures* back { sem 𝓛 (LendsLocal V.row self.entry result) }
    {
        &mut self.local
    }
}

impl<V: ResourceValue> World<V> {
    ghost use Rattle.shred_world.specs.Worlds.{world_held, PutsFirst, PutsUnder};
    ghost use Rattle.shred_table.specs.Id.{id_of, id_kind};
    ghost use Rattle.shred_world.specs.Entries.{lent_world, entry_world};
    ghost use Rattle.shred_world.specs.Views.{view_held};
    ghost use Rattle.shred_world.specs.Lending.{IsOverWorld};
    ghost use Rattle.shred_world.specs.OwnViews.{IsLent};
    ghost use Rattle.shred_world.specs.Lent.{LendsWorld, LendsGot, LendsGotOk, LendsFirst, LendsFirstOk};

    /// Holds nothing.
    pub fn empty(alloc: Global) -> Self
        ensures { (id : ResourceId) → world_held V.kind_of result id ≡ None }
    {
        World {
            local: LocalWorld::empty(alloc),
        }
    }

    /// A world that holds nothing, as of `empty`.
    pub fn default(alloc: Global) -> Self
        ensures { (id : ResourceId) → world_held V.kind_of result id ≡ None }
    {
        Self::empty(alloc)
    }

    /// Whether a value is held under the id.
    pub fn has_value_raw(&self, id: ResourceId) -> bool
        ensures { result ≡ is_some (world_held V.kind_of self.now id) }
    {
        self.local.has_value_raw(id)
    }

    /// How many held ids come before this one, where it is held. The search takes no more comparisons of ids than the number of
    /// held ids has binary digits. From where a view or a value was lent to be written to the next `lend`, bundle or dispatch,
    /// each id is also looked for in the hand, to tell whether it is held, which is not counted.
    pub fn slot_of(&self, id: ResourceId, steps: &mut Steps) -> Option<usize>
        ensures held { is_some result ≡ is_some (world_held V.kind_of self.now id) }
        ensures slot { IfSome result (IsCountBefore (world_held V.kind_of self.now) id) }
        ensures steps { IsWithinDigitsOf (world_held V.kind_of self.now) steps.old.count steps.new.count }
    {
        self.local.slot_of(id, steps)
    }

    /// Whether a resource of the type is held.
    pub fn has_value<R: Resource<V>>(&self) -> bool
        ensures { result ≡ is_some (world_held V.kind_of self.now (id_of R.KIND 0)) }
    {
        self.has_value_raw(ResourceId::new::<V, R>())
    }

    /// Holds the resource, in the place of the one that was held. `OutOfMemory`, only where none was; the world is then
    /// as before.
    pub fn insert<R: Resource<V>>(&mut self, resource: R) -> Result<(), WorldError>
    where
        V: Drop,
        R: Drop,
        ensures ok { OnOk result (PutsFirst V.kind_of R.Resource self.old resource self.new) }
        ensures err { OnErr result (Stays (world_held V.kind_of) self.old self.new) }
        ensures out_of_memory { IfErr result (IsWithoutRoom (world_first V.kind_of R.KIND self.old)) }
    {
        self.insert_by_id(ResourceId::new::<V, R>(), resource)
    }

    /// Holds the resource under the id, in the place of what was held there. `WrongKind` where the id is of another kind,
    /// tested first; `OutOfMemory`, only where nothing was held. After a refusal the world is as before.
    pub fn insert_by_id<R: Resource<V>>(
        &mut self,
        id: ResourceId,
        resource: R,
    ) -> Result<(), WorldError>
    where
        V: Drop,
        R: Drop,
        ensures ok { OnOk result (PutsUnder V.kind_of R.Resource self.old id resource self.new) }
        ensures err { OnErr result (Stays (world_held V.kind_of) self.old self.new) }
        ensures wrong_kind { (R.KIND ≢ id_kind id) ↔ (result ≡ Err (mistaken R.KIND id)) }
        ensures out_of_memory { IfErr result (IsWithoutRoomFor R.KIND id (world_held V.kind_of self.old id)) }
    {
        test_kind::<V, R>(id)?;
        self.local.twin.put(id, resource.wrap())?;
        Ok(())
    }

    // Holds what the closure gives, under an id of its kind where nothing is held. Room is made before the closure is
    // called.
    pub(crate) fn fill<R: Resource<V>, F: FnOnce() -> R>(
        &mut self,
        id: ResourceId,
        make: F,
    ) -> Result<(), WorldError>
    where
        V: Drop,
        F: Drop,
        requires kind { R.KIND ≡ id_kind id }
        requires callable { world_held V.kind_of self.old id ≡ None → F.pre make }
        ensures ok { OnOk result (FillsWorld V.kind_of R.wrapped (F.post make) id self.old self.new) }
        ensures err { OnErr result (Stays (world_held V.kind_of) self.old self.new) }
        ensures out_of_memory { IfErr result (IsWithoutRoom (world_held V.kind_of self.old id)) }
    {
        if self.has_value_raw(id) {
            return Ok(());
        }
        self.local.twin.open(id)?;
        self.local.twin.put(id, make().wrap())?;
        Ok(())
    }

    /// The resource that was held, if one was, which leaves the world.
    pub fn remove<R: Resource<V>>(&mut self) -> Option<R>
    where
        V: Drop,
        ensures removed { option_map R.wrapped result ≡ world_held V.kind_of self.old (id_of R.KIND 0) }
        ensures after { Removes (world_held V.kind_of) self.old (id_of R.KIND 0) self.new }
    {
        self.take(ResourceId::new::<V, R>())
    }

    /// The resource that was held under the id, if one was, which leaves the world. `WrongKind` where the id is of another
    /// kind; the world is then as before.
    pub fn remove_by_id<R: Resource<V>>(&mut self, id: ResourceId) -> Result<Option<R>, WorldError>
    where
        V: Drop,
        ensures ok { IfOk result (IsFoundIn (world_held V.kind_of self.old) R.KIND R.wrapped id) }
        ensures after { OnOk result (Removes (world_held V.kind_of) self.old id self.new) }
        ensures err { OnErr result (Stays (world_held V.kind_of) self.old self.new) }
        ensures wrong_kind { IfErr result (IsWrongKind R.KIND id) }
    {
        test_kind::<V, R>(id)?;
        Ok(self.take(id))
    }

    // Takes the resource that is held under an id of its kind, with its slot.
    fn take<R: Resource<V>>(&mut self, id: ResourceId) -> Option<R>
    where
        V: Drop,
        requires kind { R.KIND ≡ id_kind id }
        ensures removed { option_map R.wrapped result ≡ world_held V.kind_of self.old id }
        ensures after { Removes (world_held V.kind_of) self.old id self.new }
    {
        let Some(slot) = self.local.twin.remove(id) else {
            return None;
        };
        slot.into_resource()
    }

    /// Puts the value in the place of the one that is held under the id, and gives back the old one. `WrongKind` where
    /// the value is not of the id's kind, tested first; `Missing` where nothing is held. A refusal hands the value back.
    pub fn replace_raw(&mut self, id: ResourceId, value: V) -> Result<V, ReplaceError<V>>
        ensures ok { IfOk result (IsReplaced V.kind_of (world_held V.kind_of self.old) id value) }
        ensures replaced { OnOk result (Puts (world_held V.kind_of) self.old id (Some value) self.new) }
        ensures err { OnErr result (Stays (world_held V.kind_of) self.old self.new) }
        ensures wrong_kind { (V.kind_of value ≢ id_kind id) → result ≡ Err (misplaced V.kind_of id value) }
        ensures missing { IsReplaceMissing V.kind_of (world_held V.kind_of self.old) id value result }
    {
        self.local.replace_raw(id, value)
    }

    /// The resource that is held. `Missing` where none is.
    pub fn fetch<R: Resource<V>>(&self) -> Result<Fetch<'_, R>, WorldError>
        ensures shown { IfOk result (IsFetched (world_held V.kind_of self.now) R.wrapped (id_of R.KIND 0)) }
        ensures missing { IfErr result (IsMissingFrom (world_held V.kind_of self.now) (id_of R.KIND 0)) }
    {
        match self.try_fetch() {
            Some(fetch) => Ok(fetch),
            None => Err(WorldError::Missing(ResourceId::new::<V, R>())),
        }
    }

    /// The resource that is held, if one is.
    pub fn try_fetch<R: Resource<V>>(&self) -> Option<Fetch<'_, R>>
        ensures { option_map (λ f. R.wrapped (fetched f)) result ≡ world_first V.kind_of R.KIND self.now }
    {
        match self.try_fetch_by_id(ResourceId::new::<V, R>()) {
            Ok(found) => found,
            Err(_) => None,
        }
    }

    /// The resource that is held under the id, if one is. `WrongKind` where the id is of another kind.
    pub fn try_fetch_by_id<R: Resource<V>>(
        &self,
        id: ResourceId,
    ) -> Result<Option<Fetch<'_, R>>, WorldError>
        ensures ok { IfOk result (IsFoundIn (world_held V.kind_of self.now) R.KIND (fetched_as R.wrapped) id) }
        ensures wrong_kind { IfErr result (IsWrongKind R.KIND id) }
    {
        self.local.try_fetch_by_id(id)
    }

    /// The place of the resource of the type.
    pub fn entry<R: Resource<V>>(&mut self) -> Entry<'_, V, R>
        ensures name { (lent_world result).ghost_name ≡ self.entry.ghost_name }
        ensures shown { entry_world result ≡ self.old }
    {
        Entry::over(self)
    }

    // The resource that is held under an id of its kind, to write.
    fn resource_mut<R: Resource<V>>(&mut self, id: ResourceId) -> Option<&mut R>
        requires kind { R.KIND ≡ id_kind id }
        ensures shown { option_map (λ r. R.wrapped r.now) result ≡ world_held V.kind_of self.old id }
        ensures* written { sem 𝓛 (LendsGot V.row R.row V.kind_of R.wrapped self.entry id result) }
    {
        self.local.resource_mut(id)
    }

    /// The resource that is held, if one is, to write.
    pub fn get_mut<R: Resource<V>>(&mut self) -> Option<&mut R>
        ensures shown { option_map (λ r. R.wrapped r.now) result ≡ world_first V.kind_of R.KIND self.old }
        ensures* written { sem 𝓛 (LendsFirst V.row R.row V.kind_of R.Resource self.entry result) }
    {
        self.resource_mut(ResourceId::new::<V, R>())
    }

    /// The resource that is held, if one is, to write.
    pub fn try_fetch_mut<R: Resource<V>>(&mut self) -> Option<FetchMut<'_, R>>
        ensures shown { option_map (λ r. R.wrapped r.now) result ≡ world_first V.kind_of R.KIND self.old }
        ensures* written { sem 𝓛 (LendsFirst V.row R.row V.kind_of R.Resource self.entry result) }
    {
        self.get_mut::<R>()
    }

    /// The resource that is held, to write. `Missing` where none is.
    pub fn fetch_mut<R: Resource<V>>(&mut self) -> Result<FetchMut<'_, R>, WorldError>
        ensures shown { IfOk result (λ r. world_first V.kind_of R.KIND self.old ≡ Some (R.wrapped r.now)) }
        ensures missing { IfErr result (IsMissingFrom (world_held V.kind_of self.old) (id_of R.KIND 0)) }
        ensures* written { sem 𝓛 (LendsFirstOk V.row R.row V.kind_of R.Resource self.entry result) }
    {
        let Some(resource) = self.get_mut::<R>() else {
            return Err(WorldError::Missing(ResourceId::new::<V, R>()));
        };
        Ok(resource)
    }

    /// The resource that is held under the id, to write. `WrongKind` where the id is of another kind, tested first;
    /// `Missing` where nothing is held.
    pub fn try_fetch_mut_by_id<R: Resource<V>>(
        &mut self,
        id: ResourceId,
    ) -> Result<FetchMut<'_, R>, WorldError>
        ensures shown { IfOk result (IsLentFrom (world_held V.kind_of self.old) R.KIND R.wrapped id) }
        ensures wrong_kind { (R.KIND ≢ id_kind id) → result ≡ Err (mistaken R.KIND id) }
        ensures missing { IsFetchMissing R.KIND (world_held V.kind_of self.old) id result }
        ensures* written { sem 𝓛 (LendsGotOk V.row R.row V.kind_of R.wrapped self.entry id result) }
    {
        test_kind::<V, R>(id)?;
        let Some(resource) = self.resource_mut::<R>(id) else {
            return Err(WorldError::Missing(id));
        };
        Ok(resource)
    }

    /// The view of what is held under the ids: those of `reads` may be read, and those of `writes` be written too.
    pub fn lend<'b>(
        &'b mut self,
        reads: &'b [ResourceId],
        writes: &'b [ResourceId],
    ) -> View<'b, 'b, V>
    where
        V: Drop,
        ensures shown { HoldsSame (world_held V.kind_of self.old) (view_held V.kind_of result) }
        ensures lent { IsLent result reads.now writes.now }
        ensures over { IsOverWorld self.old writes.now result }
        ensures* back { sem 𝓛 (LendsWorld V.row self.entry result) }
    {
        self.local.lend(reads, writes)
    }
}
