//! Resources that a view hands out, and that come back to it.
ghost use Rattle.std.specs.Prelude.{◌≡◌, ◌||◌, IsTrue, IsSome, None, cond, OnOk, OnErr, IfOk};
ghost use Rattle.std.specs.Option.{option_map, option_copied};
ghost use Rattle.shred_table.specs.declared.id.ResourceId.{ResourceId};
ghost use Rattle.shred_world.specs.Bundles.{LacksMoved};
ghost use Rattle.shred_world.specs.Grants.{grant_of, with_back};
ghost use Rattle.shred_world.specs.Handing.{moved_out, moved_value, shared_value, ShowsHanded, HasMovedOut};
ghost use Rattle.shred_table.specs.Id.{id_kind, same_id};
ghost use Rattle.shred_table.specs.Slots.{slot_at, held};
ghost use Rattle.shred_world.specs.Views.{view_held, is_out, is_own, noted, table_in, table_name, HasSameLists, IsSameLoan};
ghost use Rattle.shred_table.specs.Changes.{Empties};

use crate::world::view::View;
use shred_table::accessor::OutOfMemory;
use shred_table::id::ResourceId;
use shred_table::resource::{Resource, ResourceValue};
use shred_table::table;

/// A resource that a view has handed out: lent shared, or moved out of its slot.
pub(crate) enum Handed<'s, R> {
    Lent(&'s R),
    Moved(R),
}

impl<'s, 'a, V: ResourceValue> View<'s, 'a, V> {
    // Moves out what the view's own slot of the id holds, which is noted.
    fn take_noted<R: Resource<V>>(&mut self, id: ResourceId) -> Option<R>
    where
        V: Drop,
        requires kind { R.KIND ≡ id_kind id }
        requires held { IsSome (held V.kind_of (table_in self.old) id) }
        ensures taken { option_map R.wrapped result ≡ held V.kind_of (table_in self.old) id }
        ensures own { Empties slot_at (table_in self.old) id (table_in self.new) }
        ensures name { table_name self.new ≡ table_name self.old }
        ensures lists { HasSameLists self.old self.new }
        ensures noted { (q : ResourceId) → noted self.new q ≡ noted self.old q }
    {
        let Some(value) = table::take(self.own, id) else {
            return None;
        };
        match R::unwrap(value) {
            Ok(resource) => Some(resource),
            Err(_) => None,
        }
    }

    // Moves out what is held under an id of the resource's kind, if something is and the id is the view's own.
    #[tactic(auto, using(crate::proofs::Views::Refusals::own_held))]
    pub(crate) fn take_out<R: Resource<V>>(
        &mut self,
        id: ResourceId,
    ) -> Result<Option<R>, OutOfMemory>
    where
        V: Drop,
        requires kind { R.KIND ≡ id_kind id }
        ensures taken { IfOk result (λ found. option_map R.wrapped found ≡ moved_value V.kind_of self.old id) }
        ensures after { OnOk result (LacksMoved V.kind_of self.old id self.new) }
        ensures unchanged { OnErr result (grant_of V.kind_of self.new ≡ grant_of V.kind_of self.old) }
        ensures no_room { OnErr result (IsSome (moved_value V.kind_of self.old id)) }
        ensures loan { IsSameLoan self.old self.new }
    {
        if !self.is_own(id) {
            return Ok(None);
        }
        if self.own.get(id).is_none() {
            return Ok(None);
        }
        match table::note(self.own, id) {
            Ok(()) => Ok(self.take_noted(id)),
            Err(error) => Err(error),
        }
    }

    // Puts a resource into the slot of an id of its kind, out of which one was moved.
    pub(crate) fn put_back<R: Resource<V>>(&mut self, id: ResourceId, resource: R)
    where
        V: Drop,
        requires kind { R.KIND ≡ id_kind id }
        requires out { IsTrue (is_out self.old id) }
        ensures after { grant_of V.kind_of self.new ≡ with_back (grant_of V.kind_of self.old) id (R.wrapped resource) }
        ensures loan { IsSameLoan self.old self.new }
    {
        table::fill(self.own, id, resource.wrap());
    }

    // What is lent shared under the id, where it is not the view's own.
    fn shared(&self, id: ResourceId) -> Option<&'s V>
        ensures { option_copied result ≡ cond (is_own self.now id) None (view_held V.kind_of self.now id) }
    {
        if self.is_own(id) {
            return None;
        }
        match self.lent_slot(id) {
            Some(slot) => slot.held(id),
            None => None,
        }
    }

    // The resource that is lent shared under an id of its kind.
    fn lend_shared<R: Resource<V>>(&self, id: ResourceId) -> Option<Handed<'s, R>>
        requires kind { R.KIND ≡ id_kind id }
        ensures shown { ShowsHanded R.wrapped (shared_value V.kind_of self.now id) result }
        ensures not_moved { moved_out result ≡ None }
    {
        match R::view(self.shared(id)?) {
            Some(resource) => Some(Handed::Lent(resource)),
            None => None,
        }
    }

    // Hands out what is held under an id of the resource's kind, if something is.
    #[tactic(auto, using(crate::proofs::Bundles::Grants::moved_shown, crate::proofs::Bundles::Grants::shared_shown))]
    pub(crate) fn hand_out<R: Resource<V>>(
        &mut self,
        id: ResourceId,
    ) -> Result<Option<Handed<'s, R>>, OutOfMemory>
    where
        V: Drop,
        requires kind { R.KIND ≡ id_kind id }
        ensures shown { IfOk result (ShowsHanded R.wrapped (view_held V.kind_of self.old id)) }
        ensures moved { IfOk result (HasMovedOut R.wrapped (moved_value V.kind_of self.old id)) }
        ensures after { OnOk result (LacksMoved V.kind_of self.old id self.new) }
        ensures unchanged { OnErr result (grant_of V.kind_of self.new ≡ grant_of V.kind_of self.old) }
        ensures no_room { OnErr result (IsSome (moved_value V.kind_of self.old id)) }
        ensures loan { IsSameLoan self.old self.new }
    {
        match self.take_out(id) {
            Err(error) => Err(error),
            Ok(Some(resource)) => Ok(Some(Handed::Moved(resource))),
            Ok(None) => Ok(self.lend_shared(id)),
        }
    }
}
