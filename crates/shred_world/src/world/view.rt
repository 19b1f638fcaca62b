//! Views: what a system is lent of a world.
ghost use Rattle.std.specs.Prelude.{◌≡◌, ◌==◌, ◌&&◌, ◌||◌, Bool, None, Some, IfOk, true, false, is_some, [], ◌∷◌};
ghost use Rattle.std.specs.Borrow.{sem};
ghost use Rattle.shred_table.specs.declared.id.ResourceId.{ResourceId};
ghost use Rattle.shred_world.specs.Lending.{IsNarrowed};
ghost use Rattle.shred_world.specs.OwnViews.{IsViewOf};
ghost use Rattle.shred_world.specs.Lent.{LendsWritten, LendsNarrow, LendsBeside};
ghost use Rattle.std.specs.Option.{option_copied, option_map};
ghost use Rattle.std.specs.Result.{result_err};
ghost use Rattle.shred_world.specs.Grants.{grant_of, map_grant, table_grant};
ghost use Rattle.shred_table.specs.Slots.{among, slots_of, slot_at, held};
ghost use Rattle.shred_world.specs.Views.{shelf_slot, base_slot, lent_slot, lent_to, view_slot, view_held, is_alone, is_whole, is_own, may_read, may_write, is_out, refusal, view_refusal, ShowsBefore, ShowsBeforeAll, AreWithin};
ghost use Rattle.shred_table.specs.Id.{id_kind, id_of};
ghost use Rattle.shred_table.specs.Slots.{is_vacant};

use shred_table::accessor::OutOfMemory;
use shred_table::id::{Kind, ResourceId};
use shred_table::resource::{Resource, ResourceValue};
use shred_table::table::{self, Slot, Table};
use shred_table::twin::Twin;
use std::slice;
use thiserror::Error;

/// Why a part of the data is not handed out.
#[derive(Clone, Copy, Debug, PartialEq, Eq, Error)]
pub enum DataError {
    /// No value is held under the id.
    #[error("nothing is held under {0}")]
    Missing(ResourceId),
    /// The id is not declared for this use.
    #[error("{0} is not declared for this use")]
    Undeclared(ResourceId),
    /// The value is handed out already.
    #[error("{0} is handed out already")]
    Taken(ResourceId),
    #[error("out of memory")]
    OutOfMemory,
    /// The caller's type has the kind `asked`, and the id the kind `found`.
    #[error("{asked} was asked for, and the id is of {found}")]
    WrongKind { asked: Kind, found: Kind },
}

impl From<OutOfMemory> for DataError {
    ghost use Rattle.shred_world.specs.declared.world.view.DataError.{DataError};

    ghost from_gives = { λ _ error. error ≡ DataError.OutOfMemory };

    fn from(_error: OutOfMemory) -> DataError {
        DataError::OutOfMemory
    }
}

/// Tables lent shared, one behind another. An id is looked for in the nearest table beside which it is listed, and in the
/// last one where it is listed beside none.
#[derive(Drop)]
pub enum Shelf<'s, V> {
    Last(&'s Table<V>),
    Over(&'s Table<V>, &'s [ResourceId], &'s Table<V>),
    Before(&'s Table<V>, &'s [ResourceId], &'s Shelf<'s, V>),
}

impl<'s, V> Shelf<'s, V> {
    /// A table before the first of the tables behind it, where there is one; then the ids of the list, and no others, are
    /// looked for in the table.
    pub fn before(table: &'s Table<V>, owned: &'s [ResourceId], behind: &'s [Shelf<'s, V>]) -> Self
        ensures { ShowsBefore table.now owned.now behind.now result }
    {
        match behind.first() {
            Some(rest) => Shelf::Before(table, owned, rest),
            None => Shelf::Last(table),
        }
    }

    // The same, where a world's table may lie behind in place of a shelf.
    pub(crate) fn before_all(
        table: &'s Table<V>,
        owned: &'s [ResourceId],
        base: &'s [Table<V>],
        behind: &'s [Shelf<'s, V>],
    ) -> Self
        ensures { ShowsBeforeAll table.now owned.now base.now behind.now result }
    {
        match behind.first() {
            Some(rest) => Shelf::Before(table, owned, rest),
            None => match base.first() {
                Some(base) => Shelf::Over(table, owned, base),
                None => Shelf::Last(table),
            },
        }
    }

    /// The slot that is shown for an id.
    pub fn slot(&self, id: ResourceId) -> Option<&'s Slot<V>>
        ensures { option_copied result ≡ shelf_slot self.now id }
    {
        match self {
            Shelf::Last(table) => table.slot(id),
            Shelf::Over(table, owned, base) => {
                if owned.contains(&id) {
                    table.slot(id)
                } else {
                    base.slot(id)
                }
            }
            Shelf::Before(table, owned, rest) => {
                if owned.contains(&id) {
                    table.slot(id)
                } else {
                    rest.slot(id)
                }
            }
        }
    }
}

// Whether the id is one of these. A place of the list is looked at first.
#[inline(always)]
fn is_listed(ids: &[ResourceId], id: ResourceId, near: usize) -> bool
    ensures { result ≡ among ids.now id }
{
    near < ids.len() && ids[near] == id || ids.contains(&id)
}

/// What is lent of a world: ids that may be read or written, each with its value where one is held.
#[derive(Drop)]
pub struct View<'s, 'a, V> {
    reads: &'s [ResourceId],
    writes: &'s [ResourceId],
    pub(crate) owned: &'s [ResourceId],
    pub(crate) whole: bool,
    pub(crate) shelf: &'s [Shelf<'s, V>],
    // The table that a world lends, behind an empty shelf.
    pub(crate) base: &'s [Table<V>],
    pub(crate) own: &'a mut Table<V>,
}

impl<'s, 'a, V: ResourceValue> View<'s, 'a, V> {
    // The slot that is lent shared for an id.
    pub(crate) fn lent_slot(&self, id: ResourceId) -> Option<&'s Slot<V>>
        ensures { option_copied result ≡ lent_to self.now id }
    {
        match self.shelf.first() {
            Some(shelf) => shelf.slot(id),
            None => self.base_slot(id),
        }
    }

    // The slot that an id has in the table that a world lends.
    fn base_slot(&self, id: ResourceId) -> Option<&'s Slot<V>>
        ensures { option_copied result ≡ base_slot self.now.base.now id }
    {
        match self.base.first() {
            Some(table) => table.slot(id),
            None => None,
        }
    }

    // Whether nothing lies behind the view's own table.
    fn is_alone(&self) -> bool
        ensures { result ≡ is_alone self.now }
    {
        self.shelf.is_empty() && self.base.is_empty()
    }

    // Where the id is listed as the view's own.
    fn place(&self, id: ResourceId) -> Option<usize>
        ensures { is_some result ≡ among self.now.owned.now id }
    {
        let owned = self.owned;
        for place in 0..owned.len() {
            if owned[place] == id {
                return Some(place);
            }
        }
        None
    }

    // The slot that the view shows for an id, which is listed at this place.
    fn slot(&self, id: ResourceId, place: Option<usize>) -> Option<&Slot<V>>
        requires { is_some place ≡ among self.now.owned.now id }
        ensures { option_copied result ≡ view_slot self.now id }
    {
        match place {
            Some(near) => self.own.slot_near(id, near),
            None if self.is_alone() => self.own.slot(id),
            None => self.lent_slot(id),
        }
    }

    // Whether the id is looked for in the view's own table, and not behind it.
    pub(crate) fn is_own(&self, id: ResourceId) -> bool
        ensures { result ≡ is_own self.now id }
    {
        self.is_alone() || self.owned.contains(&id)
    }

    pub(crate) fn is_whole(&self) -> bool
        ensures { result ≡ is_whole self.now }
    {
        self.whole && self.is_alone()
    }

    // Whether an id may be written that is listed at this place.
    #[inline(always)]
    fn may_write_at(&self, id: ResourceId, place: Option<usize>) -> bool
        requires { is_some place ≡ among self.now.owned.now id }
        ensures { result ≡ may_write self.now id }
    {
        match place {
            Some(near) => self.is_whole() || is_listed(self.writes, id, near),
            None => self.is_whole(),
        }
    }

    // Whether an id may be read that is listed at this place.
    fn may_read_at(&self, id: ResourceId, place: Option<usize>) -> bool
        requires { is_some place ≡ among self.now.owned.now id }
        ensures { result ≡ may_read self.now id }
    {
        self.may_write_at(id, place) || self.reads.contains(&id)
    }

    pub(crate) fn may_write(&self, id: ResourceId) -> bool
        ensures { result ≡ may_write self.now id }
    {
        self.may_write_at(id, self.place(id))
    }

    pub(crate) fn may_read(&self, id: ResourceId) -> bool
        ensures { result ≡ may_read self.now id }
    {
        self.may_read_at(id, self.place(id))
    }

    // The value that the view shows under an id, which is listed at this place.
    fn get(&self, id: ResourceId, place: Option<usize>) -> Option<&V>
        requires { is_some place ≡ among self.now.owned.now id }
        ensures { option_copied result ≡ view_held V.kind_of self.now id }
    {
        match self.slot(id, place) {
            Some(slot) => slot.held(id),
            None => None,
        }
    }

    #[inline(always)]
    fn is_out(&self, id: ResourceId) -> bool
        ensures { result ≡ is_out self.now id }
    {
        self.own.has_note(id) && self.is_own(id) && self.is_vacant(id)
    }

    // Whether the view's own slot of an id is empty.
    fn is_vacant(&self, id: ResourceId) -> bool
        ensures { result ≡ is_vacant (slot_at self.now.own.now id) }
    {
        match self.own.slot(id) {
            Some(slot) => slot.value.is_none(),
            None => false,
        }
    }

    // The tests of a part that come before the look whether a value is held.
    #[inline(always)]
    pub(crate) fn test<R: Resource<V>>(
        &self,
        id: ResourceId,
        declared: bool,
    ) -> Result<(), DataError>
        ensures { result_err result ≡ refusal R.KIND id declared (is_out self.now id) true }
    {
        if R::KIND != id.kind() {
            return Err(DataError::WrongKind {
                asked: R::KIND,
                found: id.kind(),
            });
        }
        if !declared {
            return Err(DataError::Undeclared(id));
        }
        if self.is_out(id) {
            return Err(DataError::Taken(id));
        }
        Ok(())
    }

    // Why the id's value is not handed out, where none is held under it or a test that comes before fails.
    #[cold]
    fn refusal<R: Resource<V>>(&self, id: ResourceId, declared: bool) -> DataError
        ensures { Some result ≡ refusal R.KIND id declared (is_out self.now id) false }
    {
        match self.test::<R>(id, declared) {
            Ok(()) => DataError::Missing(id),
            Err(error) => error,
        }
    }

    // The resource that the view shows under an id of its kind, which is listed at this place.
    fn resource<R: Resource<V>>(&self, id: ResourceId, place: Option<usize>) -> Option<&R>
        requires place { is_some place ≡ among self.now.owned.now id }
        requires kind { R.KIND ≡ id_kind id }
        ensures { option_map (λ r. R.wrapped r.now) result ≡ view_held V.kind_of self.now id }
    {
        R::view(self.get(id, place)?)
    }

    /// The resource that is held under an id which is declared to be read or written. The first that fits of `WrongKind`,
    /// `Undeclared`, `Taken`, `Missing`.
    pub fn read<R: Resource<V>>(&self, id: ResourceId) -> Result<&R, DataError>
        ensures refused { result_err result ≡ view_refusal V.kind_of may_read self.now R.KIND id }
        ensures shown { IfOk result (λ r. view_held V.kind_of self.now id ≡ Some (R.wrapped r.now)) }
    {
        let place = self.place(id);
        let declared = self.may_read_at(id, place);
        if declared && R::KIND == id.kind() {
            if let Some(resource) = self.resource(id, place) {
                return Ok(resource);
            }
        }
        Err(self.refusal::<R>(id, declared))
    }

    /// The resource of this type and number 0, as `read` has it.
    pub fn fetch<R: Resource<V>>(&self) -> Result<&R, DataError>
        ensures refused { result_err result ≡ view_refusal V.kind_of may_read self.now R.KIND (id_of R.KIND 0) }
        ensures shown { IfOk result (λ r. view_held V.kind_of self.now (id_of R.KIND 0) ≡ Some (R.wrapped r.now)) }
    {
        self.read(ResourceId::new::<V, R>())
    }

    /// The resource that is held under an id which is declared to be written, to write. The tests
    /// of `read`, with `Undeclared` where the id is not declared to be written.
    #[inline(always)]
    pub fn write<R: Resource<V>>(&mut self, id: ResourceId) -> Result<&mut R, DataError>
        ensures refused { result_err result ≡ view_refusal V.kind_of may_write self.old R.KIND id }
        ensures shown { IfOk result (λ r. view_held V.kind_of self.old id ≡ Some (R.wrapped r.now)) }
        ensures* written { sem 𝓛 (LendsWritten V.row R.row V.kind_of R.wrapped self.entry id result) }
    {
        let place = self.place(id);
        if let Err(error) = self.test::<R>(id, self.may_write_at(id, place)) {
            return Err(error);
        }
        let near = place.unwrap_or(0);
        let Some(resource) = table::resource_mut_near::<V, R>(self.own, id, near) else {
            return Err(DataError::Missing(id));
        };
        Ok(resource)
    }

    /// The view of fewer ids, while nothing of this view is out: those to be read are among the ids that this view may read,
    /// and those to be written among the ids that it may write.
    pub fn narrow<'b>(
        &'b mut self,
        reads: &'b [ResourceId],
        writes: &'b [ResourceId],
    ) -> View<'b, 'b, V>
        requires nothing_out { (id : ResourceId) → is_out self.old id ≡ false }
        requires reads_within { AreWithin reads.now (may_read self.old) }
        requires writes_within { AreWithin writes.now (may_write self.old) }
        ensures view { IsViewOf V.kind_of reads.now writes.now (view_held V.kind_of self.old) result }
        ensures over { IsNarrowed self.old writes.now result }
        ensures* back { sem 𝓛 (LendsNarrow V.row self.entry result) }
    {
        let owned = if self.is_whole() { writes } else { self.owned };
        View {
            reads,
            writes,
            owned,
            whole: false,
            shelf: self.shelf,
            base: self.base,
            own: &mut *self.own,
        }
    }

    // The view of all that a table holds, to read and to write.
    pub(crate) fn whole(own: &'a mut Table<V>) -> Self
        ensures name { result.own.ghost_name ≡ own.entry.ghost_name }
        ensures slots { slots_of result.own.now ≡ slots_of own.old }
        ensures whole { is_whole result ≡ true }
        ensures grant { grant_of V.kind_of result ≡ map_grant (held V.kind_of own.old) }
    {
        table::forget_notes(own);
        Self::whole_as_left(own)
    }

    // The same, with what is noted as handed out.
    pub(crate) fn whole_as_left(own: &'a mut Table<V>) -> Self
        ensures name { result.own.ghost_name ≡ own.entry.ghost_name }
        ensures table { result.own.now ≡ own.old }
        ensures whole { is_whole result ≡ true }
        ensures grant { grant_of V.kind_of result ≡ table_grant V.kind_of own.old }
    {
        let none: &'s [ResourceId] = &[];
        View {
            reads: none,
            writes: none,
            owned: none,
            whole: true,
            shelf: &[],
            base: &[],
            own,
        }
    }
}

impl<'s, 'a, V> View<'s, 'a, V> {
    /// The view of these ids over a table, where the written ids are looked for, and over what is lent shared, where all
    /// others are; where nothing is lent shared, all are looked for in the table. It is there for those who lend views of
    /// a world's table.
    pub fn over(
        reads: &'s [ResourceId],
        writes: &'s [ResourceId],
        shelf: &'s [Shelf<'s, V>],
        own: &'a mut Table<V>,
    ) -> Self
        ensures name { result.own.ghost_name ≡ own.entry.ghost_name }
        ensures slots { slots_of result.own.now ≡ slots_of own.old }
        ensures reads { result.reads.now ≡ reads.now }
        ensures writes { result.writes.now ≡ writes.now }
        ensures owned { result.owned.now ≡ writes.now }
        ensures not_whole { is_whole result ≡ false }
        ensures nothing_out { (id : ResourceId) → is_out result id ≡ false }
        ensures shelf { result.shelf.now ≡ shelf.now }
        ensures base { result.base.now ≡ [] }
    {
        table::forget_notes(own);
        View {
            reads,
            writes,
            owned: writes,
            whole: false,
            shelf,
            base: &[],
            own,
        }
    }

    // The view of these ids over a world's table and the hand beside it, into which what is written was moved.
    pub(crate) fn of_twin(
        twin: &'a mut Twin<V>,
        reads: &'a [ResourceId],
        writes: &'a [ResourceId],
    ) -> View<'a, 'a, V>
        ensures slots { slots_of result.own.now ≡ slots_of twin.old.hand }
        ensures reads { result.reads.now ≡ reads.now }
        ensures writes { result.writes.now ≡ writes.now }
        ensures owned { result.owned.now ≡ writes.now }
        ensures not_whole { is_whole result ≡ false }
        ensures nothing_out { (id : ResourceId) → is_out result id ≡ false }
        ensures shelf { result.shelf.now ≡ [] }
        ensures base { result.base.now ≡ twin.old.table ∷ [] }
        ensures* back { sem 𝓛 (LendsBeside V.row twin.entry result) }
    {
        View::beside(reads, writes, slice::from_ref(&twin.table), &mut twin.hand)
    }

    // The view of these ids over a world: over a hand, where the written ids are looked for, and over the table that is lent
    // shared, where all others are.
    pub(crate) fn beside(
        reads: &'s [ResourceId],
        writes: &'s [ResourceId],
        base: &'s [Table<V>],
        own: &'a mut Table<V>,
    ) -> Self
        ensures name { result.own.ghost_name ≡ own.entry.ghost_name }
        ensures slots { slots_of result.own.now ≡ slots_of own.old }
        ensures reads { result.reads.now ≡ reads.now }
        ensures writes { result.writes.now ≡ writes.now }
        ensures owned { result.owned.now ≡ writes.now }
        ensures not_whole { is_whole result ≡ false }
        ensures nothing_out { (id : ResourceId) → is_out result id ≡ false }
        ensures shelf { result.shelf.now ≡ [] }
        ensures base { result.base.now ≡ base.now }
    {
        table::forget_notes(own);
        View {
            reads,
            writes,
            owned: writes,
            whole: false,
            shelf: &[],
            base,
            own,
        }
    }
}
