//! The fetches of a shared world.
ghost use Rattle.std.specs.Prelude.{◌≡◌, ◌⊎◌, Err, IfErr, IfOk, IfSome, None, Ok, OnOk, Some, is_some};
ghost use Rattle.shred_cell.specs.Cells.{tag_of};
ghost use Rattle.shred_cell.specs.SharedWorlds.{cell_kind, shares};
ghost use Rattle.shred_table.specs.Id.{id_kind, id_of};
ghost use Rattle.shred_cell.specs.Refusals.{IsBorrowed, IsWrongSharedKind, TellsBorrowed, TellsMissing, TellsWrongKind};

use super::{CellRef, OfKind, SharedError, SharedFetch, SharedFetchMut, SharedWorld};
use crate::cell::{InvalidBorrow, TrustCell};
use shred_table::id::ResourceId;
use shred_table::resource::{Resource, ResourceValue};
use std::marker::PhantomData;
use std::sync::Wait;

// Refuses an id of another kind than the resource's.
fn test_kind<V: ResourceValue, R: Resource<V>>(id: ResourceId) -> Result<(), SharedError>
    ensures ok { OnOk result (R.KIND ≡ id_kind id) }
    ensures wrong_kind { IfErr result (IsWrongSharedKind R.KIND id) }
{
    if R::KIND == id.kind() {
        Ok(())
    } else {
        Err(SharedError::WrongKind {
            asked: R::KIND,
            found: id.kind(),
        })
    }
}

// The fetch that was found, or the refusal of an id under which nothing is held.
fn expect<G>(found: Result<Option<G>, SharedError>, id: ResourceId) -> Result<G, SharedError>
    ensures ok { IfOk result (λ fetch. found ≡ Ok (Some fetch)) }
    ensures err { IfErr result (λ e. (found ≡ Err e) ⊎ ((found ≡ Ok None) × (e ≡ SharedError.Missing id))) }
{
    match found {
        Ok(Some(fetch)) => Ok(fetch),
        Ok(None) => Err(SharedError::Missing(id)),
        Err(error) => Err(error),
    }
}

impl<V: ResourceValue + Drop> SharedWorld<V> {
    // The cell of an id, where a value is held.
    fn cell(&self, id: ResourceId) -> Option<&TrustCell<V, OfKind>>
        ensures held { is_some result ≡ shares self.now id }
        ensures kind { IfSome result (λ cell. tag_of cell.now ≡ id_kind id) }
    {
        match self.cells.slot(id) {
            Some(slot) => slot.value.as_ref(),
            None => None,
        }
    }

    /// The cell of an id, where a value is held.
    pub fn try_fetch_internal(&self, id: ResourceId) -> Option<CellRef<'_, V>>
        ensures held { is_some result ≡ shares self.now id }
        ensures kind { IfSome result (λ cell. cell_kind cell ≡ id_kind id) }
    {
        match self.cell(id) {
            Some(cell) => Some(CellRef { cell }),
            None => None,
        }
    }

    /// The resource that is held, to read. `Missing` where none is; `InvalidBorrow` where it is written, or read as often as
    /// may be.
    pub fn fetch<R: Resource<V>>(
        &self,
        rt: &impl Wait,
    ) -> Result<SharedFetch<'_, V, R>, SharedError>
        ensures missing { TellsMissing self.now (id_of R.KIND 0) result }
        ensures borrowed { TellsBorrowed self.now (id_of R.KIND 0) result }
    {
        let id = ResourceId::new::<V, R>();
        expect(self.try_fetch_by_id(rt, id), id)
    }

    /// The resource that is held, to read, if one is. `InvalidBorrow` where it is written, or read as often as may be.
    pub fn try_fetch<R: Resource<V>>(
        &self,
        rt: &impl Wait,
    ) -> Result<Option<SharedFetch<'_, V, R>>, SharedError>
        ensures held { IfOk result (λ found. is_some found ≡ shares self.now (id_of R.KIND 0)) }
        ensures borrowed { IfErr result (IsBorrowed self.now (id_of R.KIND 0)) }
    {
        self.try_fetch_by_id(rt, ResourceId::new::<V, R>())
    }

    /// The resource that is held under the id, to read, if one is. `WrongKind` where the id is of another kind, tested first;
    /// `InvalidBorrow` where it is written, or read as often as may be.
    pub fn try_fetch_by_id<R: Resource<V>>(
        &self,
        rt: &impl Wait,
        id: ResourceId,
    ) -> Result<Option<SharedFetch<'_, V, R>>, SharedError>
        ensures wrong_kind { TellsWrongKind R.KIND id result }
        ensures held { IfOk result (λ found. (R.KIND ≡ id_kind id) × (is_some found ≡ shares self.now id)) }
        ensures borrowed { IfErr result (λ e. (R.KIND ≡ id_kind id) → IsBorrowed self.now id e) }
    {
        test_kind::<V, R>(id)?;
        let Some(cell) = self.cell(id) else {
            return Ok(None);
        };
        match cell.try_borrow(rt) {
            Ok(guard) => Ok(Some(SharedFetch {
                guard,
                resource: PhantomData,
            })),
            Err(InvalidBorrow) => Err(SharedError::InvalidBorrow),
        }
    }

    /// The resource that is held, to write. `Missing` where none is; `InvalidBorrow` where it is borrowed.
    pub fn fetch_mut<R: Resource<V>>(&self) -> Result<SharedFetchMut<'_, V, R>, SharedError>
        ensures missing { TellsMissing self.now (id_of R.KIND 0) result }
        ensures borrowed { TellsBorrowed self.now (id_of R.KIND 0) result }
    {
        let id = ResourceId::new::<V, R>();
        expect(self.try_fetch_mut_by_id(id), id)
    }

    /// The resource that is held, to write, if one is. `InvalidBorrow` where it is borrowed.
    pub fn try_fetch_mut<R: Resource<V>>(
        &self,
    ) -> Result<Option<SharedFetchMut<'_, V, R>>, SharedError>
        ensures held { IfOk result (λ found. is_some found ≡ shares self.now (id_of R.KIND 0)) }
        ensures borrowed { IfErr result (IsBorrowed self.now (id_of R.KIND 0)) }
    {
        self.try_fetch_mut_by_id(ResourceId::new::<V, R>())
    }

    /// The resource that is held under the id, to write, if one is. `WrongKind` where the id is of another kind, tested first;
    /// `InvalidBorrow` where it is borrowed.
    pub fn try_fetch_mut_by_id<R: Resource<V>>(
        &self,
        id: ResourceId,
    ) -> Result<Option<SharedFetchMut<'_, V, R>>, SharedError>
        ensures wrong_kind { TellsWrongKind R.KIND id result }
        ensures held { IfOk result (λ found. (R.KIND ≡ id_kind id) × (is_some found ≡ shares self.now id)) }
        ensures borrowed { IfErr result (λ e. (R.KIND ≡ id_kind id) → IsBorrowed self.now id e) }
    {
        test_kind::<V, R>(id)?;
        let Some(cell) = self.cell(id) else {
            return Ok(None);
        };
        let Some(value) = cell.take() else {
            return Err(SharedError::InvalidBorrow);
        };
        match R::unwrap(value) {
            Ok(resource) => Ok(Some(SharedFetchMut { cell, resource })),
            Err(_) => unreachable!(),
        }
    }
}
