//! What the guards of a shared world give.
ghost use Rattle.std.specs.Prelude.{◌≡◌, IfErr, IfOk, Some};
ghost use Rattle.shred_cell.specs.Cells.{guard_tag, shown_by};
ghost use Rattle.shred_cell.specs.SharedWorlds.{cell_kind, fetch_shows, resource_to_write};

use super::{CellRef, OfKind, SharedError, SharedFetch, SharedFetchMut};
use crate::cell::{InvalidBorrow, Ref};
use shred_table::resource::{Resource, ResourceValue};
use std::marker::PhantomData;
use std::ops::{Deref, DerefMut};
use std::sync::Wait;

impl<'a, V: ResourceValue + Drop> CellRef<'a, V> {
    /// The whole value, to read; refused where it is written, or read as often as may be.
    pub fn borrow<W: Wait>(&self, rt: &W) -> Result<Ref<'a, V, OfKind>, InvalidBorrow>
        ensures { IfOk result (λ guard. guard_tag guard ≡ cell_kind self.now) }
    {
        self.cell.borrow(rt)
    }

    /// The whole value, to read; refused where it is written, or read as often as may be.
    pub fn try_borrow<W: Wait>(&self, rt: &W) -> Result<Ref<'a, V, OfKind>, InvalidBorrow>
        ensures { IfOk result (λ guard. guard_tag guard ≡ cell_kind self.now) }
    {
        self.cell.try_borrow(rt)
    }
}

impl<'a, V: ResourceValue + Drop, R: Resource<V>> SharedFetch<'a, V, R> {
    // The resource that the guard shows.
    fn resource(&self) -> &R
        ensures { fetch_shows self.now ≡ Some (R.wrapped result.now) }
    {
        match R::view(self.guard.value()) {
            Some(resource) => resource,
            None => unreachable!(),
        }
    }

    /// Another guard that reads the resource. `InvalidBorrow` where it is read as often as may be.
    pub fn try_clone<W: Wait>(&self, rt: &W) -> Result<SharedFetch<'a, V, R>, SharedError>
        ensures { IfErr result (λ e. e ≡ SharedError.InvalidBorrow) }
    {
        match self.guard.try_clone(rt) {
            Ok(guard) => Ok(SharedFetch {
                guard,
                resource: PhantomData,
            }),
            Err(InvalidBorrow) => Err(SharedError::InvalidBorrow),
        }
    }
}

impl<V: ResourceValue + Drop, R: Resource<V>> Deref for SharedFetch<'_, V, R> {
    type Target = R;

    ghost deref_gives = { λ fetch resource. fetch_shows fetch ≡ Some (R.wrapped resource) };

    fn deref(&self) -> &R {
        self.resource()
    }
}

impl<V: ResourceValue + Drop, R: Resource<V>> Deref for SharedFetchMut<'_, V, R> {
    type Target = R;

    ghost deref_gives = { λ fetch resource. resource ≡ resource_to_write fetch };

    fn deref(&self) -> &R {
        &self.resource
    }
}

impl<V: ResourceValue + Drop, R: Resource<V>> DerefMut for SharedFetchMut<'_, V, R> {
    ghost deref_mut_gives = { λ fetch resource. resource ≡ resource_to_write fetch };

    fn deref_mut(&mut self) -> &mut R
        ensures shown { result.now ≡ resource_to_write self.old }
    {
        &mut self.resource
    }
}
