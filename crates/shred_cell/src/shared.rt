//! The shared world.
ghost use Rattle.std.specs.Prelude.{◌≡◌, false, is_some};
ghost use Rattle.std.proofs.Props.{props};
ghost use Rattle.shred_cell.specs.Cells.{guard_tag, tag_of};
ghost use Rattle.shred_cell.specs.Shared.{ArePlaced};
ghost use Rattle.shred_table.specs.AsOne.{IsSettledBeside};
ghost use Rattle.shred_table.specs.Parting.{slot_value};
ghost use Rattle.shred_table.specs.Slots.{among, slot_at};
ghost use Rattle.shred_table.specs.declared.id.ResourceId.{ResourceId};

use crate::cell::{Ref, TrustCell};
use crate::fact::Fact;
use shred_table::id::{Kind, ResourceId};
use shred_table::resource::{Resource, ResourceValue};
use shred_table::table::Table;
use std::marker::PhantomData;
use thiserror::Error;

mod fetches;
mod guards;
mod moves;
mod worlds;

/// The fact of a value that it is of a kind.
pub struct OfKind;

impl<V: ResourceValue> Fact<V> for OfKind {
    type Tag = Kind;

    ghost holds = { λ kind value. V.kind_of value ≡ kind };
}

/// Why a call of a shared world was refused.
#[derive(Clone, Copy, Debug, PartialEq, Eq, Error)]
pub enum SharedError {
    /// No value is held under the id.
    #[error("nothing is held under {0}")]
    Missing(ResourceId),
    /// The caller's type has the kind `asked`, and the id the kind `found`.
    #[error("{asked} was asked for, and the id is of {found}")]
    WrongKind { asked: Kind, found: Kind },
    /// The value is written, or read where it was to be written, or read as often as may be.
    #[error("the value is borrowed")]
    InvalidBorrow,
}

/// A world whose values threads borrow, each from a cell of its own. No id comes or goes.
#[derive(Drop)]
pub struct SharedWorld<V: ResourceValue + Drop> {
    // Where the values come from; its slots stay, empty.
    table: Table<V>,
    // The hand beside it, which is empty.
    hand: Table<V>,
    cells: Table<TrustCell<V, OfKind>>,
    ids: Vec<ResourceId>,
    ghost placed: { ArePlaced cells } by { Prim.hlevel props },
    ghost covered: { (id : ResourceId) → is_some (slot_at cells id) ≡ among ids.items id },
    ghost homes: { (id : ResourceId) → is_some (slot_at table id) ≡ among ids.items id },
    ghost room: { IsSettledBeside table hand },
    ghost moved: { (id : ResourceId) → is_some (slot_value (slot_at table id)) ≡ false },
}

/// The cell of an id, whose values are read whole.
#[derive(Drop)]
pub struct CellRef<'a, V: ResourceValue + Drop> {
    cell: &'a TrustCell<V, OfKind>,
}

/// A held resource, to read.
pub struct SharedFetch<'a, V: ResourceValue + Drop, R: Resource<V>> {
    guard: Ref<'a, V, OfKind>,
    resource: PhantomData<R>,
    ghost of_kind: { guard_tag guard ≡ R.KIND },
}

/// A held resource, to write. It is the world's again when this is dropped; where this is forgotten, the resource is lost, and
/// each later borrow of it is refused.
pub struct SharedFetchMut<'a, V: ResourceValue + Drop, R: Resource<V>> {
    cell: &'a TrustCell<V, OfKind>,
    resource: R,
    ghost of_kind: { tag_of cell.now ≡ R.KIND },
}

impl<V: ResourceValue + Drop, R: Resource<V>> Drop for SharedFetch<'_, V, R> {
    fn drop(self) {
        let Self { guard, resource: _ } = self;
        drop(guard);
    }
}

impl<V: ResourceValue + Drop, R: Resource<V>> Drop for SharedFetchMut<'_, V, R> {
    fn drop(self) {
        let Self { cell, resource } = self;
        cell.give(resource.wrap());
    }
}
