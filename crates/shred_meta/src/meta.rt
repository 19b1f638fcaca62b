//! The table of kinds, and its walks.
ghost use Rattle.std.specs.Prelude.{◌≡◌};

use indexmap::IndexSet;
use shred_table::id::Kind;
use shred_table::resource::ResourceValue;
use shred_world::world::World;
use std::marker::PhantomData;

mod table;
mod walk;
mod walk_mut;

/// What all values of a world have in common: each does what it is ordered.
pub trait Common: ResourceValue {
    type Order;

    type Reply;

    ghost acts: { Self → Self.Order → Self.Reply → Self → Type 0 };

    /// Does what is ordered, and replies. The value stays of its kind.
    fn act(&mut self, order: Self::Order) -> Self::Reply
        ensures acted { acts self.old order result self.new }
        ensures kind { Self.kind_of self.new ≡ Self.kind_of self.old };
}

/// Kinds of resources, in the order in which they were first registered.
#[derive(Drop)]
pub struct MetaTable<V> {
    kinds: IndexSet<Kind>,
    values: PhantomData<V>,
}

/// The values that a world holds of registered kinds, to read.
#[derive(Drop)]
pub struct MetaIter<'a, V> {
    kinds: &'a [Kind],
    world: &'a World<V>,
}

/// The values that a world holds of registered kinds, each lent in turn to read it and to give it orders.
#[derive(Drop)]
pub struct MetaIterMut<'a, V> {
    kinds: &'a [Kind],
    world: &'a mut World<V>,
}

/// A value of a registered kind, to read it and to give it orders.
pub type MetaMut<'a, V> = &'a mut V;
