//! A tree of the tests' own that holds a tree, and comes apart as that one does.
ghost use Rattle.std.specs.Prelude.{◌≡◌};
ghost use Rattle.shred_trees.specs.Pieces.{ShapeOf};

use shred::{Fault, OutOfMemory, ResourceId, ResourceValue, RunWithPool, Shape, View, World};
use std::alloc::Global;

/// A tree with a name, which stays.
#[derive(Drop)]
pub struct Named<T> {
    pub inner: T,
    pub name: u8,
}

// The pieces of a tree, each with the name.
fn name_each<T>(shape: Shape<T>, name: u8) -> Shape<Named<T>>
    ensures { ShapeOf (λ inner named. (named.inner ≡ inner) × (named.name ≡ name)) shape result }
{
    match shape {
        Shape::Leaf(inner) => Shape::Leaf(Named { inner, name }),
        Shape::InTurn(first, second) => {
            Shape::InTurn(
                Named { inner: first, name },
                Named {
                    inner: second,
                    name,
                },
            )
        }
        Shape::Beside(first, second) => {
            Shape::Beside(
                Named { inner: first, name },
                Named {
                    inner: second,
                    name,
                },
            )
        }
    }
}

impl<V: ResourceValue, E, T: RunWithPool<V, E>> RunWithPool<V, E> for Named<T> {
    ghost use Rattle.test_trees.specs.Named.{named_pieces, named_trees};

    ghost trees = { named_trees T.trees };

    ghost pieces = { named_pieces T.pieces };

    fn setup(&mut self, world: &mut World<V>) -> Result<(), Fault<E>> {
        self.inner.setup(world)
    }

    fn reads(&self, ids: &mut Vec<ResourceId>) -> Result<(), OutOfMemory> {
        self.inner.reads(ids)
    }

    fn writes(&self, ids: &mut Vec<ResourceId>) -> Result<(), OutOfMemory> {
        self.inner.writes(ids)
    }

    fn split(self) -> Shape<Self> {
        let Named { inner, name } = self;
        name_each(inner.split(), name)
    }

    fn rejoin(first: Self, second: Self) -> Self {
        let Named { inner: first, name } = first;
        let Named {
            inner: second,
            name: _,
        } = second;
        Named {
            inner: T::rejoin(first, second),
            name,
        }
    }

    fn run_in_order(&mut self, alloc: Global, view: &mut View<V>) -> Result<(), Fault<E>> {
        self.inner.run_in_order(alloc, view)
    }
}
