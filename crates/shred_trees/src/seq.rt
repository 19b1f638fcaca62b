//! Two trees that run one after the other.
ghost use Rattle.std.specs.Prelude.{◌≡◌};
ghost use Rattle.shred_trees.specs.Pieces.{ShapeOf};
ghost use Rattle.shred_trees.specs.declared.halves.Halves.TheVariants.{Both, Head, Tail};

use crate::halves::Halves;
use crate::nil::Nil;
use crate::tree::{RunWithPool, Shape};
use shred_run::Fault;
use shred_world::{OutOfMemory, ResourceId, ResourceValue, View, World};
use std::alloc::Global;

/// Two trees that run one after the other, the second where the first was Done.
#[derive(Drop)]
pub struct Seq<H, T> {
    pub(crate) halves: Halves<H, T>,
}

impl<H> Seq<H, Nil> {
    /// The tree, and then nothing.
    pub fn new(head: H) -> Self
        ensures { result.halves ≡ Both head record {} }
    {
        Seq {
            halves: Halves::Both(head, Nil),
        }
    }

    /// The tree so far, and then this one. A half that runs goes on as such.
    pub fn with<T>(self, sys: T) -> Seq<Seq<H, T>, Nil>
        ensures { (head : H) → self.halves ≡ Both head record {} → result.halves ≡ Both (record { halves = Both head sys }) record {} }
    {
        let Seq { halves } = self;
        match halves {
            Halves::Both(head, nil) => {
                let both = Seq {
                    halves: Halves::Both(head, sys),
                };
                Seq {
                    halves: Halves::Both(both, nil),
                }
            }
            Halves::Head(head) => {
                let both = Seq {
                    halves: Halves::Both(head, sys),
                };
                seq_head(both)
            }
            Halves::Tail(nil) => Seq {
                halves: Halves::Both(seq_tail(sys), nil),
            },
        }
    }
}

// The head, while it runs.
fn seq_head<H, T>(head: H) -> Seq<H, T>
    ensures { result.halves ≡ Head head }
{
    Seq {
        halves: Halves::Head(head),
    }
}

// The tail, while it runs.
fn seq_tail<H, T>(tail: T) -> Seq<H, T>
    ensures { result.halves ≡ Tail tail }
{
    Seq {
        halves: Halves::Tail(tail),
    }
}

// The pieces of a head, each as a head.
fn seq_heads<H, T>(shape: Shape<H>) -> Shape<Seq<H, T>>
    ensures { ShapeOf (λ head seq. seq.halves ≡ Head head) shape result }
{
    match shape {
        Shape::Leaf(piece) => Shape::Leaf(seq_head(piece)),
        Shape::InTurn(first, second) => Shape::InTurn(seq_head(first), seq_head(second)),
        Shape::Beside(first, second) => Shape::Beside(seq_head(first), seq_head(second)),
    }
}

// The pieces of a tail, each as a tail.
fn seq_tails<H, T>(shape: Shape<T>) -> Shape<Seq<H, T>>
    ensures { ShapeOf (λ tail seq. seq.halves ≡ Tail tail) shape result }
{
    match shape {
        Shape::Leaf(piece) => Shape::Leaf(seq_tail(piece)),
        Shape::InTurn(first, second) => Shape::InTurn(seq_tail(first), seq_tail(second)),
        Shape::Beside(first, second) => Shape::Beside(seq_tail(first), seq_tail(second)),
    }
}

impl<V: ResourceValue, E: Drop, H: RunWithPool<V, E>, T: RunWithPool<V, E>> RunWithPool<V, E>
    for Seq<H, T> {
    ghost use Rattle.shred_trees.specs.Halves.{halves_pieces, halves_trees};
    ghost use Rattle.shred_trees.specs.Trees.{RanInTurn};

    ghost trees = { halves_trees (RanInTurn V.kind_of H.trees T.trees) H.trees T.trees (λ seq. seq.halves) };

    ghost pieces = { halves_pieces (λ head tail. Unit) H.pieces T.pieces (λ seq. seq.halves) };

    fn setup(&mut self, world: &mut World<V>) -> Result<(), Fault<E>> {
        self.halves.set_up(world)
    }

    fn reads(&self, ids: &mut Vec<ResourceId>) -> Result<(), OutOfMemory> {
        self.halves.append_reads(ids)
    }

    fn writes(&self, ids: &mut Vec<ResourceId>) -> Result<(), OutOfMemory> {
        self.halves.append_writes(ids)
    }

    fn split(self) -> Shape<Self> {
        let Seq { halves } = self;
        match halves {
            Halves::Both(head, tail) => Shape::InTurn(seq_head(head), seq_tail(tail)),
            Halves::Head(head) => seq_heads(head.split()),
            Halves::Tail(tail) => seq_tails(tail.split()),
        }
    }

    fn rejoin(first: Self, second: Self) -> Self {
        let Seq { halves: first } = first;
        let Seq { halves: second } = second;
        match (first, second) {
            (Halves::Head(head), Halves::Tail(tail)) => Seq {
                halves: Halves::Both(head, tail),
            },
            (Halves::Head(first), Halves::Head(second)) => seq_head(H::rejoin(first, second)),
            (Halves::Tail(first), Halves::Tail(second)) => seq_tail(T::rejoin(first, second)),
            _ => unreachable!(),
        }
    }

    fn run_in_order(&mut self, alloc: Global, view: &mut View<V>) -> Result<(), Fault<E>> {
        match &mut self.halves {
            Halves::Both(head, tail) => {
                if let Err(fault) = head.run_in_order(alloc, view) {
                    return Err(fault);
                }
                tail.run_in_order(alloc, view)
            }
            Halves::Head(head) => head.run_in_order(alloc, view),
            Halves::Tail(tail) => tail.run_in_order(alloc, view),
        }
    }
}
