//! Two trees that run beside each other.
ghost use Rattle.std.specs.Prelude.{◌≡◌, IfOk, MatchResult};
ghost use Rattle.shred_run.specs.Touching.{accesses_conflict, share_item};
ghost use Rattle.shred_model.specs.Access.{Conflicts};
ghost use Rattle.shred_table.specs.Id.{same_id};
ghost use Rattle.shred_trees.specs.Listed.{lists_access};
ghost use Rattle.shred_trees.specs.Pieces.{ShapeOf};
ghost use Rattle.shred_trees.specs.Trees.{tree_access};
ghost use Rattle.shred_trees.specs.Withs.{IsWith};
ghost use Rattle.shred_trees.specs.declared.halves.Halves.TheVariants.{Both, Head, Tail};

use crate::halves::Halves;
use crate::lists::Lists;
use crate::nil::Nil;
use crate::par_error::ParError;
use crate::tree::{RunWithPool, Shape};
use shred_run::Fault;
use shred_run::first::first as first_fault;
use shred_world::{OutOfMemory, ResourceId, ResourceValue, View, World, check_intersection};
use std::alloc::Global;
use std::marker::PhantomData;

/// Two trees that run beside each other. That they do not conflict is a fact of the type.
#[derive(Drop)]
pub struct Par<V: ResourceValue, E, H: RunWithPool<V, E>, T: RunWithPool<V, E>> {
    pub(crate) halves: Halves<H, T>,
    of: PhantomData<(V, E)>,
    ghost apart: { (head : H) (tail : T) → halves ≡ Both head tail → Conflicts (tree_access H.trees head) (tree_access T.trees tail) → ⊥ },
}

// The two, which do not conflict.
fn par_both<V: ResourceValue, E, H: RunWithPool<V, E>, T: RunWithPool<V, E>>(
    head: H,
    tail: T,
) -> Par<V, E, H, T>
    requires { Conflicts (tree_access H.trees head) (tree_access T.trees tail) → ⊥ }
    ensures { result.halves ≡ Both head tail }
{
    Par {
        halves: Halves::Both(head, tail),
        of: PhantomData,
    }
}

// The head, while it runs.
fn par_head<V: ResourceValue, E, H: RunWithPool<V, E>, T: RunWithPool<V, E>>(
    head: H,
) -> Par<V, E, H, T>
    ensures { result.halves ≡ Head head }
{
    Par {
        halves: Halves::Head(head),
        of: PhantomData,
    }
}

// The tail, while it runs.
fn par_tail<V: ResourceValue, E, H: RunWithPool<V, E>, T: RunWithPool<V, E>>(
    tail: T,
) -> Par<V, E, H, T>
    ensures { result.halves ≡ Tail tail }
{
    Par {
        halves: Halves::Tail(tail),
        of: PhantomData,
    }
}

// The pieces of a head, each as a head.
fn par_heads<V: ResourceValue, E, H: RunWithPool<V, E>, T: RunWithPool<V, E>>(
    shape: Shape<H>,
) -> Shape<Par<V, E, H, T>>
    ensures { ShapeOf (λ head par. par.halves ≡ Head head) shape result }
{
    match shape {
        Shape::Leaf(piece) => Shape::Leaf(par_head(piece)),
        Shape::InTurn(first, second) => Shape::InTurn(par_head(first), par_head(second)),
        Shape::Beside(first, second) => Shape::Beside(par_head(first), par_head(second)),
    }
}

// The pieces of a tail, each as a tail.
fn par_tails<V: ResourceValue, E, H: RunWithPool<V, E>, T: RunWithPool<V, E>>(
    shape: Shape<T>,
) -> Shape<Par<V, E, H, T>>
    ensures { ShapeOf (λ tail par. par.halves ≡ Tail tail) shape result }
{
    match shape {
        Shape::Leaf(piece) => Shape::Leaf(par_tail(piece)),
        Shape::InTurn(first, second) => Shape::InTurn(par_tail(first), par_tail(second)),
        Shape::Beside(first, second) => Shape::Beside(par_tail(first), par_tail(second)),
    }
}

// Whether the lists share an id.
fn share_id(first: &Vec<ResourceId>, second: &Vec<ResourceId>) -> bool
    ensures { result ≡ share_item same_id first.now.items second.now.items }
{
    check_intersection(first.as_slice(), second.as_slice())
}

// Whether one writes what the other reads or writes.
fn is_conflict(head: &Lists, tail: &Lists) -> bool
    ensures { result ≡ accesses_conflict same_id (lists_access head.now) (lists_access tail.now) }
{
    share_id(&head.writes, &tail.writes)
        || (share_id(&head.writes, &tail.reads) || share_id(&head.reads, &tail.writes))
}

// The two, if they do not conflict.
fn beside<V: ResourceValue, E, H: RunWithPool<V, E>, T: RunWithPool<V, E>>(
    alloc: Global,
    head: H,
    tail: T,
) -> Result<Par<V, E, H, T>, ParError>
    ensures conflict { IsWith (tree_access H.trees head) (tree_access T.trees tail) result }
    ensures made { IfOk result (λ par. par.halves ≡ Both head tail) }
{
    let Ok(head_lists) = Lists::of_tree::<V, E, H>(alloc, &head) else {
        return Err(ParError::OutOfMemory);
    };
    let Ok(tail_lists) = Lists::of_tree::<V, E, T>(alloc, &tail) else {
        return Err(ParError::OutOfMemory);
    };
    if is_conflict(&head_lists, &tail_lists) {
        return Err(ParError::Conflict);
    }
    Ok(par_both(head, tail))
}

impl<V: ResourceValue, E: Drop, H: RunWithPool<V, E>> Par<V, E, H, Nil> {
    /// The tree, beside nothing.
    pub fn new(head: H) -> Self
        ensures { result.halves ≡ Both head record {} }
    {
        par_both(head, Nil)
    }

    /// The tree so far and, beside it, this one. `Conflict` where one lists as written what the other lists; `OutOfMemory`.
    /// After a refusal both are dropped. A half that runs goes on as such.
    pub fn with<T: RunWithPool<V, E>>(
        self,
        alloc: Global,
        sys: T,
    ) -> Result<Par<V, E, Par<V, E, H, T>, Nil>, ParError>
        ensures conflict { (head : H) → self.halves ≡ Both head record {} → IsWith (tree_access H.trees head) (tree_access T.trees sys) result }
        ensures made { (head : H) → self.halves ≡ Both head record {} → IfOk result (λ made. (par : _) × (made.halves ≡ Both par record {}) × (par.halves ≡ Both head sys)) }
    {
        let Par { halves, of: _ } = self;
        match halves {
            Halves::Both(head, _) => match beside(alloc, head, sys) {
                Ok(par) => Ok(Par::new(par)),
                Err(refused) => Err(refused),
            },
            Halves::Head(head) => match beside(alloc, head, sys) {
                Ok(par) => Ok(par_head(par)),
                Err(refused) => Err(refused),
            },
            Halves::Tail(nil) => Ok(par_both(par_tail(sys), nil)),
        }
    }
}

/// A `Par` of one tree, as `par!` makes it.
pub fn single<V: ResourceValue, E: Drop, H: RunWithPool<V, E>>(
    head: H,
) -> Result<Par<V, E, H, Nil>, ParError>
    ensures { MatchResult result (λ par. par.halves ≡ Both head record {}) (λ refused. ⊥) }
{
    Ok(Par::new(head))
}

impl<V: ResourceValue, E: Drop, H: RunWithPool<V, E>, T: RunWithPool<V, E>> RunWithPool<V, E>
    for Par<V, E, H, T> {
    ghost use Rattle.shred_trees.specs.Halves.{ParRan, halves_pieces, halves_trees};

    ghost trees = { halves_trees (ParRan V.kind_of H.trees T.trees) H.trees T.trees (λ par. par.halves) };

    ghost pieces = { halves_pieces (λ head tail. Conflicts (tree_access H.trees head) (tree_access T.trees tail) → ⊥) H.pieces T.pieces (λ par. par.halves) };

    fn setup(&mut self, world: &mut World<V>) -> Result<(), Fault<E>> {
        self.halves.set_up(world)
    }

    fn reads(&self, ids: &mut Vec<ResourceId>) -> Result<(), OutOfMemory> {
        self.halves.append_reads(ids)
    }

    fn writes(&self, ids: &mut Vec<ResourceId>) -> Result<(), OutOfMemory> {
        self.halves.append_writes(ids)
    }

    fn split(self) -> Shape<Self> {
        let Par { halves, of: _ } = self;
        match halves {
            Halves::Both(head, tail) => Shape::Beside(par_head(head), par_tail(tail)),
            Halves::Head(head) => par_heads(head.split()),
            Halves::Tail(tail) => par_tails(tail.split()),
        }
    }

    fn rejoin(first: Self, second: Self) -> Self {
        let Par {
            halves: first,
            of: _,
        } = first;
        let Par {
            halves: second,
            of: _,
        } = second;
        match (first, second) {
            (Halves::Head(head), Halves::Tail(tail)) => par_both(head, tail),
            (Halves::Head(first), Halves::Head(second)) => par_head(H::rejoin(first, second)),
            (Halves::Tail(first), Halves::Tail(second)) => par_tail(T::rejoin(first, second)),
            _ => unreachable!(),
        }
    }

    fn run_in_order(&mut self, alloc: Global, view: &mut View<V>) -> Result<(), Fault<E>> {
        match &mut self.halves {
            Halves::Both(head, tail) => {
                let one = head.run_in_order(alloc, view);
                let other = tail.run_in_order(alloc, view);
                first_fault(one, other)
            }
            Halves::Head(head) => head.run_in_order(alloc, view),
            Halves::Tail(tail) => tail.run_in_order(alloc, view),
        }
    }
}
