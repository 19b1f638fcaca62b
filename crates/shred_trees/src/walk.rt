//! Runs of trees on threads.
ghost use Rattle.std.specs.Prelude.{◌≡◌, ◌∷◌, ◌<◌, [], length};
ghost use Rattle.std.specs.List.{AllZip};
ghost use Rattle.std.specs.Thread.{IsSend, IsSync};
ghost use Rattle.shred_model.specs.Access.{Conflicts};
ghost use Rattle.shred_table.specs.Parts.{IsHandOf};
ghost use Rattle.shred_world.specs.Beside.{lender_of, pairs_behind, pairs_of, parted_of};
ghost use Rattle.shred_world.specs.Views.{table_name, view_slot};
ghost use Rattle.shred_trees.specs.Parted.{ArePairsOf, WentBeside, RanAt, TwoRanIn, MayRun, AreTwo, IsHandAt, IsPairAt};
ghost use Rattle.shred_trees.specs.TreeViews.{Covers, RanOver};
ghost use Rattle.shred_trees.specs.Trees.{tree_access};

use crate::lists::Lists;
use crate::place::replace_beside;
use crate::tree::{RunWithPool, Shape};
use core::mem::replace;
use shred_run::Fault;
use shred_run::first::first as first_fault;
use shred_world::{Behind, Parts, ResourceValue, Table, View};
use std::alloc::Global;
use std::thread::{Threads, join};

// Takes the two hands out.
fn take_hands<V: Drop>(alloc: Global, hands: &mut Vec<Table<V>>) -> (Table<V>, Table<V>)
    requires { length hands.old.items ≡ 2 }
    ensures taken { hands.old.items ≡ result.0 ∷ result.1 ∷ [] }
    ensures left { length hands.new.items ≡ 2 }
{
    let first_hand = replace(&mut hands[0], Table::new(alloc));
    let second_hand = replace(&mut hands[1], Table::new(alloc));
    (first_hand, second_hand)
}

// Puts the two hands back.
fn put_hands<V: Drop>(hands: &mut Vec<Table<V>>, first_hand: Table<V>, second_hand: Table<V>)
    requires { length hands.old.items ≡ 2 }
    ensures { hands.new.items ≡ first_hand ∷ second_hand ∷ [] }
{
    hands[0] = first_hand;
    hands[1] = second_hand;
}

// The run of a tree over a hand and what lies behind it.
#[cycle(walk)]
fn run_part<
    R: Threads + Sync,
    V: ResourceValue + Drop + Send + Sync,
    E: Drop + Send,
    T: RunWithPool<V, E> + Send,
>(
    rt: &R,
    alloc: Global,
    tree: T,
    behind: &Behind<V>,
    number: usize,
    hand: &mut Table<V>,
) -> (T, Result<(), Fault<E>>)
    requires number { number < length (pairs_behind behind.now) }
    requires hand { IsHandAt behind.now number hand.old }
    requires pair { IsPairAt T.trees behind.now number tree }
    ensures { RanAt V.kind_of T.trees behind.now number tree hand.old result.1 result.0 hand.new }
{
    let mut view = behind.view(number, hand);
    walk(rt, alloc, tree, &mut view)
}

// The same over a hand that is passed by value.
#[cycle(walk)]
fn run_part_in<
    R: Threads + Sync,
    V: ResourceValue + Drop + Send + Sync,
    E: Drop + Send,
    T: RunWithPool<V, E> + Send,
>(
    rt: &R,
    alloc: Global,
    tree: T,
    behind: &Behind<V>,
    number: usize,
    hand: Table<V>,
) -> (T, Table<V>, Result<(), Fault<E>>)
    requires number { number < length (pairs_behind behind.now) }
    requires hand { IsHandAt behind.now number hand }
    requires pair { IsPairAt T.trees behind.now number tree }
    ensures { RanAt V.kind_of T.trees behind.now number tree hand result.2 result.0 result.1 }
{
    let mut hand = hand;
    let (tree, outcome) = run_part(rt, alloc, tree, behind, number, &mut hand);
    (tree, hand, outcome)
}

// The runs of two trees at once, each over its hand.
#[cycle(walk)]
fn fork<
    R: Threads + Sync,
    V: ResourceValue + Drop + Send + Sync,
    E: Drop + Send,
    T: RunWithPool<V, E> + Send,
>(
    rt: &R,
    alloc: Global,
    behind: &Behind<V>,
    first: T,
    first_hand: Table<V>,
    second: T,
    second_hand: Table<V>,
) -> (
    (T, Table<V>, Result<(), Fault<E>>),
    (T, Table<V>, Result<(), Fault<E>>),
)
    requires two { AreTwo behind.now }
    requires first_hand { IsHandAt behind.now 0 first_hand }
    requires first_pair { IsPairAt T.trees behind.now 0 first }
    requires second_hand { IsHandAt behind.now 1 second_hand }
    requires second_pair { IsPairAt T.trees behind.now 1 second }
    ensures first { RanAt V.kind_of T.trees behind.now 0 first first_hand result.0.2 result.0.0 result.0.1 }
    ensures second { RanAt V.kind_of T.trees behind.now 1 second second_hand result.1.2 result.1.0 result.1.1 }
{
    join(
        rt,
        move || -> (T, Table<V>, Result<(), Fault<E>>)
            requires { IsSync R.row × IsSync V.row × IsSend V.row × IsSend T.row × IsSend E.row × MayRun T.trees behind.now 0 first first_hand }
            ensures { RanAt V.kind_of T.trees behind.entry.now 0 first first_hand result.2 result.0 result.1 }
        { run_part_in(rt, alloc, first, behind, 0, first_hand) },
        move || -> (T, Table<V>, Result<(), Fault<E>>)
            requires { IsSync R.row × IsSync V.row × IsSend V.row × IsSend T.row × IsSend E.row × MayRun T.trees behind.now 1 second second_hand }
            ensures { RanAt V.kind_of T.trees behind.entry.now 1 second second_hand result.2 result.0 result.1 }
        { run_part_in(rt, alloc, second, behind, 1, second_hand) },
    )
}

// The runs of two trees at once, each over the hand of its part.
#[cycle(walk)]
fn run_parts<
    R: Threads + Sync,
    V: ResourceValue + Drop + Send + Sync,
    E: Drop + Send,
    T: RunWithPool<V, E> + Send,
>(
    rt: &R,
    alloc: Global,
    first: T,
    second: T,
    parts: &mut Parts<V>,
    lender: &View<V>,
) -> (T, T, Result<(), Fault<E>>)
    requires lender { table_name lender.now ≡ lender_of parts.old }
    requires pairs { ArePairsOf T.trees first second (pairs_of parts.old) }
    requires hands { AllZip (IsHandOf (view_slot lender.now)) (pairs_of parts.old) parts.old.hands.items }
    ensures ran { TwoRanIn V.kind_of T.trees lender.now parts.old first second result.2 result.0 result.1 parts.new }
    ensures lender { lender_of parts.new ≡ lender_of parts.old }
    ensures parted { parted_of parts.new ≡ parted_of parts.old }
    ensures pairs { pairs_of parts.new ≡ pairs_of parts.old }
{
    let behind = parts.behind(lender);
    let (first_hand, second_hand) = take_hands(alloc, &mut parts.hands);
    let ((first, first_hand, one), (second, second_hand, other)) = fork(
        rt,
        alloc,
        &behind,
        first,
        first_hand,
        second,
        second_hand,
    );
    put_hands(&mut parts.hands, first_hand, second_hand);
    (first, second, first_fault(one, other))
}

// The runs of two trees at once, each over a part of the view.
#[cycle(walk)]
fn run_listed<
    R: Threads + Sync,
    V: ResourceValue + Drop + Send + Sync,
    E: Drop + Send,
    T: RunWithPool<V, E> + Send,
>(
    rt: &R,
    alloc: Global,
    first: T,
    first_lists: &Lists,
    second: T,
    second_lists: &Lists,
    view: &mut View<V>,
) -> (T, T, Result<(), Fault<E>>)
    requires apart { Conflicts (tree_access T.trees first) (tree_access T.trees second) → ⊥ }
    requires first { Covers view.old (T.trees.reads first) (T.trees.writes first) }
    requires second { Covers view.old (T.trees.reads second) (T.trees.writes second) }
    requires first_reads { first_lists.now.reads.items ≡ T.trees.reads first }
    requires first_writes { first_lists.now.writes.items ≡ T.trees.writes first }
    requires second_reads { second_lists.now.reads.items ≡ T.trees.reads second }
    requires second_writes { second_lists.now.writes.items ≡ T.trees.writes second }
    ensures { WentBeside V.kind_of T.trees first second view.old result.2 result.0 result.1 view.new }
{
    let pairs = [first_lists.pair(), second_lists.pair()];
    let mut parts = match view.part(alloc, &pairs) {
        Ok(parts) => parts,
        Err(_) => return (first, second, Err(Fault::OutOfMemory)),
    };
    let (first, second, outcome) = run_parts(rt, alloc, first, second, &mut parts, view);
    parts.join(view);
    (first, second, outcome)
}

// The runs of two trees at once, where there is memory for it.
#[cycle(walk)]
fn run_two<
    R: Threads + Sync,
    V: ResourceValue + Drop + Send + Sync,
    E: Drop + Send,
    T: RunWithPool<V, E> + Send,
>(rt: &R, alloc: Global, first: T, second: T, view: &mut View<V>) -> (T, T, Result<(), Fault<E>>)
    requires apart { Conflicts (tree_access T.trees first) (tree_access T.trees second) → ⊥ }
    requires first { Covers view.old (T.trees.reads first) (T.trees.writes first) }
    requires second { Covers view.old (T.trees.reads second) (T.trees.writes second) }
    ensures { WentBeside V.kind_of T.trees first second view.old result.2 result.0 result.1 view.new }
{
    let Ok(first_lists) = Lists::of_tree::<V, E, T>(alloc, &first) else {
        return (first, second, Err(Fault::OutOfMemory));
    };
    let Ok(second_lists) = Lists::of_tree::<V, E, T>(alloc, &second) else {
        return (first, second, Err(Fault::OutOfMemory));
    };
    run_listed(rt, alloc, first, &first_lists, second, &second_lists, view)
}

// The run of a tree, piece by piece.
#[cycle(walk)]
fn walk<
    R: Threads + Sync,
    V: ResourceValue + Drop + Send + Sync,
    E: Drop + Send,
    T: RunWithPool<V, E> + Send,
>(rt: &R, alloc: Global, tree: T, view: &mut View<V>) -> (T, Result<(), Fault<E>>)
    requires { Covers view.old (T.trees.reads tree) (T.trees.writes tree) }
    ensures { RanOver V.kind_of T.trees tree view.old result.1 result.0 view.new }
{
    match tree.split() {
        Shape::Leaf(mut leaf) => {
            let outcome = leaf.run_in_order(alloc, view);
            (leaf, outcome)
        }
        Shape::InTurn(first, second) => {
            let (first, outcome) = walk(rt, alloc, first, view);
            match outcome {
                Ok(()) => {
                    let (second, outcome) = walk(rt, alloc, second, view);
                    (T::rejoin(first, second), outcome)
                }
                Err(fault) => (T::rejoin(first, second), Err(fault)),
            }
        }
        Shape::Beside(first, second) => {
            let (first, second, outcome) = run_two(rt, alloc, first, second, view);
            (T::rejoin(first, second), outcome)
        }
    }
}

/// The run of a tree.
pub(crate) fn run_tree<
    R: Threads + Sync,
    V: ResourceValue + Drop + Send + Sync,
    E: Drop + Send,
    T: RunWithPool<V, E> + Send,
>(rt: &R, alloc: Global, tree: &mut T, view: &mut View<V>) -> Result<(), Fault<E>>
    requires { Covers view.old (T.trees.reads tree.old) (T.trees.writes tree.old) }
    ensures { RanOver V.kind_of T.trees tree.old view.old result tree.new view.new }
{
    let mut outcome = Ok(());
    replace_beside(
        tree,
        view,
        &mut outcome,
        |tree, view| -> (T, Result<(), Fault<E>>)
            requires { IsSync R.row × IsSync V.row × IsSend V.row × IsSend T.row × IsSend E.row × Covers view.old (T.trees.reads tree) (T.trees.writes tree) }
            ensures { RanOver V.kind_of T.trees tree view.old result.1 result.0 view.new }
        { walk(rt, alloc, tree, view) },
    );
    outcome
}
