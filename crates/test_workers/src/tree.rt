//! A job that hands parts of itself to the workers among whom it runs.
ghost use Rattle.std.specs.Prelude.{◌≡◌, ⊤};
ghost use Rattle.test_workers.specs.Leaves.{leaves_of};

use shred_hatch::{Job, Runner};
use shred_workers::Workers;
use std::sync::{Arc, Wait};

/// A tree of halves, by its depth: one of depth 0 is a leaf, and every other has two of the depth below.
#[derive(Drop)]
pub struct Tree {
    depth: u32,
    leaves: u64,
}

impl Job for Tree {
    ghost ready = { λ _. ⊤ };

    ghost ran = { λ before after. after.leaves ≡ leaves_of before.depth };
}

/// Counts the leaves of a tree, among these workers.
#[derive(Clone, Drop)]
pub struct Counts {
    pub workers: Arc<Workers<Tree>>,
}

impl Runner<Tree> for Counts {
    fn run<R: Wait>(&mut self, rt: &R, tree: &mut Tree) {
        tree.leaves = leaves(rt, &self.workers, tree.depth);
    }
}

/// The leaves of a tree, counted among the numbers of 64 bits: one half on a worker, where one is free, and the other on this thread.
#[tactic(auto, using(crate::proofs::Halves::of_halves))]
pub fn leaves<R: Wait>(rt: &R, workers: &Workers<Tree>, depth: u32) -> u64
    ensures { result ≡ leaves_of depth }
{
    if depth == 0 {
        return 1;
    }
    let half = depth - 1;
    for place in 0..workers.len() {
        if let Some(mut worker) = workers.take(place) {
            worker.send(Tree {
                depth: half,
                leaves: 0,
            });
            let here = leaves(rt, workers, half);
            let there = worker.collect(rt, workers.looks()).leaves;
            workers.give_back(rt, place, worker);
            return here.wrapping_add(there);
        }
    }
    leaves(rt, workers, half).wrapping_add(leaves(rt, workers, half))
}
