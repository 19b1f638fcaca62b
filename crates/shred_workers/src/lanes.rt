//! Lanes that run beside each other, each on a worker, and the rest of them on the caller's thread.
ghost use Rattle.std.specs.Prelude.{◌≡◌, All, vec_capacity};
ghost use Rattle.std.specs.List.{AllZip};

use crate::place::Place;
use shred_hatch::{Job, Runner};
use std::sync::Wait;

fn run_here<J: Job, R: Wait, X: Runner<J>>(rt: &R, runner: &mut X, lanes: &mut [J])
    requires { All J.ready lanes.old }
    ensures { AllZip J.ran lanes.old lanes.new }
{
    if let Some((lane, others)) = lanes.split_first_mut() {
        runner.run(rt, lane);
        run_here(rt, runner, others);
    }
}

/// Runs every lane once: the last on the first worker that is free, and so on, and those that are left on the caller's thread.
pub(crate) fn run_lanes<J: Job + Drop, R: Wait, X: Runner<J>>(
    rt: &R,
    places: &[Place<J>],
    looks: u32,
    runner: &mut X,
    lanes: &mut Vec<J>,
)
    requires { All J.ready lanes.old.items }
    ensures ran { AllZip J.ran lanes.old.items lanes.new.items }
    ensures room { vec_capacity lanes.new ≡ vec_capacity lanes.old }
{
    if lanes.len() <= 1 {
        run_here(rt, runner, lanes.as_mut_slice());
        return;
    }
    let Some((place, others)) = places.split_first() else {
        run_here(rt, runner, lanes.as_mut_slice());
        return;
    };
    let Some(mut worker) = place.take() else {
        run_lanes(rt, others, looks, runner, lanes);
        return;
    };
    let Some(lane) = lanes.pop() else {
        unreachable!()
    };
    worker.send(lane);
    run_lanes(rt, others, looks, runner, lanes);
    lanes.push_reserved(worker.collect(rt, looks));
    place.give_back(rt, worker);
}
