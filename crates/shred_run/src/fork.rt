//! Lanes that run one after the other, or beside each other on threads.
ghost use Rattle.std.specs.Prelude.{◌≡◌, All, Ok};
ghost use Rattle.std.specs.Thread.{IsSync};
ghost use Rattle.shred_model.specs.Beside.{AllWent};
ghost use Rattle.shred_run.specs.Calls.{Accepts, Calls};

use crate::first::first;
use std::thread::{Threads, join_mut};

/// Runs every lane, one after the other. The answer is the first that is not Done.
pub fn run_lanes_in_order<X, E: Drop, F: Fn(&mut X) -> Result<(), E>>(
    run: &F,
    lanes: &mut [X],
) -> Result<(), E>
    requires { All (Accepts F.Fn run.now) lanes.old }
    ensures { AllWent (Calls F.Fn run.now) lanes.old result lanes.new }
{
    let mut answer = Ok(());
    for lane in lanes.iter_mut() {
        match run(lane) {
            Ok(()) => {}
            Err(fault) => answer = first(answer, Err(fault)),
        }
    }
    answer
}

/// Runs every lane, beside each other in halves, on at most `workers` threads, the caller's among them. A half whose thread
/// cannot be started runs on the thread that would have started it. The answer is the first, in the lanes' order, that is not
/// Done.
#[cycle(fork)]
pub fn run_lanes<R: Threads + Sync, X: Send, E: Drop + Send, F: Fn(&mut X) -> Result<(), E> + Sync>(
    rt: &R,
    run: &F,
    lanes: &mut [X],
    workers: usize,
) -> Result<(), E>
    requires { All (Accepts F.Fn run.now) lanes.old }
    ensures { AllWent (Calls F.Fn run.now) lanes.old result lanes.new }
{
    if workers <= 1 || lanes.len() <= 1 {
        return run_lanes_in_order(run, lanes);
    }
    let middle = lanes.len() / 2;
    let (front, back) = lanes.split_at_mut(middle);
    let half = workers / 2;
    let rest = workers - half;
    let mut answer = Ok(());
    let mut other = Ok(());
    join_mut(
        rt,
        &mut ||
            requires { IsSync R.row × IsSync F.row × All (Accepts F.Fn run.now) front.now × (answer ≡ Ok tt) }
            ensures { AllWent (Calls F.Fn run.entry.now) front.entry.now answer.exit front.exit.now }
        {
            if let Err(fault) = run_lanes(rt, run, front, half) {
                answer = Err(fault);
            }
        },
        &mut ||
            requires { IsSync R.row × IsSync F.row × All (Accepts F.Fn run.now) back.now × (other ≡ Ok tt) }
            ensures { AllWent (Calls F.Fn run.entry.now) back.entry.now other.exit back.exit.now }
        {
            if let Err(fault) = run_lanes(rt, run, back, rest) {
                other = Err(fault);
            }
        },
    );
    first(answer, other)
}
