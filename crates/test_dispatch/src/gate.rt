//! Systems of one stage that wait for each other.

use crate::calls::dispatcher_on;
use shred::{Dispatcher, Plain, Stage, World};
use std::alloc::{AllocError, Global};
use std::process::Abort;
use std::test::Fail;
use std::thread::Threads;
use test_calls::calls::stages_of;
use test_calls::ended::{DONE, Ended, ended, stage_ended};
use test_meeting::{Meets, TURNS, VAIN, nobody, waits_for};
use test_values::Value;

/// The first and the last system of so many, which wait for each other, and between them those that wait for nothing.
fn systems_of(alloc: Global, count: usize, turns: u32) -> Result<Vec<Plain<Meets>>, AllocError> {
    let (ends, between) = (nobody(alloc)?, nobody(alloc)?);
    let mut systems = Vec::new(alloc);
    systems.push(waits_for(&ends, 2, turns)?)?;
    for _ in 2..count {
        systems.push(waits_for(&between, 0, turns)?)?;
    }
    systems.push(waits_for(&ends, 2, turns)?)?;
    Ok(systems)
}

/// By which call the systems are run, and on how many workers.
#[derive(Clone, Copy)]
enum Way {
    Dispatch(usize),
    InSequence,
    Execute(usize),
}

fn executed(
    rt: &(impl Threads + Sync),
    stage: &mut Stage<Value, Plain<Meets>>,
    world: &mut World<Value>,
    workers: usize,
) -> Ended {
    stage_ended(stage.execute(rt, world, workers))
}

fn dispatched_par(
    rt: &(impl Threads + Sync),
    dispatcher: &mut Dispatcher<Value, Plain<Meets>>,
    world: &mut World<Value>,
) -> Ended {
    ended(dispatcher.dispatch_par(rt, world))
}

fn dispatched_seq(
    dispatcher: &mut Dispatcher<Value, Plain<Meets>>,
    world: &mut World<Value>,
) -> Ended {
    ended(dispatcher.dispatch_seq(world))
}

/// How a run of these stages ends, over an empty world: of each, or of the first that is not Done.
fn end_of(
    rt: &(impl AllocGlobal + Threads + Sync),
    mut stages: Vec<Stage<Value, Plain<Meets>>>,
    way: Way,
) -> Ended {
    let mut world: World<Value> = World::empty(rt.alloc());
    match way {
        Way::Dispatch(workers) => {
            let mut dispatcher = dispatcher_on(rt.alloc(), stages, workers);
            dispatched_par(rt, &mut dispatcher, &mut world)
        }
        Way::InSequence => {
            let mut dispatcher = dispatcher_on(rt.alloc(), stages, 4);
            dispatched_seq(&mut dispatcher, &mut world)
        }
        Way::Execute(workers) => match stages.first_mut() {
            Some(stage) => executed(rt, stage, &mut world, workers),
            None => DONE,
        },
    }
}

// The number of groups in the first stage.
fn groups_of(stages: &[Stage<Value, Plain<Meets>>]) -> usize {
    match stages.first() {
        Some(stage) => stage.max_threads(),
        None => 0,
    }
}

/// So many systems stand in one stage, each in a group of its own, and their run ends so.
fn expect_meeting(
    rt: &(impl Abort + AllocGlobal + Threads + Sync),
    count: usize,
    turns: u32,
    way: Way,
    end: Ended,
) -> Result<(), Fail> {
    let systems = systems_of(rt.alloc(), count, turns)?;
    let stages = stages_of(rt.alloc(), systems)?;
    assert_eq!(rt; stages.len(), 1);
    assert_eq!(rt; groups_of(stages.as_slice()), count);
    assert_eq!(rt; end_of(rt, stages, way), end);
    Ok(())
}

const REFUSED: Ended = ("system", 0, 1);

#[test]
fn gate_two_systems(rt: HostRuntime) -> Result<(), Fail> {
    expect_meeting(&rt, 2, TURNS, Way::Dispatch(2), DONE)?;
    expect_meeting(&rt, 2, VAIN, Way::Dispatch(1), REFUSED)?;
    expect_meeting(&rt, 2, VAIN, Way::InSequence, REFUSED)
}

#[test]
fn gate_of_a_stage(rt: HostRuntime) -> Result<(), Fail> {
    expect_meeting(&rt, 2, TURNS, Way::Execute(2), DONE)?;
    expect_meeting(&rt, 2, VAIN, Way::Execute(1), REFUSED)
}

#[test]
fn halves_of_a_stage_of_four_run_at_once(rt: HostRuntime) -> Result<(), Fail> {
    expect_meeting(&rt, 4, TURNS, Way::Dispatch(4), DONE)
}
