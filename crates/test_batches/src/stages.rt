//! Stages in whose entries systems and batches stand.

use crate::adds::{Adds, adds_to, expect_counts, refuses, world_of};
use crate::bounds::{Bounds, times};
use shred::{
    Fault, OutOfMemory, Stage, StageFault, StagesBuilder, SystemId, World, batch_entry, tiers_of,
};
use std::alloc::Global;
use std::process::Abort;
use std::test::Fail;
use std::thread::Threads;
use test_values::Value;

type AddsStage = Stage<Value, Adds, Bounds>;

type AddsStages = StagesBuilder<Value, Adds, Bounds>;

/// Inserts a batch of this controller and of this system alone, which depends on nothing.
fn insert_batch(
    alloc: Global,
    builder: &mut AddsStages,
    id: SystemId,
    controller: Bounds,
    system: Adds,
) -> Result<(), OutOfMemory> {
    let mut inner: AddsStages = StagesBuilder::new(alloc);
    inner.insert(&[], SystemId(0), system)?;
    let tiers = tiers_of(alloc, inner.build())?;
    let batch = batch_entry(alloc, id, controller, tiers)?;
    builder.insert_entry(&[], batch)
}

/// The stages of two systems, of which the second refuses its run, and of a batch of three rounds.
fn built(alloc: Global) -> Result<AddsStages, OutOfMemory> {
    let mut builder: AddsStages = StagesBuilder::new(alloc);
    builder.insert(&[], SystemId(0), adds_to(0, 1))?;
    builder.insert(&[], SystemId(1), refuses(1, 2, 7))?;
    insert_batch(
        alloc,
        &mut builder,
        SystemId(2),
        times(2, 3),
        adds_to(3, 10),
    )?;
    Ok(builder)
}

fn is_refused(answer: Result<(), StageFault<u8>>) -> bool {
    matches!(
        answer,
        Err(StageFault::System {
            id: SystemId(1),
            fault: Fault::Refused(7),
        })
    )
}

/// In sequence and then on threads the stage is refused; both its systems have added, and the batch has run three rounds.
fn expect_runs(
    rt: &(impl Abort + Threads + Sync),
    stage: &mut AddsStage,
    world: &mut World<Value>,
) {
    assert!(rt; is_refused(stage.execute_seq(world)));
    expect_counts(rt, world, &[1, 2, 3, 30]);
    assert!(rt; is_refused(stage.execute(rt, world, 2)));
    expect_counts(rt, world, &[2, 4, 6, 60]);
}

#[test]
fn a_stage_with_a_batch_is_set_up_run_and_disposed_of(rt: HostRuntime) -> Result<(), Fail> {
    let mut world = world_of(rt.alloc(), &[0, 0, 0, 0])?;
    let stages = built(rt.alloc())?.build();
    assert_eq!(rt; stages.len(), 1);
    for mut stage in stages {
        assert_eq!(rt; stage.max_threads(), 3);
        assert!(rt; stage.setup(&mut world).is_ok());
        expect_runs(&rt, &mut stage, &mut world);
        assert!(rt; stage.dispose(&mut world).is_ok());
    }
    expect_counts(&rt, &world, &[2, 4, 6, 60]);
    Ok(())
}
