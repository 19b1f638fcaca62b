//! What a plan takes, by the declared times of its entries.
ghost use Rattle.std.specs.Prelude.{◌≡◌, IfOk};
ghost use Rattle.std.specs.List.{AllZip};
ghost use Rattle.plan_engine.specs.Times.{AreLaneTimes, AreStageTimes, AreTimesOf, lane_at, longest_lanes};

use crate::lanes::{first_greatest, idle_time, lane_time, lane_times};
use crate::plans::{Entry, Plan};
use std::alloc::{AllocError, Global};

/// What a stage takes.
#[derive(Drop)]
pub struct StageTimes {
    /// The ids of the lane that takes the most time: of several the first.
    pub longest: Vec<usize>,
    /// The time of that lane.
    pub time: usize,
    /// What the other lanes wait for it, together.
    pub idle: usize,
}

/// What a plan takes.
#[derive(Drop)]
pub struct PlanTimes {
    pub stages: Vec<StageTimes>,
    /// The ids of the longest lanes of all stages, one after the other, and their time.
    pub path: Vec<usize>,
    pub path_time: usize,
    /// The time of all entries, one after the other.
    pub sum_time: usize,
}

/// What the plan takes.
pub(crate) fn times_of(alloc: Global, plan: &Plan) -> Result<PlanTimes, AllocError>
    ensures { IfOk result (AreTimesOf plan.now) }
{
    let entries = plan.entries.as_slice();
    let stages = all_stage_times(alloc, entries, plan.stages.as_slice())?;
    let path = path_of(alloc, stages.as_slice())?;
    let path_time = lane_time(entries, path.as_slice())?;
    let order = plan.order(alloc)?;
    let sum_time = lane_time(entries, order.as_slice())?;
    Ok(PlanTimes {
        stages,
        path,
        path_time,
        sum_time,
    })
}

/// What each of these stages takes.
fn all_stage_times(
    alloc: Global,
    entries: &[Entry],
    stages: &[Vec<Vec<usize>>],
) -> Result<Vec<StageTimes>, AllocError>
    ensures { IfOk result (λ times. AllZip (AreStageTimes entries.now) stages.now times.items) }
{
    let mut all = Vec::new(alloc);
    for lanes in stages {
        all.push(stage_times(alloc, entries, lanes.as_slice())?)?;
    }
    Ok(all)
}

/// What a stage of these lanes takes.
fn stage_times(
    alloc: Global,
    entries: &[Entry],
    lanes: &[Vec<usize>],
) -> Result<StageTimes, AllocError>
    ensures { IfOk result (AreLaneTimes entries.now lanes.now) }
{
    let times = lane_times(alloc, entries, lanes)?;
    let place = first_greatest(times.as_slice());
    let longest = lane_at(alloc, lanes, place)?;
    let time = lane_time(entries, longest.as_slice())?;
    let idle = idle_time(times.as_slice(), time)?;
    Ok(StageTimes {
        longest,
        time,
        idle,
    })
}

/// The ids of the lane at this place, none where there is no lane.
fn lane_at(alloc: Global, lanes: &[Vec<usize>], place: usize) -> Result<Vec<usize>, AllocError>
    ensures { IfOk result (λ ids. ids.items ≡ lane_at lanes.now place) }
{
    match lanes.get(place) {
        Some(lane) => Vec::from_slice(alloc, lane.as_slice()),
        None => Ok(Vec::new(alloc)),
    }
}

/// The ids of the longest lanes of these stages, one after the other.
fn path_of(alloc: Global, stages: &[StageTimes]) -> Result<Vec<usize>, AllocError>
    ensures { IfOk result (λ path. path.items ≡ longest_lanes stages.now) }
{
    let mut path = Vec::new(alloc);
    for stage in stages {
        path.extend_from_slice(stage.longest.as_slice())?;
    }
    Ok(path)
}
