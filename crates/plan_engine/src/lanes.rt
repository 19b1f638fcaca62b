//! The lanes of a stage, which are its groups, by the declared times of their entries.
ghost use Rattle.std.specs.Prelude.{◌≡◌, ◌+◌, ◌-◌, IfOk, map};
ghost use Rattle.std.specs.List.{sum_by};
ghost use Rattle.plan_engine.specs.Lanes.{IsFirstGreatest, lane_time, lane_times, time_of};

use crate::plans::Entry;
use std::alloc::{AllocError, Global};

/// The sum. Entries whose times pass the greatest number have no place in memory.
pub(crate) fn sum(total: usize, more: usize) -> Result<usize, AllocError>
    ensures { IfOk result (λ sum. sum ≡ total + more) }
{
    total.checked_add(more).ok_or(AllocError)
}

/// The declared time of the entry of this id, 0 where there is none.
fn time_of(entries: &[Entry], id: usize) -> usize
    ensures { result ≡ time_of entries.now id }
{
    match entries.get(id) {
        Some(entry) => entry.time,
        None => 0,
    }
}

/// The time of a lane, whose entries run one after the other.
pub(crate) fn lane_time(entries: &[Entry], lane: &[usize]) -> Result<usize, AllocError>
    ensures { IfOk result (λ time. time ≡ lane_time entries.now lane.now) }
{
    let mut time = 0;
    for id in lane {
        time = sum(time, time_of(entries, *id))?;
    }
    Ok(time)
}

/// The times of the lanes of a stage.
pub(crate) fn lane_times(
    alloc: Global,
    entries: &[Entry],
    lanes: &[Vec<usize>],
) -> Result<Vec<usize>, AllocError>
    ensures { IfOk result (λ times. times.items ≡ lane_times entries.now lanes.now) }
{
    let mut times = Vec::new(alloc);
    for lane in lanes {
        times.push(lane_time(entries, lane.as_slice())?)?;
    }
    Ok(times)
}

/// The place of the greatest of these numbers: of several the first.
pub(crate) fn first_greatest(numbers: &[usize]) -> usize
    ensures { IsFirstGreatest numbers.now result }
{
    let mut greatest = 0;
    let mut best = 0;
    for (place, number) in numbers.iter().enumerate() {
        if *number > best {
            greatest = place;
            best = *number;
        }
    }
    greatest
}

/// What lanes of these times wait, together, for one that takes this long.
pub(crate) fn idle_time(times: &[usize], longest: usize) -> Result<usize, AllocError>
    ensures { IfOk result (λ idle. idle ≡ sum_by (λ time. longest - time) times.now) }
{
    let mut idle = 0;
    for time in times {
        idle = sum(idle, longest.saturating_sub(*time))?;
    }
    Ok(idle)
}
