//! The run of a lane on the worker that it was handed to.
ghost use Rattle.shred_kept.specs.Lanes.{LaneReady, RanOverLevels, ReadyOverLevels};
ghost use Rattle.shred_kept.specs.Levels.{Reach, levels_of};

use crate::inner::run_here;
use crate::lane::StageLane;
use crate::lane_crew::LaneCrew;
use crate::level::Level;
use shred_hatch::Runner;
use shred_run::entry::Group;
use shred_run::loan::behind;
use shred_run::{BatchController, Nested, StageFault, System, Work};
use shred_world::{ResourceValue, Shelf};
use std::sync::{Arc, Wait};

// Runs the groups over levels, of which those that are left lie before the shelf.
fn run_before<
    R: Wait,
    V: ResourceValue + Drop,
    S: System<V, Error = E> + Drop,
    C: BatchController<V, Error = E> + Drop,
    E: Drop,
>(
    rt: &R,
    crew: &mut LaneCrew<V, S, C>,
    at: Option<usize>,
    groups: &mut Vec<Group<V, Work<S, Nested<V, S, C>>>>,
    levels: &[Arc<Level<V>>],
    left: &[Arc<Level<V>>],
    shelf: &[Shelf<V>; 1],
) -> Result<(), StageFault<E>>
    requires reach { Reach (levels_of levels.now) (levels_of left.now) shelf.now }
    requires ready { ReadyOverLevels S.System C.BatchController at levels.now groups.old }
    ensures ran { RanOverLevels V.kind_of S.System C.BatchController at levels.now groups.old result groups.new }
{
    let Some((level, others)) = left.split_first() else {
        return run_here(rt, crew, at, groups, shelf, levels);
    };
    let nearest = behind(&level.table, level.ids.as_slice(), &*shelf);
    run_before(rt, crew, at, groups, levels, others, &nearest)
}

// Runs the groups over levels.
fn run_over_levels<
    R: Wait,
    V: ResourceValue + Drop,
    S: System<V, Error = E> + Drop,
    C: BatchController<V, Error = E> + Drop,
    E: Drop,
>(
    rt: &R,
    crew: &mut LaneCrew<V, S, C>,
    at: Option<usize>,
    groups: &mut Vec<Group<V, Work<S, Nested<V, S, C>>>>,
    levels: &[Arc<Level<V>>],
) -> Result<(), StageFault<E>>
    requires ready { LaneReady S.System C.BatchController at levels.now groups.old }
    ensures ran { RanOverLevels V.kind_of S.System C.BatchController at levels.now groups.old result groups.new }
{
    let Some((level, others)) = levels.split_first() else {
        unreachable!()
    };
    let nearest = behind(&level.table, level.ids.as_slice(), &[]);
    run_before(rt, crew, at, groups, levels, others, &nearest)
}

impl<
    V: ResourceValue + Drop,
    S: System<V, Error = E> + Drop,
    C: BatchController<V, Error = E> + Drop,
    E: Drop,
> Runner<StageLane<V, S, C>> for LaneCrew<V, S, C> {
    fn run<R: Wait>(&mut self, rt: &R, lane: &mut StageLane<V, S, C>) {
        lane.answer = run_over_levels(rt, self, lane.at, &mut lane.groups, lane.levels.as_slice());
    }
}
