//! The turn of a stage on workers that are kept.
ghost use Rattle.std.specs.Prelude.{◌≡◌, All};
ghost use Rattle.shred_model.specs.Beside.{AreApart};
ghost use Rattle.shred_model.specs.Plan.{group_access};
ghost use Rattle.shred_run.specs.Hands.{KeepsRoom};
ghost use Rattle.shred_run.specs.PlanOf.{groups_plan};
ghost use Rattle.shred_table.specs.Shown.{IsSameSlots};
ghost use Rattle.shred_run.specs.Circles.{StageTurned, StageOwns};

use crate::inner::turn_groups;
use crate::level::Level;
use crate::stage_crew::StageCrew;
use shred_run::entry::Group;
use shred_run::{BatchController, Nested, StageFault, System, Work};
use shred_world::{ResourceValue, Table};
use std::sync::{Arc, Wait};
use std::thread::Threads;

/// The turn of a stage's groups over what a table holds, beside each other on the workers that are free and on the caller's thread, what
/// stands in each entry to the depth that is noted of it.
pub fn turn_kept<
    R: Threads + Wait,
    V: ResourceValue + Drop,
    S: System<V, Error = E> + Drop,
    C: BatchController<V, Error = E> + Drop,
    E: Drop,
>(
    crew: &mut StageCrew<R, V, S, C>,
    groups: &mut Vec<Group<V, Work<S, Nested<V, S, C>>>>,
    table: &mut Table<V>,
) -> Result<(), StageFault<E>>
    requires own_lists { StageOwns S.System C.BatchController groups.old.items }
    requires room { All KeepsRoom groups.old.items }
    requires apart { AreApart group_access (groups_plan groups.old.items) }
    ensures took { StageTurned V.kind_of S.System C.BatchController groups.old.items table.old result groups.new.items table.new }
    ensures slots { IsSameSlots table.old table.new }
{
    let rt = crew.pool.runtime();
    let none: Vec<Arc<Level<V>>> = Vec::new(*groups.allocator());
    turn_groups(
        rt,
        &mut crew.lanes,
        None,
        groups,
        &[],
        &[],
        none.as_slice(),
        table,
    )
}
