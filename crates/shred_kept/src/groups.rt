//! What is done with the groups of a stage, in their `Vec`.
ghost use Rattle.std.specs.Prelude.{◌≡◌, All};
ghost use Rattle.std.specs.List.{AllZip};
ghost use Rattle.shred_run.specs.Hands.{FitsGroup, HasEmptyHand, IsBack, IsLeftEmpty, IsMovedOut, WriteApart, some_writes};
ghost use Rattle.shred_run.specs.OwnSlots.{LiesBefore};
ghost use Rattle.shred_table.specs.Slots.{slot_at};
ghost use Rattle.shred_table.specs.Changes.{StaysOutside, EmptiesEach};
ghost use Rattle.shred_kept.specs.Lanes.{RanBefore, ReadyBefore};

use shred_run::entry::Group;
use shred_run::hands::{move_groups_back, move_groups_out};
use shred_run::in_order::groups_over;
use shred_run::loan::behind;
use shred_run::{BatchController, Nested, StageFault, System, Work};
use shred_world::{ResourceId, ResourceValue, Shelf, Table};

/// Moves what the groups write into their hands.
pub(crate) fn values_out<V: Drop, X>(groups: &mut Vec<Group<V, X>>, table: &mut Table<V>)
    requires apart { WriteApart groups.old.items }
    requires empty { All HasEmptyHand groups.old.items }
    ensures hands { AllZip (IsMovedOut (slot_at table.old)) groups.old.items groups.new.items }
    ensures left { EmptiesEach slot_at table.old (some_writes groups.old.items) table.new }
{
    move_groups_out(groups.as_mut_slice(), table);
}

/// Moves what is in the groups' hands back.
pub(crate) fn values_back<V: Drop, X>(groups: &mut Vec<Group<V, X>>, table: &mut Table<V>)
    requires apart { WriteApart groups.old.items }
    requires fit { All FitsGroup groups.old.items }
    ensures hands { AllZip IsLeftEmpty groups.old.items groups.new.items }
    ensures back { All (IsBack (slot_at table.old) (slot_at table.new)) groups.old.items }
    ensures others { StaysOutside (some_writes groups.old.items) slot_at table.old table.new }
{
    move_groups_back(groups.as_mut_slice(), table);
}

/// Runs the groups one after the other, over a table that lies before what is lent shared.
pub(crate) fn run_in_order<
    V: ResourceValue + Drop,
    S: System<V, Error = E>,
    C: BatchController<V, Error = E>,
    E: Drop,
>(
    at: Option<usize>,
    groups: &mut Vec<Group<V, Work<S, Nested<V, S, C>>>>,
    ids: &[ResourceId],
    shelf: &[Shelf<V>],
    table: &Table<V>,
) -> Result<(), StageFault<E>>
    requires before { LiesBefore ids.now shelf.now table.now }
    requires ready { ReadyBefore S.System C.BatchController at table.now shelf.now groups.old }
    ensures ran { RanBefore V.kind_of S.System C.BatchController at table.now shelf.now groups.old result groups.new }
{
    let nearest = behind(table, ids, shelf);
    groups_over(at, groups.as_mut_slice(), &nearest)
}
