//! One step of a system over all that a table holds, outside of a plan.
ghost use Rattle.std.specs.Prelude.{◌≡◌, IfOk};
ghost use Rattle.shred_run.specs.Alone.{KeepsKinds, KeepsLists};
ghost use Rattle.shred_run.specs.declared.alone.Room.{Room};
ghost use Rattle.shred_table.specs.Parting.{IsEmptyHand};
ghost use Rattle.shred_table.specs.Shown.{IsSameSlots};
ghost use Rattle.shred_table.specs.Slots.{slot_at, held};
ghost use Rattle.shred_run.specs.Kept.{AreOwnLists};
ghost use Rattle.shred_run.specs.OwnSlots.{HasOnlySlots};
ghost use Rattle.shred_table.specs.Shown.{HasOwnSlots};
ghost use Rattle.shred_run.specs.SystemSteps.{SteppedInHand, SteppedOver, RanAlone};

use crate::calls::{Run, call_over};
use crate::loan::Loan;
use crate::system::{Fault, System};
use shred_world::parting::{empty_hand, move_each, move_home};
use shred_world::{Accessor, OutOfMemory, ResourceId, ResourceValue, Shelf, Table};
use std::alloc::Global;

// What one step needs: the system's lists, and a hand for what it writes.
#[derive(Drop)]
struct Room<V> {
    reads: Vec<ResourceId>,
    writes: Vec<ResourceId>,
    hand: Table<V>,
}

// The room for a step of the system.
fn room_for<V: ResourceValue + Drop, S: System<V>>(
    alloc: Global,
    system: &S,
) -> Result<Room<V>, OutOfMemory>
    ensures reads { IfOk result (λ room. room.reads.items ≡ S.reads system.now) }
    ensures writes { IfOk result (λ room. room.writes.items ≡ S.writes system.now) }
    ensures hand { IfOk result (λ room. IsEmptyHand room.writes.items room.hand) }
{
    let accessor = system.accessor(alloc)?;
    let reads = accessor.reads(alloc)?;
    let writes = accessor.writes(alloc)?;
    let hand = empty_hand(alloc, writes.as_slice())?;
    Ok(Room {
        reads,
        writes,
        hand,
    })
}

// The step over the hand, while the table is lent shared behind it.
fn step_before<V: ResourceValue, S: System<V>>(
    reads: &[ResourceId],
    writes: &[ResourceId],
    table: &Table<V>,
    system: &mut S,
    hand: &mut Table<V>,
) -> Result<(), Fault<S::Error>>
    requires own_lists { AreOwnLists (S.reads system.old) (S.writes system.old) reads.now writes.now }
    requires own_slots { HasOwnSlots writes.now (slot_at table.now) hand.old }
    requires only_own { HasOnlySlots writes.now hand.old }
    ensures { SteppedInHand V.kind_of S.System reads.now writes.now table.now system.old hand.old result system.new hand.new }
{
    let shelf = &[Shelf::Last(table)];
    let loan = Loan {
        reads,
        writes,
        shelf,
    };
    call_over(&Run, &loan, system, hand)
}

// The step, with what it writes moved into the hand before, and back after.
fn step_in<V: ResourceValue + Drop, S: System<V>>(
    room: &mut Room<V>,
    system: &mut S,
    table: &mut Table<V>,
) -> Result<(), Fault<S::Error>>
    requires reads { room.old.reads.items ≡ S.reads system.old }
    requires writes { room.old.writes.items ≡ S.writes system.old }
    requires hand { IsEmptyHand room.old.writes.items room.old.hand }
    ensures lists { KeepsLists S.reads S.writes system.old system.new }
    ensures slots { IsSameSlots table.old table.new }
    ensures step { SteppedOver V.kind_of S.System system.old table.old result system.new table.new }
{
    move_each(table, room.writes.as_slice(), &mut room.hand);
    let outcome = step_before(
        room.reads.as_slice(),
        room.writes.as_slice(),
        table,
        system,
        &mut room.hand,
    );
    move_home(&mut room.hand, room.writes.as_slice(), table);
    outcome
}

/// One step of the system over what the table holds, under the lists that it declares. Where there is no memory for these,
/// the answer is `OutOfMemory`, and nothing is done.
pub fn run_alone<V: ResourceValue + Drop, S: System<V>>(
    alloc: Global,
    system: &mut S,
    table: &mut Table<V>,
) -> Result<(), Fault<S::Error>>
    ensures ran { RanAlone V.kind_of S.System system.old table.old result system.new table.new }
    ensures kinds { KeepsKinds V.kind_of (held V.kind_of table.old) (held V.kind_of table.new) }
    ensures slots { IsSameSlots table.old table.new }
{
    let mut room = room_for(alloc, system)?;
    step_in(&mut room, system, table)
}
