//! Moving what groups write into their hands, and back.
ghost use Rattle.std.specs.Prelude.{◌≡◌, All};
ghost use Rattle.std.specs.List.{AllZip};
ghost use Rattle.shred_table.specs.Parting.{table_value};
ghost use Rattle.shred_table.specs.Slots.{slot_at, among};
ghost use Rattle.shred_run.specs.Hands.{HasEmptyHand, WriteApart, some_writes, FitsGroup, IsBack, IsMovedOut, IsLeftEmpty};
ghost use Rattle.shred_table.specs.Changes.{StaysOutside, EmptiesEach, ReceivesEach};

use crate::entry::Group;
use shred_world::Table;
use shred_world::parting::{move_each, move_home};

impl<V: Drop, S> Group<V, S> {
    // Moves what the group writes into its hand.
    fn move_out(&mut self, table: &mut Table<V>)
        requires { HasEmptyHand self.old }
        ensures hand { IsMovedOut (slot_at table.old) self.old self.new }
        ensures left { EmptiesEach slot_at table.old (among self.old.written.items) table.new }
    {
        move_each(table, self.written.as_slice(), &mut self.hand);
    }

    // Moves what is in the group's hand back.
    fn move_back(&mut self, table: &mut Table<V>)
        requires { FitsGroup self.old }
        ensures hand { IsLeftEmpty self.old self.new }
        ensures back { ReceivesEach slot_at table.old (table_value self.old.hand) (among self.old.written.items) table.new }
    {
        move_home(&mut self.hand, self.written.as_slice(), table);
    }
}

// Moves what the groups write into their hands; the slots stay, empty.
pub fn move_groups_out<V: Drop, S>(groups: &mut [Group<V, S>], table: &mut Table<V>)
    requires apart { WriteApart groups.old }
    requires empty { All HasEmptyHand groups.old }
    ensures hands { AllZip (IsMovedOut (slot_at table.old)) groups.old groups.new }
    ensures left { EmptiesEach slot_at table.old (some_writes groups.old) table.new }
{
    table.rewind();
    for group in groups.iter_mut() {
        group.move_out(table);
    }
}

// Moves what is in the groups' hands back into the slots that it left.
pub fn move_groups_back<V: Drop, S>(groups: &mut [Group<V, S>], table: &mut Table<V>)
    requires apart { WriteApart groups.old }
    requires fit { All FitsGroup groups.old }
    ensures hands { AllZip IsLeftEmpty groups.old groups.new }
    ensures back { All (IsBack (slot_at table.old) (slot_at table.new)) groups.old }
    ensures others { StaysOutside (some_writes groups.old) slot_at table.old table.new }
{
    for group in groups.iter_mut() {
        group.move_back(table);
    }
}
