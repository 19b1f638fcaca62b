//! What is lent to a step, and tables that lie before what is lent shared.
ghost use Rattle.std.specs.Prelude.{◌≡◌};
ghost use Rattle.shred_run.specs.OwnSlots.{lent_before, LiesBefore};
ghost use Rattle.shred_table.specs.declared.id.ResourceId.{ResourceId};
ghost use Rattle.shred_world.specs.Views.{lent_slot};

use shred_world::{ResourceId, Shelf, Table};

/// The two lists of an entry, and what is lent shared to its step: nothing, to a batch that runs over a world's table.
#[derive(Drop)]
pub struct Loan<'s, V> {
    pub reads: &'s [ResourceId],
    pub writes: &'s [ResourceId],
    pub shelf: &'s [Shelf<'s, V>],
}

/// What lies behind a hand: the table, before what is lent shared. Where anything is lent, the listed ids alone are looked for
/// in the table.
pub fn behind<'s, V>(
    own: &'s Table<V>,
    ids: &'s [ResourceId],
    shelf: &'s [Shelf<'s, V>],
) -> [Shelf<'s, V>; 1]
    requires { LiesBefore ids.now shelf.now own.now }
    ensures { (id : ResourceId) → lent_slot result id ≡ lent_before own.now (lent_slot shelf.now) id }
{
    [Shelf::before(own, ids, shelf)]
}
