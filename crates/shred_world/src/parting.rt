//! Moving the values of some ids from a table into another one, and back.
ghost use Rattle.std.specs.Prelude.{◌≡◌};
ghost use Rattle.std.specs.Borrow.{sem};
ghost use Rattle.shred_world.specs.Lent.{LendsLocalTwin};
ghost use Rattle.shred_table.specs.Slots.{slot_at};
ghost use Rattle.shred_table.specs.Twins.{IsSettled};
ghost use Rattle.shred_table.specs.declared.id.ResourceId.{ResourceId};
ghost use Rattle.shred_world.specs.Worlds.{local_slot, twin_of_local};

use crate::world::local::LocalWorld;
pub use shred_table::parting::{empty_hand, move_back, move_each, move_home, move_out};
use shred_table::twin::Twin;

/// The table behind what a world holds, in which all its values are, and the empty hand beside it, for those who lend views of
/// them. `shred` gives none of these functions again, so by its names alone no slot of a world can be emptied.
pub fn twin_of_local<V: Drop>(local: &mut LocalWorld<V>) -> &mut Twin<V>
    ensures table { (q : ResourceId) → slot_at result.now.table q ≡ local_slot local.old q }
    ensures settled { IsSettled result.now }
    ensures* back { sem 𝓛 (LendsLocalTwin V.row local.entry result) }
{
    local.opened()
}

/// Notes that the hand is empty again, after the table was lent by `twin_of_local`. Where this is left out, the next call that
/// lends the table looks for values in the hand.
pub fn keep<V>(local: &mut LocalWorld<V>)
    requires { IsSettled (twin_of_local local.old) }
    ensures { (q : ResourceId) → local_slot local.new q ≡ local_slot local.old q }
{
    local.keep();
}
