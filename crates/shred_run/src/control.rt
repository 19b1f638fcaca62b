//! A batch's controller, with what was kept of it, and its calls over a table that lies before what is lent shared.
ghost use Rattle.std.specs.Prelude.{◌≡◌};
ghost use Rattle.shred_run.specs.KeptControllers.{control_access, IsOwnControl};
ghost use Rattle.shred_run.specs.OwnSlots.{HasOnlySlots, LiesBefore};
ghost use Rattle.shred_table.specs.declared.id.ResourceId.{ResourceId};
ghost use Rattle.shred_table.specs.Shown.{IsSameSlots};
ghost use Rattle.shred_run.specs.LoanCalls.{HasOwnLists, HasHandSlots, WritesWithin, IsCallInHand, IsKeptCall};

use crate::calls::{Call, call_over};
use crate::loan::{Loan, behind};
use crate::system::Fault;
use shred_world::parting::{move_each, move_home};
use shred_world::{ResourceId, ResourceValue, Table};

/// A controller, with the two lists that it declares, and a slot for each id that it writes, into which the value is moved
/// while it is called.
#[derive(Drop)]
pub struct KeptController<V, C> {
    pub controller: C,
    pub reads: Vec<ResourceId>,
    pub writes: Vec<ResourceId>,
    pub hand: Table<V>,
}

// One call of the controller over its hand, while the table is lent shared.
fn call_in_hand<V: ResourceValue, C, A, E, K: Call<V, C, A, E>>(
    call: &K,
    entry: &mut KeptController<V, C>,
    loan: &Loan<V>,
    own: &Table<V>,
) -> Result<A, Fault<E>>
    requires own_lists { HasOwnLists K.reads_of K.writes_of entry.old }
    requires has { LiesBefore loan.now.writes.now loan.now.shelf.now own.now }
    requires hand_slots { HasHandSlots loan.now own.now entry.old }
    requires only_hand { HasOnlySlots entry.old.writes.items entry.old.hand }
    ensures called { IsCallInHand V.kind_of K.reads_of K.writes_of K.does loan.now own.now entry.old result entry.new }
    ensures reads { entry.new.reads ≡ entry.old.reads }
    ensures writes { entry.new.writes ≡ entry.old.writes }
{
    let writes = loan.writes;
    let shelf = loan.shelf;
    let nearest = behind(own, writes, shelf);
    let in_hand = Loan {
        reads: entry.reads.as_slice(),
        writes: entry.writes.as_slice(),
        shelf: &nearest,
    };
    call_over(call, &in_hand, &mut entry.controller, &mut entry.hand)
}

/// One call of the controller. What it writes is moved into its hand before, and back after, so all else can be lent
/// shared.
pub fn call_kept<V: ResourceValue + Drop, C, A, E, K: Call<V, C, A, E>>(
    entry: &mut KeptController<V, C>,
    call: &K,
    loan: &Loan<V>,
    own: &mut Table<V>,
) -> Result<A, Fault<E>>
    requires own_lists { IsOwnControl K.reads_of K.writes_of entry.old }
    requires writes_within { WritesWithin loan.now entry.old }
    requires has { LiesBefore loan.now.writes.now loan.now.shelf.now own.old }
    ensures ran { IsKeptCall V.kind_of K.does loan.now entry.old own.old result entry.new own.new }
    ensures slots { IsSameSlots own.old own.new }
    ensures own_lists { IsOwnControl K.reads_of K.writes_of entry.new }
    ensures access { control_access entry.new ≡ control_access entry.old }
{
    move_each(own, entry.writes.as_slice(), &mut entry.hand);
    let answer = call_in_hand(call, entry, loan, own);
    move_home(&mut entry.hand, entry.writes.as_slice(), own);
    answer
}
