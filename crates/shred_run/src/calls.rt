//! The run of a system and the two calls of a controller, over a table and what is lent behind it.
ghost use Rattle.std.specs.Prelude.{◌≡◌, List};
ghost use Rattle.shred_run.specs.OwnSlots.{LendsSome, LiesBefore};
ghost use Rattle.shred_run.specs.Controls.{keeping};
ghost use Rattle.shred_run.specs.Kept.{AreOwnLists};
ghost use Rattle.shred_table.specs.declared.id.ResourceId.{ResourceId};
ghost use Rattle.shred_table.specs.Changes.{StaysOutside, KeepsIdsOf};
ghost use Rattle.shred_world.specs.Between.{OverView};
ghost use Rattle.shred_run.specs.LoanCalls.{IsCallOver};

use crate::controller::BatchController;
use crate::loan::Loan;
use crate::system::{Fault, System};
use shred_world::{ResourceValue, Table, View};

/// One call of a `C` over a view of the ids that it declares, which answers an `A`.
pub trait Call<V: ResourceValue, C, A, E> {
    ghost use Rattle.shred_world.specs.OwnViews.{IsLent};
    ghost use Rattle.shred_run.specs.Controls.{Control};
    ghost use Rattle.shred_world.specs.Views.{view_held, may_write, table_name, IsSameView};

    ghost reads_of: { C → List ResourceId };

    ghost writes_of: { C → List ResourceId };

    ghost does: { Control V C A E };

    /// The call. It gives back what it took, keeps every id, and changes nothing but what the view may write.
    fn call(&self, on: &mut C, view: &mut View<V>) -> Result<A, Fault<E>>
        requires lent { IsLent view.old (reads_of on.old) (writes_of on.old) }
        ensures does { OverView V.kind_of does on.old view.old result on.new view.new }
        ensures table { table_name view.new ≡ table_name view.old }
        ensures view { IsSameView view.old view.new }
        ensures ids { KeepsIdsOf (view_held V.kind_of) view.old view.new }
        ensures frame { StaysOutside (may_write view.old) (view_held V.kind_of) view.old view.new }
        ensures reads { reads_of on.new ≡ reads_of on.old }
        ensures writes { writes_of on.new ≡ writes_of on.old };
}

/// The `begin` of a controller.
#[derive(Drop)]
pub struct Begin;

impl<V: ResourceValue, C: BatchController<V, Error = E>, E> Call<V, C, usize, E> for Begin {
    ghost reads_of = { C.reads };

    ghost writes_of = { C.writes };

    ghost does = { keeping C.reads C.writes C.begins };

    fn call(&self, on: &mut C, view: &mut View<V>) -> Result<usize, Fault<E>> {
        on.begin(view)
    }
}

/// The `again` of a controller.
#[derive(Drop)]
pub struct Ask;

impl<V: ResourceValue, C: BatchController<V, Error = E>, E> Call<V, C, bool, E> for Ask {
    ghost reads_of = { C.reads };

    ghost writes_of = { C.writes };

    ghost does = { keeping C.reads C.writes C.asks };

    fn call(&self, on: &mut C, view: &mut View<V>) -> Result<bool, Fault<E>> {
        on.again(view)
    }
}

/// The run of a system.
#[derive(Drop)]
pub struct Run;

impl<V: ResourceValue, S: System<V, Error = E>, E> Call<V, S, (), E> for Run {
    ghost reads_of = { S.reads };

    ghost writes_of = { S.writes };

    ghost does = { keeping S.reads S.writes S.step };

    #[inline(always)]
    fn call(&self, on: &mut S, view: &mut View<V>) -> Result<(), Fault<E>> {
        on.run(view)
    }
}

/// The call, over a table that has what may be written and nothing else, before what is lent shared.
#[inline(always)]
pub fn call_over<V: ResourceValue, C, A, E, K: Call<V, C, A, E>>(
    call: &K,
    loan: &Loan<V>,
    on: &mut C,
    own: &mut Table<V>,
) -> Result<A, Fault<E>>
    requires own_lists { AreOwnLists (K.reads_of on.old) (K.writes_of on.old) loan.now.reads.now loan.now.writes.now }
    requires has { LiesBefore loan.now.writes.now loan.now.shelf.now own.old }
    requires behind { LendsSome loan.now.shelf.now }
    ensures { IsCallOver V.kind_of K.reads_of K.writes_of K.does loan.now on.old own.old result on.new own.new }
{
    let reads = loan.reads;
    let writes = loan.writes;
    let shelf = loan.shelf;
    let mut view = View::over(reads, writes, shelf, own);
    call.call(on, &mut view)
}
