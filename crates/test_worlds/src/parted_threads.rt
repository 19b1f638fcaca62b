//! Two parts that are worked over beside each other, each in a half of a fork.
ghost use Rattle.std.specs.Prelude.{◌≡◌, ◌<◌, ℕ, false, is_some, length};
ghost use Rattle.std.specs.Thread.{IsSync};
ghost use Rattle.shred_world.specs.Beside.{pairs_behind, pair_behind, lent_behind};
ghost use Rattle.shred_table.specs.Id.{id_of};
ghost use Rattle.shred_table.specs.Parts.{HasNothingOut, HoldsSameIds, IsHandOf};
ghost use Rattle.shred_table.specs.Shown.{IsSameSlots};
ghost use Rattle.shred_table.specs.declared.id.ResourceId.{ResourceId};
ghost use Rattle.shred_world.specs.Views.{view_held, may_write, IsSameView};
ghost use Rattle.test_values.specs.Values.{kind_of, count_kind};

use crate::parted_in_two::{OverTwo, TwoCounts, TwoOut, over_parts};
use shred_world::{Behind, Kind, OutOfMemory, ResourceId, Table, View, World};
use std::alloc::Global;
use std::thread::{Threads, join_mut};
use test_values::{Count, Value};

/// What may be worked over beside another of its kind, over something that both look at.
trait Half<K> {
    ghost fits: { K → ℕ → Self → Type 0 };

    ghost worked: { Self → Self → Type 0 };

    fn work(&mut self, shared: &K, number: usize)
        requires { fits shared.now number self.old }
        ensures { worked self.old self.new };
}

// Works over both, the first on a thread of its own where one can be started, and the second on the caller's.
fn work_both<R: Threads + Sync, K: Sync, H: Half<K> + Send>(
    rt: &R,
    shared: &K,
    one: &mut H,
    two: &mut H,
)
    requires one { H.fits shared.now 0 one.old }
    requires two { H.fits shared.now 1 two.old }
    ensures one { H.worked one.old one.new }
    ensures two { H.worked two.old two.new }
{
    join_mut(
        rt,
        &mut || -> ()
            requires { IsSync K.row × H.fits shared.now 0 one.now }
            ensures { H.worked one.entry.now one.exit.now }
        { one.work(shared, 0) },
        &mut || -> ()
            requires { IsSync K.row × H.fits shared.now 1 two.now }
            ensures { H.worked two.entry.now two.exit.now }
        { two.work(shared, 1) },
    );
}

// The id of the count of a part's number.
fn count_id(number: usize) -> ResourceId
    ensures { result ≡ id_of count_kind number }
{
    ResourceId::from_type_id_and_dynamic_id(Kind(0), number as u64)
}

// Adds one to the count under the id, where the view lets it be written.
fn add(view: &mut View<Value>, id: ResourceId)
    ensures view { IsSameView view.old view.new }
    ensures frame { (q : ResourceId) → may_write view.old q ≡ false → view_held kind_of view.new q ≡ view_held kind_of view.old q }
    ensures ids { (q : ResourceId) → is_some (view_held kind_of view.new q) ≡ is_some (view_held kind_of view.old q) }
{
    let Ok(count) = view.write::<Count>(id) else {
        return;
    };
    count.0 = count.0.wrapping_add(1);
}

impl<'p, 'b> Half<Behind<'p, 'b, Value>> for Table<Value> {
    ghost fits = { λ behind number hand. (number < length (pairs_behind behind)) × IsHandOf (lent_behind behind) (pair_behind behind number) hand };

    ghost worked = { λ old new. IsSameSlots old new × HasNothingOut new × HoldsSameIds kind_of old new };

    // Adds one to the count of the part's number, over a view of the part.
    fn work(&mut self, behind: &Behind<'p, 'b, Value>, number: usize) {
        let mut view = behind.view(number, self);
        add(&mut view, count_id(number));
    }
}

#[derive(Drop)]
struct AddingBeside<'r, R> {
    rt: &'r R,
}

impl<'r, R: Threads + Sync> OverTwo for AddingBeside<'r, R> {
    ghost needs = { IsSync R.row };

    fn run(&mut self, behind: &Behind<Value>, one: &mut Table<Value>, two: &mut Table<Value>) {
        work_both(self.rt, behind, one, two);
    }
}

/// Adds one to the counts of numbers 0 and 1, which two parts write, beside each other, and gives back their hands.
pub fn add_beside<R: Threads + Sync>(
    rt: &R,
    alloc: Global,
    world: &mut World<Value>,
) -> Result<(TwoOut, Vec<Table<Value>>), OutOfMemory> {
    let first = count_id(0);
    let second = count_id(1);
    let one = [first];
    let two = [second];
    let pairs: [(&[ResourceId], &[ResourceId]); 2] = [(&[], &one), (&[], &two)];
    let both = [first, second];
    let mut view = world.lend(&[], &both);
    let counts = TwoCounts { first, second };
    let none = Vec::new(alloc);
    over_parts(
        alloc,
        &mut view,
        &pairs,
        none,
        counts,
        &mut AddingBeside { rt },
    )
}

/// The same in the room of these hands, where the first part writes the count of number 2, too.
pub fn add_beside_in<R: Threads + Sync>(
    rt: &R,
    alloc: Global,
    world: &mut World<Value>,
    hands: Vec<Table<Value>>,
) -> Result<(TwoOut, Vec<Table<Value>>), OutOfMemory> {
    let first = count_id(0);
    let second = count_id(1);
    let one = [first, count_id(2)];
    let two = [second];
    let pairs: [(&[ResourceId], &[ResourceId]); 2] = [(&[], &one), (&[], &two)];
    let all = [first, second, count_id(2)];
    let mut view = world.lend(&[], &all);
    let counts = TwoCounts { first, second };
    over_parts(
        alloc,
        &mut view,
        &pairs,
        hands,
        counts,
        &mut AddingBeside { rt },
    )
}
