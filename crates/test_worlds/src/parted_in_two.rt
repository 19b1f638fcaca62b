//! Work over the hands of two parts, and the parting and joining around it.
ghost use Rattle.std.specs.Prelude.{◌≡◌, IsTrue, false, length};
ghost use Rattle.std.specs.List.{All, AllZip};
ghost use Rattle.shred_world.specs.Beside.{pairs_behind, pair_behind, lent_behind};
ghost use Rattle.shred_table.specs.Parts.{DoNotConflict, HasNothingOut, HoldsSameIds, IsHandOf, reads_of, writes_of};
ghost use Rattle.shred_table.specs.Shown.{IsSameSlots};
ghost use Rattle.shred_table.specs.Slots.{among};
ghost use Rattle.shred_table.specs.declared.id.ResourceId.{ResourceId};
ghost use Rattle.shred_world.specs.Views.{may_read, may_write, is_out, view_held, IsSameView};
ghost use Rattle.shred_world.specs.Worked.{KeepsHeldIds};
ghost use Rattle.test_values.specs.Values.{kind_of};

use shred_world::{Behind, DataError, OutOfMemory, ResourceId, Table, View};
use std::alloc::Global;
use test_values::{Count, Value};

/// What is done over the hands of two parts. It gives back what it took out of them, and they hold the same ids after.
pub trait OverTwo {
    ghost needs: { Type 0 };

    fn run(&mut self, behind: &Behind<Value>, one: &mut Table<Value>, two: &mut Table<Value>)
        requires needs { needs }
        requires parts { length (pairs_behind behind.now) ≡ 2 }
        requires front { IsHandOf (lent_behind behind.now) (pair_behind behind.now 0) one.old }
        requires back { IsHandOf (lent_behind behind.now) (pair_behind behind.now 1) two.old }
        ensures one { IsSameSlots one.old one.new }
        ensures two { IsSameSlots two.old two.new }
        ensures one_given_back { HasNothingOut one.new }
        ensures two_given_back { HasNothingOut two.new }
        ensures first_ids { HoldsSameIds kind_of one.old one.new }
        ensures second_ids { HoldsSameIds kind_of two.old two.new };
}

/// The ids of two counts.
#[derive(Clone, Copy)]
pub struct TwoCounts {
    pub first: ResourceId,
    pub second: ResourceId,
}

/// Which of two counts were out of the view before its parts were joined.
#[derive(Clone, Copy)]
pub struct TwoOut {
    pub first: bool,
    pub second: bool,
}

// Works over two hands.
fn over_hands<W: OverTwo>(behind: &Behind<Value>, hands: &mut [Table<Value>], work: &mut W)
    requires needs { W.needs }
    requires parts { length (pairs_behind behind.now) ≡ 2 }
    requires two { length hands.old ≡ 2 }
    requires hands { AllZip (IsHandOf (lent_behind behind.now)) (pairs_behind behind.now) hands.old }
    ensures slots { AllZip IsSameSlots hands.old hands.new }
    ensures given_back { All HasNothingOut hands.new }
    ensures ids { AllZip (HoldsSameIds kind_of) hands.old hands.new }
{
    let (front, back) = hands.split_at_mut(1);
    work.run(behind, &mut front[0], &mut back[0]);
}

// Whether the count is out of the view.
fn is_taken(view: &View<Value>, id: ResourceId) -> bool {
    view.read::<Count>(id).copied() == Err(DataError::Taken(id))
}

/// Parts the view in two in the room of these hands, works over the two hands, joins the parts, and gives the hands back.
pub fn over_parts<W: OverTwo>(
    alloc: Global,
    view: &mut View<Value>,
    pairs: &[(&[ResourceId], &[ResourceId])],
    hands: Vec<Table<Value>>,
    counts: TwoCounts,
    work: &mut W,
) -> Result<(TwoOut, Vec<Table<Value>>), OutOfMemory>
    requires needs { W.needs }
    requires nothing_out { (id : ResourceId) → is_out view.old id ≡ false }
    requires reads_within { All (λ p. (id : ResourceId) → IsTrue (among (reads_of p) id) → IsTrue (may_read view.old id)) pairs.now }
    requires writes_within { All (λ p. (id : ResourceId) → IsTrue (among (writes_of p) id) → IsTrue (may_write view.old id)) pairs.now }
    requires apart { DoNotConflict pairs.now }
    requires two { length pairs.now ≡ 2 }
    ensures same { IsSameView view.old view.new }
    ensures ids { KeepsHeldIds (view_held kind_of view.old) (view_held kind_of view.new) }
{
    let mut parts = match view.part_with(alloc, pairs, hands) {
        Ok(parts) => parts,
        Err(error) => return Err(error),
    };
    let behind = parts.behind(view);
    over_hands(&behind, parts.hands.as_mut_slice(), work);
    let out = TwoOut {
        first: is_taken(view, counts.first),
        second: is_taken(view, counts.second),
    };
    Ok((out, parts.join(view)))
}
