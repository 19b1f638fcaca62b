//! Work over the views of the parts of a view, of which the library makes one for each pair of lists.
ghost use Rattle.std.specs.Prelude.{◌≡◌, ◌<◌, OnErr, OnOk, false, length};
ghost use Rattle.std.specs.List.{AllZip};
ghost use Rattle.shred_table.specs.declared.id.ResourceId.{ResourceId};
ghost use Rattle.shred_world.specs.Beside.{lender_of, parted_of, pairs_of, pairs_behind, pair_behind, lent_behind};
ghost use Rattle.shred_world.specs.Parted.{ShowsSame, AllWithin};
ghost use Rattle.shred_table.specs.Parts.{DoNotConflict, reads_of, writes_of, HasNothingOut, HoldsSameIds, IsHandOf};
ghost use Rattle.shred_table.specs.Shown.{IsSameSlots};
ghost use Rattle.shred_world.specs.Views.{may_read, may_write, is_out, table_name, view_slot, view_held, IsSameView};
ghost use Rattle.shred_world.specs.Worked.{KeepsRest, KeepsHeldIds, WorksOver, WorksAt, IsWorkedBehind, IsWorkedParts, IsWorkedIn, KeepsUnwrittenAt};
ghost use Rattle.shred_table.specs.Changes.{StaysOutside, KeepsIdsOf};

use crate::world::parted::Parts;
use crate::world::parts::Behind;
use crate::world::view::View;
use shred_table::accessor::OutOfMemory;
use shred_table::id::ResourceId;
use shred_table::resource::ResourceValue;
use shred_table::table::Table;
use std::alloc::Global;

/// What is done over the view of one part.
pub trait ViewWork<V: ResourceValue> {
    ghost use Rattle.shred_world.specs.OwnViews.{IsLent};
    ghost use Rattle.shred_world.specs.Worked.{Works};

    ghost works: { Works V Self };

    /// Works over the view, which is of just the ids of its two lists, with none of them out. It leaves the same view,
    /// with values under the same ids, and changes none but those that the view may write.
    fn run(&mut self, view: &mut View<V>)
        requires lent { IsLent view.old view.old.reads.now view.old.writes.now }
        ensures works { WorksOver V.kind_of works self.old view.old self.new view.new }
        ensures view { IsSameView view.old view.new }
        ensures frame { StaysOutside (may_write view.old) (view_held V.kind_of) view.old view.new }
        ensures ids { KeepsIdsOf (view_held V.kind_of) view.old view.new };
}

// Works over the view of one part.
fn work_over_one<V: ResourceValue, W: ViewWork<V>>(
    behind: &Behind<V>,
    number: usize,
    hand: &mut Table<V>,
    work: &mut W,
)
    requires number { number < length (pairs_behind behind.now) }
    requires hand { IsHandOf (lent_behind behind.now) (pair_behind behind.now number) hand.old }
    ensures works { WorksAt V.kind_of W.works behind.now number work.old hand.old work.new hand.new }
    ensures frame { KeepsUnwrittenAt V.kind_of behind.now number hand.old hand.new }
    ensures slots { IsSameSlots hand.old hand.new }
    ensures given_back { HasNothingOut hand.new }
    ensures ids { HoldsSameIds V.kind_of hand.old hand.new }
{
    let mut view = behind.view(number, hand);
    work.run(&mut view);
}

// Works over the view of each part, one after the other.
fn work_over_each<V: ResourceValue, W: ViewWork<V>>(
    behind: &Behind<V>,
    hands: &mut [Table<V>],
    work: &mut W,
)
    requires { AllZip (IsHandOf (lent_behind behind.now)) (pairs_behind behind.now) hands.old }
    ensures { IsWorkedBehind V.kind_of W.works behind.now hands.old work.old hands.new work.new }
{
    for i in 0..hands.len() {
        work_over_one(behind, i, &mut hands[i], work);
    }
}

impl<'s, 'a, V: ResourceValue + Drop> View<'s, 'a, V> {
    /// Parts the view, makes a view of each pair's lists, in order, works over each, and joins the parts. Under each id
    /// that a pair writes this view shows then what that pair's view showed last, and all else as before. It holds
    /// values under the same ids. If memory is refused, nothing was done.
    pub fn part_each<W: ViewWork<V>>(
        &mut self,
        alloc: Global,
        pairs: &[(&[ResourceId], &[ResourceId])],
        work: &mut W,
    ) -> Result<(), OutOfMemory>
        requires nothing_out { (id : ResourceId) → is_out self.old id ≡ false }
        requires reads_within { AllWithin reads_of (may_read self.old) pairs.now }
        requires writes_within { AllWithin writes_of (may_write self.old) pairs.now }
        requires apart { DoNotConflict pairs.now }
        ensures same { IsSameView self.old self.new }
        ensures worked { OnOk result (IsWorkedIn V.kind_of W.works pairs.now self.old work.old self.new work.new) }
        ensures rest { KeepsRest pairs.now (view_held V.kind_of self.old) (view_held V.kind_of self.new) }
        ensures ids { KeepsHeldIds (view_held V.kind_of self.old) (view_held V.kind_of self.new) }
        ensures refused { OnErr result (ShowsSame self.old self.new) }
        ensures not_begun { OnErr result (work.new ≡ work.old) }
    {
        let mut parts = match self.part(alloc, pairs) {
            Ok(parts) => parts,
            Err(error) => return Err(error),
        };
        self.work_parted(&mut parts, work);
        parts.join(self);
        Ok(())
    }

    // Works over the hands of parts, and over what lies behind them: what the view shows now.
    fn work_parted<W: ViewWork<V>>(&self, parts: &mut Parts<V>, work: &mut W)
        requires lender { table_name self.now ≡ lender_of parts.old }
        requires hands { AllZip (IsHandOf (view_slot self.now)) (pairs_of parts.old) parts.old.hands.items }
        ensures worked { IsWorkedParts V.kind_of W.works (view_slot self.now) parts.old work.old parts.new work.new }
        ensures lender { lender_of parts.new ≡ lender_of parts.old }
        ensures parted { parted_of parts.new ≡ parted_of parts.old }
        ensures pairs { pairs_of parts.new ≡ pairs_of parts.old }
    {
        let behind = parts.behind(self);
        work_over_each(&behind, parts.hands.as_mut_slice(), work);
    }
}
