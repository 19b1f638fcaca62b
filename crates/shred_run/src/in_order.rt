//! One step of what stands in an entry, whose inner plans lead back here: one circle of functions, on the caller's thread.
ghost use Rattle.std.specs.Prelude.{◌≡◌, ◌-◌, [], ◌∷◌, true, false, All};
ghost use Rattle.shred_model.specs.Beside.{AreApart};
ghost use Rattle.shred_model.specs.Plan.{group_access};
ghost use Rattle.shred_run.specs.Hands.{HasEntryRoom, HasPlace, KeepsRoom, some_writes};
ghost use Rattle.shred_run.specs.OneBatch.{is_batch, is_one_batch};
ghost use Rattle.shred_run.specs.OwnLists.{IsEntryOf, IsGroupOf};
ghost use Rattle.shred_run.specs.OwnSlots.{HasJustSlots, HasSlotsFor, LendsSome, LiesBefore};
ghost use Rattle.shred_run.specs.PlanOf.{entry_plan, groups_plan};
ghost use Rattle.shred_run.specs.Depths.{lists_of};
ghost use Rattle.shred_run.specs.Rules.{RuleOwns};
ghost use Rattle.shred_table.specs.declared.id.ResourceId.{ResourceId};
ghost use Rattle.shred_table.specs.Shown.{HasOwnSlots, IsSameSlots};
ghost use Rattle.shred_world.specs.Views.{lent_slot};
ghost use Rattle.shred_run.specs.Circles.{BatchFits, BatchRan, EntryStepped, GroupRan, GroupReady, GroupsOwn, GroupsRan, GroupsReady, GroupsTurned, PartsFit, PartsStay, RoundsRan, StageOwns, StageTurned, TierFits, TierTurned, TiersFit, TiersRan, TiersStay, WorkStepped};

use crate::calls::{Ask, Begin, Run, call_over};
use crate::control::{KeptController, call_kept};
use crate::controller::BatchController;
use crate::depth::depth_by;
use crate::entry::{Group, GroupEntry, StageFault};
use crate::fork::run_lanes_in_order;
use crate::hands::{move_groups_back, move_groups_out};
use crate::loan::{Loan, behind};
use crate::one_batch::is_lone_batch;
use crate::system::{Fault, System};
use crate::work::{Batch, Nested, Tier, Work, within};
use shred_world::parting::{move_back, move_out};
use shred_world::{ResourceId, ResourceValue, Shelf, Table};

// One step of what stands in an entry, a system or a batch, over a table that lies before what is lent shared. Nothing need be
// lent to a batch: it lends its groups and its controller the table, out of which it moved what they write.
#[inline(always)]
#[cycle(in_order)]
fn run_work<
    's,
    V: ResourceValue + Drop,
    S: System<V, Error = E>,
    C: BatchController<V, Error = E>,
    E: Drop,
>(
    at: Option<usize>,
    reads: &'s [ResourceId],
    writes: &'s [ResourceId],
    shelf: &'s [Shelf<'s, V>],
    work: &mut Work<S, Nested<V, S, C>>,
    own: &mut Table<V>,
) -> Result<(), Fault<E>>
    requires own_lists { (RuleOwns (lists_of S.System C.BatchController) at) work.old reads.now writes.now }
    requires before { LiesBefore writes.now shelf.now own.old }
    requires behind { is_batch work.old ≡ false → LendsSome shelf.now }
    ensures stepped { WorkStepped V.kind_of S.System C.BatchController at reads.now writes.now shelf.now work.old own.old result work.new own.new }
{
    let depth = depth_by(at, work);
    match work {
        Work::System(system) => {
            let loan = Loan {
                reads,
                writes,
                shelf,
            };
            call_over(&Run, &loan, system, own)
        }
        Work::Batch(nested) => run_batch(depth - 1, &mut nested.batch, reads, writes, shelf, own),
    }
}

// A run of a batch: its controller begins, and the rounds follow. It stands apart, and makes the loan itself, so that a system's
// step takes no stack for it.
#[inline(never)]
#[cycle(in_order)]
fn run_batch<
    's,
    V: ResourceValue + Drop,
    S: System<V, Error = E>,
    C: BatchController<V, Error = E>,
    E: Drop,
>(
    less: usize,
    batch: &mut Batch<V, C, Work<S, Nested<V, S, C>>>,
    reads: &'s [ResourceId],
    writes: &'s [ResourceId],
    shelf: &'s [Shelf<'s, V>],
    own: &mut Table<V>,
) -> Result<(), Fault<E>>
    requires before { LiesBefore writes.now shelf.now own.old }
    requires within { BatchFits S.System C.BatchController less reads.now writes.now batch.old }
    ensures { BatchRan V.kind_of S.System C.BatchController less reads.now writes.now shelf.now batch.old own.old result batch.new own.new }
{
    let loan = Loan {
        reads,
        writes,
        shelf,
    };
    match call_kept(&mut batch.control, &Begin, &loan, own) {
        Ok(most) => rounds(
            less,
            &loan,
            &mut batch.control,
            batch.tiers.as_mut_slice(),
            own,
            most,
        ),
        Err(fault) => Err(fault),
    }
}

// At most that many rounds.
#[cycle(in_order)]
fn rounds<
    V: ResourceValue + Drop,
    S: System<V, Error = E>,
    C: BatchController<V, Error = E>,
    E: Drop,
>(
    less: usize,
    loan: &Loan<V>,
    control: &mut KeptController<V, C>,
    tiers: &mut [Tier<V, Work<S, Nested<V, S, C>>>],
    own: &mut Table<V>,
    most: usize,
) -> Result<(), Fault<E>>
    requires has { LiesBefore loan.now.writes.now loan.now.shelf.now own.old }
    requires parts { PartsFit S.System C.BatchController less loan.now control.old tiers.old }
    ensures ran { RoundsRan V.kind_of S.System C.BatchController less loan.now most control.old tiers.old own.old result control.new tiers.new own.new }
    ensures kept { PartsStay V.kind_of S.System C.BatchController less loan.now control.old tiers.old own.old control.new tiers.new own.new }
{
    for round in 0..most {
        match call_kept(control, &Ask, loan, own) {
            Ok(true) => {
                if let Err(fault) = run_tiers(less, loan, tiers, own) {
                    return Err(within(fault));
                }
            }
            Ok(false) => return Ok(()),
            Err(fault) => return Err(fault),
        }
    }
    Ok(())
}

// The turns of the tiers, in order, up to the first that is not Done.
#[cycle(in_order)]
fn run_tiers<
    V: ResourceValue + Drop,
    S: System<V, Error = E>,
    C: BatchController<V, Error = E>,
    E: Drop,
>(
    less: usize,
    loan: &Loan<V>,
    tiers: &mut [Tier<V, Work<S, Nested<V, S, C>>>],
    own: &mut Table<V>,
) -> Result<(), StageFault<E>>
    requires has { LiesBefore loan.now.writes.now loan.now.shelf.now own.old }
    requires within { TiersFit S.System C.BatchController less loan.now tiers.old }
    ensures ran { TiersRan V.kind_of S.System C.BatchController less loan.now tiers.old own.old result tiers.new own.new }
    ensures kept { TiersStay V.kind_of S.System C.BatchController less loan.now tiers.old own.old tiers.new own.new }
{
    for tier in tiers.iter_mut() {
        if let Err(fault) = turn(less, tier, loan, own) {
            return Err(fault);
        }
    }
    Ok(())
}

// The turn of a tier.
#[cycle(in_order)]
fn turn<
    V: ResourceValue + Drop,
    S: System<V, Error = E>,
    C: BatchController<V, Error = E>,
    E: Drop,
>(
    less: usize,
    tier: &mut Tier<V, Work<S, Nested<V, S, C>>>,
    loan: &Loan<V>,
    own: &mut Table<V>,
) -> Result<(), StageFault<E>>
    requires has { LiesBefore loan.now.writes.now loan.now.shelf.now own.old }
    requires within { TierFits S.System C.BatchController less loan.now tier.old }
    ensures { TierTurned V.kind_of S.System C.BatchController less loan.now tier.old own.old result tier.new own.new }
{
    let groups = tier.groups.as_mut_slice();
    turn_groups(Some(less), groups, &*loan.writes, &*loan.shelf, own)
}

// The turn of groups over a table that lies before what is lent shared. A batch that is alone, with nothing lent behind the
// table, runs over the table itself; else what each group writes is moved into its hand, the groups run, and all goes back.
#[inline(always)]
#[cycle(in_order)]
fn turn_groups<
    V: ResourceValue + Drop,
    S: System<V, Error = E>,
    C: BatchController<V, Error = E>,
    E: Drop,
>(
    at: Option<usize>,
    groups: &mut [Group<V, Work<S, Nested<V, S, C>>>],
    ids: &[ResourceId],
    shelf: &[Shelf<V>],
    own: &mut Table<V>,
) -> Result<(), StageFault<E>>
    requires own_lists { GroupsOwn S.System C.BatchController at groups.old }
    requires room { All KeepsRoom groups.old }
    requires apart { AreApart group_access (groups_plan groups.old) }
    requires before { LiesBefore ids.now shelf.now own.old }
    requires own_slots { HasSlotsFor (some_writes groups.old) (lent_slot shelf.now) own.old }
    ensures { GroupsTurned V.kind_of S.System C.BatchController at shelf.now groups.old own.old result groups.new own.new }
{
    if shelf.is_empty() && is_lone_batch(&*groups) {
        return run_in_place(at, &mut groups[0], own);
    }
    move_groups_out(groups, own);
    let nearest = behind(&*own, &*ids, &*shelf);
    let answer = run_groups(at, &nearest, groups);
    move_groups_back(groups, own);
    answer
}

// The run of a group of one batch over the table itself, behind which nothing is lent: what it writes is not moved into the
// group's hand. It stands apart so that other groups take no stack for it.
#[inline(never)]
#[cycle(in_order)]
fn run_in_place<
    V: ResourceValue + Drop,
    S: System<V, Error = E>,
    C: BatchController<V, Error = E>,
    E: Drop,
>(
    at: Option<usize>,
    group: &mut Group<V, Work<S, Nested<V, S, C>>>,
    own: &mut Table<V>,
) -> Result<(), StageFault<E>>
    requires own_lists { IsGroupOf (RuleOwns (lists_of S.System C.BatchController) at) group.old }
    requires room { KeepsRoom group.old }
    requires one { is_one_batch group.old.entries.items ≡ true }
    ensures { GroupsTurned V.kind_of S.System C.BatchController at [] (group.old ∷ []) own.old result (group.new ∷ []) own.new }
{
    let entry = &mut group.entries[0];
    match run_work(
        at,
        entry.reads.as_slice(),
        entry.writes.as_slice(),
        &[],
        &mut entry.work,
        own,
    ) {
        Ok(()) => Ok(()),
        Err(fault) => Err(StageFault::System {
            id: entry.id,
            fault,
        }),
    }
}

// The groups, over what is lent shared, which nobody writes.
#[cycle(in_order)]
fn run_groups<
    V: ResourceValue + Drop,
    S: System<V, Error = E>,
    C: BatchController<V, Error = E>,
    E: Drop,
>(
    at: Option<usize>,
    shelf: &[Shelf<V>; 1],
    groups: &mut [Group<V, Work<S, Nested<V, S, C>>>],
) -> Result<(), StageFault<E>>
    requires ready { GroupsReady S.System C.BatchController at shelf.now groups.old }
    ensures { GroupsRan V.kind_of S.System C.BatchController at shelf.now groups.old result groups.new }
{
    let lane = |group: &mut Group<V, Work<S, Nested<V, S, C>>>| -> Result<(), StageFault<E>>
        requires { GroupReady S.System C.BatchController at shelf.now group.old }
        ensures { GroupRan V.kind_of S.System C.BatchController at shelf.entry.now group.old result group.new }
    { run_group(at, group, shelf) };
    run_lanes_in_order(&lane, groups)
}

// A group's run, over its hand and what is lent shared: its entries' steps, in order, up to the first that is not Done.
#[cycle(in_order)]
fn run_group<
    V: ResourceValue + Drop,
    S: System<V, Error = E>,
    C: BatchController<V, Error = E>,
    E: Drop,
>(
    at: Option<usize>,
    group: &mut Group<V, Work<S, Nested<V, S, C>>>,
    shelf: &[Shelf<V>; 1],
) -> Result<(), StageFault<E>>
    requires ready { GroupReady S.System C.BatchController at shelf.now group.old }
    ensures { GroupRan V.kind_of S.System C.BatchController at shelf.now group.old result group.new }
{
    let single = group.entries.len() == 1;
    let written = group.written.as_slice();
    let hand = &mut group.hand;
    let entries = group.entries.as_mut_slice();
    for entry in entries.iter_mut() {
        if let Err(fault) = run_entry(at, entry, single, written, shelf, hand) {
            return Err(StageFault::System {
                id: entry.id,
                fault,
            });
        }
    }
    Ok(())
}

// One step of what stands in the entry over its own hand, into which what it writes is moved before, and out of it after. It
// stands apart so that an entry that is alone in its group takes no stack for what this one needs.
#[inline(never)]
#[cycle(in_order)]
fn run_in_own_hand<
    V: ResourceValue + Drop,
    S: System<V, Error = E>,
    C: BatchController<V, Error = E>,
    E: Drop,
>(
    at: Option<usize>,
    entry: &mut GroupEntry<V, Work<S, Nested<V, S, C>>>,
    written: &[ResourceId],
    shelf: &[Shelf<V>; 1],
    own: &mut Table<V>,
) -> Result<(), Fault<E>>
    requires own_lists { IsEntryOf (RuleOwns (lists_of S.System C.BatchController) at) entry.old }
    requires own_slots { HasOwnSlots entry.old.writes.items (lent_slot shelf.now) own.old }
    requires just_slots { HasJustSlots written.now own.old }
    requires room { HasEntryRoom own.old entry.old }
    ensures stepped { EntryStepped V.kind_of S.System C.BatchController at shelf.now entry.old own.old result entry.new own.new }
    ensures plan { entry_plan entry.new ≡ entry_plan entry.old }
    ensures own_lists { IsEntryOf (RuleOwns (lists_of S.System C.BatchController) at) entry.new }
    ensures room { HasEntryRoom own.new entry.new }
{
    move_out(own, entry.writes.as_slice(), &mut entry.hand);
    let nearest = behind(&*own, &*written, &*shelf);
    let outcome = run_work(
        at,
        entry.reads.as_slice(),
        entry.writes.as_slice(),
        &nearest,
        &mut entry.work,
        &mut entry.hand,
    );
    move_back(own, entry.writes.as_slice(), &mut entry.hand);
    outcome
}

// One step of what stands in the entry: over the table where it is the only one of its group, and else over its own hand.
#[cycle(in_order)]
#[tactic(auto, using(crate::proofs::Circle::Entries::place_single, crate::proofs::Circle::Entries::place_several, crate::proofs::Circle::Entries::several_place, crate::proofs::Circle::Entries::single_place))]
fn run_entry<
    V: ResourceValue + Drop,
    S: System<V, Error = E>,
    C: BatchController<V, Error = E>,
    E: Drop,
>(
    at: Option<usize>,
    entry: &mut GroupEntry<V, Work<S, Nested<V, S, C>>>,
    single: bool,
    written: &[ResourceId],
    shelf: &[Shelf<V>; 1],
    own: &mut Table<V>,
) -> Result<(), Fault<E>>
    requires own_lists { IsEntryOf (RuleOwns (lists_of S.System C.BatchController) at) entry.old }
    requires own_slots { HasOwnSlots entry.old.writes.items (lent_slot shelf.now) own.old }
    requires just_slots { HasJustSlots written.now own.old }
    requires place { HasPlace single own.old entry.old }
    ensures stepped { EntryStepped V.kind_of S.System C.BatchController at shelf.now entry.old own.old result entry.new own.new }
    ensures plan { entry_plan entry.new ≡ entry_plan entry.old }
    ensures own_lists { IsEntryOf (RuleOwns (lists_of S.System C.BatchController) at) entry.new }
    ensures place { HasPlace single own.new entry.new }
{
    if single {
        run_work(
            at,
            entry.reads.as_slice(),
            entry.writes.as_slice(),
            &*shelf,
            &mut entry.work,
            own,
        )
    } else {
        run_in_own_hand(at, entry, written, shelf, own)
    }
}

/// The runs of groups over what is lent shared, one after the other: each over its own hand. The answer is the first, in their
/// order, that is not Done.
pub fn groups_over<
    V: ResourceValue + Drop,
    S: System<V, Error = E>,
    C: BatchController<V, Error = E>,
    E: Drop,
>(
    at: Option<usize>,
    groups: &mut [Group<V, Work<S, Nested<V, S, C>>>],
    shelf: &[Shelf<V>; 1],
) -> Result<(), StageFault<E>>
    requires { GroupsReady S.System C.BatchController at shelf.now groups.old }
    ensures { GroupsRan V.kind_of S.System C.BatchController at shelf.now groups.old result groups.new }
{
    run_groups(at, shelf, groups)
}

/// The run of one group over what is lent shared.
pub fn group_over<
    V: ResourceValue + Drop,
    S: System<V, Error = E>,
    C: BatchController<V, Error = E>,
    E: Drop,
>(
    at: Option<usize>,
    group: &mut Group<V, Work<S, Nested<V, S, C>>>,
    shelf: &[Shelf<V>; 1],
) -> Result<(), StageFault<E>>
    requires { GroupReady S.System C.BatchController at shelf.now group.old }
    ensures { GroupRan V.kind_of S.System C.BatchController at shelf.now group.old result group.new }
{
    run_group(at, group, shelf)
}

/// The turn of a stage's groups over what a table holds, one after the other on the caller's thread, what stands in each entry to the depth
/// that is noted of it.
pub fn turn_in_order<
    V: ResourceValue + Drop,
    S: System<V, Error = E>,
    C: BatchController<V, Error = E>,
    E: Drop,
>(
    groups: &mut [Group<V, Work<S, Nested<V, S, C>>>],
    table: &mut Table<V>,
) -> Result<(), StageFault<E>>
    requires own_lists { StageOwns S.System C.BatchController groups.old }
    requires room { All KeepsRoom groups.old }
    requires apart { AreApart group_access (groups_plan groups.old) }
    ensures took { StageTurned V.kind_of S.System C.BatchController groups.old table.old result groups.new table.new }
    ensures slots { IsSameSlots table.old table.new }
{
    turn_groups(None, groups, &[], &[], table)
}
