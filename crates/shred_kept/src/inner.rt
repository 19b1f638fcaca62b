//! The turns of groups on workers that are kept, and those of the inner plans of batches: one circle of functions, which hands lanes out,
//! on the caller's thread and on each worker.
ghost use Rattle.std.specs.Prelude.{◌≡◌, ◌≤◌, [], ◌∷◌, true, false, All, vec_capacity};
ghost use Rattle.shred_model.specs.Beside.{AreApart};
ghost use Rattle.shred_model.specs.Plan.{group_access};
ghost use Rattle.shred_run.specs.Depths.{lists_of};
ghost use Rattle.shred_run.specs.Hands.{HasEntryRoom, KeepsRoom, is_single, some_writes};
ghost use Rattle.shred_run.specs.OneBatch.{is_batch, is_one_batch};
ghost use Rattle.shred_run.specs.OwnLists.{IsEntryOf, IsGroupOf};
ghost use Rattle.shred_run.specs.OwnSlots.{HasJustSlots, HasOnlySlots, HasSlotsFor, LendsSome, LiesBefore};
ghost use Rattle.shred_run.specs.PlanOf.{entry_plan, groups_plan};
ghost use Rattle.shred_run.specs.Rules.{RuleOwns};
ghost use Rattle.shred_table.specs.Shown.{HasOwnSlots};
ghost use Rattle.shred_world.specs.Views.{lent_slot};
ghost use Rattle.shred_run.specs.Circles.{BatchFits, PartsFit, TierFits, TiersFit, GroupsOwn, GroupReady, GroupsReady, WorkStepped, EntryStepped, BatchRan, RoundsRan, TiersRan, TierTurned, GroupsTurned, GroupRan, GroupsRan, PartsStay, TiersStay};
ghost use Rattle.shred_kept.specs.Lanes.{RanBefore, RanOverLevels, ReadyBefore, ReadyOverLevels, SteppedOverLevels};
ghost use Rattle.shred_kept.specs.Levels.{HasLevelFor, LaidBefore, Stand, lent_by, levels_of};

use crate::cut::put_back;
use crate::groups::{run_in_order, values_back, values_out};
use crate::lane::StageLane;
use crate::lane_crew::LaneCrew;
use crate::laying::exchange;
use crate::level::Level;
use crate::share::share_of;
use shred_run::calls::{Ask, Begin, Run, call_over};
use shred_run::control::{KeptController, call_kept};
use shred_run::depth::depth_by;
use shred_run::entry::{Group, GroupEntry};
use shred_run::first::first;
use shred_run::in_order::group_over;
use shred_run::loan::{Loan, behind};
use shred_run::one_batch::{is_lone_batch, is_one_batch};
use shred_run::work::within;
use shred_run::{Batch, BatchController, Fault, Nested, StageFault, System, Tier, Work};
use shred_world::parting::{move_back, move_out};
use shred_world::{ResourceId, ResourceValue, Shelf, Table};
use std::sync::{Arc, Wait};

// A run of a batch: its controller begins, and the rounds follow.
#[cycle(kept)]
fn run_batch<
    's,
    R: Wait,
    V: ResourceValue + Drop,
    S: System<V, Error = E> + Drop,
    C: BatchController<V, Error = E> + Drop,
    E: Drop,
>(
    rt: &R,
    crew: &mut LaneCrew<V, S, C>,
    less: usize,
    batch: &mut Batch<V, C, Work<S, Nested<V, S, C>>>,
    reads: &'s [ResourceId],
    writes: &'s [ResourceId],
    shelf: &'s [Shelf<'s, V>],
    levels: &[Arc<Level<V>>],
    own: &mut Table<V>,
) -> Result<(), Fault<E>>
    requires before { LiesBefore writes.now shelf.now own.old }
    requires stand { Stand (levels_of levels.now) shelf.now }
    requires within { BatchFits S.System C.BatchController less reads.now writes.now batch.old }
    ensures { BatchRan V.kind_of S.System C.BatchController less reads.now writes.now shelf.now batch.old own.old result batch.new own.new }
{
    let loan = Loan {
        reads,
        writes,
        shelf,
    };
    match call_kept(&mut batch.control, &Begin, &loan, own) {
        Ok(most) => rounds(
            rt,
            crew,
            less,
            &loan,
            levels,
            &mut batch.control,
            batch.tiers.as_mut_slice(),
            own,
            most,
        ),
        Err(fault) => Err(fault),
    }
}

// At most that many rounds.
#[cycle(kept)]
fn rounds<
    R: Wait,
    V: ResourceValue + Drop,
    S: System<V, Error = E> + Drop,
    C: BatchController<V, Error = E> + Drop,
    E: Drop,
>(
    rt: &R,
    crew: &mut LaneCrew<V, S, C>,
    less: usize,
    loan: &Loan<V>,
    levels: &[Arc<Level<V>>],
    control: &mut KeptController<V, C>,
    tiers: &mut [Tier<V, Work<S, Nested<V, S, C>>>],
    own: &mut Table<V>,
    most: usize,
) -> Result<(), Fault<E>>
    requires has { LiesBefore loan.now.writes.now loan.now.shelf.now own.old }
    requires stand { Stand (levels_of levels.now) loan.now.shelf.now }
    requires parts { PartsFit S.System C.BatchController less loan.now control.old tiers.old }
    ensures ran { RoundsRan V.kind_of S.System C.BatchController less loan.now most control.old tiers.old own.old result control.new tiers.new own.new }
    ensures kept { PartsStay V.kind_of S.System C.BatchController less loan.now control.old tiers.old own.old control.new tiers.new own.new }
{
    for round in 0..most {
        match call_kept(control, &Ask, loan, own) {
            Ok(true) => {
                if let Err(fault) = run_tiers(rt, crew, less, loan, levels, tiers, own) {
                    return Err(within(fault));
                }
            }
            Ok(false) => return Ok(()),
            Err(fault) => return Err(fault),
        }
    }
    Ok(())
}

// The turns of the tiers, in order, up to the first that is not Done.
#[cycle(kept)]
fn run_tiers<
    R: Wait,
    V: ResourceValue + Drop,
    S: System<V, Error = E> + Drop,
    C: BatchController<V, Error = E> + Drop,
    E: Drop,
>(
    rt: &R,
    crew: &mut LaneCrew<V, S, C>,
    less: usize,
    loan: &Loan<V>,
    levels: &[Arc<Level<V>>],
    tiers: &mut [Tier<V, Work<S, Nested<V, S, C>>>],
    own: &mut Table<V>,
) -> Result<(), StageFault<E>>
    requires has { LiesBefore loan.now.writes.now loan.now.shelf.now own.old }
    requires stand { Stand (levels_of levels.now) loan.now.shelf.now }
    requires within { TiersFit S.System C.BatchController less loan.now tiers.old }
    ensures ran { TiersRan V.kind_of S.System C.BatchController less loan.now tiers.old own.old result tiers.new own.new }
    ensures kept { TiersStay V.kind_of S.System C.BatchController less loan.now tiers.old own.old tiers.new own.new }
{
    for tier in tiers.iter_mut() {
        if let Err(fault) = turn(rt, crew, less, tier, loan, levels, own) {
            return Err(fault);
        }
    }
    Ok(())
}

// The turn of a tier.
#[cycle(kept)]
fn turn<
    R: Wait,
    V: ResourceValue + Drop,
    S: System<V, Error = E> + Drop,
    C: BatchController<V, Error = E> + Drop,
    E: Drop,
>(
    rt: &R,
    crew: &mut LaneCrew<V, S, C>,
    less: usize,
    tier: &mut Tier<V, Work<S, Nested<V, S, C>>>,
    loan: &Loan<V>,
    levels: &[Arc<Level<V>>],
    own: &mut Table<V>,
) -> Result<(), StageFault<E>>
    requires has { LiesBefore loan.now.writes.now loan.now.shelf.now own.old }
    requires stand { Stand (levels_of levels.now) loan.now.shelf.now }
    requires within { TierFits S.System C.BatchController less loan.now tier.old }
    ensures { TierTurned V.kind_of S.System C.BatchController less loan.now tier.old own.old result tier.new own.new }
{
    turn_groups(
        rt,
        crew,
        Some(less),
        &mut tier.groups,
        &*loan.writes,
        &*loan.shelf,
        levels,
        own,
    )
}

/// The turn of groups over a table that lies before what is lent shared. A batch that is alone, with nothing lent behind the table, runs
/// over the table itself; else what each group writes is moved into its hand, the groups run beside each other on the workers that are
/// free and on this thread, and all goes back.
#[cycle(kept)]
pub(crate) fn turn_groups<
    R: Wait,
    V: ResourceValue + Drop,
    S: System<V, Error = E> + Drop,
    C: BatchController<V, Error = E> + Drop,
    E: Drop,
>(
    rt: &R,
    crew: &mut LaneCrew<V, S, C>,
    at: Option<usize>,
    groups: &mut Vec<Group<V, Work<S, Nested<V, S, C>>>>,
    ids: &[ResourceId],
    shelf: &[Shelf<V>],
    levels: &[Arc<Level<V>>],
    own: &mut Table<V>,
) -> Result<(), StageFault<E>>
    requires own_lists { GroupsOwn S.System C.BatchController at groups.old.items }
    requires room { All KeepsRoom groups.old.items }
    requires apart { AreApart group_access (groups_plan groups.old.items) }
    requires before { LiesBefore ids.now shelf.now own.old }
    requires stand { Stand (levels_of levels.now) shelf.now }
    requires own_slots { HasSlotsFor (some_writes groups.old.items) (lent_slot shelf.now) own.old }
    ensures { GroupsTurned V.kind_of S.System C.BatchController at shelf.now groups.old.items own.old result groups.new.items own.new }
{
    if shelf.is_empty() && is_lone_batch(groups.as_slice()) {
        return run_in_place(rt, crew, at, &mut groups[0], levels, own);
    }
    values_out(groups, own);
    let answer = run_over(rt, crew, at, groups, ids, shelf, levels, own);
    values_back(groups, own);
    answer
}

// The run of a group of one batch over the table itself, behind which nothing is lent: what it writes is not moved into the
// group's hand.
#[cycle(kept)]
fn run_in_place<
    R: Wait,
    V: ResourceValue + Drop,
    S: System<V, Error = E> + Drop,
    C: BatchController<V, Error = E> + Drop,
    E: Drop,
>(
    rt: &R,
    crew: &mut LaneCrew<V, S, C>,
    at: Option<usize>,
    group: &mut Group<V, Work<S, Nested<V, S, C>>>,
    levels: &[Arc<Level<V>>],
    own: &mut Table<V>,
) -> Result<(), StageFault<E>>
    requires own_lists { IsGroupOf (RuleOwns (lists_of S.System C.BatchController) at) group.old }
    requires room { KeepsRoom group.old }
    requires one { is_one_batch group.old.entries.items ≡ true }
    requires stand { Stand (levels_of levels.now) [] }
    ensures { GroupsTurned V.kind_of S.System C.BatchController at [] (group.old ∷ []) own.old result (group.new ∷ []) own.new }
{
    let entry = &mut group.entries[0];
    match run_work(
        rt,
        crew,
        at,
        entry.reads.as_slice(),
        entry.writes.as_slice(),
        &[],
        levels,
        &mut entry.work,
        own,
    ) {
        Ok(()) => Ok(()),
        Err(fault) => Err(StageFault::System {
            id: entry.id,
            fault,
        }),
    }
}

// The groups, over the table and what lies behind it: the table is laid before the levels meanwhile, and comes back. Where there is
// nothing to hand out, and where memory for that is refused, they run in order.
#[cycle(kept)]
fn run_over<
    R: Wait,
    V: ResourceValue + Drop,
    S: System<V, Error = E> + Drop,
    C: BatchController<V, Error = E> + Drop,
    E: Drop,
>(
    rt: &R,
    crew: &mut LaneCrew<V, S, C>,
    at: Option<usize>,
    groups: &mut Vec<Group<V, Work<S, Nested<V, S, C>>>>,
    ids: &[ResourceId],
    shelf: &[Shelf<V>],
    levels: &[Arc<Level<V>>],
    own: &mut Table<V>,
) -> Result<(), StageFault<E>>
    requires before { LiesBefore ids.now shelf.now own.old }
    requires stand { Stand (levels_of levels.now) shelf.now }
    requires ready { ReadyBefore S.System C.BatchController at own.old shelf.now groups.old }
    ensures ran { RanBefore V.kind_of S.System C.BatchController at own.old shelf.now groups.old result groups.new }
    ensures table { own.new ≡ own.old }
{
    if !crew.may_hand_out(groups.as_slice()) {
        return run_in_order(at, groups, ids, shelf, &*own);
    }
    let Some(laid) = crew.levels.lay(levels, ids, own) else {
        return run_in_order(at, groups, ids, shelf, &*own);
    };
    let answer = run_laid(rt, crew, at, groups, shelf, levels, laid.as_slice());
    crew.levels.take_up(rt, laid, own);
    answer
}

// The groups, over levels of which the last lies before the shelf.
#[cycle(kept)]
fn run_laid<
    R: Wait,
    V: ResourceValue + Drop,
    S: System<V, Error = E> + Drop,
    C: BatchController<V, Error = E> + Drop,
    E: Drop,
>(
    rt: &R,
    crew: &mut LaneCrew<V, S, C>,
    at: Option<usize>,
    groups: &mut Vec<Group<V, Work<S, Nested<V, S, C>>>>,
    shelf: &[Shelf<V>],
    levels: &[Arc<Level<V>>],
    laid: &[Arc<Level<V>>],
) -> Result<(), StageFault<E>>
    requires stand { Stand (levels_of levels.now) shelf.now }
    requires laid { LaidBefore (levels_of levels.now) shelf.now (levels_of laid.now) }
    requires ready { ReadyOverLevels S.System C.BatchController at laid.now groups.old }
    ensures ran { RanOverLevels V.kind_of S.System C.BatchController at laid.now groups.old result groups.new }
{
    let Some((level, _)) = laid.split_last() else {
        unreachable!()
    };
    let nearest = behind(&level.table, level.ids.as_slice(), &*shelf);
    let free = crew.crew.free(groups.len());
    let left = crew.crew.len();
    run_beside(rt, crew, left, free, at, groups, &nearest, laid)
}

// Runs every group over its hand and what is lent: a part of them on each worker that is free, and the rest on this thread. Where memory
// for a part is refused, its groups stay. The answer is the first, in the groups' order, that is not Done.
#[cycle(kept)]
fn run_beside<
    R: Wait,
    V: ResourceValue + Drop,
    S: System<V, Error = E> + Drop,
    C: BatchController<V, Error = E> + Drop,
    E: Drop,
>(
    rt: &R,
    crew: &mut LaneCrew<V, S, C>,
    left: usize,
    free: usize,
    at: Option<usize>,
    groups: &mut Vec<Group<V, Work<S, Nested<V, S, C>>>>,
    shelf: &[Shelf<V>; 1],
    levels: &[Arc<Level<V>>],
) -> Result<(), StageFault<E>>
    requires stand { Stand (levels_of levels.now) shelf.now }
    requires ready { GroupsReady S.System C.BatchController at shelf.now groups.old.items }
    ensures ran { GroupsRan V.kind_of S.System C.BatchController at shelf.now groups.old.items result groups.new.items }
    ensures room { vec_capacity groups.old ≤ vec_capacity groups.new }
{
    if groups.len() <= 1 || left == 0 {
        return run_here(rt, crew, at, groups, shelf, levels);
    }
    let place = left - 1;
    let Some(mut worker) = crew.crew.take(place) else {
        return run_beside(rt, crew, place, free, at, groups, shelf, levels);
    };
    let share = share_of(groups, free.max(1).saturating_add(1));
    let Some(lane) = crew.lane_of(at, groups, levels, share) else {
        crew.crew.give_back(rt, place, worker);
        return run_here(rt, crew, at, groups, shelf, levels);
    };
    worker.send(lane);
    let rest = free.saturating_sub(1);
    let mine = run_beside(rt, crew, place, rest, at, groups, shelf, levels);
    let StageLane {
        at: _,
        groups: mut back,
        levels,
        answer,
    } = worker.collect(rt, crew.crew.looks());
    crew.crew.give_back(rt, place, worker);
    crew.levels.keep(levels);
    put_back(groups, &mut back);
    crew.rooms.keep(back);
    first(mine, answer)
}

/// Runs the groups on this thread, one after the other; the inner stages of the batches among them are handed out in turn.
#[cycle(kept)]
pub(crate) fn run_here<
    R: Wait,
    V: ResourceValue + Drop,
    S: System<V, Error = E> + Drop,
    C: BatchController<V, Error = E> + Drop,
    E: Drop,
>(
    rt: &R,
    crew: &mut LaneCrew<V, S, C>,
    at: Option<usize>,
    groups: &mut Vec<Group<V, Work<S, Nested<V, S, C>>>>,
    shelf: &[Shelf<V>; 1],
    levels: &[Arc<Level<V>>],
) -> Result<(), StageFault<E>>
    requires stand { Stand (levels_of levels.now) shelf.now }
    requires ready { GroupsReady S.System C.BatchController at shelf.now groups.old.items }
    ensures ran { GroupsRan V.kind_of S.System C.BatchController at shelf.now groups.old.items result groups.new.items }
    ensures room { vec_capacity groups.old ≤ vec_capacity groups.new }
{
    run_each(rt, crew, at, groups.as_mut_slice(), shelf, levels)
}

// Each of the groups, one after the other. The answer is the first that is not Done.
#[cycle(kept)]
fn run_each<
    R: Wait,
    V: ResourceValue + Drop,
    S: System<V, Error = E> + Drop,
    C: BatchController<V, Error = E> + Drop,
    E: Drop,
>(
    rt: &R,
    crew: &mut LaneCrew<V, S, C>,
    at: Option<usize>,
    groups: &mut [Group<V, Work<S, Nested<V, S, C>>>],
    shelf: &[Shelf<V>; 1],
    levels: &[Arc<Level<V>>],
) -> Result<(), StageFault<E>>
    requires stand { Stand (levels_of levels.now) shelf.now }
    requires ready { GroupsReady S.System C.BatchController at shelf.now groups.old }
    ensures { GroupsRan V.kind_of S.System C.BatchController at shelf.now groups.old result groups.new }
{
    let mut answer = Ok(());
    for group in groups.iter_mut() {
        let ran = run_group(rt, crew, at, group, shelf, levels);
        answer = first(answer, ran);
    }
    answer
}

// A group's run, over its hand and what is lent shared.
#[cycle(kept)]
fn run_group<
    R: Wait,
    V: ResourceValue + Drop,
    S: System<V, Error = E> + Drop,
    C: BatchController<V, Error = E> + Drop,
    E: Drop,
>(
    rt: &R,
    crew: &mut LaneCrew<V, S, C>,
    at: Option<usize>,
    group: &mut Group<V, Work<S, Nested<V, S, C>>>,
    shelf: &[Shelf<V>; 1],
    levels: &[Arc<Level<V>>],
) -> Result<(), StageFault<E>>
    requires stand { Stand (levels_of levels.now) shelf.now }
    requires ready { GroupReady S.System C.BatchController at shelf.now group.old }
    ensures { GroupRan V.kind_of S.System C.BatchController at shelf.now group.old result group.new }
{
    if is_one_batch(group.entries.as_slice()) {
        return run_one_batch(rt, crew, at, group, shelf, levels);
    }
    let Some(mut laid) = crew.room_for(&*group, levels) else {
        return group_over(at, group, shelf);
    };
    let answer = run_entries(rt, crew, at, group, shelf, levels, &mut laid);
    crew.levels.keep_room(laid);
    answer
}

// The entries of a group of several, in order, up to the first that is not Done.
#[cycle(kept)]
fn run_entries<
    R: Wait,
    V: ResourceValue + Drop,
    S: System<V, Error = E> + Drop,
    C: BatchController<V, Error = E> + Drop,
    E: Drop,
>(
    rt: &R,
    crew: &mut LaneCrew<V, S, C>,
    at: Option<usize>,
    group: &mut Group<V, Work<S, Nested<V, S, C>>>,
    shelf: &[Shelf<V>; 1],
    levels: &[Arc<Level<V>>],
    laid: &mut Vec<Arc<Level<V>>>,
) -> Result<(), StageFault<E>>
    requires stand { Stand (levels_of levels.now) shelf.now }
    requires ready { GroupReady S.System C.BatchController at shelf.now group.old }
    requires several { is_single group.old ≡ false }
    requires room { HasLevelFor levels.now group.old.written.items laid.old.items }
    ensures { GroupRan V.kind_of S.System C.BatchController at shelf.now group.old result group.new }
{
    let written = group.written.as_slice();
    let hand = &mut group.hand;
    let entries = group.entries.as_mut_slice();
    for entry in entries.iter_mut() {
        if let Err(fault) = run_in_own_hand(
            rt, crew, at, entry, written, shelf, levels, laid, hand,
        ) {
            return Err(StageFault::System {
                id: entry.id,
                fault,
            });
        }
    }
    Ok(())
}

// One step of what stands in the entry over its own hand, into which what it writes is moved before, and out of it after. Meanwhile the
// group's hand is the last of the levels.
#[cycle(kept)]
fn run_in_own_hand<
    R: Wait,
    V: ResourceValue + Drop,
    S: System<V, Error = E> + Drop,
    C: BatchController<V, Error = E> + Drop,
    E: Drop,
>(
    rt: &R,
    crew: &mut LaneCrew<V, S, C>,
    at: Option<usize>,
    entry: &mut GroupEntry<V, Work<S, Nested<V, S, C>>>,
    written: &[ResourceId],
    shelf: &[Shelf<V>; 1],
    levels: &[Arc<Level<V>>],
    laid: &mut Vec<Arc<Level<V>>>,
    own: &mut Table<V>,
) -> Result<(), Fault<E>>
    requires stand { Stand (levels_of levels.now) shelf.now }
    requires laid { HasLevelFor levels.now written.now laid.old.items }
    requires own_lists { IsEntryOf (RuleOwns (lists_of S.System C.BatchController) at) entry.old }
    requires own_slots { HasOwnSlots entry.old.writes.items (lent_slot shelf.now) own.old }
    requires just_slots { HasJustSlots written.now own.old }
    requires room { HasEntryRoom own.old entry.old }
    ensures stepped { EntryStepped V.kind_of S.System C.BatchController at shelf.now entry.old own.old result entry.new own.new }
    ensures plan { entry_plan entry.new ≡ entry_plan entry.old }
    ensures own_lists { IsEntryOf (RuleOwns (lists_of S.System C.BatchController) at) entry.new }
    ensures room { HasEntryRoom own.new entry.new }
    ensures laid { HasLevelFor levels.now written.now laid.new.items }
{
    move_out(own, entry.writes.as_slice(), &mut entry.hand);
    exchange(rt, laid, own);
    let outcome = run_behind(
        rt,
        crew,
        at,
        entry.reads.as_slice(),
        entry.writes.as_slice(),
        shelf,
        levels,
        laid.as_slice(),
        &mut entry.work,
        &mut entry.hand,
    );
    exchange(rt, laid, own);
    move_back(own, entry.writes.as_slice(), &mut entry.hand);
    outcome
}

// One step of what stands in an entry, over levels of which the last lies before the shelf.
#[cycle(kept)]
fn run_behind<
    's,
    R: Wait,
    V: ResourceValue + Drop,
    S: System<V, Error = E> + Drop,
    C: BatchController<V, Error = E> + Drop,
    E: Drop,
>(
    rt: &R,
    crew: &mut LaneCrew<V, S, C>,
    at: Option<usize>,
    reads: &'s [ResourceId],
    writes: &'s [ResourceId],
    shelf: &'s [Shelf<'s, V>],
    levels: &[Arc<Level<V>>],
    laid: &[Arc<Level<V>>],
    work: &mut Work<S, Nested<V, S, C>>,
    own: &mut Table<V>,
) -> Result<(), Fault<E>>
    requires stand { Stand (levels_of levels.now) shelf.now }
    requires laid { LaidBefore (levels_of levels.now) shelf.now (levels_of laid.now) }
    requires own_lists { (RuleOwns (lists_of S.System C.BatchController) at) work.old reads.now writes.now }
    requires own_slots { HasOwnSlots writes.now (lent_by (levels_of laid.now)) own.old }
    requires only_own { HasOnlySlots writes.now own.old }
    ensures stepped { SteppedOverLevels V.kind_of S.System C.BatchController at reads.now writes.now laid.now work.old own.old result work.new own.new }
{
    let Some((level, _)) = laid.split_last() else {
        unreachable!()
    };
    let nearest = behind(&level.table, level.ids.as_slice(), &*shelf);
    run_work(rt, crew, at, reads, writes, &nearest, laid, work, own)
}

// The run of a group of one batch over its hand.
#[cycle(kept)]
fn run_one_batch<
    R: Wait,
    V: ResourceValue + Drop,
    S: System<V, Error = E> + Drop,
    C: BatchController<V, Error = E> + Drop,
    E: Drop,
>(
    rt: &R,
    crew: &mut LaneCrew<V, S, C>,
    at: Option<usize>,
    group: &mut Group<V, Work<S, Nested<V, S, C>>>,
    shelf: &[Shelf<V>; 1],
    levels: &[Arc<Level<V>>],
) -> Result<(), StageFault<E>>
    requires stand { Stand (levels_of levels.now) shelf.now }
    requires ready { GroupReady S.System C.BatchController at shelf.now group.old }
    requires one { is_one_batch group.old.entries.items ≡ true }
    ensures { GroupRan V.kind_of S.System C.BatchController at shelf.now group.old result group.new }
{
    let entry = &mut group.entries[0];
    match run_work(
        rt,
        crew,
        at,
        entry.reads.as_slice(),
        entry.writes.as_slice(),
        &*shelf,
        levels,
        &mut entry.work,
        &mut group.hand,
    ) {
        Ok(()) => Ok(()),
        Err(fault) => Err(StageFault::System {
            id: entry.id,
            fault,
        }),
    }
}

// One step of what stands in an entry, a system or a batch, over a table that lies before what is lent shared.
#[cycle(kept)]
fn run_work<
    's,
    R: Wait,
    V: ResourceValue + Drop,
    S: System<V, Error = E> + Drop,
    C: BatchController<V, Error = E> + Drop,
    E: Drop,
>(
    rt: &R,
    crew: &mut LaneCrew<V, S, C>,
    at: Option<usize>,
    reads: &'s [ResourceId],
    writes: &'s [ResourceId],
    shelf: &'s [Shelf<'s, V>],
    levels: &[Arc<Level<V>>],
    work: &mut Work<S, Nested<V, S, C>>,
    own: &mut Table<V>,
) -> Result<(), Fault<E>>
    requires behind { is_batch work.old ≡ false → LendsSome shelf.now }
    requires own_lists { (RuleOwns (lists_of S.System C.BatchController) at) work.old reads.now writes.now }
    requires before { LiesBefore writes.now shelf.now own.old }
    requires stand { Stand (levels_of levels.now) shelf.now }
    ensures stepped { WorkStepped V.kind_of S.System C.BatchController at reads.now writes.now shelf.now work.old own.old result work.new own.new }
{
    let depth = depth_by(at, work);
    match work {
        Work::System(system) => {
            let loan = Loan {
                reads,
                writes,
                shelf,
            };
            call_over(&Run, &loan, system, own)
        }
        Work::Batch(nested) => run_batch(
            rt,
            crew,
            depth - 1,
            &mut nested.batch,
            reads,
            writes,
            shelf,
            levels,
            own,
        ),
    }
}
