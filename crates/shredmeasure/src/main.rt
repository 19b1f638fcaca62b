//! Dispatches the same plan many times, or builds plans, to be timed from outside.
//!
//! Standard input is one line, `MODE SYSTEMS TIMES WORK`, with one space between the words. Where MODE is `seq`, `par`, `kept`
//! or `asleep`, each system waits for WORK pauses of the processor, adds 1 to a count of its own and declares to read one that
//! all share, and the sum of the counts is printed. Where it is `plan`, the systems have random accesses of one to six ids over
//! 300 resources, and the number of stages of all plans is printed.
#![tactic(auto)]

ghost use Rattle.std.specs.Prelude.{◌≡◌, ℕ, ◌*◌, [], length, IfOk, OnOk, pos};
ghost use Rattle.std.specs.Int.{w64, int_wrap};
ghost use Rattle.shred_run.specs.Kept.{IsKept};
ghost use Rattle.shred_run.specs.declared.system.RunningTime.TheVariants.{Average};
ghost use Rattle.shred_model.specs.Plan.{Plan, PlanEntry};
ghost use Rattle.shred_stage.specs.BuilderPlan.{barrier_of, planned as plan_of, rule_of};
ghost use Rattle.shred_stage.specs.SearchStart.{IsPlacedBy};
ghost use Rattle.shred_table.specs.declared.id.ResourceId.{ResourceId};
ghost use Rattle.shred_world.specs.Worlds.{world_held};
ghost use Rattle.shred.specs.Dispatchers.{dispatcher_plan};
ghost use Rattle.shred.specs.KeptDispatchers.{dispatcher_of as dispatcher_of_kept};
ghost use Rattle.shredmeasure.specs.Adders.{HasOneForEach};
ghost use Rattle.shredmeasure.specs.Counts.{count_id as id_of, kind_of, number_of, sum_to, zeros_to};
ghost use Rattle.shredmeasure.specs.Measured.{HasCountEach, IsCountedOnce, IsMeasured};
ghost use Rattle.shredmeasure.specs.Random.{AreDrawn, AreDrawnOften};

mod adder;
mod order;
mod random;

use adder::AddOne;
use order::{Mode, Order, Place};
use random::Planned;
use shred::{
    DEFAULT_LOOKS, Dispatcher, KeptDispatcher, Only, Plain, StagesBuilder, SystemId, ThreadLocal,
    World, new_dispatcher, only_id,
};
use std::alloc::Global;
use std::io::{Read, Write};
use std::process::ExitCode;
use std::sync::Wait;
use std::thread::Threads;

/// Why nothing is printed.
#[derive(Clone, Copy)]
struct Stopped;

/// The shared count, and one for each system.
fn world_of(alloc: Global, systems: u64) -> Result<World<Only<i64>>, Stopped>
    ensures { IfOk result (λ world. (id : ResourceId) → world_held kind_of world id ≡ zeros_to systems id) }
{
    let mut world = World::empty(alloc);
    if world.insert_by_id(only_id(0), 0i64).is_err() {
        return Err(Stopped);
    }
    for number in 0..systems {
        if world.insert_by_id(only_id(number + 1), 0i64).is_err() {
            return Err(Stopped);
        }
    }
    Ok(world)
}

/// A system for each number from 1 to this one.
fn dispatcher_of(
    alloc: Global,
    systems: u64,
    work: u64,
) -> Result<Dispatcher<Only<i64>, Plain<AddOne>>, Stopped>
    ensures { IfOk result (λ dispatcher. HasOneForEach systems (dispatcher_plan dispatcher)) }
{
    let mut builder = StagesBuilder::new(alloc);
    for number in 0..systems {
        let system = Plain(AddOne {
            number: number + 1,
            work,
        });
        if builder
            .insert(&[], SystemId(number as usize), system)
            .is_err()
        {
            return Err(Stopped);
        }
    }
    Ok(new_dispatcher(builder.build(), ThreadLocal::new(alloc), 4))
}

// The count of this number, 0 where none is held.
fn count_at(world: &World<Only<i64>>, number: u64) -> i64
    ensures { result ≡ number_of (world_held kind_of world.now (id_of number)) }
{
    match world.try_fetch_by_id::<i64>(only_id(number)) {
        Ok(Some(count)) => *count,
        _ => 0,
    }
}

/// The sum of the systems' own counts, which wraps past 64 bits with sign.
fn sum_of(world: &World<Only<i64>>, systems: u64) -> i64
    ensures sum { result ≡ int_wrap w64 (sum_to (world_held kind_of world.now) systems) }
    ensures product { (times : ℕ) → HasCountEach systems times (world_held kind_of world.now) → result ≡ int_wrap w64 (pos (systems * times)) }
{
    let mut sum: i64 = 0;
    for number in 0..systems {
        sum = sum.wrapping_add(count_at(world, number + 1));
    }
    sum
}

/// Gives the system its place in the plan, under this number.
fn place(
    builder: &mut StagesBuilder<Only<i64>, Plain<Planned>>,
    number: u64,
    system: Planned,
) -> Result<(), Stopped>
    ensures placed { OnOk result ((entry : PlanEntry ResourceId) × IsKept number system.reads.items system.writes.items Average entry × IsPlacedBy (rule_of builder.old) (plan_of builder.old) (barrier_of builder.old) [] entry (plan_of builder.new)) }
    ensures barrier { barrier_of builder.new ≡ barrier_of builder.old }
    ensures rule { rule_of builder.new ≡ rule_of builder.old }
{
    match builder.insert(&[], SystemId(number as usize), Plain(system)) {
        Ok(()) => Ok(()),
        Err(_) => Err(Stopped),
    }
}

/// The number of stages of a plan of random systems.
fn planned(alloc: Global, systems: u64, seed: &mut u64) -> Result<usize, Stopped>
    ensures { IfOk result (λ stages. (plan : Plan ResourceId) × AreDrawn systems seed.old plan seed.new × (stages ≡ length plan)) }
{
    let mut builder = StagesBuilder::new(alloc);
    for number in 0..systems {
        let Ok(system) = Planned::random(alloc, seed) else {
            return Err(Stopped);
        };
        if place(&mut builder, number, system).is_err() {
            return Err(Stopped);
        }
    }
    Ok(builder.build().len())
}

/// The number of stages of so many such plans, within 64 bits.
fn planned_often(alloc: Global, systems: u64, times: u64) -> Result<u64, Stopped>
    ensures { IfOk result (λ stages. (left : ℕ) × AreDrawnOften systems times systems stages left) }
{
    let mut seed = systems;
    let mut stages: u64 = 0;
    for _ in 0..times {
        stages = stages.wrapping_add(planned(alloc, systems, &mut seed)? as u64);
    }
    Ok(stages)
}

/// One dispatch, on the caller's thread.
fn dispatch_once_on_caller(
    dispatcher: &mut Dispatcher<Only<i64>, Plain<AddOne>>,
    world: &mut World<Only<i64>>,
) -> Result<(), Stopped>
    ensures { OnOk result (IsCountedOnce (dispatcher_plan dispatcher.old) (world_held kind_of world.old) (dispatcher_plan dispatcher.new) (world_held kind_of world.new)) }
{
    match dispatcher.dispatch_seq(world) {
        Ok(()) => Ok(()),
        Err(_) => Err(Stopped),
    }
}

/// One dispatch, the groups of a stage beside each other on threads.
fn dispatch_once_on_threads<R: Threads + Sync>(
    rt: &R,
    dispatcher: &mut Dispatcher<Only<i64>, Plain<AddOne>>,
    world: &mut World<Only<i64>>,
) -> Result<(), Stopped>
    ensures { OnOk result (IsCountedOnce (dispatcher_plan dispatcher.old) (world_held kind_of world.old) (dispatcher_plan dispatcher.new) (world_held kind_of world.new)) }
{
    match dispatcher.dispatch_par(rt, world) {
        Ok(()) => Ok(()),
        Err(_) => Err(Stopped),
    }
}

/// The world after the dispatches that are asked for, on the caller's thread.
fn dispatched_on_caller(alloc: Global, order: Order) -> Result<World<Only<i64>>, Stopped>
    ensures { IfOk result (λ world. HasCountEach order.systems order.times (world_held kind_of world)) }
{
    let mut world = world_of(alloc, order.systems)?;
    let mut dispatcher = dispatcher_of(alloc, order.systems, order.work)?;
    for _ in 0..order.times {
        if dispatch_once_on_caller(&mut dispatcher, &mut world).is_err() {
            return Err(Stopped);
        }
    }
    Ok(world)
}

/// The world after the dispatches that are asked for, the groups of a stage beside each other on threads.
fn dispatched_on_threads<R: Threads + Sync>(
    rt: &R,
    alloc: Global,
    order: Order,
) -> Result<World<Only<i64>>, Stopped>
    ensures { IfOk result (λ world. HasCountEach order.systems order.times (world_held kind_of world)) }
{
    let mut world = world_of(alloc, order.systems)?;
    let mut dispatcher = dispatcher_of(alloc, order.systems, order.work)?;
    for _ in 0..order.times {
        if dispatch_once_on_threads(rt, &mut dispatcher, &mut world).is_err() {
            return Err(Stopped);
        }
    }
    Ok(world)
}

/// One dispatch, the groups of a stage beside each other on workers that are kept.
fn dispatch_once_on_kept<R: Threads + Wait + Drop>(
    kept: &mut KeptDispatcher<R, Only<i64>, Plain<AddOne>>,
    world: &mut World<Only<i64>>,
) -> Result<(), Stopped>
    ensures { OnOk result (IsCountedOnce (dispatcher_plan (dispatcher_of_kept kept.old)) (world_held kind_of world.old) (dispatcher_plan (dispatcher_of_kept kept.new)) (world_held kind_of world.new)) }
{
    match kept.dispatch_par(world) {
        Ok(()) => Ok(()),
        Err(_) => Err(Stopped),
    }
}

/// The world after the dispatches that are asked for, the groups of a stage beside each other on workers that are kept.
fn dispatched_on_kept<R: Threads + Wait + Clone + Drop + Send + 'static>(
    rt: &R,
    alloc: Global,
    order: Order,
    looks: u32,
) -> Result<World<Only<i64>>, Stopped>
    ensures { IfOk result (λ world. HasCountEach order.systems order.times (world_held kind_of world)) }
{
    let mut world = world_of(alloc, order.systems)?;
    let dispatcher = dispatcher_of(alloc, order.systems, order.work)?;
    let Ok(mut kept) = dispatcher.keep(rt, alloc, looks) else {
        return Err(Stopped);
    };
    for _ in 0..order.times {
        if dispatch_once_on_kept(&mut kept, &mut world).is_err() {
            return Err(Stopped);
        }
    }
    Ok(world)
}

/// What is printed: the sum of the counts, or the number of stages.
fn measured<R: Threads + Wait + Sync + Clone + Drop + Send + 'static>(
    rt: &R,
    alloc: Global,
    order: Order,
) -> Result<i64, Stopped>
    ensures { IfOk result (λ sum. IsMeasured order.mode order.systems order.times sum) }
{
    match order.mode {
        Mode::Dispatching(Place::OnCaller) => {
            let world = dispatched_on_caller(alloc, order)?;
            Ok(sum_of(&world, order.systems))
        }
        Mode::Dispatching(Place::OnThreads) => {
            let world = dispatched_on_threads(rt, alloc, order)?;
            Ok(sum_of(&world, order.systems))
        }
        Mode::Dispatching(Place::OnKept) => {
            let world = dispatched_on_kept(rt, alloc, order, DEFAULT_LOOKS)?;
            Ok(sum_of(&world, order.systems))
        }
        Mode::Dispatching(Place::OnSleeping) => {
            let world = dispatched_on_kept(rt, alloc, order, 0)?;
            Ok(sum_of(&world, order.systems))
        }
        Mode::Planning => {
            let stages = planned_often(alloc, order.systems, order.times)?;
            Ok(i64::try_from(stages).unwrap_or(i64::MAX))
        }
    }
}

fn main(rt: HostRuntime) -> ExitCode {
    let mut line = [0; 64];
    let Ok(length) = rt.stdin().read(&mut line) else {
        return ExitCode::from(1);
    };
    let Some(order) = Order::of_line(&line[..length]) else {
        return ExitCode::from(1);
    };
    let Ok(sum) = measured(&rt, rt.alloc(), order) else {
        return ExitCode::from(2);
    };
    match writeln!(&mut rt.stdout(), "{sum}") {
        Ok(()) => ExitCode::from(0),
        Err(_) => ExitCode::from(1),
    }
}
