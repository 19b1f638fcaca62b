//! The examples of worlds of numbers, with what comes out.
use example_systems::batch::added_in_rounds;
use example_systems::boxed_systems::copied_by_boxes;
use example_systems::enum_of_systems::{Add, copied_by_jobs};
use example_systems::one_system::count_after_dispatch;
use example_systems::plan_text::text_of_three;
use example_systems::same_end::both_added;
use example_systems::set_up::counted_up;
use example_systems::world_alone::{double, number_in, number_or_five, set, take, world_of};
use shred::{
    AddError, Dispatcher, DispatcherBuilder, Only, Plain, SystemId, World, WorldError, only_id,
};
use shred_orders::dispatch_interleaved;
use std::alloc::Global;
use std::process::Abort;
use std::test::Fail;
use std::thread::Threads;

#[test]
fn a_dispatch_sets_the_count(rt: HostRuntime) {
    assert_eq!(rt; count_after_dispatch(rt.alloc()), Some(7));
}

#[test]
fn a_world_is_used_alone(rt: HostRuntime) -> Result<(), Fail> {
    let mut world = world_of(rt.alloc(), 3)?;
    assert_eq!(rt; number_in(&world), Some(3));
    set(&mut world, 4)?;
    assert_eq!(rt; double(&mut world), Ok(8));
    assert_eq!(rt; number_or_five(&mut world), Ok(8));
    assert_eq!(rt; take(&mut world), Some(8));
    assert_eq!(rt; number_or_five(&mut world), Ok(5));
    Ok(())
}

#[test]
fn a_setup_holds_a_default_where_nothing_is_held(rt: HostRuntime) {
    let mut world = World::empty(rt.alloc());
    assert_eq!(rt; counted_up(rt.alloc(), &mut world), Some(1));
    assert_eq!(rt; counted_up(rt.alloc(), &mut world), Some(2));
}

#[test]
fn variants_of_an_enum_are_dispatched(rt: HostRuntime) {
    assert_eq!(rt; copied_by_jobs(rt.alloc()), Some(8));
}

#[test]
fn what_is_behind_a_box_is_dispatched(rt: HostRuntime) {
    assert_eq!(rt; copied_by_boxes(rt.alloc()), Some(8));
}

#[test]
fn a_plan_runs_as_often_as_a_number_says(rt: HostRuntime) {
    assert_eq!(rt; added_in_rounds(rt.alloc(), -1), Some(5));
    assert_eq!(rt; added_in_rounds(rt.alloc(), 0), Some(5));
    assert_eq!(rt; added_in_rounds(rt.alloc(), 3), Some(14));
    assert_eq!(rt; added_in_rounds(rt.alloc(), 4), Some(17));
}

const THREE: &str =
    "seq![\n\tpar![\n\t\tseq![\n\t\t\tfirst,\n\t\t],\n\t\tseq![\n\t\t\tsecond,\n\t\t],\n\t],\n\tpar![\n\t\tseq![\n\t\t\tthird,\n\t\t],\n\t],\n]\n\n";

#[test]
fn a_plan_is_printed(rt: HostRuntime) {
    let text = text_of_three(rt.alloc()).unwrap_or(String::new(rt.alloc()));
    assert_eq!(rt; text.as_str(), THREE);
}

type Builder = DispatcherBuilder<Only<i64>, Plain<Add>>;

fn add(builder: &mut Builder, system: Add) -> Result<SystemId, AddError> {
    builder.add(Plain(system), "", &[])
}

// Two that add, each to a number of its own, on at most so many threads.
fn adding(alloc: Global, workers: usize) -> Result<Dispatcher<Only<i64>, Plain<Add>>, AddError> {
    let mut builder: Builder = DispatcherBuilder::new(alloc);
    builder.add_pool(workers);
    add(&mut builder, Add { to: 0, amount: 3 })?;
    add(&mut builder, Add { to: 1, amount: 4 })?;
    Ok(builder.build())
}

// A world with 5 at place 0 and 6 at place 1.
fn two_numbers(alloc: Global) -> Result<World<Only<i64>>, WorldError> {
    let mut world = world_of(alloc, 5)?;
    world.insert_by_id(only_id(1), 6i64)?;
    Ok(world)
}

// What is held at places 0 and 1.
fn taken(world: &mut World<Only<i64>>) -> [Option<i64>; 2] {
    [
        take(world),
        world.remove_by_id::<i64>(only_id(1)).ok().flatten(),
    ]
}

#[derive(Drop)]
struct WithWorld {
    dispatcher: Dispatcher<Only<i64>, Plain<Add>>,
    numbers: World<Only<i64>>,
}

fn over_two_numbers(alloc: Global, workers: usize) -> Result<WithWorld, Fail> {
    let dispatcher = adding(alloc, workers)?;
    let numbers = two_numbers(alloc)?;
    Ok(WithWorld {
        dispatcher,
        numbers,
    })
}

/// Both are done, and leave 8 at place 0 and 10 at place 1.
fn expect_same(rt: &(impl Abort + Threads + Sync), mut first: WithWorld, mut second: WithWorld) {
    let are_done = both_added(
        rt,
        &mut first.dispatcher,
        &mut first.numbers,
        &mut second.dispatcher,
        &mut second.numbers,
    );
    assert!(rt; are_done);
    assert_eq!(rt; taken(&mut first.numbers), [Some(8), Some(10)]);
    assert_eq!(rt; taken(&mut second.numbers), [Some(8), Some(10)]);
}

#[test]
fn dispatches_on_one_thread_and_on_two_end_the_same(rt: HostRuntime) -> Result<(), Fail> {
    let first = over_two_numbers(rt.alloc(), 1)?;
    let second = over_two_numbers(rt.alloc(), 2)?;
    expect_same(&rt, first, second);
    Ok(())
}

#[test]
fn groups_that_are_interleaved_add(rt: HostRuntime) -> Result<(), Fail> {
    let mut dispatcher = adding(rt.alloc(), 2)?;
    let mut numbers = two_numbers(rt.alloc())?;
    assert!(rt; dispatch_interleaved(&rt, &mut dispatcher, &mut numbers).is_ok());
    assert_eq!(rt; taken(&mut numbers), [Some(8), Some(10)]);
    Ok(())
}
