//! The bundle that is written by hand.
use example_systems::counting::{Counting, count_one_in};
use example_systems::limits::{Count, Limit, Value};
use shred::{DataError, Kind, ResourceId, SystemData, View, World};
use std::alloc::Global;
use std::process::Abort;
use std::test::Fail;

fn id(kind: u32) -> ResourceId {
    ResourceId::from_type_id(Kind(kind))
}

// The count that is held.
fn count_in(world: &World<Value>) -> Option<i64> {
    match world.try_fetch::<Count>() {
        Some(count) => Some(count.0),
        None => None,
    }
}

/// Counting one more answers so, and leaves this count.
fn expect_counted(
    rt: &impl Abort,
    world: &mut World<Value>,
    answer: Result<i64, DataError>,
    held: i64,
) {
    assert_eq!(rt; count_one_in(world), answer);
    assert_eq!(rt; count_in(world), Some(held));
}

#[test]
fn a_count_goes_up_to_its_limit(rt: HostRuntime) -> Result<(), Fail> {
    let mut world: World<Value> = World::empty(rt.alloc());
    expect_counted(&rt, &mut world, Err(DataError::Missing(id(1))), 0);
    world.insert(Limit(2))?;
    for count in [1, 2, 2] {
        expect_counted(&rt, &mut world, Ok(count), count);
    }
    assert_eq!(rt; world.fetch::<Limit>().map(|limit| limit.0), Ok(2));
    Ok(())
}

// Takes the bundle, counts one more, and gives the bundle back. Answers the count before and after.
fn counted_through(view: &mut View<Value>) -> Result<[i64; 2], DataError> {
    match view.system_data::<Counting>() {
        Ok(mut counting) => {
            let before = counting.count();
            counting.count_one();
            let after = counting.count();
            view.give_back(counting);
            Ok([before, after])
        }
        Err(error) => Err(error),
    }
}

// A world whose count is set up and may go up to 2.
fn set_up(alloc: Global) -> Result<World<Value>, Fail> {
    let mut world: World<Value> = World::empty(alloc);
    world.insert(Limit(2))?;
    world.setup::<Counting>()?;
    Ok(world)
}

fn expect_lent(
    rt: &impl Abort,
    world: &mut World<Value>,
    reads: &[ResourceId],
    writes: &[ResourceId],
) {
    let mut view = world.lend(reads, writes);
    assert_eq!(rt; counted_through(&mut view), Ok([0, 1]));
    assert_eq!(rt; view.read::<Count>(id(0)).map(|count| count.0), Ok(1));
}

#[test]
fn a_view_lends_it_and_takes_it_back(rt: HostRuntime) -> Result<(), Fail> {
    let reads = <Counting as SystemData<Value>>::reads(rt.alloc())?;
    let writes = <Counting as SystemData<Value>>::writes(rt.alloc())?;
    assert!(rt; reads.as_slice() == [id(1)].as_slice());
    assert!(rt; writes.as_slice() == [id(0)].as_slice());
    let mut world = set_up(rt.alloc())?;
    expect_lent(&rt, &mut world, reads.as_slice(), writes.as_slice());
    Ok(())
}
