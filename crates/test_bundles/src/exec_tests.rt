//! Setups of worlds, and calls with bundles of them.
use crate::shown::{Answer, empty, expect_answer, expect_number, world_of};
use shred_world::{DataError, Kind, Read, ReadExpect, ResourceId, World, Write};
use std::process::Abort;
use std::test::Fail;
use test_values::{Count, Flag, Value, count_in};

// The count that was held, which leaves the world.
fn remove_count(world: &mut World<Value>) -> Option<i64> {
    match world.remove::<Count>() {
        Some(count) => Some(count.0),
        None => None,
    }
}

fn set_up(world: &mut World<Value>) -> Answer {
    match world.setup::<Read<Count>>() {
        Ok(()) => Ok(None),
        Err(error) => Err(DataError::from(error)),
    }
}

#[test]
fn a_setup_provides_what_is_not_held(rt: HostRuntime) -> Result<(), Fail> {
    let mut world = world_of(rt.alloc(), Count(5))?;
    expect_answer(&rt, set_up(&mut world), Ok(None));
    expect_number(&rt, remove_count(&mut world), Some(5));
    expect_answer(&rt, set_up(&mut world), Ok(None));
    expect_number(&rt, count_in(&world), Some(0));
    Ok(())
}

// Leaves these, and gives what was there.
fn exchange_both(
    world: &mut World<Value>,
    number: i64,
    is_set: bool,
) -> Result<(i64, bool), DataError> {
    world.exec::<(Write<Flag>, Write<Count>), _, _>(|(flag, count)| {
        let found = (count.0, flag.0);
        flag.0 = is_set;
        count.0 = number;
        found
    })
}

fn expect_both(rt: &impl Abort, world: &mut World<Value>, number: i64, is_set: bool) {
    assert_eq!(rt; exchange_both(world, 43, true), Ok((number, is_set)));
}

#[test]
fn what_one_call_writes_the_next_one_reads(rt: HostRuntime) {
    let mut world = empty(rt.alloc());
    expect_both(&rt, &mut world, 0, false);
    expect_both(&rt, &mut world, 43, true);
    expect_number(&rt, count_in(&world), Some(43));
}

fn count_id() -> ResourceId {
    ResourceId::from_type_id(Kind(0))
}

// What a call is refused with that writes the count twice; one that is not refused shows the count.
fn write_twice(world: &mut World<Value>) -> Answer {
    world.exec::<(Write<Count>, Write<Count>), _, _>(|(count, _)| Some(count.0))
}

#[test]
fn an_id_is_not_written_twice_in_one_call(rt: HostRuntime) {
    let mut world = empty(rt.alloc());
    let taken = Err(DataError::Taken(count_id()));
    expect_answer(&rt, write_twice(&mut world), taken);
    expect_number(&rt, count_in(&world), Some(0));
}

fn read_what_is_expected(world: &mut World<Value>) -> Answer {
    world.exec::<ReadExpect<Count>, _, _>(|count| Some(count.0))
}

#[test]
fn what_is_expected_is_not_provided(rt: HostRuntime) {
    let mut world = empty(rt.alloc());
    let missing = Err(DataError::Missing(count_id()));
    expect_answer(&rt, read_what_is_expected(&mut world), missing);
    expect_number(&rt, count_in(&world), None);
}
