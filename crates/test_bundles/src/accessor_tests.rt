//! Bundles that are taken on a world, and the lists of accessors.
use crate::chosen::Choice;
use crate::lent_calls::{set_lent_count, take_and_give_back};
use crate::shown::{Answer, expect_answer, expect_ids, expect_number, world_of};
use shred_world::{Accessor, BatchAccessor, DataError, Read, ResourceId, World, Write};
use std::alloc::Global;
use std::marker::PhantomData;
use std::process::Abort;
use std::test::Fail;
use test_values::{Count, Flag, Value, count_in};

fn count_id() -> ResourceId {
    ResourceId::new::<Value, Count>()
}

fn flag_id() -> ResourceId {
    ResourceId::new::<Value, Flag>()
}

// The answer of a call that shows nothing.
fn nothing(done: Result<(), DataError>) -> Answer {
    match done {
        Ok(()) => Ok(None),
        Err(error) => Err(error),
    }
}

// What a bundle on the world shows.
fn shown_on(world: &mut World<Value>) -> Answer {
    match world.system_data::<Write<Count>>() {
        Ok(lent) => {
            let shown = lent.0;
            lent.give_back();
            Ok(Some(shown))
        }
        Err(error) => Err(error),
    }
}

fn read_twice_on(world: &mut World<Value>) -> Answer {
    nothing(take_and_give_back::<Value, (Read<Count>, Read<Count>)>(world))
}

fn set_on(world: &mut World<Value>, count: i64) -> Answer {
    nothing(set_lent_count(world, Count(count)))
}

#[test]
fn a_world_hands_out_each_id_once(rt: HostRuntime) -> Result<(), Fail> {
    let mut world = world_of(rt.alloc(), Count(5))?;
    let taken = Err(DataError::Taken(count_id()));
    expect_answer(&rt, shown_on(&mut world), Ok(Some(5)));
    expect_answer(&rt, read_twice_on(&mut world), taken);
    expect_answer(&rt, set_on(&mut world, 7), Ok(None));
    expect_number(&rt, count_in(&world), Some(7));
    Ok(())
}

// The accessor has these lists.
fn expect_lists<A: Accessor>(
    rt: &impl Abort,
    alloc: Global,
    accessor: &A,
    reads: &[ResourceId],
    writes: &[ResourceId],
) -> Result<(), Fail> {
    expect_ids(rt, accessor.reads(alloc), reads)?;
    expect_ids(rt, accessor.writes(alloc), writes)
}

#[test]
fn accessors_have_lists(rt: HostRuntime) -> Result<(), Fail> {
    let alloc = rt.alloc();
    let (reads, writes) = ([count_id()], [flag_id(), flag_id()]);
    let accessor = BatchAccessor::of(alloc, &reads, &writes)?;
    expect_lists(&rt, alloc, &accessor, &reads, &writes)?;
    let chosen = Choice { writes_count: true };
    expect_lists(&rt, alloc, &chosen, &[], &reads)
}

#[test]
fn accessors_of_nothing_list_nothing(rt: HostRuntime) -> Result<(), Fail> {
    let nothing: PhantomData<Count> = PhantomData;
    expect_lists(&rt, rt.alloc(), &(), &[], &[])?;
    expect_lists(&rt, rt.alloc(), &nothing, &[], &[])
}
