//! The lists and the setup of bundles: one of three parts, and one of eight, which takes two of four, and these one of three and
//! one of two, with one of one part in it.
use crate::lent_calls::take_and_give_back;
use crate::shown::{Answer, expect_answer, expect_ids, expect_number, world_of};
use shred_world::{
    Accessor, DataError, Kind, OutOfMemory, Read, ResourceId, SystemData, World, Write,
    WriteExpect, bundle_accessor,
};
use std::alloc::Global;
use std::marker::PhantomData;
use std::test::Fail;
use test_values::{Count, Flag, Name, Value, count_in};

fn id(kind: u32) -> ResourceId {
    ResourceId::from_type_id(Kind(kind))
}

#[test]
fn the_lists_of_a_bundle_are_those_of_its_parts(rt: HostRuntime) -> Result<(), Fail> {
    type Three<'s> = (Read<'s, Count>, Write<Flag>, Option<Read<'s, Count>>);
    let (x, z) = (id(0), id(2));
    let accessor = bundle_accessor::<Value, Three>(rt.alloc())?;
    expect_ids(&rt, accessor.reads(rt.alloc()), &[x, x])?;
    expect_ids(&rt, accessor.writes(rt.alloc()), &[z])
}

type Eight<'s> = (
    (Write<Flag>,),
    (),
    PhantomData<Count>,
    WriteExpect<Name>,
    (),
    (),
    (),
    Read<'s, Count>,
);

fn eight_read(alloc: Global) -> Result<Vec<ResourceId>, OutOfMemory> {
    <Eight as SystemData<Value>>::reads(alloc)
}

fn eight_written(alloc: Global) -> Result<Vec<ResourceId>, OutOfMemory> {
    <Eight as SystemData<Value>>::writes(alloc)
}

// Sets the bundle up, takes it and gives it back.
fn eight_on(world: &mut World<Value>) -> Answer {
    if let Err(error) = world.setup::<Eight>() {
        return Err(DataError::from(error));
    }
    match take_and_give_back::<Value, Eight>(world) {
        Ok(()) => Ok(None),
        Err(error) => Err(error),
    }
}

#[test]
fn a_bundle_of_eight(rt: HostRuntime) -> Result<(), Fail> {
    let (x, y, z) = (id(0), id(1), id(2));
    expect_ids(&rt, eight_read(rt.alloc()), &[x])?;
    expect_ids(&rt, eight_written(rt.alloc()), &[z, y])?;
    let mut world = world_of(rt.alloc(), Name(2))?;
    expect_answer(&rt, eight_on(&mut world), Ok(None));
    expect_number(&rt, count_in(&world), Some(0));
    Ok(())
}
