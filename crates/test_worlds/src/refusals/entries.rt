//! Resources that are put into a world.
use crate::refusals::{Ended, expect_right};
use shred_world::{World, WorldError};
use std::alloc::Global;
use test_values::{Count, Name, Value, count_in};

// Two resources, of which the second takes the place of the first. A refusal leaves what was held.
fn insert_twice(alloc: Global) -> Ended {
    let mut world: World<Value> = World::empty(alloc);
    match world.insert(Count(5)) {
        Ok(()) => {}
        Err(WorldError::OutOfMemory) => return Ended::refused_if(count_in(&world) == None),
        Err(_) => return Ended::Wrong,
    }
    Ended::ample_if(world.insert(Count(6)) == Ok(()) && count_in(&world) == Some(6))
}

#[test]
fn insert(rt: HostRuntime) {
    expect_right(&rt, insert_twice(rt.alloc()));
}

// A place that is filled. A refusal calls no closure, and leaves the place empty.
fn fill_entry(alloc: Global) -> Ended {
    let mut world: World<Value> = World::empty(alloc);
    let mut called = false;
    let answer = match world.entry().or_insert_with(|| {
        called = true;
        Count(5)
    }) {
        Ok(count) => Ok(count.0),
        Err(error) => Err(error),
    };
    match answer {
        Ok(5) => Ended::ample_if(called && count_in(&world) == Some(5)),
        Err(WorldError::OutOfMemory) => {
            Ended::refused_if(!called && !world.has_value::<Count>() && !world.has_value::<Name>())
        }
        _ => Ended::Wrong,
    }
}

#[test]
fn entry(rt: HostRuntime) {
    expect_right(&rt, fill_entry(rt.alloc()));
}
