//! Bundles of three parts, taken of a world and of a view.
use crate::refusals::{Ended, expect_right};
use shred_world::{DataError, Kind, OutOfMemory, Read, ResourceId, SystemData, View, World, Write};
use std::alloc::Global;
use test_values::{Count, Flag, Name, Value, count_in};

fn id(kind: u32) -> ResourceId {
    ResourceId::from_type_id(Kind(kind))
}

fn flag_in(world: &World<Value>) -> Option<bool> {
    match world.try_fetch::<Flag>() {
        Some(flag) => Some(flag.0),
        None => None,
    }
}

type Three<'s> = (Write<Count>, Write<Flag>, Option<Read<'s, Name>>);

// Sets the count and the flag, and says whether they were set, or whether want of memory was told without a call.
fn set_in(world: &mut World<Value>) -> Ended {
    let mut called = false;
    let answer = world.exec::<Three, _, _>(|bundle| {
        called = true;
        bundle.0.0 = 7;
        bundle.1.0 = true;
    });
    match answer {
        Ok(()) => Ended::ample_if(
            called && count_in(world) == Some(7) && flag_in(world) == Some(true),
        ),
        Err(DataError::OutOfMemory) => Ended::refused_if(!called),
        Err(_) => Ended::Wrong,
    }
}

// A call with a bundle of an empty world. A refusal leaves at most the defaults, and the next call is as the first.
fn exec_on_nothing(alloc: Global) -> Ended {
    let mut world: World<Value> = World::empty(alloc);
    let first = set_in(&mut world);
    if first != Ended::OutOfMemory {
        return first;
    }
    let (count, flag) = (count_in(&world), flag_in(&world));
    let is_default = matches!(count, None | Some(0)) && matches!(flag, None | Some(false));
    Ended::refused_if(is_default && set_in(&mut world) == Ended::Ample)
}

#[test]
fn exec(rt: HostRuntime) {
    expect_right(&rt, exec_on_nothing(rt.alloc()));
}

// Takes a bundle of three and gives it back.
fn round_trip<'s>(view: &mut View<'s, '_, Value>) -> Ended {
    match view.system_data::<Three>() {
        Ok(three) => {
            let is_right = (three.0.0, three.1.0) == (1, true);
            view.give_back(three);
            Ended::ample_if(is_right)
        }
        Err(DataError::OutOfMemory) => Ended::OutOfMemory,
        Err(_) => Ended::Wrong,
    }
}

// Whether the view shows what was held at first.
fn shows_all(view: &View<Value>) -> bool {
    view.read::<Count>(id(0)).copied() == Ok(Count(1))
        && view.read::<Flag>(id(2)).copied() == Ok(Flag(true))
}

// A bundle of three of a view. After a refusal the view shows what it showed, and the next try is as the first.
fn three_of_a_view(alloc: Global) -> Ended {
    let mut world: World<Value> = World::empty(alloc);
    let is_full = world.insert(Count(1)).is_ok() && world.insert(Flag(true)).is_ok();
    if !is_full {
        return Ended::OutOfMemory;
    }
    let reads = [id(1)];
    let writes = [id(0), id(2)];
    let mut view = world.lend(&reads, &writes);
    let first = round_trip(&mut view);
    if !shows_all(&view) {
        return Ended::Wrong;
    }
    if first != Ended::OutOfMemory {
        return first;
    }
    Ended::refused_if(round_trip(&mut view) == Ended::Ample && shows_all(&view))
}

#[test]
fn tuple(rt: HostRuntime) {
    expect_right(&rt, three_of_a_view(rt.alloc()));
}

fn is_list(answer: Result<Vec<ResourceId>, OutOfMemory>, ids: &[ResourceId]) -> Ended {
    match answer {
        Ok(found) => Ended::ample_if(found.as_slice() == ids),
        Err(OutOfMemory) => Ended::OutOfMemory,
    }
}

#[test]
fn lists(rt: HostRuntime) {
    let reads = <Three as SystemData<Value>>::reads(rt.alloc());
    expect_right(&rt, is_list(reads, &[id(1)]));
    let writes = <Three as SystemData<Value>>::writes(rt.alloc());
    expect_right(&rt, is_list(writes, &[id(0), id(2)]));
}
