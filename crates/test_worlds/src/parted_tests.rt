//! Views that are parted, worked over and joined.
use crate::parted_threads::{add_beside, add_beside_in};
use shred_world::{Kind, ResourceId, World};
use std::alloc::Global;
use std::process::Abort;
use std::test::Fail;
use test_values::{Count, Value};

fn number(dynamic_id: u64) -> ResourceId {
    ResourceId::from_type_id_and_dynamic_id(Kind(0), dynamic_id)
}

// A world that holds these counts, numbered from 0.
fn world_of(alloc: Global, counts: &[i64]) -> Result<World<Value>, Fail> {
    let mut world: World<Value> = World::empty(alloc);
    for (dynamic_id, count) in counts.iter().enumerate() {
        world.insert_by_id(number(dynamic_id as u64), Count(*count))?;
    }
    Ok(world)
}

fn count_at(world: &World<Value>, dynamic_id: u64) -> Option<i64> {
    match world.try_fetch_by_id::<Count>(number(dynamic_id)) {
        Ok(Some(count)) => Some(count.0),
        _ => None,
    }
}

/// The world holds these counts from 0 on.
fn expect_counts(rt: &impl Abort, world: &World<Value>, counts: &[i64]) {
    for (dynamic_id, count) in counts.iter().enumerate() {
        assert_eq!(rt; count_at(world, dynamic_id as u64), Some(*count));
    }
}

#[test]
fn two_parts_are_worked_over_in_the_halves_of_a_fork(rt: HostRuntime) -> Result<(), Fail> {
    let mut world = world_of(rt.alloc(), &[10, 20, 30])?;
    let (out, _) = add_beside(&rt, rt.alloc(), &mut world)?;
    assert_eq!(rt; (out.first, out.second), (true, true));
    expect_counts(&rt, &world, &[11, 21, 30]);
    Ok(())
}

#[test]
fn hands_of_another_world_and_other_ids_are_room_alone(rt: HostRuntime) -> Result<(), Fail> {
    let mut other = world_of(rt.alloc(), &[10, 20, 30])?;
    let (_, hands) = add_beside(&rt, rt.alloc(), &mut other)?;
    let mut world = world_of(rt.alloc(), &[100, 200, 300])?;
    let (out, hands) = add_beside_in(&rt, rt.alloc(), &mut world, hands)?;
    assert_eq!(rt; (out.first, out.second, hands.len()), (true, true, 2));
    expect_counts(&rt, &world, &[101, 201, 300]);
    expect_counts(&rt, &other, &[11, 21, 30]);
    Ok(())
}
