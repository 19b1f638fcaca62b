//! A view that is parted.
ghost use Rattle.std.specs.Prelude.{◌≡◌, false};
ghost use Rattle.shred_table.specs.Id.{id_of, same_id};
ghost use Rattle.test_values.specs.Values.{count_kind};

use crate::refusals::{Ended, expect_right};
use shred_world::{Kind, OutOfMemory, ResourceId, View, ViewWork, World};
use std::alloc::Global;
use test_values::{Count, Value};

fn number(dynamic_id: u64) -> ResourceId
    ensures { result ≡ id_of count_kind dynamic_id }
{
    ResourceId::from_type_id_and_dynamic_id(Kind(0), dynamic_id)
}

/// Adds what the parts show of two counts.
#[derive(Drop)]
struct Adding {
    first: ResourceId,
    second: ResourceId,
    sum: i64,
}

// The count under the id, or none.
fn shown(view: &View<Value>, id: ResourceId) -> i64 {
    match view.read::<Count>(id) {
        Ok(count) => count.0,
        Err(_) => 0,
    }
}

impl ViewWork<Value> for Adding {
    ghost works = { λ _ _ _ _ _ _. Unit {0} };

    fn run(&mut self, view: &mut View<Value>) {
        let here = shown(view, self.first).wrapping_add(shown(view, self.second));
        self.sum = self.sum.wrapping_add(here);
    }
}

// Works over two parts of the view, each of which writes one of the counts.
fn work_over_two(
    alloc: Global,
    world: &mut World<Value>,
    first: ResourceId,
    second: ResourceId,
    work: &mut Adding,
) -> Result<(), OutOfMemory>
    requires { same_id first second ≡ false }
{
    let one = [first];
    let two = [second];
    let pairs: [(&[ResourceId], &[ResourceId]); 2] = [(&[], &one), (&[], &two)];
    let both = [first, second];
    let mut view = world.lend(&[], &both);
    view.part_each(alloc, &pairs, work)
}

// What is added up over the two parts, if memory suffices. If not, nothing was.
fn added(alloc: Global, world: &mut World<Value>) -> Ended {
    let mut work = Adding {
        first: number(0),
        second: number(1),
        sum: 0,
    };
    match work_over_two(alloc, world, number(0), number(1), &mut work) {
        Ok(()) => Ended::ample_if(work.sum == 3),
        Err(OutOfMemory) => Ended::refused_if(work.sum == 0),
    }
}

fn count_at(world: &World<Value>, dynamic_id: u64) -> Option<i64> {
    match world.try_fetch_by_id::<Count>(number(dynamic_id)) {
        Ok(Some(count)) => Some(count.0),
        _ => None,
    }
}

// Whether the world holds what it held at first.
fn holds_all(world: &World<Value>) -> bool {
    count_at(world, 0) == Some(1) && count_at(world, 1) == Some(2)
}

// Two parts of a view. After a refusal nothing was worked over, the world holds what it held, and the next try is as the
// first.
fn part_in_two(alloc: Global) -> Ended {
    let mut world: World<Value> = World::empty(alloc);
    let is_full = world.insert_by_id(number(0), Count(1)).is_ok()
        && world.insert_by_id(number(1), Count(2)).is_ok();
    if !is_full {
        return Ended::OutOfMemory;
    }
    let first = added(alloc, &mut world);
    if !holds_all(&world) {
        return Ended::Wrong;
    }
    if first != Ended::OutOfMemory {
        return first;
    }
    let second = added(alloc, &mut world);
    Ended::refused_if(second == Ended::Ample && holds_all(&world))
}

#[test]
fn part(rt: HostRuntime) {
    expect_right(&rt, part_in_two(rt.alloc()));
}
