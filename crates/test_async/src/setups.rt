//! Setups and worlds of asynchronous dispatchers, with a refusal that is untold.

use crate::adds::{Adds, adds_to, count_of, refuses, with_local, zeros};
use crate::ended::{DONE, ended};
use shred::{
    AsyncDispatcher, Only, StagesBuilder, SystemId, ThreadLocal, World, new_async, only_id,
};
use std::alloc::Global;
use std::test::Fail;

/// The asynchronous dispatcher of this system alone over an empty world, on two workers.
fn over_nothing(alloc: Global, system: Adds) -> Result<AsyncDispatcher<Only<i64>, Adds>, Fail> {
    let mut stages = StagesBuilder::new(alloc);
    stages.insert(&[], SystemId(0), system)?;
    Ok(new_async(
        World::empty(alloc),
        stages.build(),
        ThreadLocal::new(alloc),
        2,
    ))
}

#[test]
fn a_setup_makes_what_the_runs_write(rt: HostRuntime) -> Result<(), Fail> {
    let mut dispatcher = over_nothing(rt.alloc(), adds_to(0, 5))?;
    assert_eq!(rt; ended(dispatcher.setup(&rt)), DONE);
    assert_eq!(rt; ended(dispatcher.dispatch(&rt)), DONE);
    assert_eq!(rt; ended(dispatcher.wait(&rt)), DONE);
    let count = match dispatcher.world(&rt) {
        Ok(world) => count_of(world, 0),
        Err(_) => None,
    };
    assert_eq!(rt; count, Some(5));
    Ok(())
}

#[test]
fn a_setup_leaves_a_refusal_untold(rt: HostRuntime) -> Result<(), Fail> {
    let mut dispatcher = with_local(rt.alloc(), refuses(1))?;
    assert_eq!(rt; ended(dispatcher.dispatch(&rt)), DONE);
    assert_eq!(rt; ended(dispatcher.setup(&rt)), DONE);
    assert_eq!(rt; ended(dispatcher.wait(&rt)), ("system", 0, 3));
    assert_eq!(rt; ended(dispatcher.wait(&rt)), DONE);
    Ok(())
}

#[test]
fn a_setup_tells_its_own_refusal(rt: HostRuntime) -> Result<(), Fail> {
    let system = Adds {
        refuses_setup: true,
        ..refuses(1)
    };
    let mut dispatcher = with_local(rt.alloc(), system)?;
    assert_eq!(rt; ended(dispatcher.dispatch(&rt)), DONE);
    assert_eq!(rt; ended(dispatcher.setup(&rt)), ("system", 0, 4));
    assert_eq!(rt; ended(dispatcher.wait(&rt)), ("system", 0, 3));
    Ok(())
}

/// Makes the world's count 0 this one.
fn put(world: &mut World<Only<i64>>, count: i64) -> bool {
    world.insert_by_id(only_id(0), count).is_ok()
}

#[test]
fn what_is_written_between_runs_is_seen_by_the_next(rt: HostRuntime) -> Result<(), Fail> {
    let mut dispatcher = with_local(rt.alloc(), refuses(1))?;
    assert_eq!(rt; ended(dispatcher.dispatch(&rt)), DONE);
    let is_put = match dispatcher.world_mut(&rt) {
        Ok(world) => put(world, 10),
        Err(_refused) => false,
    };
    assert!(rt; is_put);
    assert_eq!(rt; ended(dispatcher.dispatch(&rt)), ("system", 0, 3));
    assert_eq!(rt; ended(dispatcher.dispatch(&rt)), DONE);
    let count = match dispatcher.res(&rt) {
        Ok(world) => count_of(world, 0),
        Err(_) => None,
    };
    assert_eq!(rt; count, Some(11));
    let is_put = match dispatcher.mut_res(&rt) {
        Ok(world) => put(world, 20),
        Err(_refused) => false,
    };
    assert!(rt; is_put);
    assert_eq!(rt; ended(dispatcher.dispatch(&rt)), DONE);
    assert_eq!(rt; ended(dispatcher.wait(&rt)), DONE);
    let count = match dispatcher.world(&rt) {
        Ok(world) => count_of(world, 0),
        Err(_) => None,
    };
    assert_eq!(rt; count, Some(21));
    Ok(())
}
