//! What the tests of bundles share: small worlds, what they hold, and what is expected of answers.
use shred_world::{DataError, OutOfMemory, Resource, ResourceId, World};
use std::alloc::Global;
use std::process::Abort;
use std::test::Fail;
use test_values::Value;

/// What a call shows as a number, if it shows something.
pub type Answer = Result<Option<i64>, DataError>;

pub fn expect_answer(rt: &impl Abort, found: Answer, wanted: Answer) {
    assert_eq!(rt; found, wanted);
}

pub fn expect_number(rt: &impl Abort, found: Option<i64>, wanted: Option<i64>) {
    assert_eq!(rt; found, wanted);
}

/// The list was made, and has these ids.
pub fn expect_ids(
    rt: &impl Abort,
    found: Result<Vec<ResourceId>, OutOfMemory>,
    wanted: &[ResourceId],
) -> Result<(), Fail> {
    match found {
        Ok(ids) => {
            assert_eq!(rt; ids.as_slice(), wanted);
            Ok(())
        }
        Err(_) => Err("memory")?,
    }
}

pub fn empty(alloc: Global) -> World<Value> {
    World::empty(alloc)
}

/// A world that holds the resource.
pub fn world_of<R: Resource<Value> + Drop>(
    alloc: Global,
    resource: R,
) -> Result<World<Value>, Fail> {
    let mut world = empty(alloc);
    match world.insert(resource) {
        Ok(()) => Ok(world),
        Err(_) => Err("memory")?,
    }
}
