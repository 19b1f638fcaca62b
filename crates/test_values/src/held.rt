//! What a world holds of these values.
use crate::values::{Count, Name, Value};
use shred_world::World;

/// The count that the world holds.
pub fn count_in(world: &World<Value>) -> Option<i64> {
    match world.try_fetch::<Count>() {
        Some(count) => Some(count.0),
        None => None,
    }
}

/// The name that the world holds.
pub fn name_in(world: &World<Value>) -> Option<i64> {
    match world.try_fetch::<Name>() {
        Some(name) => Some(i64::from(name.0)),
        None => None,
    }
}
