//! Worlds of the tests.
use crate::numbers::{Number, Product, Sum};
use shred_cell::SharedWorld;
use shred_world::{Kind, ResourceId, World, WorldError};
use std::alloc::{AllocError, Global};

pub fn second_sum() -> ResourceId {
    ResourceId::from_type_id_and_dynamic_id(Kind(0), 1)
}

// A world with the sums 1 and 2 under the numbers 0 and 1.
pub fn two_sums(alloc: Global) -> Result<World<Number>, WorldError> {
    let mut world = World::empty(alloc);
    world.insert(Sum(1))?;
    world.insert_by_id(second_sum(), Sum(2))?;
    Ok(world)
}

pub fn two_shared_sums(alloc: Global) -> Result<SharedWorld<Number>, AllocError> {
    let Ok(world) = two_sums(alloc) else {
        return Err(AllocError);
    };
    SharedWorld::new(world).map_err(|_| AllocError)
}

// A world with the sum 3 and the product 1.
pub fn sum_and_product(alloc: Global) -> Result<World<Number>, WorldError> {
    let mut world = World::empty(alloc);
    world.insert(Sum(3))?;
    world.insert(Product(1))?;
    Ok(world)
}

pub fn sum_of(world: &World<Number>, id: ResourceId) -> Option<i64> {
    match world.try_fetch_by_id::<Sum>(id) {
        Ok(Some(sum)) => Some(sum.0),
        _ => None,
    }
}
