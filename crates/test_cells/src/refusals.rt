//! Memory that is refused, by `rt try --test --fail-alloc N` for each N: these pass whatever request is refused.
use crate::numbers::{Number, Product, Sum};
use crate::worlds::{second_sum, sum_of, two_sums};
use shred_cell::SharedWorld;
use shred_meta::MetaTable;
use shred_world::{Kind, ResourceId, World};

fn has_both(world: &World<Number>) -> bool {
    let first = ResourceId::from_type_id(Kind(0));
    sum_of(world, first) == Some(1) && sum_of(world, second_sum()) == Some(2)
}

#[test]
fn a_world_is_shared_or_comes_back(rt: HostRuntime) {
    let Ok(world) = two_sums(rt.alloc()) else {
        return;
    };
    let world = match SharedWorld::new(world) {
        Ok(shared) => match shared.into_world() {
            Ok(world) => world,
            Err(_) => World::empty(rt.alloc()),
        },
        Err(world) => world,
    };
    assert!(rt; has_both(&world));
}

// The kinds of sums and products, of those that the table has.
fn registered(table: &MetaTable<Number>) -> (bool, bool) {
    let sum = Number::Sum(Sum(0));
    let product = Number::Product(Product(0));
    (table.get(&sum).is_some(), table.get(&product).is_some())
}

#[test]
fn a_kind_is_registered_or_the_table_is_as_before(rt: HostRuntime) {
    let mut table = MetaTable::new(rt.alloc());
    let first = table.register::<Sum>().is_ok();
    assert_eq!(rt; registered(&table), (first, false));
    let second = table.register::<Product>().is_ok();
    assert_eq!(rt; registered(&table), (first, second));
}
