//! Tables of kinds, and their walks.
use crate::numbers::{Number, Product, Sum};
use crate::orders::{both_kinds, order_each, order_one};
use crate::worlds::sum_and_product;
use shred_meta::{Common, MetaTable};
use shred_world::{Resource, World};
use std::alloc::{AllocError, Global};
use std::test::Fail;

// A table of the kind of sums and then that of products, which are registered once more.
fn sums_and_products(alloc: Global) -> Result<MetaTable<Number>, AllocError> {
    let mut table = MetaTable::default(alloc);
    let answers = [
        table.register::<Sum>(),
        table.register::<Product>(),
        table.register::<Sum>(),
    ];
    if answers.contains(&Err(shred_world::OutOfMemory)) {
        return Err(AllocError);
    }
    Ok(table)
}

fn held(world: &World<Number>) -> (Option<i64>, Option<i64>) {
    let sum = world.try_fetch::<Sum>().map(|sum| sum.0);
    let product = world.try_fetch::<Product>().map(|product| product.0);
    (sum, product)
}

#[test]
fn a_walk_goes_in_the_order_of_first_registration(rt: HostRuntime) -> Result<(), Fail> {
    let table = sums_and_products(rt.alloc())?;
    let world = sum_and_product(rt.alloc())?;
    let mut walk = table.iter(&world);
    assert_eq!(rt; walk.next(), Some(&Number::Sum(Sum(3))));
    assert_eq!(rt; walk.next(), Some(&Number::Product(Product(1))));
    assert_eq!(rt; walk.next(), None);
    Ok(())
}

#[test]
fn a_walk_skips_a_kind_that_is_not_held(rt: HostRuntime) -> Result<(), Fail> {
    let table = sums_and_products(rt.alloc())?;
    let mut world = sum_and_product(rt.alloc())?;
    world.remove::<Sum>();
    let mut walk = table.iter(&world);
    assert_eq!(rt; walk.next(), Some(&Number::Product(Product(1))));
    assert_eq!(rt; walk.next(), None);
    Ok(())
}

#[test]
fn a_walk_gives_orders(rt: HostRuntime) -> Result<(), Fail> {
    let table = sums_and_products(rt.alloc())?;
    let mut world = sum_and_product(rt.alloc())?;
    let mut walk = table.iter_mut(&mut world);
    assert_eq!(rt; walk.next().map(|sum| sum.act(3)), Some(6));
    assert_eq!(rt; walk.next().map(|product| product.act(4)), Some(4));
    assert!(rt; walk.next().is_none());
    drop(walk);
    assert_eq!(rt; held(&world), (Some(6), Some(4)));
    Ok(())
}

#[test]
fn each_is_given_the_same_order(rt: HostRuntime) -> Result<(), Fail> {
    let table = both_kinds(rt.alloc())?;
    let mut world = sum_and_product(rt.alloc())?;
    order_each(&table, &mut world, 5);
    assert_eq!(rt; held(&world), (Some(8), Some(5)));
    Ok(())
}

#[test]
fn a_value_comes_back_where_its_kind_is_registered(rt: HostRuntime) -> Result<(), Fail> {
    let mut table = MetaTable::new(rt.alloc());
    table.register::<Sum>()?;
    let mut sum = Number::Sum(Sum(3));
    let mut product = Number::Product(Product(1));
    assert_eq!(rt; table.get(&sum), Some(&Number::Sum(Sum(3))));
    assert_eq!(rt; table.get(&product), None);
    assert_eq!(rt; order_one(&table, &mut sum, 4), Some(7));
    assert_eq!(rt; order_one(&table, &mut product, 4), None);
    assert_eq!(rt;
        (sum, product),
        (Number::Sum(Sum(7)), Number::Product(Product(1)))
    );
    Ok(())
}
