//! One thread on a shared world.
use crate::numbers::{Number, Product, Sum};
use crate::worlds::{second_sum, sum_of, two_shared_sums};
use shred_cell::cell::InvalidBorrow;
use shred_cell::{SharedError, SharedWorld};
use shred_world::{Kind, ResourceId};
use std::test::Fail;

fn first_sum() -> ResourceId {
    ResourceId::from_type_id(Kind(0))
}

#[test]
fn what_is_not_held_is_missing(rt: HostRuntime) -> Result<(), Fail> {
    let shared = two_shared_sums(rt.alloc())?;
    let missing = Some(SharedError::Missing(ResourceId::from_type_id(Kind(1))));
    assert_eq!(rt; shared.fetch::<Product>(&rt).err(), missing);
    assert_eq!(rt; shared.fetch_mut::<Product>().err(), missing);
    assert!(rt; matches!(shared.try_fetch::<Product>(&rt), Ok(None)));
    assert!(rt; matches!(shared.try_fetch_mut::<Product>(), Ok(None)));
    Ok(())
}

#[test]
fn an_id_of_another_kind_is_refused(rt: HostRuntime) -> Result<(), Fail> {
    let shared = two_shared_sums(rt.alloc())?;
    let wrong = Some(SharedError::WrongKind {
        asked: Kind(1),
        found: Kind(0),
    });
    assert_eq!(rt;
        shared.try_fetch_by_id::<Product>(&rt, first_sum()).err(),
        wrong
    );
    assert_eq!(rt;
        shared.try_fetch_mut_by_id::<Product>(first_sum()).err(),
        wrong
    );
    Ok(())
}

// What is answered for the sum of a shared world while it is borrowed.
fn refused_to_write(shared: &SharedWorld<Number>) -> [Option<SharedError>; 3] {
    [
        shared.fetch_mut::<Sum>().err(),
        shared.try_fetch_mut::<Sum>().err(),
        shared.try_fetch_mut_by_id::<Sum>(first_sum()).err(),
    ]
}

#[test]
fn what_is_read_is_not_written(rt: HostRuntime) -> Result<(), Fail> {
    let shared = two_shared_sums(rt.alloc())?;
    let reader = shared.fetch::<Sum>(&rt)?;
    let copy = reader.try_clone(&rt)?;
    drop(reader);
    assert_eq!(rt;
        refused_to_write(&shared),
        [Some(SharedError::InvalidBorrow); 3]
    );
    assert_eq!(rt; copy.0, 1);
    Ok(())
}

#[test]
fn what_is_written_is_not_read(rt: HostRuntime) -> Result<(), Fail> {
    let shared = two_shared_sums(rt.alloc())?;
    let writer = shared.fetch_mut::<Sum>()?;
    let borrowed = Some(SharedError::InvalidBorrow);
    assert_eq!(rt; shared.fetch::<Sum>(&rt).err(), borrowed);
    assert_eq!(rt; shared.try_fetch::<Sum>(&rt).err(), borrowed);
    assert_eq!(rt;
        shared.try_fetch_by_id::<Sum>(&rt, first_sum()).err(),
        borrowed
    );
    assert_eq!(rt; refused_to_write(&shared), [borrowed; 3]);
    assert_eq!(rt; writer.0, 1);
    Ok(())
}

#[test]
fn what_nobody_borrows_is_lent(rt: HostRuntime) -> Result<(), Fail> {
    let shared = two_shared_sums(rt.alloc())?;
    let found = shared.try_fetch::<Sum>(&rt)?;
    let reader = found.expect(&rt, "a sum");
    assert_eq!(rt; reader.0, 1);
    drop(reader);
    let found = shared.try_fetch_mut::<Sum>()?;
    let mut writer = found.expect(&rt, "a sum");
    *writer = Sum(7);
    drop(writer);
    let cell = shared.try_fetch_internal(first_sum()).expect(&rt, "a cell");
    let value = cell.try_borrow(&rt)?;
    assert_eq!(rt; *value, Number::Sum(Sum(7)));
    Ok(())
}

#[test]
fn what_was_written_is_read_and_comes_home(rt: HostRuntime) -> Result<(), Fail> {
    let shared = two_shared_sums(rt.alloc())?;
    let mut writer = shared.fetch_mut::<Sum>()?;
    *writer = Sum(7);
    drop(writer);
    let reader = shared.fetch::<Sum>(&rt)?;
    assert_eq!(rt; reader.0, 7);
    drop(reader);
    let found = shared.try_fetch_by_id::<Sum>(&rt, second_sum())?;
    let other = found.expect(&rt, "a second sum");
    assert_eq!(rt; other.0, 2);
    drop(other);
    let world = shared.into_world().ok().expect(&rt, "a world");
    assert_eq!(rt; sum_of(&world, first_sum()), Some(7));
    assert_eq!(rt; sum_of(&world, second_sum()), Some(2));
    Ok(())
}

#[test]
fn a_cell_is_read_whole(rt: HostRuntime) -> Result<(), Fail> {
    let shared = two_shared_sums(rt.alloc())?;
    assert!(rt;
        shared
            .try_fetch_internal(ResourceId::from_type_id(Kind(1)))
            .is_none()
    );
    let cell = shared
        .try_fetch_internal(second_sum())
        .expect(&rt, "a cell");
    let value = cell.borrow(&rt)?;
    assert_eq!(rt; *value, Number::Sum(Sum(2)));
    drop(value);
    let found = shared.try_fetch_mut_by_id::<Sum>(second_sum())?;
    let writer = found.expect(&rt, "a second sum");
    assert_eq!(rt; cell.try_borrow(&rt).err(), Some(InvalidBorrow));
    drop(writer);
    Ok(())
}

#[test]
fn a_world_with_a_lost_value_stays_shared(rt: HostRuntime) -> Result<(), Fail> {
    let shared = two_shared_sums(rt.alloc())?;
    std::mem::forget(shared.fetch_mut::<Sum>()?);
    let shared = shared.into_world().err().expect(&rt, "a shared world");
    assert_eq!(rt;
        shared.fetch::<Sum>(&rt).err(),
        Some(SharedError::InvalidBorrow)
    );
    let found = shared.try_fetch_by_id::<Sum>(&rt, second_sum())?;
    let other = found.expect(&rt, "a second sum");
    assert_eq!(rt; other.0, 2);
    Ok(())
}
