//! What ticks leave.
use crate::stores::{RULES, add_row, row_of, two_entities};
use shredstore::{Store, StoreRule, TickError};
use std::test::Fail;

#[test]
fn rules_are_applied_in_order(rt: HostRuntime) -> Result<(), Fail> {
    let (mut store, first, second) = two_entities(rt.alloc())?;
    store.tick(&rt)?;
    assert_eq!(rt; row_of(&store, first), (Some(3), Some(5), Some(3)));
    assert_eq!(rt; row_of(&store, second), (Some(10), None, Some(17)));
    store.tick(&rt)?;
    assert_eq!(rt; row_of(&store, first), (Some(8), Some(5), Some(11)));
    assert_eq!(rt; row_of(&store, second), (Some(10), None, Some(27)));
    Ok(())
}

#[test]
fn on_the_callers_thread_they_leave_the_same(rt: HostRuntime) -> Result<(), Fail> {
    let (mut store, first, second) = two_entities(rt.alloc())?;
    store.tick_seq()?;
    assert_eq!(rt; row_of(&store, first), (Some(3), Some(5), Some(3)));
    assert_eq!(rt; row_of(&store, second), (Some(10), None, Some(17)));
    store.tick_seq()?;
    assert_eq!(rt; row_of(&store, first), (Some(8), Some(5), Some(11)));
    assert_eq!(rt; row_of(&store, second), (Some(10), None, Some(27)));
    Ok(())
}

#[test]
fn a_sum_that_does_not_fit_is_refused(rt: HostRuntime) -> Result<(), Fail> {
    let mut store = Store::new(rt.alloc(), 3, &RULES)?;
    let entity = add_row(&mut store, (Some(i64::MAX), Some(1), Some(0)))?;
    let refused = TickError::Overflow { rule: 0, entity: 0 };
    assert_eq!(rt; store.tick(&rt), Err(refused));
    assert_eq!(rt; row_of(&store, entity), (Some(i64::MAX), Some(1), Some(0)));
    assert_eq!(rt; store.tick_seq(), Err(refused));
    assert_eq!(rt; row_of(&store, entity), (Some(i64::MAX), Some(1), Some(0)));
    Ok(())
}

#[test]
fn the_least_entity_is_told(rt: HostRuntime) -> Result<(), Fail> {
    let mut store = Store::new(rt.alloc(), 3, &[StoreRule::Add(1, 0)])?;
    add_row(&mut store, (Some(1), Some(1), None))?;
    add_row(&mut store, (Some(-1), Some(i64::MIN), None))?;
    add_row(&mut store, (Some(1), Some(i64::MAX), None))?;
    let refused = TickError::Overflow { rule: 0, entity: 1 };
    assert_eq!(rt; store.tick(&rt), Err(refused));
    Ok(())
}

#[test]
fn a_table_added_to_itself_is_doubled(rt: HostRuntime) -> Result<(), Fail> {
    let mut store = Store::new(rt.alloc(), 3, &[StoreRule::Add(0, 0)])?;
    let entity = add_row(&mut store, (Some(-21), Some(4), None))?;
    store.tick(&rt)?;
    assert_eq!(rt; row_of(&store, entity), (Some(-42), Some(4), None));
    Ok(())
}
