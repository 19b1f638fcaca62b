//! What the calls of a store answer.
use crate::stores::{RULES, row_of, two_entities};
use shredstore::{Entity, Store, StoreError, StoreRule};
use std::test::Fail;

// Why no store is made, if none is.
fn refusal(store: Result<Store, StoreError>) -> Option<StoreError> {
    store.err()
}

#[test]
fn a_rule_names_tables_that_are_there(rt: HostRuntime) {
    let rules = [StoreRule::Add(0, 1)];
    let missing = StoreError::NoSuchTable { table: 1 };
    assert_eq!(rt; refusal(Store::new(rt.alloc(), 1, &rules)), Some(missing));
}

#[test]
fn the_first_table_that_is_missing_is_told(rt: HostRuntime) {
    let rules = [
        StoreRule::Set(1, 4),
        StoreRule::Add(9, 8),
        StoreRule::Set(7, 0),
    ];
    let missing = StoreError::NoSuchTable { table: 9 };
    assert_eq!(rt; refusal(Store::new(rt.alloc(), 2, &rules)), Some(missing));
}

#[test]
fn a_deleted_entity_has_no_rows(rt: HostRuntime) -> Result<(), Fail> {
    let (mut store, first, second) = two_entities(rt.alloc())?;
    assert!(rt; store.delete(first));
    assert!(rt; !store.delete(first));
    assert_eq!(rt; row_of(&store, first), (None, None, None));
    assert_eq!(rt; row_of(&store, second), (Some(10), None, Some(7)));
    assert_eq!(rt; store.set(first, 0, 1), Err(StoreError::NoSuchEntity));
    let missing = StoreError::NoSuchTable { table: 3 };
    assert_eq!(rt; store.set(first, 3, 1), Err(missing));
    Ok(())
}

#[test]
fn numbers_are_never_used_again(rt: HostRuntime) -> Result<(), Fail> {
    let (mut store, first, second) = two_entities(rt.alloc())?;
    assert_eq!(rt; (first, second), (Entity(0), Entity(1)));
    store.delete(second);
    assert_eq!(rt; store.create(), Ok(Entity(2)));
    assert_eq!(rt; row_of(&store, Entity(2)), (None, None, None));
    Ok(())
}

#[test]
fn a_set_answers_the_old_value(rt: HostRuntime) -> Result<(), Fail> {
    let (mut store, first, second) = two_entities(rt.alloc())?;
    assert_eq!(rt; store.set(first, 1, -3), Ok(Some(2)));
    assert_eq!(rt; store.set(second, 1, 6), Ok(None));
    assert_eq!(rt; store.get(first, 1), Some(-3));
    assert_eq!(rt; store.get(second, 1), Some(6));
    assert_eq!(rt; store.get(second, 3), None);
    Ok(())
}

#[test]
fn the_rules_are_those_that_were_given(rt: HostRuntime) -> Result<(), Fail> {
    let (store, _, _) = two_entities(rt.alloc())?;
    assert_eq!(rt; store.rules(), RULES.as_slice());
    Ok(())
}
