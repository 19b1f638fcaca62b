//! What is gone over, and what is taken away.
use crate::stores::{add_row, row_of, two_entities};
use shredstore::{Entity, Store, StoreError};
use std::test::Fail;

#[test]
fn values_come_in_the_order_of_their_entities(rt: HostRuntime) -> Result<(), Fail> {
    let (mut store, first, _) = two_entities(rt.alloc())?;
    let third = add_row(&mut store, (None, Some(-6), None))?;
    store.delete(first);
    let fourth = add_row(&mut store, (Some(4), Some(8), None))?;
    store.set(third, 0, 9)?;
    let rows = store.rows(0)?;
    assert_eq!(rt; rows.len(), 3);
    let mut values = rows.values();
    assert_eq!(rt; values.next(), Some((Entity(1), 10)));
    assert_eq!(rt; values.next(), Some((third, 9)));
    assert_eq!(rt; values.next(), Some((fourth, 4)));
    assert_eq!(rt; values.next(), None);
    Ok(())
}

#[test]
fn a_join_has_the_entities_with_both_values(rt: HostRuntime) -> Result<(), Fail> {
    let (mut store, first, second) = two_entities(rt.alloc())?;
    let third = add_row(&mut store, (Some(3), Some(5), None))?;
    let (zero, one, two) = (store.rows(0)?, store.rows(1)?, store.rows(2)?);
    let mut both = zero.joined(&two);
    assert_eq!(rt; both.next(), Some((first, (1, 0))));
    assert_eq!(rt; both.next(), Some((second, (10, 7))));
    assert_eq!(rt; both.next(), None);
    let mut both = one.joined(&zero);
    assert_eq!(rt; both.next(), Some((first, (2, 1))));
    assert_eq!(rt; both.next(), Some((third, (5, 3))));
    assert_eq!(rt; both.next(), None);
    let mut both = two.joined(&one);
    assert_eq!(rt; both.next(), Some((first, (0, 2))));
    assert_eq!(rt; both.next(), None);
    Ok(())
}

// Why a table has no rows, if it is not there.
fn refusal(store: &Store, table: u64) -> Option<StoreError> {
    store.rows(table).err()
}

#[test]
fn a_table_that_is_not_there_has_no_rows(rt: HostRuntime) -> Result<(), Fail> {
    let (store, _, _) = two_entities(rt.alloc())?;
    assert_eq!(rt; refusal(&store, 2), None);
    assert_eq!(rt;
        refusal(&store, 3),
        Some(StoreError::NoSuchTable { table: 3 })
    );
    Ok(())
}

#[test]
fn a_removed_value_is_answered_once(rt: HostRuntime) -> Result<(), Fail> {
    let (mut store, first, second) = two_entities(rt.alloc())?;
    assert_eq!(rt; store.remove(first, 1), Some(2));
    assert_eq!(rt; store.remove(first, 1), None);
    assert_eq!(rt; store.remove(first, 3), None);
    assert_eq!(rt; row_of(&store, first), (Some(1), None, Some(0)));
    assert_eq!(rt; row_of(&store, second), (Some(10), None, Some(7)));
    assert!(rt; store.is_live(first));
    assert_eq!(rt; store.set(first, 1, 6), Ok(None));
    Ok(())
}

#[test]
fn a_deleted_entity_is_not_live(rt: HostRuntime) -> Result<(), Fail> {
    let (mut store, first, second) = two_entities(rt.alloc())?;
    assert_eq!(rt; store.len(), 2);
    store.delete(first);
    assert_eq!(rt; store.len(), 1);
    assert!(rt; !store.is_live(first));
    assert!(rt; store.is_live(second));
    assert!(rt; !store.is_live(Entity(2)));
    Ok(())
}

#[test]
fn a_cleared_store_has_no_entity(rt: HostRuntime) -> Result<(), Fail> {
    let (mut store, first, second) = two_entities(rt.alloc())?;
    assert!(rt; !store.is_empty());
    assert!(rt; !store.rows(2)?.is_empty());
    store.clear();
    assert_eq!(rt; store.len(), 0);
    assert!(rt; store.is_empty());
    assert!(rt; !store.is_live(second));
    assert_eq!(rt; row_of(&store, first), (None, None, None));
    assert_eq!(rt; store.rows(0)?.len(), 0);
    assert!(rt; store.rows(2)?.is_empty());
    assert_eq!(rt; store.create(), Ok(Entity(2)));
    Ok(())
}
