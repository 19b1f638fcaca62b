//! Few rows beside many, so that most of the many are passed by.
use shredstore::{Entity, Store, StoreError, StoreRule};
use std::alloc::Global;
use std::test::Fail;

/// A hundred entities, each with its number in table 0; three of them have 1000 in table 1.
fn hundred(alloc: Global, rule: StoreRule) -> Result<Store, StoreError> {
    let mut store = Store::new(alloc, 2, &[rule])?;
    for number in 0..100i64 {
        let entity = store.create()?;
        store.set(entity, 0, number)?;
        if number == 0 || number == 50 || number == 99 {
            store.set(entity, 1, 1000)?;
        }
    }
    Ok(store)
}

#[test]
fn few_are_joined_with_many(rt: HostRuntime) -> Result<(), Fail> {
    let store = hundred(rt.alloc(), StoreRule::Set(0, 0))?;
    let (many, few) = (store.rows(0)?, store.rows(1)?);
    let mut both = few.joined(&many);
    assert_eq!(rt; both.next(), Some((Entity(0), (1000, 0))));
    assert_eq!(rt; both.next(), Some((Entity(50), (1000, 50))));
    assert_eq!(rt; both.next(), Some((Entity(99), (1000, 99))));
    assert_eq!(rt; both.next(), None);
    Ok(())
}

#[test]
fn many_are_joined_with_few(rt: HostRuntime) -> Result<(), Fail> {
    let store = hundred(rt.alloc(), StoreRule::Set(0, 0))?;
    let (many, few) = (store.rows(0)?, store.rows(1)?);
    let mut both = many.joined(&few);
    assert_eq!(rt; both.next(), Some((Entity(0), (0, 1000))));
    assert_eq!(rt; both.next(), Some((Entity(50), (50, 1000))));
    assert_eq!(rt; both.next(), Some((Entity(99), (99, 1000))));
    assert_eq!(rt; both.next(), None);
    Ok(())
}

// What the entity of this number has.
fn pair_of(store: &Store, number: u64) -> (Option<i64>, Option<i64>) {
    let entity = Entity(number);
    (store.get(entity, 0), store.get(entity, 1))
}

#[test]
fn many_are_added_to_few(rt: HostRuntime) -> Result<(), Fail> {
    let mut store = hundred(rt.alloc(), StoreRule::Add(1, 0))?;
    store.tick_seq()?;
    assert_eq!(rt; pair_of(&store, 0), (Some(0), Some(1000)));
    assert_eq!(rt; pair_of(&store, 49), (Some(49), None));
    assert_eq!(rt; pair_of(&store, 50), (Some(50), Some(1050)));
    assert_eq!(rt; pair_of(&store, 99), (Some(99), Some(1099)));
    Ok(())
}

#[test]
fn few_are_added_to_many(rt: HostRuntime) -> Result<(), Fail> {
    let mut store = hundred(rt.alloc(), StoreRule::Add(0, 1))?;
    store.tick_seq()?;
    assert_eq!(rt; pair_of(&store, 0), (Some(1000), Some(1000)));
    assert_eq!(rt; pair_of(&store, 1), (Some(1), None));
    assert_eq!(rt; pair_of(&store, 50), (Some(1050), Some(1000)));
    assert_eq!(rt; pair_of(&store, 51), (Some(51), None));
    assert_eq!(rt; pair_of(&store, 99), (Some(1099), Some(1000)));
    Ok(())
}
