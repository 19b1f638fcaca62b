//! Memory that is refused, by `rt try --test --fail-alloc N` for each N: these pass whatever request is refused.
use crate::stores::{RULES, Row, row_of};
use script_command::demo;
use shredstore::{Entity, Store, StoreError};

#[test]
fn a_store_is_made_or_memory_is_wanting(rt: HostRuntime) {
    match Store::new(rt.alloc(), 3, &RULES) {
        Ok(store) => assert_eq!(rt; store.get(Entity(0), 0), None),
        Err(error) => assert_eq!(rt; error, StoreError::OutOfMemory),
    }
}

// The next entity, asked for again where memory was wanting.
fn created(store: &mut Store) -> Result<Entity, StoreError> {
    match store.create() {
        Err(StoreError::OutOfMemory) => store.create(),
        answer => answer,
    }
}

// Sets a value, and again where memory was wanting.
fn set(
    store: &mut Store,
    entity: Entity,
    table: u64,
    value: i64,
) -> Result<Option<i64>, StoreError> {
    match store.set(entity, table, value) {
        Err(StoreError::OutOfMemory) => store.set(entity, table, value),
        answer => answer,
    }
}

// What it has after a tick, which takes no memory but that of a thread's start.
const ROW: Row = (Some(3), Some(5), None);

#[test]
fn a_call_that_finds_no_memory_is_made_again(rt: HostRuntime) {
    let Ok(mut store) = Store::new(rt.alloc(), 3, &RULES) else {
        return;
    };
    let entity = Entity(0);
    assert_eq!(rt; created(&mut store), Ok(entity));
    assert_eq!(rt; set(&mut store, entity, 0, 1), Ok(None));
    assert_eq!(rt; set(&mut store, entity, 1, 2), Ok(None));
    assert_eq!(rt; store.tick(&rt), Ok(()));
    assert_eq!(rt; row_of(&store, entity), ROW);
}

#[test]
fn a_demo_is_shown_or_fails(rt: HostRuntime) {
    let (mut bytes, mut err_bytes) = ([0; 24], [0; 12]);
    let (mut out, mut err) = (bytes.as_mut_slice(), err_bytes.as_mut_slice());
    let status = demo(&rt, rt.alloc(), &mut out, &mut err);
    if status == 0 {
        assert_eq!(rt; &bytes, b"e0 8 5 11\ne1 10 - 27\nok\n");
        assert_eq!(rt; err_bytes, [0; 12]);
    } else {
        assert_eq!(rt; status, 1);
        assert_eq!(rt; bytes, [0; 24]);
        assert_eq!(rt; &err_bytes, b"demo failed\n");
    }
}
