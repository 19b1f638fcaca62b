//! Stores with entities, and what is in their tables.
use shredstore::{Entity, RunsRules, Store, StoreError, StoreOver, StoreRule};
use std::alloc::Global;

/// What an entity has in the tables 0, 1 and 2.
pub type Row = (Option<i64>, Option<i64>, Option<i64>);

/// The sums of tables 0 and 1 go into table 0, those of 2 and 0 into 2, and table 1 becomes 5.
pub const RULES: [StoreRule; 3] = [
    StoreRule::Add(0, 1),
    StoreRule::Add(2, 0),
    StoreRule::Set(1, 5),
];

fn set(
    store: &mut Store,
    entity: Entity,
    table: u64,
    value: Option<i64>,
) -> Result<(), StoreError> {
    if let Some(value) = value {
        store.set(entity, table, value)?;
    }
    Ok(())
}

/// Another entity, with these values.
pub fn add_row(store: &mut Store, row: Row) -> Result<Entity, StoreError> {
    let entity = store.create()?;
    set(store, entity, 0, row.0)?;
    set(store, entity, 1, row.1)?;
    set(store, entity, 2, row.2)?;
    Ok(entity)
}

/// What the entity has.
pub fn row_of<R, D: RunsRules<R>>(store: &StoreOver<R, D>, entity: Entity) -> Row {
    (
        store.get(entity, 0),
        store.get(entity, 1),
        store.get(entity, 2),
    )
}

/// Three tables and the rules above, with two entities.
pub fn two_entities(alloc: Global) -> Result<(Store, Entity, Entity), StoreError> {
    let mut store = Store::new(alloc, 3, &RULES)?;
    let first = add_row(&mut store, (Some(1), Some(2), Some(0)))?;
    let second = add_row(&mut store, (Some(10), None, Some(7)))?;
    Ok((store, first, second))
}
