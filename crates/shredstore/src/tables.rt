//! The tables of a store, in a world.
ghost use Rattle.std.specs.Prelude.{◌≡◌, ◌==◌, None, Some, IfOk, OnErr, OnOk, is_some, true};
ghost use Rattle.shred_world.specs.Worlds.{world_held};
ghost use Rattle.std.specs.Option.{option_map};
ghost use Rattle.shred_world.specs.Fetched.{fetched};
ghost use Rattle.shredstore.specs.Tables.{AreTakenFrom, HasEmptyTables, IsWorldRemade, giving, held_in, table_kind, table_of, values_in};
ghost use Rattle.shred_table.specs.Changes.{Stays, KeepsIdsOf};

use crate::rows::Rows;
use shred::{Fetch, Only, OutOfMemory, World, only_id};
use std::alloc::Global;

/// A world with so many tables, numbered from 0 on, of which none has rows.
pub fn empty_tables(alloc: Global, tables: u64) -> Result<World<Only<Rows>>, OutOfMemory>
    ensures { IfOk result (HasEmptyTables tables) }
{
    let mut world = World::empty(alloc);
    for table in 0..tables {
        match world.insert_by_id(only_id(table), Rows::new(alloc)) {
            Ok(()) => {}
            Err(_) => return Err(OutOfMemory),
        }
    }
    Ok(world)
}

/// The rows of a table, if it is there.
pub fn rows_of(world: &World<Only<Rows>>, table: u64) -> Option<Fetch<'_, Rows>>
    ensures { option_map (λ rows. table_of (fetched rows)) result ≡ held_in world.now table }
{
    match world.try_fetch_by_id::<Rows>(only_id(table)) {
        Ok(rows) => rows,
        Err(_) => unreachable!(),
    }
}

/// The value of an entity in a table, if it has one there.
pub fn value_in(world: &World<Only<Rows>>, table: u64, entity: u64) -> Option<i64>
    ensures { result ≡ values_in (world_held table_kind world.now) entity table }
{
    match rows_of(world, table) {
        Some(rows) => rows.value(entity),
        None => None,
    }
}

/// Gives an entity a value in a table that is there, and answers the one that it had there. `OutOfMemory`, only where it had
/// none; the tables are then as before.
pub fn set_in(
    world: &mut World<Only<Rows>>,
    table: u64,
    entity: u64,
    value: i64,
) -> Result<Option<i64>, OutOfMemory>
    requires { is_some (held_in world.old table) ≡ true }
    ensures had { IfOk result (λ had. had ≡ values_in (world_held table_kind world.old) entity table) }
    ensures set { OnOk result (IsWorldRemade (giving entity (Some value)) table world.old world.new) }
    ensures unchanged { OnErr result (Stays (world_held table_kind) world.old world.new) }
    ensures had_none { OnErr result (values_in (world_held table_kind world.old) entity table ≡ None) }
{
    match world.try_fetch_mut_by_id::<Rows>(only_id(table)) {
        Ok(rows) => rows.set(entity, value),
        Err(_) => unreachable!(),
    }
}

/// Takes away the value of an entity in a table, and answers it, if it had one there.
pub fn remove_in(world: &mut World<Only<Rows>>, table: u64, entity: u64) -> Option<i64>
    ensures had { result ≡ values_in (world_held table_kind world.old) entity table }
    ensures removed { IsWorldRemade (giving entity None) table world.old world.new }
{
    match world.try_fetch_mut_by_id::<Rows>(only_id(table)) {
        Ok(rows) => rows.remove(entity),
        Err(_) => None,
    }
}

// Takes away all values of a table.
fn clear_in(world: &mut World<Only<Rows>>, table: u64)
    ensures { IsWorldRemade (λ other old. None) table world.old world.new }
{
    if let Ok(rows) = world.try_fetch_mut_by_id::<Rows>(only_id(table)) {
        rows.clear();
    }
}

/// Takes away the values of an entity in the first so many tables.
pub fn remove_everywhere(world: &mut World<Only<Rows>>, tables: u64, entity: u64)
    ensures values { AreTakenFrom tables (λ other. entity == other) world.old world.new }
    ensures held { KeepsIdsOf (world_held table_kind) world.old world.new }
{
    for table in 0..tables {
        let _ = remove_in(world, table, entity);
    }
}

/// Takes away all values in the first so many tables.
pub fn clear_everywhere(world: &mut World<Only<Rows>>, tables: u64)
    ensures values { AreTakenFrom tables (λ other. true) world.old world.new }
    ensures held { KeepsIdsOf (world_held table_kind) world.old world.new }
{
    for table in 0..tables {
        clear_in(world, table);
    }
}
