//! Entities, and their values in tables.
ghost use Rattle.shredstore.specs.Held.{AreBelow, AreOfLive, HasTables};

use crate::entity::Entity;
use crate::error::StoreError;
use crate::rows::Rows;
use crate::tables::{
    clear_everywhere, empty_tables, remove_everywhere, remove_in, rows_of, set_in, value_in,
};
use shred::{Fetch, Only, OutOfMemory, World};
use std::alloc::Global;
use std::collections::BTreeSet;

/// Which entities are live, and the values that they have in tables.
#[derive(Drop)]
pub struct Entities {
    pub(crate) tables: u64,
    pub(crate) next: u64,
    pub(crate) live: BTreeSet<u64>,
    pub(crate) world: World<Only<Rows>>,
    ghost has_tables: { HasTables tables world },
    ghost below: { AreBelow next live },
    ghost of_live: { AreOfLive live world },
}

impl Entities {
    ghost use Rattle.std.specs.Prelude.{◌≡◌, ◌↔◌, true, IfOk};
    ghost use Rattle.shredstore.specs.Calls.{CreatesEntity, LendsRows, SetsValue};
    ghost use Rattle.shredstore.specs.Contents.{AreBelowNext, HasNoEntity, IsCleared, IsDeleted, IsEmpty, IsValueRemoved, live_in};
    ghost use Rattle.shredstore.specs.EntityFacts.{contents_in};
    ghost use Rattle.shredstore.specs.Facts.{OnlyLive};

    /// No entity is live, and there are so many tables.
    pub fn new(alloc: Global, tables: u64) -> Result<Self, OutOfMemory>
        ensures { IfOk result (λ entities. IsEmpty tables (contents_in entities)) }
    {
        Ok(Entities {
            tables,
            next: 0,
            live: BTreeSet::new(alloc),
            world: empty_tables(alloc, tables)?,
        })
    }

    /// A live entity, of a number that none had before: 0, 1, 2 and so on. `EntitiesExhausted` where that would be the greatest
    /// number; else `OutOfMemory`. After a refusal all is as before.
    pub fn create(&mut self) -> Result<Entity, StoreError>
        ensures { CreatesEntity (contents_in self.old) result (contents_in self.new) }
    {
        if self.next == u64::MAX {
            return Err(StoreError::EntitiesExhausted);
        }
        if self.live.insert(self.next).is_err() {
            return Err(StoreError::OutOfMemory);
        }
        let entity = Entity(self.next);
        self.next += 1;
        Ok(entity)
    }

    /// Whether the entity was live. It is not from now on, and has no values: those of all greater entities are moved, in each table.
    pub fn delete(&mut self, entity: Entity) -> bool
        ensures was_live { result ≡ (contents_in self.old).facts.live entity.0 }
        ensures deleted { IsDeleted (contents_in self.old) (contents_in self.new) entity.0 }
    {
        if !self.live.contains(&entity.0) {
            return false;
        }
        remove_everywhere(&mut self.world, self.tables, entity.0);
        self.live.remove(&entity.0);
        true
    }

    /// Gives a live entity a value in a table, and answers the one that it had there. `NoSuchTable`, `NoSuchEntity`, or
    /// `OutOfMemory`, tested in this order. After a refusal all is as before.
    pub fn set(&mut self, entity: Entity, table: u64, value: i64) -> Result<Option<i64>, StoreError>
        ensures { SetsValue (contents_in self.old) entity.0 table value result (contents_in self.new) }
    {
        if table >= self.tables {
            return Err(StoreError::NoSuchTable { table });
        }
        if !self.live.contains(&entity.0) {
            return Err(StoreError::NoSuchEntity);
        }
        match set_in(&mut self.world, table, entity.0, value) {
            Ok(had) => Ok(had),
            Err(_) => Err(StoreError::OutOfMemory),
        }
    }

    /// The value of an entity in a table, if it has one there. Live entities alone have values.
    pub fn get(&self, entity: Entity, table: u64) -> Option<i64>
        ensures value { result ≡ (contents_in self.now).facts.value entity.0 table }
        ensures only_live { OnlyLive (contents_in self.now).facts.live (contents_in self.now).facts.value }
    {
        value_in(&self.world, table, entity.0)
    }

    /// Whether the entity is live.
    pub fn is_live(&self, entity: Entity) -> bool
        ensures live { result ≡ (contents_in self.now).facts.live entity.0 }
        ensures below { AreBelowNext (contents_in self.now) }
    {
        self.live.contains(&entity.0)
    }

    /// How many entities are live.
    pub fn len(&self) -> usize
        ensures count { result ≡ live_in (contents_in self.now) }
        ensures below { AreBelowNext (contents_in self.now) }
    {
        self.live.len()
    }

    /// Whether no entity is live.
    pub fn is_empty(&self) -> bool
        ensures { (result ≡ true) ↔ HasNoEntity (contents_in self.now) }
    {
        self.live.is_empty()
    }

    /// Takes away the value of an entity in a table, and answers it: none where it had none there, or where there is no such table or
    /// entity. The values of all greater entities of the table are moved.
    pub fn remove(&mut self, entity: Entity, table: u64) -> Option<i64>
        ensures had { result ≡ (contents_in self.old).facts.value entity.0 table }
        ensures removed { IsValueRemoved (contents_in self.old) (contents_in self.new) entity.0 table }
    {
        remove_in(&mut self.world, table, entity.0)
    }

    /// No entity is live from now on, and none has a value. Their numbers are not used again.
    pub fn clear(&mut self)
        ensures { IsCleared (contents_in self.old) (contents_in self.new) }
    {
        clear_everywhere(&mut self.world, self.tables);
        self.live.clear();
    }

    /// The rows of a table, to be read, gone over and joined. `NoSuchTable` where it is not there.
    pub fn rows(&self, table: u64) -> Result<Fetch<'_, Rows>, StoreError>
        ensures { LendsRows (contents_in self.now) table result }
    {
        match rows_of(&self.world, table) {
            Some(rows) => Ok(rows),
            None => Err(StoreError::NoSuchTable { table }),
        }
    }
}
