//! The store.
ghost use Rattle.std.specs.Prelude.{◌≡◌, IfOk};
ghost use Rattle.shred.specs.Dispatchers.{dispatcher_with};
ghost use Rattle.shred.specs.KeptDispatchers.{dispatcher_of as of_kept};
ghost use Rattle.shredstore.specs.Contents.{IsEmpty};
ghost use Rattle.shredstore.specs.EntityFacts.{contents_in};
ghost use Rattle.shredstore.specs.Plans.{RunsOverAny};
ghost use Rattle.shredstore.specs.Rules.{first_missing, missing};
ghost use Rattle.shredstore.specs.Ticks.{IsOfSystems, RanRules, Tells};

use crate::entities::Entities;
use crate::entity::Entity;
use crate::error::{StoreError, TickError};
use crate::planning::{KeptRules, RuleDispatcher, RunsRules, dispatcher_of, kept_of};
use crate::rows::Rows;
use crate::rule::{Overflow, StoreRule};
use crate::table_rule::TableRule;
use shred::{DispatchError, Fault, Fetch, Only, OutOfMemory, World};
use std::alloc::{AllocFailed, Global};
use std::sync::Wait;
use std::thread::Threads;

/// Entities with values in tables, and rules that each tick applies, by what runs them.
#[derive(Drop)]
pub struct StoreOver<R, D: RunsRules<R>> {
    pub(crate) entities: Entities,
    pub(crate) rules: Vec<R>,
    pub(crate) runner: D,
    ghost runs_rules: { ∥ D.runs runner rules.items ∥₁ },
}

/// A store with rules of the caller's own.
pub type RuleStore<R> = StoreOver<R, RuleDispatcher<R>>;

/// A store whose rules are `StoreRule`s.
pub type Store = RuleStore<StoreRule>;

/// A store whose rules run on workers that are kept.
pub type KeptStore<T, R> = StoreOver<R, KeptRules<T, R>>;

// The first table of the rules that is not among so many.
fn first_missing<R: TableRule>(tables: u64, rules: &[R]) -> Option<u64>
    ensures { result ≡ first_missing R.meaning tables rules.now }
{
    for rule in rules {
        if let Some(table) = missing(tables, rule) {
            return Some(table);
        }
    }
    None
}

// The first table of the rule that is not among so many.
fn missing<R: TableRule>(tables: u64, rule: &R) -> Option<u64>
    ensures { result ≡ missing tables (R.meaning rule.now) }
{
    let (written, read) = (rule.writes(), rule.reads());
    if written >= tables {
        Some(written)
    } else if read >= tables {
        Some(read)
    } else {
        None
    }
}

// What a tick tells of a dispatch.
fn told(answer: Result<(), DispatchError<Overflow>>) -> Result<(), TickError>
    requires { IsOfSystems answer }
    ensures { Tells answer result }
{
    match answer {
        Ok(()) => Ok(()),
        Err(DispatchError::System { id, fault }) => match fault {
            Fault::Refused(overflow) => Err(TickError::Overflow {
                rule: id.0,
                entity: overflow.entity,
            }),
            Fault::OutOfMemory => Err(TickError::RuleMemory { rule: id.0 }),
        },
        Err(DispatchError::ThreadLocal { .. }) => unreachable!(),
        Err(DispatchError::StageMemory { stage }) => Err(TickError::Memory { stage }),
    }
}

// A dispatch on threads.
fn dispatched<R: TableRule + Send, T: Threads + Sync>(
    rt: &T,
    dispatcher: &mut RuleDispatcher<R>,
    world: &mut World<Only<Rows>>,
) -> Result<(), DispatchError<Overflow>>
    ensures { RanRules R.meaning dispatcher.old dispatcher.new world.old world.new result }
{
    dispatcher.dispatch_par(rt, world)
}

// A dispatch on the caller's thread.
fn dispatched_in_order<R: TableRule>(
    dispatcher: &mut RuleDispatcher<R>,
    world: &mut World<Only<Rows>>,
) -> Result<(), DispatchError<Overflow>>
    ensures { RanRules R.meaning dispatcher.old dispatcher.new world.old world.new result }
{
    dispatcher.dispatch_seq(world)
}

// A dispatch on workers that are kept.
fn dispatched_on_kept<T: Threads + Wait + Drop, R: TableRule>(
    kept: &mut KeptRules<T, R>,
    world: &mut World<Only<Rows>>,
) -> Result<(), DispatchError<Overflow>>
    ensures { RanRules R.meaning (of_kept kept.old) (of_kept kept.new) world.old world.new result }
{
    kept.dispatch_par(world)
}

// A store without entities, with so many tables and these rules.
fn store_of<R: TableRule>(
    alloc: Global,
    tables: u64,
    rules: &[R],
) -> Result<RuleStore<R>, OutOfMemory>
    ensures entities { IfOk result (λ store. IsEmpty tables (contents_in store.entities)) }
    ensures rules { IfOk result (λ store. store.rules.items ≡ rules.now) }
{
    Ok(StoreOver {
        entities: Entities::new(alloc, tables)?,
        rules: Vec::from_slice(alloc, rules)?,
        runner: dispatcher_of(alloc, rules)?,
    })
}

impl<R: TableRule> RuleStore<R> {
    ghost use Rattle.shredstore.specs.Calls.{RefusesMissing};
    ghost use Rattle.shredstore.specs.Stores.{contents_of, rules_of, store_state};
    ghost use Rattle.shredstore.specs.Ticks.{Ticks};

    /// A store without entities, with so many tables, numbered from 0 on, and these rules. `NoSuchTable` for the first rule with a
    /// table that is not among them, and there for its first such table, tested first; else `OutOfMemory`.
    pub fn new(alloc: Global, tables: u64, rules: &[R]) -> Result<Self, StoreError>
        ensures empty { IfOk result (λ store. IsEmpty tables (contents_of store)) }
        ensures rules { IfOk result (λ store. rules_of store ≡ rules.now) }
        ensures refusal { RefusesMissing (first_missing R.meaning tables rules.now) result }
    {
        if let Some(table) = first_missing(tables, rules) {
            return Err(StoreError::NoSuchTable { table });
        }
        match store_of(alloc, tables, rules) {
            Ok(store) => Ok(store),
            Err(_) => Err(StoreError::OutOfMemory),
        }
    }

    /// `tick`, on the caller's thread.
    pub fn tick_seq(&mut self) -> Result<(), TickError>
        ensures { Ticks R.meaning (store_state self.old) result (store_state self.new) }
    {
        told(dispatched_in_order(&mut self.runner, &mut self.entities.world))
    }
}

impl<R, D: RunsRules<R>> StoreOver<R, D> {
    ghost use Rattle.std.specs.Prelude.{◌↔◌, true};
    ghost use Rattle.shredstore.specs.Calls.{CreatesEntity, LendsRows, SetsValue};
    ghost use Rattle.shredstore.specs.Contents.{AreBelowNext, HasNoEntity, IsCleared, IsDeleted, IsValueRemoved, live_in};
    ghost use Rattle.shredstore.specs.Facts.{OnlyLive};
    ghost use Rattle.shredstore.specs.Stores.{contents_of, rules_of};

    /// A live entity, of a number that none had before: 0, 1, 2 and so on. `EntitiesExhausted` where that would be the greatest
    /// number; else `OutOfMemory`. After a refusal the store is as before.
    pub fn create(&mut self) -> Result<Entity, StoreError>
        ensures create { CreatesEntity (contents_of self.old) result (contents_of self.new) }
        ensures rules { rules_of self.new ≡ rules_of self.old }
    {
        self.entities.create()
    }

    /// Whether the entity was live. It is not from now on, and its rows are gone: those of all greater entities are moved, in each table.
    pub fn delete(&mut self, entity: Entity) -> bool
        ensures was_live { result ≡ (contents_of self.old).facts.live entity.0 }
        ensures deleted { IsDeleted (contents_of self.old) (contents_of self.new) entity.0 }
        ensures rules { rules_of self.new ≡ rules_of self.old }
    {
        self.entities.delete(entity)
    }

    /// Gives a live entity a value in a table, and answers the one that it had there. `NoSuchTable`, `NoSuchEntity`, or
    /// `OutOfMemory`, tested in this order. After a refusal the store is as before. The first value of an entity moves those of all
    /// greater entities of the table.
    pub fn set(&mut self, entity: Entity, table: u64, value: i64) -> Result<Option<i64>, StoreError>
        ensures set { SetsValue (contents_of self.old) entity.0 table value result (contents_of self.new) }
        ensures rules { rules_of self.new ≡ rules_of self.old }
    {
        self.entities.set(entity, table, value)
    }

    /// The value of an entity in a table, if it has one there. Live entities alone have values.
    pub fn get(&self, entity: Entity, table: u64) -> Option<i64>
        ensures value { result ≡ (contents_of self.now).facts.value entity.0 table }
        ensures only_live { OnlyLive (contents_of self.now).facts.live (contents_of self.now).facts.value }
    {
        self.entities.get(entity, table)
    }

    /// Whether the entity is live.
    pub fn is_live(&self, entity: Entity) -> bool
        ensures live { result ≡ (contents_of self.now).facts.live entity.0 }
        ensures below { AreBelowNext (contents_of self.now) }
    {
        self.entities.is_live(entity)
    }

    /// How many entities are live.
    pub fn len(&self) -> usize
        ensures count { result ≡ live_in (contents_of self.now) }
        ensures below { AreBelowNext (contents_of self.now) }
    {
        self.entities.len()
    }

    /// Whether no entity is live.
    pub fn is_empty(&self) -> bool
        ensures { (result ≡ true) ↔ HasNoEntity (contents_of self.now) }
    {
        self.entities.is_empty()
    }

    /// Takes away the value of an entity in a table, and answers it: none where it had none there, or where there is no such table or
    /// entity. The values of all greater entities of the table are moved.
    pub fn remove(&mut self, entity: Entity, table: u64) -> Option<i64>
        ensures had { result ≡ (contents_of self.old).facts.value entity.0 table }
        ensures removed { IsValueRemoved (contents_of self.old) (contents_of self.new) entity.0 table }
        ensures rules { rules_of self.new ≡ rules_of self.old }
    {
        self.entities.remove(entity, table)
    }

    /// No entity is live from now on, and none has a value. Their numbers are not used again.
    pub fn clear(&mut self)
        ensures cleared { IsCleared (contents_of self.old) (contents_of self.new) }
        ensures rules { rules_of self.new ≡ rules_of self.old }
    {
        self.entities.clear();
    }

    /// The rows of a table, to be read, gone over and joined. `NoSuchTable` where it is not there.
    pub fn rows(&self, table: u64) -> Result<Fetch<'_, Rows>, StoreError>
        ensures { LendsRows (contents_of self.now) table result }
    {
        self.entities.rows(table)
    }

    /// The rules, in the order given to `new`.
    pub fn rules(&self) -> &[R]
        ensures { result.now ≡ rules_of self.now }
    {
        &self.rules
    }
}

impl<R: TableRule + Send> RuleStore<R> {
    ghost use Rattle.shredstore.specs.Stores.{store_state};
    ghost use Rattle.shredstore.specs.Ticks.{Ticks};

    /// Applies the rules one after the other, in the order given to `new`, those that touch other tables beside each other on
    /// threads. A refused rule ends the tick; what the rules that ran have done stays.
    pub fn tick<T: Threads + Sync>(&mut self, rt: &T) -> Result<(), TickError>
        ensures { Ticks R.meaning (store_state self.old) result (store_state self.new) }
    {
        told(dispatched(rt, &mut self.runner, &mut self.entities.world))
    }
}

impl<R: TableRule + Send + 'static> RuleStore<R> {
    ghost use Rattle.std.specs.Prelude.{IfErr};
    ghost use Rattle.shredstore.specs.Stores.{contents_of, rules_of, threads_of};

    /// The store with workers that are kept: so many threads, the caller's among them. Who waits, a worker or the caller, looks
    /// `looks` times before it sleeps. A worker that cannot be started is one fewer. Where memory is refused, the store comes back.
    pub fn keep<T: Threads + Wait + Clone + Send + 'static>(
        self,
        rt: &T,
        threads: usize,
        looks: u32,
    ) -> Result<KeptStore<T, R>, AllocFailed<RuleStore<R>>>
        ensures contents { IfOk result (λ store. contents_of store ≡ contents_of self) }
        ensures rules { IfOk result (λ store. rules_of store ≡ rules_of self) }
        ensures threads { IfOk result (λ store. threads_of store ≡ threads) }
        ensures back { IfErr result (λ refused. refused.value ≡ self) }
    {
        let alloc = *self.rules.allocator();
        match kept_of(rt, alloc, &self.rules, threads, looks) {
            Ok(runner) => Ok(StoreOver {
                entities: self.entities,
                rules: self.rules,
                runner,
            }),
            Err(_) => Err(AllocFailed { value: self }),
        }
    }
}

impl<T: Threads + Wait + Drop, R: TableRule> KeptStore<T, R> {
    ghost use Rattle.shredstore.specs.Stores.{kept_store_state};
    ghost use Rattle.shredstore.specs.Ticks.{Ticks};

    /// Applies the rules as the `tick` of a `RuleStore` does, those that touch other tables beside each other on the workers that are
    /// free and on the caller's thread. It starts no thread.
    pub fn tick(&mut self) -> Result<(), TickError>
        ensures { Ticks R.meaning (kept_store_state self.old) result (kept_store_state self.new) }
    {
        told(dispatched_on_kept(&mut self.runner, &mut self.entities.world))
    }
}

#[cfg(test)]
mod tests {
    use super::*;
    use std::test::Fail;

    #[test]
    fn no_entity_has_the_greatest_number(rt: HostRuntime) -> Result<(), Fail> {
        let mut store = Store::new(rt.alloc(), 0, &[])?;
        store.entities.next = u64::MAX;
        assert_eq!(rt; store.create(), Err(StoreError::EntitiesExhausted));
        assert!(rt; !store.delete(Entity(u64::MAX)));
        Ok(())
    }
}
