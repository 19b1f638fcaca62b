//! The store that is shown.
ghost use Rattle.std.specs.Prelude.{◌≡◌, IfOk, OnOk};
ghost use Rattle.script_command.specs.Shown.{demo_rules, HasFirstBefore, HasSecondBefore, HasFirstAfter, HasSecondAfter};
ghost use Rattle.shredstore.specs.Stores.{contents_of, rules_of};

use shredstore::{Store, StoreError, StoreRule, TickError};
use std::alloc::Global;
use std::thread::Threads;

/// The sums of the tables 0 and 1 go into table 0, those of 2 and 0 into 2, and then table 1 becomes 5.
const RULES: [StoreRule; 3] = [
    StoreRule::Add(0, 1),
    StoreRule::Add(2, 0),
    StoreRule::Set(1, 5),
];

/// Three tables, and two entities: 0 with 1, 2 and 0, and 1 with 10, nothing and 7.
pub(crate) fn two_entities(alloc: Global) -> Result<Store, StoreError>
    ensures first { IfOk result (λ store. HasFirstBefore (contents_of store)) }
    ensures second { IfOk result (λ store. HasSecondBefore (contents_of store)) }
    ensures rules { IfOk result (λ store. rules_of store ≡ demo_rules) }
{
    let mut store = Store::new(alloc, 3, &RULES)?;
    let first = store.create()?;
    store.set(first, 0, 1)?;
    store.set(first, 1, 2)?;
    store.set(first, 2, 0)?;
    let second = store.create()?;
    store.set(second, 0, 10)?;
    store.set(second, 2, 7)?;
    Ok(store)
}

/// Ticks twice, on threads.
pub(crate) fn tick_twice<T: Threads + Sync>(rt: &T, store: &mut Store) -> Result<(), TickError>
    ensures first { rules_of store.old ≡ demo_rules → HasFirstBefore (contents_of store.old) → OnOk result (HasFirstAfter (contents_of store.new)) }
    ensures second { rules_of store.old ≡ demo_rules → HasSecondBefore (contents_of store.old) → OnOk result (HasSecondAfter (contents_of store.new)) }
{
    store.tick(rt)?;
    store.tick(rt)
}
