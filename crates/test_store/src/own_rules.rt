//! Rules of the caller's own.
ghost use Rattle.std.specs.Prelude.{◌-ℤ◌, ◌<ℤ◌, ◌⊎◌, pos};
ghost use Rattle.shredstore.specs.Meaning.{checked};

use shredstore::{RuleStore, TableRule, TickError};
use std::test::Fail;

/// Takes from what an entity has in the first table what it has in the second.
#[derive(Clone, Copy)]
struct Takes(u64, u64);

impl TableRule for Takes {
    ghost meaning = { λ rule. checked rule.0 rule.1 (λ value more. value -ℤ more) };

    fn writes(&self) -> u64 {
        self.0
    }

    fn reads(&self) -> u64 {
        self.1
    }

    fn make(&self, value: i64, beside: i64) -> Option<i64> {
        value.checked_sub(beside)
    }
}

/// Twice from table 0, and what is in table 1 from itself.
const TAKES: [Takes; 3] = [Takes(0, 1), Takes(0, 1), Takes(1, 1)];

#[test]
fn they_are_applied_in_order(rt: HostRuntime) -> Result<(), Fail> {
    let mut store = RuleStore::new(rt.alloc(), 2, &TAKES)?;
    let (first, second) = (store.create()?, store.create()?);
    store.set(first, 0, 10)?;
    store.set(first, 1, 3)?;
    store.set(second, 0, 5)?;
    store.tick(&rt)?;
    assert_eq!(rt;
        (store.get(first, 0), store.get(first, 1)),
        (Some(4), Some(0))
    );
    assert_eq!(rt;
        (store.get(second, 0), store.get(second, 1)),
        (Some(5), None)
    );
    store.tick_seq()?;
    assert_eq!(rt; store.get(first, 0), Some(4));
    Ok(())
}

/// Pays from what an entity has in the first table what it has in the second, refused where that is less than 0 or too much.
#[derive(Clone, Copy)]
struct Pays(u64, u64);

impl TableRule for Pays {
    ghost meaning = { λ rule. record { written = rule.0; read = rule.1; made = λ purse price. purse -ℤ price; refused = λ purse price. (price <ℤ pos 0) ⊎ (purse <ℤ price) } };

    fn writes(&self) -> u64 {
        self.0
    }

    fn reads(&self) -> u64 {
        self.1
    }

    fn make(&self, purse: i64, price: i64) -> Option<i64> {
        if price < 0 || purse < price {
            return None;
        }
        Some(purse - price)
    }
}

#[test]
fn a_rule_refuses_for_a_reason_of_its_own(rt: HostRuntime) -> Result<(), Fail> {
    let mut store = RuleStore::new(rt.alloc(), 2, &[Pays(0, 1)])?;
    let (first, second, third) = (store.create()?, store.create()?, store.create()?);
    for (entity, purse, price) in [(first, 9, 2), (second, 3, 4), (third, 1, 2)] {
        store.set(entity, 0, purse)?;
        store.set(entity, 1, price)?;
    }
    let refused = TickError::Overflow { rule: 0, entity: 1 };
    assert_eq!(rt; store.tick(&rt), Err(refused));
    assert_eq!(rt;
        (store.get(first, 0), store.get(second, 0)),
        (Some(9), Some(3))
    );
    store.remove(third, 1);
    store.set(second, 1, 3)?;
    store.tick(&rt)?;
    assert_eq!(rt;
        (store.get(first, 0), store.get(second, 0)),
        (Some(7), Some(0))
    );
    assert_eq!(rt; store.get(third, 0), Some(1));
    Ok(())
}

#[test]
fn the_least_entity_is_told(rt: HostRuntime) -> Result<(), Fail> {
    let mut store = RuleStore::new(rt.alloc(), 2, &TAKES)?;
    let (first, second) = (store.create()?, store.create()?);
    store.set(first, 0, 1)?;
    store.set(first, 1, 1)?;
    store.set(second, 0, i64::MIN + 1)?;
    store.set(second, 1, 1)?;
    let refused = TickError::Overflow { rule: 1, entity: 1 };
    assert_eq!(rt; store.tick(&rt), Err(refused));
    assert_eq!(rt;
        (store.get(first, 0), store.get(second, 0)),
        (Some(0), Some(i64::MIN))
    );
    Ok(())
}
