//! Poison takes from the health of those who have it, and wears off.
#![tactic(auto)]

ghost use Rattle.std.specs.Prelude.{◌-ℤ◌};
ghost use Rattle.shredstore.specs.Meaning.{checked};

use shredstore::{RuleStore, TableRule};

const HEALTH: u64 = 0;

const POISON: u64 = 1;

const CURE: u64 = 2;

/// Takes from what an entity has in the first table what it has in the second.
#[derive(Clone, Copy)]
struct Takes(u64, u64);

impl TableRule for Takes {
    ghost meaning = { λ rule. checked rule.0 rule.1 (λ value more. value -ℤ more) };

    fn writes(&self) -> u64 {
        self.0
    }

    fn reads(&self) -> u64 {
        self.1
    }

    fn make(&self, value: i64, beside: i64) -> Option<i64> {
        value.checked_sub(beside)
    }
}

fn main(rt: HostRuntime) -> anyhow::Result<()> {
    let rules = [Takes(HEALTH, POISON), Takes(POISON, CURE)];
    let mut store = RuleStore::new(rt.alloc(), 3, &rules)?;
    let (hero, rat) = (store.create()?, store.create()?);
    for (table, value) in [(HEALTH, 20), (POISON, 4), (CURE, 1)] {
        store.set(hero, table, value)?;
    }
    store.set(rat, HEALTH, 5)?;
    for _ in 0..3 {
        store.tick(&rt)?;
    }
    let (health, poison) = (store.rows(HEALTH)?, store.rows(POISON)?);
    for (entity, value) in health.values() {
        println!(rt; "{}: health {value}", entity.0)?;
    }
    for (entity, (value, dose)) in health.joined(&poison) {
        println!(rt; "{}: health {value}, poison {dose}", entity.0)?;
    }
    Ok(())
}
