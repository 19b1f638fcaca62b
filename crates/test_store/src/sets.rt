//! Rules that only set values, of which a tick's contract alone says that they are never refused.
ghost use Rattle.shredstore.specs.Stores.{rules_of};
ghost use Rattle.test_store.specs.Sets.{AreSets, TellsNone};

use shredstore::{Store, StoreRule, TickError};
use std::test::Fail;

/// A tick of rules of which none adds.
fn tick_of_sets(store: &mut Store) -> Result<(), TickError>
    requires { AreSets (rules_of store.old) }
    ensures { TellsNone result }
{
    store.tick_seq()
}

#[test]
fn a_set_is_never_refused(rt: HostRuntime) -> Result<(), Fail> {
    let rules = [StoreRule::Set(0, i64::MIN), StoreRule::Set(1, i64::MAX)];
    let mut store = Store::new(rt.alloc(), 2, &rules)?;
    let entity = store.create()?;
    store.set(entity, 0, i64::MAX)?;
    store.set(entity, 1, 3)?;
    tick_of_sets(&mut store)?;
    assert_eq!(rt;
        (store.get(entity, 0), store.get(entity, 1)),
        (Some(i64::MIN), Some(i64::MAX))
    );
    Ok(())
}
