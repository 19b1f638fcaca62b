//! A system that keeps a list, and ends in want of memory where that has no room.

use shred::RunNow;
use shred::prelude::*;
use std::process::Abort;
use std::test::Fail;

type Value = OneOf2<i64, i64>;

/// Keeps each first number that it sees. The second becomes the one that it saw first.
#[derive(Drop)]
struct Keeps {
    seen: Vec<i64>,
}

impl TypedSystem<Value> for Keeps {
    type Data = Uses<First<i64>, Second<i64>>;

    fn run(&mut self, view: &View<Value>, oldest: &mut Second<i64>) -> Ran {
        self.seen.push(view.fetch::<First<i64>>()?.0)?;
        if let Some(number) = self.seen.first() {
            oldest.0 = *number;
        }
        Ok(())
    }
}

#[test]
fn a_system_keeps_what_it_has_seen(rt: HostRuntime) -> Result<(), Fail> {
    let mut keeps = Now(Typed(Keeps {
        seen: Vec::new(rt.alloc()),
    }));
    let mut world: World<Value> = World::empty(rt.alloc());
    world.insert(Second(0))?;
    for number in [3, 5, 7] {
        world.insert(First(number))?;
        assert!(rt; keeps.run_now(&rt, world.local()).is_ok());
    }
    assert_eq!(rt; keeps.0.0.seen.as_slice(), [3, 5, 7].as_slice());
    assert_eq!(rt;
        world.try_fetch::<Second<i64>>().map_or(0, |held| held.0),
        3
    );
    Ok(())
}
