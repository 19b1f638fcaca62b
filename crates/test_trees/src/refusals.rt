//! Trees whose memory is refused: each answers as with ample memory, or that memory is wanting. They pass whichever request
//! is refused.

use crate::adds::{DONE, adds_to, ended, looks_at};
use crate::counts::tick_of;
use shred::{Fault, Nil, Only, Par, ParError, ParSeq, RunWithPool, World, only_id, par, seq};
use std::alloc::Global;
use std::process::Abort;
use std::sync::atomic::{AtomicU64, Ordering};
use std::test::Fail;

/// How a run ends that wants memory.
const WANTS: (&str, u8) = ("out of memory", 0);

/// What a count is, where it is held.
fn count_of(world: &World<Only<i64>>, number: u64) -> Option<i64> {
    match world.try_fetch_by_id::<i64>(only_id(number)) {
        Ok(Some(held)) => Some(*held),
        _ => None,
    }
}

/// A world of so many counts, each of them 0, where there is memory for it.
fn world_of(alloc: Global, count: u64) -> Option<World<Only<i64>>> {
    let mut world = World::empty(alloc);
    for number in 0..count {
        if world.insert_by_id(only_id(number), 0).is_err() {
            return None;
        }
    }
    Some(world)
}

#[test]
fn a_conflict_is_told_or_memory_is_wanting(rt: HostRuntime) {
    let par: Par<Only<i64>, u8, _, Nil> = Par::new(adds_to(0, 1));
    let refused = par.with(rt.alloc(), looks_at(0)).err();
    assert!(rt; matches!(refused, Some(ParError::Conflict | ParError::OutOfMemory)));
}

#[test]
fn three_beside_each_other_all_run_or_want_memory(rt: HostRuntime) -> Result<(), Fail> {
    let counter = AtomicU64::new(0);
    let made: Result<Par<Only<i64>, u8, _, Nil>, ParError> =
        par![rt.alloc(); tick_of(&counter), tick_of(&counter), tick_of(&counter),];
    let tree = match made {
        Ok(tree) => tree,
        Err(refused) => {
            assert_eq!(rt; refused, ParError::OutOfMemory);
            return Ok(());
        }
    };
    let mut par_seq = ParSeq::new(tree, 2);
    let mut world: World<Only<i64>> = World::empty(rt.alloc());
    let end = ended(par_seq.dispatch(&rt, &mut world));
    let runs = counter.load(Ordering::SeqCst);
    assert!(rt; end == DONE || end == WANTS);
    assert!(rt; end != DONE || runs == 3);
    assert!(rt; runs <= 3);
    Ok(())
}

#[test]
fn a_tree_of_three_levels_leaves_its_end_or_wants_memory(rt: HostRuntime) -> Result<(), Fail> {
    let inner: Result<Par<Only<i64>, u8, _, Nil>, ParError> =
        par![rt.alloc(); adds_to(1, 5), adds_to(2, 7),];
    let Ok(inner) = inner else {
        return Ok(());
    };
    let made: Result<Par<Only<i64>, u8, _, Nil>, ParError> =
        par![rt.alloc(); adds_to(0, 1), seq![inner, adds_to(1, 3),],];
    let tree = match made {
        Ok(tree) => tree,
        Err(refused) => {
            assert_eq!(rt; refused, ParError::OutOfMemory);
            return Ok(());
        }
    };
    let Some(mut world) = world_of(rt.alloc(), 3) else {
        return Ok(());
    };
    let mut par_seq = ParSeq::new(tree, 2);
    let end = ended(par_seq.dispatch(&rt, &mut world));
    assert!(rt; end == DONE || end == WANTS);
    assert!(rt; end != DONE || count_of(&world, 0) == Some(1));
    assert!(rt; end != DONE || count_of(&world, 1) == Some(8));
    assert!(rt; end != DONE || count_of(&world, 2) == Some(7));
    // Where the first run was refused the one request that is, the next is not.
    let next = ended(par_seq.dispatch(&rt, &mut world));
    assert!(rt; next == DONE || next == WANTS);
    assert!(rt; end == DONE || next == DONE);
    Ok(())
}
