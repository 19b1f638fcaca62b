//! A system that waits for what its caller does only after the dispatch.

use crate::ended::{DONE, ended};
use shred::{AsyncDispatcher, DispatcherBuilder, Only, Plain, World};
use std::alloc::Global;
use std::sync::atomic::Ordering;
use std::test::Fail;
use std::thread;
use test_meeting::{Meets, TURNS, VAIN, nobody, sees, waits_for};

type Builder = DispatcherBuilder<Only<i64>, Plain<Meets>>;

type Waiting = AsyncDispatcher<Only<i64>, Plain<Meets>>;

/// Whether it says in so many turns that no run goes on.
fn comes_to_its_end(dispatcher: &mut Waiting) -> bool {
    for _ in 0..TURNS {
        if dispatcher.running().ok() == Some(false) {
            return true;
        }
        thread::yield_now();
    }
    false
}

#[test]
fn gate_async(rt: HostRuntime) -> Result<(), Fail> {
    let arrived = nobody(rt.alloc())?;
    let mut builder: Builder = DispatcherBuilder::new(rt.alloc());
    builder.add(waits_for(&arrived, 2, TURNS)?, "", &[])?;
    let mut dispatcher: Waiting = builder.build_async(World::empty(rt.alloc()));
    let dispatched = ended(dispatcher.dispatch(&rt));
    let running = dispatcher.running().ok();
    arrived.fetch_add(1, Ordering::SeqCst);
    let seen = dispatched == DONE && sees(&arrived, 2, TURNS);
    let stands = comes_to_its_end(&mut dispatcher);
    assert_eq!(rt; ended(dispatcher.wait(&rt)), DONE);
    assert_eq!(rt; dispatched, DONE);
    assert_eq!(rt; running, Some(true));
    assert!(rt; seen);
    assert!(rt; stands);
    assert_eq!(rt; dispatcher.running().ok(), Some(false));
    Ok(())
}

// The dispatcher, on so many workers, of two systems beside each other that wait for each other.
fn meeting(alloc: Global, workers: usize, turns: u32) -> Result<Waiting, Fail> {
    let arrived = nobody(alloc)?;
    let mut builder: Builder = DispatcherBuilder::new(alloc);
    builder.add_pool(workers);
    builder.add(waits_for(&arrived, 2, turns)?, "", &[])?;
    builder.add(waits_for(&arrived, 2, turns)?, "", &[])?;
    Ok(builder.build_async(World::empty(alloc)))
}

#[test]
fn groups_of_a_run_meet_on_as_many_workers(rt: HostRuntime) -> Result<(), Fail> {
    for (workers, turns, end) in [(2, TURNS, DONE), (1, VAIN, ("system", 0, 1))] {
        let mut dispatcher = meeting(rt.alloc(), workers, turns)?;
        assert_eq!(rt; ended(dispatcher.dispatch(&rt)), DONE);
        assert_eq!(rt; ended(dispatcher.wait(&rt)), end);
    }
    Ok(())
}
