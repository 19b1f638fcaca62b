//! Systems that wait for each other, for the tests of what runs at once.
#![tactic(auto)]

ghost use Rattle.std.specs.Prelude.{[]};

use shred::{BatchAccessor, Fault, OutOfMemory, Plain, PlainSystem, ResourceValue, View};
use std::alloc::{AllocError, Global};
use std::sync::Arc;
use std::sync::atomic::{AtomicU64, Ordering};
use std::thread;

/// How often one looks that sees the others.
pub const TURNS: u32 = 100_000_000;

/// How often one looks in vain. No number of looks would do: another one has not begun.
pub const VAIN: u32 = 100_000;

/// Whether so many have arrived, looked at so often at most. After each look it lets others run, so that a busy machine has
/// the time to start them.
pub fn sees(arrived: &AtomicU64, wanted: u64, turns: u32) -> bool {
    for _ in 0..turns {
        if arrived.load(Ordering::SeqCst) >= wanted {
            return true;
        }
        thread::yield_now();
    }
    false
}

/// Arrives, and refuses unless it sees in so many looks that so many have arrived.
#[derive(Drop)]
pub struct Meets {
    arrived: Arc<AtomicU64>,
    wanted: u64,
    turns: u32,
}

impl<V: ResourceValue> PlainSystem<V> for Meets {
    type Error = u8;

    ghost reads = { λ system. [] };

    ghost writes = { λ system. [] };

    ghost step = { λ _ _ _ _ _. Unit {0} };

    fn run(&mut self, _view: &mut View<V>) -> Result<(), Fault<u8>> {
        self.arrived.fetch_add(1, Ordering::SeqCst);
        if sees(&self.arrived, self.wanted, self.turns) {
            Ok(())
        } else {
            Err(Fault::Refused(1))
        }
    }

    fn accessor(&self, alloc: Global) -> Result<BatchAccessor, OutOfMemory> {
        BatchAccessor::of(alloc, &[], &[])
    }
}

/// The count of those who have arrived.
pub fn nobody(alloc: Global) -> Result<Arc<AtomicU64>, AllocError> {
    Ok(Arc::new(alloc, AtomicU64::new(0))?)
}

/// One who looks so often for so many.
pub fn waits_for(
    arrived: &Arc<AtomicU64>,
    wanted: u64,
    turns: u32,
) -> Result<Plain<Meets>, AllocError> {
    let arrived = arrived.clone()?;
    Ok(Plain(Meets {
        arrived,
        wanted,
        turns,
    }))
}
