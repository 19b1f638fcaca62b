//! Ticks on workers that are kept.
use crate::stores::{RULES, add_row, row_of, two_entities};
use shred::DEFAULT_LOOKS;
use shredstore::{KeptStore, RuleStore, Store, StoreError, StoreRule, TableRule, TickError};
use std::alloc::{AllocError, Global};
use std::sync::Wait;
use std::sync::atomic::{AtomicU64, Ordering};
use std::test::Fail;
use std::thread::Threads;
use test_meeting::{TURNS, VAIN, sees};

// The store on so many threads, which are kept.
fn kept_on<T: Threads + Wait + Clone + Send + 'static, R: TableRule + Send + 'static>(
    rt: &T,
    store: RuleStore<R>,
    threads: usize,
    looks: u32,
) -> Result<KeptStore<T, R>, StoreError> {
    match store.keep(rt, threads, looks) {
        Ok(kept) => Ok(kept),
        Err(_) => Err(StoreError::OutOfMemory),
    }
}

#[test]
fn kept_workers_leave_the_same(rt: HostRuntime) -> Result<(), Fail> {
    for threads in 0..4 {
        let (store, first, second) = two_entities(rt.alloc())?;
        let mut kept = kept_on(&rt, store, threads, 0)?;
        kept.tick()?;
        assert_eq!(rt; row_of(&kept, first), (Some(3), Some(5), Some(3)));
        assert_eq!(rt; row_of(&kept, second), (Some(10), None, Some(17)));
        kept.tick()?;
        assert_eq!(rt; row_of(&kept, first), (Some(8), Some(5), Some(11)));
        assert_eq!(rt; row_of(&kept, second), (Some(10), None, Some(27)));
        assert_eq!(rt; kept.rules(), RULES.as_slice());
    }
    Ok(())
}

#[test]
fn kept_workers_refuse_the_same(rt: HostRuntime) -> Result<(), Fail> {
    let mut store = Store::new(rt.alloc(), 3, &[StoreRule::Set(2, 4), StoreRule::Add(0, 1)])?;
    let first = add_row(&mut store, (Some(1), Some(1), Some(0)))?;
    let second = add_row(&mut store, (Some(i64::MIN), Some(-1), None))?;
    let mut kept = kept_on(&rt, store, 2, 0)?;
    let refused = TickError::Overflow { rule: 1, entity: 1 };
    assert_eq!(rt; kept.tick(), Err(refused));
    assert_eq!(rt; row_of(&kept, first), (Some(1), Some(1), Some(4)));
    assert_eq!(rt; kept.set(second, 1, 1), Ok(Some(-1)));
    assert_eq!(rt; kept.tick(), Ok(()));
    assert_eq!(rt; row_of(&kept, second), (Some(i64::MIN + 1), Some(1), None));
    Ok(())
}

/// Leaves the values of its table. It arrives at a place of its own, and counts where it sees that the other has arrived too.
#[derive(Clone, Copy)]
struct Meets {
    table: u64,
    own: &'static AtomicU64,
    other: &'static AtomicU64,
    met: &'static AtomicU64,
    turns: u32,
}

impl TableRule for Meets {
    ghost meaning = { λ rule. record { written = rule.table; read = rule.table; made = λ value same. value; refused = λ value same. ⊥ } };

    fn writes(&self) -> u64 {
        self.table
    }

    fn reads(&self) -> u64 {
        self.table
    }

    fn make(&self, value: i64, _beside: i64) -> Option<i64> {
        self.own.fetch_add(1, Ordering::SeqCst);
        if sees(self.other, 1, self.turns) {
            self.met.fetch_add(1, Ordering::SeqCst);
        }
        Some(value)
    }
}

fn nobody(alloc: Global) -> Result<&'static AtomicU64, AllocError> {
    Ok(Box::leak(Box::new(alloc, AtomicU64::new(0))?))
}

/// How often one of two rules saw the other in a tick. Each is asked twice for the one entity.
fn met_on<T: Threads + Wait + Clone + Drop + Send + 'static>(
    rt: &T,
    alloc: Global,
    turns: u32,
    threads: usize,
    looks: u32,
) -> Result<u64, Fail> {
    let (first, second, met) = (nobody(alloc)?, nobody(alloc)?, nobody(alloc)?);
    let one = Meets {
        table: 0,
        own: first,
        other: second,
        met,
        turns,
    };
    let other = Meets {
        table: 1,
        own: second,
        other: first,
        ..one
    };
    let mut store = RuleStore::new(alloc, 2, &[one, other])?;
    let entity = store.create()?;
    store.set(entity, 0, 5)?;
    store.set(entity, 1, 5)?;
    kept_on(rt, store, threads, looks)?.tick()?;
    Ok(met.load(Ordering::SeqCst))
}

#[test]
fn gate_two_rules(rt: HostRuntime) -> Result<(), Fail> {
    for looks in [0, DEFAULT_LOOKS] {
        assert_eq!(rt; met_on(&rt, rt.alloc(), TURNS, 2, looks)?, 4);
        assert_eq!(rt; met_on(&rt, rt.alloc(), VAIN, 1, looks)?, 2);
    }
    Ok(())
}
