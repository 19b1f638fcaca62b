//! Lanes that wait to see each other.
ghost use Rattle.std.specs.Prelude.{⊤};

use shred_hatch::{Job, Runner};
use shred_workers::{DEFAULT_LOOKS, Pool, Workers};
use std::alloc::{AllocError, Global};
use std::sync::atomic::{AtomicU64, Ordering};
use std::sync::{Arc, Wait};
use std::test::Fail;
use std::thread;
use std::thread::Threads;

/// How often the number of guests is looked at. After each look the thread lets others run.
const TURNS: u32 = 100_000_000;

/// Has come once so many guests have.
#[derive(Drop)]
struct Guest {
    arrived: Arc<AtomicU64>,
    wanted: u64,
    met: bool,
}

impl Job for Guest {
    ghost ready = { λ _. ⊤ };

    ghost ran = { λ _ _. ⊤ };
}

/// Arrives, and waits for the others.
#[derive(Clone, Drop)]
struct Meets;

fn sees(arrived: &AtomicU64, wanted: u64) -> bool {
    for _ in 0..TURNS {
        if arrived.load(Ordering::SeqCst) >= wanted {
            return true;
        }
        thread::yield_now();
    }
    false
}

impl Runner<Guest> for Meets {
    fn run<R: Wait>(&mut self, _rt: &R, guest: &mut Guest) {
        guest.arrived.fetch_add(1, Ordering::SeqCst);
        guest.met = sees(&guest.arrived, guest.wanted);
    }
}

fn guests(alloc: Global, wanted: u64) -> Result<Vec<Guest>, AllocError> {
    let arrived = Arc::new(alloc, AtomicU64::new(0))?;
    let mut guests = Vec::new(alloc);
    for _ in 0..wanted {
        guests.push(Guest {
            arrived: arrived.clone()?,
            wanted,
            met: false,
        })?;
    }
    Ok(guests)
}

/// Whether so many lanes met in each of a hundred runs, on the caller's thread and a worker for each other lane.
fn all_meet<R: Threads + Wait + Clone + Drop + Send + 'static>(
    rt: &R,
    alloc: Global,
    wanted: u64,
    looks: u32,
) -> Result<bool, AllocError> {
    let count = usize::try_from(wanted).unwrap_or(1).saturating_sub(1);
    let workers = Arc::new(alloc, Workers::new(alloc, count, looks)?)?;
    let pool = Pool::start(rt, alloc, workers, &Meets)?;
    for _ in 0..100 {
        let mut lanes = guests(alloc, wanted)?;
        pool.workers().run(rt, &mut Meets, &mut lanes);
        for guest in &lanes {
            if !guest.met {
                return Ok(false);
            }
        }
    }
    Ok(true)
}

#[test]
fn two_lanes_run_at_once(rt: HostRuntime) -> Result<(), Fail> {
    assert!(rt; all_meet(&rt, rt.alloc(), 2, 0)?);
    assert!(rt; all_meet(&rt, rt.alloc(), 2, DEFAULT_LOOKS)?);
    Ok(())
}

#[test]
fn four_lanes_run_at_once(rt: HostRuntime) -> Result<(), Fail> {
    assert!(rt; all_meet(&rt, rt.alloc(), 4, 0)?);
    assert!(rt; all_meet(&rt, rt.alloc(), 4, DEFAULT_LOOKS)?);
    Ok(())
}
