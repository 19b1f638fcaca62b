//! Eight threads on one cell, and on one id of a shared world.
use crate::numbers::{Number, Sum};
use crate::shared_total::{add_one, added_by_each};
use crate::worlds::two_shared_sums;
use shred_cell::cell::TrustCell;
use shred_cell::{SharedError, SharedWorld};
use std::sync::Wait;
use std::test::Fail;
use std::thread::map_indices;

fn total(counts: &[usize]) -> usize {
    counts.iter().fold(0, |sum, count| sum.wrapping_add(*count))
}

// How often one was added to the cell, of a thousand times that it was tried.
fn added(cell: &TrustCell<usize>) -> usize {
    let add = |_: &u32| match cell.try_borrow_mut() {
        Ok(mut guard) => {
            *guard = guard.wrapping_add(1);
            true
        }
        Err(_) => false,
    };
    (0..1_000u32).filter(add).count()
}

#[test]
fn what_eight_threads_add_is_in_the_cell(rt: HostRuntime) -> Result<(), Fail> {
    let cell = TrustCell::new(0usize);
    let counts = map_indices(&rt, rt.alloc(), 8, &|_| added(&cell))?;
    let sum = total(counts.as_slice());
    assert!(rt; sum >= 1);
    assert_eq!(rt; cell.into_inner(), Ok(sum));
    Ok(())
}

// What a thread that reads and writes was told.
#[derive(Drop)]
struct Told {
    added: usize,
    wrong: usize,
}

// Reads the sum and adds one to it, a thousand times, each where it is let in.
fn read_and_add<R: Wait>(rt: &R, shared: &SharedWorld<Number>) -> Told {
    let mut told = Told { added: 0, wrong: 0 };
    for _ in 0..1_000u32 {
        match add_one(shared) {
            Ok(()) => told.added = told.added.wrapping_add(1),
            Err(SharedError::InvalidBorrow) => {}
            Err(_) => told.wrong = told.wrong.wrapping_add(1),
        }
        match shared.fetch::<Sum>(rt) {
            Ok(_) | Err(SharedError::InvalidBorrow) => {}
            Err(_) => told.wrong = told.wrong.wrapping_add(1),
        }
    }
    told
}

#[test]
fn what_eight_threads_add_is_in_the_shared_world(rt: HostRuntime) -> Result<(), Fail> {
    let shared = two_shared_sums(rt.alloc())?;
    let lent = &shared;
    let told = map_indices(&rt, rt.alloc(), 8, &|_| read_and_add(&rt, lent))?;
    let wrong = told
        .iter()
        .fold(0usize, |sum, one| sum.wrapping_add(one.wrong));
    assert_eq!(rt; wrong, 0);
    let more = added_by_each(&rt, rt.alloc(), lent, 8)?;
    let first = told
        .iter()
        .fold(1usize, |sum, one| sum.wrapping_add(one.added));
    let sum = first.wrapping_add(total(more.as_slice()));
    let reader = shared.fetch::<Sum>(&rt)?;
    assert_eq!(rt; u64::try_from(reader.0), Ok(sum as u64));
    Ok(())
}
