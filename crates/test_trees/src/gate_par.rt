//! Two systems beside each other that wait for each other.

use crate::adds::{DONE, ended, zeros};
use shred::{Nil, Now, Only, Par, ParSeq, Plain, RunWithPool, par, seq};
use std::alloc::{AllocError, Global};
use std::process::Abort;
use std::sync::Arc;
use std::sync::atomic::AtomicU64;
use std::test::Fail;
use std::thread::Threads;
use test_meeting::{Meets, TURNS, VAIN, nobody, waits_for};

type Meeting = Now<Plain<Meets>>;

fn meeting(arrived: &Arc<AtomicU64>, turns: u32) -> Result<Meeting, AllocError> {
    Ok(Now(waits_for(arrived, 2, turns)?))
}

/// Two that wait for each other, beside each other.
type Both = Par<Only<i64>, u8, Par<Only<i64>, u8, Meeting, Meeting>, Nil>;

fn both(alloc: Global, turns: u32) -> Result<Both, Fail> {
    let arrived = nobody(alloc)?;
    Ok(par![alloc; meeting(&arrived, turns)?, meeting(&arrived, turns)?,]?)
}

/// Whether on so many workers the two meet, by themselves and at the head of a sequence.
fn expect_meeting(
    rt: &(impl Abort + AllocGlobal + Threads + Sync),
    workers: usize,
    turns: u32,
    meet: bool,
) -> Result<(), Fail> {
    expect_end(rt, both(rt.alloc(), turns)?, workers, meet)?;
    expect_first(rt, both(rt.alloc(), turns)?, workers, meet)
}

// Of its own, so that the bounds of the tree are those of a parameter.
fn expect_first<T: RunWithPool<Only<i64>, u8> + Send>(
    rt: &(impl Abort + AllocGlobal + Threads + Sync),
    tree: T,
    workers: usize,
    meet: bool,
) -> Result<(), Fail> {
    expect_end(rt, seq![tree, Nil], workers, meet)
}

fn expect_end<T: RunWithPool<Only<i64>, u8> + Send>(
    rt: &(impl Abort + AllocGlobal + Threads + Sync),
    tree: T,
    workers: usize,
    meet: bool,
) -> Result<(), Fail> {
    let mut par_seq: ParSeq<T, u8> = ParSeq::new(tree, workers);
    let mut world = zeros(rt.alloc(), 0)?;
    let end = if meet { DONE } else { ("refused", 1) };
    assert_eq!(rt; ended(par_seq.dispatch(rt, &mut world)), end);
    Ok(())
}

#[test]
fn two_workers_meet(rt: HostRuntime) -> Result<(), Fail> {
    expect_meeting(&rt, 2, TURNS, true)
}

#[test]
fn one_worker_waits_in_vain(rt: HostRuntime) -> Result<(), Fail> {
    expect_meeting(&rt, 1, VAIN, false)
}
