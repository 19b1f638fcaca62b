//! Small trees, of what each call answers and leaves.

use crate::adds::{Adds, DONE, adds_to, ended, expect_counts, looks_at, refuses, zeros};
use crate::counts::tick_of;
use crate::two_then_one::{AddTo, Stopped, two_then_one};
use shred::{
    DispatchError, Dispatcher, DispatcherBuilder, Fault, Nil, NoBatch, Only, Par, ParError, ParSeq,
    Plain, RunWithPool, Seq, World, par, seq,
};
use std::alloc::Global;
use std::process::Abort;
use std::sync::atomic::{AtomicU64, Ordering};
use std::test::Fail;
use std::thread::Threads;

/// The numbers of workers that are tried.
const WORKERS: [usize; 4] = [0, 1, 2, 8];

/// One run of the tree over the world.
fn run_of<R: Threads + Sync, T: RunWithPool<Only<i64>, u8> + Send>(
    rt: &R,
    tree: T,
    workers: usize,
    world: &mut World<Only<i64>>,
) -> (&'static str, u8) {
    let mut par_seq: ParSeq<T, u8> = ParSeq::new(tree, workers);
    ended(par_seq.dispatch(rt, world))
}

#[test]
fn a_writer_beside_a_reader_is_a_conflict(rt: HostRuntime) -> Result<(), Fail> {
    let par: Par<Only<i64>, u8, _, Nil> = Par::new(adds_to(0, 1));
    let refused = par.with(rt.alloc(), looks_at(0)).err();
    assert_eq!(rt; refused, Some(ParError::Conflict));
    Ok(())
}

#[test]
fn the_first_conflict_of_a_list_is_told(rt: HostRuntime) -> Result<(), Fail> {
    let made: Result<Par<Only<i64>, u8, _, Nil>, ParError> =
        par![rt.alloc(); adds_to(0, 1), adds_to(1, 1), looks_at(1),];
    assert_eq!(rt; made.err(), Some(ParError::Conflict));
    Ok(())
}

/// The tree, whose evaluation is counted.
fn counted<T>(evaluated: &AtomicU64, tree: T) -> T {
    evaluated.fetch_add(1, Ordering::SeqCst);
    tree
}

#[test]
fn nothing_behind_a_conflict_is_evaluated(rt: HostRuntime) {
    let evaluated = AtomicU64::new(0);
    let made: Result<Par<Only<i64>, u8, _, Nil>, ParError> =
        par![rt.alloc(); counted(&evaluated, adds_to(0, 1)), counted(&evaluated, looks_at(0)), counted(&evaluated, adds_to(1, 1)),];
    assert_eq!(rt; made.err(), Some(ParError::Conflict));
    assert_eq!(rt; evaluated.load(Ordering::SeqCst), 2);
}

#[test]
fn a_par_of_one_runs_it(rt: HostRuntime) -> Result<(), Fail> {
    let made: Result<Par<Only<i64>, u8, _, Nil>, ParError> = par![rt.alloc(); adds_to(0, 7),];
    let mut world = zeros(rt.alloc(), 1)?;
    assert_eq!(rt; run_of(&rt, made?, 2, &mut world), DONE);
    expect_counts(&rt, &world, &[7]);
    Ok(())
}

#[test]
fn readers_stand_beside_each_other(rt: HostRuntime) -> Result<(), Fail> {
    let made: Result<Par<Only<i64>, u8, _, Nil>, ParError> =
        par![rt.alloc(); looks_at(0), looks_at(0), adds_to(1, 2),];
    let mut world = zeros(rt.alloc(), 2)?;
    assert_eq!(rt; run_of(&rt, made?, 2, &mut world), DONE);
    expect_counts(&rt, &world, &[0, 2]);
    Ok(())
}

#[test]
fn each_part_of_a_tree_runs_once(rt: HostRuntime) -> Result<(), Fail> {
    let counter = AtomicU64::new(0);
    let mut world = zeros(rt.alloc(), 0)?;
    let three: Result<Par<Only<i64>, u8, _, Nil>, ParError> =
        par![rt.alloc(); tick_of(&counter), tick_of(&counter), tick_of(&counter),];
    let mut of_three = ParSeq::new(three?, 4);
    assert_eq!(rt; ended(of_three.dispatch(&rt, &mut world)), DONE);
    assert_eq!(rt; counter.load(Ordering::SeqCst), 3);
    let two: Result<Par<Only<i64>, u8, _, Nil>, ParError> =
        par![rt.alloc(); tick_of(&counter), tick_of(&counter),];
    let mut of_two = ParSeq::new(two?, 4);
    assert_eq!(rt; ended(of_two.dispatch(&rt, &mut world)), DONE);
    assert_eq!(rt; counter.load(Ordering::SeqCst), 5);
    Ok(())
}

#[test]
fn a_tail_runs_beside_a_head_that_refuses(rt: HostRuntime) -> Result<(), Fail> {
    for workers in WORKERS {
        let mut world = zeros(rt.alloc(), 2)?;
        let made: Result<Par<Only<i64>, u8, _, Nil>, ParError> =
            par![rt.alloc(); refuses(0, 1, 3), refuses(1, 1, 4),];
        assert_eq!(rt; run_of(&rt, made?, workers, &mut world), ("refused", 3));
        expect_counts(&rt, &world, &[1, 1]);
    }
    Ok(())
}

#[test]
fn a_tail_does_not_run_after_a_head_that_refuses(rt: HostRuntime) -> Result<(), Fail> {
    for workers in WORKERS {
        let mut world = zeros(rt.alloc(), 2)?;
        let made = seq![refuses(0, 1, 3), refuses(1, 1, 4),];
        assert_eq!(rt; run_of(&rt, made, workers, &mut world), ("refused", 3));
        expect_counts(&rt, &world, &[1, 0]);
    }
    Ok(())
}

#[test]
fn nothing_is_done_by_nil(rt: HostRuntime) -> Result<(), Fail> {
    let mut world = zeros(rt.alloc(), 1)?;
    assert_eq!(rt; run_of(&rt, Nil, 2, &mut world), DONE);
    expect_counts(&rt, &world, &[0]);
    Ok(())
}

#[test]
fn what_comes_later_in_turn_sees_what_came_before(rt: HostRuntime) -> Result<(), Fail> {
    for workers in WORKERS {
        let mut world = zeros(rt.alloc(), 1)?;
        let made = Seq::new(adds_to(0, 1))
            .with(looks_at(0))
            .with(adds_to(0, 2));
        assert_eq!(rt; run_of(&rt, made, workers, &mut world), DONE);
        expect_counts(&rt, &world, &[3]);
    }
    Ok(())
}

const FIRST: AddTo = AddTo {
    place: 0,
    amount: 1,
};

#[test]
fn the_example_runs_two_and_then_one(rt: HostRuntime) -> Result<(), Fail> {
    let second = AddTo {
        place: 1,
        amount: 2,
    };
    let mut world = zeros(rt.alloc(), 2)?;
    assert!(rt; two_then_one(&rt, rt.alloc(), FIRST, second, FIRST, &mut world).is_ok());
    expect_counts(&rt, &world, &[2, 2]);
    Ok(())
}

#[test]
fn the_example_tells_a_conflict(rt: HostRuntime) -> Result<(), Fail> {
    let mut world = zeros(rt.alloc(), 1)?;
    let told = two_then_one(&rt, rt.alloc(), FIRST, FIRST, FIRST, &mut world);
    assert!(rt; matches!(told, Err(Stopped::Conflict)));
    expect_counts(&rt, &world, &[0]);
    Ok(())
}

/// A dispatcher whose one thread-local system is this tree.
fn with_local<T: RunWithPool<Only<i64>, u8>>(
    alloc: Global,
    tree: T,
) -> Result<Dispatcher<Only<i64>, Plain<Adds>, NoBatch<u8>, ParSeq<T, u8>>, Fail> {
    let builder: DispatcherBuilder<Only<i64>, Plain<Adds>, NoBatch<u8>, ParSeq<T, u8>> =
        DispatcherBuilder::new(alloc);
    Ok(builder.with_thread_local(ParSeq::new(tree, 2))?.build())
}

#[test]
fn a_tree_is_a_local_system(rt: HostRuntime) -> Result<(), Fail> {
    let mut world = zeros(rt.alloc(), 2)?;
    let tree = seq![adds_to(0, 1), refuses(1, 2, 5), adds_to(0, 4),];
    let mut dispatcher = with_local(rt.alloc(), tree)?;
    assert!(rt; dispatcher.setup(&mut world).is_ok());
    let told = dispatcher.dispatch(&rt, &mut world);
    assert!(rt;
        matches!(
            told,
            Err(DispatchError::ThreadLocal {
                index: 0,
                fault: Fault::Refused(5)
            })
        )
    );
    expect_counts(&rt, &world, &[1, 2]);
    assert!(rt; dispatcher.dispose(&mut world).is_ok());
    Ok(())
}
