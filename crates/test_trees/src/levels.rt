//! A tree of three levels and of mixed types.

use crate::adds::{DONE, adds_to, ended, expect_counts, looks_at, zeros};
use crate::counts::Counts;
use crate::named::Named;
use shred::{Nil, Only, Par, ParError, ParSeq, par, seq};
use std::sync::atomic::{AtomicU64, Ordering};
use std::test::Fail;

#[test]
fn a_tree_of_three_levels_runs_all_that_it_has(rt: HostRuntime) -> Result<(), Fail> {
    for workers in 0..5 {
        let counter = AtomicU64::new(0);
        let inner: Result<Par<Only<i64>, u8, _, Nil>, ParError> =
            par![rt.alloc(); adds_to(2, 5), looks_at(3), Counts(&counter),];
        let made: Result<Par<Only<i64>, u8, _, Nil>, ParError> =
            par![rt.alloc(); adds_to(0, 1), Counts(&counter), seq![adds_to(1, 2), Named { inner: inner?, name: 7 }, adds_to(1, 3),],];
        let mut par_seq = ParSeq::new(made?, workers);
        let mut world = zeros(rt.alloc(), 4)?;
        assert_eq!(rt; ended(par_seq.setup(&mut world)), DONE);
        assert_eq!(rt; ended(par_seq.dispatch(&rt, &mut world)), DONE);
        assert_eq!(rt; ended(par_seq.dispatch(&rt, &mut world)), DONE);
        expect_counts(&rt, &world, &[2, 10, 10, 0]);
        assert_eq!(rt; counter.load(Ordering::SeqCst), 4);
    }
    Ok(())
}
