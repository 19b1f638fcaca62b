//! How many workers a pool starts.

use crate::few_copies::FewCopies;
use crate::rows::{expect_tripled, numbers, triplers};
use crate::tripled::triple_all;
use std::test::Fail;

#[test]
fn a_worker_that_is_refused_is_one_fewer(rt: HostRuntime) -> Result<(), Fail> {
    for copies in 0..6u64 {
        let (few, _) = FewCopies::of(rt.clone()?, rt.alloc(), copies)?;
        let Ok(pool) = triplers(&few, rt.alloc(), 3, 0) else {
            assert_eq!(rt; copies, 0);
            continue;
        };
        assert_eq!(rt;
            u64::try_from(pool.len()).ok(),
            Some(copies.saturating_sub(1).min(3))
        );
        let mut lanes = numbers(rt.alloc(), 5)?;
        triple_all(&rt, pool.workers(), &mut lanes);
        expect_tripled(&rt, lanes.as_slice());
    }
    Ok(())
}
