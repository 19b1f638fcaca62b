//! Systems that wait for each other, on workers that are kept, and how many of these there are.

use crate::adds::{ADDS, Does, UNMET};
use crate::keeping::{
    behind_a_system, beside_a_system, first_refusal, in_batches, kept_on, stage_of, zeros,
};
use shred::{AddError, DEFAULT_LOOKS};
use std::alloc::Global;
use std::process::Abort;
use std::sync::Wait;
use std::sync::atomic::Ordering;
use std::test::Fail;
use std::thread::Threads;
use test_meeting::TURNS;
use test_workers::few_copies::FewCopies;

/// How often one looks in vain. No number of looks would do: another one has not begun.
const VAIN: u32 = 1_000;

/// So many systems that wait for each other in each run, in the innermost of so many batches.
#[derive(Clone, Copy)]
struct Meeting {
    systems: usize,
    levels: u32,
    turns: u32,
}

/// The code of the first refusal in three dispatches.
fn code_on<R: Threads + Wait + Clone + Drop + Send + 'static>(
    rt: &R,
    alloc: Global,
    meeting: Meeting,
    threads: usize,
    looks: u32,
) -> Result<Option<u8>, AddError> {
    let does = Does {
        members: meeting.systems as u64,
        turns: meeting.turns,
        ..ADDS
    };
    let inner = stage_of(alloc, &[does; 4][..meeting.systems.min(4)])?;
    let builder = in_batches(alloc, inner, meeting.levels)?;
    let mut kept = kept_on(rt, alloc, builder, threads, looks)?;
    let mut world = zeros(alloc, meeting.systems)?;
    let refusal = first_refusal(&mut kept, &mut world, 3);
    Ok(refusal.map(|(_, code)| code))
}

const TWO: Meeting = Meeting {
    systems: 2,
    levels: 0,
    turns: TURNS,
};

const FOUR: Meeting = Meeting { systems: 4, ..TWO };

/// The same in vain.
fn in_vain(meeting: Meeting) -> Meeting {
    Meeting {
        turns: VAIN,
        ..meeting
    }
}

#[test]
fn gate_two_systems(rt: HostRuntime) -> Result<(), Fail> {
    for looks in [0, DEFAULT_LOOKS] {
        assert_eq!(rt; code_on(&rt, rt.alloc(), TWO, 2, looks)?, None);
        assert_eq!(rt;
            code_on(&rt, rt.alloc(), in_vain(TWO), 1, looks)?,
            Some(UNMET)
        );
    }
    Ok(())
}

#[test]
fn gate_four_systems(rt: HostRuntime) -> Result<(), Fail> {
    for looks in [0, DEFAULT_LOOKS] {
        assert_eq!(rt; code_on(&rt, rt.alloc(), FOUR, 4, looks)?, None);
        assert_eq!(rt;
            code_on(&rt, rt.alloc(), in_vain(FOUR), 3, looks)?,
            Some(UNMET)
        );
    }
    Ok(())
}

#[test]
fn gate_batches(rt: HostRuntime) -> Result<(), Fail> {
    for levels in [1, 3] {
        let two = Meeting { levels, ..TWO };
        assert_eq!(rt; code_on(&rt, rt.alloc(), two, 2, 0)?, None);
        assert_eq!(rt; code_on(&rt, rt.alloc(), in_vain(two), 1, 0)?, Some(UNMET));
    }
    Ok(())
}

/// The code of the first refusal in three dispatches of two systems that wait for each other, in a batch that has a system beside it in
/// its stage: the batch comes first in the plan, or the system.
fn code_beside<R: Threads + Wait + Clone + Drop + Send + 'static>(
    rt: &R,
    alloc: Global,
    batch_first: bool,
    turns: u32,
    threads: usize,
    looks: u32,
) -> Result<Option<u8>, AddError> {
    let does = Does {
        members: 2,
        turns,
        ..ADDS
    };
    let inner = stage_of(alloc, &[does, does])?;
    let builder = beside_a_system(alloc, inner, 2, batch_first)?;
    let mut kept = kept_on(rt, alloc, builder, threads, looks)?;
    let mut world = zeros(alloc, 3)?;
    let refusal = first_refusal(&mut kept, &mut world, 3);
    Ok(refusal.map(|(_, code)| code))
}

#[test]
fn gate_batch_beside_a_system(rt: HostRuntime) -> Result<(), Fail> {
    for batch_first in [true, false] {
        for looks in [0, DEFAULT_LOOKS] {
            for threads in [3, 8] {
                let code = code_beside(&rt, rt.alloc(), batch_first, TURNS, threads, looks)?;
                assert_eq!(rt; code, None);
            }
        }
        for threads in [1, 2] {
            let code = code_beside(&rt, rt.alloc(), batch_first, VAIN, threads, 0)?;
            assert_eq!(rt; code, Some(UNMET));
        }
    }
    Ok(())
}

/// The same two in a batch that has a system beside it in the inner stage of another, which has one beside it too.
fn code_deep<R: Threads + Wait + Clone + Drop + Send + 'static>(
    rt: &R,
    alloc: Global,
    batch_first: bool,
    turns: u32,
    threads: usize,
) -> Result<Option<u8>, AddError> {
    let does = Does {
        members: 2,
        turns,
        ..ADDS
    };
    let inner = stage_of(alloc, &[does, does])?;
    let middle = beside_a_system(alloc, inner, 2, batch_first)?;
    let outer = beside_a_system(alloc, middle, 3, batch_first)?;
    let mut kept = kept_on(rt, alloc, outer, threads, 0)?;
    let mut world = zeros(alloc, 4)?;
    let refusal = first_refusal(&mut kept, &mut world, 3);
    Ok(refusal.map(|(_, code)| code))
}

/// The outer stage takes a worker, the middle one another, and the two that wait need a third.
#[test]
fn gate_batch_beside_a_system_in_such_a_batch(rt: HostRuntime) -> Result<(), Fail> {
    for batch_first in [true, false] {
        for threads in [4, 8] {
            let code = code_deep(&rt, rt.alloc(), batch_first, TURNS, threads)?;
            assert_eq!(rt; code, None);
        }
        for threads in [1, 2, 3] {
            let code = code_deep(&rt, rt.alloc(), batch_first, VAIN, threads)?;
            assert_eq!(rt; code, Some(UNMET));
        }
    }
    Ok(())
}

/// The same two in a batch at the end of a system's group, which is the first of its stage or the last.
fn code_behind<R: Threads + Wait + Clone + Drop + Send + 'static>(
    rt: &R,
    alloc: Global,
    group_first: bool,
    turns: u32,
    threads: usize,
) -> Result<Option<u8>, AddError> {
    let does = Does {
        members: 2,
        turns,
        ..ADDS
    };
    let inner = stage_of(alloc, &[does, does])?;
    let outer = behind_a_system(alloc, inner, group_first)?;
    let mut kept = kept_on(rt, alloc, outer, threads, 0)?;
    let mut world = zeros(alloc, 6)?;
    let refusal = first_refusal(&mut kept, &mut world, 3);
    Ok(refusal.map(|(_, code)| code))
}

/// The stage has three groups, which take two workers, and the two that wait need a third. Where their group is the first it stays on
/// the caller's thread, which has both workers out meanwhile.
#[test]
fn gate_batch_behind_a_system(rt: HostRuntime) -> Result<(), Fail> {
    for group_first in [true, false] {
        for threads in [4, 8] {
            let code = code_behind(&rt, rt.alloc(), group_first, TURNS, threads)?;
            assert_eq!(rt; code, None);
        }
        for threads in [1, 2] {
            let code = code_behind(&rt, rt.alloc(), group_first, VAIN, threads)?;
            assert_eq!(rt; code, Some(UNMET));
        }
    }
    assert_eq!(rt; code_behind(&rt, rt.alloc(), true, VAIN, 3)?, Some(UNMET));
    Ok(())
}

/// Two systems on two threads end so where so many copies of the runtime can be made, all of which come back.
fn expect_with<R: Abort + AllocGlobal + Threads + Wait + Clone + Drop + Send + 'static>(
    rt: &R,
    copies: u64,
    meeting: Meeting,
    end: Result<Option<u8>, AddError>,
) -> Result<(), Fail> {
    let (few, left) = FewCopies::of(rt.clone()?, rt.alloc(), copies)?;
    assert_eq!(rt; code_on(&few, rt.alloc(), meeting, 2, 0), end);
    assert_eq!(rt; left.load(Ordering::SeqCst), copies);
    Ok(())
}

#[test]
fn a_worker_that_is_refused_is_one_fewer(rt: HostRuntime) -> Result<(), Fail> {
    expect_with(&rt, 0, TWO, Err(AddError::OutOfMemory))?;
    expect_with(&rt, 1, in_vain(TWO), Ok(Some(UNMET)))?;
    expect_with(&rt, 2, TWO, Ok(None))?;
    expect_with(&rt, 3, TWO, Ok(None))
}
