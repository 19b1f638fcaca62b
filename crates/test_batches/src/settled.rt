//! A plan with a batch and a thread-local system, from setup to disposal.

use crate::adds::{Adds, IDLE, expect_counts, world_of};
use crate::bounds::{Bounds, times};
use crate::plans::{AddsDispatcher, Call, around, called, plan_of};
use shred::{AddError, Now, World};
use std::alloc::Global;
use std::process::Abort;
use std::test::Fail;
use std::thread::Threads;
use test_calls::ended::{DONE, Ended, ended};
use test_values::Value;

/// A call, and the counts of the system of the batch, of its controller and of the thread-local system after it.
struct Turn {
    call: Call,
    counts: [i64; 3],
}

const TURNS: &[Turn] = &[
    Turn {
        call: Call::Setup,
        counts: [5, 0, 0],
    },
    Turn {
        call: Call::Seq,
        counts: [9, 2, 0],
    },
    Turn {
        call: Call::Both,
        counts: [13, 4, 5],
    },
    Turn {
        call: Call::ThreadLocal,
        counts: [13, 4, 10],
    },
    Turn {
        call: Call::RunNow,
        counts: [17, 6, 15],
    },
    Turn {
        call: Call::RunAny,
        counts: [21, 8, 20],
    },
];

const SYSTEM: Adds = Adds {
    number: 0,
    amount: 2,
    inserts: Some(5),
    leaves: Some(0),
    ..IDLE
};

const LOCAL: Adds = Adds {
    number: 2,
    amount: 5,
    inserts: Some(0),
    ..IDLE
};

/// The dispatcher of a batch that runs the system twice, and of the thread-local system.
fn dispatcher_of(alloc: Global) -> Result<AddsDispatcher, AddError> {
    let controller = Bounds {
        inserts: Some(0),
        ..times(1, 2)
    };
    let inner = plan_of(alloc, &[SYSTEM])?;
    let mut builder = around(alloc, &[], controller, inner)?;
    builder.add_thread_local(Now(LOCAL))?;
    Ok(builder.build())
}

/// The call is done, and leaves these counts.
fn expect_turn(
    rt: &(impl Abort + Threads + Sync),
    dispatcher: &mut AddsDispatcher,
    world: &mut World<Value>,
    turn: &Turn,
) {
    assert_eq!(rt; called(rt, dispatcher, world, turn.call), DONE);
    expect_counts(rt, world, &turn.counts);
}

fn disposed(dispatcher: AddsDispatcher, world: &mut World<Value>) -> Ended {
    ended(dispatcher.dispose(world))
}

#[test]
fn a_batch_is_set_up_run_and_disposed_of(rt: HostRuntime) -> Result<(), Fail> {
    let mut world = world_of(rt.alloc(), &[])?;
    let mut dispatcher = dispatcher_of(rt.alloc())?;
    for turn in TURNS {
        expect_turn(&rt, &mut dispatcher, &mut world, turn);
    }
    assert_eq!(rt; disposed(dispatcher, &mut world), DONE);
    expect_counts(&rt, &world, &[0, 8, 20]);
    Ok(())
}
