//! Dispatchers of staged and thread-local systems, from setup to disposal.

use crate::locals::script::{IDLE, Script, expect_counts, world_of};
use shred::{AddError, Dispatcher, DispatcherBuilder, Now, World};
use std::alloc::Global;
use std::process::Abort;
use std::test::Fail;
use std::thread::Threads;
use test_calls::ended::{DONE, Ended, NO_MEMORY, ended, run_ended};
use test_values::Value;

#[derive(Clone, Copy)]
enum Call {
    Setup,
    Dispatch,
    InSequence,
    RunNow,
}

/// A call of a dispatcher, how it ends, and the counts after it.
struct Turn {
    call: Call,
    ended: Ended,
    counts: &'static [Option<i64>],
}

/// The counts before, the systems, the calls, and how the disposal ends, with the counts after it.
struct Case {
    counts: &'static [Option<i64>],
    staged: &'static [Script],
    local: &'static [Script],
    turns: &'static [Turn],
    disposed: Ended,
    left: &'static [Option<i64>],
}

fn dispatcher_of(alloc: Global, case: &Case) -> Result<Dispatcher<Value, Script>, AddError> {
    let mut builder = DispatcherBuilder::new(alloc);
    for script in case.staged {
        builder.add(*script, "", &[])?;
    }
    for script in case.local {
        builder.add_thread_local(Now(*script))?;
    }
    Ok(builder.build())
}

/// `dispatch_seq`, and then, only where that was Done, `dispatch_thread_local`.
fn in_sequence(
    rt: &(impl Threads + Sync),
    dispatcher: &mut Dispatcher<Value, Script>,
    world: &mut World<Value>,
) -> Ended {
    match dispatcher.dispatch_seq(world) {
        Ok(()) => ended(dispatcher.dispatch_thread_local(rt, world)),
        Err(error) => ended(Err(error)),
    }
}

fn called(
    rt: &(impl Threads + Sync),
    dispatcher: &mut Dispatcher<Value, Script>,
    world: &mut World<Value>,
    call: Call,
) -> Ended {
    match call {
        Call::Setup => ended(dispatcher.setup(world)),
        Call::Dispatch => ended(dispatcher.dispatch(rt, world)),
        Call::InSequence => in_sequence(rt, dispatcher, world),
        Call::RunNow => run_ended(dispatcher.run_now(rt, world.local())),
    }
}

fn disposed(dispatcher: Dispatcher<Value, Script>, world: &mut World<Value>) -> Ended {
    ended(dispatcher.dispose(world))
}

fn expect(rt: &(impl Abort + AllocGlobal + Threads + Sync), case: &Case) -> Result<(), Fail> {
    let mut world = world_of(rt.alloc(), case.counts)?;
    let mut dispatcher = dispatcher_of(rt.alloc(), case)?;
    for turn in case.turns {
        let end = called(rt, &mut dispatcher, &mut world, turn.call);
        assert_eq!(rt; end, turn.ended);
        expect_counts(rt, &world, turn.counts);
    }
    assert_eq!(rt; disposed(dispatcher, &mut world), case.disposed);
    expect_counts(rt, &world, case.left);
    Ok(())
}

/// It puts a count, adds to it at each run, and puts another.
const LIVES: Script = Script {
    inserts: Some(5),
    amount: 2,
    leaves: Some(0),
    ..IDLE
};

const LIFE: &[Turn] = &[
    Turn {
        call: Call::Setup,
        ended: DONE,
        counts: &[Some(5)],
    },
    Turn {
        call: Call::Dispatch,
        ended: DONE,
        counts: &[Some(7)],
    },
    Turn {
        call: Call::Dispatch,
        ended: DONE,
        counts: &[Some(9)],
    },
    Turn {
        call: Call::InSequence,
        ended: DONE,
        counts: &[Some(11)],
    },
    Turn {
        call: Call::RunNow,
        ended: DONE,
        counts: &[Some(13)],
    },
];

const STAGED_LIFE: Case = Case {
    counts: &[None],
    staged: &[LIVES],
    local: &[],
    turns: LIFE,
    disposed: DONE,
    left: &[Some(0)],
};

const LOCAL_LIFE: Case = Case {
    counts: &[None],
    staged: &[],
    local: &[LIVES],
    turns: LIFE,
    disposed: DONE,
    left: &[Some(0)],
};

/// Its setup puts 0, and its run leaves 33 there, whatever it finds.
const LEAVES_33: Case = Case {
    counts: &[None],
    staged: &[],
    local: &[Script {
        inserts: Some(0),
        factor: 0,
        amount: 33,
        ..IDLE
    }],
    turns: &[
        Turn {
            call: Call::Setup,
            ended: DONE,
            counts: &[Some(0)],
        },
        Turn {
            call: Call::Dispatch,
            ended: DONE,
            counts: &[Some(33)],
        },
        Turn {
            call: Call::RunNow,
            ended: DONE,
            counts: &[Some(33)],
        },
    ],
    disposed: DONE,
    left: &[Some(33)],
};

/// The second staged system adds and refuses, and no thread-local one runs.
const STAGED_REFUSAL: Case = Case {
    counts: &[Some(0)],
    staged: &[
        Script { amount: 1, ..IDLE },
        Script {
            amount: 1,
            run_code: 7,
            ..IDLE
        },
    ],
    local: &[Script {
        amount: 100,
        ..IDLE
    }],
    turns: &[
        Turn {
            call: Call::Dispatch,
            ended: ("system", 1, 7),
            counts: &[Some(2)],
        },
        Turn {
            call: Call::InSequence,
            ended: ("system", 1, 7),
            counts: &[Some(4)],
        },
        Turn {
            call: Call::RunNow,
            ended: ("system", 1, 7),
            counts: &[Some(6)],
        },
    ],
    disposed: DONE,
    left: &[Some(6)],
};

/// The first thread-local system adds and refuses, and no other one runs.
const LOCAL_REFUSAL: Case = Case {
    counts: &[Some(1)],
    staged: &[],
    local: &[
        Script {
            amount: 1,
            run_code: 8,
            ..IDLE
        },
        Script {
            amount: 100,
            ..IDLE
        },
    ],
    turns: &[
        Turn {
            call: Call::Dispatch,
            ended: ("thread-local", 0, 8),
            counts: &[Some(2)],
        },
        Turn {
            call: Call::InSequence,
            ended: ("thread-local", 0, 8),
            counts: &[Some(3)],
        },
    ],
    disposed: DONE,
    left: &[Some(3)],
};

/// The second staged system refuses its setup, so that the thread-local one never puts its count.
const REFUSED_SETUP: Case = Case {
    counts: &[None, None],
    staged: &[
        Script {
            inserts: Some(5),
            ..IDLE
        },
        Script {
            setup_code: 2,
            ..IDLE
        },
    ],
    local: &[Script {
        number: 1,
        inserts: Some(6),
        ..IDLE
    }],
    turns: &[Turn {
        call: Call::Setup,
        ended: ("system", 1, 2),
        counts: &[Some(5), None],
    }],
    disposed: DONE,
    left: &[Some(5), None],
};

/// The first staged system refuses its disposal, and the thread-local one too. All are disposed of.
const REFUSED_DISPOSAL: Case = Case {
    counts: &[Some(3), None],
    staged: &[
        Script {
            dispose_code: 4,
            ..IDLE
        },
        Script {
            leaves: Some(0),
            ..IDLE
        },
    ],
    local: &[Script {
        number: 1,
        leaves: Some(6),
        dispose_code: 5,
        ..IDLE
    }],
    turns: &[],
    disposed: ("system", 0, 4),
    left: &[Some(0), Some(6)],
};

/// It puts a digit behind those of the systems before it.
const DIGIT: Script = Script { factor: 10, ..IDLE };

/// They run in the order of their adding. The fifth takes memory.
const FIVE_LOCAL: Case = Case {
    counts: &[Some(0)],
    staged: &[],
    local: &[
        Script { amount: 1, ..DIGIT },
        Script { amount: 2, ..DIGIT },
        Script { amount: 3, ..DIGIT },
        Script { amount: 4, ..DIGIT },
        Script { amount: 5, ..DIGIT },
    ],
    turns: &[Turn {
        call: Call::Dispatch,
        ended: DONE,
        counts: &[Some(12345)],
    }],
    disposed: DONE,
    left: &[Some(12345)],
};

#[test]
fn dispatchers_live_from_setup_to_disposal(rt: HostRuntime) -> Result<(), Fail> {
    for case in [
        &STAGED_LIFE,
        &LOCAL_LIFE,
        &LEAVES_33,
        &STAGED_REFUSAL,
        &LOCAL_REFUSAL,
        &REFUSED_SETUP,
        &REFUSED_DISPOSAL,
        &FIVE_LOCAL,
    ] {
        expect(&rt, case)?;
    }
    Ok(())
}

// How the call ends; where it finds no memory, how the same call then ends.
fn called_at_last(
    rt: &(impl Threads + Sync),
    dispatcher: &mut Dispatcher<Value, Script>,
    world: &mut World<Value>,
    call: Call,
) -> Ended {
    let end = called(rt, dispatcher, world, call);
    if end.2 == NO_MEMORY {
        called(rt, dispatcher, world, call)
    } else {
        end
    }
}

/// The case goes as it says, where memory for its world and its dispatcher is there; a call that finds none changes nothing, and
/// is made again.
fn expect_at_last(rt: &(impl Abort + AllocGlobal + Threads + Sync), case: &Case) {
    let (Ok(mut world), Ok(mut dispatcher)) = (
        world_of(rt.alloc(), case.counts),
        dispatcher_of(rt.alloc(), case),
    ) else {
        return;
    };
    for turn in case.turns {
        let end = called_at_last(rt, &mut dispatcher, &mut world, turn.call);
        assert_eq!(rt; end, turn.ended);
        expect_counts(rt, &world, turn.counts);
    }
    assert_eq!(rt; disposed(dispatcher, &mut world), case.disposed);
    expect_counts(rt, &world, case.left);
}

#[test]
fn a_call_that_finds_no_memory_is_made_again(rt: HostRuntime) {
    for case in [
        &STAGED_LIFE,
        &LOCAL_LIFE,
        &STAGED_REFUSAL,
        &LOCAL_REFUSAL,
        &REFUSED_SETUP,
    ] {
        expect_at_last(&rt, case);
    }
}
