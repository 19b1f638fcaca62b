//! How often a batch runs its plan, and how it ends.

use crate::adds::{Adds, IDLE, expect_counts, world_of};
use crate::bounds::{Bounds, NEVER, times};
use crate::plans::{AddsBuilder, AddsDispatcher, Call, around, called, plan_of};
use shred::AddError;
use std::alloc::Global;
use std::process::Abort;
use std::test::Fail;
use std::thread::Threads;
use test_calls::ended::{DONE, Ended};

/// A batch, with the systems that are added before it to the plan in which it stands.
struct Level {
    beside: &'static [Adds],
    controller: Bounds,
}

/// The systems of the innermost plan, the batches around it, and around these so many more of one round, which count under
/// number 1; the counts before, and the end of each run and the counts after it.
struct Row {
    systems: &'static [Adds],
    levels: &'static [Level],
    more: usize,
    before: &'static [i64],
    end: Ended,
    after: &'static [i64],
}

const ROWS: &[Row] = &[
    // A batch of no rounds changes nothing.
    Row {
        systems: &[Adds {
            number: 0,
            amount: 1,
            ..IDLE
        }],
        levels: &[Level {
            beside: &[],
            controller: Bounds {
                number: 1,
                bound: 0,
                yes: 0,
                ..NEVER
            },
        }],
        more: 0,
        before: &[7, 0],
        end: DONE,
        after: &[7, 0],
    },
    // A no ends the batch.
    Row {
        systems: &[Adds {
            number: 0,
            amount: 10,
            ..IDLE
        }],
        levels: &[Level {
            beside: &[],
            controller: Bounds {
                number: 1,
                bound: 5,
                yes: 2,
                ..NEVER
            },
        }],
        more: 0,
        before: &[0, 0],
        end: DONE,
        after: &[20, 3],
    },
    // A controller writes what its plan writes.
    Row {
        systems: &[Adds {
            number: 0,
            amount: 10,
            ..IDLE
        }],
        levels: &[Level {
            beside: &[],
            controller: Bounds {
                number: 0,
                bound: 3,
                yes: 3,
                ..NEVER
            },
        }],
        more: 0,
        before: &[0],
        end: DONE,
        after: &[33],
    },
    // Each outer round runs the inner rounds.
    Row {
        systems: &[Adds {
            number: 0,
            amount: 10,
            ..IDLE
        }],
        levels: &[
            Level {
                beside: &[Adds {
                    number: 0,
                    amount: 1,
                    ..IDLE
                }],
                controller: Bounds {
                    number: 2,
                    bound: 3,
                    yes: 3,
                    ..NEVER
                },
            },
            Level {
                beside: &[],
                controller: Bounds {
                    number: 1,
                    bound: 2,
                    yes: 2,
                    ..NEVER
                },
            },
        ],
        more: 0,
        before: &[0, 0, 0],
        end: DONE,
        after: &[62, 2, 6],
    },
    // A refusal two levels down is that of the outermost entry, and the groups beside it all run.
    Row {
        systems: &[
            Adds {
                number: 0,
                amount: 1,
                ..IDLE
            },
            Adds {
                number: 3,
                amount: 5,
                code: 4,
                ..IDLE
            },
            Adds {
                number: 4,
                amount: 7,
                ..IDLE
            },
        ],
        levels: &[
            Level {
                beside: &[],
                controller: Bounds {
                    number: 2,
                    bound: 3,
                    yes: 3,
                    ..NEVER
                },
            },
            Level {
                beside: &[],
                controller: Bounds {
                    number: 1,
                    bound: 2,
                    yes: 2,
                    ..NEVER
                },
            },
        ],
        more: 0,
        before: &[0, 0, 0, 0, 0],
        end: ("system", 0, 4),
        after: &[1, 1, 1, 5, 7],
    },
    // A hundred levels.
    Row {
        systems: &[Adds {
            number: 0,
            amount: 1,
            ..IDLE
        }],
        levels: &[],
        more: 100,
        before: &[0, 0],
        end: DONE,
        after: &[1, 100],
    },
];

fn builder_of(alloc: Global, row: &Row) -> Result<AddsBuilder, AddError> {
    let mut builder = plan_of(alloc, row.systems)?;
    for level in row.levels {
        builder = around(alloc, level.beside, level.controller, builder)?;
    }
    for _ in 0..row.more {
        builder = around(alloc, &[], times(1, 1), builder)?;
    }
    Ok(builder)
}

fn dispatcher_of(alloc: Global, row: &Row, workers: usize) -> Result<AddsDispatcher, AddError> {
    let builder = builder_of(alloc, row)?;
    Ok(builder.with_pool(workers).build())
}

/// A call, and the workers of its dispatcher.
struct Way {
    call: Call,
    workers: usize,
}

const WAYS: &[Way] = &[
    Way {
        call: Call::Seq,
        workers: 4,
    },
    Way {
        call: Call::Par,
        workers: 0,
    },
    Way {
        call: Call::Par,
        workers: 1,
    },
    Way {
        call: Call::Par,
        workers: 2,
    },
    Way {
        call: Call::Par,
        workers: 8,
    },
    Way {
        call: Call::Both,
        workers: 4,
    },
    Way {
        call: Call::Interleaved,
        workers: 4,
    },
];

/// The row's plan, run in this way, ends as the row says.
fn expect_run(
    rt: &(impl Abort + AllocGlobal + Threads + Sync),
    row: &Row,
    way: &Way,
) -> Result<(), Fail> {
    let mut world = world_of(rt.alloc(), row.before)?;
    let mut dispatcher = dispatcher_of(rt.alloc(), row, way.workers)?;
    assert_eq!(rt; called(rt, &mut dispatcher, &mut world, way.call), row.end);
    expect_counts(rt, &world, row.after);
    Ok(())
}

#[test]
fn batches_run_their_plans_in_rounds(rt: HostRuntime) -> Result<(), Fail> {
    for row in ROWS {
        for way in WAYS {
            expect_run(&rt, row, way)?;
        }
    }
    Ok(())
}
