//! Plans on several counts of workers.

use crate::locals::script::{IDLE, Script, expect_counts, world_of};
use shred::{AddError, DispatcherBuilder, SystemId};
use std::alloc::Global;
use std::process::Abort;
use std::test::Fail;
use std::thread::Threads;
use test_calls::ended::{DONE, ended};
use test_values::Value;

/// A system that adds the amount to the count under its number, after a barrier or not.
struct Planned {
    is_behind_barrier: bool,
    name: &'static str,
    dependencies: &'static [&'static str],
    number: u64,
    finds: i64,
    amount: i64,
}

/// Systems, the greatest number of groups in a stage, and the counts before and after.
struct Plan {
    systems: &'static [Planned],
    groups: usize,
    before: &'static [Option<i64>],
    after: &'static [Option<i64>],
}

/// Systems of one count, each of which finds the sum of those before it. Each has a stage of its own.
const ONE_COUNT: Plan = Plan {
    systems: &[
        Planned {
            is_behind_barrier: false,
            name: "0",
            dependencies: &[],
            number: 0,
            finds: 0,
            amount: 0,
        },
        Planned {
            is_behind_barrier: false,
            name: "1",
            dependencies: &[],
            number: 0,
            finds: 0,
            amount: 1,
        },
        Planned {
            is_behind_barrier: false,
            name: "2",
            dependencies: &[],
            number: 0,
            finds: 1,
            amount: 2,
        },
        Planned {
            is_behind_barrier: false,
            name: "3",
            dependencies: &["1"],
            number: 0,
            finds: 3,
            amount: 3,
        },
        Planned {
            is_behind_barrier: true,
            name: "4",
            dependencies: &[],
            number: 0,
            finds: 6,
            amount: 4,
        },
        Planned {
            is_behind_barrier: false,
            name: "5",
            dependencies: &["4"],
            number: 0,
            finds: 10,
            amount: 5,
        },
    ],
    groups: 1,
    before: &[Some(0)],
    after: &[Some(15)],
};

/// Systems of five counts, each in a group of its own, and in a stage behind them one that depends on the last.
const FIVE_COUNTS: Plan = Plan {
    systems: &[
        Planned {
            is_behind_barrier: false,
            name: "0",
            dependencies: &[],
            number: 0,
            finds: 10,
            amount: 1,
        },
        Planned {
            is_behind_barrier: false,
            name: "1",
            dependencies: &[],
            number: 1,
            finds: 20,
            amount: 2,
        },
        Planned {
            is_behind_barrier: false,
            name: "2",
            dependencies: &[],
            number: 2,
            finds: 30,
            amount: 3,
        },
        Planned {
            is_behind_barrier: false,
            name: "3",
            dependencies: &[],
            number: 3,
            finds: 40,
            amount: 4,
        },
        Planned {
            is_behind_barrier: false,
            name: "4",
            dependencies: &[],
            number: 4,
            finds: 50,
            amount: 5,
        },
        Planned {
            is_behind_barrier: false,
            name: "5",
            dependencies: &["4"],
            number: 0,
            finds: 11,
            amount: 6,
        },
    ],
    groups: 5,
    before: &[Some(10), Some(20), Some(30), Some(40), Some(50)],
    after: &[Some(17), Some(22), Some(33), Some(44), Some(55)],
};

fn add_barrier(builder: &mut DispatcherBuilder<Value, Script>) {
    builder.add_barrier();
}

fn add(
    builder: &mut DispatcherBuilder<Value, Script>,
    planned: &Planned,
) -> Result<SystemId, AddError> {
    let script = Script {
        number: planned.number,
        finds: Some(planned.finds),
        amount: planned.amount,
        ..IDLE
    };
    builder.add(script, planned.name, planned.dependencies)
}

fn builder_of(
    alloc: Global,
    systems: &[Planned],
) -> Result<DispatcherBuilder<Value, Script>, AddError> {
    let mut builder = DispatcherBuilder::new(alloc);
    for planned in systems {
        if planned.is_behind_barrier {
            add_barrier(&mut builder);
        }
        add(&mut builder, planned)?;
    }
    Ok(builder)
}

/// The plan's systems are dispatched on that many workers, or else with `dispatch_seq`.
fn expect_plan(
    rt: &(impl Abort + AllocGlobal + Threads + Sync),
    plan: &Plan,
    workers: Option<usize>,
) -> Result<(), Fail> {
    let mut world = world_of(rt.alloc(), plan.before)?;
    let mut builder = builder_of(rt.alloc(), plan.systems)?;
    if let Some(workers) = workers {
        builder.add_pool(workers);
    }
    let mut dispatcher = builder.build();
    assert_eq!(rt; dispatcher.max_threads(), plan.groups);
    let answer = match workers {
        Some(_) => dispatcher.dispatch(rt, &mut world),
        None => dispatcher.dispatch_seq(&mut world),
    };
    assert_eq!(rt; ended(answer), DONE);
    expect_counts(rt, &world, plan.after);
    Ok(())
}

#[test]
fn any_number_of_workers_leaves_the_same_counts(rt: HostRuntime) -> Result<(), Fail> {
    for workers in [None, Some(0), Some(1), Some(2), Some(3), Some(8), Some(64)] {
        expect_plan(&rt, &ONE_COUNT, workers)?;
        expect_plan(&rt, &FIVE_COUNTS, workers)?;
    }
    Ok(())
}
