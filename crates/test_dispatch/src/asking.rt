//! A system that asks its view for what it does not declare, or twice for what it writes.
ghost use Rattle.std.specs.Prelude.{◌≡◌, IfOk};
ghost use Rattle.shred_table.specs.Accessors.{batch_reads, batch_writes};

use crate::calls::{dispatched, dispatcher_on};
use shred::{
    BatchAccessor, DataError, Dispatcher, Fault, Kind, OutOfMemory, Read, ResourceId, RunningTime,
    System, View, World, Write,
};
use std::alloc::{AllocError, Global};
use std::process::Abort;
use std::test::Fail;
use std::thread::Threads;
use test_calls::calls::stages_of;
use test_calls::declared::{Case, PLAIN, resources};
use test_values::{Count, Flag, Value};

/// What a system asks for.
#[derive(Clone, Copy)]
enum Asked {
    Nothing,
    /// The flag, to set it.
    Flag,
    /// The count, to make it 9.
    Count,
    /// The count, to write it and to read it.
    CountTwice,
}

/// Asks its view for that, and refuses with what it is refused for.
#[derive(Drop)]
struct Asks {
    reads: Vec<ResourceId>,
    writes: Vec<ResourceId>,
    time: RunningTime,
    asked: Asked,
}

// Whether a read shows the count that is held at first.
fn shows_five(view: &View<Value>) -> bool {
    match view.read::<Count>(ResourceId::from_type_id(Kind(0))) {
        Ok(count) => count.0 == 5,
        Err(_) => false,
    }
}

impl System<Value> for Asks {
    type Error = DataError;

    type Accessor = BatchAccessor;

    ghost reads = { λ asks. asks.reads.items };

    ghost writes = { λ asks. asks.writes.items };

    ghost time = { λ asks. asks.time };

    ghost step = { λ _ _ _ _ _. Unit {0} };

    ghost sets_up = { λ _ _ _ _ _. Unit {0} };

    ghost disposes = { λ _ _ _ _. Unit {0} };

    // After a refusal it looks whether the count is still shown.
    fn run(&mut self, view: &mut View<Value>) -> Result<(), Fault<DataError>> {
        let answer = match self.asked {
            Asked::Nothing => Ok(()),
            Asked::Flag => view.exec(|flag: &mut Write<Flag>| flag.0 = true),
            Asked::Count => view.exec(|count: &mut Write<Count>| count.0 = 9),
            Asked::CountTwice => view.exec(|_: &mut (Write<Count>, Read<Count>)| {}),
        };
        match answer {
            Ok(()) => Ok(()),
            Err(error) if shows_five(view) => Err(Fault::from(error)),
            Err(_) => Err(Fault::OutOfMemory),
        }
    }

    fn setup(&mut self, _world: &mut World<Value>) -> Result<(), Fault<DataError>> {
        Ok(())
    }

    fn dispose(self, _world: &mut World<Value>) -> Result<(), Fault<DataError>> {
        Ok(())
    }

    fn running_time(&self) -> RunningTime {
        self.time
    }

    fn accessor(&self, alloc: Global) -> Result<BatchAccessor, OutOfMemory> {
        BatchAccessor::of(alloc, self.reads.as_slice(), self.writes.as_slice())
    }
}

fn asking(alloc: Global, case: Case, asked: Asked) -> Result<Asks, AllocError> {
    Ok(Asks {
        reads: resources(alloc, case.reads)?,
        writes: resources(alloc, case.writes)?,
        time: case.time,
        asked,
    })
}

/// What a system declares and asks for, and what its dispatch tells.
struct Row {
    declared: Case,
    asked: Asked,
    told: &'static str,
}

const READS_COUNT: Case = Case {
    reads: &[0],
    writes: &[],
    time: RunningTime::VeryShort,
};

const WRITES_COUNT: Case = Case {
    reads: &[],
    writes: &[0],
    time: RunningTime::VeryShort,
};

const ROWS: &[Row] = &[
    Row {
        declared: READS_COUNT,
        asked: Asked::Flag,
        told: "system 1: refused: kind 2, number 0 is not declared for this use",
    },
    Row {
        declared: READS_COUNT,
        asked: Asked::Count,
        told: "system 1: refused: kind 0, number 0 is not declared for this use",
    },
    Row {
        declared: WRITES_COUNT,
        asked: Asked::CountTwice,
        told: "system 1: refused: kind 0, number 0 is handed out already",
    },
];

// One that asks for nothing in a group of its own, and in another the row's system, with one behind it that sets the count.
fn systems_of(alloc: Global, row: &Row) -> Result<Vec<Asks>, AllocError> {
    let long = Case {
        time: RunningTime::VeryLong,
        ..PLAIN
    };
    let mut systems = Vec::new(alloc);
    systems.push(asking(alloc, long, Asked::Nothing)?)?;
    systems.push(asking(alloc, row.declared, row.asked)?)?;
    systems.push(asking(alloc, WRITES_COUNT, Asked::Count)?)?;
    Ok(systems)
}

// The dispatcher of these systems, which stand in one stage of two groups.
fn dispatcher_of(
    rt: &impl Abort,
    alloc: Global,
    systems: Vec<Asks>,
) -> Result<Dispatcher<Value, Asks>, Fail> {
    let stages = stages_of(alloc, systems)?;
    assert_eq!(rt; stages.len(), 1);
    let dispatcher = dispatcher_on(alloc, stages, 4);
    assert_eq!(rt; dispatcher.max_threads(), 2);
    Ok(dispatcher)
}

fn world_of(alloc: Global) -> Result<World<Value>, Fail> {
    let mut world: World<Value> = World::empty(alloc);
    world.insert(Count(5))?;
    world.insert(Flag(false))?;
    Ok(world)
}

// The count and the flag that the world holds.
fn held_in(world: &World<Value>) -> (Option<i64>, Option<bool>) {
    (
        world.try_fetch::<Count>().map(|count| count.0),
        world.try_fetch::<Flag>().map(|flag| flag.0),
    )
}

/// The dispatch tells what the row says, and changes nothing, as the refusal ends its group.
fn expect_refused(
    rt: &(impl Abort + AllocGlobal + Threads + Sync),
    row: &Row,
    on_threads: bool,
) -> Result<(), Fail> {
    let mut dispatcher = dispatcher_of(rt, rt.alloc(), systems_of(rt.alloc(), row)?)?;
    let mut world = world_of(rt.alloc())?;
    let end = dispatched(rt, &mut dispatcher, &mut world, on_threads)?;
    assert_eq!(rt; end.as_str(), row.told);
    assert_eq!(rt; held_in(&world), (Some(5), Some(false)));
    Ok(())
}

#[test]
fn who_asks_for_what_it_may_not_have_ends_its_group(rt: HostRuntime) -> Result<(), Fail> {
    for row in ROWS {
        expect_refused(&rt, row, true)?;
        expect_refused(&rt, row, false)?;
    }
    Ok(())
}
