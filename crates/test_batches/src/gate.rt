//! Systems of one stage, of a plan or of an inner plan, that wait for each other.
ghost use Rattle.std.specs.Prelude.{[]};
ghost use Rattle.shred_run.specs.declared.system.RunningTime.TheVariants.{VeryLong};

use shred::{
    AddError, BatchController, Dispatcher, DispatcherBuilder, Fault, OutOfMemory, Plain,
    RunningTime, SystemId, View, World,
};
use std::alloc::Global;
use std::process::Abort;
use std::test::Fail;
use std::thread::Threads;
use test_calls::ended::{DONE, Ended, ended, run_ended};
use test_meeting::{Meets, TURNS, VAIN, nobody, waits_for};
use test_values::Value;

/// Runs its plan once.
#[derive(Drop)]
struct Once;

impl BatchController<Value> for Once {
    type Error = u8;

    type Accessor = ();

    ghost reads = { λ controller. [] };

    ghost writes = { λ controller. [] };

    ghost time = { λ controller. VeryLong };

    ghost begins = { λ _ _ _ _ _. Unit {0} };

    ghost asks = { λ _ _ _ _ _. Unit {0} };

    ghost sets_up = { λ _ _ _ _ _. Unit {0} };

    fn begin(&mut self, _view: &mut View<Value>) -> Result<usize, Fault<u8>> {
        Ok(1)
    }

    fn again(&mut self, _view: &mut View<Value>) -> Result<bool, Fault<u8>> {
        Ok(true)
    }

    fn running_time(&self) -> RunningTime {
        RunningTime::VeryLong
    }

    fn accessor(&self, _alloc: Global) -> Result<(), OutOfMemory> {
        Ok(())
    }

    fn setup(&mut self, _world: &mut World<Value>) -> Result<(), Fault<u8>> {
        Ok(())
    }
}

type MeetsBuilder = DispatcherBuilder<Value, Plain<Meets>, Once>;

type MeetsDispatcher = Dispatcher<Value, Plain<Meets>, Once>;

/// By which call a plan is run.
#[derive(Clone, Copy)]
enum Call {
    Dispatch,
    DispatchPar,
    RunNow,
}

/// Systems that wait for each other, in the innermost of so many batches, and on how many workers.
#[derive(Clone, Copy)]
struct Meeting {
    systems: u32,
    levels: usize,
    workers: usize,
    /// What the inner builder sets, which does not count.
    inner_workers: usize,
    /// Whether another system stands beside the outermost batch, in a group of its own.
    beside: bool,
    /// How many groups the plan's one stage has.
    groups: usize,
    turns: u32,
}

fn add_meeting(builder: &mut MeetsBuilder, meets: Plain<Meets>) -> Result<SystemId, AddError> {
    builder.add(meets, "", &[])
}

fn add_batch(builder: &mut MeetsBuilder, inner: MeetsBuilder) -> Result<SystemId, AddError> {
    builder.add_batch(Once, inner, "", &[])
}

// The builder of the systems alone.
fn innermost(alloc: Global, meeting: Meeting) -> Result<MeetsBuilder, Fail> {
    let mut builder: MeetsBuilder = DispatcherBuilder::new(alloc);
    let arrived = nobody(alloc)?;
    for _ in 0..meeting.systems {
        let meets = waits_for(&arrived, u64::from(meeting.systems), meeting.turns)?;
        add_meeting(&mut builder, meets)?;
    }
    builder.add_pool(meeting.inner_workers);
    Ok(builder)
}

// A batch of this plan, and before it, where it is asked, a system that waits for nobody.
fn around(alloc: Global, inner: MeetsBuilder, beside: bool) -> Result<MeetsBuilder, Fail> {
    let mut builder: MeetsBuilder = DispatcherBuilder::new(alloc);
    if beside {
        add_meeting(&mut builder, waits_for(&nobody(alloc)?, 1, 1)?)?;
    }
    add_batch(&mut builder, inner)?;
    Ok(builder)
}

// The builder of the systems in as many batches as it says, and of what stands beside them.
fn builder_of(alloc: Global, meeting: Meeting) -> Result<MeetsBuilder, Fail> {
    let mut builder = innermost(alloc, meeting)?;
    for level in 0..meeting.levels {
        builder = around(
            alloc,
            builder,
            meeting.beside && level + 1 == meeting.levels,
        )?;
    }
    builder.add_pool(meeting.workers);
    Ok(builder)
}

fn dispatched(
    rt: &(impl Threads + Sync),
    dispatcher: &mut MeetsDispatcher,
    world: &mut World<Value>,
) -> Ended {
    ended(dispatcher.dispatch(rt, world))
}

fn dispatched_par(
    rt: &(impl Threads + Sync),
    dispatcher: &mut MeetsDispatcher,
    world: &mut World<Value>,
) -> Ended {
    ended(dispatcher.dispatch_par(rt, world))
}

fn run(
    rt: &(impl Threads + Sync),
    dispatcher: &mut MeetsDispatcher,
    world: &mut World<Value>,
) -> Ended {
    run_ended(dispatcher.run_now(rt, world.local()))
}

fn called(
    rt: &(impl Threads + Sync),
    dispatcher: &mut MeetsDispatcher,
    world: &mut World<Value>,
    call: Call,
) -> Ended {
    match call {
        Call::Dispatch => dispatched(rt, dispatcher, world),
        Call::DispatchPar => dispatched_par(rt, dispatcher, world),
        Call::RunNow => run(rt, dispatcher, world),
    }
}

/// How that call ends, over an empty world.
fn end_of(
    rt: &(impl AllocGlobal + Threads + Sync),
    mut dispatcher: MeetsDispatcher,
    call: Call,
) -> Ended {
    let mut world: World<Value> = World::empty(rt.alloc());
    called(rt, &mut dispatcher, &mut world, call)
}

/// The plan of this meeting, run by this call, ends so.
fn expect_meeting(
    rt: &(impl Abort + AllocGlobal + Threads + Sync),
    meeting: Meeting,
    call: Call,
    end: Ended,
) -> Result<(), Fail> {
    let dispatcher = builder_of(rt.alloc(), meeting)?.build();
    assert_eq!(rt; dispatcher.max_threads(), meeting.groups);
    assert_eq!(rt; end_of(rt, dispatcher, call), end);
    Ok(())
}

const REFUSED: Ended = ("system", 0, 1);

const CALLS: [Call; 3] = [Call::Dispatch, Call::DispatchPar, Call::RunNow];

/// Two in the plan of one batch, whose own builder sets one worker.
const TWO: Meeting = Meeting {
    systems: 2,
    levels: 1,
    workers: 2,
    inner_workers: 1,
    beside: false,
    groups: 1,
    turns: TURNS,
};

/// Four in the plan itself.
const FOUR: Meeting = Meeting {
    systems: 4,
    levels: 0,
    workers: 4,
    groups: 4,
    ..TWO
};

#[test]
fn gate_four(rt: HostRuntime) -> Result<(), Fail> {
    for call in CALLS {
        expect_meeting(&rt, FOUR, call, DONE)?;
    }
    Ok(())
}

#[test]
fn gate_four_on_fewer_workers(rt: HostRuntime) -> Result<(), Fail> {
    for workers in 0..3 {
        let meeting = Meeting {
            workers,
            turns: VAIN,
            ..FOUR
        };
        expect_meeting(&rt, meeting, Call::Dispatch, REFUSED)?;
    }
    Ok(())
}

#[test]
fn gate_batch(rt: HostRuntime) -> Result<(), Fail> {
    for call in CALLS {
        expect_meeting(&rt, TWO, call, DONE)?;
        expect_meeting(
            &rt,
            Meeting {
                beside: true,
                groups: 2,
                ..TWO
            },
            call,
            DONE,
        )?;
    }
    Ok(())
}

#[test]
fn gate_batch_in_two_batches(rt: HostRuntime) -> Result<(), Fail> {
    let meeting = Meeting {
        systems: 4,
        levels: 3,
        workers: 4,
        ..TWO
    };
    for call in CALLS {
        expect_meeting(&rt, meeting, call, DONE)?;
    }
    Ok(())
}

#[test]
fn gate_batch_on_too_few_workers(rt: HostRuntime) -> Result<(), Fail> {
    let one = Meeting {
        workers: 1,
        inner_workers: 2,
        turns: VAIN,
        ..TWO
    };
    let two = Meeting {
        systems: 4,
        workers: 2,
        inner_workers: 4,
        ..one
    };
    for meeting in [
        one,
        Meeting { levels: 3, ..one },
        two,
        Meeting { levels: 3, ..two },
    ] {
        expect_meeting(&rt, meeting, Call::Dispatch, REFUSED)?;
    }
    Ok(())
}
