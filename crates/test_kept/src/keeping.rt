//! Plans of such systems, the workers that are kept for them, and the counts that they make.
ghost use Rattle.std.specs.Prelude.{[]};
ghost use Rattle.shred_run.specs.declared.system.RunningTime.TheVariants.{VeryLong};

use crate::adds::{ADDS, Adds, Does, system_of};
use shred::{
    AddError, BatchController, DispatchError, DispatcherBuilder, Fault, KeptDispatcher, Only,
    OutOfMemory, Plain, RunningTime, View, World, only_id,
};
use std::alloc::Global;
use std::process::Abort;
use std::sync::Wait;
use std::thread::Threads;
use test_meeting::nobody;

/// Runs its plan once.
#[derive(Drop)]
pub(crate) struct Once;

impl BatchController<Only<i64>> for Once {
    type Error = u8;

    type Accessor = ();

    ghost reads = { λ controller. [] };

    ghost writes = { λ controller. [] };

    ghost time = { λ controller. VeryLong };

    ghost begins = { λ _ _ _ _ _. Unit {0} };

    ghost asks = { λ _ _ _ _ _. Unit {0} };

    ghost sets_up = { λ _ _ _ _ _. Unit {0} };

    fn begin(&mut self, _view: &mut View<Only<i64>>) -> Result<usize, Fault<u8>> {
        Ok(1)
    }

    fn again(&mut self, _view: &mut View<Only<i64>>) -> Result<bool, Fault<u8>> {
        Ok(true)
    }

    fn running_time(&self) -> RunningTime {
        RunningTime::VeryLong
    }

    fn accessor(&self, _alloc: Global) -> Result<(), OutOfMemory> {
        Ok(())
    }

    fn setup(&mut self, _world: &mut World<Only<i64>>) -> Result<(), Fault<u8>> {
        Ok(())
    }
}

pub(crate) type Builder = DispatcherBuilder<Only<i64>, Plain<Adds>, Once>;

pub(crate) type Kept<R> = KeptDispatcher<R, Only<i64>, Plain<Adds>, Once>;

/// The systems that do this, with the numbers from 0 on, in one stage.
pub(crate) fn stage_of(alloc: Global, systems: &[Does]) -> Result<Builder, AddError> {
    let Ok(arrived) = nobody(alloc) else {
        return Err(AddError::OutOfMemory);
    };
    let mut builder: Builder = DispatcherBuilder::new(alloc);
    let mut number = 0;
    for does in systems {
        builder.add(system_of(&arrived, number, *does)?, "", &[])?;
        number = number.wrapping_add(1);
    }
    Ok(builder)
}

/// The plan as the innermost of so many batches.
pub(crate) fn in_batches(alloc: Global, inner: Builder, levels: u32) -> Result<Builder, AddError> {
    let mut builder = inner;
    for _ in 0..levels {
        let outer: Builder = DispatcherBuilder::new(alloc);
        builder = outer.with_batch(Once, builder, "", &[])?;
    }
    Ok(builder)
}

/// The plan in a batch, and a system of this number beside it in its stage.
pub(crate) fn beside_a_system(
    alloc: Global,
    inner: Builder,
    number: u64,
    batch_first: bool,
) -> Result<Builder, AddError> {
    let Ok(arrived) = nobody(alloc) else {
        return Err(AddError::OutOfMemory);
    };
    let mut outer: Builder = DispatcherBuilder::new(alloc);
    if batch_first {
        outer = outer.with_batch(Once, inner, "", &[])?;
        outer.add(system_of(&arrived, number, ADDS)?, "", &[])?;
        return Ok(outer);
    }
    outer.add(system_of(&arrived, number, ADDS)?, "", &[])?;
    outer.with_batch(Once, inner, "", &[])
}

/// The plan in a batch at the end of a system's group, which is the first of its stage or the last. Beside it are another batch and a
/// group of two systems. The systems have the numbers from 2 to 5.
pub(crate) fn behind_a_system(
    alloc: Global,
    inner: Builder,
    group_first: bool,
) -> Result<Builder, AddError> {
    let Ok(arrived) = nobody(alloc) else {
        return Err(AddError::OutOfMemory);
    };
    let mut other: Builder = DispatcherBuilder::new(alloc);
    other.add(system_of(&arrived, 5, ADDS)?, "", &[])?;
    let mut outer: Builder = DispatcherBuilder::new(alloc);
    if group_first {
        outer.add(system_of(&arrived, 2, ADDS)?, "second", &[])?;
    }
    outer = outer.with_batch(Once, other, "", &[])?;
    outer.add(system_of(&arrived, 3, ADDS)?, "third", &[])?;
    outer.add(system_of(&arrived, 4, ADDS)?, "", &["third"])?;
    if !group_first {
        outer.add(system_of(&arrived, 2, ADDS)?, "second", &[])?;
    }
    outer.with_batch(Once, inner, "", &["second"])
}

/// The plan on so many threads, which are kept.
pub(crate) fn kept_on<R: Threads + Wait + Clone + Drop + Send + 'static>(
    rt: &R,
    alloc: Global,
    builder: Builder,
    threads: usize,
    looks: u32,
) -> Result<Kept<R>, OutOfMemory> {
    match builder.with_pool(threads).build().keep(rt, alloc, looks) {
        Ok(kept) => Ok(kept),
        Err(_) => Err(OutOfMemory),
    }
}

/// A world of so many counts, each of them 0.
pub(crate) fn zeros(alloc: Global, count: usize) -> Result<World<Only<i64>>, OutOfMemory> {
    let mut world = World::empty(alloc);
    for number in 0..count {
        if world.insert_by_id(only_id(number as u64), 0).is_err() {
            return Err(OutOfMemory);
        }
    }
    Ok(world)
}

fn count_of(world: &World<Only<i64>>, number: usize) -> Option<i64> {
    match world.try_fetch_by_id::<i64>(only_id(number as u64)) {
        Ok(Some(count)) => Some(*count),
        _ => None,
    }
}

/// So many counts stand at this.
pub(crate) fn expect_counts(rt: &impl Abort, world: &World<Only<i64>>, count: usize, at: i64) {
    for number in 0..count {
        assert_eq!(rt; count_of(world, number), Some(at));
    }
}

// The id and the code of a refusal. No test has a code or a place of these last two.
fn told(error: DispatchError<u8>) -> (usize, u8) {
    match error {
        DispatchError::System {
            id,
            fault: Fault::Refused(code),
        } => (id.0, code),
        DispatchError::System {
            id,
            fault: Fault::OutOfMemory,
        } => (id.0, 255),
        DispatchError::ThreadLocal { index, fault: _ } => (index, 254),
        DispatchError::StageMemory { stage } => (stage, 253),
    }
}

/// The id and the code that a dispatch tells, where it is not Done.
pub(crate) fn refusal<R: Threads + Wait + Drop>(
    kept: &mut Kept<R>,
    world: &mut World<Only<i64>>,
) -> Option<(usize, u8)> {
    match kept.dispatch_par(world) {
        Ok(()) => None,
        Err(error) => Some(told(error)),
    }
}

/// What the first of so many dispatches tells that is not Done.
pub(crate) fn first_refusal<R: Threads + Wait + Drop>(
    kept: &mut Kept<R>,
    world: &mut World<Only<i64>>,
    times: u32,
) -> Option<(usize, u8)> {
    for _ in 0..times {
        let refusal = refusal(kept, world);
        if refusal.is_some() {
            return refusal;
        }
    }
    None
}
