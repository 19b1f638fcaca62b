//! A script's plan is set up, and dispatched as often as asked: on threads that each stage starts, or on workers that are kept.
ghost use Rattle.script_engine.specs.Runs.{AreDispatched, AreSetUpAndDispatched};
ghost use Rattle.script_engine.specs.OverWorlds.{LeavesWorldBy, script_over};

use crate::dispatches::{InMode, ScriptDispatcher, dispatch_times};
use script_text::outcome::Refusal;
use script_text::script::{Manner, Mode};
use script_text::value::Value;
use shred::{DEFAULT_LOOKS, DispatchError, World};
use std::alloc::Global;
use std::sync::Wait;
use std::thread::Threads;

// As many dispatches as asked, up to the first that is not Done.
fn dispatch_each<T: Threads + Sync>(
    rt: &T,
    dispatcher: ScriptDispatcher,
    world: &mut World<Value>,
    manner: Manner,
) -> Result<(), DispatchError<Refusal>>
    ensures { LeavesWorldBy AreDispatched manner.times (script_over dispatcher world.old) result world.new }
{
    let Manner { mode, times, .. } = manner;
    let mut dispatched = InMode { dispatcher, mode };
    dispatch_times(rt, &mut dispatched, world, times)
}

/// Sets the systems up, and dispatches them as often as asked, up to the first dispatch that is not Done.
pub(crate) fn set_up_and_dispatch<T: Threads + Sync>(
    rt: &T,
    mut dispatcher: ScriptDispatcher,
    world: &mut World<Value>,
    manner: Manner,
) -> Result<(), DispatchError<Refusal>>
    ensures { LeavesWorldBy AreSetUpAndDispatched manner.times (script_over dispatcher world.old) result world.new }
{
    match dispatcher.setup(world) {
        Ok(()) => dispatch_each(rt, dispatcher, world, manner),
        Err(error) => Err(error),
    }
}

// So many dispatches, a stage's groups beside each other on workers that are kept over all of them. Where memory for these is
// refused, all runs on the caller's thread.
fn dispatch_on_kept<T: Threads + Wait + Clone + Drop + Send + Sync + 'static>(
    rt: &T,
    alloc: Global,
    dispatcher: ScriptDispatcher,
    world: &mut World<Value>,
    manner: Manner,
) -> Result<(), DispatchError<Refusal>>
    ensures { LeavesWorldBy AreDispatched manner.times (script_over dispatcher world.old) result world.new }
{
    match dispatcher.keep(rt, alloc, DEFAULT_LOOKS) {
        Ok(mut kept) => dispatch_times(rt, &mut kept, world, manner.times),
        Err(refused) => {
            let mode = Mode::Sequential;
            dispatch_each(rt, refused.value, world, Manner { mode, ..manner })
        }
    }
}

/// The same, on workers that are kept over all dispatches. In sequence none are started.
pub(crate) fn set_up_and_dispatch_on_kept<T: Threads + Wait + Clone + Drop + Send + Sync + 'static>(
    rt: &T,
    alloc: Global,
    mut dispatcher: ScriptDispatcher,
    world: &mut World<Value>,
    manner: Manner,
) -> Result<(), DispatchError<Refusal>>
    ensures { LeavesWorldBy AreSetUpAndDispatched manner.times (script_over dispatcher world.old) result world.new }
{
    if let Mode::Sequential = manner.mode {
        return set_up_and_dispatch(rt, dispatcher, world, manner);
    }
    match dispatcher.setup(world) {
        Ok(()) => dispatch_on_kept(rt, alloc, dispatcher, world, manner),
        Err(error) => Err(error),
    }
}
