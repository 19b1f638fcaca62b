//! What a script's plan is dispatched by, and its dispatches, one after another.
ghost use Rattle.std.specs.Thread.{IsSync};
ghost use Rattle.shred.specs.FullRuns.{whole_with};
ghost use Rattle.shred.specs.KeptDispatchers.{dispatcher_of};
ghost use Rattle.script_engine.specs.OverWorlds.{IsOnceOver, AreDispatchedOver};

use crate::batch::ScriptBatch;
use crate::local::ScriptLocal;
use crate::system::ScriptSystem;
use script_text::outcome::Refusal;
use script_text::script::Mode;
use script_text::value::Value;
use shred::{DispatchError, Dispatcher, KeptDispatcher, World};
use std::sync::Wait;
use std::thread::Threads;

/// A dispatcher of a script's systems and batches.
pub(crate) type ScriptDispatcher = Dispatcher<Value, ScriptSystem, ScriptBatch, ScriptLocal>;

/// What a script's plan is dispatched by.
pub(crate) trait Dispatches {
    ghost use Rattle.shred_world.specs.Worked.{Held};
    ghost use Rattle.script_engine.specs.Runs.{Program};
    ghost use Rattle.script_text.specs.declared.value.Value.{Value};

    ghost program: { Self → Held Value → Program };

    /// One dispatch. What it asks of `T` is its bound, in words that a proof can use.
    fn dispatch_once<T: Threads + Sync>(
        &mut self,
        rt: &T,
        world: &mut World<Value>,
    ) -> Result<(), DispatchError<Refusal>>
        requires sync { IsSync T.row }
        ensures { IsOnceOver program self.old world.old result self.new world.new };
}

/// A dispatcher, and whether a stage's groups run beside each other.
#[derive(Drop)]
pub(crate) struct InMode {
    pub(crate) dispatcher: ScriptDispatcher,
    pub(crate) mode: Mode,
}

impl Dispatches for InMode {
    ghost program = { λ it values. whole_with it.dispatcher values };

    fn dispatch_once<T: Threads + Sync>(
        &mut self,
        rt: &T,
        world: &mut World<Value>,
    ) -> Result<(), DispatchError<Refusal>> {
        match self.mode {
            Mode::Parallel => self.dispatcher.dispatch(rt, world),
            Mode::Sequential => match self.dispatcher.dispatch_seq(world) {
                Ok(()) => self.dispatcher.dispatch_thread_local(rt, world),
                Err(error) => Err(error),
            },
        }
    }
}

impl<R: Threads + Wait + Drop> Dispatches
    for KeptDispatcher<R, Value, ScriptSystem, ScriptBatch, ScriptLocal> {
    ghost program = { λ kept values. whole_with (dispatcher_of kept) values };

    fn dispatch_once<T: Threads + Sync>(
        &mut self,
        rt: &T,
        world: &mut World<Value>,
    ) -> Result<(), DispatchError<Refusal>> {
        self.dispatch(rt, world)
    }
}

/// So many dispatches, up to the first that is not Done.
pub(crate) fn dispatch_times<T: Threads + Sync, D: Dispatches>(
    rt: &T,
    dispatched: &mut D,
    world: &mut World<Value>,
    times: u32,
) -> Result<(), DispatchError<Refusal>>
    ensures { AreDispatchedOver D.program times dispatched.old world.old result dispatched.new world.new }
{
    for round in 0..times {
        if let Err(error) = dispatched.dispatch_once(rt, world) {
            return Err(error);
        }
    }
    Ok(())
}
