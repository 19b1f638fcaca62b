//! A script, looked through, run over a world.
ghost use Rattle.std.specs.Prelude.{◌≡◌, IfErr, IfOk, []};
ghost use Rattle.shred_model.specs.Record.{Agent};
ghost use Rattle.shred.specs.Builders.{built, builder_pairs};
ghost use Rattle.shred.specs.Dispatchers.{dispatcher_locals, dispatcher_plan, dispatcher_states, dispatcher_workers};
ghost use Rattle.shred.specs.FullRuns.{whole_over};
ghost use Rattle.script_text.specs.Report.{report, report_of};
ghost use Rattle.script_engine.specs.PlanTexts.{IsNotPlanned, IsPlanPart};
ghost use Rattle.script_engine.specs.Ready.{IsReadyFor};
ghost use Rattle.script_engine.specs.Runs.{IsNotRun, IsPrinted};
ghost use Rattle.script_text.specs.Output.{Writes, WritesBeginning};

use crate::builder::{ScriptBuilder, builder_with};
use crate::dispatches::ScriptDispatcher;
use crate::plan_text::plan_text;
use crate::times::{set_up_and_dispatch, set_up_and_dispatch_on_kept};
use script_text::error::ScriptError;
use script_text::first_values::world_of;
use script_text::outcome::{Outcome, write_threads};
use script_text::output::print;
use script_text::report::{most_bytes, write_report};
use script_text::script::{Manner, Script};
use script_text::step::Resources;
use script_text::value::Value;
use shred::World;
use std::alloc::Global;
use std::io;
use std::io::Write;
use std::sync::Wait;
use std::thread::Threads;

/// A script that is ready to run: its plan, a world of its first values, and what is printed before the run, with room behind it
/// for the report.
#[derive(Drop)]
struct Ready<'text> {
    dispatcher: ScriptDispatcher,
    world: World<Value>,
    text: Vec<u8>,
    resources: Resources<'text>,
    manner: Manner,
}

/// Runs the systems over the resources, prints what that left, and says how it ended. All memory but that of the stages is
/// taken before anything is printed, and the plan, where it is asked for, is printed before the dispatch.
pub(crate) fn run_plan<T: Threads + Sync, O: Write>(
    rt: &T,
    alloc: Global,
    script: Script<'_>,
    out: &mut O,
) -> Result<Outcome, ScriptError>
    ensures { IsPrinted script.entry result (O.contents out.old) (O.contents out.new) }
{
    let ready = prepare(alloc, script)?;
    let Ready {
        dispatcher,
        mut world,
        mut text,
        resources,
        manner,
    } = ready;
    if let Err(_) = print_plan(out, text.as_slice()) {
        return Err(ScriptError::OutputFailed);
    }
    text.clear();
    let outcome = Outcome::of(set_up_and_dispatch(rt, dispatcher, &mut world, manner));
    match print_report(out, text, &resources, &world, outcome) {
        Ok(()) => Ok(outcome),
        Err(_) => Err(ScriptError::OutputFailed),
    }
}

/// The same, on workers that are kept over all dispatches.
pub(crate) fn run_plan_on_kept<T: Threads + Wait + Clone + Drop + Send + Sync + 'static, O: Write>(
    rt: &T,
    alloc: Global,
    script: Script<'_>,
    out: &mut O,
) -> Result<Outcome, ScriptError>
    ensures { IsPrinted script.entry result (O.contents out.old) (O.contents out.new) }
{
    let ready = prepare(alloc, script)?;
    let Ready {
        dispatcher,
        mut world,
        mut text,
        resources,
        manner,
    } = ready;
    if let Err(_) = print_plan(out, text.as_slice()) {
        return Err(ScriptError::OutputFailed);
    }
    text.clear();
    let answer = set_up_and_dispatch_on_kept(rt, alloc, dispatcher, &mut world, manner);
    let outcome = Outcome::of(answer);
    match print_report(out, text, &resources, &world, outcome) {
        Ok(()) => Ok(outcome),
        Err(_) => Err(ScriptError::OutputFailed),
    }
}

/// Makes the plan of a script's lines, and takes all memory for its run.
fn prepare<'text>(alloc: Global, script: Script<'text>) -> Result<Ready<'text>, ScriptError>
    ensures ready { IfOk result (IsReadyFor script.entry) }
    ensures not_ready { IfErr result (IsNotRun script.entry) }
{
    let Script {
        resources,
        plan,
        prints_plan,
        manner,
        ..
    } = script;
    let builder = builder_with(alloc, plan, manner.workers)?;
    let (dispatcher, mut text) = planned(alloc, builder, prints_plan)?;
    let world = world_of(alloc, &resources)?;
    text.reserve(most_bytes(&resources))?;
    Ok(Ready {
        dispatcher,
        world,
        text,
        resources,
        manner,
    })
}

/// Prints what is printed before the run, where there is something.
fn print_plan<O: Write>(out: &mut O, text: &[u8]) -> io::Result<()>
    ensures whole { Writes O.contents out.old out.new text.now result }
    ensures beginning { WritesBeginning O.contents out.old out.new text.now result }
{
    if text.is_empty() {
        Ok(())
    } else {
        print(out, text)
    }
}

/// Makes the report in this room, which is empty, and prints it.
fn print_report<O: Write>(
    out: &mut O,
    mut room: Vec<u8>,
    resources: &Resources<'_>,
    world: &World<Value>,
    outcome: Outcome,
) -> io::Result<()>
    requires { room.items ≡ [] }
    ensures whole { Writes O.contents out.old out.new (report_of resources.now world.now outcome) result }
    ensures beginning { WritesBeginning O.contents out.old out.new (report_of resources.now world.now outcome) result }
{
    if let Err(error) = write_report(&mut room, resources, world, outcome) {
        return Err(error);
    }
    print(out, room.as_slice())
}

/// The dispatcher of what is built, and what is printed of its plan, which is nothing where that is not asked for.
fn planned(
    alloc: Global,
    builder: ScriptBuilder,
    prints_plan: bool,
) -> Result<(ScriptDispatcher, Vec<u8>), ScriptError>
    ensures plan { IfOk result (λ made. dispatcher_plan made.0 ≡ (built builder).plan) }
    ensures states { IfOk result (λ made. (path : Agent) → dispatcher_states made.0 path ≡ (built builder).states path) }
    ensures locals { IfOk result (λ made. dispatcher_locals made.0 ≡ (built builder).locals) }
    ensures workers { IfOk result (λ made. dispatcher_workers made.0 ≡ (built builder).workers) }
    ensures text { IfOk result (λ made. IsPlanPart prints_plan (builder_pairs builder) (built builder).plan made.1.items) }
    ensures not_planned { IfErr result (IsNotPlanned prints_plan (builder_pairs builder) (built builder).plan) }
{
    if !prints_plan {
        return Ok((builder.build(), Vec::new(alloc)));
    }
    let mut text = plan_text(alloc, &builder)?;
    let dispatcher = builder.build();
    match write_threads(&mut text, dispatcher.max_threads()) {
        Ok(()) => Ok((dispatcher, text)),
        Err(_) => Err(ScriptError::OutOfMemory),
    }
}
