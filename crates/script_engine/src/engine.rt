//! From a script's bytes to its outcome's.
ghost use Rattle.script_engine.specs.Runs.{HasEnded, IsReadFor, IsReportedTo};

use crate::run_plan::{run_plan, run_plan_on_kept};
use script_text::error::ScriptError;
use script_text::error_line::tell;
use script_text::input::read_text;
use script_text::outcome::Outcome;
use script_text::script::Script;
use std::alloc::Global;
use std::io::{Read, Write};
use std::sync::Wait;
use std::thread::Threads;

/// Reads a script, runs it and prints what it left to `out`, or why it is not run to `err`. Gives the exit status:
/// 0 where all is well, 1 for a fault of the script, a failed read or a failed write to `out`, 2 for a refusal, of a line
/// or in the run, and for want of memory.
pub fn run<T: Threads + Sync, R: Read, O: Write, E: Write>(
    rt: &T,
    alloc: Global,
    reader: &mut R,
    out: &mut O,
    err: &mut E,
) -> u8
    ensures { HasEnded result (R.remaining reader.old) (R.remaining reader.new) (O.contents out.old) (O.contents out.new) (E.contents err.old) (E.contents err.new) }
{
    match run_script(rt, alloc, reader, out) {
        Ok(outcome) => outcome.status(),
        Err(error) => {
            tell(err, error);
            error.status()
        }
    }
}

/// `run`, where the stages of all dispatches run on workers that are started once; with `mode seq` none are. It prints and gives
/// the same.
pub fn run_on_kept_workers<
    T: Threads + Wait + Clone + Drop + Send + Sync + 'static,
    R: Read,
    O: Write,
    E: Write,
>(rt: &T, alloc: Global, reader: &mut R, out: &mut O, err: &mut E) -> u8
    ensures { HasEnded result (R.remaining reader.old) (R.remaining reader.new) (O.contents out.old) (O.contents out.new) (E.contents err.old) (E.contents err.new) }
{
    match run_script_on_kept(rt, alloc, reader, out) {
        Ok(outcome) => outcome.status(),
        Err(error) => {
            tell(err, error);
            error.status()
        }
    }
}

fn run_script<T: Threads + Sync, R: Read, O: Write>(
    rt: &T,
    alloc: Global,
    reader: &mut R,
    out: &mut O,
) -> Result<Outcome, ScriptError>
    ensures read { IsReadFor result (R.remaining reader.old) (R.remaining reader.new) }
    ensures reported { IsReportedTo R.remaining O.contents result reader.old reader.new out.old out.new }
{
    let text = match read_text(alloc, reader) {
        Ok(text) => text,
        Err(error) => return Err(error),
    };
    let script = match Script::parse(alloc, text.as_slice()) {
        Ok(script) => script,
        Err(error) => return Err(error),
    };
    run_plan(rt, alloc, script, out)
}

fn run_script_on_kept<T: Threads + Wait + Clone + Drop + Send + Sync + 'static, R: Read, O: Write>(
    rt: &T,
    alloc: Global,
    reader: &mut R,
    out: &mut O,
) -> Result<Outcome, ScriptError>
    ensures read { IsReadFor result (R.remaining reader.old) (R.remaining reader.new) }
    ensures reported { IsReportedTo R.remaining O.contents result reader.old reader.new out.old out.new }
{
    let text = match read_text(alloc, reader) {
        Ok(text) => text,
        Err(error) => return Err(error),
    };
    let script = match Script::parse(alloc, text.as_slice()) {
        Ok(script) => script,
        Err(error) => return Err(error),
    };
    run_plan_on_kept(rt, alloc, script, out)
}
