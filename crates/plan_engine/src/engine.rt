//! From a script's bytes to what is shown of its plan.
ghost use Rattle.std.specs.Prelude.{IfErr, IfOk};
ghost use Rattle.std.specs.String.{string_bytes};
ghost use Rattle.plan_engine.specs.Endings.{HasToldPlan, HasStatus, IsNotShown, IsRefusedAsRead, IsRefusedByBuilders, IsScriptShown, IsShown, AreTried, SaysOf};

use crate::attempts::{Attempt, attempts_of};
use crate::build::plans_of;
use crate::conflicts::conflicts;
use crate::digraph::dot;
use crate::picture::svg;
use crate::plans::Plans;
use crate::report::report;
use crate::wanted::Wanted;
use script_text::error::ScriptError;
use script_text::error_line::tell;
use script_text::input::read_text;
use script_text::output::print;
use script_text::script::Script;
use std::alloc::{AllocError, Global};
use std::io::{Read, Write};

/// The exit status where there are choices, and they are denied.
const DENIED: u8 = 4;

/// A text, and the exit status that goes with it.
#[derive(Drop)]
struct Shown {
    text: String,
    status: u8,
}

/// Reads a script and shows its plan on `out`, or tells on `err` why not. Gives the exit status: 0 where all is well, 4 where a
/// choice is denied, 1 for a fault of the script, a failed read or a failed write to `out`, 2 where a line is refused and for
/// want of memory.
pub fn run<R: Read, O: Write, E: Write>(
    alloc: Global,
    wanted: Wanted,
    reader: &mut R,
    out: &mut O,
    err: &mut E,
) -> u8
    ensures { HasToldPlan wanted result (R.remaining reader.old) (R.remaining reader.new) (O.contents out.old) (O.contents out.new) (E.contents err.old) (E.contents err.new) }
{
    match run_wanted(alloc, wanted, reader, out) {
        Ok(status) => status,
        Err(error) => {
            tell(err, error);
            error.status()
        }
    }
}

/// Reads a script and shows its plan on `out`. Gives the exit status.
fn run_wanted<R: Read, O: Write>(
    alloc: Global,
    wanted: Wanted,
    reader: &mut R,
    out: &mut O,
) -> Result<u8, ScriptError>
    ensures shown { IfOk result (IsShown wanted (R.remaining reader.old) (R.remaining reader.new) (O.contents out.old) (O.contents out.new)) }
    ensures not_shown { IfErr result (IsNotShown (O.contents out.old) (O.contents out.new)) }
    ensures refused { IfErr result (IsRefusedAsRead (R.remaining reader.old) (R.remaining reader.new)) }
{
    let text = match read_text(alloc, reader) {
        Ok(text) => text,
        Err(error) => return Err(error),
    };
    let script = match Script::parse(alloc, text.as_slice()) {
        Ok(script) => script,
        Err(error) => return Err(error),
    };
    show_script(alloc, wanted, script, out)
}

/// Shows the plan of a script on `out`. Gives the exit status.
fn show_script<O: Write>(
    alloc: Global,
    wanted: Wanted,
    script: Script<'_>,
    out: &mut O,
) -> Result<u8, ScriptError>
    ensures shown { IfOk result (IsScriptShown wanted script.entry (O.contents out.old) (O.contents out.new)) }
    ensures not_shown { IfErr result (IsNotShown (O.contents out.old) (O.contents out.new)) }
    ensures refused { IfErr result (IsRefusedByBuilders script.entry) }
{
    // A script that is refused is told so, whatever came of the attempts.
    let attempts = attempts_for(alloc, wanted, &script);
    let plans = match plans_of(alloc, script) {
        Ok(plans) => plans,
        Err(error) => return Err(error),
    };
    let attempts = attempts?;
    let shown = show(alloc, wanted, &plans, attempts.as_slice())?;
    match print(out, shown.text.as_bytes()) {
        Ok(()) => Ok(shown.status),
        Err(_) => Err(ScriptError::OutputFailed),
    }
}

/// What is tried beforehand.
fn attempts_for(
    alloc: Global,
    wanted: Wanted,
    script: &Script<'_>,
) -> Result<Vec<Attempt>, AllocError>
    ensures { IfOk result (λ attempts. AreTried wanted script.now attempts.items) }
{
    match wanted {
        Wanted::Report => attempts_of(alloc, script.plan.as_slice()),
        _ => Ok(Vec::new(alloc)),
    }
}

/// What is shown of the plans, with the status that goes with it.
fn show(
    alloc: Global,
    wanted: Wanted,
    plans: &Plans<'_>,
    attempts: &[Attempt],
) -> Result<Shown, AllocError>
    ensures status { IfOk result (λ shown. HasStatus wanted plans.now shown.status) }
    ensures text { IfOk result (λ shown. SaysOf wanted plans.now attempts.now (string_bytes shown.text)) }
{
    match wanted {
        Wanted::Dot => Ok(Shown {
            text: dot(alloc, plans)?,
            status: 0,
        }),
        Wanted::Svg => Ok(Shown {
            text: svg(alloc, plans)?,
            status: 0,
        }),
        Wanted::Choices { denied } => {
            let conflicts = conflicts(alloc, plans)?;
            Ok(Shown {
                text: conflicts.text,
                status: if denied && conflicts.has_choices {
                    DENIED
                } else {
                    0
                },
            })
        }
        Wanted::Report => Ok(Shown {
            text: report(alloc, plans, attempts)?,
            status: 0,
        }),
    }
}
