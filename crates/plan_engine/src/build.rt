//! The plans that are shown of a script.
ghost use Rattle.std.specs.Prelude.{◌≡◌, IfErr, IfOk};
ghost use Rattle.shred_stage.specs.Known.{texts_of};
ghost use Rattle.script_text.specs.Report.{resource_names};
ghost use Rattle.plan_engine.specs.Endings.{IsRefusedByBuilders, IsRefusedLine};
ghost use Rattle.plan_engine.specs.Shown.{ArePlannedBy, AreShownOf};

use crate::level::Level;
use crate::plans::{Plan, Plans};
use script_engine::take_lines;
use script_text::error::ScriptError;
use script_text::script::{PlanLine, Script};
use script_text::step::Resources;
use std::alloc::{AllocError, Global};

/// The plan of a script, with those of its batches.
pub(crate) fn plans_of<'text>(
    alloc: Global,
    script: Script<'text>,
) -> Result<Plans<'text>, ScriptError>
    ensures shown { IfOk result (AreShownOf script.entry) }
    ensures refused { IfErr result (IsRefusedByBuilders script.entry) }
{
    let Script {
        resources,
        plan,
        ..
    } = script;
    let plans = planned(alloc, plan)?;
    let resources = names_of(alloc, &resources)?;
    Ok(Plans { resources, plans })
}

/// The plan that these lines make, and those of its batches.
pub(crate) fn planned(alloc: Global, lines: Vec<PlanLine<'_>>) -> Result<Vec<Plan>, ScriptError>
    ensures planned { IfOk result (λ plans. ArePlannedBy lines.entry.items plans.items) }
    ensures refused { IfErr result (IsRefusedLine lines.entry.items) }
{
    let level = take_lines(alloc, lines, Level::new(alloc, None, 0))?;
    let plans = level.into_plans(alloc)?;
    Ok(plans)
}

fn names_of<'text>(
    alloc: Global,
    resources: &Resources<'text>,
) -> Result<Vec<&'text str>, AllocError>
    ensures { IfOk result (λ names. texts_of names.items ≡ resource_names resources.now) }
{
    let mut names = Vec::new(alloc);
    for name in resources.keys() {
        names.push(*name)?;
    }
    Ok(names)
}
