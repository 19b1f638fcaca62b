//! The report of what plans take.
ghost use Rattle.std.specs.Prelude.{IfOk, OnOk};
ghost use Rattle.std.specs.String.{string_bytes};
ghost use Rattle.plan_engine.specs.Reports.{IsReportOf, PutsPlanReport};

use crate::attempts::Attempt;
use crate::plans::{Plan, Plans};
use crate::shorter::write_shorter;
use crate::times::times_of;
use crate::times_text::write_times;
use std::alloc::{AllocError, Global};

/// The report: of each plan what its stages take, with the longest lanes, its path, the bound on the speed-up, and which of
/// these attempts would shorten the path most.
pub(crate) fn report(
    alloc: Global,
    plans: &Plans<'_>,
    attempts: &[Attempt],
) -> Result<String, AllocError>
    ensures { IfOk result (λ text. IsReportOf plans.now attempts.now (string_bytes text)) }
{
    let resources = plans.resources.as_slice();
    let mut text = String::new(alloc);
    for (place, plan) in plans.plans.iter().enumerate() {
        write_plan(alloc, &mut text, resources, attempts, place, plan)?;
    }
    Ok(text)
}

/// Puts the lines of the plan at this place behind the text.
fn write_plan(
    alloc: Global,
    text: &mut String,
    resources: &[&str],
    attempts: &[Attempt],
    place: usize,
    plan: &Plan,
) -> Result<(), AllocError>
    ensures { OnOk result (PutsPlanReport resources.now attempts.now place plan.now text.old text.new) }
{
    let times = times_of(alloc, plan)?;
    write_times(text, plan, &times)?;
    write_shorter(alloc, text, resources, attempts, place, times.path_time)
}
