//! Which declaration a plan's path would be shortest without.
ghost use Rattle.std.specs.Prelude.{◌≡◌, IfOk, OnOk};
ghost use Rattle.plan_engine.specs.Shorter.{PutsShorter, best_line, gain_line, gain_of, gains_of, none_line, resource_at};
ghost use Rattle.plan_engine.specs.TimesText.{PutsBehind};

use crate::attempts::Attempt;
use crate::claims::Claim;
use crate::lanes::first_greatest;
use std::alloc::{AllocError, Global};
use std::fmt::Write;

/// Puts the line of the attempt behind the text that shortens the path of the plan at this place most, of several the first; or
/// the line that none does.
pub(crate) fn write_shorter(
    alloc: Global,
    text: &mut String,
    resources: &[&str],
    attempts: &[Attempt],
    plan: usize,
    path: usize,
) -> Result<(), AllocError>
    ensures { OnOk result (PutsShorter resources.now attempts.now plan path text.old text.new) }
{
    let gains = gains_of(alloc, attempts, plan, path)?;
    let place = first_greatest(gains.as_slice());
    write_best(text, resources, attempts, plan, path, place)
}

/// By how much each attempt shortens the path of the plan at this place.
fn gains_of(
    alloc: Global,
    attempts: &[Attempt],
    plan: usize,
    path: usize,
) -> Result<Vec<usize>, AllocError>
    ensures { IfOk result (λ gains. gains.items ≡ gains_of attempts.now plan path) }
{
    let mut gains = Vec::new(alloc);
    for attempt in attempts {
        gains.push(gain_of(attempt, plan, path))?;
    }
    Ok(gains)
}

/// By how much the attempt shortens the path of the plan at this place.
fn gain_of(attempt: &Attempt, plan: usize, path: usize) -> usize
    ensures { result ≡ gain_of plan path attempt.now }
{
    match attempt.path_times.get(plan) {
        Some(time) => path.saturating_sub(*time),
        None => 0,
    }
}

/// Puts the line of the attempt at this place behind the text, or the line that none shortens the path.
fn write_best(
    text: &mut String,
    resources: &[&str],
    attempts: &[Attempt],
    plan: usize,
    path: usize,
    place: usize,
) -> Result<(), AllocError>
    ensures { OnOk result (PutsBehind text.old text.new (best_line resources.now attempts.now plan path place)) }
{
    match attempts.get(place) {
        Some(attempt) => {
            let gain = gain_of(attempt, plan, path);
            write_gain(text, resources, attempt.claim, path, gain)
        }
        None => write_none(text),
    }
}

/// Puts the line of a path that is so much shorter without this declaration behind the text, or the line that none is.
fn write_gain(
    text: &mut String,
    resources: &[&str],
    claim: Claim,
    path: usize,
    gain: usize,
) -> Result<(), AllocError>
    ensures { OnOk result (PutsBehind text.old text.new (gain_line resources.now claim path gain)) }
{
    if gain == 0 {
        return write_none(text);
    }
    let time = path.saturating_sub(gain);
    let line = claim.line;
    let resource = resource_at(resources, claim.resource);
    writeln!(text, "path {time} without {resource} in line {line}")
}

/// Puts the line behind the text that says that no path is shorter.
fn write_none(text: &mut String) -> Result<(), AllocError>
    ensures { OnOk result (PutsBehind text.old text.new none_line) }
{
    writeln!(text, "no shorter path without one declaration")
}

/// The name of the resource at this place, empty where there is none.
fn resource_at<'text>(resources: &[&'text str], place: usize) -> &'text str
    ensures { result.now ≡ resource_at resources.now place }
{
    match resources.get(place) {
        Some(resource) => *resource,
        None => "",
    }
}
