//! What is told of the times of a plan.
ghost use Rattle.std.specs.Prelude.{◌≡◌, ◌≢◌, ◌*◌, ◌/◌, OnOk, Some};
ghost use Rattle.plan_engine.specs.TimesText.{PutsBehind, bound_line, hundredths_text, marked_name, names_line, path_line, quotient_line, stage_line, stage_lines, times_lines, title_line};

use crate::plans::Plan;
use crate::times::{PlanTimes, StageTimes};
use std::alloc::AllocError;
use std::fmt;
use std::fmt::Write;

/// Puts the lines of what the plan takes behind the text.
pub(crate) fn write_times(
    text: &mut String,
    plan: &Plan,
    times: &PlanTimes,
) -> Result<(), AllocError>
    ensures { OnOk result (PutsBehind text.old text.new (times_lines plan.now times.now)) }
{
    write_title(text, plan)?;
    write_stages(text, plan, times.stages.as_slice())?;
    write_path(text, plan, times)?;
    write_bound(text, times.path_time, times.sum_time)
}

/// Puts the line behind the text that tells whose plan it is.
fn write_title(text: &mut String, plan: &Plan) -> Result<(), AllocError>
    ensures { OnOk result (PutsBehind text.old text.new (title_line plan.now.batch)) }
{
    match &plan.batch {
        Some(batch) => writeln!(text, "batch {}", batch.name),
        None => writeln!(text, "plan"),
    }
}

/// Puts the lines of these stages behind the text.
fn write_stages(text: &mut String, plan: &Plan, stages: &[StageTimes]) -> Result<(), AllocError>
    ensures { OnOk result (PutsBehind text.old text.new (stage_lines plan.now 0 stages.now)) }
{
    for (place, stage) in stages.iter().enumerate() {
        write_stage(text, plan, place, stage)?;
    }
    Ok(())
}

/// Puts the line of the stage at this place behind the text.
fn write_stage(
    text: &mut String,
    plan: &Plan,
    place: usize,
    stage: &StageTimes,
) -> Result<(), AllocError>
    ensures { OnOk result (PutsBehind text.old text.new (stage_line plan.now place stage.now)) }
{
    write!(
        text,
        "stage {place} takes {}, idle {}",
        stage.time, stage.idle
    )?;
    write_names(text, plan, stage.longest.as_slice())
}

/// Puts the line of the path behind the text.
fn write_path(text: &mut String, plan: &Plan, times: &PlanTimes) -> Result<(), AllocError>
    ensures { OnOk result (PutsBehind text.old text.new (path_line plan.now times.now)) }
{
    write!(text, "path {} of {}", times.path_time, times.sum_time)?;
    write_names(text, plan, times.path.as_slice())
}

/// Puts the names of these entries and the end of the line behind the text.
fn write_names(text: &mut String, plan: &Plan, ids: &[usize]) -> Result<(), AllocError>
    ensures { OnOk result (PutsBehind text.old text.new (names_line plan.now ids.now)) }
{
    for (place, id) in ids.iter().enumerate() {
        write_name(text, plan, place, *id)?;
    }
    writeln!(text)
}

/// Puts the name of an entry behind the text, with what stands before the name at this place.
fn write_name(text: &mut String, plan: &Plan, place: usize, id: usize) -> Result<(), AllocError>
    ensures { OnOk result (PutsBehind text.old text.new (marked_name plan.now place id)) }
{
    let mark = if place == 0 { ": " } else { ", " };
    match plan.entries.get(id) {
        Some(entry) => write!(text, "{mark}{}", plan.full_name(entry)),
        None => write!(text, "{mark}"),
    }
}

/// Puts the line of the bound on the speed-up behind the text, where the path takes time.
fn write_bound(text: &mut String, path: usize, whole: usize) -> Result<(), AllocError>
    ensures { OnOk result (PutsBehind text.old text.new (bound_line path whole)) }
{
    if path == 0 {
        Ok(())
    } else {
        write_quotient(text, path, whole)
    }
}

/// Puts the line behind the text that has the whole time over that of the path, and this in decimals, rounded down.
fn write_quotient(text: &mut String, path: usize, whole: usize) -> Result<(), AllocError>
    requires { path ≢ 0 }
    ensures { OnOk result (PutsBehind text.old text.new (quotient_line path whole)) }
{
    let quotient = Decimal(hundredths(whole, path));
    writeln!(text, "speed-up at most {whole}/{path} ({quotient})")
}

/// The hundredths of a quotient, rounded down.
fn hundredths(whole: usize, path: usize) -> u128
    requires { path ≢ 0 }
    ensures { result ≡ whole * 100 / path }
{
    whole as u128 * 100 / path as u128
}

/// A number of hundredths, shown as a decimal.
#[derive(Clone, Copy)]
struct Decimal(u128);

impl fmt::Display for Decimal {
    ghost output = { λ number. Some (hundredths_text number.0) };

    fn fmt<W: fmt::Write>(&self, f: &mut fmt::Formatter<W>) -> fmt::Result {
        let hundredths = self.0;
        write!(
            f,
            "{}.{}{}",
            hundredths / 100,
            hundredths / 10 % 10,
            hundredths % 10
        )
    }
}
