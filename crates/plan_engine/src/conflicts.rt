//! The report of the pairs whose order the planner chose.
ghost use Rattle.std.specs.List.{AllZip, list_any};
ghost use Rattle.std.specs.Prelude.{◌≡◌, ◌↔◌, ◌==◌, IfOk, IsTrue, not, vec_len};
ghost use Rattle.plan_engine.specs.Plans.{HasChoices, HaveChoice};

use crate::choices::Choice;
use crate::declaration::Declaration;
use crate::plans::{FullName, Plan, Plans};
use crate::shared::{Shared, Writers, shared_by};
use std::alloc::{AllocError, Global};
use std::fmt::Write;

/// A report.
#[derive(Drop)]
pub struct ChoiceReport {
    pub text: String,
    /// Whether there are choices.
    pub has_choices: bool,
}

/// The report: a line for each choice of the plans, and a last one with their number.
pub fn conflicts(alloc: Global, plans: &Plans<'_>) -> Result<ChoiceReport, AllocError>
    ensures { IfOk result (λ report. IsTrue report.has_choices ↔ HaveChoice plans.now) }
{
    let choices = choices_of(alloc, plans.plans.as_slice())?;
    Ok(ChoiceReport {
        text: text_of(alloc, plans, choices.as_slice())?,
        has_choices: are_any(choices.as_slice()),
    })
}

/// The choices of each of these plans.
fn choices_of(alloc: Global, plans: &[Plan]) -> Result<Vec<Vec<Choice>>, AllocError>
    ensures { IfOk result (λ choices. AllZip HasChoices plans.now choices.items) }
{
    let mut all = Vec::new(alloc);
    for plan in plans {
        all.push(plan.choices(alloc)?)?;
    }
    Ok(all)
}

/// Whether there are choices in one of these lists.
fn are_any(choices: &[Vec<Choice>]) -> bool
    ensures { result ≡ list_any (λ choices. not (vec_len choices == 0)) choices.now }
{
    choices.iter().any(|choices| !choices.is_empty())
}

/// The text of the report of these choices of the plans.
fn text_of(
    alloc: Global,
    plans: &Plans<'_>,
    choices: &[Vec<Choice>],
) -> Result<String, AllocError> {
    let mut text = String::new(alloc);
    let mut pairs: usize = 0;
    for (plan, choices) in plans.plans.iter().zip(choices) {
        report_plan(alloc, &mut text, &plans.resources, plan, choices)?;
        pairs = pairs.saturating_add(choices.len());
    }
    writeln!(text, "pairs {pairs}")?;
    Ok(text)
}

/// The lines of the choices of a plan.
fn report_plan(
    alloc: Global,
    text: &mut String,
    resources: &[&str],
    plan: &Plan,
    choices: &[Choice],
) -> Result<(), AllocError> {
    let stages = plan.stage_of_each(alloc)?;
    for choice in choices {
        let first = Side::of(plan, &stages, choice.first);
        let second = Side::of(plan, &stages, choice.second);
        if let (Some(first), Some(second)) = (first, second) {
            report_pair(alloc, text, resources, first, second)?;
        }
    }
    Ok(())
}

/// One of the two entries of a pair.
#[derive(Clone, Copy)]
struct Side<'plan> {
    name: FullName<'plan>,
    declaration: &'plan Declaration,
    stage: usize,
}

impl<'plan> Side<'plan> {
    /// The entry of this id, if there is one.
    fn of(plan: &'plan Plan, stages: &[usize], id: usize) -> Option<Side<'plan>> {
        Some(Side {
            name: plan.full_name(plan.entries.get(id)?),
            declaration: plan.declaration(id)?,
            stage: *stages.get(id)?,
        })
    }
}

/// The line of a pair: its names and stages, and the resources over which it conflicts, with who writes them. An entry that
/// reads and writes a resource is told to write it.
fn report_pair(
    alloc: Global,
    text: &mut String,
    resources: &[&str],
    first: Side<'_>,
    second: Side<'_>,
) -> Result<(), AllocError> {
    let all = shared_by(alloc, resources, first.declaration, second.declaration)?;
    write!(
        text,
        "{} in stage {} and {} in stage {}",
        first.name, first.stage, second.name, second.stage
    )?;
    for (place, Shared { resource, writers }) in all.iter().enumerate() {
        let mark = if place == 0 { ": " } else { ", " };
        write!(text, "{mark}{resource} ")?;
        match writers {
            Writers::Both => write!(text, "written by both")?,
            Writers::First => write!(
                text,
                "written by {} and read by {}",
                first.name, second.name
            )?,
            Writers::Second => write!(
                text,
                "read by {} and written by {}",
                first.name, second.name
            )?,
        }
    }
    writeln!(text)
}
