//! What a script's plans take without one declaration, for each that a system makes.
ghost use Rattle.std.specs.Prelude.{◌≡◌, IfOk};
ghost use Rattle.std.specs.List.{AllZip};
ghost use Rattle.plan_engine.specs.Attempts.{AreAttempts, HasPathTime, IsAttempt};

use crate::build::planned;
use crate::claims::{Claim, claims_of};
use crate::plans::Plan;
use crate::times::times_of;
use crate::without::lines_without;
use script_text::script::PlanLine;
use std::alloc::{AllocError, Global};

/// What the plans take without a declaration.
#[derive(Drop)]
pub struct Attempt {
    pub claim: Claim,
    /// The time of the path of each plan.
    pub path_times: Vec<usize>,
}

/// The attempts of these lines: without each declaration of a system in turn, they are planned anew.
pub(crate) fn attempts_of(alloc: Global, lines: &[PlanLine<'_>]) -> Result<Vec<Attempt>, AllocError>
    ensures { IfOk result (λ attempts. AreAttempts lines.now attempts.items) }
{
    let claims = claims_of(alloc, lines)?;
    attempts_without(alloc, lines, claims.as_slice())
}

/// The attempts without these declarations.
fn attempts_without(
    alloc: Global,
    lines: &[PlanLine<'_>],
    claims: &[Claim],
) -> Result<Vec<Attempt>, AllocError>
    ensures { IfOk result (λ attempts. AllZip (IsAttempt lines.now) claims.now attempts.items) }
{
    let mut attempts = Vec::new(alloc);
    for claim in claims {
        attempts.push(attempt_without(alloc, lines, *claim)?)?;
    }
    Ok(attempts)
}

/// The attempt without this declaration. Where these lines are planned, they are without it too, so it ends early only for want
/// of memory.
fn attempt_without(
    alloc: Global,
    lines: &[PlanLine<'_>],
    claim: Claim,
) -> Result<Attempt, AllocError>
    ensures { IfOk result (IsAttempt lines.now claim) }
{
    let others = lines_without(alloc, lines, claim)?;
    match planned(alloc, others) {
        Ok(plans) => Ok(Attempt {
            claim,
            path_times: path_times(alloc, plans.as_slice())?,
        }),
        Err(_) => Err(AllocError),
    }
}

/// The time of the path of each of these plans.
fn path_times(alloc: Global, plans: &[Plan]) -> Result<Vec<usize>, AllocError>
    ensures { IfOk result (λ times. AllZip HasPathTime plans.now times.items) }
{
    let mut times = Vec::new(alloc);
    for plan in plans {
        times.push(path_time(alloc, plan)?)?;
    }
    Ok(times)
}

/// The time of the plan's path.
fn path_time(alloc: Global, plan: &Plan) -> Result<usize, AllocError>
    ensures { IfOk result (HasPathTime plan.now) }
{
    let times = times_of(alloc, plan)?;
    Ok(times.path_time)
}
