//! What systems declare, each resource by itself.
ghost use Rattle.std.specs.Prelude.{◌≡◌, ◌++◌, IfOk, OnOk};
ghost use Rattle.plan_engine.specs.Claims.{claims_from, claims_on, claimed_by, line_claims, system_claims};

use crate::touched::add_places;
use script_engine::Declared;
use script_text::script::{PlanLine, SystemLine};
use script_text::step::Step;
use std::alloc::{AllocError, Global};

/// A resource that a system declares to read or to write.
#[derive(Clone, Copy)]
pub struct Claim {
    /// The place of the system's line among those that the plan is made by.
    pub place: usize,
    /// The number of that line in the script.
    pub line: usize,
    /// The place of the resource.
    pub resource: usize,
}

/// What the systems of these lines declare, in the order of lines; of each first what it writes.
pub(crate) fn claims_of(alloc: Global, lines: &[PlanLine<'_>]) -> Result<Vec<Claim>, AllocError>
    ensures { IfOk result (λ claims. claims.items ≡ claims_from 0 lines.now) }
{
    let mut claims = Vec::new(alloc);
    for (place, line) in lines.iter().enumerate() {
        add_line(alloc, &mut claims, place, line)?;
    }
    Ok(claims)
}

/// Puts what the line at this place declares behind the claims, where it is that of a system.
fn add_line(
    alloc: Global,
    claims: &mut Vec<Claim>,
    place: usize,
    line: &PlanLine<'_>,
) -> Result<(), AllocError>
    ensures { OnOk result (claims.new.items ≡ claims.old.items ++ line_claims place line.now) }
{
    match line {
        PlanLine::System(system) => add_system(alloc, claims, place, system),
        _ => Ok(()),
    }
}

/// Puts what the system of the line at this place declares behind the claims.
fn add_system(
    alloc: Global,
    claims: &mut Vec<Claim>,
    place: usize,
    system: &SystemLine<'_>,
) -> Result<(), AllocError>
    ensures { OnOk result (claims.new.items ≡ claims.old.items ++ system_claims place system.now) }
{
    let resources = claimed_by(alloc, system.steps.as_slice())?;
    add_each(claims, place, system.line, resources.as_slice())
}

/// Puts these resources, which the system of the line at this place declares, behind the claims.
fn add_each(
    claims: &mut Vec<Claim>,
    place: usize,
    line: usize,
    resources: &[usize],
) -> Result<(), AllocError>
    ensures { OnOk result (claims.new.items ≡ claims.old.items ++ claims_on place line resources.now) }
{
    for resource in resources {
        claims.push(Claim {
            place,
            line,
            resource: *resource,
        })?;
    }
    Ok(())
}

/// The places of the resources that these steps declare, each once.
fn claimed_by(alloc: Global, steps: &[Step]) -> Result<Vec<usize>, AllocError>
    ensures { IfOk result (λ places. places.items ≡ claimed_by steps.now) }
{
    let declared = Declared::of_steps(alloc, steps)?;
    let Declared { read, written, .. } = declared;
    let mut places = written;
    add_places(&mut places, read.as_slice())?;
    Ok(places)
}
