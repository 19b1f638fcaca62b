//! The lines of a plan without one declaration.
ghost use Rattle.std.specs.Prelude.{◌≡◌, ◌++◌, IfOk, OnOk};
ghost use Rattle.std.specs.List.{flat_map};
ghost use Rattle.plan_engine.specs.Without.{AreWithout, IsBatchCopy, IsLineWithout, IsSystemWithout, declared_without, left_out_at, is_left_out, kept, read_steps, write_steps};

use crate::claims::Claim;
use script_text::script::{BatchLine, PlanLine, SystemLine};
use script_text::step::{Step, Use};
use std::alloc::{AllocError, Global};

/// These lines once more, with systems that declare what theirs do, but that of the claim not the claimed resource.
pub(crate) fn lines_without<'text>(
    alloc: Global,
    lines: &[PlanLine<'text>],
    claim: Claim,
) -> Result<Vec<PlanLine<'text>>, AllocError>
    ensures { IfOk result (λ others. AreWithout claim 0 lines.now others.items) }
{
    let mut others = Vec::new(alloc);
    for (place, line) in lines.iter().enumerate() {
        others.push(line_without(alloc, line, left_out_at(claim, place))?)?;
    }
    Ok(others)
}

/// The resource that the system of the line at this place does not declare, if there is one.
fn left_out_at(claim: Claim, place: usize) -> Option<usize>
    ensures { result ≡ left_out_at claim place }
{
    if place == claim.place {
        Some(claim.resource)
    } else {
        None
    }
}

/// The line once more, without this resource.
fn line_without<'text>(
    alloc: Global,
    line: &PlanLine<'text>,
    left_out: Option<usize>,
) -> Result<PlanLine<'text>, AllocError>
    ensures { IfOk result (IsLineWithout left_out line.now) }
{
    match line {
        PlanLine::System(system) => Ok(PlanLine::System(system_without(alloc, system, left_out)?)),
        PlanLine::Local(steps) => Ok(PlanLine::Local(Vec::from_slice(alloc, steps.as_slice())?)),
        PlanLine::Barrier => Ok(PlanLine::Barrier),
        PlanLine::Rule(rule) => Ok(PlanLine::Rule(*rule)),
        PlanLine::Batch(batch) => Ok(PlanLine::Batch(copy_of_batch(alloc, batch)?)),
        PlanLine::End(line) => Ok(PlanLine::End(*line)),
    }
}

/// The line of a system that declares what this one does, but not this resource.
fn system_without<'text>(
    alloc: Global,
    system: &SystemLine<'text>,
    left_out: Option<usize>,
) -> Result<SystemLine<'text>, AllocError>
    ensures { IfOk result (IsSystemWithout left_out system.now) }
{
    let dependencies = Vec::from_slice(alloc, system.dependencies.as_slice())?;
    let steps = declares_without(alloc, system.steps.as_slice(), left_out)?;
    Ok(SystemLine {
        line: system.line,
        name: system.name,
        time: system.time,
        dependencies,
        steps,
    })
}

/// The line that begins the same batch.
fn copy_of_batch<'text>(
    alloc: Global,
    batch: &BatchLine<'text>,
) -> Result<BatchLine<'text>, AllocError>
    ensures { IfOk result (IsBatchCopy batch.now) }
{
    let dependencies = Vec::from_slice(alloc, batch.dependencies.as_slice())?;
    Ok(BatchLine {
        line: batch.line,
        name: batch.name,
        dependencies,
        rounds: batch.rounds,
    })
}

/// Steps that declare what these do, but not this resource.
fn declares_without(
    alloc: Global,
    steps: &[Step],
    left_out: Option<usize>,
) -> Result<Vec<Step>, AllocError>
    ensures { IfOk result (λ declares. declares.items ≡ flat_map (declared_without left_out) steps.now) }
{
    let mut declares = Vec::new(alloc);
    for step in steps {
        add_declares(&mut declares, *step, left_out)?;
    }
    Ok(declares)
}

/// Puts steps that declare what this one does, but not this resource, behind the others.
fn add_declares(
    declares: &mut Vec<Step>,
    step: Step,
    left_out: Option<usize>,
) -> Result<(), AllocError>
    ensures { OnOk result (declares.new.items ≡ declares.old.items ++ declared_without left_out step) }
{
    add_write(declares, kept(left_out, step.write_place()))?;
    add_read(declares, kept(left_out, step.read_place()))
}

/// Puts a step that declares to write the resource at this place, if there is one, behind the others.
fn add_write(declares: &mut Vec<Step>, place: Option<usize>) -> Result<(), AllocError>
    ensures { OnOk result (declares.new.items ≡ declares.old.items ++ write_steps place) }
{
    if let Some(place) = place {
        declares.push(Step::Declare(Use::Write(place)))?;
    }
    Ok(())
}

/// Puts a step that declares to read the resource at this place, if there is one, behind the others.
fn add_read(declares: &mut Vec<Step>, place: Option<usize>) -> Result<(), AllocError>
    ensures { OnOk result (declares.new.items ≡ declares.old.items ++ read_steps place) }
{
    if let Some(place) = place {
        declares.push(Step::Declare(Use::Read(place)))?;
    }
    Ok(())
}

/// The place, if there is one, and it is not the one that is left out.
fn kept(left_out: Option<usize>, place: Option<usize>) -> Option<usize>
    ensures { result ≡ kept left_out place }
{
    match place {
        Some(place) if is_left_out(left_out, place) => None,
        _ => place,
    }
}

/// Whether this place is the one that is left out.
fn is_left_out(left_out: Option<usize>, place: usize) -> bool
    ensures { result ≡ is_left_out left_out place }
{
    match left_out {
        Some(left_out) => place == left_out,
        None => false,
    }
}
