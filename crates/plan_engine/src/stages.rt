//! The stages of a plan, by the ids of their groups.
ghost use Rattle.std.specs.Prelude.{◌≡◌, IfOk};
ghost use Rattle.shred_run.specs.PlanOf.{numbers_of};
ghost use Rattle.shred_stage.specs.StagePlan.{plan_of, stage_plan};
ghost use Rattle.plan_engine.specs.Stages.{groups_in, ids_of_plan, ids_of_stage, stages_in};

use script_engine::{ScriptBatch, ScriptSystem};
use script_text::value::Value;
use shred::{Stage, SystemId};
use std::alloc::{AllocError, Global};

/// A stage of a script's plan.
type ScriptStage = Stage<Value, ScriptSystem, ScriptBatch>;

/// These stages, by the ids of their groups.
pub(crate) fn stages_of(
    alloc: Global,
    stages: &[ScriptStage],
) -> Result<Vec<Vec<Vec<usize>>>, AllocError>
    ensures { IfOk result (λ ids. stages_in ids ≡ ids_of_plan (plan_of stages.now)) }
{
    let mut all = Vec::new(alloc);
    for stage in stages {
        all.push(groups_of(alloc, stage)?)?;
    }
    Ok(all)
}

/// The ids of the groups of a stage.
fn groups_of(alloc: Global, stage: &ScriptStage) -> Result<Vec<Vec<usize>>, AllocError>
    ensures { IfOk result (λ groups. groups_in groups ≡ ids_of_stage (stage_plan stage.now)) }
{
    let mut groups = Vec::new(alloc);
    for group in 0..stage.max_threads() {
        if let Some(ids) = stage.group_ids(group) {
            groups.push(numbers_of(alloc, ids)?)?;
        }
    }
    Ok(groups)
}

fn numbers_of(alloc: Global, ids: &[SystemId]) -> Result<Vec<usize>, AllocError>
    ensures { IfOk result (λ numbers. numbers.items ≡ numbers_of ids.now) }
{
    ids.iter().map(|id| id.0).collect(alloc)
}
