//! The inner plan of a batch: the stages of a builder, as the tiers that a batch holds.
ghost use Rattle.std.specs.Prelude.{◌≡◌, IfOk, All};
ghost use Rattle.shred_run.specs.Circles.{TiersOwn};
ghost use Rattle.shred_run.specs.Works.{tiers_plan};
ghost use Rattle.shred_stage.specs.Inner.{tiers_states};
ghost use Rattle.shred_stage.specs.Plans.{plan_states};
ghost use Rattle.shred_stage.specs.StagePlan.{plan_of};
ghost use Rattle.shred_stage.specs.Added.{AreSame};

use crate::dispatch::stage::Stage;
use shred_run::entry::push_or_drop;
use shred_run::{BatchController, Nested, System, Tier, Work};
use shred_world::{OutOfMemory, ResourceValue};
use std::alloc::Global;

/// The tiers of these stages. It is there for `DispatcherBuilder`. `OutOfMemory` where memory is refused, and the stages are
/// dropped.
pub fn tiers_of<V: ResourceValue + Drop, S: System<V> + Drop, C: BatchController<V> + Drop>(
    alloc: Global,
    stages: Vec<Stage<V, S, C>>,
) -> Result<Vec<Tier<V, Work<S, Nested<V, S, C>>>>, OutOfMemory>
    ensures plan { IfOk result (λ tiers. tiers_plan tiers.items ≡ plan_of stages.items) }
    ensures states { IfOk result (λ tiers. AreSame (plan_states stages.items) (tiers_states tiers.items)) }
    ensures own { IfOk result (λ tiers. TiersOwn S.System C.BatchController tiers.items) }
{
    let mut tiers = Vec::new(alloc);
    for stage in stages {
        push_or_drop(&mut tiers, stage.into_tier())?;
    }
    Ok(tiers)
}
