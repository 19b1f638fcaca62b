//! A lane of a stage.
ghost use Rattle.shred_kept.specs.Lanes.{LaneReady, RanOverLevels};

use crate::level::Level;
use shred_hatch::Job;
use shred_run::entry::Group;
use shred_run::{BatchController, Nested, NoBatch, StageFault, System, Work};
use shred_world::ResourceValue;
use std::sync::Arc;

/// Groups of a stage, how deep batches in them are followed, the levels that lie behind their hands, and the answer of their run.
#[derive(Drop)]
pub struct StageLane<
    V: ResourceValue,
    S: System<V>,
    C: BatchController<V, Error = <S as System<V>>::Error> = NoBatch<<S as System<V>>::Error>,
> {
    pub(crate) at: Option<usize>,
    pub(crate) groups: Vec<Group<V, Work<S, Nested<V, S, C>>>>,
    pub(crate) levels: Vec<Arc<Level<V>>>,
    pub(crate) answer: Result<(), StageFault<<S as System<V>>::Error>>,
}

impl<V: ResourceValue, S: System<V, Error = E>, C: BatchController<V, Error = E>, E> Job
    for StageLane<V, S, C> {
    ghost ready = { λ lane. LaneReady S.System C.BatchController lane.at lane.levels.items lane.groups };

    ghost ran = { λ old new. RanOverLevels V.kind_of S.System C.BatchController old.at old.levels.items old.groups new.answer new.groups };
}
