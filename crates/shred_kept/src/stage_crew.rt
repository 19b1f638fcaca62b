//! What the stages of a dispatcher run on.

use crate::lane::StageLane;
use crate::lane_crew::LaneCrew;
use shred_run::{BatchController, NoBatch, System};
use shred_workers::{Pool, Workers};
use shred_world::ResourceValue;
use std::alloc::{AllocError, Global};
use std::sync::{Arc, Wait};
use std::thread::Threads;

/// Workers that are kept for the stages of a dispatcher, and the room for lanes that is kept from one stage to the next. Dropping it ends
/// the workers, and waits until they have ended.
#[derive(Drop)]
pub struct StageCrew<
    R: Threads + Wait,
    V: ResourceValue,
    S: System<V>,
    C: BatchController<V, Error = <S as System<V>>::Error> = NoBatch<<S as System<V>>::Error>,
> {
    pub(crate) lanes: LaneCrew<V, S, C>,
    pub(crate) pool: Pool<StageLane<V, S, C>, R>,
}

impl<
    R: Threads + Wait + Clone + Send + 'static,
    V: ResourceValue + Drop + Send + Sync + 'static,
    S: System<V, Error = E> + Drop + Send + 'static,
    C: BatchController<V, Error = E> + Drop + Send + 'static,
    E: Drop + Send + 'static,
> StageCrew<R, V, S, C>
where
    S::Accessor: Send + 'static,
    C::Accessor: Send + 'static,
{
    /// Starts so many workers, up to the first whose thread or memory is refused: what they were to run stays on the caller's thread.
    /// Who waits looks `looks` times before it sleeps.
    pub fn start(rt: &R, alloc: Global, count: usize, looks: u32) -> Result<Self, AllocError> {
        let workers = Arc::new(alloc, Workers::new(alloc, count, looks)?)?;
        let mut crews = Vec::with_capacity(alloc, count)?;
        for _ in 0..count {
            crews.push(LaneCrew::new(alloc, workers.clone()?))?;
        }
        let lanes = LaneCrew::new(alloc, workers.clone()?);
        let pool = Pool::start_each(rt, alloc, workers, crews)?;
        Ok(StageCrew { lanes, pool })
    }
}
