//! What a system declares.

use shred::{Kind, ResourceId, RunningTime};
use std::alloc::{AllocError, Global};

/// What a system of a test declares.
#[derive(Clone, Copy)]
pub struct Case {
    pub reads: &'static [u32],
    pub writes: &'static [u32],
    pub time: RunningTime,
}

/// A system that touches nothing.
pub const PLAIN: Case = Case {
    reads: &[],
    writes: &[],
    time: RunningTime::Average,
};

/// The ids of these kinds.
pub fn resources(alloc: Global, kinds: &[u32]) -> Result<Vec<ResourceId>, AllocError> {
    let mut ids = Vec::new(alloc);
    for kind in kinds {
        ids.push(ResourceId::from_type_id(Kind(*kind)))?;
    }
    Ok(ids)
}
