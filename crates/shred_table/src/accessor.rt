//! What a system declares to read and to write.
ghost use Rattle.std.specs.Prelude.{◌≡◌, ⊤, List, [], IfOk};
ghost use Rattle.shred_table.specs.Accessors.{batch_reads, batch_writes};
ghost use Rattle.shred_table.specs.declared.id.ResourceId.{ResourceId};

use crate::id::ResourceId;
use std::alloc::{AllocError, AllocFailed, Global};
use std::marker::PhantomData;
use thiserror::Error;

/// Memory was refused.
#[derive(Clone, Copy, Debug, PartialEq, Eq, Error)]
#[error("out of memory")]
pub struct OutOfMemory;

impl From<AllocError> for OutOfMemory {
    ghost from_gives = { λ _ _. ⊤ };

    fn from(_error: AllocError) -> OutOfMemory {
        OutOfMemory
    }
}

impl<T: Drop> From<AllocFailed<T>> for OutOfMemory {
    ghost from_gives = { λ _ _. ⊤ };

    fn from(_failed: AllocFailed<T>) -> OutOfMemory {
        OutOfMemory
    }
}

/// The ids that a system reads, and those that it writes.
pub trait Accessor {
    ghost reads: { Self → List ResourceId };

    ghost writes: { Self → List ResourceId };

    /// The ids that are read.
    fn reads(&self, alloc: Global) -> Result<Vec<ResourceId>, OutOfMemory>
        ensures { IfOk result (λ ids. ids.items ≡ reads self.now) };

    /// The ids that are written.
    fn writes(&self, alloc: Global) -> Result<Vec<ResourceId>, OutOfMemory>
        ensures { IfOk result (λ ids. ids.items ≡ writes self.now) };
}

impl Accessor for () {
    ghost reads = { λ nothing. [] };

    ghost writes = { λ nothing. [] };

    fn reads(&self, alloc: Global) -> Result<Vec<ResourceId>, OutOfMemory> {
        Ok(Vec::new(alloc))
    }

    fn writes(&self, alloc: Global) -> Result<Vec<ResourceId>, OutOfMemory> {
        Ok(Vec::new(alloc))
    }
}

impl<T> Accessor for PhantomData<T> {
    ghost reads = { λ nothing. [] };

    ghost writes = { λ nothing. [] };

    fn reads(&self, alloc: Global) -> Result<Vec<ResourceId>, OutOfMemory> {
        Ok(Vec::new(alloc))
    }

    fn writes(&self, alloc: Global) -> Result<Vec<ResourceId>, OutOfMemory> {
        Ok(Vec::new(alloc))
    }
}

/// An accessor with these two lists.
#[derive(Drop)]
pub struct BatchAccessor {
    reads: Vec<ResourceId>,
    writes: Vec<ResourceId>,
}

impl BatchAccessor {
    /// The accessor with these two lists.
    pub fn new(reads: Vec<ResourceId>, writes: Vec<ResourceId>) -> Self
        ensures reads { batch_reads result ≡ reads.items }
        ensures writes { batch_writes result ≡ writes.items }
    {
        BatchAccessor { reads, writes }
    }

    /// The accessor with copies of these two lists.
    pub fn of(
        alloc: Global,
        reads: &[ResourceId],
        writes: &[ResourceId],
    ) -> Result<Self, OutOfMemory>
        ensures reads { IfOk result (λ accessor. batch_reads accessor ≡ reads.now) }
        ensures writes { IfOk result (λ accessor. batch_writes accessor ≡ writes.now) }
    {
        let reads = copy_of(alloc, reads)?;
        let writes = copy_of(alloc, writes)?;
        Ok(BatchAccessor { reads, writes })
    }
}

impl Accessor for BatchAccessor {
    ghost reads = { batch_reads };

    ghost writes = { batch_writes };

    fn reads(&self, alloc: Global) -> Result<Vec<ResourceId>, OutOfMemory> {
        copy_of(alloc, self.reads.as_slice())
    }

    fn writes(&self, alloc: Global) -> Result<Vec<ResourceId>, OutOfMemory> {
        copy_of(alloc, self.writes.as_slice())
    }
}

fn copy_of(alloc: Global, ids: &[ResourceId]) -> Result<Vec<ResourceId>, OutOfMemory>
    ensures { IfOk result (λ copy. copy.items ≡ ids.now) }
{
    Ok(Vec::from_slice(alloc, ids)?)
}
