//! The two lists of what runs over a part of a view.
ghost use Rattle.std.specs.Prelude.{◌≡◌, ◌++◌, IfOk, OnErr, OnOk};

use crate::tree::RunWithPool;
use shred_run::System;
use shred_world::{Accessor, OutOfMemory, ResourceId, ResourceValue};
use std::alloc::Global;

/// The ids that are read, and those that are written.
#[derive(Drop)]
pub(crate) struct Lists {
    pub(crate) reads: Vec<ResourceId>,
    pub(crate) writes: Vec<ResourceId>,
}

impl Lists {
    pub(crate) fn of_tree<V: ResourceValue, E, T: RunWithPool<V, E>>(
        alloc: Global,
        tree: &T,
    ) -> Result<Self, OutOfMemory>
        ensures reads { IfOk result (λ lists. lists.reads.items ≡ T.trees.reads tree.now) }
        ensures writes { IfOk result (λ lists. lists.writes.items ≡ T.trees.writes tree.now) }
    {
        let mut reads = Vec::new(alloc);
        if let Err(error) = tree.reads(&mut reads) {
            return Err(error);
        }
        let mut writes = Vec::new(alloc);
        if let Err(error) = tree.writes(&mut writes) {
            return Err(error);
        }
        Ok(Lists { reads, writes })
    }

    pub(crate) fn of_system<V: ResourceValue, S: System<V>>(
        alloc: Global,
        system: &S,
    ) -> Result<Self, OutOfMemory>
        ensures reads { IfOk result (λ lists. lists.reads.items ≡ S.reads system.now) }
        ensures writes { IfOk result (λ lists. lists.writes.items ≡ S.writes system.now) }
    {
        let accessor = system.accessor(alloc)?;
        let reads = accessor.reads(alloc)?;
        let writes = accessor.writes(alloc)?;
        Ok(Lists { reads, writes })
    }

    pub(crate) fn pair(&self) -> (&[ResourceId], &[ResourceId])
        ensures reads { result.0.now ≡ self.now.reads.items }
        ensures writes { result.1.now ≡ self.now.writes.items }
    {
        (self.reads.as_slice(), self.writes.as_slice())
    }
}

/// Appends ids to a list. If memory is refused, the list is as before.
pub(crate) fn append(ids: &mut Vec<ResourceId>, more: &[ResourceId]) -> Result<(), OutOfMemory>
    ensures ok { OnOk result (ids.new.items ≡ ids.old.items ++ more.now) }
    ensures err { OnErr result (ids.new.items ≡ ids.old.items) }
{
    Ok(ids.extend_from_slice(more)?)
}
