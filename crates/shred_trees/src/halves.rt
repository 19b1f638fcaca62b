//! Two trees, or one of the two while they run.
ghost use Rattle.std.specs.Prelude.{◌≡◌, ◌++◌, OnErr, OnOk};
ghost use Rattle.shred_world.specs.Between.{OverWorld};
ghost use Rattle.shred_trees.specs.Halves.{HalvesSetUp};

use crate::tree::RunWithPool;
use shred_run::Fault;
use shred_world::{OutOfMemory, ResourceId, ResourceValue, World};

/// Two trees, or one of the two while they run.
#[derive(Drop)]
pub(crate) enum Halves<H, T> {
    Both(H, T),
    Head(H),
    Tail(T),
}

impl<H, T> Halves<H, T> {
    ghost use Rattle.shred_trees.specs.Halves.{KeepsHalfLists, halves_list};

    /// Sets up the head, and where it was Done the tail.
    pub(crate) fn set_up<V: ResourceValue, E>(
        &mut self,
        world: &mut World<V>,
    ) -> Result<(), Fault<E>>
    where
        H: RunWithPool<V, E>,
        T: RunWithPool<V, E>,
        ensures sets_up { OverWorld V.kind_of (HalvesSetUp H.trees T.trees) self.old world.old result self.new world.new }
        ensures lists { KeepsHalfLists H.trees T.trees self.old self.new }
    {
        match self {
            Halves::Both(head, tail) => {
                if let Err(fault) = head.setup(world) {
                    return Err(fault);
                }
                tail.setup(world)
            }
            Halves::Head(head) => head.setup(world),
            Halves::Tail(tail) => tail.setup(world),
        }
    }

    /// Appends what the head reads, and then what the tail does. If memory is refused, the list is as before.
    pub(crate) fn append_reads<V: ResourceValue, E>(
        &self,
        ids: &mut Vec<ResourceId>,
    ) -> Result<(), OutOfMemory>
    where
        H: RunWithPool<V, E>,
        T: RunWithPool<V, E>,
        ensures ok { OnOk result (ids.new.items ≡ ids.old.items ++ halves_list H.trees.reads T.trees.reads self.now) }
        ensures err { OnErr result (ids.new.items ≡ ids.old.items) }
    {
        match self {
            Halves::Both(head, tail) => {
                let length = ids.len();
                if let Err(error) = head.reads(ids) {
                    return Err(error);
                }
                if let Err(error) = tail.reads(ids) {
                    ids.truncate(length);
                    return Err(error);
                }
                Ok(())
            }
            Halves::Head(head) => head.reads(ids),
            Halves::Tail(tail) => tail.reads(ids),
        }
    }

    /// Appends what the head writes, and then what the tail does. If memory is refused, the list is as before.
    pub(crate) fn append_writes<V: ResourceValue, E>(
        &self,
        ids: &mut Vec<ResourceId>,
    ) -> Result<(), OutOfMemory>
    where
        H: RunWithPool<V, E>,
        T: RunWithPool<V, E>,
        ensures ok { OnOk result (ids.new.items ≡ ids.old.items ++ halves_list H.trees.writes T.trees.writes self.now) }
        ensures err { OnErr result (ids.new.items ≡ ids.old.items) }
    {
        match self {
            Halves::Both(head, tail) => {
                let length = ids.len();
                if let Err(error) = head.writes(ids) {
                    return Err(error);
                }
                if let Err(error) = tail.writes(ids) {
                    ids.truncate(length);
                    return Err(error);
                }
                Ok(())
            }
            Halves::Head(head) => head.writes(ids),
            Halves::Tail(tail) => tail.writes(ids),
        }
    }
}
