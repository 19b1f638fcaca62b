//! The table's own calls.
ghost use Rattle.std.specs.Prelude.{◌≡◌, false, [], IfSome, OnOk, OnErr};
ghost use Rattle.shred_meta.specs.Kinds.{is_registered, registered};
ghost use Rattle.shred_meta.specs.MetaTables.{kinds_of, ShowsRegistered, LendsRegistered};
ghost use Rattle.shred_meta.specs.MetaWalks.{left_to_read, walk_kinds, walk_world};
ghost use Rattle.shred_meta.specs.Walks.{walk};
ghost use Rattle.shred_world.specs.Worlds.{world_held};

use super::{MetaIter, MetaIterMut, MetaMut, MetaTable};
use indexmap::IndexSet;
use shred_table::accessor::OutOfMemory;
use shred_table::resource::{Resource, ResourceValue};
use shred_world::world::World;
use std::alloc::Global;
use std::marker::PhantomData;

impl<V> MetaTable<V> {
    /// A table without kinds. It takes no memory.
    pub fn new(alloc: Global) -> Self
        ensures { kinds_of result ≡ [] }
    {
        MetaTable {
            kinds: IndexSet::new(alloc),
            values: PhantomData,
        }
    }

    /// A table without kinds, as of `new`.
    pub fn default(alloc: Global) -> Self
        ensures { kinds_of result ≡ [] }
    {
        Self::new(alloc)
    }
}

impl<V: ResourceValue> MetaTable<V> {
    /// Puts the kind of `R` last, unless it was registered before. After a refusal for want of memory, which comes only of a
    /// new kind, the table is as before.
    pub fn register<R: Resource<V>>(&mut self) -> Result<(), OutOfMemory>
        ensures ok { OnOk result (kinds_of self.new ≡ registered (kinds_of self.old) R.KIND) }
        ensures err { OnErr result (kinds_of self.new ≡ kinds_of self.old) }
        ensures out_of_memory { OnErr result (is_registered (kinds_of self.old) R.KIND ≡ false) }
    {
        self.kinds.insert(R::KIND)?;
        Ok(())
    }

    /// The value, where its kind is registered.
    pub fn get<'v>(&self, value: &'v V) -> Option<&'v V>
        ensures { ShowsRegistered V.kind_of (kinds_of self.now) value.now result }
    {
        if self.kinds.contains(&value.kind()) {
            Some(value)
        } else {
            None
        }
    }

    /// The value, to read it and to give it orders, where its kind is registered.
    pub fn get_mut<'v>(&self, value: &'v mut V) -> Option<MetaMut<'v, V>>
        ensures shown { LendsRegistered V.kind_of (kinds_of self.now) value.old result }
        ensures name { IfSome result (λ shown. shown.ghost_name ≡ value.entry.ghost_name) }
    {
        if self.kinds.contains(&value.kind()) {
            Some(value)
        } else {
            None
        }
    }

    /// The values that are held of the registered kinds under number 0.
    pub fn iter<'a>(&'a self, world: &'a World<V>) -> MetaIter<'a, V>
        ensures { left_to_read V.kind_of result ≡ walk (world_held V.kind_of world.now) (kinds_of self.now) }
    {
        MetaIter {
            kinds: self.kinds.as_slice(),
            world,
        }
    }

    /// The values that are held of the registered kinds under number 0, each lent in turn to read it and to give it orders.
    pub fn iter_mut<'a>(&'a self, world: &'a mut World<V>) -> MetaIterMut<'a, V>
        ensures kinds { walk_kinds result ≡ kinds_of self.now }
        ensures name { (walk_world result).ghost_name ≡ world.entry.ghost_name }
        ensures shown { (walk_world result).now ≡ world.old }
    {
        MetaIterMut {
            kinds: self.kinds.as_slice(),
            world,
        }
    }
}
