//! The walk that writes.
ghost use Rattle.std.specs.Borrow.{sem};
ghost use Rattle.std.specs.Option.{option_copied_mut};
ghost use Rattle.std.specs.Prelude.{◌≡◌, [], IfNone, IfSome, OnSome, Some, slice_get};
ghost use Rattle.shred_meta.specs.MetaWalks.{LendsNext, left_to_write, walk_held, walk_kinds, KeepsWorld, IsNextOf};
ghost use Rattle.shred_meta.specs.Walks.{after_first, IsFirstHeld};
ghost use Rattle.shred_table.specs.Id.{dynamic_id_of};
ghost use Rattle.shred_world.specs.Worlds.{world_held};

use super::{MetaIterMut, MetaMut};
use shred_table::id::{Kind, ResourceId};
use shred_table::resource::ResourceValue;
use shred_world::values::value_of_mut;
use shred_world::world::World;

// The first of the kinds of which a value is held, and the kinds after it.
fn first_of<'a, V: ResourceValue>(world: &World<V>, kinds: &'a [Kind]) -> Option<(Kind, &'a [Kind])>
    ensures { IsFirstHeld (world_held V.kind_of world.now) kinds.now result }
{
    let mut left = kinds;
    for _ in 0..kinds.len() {
        let Some((kind, others)) = left.split_first() else {
            return None;
        };
        if world.has_value_raw(ResourceId::from_type_id(*kind)) {
            return Some((*kind, others));
        }
        left = others;
    }
    None
}

impl<V: ResourceValue> MetaIterMut<'_, V> {
    // Goes on to the next kind of which a value is held, and gives the id of that value.
    fn advance(&mut self) -> Option<ResourceId>
        ensures ended { IfNone result ((left_to_write V.kind_of self.old ≡ []) × (walk_kinds self.new ≡ walk_kinds self.old)) }
        ensures first { IfSome result (IsNextOf V.kind_of self.old) }
        ensures number { IfSome result (λ id. dynamic_id_of id ≡ 0) }
        ensures left { OnSome result (walk_kinds self.new ≡ after_first (walk_held V.kind_of self.old) (walk_kinds self.old)) }
        ensures world { KeepsWorld self.old self.new }
    {
        let (kind, others) = first_of(self.world, self.kinds)?;
        self.kinds = others;
        Some(ResourceId::from_type_id(kind))
    }

    /// The next value, to read it and to give it orders.
    pub fn next(&mut self) -> Option<MetaMut<'_, V>>
        ensures shown { option_copied_mut result ≡ slice_get (left_to_write V.kind_of self.old) 0 }
        ensures* written { sem 𝓛 (LendsNext V.row V.kind_of self.entry result) }
    {
        let id = self.advance()?;
        value_of_mut(self.world, id)
    }
}
