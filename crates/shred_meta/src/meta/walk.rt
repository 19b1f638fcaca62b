//! The walk that reads.
ghost use Rattle.std.specs.Iterator.{YieldsFirstRef, item_count};
ghost use Rattle.shred_meta.specs.MetaWalks.{left_to_read};

use super::MetaIter;
use shred_table::id::ResourceId;
use shred_table::resource::ResourceValue;
use shred_world::values::value_of;

impl<'a, V: ResourceValue> Iterator for MetaIter<'a, V> {
    type Item = &'a V;

    ghost next_gives = { YieldsFirstRef (left_to_read V.kind_of) };

    ghost remaining = { item_count (left_to_read V.kind_of) };

    fn next(&mut self) -> Option<&'a V> {
        for _ in 0..self.kinds.len() {
            let (kind, others) = self.kinds.split_first()?;
            self.kinds = others;
            if let Some(value) = value_of(self.world, ResourceId::from_type_id(*kind)) {
                return Some(value);
            }
        }
        None
    }
}
