//! An example of a table of kinds: the same order goes to each value that a world holds of the registered kinds.
ghost use Rattle.std.specs.Prelude.{◌≡◌, MatchOption, false};
ghost use Rattle.shred_meta.specs.Kinds.{is_registered};
ghost use Rattle.shred_meta.specs.MetaTables.{kinds_of};
ghost use Rattle.shred_table.specs.declared.id.ResourceId.{ResourceId};
ghost use Rattle.shred_world.specs.Worlds.{world_held};
ghost use Rattle.test_cells.specs.Numbers.{after_order, kind_of};
ghost use Rattle.test_cells.specs.Orders.{ordered};

use crate::numbers::{Number, Product, Sum};
use shred_meta::{Common, MetaTable};
use shred_world::{OutOfMemory, World};
use std::alloc::Global;

/// The kinds of both resources, that of products first.
pub fn both_kinds(alloc: Global) -> Result<MetaTable<Number>, OutOfMemory> {
    let mut table = MetaTable::new(alloc);
    table.register::<Product>()?;
    table.register::<Sum>()?;
    Ok(table)
}

/// Gives the order to each number of a registered kind that is held under number 0, in the order of registration.
pub fn order_each(table: &MetaTable<Number>, world: &mut World<Number>, order: i64)
    ensures { (id : ResourceId) → world_held kind_of world.new id ≡ ordered order (kinds_of table.now) (world_held kind_of world.old) id }
{
    let mut walk = table.iter_mut(world);
    while let Some(number) = walk.next() {
        number.act(order);
    }
}

/// Gives the order to the number, where its kind is registered, and tells the reply.
pub fn order_one(table: &MetaTable<Number>, number: &mut Number, order: i64) -> Option<i64>
    ensures { MatchOption result (is_registered (kinds_of table.now) (kind_of number.old) ≡ false) (λ reply. number.new ≡ after_order number.old order) }
{
    Some(table.get_mut(number)?.act(order))
}
