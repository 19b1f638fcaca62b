//! Lists of ids in order, each id once.
ghost use Rattle.std.specs.Prelude.{◌≡◌, ◌↔◌, AllPairs, Any, Contains, true};
ghost use Rattle.std.specs.List.Sorted.{IsStrictlySortedBy};
ghost use Rattle.shred_table.specs.Id.{IsBefore};
ghost use Rattle.shred_table.specs.declared.id.ResourceId.{ResourceId};

use shred_world::ResourceId;

// Sorts the items and drops those that equal the one before.
fn sort_items<T: Ord + Drop>(items: &mut Vec<T>)
    ensures in_order { IsStrictlySortedBy T.cmp items.new.items }
    ensures none_new { (x : T) → Contains items.new.items x → Contains items.old.items x }
    ensures none_lost { (x : T) → Contains items.old.items x → Any (λ y. T.eq x y ≡ true) items.new.items }
{
    items.sort_unstable();
    items.dedup();
}

/// Sorts the ids and drops those that stand there twice.
pub fn sort_without_doubles(ids: &mut Vec<ResourceId>)
    ensures in_order { AllPairs IsBefore ids.new.items }
    ensures same { (id : ResourceId) → Contains ids.new.items id ↔ Contains ids.old.items id }
{
    sort_items(ids);
}
