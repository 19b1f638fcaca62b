//! A bundle of a caller's own: a count, and how far it may go.
ghost use Rattle.std.specs.Prelude.{◌≡◌, [], ◌∷◌, Some, IfOk, IfErr, true, false};
ghost use Rattle.shred_world.specs.BundleParts.{written_value, read_value, moved_to_read};
ghost use Rattle.shred_table.specs.Id.{id_of};
ghost use Rattle.shred_world.specs.Worlds.{world_held};
ghost use Rattle.example_systems.specs.Limits.{IsCountedIn, IsCountingRefused, StartsAtZero, counted_up, kind_of, count_kind, limit_kind};
ghost use Rattle.example_systems.specs.declared.limits.Value.TheVariants.{Counted, Limited};

use crate::limits::{Count, Limit, Value};
use shred::{
    DataError, OutOfMemory, ReadExpect, ResourceId, SystemData, View, World, WorldError,
    WriteExpect,
};
use std::alloc::Global;

/// A count, and how far it may go.
pub struct Counting<'s> {
    count: WriteExpect<Count>,
    limit: ReadExpect<'s, Limit>,
}

impl<'s> Counting<'s> {
    /// Counts one more, unless the limit is reached.
    pub fn count_one(&mut self)
        ensures counted { written_value self.new.count ≡ counted_up (written_value self.old.count) (read_value self.old.limit) }
        ensures limit { self.new.limit ≡ self.old.limit }
    {
        if self.count.0 < self.limit.0 {
            self.count.0 += 1;
        }
    }

    /// The count.
    pub fn count(&self) -> i64
        ensures { result ≡ (written_value self.now.count).0 }
    {
        self.count.0
    }
}

impl<'s> SystemData<'s, Value> for Counting<'s> {
    ghost read_ids = { id_of limit_kind 0 ∷ [] };

    ghost written_ids = { id_of count_kind 0 ∷ [] };

    ghost sets_up = { StartsAtZero };

    ghost parts = { record { kind = count_kind; id = id_of count_kind 0; is_written = true; may_be_absent = false } ∷ record { kind = limit_kind; id = id_of limit_kind 0; is_written = false; may_be_absent = false } ∷ [] };

    ghost shows = { λ bundle. Some (Counted (written_value bundle.count)) ∷ Some (Limited (read_value bundle.limit)) ∷ [] };

    ghost moved = { λ bundle. (id_of count_kind 0, Counted (written_value bundle.count)) ∷ moved_to_read (λ limit. Limited limit) (id_of limit_kind 0) bundle.limit };

    fn setup(world: &mut World<Value>) -> Result<(), WorldError>
        ensures { StartsAtZero (world_held kind_of world.old) result (world_held kind_of world.new) }
    {
        match world.entry().or_insert(Count(0)) {
            Ok(_) => Ok(()),
            Err(error) => Err(error),
        }
    }

    fn fetch(view: &mut View<'s, '_, Value>) -> Result<Self, DataError> {
        match view.system_data::<(WriteExpect<Count>, ReadExpect<'s, Limit>)>() {
            Ok((count, limit)) => Ok(Counting { count, limit }),
            Err(error) => Err(error),
        }
    }

    fn give_back(self, view: &mut View<'s, '_, Value>) {
        let Counting { count, limit } = self;
        view.give_back((count, limit));
    }

    fn reads(alloc: Global) -> Result<Vec<ResourceId>, OutOfMemory>
        ensures { IfOk result (λ ids. ids.items ≡ id_of limit_kind 0 ∷ []) }
    {
        <ReadExpect<'s, Limit> as SystemData<'s, Value>>::reads(alloc)
    }

    fn writes(alloc: Global) -> Result<Vec<ResourceId>, OutOfMemory>
        ensures { IfOk result (λ ids. ids.items ≡ id_of count_kind 0 ∷ []) }
    {
        <WriteExpect<Count> as SystemData<'s, Value>>::writes(alloc)
    }
}

/// Counts one more in a world that holds a limit, and gives the count then. Where no limit is held, it is refused, and a
/// count is held all the same, of 0 where there was none.
pub fn count_one_in(world: &mut World<Value>) -> Result<i64, DataError>
    ensures counted { IfOk result (IsCountedIn (world_held kind_of world.old) (world_held kind_of world.new)) }
    ensures refused { IfErr result (λ error. IsCountingRefused (world_held kind_of world.old) error (world_held kind_of world.new)) }
{
    world.exec::<Counting, _, _>(|counting| {
        counting.count_one();
        counting.count()
    })
}
