//! What runs over a whole world, on the caller's thread.
ghost use Rattle.std.specs.Prelude.{◌≡◌};
ghost use Rattle.std.specs.Thread.{IsSync};
ghost use Rattle.shred_table.specs.declared.id.ResourceId.{ResourceId};
ghost use Rattle.shred_world.specs.Between.{OverWorld, OverLocal};
ghost use Rattle.shred_run.specs.Alone.{KeepsKindsIn};

use crate::system::Fault;
use shred_world::{LocalWorld, ResourceValue, World};
use std::thread::Threads;

/// What runs over all that a world holds. It declares nothing, so nothing runs beside it.
pub trait RunNow<V: ResourceValue> {
    ghost use Rattle.shred_run.specs.Steps.{Outcome, Step};
    ghost use Rattle.shred_world.specs.Worked.{Held};
    ghost use Rattle.shred_world.specs.Worlds.{local_held, world_held};

    type Error;

    ghost runs: { Step V Self Self.Error };

    ghost sets_up: { Step V Self Self.Error };

    ghost disposes: { Self → Held V → Outcome Self.Error → Held V → Type 0 };

    /// One run. It keeps the ids under which values are held, and their kinds. What it asks of `R` is its bound, in words
    /// that a proof can use.
    fn run_now<R: Threads + Sync>(
        &mut self,
        rt: &R,
        world: &mut LocalWorld<V>,
    ) -> Result<(), Fault<Self::Error>>
        requires sync { IsSync R.row }
        ensures runs { OverLocal V.kind_of runs self.old world.old result self.new world.new }
        ensures kinds { KeepsKindsIn local_held V.kind_of world.old world.new };

    /// What is done once, before the first run.
    fn setup(&mut self, world: &mut World<V>) -> Result<(), Fault<Self::Error>>
        ensures { OverWorld V.kind_of sets_up self.old world.old result self.new world.new };

    /// What is done once, after the last run.
    fn dispose(self, world: &mut World<V>) -> Result<(), Fault<Self::Error>>
        ensures { disposes self (world_held V.kind_of world.old) result (world_held V.kind_of world.new) };
}
