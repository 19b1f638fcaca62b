//! Bundles of worlds and views: their setup, and calls with them.
ghost use Rattle.std.specs.Prelude.{◌≡◌, Ok};
ghost use Rattle.shred_world.specs.Executed.{MayCall, KeepsIds, MayCallAfter, KeepsIdsAfter, IsCalledOver, IsCalledOnTable, IsExecutedOver, MayCallOnTable};
ghost use Rattle.shred_world.specs.Grants.{grant_of, map_grant};
ghost use Rattle.shred_world.specs.KeptViews.{KeepsViewIfLent};
ghost use Rattle.shred_table.specs.Shown.{IsSameSlots};
ghost use Rattle.shred_table.specs.Slots.{held};
ghost use Rattle.shred_world.specs.Views.{table_name, IsSameLoan};
ghost use Rattle.shred_world.specs.Worlds.{world_held};

use crate::world::bundle::SystemData;
use crate::world::view::{DataError, View};
use crate::world::{World, WorldError};
use shred_table::resource::ResourceValue;
use shred_table::table::Table;

impl<V: ResourceValue> World<V> {
    /// Sets the world up for the bundle. It is refused as the bundle's own setup is.
    pub fn setup<'s, D: SystemData<'s, V>>(&mut self) -> Result<(), WorldError>
    where
        V: 's,
        ensures { D.sets_up (world_held V.kind_of self.old) result (world_held V.kind_of self.new) }
    {
        D::setup(self)
    }

    /// Sets the world up for the bundle, takes it, calls the closure once with it, and gives it back. What the setup did
    /// before a refusal stays. The closure leaves in the bundle the ids that the bundle was taken with, whatever the
    /// values; it is called only where nothing was refused.
    pub fn exec<'s, D: SystemData<'s, V>, A, F: FnOnce(&mut D) -> A>(
        &mut self,
        run: F,
    ) -> Result<A, DataError>
    where
        V: Drop + 's,
        F: Drop,
        requires callable { MayCallAfter V.kind_of F.FnOnce run D.SystemData self.old }
        requires kept { KeepsIdsAfter V.kind_of F.FnOnce run D.SystemData self.old }
        ensures { IsExecutedOver V.kind_of F.FnOnce run D.SystemData self.old result self.new }
    {
        if let Err(error) = self.setup::<D>() {
            return Err(DataError::from(error));
        }
        self.local.settle();
        call_with::<V, D, A, F>(&mut self.local.twin.table, run)
    }
}

// One call with a bundle of what a table holds.
fn call_with<'s, V: ResourceValue + 's, D: SystemData<'s, V>, A, F: FnOnce(&mut D) -> A>(
    own: &mut Table<V>,
    run: F,
) -> Result<A, DataError>
where
    F: Drop,
    requires callable { MayCallOnTable V.kind_of F.FnOnce run D.SystemData own.old }
    requires kept { KeepsIds F.FnOnce run D.shows D.moved (map_grant (held V.kind_of own.old)) D.parts }
    ensures called { IsCalledOnTable V.kind_of F.FnOnce run D.SystemData own.old result own.new }
    ensures slots { IsSameSlots own.old own.new }
{
    let mut view = View::whole(own);
    view.exec(run)
}

impl<'s, 'a, V: ResourceValue + 's> View<'s, 'a, V> {
    /// Takes the bundle of the view, calls the closure once with it, and gives it back; it is called only where no part is
    /// refused. It leaves in the bundle the ids that the bundle was taken with, whatever the values. Of a system's view all
    /// stays but the values of the ids that it writes.
    pub fn exec<D: SystemData<'s, V>, A, F: FnOnce(&mut D) -> A>(
        &mut self,
        run: F,
    ) -> Result<A, DataError>
    where
        F: Drop,
        requires callable { MayCall F.FnOnce run D.shows D.moved (grant_of V.kind_of self.old) D.parts }
        requires kept { KeepsIds F.FnOnce run D.shows D.moved (grant_of V.kind_of self.old) D.parts }
        ensures called { IsCalledOver V.kind_of F.FnOnce run D.SystemData self.old result self.new }
        ensures of_a_system { KeepsViewIfLent V.kind_of self.old self.new }
        ensures table { table_name self.new ≡ table_name self.old }
        ensures loan { IsSameLoan self.old self.new }
    {
        let mut bundle = match self.system_data::<D>() {
            Ok(bundle) => bundle,
            Err(error) => return Err(error),
        };
        let answer = run(&mut bundle);
        self.give_back(bundle);
        Ok(answer)
    }
}
