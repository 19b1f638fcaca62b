//! Bundles that are taken on a local world, and go back to it.
ghost use Rattle.std.specs.Prelude.{◌≡◌, IfOk, IfErr};
ghost use Rattle.std.specs.Borrow.{sem, RestsIfErr};
ghost use Rattle.shred_world.specs.Bundles.{AreAllOut, IsRefused, ids_of};
ghost use Rattle.shred_world.specs.Grants.{map_grant};
ghost use Rattle.shred_world.specs.Lent.{EndsLocalSame};
ghost use Rattle.shred_world.specs.Worlds.{local_held};
ghost use Rattle.shred_world.specs.contracts.world.local.LocalWorld.{the_row as local_row};
ghost use Rattle.shred_world.specs.LentBundles.{IsTakenOnLocal, IsLeftOfLocal, HasAllOutLocal, returned_local};

use crate::world::bundle::SystemData;
use crate::world::lent::{put_into, take_of};
use crate::world::local::LocalWorld;
use crate::world::view::DataError;
use shred_table::resource::ResourceValue;
use std::ops::{Deref, DerefMut};

/// A bundle that was taken on a local world. It goes back by `give_back`.
pub struct LocalLent<'a, V, D> {
    world: &'a mut LocalWorld<V>,
    bundle: D,
}

impl<V, D> Deref for LocalLent<'_, V, D> {
    ghost use Rattle.shred_world.specs.LentBundles.{local_bundle};

    type Target = D;

    ghost deref_gives = { λ lent bundle. bundle ≡ local_bundle lent };

    fn deref(&self) -> &D {
        &self.bundle
    }
}

impl<V, D> DerefMut for LocalLent<'_, V, D> {
    ghost use Rattle.shred_world.specs.LentBundles.{local_bundle, LendsLocalBundle};

    ghost deref_mut_gives = { λ lent bundle. bundle ≡ local_bundle lent };

    fn deref_mut(&mut self) -> &mut D
        ensures* written { sem 𝓛 (LendsLocalBundle V.row D.row self.entry result) }
        ensures shown { result.now ≡ local_bundle self.old }
    {
        &mut self.bundle
    }
}

impl<V: ResourceValue, D> LocalLent<'_, V, D> {
    ghost use Rattle.shred_world.specs.LentBundles.{local_bundle, local_grant};

    /// Gives the bundle back, as `Lent::give_back` does.
    pub fn give_back<'s>(self)
    where
        D: SystemData<'s, V>,
        V: Drop + 's,
        requires { AreAllOut (local_grant V.kind_of self).out (ids_of (D.moved (local_bundle self))) }
        ensures { local_held V.kind_of self.exit.0.now ≡ returned_local V.kind_of D.moved self.entry }
    {
        let LocalLent { world, bundle } = self;
        world.settle();
        put_into(&mut world.twin.table, bundle);
    }
}

impl<V: ResourceValue> LocalWorld<V> {
    ghost use Rattle.shred_world.specs.LentBundles.{local_lender, local_bundle, local_grant};

    /// Takes a bundle, as `World::system_data` does.
    pub fn system_data<'s, D: SystemData<'s, V>>(
        &mut self,
    ) -> Result<LocalLent<'_, V, D>, DataError>
    where
        V: Drop + 's,
        ensures refused { IfErr result (IsRefused (map_grant (local_held V.kind_of self.old)) D.parts) }
        ensures taken { IfOk result (IsTakenOnLocal V.kind_of D.shows D.moved D.parts self.old) }
        ensures left { IfOk result (IsLeftOfLocal V.kind_of D.parts self.old) }
        ensures out { IfOk result (HasAllOutLocal V.kind_of D.moved) }
        ensures name { IfOk result (λ lent. (local_lender lent).ghost_name ≡ self.entry.ghost_name) }
        ensures* unchanged { sem 𝓛 (RestsIfErr (local_row V.row) self.entry (λ lent. (local_lender lent).ghost_name) result (EndsLocalSame V.kind_of self.old)) }
    {
        self.settle();
        match take_of(&mut self.twin.table) {
            Ok(bundle) => Ok(LocalLent {
                world: self,
                bundle,
            }),
            Err(error) => Err(error),
        }
    }
}
