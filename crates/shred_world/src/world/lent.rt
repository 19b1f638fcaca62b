//! Bundles that are taken on a world, and go back to it.
ghost use Rattle.std.specs.Prelude.{◌≡◌, IfOk, IfErr, OnOk, OnErr};
ghost use Rattle.std.specs.Borrow.{sem, RestsIfErr};
ghost use Rattle.shred_world.specs.Bundles.{AreOut, AreAllOut, IsRefused, after_parts, ids_of};
ghost use Rattle.shred_world.specs.Executed.{IsTaken};
ghost use Rattle.shred_world.specs.Grants.{is_out_in, map_grant, table_grant, given_back};
ghost use Rattle.shred_world.specs.Lent.{EndsSame};
ghost use Rattle.shred_table.specs.Shown.{IsSameSlots};
ghost use Rattle.shred_table.specs.Slots.{held};
ghost use Rattle.shred_world.specs.Worlds.{world_held};
ghost use Rattle.shred_world.specs.contracts.world.World.{the_row as world_row};
ghost use Rattle.shred_world.specs.LentBundles.{IsTakenOn, IsLeftOf, HasAllOut, returned_held};

use crate::world::World;
use crate::world::bundle::SystemData;
use crate::world::view::{DataError, View};
use shred_table::resource::ResourceValue;
use shred_table::table::Table;
use std::ops::{Deref, DerefMut};

/// A bundle that was taken on a world. It goes back by `give_back`.
pub struct Lent<'a, V, D> {
    world: &'a mut World<V>,
    bundle: D,
}

impl<V, D> Deref for Lent<'_, V, D> {
    ghost use Rattle.shred_world.specs.LentBundles.{lent_bundle};

    type Target = D;

    ghost deref_gives = { λ lent bundle. bundle ≡ lent_bundle lent };

    fn deref(&self) -> &D {
        &self.bundle
    }
}

impl<V, D> DerefMut for Lent<'_, V, D> {
    ghost use Rattle.shred_world.specs.LentBundles.{lent_bundle, LendsBundle};

    ghost deref_mut_gives = { λ lent bundle. bundle ≡ lent_bundle lent };

    fn deref_mut(&mut self) -> &mut D
        ensures* written { sem 𝓛 (LendsBundle V.row D.row self.entry result) }
        ensures shown { result.now ≡ lent_bundle self.old }
    {
        &mut self.bundle
    }
}

impl<V: ResourceValue, D> Lent<'_, V, D> {
    ghost use Rattle.shred_world.specs.LentBundles.{lent_bundle, lent_grant};

    /// Gives the bundle back to the world, with its values as they are now. The bundle still has the ids that it was
    /// lent with, whatever the values. It takes no memory, and cannot fail.
    pub fn give_back<'s>(self)
    where
        D: SystemData<'s, V>,
        V: Drop + 's,
        requires { AreAllOut (lent_grant V.kind_of self).out (ids_of (D.moved (lent_bundle self))) }
        ensures { world_held V.kind_of self.exit.0.now ≡ returned_held V.kind_of D.moved self.entry }
    {
        let Lent { world, bundle } = self;
        world.local.settle();
        put_into(&mut world.local.twin.table, bundle);
    }
}

impl<V: ResourceValue> World<V> {
    ghost use Rattle.shred_world.specs.LentBundles.{lender, lent_bundle, lent_grant};

    /// Takes a bundle on the world, where each id may be read and written. Nothing is set up. It is refused as
    /// `View::system_data` is, and the world then holds what it held.
    pub fn system_data<'s, D: SystemData<'s, V>>(&mut self) -> Result<Lent<'_, V, D>, DataError>
    where
        V: Drop + 's,
        ensures refused { IfErr result (IsRefused (map_grant (world_held V.kind_of self.old)) D.parts) }
        ensures taken { IfOk result (IsTakenOn V.kind_of D.shows D.moved D.parts self.old) }
        ensures left { IfOk result (IsLeftOf V.kind_of D.parts self.old) }
        ensures out { IfOk result (HasAllOut V.kind_of D.moved) }
        ensures name { IfOk result (λ lent. (lender lent).ghost_name ≡ self.entry.ghost_name) }
        ensures* unchanged { sem 𝓛 (RestsIfErr (world_row V.row) self.entry (λ lent. (lender lent).ghost_name) result (EndsSame V.kind_of self.old)) }
    {
        self.local.settle();
        match take_of(&mut self.local.twin.table) {
            Ok(bundle) => Ok(Lent {
                world: self,
                bundle,
            }),
            Err(error) => Err(error),
        }
    }
}

// A bundle of all that a table holds.
pub(crate) fn take_of<'s, V: ResourceValue + 's, D: SystemData<'s, V>>(
    own: &mut Table<V>,
) -> Result<D, DataError>
    ensures refused { IfErr result (IsRefused (map_grant (held V.kind_of own.old)) D.parts) }
    ensures taken { IfOk result (IsTaken D.shows D.moved (map_grant (held V.kind_of own.old)) D.parts) }
    ensures left { OnOk result (table_grant V.kind_of own.new ≡ after_parts (map_grant (held V.kind_of own.old)) D.parts) }
    ensures unchanged { OnErr result (held V.kind_of own.new ≡ held V.kind_of own.old) }
    ensures slots { IsSameSlots own.old own.new }
{
    let mut view = View::whole(own);
    view.system_data()
}

// Gives a bundle back to the table that it was taken of.
pub(crate) fn put_into<'s, V: ResourceValue + 's, D: SystemData<'s, V>>(
    own: &mut Table<V>,
    bundle: D,
)
    requires { AreOut (is_out_in own.old) (ids_of (D.moved bundle)) }
    ensures held { held V.kind_of own.new ≡ (given_back (table_grant V.kind_of own.old) (D.moved bundle)).held }
    ensures slots { IsSameSlots own.old own.new }
{
    let mut view = View::whole_as_left(own);
    view.give_back(bundle);
}
