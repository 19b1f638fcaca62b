//! Bundles whose parts may follow from lists that are given when the program runs.
ghost use Rattle.std.specs.Prelude.{◌≡◌, List, Option, IfOk, IfErr, OnOk, OnErr, None};
ghost use Rattle.shred_world.specs.Bundles.{Part, IsRefused, bundle_refusal, ids_of, AreOut, Setup, parts_shown, parts_moved, LacksParts, HasBack};
ghost use Rattle.shred_world.specs.Grants.{Moved, grant_of};
ghost use Rattle.shred_world.specs.Views.{is_out, table_name, IsSameLoan};
ghost use Rattle.shred_world.specs.Between.{LeavesWorld};

use crate::world::bundle::SystemData;
use crate::world::view::{DataError, View};
use crate::world::{World, WorldError};
use shred_table::accessor::{Accessor, BatchAccessor};
use shred_table::resource::ResourceValue;

/// Resources that are taken of a view together, as an accessor says, and given back.
pub trait DynamicSystemData<'s, V: ResourceValue> {
    type Accessor: Accessor;

    ghost sets_up: { Self.Accessor → Setup V };

    ghost parts: { Self.Accessor → List Part };

    ghost shows: { Self → List (Option V) };

    ghost moved: { Self → Moved V };

    /// Sets the world up for the bundle.
    fn setup(accessor: &Self::Accessor, world: &mut World<V>) -> Result<(), WorldError>
        ensures { LeavesWorld V.kind_of (sets_up accessor.now) world.old result world.new };

    /// Takes the parts, one after the other, up to the first that is refused; then the view is as before.
    fn fetch(accessor: &Self::Accessor, view: &mut View<'s, '_, V>) -> Result<Self, DataError>
        ensures refused { IfErr result (IsRefused (grant_of V.kind_of view.old) (parts accessor.now)) }
        ensures passed { OnOk result (bundle_refusal (grant_of V.kind_of view.old) (parts accessor.now) ≡ None) }
        ensures shown { IfOk result (λ bundle. shows bundle ≡ parts_shown V.kind_of view.old (parts accessor.now)) }
        ensures moved { IfOk result (λ bundle. moved bundle ≡ parts_moved V.kind_of view.old (parts accessor.now)) }
        ensures taken { OnOk result (LacksParts V.kind_of view.old (parts accessor.now) view.new) }
        ensures out { IfOk result (λ bundle. AreOut (is_out view.new) (ids_of (moved bundle))) }
        ensures unchanged { OnErr result (grant_of V.kind_of view.new ≡ grant_of V.kind_of view.old) }
        ensures table { table_name view.new ≡ table_name view.old }
        ensures loan { IsSameLoan view.old view.new };

    /// Gives back what was taken, with the values as they are now. It takes no memory.
    fn give_back(self, view: &mut View<'s, '_, V>)
        requires out { AreOut (is_out view.old) (ids_of (moved self)) }
        ensures returned { HasBack V.kind_of view.old (moved self) view.new }
        ensures table { table_name view.new ≡ table_name view.old }
        ensures loan { IsSameLoan view.old view.new };
}

impl<'s, V: ResourceValue, D: SystemData<'s, V>> DynamicSystemData<'s, V> for D {
    type Accessor = BatchAccessor;

    ghost sets_up = { λ accessor. D.sets_up };

    ghost parts = { λ accessor. D.parts };

    ghost shows = { D.shows };

    ghost moved = { D.moved };

    fn setup(_accessor: &BatchAccessor, world: &mut World<V>) -> Result<(), WorldError> {
        <D as SystemData<'s, V>>::setup(world)
    }

    fn fetch(_accessor: &BatchAccessor, view: &mut View<'s, '_, V>) -> Result<Self, DataError> {
        view.system_data()
    }

    fn give_back(self, view: &mut View<'s, '_, V>) {
        <D as SystemData<'s, V>>::give_back(self, view);
    }
}
