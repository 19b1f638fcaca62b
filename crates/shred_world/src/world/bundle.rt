//! Bundles: resources that are taken of a view together, and given back.
ghost use Rattle.std.specs.Prelude.{◌≡◌, List, Option, IfOk, IfErr, OnOk, OnErr, None};
ghost use Rattle.shred_table.specs.declared.id.ResourceId.{ResourceId};
ghost use Rattle.shred_world.specs.Bundles.{Part, IsRefused, bundle_refusal, ids_of, AreOut, Setup, parts_shown, parts_moved, LacksParts, HasBack, IsUndoneBy, HasJustOut, HasNothingMoved};
ghost use Rattle.shred_world.specs.Grants.{Moved, grant_of};
ghost use Rattle.shred_table.specs.Accessors.{batch_reads, batch_writes};
ghost use Rattle.shred_world.specs.Views.{is_out, table_name, IsSameLoan};
ghost use Rattle.shred_world.specs.Worlds.{world_held};

use crate::world::view::{DataError, View};
use crate::world::{World, WorldError};
use shred_table::accessor::{BatchAccessor, OutOfMemory};
use shred_table::id::ResourceId;
use shred_table::resource::ResourceValue;
use std::alloc::Global;

impl From<WorldError> for DataError {
    ghost use Rattle.shred_world.specs.Executed.{as_data_error};

    ghost from_gives = { λ error answer. answer ≡ as_data_error error };

    fn from(error: WorldError) -> Self {
        match error {
            WorldError::OutOfMemory => DataError::OutOfMemory,
            WorldError::WrongKind { asked, found } => DataError::WrongKind { asked, found },
            WorldError::Missing(id) => DataError::Missing(id),
        }
    }
}

/// Resources that are taken of a view together, and given back.
pub trait SystemData<'s, V: ResourceValue> {
    ghost read_ids: { List ResourceId };

    ghost written_ids: { List ResourceId };

    ghost sets_up: { Setup V };

    ghost parts: { List Part };

    ghost shows: { Self → List (Option V) };

    ghost moved: { Self → Moved V };

    /// Sets the world up for the bundle.
    fn setup(world: &mut World<V>) -> Result<(), WorldError>
        ensures { sets_up (world_held V.kind_of world.old) result (world_held V.kind_of world.new) };

    /// Takes the parts, one after the other, up to the first that is refused; then the view is as before.
    fn fetch(view: &mut View<'s, '_, V>) -> Result<Self, DataError>
        ensures refused { IfErr result (IsRefused (grant_of V.kind_of view.old) parts) }
        ensures passed { OnOk result (bundle_refusal (grant_of V.kind_of view.old) parts ≡ None) }
        ensures shown { IfOk result (λ bundle. shows bundle ≡ parts_shown V.kind_of view.old parts) }
        ensures moved { IfOk result (λ bundle. moved bundle ≡ parts_moved V.kind_of view.old parts) }
        ensures taken { OnOk result (LacksParts V.kind_of view.old parts view.new) }
        ensures unchanged { OnErr result (grant_of V.kind_of view.new ≡ grant_of V.kind_of view.old) }
        ensures table { table_name view.new ≡ table_name view.old }
        ensures loan { IsSameLoan view.old view.new };

    /// Gives back what was taken, with the values as they are now. It takes no memory.
    fn give_back(self, view: &mut View<'s, '_, V>)
        requires out { AreOut (is_out view.old) (ids_of (moved self)) }
        ensures returned { HasBack V.kind_of view.old (moved self) view.new }
        ensures table { table_name view.new ≡ table_name view.old }
        ensures loan { IsSameLoan view.old view.new };

    /// The ids that are read.
    fn reads(alloc: Global) -> Result<Vec<ResourceId>, OutOfMemory>
        ensures { IfOk result (λ ids. ids.items ≡ read_ids) };

    /// The ids that are written.
    fn writes(alloc: Global) -> Result<Vec<ResourceId>, OutOfMemory>
        ensures { IfOk result (λ ids. ids.items ≡ written_ids) };
}

/// What a bundle declares: the ids that it reads, and those that it writes.
pub fn bundle_accessor<'s, V: ResourceValue, D: SystemData<'s, V>>(
    alloc: Global,
) -> Result<BatchAccessor, OutOfMemory>
    ensures reads { IfOk result (λ accessor. batch_reads accessor ≡ D.read_ids) }
    ensures writes { IfOk result (λ accessor. batch_writes accessor ≡ D.written_ids) }
{
    let reads = D::reads(alloc)?;
    let writes = D::writes(alloc)?;
    Ok(BatchAccessor::new(reads, writes))
}

impl<'s, 'a, V: ResourceValue> View<'s, 'a, V> {
    /// Takes a bundle of the view; where a part is refused, the view is as before.
    #[tactic(auto, using(crate::proofs::Bundles::Parts::taken_are_out, crate::proofs::Bundles::Parts::taken_as_before))]
    pub fn system_data<D: SystemData<'s, V>>(&mut self) -> Result<D, DataError>
        ensures refused { IfErr result (IsRefused (grant_of V.kind_of self.old) D.parts) }
        ensures passed { OnOk result (bundle_refusal (grant_of V.kind_of self.old) D.parts ≡ None) }
        ensures shown { IfOk result (λ bundle. D.shows bundle ≡ parts_shown V.kind_of self.old D.parts) }
        ensures moved { IfOk result (λ bundle. D.moved bundle ≡ parts_moved V.kind_of self.old D.parts) }
        ensures taken { OnOk result (LacksParts V.kind_of self.old D.parts self.new) }
        ensures out { IfOk result (λ bundle. AreOut (is_out self.new) (ids_of (D.moved bundle))) }
        ensures undone { IfOk result (IsUndoneBy V.kind_of D.moved self.old self.new) }
        ensures unchanged { OnErr result (grant_of V.kind_of self.new ≡ grant_of V.kind_of self.old) }
        ensures table { table_name self.new ≡ table_name self.old }
        ensures loan { IsSameLoan self.old self.new }
    {
        D::fetch(self)
    }

    /// Gives a bundle back, with its values as they are now. It asks that what the bundle has moved out is out. It
    /// takes no memory, and cannot fail.
    pub fn give_back<D: SystemData<'s, V>>(&mut self, bundle: D)
        requires out { AreOut (is_out self.old) (ids_of (D.moved bundle)) }
        ensures returned { HasBack V.kind_of self.old (D.moved bundle) self.new }
        ensures nothing_out { HasJustOut self.old (ids_of (D.moved bundle)) → HasNothingMoved self.new }
        ensures table { table_name self.new ≡ table_name self.old }
        ensures loan { IsSameLoan self.old self.new }
    {
        bundle.give_back(self)
    }
}
