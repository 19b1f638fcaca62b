//! A bundle of a caller's own, with an accessor of his own: what it writes is chosen when the program runs.
ghost use Rattle.std.specs.Prelude.{[], ◌∷◌, true, false, cond};
ghost use Rattle.shred_world.specs.Bundles.{NoSetup};
ghost use Rattle.shred_world.specs.BundleParts.{moved_if_written};
ghost use Rattle.shred_table.specs.Id.{id_of};
ghost use Rattle.test_bundles.specs.Chosen.{shown_chosen};
ghost use Rattle.test_values.specs.Values.{count_kind};
ghost use Rattle.test_values.specs.declared.values.Value.TheVariants.{Count as counted};

use shred_world::{
    Accessor, DataError, DynamicSystemData, OutOfMemory, ResourceId, View, World, WorldError,
    WriteExpect,
};
use std::alloc::Global;
use test_values::{Count, Value};

/// Whether the count is written.
#[derive(Drop)]
pub struct Choice {
    pub writes_count: bool,
}

impl Accessor for Choice {
    ghost reads = { λ choice. [] };

    ghost writes = { λ choice. cond choice.writes_count (id_of count_kind 0 ∷ []) [] };

    fn reads(&self, alloc: Global) -> Result<Vec<ResourceId>, OutOfMemory> {
        Ok(Vec::new(alloc))
    }

    fn writes(&self, alloc: Global) -> Result<Vec<ResourceId>, OutOfMemory> {
        if !self.writes_count {
            return Ok(Vec::new(alloc));
        }
        match Vec::from_slice(alloc, &[ResourceId::new::<Value, Count>()]) {
            Ok(ids) => Ok(ids),
            Err(_) => Err(OutOfMemory),
        }
    }
}

/// The count, where it is chosen.
pub struct Chosen {
    pub count: Option<WriteExpect<Count>>,
}

impl<'s> DynamicSystemData<'s, Value> for Chosen {
    type Accessor = Choice;

    ghost sets_up = { λ choice. NoSetup };

    ghost parts = { λ choice. cond choice.writes_count (record { kind = count_kind; id = id_of count_kind 0; is_written = true; may_be_absent = false } ∷ []) [] };

    ghost shows = { λ chosen. shown_chosen chosen.count };

    ghost moved = { λ chosen. moved_if_written (λ count. counted count) (id_of count_kind 0) chosen.count };

    fn setup(_choice: &Choice, _world: &mut World<Value>) -> Result<(), WorldError> {
        Ok(())
    }

    fn fetch(choice: &Choice, view: &mut View<'s, '_, Value>) -> Result<Self, DataError> {
        if !choice.writes_count {
            return Ok(Chosen { count: None });
        }
        match view.system_data::<WriteExpect<Count>>() {
            Ok(count) => Ok(Chosen { count: Some(count) }),
            Err(error) => Err(error),
        }
    }

    fn give_back(self, view: &mut View<'s, '_, Value>) {
        let Chosen { count } = self;
        if let Some(count) = count {
            view.give_back(count);
        }
    }
}
