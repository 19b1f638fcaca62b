//! The names that a built dispatcher's systems have.
ghost use Rattle.std.specs.HashMap.{IsUnique};
ghost use Rattle.std.specs.Prelude.{◌≡◌, option_copied};
ghost use Rattle.std.specs.Option.{option_map};
ghost use Rattle.std.specs.String.{string_eq};
ghost use Rattle.std.proofs.Props.{props};
ghost use Rattle.shred_stage.specs.Names.{AreNames, least_name};

use crate::dispatch::told::Told;
use shred_run::SystemId;
use shred_stage::dispatch::printing::least_name;
use shred_stage::{DispatchError, known_names};
use std::collections::HashMap;

/// Names of systems, each with the id that it stands for.
#[derive(Drop)]
pub struct SystemNames {
    pub(crate) names: HashMap<String, SystemId>,
    ghost distinct_names: { IsUnique string_eq names } by { Prim.hlevel props },
}

impl SystemNames {
    ghost use Rattle.shred.specs.SystemNames.{names_known, names_pairs};

    /// The id of the system of this name, if one has it.
    pub fn id_of(&self, name: &str) -> Option<SystemId>
        ensures { option_map (λ id. id.0) result ≡ names_known self.now name.now }
    {
        known_names::id_of(&self.names, name)
    }

    /// The name of the system of this id, if it has one: the least by its bytes. It looks through all names.
    pub fn name_of(&self, id: SystemId) -> Option<&str>
        ensures name { option_copied result ≡ least_name (names_pairs self.now) id.0 }
        ensures names { AreNames (names_pairs self.now) (names_known self.now) }
    {
        least_name(&self.names, id)
    }

    /// The error as a text that has its system's name.
    pub fn told<'n, E>(&'n self, error: &'n DispatchError<E>) -> Told<'n, E>
        ensures names { result.names.now ≡ self.now }
        ensures error { result.error.now ≡ error.now }
    {
        Told { names: self, error }
    }
}
