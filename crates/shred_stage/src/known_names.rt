//! The names of a builder's systems: what each stands for, and whether one more may be entered.
ghost use Rattle.std.specs.Prelude.{◌≡◌, List, ℕ, Option, None, Some, is_some, IfErr, IfOk, OnOk, OnErr};
ghost use Rattle.std.specs.Option.{option_map};
ghost use Rattle.std.specs.HashMap.{IsUnique};
ghost use Rattle.std.specs.String.{string_eq};
ghost use Rattle.shred_stage.specs.Known.{known_ids, texts_of, FirstUnknownIs, KnowsAll};
ghost use Rattle.shred_stage.specs.Names.{names_of, EntersName, ForgetsName};
ghost use Rattle.shred_run.specs.PlanOf.{numbers_of};
ghost use Rattle.shred_stage.specs.Refusals.{IsRefusal, MayAdd};

use crate::add_error::AddError;
use shred_run::SystemId;
use shred_world::OutOfMemory;
use std::alloc::Global;
use std::collections::HashMap;

/// What a name stands for, if it does.
pub fn id_of(names: &HashMap<String, SystemId>, name: &str) -> Option<SystemId>
    ensures { option_map (λ id. id.0) result ≡ names_of names.now name.now }
{
    names.get(name).copied()
}

/// The place of the first name that is not known.
pub fn first_unknown(names: &HashMap<String, SystemId>, wanted: &[&str]) -> Option<usize>
    ensures { FirstUnknownIs (names_of names.now) (texts_of wanted.now) result }
{
    for place in 0..wanted.len() {
        if id_of(names, wanted[place]).is_none() {
            return Some(place);
        }
    }
    None
}

/// The ids that the names, all of them known, stand for, in their order.
pub fn ids_of(
    alloc: Global,
    names: &HashMap<String, SystemId>,
    wanted: &[&str],
) -> Result<Vec<SystemId>, OutOfMemory>
    requires known { KnowsAll (names_of names.now) (texts_of wanted.now) }
    ensures { IfOk result (λ ids. numbers_of ids.items ≡ known_ids (names_of names.now) (texts_of wanted.now)) }
{
    let mut ids = Vec::new(alloc);
    for place in 0..wanted.len() {
        let Some(id) = id_of(names, wanted[place]) else {
            unreachable!()
        };
        ids.push(id)?;
    }
    Ok(ids)
}

/// Enters the name, unless it is empty.
#[tactic(auto, using(crate::proofs::Names::Known::name_entered))]
pub fn enter(
    alloc: Global,
    names: &mut HashMap<String, SystemId>,
    name: &str,
    id: SystemId,
) -> Result<(), OutOfMemory>
    ensures ok { OnOk result (EntersName names.old names.new name.now id) }
    ensures err { OnErr result ((q : List ℕ) → names_of names.new q ≡ names_of names.old q) }
    ensures distinct { IsUnique string_eq names.old → IsUnique string_eq names.new }
{
    if name.is_empty() {
        return Ok(());
    }
    let key = String::from_str(alloc, name)?;
    names.insert(key, id)?;
    Ok(())
}

/// Takes the name away.
#[tactic(auto, using(crate::proofs::Names::Known::name_forgotten))]
pub fn forget(names: &mut HashMap<String, SystemId>, name: &str)
    ensures forgotten { ForgetsName names.old names.new name.now }
    ensures distinct { IsUnique string_eq names.new }
{
    let _ = names.remove(name);
}

/// Whether a system of this name may be added, where `next` is the next id. Tested in this order: each dependency is a known
/// name, the name is new, an id is left, which is where the next one is not the greatest `usize`. It takes no memory.
pub fn may_add(
    names: &HashMap<String, SystemId>,
    next: usize,
    name: &str,
    dependencies: &[&str],
) -> Result<(), AddError>
    ensures ok { OnOk result (MayAdd (names_of names.now) next name.now (texts_of dependencies.now)) }
    ensures err { IfErr result (IsRefusal (names_of names.now) next name.now (texts_of dependencies.now)) }
{
    if let Some(place) = first_unknown(names, dependencies) {
        return Err(AddError::NoSuchSystem { place });
    }
    if id_of(names, name).is_some() {
        return Err(AddError::NameTaken);
    }
    if next == usize::MAX {
        return Err(AddError::IdsExhausted);
    }
    Ok(())
}
