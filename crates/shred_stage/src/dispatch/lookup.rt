//! Systems, looked up by their ids.
ghost use Rattle.std.specs.Prelude.{◌≡◌};
ghost use Rattle.std.specs.Option.{option_map};
ghost use Rattle.shred_stage.specs.Lookups.{entry_system, group_system};

use shred_run::entry::{Group, GroupEntry};
use shred_run::{SystemId, Work};

// The entry's system, if this is its id and it is no batch.
fn entry_system<V, S, B>(entry: &GroupEntry<V, Work<S, B>>, id: SystemId) -> Option<&S>
    ensures { option_map (λ system. system.now) result ≡ entry_system id.0 entry.now }
{
    match &entry.work {
        Work::System(system) if entry.id.0 == id.0 => Some(system),
        _ => None,
    }
}

// The system of this id in a group.
pub(crate) fn group_system<V, S, B>(group: &Group<V, Work<S, B>>, id: SystemId) -> Option<&S>
    ensures { option_map (λ system. system.now) result ≡ group_system id.0 group.now }
{
    for entry in &group.entries {
        let system = entry_system(entry, id);
        if system.is_some() {
            return system;
        }
    }
    None
}
