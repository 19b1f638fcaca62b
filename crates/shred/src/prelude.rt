//! What a program with typed systems names: `use shred::prelude::*;`.

pub use crate::dispatch::builder::DispatcherBuilder;
pub use crate::dispatch::dispatcher::Dispatcher;
pub use crate::dispatch::names::SystemNames;
pub use crate::dispatch::told::Told;
pub use crate::passed::reads_2_writes::{Reads2Writes, TryReads2Writes};
pub use crate::passed::reads_3_writes::{Reads3Writes, TryReads3Writes};
pub use crate::passed::reads_4_writes::{Reads4Writes, TryReads4Writes};
pub use crate::passed::reads_writes::{ReadsWrites, TryReadsWrites};
pub use crate::passed::writes::{TryWrites, Writes};
pub use crate::passed::{PassedSystem, TrySystem};
pub use crate::rounds::Rounds;
pub use crate::systems::{
    Systems2, Systems3, Systems4, Systems5, Systems6, Systems7, Systems8, eighth_system,
    fifth_system, first_system, fourth_system, second_system, seventh_system, sixth_system,
    third_system,
};
pub use crate::typed::{Ran, Typed, TypedSystem, Uses};
pub use crate::values::{First, Fourth, OneOf2, OneOf3, OneOf4, Second, Third};
pub use shred_run::{Fault, Now};
pub use shred_stage::{AddError, DispatchError, Rule};
pub use shred_world::{DataError, OutOfMemory, View, World, WorldError};
