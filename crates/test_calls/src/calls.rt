//! Calls of the library, each for every type of system.

use shred::{OutOfMemory, Stage, StagesBuilder, System, SystemId};
use std::alloc::{AllocError, Global};
use std::fmt::Display;
use test_values::Value;

/// Inserts a system of this number, which depends on these.
pub fn insert<S: System<Value> + Drop>(
    builder: &mut StagesBuilder<Value, S>,
    dependencies: &[SystemId],
    id: usize,
    system: S,
) -> Result<(), OutOfMemory> {
    builder.insert(dependencies, SystemId(id), system)
}

/// The stages of these systems, numbered from 0, which depend on nothing.
pub fn stages_of<S: System<Value> + Drop>(
    alloc: Global,
    systems: Vec<S>,
) -> Result<Vec<Stage<Value, S>>, OutOfMemory> {
    let mut builder = StagesBuilder::new(alloc);
    for (id, system) in systems.into_iter().enumerate() {
        insert(&mut builder, &[], id, system)?;
    }
    Ok(builder.build())
}

/// The text of the error.
pub fn text_of<E: Display>(alloc: Global, error: &E) -> Result<String, AllocError> {
    format!(in alloc; "{error}")
}
