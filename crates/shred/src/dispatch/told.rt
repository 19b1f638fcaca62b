//! The text of a dispatch that was refused, with the names of its systems.

use crate::dispatch::names::SystemNames;
use shred_stage::DispatchError;
use std::fmt;
use std::fmt::Display;

/// An error of a dispatch, to be printed with its system's name, as in `system "physics" refused: ..`; where that has none,
/// with its id.
#[derive(Drop)]
pub struct Told<'n, E> {
    pub names: &'n SystemNames,
    pub error: &'n DispatchError<E>,
}

impl<E: Display> Display for Told<'_, E> {
    fn fmt<W: fmt::Write>(&self, f: &mut fmt::Formatter<W>) -> fmt::Result {
        match self.error {
            DispatchError::System { id, fault } => match self.names.name_of(*id) {
                Some(name) => write!(f, "system \"{name}\" {fault}"),
                None => write!(f, "{id} {fault}"),
            },
            other => write!(f, "{other}"),
        }
    }
}
