//! The values of the tests' worlds: resources of three kinds.
#![tactic(auto)]

pub mod held;
pub mod values;

pub use held::{count_in, name_in};
pub use values::{Count, Flag, Name, Value};
