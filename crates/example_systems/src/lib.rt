//! Examples: a system with its resource, a bundle of a caller's own, a world alone, an enum of systems, systems behind a
//! box, a batch, the text of a plan, two dispatches that end the same, and a setup that holds defaults.
#![tactic(auto)]

pub mod batch;
pub mod boxed_systems;
pub mod counting;
pub mod enum_of_systems;
pub mod limits;
pub mod one_system;
pub mod plan_text;
pub mod same_end;
pub mod set_up;
pub mod two_systems;
pub mod typed;
pub mod world_alone;
