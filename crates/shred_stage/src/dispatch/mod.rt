//! Plans of systems, and the runs of their stages.

pub mod dispatch_error;
pub(crate) mod lookup;
pub mod plan;
pub mod printing;
pub mod rule;
pub mod sink;
pub mod stage;
pub mod stages_builder;
pub mod tiers;
