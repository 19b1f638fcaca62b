//! The planner that gives systems a place, stages, which run them, the plan's text, and the names of a builder's systems.
#![tactic(auto)]

pub mod add_error;
pub mod dispatch;
pub mod known_names;

pub use add_error::AddError;
pub use dispatch::dispatch_error::DispatchError;
pub use dispatch::plan::Plan;
pub use dispatch::printing::PrintError;
pub use dispatch::rule::Rule;
pub use dispatch::sink::{PlanSink, SinkFailed, ToWriter};
pub use dispatch::stage::Stage;
pub use dispatch::stages_builder::StagesBuilder;
