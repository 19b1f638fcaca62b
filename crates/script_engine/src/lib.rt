//! The engine of the script language: the steps of a script's systems, the plan that its lines make, its runs, and what is printed of it.
#![tactic(auto)]

mod batch;
mod builder;
mod cases;
mod declared;
mod dispatches;
mod engine;
mod kept_numbers;
mod local;
mod one_kept;
mod plan_text;
mod run_plan;
mod stepping;
mod system;
mod taker;
mod times;
mod walk;

pub use batch::ScriptBatch;
pub use builder::ScriptBuilder;
pub use cases::{Case, run_table};
pub use declared::Declared;
pub use engine::{run, run_on_kept_workers};
pub use system::ScriptSystem;
pub use taker::LineTaker;
pub use walk::take_lines;
