//! What the program `shredrun` is asked for by its arguments, and the demo that is one answer.
#![tactic(auto)]

mod command;
mod demonstration;
mod error;
mod rows;
mod two_ticks;

pub use command::{Command, tell_usage};
pub use demonstration::demo;
