//! What a script says, and what is told of it: its text is read and looked through, the numbers of its resources are held in a
//! world and changed there, and its report and its errors are written. Nothing is planned here, and nothing run.
#![tactic(auto)]

pub mod arithmetic;
pub mod error;
pub mod error_line;
pub mod first_values;
pub mod input;
mod lines;
pub mod numbers;
pub mod outcome;
pub mod output;
pub mod report;
pub mod script;
pub mod step;
pub mod value;
mod words;
