//! What tests of builders, dispatches and batches share: calls for every type of system, how a call ended, what a system
//! declares, and counts under numbers.
#![tactic(auto)]

pub mod calls;
pub mod counts;
pub mod declared;
pub mod ended;
