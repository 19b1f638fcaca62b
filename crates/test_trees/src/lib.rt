//! Tests of trees, and an example of one.
#![tactic(auto)]

#[cfg(test)]
mod adds;
#[cfg(test)]
mod counts;
#[cfg(test)]
mod gate_par;
#[cfg(test)]
mod levels;
pub mod named;
#[cfg(test)]
mod refusals;
#[cfg(test)]
mod rows;
pub mod two_then_one;
