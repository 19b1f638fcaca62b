//! Tests of workers that are kept, two examples of them, and a runtime of which few copies can be made.
#![tactic(auto)]

#[cfg(test)]
mod dropped;
pub mod few_copies;
#[cfg(test)]
mod free;
#[cfg(test)]
mod gates;
#[cfg(test)]
mod refusals;
#[cfg(test)]
mod rows;
#[cfg(test)]
mod started;
pub mod tree;
pub mod tripled;
