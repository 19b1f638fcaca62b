//! Tests of cells, shared worlds and tables of kinds, and an example of each of the last two.
#![tactic(auto)]

#[cfg(test)]
mod cell_tests;
#[cfg(test)]
mod contended;
#[cfg(test)]
mod meta_tests;
pub mod numbers;
pub mod orders;
#[cfg(test)]
mod refusals;
#[cfg(test)]
mod shared_tests;
pub mod shared_total;
#[cfg(test)]
mod word_tests;
#[cfg(test)]
mod worlds;
