//! Tests of asynchronous dispatchers, and an example of one.
#![tactic(auto)]

#[cfg(test)]
mod adds;
#[cfg(test)]
mod batch;
#[cfg(test)]
mod ended;
#[cfg(test)]
mod gate_async;
pub mod meanwhile;
#[cfg(test)]
mod refusals;
#[cfg(test)]
mod rows;
#[cfg(test)]
mod setups;
#[cfg(test)]
mod stages_async;
