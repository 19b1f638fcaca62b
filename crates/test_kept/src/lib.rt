//! Tests of dispatchers whose stages run on workers that are kept, and an example of one.
#![tactic(auto)]

#[cfg(test)]
mod adds;
#[cfg(test)]
mod counts;
pub mod frames;
#[cfg(test)]
mod gates;
#[cfg(test)]
mod keeping;
pub mod moves;
#[cfg(test)]
mod reads;
#[cfg(test)]
mod refusals;
