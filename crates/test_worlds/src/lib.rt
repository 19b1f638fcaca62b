//! Tests of worlds and of views that are parted, and of calls of worlds and views whose memory is refused.
#![tactic(auto)]

#[cfg(test)]
mod error_tests;
#[cfg(test)]
mod parted_in_two;
#[cfg(test)]
mod parted_tests;
#[cfg(test)]
mod parted_threads;
#[cfg(test)]
mod refusals;
#[cfg(test)]
mod world;
