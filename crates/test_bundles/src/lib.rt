//! Tests of bundles, which are taken of worlds and of views, and of accessors.
#![tactic(auto)]

#[cfg(test)]
mod accessor_tests;
#[cfg(test)]
mod bundles;
#[cfg(test)]
mod chosen;
#[cfg(test)]
mod exec_tests;
#[cfg(test)]
mod lent_calls;
#[cfg(test)]
mod shown;
#[cfg(test)]
mod tuples;
