//! Tests of the examples: what comes out of each.
#![tactic(auto)]

#[cfg(test)]
mod each_once;
#[cfg(test)]
mod lent_view;
#[cfg(test)]
mod own_bundle;
