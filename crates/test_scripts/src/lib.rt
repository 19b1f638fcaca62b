//! Tests of scripts, by whole runs, of tables of them, and of what their lines say.
#![tactic(auto)]

#[cfg(test)]
mod manners;
#[cfg(test)]
mod readers;
#[cfg(test)]
mod refusals;
#[cfg(test)]
mod runs;
#[cfg(test)]
mod tables;
#[cfg(test)]
mod writers;
