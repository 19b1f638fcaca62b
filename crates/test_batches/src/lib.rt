//! Tests of plans with batches.
#![tactic(auto)]

#[cfg(test)]
mod adding;
#[cfg(test)]
mod adds;
#[cfg(test)]
mod bounds;
#[cfg(test)]
mod gate;
#[cfg(test)]
mod plans;
#[cfg(test)]
mod rounds;
#[cfg(test)]
mod rules;
#[cfg(test)]
mod settled;
#[cfg(test)]
mod stages;
