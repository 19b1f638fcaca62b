//! Tests of the entity store, and of the demo that shows it.
#![tactic(auto)]

#[cfg(test)]
mod calls;
#[cfg(test)]
mod demos;
#[cfg(test)]
mod kept;
#[cfg(test)]
mod leaps;
#[cfg(test)]
mod own_rules;
#[cfg(test)]
mod refusals;
#[cfg(test)]
mod rows;
#[cfg(test)]
mod sets;
#[cfg(test)]
mod stores;
#[cfg(test)]
mod ticks;
